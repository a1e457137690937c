// What numbers are at most, whatever their sign. Numbers up to 2^53 are doubles; a reduction finds the multiple of
// the modulus that it takes off, and so does a product, where the quotient is below 2^51.

ghost use Rattle.std.specs.Prelude.{◌≡◌, ◌+◌, ◌^◌, ◌<◌, ◌≤◌, slice_set};
ghost use Rattle.double_code.specs.Doubled.{bound_at, greatest_bound, most_of, reduced_bound, array_bound};
ghost use Rattle.double_code.specs.Products.{product_bound};
ghost use Rattle.double_code.specs.Reductions.{limit_of};

use icode::program::Array;

/// The greatest number that a reduction takes.
pub fn limit_of(modulus: u64) -> u64
    ensures { result ≡ limit_of modulus }
{
    if modulus < 8 { modulus << 50 } else { 1 << 53 }
}

/// The greatest number that a product takes.
pub fn most_of(modulus: u64) -> u64
    ensures { result ≡ most_of modulus }
{
    limit_of(modulus).min((1 << 52) - 2)
}

/// What a number is at most after a reduction.
pub fn reduced_bound(modulus: u64) -> u64
    requires { modulus < 2 ^ 50 }
    ensures { result ≡ reduced_bound modulus }
{
    modulus / 2 + 1
}

/// What a product is at most, of a number that is at most `most`.
pub fn product_bound(modulus: u64, most: u64) -> u64
    requires modulus { modulus < 2 ^ 50 }
    requires most { most ≤ 2 ^ 53 }
    ensures { result ≡ product_bound modulus most }
{
    modulus / 2 + (most as u128 * modulus as u128 / (1 << 53)) as u64 + 1
}

pub(crate) fn bound_of_array(modulus: u64, array: Array) -> u64
    requires { modulus < 2 ^ 50 }
    ensures { result ≡ array_bound modulus array }
{
    match array {
        Array::X => modulus,
        Array::Y => modulus,
        Array::A => modulus + 1,
        Array::B => modulus + 1,
    }
}

/// The bound of a register, which is the limit where none is known.
pub(crate) fn bound_of(modulus: u64, bounds: &[u64], register: u64) -> u64
    ensures { result ≡ bound_at modulus bounds.now register }
{
    if (register as usize) < bounds.len() {
        bounds[register as usize]
    } else {
        limit_of(modulus)
    }
}

pub(crate) fn put_bound(bounds: &mut [u64], register: u64, bound: u64)
    ensures { bounds.new ≡ slice_set bounds.old register bound }
{
    if (register as usize) < bounds.len() {
        bounds[register as usize] = bound;
    }
}

/// The greatest bound of `count` registers.
pub(crate) fn greatest_of(modulus: u64, bounds: &[u64], count: u64, from: u64) -> u64
    requires { from + count < 2 ^ 64 }
    ensures { result ≡ greatest_bound modulus bounds.now count from }
{
    if count == 0 {
        return 0;
    }
    bound_of(modulus, bounds, from).max(greatest_of(modulus, bounds, count - 1, from + 1))
}
