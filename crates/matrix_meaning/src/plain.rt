// Entries of transforms, and their plain products with a list.
ghost use Rattle.std.specs.Prelude.{◌≡◌, ℕ, ◌*◌, ◌%◌, ◌^◌, ◌<◌, ◌≤◌, length, slice_index, vec_len, IfOk, All};
ghost use Rattle.ring_mod.specs.Inverse.{inverse_mod};
ghost use Rattle.matrix_meaning.specs.Dimensions.{entry_in, product_of, transform_in};
ghost use Rattle.matrix_meaning.specs.Kind.{entry_of};
ghost use Rattle.operators.specs.Sum.{sum_below};

use crate::Kind;
use memory::NoMemory;
use ring_mod::Modulus;
use std::alloc::Global;

// The inverse of the size, or 0 where it has none.
#[tactic(auto, using(crate::proofs::Units::no_inverse))]
fn inverse_or_zero(modulus: &Modulus, n: u64) -> u64
    ensures value { result ≡ inverse_mod modulus.now n }
    ensures residue { result < modulus.now }
{
    match modulus.inverse(n) {
        Some(inverse) => inverse,
        None => modulus.reduce(0),
    }
}

// The entry of one dimension.
#[tactic(auto, using(ring_mod::proofs::Powers::power_mod_of_power))]
fn entry_of_one(modulus: &Modulus, kind: Kind, n: u64, w: u64, k: u64, l: u64) -> u64
    requires size { 1 ≤ n }
    requires root { w < modulus.now }
    ensures value { result ≡ entry_of kind modulus.now n w k l }
    ensures residue { result < modulus.now }
{
    let m = modulus.get();
    match kind {
        Kind::Dft => modulus.pow(modulus.pow(w, k), l),
        Kind::Wht => {
            if (k & l).count_ones() % 2 == 0 {
                1
            } else {
                m - 1
            }
        }
        Kind::Idft => {
            let root = modulus.pow(w, n - 1);
            modulus.mul(
                inverse_or_zero(modulus, n),
                modulus.pow(modulus.pow(root, k), l),
            )
        }
    }
}

// The product of the sizes.
fn product(sizes: &[u64]) -> u64
    requires positive { 0 < product_of sizes.now }
    requires fits { product_of sizes.now < 2 ^ 64 }
    ensures { result ≡ product_of sizes.now }
{
    match sizes.split_first() {
        Some((first, later)) => *first * product(later),
        None => 1,
    }
}

/// The entry in row `k` and column `l` of the transform of these sizes modulo `m`, each with its
/// root. The last size is fastest.
pub fn entry(kind: Kind, sizes: &[u64], roots: &[u64], m: u64, k: u64, l: u64) -> u64
    requires modulus { (2 ≤ m) × (m < 2 ^ 62) }
    requires some { 1 ≤ length sizes.now }
    requires pairs { length roots.now ≡ length sizes.now }
    requires roots { All (λ w. w < m) roots.now }
    requires fits { product_of sizes.now < 2 ^ 64 }
    requires row { k < product_of sizes.now }
    requires column { l < product_of sizes.now }
    ensures value { result ≡ entry_in kind m sizes.now roots.now k l }
    ensures residue { result < m }
{
    let modulus = Modulus::new(m).unwrap();
    entry_from(&modulus, kind, sizes, roots, k, l)
}

// The entry, by the first size and those after it.
fn entry_from(modulus: &Modulus, kind: Kind, sizes: &[u64], roots: &[u64], k: u64, l: u64) -> u64
    requires some { 1 ≤ length sizes.now }
    requires pairs { length roots.now ≡ length sizes.now }
    requires roots { All (λ w. w < modulus.now) roots.now }
    requires fits { product_of sizes.now < 2 ^ 64 }
    requires row { k < product_of sizes.now }
    requires column { l < product_of sizes.now }
    ensures value { result ≡ entry_in kind modulus.now sizes.now roots.now k l }
    ensures residue { result < modulus.now }
{
    let Some((n, later)) = sizes.split_first() else {
        unreachable!()
    };
    let Some((w, more)) = roots.split_first() else {
        unreachable!()
    };
    if later.is_empty() {
        return entry_of_one(modulus, kind, *n, *w, k, l);
    }
    let s = product(later);
    let first = entry_of_one(modulus, kind, *n, *w, k / s, l / s);
    let others = entry_from(modulus, kind, later, more, k % s, l % s);
    modulus.mul(first, others)
}

// One item of the product: the row `k` times `x`.
fn row_times(kind: Kind, sizes: &[u64], roots: &[u64], m: u64, k: u64, x: &[u64]) -> u64
    requires modulus { (2 ≤ m) × (m < 2 ^ 62) }
    requires some { 1 ≤ length sizes.now }
    requires pairs { length roots.now ≡ length sizes.now }
    requires roots { All (λ w. w < m) roots.now }
    requires row { k < product_of sizes.now }
    requires size { length x.now ≡ product_of sizes.now }
    requires residues { All (λ v. v < m) x.now }
    ensures value { result ≡ sum_below (product_of sizes.now)
        (λ l. entry_in kind m sizes.now roots.now k l * slice_index x.now l) % m }
    ensures residue { result < m }
{
    let modulus = Modulus::new(m).unwrap();
    let mut sum = 0;
    for l in 0..x.len() {
        let term = modulus.mul(entry(kind, sizes, roots, m, k, l as u64), x[l]);
        sum = modulus.add(sum, term);
    }
    sum
}

/// The matrix of the transform of these sizes times `x`, by its plain sums.
pub fn times_plain(
    alloc: Global,
    kind: Kind,
    sizes: &[u64],
    roots: &[u64],
    m: u64,
    x: &[u64],
) -> Result<Vec<u64>, NoMemory>
    requires modulus { (2 ≤ m) × (m < 2 ^ 62) }
    requires some { 1 ≤ length sizes.now }
    requires pairs { length roots.now ≡ length sizes.now }
    requires roots { All (λ w. w < m) roots.now }
    requires size { length x.now ≡ product_of sizes.now }
    requires residues { All (λ v. v < m) x.now }
    ensures value { IfOk result (λ y. y.items ≡ transform_in kind m sizes.now roots.now x.now) }
    ensures size { IfOk result (λ y. vec_len y ≡ product_of sizes.now) }
    ensures residues { IfOk result (λ y. All (λ v. v < m) y.items) }
{
    let n = x.len() as u64;
    Ok(
        (0..n)
            .map(|k| row_times(kind, sizes, roots, m, k, x))
            .collect(alloc)?,
    )
}
