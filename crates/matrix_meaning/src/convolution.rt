// Cyclic convolution by its definition, and how transforms compute a convolution (Cooley and
// Tukey, 1965; for rings Pollard, 1971).
ghost use Rattle.std.specs.Prelude.{◌≡◌, ℕ, ◌+◌, ◌-◌, ◌*◌, ◌%◌, ◌^◌, ◌<◌, ◌≤◌, length, slice_index, vec_len, IfOk, All, MatchOption};
ghost use Rattle.matrix_meaning.specs.Convolution.{convolution, power_sum, ConvolutionByDiagonal, ConvolutionByTransforms, IsPrincipal, IsFirstBadPower};
ghost use Rattle.matrix_meaning.specs.Undoing.{InverseUndoes, TransformUndoes};
ghost use Rattle.operators.specs.Sum.{sum_below};
ghost use Rattle.ring_mod.specs.Residue.{difference_mod, power_mod};

use memory::NoMemory;
use ring_mod::Modulus;
use std::alloc::Global;

// One item of the convolution.
fn convolution_at(modulus: &Modulus, h: &[u64], x: &[u64], k: u64) -> u64
    requires size { length h.now ≡ length x.now }
    requires place { k < length x.now }
    requires h_in { All (λ v. v < modulus.now) h.now }
    requires x_in { All (λ v. v < modulus.now) x.now }
    ensures value { result ≡ sum_below (length x.now) (λ l. slice_index h.now l * slice_index x.now
        (difference_mod (length x.now) k l)) % modulus.now }
    ensures residue { result < modulus.now }
{
    let n = x.len();
    let mut sum = 0;
    for l in 0..n {
        let term = modulus.mul(h[l], x[(k as usize + (n - l)) % n]);
        sum = modulus.add(sum, term);
    }
    sum
}

/// The cyclic convolution of `h` and `x`, by its plain sums.
pub fn conv_plain(
    alloc: Global,
    modulus: &Modulus,
    h: &[u64],
    x: &[u64],
) -> Result<Vec<u64>, NoMemory>
    requires some { 1 ≤ length x.now }
    requires size { length h.now ≡ length x.now }
    requires h_in { All (λ v. v < modulus.now) h.now }
    requires x_in { All (λ v. v < modulus.now) x.now }
    ensures value { IfOk result
        (λ y. y.items ≡ convolution modulus.now (length x.now) h.now x.now) }
    ensures size { IfOk result (λ y. vec_len y ≡ length x.now) }
    ensures residues { IfOk result (λ y. All (λ v. v < modulus.now) y.items) }
{
    let n = x.len() as u64;
    Ok(
        (0..n)
            .map(|k| convolution_at(modulus, h, x, k))
            .collect(alloc)?,
    )
}

// The sum of the powers of q with exponents below n, and the power n, by halves.
fn geometric_sum(modulus: &Modulus, q: u64, n: u64) -> (u64, u64)
    requires { q < modulus.now }
    ensures sum { result.0 ≡ sum_below n (λ l. power_mod modulus.now q l) % modulus.now }
    ensures power { result.1 ≡ power_mod modulus.now q n }
    ensures sum_in { result.0 < modulus.now }
    ensures power_in { result.1 < modulus.now }
{
    if n == 0 {
        return (0, modulus.reduce(1));
    }
    let (half_sum, half_power) = geometric_sum(modulus, q, n / 2);
    let sum = modulus.add(half_sum, modulus.mul(half_power, half_sum));
    let power = modulus.mul(half_power, half_power);
    if n % 2 == 0 {
        return (sum, power);
    }
    (modulus.add(sum, power), modulus.mul(power, q))
}

// The sum of the powers of w with the exponents 0, k, 2 * k, up to (n - 1) * k.
fn power_sum(modulus: &Modulus, n: u64, w: u64, k: u64) -> u64
    requires { w < modulus.now }
    ensures { result ≡ power_sum modulus.now n w k }
{
    geometric_sum(modulus, modulus.pow(w, k), n).0
}

/// The least place from 1 to n - 1 whose power sum is not 0.
pub fn first_bad_power(modulus: &Modulus, n: u64, w: u64) -> Option<u64>
    requires { w < modulus.now }
    ensures { MatchOption result (IsPrincipal modulus.now n w)
        (λ k. IsFirstBadPower modulus.now n w k) }
{
    for k in 1..n {
        if power_sum(modulus, n, w, k) != 0 {
            return Some(k);
        }
    }
    None
}

/// Cyclic convolution by transforms, modulo any m at which the power sums of the root are 0 and
/// the size has an inverse.
#[tactic(auto, using(crate::proofs::ConvolutionLaw::convolution_by_transforms, crate::proofs::ConvolutionLaw::convolution_by_diagonal))]
pub fn convolution_by_transforms()
    ensures transforms { ConvolutionByTransforms }
    ensures diagonal { ConvolutionByDiagonal }
{}

/// Where the power sums of the root are 0 and the size has an inverse, the transform and the
/// inverse transform undo each other.
#[tactic(auto, using(crate::proofs::Undoing::inverse_undoes, crate::proofs::Undoing::transform_undoes))]
pub fn inverse_undoes()
    ensures inverse { InverseUndoes }
    ensures transform { TransformUndoes }
{}
