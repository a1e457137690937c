// Sums of places: copies, multiples, and the sum of two.
ghost use Rattle.std.specs.Prelude.{◌≡◌, ℕ, ◌+◌, ◌*◌, ◌^◌, ◌<◌, List, IfOk};
ghost use Rattle.perm_algebra.specs.Affine.{scaled, added, value};
ghost use Rattle.perm_algebra.specs.Contract.{IsSumOver};
ghost use Rattle.perm_algebra.specs.Room.{CanScale, CanAdd};
ghost use Rattle.perm_algebra.specs.Views.{plain_sum};
ghost use Rattle.perm_algebra.specs.Wrapped.{raised, wrapped_multiple, wrapped_sum};

use crate::Affine;
use memory::NoMemory;
use std::alloc::Global;

/// A copy of a sum.
pub fn copy(alloc: Global, sum: &Affine) -> Result<Affine, NoMemory>
    ensures { IfOk result (λ a. plain_sum a ≡ plain_sum sum.now) }
{
    Ok(match sum {
        Affine::Constant(c) => Affine::Constant(*c),
        Affine::Variable(factor, variable, rest) => {
            let rest = Box::new(alloc, copy(alloc, rest)?)?;
            Affine::Variable(*factor, *variable, rest)
        }
        Affine::Remainder(factor, of, divisor, rest) => {
            let of = Box::new(alloc, copy(alloc, of)?)?;
            let rest = Box::new(alloc, copy(alloc, rest)?)?;
            Affine::Remainder(*factor, of, *divisor, rest)
        }
        Affine::Quotient(factor, of, divisor, rest) => {
            let of = Box::new(alloc, copy(alloc, of)?)?;
            let rest = Box::new(alloc, copy(alloc, rest)?)?;
            Affine::Quotient(*factor, of, *divisor, rest)
        }
    })
}

/// `k` times the sum, wherever that fits. A part whose factor would not fit is 0 there, whatever its factor becomes.
#[tactic(auto, using(crate::proofs::WrappedLaws::value_multiple, crate::proofs::WrappedLaws::affine_multiple, crate::proofs::WrappedLaws::multiple_form))]
pub fn multiple(k: u64, sum: Affine) -> Affine
    ensures value { (vs : ℕ → ℕ) → k * value (plain_sum sum) vs < 2 ^ 64
        → value (plain_sum result) vs ≡ k * value (plain_sum sum) vs }
    ensures affine { (counts : List ℕ) → IsSumOver counts sum → IsSumOver counts result }
    ensures form { CanScale k (plain_sum sum) → plain_sum result ≡ scaled k (plain_sum sum) }
{
    let mut multiple = sum;
    multiply(k, &mut multiple);
    multiple
}

fn multiply(k: u64, sum: &mut Affine)
    ensures { plain_sum sum.new ≡ wrapped_multiple k (plain_sum sum.old) }
{
    match sum {
        Affine::Constant(c) => *c = k.wrapping_mul(*c),
        Affine::Variable(factor, _, rest) => {
            *factor = k.wrapping_mul(*factor);
            multiply(k, rest);
        }
        Affine::Remainder(factor, _, _, rest) => {
            *factor = k.wrapping_mul(*factor);
            multiply(k, rest);
        }
        Affine::Quotient(factor, _, _, rest) => {
            *factor = k.wrapping_mul(*factor);
            multiply(k, rest);
        }
    }
}

/// The sum of two sums, wherever that fits.
#[tactic(auto, using(crate::proofs::WrappedLaws::value_sum, crate::proofs::WrappedLaws::affine_sum, crate::proofs::WrappedLaws::sum_form))]
pub fn both(a: Affine, b: Affine) -> Affine
    ensures value { (vs : ℕ → ℕ) → value (plain_sum a) vs + value (plain_sum b) vs < 2 ^ 64
        → value (plain_sum result) vs ≡ value (plain_sum a) vs + value (plain_sum b) vs }
    ensures affine { (counts : List ℕ) → IsSumOver counts a → IsSumOver counts b
        → IsSumOver counts result }
    ensures form { CanAdd (plain_sum a) (plain_sum b)
        → plain_sum result ≡ added (plain_sum a) (plain_sum b) }
{
    let mut both = a;
    append(&mut both, b);
    both
}

// Puts the sum `last` in the place of the constant, and adds the constant to it.
fn append(sum: &mut Affine, last: Affine)
    ensures { plain_sum sum.new ≡ wrapped_sum (plain_sum sum.old) (plain_sum last) }
{
    match sum {
        Affine::Constant(c) => {
            let mut end = last;
            raise(*c, &mut end);
            *sum = end;
        }
        Affine::Variable(_, _, rest) => append(rest, last),
        Affine::Remainder(_, _, _, rest) => append(rest, last),
        Affine::Quotient(_, _, _, rest) => append(rest, last),
    }
}

// Adds to the constant.
fn raise(by: u64, sum: &mut Affine)
    ensures { plain_sum sum.new ≡ raised by (plain_sum sum.old) }
{
    match sum {
        Affine::Constant(c) => *c = by.wrapping_add(*c),
        Affine::Variable(_, _, rest) => raise(by, rest),
        Affine::Remainder(_, _, _, rest) => raise(by, rest),
        Affine::Quotient(_, _, _, rest) => raise(by, rest),
    }
}
