// Arithmetic on all lanes.

ghost use Rattle.std.specs.Prelude.{◌≡◌, ℕ, ◌<◌, ◌≤◌, take, slice_index};
ghost use Rattle.icode.specs.Machine.{lane_by_lane};
ghost use Rattle.icode.specs.Operation.{operated};

use crate::action::MAX_LANES;
use ring_mod::QuickModulus;

#[derive(Clone, Copy)]
pub enum Operation {
    Sum,
    Difference,
    Product,
}

#[inline]
pub fn operate(operation: Operation, modulus: &QuickModulus, a: u64, b: u64) -> u64
    requires a_in { a < modulus.now }
    requires b_in { b < modulus.now }
    ensures { result ≡ operated operation modulus.now a b }
{
    match operation {
        Operation::Sum => modulus.add(a, b),
        Operation::Difference => modulus.sub(a, b),
        Operation::Product => modulus.mul(a, b),
    }
}

/// The operation on the words of each lane.
pub fn combine(
    operation: Operation,
    modulus: &QuickModulus,
    lanes: u64,
    left: &[u64; MAX_LANES],
    right: &[u64; MAX_LANES],
) -> [u64; MAX_LANES]
    requires lanes { lanes ≤ 16 }
    requires left_in { (k : ℕ) → slice_index left.now k < modulus.now }
    requires right_in { (k : ℕ) → slice_index right.now k < modulus.now }
    ensures { take lanes result ≡ lane_by_lane (operated operation modulus.now)
        (take lanes left.now) (take lanes right.now) }
{
    let mut values = [0; MAX_LANES];
    for lane in 0..lanes {
        values[lane as usize] = operate(
            operation,
            modulus,
            left[lane as usize],
            right[lane as usize],
        );
    }
    values
}
