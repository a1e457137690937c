// Bounds of registers, and the reductions that keep them. A bound b says that a register is below b times the modulus. A reduction
// takes half of that away where the register is not below it, so it halves the bound. Before a sum the greater of two bounds is
// halved, until both together are within the limit of the words.

ghost use Rattle.std.specs.Prelude.{◌≡◌, ◌+◌, ◌^◌, ◌<◌, slice_set, IfOk, OnOk};
ghost use Rattle.word_code.specs.Quicken.{bound_at, greater, greatest_bound};
ghost use Rattle.word_code.specs.Setting.{IsSettingWithin, AreBoundsWithin, settled_in};

use crate::program::{Reduction, Setting};
use memory::NoMemory;
use std::alloc::Global;

/// The bound of a register, which is the limit where none is known.
pub(crate) fn bound_of(limit: u64, bounds: &[u64], register: u64) -> u64
    ensures { result ≡ bound_at limit bounds.now register }
{
    if (register as usize) < bounds.len() {
        bounds[register as usize]
    } else {
        limit
    }
}

pub(crate) fn put_bound(bounds: &mut [u64], register: u64, bound: u64)
    ensures { bounds.new ≡ slice_set bounds.old register bound }
{
    if (register as usize) < bounds.len() {
        bounds[register as usize] = bound;
    }
}

fn greater_of(limit: u64, bounds: &[u64], left: u64, right: u64) -> u64
    ensures { result ≡ greater limit left right bounds.now }
{
    if bound_of(limit, bounds, right) <= bound_of(limit, bounds, left) {
        left
    } else {
        right
    }
}

/// The reductions after which the bounds of two registers are together at most the target: the greater
/// is halved, for as long as that may help.
pub(crate) fn settle(
    alloc: Global,
    setting: Setting,
    left: u64,
    right: u64,
    target: u64,
    bounds: &mut [u64],
) -> Result<Vec<Reduction>, NoMemory>
    requires setting { IsSettingWithin setting }
    requires sane { AreBoundsWithin setting bounds.old }
    ensures reductions { IfOk result
        (λ rs. rs.items ≡ (settled_in setting left right target bounds.old).reductions) }
    ensures after { OnOk result
        (bounds.new ≡ (settled_in setting left right target bounds.old).bounds) }
    ensures sane { OnOk result (AreBoundsWithin setting bounds.new) }
{
    let limit = setting.laziness.limit;
    let mut before = Vec::new(alloc);
    for _ in 0..2 * limit {
        if bound_of(limit, bounds, left) + bound_of(limit, bounds, right) <= target {
            return Ok(before);
        }
        let register = greater_of(limit, bounds, left, right);
        let half = (bound_of(limit, bounds, register) + 1) / 2;
        before.push(Reduction {
            register,
            amount: half * setting.modulus,
        })?;
        put_bound(bounds, register, half);
    }
    Ok(before)
}

/// The greatest bound of `count` registers.
pub(crate) fn greatest_of(limit: u64, bounds: &[u64], count: u64, from: u64) -> u64
    requires { from + count < 2 ^ 64 }
    ensures { result ≡ greatest_bound limit bounds.now count from }
{
    if count == 0 {
        return 0;
    }
    bound_of(limit, bounds, from).max(greatest_of(limit, bounds, count - 1, from + 1))
}
