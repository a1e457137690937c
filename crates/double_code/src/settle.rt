// Reductions before an operation. A reduction takes a number to half of the modulus, or one more, so two of them
// make room for every sum and for every product.

ghost use Rattle.std.specs.Prelude.{◌≡◌, ◌+◌, ◌^◌, ◌<◌, IfOk, OnOk};
ghost use Rattle.double_code.specs.Doubled.{greater};
ghost use Rattle.double_code.specs.Setting.{IsSettingWithin, AreBoundsWithin, settled_in};

use crate::limits::{bound_of, put_bound, reduced_bound};
use crate::program::Setting;
use memory::NoMemory;
use std::alloc::Global;

fn greater_of(modulus: u64, bounds: &[u64], left: u64, right: u64) -> u64
    ensures { result ≡ greater modulus left right bounds.now }
{
    if bound_of(modulus, bounds, right) <= bound_of(modulus, bounds, left) {
        left
    } else {
        right
    }
}

/// The registers that are reduced so that the bounds of two registers are together at most the target.
pub(crate) fn settle(
    alloc: Global,
    setting: Setting,
    left: u64,
    right: u64,
    target: u64,
    bounds: &mut [u64],
) -> Result<Vec<u64>, NoMemory>
    requires setting { IsSettingWithin setting }
    requires sane { AreBoundsWithin setting bounds.old }
    ensures before { IfOk result
        (λ rs. rs.items ≡ (settled_in setting left right target bounds.old).before) }
    ensures after { OnOk result
        (bounds.new ≡ (settled_in setting left right target bounds.old).bounds) }
    ensures sane { OnOk result (AreBoundsWithin setting bounds.new) }
{
    let mut before = Vec::new(alloc);
    for _ in 0..2u64 {
        if bound_of(setting.modulus, bounds, left) + bound_of(setting.modulus, bounds, right)
            <= target
        {
            return Ok(before);
        }
        let register = greater_of(setting.modulus, bounds, left, right);
        before.push(register)?;
        put_bound(bounds, register, reduced_bound(setting.modulus));
    }
    Ok(before)
}
