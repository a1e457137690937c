// Products of a register.

ghost use Rattle.std.specs.Prelude.{◌≡◌, ℕ, ◌+◌, ◌-◌, ◌*◌, ◌<◌, All, length, slice_index};
ghost use Rattle.icode.specs.Actions.{lane_factors};
ghost use Rattle.icode.specs.Registers.{scaled, table_factors};

use icode::address::{same_factors, table_factors};
use icode::effect::scale_register;
use icode::shape::Shape;

/// Multiplies a register by the same factor on all lanes.
#[inline]
pub(crate) fn scale_by_constant(
    shape: &Shape,
    registers: &mut [u64],
    register: u64,
    source: u64,
    factor: u64,
)
    requires named { (register < shape.now.regs) × (source < shape.now.regs) }
    requires file { length registers.old ≡ shape.now.regs * shape.now.lanes }
    requires residues { (k : ℕ) → slice_index registers.old k < shape.now.modulus }
    requires factors { All (λ c. c < shape.now.modulus)
        (lane_factors shape.now.lanes (λ _. factor)) }
    ensures { registers.new ≡ scaled shape.now registers.old register source
        (lane_factors shape.now.lanes (λ _. factor)) }
{
    let lanes = shape.lanes;
    if lanes == 1 {
        let (to, from) = (register * lanes, source * lanes);
        registers[to as usize] = shape.modulus.mul(registers[from as usize], factor);
        return;
    }
    let factors = same_factors(factor, lanes);
    scale_register(shape, registers, register, source, &factors);
}

/// Multiplies a register, the first operand, by the entries of each lane, from `at` on.
#[inline]
pub(crate) fn scale_by_entries(
    shape: &Shape,
    registers: &mut [u64],
    operands: (u64, u64),
    entries: &[u64],
    at: u64,
    step: u64,
)
    requires named { (operands.0 < shape.now.regs) × (operands.1 < shape.now.regs) }
    requires file { length registers.old ≡ shape.now.regs * shape.now.lanes }
    requires residues { (k : ℕ) → slice_index registers.old k < shape.now.modulus }
    requires inside { at + step * (shape.now.lanes - 1) < length entries.now }
    requires factors { All (λ c. c < shape.now.modulus)
        (table_factors shape.now.lanes entries.now at step) }
    ensures { registers.new ≡ scaled shape.now registers.old operands.0 operands.1
        (table_factors shape.now.lanes entries.now at step) }
{
    let (register, source) = operands;
    let lanes = shape.lanes;
    if lanes == 1 {
        let (to, from) = (register * lanes, source * lanes);
        registers[to as usize] = shape
            .modulus
            .mul(registers[from as usize], entries[at as usize]);
        return;
    }
    let factors = table_factors(entries, lanes, at, step);
    scale_register(shape, registers, register, source, &factors);
}
