// What an action does to registers.

ghost use Rattle.std.specs.Prelude.{◌≡◌, ℕ, ◌*◌, ◌<◌, length, slice_index};
ghost use Rattle.icode.specs.Actions.{RegistersFit, FactorsFit};
ghost use Rattle.icode.specs.OnRegisters.{ChangesRegisters, registers_after};

use crate::action::Action;
use crate::arithmetic::Operation::{Difference, Sum};
use crate::effect::{
    clear_register, combine_registers, negate_register, scale_register, transpose,
};
use crate::shape::Shape;

/// Does an action that loads and stores nothing on one processor's registers.
pub fn change_registers(shape: &Shape, action: &Action, registers: &mut [u64])
    requires alone { ChangesRegisters action.now }
    requires named { RegistersFit shape.now.regs shape.now.lanes action.now }
    requires factors { FactorsFit shape.now.modulus action.now }
    requires file { length registers.old ≡ shape.now.regs * shape.now.lanes }
    requires residues { (k : ℕ) → slice_index registers.old k < shape.now.modulus }
    ensures { registers.new
        ≡ registers_after shape.now.modulus shape.now.lanes action.now registers.old }
{
    match action {
        Action::Zero { register } => clear_register(shape, registers, *register),
        Action::Add {
            register,
            left,
            right,
        } => combine_registers(Sum, shape, registers, *register, *left, *right),
        Action::Sub {
            register,
            left,
            right,
        } => combine_registers(Difference, shape, registers, *register, *left, *right),
        Action::Neg { register, source } => negate_register(shape, registers, *register, *source),
        Action::Mul {
            register,
            source,
            factors,
        } => scale_register(shape, registers, *register, *source, factors),
        Action::Tile { register, source } => {
            transpose(registers, *register, *source, shape.lanes)
        }
        Action::Load { .. } | Action::Store { .. } => unreachable!(),
    }
}
