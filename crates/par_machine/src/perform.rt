// One action of a processor, by the operation that it stands for.

ghost use Rattle.std.specs.Prelude.{◌≡◌, ℕ, ◌+◌, ◌*◌, ◌<◌, [], length, slice_index};
ghost use Rattle.icode.specs.Actions.{StepFits};
ghost use Rattle.icode.specs.OnRegisters.{registers_after};
ghost use Rattle.icode.specs.Plain.{plain_op};
ghost use Rattle.par_machine.specs.Header.{header_of};
ghost use Rattle.par_machine.specs.OnRegisters.{IsOnRegisters, operations_of, muls_of, counted_op};
ghost use Rattle.par_machine.specs.Performed.{HasRoom, OpIsWithin, step_by, action_by, performed};

use crate::header::Header;
use crate::scale::{scale_by_constant, scale_by_entries};
use icode::action::Counts;
use icode::address::address_at;
use icode::arithmetic::Operation::{Difference, Sum};
use icode::effect::{clear_register, combine_registers, copy_lanes, negate_register, transpose};
use icode::program::Op;

/// Does the operation, where these are the values of the open loops on this processor.
#[inline]
pub(crate) fn perform(
    header: &Header,
    op: &Op,
    values: &[u64],
    proc: u64,
    memory: &mut [u64],
    registers: &mut [u64],
)
    requires within { OpIsWithin header.now op.now (length values.now) }
    requires fits { StepFits (header_of header.now) (step_by header.now op.now values.now proc) }
    requires memory { length memory.old ≡ 4 * header.now.shape.room }
    requires file { length registers.old ≡ header.now.shape.regs * header.now.shape.lanes }
    requires residues { (k : ℕ) → slice_index registers.old k < header.now.shape.modulus }
    ensures memory { memory.new
        ≡ (performed header.now op.now values.now proc memory.old registers.old).memory }
    ensures registers { registers.new
        ≡ (performed header.now op.now values.now proc memory.old registers.old).registers }
{
    let shape = &header.shape;
    let lanes = shape.lanes;
    // Two tests tell loads and stores, and one jump the others: more arms make it two jumps.
    match op {
        Op::Load {
            register,
            array,
            place,
        } => {
            let at = address_at(shape.room, *array, place.value(values, proc));
            copy_lanes(memory, at, registers, *register * lanes, lanes);
        }
        Op::Store {
            array,
            place,
            register,
        } => {
            let at = address_at(shape.room, *array, place.value(values, proc));
            copy_lanes(registers, *register * lanes, memory, at, lanes);
        }
        _ => perform_on_registers(header, op, values, proc, registers),
    }
}

/// What has been executed, with the operation.
#[inline]
pub(crate) fn counted(op: &Op, lanes: u64, before: Counts) -> Counts
    requires { HasRoom lanes before }
    ensures { result ≡ counted_op lanes (plain_op op.now) before }
{
    let mut counts = before;
    match op {
        Op::Load { .. } => counts.loads += lanes,
        Op::Store { .. } => counts.stores += lanes,
        _ => {
            counts.operations += operations_of(op, lanes);
            counts.muls += muls_of(op, lanes);
        }
    }
    counts
}

/// Does the operation, which loads and stores nothing, on one processor's registers.
#[inline]
fn perform_on_registers(header: &Header, op: &Op, values: &[u64], proc: u64, registers: &mut [u64])
    requires on_registers { IsOnRegisters (plain_op op.now) }
    requires within { OpIsWithin header.now op.now (length values.now) }
    requires fits { StepFits (header_of header.now) (step_by header.now op.now values.now proc) }
    requires file { length registers.old ≡ header.now.shape.regs * header.now.shape.lanes }
    requires residues { (k : ℕ) → slice_index registers.old k < header.now.shape.modulus }
    ensures { registers.new ≡ registers_after header.now.shape.modulus header.now.shape.lanes
        (action_by header.now op.now values.now proc) registers.old }
{
    let shape = &header.shape;
    match op {
        Op::Zero { register } => clear_register(shape, registers, *register),
        Op::Add {
            register,
            left,
            right,
        } => combine_registers(Sum, shape, registers, *register, *left, *right),
        Op::Sub {
            register,
            left,
            right,
        } => combine_registers(Difference, shape, registers, *register, *left, *right),
        Op::Neg { register, source } => negate_register(shape, registers, *register, *source),
        Op::MulConst {
            register,
            source,
            factor,
        } => scale_by_constant(shape, registers, *register, *source, *factor),
        Op::MulTable {
            register,
            source,
            table,
            place,
            step,
        } => {
            let entries = &header.tables[*table as usize];
            let at = place.value(values, proc);
            scale_by_entries(shape, registers, (*register, *source), entries, at, *step);
        }
        Op::Tile { register, source } => transpose(registers, *register, *source, shape.lanes),
        Op::Load { .. } | Op::Store { .. } => unreachable!(),
    }
}

/// How many operations on words it counts as.
#[inline]
fn operations_of(op: &Op, lanes: u64) -> u64
    ensures { result ≡ operations_of lanes (plain_op op.now) }
{
    match op {
        Op::Load { .. } | Op::Store { .. } | Op::Zero { .. } | Op::Tile { .. } => 0,
        _ => lanes,
    }
}

/// How many multiplications of words are among them.
#[inline]
fn muls_of(op: &Op, lanes: u64) -> u64
    ensures { result ≡ muls_of lanes (plain_op op.now) }
{
    match op {
        Op::MulConst { .. } | Op::MulTable { .. } => lanes,
        _ => 0,
    }
}
