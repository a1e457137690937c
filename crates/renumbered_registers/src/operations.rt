// Operations with the numbers of their registers: an operation puts the next number, and reads its sources by theirs.
// A source that the run has not put has none, and then the operation cannot be numbered.

ghost use Rattle.std.specs.Prelude.{◌≡◌, ◌^◌, ◌<◌, ℕ, Some, None, IfOk, OnOk, option_map, if◌then◌else◌};
ghost use Rattle.icode.specs.Plain.{Tile, plain_op};
ghost use Rattle.nests.specs.Rounds.{put_after};
ghost use Rattle.renumbered_registers.specs.Renumbered.{tile_from, with_sources, with_put, numbered_op, after_op};
ghost use Rattle.renumbered_registers.specs.Views.{plain_numbering};

use crate::numbering::Numbering;
use icode::program::Op;
use memory::NoMemory;
use std::alloc::Global;

// The register's number in place of it, if it has one.
fn renumber(numbering: &Numbering, register: &mut u64) -> bool
    ensures { (if result then Some register.new else None)
        ≡ (plain_numbering numbering.now).numbers register.old }
{
    match numbering.number(*register as u128) {
        Some(number) => {
            *register = number;
            true
        }
        None => false,
    }
}

// So with the first source of a tile, if the numbers of all of them follow one another.
fn renumber_tile(lanes: u64, numbering: &Numbering, source: &mut u64) -> bool
    ensures { let z = plain_numbering numbering.now in
        (register : ℕ) → (if result then Some (Tile register source.new) else None)
        ≡ tile_from lanes z register source.old (z.numbers source.old) }
{
    match numbering.number(*source as u128) {
        Some(first) => {
            if !numbering.are_consecutive(lanes, *source, first) {
                return false;
            }
            *source = first;
            true
        }
        None => false,
    }
}

// The numbers of the operation's sources in place of them, if all of them have been put.
fn set_sources(lanes: u64, numbering: &Numbering, op: &mut Op) -> bool
    ensures { (if result then Some (plain_op op.new) else None)
        ≡ with_sources lanes (plain_numbering numbering.now) (plain_op op.old) }
{
    match op {
        Op::Load { .. } => true,
        Op::Store { register, .. } => renumber(numbering, register),
        Op::Zero { .. } => true,
        Op::Add { left, right, .. } => renumber(numbering, left) && renumber(numbering, right),
        Op::Sub { left, right, .. } => renumber(numbering, left) && renumber(numbering, right),
        Op::Neg { source, .. } => renumber(numbering, source),
        Op::MulConst { source, .. } => renumber(numbering, source),
        Op::MulTable { source, .. } => renumber(numbering, source),
        Op::Tile { source, .. } => renumber_tile(lanes, numbering, source),
    }
}

// The operation puts this register, or those from it on.
fn set_put(number: u64, op: &mut Op)
    ensures { plain_op op.new ≡ with_put number (plain_op op.old) }
{
    match op {
        Op::Load { register, .. } => *register = number,
        Op::Store { .. } => (),
        Op::Zero { register } => *register = number,
        Op::Add { register, .. } => *register = number,
        Op::Sub { register, .. } => *register = number,
        Op::Neg { register, .. } => *register = number,
        Op::MulConst { register, .. } => *register = number,
        Op::MulTable { register, .. } => *register = number,
        Op::Tile { register, .. } => *register = number,
    }
}

// What the operation puts gets the next numbers.
fn put_by(lanes: u64, numbering: &mut Numbering, op: &Op) -> Result<(), NoMemory>
    requires { put_after lanes numbering.old.next (plain_op op.now) < 2 ^ 20 }
    ensures { OnOk result (plain_numbering numbering.new
        ≡ after_op lanes (plain_numbering numbering.old) (plain_op op.now)) }
{
    match op {
        Op::Load { register, .. } => numbering.put(*register as u128),
        Op::Store { .. } => Ok(()),
        Op::Zero { register } => numbering.put(*register as u128),
        Op::Add { register, .. } => numbering.put(*register as u128),
        Op::Sub { register, .. } => numbering.put(*register as u128),
        Op::Neg { register, .. } => numbering.put(*register as u128),
        Op::MulConst { register, .. } => numbering.put(*register as u128),
        Op::MulTable { register, .. } => numbering.put(*register as u128),
        Op::Tile { register, .. } => numbering.put_all(lanes, *register),
    }
}

/// The operation with the numbers of its registers, if all that it reads have been put.
pub(crate) fn numbered_op(
    alloc: Global,
    lanes: u64,
    numbering: &mut Numbering,
    op: &Op,
) -> Result<Option<Op>, NoMemory>
    requires { put_after lanes numbering.old.next (plain_op op.now) < 2 ^ 20 }
    ensures made { IfOk result (λ made. option_map plain_op made
        ≡ numbered_op lanes (plain_numbering numbering.old) (plain_op op.now)) }
    ensures after { OnOk result (plain_numbering numbering.new
        ≡ after_op lanes (plain_numbering numbering.old) (plain_op op.now)) }
{
    let number = numbering.next;
    let mut made = op.copied(alloc)?;
    let are_put = set_sources(lanes, numbering, &mut made);
    put_by(lanes, numbering, op)?;
    if !are_put {
        return Ok(None);
    }
    set_put(number, &mut made);
    Ok(Some(made))
}
