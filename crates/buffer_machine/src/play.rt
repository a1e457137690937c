// An action of a processor.

ghost use Rattle.std.specs.Prelude.{◌≡◌, ℕ, ◌+◌, ◌*◌, ◌<◌, ◌≤◌, ◌++◌, [], ◌∷◌, length, slice_index};
ghost use Rattle.icode.specs.Actions.{RegistersFit, FactorsFit};
ghost use Rattle.icode.specs.Buffers.{overlaid, stored, stores_among};
ghost use Rattle.icode.specs.Operation.{AddressFits};
ghost use Rattle.buffer_machine.specs.Acting.{registers_on};

use crate::queue::Queue;
use crate::registers::Registers;
use icode::action::Action;
use icode::shape::Shape;

/// A processor with these registers and this queue does the action: on memory as it sees it, and its store waits.
pub(crate) fn play(
    shape: &Shape,
    action: &Action,
    memory: &[u64],
    registers: &mut Registers,
    queue: &mut Queue,
)
    requires named { RegistersFit shape.now.regs shape.now.lanes action.now }
    requires factors { FactorsFit shape.now.modulus action.now }
    requires address { AddressFits shape.now.lanes (length memory.now) action.now }
    requires file { length registers.old ≡ shape.now.regs * shape.now.lanes }
    requires residues { (k : ℕ) → slice_index registers.old k < shape.now.modulus }
    requires room { stores_among (action.now ∷ []) ≤ queue.old.room }
    requires lanes { queue.old.lanes ≡ shape.now.lanes }
    requires span { queue.old.span ≡ length memory.now }
    ensures registers { registers.new ≡ registers_on shape.now.modulus shape.now.lanes action.now
        (overlaid memory.now queue.old.waiting) registers.old }
    ensures waiting { queue.new.waiting
        ≡ queue.old.waiting ++ stored shape.now.lanes action.now registers.old }
    ensures room { queue.new.room + stores_among (action.now ∷ []) ≡ queue.old.room }
    ensures most { queue.new.most ≡ queue.old.most }
    ensures lanes { queue.new.lanes ≡ queue.old.lanes }
    ensures span { queue.new.span ≡ queue.old.span }
{
    match action {
        Action::Load { register, address } => {
            registers.load(shape, *register, memory, *address, queue);
        }
        Action::Store { address, register } => {
            registers.store(shape, *register, *address, queue);
        }
        _ => registers.change(shape, action),
    }
}
