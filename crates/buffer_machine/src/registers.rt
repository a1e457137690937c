// The registers of a processor.

ghost use Rattle.std.specs.Prelude.{◌≡◌, ℕ, ◌+◌, ◌*◌, ◌<◌, ◌≤◌, [], ◌∷◌, ◌++◌, length, replicate, slice_index, IfOk};
ghost use Rattle.icode.specs.Actions.{RegistersFit, FactorsFit};
ghost use Rattle.icode.specs.Buffers.{overlaid};
ghost use Rattle.icode.specs.Machine.{register_of, with_words, words_at};
ghost use Rattle.icode.specs.OnRegisters.{ChangesRegisters, registers_after};

use crate::queue::Queue;
use icode::action::Action;
use icode::change::change_registers;
use icode::shape::Shape;
use memory::NoMemory;
use std::alloc::Global;
use std::marker::Model;

/// The registers of a processor, which a clause sees as a list of words.
#[derive(Drop)]
pub(crate) struct Registers {
    words: Vec<u64>,
}

impl Model for Registers {
    ghost use Rattle.std.specs.Prelude.{ℕ, List};

    ghost Value = { List ℕ };

    ghost view = { λ r. r.words.items };
}

impl Registers {
    /// `count` words, all 0.
    pub(crate) fn new(alloc: Global, count: u64) -> Result<Self, NoMemory>
        ensures { IfOk result (λ registers. registers ≡ replicate count 0) }
    {
        let words = vec![in alloc; 0; count as usize]?;
        Ok(Registers { words })
    }

    /// All words, register after register.
    pub(crate) fn words(&self) -> &[u64]
        ensures { result.now ≡ self.now }
    {
        &self.words
    }

    /// They become these words.
    pub(crate) fn put(&mut self, words: &[u64])
        requires { length words.now ≡ length self.old }
        ensures { self.new ≡ words.now }
    {
        self.words.copy_from_slice(words);
    }

    /// 0 in all words.
    pub(crate) fn clear(&mut self)
        ensures { self.new ≡ replicate (length self.old) 0 }
    {
        self.words.fill(0);
    }

    /// The register becomes the words from the address on, as they are seen over the stores that wait.
    pub(crate) fn load(
        &mut self,
        shape: &Shape,
        register: u64,
        memory: &[u64],
        address: u64,
        queue: &Queue,
    )
        requires named { register < shape.now.regs }
        requires file { length self.old ≡ shape.now.regs * shape.now.lanes }
        requires inside { address + shape.now.lanes ≤ length memory.now }
        requires lanes { queue.now.lanes ≡ shape.now.lanes }
        requires span { queue.now.span ≡ length memory.now }
        ensures { self.new ≡ with_words self.old (register * shape.now.lanes)
            (words_at shape.now.lanes (overlaid memory.now queue.now.waiting) address) }
    {
        queue.load(memory, address, &mut self.words, register * shape.lanes);
    }

    /// The words of the register, one for each lane, wait in the queue for the address.
    pub(crate) fn store(&self, shape: &Shape, register: u64, address: u64, queue: &mut Queue)
        requires named { register < shape.now.regs }
        requires file { length self.now ≡ shape.now.regs * shape.now.lanes }
        requires room { 0 < queue.old.room }
        requires inside { address + queue.old.lanes ≤ queue.old.span }
        requires lanes { queue.old.lanes ≡ shape.now.lanes }
        ensures waiting { queue.new.waiting ≡ queue.old.waiting ++ record {
          address = address;
          words = register_of shape.now.lanes self.now register;
        } ∷ [] }
        ensures room { queue.new.room + 1 ≡ queue.old.room }
        ensures most { queue.new.most ≡ queue.old.most }
        ensures lanes { queue.new.lanes ≡ queue.old.lanes }
        ensures span { queue.new.span ≡ queue.old.span }
    {
        queue.push(address, &self.words, register * shape.lanes);
    }

    /// Does an action that loads and stores nothing.
    pub(crate) fn change(&mut self, shape: &Shape, action: &Action)
        requires alone { ChangesRegisters action.now }
        requires named { RegistersFit shape.now.regs shape.now.lanes action.now }
        requires factors { FactorsFit shape.now.modulus action.now }
        requires file { length self.old ≡ shape.now.regs * shape.now.lanes }
        requires residues { (k : ℕ) → slice_index self.old k < shape.now.modulus }
        ensures { self.new ≡ registers_after shape.now.modulus shape.now.lanes action.now self.old }
    {
        change_registers(shape, action, &mut self.words);
    }
}
