// What changes as a machine runs.

ghost use Rattle.std.specs.Prelude.{◌≡◌, ℕ, ◌+◌, ◌-◌, ◌*◌, ◌^◌, ◌<◌, ◌≤◌, [], ◌∷◌, length, slice_index, slice_index_or, replicate, IfOk};
ghost use Rattle.icode.specs.Buffers.{is_waiting, some_wait};
ghost use Rattle.buffer_machine.specs.Drains.{IsWritten};
ghost use Rattle.buffer_machine.specs.Lent.{IsHeld, lent, back_from};
ghost use Rattle.buffer_machine.specs.Ready.{CanAct};
ghost use Rattle.buffer_machine.specs.Stand.{Stand, backlog_at, waits_of, acted_stand, settled_stand, first_stand, first_busy};
ghost use Rattle.buffer_machine.specs.Waits.{OldestFits};

use crate::lend::{lend_registers, take_registers};
use crate::play::play;
use crate::queue::Queue;
use crate::registers::Registers;
use crate::settle::{clear_files, clear_queues, is_held, next_busy, some_wait};
use icode::action::Action;
use icode::shape::Shape;
use par_machine::Machine;
use std::marker::Model;

/// Memory, each processor's registers and queue, the phase, and how many of its actions each processor has done.
#[derive(Drop)]
pub(crate) struct Values {
    pub(crate) memory: Vec<u64>,
    pub(crate) registers: Vec<Registers>,
    pub(crate) queues: Vec<Queue>,
    pub(crate) phase: u64,
    pub(crate) done: Vec<u64>,
}

impl Model for Values {
    ghost use Rattle.buffer_machine.specs.Ready.{CanAct};
    ghost use Rattle.buffer_machine.specs.Stand.{Stand};

    ghost Value = { Stand };

    ghost use Rattle.buffer_machine.specs.Values.{stand_of};

    ghost view = { stand_of };
}

impl Values {
    /// A processor does the action; the phase does not move on yet.
    pub(crate) fn play(&mut self, shape: &Shape, action: &Action, proc: u64)
        requires { CanAct shape.now.modulus shape.now.lanes shape.now.regs
            proc action.now self.old }
        ensures { self.new
            ≡ acted_stand shape.now.modulus shape.now.lanes proc action.now self.old }
    {
        let registers = &mut self.registers[proc as usize];
        let queue = &mut self.queues[proc as usize];
        play(shape, action, &self.memory, registers, queue);
        self.done[proc as usize] += 1;
    }

    pub(crate) fn phase(&self) -> u64
        ensures { result ≡ self.now.phase }
    {
        self.phase
    }

    /// How many actions of the phase the processor has done.
    pub(crate) fn done(&self, proc: u64) -> u64
        requires { proc < length self.now.done }
        ensures { result ≡ slice_index self.now.done proc }
    {
        self.done[proc as usize]
    }

    /// A word of memory.
    pub(crate) fn word(&self, place: u64) -> u64
        requires { place < length self.now.memory }
        ensures { result ≡ slice_index self.now.memory place }
    {
        self.memory[place as usize]
    }

    /// Whether a store of the processor waits.
    pub(crate) fn is_waiting(&self, proc: u64) -> bool
        requires { proc < length self.now.queues }
        ensures { result ≡ is_waiting (backlog_at self.now.queues proc).waiting }
    {
        self.queues[proc as usize].is_waiting()
    }

    /// A processor's oldest store is written to memory; the phase does not move on yet. The result is its address.
    pub(crate) fn write_oldest(&mut self, proc: u64) -> u64
        requires queues { proc < length self.old.queues }
        requires fits { OldestFits (backlog_at self.old.queues proc).lanes (length self.old.memory)
            (backlog_at self.old.queues proc).waiting }
        ensures { IsWritten proc self.old self.new result }
    {
        self.queues[proc as usize].write_oldest(&mut self.memory)
    }

    /// The phase moves on where nothing holds it.
    #[inline]
    pub(crate) fn settle(&mut self, lens: &[u64])
        requires { self.old.phase < length lens.now }
        ensures { self.new ≡ settled_stand lens.now self.old }
    {
        if is_held(lens[self.phase as usize], &self.done, &self.queues) {
            return;
        }
        self.done.fill(0);
        clear_queues(&mut self.queues);
        self.phase = next_busy(lens, self.phase + 1);
    }

    /// Whether any store waits.
    pub(crate) fn some_wait(&self) -> bool
        ensures { result ≡ some_wait (waits_of self.now.queues) }
    {
        some_wait(&self.queues)
    }

    /// The machine goes on with this memory and these registers.
    pub(crate) fn lend(&self, machine: &mut Machine)
        requires { IsHeld machine.old.code self.now.memory self.now.registers }
        ensures state { machine.new.state ≡ lent self.now machine.old.state }
        ensures code { machine.new.code ≡ machine.old.code }
    {
        machine.put_memory(&self.memory);
        lend_registers(&self.registers, machine);
    }

    /// The machine's memory, registers and phase come back, where it has done nothing of the phase.
    pub(crate) fn take_back(&mut self, machine: &Machine)
        requires { IsHeld machine.now.code self.old.memory self.old.registers }
        ensures stand { self.new ≡ back_from machine.now.state self.old }
        ensures held { IsHeld machine.now.code
            machine.now.state.memory machine.now.state.registers }
    {
        self.memory.copy_from_slice(machine.memory());
        take_registers(&mut self.registers, machine);
        clear_queues(&mut self.queues);
        self.done.fill(0);
        self.phase = machine.phase();
    }

    /// Begins a run on this input.
    pub(crate) fn put(&mut self, lens: &[u64], input: &[u64])
        requires { length input.now ≤ length self.old.memory }
        ensures { self.new ≡ first_stand lens.now input.now self.old }
    {
        let (front, back) = self.memory.split_at_mut(input.len());
        front.copy_from_slice(input);
        back.fill(0);
        clear_files(&mut self.registers);
        clear_queues(&mut self.queues);
        self.done.fill(0);
        self.phase = next_busy(lens, 0);
    }
}
