// The machine.

ghost use Rattle.std.specs.Prelude.{◌≡◌, ℕ, ◌+◌, ◌-◌, ◌*◌, ◌^◌, ◌<◌, ◌≤◌, List, [], ◌∷◌, length, All, slice_index, Some, IfSome, IfNone, IfOk, IsTrue, ◌↔◌, replicate, nat_le, None, slice_index_or};
ghost use Rattle.std.specs.List.{find};
ghost use Rattle.icode.specs.Machine.{acts, next_action, turn, run, answer, completion, finished, start, counts_so_far, padded};
ghost use Rattle.icode.specs.Program.{code_of, Fits};
ghost use Rattle.schedules.specs.Turns.{named, turns_of};
ghost use Rattle.par_machine.specs.Held.{AreFiles, with_memory, with_file};
ghost use Rattle.par_machine.specs.Skipped.{skipped};
ghost use Rattle.par_machine.specs.Unfinished.{IsNextTurn, IsUnfinished, left_of};

use crate::header::Header;
use crate::initial::{compile_phases, make_processors, put_input, zeros};
use crate::phase::{Routine, first_busy, first_left, settle};
use crate::processor::{Processor, reset_all};
use icode::action::{Action, Counts};
use icode::event::Turned;
use icode::program::Program;
use memory::NoMemory;
use ring_mod::Modulus;
use schedules::Schedule;
use std::alloc::Global;
use std::marker::Model;

/// A machine of several processors over one memory. It keeps for each processor a place in the
/// program's code and the counters of its open loops, and no list of actions.
#[derive(Drop)]
pub struct Machine {
    header: Header,
    phases: Vec<Routine>,
    memory: Vec<u64>,
    phase: u64,
    /// How many actions of the phase each processor has done.
    done: Vec<u64>,
    processors: Vec<Processor>,
}

impl Model for Machine {
    ghost use Rattle.par_machine.specs.Running.{Running};

    ghost Value = { Running };

    ghost use Rattle.par_machine.specs.Views.{running_of, IsWhole};

    ghost view = { running_of };

    ghost invariant = { IsWhole };
}

impl Machine {
    /// A machine for the program, as after `put` of zeros.
    pub fn new(alloc: Global, program: &Program) -> Result<Self, NoMemory>
        requires { Fits program.now }
        ensures code { IfOk result (λ machine. machine.code ≡ code_of program.now) }
        ensures state { IfOk result (λ machine. machine.state
            ≡ start (code_of program.now) (replicate program.now.size 0)) }
    {
        let header = Header::new(alloc, program)?;
        let phases = compile_phases(alloc, program)?;
        let memory = zeros(alloc, 4 * header.shape.room)?;
        let phase = first_busy(&phases, 0);
        let done = zeros(alloc, header.shape.procs)?;
        let words = header.shape.regs * header.shape.lanes;
        let processors = make_processors(alloc, header.shape.procs, words)?;
        Ok(Machine {
            header,
            phases,
            memory,
            phase,
            done,
            processors,
        })
    }

    /// How many actions the processor has left in this phase.
    fn left(&self, proc: u64) -> u64
        requires proc { proc < self.now.code.procs }
        ensures { result ≡ left_of self.now.code self.now.state proc }
    {
        if self.phase == self.phases.len() as u64 {
            return 0;
        }
        self.phases[self.phase as usize].len - self.done[proc as usize]
    }

    /// The action that the processor does at its next turn.
    #[inline]
    pub fn action(&self, proc: u64) -> Action
        requires proc { proc < self.now.code.procs }
        requires left { slice_index self.now.state.done proc
            < length (acts self.now.code self.now.state.phase proc) }
        ensures { next_action self.now.code self.now.state proc ≡ Some result }
    {
        let routine = &self.phases[self.phase as usize];
        let processor = &self.processors[proc as usize];
        processor.action(&self.header, &routine.code, proc)
    }

    /// The processor does the next `count` of its actions.
    fn advance(&mut self, proc: u64, count: u64)
        requires proc { proc < self.old.code.procs }
        requires some { 0 < count }
        requires left { slice_index self.old.state.done proc + count
            ≤ length (acts self.old.code self.old.state.phase proc) }
        ensures state { self.new.state ≡ run self.old.code self.old.state (replicate count proc) }
        ensures code { self.new.code ≡ self.old.code }
    {
        let routine = &self.phases[self.phase as usize];
        let processor = &mut self.processors[proc as usize];
        processor.play(&self.header, &routine.code, proc, count, &mut self.memory);
        self.done[proc as usize] += count;
        self.phase = settle(
            &self.phases,
            self.phase,
            &mut self.done,
            &mut self.processors,
            proc,
        );
    }

    /// Begins a run on this input: it stands in the first words, all else is 0 and nothing is done.
    pub fn put(&mut self, input: &[u64])
        requires size { length input.now ≡ self.old.code.size }
        requires residues { All (λ v. v < self.old.code.modulus) input.now }
        ensures state { self.new.state ≡ start self.old.code input.now }
        ensures code { self.new.code ≡ self.old.code }
    {
        put_input(&mut self.memory, input);
        reset_all(&mut self.processors);
        self.done.fill(0);
        self.phase = first_busy(&self.phases, 0);
    }

    /// The turn of a processor: it does the action that it has left in this phase, if there is one.
    pub fn turn(&mut self, proc: u64) -> Turned
        requires proc { proc < self.old.code.procs }
        ensures state { self.new.state ≡ turn self.old.code self.old.state proc }
        ensures code { self.new.code ≡ self.old.code }
        ensures answer { result ≡ answer self.old.code self.old.state proc }
    {
        if self.left(proc) > 0 {
            let action = self.action(proc);
            self.advance(proc, 1);
            return Turned::Did(action);
        }
        if self.is_over() {
            Turned::Done
        } else {
            Turned::Waits
        }
    }

    /// The turn of a processor, whose answer nobody asks for.
    #[inline]
    pub fn pass(&mut self, proc: u64)
        requires proc { proc < self.old.code.procs }
        ensures state { self.new.state ≡ turn self.old.code self.old.state proc }
        ensures code { self.new.code ≡ self.old.code }
    {
        if self.left(proc) != 0 {
            self.advance(proc, 1);
        }
    }

    /// The turn of a processor whose action somebody else does: only memory and registers stay as they were.
    pub fn skip(&mut self, proc: u64)
        requires proc { proc < self.old.code.procs }
        requires left { slice_index self.old.state.done proc
            < length (acts self.old.code self.old.state.phase proc) }
        ensures state { self.new.state ≡ skipped self.old.code self.old.state proc }
        ensures code { self.new.code ≡ self.old.code }
    {
        let routine = &self.phases[self.phase as usize];
        let processor = &mut self.processors[proc as usize];
        processor.skip(self.header.shape.lanes, &routine.code);
        self.done[proc as usize] += 1;
        self.phase = settle(
            &self.phases,
            self.phase,
            &mut self.done,
            &mut self.processors,
            proc,
        );
    }

    /// Whether all phases are done.
    fn is_over(&self) -> bool
        ensures { IsTrue result ↔ (length self.now.code.lists ≤ self.now.state.phase) }
    {
        self.phase == self.phases.len() as u64
    }

    /// The turns of a schedule, without its completion.
    pub fn run_list(&mut self, schedule: &Schedule)
        requires no_stranger { find (λ q. nat_le self.old.code.procs q) (named schedule.now)
            ≡ None }
        ensures state { self.new.state
            ≡ run self.old.code self.old.state (turns_of schedule.now self.old.code.procs) }
        ensures code { self.new.code ≡ self.old.code }
    {
        let procs = self.procs();
        for i in 0..schedule.len(procs) {
            let proc = schedule.turn_at(i, procs);
            self.pass(proc);
        }
    }

    /// The processor whose turn is the next of those that finish the run. Where it does all that it has left in the phase, the
    /// rest of the run is what it was.
    pub fn next_proc(&self) -> Option<u64>
        ensures found { IfSome result (IsNextTurn self.now.code self.now.state) }
        ensures unfinished { IfSome result (IsUnfinished self.now.code self.now.state) }
        ensures none { IfNone result (completion self.now.code self.now.state ≡ []) }
        ensures few { length (completion self.now.code self.now.state) < 2 ^ 63 }
    {
        if self.phase == self.phases.len() as u64 {
            return None;
        }
        first_left(&self.done, self.phases[self.phase as usize].len)
    }

    /// The turns that finish the run.
    pub fn finish(&mut self)
        ensures state { self.new.state ≡ finished self.old.code self.old.state }
        ensures code { self.new.code ≡ self.old.code }
    {
        while let Some(proc) = self.next_proc() {
            let left = self.left(proc);
            self.advance(proc, left);
        }
    }

    /// The words become the memory, and nothing else changes.
    pub fn put_memory(&mut self, words: &[u64])
        requires size { length words.now ≡ 4 * padded self.old.code }
        requires residues { (k : ℕ) → slice_index words.now k < self.old.code.modulus }
        ensures state { self.new.state ≡ with_memory words.now self.old.state }
        ensures code { self.new.code ≡ self.old.code }
        ensures files { AreFiles self.new.code self.new.state.registers }
    {
        self.memory.copy_from_slice(words);
    }

    /// The words become a processor's registers, and nothing else changes.
    pub fn put_registers(&mut self, proc: u64, words: &[u64])
        requires proc { proc < self.old.code.procs }
        requires size { length words.now ≡ self.old.code.regs * self.old.code.lanes }
        requires residues { (k : ℕ) → slice_index words.now k < self.old.code.modulus }
        ensures state { self.new.state ≡ with_file proc words.now self.old.state }
        ensures code { self.new.code ≡ self.old.code }
    {
        self.processors[proc as usize].put_registers(words);
    }

    /// Its memory.
    pub fn memory(&self) -> &[u64]
        ensures value { result.now ≡ self.now.state.memory }
        ensures size { length result.now ≡ 4 * padded self.now.code }
        ensures residues { (k : ℕ) → slice_index result.now k < self.now.code.modulus }
        ensures files { AreFiles self.now.code self.now.state.registers }
    {
        &self.memory
    }

    /// A processor's registers.
    pub fn registers(&self, proc: u64) -> &[u64]
        requires proc { proc < self.now.code.procs }
        ensures { result.now ≡ slice_index_or self.now.state.registers proc [] }
    {
        self.processors[proc as usize].registers()
    }

    /// A word of memory.
    pub fn word(&self, place: u64) -> u64
        requires inside { place < length self.now.state.memory }
        ensures value { result ≡ slice_index self.now.state.memory place }
        ensures residue { result < self.now.code.modulus }
    {
        self.memory[place as usize]
    }

    /// What the processor has executed so far.
    pub fn counts(&self, proc: u64) -> Counts
        requires proc { proc < self.now.code.procs }
        ensures { result ≡ counts_so_far self.now.code self.now.state proc }
    {
        self.processors[proc as usize].counts()
    }

    /// The number of phases that are over.
    pub fn phase(&self) -> u64
        ensures { result ≡ self.now.state.phase }
    {
        self.phase
    }

    /// The program's modulus.
    pub fn modulus(&self) -> Modulus
        ensures { result ≡ self.now.code.modulus }
    {
        self.header.shape.modulus.modulus()
    }

    /// The number of processors.
    pub fn procs(&self) -> u64
        ensures value { result ≡ self.now.code.procs }
        ensures limits { (1 ≤ result) × (result ≤ 16) }
    {
        self.header.shape.procs
    }

    /// The number of lanes.
    pub fn lanes(&self) -> u64
        ensures value { result ≡ self.now.code.lanes }
        ensures limits { (1 ≤ result) × (result ≤ 16) }
    {
        self.header.shape.lanes
    }

    /// The number of words of a vector.
    pub fn size(&self) -> u64
        ensures value { result ≡ self.now.code.size }
        ensures some { 0 < result }
    {
        self.header.shape.size
    }

    /// The number of words of memory.
    pub fn span(&self) -> u64
        ensures value { result ≡ 4 * padded self.now.code }
        ensures memory { result ≡ length self.now.state.memory }
        ensures room { (0 < self.now.code.size) × (self.now.code.size ≤ padded self.now.code) }
    {
        4 * self.header.shape.room
    }
}
