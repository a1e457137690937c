// The machine.

ghost use Rattle.std.specs.Prelude.{◌≡◌, ℕ, ◌+◌, ◌-◌, ◌*◌, ◌^◌, ◌<◌, ◌≤◌, [], length, All, slice_index, replicate, false, IfSome, IfNone, IfOk};
ghost use Rattle.icode.specs.Buffers.{proc_of, some_wait, buffered_start, buffered_turn, drain, drain_answer, buffered_step, buffered_run, buffered_completion, buffered_finished};
ghost use Rattle.icode.specs.Machine.{acts, answer, padded};
ghost use Rattle.icode.specs.Program.{code_of, Fits};
ghost use Rattle.buffer_machine.specs.Listed.{events_of, HasNoStranger};
ghost use Rattle.buffer_machine.specs.Next.{IsNextEvent};
ghost use Rattle.buffer_machine.specs.Running.{Running};

use crate::events::Events;
use crate::make::{make_lens, make_values, most_stores};
use crate::values::Values;
use icode::event::{Drained, Event, Turned};
use icode::header::shape_of;
use icode::program::Program;
use icode::shape::Shape;
use memory::NoMemory;
use par_machine::Machine;
use ring_mod::Modulus;
use std::alloc::Global;
use std::marker::Model;

/// A machine of several processors over one memory, each of which has a queue of stores that wait. It has taken all its
/// memory when it is made. A machine without buffers walks ahead and tells the actions; it does none of them.
#[derive(Drop)]
pub struct BufMachine {
    shape: Shape,
    /// How many actions each processor has in each phase.
    lens: Vec<u64>,
    values: Values,
    walker: Machine,
}

impl Model for BufMachine {
    ghost use Rattle.buffer_machine.specs.Running.{Running};

    ghost Value = { Running };

    ghost use Rattle.buffer_machine.specs.Views.{running_of, IsWhole};

    ghost view = { running_of };

    ghost invariant = { IsWhole };
}

impl BufMachine {
    /// A machine for the program, as after `put` of zeros. Each queue has room for the most stores of a processor in one phase.
    pub fn new(alloc: Global, program: &Program) -> Result<Self, NoMemory>
        requires { Fits program.now }
        ensures code { IfOk result (λ machine. machine.code ≡ code_of program.now) }
        ensures state { IfOk result (λ machine. machine.state
            ≡ buffered_start (code_of program.now) (replicate program.now.size 0)) }
    {
        let shape = shape_of(program);
        let lens = make_lens(alloc, program)?;
        let mut values = make_values(alloc, &shape, most_stores(program))?;
        values.put(&lens, &[]);
        let walker = Machine::new(alloc, program)?;
        Ok(BufMachine {
            shape,
            lens,
            values,
            walker,
        })
    }

    /// Begins a run on this input: it stands in the first words, all else is 0, nothing is done and no store waits.
    pub fn put(&mut self, input: &[u64])
        requires size { length input.now ≡ self.old.code.size }
        requires residues { All (λ v. v < self.old.code.modulus) input.now }
        ensures state { self.new.state ≡ buffered_start self.old.code input.now }
        ensures code { self.new.code ≡ self.old.code }
    {
        self.values.put(&self.lens, input);
        self.walker.put(input);
    }

    /// The turn of a processor: it does the action that it has left in this phase, if there is one.
    pub fn turn(&mut self, proc: u64) -> Turned
        requires proc { proc < self.old.code.procs }
        ensures state { self.new.state ≡ buffered_turn self.old.code self.old.state proc }
        ensures code { self.new.code ≡ self.old.code }
        ensures answer { result ≡ answer self.old.code self.old.state.state proc }
    {
        let phase = self.values.phase();
        if phase == self.lens.len() as u64 {
            return Turned::Done;
        }
        if self.values.done(proc) >= self.lens[phase as usize] {
            return Turned::Waits;
        }
        let action = self.walker.action(proc);
        self.values.play(&self.shape, &action, proc);
        self.walker.skip(proc);
        self.values.settle(&self.lens);
        Turned::Did(action)
    }

    /// Writes the oldest store of a processor that waits to memory, if one does.
    pub fn drain(&mut self, proc: u64) -> Drained
        requires proc { proc < self.old.code.procs }
        ensures state { self.new.state ≡ drain self.old.code self.old.state proc }
        ensures code { self.new.code ≡ self.old.code }
        ensures answer { result ≡ drain_answer self.old.state proc }
    {
        if !self.values.is_waiting(proc) {
            return Drained::Empty;
        }
        let address = self.values.write_oldest(proc);
        self.values.settle(&self.lens);
        Drained::Wrote(address)
    }

    /// The next of the events that finish the run: of the first processor that has an action left or a store that waits,
    /// its turn or else its drain.
    pub fn next_event(&self) -> Option<Event>
        ensures found { IfSome result (λ event. IsNextEvent self.now.code self.now.state event) }
        ensures none { IfNone result (buffered_completion self.now.code self.now.state ≡ []) }
        ensures few { length (buffered_completion self.now.code self.now.state) < 2 ^ 60 }
    {
        let phase = self.values.phase();
        if phase == self.lens.len() as u64 {
            return None;
        }
        let len = self.lens[phase as usize];
        for proc in 0..self.shape.procs {
            if self.values.done(proc) < len {
                return Some(Event::Turn(proc));
            }
            if self.values.is_waiting(proc) {
                return Some(Event::Drain(proc));
            }
        }
        None
    }

    /// Does an event.
    fn step(&mut self, event: Event)
        requires proc { proc_of event < self.old.code.procs }
        ensures state { self.new.state ≡ buffered_step self.old.code self.old.state event }
        ensures code { self.new.code ≡ self.old.code }
    {
        match event {
            Event::Turn(proc) => {
                let _ = self.turn(proc);
            }
            Event::Drain(proc) => {
                let _ = self.drain(proc);
            }
        }
    }

    /// The events of a word, without their completion.
    pub fn run_events(&mut self, events: Events)
        requires no_stranger { HasNoStranger events self.old.code.procs }
        ensures state { self.new.state ≡ buffered_run self.old.code self.old.state
            (events_of events.entry self.old.code.procs) }
        ensures code { self.new.code ≡ self.old.code }
    {
        let procs = self.procs();
        for place in 0..events.len(procs) {
            self.step(events.event_at(place, procs));
        }
    }

    /// The next of the events that finish the run, as long as a store waits.
    fn next_waiting(&self) -> Option<Event>
        ensures found { IfSome result (λ event. IsNextEvent self.now.code self.now.state event) }
        ensures none { IfNone result (some_wait self.now.state.queues ≡ false) }
        ensures few { length (buffered_completion self.now.code self.now.state) < 2 ^ 60 }
    {
        if self.values.some_wait() {
            self.next_event()
        } else {
            None
        }
    }

    /// The events that finish the run, where no store waits: each processor takes its turns and then drains its queue, so they
    /// leave what its turns leave on memory itself.
    fn finish_directly(&mut self)
        requires none { some_wait self.old.state.queues ≡ false }
        requires here { self.old.state.state.phase < length self.old.code.lists }
        ensures state { self.new.state ≡ buffered_finished self.old.code self.old.state }
        ensures code { self.new.code ≡ self.old.code }
    {
        self.values.lend(&mut self.walker);
        self.walker.finish();
        self.values.take_back(&self.walker);
    }

    /// The events that finish the run.
    pub fn finish(&mut self)
        ensures state { self.new.state ≡ buffered_finished self.old.code self.old.state }
        ensures code { self.new.code ≡ self.old.code }
    {
        while let Some(event) = self.next_waiting() {
            self.step(event);
        }
        if self.values.phase() < self.lens.len() as u64 {
            self.finish_directly();
        }
    }

    /// A word of memory.
    pub fn word(&self, place: u64) -> u64
        requires inside { place < 4 * padded self.now.code }
        ensures value { result ≡ slice_index self.now.state.state.memory place }
        ensures residue { result < self.now.code.modulus }
    {
        self.values.word(place)
    }

    /// The number of phases that are over.
    pub fn phase(&self) -> u64
        ensures { result ≡ self.now.state.state.phase }
    {
        self.values.phase()
    }

    /// The modulus of the program.
    pub fn modulus(&self) -> Modulus
        ensures { result ≡ self.now.code.modulus }
    {
        self.shape.modulus.modulus()
    }

    /// The number of processors.
    pub fn procs(&self) -> u64
        ensures value { result ≡ self.now.code.procs }
        ensures limits { (1 ≤ result) × (result ≤ 16) }
    {
        self.shape.procs
    }

    /// The number of lanes.
    pub fn lanes(&self) -> u64
        ensures value { result ≡ self.now.code.lanes }
        ensures limits { (1 ≤ result) × (result ≤ 16) }
    {
        self.shape.lanes
    }

    /// The number of words of memory.
    pub fn span(&self) -> u64
        ensures value { result ≡ 4 * padded self.now.code }
        ensures room { (0 < self.now.code.size) × (self.now.code.size ≤ padded self.now.code) }
    {
        self.walker.span()
    }
}
