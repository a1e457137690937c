// What runs a program by events: a machine without store buffers, or one with them.
ghost use Rattle.std.specs.Prelude.{◌≡◌, ℕ, ◌*◌, ◌^◌, ◌<◌, ◌≤◌, List, [], length, All, IfSome, IfNone, slice_index};
ghost use Rattle.icode.specs.Buffers.{proc_of};
ghost use Rattle.icode.specs.Machine.{Code, padded};
ghost use Rattle.buffer_machine.specs.Listed.{HasNoStranger, events_of};
ghost use Rattle.runs.specs.Lines.{step_line};
ghost use Rattle.runs.specs.Standing.{Standing, IsNextStep, completion_at, memory_at, stepped};
ghost use Rattle.runs.specs.Walks.{finished_at, walked};

use crate::text::Line;
use buffer_machine::{Event, Events};
use ring_mod::Modulus;

pub trait Engine {
    /// What it runs.
    ghost code: { Self → Code };

    /// Where it stands.
    ghost stands: { Self → Standing };

    /// Where a run of this code on this input begins.
    ghost begun: { Code → List ℕ → Standing };

    /// Begins a run on the input.
    fn begin(&mut self, input: &[u64])
        requires size { length input.now ≡ (code self.old).size }
        requires residues { All (λ v. v < (code self.old).modulus) input.now }
        ensures stands { stands self.new ≡ begun (code self.old) input.now }
        ensures code { code self.new ≡ code self.old };

    /// Does an event. The result is its line.
    fn step(&mut self, number: u64, event: Event) -> Line
        requires proc { proc_of event < (code self.old).procs }
        ensures line { result.bytes ≡ step_line (code self.old) (stands self.old) number event }
        ensures stands { stands self.new ≡ stepped (code self.old) (stands self.old) event }
        ensures code { code self.new ≡ code self.old };

    /// Does the events, whose answers nobody asks for.
    fn play(&mut self, events: Events)
        requires no_stranger { HasNoStranger events (code self.old).procs }
        ensures stands { stands self.new ≡ walked (code self.old) (stands self.old)
            (events_of events.entry (code self.old).procs) }
        ensures code { code self.new ≡ code self.old };

    /// The next of the events that complete the run.
    fn next_step(&self) -> Option<Event>
        ensures found { IfSome result (IsNextStep (code self.now) (stands self.now)) }
        ensures none { IfNone result (completion_at (code self.now) (stands self.now) ≡ []) }
        ensures few { length (completion_at (code self.now) (stands self.now)) < 2 ^ 63 };

    /// Does the events that complete the run.
    fn complete(&mut self)
        ensures stands { stands self.new ≡ finished_at (code self.old) (stands self.old) }
        ensures code { code self.new ≡ code self.old };

    /// A word of memory.
    fn word_at(&self, place: u64) -> u64
        requires inside { place < 4 * padded (code self.now) }
        ensures value { result ≡ slice_index (memory_at (stands self.now)) place }
        ensures residue { result < (code self.now).modulus };

    /// The number of words of memory.
    fn words(&self) -> u64
        ensures value { result ≡ 4 * padded (code self.now) }
        ensures room { (0 < (code self.now).size) × ((code self.now).size ≤ padded (code self.now)) };

    /// The modulus of its words.
    fn ring(&self) -> Modulus
        ensures { result ≡ (code self.now).modulus };

    /// The number of its processors.
    fn count(&self) -> u64
        ensures value { result ≡ (code self.now).procs }
        ensures limits { (1 ≤ result) × (result ≤ 16) };
}
