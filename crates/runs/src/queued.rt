// The machine with store buffers, run by events.
ghost use Rattle.icode.specs.Buffers.{buffered_start};
ghost use Rattle.runs.specs.Standing.{queued};

use crate::engine::Engine;
use crate::text::{Line, drain_line, line_of};
use buffer_machine::{BufMachine, Event, Events};
use ring_mod::Modulus;

impl Engine for BufMachine {
    ghost code = { λ s. s.code };

    ghost stands = { λ s. queued s.state };

    ghost begun = { λ code x. queued (buffered_start code x) };

    fn begin(&mut self, input: &[u64]) {
        self.put(input);
    }

    fn step(&mut self, number: u64, event: Event) -> Line {
        match event {
            Event::Turn(proc) => {
                let turned = self.turn(proc);
                line_of(number, proc, self.lanes(), &turned)
            }
            Event::Drain(proc) => {
                let drained = self.drain(proc);
                drain_line(number, proc, &drained)
            }
        }
    }

    fn play(&mut self, events: Events) {
        self.run_events(events);
    }

    fn next_step(&self) -> Option<Event> {
        self.next_event()
    }

    fn complete(&mut self) {
        self.finish();
    }

    fn word_at(&self, place: u64) -> u64 {
        self.word(place)
    }

    fn words(&self) -> u64 {
        self.span()
    }

    fn ring(&self) -> Modulus {
        self.modulus()
    }

    fn count(&self) -> u64 {
        self.procs()
    }
}
