// The machine without store buffers, run by events.
ghost use Rattle.std.specs.Prelude.{◌≡◌, ◌<◌, None, map, nat_le};
ghost use Rattle.std.specs.List.{find};
ghost use Rattle.icode.specs.Buffers.{proc_of};
ghost use Rattle.icode.specs.Machine.{start};
ghost use Rattle.runs.specs.Standing.{direct, stepped};
ghost use Rattle.runs.specs.Walks.{walked};

use crate::engine::Engine;
use crate::text::{Line, drain_line, line_of};
use buffer_machine::{Drained, Event, Events};
use par_machine::Machine;
use ring_mod::Modulus;
use schedules::Mix;

// An event, whose answer nobody asks for: no store waits, so a drain finds none.
fn pass_event(machine: &mut Machine, event: Event)
    requires proc { proc_of event < machine.old.code.procs }
    ensures state { direct machine.new.state
        ≡ stepped machine.old.code (direct machine.old.state) event }
    ensures code { machine.new.code ≡ machine.old.code }
{
    match event {
        Event::Turn(proc) => machine.pass(proc),
        Event::Drain(_) => {}
    }
}

// The events of a mix.
fn pass_mix(machine: &mut Machine, mix: &Mix)
    requires no_stranger { find (λ q. nat_le machine.old.code.procs q) (map proc_of mix.now)
        ≡ None }
    ensures state { direct machine.new.state
        ≡ walked machine.old.code (direct machine.old.state) mix.now }
    ensures code { machine.new.code ≡ machine.old.code }
{
    let _limits = machine.procs();
    for place in 0..mix.len() {
        pass_event(machine, mix.event_at(place));
    }
}

impl Engine for Machine {
    ghost code = { λ s. s.code };

    ghost stands = { λ s. direct s.state };

    ghost begun = { λ code x. direct (start code x) };

    fn begin(&mut self, input: &[u64]) {
        self.put(input);
    }

    fn step(&mut self, number: u64, event: Event) -> Line {
        match event {
            Event::Turn(proc) => {
                let turned = self.turn(proc);
                line_of(number, proc, self.lanes(), &turned)
            }
            Event::Drain(proc) => drain_line(number, proc, &Drained::Empty),
        }
    }

    fn play(&mut self, events: Events) {
        match events {
            Events::Turns(schedule) => self.run_list(schedule),
            Events::Mixed(mix) => pass_mix(self, mix),
        }
    }

    fn next_step(&self) -> Option<Event> {
        match self.next_proc() {
            Some(proc) => Some(Event::Turn(proc)),
            None => None,
        }
    }

    fn complete(&mut self) {
        self.finish();
    }

    fn word_at(&self, place: u64) -> u64 {
        let _words = self.span();
        self.word(place)
    }

    fn words(&self) -> u64 {
        self.span()
    }

    fn ring(&self) -> Modulus {
        self.modulus()
    }

    fn count(&self) -> u64 {
        self.procs()
    }
}
