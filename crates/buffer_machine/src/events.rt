// The events that a word names.

ghost use Rattle.std.specs.Prelude.{◌≡◌, ◌<◌, ◌≤◌, Some, length, slice_get};
ghost use Rattle.buffer_machine.specs.Listed.{events_of};

use icode::event::Event;
use schedules::{Mix, Schedule};

/// What is done before a run is completed.
#[derive(Clone, Copy, Debug)]
pub enum Events<'a> {
    /// The turns of a schedule, and no drain.
    Turns(&'a Schedule),
    Mixed(&'a Mix),
}

impl Events<'_> {
    /// How many events there are for `procs` processors.
    pub fn len(self, procs: u64) -> u64
        requires { (1 ≤ procs) × (procs ≤ 16) }
        ensures value { result ≡ length (events_of self.entry procs) }
        ensures few { result ≤ 16000000 }
    {
        match self {
            Events::Turns(schedule) => schedule.len(procs),
            Events::Mixed(mix) => mix.len(),
        }
    }

    /// The event at a place.
    pub fn event_at(self, place: u64, procs: u64) -> Event
        requires procs { (1 ≤ procs) × (procs ≤ 16) }
        requires place { place < length (events_of self procs) }
        ensures { slice_get (events_of self.entry procs) place ≡ Some result }
    {
        match self {
            Events::Turns(schedule) => Event::Turn(schedule.turn_at(place, procs)),
            Events::Mixed(mix) => mix.event_at(place),
        }
    }
}
