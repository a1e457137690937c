// Words that name turns and drains.

ghost use Rattle.std.specs.Prelude.{◌≡◌, ◌<◌, ◌≤◌, List, Some, drop, length, map, nat_le, slice_get, IfOk, IsOkUnless};
ghost use Rattle.std.specs.List.{find};
ghost use Rattle.grammar.specs.Cursor.{Gives, Tells, TellsAll};
ghost use Rattle.grammar.specs.Reading.{whole};
ghost use Rattle.icode.specs.Buffers.{proc_of};
ghost use Rattle.icode.specs.declared.event.Event.{Event};
ghost use Rattle.schedules.specs.Mix.{MixAnswers, event_of, mix_word};
ghost use Rattle.schedules.specs.MixReading.{event_at, events_at, mix_at, next_event_at};

use grammar::{Cursor, ReadError, Stuck};
use icode::event::Event;
use std::alloc::Global;
use std::marker::Model;
use thiserror::Error;

/// Turns and drains, as they are named. After them each run is completed.
#[derive(Debug, Drop)]
pub struct Mix {
    events: Vec<Event>,
}

impl Model for Mix {
    ghost use Rattle.std.specs.Prelude.{List, ◌≤◌, length};
    ghost use Rattle.icode.specs.declared.event.Event.{Event};

    ghost Value = { List Event };

    ghost view = { λ m. m.events.items };

    ghost invariant = { λ m. length m.events.items ≤ 65536 };
}

/// Why a word names no turns and drains.
#[derive(Clone, Copy, Debug, PartialEq, Eq, Error)]
pub enum MixFault {
    /// No spelling goes on at this place.
    #[error("no list of turns and drains goes on at byte {at}")]
    Syntax { at: u64 },
    #[error("out of memory")]
    NoMemory,
}

/// The letter before a processor's number.
#[derive(Clone, Copy, Debug, PartialEq, Eq)]
enum Letter {
    Turn,
    Drain,
}

fn event_of(letter: Letter, proc: u64) -> Event
    ensures { result ≡ event_of letter proc }
{
    match letter {
        Letter::Turn => Event::Turn(proc),
        Letter::Drain => Event::Drain(proc),
    }
}

fn event(cursor: &mut Cursor) -> Result<Event, Stuck>
    ensures { Gives result cursor.new (event_at cursor.old) }
{
    let letter = cursor.one_of(&[
        (b"t".as_slice(), Letter::Turn),
        (b"d".as_slice(), Letter::Drain),
    ])?;
    let proc = cursor.number(4_294_967_295)?;
    Ok(event_of(letter, proc))
}

fn next_event(cursor: &mut Cursor) -> Result<Event, Stuck>
    ensures { Gives result cursor.new (next_event_at cursor.old) }
{
    cursor.word(b",")?;
    event(cursor)
}

/// One event, and up to `count` more.
fn events(alloc: Global, cursor: &mut Cursor, count: u64) -> Result<Vec<Event>, ReadError>
    ensures { Tells (λ v. v.items) result cursor.new (events_at count cursor.old) }
{
    let mut events = Vec::new(alloc);
    let first = event(cursor)?;
    events.push(first)?;
    for _ in 0..count {
        let mut ahead = cursor.fork();
        match next_event(&mut ahead) {
            Ok(event) => {
                *cursor = ahead;
                events.push(event)?;
            }
            Err(stuck) => {
                cursor.give_up(stuck);
                return Ok(events);
            }
        }
    }
    Ok(events)
}

#[tactic(auto, unfolding(crate::specs::MixReading::mix_at))]
fn mix_of(alloc: Global, cursor: &mut Cursor) -> Result<Vec<Event>, ReadError>
    ensures { Tells (λ v. v.items) result cursor.new (mix_at cursor.old) }
{
    cursor.word(b"mix:")?;
    let events = events(alloc, cursor, 65_535)?;
    Ok(events)
}

fn whole_mix(alloc: Global, word: &[u8]) -> Result<Vec<Event>, ReadError>
    ensures { TellsAll (λ v. v.items) result (whole mix_at word.now) }
{
    let mut cursor = Cursor::new(word);
    let events = mix_of(alloc, &mut cursor)?;
    cursor.end()?;
    Ok(events)
}

/// The turns and drains that a word names.
pub fn read_mix(alloc: Global, word: &[u8]) -> Result<Mix, MixFault>
    ensures answer { MixAnswers word.now result }
    ensures only { (events : List Event) → mix_word word.now events
        → IsOkUnless result MixFault.NoMemory × IfOk result (λ m. m ≡ events) }
{
    match whole_mix(alloc, word) {
        Ok(events) => Ok(Mix { events }),
        Err(ReadError::NoMemory) => Err(MixFault::NoMemory),
        Err(ReadError::Stuck(stuck)) => Err(MixFault::Syntax {
            at: (word.len() - stuck.left) as u64,
        }),
    }
}

impl Mix {
    /// How many events there are.
    pub fn len(&self) -> u64
        ensures value { result ≡ length self.now }
        ensures few { result ≤ 65536 }
    {
        self.events.len() as u64
    }

    /// The event at a place.
    pub fn event_at(&self, i: u64) -> Event
        requires { i < length self.now }
        ensures { slice_get self.now i ≡ Some result }
    {
        self.events[i as usize]
    }

    /// The first processor named that is none of the first `p`.
    pub fn stranger(&self, p: u64) -> Option<u64>
        ensures { result ≡ find (λ q. nat_le p q) (map proc_of self.now) }
    {
        first_proc_from(&self.events, p)
    }
}

fn proc_of(event: Event) -> u64
    ensures { result ≡ proc_of event }
{
    match event {
        Event::Turn(proc) => proc,
        Event::Drain(proc) => proc,
    }
}

fn first_proc_from(events: &[Event], p: u64) -> Option<u64>
    ensures { result ≡ find (λ q. nat_le p q) (map proc_of events.now) }
{
    for event in events {
        let q = proc_of(*event);
        if p <= q {
            return Some(q);
        }
    }
    None
}
