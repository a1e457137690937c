ghost use Rattle.std.specs.Prelude.{◌≡◌, ◌≤◌, ◌<◌, ◌+◌, ◌/◌, ◌^◌, ℕ, length, nat_le, slice_index, IfOk, IsOkUnless};
ghost use Rattle.std.specs.List.{find};
ghost use Rattle.grammar.specs.Cursor.{Tells, TellsAll};
ghost use Rattle.grammar.specs.Reading.{whole};
ghost use Rattle.schedules.specs.Schedule.{Plan, as_plan, schedule_word, WordAnswers};
ghost use Rattle.schedules.specs.Turns.{turns_of, named, state_after};
ghost use Rattle.schedules.specs.ScheduleReading.{plan_at, schedule_at};

use crate::random::state_after;
use grammar::{Cursor, ReadError};
use std::alloc::Global;
use std::marker::Model;
use thiserror::Error;

/// Turns of processors, as they are named. After them each schedule is completed.
#[derive(Debug, Drop)]
pub struct Schedule {
    turns: Turns,
}

impl Model for Schedule {
    ghost use Rattle.schedules.specs.Schedule.{Plan, as_plan, IsPlan};

    ghost Value = { Plan };

    ghost view = { λ s. as_plan s.turns };

    ghost invariant = { λ s. IsPlan (as_plan s.turns) };
}

#[derive(Debug, Drop)]
enum Turns {
    /// None.
    Sequential,
    /// Each processor in rising order, `count` times.
    Rounds { count: u64 },
    /// Turns in a list.
    Named { turns: Vec<u64> },
    /// `count` turns of the generator, from a seed.
    Seeded { seed: u64, count: u64 },
}

/// Why a word is no schedule.
#[derive(Clone, Copy, Debug, PartialEq, Eq, Error)]
pub enum ScheduleFault {
    /// No spelling goes on at this place.
    #[error("no schedule goes on at byte {at}")]
    Syntax { at: u64 },
    #[error("out of memory")]
    NoMemory,
}

/// How a schedule is written.
#[derive(Clone, Copy, Debug, PartialEq, Eq)]
enum Form {
    Seq,
    Rr,
    List,
    Seed,
}

/// No round and no seeded schedule has more turns.
const MOST: u64 = 1_000_000;

#[tactic(auto, unfolding(crate::specs::ScheduleReading::plan_at))]
fn plan_of(alloc: Global, cursor: &mut Cursor, form: Form) -> Result<Turns, ReadError>
    ensures { Tells as_plan result cursor.new (plan_at form cursor.old) }
{
    match form {
        Form::Seq => Ok(Turns::Sequential),
        Form::Rr => {
            let count = cursor.number(MOST)?;
            Ok(Turns::Rounds { count })
        }
        Form::List => {
            let turns = cursor.numbers(alloc, b",", 4_294_967_295, 65_535)?;
            Ok(Turns::Named { turns })
        }
        Form::Seed => {
            let seed = cursor.number(u64::MAX)?;
            let count = cursor.named_number(b":", MOST)?;
            Ok(Turns::Seeded { seed, count })
        }
    }
}

#[tactic(auto, unfolding(crate::specs::ScheduleReading::schedule_at))]
fn schedule_of(alloc: Global, cursor: &mut Cursor) -> Result<Turns, ReadError>
    ensures { Tells as_plan result cursor.new (schedule_at cursor.old) }
{
    let form = cursor.one_of(&[
        (b"seq".as_slice(), Form::Seq),
        (b"rr:".as_slice(), Form::Rr),
        (b"turns:".as_slice(), Form::List),
        (b"seed:".as_slice(), Form::Seed),
    ])?;
    plan_of(alloc, cursor, form)
}

fn whole_schedule(alloc: Global, word: &[u8]) -> Result<Turns, ReadError>
    ensures { TellsAll as_plan result (whole schedule_at word.now) }
{
    let mut cursor = Cursor::new(word);
    let schedule = schedule_of(alloc, &mut cursor)?;
    cursor.end()?;
    Ok(schedule)
}

/// The schedule that a word spells.
pub fn read_schedule(alloc: Global, word: &[u8]) -> Result<Schedule, ScheduleFault>
    ensures answer { WordAnswers word.now result }
    ensures only { (plan : Plan) → schedule_word word.now plan
        → IsOkUnless result ScheduleFault.NoMemory × IfOk result (λ s. s ≡ plan) }
{
    match whole_schedule(alloc, word) {
        Ok(turns) => Ok(Schedule { turns }),
        Err(ReadError::NoMemory) => Err(ScheduleFault::NoMemory),
        Err(ReadError::Stuck(stuck)) => Err(ScheduleFault::Syntax {
            at: (word.len() - stuck.left) as u64,
        }),
    }
}

impl Schedule {
    /// How many turns there are for `p` processors.
    pub fn len(&self, p: u64) -> u64
        requires { (1 ≤ p) × (p ≤ 16) }
        ensures value { result ≡ length (turns_of self.now p) }
        ensures few { result ≤ 16000000 }
    {
        match &self.turns {
            Turns::Sequential => 0,
            Turns::Rounds { count } => *count * p,
            Turns::Named { turns } => turns.len() as u64,
            Turns::Seeded { count, .. } => *count,
        }
    }

    /// The turn at a place.
    pub fn turn_at(&self, i: u64, p: u64) -> u64
        requires procs { (1 ≤ p) × (p ≤ 16) }
        requires place { i < length (turns_of self.now p) }
        ensures { result ≡ slice_index (turns_of self.now p) i }
    {
        match &self.turns {
            Turns::Sequential => 0,
            Turns::Rounds { .. } => i % p,
            Turns::Named { turns } => turns[i as usize],
            Turns::Seeded { seed, .. } => generated(*seed, i) % p,
        }
    }

    /// The first named turn that is none of the first `p` processors.
    pub fn stranger(&self, p: u64) -> Option<u64>
        ensures { result ≡ find (λ q. nat_le p q) (named self.now) }
    {
        match &self.turns {
            Turns::Named { turns } => first_from(turns, p),
            _ => None,
        }
    }
}

fn first_from(turns: &[u64], p: u64) -> Option<u64>
    ensures { result ≡ find (λ q. nat_le p q) turns.now }
{
    turns.iter().find(|q| p <= **q).copied()
}

/// What the generator gives at place `i`, before it is reduced.
fn generated(seed: u64, i: u64) -> u64
    requires { i + 1 < 2 ^ 64 }
    ensures { result ≡ state_after (i + 1) seed / 2 ^ 33 }
{
    state_after(seed, i + 1) >> 33
}
