// Orders and schedules, as words spell them.
ghost use Rattle.std.specs.Prelude.{◌≡◌, Err, IfOk, true};
ghost use Rattle.schedules.specs.Mix.{mix_word};
ghost use Rattle.schedules.specs.Schedule.{schedule_word};
ghost use Rattle.spiral_words.specs.Asked.{SpellsOrder};
ghost use Rattle.spiral_words.specs.Refused.{IsNoMix, IsNoOrder, IsNoSchedule};

use crate::command::{Order, Refusal};
use schedules::{Mix, MixFault, Schedule, ScheduleFault, read_mix, read_schedule};
use std::alloc::Global;

/// The order that a word is: a schedule, or with buffers turns and drains too.
pub(crate) fn order_of(alloc: Global, buffers: bool, word: &str) -> Result<Order, Refusal>
    ensures ok { IfOk result (λ order. SpellsOrder buffers word.now order) }
    ensures usage { result ≡ Err Refusal.Usage → IsNoOrder buffers word.now }
{
    if buffers {
        buffered_order(alloc, word)
    } else {
        let schedule = schedule_of(alloc, word)?;
        Ok(Order::Turns(schedule))
    }
}

/// A schedule, or turns and drains.
fn buffered_order(alloc: Global, word: &str) -> Result<Order, Refusal>
    ensures ok { IfOk result (λ order. SpellsOrder true word.now order) }
    ensures usage { result ≡ Err Refusal.Usage → IsNoOrder true word.now }
{
    match schedule_of(alloc, word) {
        Ok(schedule) => Ok(Order::Buffered(schedule)),
        Err(Refusal::NoMemory) => Err(Refusal::NoMemory),
        Err(Refusal::Usage) => {
            let mix = mix_of(alloc, word)?;
            Ok(Order::Mixed(mix))
        }
    }
}

fn mix_of(alloc: Global, word: &str) -> Result<Mix, Refusal>
    ensures ok { IfOk result (λ mix. mix_word word.now mix) }
    ensures usage { result ≡ Err Refusal.Usage → IsNoMix word.now }
{
    match read_mix(alloc, word.as_bytes()) {
        Ok(mix) => Ok(mix),
        Err(MixFault::Syntax { .. }) => Err(Refusal::Usage),
        Err(MixFault::NoMemory) => Err(Refusal::NoMemory),
    }
}

pub(crate) fn schedule_of(alloc: Global, word: &str) -> Result<Schedule, Refusal>
    ensures ok { IfOk result (λ schedule. schedule_word word.now schedule) }
    ensures usage { result ≡ Err Refusal.Usage → IsNoSchedule word.now }
{
    match read_schedule(alloc, word.as_bytes()) {
        Ok(schedule) => Ok(schedule),
        Err(ScheduleFault::Syntax { .. }) => Err(Refusal::Usage),
        Err(ScheduleFault::NoMemory) => Err(Refusal::NoMemory),
    }
}
