// How the phases move on.

ghost use Rattle.std.specs.Prelude.{◌≡◌, ℕ, ◌-◌, ◌≤◌, List, map, length, replicate, nat_lt};
ghost use Rattle.std.specs.List.{list_any};
ghost use Rattle.icode.specs.Buffers.{some_wait};
ghost use Rattle.buffer_machine.specs.Stand.{cleared, first_busy, is_held, waits_of};

use crate::queue::Queue;
use crate::registers::Registers;

/// Whether a store waits.
#[inline]
pub(crate) fn some_wait(queues: &[Queue]) -> bool
    ensures { result ≡ some_wait (waits_of queues.now) }
{
    for queue in queues {
        if queue.is_waiting() {
            return true;
        }
    }
    false
}

/// Whether a processor has done fewer than `len` actions.
#[inline]
fn some_left(len: u64, done: &[u64]) -> bool
    ensures { result ≡ list_any (λ d. nat_lt d len) done.now }
{
    for count in done {
        if *count < len {
            return true;
        }
    }
    false
}

/// Whether something holds a phase of `len` actions.
#[inline]
pub(crate) fn is_held(len: u64, done: &[u64], queues: &[Queue]) -> bool
    ensures { result ≡ is_held len done.now queues.now }
{
    some_left(len, done) || some_wait(queues)
}

/// The first phase from this one on that has an action, or what comes after them.
pub(crate) fn next_busy(lens: &[u64], from: u64) -> u64
    requires { from ≤ length lens.now }
    ensures first { result ≡ first_busy lens.now (length lens.now - from) from }
    ensures within { result ≤ length lens.now }
{
    let mut phase = from;
    while phase < lens.len() as u64 && lens[phase as usize] == 0 {
        phase += 1;
    }
    phase
}

/// No store waits.
pub(crate) fn clear_queues(queues: &mut [Queue])
    ensures { queues.new ≡ map cleared queues.old }
{
    for queue in queues.iter_mut() {
        queue.clear();
    }
}

/// 0 in all registers.
pub(crate) fn clear_files(files: &mut [Registers])
    ensures { files.new ≡ map (λ (file : List ℕ). replicate (length file) 0) files.old }
{
    for file in files.iter_mut() {
        file.clear();
    }
}
