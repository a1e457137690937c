// How the phases move on.

ghost use Rattle.std.specs.Prelude.{◌≡◌, ℕ, ◌-◌, ◌<◌, ◌≤◌, length, map, if◌then◌else◌, slice_index, IfSome, IfNone};
ghost use Rattle.icode.specs.Machine.{Code, is_open, first_open};
ghost use Rattle.par_machine.specs.Lengths.{HasLengths, IsFirstLeft, OfCode, settled_phase, settled_done};
ghost use Rattle.par_machine.specs.Processors.{rewound};

use crate::cursor::Instruction;
use crate::processor::{Processor, rewind_all};

/// What every processor does in a phase.
#[derive(Drop)]
pub(crate) struct Routine {
    pub(crate) code: Vec<Instruction>,
    /// The number of actions.
    pub(crate) len: u64,
}

/// The first processor that has done fewer actions than there are.
pub(crate) fn first_left(done: &[u64], len: u64) -> Option<u64>
    ensures found { IfSome result (IsFirstLeft done.now len) }
    ensures none { IfNone result ((q : ℕ) → q < length done.now → len ≤ slice_index done.now q) }
{
    for proc in 0..done.len() {
        if done[proc] < len {
            return Some(proc as u64);
        }
    }
    None
}

/// The first phase from this one on that has an action, or what comes after them.
pub(crate) fn first_busy(phases: &[Routine], from: u64) -> u64
    requires from { from ≤ length phases.now }
    ensures first { (code : Code) → HasLengths code phases.now → 0 < code.procs
        → result ≡ first_open code (length phases.now - from) from }
    ensures within { result ≤ length phases.now }
{
    let mut phase = from;
    while phase < phases.len() as u64 && phases[phase as usize].len == 0 {
        phase += 1;
    }
    phase
}

/// Where no action is left in the phase, nothing is done of the next one that has an action. The
/// result is the phase. The processor is asked first, so that most calls look at no other.
#[inline]
pub(crate) fn settle(
    phases: &[Routine],
    phase: u64,
    done: &mut [u64],
    processors: &mut [Processor],
    proc: u64,
) -> u64
    requires proc { proc < length done.old }
    requires phase { phase < length phases.now }
    ensures phase { OfCode phases.now done.old
        (λ code. result ≡ settled_phase code (length phases.now) phase done.old) }
    ensures done { OfCode phases.now done.old
        (λ code. done.new ≡ settled_done code phase done.old) }
    ensures processors { OfCode phases.now done.old (λ code. processors.new
        ≡ (if is_open code phase done.old then processors.old else map rewound processors.old)) }
    ensures within { result ≤ length phases.now }
{
    let len = phases[phase as usize].len;
    if done[proc as usize] < len {
        return phase;
    }
    match first_left(done, len) {
        Some(_) => phase,
        None => {
            done.fill(0);
            rewind_all(processors);
            first_busy(phases, phase + 1)
        }
    }
}
