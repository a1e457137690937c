// Why a program is refused.

ghost use Rattle.std.specs.Prelude.{◌≡◌};

use memory::NoMemory;
use thiserror::Error;

/// The greatest number of actions of a program, over all phases and processors.
pub const STEP_LIMIT: u64 = 100_000_000;

/// Why a program is refused.
#[derive(Clone, Copy, PartialEq, Eq, Debug, Error)]
pub enum CheckFault {
    /// It has more actions than the limit.
    #[error("more than {limit} actions")]
    OverSteps {
        limit: u64,
    },
    /// A place is not there, or a number on the way to it reaches 2^64.
    #[error("bad place in phase {phase}, processor {proc}, action {action}")]
    Address {
        phase: u64,
        proc: u64,
        action: u64,
    },
    /// A register is not there, or a tile's registers meet.
    #[error("bad register in phase {phase}, processor {proc}, action {action}")]
    Register {
        phase: u64,
        proc: u64,
        action: u64,
    },
    /// In the phase a processor writes the line and another touches it.
    #[error("phase {phase} line {line} is shared by {a} and {b}")]
    LineShared {
        phase: u64,
        line: u64,
        a: u64,
        b: u64,
    },
    /// Memory ran out.
    #[error("out of memory")]
    NoMemory,
}

impl From<NoMemory> for CheckFault {
    ghost use Rattle.code_check.specs.declared.fault.CheckFault.TheVariants as faults;

    ghost from_gives = { λ _ e. e ≡ faults.NoMemory };

    fn from(_fault: NoMemory) -> Self {
        CheckFault::NoMemory
    }
}
