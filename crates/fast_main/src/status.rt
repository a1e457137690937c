// What a call answers with.
use crate::options::Refusal;
use crate::run::LISTING_LIMIT;
use code_check::CheckFault;
use data_stream::RestFault;
use io_edge::WriteFault;
use listing_text::ListingFault;
use loop_lanes::NestFault;
use memory::NoMemory;

/// How a call ended.
#[derive(Clone, Copy, Debug, PartialEq, Eq)]
pub enum Status {
    Success,
    /// The text was written. It stays at one lane, since the statement that begins at this line of the listing cannot be
    /// put on lanes.
    OneLane {
        line: u64,
        fault: NestFault,
    },
    /// The text was written. It stays at one lane, since the program has too many registers for several.
    OneLaneOfRegisters,
    /// The words are no call's.
    Usage,
    /// The input is no listing: some listing begins with the lines before this one, and none with this line too.
    ListingSyntax {
        line: u64,
    },
    /// The program has more actions than the limit.
    OverSteps {
        limit: u64,
    },
    /// A place is not there, or a number on the way to it reaches 2^64.
    Address {
        phase: u64,
        proc: u64,
        action: u64,
    },
    /// A register is not there, or a tile's registers meet.
    Register {
        phase: u64,
        proc: u64,
        action: u64,
    },
    /// In the phase processor a writes the line and b touches it.
    LineShared {
        phase: u64,
        line: u64,
        a: u64,
        b: u64,
    },
    /// The modulus has more bits than words of this size take.
    WideModulus {
        bits: u64,
    },
    /// The phase stores into X, and a function is asked for, whose input is its caller's.
    InputWritten {
        phase: u64,
    },
    /// The input failed.
    ReadFault,
    /// The output failed.
    WriteFault,
    NoMemory,
    /// The input has more bytes than this.
    TooLong {
        limit: u64,
    },
}

impl From<Refusal> for Status {
    ghost use Rattle.std.specs.Prelude.{◌≡◌};
    ghost use Rattle.fast_main.specs.Status.{status_of_words};

    ghost from_gives = { λ refusal status. status ≡ status_of_words refusal };

    fn from(refusal: Refusal) -> Self {
        match refusal {
            Refusal::Usage => Status::Usage,
            Refusal::NoMemory => Status::NoMemory,
        }
    }
}

impl From<RestFault> for Status {
    ghost use Rattle.std.specs.Prelude.{◌≡◌};
    ghost use Rattle.fast_main.specs.Status.{status_of_rest};

    ghost from_gives = { λ fault status. status ≡ status_of_rest fault };

    fn from(fault: RestFault) -> Self {
        match fault {
            RestFault::ReadFault => Status::ReadFault,
            RestFault::TooLong => Status::TooLong {
                limit: LISTING_LIMIT,
            },
            RestFault::NoMemory => Status::NoMemory,
        }
    }
}

impl From<ListingFault> for Status {
    ghost use Rattle.std.specs.Prelude.{◌≡◌};
    ghost use Rattle.fast_main.specs.Status.{status_of_listing};

    ghost from_gives = { λ fault status. status ≡ status_of_listing fault };

    fn from(fault: ListingFault) -> Self {
        match fault {
            ListingFault::Syntax { line } => Status::ListingSyntax { line },
            ListingFault::NoMemory => Status::NoMemory,
        }
    }
}

impl From<CheckFault> for Status {
    ghost use Rattle.std.specs.Prelude.{◌≡◌};
    ghost use Rattle.fast_main.specs.Status.{status_of_check};

    ghost from_gives = { λ fault status. status ≡ status_of_check fault };

    fn from(fault: CheckFault) -> Self {
        match fault {
            CheckFault::OverSteps { limit } => Status::OverSteps { limit },
            CheckFault::Address {
                phase,
                proc,
                action,
            } => Status::Address {
                phase,
                proc,
                action,
            },
            CheckFault::Register {
                phase,
                proc,
                action,
            } => Status::Register {
                phase,
                proc,
                action,
            },
            CheckFault::LineShared { phase, line, a, b } => Status::LineShared {
                phase,
                line,
                a,
                b,
            },
            CheckFault::NoMemory => Status::NoMemory,
        }
    }
}

impl From<WriteFault> for Status {
    ghost use Rattle.std.specs.Prelude.{◌≡◌};
    ghost use Rattle.fast_main.specs.declared.status.Status.TheVariants.{WriteFault};

    ghost from_gives = { λ _ status. status ≡ WriteFault };

    fn from(_: WriteFault) -> Self {
        Status::WriteFault
    }
}

impl From<NoMemory> for Status {
    ghost use Rattle.std.specs.Prelude.{◌≡◌};
    ghost use Rattle.fast_main.specs.declared.status.Status.TheVariants.{NoMemory};

    ghost from_gives = { λ _ status. status ≡ NoMemory };

    fn from(_: NoMemory) -> Self {
        Status::NoMemory
    }
}
