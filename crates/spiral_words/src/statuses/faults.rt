// The faults of the parts of a call, as statuses.
use crate::statuses::Status;
use code_check::CheckFault;
use data_stream::RestFault;
use generate_faults::{ConvFault, GenerateFault};
use io_edge::{Feed, FeedFault, WriteFault};
use listing_text::ListingFault;
use memory::NoMemory;
use request_text::RequestFault;
use runs::StreamFault;
use spl_text::SplFault;
use std::alloc::AllocError;

/// How many bytes a request line may have, without its end.
pub const LINE_LIMIT: usize = 256;

/// How many bytes a certificate may have.
pub const CERTIFICATE_LIMIT: u64 = 65536;

impl From<FeedFault> for Status {
    ghost use Rattle.std.specs.Prelude.{◌≡◌};
    ghost use Rattle.spiral_words.specs.Statuses.Fault.{status_of_line};

    ghost from_gives = { λ fault status. status ≡ status_of_line fault };

    // A fault of the first line.
    fn from(fault: FeedFault) -> Self {
        match fault {
            FeedFault::ReadFault => Status::ReadFault,
            FeedFault::TooLong => Status::TooLong {
                limit: LINE_LIMIT as u64,
            },
        }
    }
}

impl From<RequestFault> for Status {
    ghost use Rattle.std.specs.Prelude.{◌≡◌};
    ghost use Rattle.spiral_words.specs.Statuses.Fault.{status_of_request};

    ghost from_gives = { λ fault status. status ≡ status_of_request fault };

    fn from(fault: RequestFault) -> Self {
        match fault {
            RequestFault::Syntax { at } => Status::Syntax { at },
            RequestFault::Range { field, value } => Status::Range { field, value },
            RequestFault::Shape { size } => Status::Shape { size },
            RequestFault::LanesLine { lanes, line } => Status::LanesLine { lanes, line },
            RequestFault::NotUnit { gcd } => Status::NotUnit { gcd },
        }
    }
}

impl From<GenerateFault> for Status {
    ghost use Rattle.std.specs.Prelude.{◌≡◌};
    ghost use Rattle.spiral_words.specs.Statuses.Fault.{status_of_generate};

    ghost from_gives = { λ fault status. status ≡ status_of_generate fault };

    fn from(fault: GenerateFault) -> Self {
        match fault {
            GenerateFault::Root { power } => Status::Root { power },
            GenerateFault::NoDivide => Status::NoDivide,
            GenerateFault::OverBudget { cost, budget } => Status::OverBudget { cost, budget },
            GenerateFault::NoMemory => Status::NoMemory,
        }
    }
}

impl From<ConvFault> for Status {
    ghost use Rattle.std.specs.Prelude.{◌≡◌};
    ghost use Rattle.spiral_words.specs.Statuses.Fault.{status_of_conv};

    ghost from_gives = { λ fault status. status ≡ status_of_conv fault };

    fn from(fault: ConvFault) -> Self {
        match fault {
            ConvFault::Root { power } => Status::Root { power },
            ConvFault::NotPrincipal { k } => Status::NotPrincipal { k },
            ConvFault::OverBudget { cost, budget } => Status::OverBudget { cost, budget },
            ConvFault::NoMemory => Status::NoMemory,
        }
    }
}

impl From<StreamFault> for Status {
    ghost use Rattle.std.specs.Prelude.{◌≡◌};
    ghost use Rattle.spiral_words.specs.Statuses.Fault.{status_of_fault};

    ghost from_gives = { λ fault status. status ≡ status_of_fault fault };

    fn from(fault: StreamFault) -> Self {
        match fault {
            StreamFault::BadNumber { token } => Status::BadNumber { token },
            StreamFault::Truncated { have, need } => Status::Truncated { have, need },
            StreamFault::TooLong => Status::TooLong { limit: Feed::LIMIT },
            StreamFault::ReadFault => Status::ReadFault,
            StreamFault::WriteFault => Status::WriteFault,
        }
    }
}

impl From<RestFault> for Status {
    ghost use Rattle.std.specs.Prelude.{◌≡◌};
    ghost use Rattle.spiral_words.specs.Statuses.Fault.{status_of_rest};

    ghost from_gives = { λ fault status. status ≡ status_of_rest fault };

    fn from(fault: RestFault) -> Self {
        match fault {
            RestFault::ReadFault => Status::ReadFault,
            RestFault::TooLong => Status::TooLong {
                limit: CERTIFICATE_LIMIT,
            },
            RestFault::NoMemory => Status::NoMemory,
        }
    }
}

impl From<SplFault> for Status {
    ghost use Rattle.std.specs.Prelude.{◌≡◌};
    ghost use Rattle.spiral_words.specs.Statuses.Fault.{status_of_spl};

    ghost from_gives = { λ fault status. status ≡ status_of_spl fault };

    fn from(fault: SplFault) -> Self {
        match fault {
            SplFault::Syntax { at } => Status::Syntax { at },
            SplFault::TooDeep { at } => Status::TooDeep { at },
            SplFault::Shape { at, left, right } => Status::FormulaShape { at, left, right },
            SplFault::NoMemory => Status::NoMemory,
        }
    }
}

impl From<ListingFault> for Status {
    ghost use Rattle.std.specs.Prelude.{◌≡◌};
    ghost use Rattle.spiral_words.specs.Statuses.Fault.{status_of_listing};

    ghost from_gives = { λ fault status. status ≡ status_of_listing fault };

    fn from(fault: ListingFault) -> Self {
        match fault {
            ListingFault::Syntax { line } => Status::ListingSyntax { line },
            ListingFault::NoMemory => Status::NoMemory,
        }
    }
}

impl From<CheckFault> for Status {
    ghost use Rattle.std.specs.Prelude.{◌≡◌};
    ghost use Rattle.spiral_words.specs.Statuses.Fault.{status_of_check};

    ghost from_gives = { λ fault status. status ≡ status_of_check fault };

    fn from(fault: CheckFault) -> Self {
        match fault {
            CheckFault::OverSteps { limit } => Status::OverSteps { limit },
            CheckFault::Address {
                phase,
                proc,
                action,
            } => Status::Address {
                phase,
                proc,
                action,
            },
            CheckFault::Register {
                phase,
                proc,
                action,
            } => Status::Register {
                phase,
                proc,
                action,
            },
            CheckFault::LineShared { phase, line, a, b } => Status::LineShared {
                phase,
                line,
                a,
                b,
            },
            CheckFault::NoMemory => Status::NoMemory,
        }
    }
}

impl From<WriteFault> for Status {
    ghost use Rattle.std.specs.Prelude.{◌≡◌};
    ghost use Rattle.spiral_words.specs.declared.statuses.status.Status.TheVariants.{WriteFault};

    ghost from_gives = { λ _ status. status ≡ WriteFault };

    fn from(_: WriteFault) -> Self {
        Status::WriteFault
    }
}

impl From<NoMemory> for Status {
    ghost use Rattle.std.specs.Prelude.{◌≡◌};
    ghost use Rattle.spiral_words.specs.declared.statuses.status.Status.TheVariants.{NoMemory};

    ghost from_gives = { λ _ status. status ≡ NoMemory };

    fn from(_: NoMemory) -> Self {
        Status::NoMemory
    }
}

impl From<AllocError> for Status {
    ghost use Rattle.std.specs.Prelude.{◌≡◌};
    ghost use Rattle.spiral_words.specs.declared.statuses.status.Status.TheVariants.{NoMemory};

    ghost from_gives = { λ _ status. status ≡ NoMemory };

    fn from(_: AllocError) -> Self {
        Status::NoMemory
    }
}
