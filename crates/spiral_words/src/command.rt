// Commands, with what their options say, and why words ask for none.
ghost use Rattle.std.specs.Prelude.{◌≡◌};
ghost use Rattle.spiral_words.specs.declared.command.Refusal.TheVariants.{NoMemory};

use ring_mod::Modulus;
use schedules::{Mix, Schedule};
use std::alloc::AllocError;
use thiserror::Error;

/// What the words ask for: what the command goes by, and what it does with that.
#[derive(Drop)]
pub enum Command {
    /// By a request.
    ByRequest(RequestCommand),
    /// By a formula, modulo this.
    ByFormula {
        modulus: Modulus,
        command: FormulaCommand,
    },
    /// `exec`: by a listing.
    ByListing(Schedule),
    /// `convolve`: by a request for convolutions and a list. `code`: the program is written, and not run.
    ByList {
        schedule: Schedule,
        code: bool,
    },
}

/// What is done with a request.
#[derive(Drop)]
pub enum RequestCommand {
    /// A text is written for it alone.
    Writes(Document),
    /// `run`: its program runs over data.
    Runs(Order),
    /// `trace`: its program and the turns of the run are written too.
    Traces(Order),
    /// `check`: a certificate is judged.
    Judges,
}

/// The text that is written for a request.
#[derive(Drop)]
pub enum Document {
    Plan,
    Formula,
    Code,
    C,
    Cert,
    Sample { seed: u64, schedule: Schedule },
}

/// What is done with a formula.
#[derive(Drop)]
pub enum FormulaCommand {
    /// Its program is written.
    Compile,
    /// Its program runs over data.
    Apply(Schedule),
}

/// The order in which the processors of a request's program go on.
#[derive(Drop)]
pub enum Order {
    /// Turns of the machine.
    Turns(Schedule),
    /// Turns of the machine with store buffers.
    Buffered(Schedule),
    /// Turns and drains of the machine with store buffers.
    Mixed(Mix),
}

/// Why the words ask for nothing.
#[derive(Clone, Copy, Debug, PartialEq, Eq, Error)]
pub enum Refusal {
    /// They are no command line.
    #[error("usage")]
    Usage,
    /// Memory ran out.
    #[error("out of memory")]
    NoMemory,
}

impl From<AllocError> for Refusal {
    ghost from_gives = { λ _ e. e ≡ NoMemory };

    fn from(_: AllocError) -> Self {
        Refusal::NoMemory
    }
}
