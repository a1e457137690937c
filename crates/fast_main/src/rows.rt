// The table of statuses.
ghost use Rattle.std.specs.Prelude.{◌≡◌};
ghost use Rattle.io_edge.specs.Faults.{HasCause};
ghost use Rattle.io_edge.specs.Taken.{WritesAll};
ghost use Rattle.io_edge.specs.Status.Views.{plain_row};
ghost use Rattle.fast_main.specs.Rows.{row_of, before_line, why};
ghost use Rattle.fast_main.specs.Status.{code_of, note_line};

use crate::Status;
use io_edge::{Sink, StatusRow, WriteFault, row};
use loop_lanes::NestFault;

/// What stands before the number of a line, where a text is of one lane.
pub(crate) fn before_line(fault: NestFault) -> &'static str
    ensures { result.now ≡ before_line fault }
{
    match fault {
        NestFault::NoLoop => "one lane: line ",
        _ => "one lane: the loop at line ",
    }
}

/// What is said of that line.
pub(crate) fn why(fault: NestFault) -> &'static str
    ensures { result.now ≡ why fault }
{
    match fault {
        NestFault::NoLoop => " stands in no loop",
        NestFault::Loops => " has loops side by side, or beside operations",
        NestFault::Stores => " stores more than 256 times in a round",
        NestFault::Rounds => " has rounds that are no multiple of the lanes",
        NestFault::Registers =>
            " has registers out of order, or reads one that its round has not put",
        NestFault::Places => " loads or stores words that do not stand side by side",
    }
}

// The row of a text of one lane, where several were asked for.
fn row_of_one_lane(line: u64, fault: NestFault) -> StatusRow
    ensures { plain_row result ≡ row_of (Status.OneLane line fault) }
{
    StatusRow::new(0, &[(before_line(fault), Some(line)), (why(fault), None)])
}

impl Status {
    // The row of a status.
    fn row(&self) -> StatusRow
        ensures { plain_row result ≡ row_of self.now }
    {
        match *self {
            Self::Success => row! { 0 },
            Self::OneLane { line, fault } => row_of_one_lane(line, fault),
            Self::OneLaneOfRegisters => row! { 0 "one lane: more than 349525 registers" },
            Self::Usage =>
                row! { 2 "usage: spiral_fast [--words 16|32|52|64] [--lanes 2|4|8|16] [--name NAME [--times] [--header]] < LISTING > TEXT (reads a listing, writes C)" },
            Self::ReadFault => row! { 10 "read failed" },
            Self::WriteFault => row! { 11 "write failed" },
            Self::NoMemory => row! { 12 "out of memory" },
            Self::TooLong { limit } => row! { 13 "more than " limit " bytes" },
            Self::ListingSyntax { line } => row! { 18 "listing syntax at line " line },
            Self::Address {
                phase,
                proc,
                action,
            } => row! { 19 "bad place in phase " phase ", processor " proc ", action " action },
            Self::Register {
                phase,
                proc,
                action,
            } => row! { 20 "bad register in phase " phase ", processor " proc ", action " action },
            Self::LineShared { phase, line, a, b } =>
                row! { 21 "phase " phase " line " line " is shared by " a " and " b },
            Self::OverSteps { limit } => row! { 22 "more than " limit " actions" },
            Self::WideModulus { bits } => row! { 24 "modulus of more than " bits "-bit words" },
            Self::InputWritten { phase } =>
                row! { 25 "phase " phase " stores into X, which is only read in a function" },
        }
    }

    /// The exit code of the process.
    pub fn code(&self) -> u8
        ensures code { result ≡ code_of self.now }
    {
        self.row().code()
    }
}

/// Writes the line of a status.
pub(crate) fn write_note<E: Sink>(note: &mut E, status: Status) -> Result<(), WriteFault>
    ensures bytes { WritesAll (E.taken note.old) (E.taken note.new) result (note_line status) }
    ensures cause { HasCause (E.faults note.old) (E.faults note.new) result }
{
    status.row().write(note, b"spiral_fast: ")
}
