// The table of statuses.
ghost use Rattle.std.specs.Prelude.{◌≡◌};
ghost use Rattle.io_edge.specs.Faults.{HasCause};
ghost use Rattle.io_edge.specs.Taken.{WritesAll};
ghost use Rattle.io_edge.specs.Status.Views.{plain_row};
ghost use Rattle.spiral_words.specs.Statuses.Rows.{row_of};
ghost use Rattle.spiral_words.specs.Statuses.Status.{code_of, note_line};

use crate::statuses::Status;
use io_edge::{Sink, StatusRow, WriteFault, row};
use request_text::Field;

// Which field is out of its limits.
fn range_row(field: Field, value: u64) -> StatusRow
    ensures { plain_row result ≡ row_of (Status.Range field value) }
{
    StatusRow::new(
        4,
        &[
            (field.word(), None),
            (" ", Some(value)),
            (" is out of range", None),
        ],
    )
}

impl Status {
    // The row of a status.
    fn row(&self) -> StatusRow
        ensures { plain_row result ≡ row_of self.now }
    {
        match *self {
            Self::Success => row! { 0 },
            Self::Usage =>
                row! { 2 "usage: spiral plan|formula|code|c|run|trace|cert|check|sample|compile|apply|exec|convolve [--schedule WORD] [--seed NUMBER] [--mod NUMBER] [--buffers] [--code]" },
            Self::Syntax { at } => row! { 3 "syntax at byte " at },
            Self::Range { field, value } => range_row(field, value),
            Self::Shape { size } => row! { 4 "wht size " size " is not a power of two" },
            Self::LanesLine { lanes, line } =>
                row! { 4 "lanes " lanes " do not divide line " line },
            Self::Turn { q, p } => row! { 5 "turn names processor " q " of " p },
            Self::Root { power } => row! { 6 "root to the size is " power ", not 1" },
            Self::NoDivide => row! { 7 "no split fits procs, line and lanes" },
            Self::OverBudget { cost, budget } =>
                row! { 8 "least cost " cost " is over budget " budget },
            Self::BadNumber { token } => row! { 9 "token " token " is not a number" },
            Self::Truncated { have, need } =>
                row! { 9 "input ends with " have " of " need " numbers" },
            Self::ReadFault => row! { 10 "read failed" },
            Self::WriteFault => row! { 11 "write failed" },
            Self::NoMemory => row! { 12 "out of memory" },
            Self::TooLong { limit } => row! { 13 "more than " limit " bytes" },
            Self::Unread => row! { 14 "certificate unreadable" },
            Self::Wrong { size, given, found } =>
                row! { 14 "certificate row " size " gives " given ", found " found },
            Self::NotUnit { gcd } => row! { 15 "size and modulus share the factor " gcd },
            Self::FormulaShape { at, left, right } =>
                row! { 16 "formula shape at byte " at ": " left " and " right },
            Self::TooDeep { at } => row! { 17 "formula too deep at byte " at },
            Self::ListingSyntax { line } => row! { 18 "listing syntax at line " line },
            Self::Address {
                phase,
                proc,
                action,
            } => row! { 19 "bad place in phase " phase ", processor " proc ", action " action },
            Self::Register {
                phase,
                proc,
                action,
            } => row! { 20 "bad register in phase " phase ", processor " proc ", action " action },
            Self::LineShared { phase, line, a, b } =>
                row! { 21 "phase " phase " line " line " is shared by " a " and " b },
            Self::OverSteps { limit } => row! { 22 "more than " limit " actions" },
            Self::NotPrincipal { k } => row! { 23 "power sum " k " is not zero" },
        }
    }

    /// The exit code of the process.
    pub fn code(&self) -> u8
        ensures code { result ≡ code_of self.now }
    {
        self.row().code()
    }
}

/// Writes the line of a status.
pub fn write_note<E: Sink>(note: &mut E, status: Status) -> Result<(), WriteFault>
    ensures bytes { WritesAll (E.taken note.old) (E.taken note.new) result (note_line status) }
    ensures cause { HasCause (E.faults note.old) (E.faults note.new) result }
{
    status.row().write(note, b"spiral: ")
}
