// A row of the table of statuses.
ghost use Rattle.std.specs.Prelude.{◌≡◌, ◌≤◌, length, map};
ghost use Rattle.std.specs.List.{flat_map};
ghost use Rattle.io_edge.specs.Faults.{HasCause};
ghost use Rattle.io_edge.specs.Taken.{WritesAll};
ghost use Rattle.io_edge.specs.Status.Rows.{row, part_text, line_of};
ghost use Rattle.io_edge.specs.Status.Views.{plain_part, plain_row};

use crate::{Sink, WriteFault, write_all, write_parts};
use arrayvec::ArrayVec;
use itoa::Buffer;

/// A text, and a number after it if there is one.
pub type Part = (&'static str, Option<u64>);

/// The number of a status, and the parts of its line.
#[derive(Drop)]
pub struct StatusRow {
    code: u8,
    parts: ArrayVec<Part, 4>,
}

/// The row of a number and a line: texts, and a number after a text where there is one.
#[macro_export]
macro_rules! row {
    (@number) => { None };
    (@number $number:ident) => { Some($number) };
    ($code:literal $($text:literal $($number:ident)?)*) => {
        $crate::StatusRow::new($code, &[$(($text, $crate::row!(@number $($number)?))),*])
    };
}

// Writes a text, and the number after it.
fn write_part<E: Sink>(note: &mut E, part: &Part) -> Result<(), WriteFault>
    ensures bytes { WritesAll (E.taken note.old) (E.taken note.new) result
        (part_text (plain_part part.now)) }
    ensures cause { HasCause (E.faults note.old) (E.faults note.new) result }
{
    let (text, number) = *part;
    match number {
        Some(number) => {
            let mut buffer = Buffer::new();
            write_parts(note, &[text.as_bytes(), buffer.format(number).as_bytes()])
        }
        None => write_all(note, text.as_bytes()),
    }
}

// Writes parts, one after another.
fn write_row<E: Sink>(note: &mut E, parts: &[Part]) -> Result<(), WriteFault>
    ensures bytes { WritesAll (E.taken note.old) (E.taken note.new) result
        (flat_map (λ part. part_text (plain_part part)) parts.now) }
    ensures cause { HasCause (E.faults note.old) (E.faults note.new) result }
{
    for part in parts {
        write_part(note, part)?;
    }
    Ok(())
}

impl StatusRow {
    /// The row of this number and these parts.
    pub fn new(code: u8, parts: &[Part]) -> Self
        requires { length parts.now ≤ 4 }
        ensures { plain_row result ≡ row code (map plain_part parts.now) }
    {
        let mut held = ArrayVec::new();
        for part in parts {
            held.push(*part);
        }
        StatusRow { code, parts: held }
    }

    /// The number of the status.
    pub fn code(&self) -> u8
        ensures { result ≡ (plain_row self.now).code }
    {
        self.code
    }

    /// Writes the line, after a front that each line of a program has.
    pub fn write<E: Sink>(&self, note: &mut E, front: &[u8]) -> Result<(), WriteFault>
        ensures bytes { WritesAll (E.taken note.old) (E.taken note.new) result
            (line_of front.now (plain_row self.now).parts) }
        ensures cause { HasCause (E.faults note.old) (E.faults note.new) result }
    {
        let parts = self.parts.as_slice();
        if parts.is_empty() {
            return Ok(());
        }
        write_all(note, front)?;
        write_row(note, parts)?;
        write_all(note, b"\n")
    }
}
