//! The first line of a C text.

ghost use Rattle.std.specs.Prelude.{◌≡◌, ℕ, Ok, IfOk};
ghost use Rattle.icode.specs.Plain.{PlainProgram};
ghost use Rattle.grammar.specs.Cursor.{GivesAll};
ghost use Rattle.grammar.specs.Reading.{whole};
ghost use Rattle.listing_text.specs.Wording.{header_of};
ghost use Rattle.c_print.specs.CText.{c_header_text};
ghost use Rattle.c_print.specs.CHeaders.{c_header_at, IsHeaderOf};

use grammar::Stuck;
use listing_text::{Header, read_header};

/// The numbers in the first line of a C text, with its end: a part of a reader of whole C texts. Their limits
/// are not tested. `Stuck` says how many bytes are left where reading stops.
pub fn read_c_header(line: &[u8]) -> Result<Header, Stuck>
    ensures read { GivesAll result (whole c_header_at line.now) }
    ensures text { IfOk result (λ header. line.now ≡ c_header_text header) }
    ensures only { (p : PlainProgram) → IsHeaderOf line.now p → result ≡ Ok (header_of p) }
{
    match read_header(line, b"/* program size ", b" */\n") {
        Ok(header) => Ok(header),
        Err(stuck) => Err(stuck),
    }
}
