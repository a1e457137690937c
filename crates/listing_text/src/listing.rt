//! Listings, read line by line.

ghost use Rattle.std.specs.Prelude.{◌≡◌, IfOk, IsOkUnless};
ghost use Rattle.icode.specs.Plain.{PlainProgram};
ghost use Rattle.icode.specs.Program.{plain_program};
ghost use Rattle.listing_text.specs.Texts.{is_listing, TextAnswers};

use crate::printing::Listing;
use crate::reader::read;
use icode::program::Program;
use std::alloc::Global;
use thiserror::Error;

/// Why a text is no listing.
#[derive(Clone, Copy, PartialEq, Eq, Debug, Error)]
pub enum ListingFault {
    /// Some listing begins with the lines before this one, counted from 1, and none with this line too.
    #[error("no listing goes on with line {line}")]
    Syntax { line: u64 },
    #[error("out of memory")]
    NoMemory,
}

/// The program whose listing a text is.
pub fn read_listing(alloc: Global, text: &[u8]) -> Result<Program, ListingFault>
    ensures answer { TextAnswers text.now result }
    ensures only { (p : PlainProgram) → is_listing text.now p
        → IsOkUnless result ListingFault.NoMemory × IfOk result (λ q. plain_program q ≡ p) }
{
    match read::<Listing>(alloc, text) {
        Ok(draft) => Ok(Program {
            size: draft.header.size,
            modulus: draft.header.modulus,
            procs: draft.header.procs,
            line: draft.header.line,
            lanes: draft.header.lanes,
            regs: draft.header.regs,
            tables: draft.tables,
            phases: draft.phases,
        }),
        Err(fault) => Err(fault),
    }
}
