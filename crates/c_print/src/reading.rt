//! C texts, read line by line.

ghost use Rattle.std.specs.Prelude.{◌≡◌, IfOk, IsOkUnless};
ghost use Rattle.icode.specs.Plain.{PlainProgram};
ghost use Rattle.icode.specs.Program.{plain_program};
ghost use Rattle.c_print.specs.CTexts.{is_c_text, CAnswers, c_fault};

use crate::printing::C;
use icode::program::Program;
use listing_text::{ListingFault, read};
use std::alloc::Global;
use thiserror::Error;

/// Why a text is no C text of a program.
#[derive(Clone, Copy, PartialEq, Eq, Debug, Error)]
pub enum CFault {
    /// Some C text begins with the lines before this one, counted from 1, and none with this line too.
    #[error("no C text of a program goes on with line {line}")]
    Syntax { line: u64 },
    #[error("out of memory")]
    NoMemory,
}

fn fault_of(fault: ListingFault) -> CFault
    ensures { result ≡ c_fault fault }
{
    match fault {
        ListingFault::Syntax { line } => CFault::Syntax { line },
        ListingFault::NoMemory => CFault::NoMemory,
    }
}

/// The program whose C text a text is: what `print_c` writes of a program is read back, and nothing else is read.
pub fn read_c(alloc: Global, text: &[u8]) -> Result<Program, CFault>
    ensures answer { CAnswers text.now result }
    ensures only { (p : PlainProgram) → is_c_text text.now p
        → IsOkUnless result CFault.NoMemory × IfOk result (λ q. plain_program q ≡ p) }
{
    match read::<C>(alloc, text) {
        Ok(draft) => Ok(Program {
            size: draft.header.size,
            modulus: draft.header.modulus,
            procs: draft.header.procs,
            line: draft.header.line,
            lanes: draft.header.lanes,
            regs: draft.header.regs,
            tables: draft.tables,
            phases: draft.phases,
        }),
        Err(fault) => Err(fault_of(fault)),
    }
}
