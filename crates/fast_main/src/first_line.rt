// The comment that stands before a text of one lane, where several were asked for.

ghost use Rattle.std.specs.Prelude.{◌≡◌, ◌++◌, IfOk, OnOk};
ghost use Rattle.fast_main.specs.FirstLine.{first_line};

use crate::Status;
use crate::rows::{before_line, why};
use listing_text::{put_numbered, put_word};
use memory::NoMemory;
use std::alloc::{AllocError, Global};

fn put_first_line(out: &mut Vec<u8>, ending: Status) -> Result<(), AllocError>
    ensures { OnOk result (out.new.items ≡ out.old.items ++ first_line ending) }
{
    match ending {
        Status::OneLane { line, fault } => {
            put_word(out, b"// ")?;
            put_numbered(
                out,
                before_line(fault).as_bytes(),
                line,
                why(fault).as_bytes(),
            )?;
            put_word(out, b"\n")
        }
        Status::OneLaneOfRegisters => {
            put_word(out, b"// one lane: more than 349525 registers\n")
        }
        _ => Ok(()),
    }
}

/// The text, behind the comment of a call that ends so.
pub(crate) fn with_first_line(
    alloc: Global,
    ending: Status,
    text: Vec<u8>,
) -> Result<Vec<u8>, NoMemory>
    ensures { IfOk result (λ made. made.items ≡ first_line ending ++ text.items) }
{
    let mut made = Vec::new(alloc);
    put_first_line(&mut made, ending)?;
    put_word(&mut made, &text)?;
    Ok(made)
}
