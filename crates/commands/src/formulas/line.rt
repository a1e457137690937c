// The line of a formula, with which an input begins.
ghost use Rattle.std.specs.Prelude.{◌≡◌, ℕ, ◌++◌, ◌∷◌, List, [], IsErrOf, OnOk};
ghost use Rattle.io_edge.specs.Told.{Consumes, IsOver};
ghost use Rattle.io_edge.specs.Faults.{Reports};
ghost use Rattle.io_edge.specs.Feed.{to_come};
ghost use Rattle.commands.specs.Input.Ends.{ReadsCleanly};
ghost use Rattle.commands.specs.Formulas.Compiled.{GivesFormula, GivesText};

use data_stream::RestFault;
use io_edge::{Feed, Source};
use memory::NoMemory;
use spiral_words::Status;
use std::alloc::Global;

/// How many bytes the line of a formula has at most, without its end.
const FORMULA_LIMIT: u64 = 65536;

// Puts a byte after the text.
fn append(text: &mut Vec<u8>, byte: u8) -> Result<(), NoMemory>
    ensures { OnOk result (text.new.items ≡ text.old.items ++ byte ∷ []) }
{
    text.push(byte)?;
    Ok(())
}

// Reads the first line, to its end or the end of the input.
fn read_text<S: Source>(
    alloc: Global,
    feed: &mut Feed,
    source: &mut S,
) -> Result<Vec<u8>, RestFault>
    requires fresh { feed.old.taken ≡ 0 }
    ensures answer { (read : List ℕ)
        × Consumes (to_come feed.old (S.told source.old))
        (to_come feed.new (S.told source.new)) read
        × GivesText read (IsOver (to_come feed.new (S.told source.new))) feed.new.taken result }
    ensures empty { IsErrOf result RestFault.ReadFault → feed.new.held ≡ [] }
    ensures cause { Reports (S.faults source.old) (S.faults source.new)
        (IsErrOf result RestFault.ReadFault) }
{
    let mut text = Vec::new(alloc);
    while let Some(byte) = feed.byte(source)? {
        if byte == b'\n' {
            return Ok(text);
        }
        if text.len() as u64 == FORMULA_LIMIT {
            return Err(RestFault::TooLong);
        }
        append(&mut text, byte)?;
    }
    Ok(text)
}

/// The formula's text with which the input begins, as it stands there.
pub(crate) fn formula_line<I: Source>(
    alloc: Global,
    feed: &mut Feed,
    input: &mut I,
) -> Result<Vec<u8>, Status>
    requires fresh { feed.old.taken ≡ 0 }
    ensures told { (read : List ℕ)
        × Consumes (to_come feed.old (I.told input.old)) (to_come feed.new (I.told input.new)) read
        × GivesFormula read (IsOver (to_come feed.new (I.told input.new))) feed.new.taken result }
    ensures ends { ReadsCleanly result feed.new.held (I.faults input.old) (I.faults input.new) }
{
    match read_text(alloc, feed, input) {
        Ok(text) => Ok(text),
        Err(RestFault::ReadFault) => Err(Status::ReadFault),
        Err(RestFault::TooLong) => Err(Status::TooLong {
            limit: FORMULA_LIMIT,
        }),
        Err(RestFault::NoMemory) => Err(Status::NoMemory),
    }
}
