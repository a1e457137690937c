// The lines before the first empty line.
ghost use Rattle.std.specs.Prelude.{◌≡◌, ℕ, ◌+◌, ◌<◌, ◌&&◌, List, [], IsErrOf};
ghost use Rattle.io_edge.specs.Told.{Consumes, IsOver};
ghost use Rattle.io_edge.specs.Faults.{Reports};
ghost use Rattle.io_edge.specs.Feed.{to_come, limit};
ghost use Rattle.data_stream.specs.Parts.Part.{ends_line, GivesPart};

use crate::parts::{RestFault, append};
use io_edge::{Feed, Source};
use std::alloc::Global;

// The byte ends an empty line, where a line begins with it or not.
fn ends_part(begins: bool, byte: u8) -> bool
    ensures { result ≡ (begins && ends_line byte) }
{
    begins && byte == b'\n'
}

/// Reads the lines before the first empty line, and that line, or all bytes that are to come where there is none. The
/// lines may have `most` bytes.
pub fn read_part<S: Source>(
    alloc: Global,
    feed: &mut Feed,
    source: &mut S,
    most: u64,
) -> Result<Vec<u8>, RestFault>
    requires { feed.old.taken + most < limit }
    ensures answer { (read : List ℕ) × Consumes (to_come feed.old (S.told source.old))
        (to_come feed.new (S.told source.new)) read
        × GivesPart most read (IsOver (to_come feed.new (S.told source.new)))
        feed.old.taken feed.new.taken result }
    ensures empty { IsErrOf result RestFault.ReadFault → feed.new.held ≡ [] }
    ensures cause { Reports (S.faults source.old) (S.faults source.new)
        (IsErrOf result RestFault.ReadFault) }
{
    let mut text = Vec::new(alloc);
    let mut begins = true;
    while let Some(byte) = feed.byte(source)? {
        if ends_part(begins, byte) {
            return Ok(text);
        }
        if text.len() as u64 == most {
            return Err(RestFault::TooLong);
        }
        append(&mut text, byte)?;
        begins = byte == b'\n';
    }
    Ok(text)
}
