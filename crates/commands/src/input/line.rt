// The first line of an input.
ghost use Rattle.std.specs.Prelude.{◌≡◌, ℕ, List, [], length, IsErrOf};
ghost use Rattle.io_edge.specs.Told.{Consumes, IsOver};
ghost use Rattle.io_edge.specs.Faults.{Reports};
ghost use Rattle.io_edge.specs.Feed.{to_come};
ghost use Rattle.commands.specs.Input.Line.{GivesLine};

use io_edge::{Feed, FeedFault, Source};
use spiral_words::LINE_LIMIT;

/// Reads the first line, to its end or the end of the input, and answers how many bytes it has.
/// `TooLong` is a line that has more than the buffer takes.
pub(crate) fn read_line<S: Source>(
    feed: &mut Feed,
    source: &mut S,
    buffer: &mut [u8],
) -> Result<usize, FeedFault>
    requires fresh { feed.old.taken ≡ 0 }
    requires room { length buffer.old ≡ 256 }
    ensures answer { (read : List ℕ)
        × Consumes (to_come feed.old (S.told source.old))
        (to_come feed.new (S.told source.new)) read
        × GivesLine read (IsOver (to_come feed.new (S.told source.new))) feed.new.taken buffer.new
        result }
    ensures empty { IsErrOf result FeedFault.ReadFault → feed.new.held ≡ [] }
    ensures cause { Reports (S.faults source.old) (S.faults source.new)
        (IsErrOf result FeedFault.ReadFault) }
{
    let mut count = 0;
    while let Some(byte) = feed.byte(source)? {
        if byte == b'\n' {
            return Ok(count);
        }
        if count == LINE_LIMIT {
            return Err(FeedFault::TooLong);
        }
        buffer[count] = byte;
        count += 1;
    }
    Ok(count)
}
