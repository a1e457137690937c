// Parts of an input: its rest, read to its end, and the lines before its first empty line.
ghost use Rattle.std.specs.Prelude.{◌≡◌, ℕ, ◌+◌, ◌<◌, List, [], ◌∷◌, ◌++◌, OnOk, IsErrOf};
ghost use Rattle.io_edge.specs.Told.{Consumes, IsOver};
ghost use Rattle.io_edge.specs.Faults.{Reports};
ghost use Rattle.io_edge.specs.Feed.{to_come, limit};
ghost use Rattle.data_stream.specs.Parts.Rest.{GivesRest};
ghost use Rattle.data_stream.specs.declared.parts.RestFault.TheVariants as fault;

mod part;

use io_edge::{Feed, FeedFault, Source};
use memory::NoMemory;
pub use part::read_part;
use std::alloc::Global;
use thiserror::Error;

/// Why the rest of an input is not there.
#[derive(Clone, Copy, Debug, PartialEq, Eq, Error)]
pub enum RestFault {
    /// The source failed.
    #[error("read failed")]
    ReadFault,
    /// There are more bytes than may be.
    #[error("the input is too long")]
    TooLong,
    /// Memory ran out.
    #[error("out of memory")]
    NoMemory,
}

impl From<FeedFault> for RestFault {
    ghost use Rattle.data_stream.specs.Parts.FeedFaults.{rest_fault};

    ghost from_gives = { λ error e. e ≡ rest_fault error };

    fn from(error: FeedFault) -> Self {
        match error {
            FeedFault::ReadFault => RestFault::ReadFault,
            FeedFault::TooLong => RestFault::TooLong,
        }
    }
}

impl From<NoMemory> for RestFault {
    ghost from_gives = { λ _ e. e ≡ fault.NoMemory };

    fn from(_error: NoMemory) -> Self {
        RestFault::NoMemory
    }
}

// Puts a byte after the text.
pub(crate) fn append(text: &mut Vec<u8>, byte: u8) -> Result<(), NoMemory>
    ensures { OnOk result (text.new.items ≡ text.old.items ++ byte ∷ []) }
{
    text.push(byte)?;
    Ok(())
}

/// Reads all bytes that are to come, of which there may be `most`.
pub fn read_rest<S: Source>(
    alloc: Global,
    feed: &mut Feed,
    source: &mut S,
    most: u64,
) -> Result<Vec<u8>, RestFault>
    requires { feed.old.taken + most < limit }
    ensures answer { (read : List ℕ) × Consumes (to_come feed.old (S.told source.old))
        (to_come feed.new (S.told source.new)) read
        × GivesRest most read (IsOver (to_come feed.new (S.told source.new))) result }
    ensures empty { IsErrOf result RestFault.ReadFault → feed.new.held ≡ [] }
    ensures cause { Reports (S.faults source.old) (S.faults source.new)
        (IsErrOf result RestFault.ReadFault) }
{
    let mut text = Vec::new(alloc);
    while let Some(byte) = feed.byte(source)? {
        if text.len() as u64 == most {
            return Err(RestFault::TooLong);
        }
        append(&mut text, byte)?;
    }
    Ok(text)
}
