// The bytes of a source one by one, up to a limit.
ghost use Rattle.std.specs.Prelude.{◌≡◌, ℕ, ◌+◌, ◌<◌, ◌≤◌, ◌↔◌, true, false, length, Ok, IfOk, OnErr, [], ◌∷◌, IsTrue, IsErrOf};
ghost use Rattle.io_edge.specs.Faults.{Reports, HasCause};
ghost use Rattle.io_edge.specs.Told.{IsOver, Keeps};

use crate::{Failed, Source};
use memory::NoMemory;
use std::alloc::Global;
use std::marker::Model;
use thiserror::Error;

/// Why there is no next byte.
#[derive(Clone, Copy, Debug, PartialEq, Eq, Error)]
pub enum FeedFault {
    /// The source failed. The feed is as before, and holds nothing.
    #[error("read failed")]
    ReadFault,
    /// The input has more than [`Feed::LIMIT`] bytes.
    #[error("the input is too long")]
    TooLong,
}

impl From<Failed> for FeedFault {
    ghost use Rattle.std.specs.Prelude.{◌≡◌};
    ghost use Rattle.io_edge.specs.declared.feed.FeedFault.TheVariants.{ReadFault};

    ghost from_gives = { λ _ e. e ≡ ReadFault };

    fn from(_: Failed) -> Self {
        FeedFault::ReadFault
    }
}

// How many bytes a feed asks its source for at a time.
const BLOCK: usize = 4096;

/// Gives the bytes of a source one by one, at most 2^30 of them. It asks the source for a block at a time.
#[derive(Drop)]
pub struct Feed {
    block: Vec<u8>,
    at: usize,
    filled: usize,
    taken: u64,
}

impl Model for Feed {
    ghost use Rattle.std.specs.Prelude.{◌≡◌, ◌<◌, ◌≤◌, ◌+◌, ◌-◌, take, drop, length};
    ghost use Rattle.io_edge.specs.Feed.{Fed, limit, most_held};

    ghost Value = { Fed };

    ghost view = { λ f. record {
      held = take (f.filled - f.at) (drop f.at f.block.items);
      taken = f.taken;
    } };

    ghost invariant = { λ f. (f.at ≤ f.filled) × (f.filled ≤ length f.block.items)
        × (length f.block.items ≡ most_held) × (f.taken ≤ limit + 1) };
}

impl Feed {
    ghost use Rattle.io_edge.specs.Feed.{Feeds, limit, most_held, to_come};

    /// How many bytes a feed gives at most.
    pub const LIMIT: u64 = 1 << 30;

    /// A feed that holds nothing yet. It takes the memory for its block at once.
    pub fn new(alloc: Global) -> Result<Self, NoMemory>
        ensures { IfOk result (λ feed. feed ≡ record { held = []; taken = 0 }) }
    {
        Ok(Feed {
            block: vec![in alloc; 0; BLOCK]?,
            at: 0,
            filled: 0,
            taken: 0,
        })
    }

    /// The next byte, or none at the end of the input.
    pub fn byte<S: Source>(&mut self, source: &mut S) -> Result<Option<u8>, FeedFault>
        ensures answer { Feeds self.old self.new (to_come self.old (S.told source.old))
            (to_come self.new (S.told source.new)) result }
        ensures empty { IsErrOf result FeedFault.ReadFault → self.new.held ≡ [] }
        ensures cause { Reports (S.faults source.old) (S.faults source.new)
            (IsErrOf result FeedFault.ReadFault) }
    {
        if self.taken > Self::LIMIT {
            return Err(FeedFault::TooLong);
        }
        if self.is_empty() && !self.refill(source)? {
            return Ok(None);
        }
        let byte = self.pop();
        if self.taken > Self::LIMIT {
            return Err(FeedFault::TooLong);
        }
        Ok(Some(byte))
    }

    /// It holds no more bytes than it asks its source for at a time.
    pub fn holds_a_block(&self)
        ensures { length self.now.held ≤ most_held }
    {
        let _ = &self.block;
    }

    fn is_empty(&self) -> bool
        ensures { IsTrue result ↔ (self.now.held ≡ []) }
    {
        self.at == self.filled
    }

    // Asks the source for a block, and answers whether it gave one.
    fn refill<S: Source>(&mut self, source: &mut S) -> Result<bool, Failed>
        requires { self.old.held ≡ [] }
        ensures kept { Keeps (to_come self.old (S.told source.old))
            (to_come self.new (S.told source.new)) }
        ensures taken { self.new.taken ≡ self.old.taken }
        ensures more { result ≡ Ok true → 0 < length self.new.held }
        ensures end { result ≡ Ok false → IsOver (to_come self.new (S.told source.new)) }
        ensures err { OnErr result (self.new ≡ self.old) }
        ensures cause { HasCause (S.faults source.old) (S.faults source.new) result }
    {
        let count = source.read(&mut self.block)?;
        self.at = 0;
        self.filled = count;
        Ok(count > 0)
    }

    // Takes the next byte of the block.
    fn pop(&mut self) -> u8
        requires some { 0 < length self.old.held }
        requires within { self.old.taken ≤ limit }
        ensures byte { self.old.held ≡ result ∷ self.new.held }
        ensures taken { self.new.taken ≡ self.old.taken + 1 }
    {
        let byte = self.block[self.at];
        self.at += 1;
        self.taken += 1;
        byte
    }
}
