// Vectors of numbers from a source.
ghost use Rattle.std.specs.Prelude.{All, ◌≡◌, ◌+◌, ◌≤◌, ◌<◌, ℕ, List, [], length, true, false, Ok, None, Err, ◌≢◌, IsErrOf};
ghost use Rattle.io_edge.specs.Told.{Consumes, IsOver};
ghost use Rattle.io_edge.specs.Faults.{Reports};
ghost use Rattle.io_edge.specs.Feed.{to_come, limit};
ghost use Rattle.data_stream.specs.Ending.{ending_of, fault_of};
ghost use Rattle.data_stream.specs.Reading.{GivesToken, GivesVector};

use crate::token::{Token, TokenFault, is_between};
use io_edge::{Feed, Source};
use ring_mod::Modulus;
use std::marker::Model;
use thiserror::Error;

/// Cuts data into vectors of a number of numbers.
#[derive(Drop)]
pub struct Vectors {
    size: u64,
    done: u64,
    ended: bool,
}

impl Model for Vectors {
    ghost use Rattle.std.specs.Prelude.{◌<◌};
    ghost use Rattle.data_stream.specs.Vectors.{Cut};

    ghost Value = { Cut };

    ghost view = { λ v. record { size = v.size; done = v.done; ended = v.ended } };

    ghost invariant = { λ v. 0 < v.size };
}

/// A vector, or the end of the data in its place.
#[derive(Clone, Copy, Debug, PartialEq, Eq)]
pub enum Next {
    Vector,
    End,
}

/// Why there is no next vector.
#[derive(Clone, Copy, Debug, PartialEq, Eq, Error)]
pub enum DataFault {
    /// A token that is no number below 2^64 of 1 to 20 digits. Tokens are counted from 1 over all data.
    #[error("token {token} is not a number")]
    BadNumber { token: u64 },
    /// The data end inside a vector.
    #[error("input ends with {have} of {need} numbers")]
    Truncated { have: u64, need: u64 },
    /// The input has more bytes than a feed gives.
    #[error("the input is too long")]
    TooLong,
    /// The source failed.
    #[error("read failed")]
    ReadFault,
}

impl Vectors {
    ghost use Rattle.data_stream.specs.Vectors.{IsReady};

    /// Vectors of `size` numbers, from the first token on.
    pub fn new(size: u64) -> Self
        requires { 0 < size }
        ensures { result ≡ record { size = size; done = 0; ended = false } }
    {
        Vectors {
            size,
            done: 0,
            ended: false,
        }
    }

    // The number of the next token, or none where the data end before one begins. Once they have ended,
    // the source is not asked again.
    fn number<S: Source>(
        &mut self,
        feed: &mut Feed,
        source: &mut S,
    ) -> Result<Option<u64>, TokenFault>
        requires within { self.old.ended ≡ true → feed.old.taken ≤ limit }
        requires end { self.old.ended ≡ true → IsOver (to_come feed.old (S.told source.old)) }

        ensures answer { (read : List ℕ) × Consumes (to_come feed.old (S.told source.old))
            (to_come feed.new (S.told source.new)) read
            × (self.old.ended ≡ true → (read ≡ []) × (self.new.ended ≡ true) × (result ≡ Ok None))
            × GivesToken feed.old feed.new read self.new.ended result }
        ensures end { self.new.ended ≡ true → IsOver (to_come feed.new (S.told source.new)) }
        ensures within { result ≢ Err TokenFault.TooLong → feed.new.taken ≤ limit }
        ensures same { self.new ≡ record self.old { ended = self.new.ended } }
        ensures empty { IsErrOf result TokenFault.ReadFault → feed.new.held ≡ [] }
        ensures cause { Reports (S.faults source.old) (S.faults source.new)
            (IsErrOf result TokenFault.ReadFault) }
    {
        if self.ended {
            return Ok(None);
        }
        let mut token = Token::new();
        while let Some(byte) = feed.byte(source)? {
            if is_between(byte) {
                if token.count > 0 {
                    return Ok(Some(token.value));
                }
            } else if !token.push(byte) {
                return Err(TokenFault::Bad);
            }
        }
        self.ended = true;
        if token.count == 0 {
            return Ok(None);
        }
        Ok(Some(token.value))
    }

    /// The next vector, its numbers reduced, or the end of the data. After a fault or the end there is none. A feed that
    /// has gone over its limit gives `TooLong`.
    pub fn next<S: Source>(
        &mut self,
        modulus: &Modulus,
        feed: &mut Feed,
        source: &mut S,
        vector: &mut [u64],
    ) -> Result<Next, DataFault>
        requires size { length vector.old ≡ self.old.size }
        requires ready { IsReady self.old feed.old (to_come feed.old (S.told source.old)) }

        ensures answer { (read : List ℕ) × Consumes (to_come feed.old (S.told source.old))
            (to_come feed.new (S.told source.new)) read
            × (self.old.ended ≡ true → read ≡ [])
            × GivesVector self.old.size modulus.now self.old.done feed.old feed.new read
            self.new.ended vector.new result }
        ensures residues { result ≡ Ok Next.Vector → All (λ v. v < modulus.now) vector.new }
        ensures ready { result ≡ Ok Next.Vector
            → IsReady self.new feed.new (to_come feed.new (S.told source.new)) }
        ensures end { self.new.ended ≡ true → IsOver (to_come feed.new (S.told source.new)) }
        ensures within { result ≢ Err DataFault.TooLong → feed.new.taken ≤ limit }
        ensures once { self.old.ended ≡ true → (result ≡ Ok Next.End) × (self.new.ended ≡ true) }
        ensures size { self.new.size ≡ self.old.size }
        ensures done { result ≡ Ok Next.Vector → self.new.done ≡ self.old.done + self.old.size }
        ensures empty { IsErrOf result DataFault.ReadFault → feed.new.held ≡ [] }
        ensures cause { Reports (S.faults source.old) (S.faults source.new)
            (IsErrOf result DataFault.ReadFault) }
    {
        for place in 0..vector.len() {
            let have = place as u64;
            match self.number(feed, source) {
                Ok(Some(value)) => vector[place] = modulus.reduce(value),
                Ok(None) => return ending(have, self.size),
                Err(fault) => return Err(fault_at(fault, self.done + have + 1)),
            }
        }
        self.done += vector.len() as u64;
        Ok(Next::Vector)
    }
}

// What the end of the data is, after `have` numbers of a vector.
fn ending(have: u64, need: u64) -> Result<Next, DataFault>
    ensures { result ≡ ending_of have need }
{
    if have == 0 {
        Ok(Next::End)
    } else {
        Err(DataFault::Truncated { have, need })
    }
}

// What a fault at this token is.
fn fault_at(fault: TokenFault, token: u64) -> DataFault
    ensures { result ≡ fault_of fault token }
{
    match fault {
        TokenFault::Bad => DataFault::BadNumber { token },
        TokenFault::TooLong => DataFault::TooLong,
        TokenFault::ReadFault => DataFault::ReadFault,
    }
}
