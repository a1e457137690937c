// A token as far as it has come.
ghost use Rattle.std.specs.Prelude.{◌≡◌, ℕ, List, [], ◌∷◌, ◌++◌, false, IsTrue, IsFalse};
ghost use Rattle.data_stream.specs.Data.{is_good, is_separator};
ghost use Rattle.data_stream.specs.Token.{IsDigits};

use io_edge::FeedFault;

#[derive(Clone, Copy, Debug, Default)]
pub(crate) struct Token {
    pub count: u64,
    pub value: u64,
}

impl Token {
    pub fn new() -> Self
        ensures { IsDigits result.count result.value [] }
    {
        Token { count: 0, value: 0 }
    }

    /// Takes the next byte, and answers whether the token can still be good.
    pub fn push(&mut self, byte: u8) -> bool
        ensures good { (bytes : List ℕ) → IsDigits self.old.count self.old.value bytes
            → IsTrue result → IsDigits self.new.count self.new.value (bytes ++ byte ∷ []) }
        ensures bad { (bytes : List ℕ) → IsDigits self.old.count self.old.value bytes
            → IsFalse result → is_good (bytes ++ byte ∷ []) ≡ false }
    {
        if !byte.is_ascii_digit() || self.count >= 20 {
            return false;
        }
        let value = u128::from(self.value) * 10 + u128::from(byte - b'0');
        if value > u128::from(u64::MAX) {
            return false;
        }
        self.value = value as u64;
        self.count += 1;
        true
    }
}

/// Why there is no next token.
#[derive(Clone, Copy, Debug, PartialEq, Eq)]
pub(crate) enum TokenFault {
    Bad,
    TooLong,
    ReadFault,
}

impl From<FeedFault> for TokenFault {
    ghost use Rattle.std.specs.Prelude.{◌≡◌};
    ghost use Rattle.data_stream.specs.TokenFault.{fault_of_feed};

    ghost from_gives = { λ fault own. own ≡ fault_of_feed fault };

    fn from(fault: FeedFault) -> Self {
        match fault {
            FeedFault::ReadFault => TokenFault::ReadFault,
            FeedFault::TooLong => TokenFault::TooLong,
        }
    }
}

// Space, tab, carriage return and line feed stand between tokens.
pub(crate) fn is_between(byte: u8) -> bool
    ensures { result ≡ is_separator byte }
{
    byte == b' ' || byte == b'\t' || byte == b'\r' || byte == b'\n'
}
