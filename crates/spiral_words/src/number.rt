// Numbers of options.
ghost use Rattle.std.specs.Prelude.{◌≡◌, ◌+◌, ◌<◌, ◌^◌, Err, IfOk};
ghost use Rattle.grammar.specs.Cursor.{GivesAll};
ghost use Rattle.grammar.specs.Reading.{number_at, whole};
ghost use Rattle.spiral_words.specs.Asked.{modulus_word, seed_word};
ghost use Rattle.spiral_words.specs.Refused.{IsNoModulus, IsNoSeed};

use crate::command::Refusal;
use grammar::{Cursor, Stuck};
use ring_mod::Modulus;

/// The seed that a word is: a number below 2^64.
pub(crate) fn seed_of(word: &str) -> Result<u64, Refusal>
    ensures ok { IfOk result (λ seed. seed_word word.now seed) }
    ensures usage { result ≡ Err Refusal.Usage → IsNoSeed word.now }
{
    match whole_number(word, u64::MAX) {
        Ok(number) => Ok(number),
        Err(_) => Err(Refusal::Usage),
    }
}

/// The modulus that a word is: a number from 2 to 2^62 - 1.
pub(crate) fn modulus_of(word: &str) -> Result<Modulus, Refusal>
    ensures ok { IfOk result (λ modulus. modulus_word word.now modulus) }
    ensures usage { result ≡ Err Refusal.Usage → IsNoModulus word.now }
{
    match whole_number(word, Modulus::LIMIT - 1) {
        Ok(number) => match Modulus::new(number) {
            Some(modulus) => Ok(modulus),
            None => Err(Refusal::Usage),
        },
        Err(_) => Err(Refusal::Usage),
    }
}

fn whole_number(word: &str, most: u64) -> Result<u64, Stuck>
    ensures { GivesAll result (whole (number_at (most + 1)) word.now) }
{
    let mut cursor = Cursor::new(word.as_bytes());
    let number = cursor.number(most)?;
    cursor.end()?;
    Ok(number)
}
