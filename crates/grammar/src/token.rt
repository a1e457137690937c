//! One token at the front of a text.

ghost use Rattle.std.specs.Prelude.{◌≡◌, ◌+◌, map};
ghost use Rattle.grammar.specs.Reading.{word_in, one_of_in, number_in, positive_in, digits_in};
ghost use Rattle.grammar.specs.Cursor.{GivesToken};
ghost use Rattle.grammar.specs.declared.token.ReadError.TheVariants as errors;

use memory::NoMemory;
use std::alloc::{AllocError, AllocFailed};

/// No spelling goes on at the place from which so much of the text is left.
#[derive(Clone, Copy, Debug, PartialEq, Eq)]
pub struct Stuck {
    pub left: usize,
}

/// Why nothing was read.
#[derive(Clone, Copy, Debug, PartialEq, Eq)]
pub enum ReadError {
    Stuck(Stuck),
    NoMemory,
}

impl From<Stuck> for ReadError {
    ghost from_gives = { λ stuck e. e ≡ errors.Stuck stuck };

    fn from(stuck: Stuck) -> ReadError {
        ReadError::Stuck(stuck)
    }
}

impl From<NoMemory> for ReadError {
    ghost from_gives = { λ _ e. e ≡ errors.NoMemory };

    fn from(_e: NoMemory) -> ReadError {
        ReadError::NoMemory
    }
}

impl From<AllocError> for ReadError {
    ghost from_gives = { λ _ e. e ≡ errors.NoMemory };

    fn from(_e: AllocError) -> ReadError {
        ReadError::NoMemory
    }
}

impl<T: Drop> From<AllocFailed<T>> for ReadError {
    ghost from_gives = { λ _ e. e ≡ errors.NoMemory };

    fn from(_e: AllocFailed<T>) -> ReadError {
        ReadError::NoMemory
    }
}

/// What comes after the word.
pub fn after_word<'a>(text: &'a [u8], word: &[u8]) -> Result<&'a [u8], Stuck>
    ensures { GivesToken (λ rest. (tt, rest.now)) result (word_in word.now text.now) }
{
    let mut rest = text;
    for letter in word {
        match rest {
            [] => return Err(Stuck { left: 0 }),
            [next, after @ ..] => {
                if next != letter {
                    return Err(Stuck { left: rest.len() });
                }
                rest = after;
            }
        }
    }
    Ok(rest)
}

/// The value of the word at the front, and what comes after it.
pub fn one_of<'a, T: Copy>(text: &'a [u8], words: &[(&[u8], T)]) -> Result<(T, &'a [u8]), Stuck>
    ensures { GivesToken
        (λ x. (x.0, x.1.now)) result (one_of_in (map (λ w. (w.0.now, w.1)) words.now) text.now) }
{
    let mut left = text.len();
    for (word, value) in words {
        match after_word(text, word) {
            Ok(rest) => return Ok((*value, rest)),
            Err(stuck) => left = left.min(stuck.left),
        }
    }
    Err(Stuck { left })
}

/// The number at the front, at most `most`, and what comes after it.
pub fn number(text: &[u8], most: u64) -> Result<(u64, &[u8]), Stuck>
    ensures { GivesToken (λ x. (x.0, x.1.now)) result (number_in (most + 1) text.now) }
{
    match text {
        [first @ b'0'..=b'9', rest @ ..] if (*first - b'0') as u64 <= most => {
            Ok(digits((*first - b'0') as u64, rest, most))
        }
        _ => Err(Stuck { left: text.len() }),
    }
}

/// The number from 1 on at the front, at most `most`, and what comes after it.
pub fn positive(text: &[u8], most: u64) -> Result<(u64, &[u8]), Stuck>
    ensures { GivesToken (λ x. (x.0, x.1.now)) result (positive_in (most + 1) text.now) }
{
    match text {
        [] => Err(Stuck { left: 0 }),
        [first, ..] => {
            if *first == b'0' {
                return Err(Stuck { left: text.len() });
            }
            number(text, most)
        }
    }
}

/// The number with the digits by which it goes on, and what comes after it.
fn digits(front: u64, text: &[u8], most: u64) -> (u64, &[u8])
    ensures { digits_in (most + 1) front text.now ≡ (result.0, result.1.now) }
{
    let mut value = front;
    let mut rest = text;
    while let [digit @ b'0'..=b'9', after @ ..] = rest {
        let longer = value as u128 * 10 + (*digit - b'0') as u128;
        if value == 0 || longer > most as u128 {
            break;
        }
        value = longer as u64;
        rest = after;
    }
    (value, rest)
}
