//! Pieces of texts.

ghost use Rattle.std.specs.Prelude.{◌≡◌, ◌++◌, ◌≤◌, ◌<◌, ◌^◌, OnOk, decimal, map};
ghost use Rattle.icode.specs.Machine.{whole_lines};
ghost use Rattle.listing_text.specs.Numbers.{numbered_text, numbers_behind};

use itoa::Buffer;
use std::alloc::AllocError;

/// Writes a word.
pub fn put_word(out: &mut Vec<u8>, word: &[u8]) -> Result<(), AllocError>
    ensures { OnOk result (out.new.items ≡ out.old.items ++ word.now) }
{
    out.extend_from_slice(word)
}

/// Writes a word and a number after it.
pub fn put(out: &mut Vec<u8>, word: &[u8], number: u64) -> Result<(), AllocError>
    ensures { OnOk result (out.new.items ≡ out.old.items ++ word.now ++ decimal number) }
{
    let mut buffer = Buffer::new();
    out.extend_from_slice(word)?;
    out.extend_from_slice(buffer.format(number).as_bytes())
}

/// Writes words, each with a number after it.
pub fn put_numbers(out: &mut Vec<u8>, numbers: &[(&[u8], u64)]) -> Result<(), AllocError>
    ensures { OnOk result (out.new.items
        ≡ numbers_behind out.old.items (map (λ p. (p.0.now, p.1)) numbers.now)) }
{
    for (word, number) in numbers {
        put(out, word, *number)?;
    }
    Ok(())
}

/// Writes a number between two words.
pub fn put_numbered(
    out: &mut Vec<u8>,
    before: &[u8],
    number: u64,
    after: &[u8],
) -> Result<(), AllocError>
    ensures { OnOk result (out.new.items
        ≡ out.old.items ++ numbered_text before.now number after.now) }
{
    put(out, before, number)?;
    out.extend_from_slice(after)
}

/// The number of words of an array.
pub fn array_words(size: u64, line: u64) -> u64
    requires size { size ≤ 1048576 }
    requires line { (1 ≤ line) × (line ≤ 64) }
    ensures words { result ≡ whole_lines size line }
    ensures few { result < 2 ^ 32 }
{
    (size + (line - 1)) / line * line
}
