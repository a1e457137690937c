// Several words at once.

ghost use Rattle.std.specs.Prelude.{◌≡◌, ℕ, ◌+◌, ◌<◌, ◌≤◌, length, take, slice_index};
ghost use Rattle.icode.specs.Machine.{words_at, with_words};

use crate::action::MAX_LANES;

/// The words of each lane, from the place on.
pub fn read_lanes(words: &[u64], at: u64, lanes: u64) -> [u64; MAX_LANES]
    requires lanes { lanes ≤ 16 }
    requires inside { at + lanes ≤ length words.now }
    ensures value { take lanes result ≡ words_at lanes words.now at }
    ensures below { (m : ℕ) → 0 < m → ((k : ℕ) → slice_index words.now k < m)
        → (k : ℕ) → slice_index result k < m }
{
    let mut values = [0; MAX_LANES];
    for lane in 0..lanes {
        values[lane as usize] = words[(at + lane) as usize];
    }
    values
}

/// Writes the values, from the place on.
pub fn write_lanes(words: &mut [u64], at: u64, values: &[u64; MAX_LANES], lanes: u64)
    requires lanes { lanes ≤ 16 }
    requires inside { at + lanes ≤ length words.old }
    ensures { words.new ≡ with_words words.old at (take lanes values.now) }
{
    for lane in 0..lanes {
        words[(at + lane) as usize] = values[lane as usize];
    }
}
