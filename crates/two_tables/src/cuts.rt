// How a table is cut. A table of the powers w^(i * k), row by row, begins with a row of ones, and one more in front of the next
// row. So the ones in front tell how long a row is. A block is about as wide as a row has blocks, which makes both factors
// small. Whether the table is the product of its factors is tested afterwards.

ghost use Rattle.std.specs.Prelude.{◌≡◌, ◌<◌, ◌≤◌, length};
ghost use Rattle.two_tables.specs.Factors.{ones, widest, cut_of, is_cut};
ghost use Rattle.two_tables.specs.Views.{plain_cut};

use crate::factors::Cut;

// How many entries in front are 1.
fn ones(entries: &[u64]) -> u64
    ensures value { result ≡ ones entries.now }
    ensures some { result ≤ length entries.now }
{
    let mut count = 0;
    for entry in entries {
        if *entry != 1 {
            return count;
        }
        count += 1;
    }
    count
}

// The greatest power of two, from this width on, whose square the row has room for. It tries a given number of them.
fn widest(tries: u64, width: u64, square: u64, row: u64) -> u64
    requires some { 0 < width }
    requires square { width ≤ square }
    ensures value { result ≡ widest tries width square row }
    ensures some { 0 < result }
{
    if tries == 0 {
        return width;
    }
    let next = 4 * square as u128;
    if next <= row as u128 {
        widest(tries - 1, 2 * width, next as u64, row)
    } else {
        width
    }
}

/// A row is the ones in front but for one, and a block of it is about as wide as a row has blocks.
pub(crate) fn cut_of(entries: &[u64]) -> Cut
    ensures { plain_cut result ≡ cut_of entries.now }
{
    let row = ones(entries).saturating_sub(1);
    let width = widest(31, 1, 1, row);
    Cut {
        width,
        across: row / width,
    }
}

/// Whether blocks are whole groups of lanes.
pub(crate) fn is_cut(lanes: u64, cut: Cut) -> bool
    requires { 0 < lanes }
    ensures { result ≡ is_cut lanes (plain_cut cut) }
{
    let is_small = |n: u64| 0 < n && n < 1 << 32;
    is_small(cut.width) && (is_small(cut.across) && cut.width % lanes == 0)
}
