// What a line spells.
ghost use Rattle.std.specs.Prelude.{◌≡◌, map, codes};
ghost use Rattle.grammar.specs.Cursor.{Gives};
ghost use Rattle.grammar.specs.Reading.{one_of_at, named_number_at, numbers_at, whole};
ghost use Rattle.request_text.specs.OneToFour.{items, spelt};
ghost use Rattle.request_text.specs.Line.{above_all, kinds, more_sizes, rootless};
ghost use Rattle.request_text.specs.Reading.{GivesBy, GivesAllBy, Tries, dimension_at, dimensions_at, request_at, rooted_at};

use crate::one_to_four::OneToFour;
use grammar::{Cursor, Stuck};
use matrix_meaning::{Dimension, Kind};

/// The size up to which kernels are unrolled, where the line names none.
pub(crate) const UNROLL: u64 = 8;

/// The budget of a line that names none.
pub(crate) const BUDGET: u64 = 100_000_000;

/// The weight of a line that names none.
pub(crate) const WEIGHT: u64 = 1;

/// The fields of a request, as a line spells them: the product of the sizes may not fit a word.
#[derive(Clone, Copy)]
pub(crate) struct Fields {
    pub(crate) kind: Kind,
    pub(crate) dimensions: OneToFour<Dimension>,
    pub(crate) modulus: u64,
    pub(crate) procs: u64,
    pub(crate) line: u64,
    pub(crate) lanes: u64,
    pub(crate) unroll: u64,
    pub(crate) budget: u64,
    pub(crate) weight: u64,
}

// What the first word asks for.
fn kind_of(cursor: &mut Cursor) -> Result<Kind, Stuck>
    ensures { Gives result cursor.new (one_of_at kinds cursor.old) }
{
    cursor.one_of(&[
        (b"dft ".as_slice(), Kind::Dft),
        (b"idft ".as_slice(), Kind::Idft),
        (b"wht ".as_slice(), Kind::Wht),
    ])
}

// Another size, if one stands here.
fn another(cursor: &mut Cursor) -> Option<u64>
    ensures { Tries
        result cursor.old cursor.new (named_number_at (codes "x") above_all cursor.old) }
{
    let mut ahead = cursor.fork();
    match ahead.named_number(b"x", u64::MAX) {
        Ok(size) => {
            *cursor = ahead;
            Some(size)
        }
        Err(stuck) => {
            cursor.give_up(stuck);
            None
        }
    }
}

#[tactic(auto, unfolding(grammar::specs::Reading::more_numbers_at))]
fn up_to_four(cursor: &mut Cursor) -> Result<OneToFour<u64>, Stuck>
    ensures { GivesBy items result cursor.new (numbers_at (codes "x") above_all 3 cursor.old) }
{
    let a = cursor.number(u64::MAX)?;
    let Some(b) = another(cursor) else {
        return Ok(OneToFour::One(a));
    };
    let Some(c) = another(cursor) else {
        return Ok(OneToFour::Two(a, b));
    };
    let Some(d) = another(cursor) else {
        return Ok(OneToFour::Three(a, b, c));
    };
    Ok(OneToFour::Four(a, b, c, d))
}

#[tactic(auto, unfolding(grammar::specs::Reading::more_numbers_at))]
fn only_one(cursor: &mut Cursor) -> Result<OneToFour<u64>, Stuck>
    ensures { GivesBy items result cursor.new (numbers_at (codes "x") above_all 0 cursor.old) }
{
    let a = cursor.number(u64::MAX)?;
    Ok(OneToFour::One(a))
}

fn sizes_of(cursor: &mut Cursor, kind: Kind) -> Result<OneToFour<u64>, Stuck>
    ensures { GivesBy
        items result cursor.new (numbers_at (codes "x") above_all (more_sizes kind) cursor.old) }
{
    match kind {
        Kind::Dft => up_to_four(cursor),
        Kind::Wht => only_one(cursor),
        Kind::Idft => only_one(cursor),
    }
}

/// The dimension of this size, whose root comes after the word.
pub(crate) fn dimension(cursor: &mut Cursor, word: &[u8], size: u64) -> Result<Dimension, Stuck>
    ensures { Gives result cursor.new (dimension_at word.now size cursor.old) }
{
    let root = cursor.named_number(word, u64::MAX)?;
    Ok(Dimension { size, root })
}

fn rooted(cursor: &mut Cursor, sizes: OneToFour<u64>) -> Result<OneToFour<Dimension>, Stuck>
    ensures { GivesBy
        items result cursor.new (rooted_at (codes " root ") (items sizes) cursor.old) }
{
    match sizes {
        OneToFour::One(size) => {
            let first = dimension(cursor, b" root ", size)?;
            Ok(OneToFour::One(first))
        }
        OneToFour::Two(size, a) => {
            let first = dimension(cursor, b" root ", size)?;
            let second = dimension(cursor, b"x", a)?;
            Ok(OneToFour::Two(first, second))
        }
        OneToFour::Three(size, a, b) => {
            let first = dimension(cursor, b" root ", size)?;
            let second = dimension(cursor, b"x", a)?;
            let third = dimension(cursor, b"x", b)?;
            Ok(OneToFour::Three(first, second, third))
        }
        OneToFour::Four(size, a, b, c) => {
            let first = dimension(cursor, b" root ", size)?;
            let second = dimension(cursor, b"x", a)?;
            let third = dimension(cursor, b"x", b)?;
            let fourth = dimension(cursor, b"x", c)?;
            Ok(OneToFour::Four(first, second, third, fourth))
        }
    }
}

fn without_root(size: u64) -> Dimension
    ensures { result ≡ rootless size }
{
    Dimension { size, root: 0 }
}

fn without_roots(sizes: OneToFour<u64>) -> OneToFour<Dimension>
    ensures { items result ≡ map rootless (items sizes) }
{
    match sizes {
        OneToFour::One(a) => OneToFour::One(without_root(a)),
        OneToFour::Two(a, b) => OneToFour::Two(without_root(a), without_root(b)),
        OneToFour::Three(a, b, c) => OneToFour::Three(
            without_root(a),
            without_root(b),
            without_root(c),
        ),
        OneToFour::Four(a, b, c, d) => OneToFour::Four(
            without_root(a),
            without_root(b),
            without_root(c),
            without_root(d),
        ),
    }
}

fn dimensions_of(
    cursor: &mut Cursor,
    kind: Kind,
    sizes: OneToFour<u64>,
) -> Result<OneToFour<Dimension>, Stuck>
    ensures { GivesBy items result cursor.new (dimensions_at kind (items sizes) cursor.old) }
{
    match kind {
        Kind::Dft => rooted(cursor, sizes),
        Kind::Wht => Ok(without_roots(sizes)),
        Kind::Idft => rooted(cursor, sizes),
    }
}

#[tactic(auto, unfolding(crate::specs::Reading::request_at))]
fn fields_of(cursor: &mut Cursor) -> Result<Fields, Stuck>
    ensures { GivesBy spelt result cursor.new (request_at cursor.old) }
{
    let kind = kind_of(cursor)?;
    let sizes = sizes_of(cursor, kind)?;
    let modulus = cursor.named_number(b" mod ", u64::MAX)?;
    let dimensions = dimensions_of(cursor, kind, sizes)?;
    Ok(Fields {
        kind,
        dimensions,
        modulus,
        procs: cursor.optional_number(b" procs ", u64::MAX, 1),
        line: cursor.optional_number(b" line ", u64::MAX, 1),
        lanes: cursor.optional_number(b" lanes ", u64::MAX, 1),
        unroll: cursor.optional_number(b" unroll ", u64::MAX, UNROLL),
        budget: cursor.optional_number(b" budget ", u64::MAX, BUDGET),
        weight: cursor.optional_number(b" weight ", u64::MAX, WEIGHT),
    })
}

/// What a whole request line spells.
pub(crate) fn whole_request(text: &[u8]) -> Result<Fields, Stuck>
    ensures { GivesAllBy spelt result (whole request_at text.now) }
{
    let mut cursor = Cursor::new(text);
    let fields = fields_of(&mut cursor)?;
    cursor.end()?;
    Ok(fields)
}
