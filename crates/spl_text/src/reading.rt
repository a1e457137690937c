// Reading a formula.
ghost use Rattle.std.specs.Prelude.{◌≡◌, ℕ, ◌+◌, ◌≤◌, length, IfOk, IsOkUnless, Ok, codes};
ghost use Rattle.grammar.specs.Cursor.{Gives};
ghost use Rattle.grammar.specs.Reading.{one_of_at, optional_at, word_at};
ghost use Rattle.spl_text.specs.Answer.{Answers};
ghost use Rattle.spl_text.specs.Reader.{Says, SaysAll, IsWithin, fault_of};
ghost use Rattle.grammar.specs.Stops.{tested_at};
ghost use Rattle.spl_ast.specs.Formula.{Formula, Product, DirectSum, parts_of};
ghost use Rattle.spl_ast.specs.Nesting.{IsPrintable};
ghost use Rattle.spl_ast.specs.Shape.{IsShaped};
ghost use Rattle.spl_text.specs.Fault.{shape_fault};
ghost use Rattle.spl_text.specs.Reading.{heads, arguments_by, two_formulas_by, tensor_left_by, tensor_right_by, formula_at, line_at, whole_line};
ghost use Rattle.spl_text.specs.Spelling.{spells_line};
ghost use Rattle.spl_text.specs.declared.reading.Halt.TheVariants as halts;
ghost use Rattle.spl_text.specs.declared.reading.SplFault.TheVariants as faults;

use crate::arguments::factor;
use crate::{kinds, parts};
use grammar::{Cursor, ReadError, Stuck};
use memory::NoMemory;
use spl_ast::Spl;
use std::alloc::Global;
use thiserror::Error;

/// Why a text is no formula. Places count bytes from 0.
#[derive(Clone, Copy, Debug, PartialEq, Eq, Error)]
pub enum SplFault {
    /// No spelling goes on at this place.
    #[error("no formula goes on at byte {at}")]
    Syntax { at: u64 },
    /// The opening parenthesis at this place would be the 129th open one.
    #[error("the parenthesis at byte {at} would be the 129th open one")]
    TooDeep { at: u64 },
    /// The part that begins at this place does not fit, for these two numbers: the columns and rows of a product's
    /// factors; a size and what does not divide it; factors of a Good-Thomas step that are not coprime, or one of them
    /// 1; a size of `WHT` that is no power of two, and 2; the length of a `PERM` and its first entry that is too large
    /// or stood before; a size over 1,048,576, and 1,048,576.
    #[error("the part at byte {at} does not fit: {left} and {right}")]
    Shape { at: u64, left: u64, right: u64 },
    #[error("out of memory")]
    NoMemory,
}

/// The same, each place by how much of the text is left there.
#[derive(Clone, Copy)]
pub enum Halt {
    Syntax {
        left: usize,
    },
    TooDeep {
        left: usize,
    },
    Shape {
        left: usize,
        first: u64,
        second: u64,
    },
    NoMemory,
}

#[derive(Clone, Copy)]
enum Head {
    I,
    Dft,
    Wht,
    T,
    Diag,
    L,
    Perm,
    GtIn,
    GtOut,
    Times,
    Left,
    Right,
    Sum,
}

impl From<Stuck> for Halt {
    ghost from_gives = { λ stuck e. e ≡ halts.Syntax stuck.left };

    fn from(stuck: Stuck) -> Halt {
        Halt::Syntax { left: stuck.left }
    }
}

impl From<NoMemory> for Halt {
    ghost from_gives = { λ _ e. e ≡ halts.NoMemory };

    fn from(_e: NoMemory) -> Halt {
        Halt::NoMemory
    }
}

impl From<ReadError> for Halt {
    ghost use Rattle.spl_text.specs.Reader.{halt_of};

    ghost from_gives = { λ error e. e ≡ halt_of error };

    fn from(error: ReadError) -> Halt {
        match error {
            ReadError::Stuck(stuck) => Halt::Syntax { left: stuck.left },
            ReadError::NoMemory => Halt::NoMemory,
        }
    }
}

fn head_of(cursor: &mut Cursor) -> Result<Head, Stuck>
    ensures gives { Gives result cursor.new (one_of_at heads cursor.old) }
    ensures shorter { IfOk result (λ _. length cursor.new.rest + 1 ≤ length cursor.old.rest) }
{
    cursor.one_of(&[
        (b"I(", Head::I),
        (b"DFT(", Head::Dft),
        (b"WHT(", Head::Wht),
        (b"T(", Head::T),
        (b"DIAG(", Head::Diag),
        (b"L(", Head::L),
        (b"PERM(", Head::Perm),
        (b"GTIN(", Head::GtIn),
        (b"GTOUT(", Head::GtOut),
        (b"TIMES(", Head::Times),
        (b"LEFT(", Head::Left),
        (b"RIGHT(", Head::Right),
        (b"SUM(", Head::Sum),
    ])
}

// The formula at the front, with `depth` parentheses left to open.
#[cycle(reading)]
#[tactic(auto, unfolding(crate::specs::Reading::formula_at))]
fn read_formula(alloc: Global, cursor: &mut Cursor, depth: u64) -> Result<Spl, Halt>
    ensures { Says result cursor.new (formula_at depth cursor.old) }
{
    let place = cursor.left();
    let head = head_of(cursor)?;
    if depth == 0 {
        return Err(Halt::TooDeep {
            left: cursor.left() + 1,
        });
    }
    read_part(alloc, cursor, depth - 1, place, head)
}

// What comes after the head of the part that begins at the place.
#[cycle(reading)]
fn read_part(
    alloc: Global,
    cursor: &mut Cursor,
    depth: u64,
    place: usize,
    head: Head,
) -> Result<Spl, Halt>
    ensures { Says result cursor.new
        (tested_at place shape_fault (arguments_by (formula_at depth) head cursor.old)) }
{
    match head {
        Head::I => parts::identity(cursor, place),
        Head::Dft => parts::fourier(cursor, place),
        Head::Wht => parts::hadamard(cursor, place),
        Head::T => parts::twiddles(cursor, place),
        Head::Diag => parts::diagonal(alloc, cursor, place),
        Head::L => parts::stride(cursor, place),
        Head::Perm => parts::permutation(alloc, cursor, place),
        Head::GtIn => parts::good_thomas_in(cursor, place),
        Head::GtOut => parts::good_thomas_out(cursor, place),
        Head::Times => product(alloc, cursor, depth, place),
        Head::Left => tensor_left(alloc, cursor, depth, place),
        Head::Right => tensor_right(alloc, cursor, depth, place),
        Head::Sum => direct_sum(alloc, cursor, depth, place),
    }
}

#[cycle(reading)]
#[tactic(auto, using(crate::proofs::Judging::says_judged))]
fn product(alloc: Global, cursor: &mut Cursor, depth: u64, place: usize) -> Result<Spl, Halt>
    ensures { Says result cursor.new
        (tested_at place shape_fault (two_formulas_by (formula_at depth) Product cursor.old)) }
{
    let a = read_formula(alloc, cursor, depth)?;
    cursor.word(b",")?;
    let b = read_formula(alloc, cursor, depth)?;
    cursor.word(b")")?;
    kinds::product(alloc, place, a, b)
}

#[cycle(reading)]
#[tactic(auto, using(crate::proofs::Judging::says_judged))]
fn direct_sum(alloc: Global, cursor: &mut Cursor, depth: u64, place: usize) -> Result<Spl, Halt>
    ensures { Says result cursor.new
        (tested_at place shape_fault (two_formulas_by (formula_at depth) DirectSum cursor.old)) }
{
    let a = read_formula(alloc, cursor, depth)?;
    cursor.word(b",")?;
    let b = read_formula(alloc, cursor, depth)?;
    cursor.word(b")")?;
    kinds::direct_sum(alloc, place, a, b)
}

#[cycle(reading)]
#[tactic(auto, using(crate::proofs::Judging::says_judged))]
fn tensor_left(alloc: Global, cursor: &mut Cursor, depth: u64, place: usize) -> Result<Spl, Halt>
    ensures { Says result cursor.new
        (tested_at place shape_fault (tensor_left_by (formula_at depth) cursor.old)) }
{
    let a = read_formula(alloc, cursor, depth)?;
    cursor.word(b",")?;
    let k = factor(cursor)?;
    cursor.word(b")")?;
    kinds::tensor_left(alloc, place, a, k)
}

#[cycle(reading)]
#[tactic(auto, using(crate::proofs::Judging::says_judged))]
fn tensor_right(alloc: Global, cursor: &mut Cursor, depth: u64, place: usize) -> Result<Spl, Halt>
    ensures { Says result cursor.new
        (tested_at place shape_fault (tensor_right_by (formula_at depth) cursor.old)) }
{
    let k = factor(cursor)?;
    cursor.word(b",")?;
    let a = read_formula(alloc, cursor, depth)?;
    cursor.word(b")")?;
    kinds::tensor_right(alloc, place, k, a)
}

// The most parentheses that may be open at once.
const DEPTH: u64 = 128;

fn read_line(alloc: Global, cursor: &mut Cursor) -> Result<Spl, Halt>
    ensures { Says result cursor.new (line_at cursor.old) }
{
    let f = read_formula(alloc, cursor, DEPTH)?;
    line_end(cursor);
    Ok(f)
}

// Goes after a line end, if it is here.
fn line_end(cursor: &mut Cursor)
    ensures { optional_at tt (word_at (codes "\n")) cursor.old ≡ Ok (tt, cursor.new) }
{
    let mut ahead = cursor.fork();
    match ahead.word(b"\n") {
        Ok(()) => *cursor = ahead,
        Err(stuck) => cursor.give_up(stuck),
    }
}

fn whole_text(alloc: Global, text: &[u8]) -> Result<Spl, Halt>
    ensures { SaysAll result (whole_line text.now) }
{
    let mut cursor = Cursor::new(text);
    let f = read_line(alloc, &mut cursor)?;
    cursor.end()?;
    Ok(f)
}

/// The formula that a text spells, with or without a line end after it; or its first fault, at the least place.
/// The text of a formula that can be printed is read as that formula, unless memory runs out. A formula has at most as
/// many parts as its text has bytes.
#[tactic(auto, using(crate::proofs::Whole::within))]
pub fn read_spl(alloc: Global, text: &[u8]) -> Result<Spl, SplFault>
    ensures answer { Answers text.now result }
    ensures parts { IfOk result (λ f. parts_of f ≤ length text.now) }
    ensures only { (f : Formula) → spells_line text.now f → IsShaped f → IsPrintable f
        → IsOkUnless result faults.NoMemory × IfOk result (λ g. g ≡ f) }
{
    match whole_text(alloc, text) {
        Ok(f) => Ok(f),
        Err(halt) => Err(fault_at(text, halt)),
    }
}

// The fault, with places from the front.
fn fault_at(text: &[u8], halt: Halt) -> SplFault
    requires { IsWithin halt (length text.now) }
    ensures { result ≡ fault_of (length text.now) halt }
{
    let length = text.len();
    match halt {
        Halt::Syntax { left } => SplFault::Syntax {
            at: (length - left) as u64,
        },
        Halt::TooDeep { left } => SplFault::TooDeep {
            at: (length - left) as u64,
        },
        Halt::Shape {
            left,
            first,
            second,
        } => SplFault::Shape {
            at: (length - left) as u64,
            left: first,
            right: second,
        },
        Halt::NoMemory => SplFault::NoMemory,
    }
}
