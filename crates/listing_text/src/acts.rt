//! The lines of a phase.

ghost use Rattle.std.specs.Prelude.{◌≡◌, IfOk};
ghost use Rattle.grammar.specs.Cursor.{Gives, Tells, TellsAll};
ghost use Rattle.grammar.specs.Reading.{one_of_at, whole};
ghost use Rattle.listing_text.specs.Acts.{plain_act, act_words, array_words, factor_words, factor_at, operands_at, act_at, act_line_at, ActFits};

use crate::reading::read_place;
use grammar::{Cursor, ReadError, Stuck};
use icode::program::{Array, Op};
use std::alloc::Global;

/// A line of a phase.
#[derive(Drop)]
pub enum Act {
    /// A loop begins, inside `depth` others.
    Open { depth: u64, count: u64 },
    /// The innermost loop ends, or the phase.
    Close,
    Do(Op),
}

/// The first word of a line.
#[derive(Clone, Copy)]
enum Word {
    For,
    End,
    Load,
    Store,
    Zero,
    Add,
    Sub,
    Neg,
    Mul,
    Tile,
}

fn word_of(cursor: &mut Cursor) -> Result<Word, Stuck>
    ensures { Gives result cursor.new (one_of_at act_words cursor.old) }
{
    cursor.one_of(&[
        (b"for v", Word::For),
        (b"end", Word::End),
        (b"ld r", Word::Load),
        (b"st ", Word::Store),
        (b"zero r", Word::Zero),
        (b"add r", Word::Add),
        (b"sub r", Word::Sub),
        (b"neg r", Word::Neg),
        (b"mul r", Word::Mul),
        (b"tile r", Word::Tile),
    ])
}

fn array_of(cursor: &mut Cursor) -> Result<Array, Stuck>
    ensures { Gives result cursor.new (one_of_at array_words cursor.old) }
{
    cursor.one_of(&[
        (b"X[", Array::X),
        (b"Y[", Array::Y),
        (b"A[", Array::A),
        (b"B[", Array::B),
    ])
}

fn is_table(cursor: &mut Cursor) -> Result<bool, Stuck>
    ensures { Gives result cursor.new (one_of_at factor_words cursor.old) }
{
    cursor.one_of(&[(b" t", true), (b" ", false)])
}

/// How many parentheses may be open at once in a place.
pub const PARENTHESES: u64 = 64;

fn factor_of(
    alloc: Global,
    cursor: &mut Cursor,
    register: u64,
    source: u64,
    is_table: bool,
) -> Result<Act, ReadError>
    ensures { Tells plain_act result cursor.new (factor_at register source is_table cursor.old) }
{
    if is_table {
        let table = cursor.number(u64::MAX)?;
        cursor.word(b"[")?;
        let place = read_place(alloc, cursor, PARENTHESES)?;
        let step = cursor.named_number(b"] step ", u64::MAX)?;
        return Ok(Act::Do(Op::MulTable {
            register,
            source,
            table,
            place,
            step,
        }));
    }
    let factor = cursor.number(u64::MAX)?;
    Ok(Act::Do(Op::MulConst {
        register,
        source,
        factor,
    }))
}

fn load_of(alloc: Global, cursor: &mut Cursor) -> Result<Act, ReadError>
    ensures { Tells plain_act result cursor.new (operands_at Word.Load cursor.old) }
{
    let register = cursor.number(u64::MAX)?;
    cursor.word(b" ")?;
    let array = array_of(cursor)?;
    let place = read_place(alloc, cursor, PARENTHESES)?;
    cursor.word(b"]")?;
    Ok(Act::Do(Op::Load {
        register,
        array,
        place,
    }))
}

fn store_of(alloc: Global, cursor: &mut Cursor) -> Result<Act, ReadError>
    ensures { Tells plain_act result cursor.new (operands_at Word.Store cursor.old) }
{
    let array = array_of(cursor)?;
    let place = read_place(alloc, cursor, PARENTHESES)?;
    let register = cursor.named_number(b"] r", u64::MAX)?;
    Ok(Act::Do(Op::Store {
        array,
        place,
        register,
    }))
}

fn sum_of(cursor: &mut Cursor) -> Result<Act, ReadError>
    ensures { Tells plain_act result cursor.new (operands_at Word.Add cursor.old) }
{
    let register = cursor.number(u64::MAX)?;
    let left = cursor.named_number(b" r", u64::MAX)?;
    let right = cursor.named_number(b" r", u64::MAX)?;
    Ok(Act::Do(Op::Add {
        register,
        left,
        right,
    }))
}

fn difference_of(cursor: &mut Cursor) -> Result<Act, ReadError>
    ensures { Tells plain_act result cursor.new (operands_at Word.Sub cursor.old) }
{
    let register = cursor.number(u64::MAX)?;
    let left = cursor.named_number(b" r", u64::MAX)?;
    let right = cursor.named_number(b" r", u64::MAX)?;
    Ok(Act::Do(Op::Sub {
        register,
        left,
        right,
    }))
}

fn product_of(alloc: Global, cursor: &mut Cursor) -> Result<Act, ReadError>
    ensures { Tells plain_act result cursor.new (operands_at Word.Mul cursor.old) }
{
    let register = cursor.number(u64::MAX)?;
    let source = cursor.named_number(b" r", u64::MAX)?;
    let is_table = is_table(cursor)?;
    factor_of(alloc, cursor, register, source, is_table)
}

// What comes after the first word.
fn operands_of(alloc: Global, cursor: &mut Cursor, word: Word) -> Result<Act, ReadError>
    ensures { Tells plain_act result cursor.new (operands_at word cursor.old) }
{
    match word {
        Word::For => {
            let depth = cursor.number(u64::MAX)?;
            let count = cursor.named_number(b" ", u64::MAX)?;
            Ok(Act::Open { depth, count })
        }
        Word::End => Ok(Act::Close),
        Word::Load => load_of(alloc, cursor),
        Word::Store => store_of(alloc, cursor),
        Word::Zero => {
            let register = cursor.number(u64::MAX)?;
            Ok(Act::Do(Op::Zero { register }))
        }
        Word::Add => sum_of(cursor),
        Word::Sub => difference_of(cursor),
        Word::Neg => {
            let register = cursor.number(u64::MAX)?;
            let source = cursor.named_number(b" r", u64::MAX)?;
            Ok(Act::Do(Op::Neg { register, source }))
        }
        Word::Mul => product_of(alloc, cursor),
        Word::Tile => {
            let register = cursor.number(u64::MAX)?;
            let source = cursor.named_number(b" r", u64::MAX)?;
            Ok(Act::Do(Op::Tile { register, source }))
        }
    }
}

#[tactic(auto, unfolding(crate::specs::Acts::act_at))]
fn act_of(alloc: Global, cursor: &mut Cursor) -> Result<Act, ReadError>
    ensures { Tells plain_act result cursor.new (act_at cursor.old) }
{
    let word = word_of(cursor)?;
    operands_of(alloc, cursor, word)
}

#[tactic(auto, unfolding(crate::specs::Acts::act_line_at))]
fn act_line_of(alloc: Global, cursor: &mut Cursor) -> Result<Act, ReadError>
    ensures { Tells plain_act result cursor.new (act_line_at cursor.old) }
{
    let act = act_of(alloc, cursor)?;
    cursor.word(b"\n")?;
    Ok(act)
}

fn whole_act(alloc: Global, line: &[u8]) -> Result<Act, ReadError>
    ensures { TellsAll plain_act result (whole act_line_at line.now) }
{
    let mut cursor = Cursor::new(line);
    let act = act_line_of(alloc, &mut cursor)?;
    cursor.end()?;
    Ok(act)
}

/// What a line of a phase is, with its end.
pub fn read_act(alloc: Global, line: &[u8]) -> Result<Act, ReadError>
    ensures read { TellsAll plain_act result (whole act_line_at line.now) }
    ensures fits { IfOk result (λ act. ActFits (plain_act act)) }
{
    match whole_act(alloc, line) {
        Ok(act) => Ok(act),
        Err(error) => Err(error),
    }
}
