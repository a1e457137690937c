//! The lines of a phase in C.

ghost use Rattle.std.specs.Prelude.{◌≡◌, ℕ, IfOk, IsOkUnless};
ghost use Rattle.grammar.specs.Cursor.{Gives, Tells, TellsAll};
ghost use Rattle.grammar.specs.Reading.{one_of_at, whole};
ghost use Rattle.listing_text.specs.Acts.{plain_act, ActFits};
ghost use Rattle.listing_text.specs.Wording.{PlainAct};
ghost use Rattle.c_print.specs.CLines.{c_words, target_words, value_words, factor_words, same_loop, loop_at, tile_at, c_factor_at, value_at, target_at, c_operands_at, c_act_at, c_line_at};
ghost use Rattle.c_print.specs.CText.{c_line_text};
ghost use Rattle.c_print.specs.CLineTexts.{IsLineOf};

use grammar::{Cursor, ReadError, Stuck};
use icode::program::{Array, Op};
use listing_text::{Act, PARENTHESES, read_place};
use std::alloc::Global;

/// How a line begins.
#[derive(Clone, Copy)]
enum Word {
    For,
    Tile,
    Lanes,
    End,
}

/// What a register becomes.
#[derive(Clone, Copy)]
enum Value {
    Zero,
    Add,
    Sub,
    Neg,
    Mul,
    Load(Array),
}

fn word_of(cursor: &mut Cursor) -> Result<Word, Stuck>
    ensures { Gives result cursor.new (one_of_at c_words cursor.old) }
{
    cursor.one_of(&[
        (b"for (uint64_t v", Word::For),
        (
            b"for (int k = 0; k < V; k++) for (int l = 0; l < V; l++) r[",
            Word::Tile,
        ),
        (b"for (int l = 0; l < V; l++) ", Word::Lanes),
        (b"}", Word::End),
    ])
}

fn target_of(cursor: &mut Cursor) -> Result<Option<Array>, Stuck>
    ensures { Gives result cursor.new (one_of_at target_words cursor.old) }
{
    cursor.one_of(&[
        (b"r[", None),
        (b"X[", Some(Array::X)),
        (b"Y[", Some(Array::Y)),
        (b"A[", Some(Array::A)),
        (b"B[", Some(Array::B)),
    ])
}

fn value_of(cursor: &mut Cursor) -> Result<Value, Stuck>
    ensures { Gives result cursor.new (one_of_at value_words cursor.old) }
{
    cursor.one_of(&[
        (b"0;", Value::Zero),
        (b"add(r[", Value::Add),
        (b"sub(0, r[", Value::Neg),
        (b"sub(r[", Value::Sub),
        (b"mul(r[", Value::Mul),
        (b"X[", Value::Load(Array::X)),
        (b"Y[", Value::Load(Array::Y)),
        (b"A[", Value::Load(Array::A)),
        (b"B[", Value::Load(Array::B)),
    ])
}

fn is_table(cursor: &mut Cursor) -> Result<bool, Stuck>
    ensures { Gives result cursor.new (one_of_at factor_words cursor.old) }
{
    cursor.one_of(&[(b"t", true), (b"", false)])
}

fn loop_of(cursor: &mut Cursor) -> Result<Act, ReadError>
    ensures { Tells plain_act result cursor.new (loop_at cursor.old) }
{
    let depth = cursor.number(u64::MAX)?;
    let second = cursor.named_number(b" = 0; v", u64::MAX)?;
    let count = cursor.named_number(b" < ", u64::MAX)?;
    let third = cursor.named_number(b"; v", u64::MAX)?;
    cursor.word(b"++) {")?;
    if depth == second && depth == third {
        return Ok(Act::Open { depth, count });
    }
    Err(ReadError::Stuck(Stuck {
        left: cursor.left(),
    }))
}

fn tile_of(cursor: &mut Cursor) -> Result<Act, ReadError>
    ensures { Tells plain_act result cursor.new (tile_at cursor.old) }
{
    let register = cursor.number(u64::MAX)?;
    let source = cursor.named_number(b" + k][l] = r[", u64::MAX)?;
    cursor.word(b" + l][k];")?;
    Ok(Act::Do(Op::Tile { register, source }))
}

fn factor_of(
    alloc: Global,
    cursor: &mut Cursor,
    register: u64,
    source: u64,
    is_table: bool,
) -> Result<Act, ReadError>
    ensures { Tells plain_act result cursor.new (c_factor_at register source is_table cursor.old) }
{
    if is_table {
        let table = cursor.number(u64::MAX)?;
        cursor.word(b"[")?;
        let place = read_place(alloc, cursor, PARENTHESES)?;
        let step = cursor.named_number(b" + ", u64::MAX)?;
        cursor.word(b" * l]);")?;
        return Ok(Act::Do(Op::MulTable {
            register,
            source,
            table,
            place,
            step,
        }));
    }
    let factor = cursor.number(u64::MAX)?;
    cursor.word(b");")?;
    Ok(Act::Do(Op::MulConst {
        register,
        source,
        factor,
    }))
}

fn sum_of(cursor: &mut Cursor, register: u64) -> Result<Act, ReadError>
    ensures { Tells plain_act result cursor.new (value_at register Value.Add cursor.old) }
{
    let left = cursor.number(u64::MAX)?;
    let right = cursor.named_number(b"][l], r[", u64::MAX)?;
    cursor.word(b"][l]);")?;
    Ok(Act::Do(Op::Add {
        register,
        left,
        right,
    }))
}

fn difference_of(cursor: &mut Cursor, register: u64) -> Result<Act, ReadError>
    ensures { Tells plain_act result cursor.new (value_at register Value.Sub cursor.old) }
{
    let left = cursor.number(u64::MAX)?;
    let right = cursor.named_number(b"][l], r[", u64::MAX)?;
    cursor.word(b"][l]);")?;
    Ok(Act::Do(Op::Sub {
        register,
        left,
        right,
    }))
}

fn product_of(alloc: Global, cursor: &mut Cursor, register: u64) -> Result<Act, ReadError>
    ensures { Tells plain_act result cursor.new (value_at register Value.Mul cursor.old) }
{
    let source = cursor.number(u64::MAX)?;
    cursor.word(b"][l], ")?;
    let is_table = is_table(cursor)?;
    factor_of(alloc, cursor, register, source, is_table)
}

fn load_of(
    alloc: Global,
    cursor: &mut Cursor,
    register: u64,
    array: Array,
) -> Result<Act, ReadError>
    ensures { Tells plain_act result cursor.new (value_at register (Value.Load array) cursor.old) }
{
    let place = read_place(alloc, cursor, PARENTHESES)?;
    cursor.word(b" + l];")?;
    Ok(Act::Do(Op::Load {
        register,
        array,
        place,
    }))
}

// What a register becomes.
fn becomes(
    alloc: Global,
    cursor: &mut Cursor,
    register: u64,
    value: Value,
) -> Result<Act, ReadError>
    ensures { Tells plain_act result cursor.new (value_at register value cursor.old) }
{
    match value {
        Value::Zero => Ok(Act::Do(Op::Zero { register })),
        Value::Add => sum_of(cursor, register),
        Value::Sub => difference_of(cursor, register),
        Value::Neg => {
            let source = cursor.number(u64::MAX)?;
            cursor.word(b"][l]);")?;
            Ok(Act::Do(Op::Neg { register, source }))
        }
        Value::Mul => product_of(alloc, cursor, register),
        Value::Load(array) => load_of(alloc, cursor, register, array),
    }
}

// What the lanes go to, and what it becomes.
fn lanes_of(alloc: Global, cursor: &mut Cursor, target: Option<Array>) -> Result<Act, ReadError>
    ensures { Tells plain_act result cursor.new (target_at target cursor.old) }
{
    match target {
        None => {
            let register = cursor.number(u64::MAX)?;
            cursor.word(b"][l] = ")?;
            let value = value_of(cursor)?;
            becomes(alloc, cursor, register, value)
        }
        Some(array) => {
            let place = read_place(alloc, cursor, PARENTHESES)?;
            let register = cursor.named_number(b" + l] = r[", u64::MAX)?;
            cursor.word(b"][l];")?;
            Ok(Act::Do(Op::Store {
                array,
                place,
                register,
            }))
        }
    }
}

fn operands_of(alloc: Global, cursor: &mut Cursor, word: Word) -> Result<Act, ReadError>
    ensures { Tells plain_act result cursor.new (c_operands_at word cursor.old) }
{
    match word {
        Word::For => loop_of(cursor),
        Word::Tile => tile_of(cursor),
        Word::Lanes => {
            let target = target_of(cursor)?;
            lanes_of(alloc, cursor, target)
        }
        Word::End => Ok(Act::Close),
    }
}

#[tactic(auto, unfolding(crate::specs::CLines::c_act_at))]
fn act_of(alloc: Global, cursor: &mut Cursor) -> Result<Act, ReadError>
    ensures { Tells plain_act result cursor.new (c_act_at cursor.old) }
{
    let word = word_of(cursor)?;
    operands_of(alloc, cursor, word)
}

#[tactic(auto, unfolding(crate::specs::CLines::c_line_at))]
fn line_of(alloc: Global, cursor: &mut Cursor) -> Result<Act, ReadError>
    ensures { Tells plain_act result cursor.new (c_line_at cursor.old) }
{
    let act = act_of(alloc, cursor)?;
    cursor.word(b"\n")?;
    Ok(act)
}

fn whole_line(alloc: Global, line: &[u8]) -> Result<Act, ReadError>
    ensures { TellsAll plain_act result (whole c_line_at line.now) }
{
    let mut cursor = Cursor::new(line);
    let act = line_of(alloc, &mut cursor)?;
    cursor.end()?;
    Ok(act)
}

/// What a line of a phase in C is, with its end: a part of a reader of whole C texts. Each line of the C text
/// of a program is read back, and nothing else is read but what is written so. `Stuck` says how many
/// bytes are left where reading stops.
pub fn read_c_line(alloc: Global, line: &[u8]) -> Result<Act, ReadError>
    ensures read { TellsAll plain_act result (whole c_line_at line.now) }
    ensures text { IfOk result (λ act. ActFits (plain_act act)
        × (line.now ≡ c_line_text (plain_act act))) }
    ensures only { (act : PlainAct) → IsLineOf line.now act
        → IsOkUnless result ReadError.NoMemory × IfOk result (λ found. plain_act found ≡ act) }
{
    match whole_line(alloc, line) {
        Ok(act) => Ok(act),
        Err(error) => Err(error),
    }
}
