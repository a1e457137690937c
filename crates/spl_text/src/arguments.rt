// The numbers after the head of a part, up to its closing parenthesis.
ghost use Rattle.std.specs.Prelude.{◌≡◌, ℕ, ◌^◌, ◌<◌, length, Ok, All, IfOk, codes};
ghost use Rattle.grammar.specs.Cursor.{Gives, Tells};
ghost use Rattle.grammar.specs.Reading.{all_at, named_number_at};
ghost use Rattle.grammar.proofs.Loop.{in_front};
ghost use Rattle.spl_ast.specs.Shape.{IsSize, IsRingValue};
ghost use Rattle.spl_text.specs.Arguments.{factor_at, value_at, one_size_at, two_sizes_at, size_value_at, sizes_value_at, values_at};

use grammar::{Cursor, ReadError, Stuck};
use memory::NoMemory;
use operators::MAX_SIZE;
use spl_ast::Spl;
use std::alloc::Global;

/// The greatest ring value.
const MAX_VALUE: u64 = 4611686018427387903;

/// A size or a factor.
#[tactic(auto, using(crate::proofs::Bounds::factor_bound))]
pub fn factor(cursor: &mut Cursor) -> Result<u64, Stuck>
    ensures gives { Gives result cursor.new (factor_at cursor.old) }
    ensures size { IfOk result IsSize }
{
    cursor.positive(MAX_SIZE)
}

/// A ring value.
#[tactic(auto, using(crate::proofs::Bounds::value_bound))]
fn value(cursor: &mut Cursor) -> Result<u64, Stuck>
    ensures gives { Gives result cursor.new (value_at cursor.old) }
    ensures value { IfOk result IsRingValue }
{
    cursor.number(MAX_VALUE)
}

pub fn one_size(cursor: &mut Cursor) -> Result<u64, Stuck>
    ensures gives { Gives result cursor.new (one_size_at cursor.old) }
    ensures size { IfOk result IsSize }
{
    let n = factor(cursor)?;
    cursor.word(b")")?;
    Ok(n)
}

pub fn two_sizes(cursor: &mut Cursor) -> Result<(u64, u64), Stuck>
    ensures gives { Gives result cursor.new (two_sizes_at cursor.old) }
    ensures first { IfOk result (λ x. IsSize x.0) }
    ensures second { IfOk result (λ x. IsSize x.1) }
{
    let n = factor(cursor)?;
    cursor.word(b",")?;
    let r = factor(cursor)?;
    cursor.word(b")")?;
    Ok((n, r))
}

pub fn size_value(cursor: &mut Cursor) -> Result<(u64, u64), Stuck>
    ensures gives { Gives result cursor.new (size_value_at cursor.old) }
    ensures size { IfOk result (λ x. IsSize x.0) }
    ensures value { IfOk result (λ x. IsRingValue x.1) }
{
    let n = factor(cursor)?;
    cursor.word(b",")?;
    let w = value(cursor)?;
    cursor.word(b")")?;
    Ok((n, w))
}

pub fn sizes_value(cursor: &mut Cursor) -> Result<(u64, u64, u64), Stuck>
    ensures gives { Gives result cursor.new (sizes_value_at cursor.old) }
    ensures first { IfOk result (λ x. IsSize x.0) }
    ensures second { IfOk result (λ x. IsSize x.1) }
    ensures value { IfOk result (λ x. IsRingValue x.2) }
{
    let n = factor(cursor)?;
    cursor.word(b",")?;
    let s = factor(cursor)?;
    cursor.word(b",")?;
    let w = value(cursor)?;
    cursor.word(b")")?;
    Ok((n, s, w))
}

/// One ring value or more.
pub fn values(alloc: Global, cursor: &mut Cursor) -> Result<Vec<u64>, ReadError>
    ensures gives { Tells (λ v. v.items) result cursor.new (values_at cursor.old) }
    ensures some { IfOk result (λ v. 0 < length v.items) }
    ensures values { IfOk result (λ v. All IsRingValue v.items) }
{
    let first = value(cursor)?;
    let mut front = Vec::new(alloc);
    front.push(first)?;
    let values = more_values(cursor, front)?;
    cursor.word(b")")?;
    Ok(values)
}

// The ring values of the list, and those that are read, each after a comma.
fn more_values(cursor: &mut Cursor, front: Vec<u64>) -> Result<Vec<u64>, NoMemory>
    requires { All IsRingValue front.items }
    ensures gives { IfOk result (λ v. in_front front.items
        (all_at (named_number_at (codes ",") (2 ^ 62)) cursor.old) ≡ Ok (v.items, cursor.new)) }
    ensures values { IfOk result (λ v. All IsRingValue v.items) }
{
    let mut values = front;
    // Each value takes a byte at least.
    let most = cursor.left();
    for _ in 0..most {
        let mut ahead = cursor.fork();
        match next_value(&mut ahead) {
            Ok(value) => {
                *cursor = ahead;
                values.push(value)?;
            }
            Err(stuck) => {
                cursor.give_up(stuck);
                return Ok(values);
            }
        }
    }
    Ok(values)
}

#[tactic(auto, using(crate::proofs::Bounds::named_value_bound))]
fn next_value(cursor: &mut Cursor) -> Result<u64, Stuck>
    ensures gives { Gives result cursor.new (named_number_at (codes ",") (2 ^ 62) cursor.old) }
    ensures value { IfOk result IsRingValue }
{
    cursor.named_number(b",", MAX_VALUE)
}
