//! The parts of a line.

ghost use Rattle.std.specs.Prelude.{◌≡◌, map};
ghost use Rattle.std.specs.Option.{option_map};
ghost use Rattle.icode.specs.Plain.{plain_expr, plain_part};
ghost use Rattle.grammar.specs.Cursor.{Gives, Tells};
ghost use Rattle.grammar.specs.Reading.{one_of_at};
ghost use Rattle.listing_text.specs.Reading.{part_heads, second_heads, variable_at, inner_at, part_at, up_to_at, sum_at};

use grammar::{Cursor, ReadError, Stuck};
use icode::program::{Expr, Part};
use std::alloc::Global;

/// How a part of a place begins.
#[derive(Clone, Copy)]
enum Head {
    Proc,
    Var,
    Inner,
    End,
}

// A second variable stands here.
fn is_second(cursor: &mut Cursor) -> Result<bool, Stuck>
    ensures { Gives result cursor.new (one_of_at second_heads cursor.old) }
{
    cursor.one_of(&[(b"v", true), (b"", false)])
}

// What comes after the first variable of a part.
fn variable_of(cursor: &mut Cursor, depth: u64, is_product: bool) -> Result<Option<Part>, ReadError>
    ensures { Tells (λ part. option_map plain_part part) result cursor.new
        (variable_at depth is_product cursor.old) }
{
    if is_product {
        let inner = cursor.number(u64::MAX)?;
        let factor = cursor.named_number(b"*", u64::MAX)?;
        return Ok(Some(Part::Product {
            outer: depth,
            inner,
            factor,
        }));
    }
    let factor = cursor.number(u64::MAX)?;
    Ok(Some(Part::Var { depth, factor }))
}

fn head_of(cursor: &mut Cursor) -> Result<Head, Stuck>
    ensures { Gives result cursor.new (one_of_at part_heads cursor.old) }
{
    cursor.one_of(&[
        (b"+q*", Head::Proc),
        (b"+v", Head::Var),
        (b"+(", Head::Inner),
        (b"", Head::End),
    ])
}

#[cycle(places)]
fn part_of(alloc: Global, cursor: &mut Cursor, depth: u64) -> Result<Option<Part>, ReadError>
    ensures { Tells (λ part. option_map plain_part part) result cursor.new
        (part_at (inner_at depth) cursor.old) }
{
    match head_of(cursor)? {
        Head::Proc => {
            let factor = cursor.number(u64::MAX)?;
            Ok(Some(Part::Proc { factor }))
        }
        Head::Var => {
            let outer = cursor.number(u64::MAX)?;
            cursor.word(b"*")?;
            let is_product = is_second(cursor)?;
            variable_of(cursor, outer, is_product)
        }
        Head::Inner => {
            let of = inner_of(alloc, cursor, depth)?;
            let is_remainder = cursor.one_of(&[(b")%", true), (b")/", false)])?;
            let divisor = cursor.number(u64::MAX)?;
            let factor = cursor.named_number(b"*", u64::MAX)?;
            if is_remainder {
                Ok(Some(Part::Rem {
                    of,
                    divisor,
                    factor,
                }))
            } else {
                Ok(Some(Part::Quot {
                    of,
                    divisor,
                    factor,
                }))
            }
        }
        Head::End => Ok(None),
    }
}

// What stands in one of the `depth` parentheses that are left to open.
#[cycle(places)]
fn inner_of(alloc: Global, cursor: &mut Cursor, depth: u64) -> Result<Expr, ReadError>
    ensures { Tells plain_expr result cursor.new (inner_at depth cursor.old) }
{
    if depth == 0 {
        return Err(ReadError::Stuck(Stuck {
            left: cursor.left(),
        }));
    }
    read_place(alloc, cursor, depth - 1)
}

#[cycle(places)]
fn parts_of(alloc: Global, cursor: &mut Cursor, depth: u64) -> Result<Vec<Part>, ReadError>
    ensures { Tells (λ parts. map plain_part parts.items) result cursor.new
        (up_to_at 64 (part_at (inner_at depth)) cursor.old) }
{
    let mut parts = Vec::new(alloc);
    for _ in 0..64_u64 {
        match part_of(alloc, cursor, depth) {
            Ok(Some(part)) => parts.push(part)?,
            Ok(None) => return Ok(parts),
            Err(error) => return Err(error),
        }
    }
    Ok(parts)
}

/// Reads a place, with `depth` parentheses left to open.
#[cycle(places)]
pub fn read_place(alloc: Global, cursor: &mut Cursor, depth: u64) -> Result<Expr, ReadError>
    ensures { Tells plain_expr result cursor.new (sum_at depth cursor.old) }
{
    let constant = cursor.number(u64::MAX)?;
    let parts = parts_of(alloc, cursor, depth)?;
    Ok(Expr { constant, parts })
}
