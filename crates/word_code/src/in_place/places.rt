// The places of statements, and the arrays that they load from.

ghost use Rattle.std.specs.Prelude.{◌≡◌, ◌++◌, map, IfOk, OnOk};
ghost use Rattle.icode.specs.Plain.{plain_expr, plain_op, plain_stmt, plain_body};
ghost use Rattle.word_code.specs.InPlace.Routing.{same_place, same_places, stays, loaded_array, first_array};
ghost use Rattle.word_code.specs.InPlace.Routing.{first_array_in, place_of, places_of, places_in};
ghost use Rattle.word_code.specs.InPlace.Views.{plain_places};

use icode::program::{Array, Expr, Op, Stmt};
use memory::NoMemory;
use nests::same_parts;
use std::alloc::Global;

/// The loads of a statement, or its stores.
#[derive(Clone, Copy, PartialEq, Eq, Debug)]
enum Side {
    Loads,
    Stores,
}

// Puts the place of the operation, if it is on this side, after the others.
fn put_place<'a>(side: Side, op: &'a Op, places: &mut Vec<&'a Expr>) -> Result<(), NoMemory>
    ensures { OnOk result (plain_places places.new.items
        ≡ plain_places places.old.items ++ place_of side (plain_op op.now)) }
{
    match (side, op) {
        (Side::Loads, Op::Load { place, .. }) => places.push(place)?,
        (Side::Stores, Op::Store { place, .. }) => places.push(place)?,
        _ => (),
    }
    Ok(())
}

/// Puts the places of the statement on this side after the others, in the order of its text.
#[cycle(put)]
fn put_places<'a>(side: Side, stmt: &'a Stmt, places: &mut Vec<&'a Expr>) -> Result<(), NoMemory>
    ensures { OnOk result (plain_places places.new.items
        ≡ plain_places places.old.items ++ places_of side (plain_stmt stmt.now)) }
{
    match stmt {
        Stmt::Loop { body, .. } => put_places_in(side, body, places)?,
        Stmt::Do(op) => put_place(side, op, places)?,
    }
    Ok(())
}

#[cycle(put)]
fn put_places_in<'a>(
    side: Side,
    body: &'a [Stmt],
    places: &mut Vec<&'a Expr>,
) -> Result<(), NoMemory>
    ensures { OnOk result (plain_places places.new.items
        ≡ plain_places places.old.items ++ places_in side (plain_body body.now)) }
{
    for stmt in body {
        put_places(side, stmt, places)?;
    }
    Ok(())
}

fn same_place(left: &Expr, right: &Expr) -> bool
    ensures { result ≡ same_place (plain_expr left.now) (plain_expr right.now) }
{
    left.constant == right.constant && same_parts(&left.parts, &right.parts)
}

fn same_places(left: &[&Expr], right: &[&Expr]) -> bool
    ensures { result ≡ same_places (plain_places left.now) (plain_places right.now) }
{
    if left.len() != right.len() {
        return false;
    }
    for index in 0..left.len() {
        if !same_place(left[index], right[index]) {
            return false;
        }
    }
    true
}

/// Whether the statement stores to the places that it loads from, and to no others.
pub(crate) fn stays(alloc: Global, stmt: &Stmt) -> Result<bool, NoMemory>
    ensures { IfOk result (λ stay. stay ≡ stays (plain_stmt stmt.now)) }
{
    let mut loaded = Vec::new(alloc);
    put_places(Side::Loads, stmt, &mut loaded)?;
    let mut stored = Vec::new(alloc);
    put_places(Side::Stores, stmt, &mut stored)?;
    Ok(same_places(&loaded, &stored))
}

fn loaded_array(op: &Op) -> Option<Array>
    ensures { result ≡ loaded_array (plain_op op.now) }
{
    if let Op::Load { array, .. } = op {
        Some(*array)
    } else {
        None
    }
}

/// The array of the statement's first load.
#[cycle(first)]
pub(crate) fn first_array(stmt: &Stmt) -> Option<Array>
    ensures { result ≡ first_array (plain_stmt stmt.now) }
{
    match stmt {
        Stmt::Loop { body, .. } => first_array_in(body),
        Stmt::Do(op) => loaded_array(op),
    }
}

#[cycle(first)]
fn first_array_in(body: &[Stmt]) -> Option<Array>
    ensures { result ≡ first_array_in (plain_body body.now) }
{
    for stmt in body {
        if let Some(array) = first_array(stmt) {
            return Some(array);
        }
    }
    None
}
