// Which routes the statements of a phase are to go. A statement that loads each word from the address where it stores one can work
// in place: it stores into the array that it loads from, and the next statement loads from there. So fewer arrays are in the cache.

ghost use Rattle.std.specs.Prelude.{◌≡◌, IfOk};
ghost use Rattle.icode.specs.Plain.{plain_stmt, plain_body};
ghost use Rattle.word_code.specs.InPlace.Routing.{beside, source_for, not_input, route_to, chosen};

use crate::in_place::places::{first_array, stays};
use crate::in_place::routes::Route;
use icode::program::{Array, Stmt};
use memory::NoMemory;
use std::alloc::Global;

/// The array, or another one if it is the target.
fn beside(target: Array, array: Array) -> Array
    ensures { result ≡ beside target array }
{
    match (target, array) {
        (Array::A, Array::A) => Array::B,
        (Array::B, Array::B) => Array::A,
        (Array::Y, Array::Y) => Array::A,
        _ => array,
    }
}

/// What a statement loads from that loads first from this array. The input stays where it is.
fn source_for(target: Array, stay: bool, first: Option<Array>) -> Array
    ensures { result ≡ source_for target stay first }
{
    match first {
        None => Array::X,
        Some(Array::X) => Array::X,
        Some(array) => { if stay { target } else { beside(target, array) } }
    }
}

fn not_input(array: Array) -> Array
    ensures { result ≡ not_input array }
{
    match array {
        Array::X => Array::A,
        Array::Y => Array::Y,
        Array::A => Array::A,
        Array::B => Array::B,
    }
}

/// The route of a statement into this array.
fn route_to(alloc: Global, target: Array, stmt: &Stmt) -> Result<Route, NoMemory>
    ensures { IfOk result (λ route. route ≡ route_to target (plain_stmt stmt.now)) }
{
    let stay = stays(alloc, stmt)?;
    let source = source_for(target, stay, first_array(stmt));
    Ok(Route { source, target })
}

/// The routes of the statements, which end in Y.
pub(crate) fn choose(alloc: Global, body: &[Stmt]) -> Result<Vec<Route>, NoMemory>
    ensures { IfOk result (λ routes. routes.items ≡ chosen (plain_body body.now)) }
{
    let mut routes = Vec::new(alloc);
    let mut target = Array::Y;
    for behind in 0..body.len() {
        let route = route_to(alloc, target, &body[body.len() - 1 - behind])?;
        target = not_input(route.source);
        routes.push(route)?;
    }
    routes.reverse();
    Ok(routes)
}
