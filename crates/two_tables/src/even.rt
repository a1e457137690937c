// Whether entries of a table are used in groups of lanes.

ghost use Rattle.std.specs.Prelude.{◌≡◌, ◌<◌};
ghost use Rattle.std.specs.List.{list_all};
ghost use Rattle.icode.specs.Plain.{plain_expr, plain_op, plain_stmt, plain_body, plain_phases};
ghost use Rattle.two_tables.specs.Places.{are_even, is_even};
ghost use Rattle.two_tables.specs.Factored.{is_op_even, is_stmt_even, is_body_even};
ghost use Rattle.nests.specs.Views.{plain_parts};

use icode::program::{Expr, Op, Part, Stmt};

// Whether they are at most `room` multiples of the lanes, each of the processor's number or of loops' values.
fn are_even(lanes: u64, room: u64, parts: &[Part]) -> bool
    requires { 0 < lanes }
    ensures { result ≡ are_even lanes room (plain_parts parts.now) }
{
    let Some((part, rest)) = parts.split_first() else {
        return true;
    };
    if room == 0 {
        return false;
    }
    match part {
        Part::Proc { factor } => *factor % lanes == 0 && are_even(lanes, room - 1, rest),
        Part::Var { factor, .. } => *factor % lanes == 0 && are_even(lanes, room - 1, rest),
        Part::Product { factor, .. } => *factor % lanes == 0 && are_even(lanes, room - 1, rest),
        Part::Rem { .. } => false,
        Part::Quot { .. } => false,
    }
}

fn is_even(lanes: u64, place: &Expr) -> bool
    requires { 0 < lanes }
    ensures { result ≡ is_even lanes (plain_expr place.now) }
{
    place.constant % lanes == 0 && are_even(lanes, 30, &place.parts)
}

fn is_op_even(lanes: u64, table: u64, op: &Op) -> bool
    requires { 0 < lanes }
    ensures { result ≡ is_op_even lanes table (plain_op op.now) }
{
    match op {
        Op::MulTable {
            table: of,
            place,
            step,
            ..
        } => *of != table || (*step < 2 && is_even(lanes, place)),
        Op::Load { .. } => true,
        Op::Store { .. } => true,
        Op::Zero { .. } => true,
        Op::Add { .. } => true,
        Op::Sub { .. } => true,
        Op::Neg { .. } => true,
        Op::MulConst { .. } => true,
        Op::Tile { .. } => true,
    }
}

#[cycle(even)]
fn is_stmt_even(lanes: u64, table: u64, stmt: &Stmt) -> bool
    requires { 0 < lanes }
    ensures { result ≡ is_stmt_even lanes table (plain_stmt stmt.now) }
{
    match stmt {
        Stmt::Loop { body, .. } => is_body_even(lanes, table, body),
        Stmt::Do(op) => is_op_even(lanes, table, op),
    }
}

#[cycle(even)]
fn is_body_even(lanes: u64, table: u64, body: &[Stmt]) -> bool
    requires { 0 < lanes }
    ensures { result ≡ is_body_even lanes table (plain_body body.now) }
{
    for stmt in body {
        if !is_stmt_even(lanes, table, stmt) {
            return false;
        }
    }
    true
}

/// Whether all uses of the table are in groups of lanes.
pub(crate) fn are_phases_even(lanes: u64, table: u64, phases: &[Vec<Stmt>]) -> bool
    requires { 0 < lanes }
    ensures { result ≡ list_all (is_body_even lanes table) (plain_phases phases.now) }
{
    for body in phases {
        if !is_body_even(lanes, table, body) {
            return false;
        }
    }
    true
}
