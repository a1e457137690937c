// A walk over the accesses of statements that go by routes.

ghost use Rattle.std.specs.Prelude.{◌≡◌, ◌≤◌, [], length, take, IsTrue, IfOk};
ghost use Rattle.icode.specs.Actions.{StepFits};
ghost use Rattle.icode.specs.Limits.{is_op_within, is_stmt_within, is_body_within};
ghost use Rattle.icode.specs.Plain.{plain_op, plain_stmt, plain_body};
ghost use Rattle.icode.specs.Program.{plain_program, op_step};
ghost use Rattle.word_code.specs.InPlace.Sharing.{may_go};
ghost use Rattle.word_code.specs.InPlace.Views.{span, IsTable, StmtFits, BodyFits, IsOpWithin};
ghost use Rattle.word_code.specs.InPlace.Views.{op_accesses, stmt_accesses, body_accesses, phase_accesses};
ghost use Rattle.word_code.specs.InPlace.Views.{Tells, HousesIf};

use crate::in_place::homes::HomeTable;
use crate::in_place::routes::Route;
use icode::program::{Op, Program, Stmt};
use memory::NoMemory;
use std::alloc::Global;

/// How deep loops may be nested.
const MAX_DEPTH: usize = 64;

// Whether the words that the operation loads stand where it looks for them. Those that it stores are
// put there.
fn visit(op: &Op, program: &Program, route: Route, values: &[u64], table: &mut HomeTable) -> bool
    requires within { IsOpWithin program.now op.now values.now }
    requires fits { StepFits (plain_program program.now) (op_step program.now op.now values.now 0) }
    requires table { IsTable (span (plain_program program.now)) table.old }
    ensures right { Tells result program.now
        (op_accesses program.now route op.now values.now) table.old }
    ensures after { HousesIf result program.now
        (op_accesses program.now route op.now values.now) table.old table.new }
    ensures table { IsTable (span (plain_program program.now)) table.new }
{
    match op {
        Op::Load { array, place, .. } => {
            let at = place.value(values, 0);
            table.are_home(
                program.lanes,
                program.address(*array, at),
                program.address(route.source, at),
            )
        }
        Op::Store { array, place, .. } => {
            let at = place.value(values, 0);
            table.house(
                program.lanes,
                program.address(*array, at),
                program.address(route.target, at),
            );
            true
        }
        _ => true,
    }
}

/// The same for all turns of the statement, where the first `depth` values are those of the open
/// loops.
#[cycle(walk)]
fn walk_stmt(
    stmt: &Stmt,
    program: &Program,
    route: Route,
    values: &mut [u64; MAX_DEPTH],
    depth: usize,
    table: &mut HomeTable,
) -> bool
    requires within { IsTrue (is_stmt_within program.now.modulus (plain_stmt stmt.now) depth) }
    requires depth { depth ≤ 64 }
    requires fits { let p = plain_program program.now in
        StmtFits p (plain_stmt stmt.now) (take depth values.old) }
    requires table { IsTable (span (plain_program program.now)) table.old }
    ensures right { Tells result program.now
        (stmt_accesses program.now route stmt.now (take depth values.old)) table.old }
    ensures after { HousesIf result program.now
        (stmt_accesses program.now route stmt.now (take depth values.old)) table.old table.new }
    ensures table { IsTable (span (plain_program program.now)) table.new }
    ensures values { take depth values.new ≡ take depth values.old }
{
    match stmt {
        Stmt::Loop { count, body } => {
            for turn in 0..*count {
                values[depth] = turn;
                if !walk_body(body, program, route, values, depth + 1, table) {
                    return false;
                }
            }
            true
        }
        Stmt::Do(op) => visit(op, program, route, &values[..depth], table),
    }
}

/// The same for the statements, one after another.
#[cycle(walk)]
fn walk_body(
    body: &[Stmt],
    program: &Program,
    route: Route,
    values: &mut [u64; MAX_DEPTH],
    depth: usize,
    table: &mut HomeTable,
) -> bool
    requires within { IsTrue (is_body_within program.now.modulus (plain_body body.now) depth) }
    requires depth { depth ≤ 64 }
    requires fits { let p = plain_program program.now in
        BodyFits p (plain_body body.now) (take depth values.old) }
    requires table { IsTable (span (plain_program program.now)) table.old }
    ensures right { Tells result program.now
        (body_accesses program.now route body.now (take depth values.old)) table.old }
    ensures after { HousesIf result program.now
        (body_accesses program.now route body.now (take depth values.old)) table.old table.new }
    ensures table { IsTable (span (plain_program program.now)) table.new }
    ensures values { take depth values.new ≡ take depth values.old }
{
    for stmt in body {
        if !walk_stmt(stmt, program, route, values, depth, table) {
            return false;
        }
    }
    true
}

// The same for a phase, whose statements go their own routes.
fn walk_phase(routes: &[Route], body: &[Stmt], program: &Program, table: &mut HomeTable) -> bool
    requires within { IsTrue (is_body_within program.now.modulus (plain_body body.now) 0) }
    requires fits { BodyFits (plain_program program.now) (plain_body body.now) [] }
    requires table { IsTable (span (plain_program program.now)) table.old }
    ensures right { Tells result program.now
        (phase_accesses program.now routes.now body.now) table.old }
    ensures after { HousesIf result program.now
        (phase_accesses program.now routes.now body.now) table.old table.new }
    ensures table { IsTable (span (plain_program program.now)) table.new }
{
    let mut values = [0; MAX_DEPTH];
    for index in 0..routes.len().min(body.len()) {
        if !walk_stmt(&body[index], program, routes[index], &mut values, 0, table) {
            return false;
        }
    }
    true
}

/// Whether the statements of a phase may go these routes: each load finds its words, and so does who
/// reads Y at the end.
pub(crate) fn may_go(
    alloc: Global,
    program: &Program,
    body: &[Stmt],
    routes: &[Route],
) -> Result<bool, NoMemory>
    requires within { IsTrue (is_body_within program.now.modulus (plain_body body.now) 0) }
    requires fits { BodyFits (plain_program program.now) (plain_body body.now) [] }
    ensures { IfOk result
        (λ may. may ≡ may_go (plain_program program.now) (plain_body body.now) routes.now) }
{
    let mut table = HomeTable::own(alloc, program.span())?;
    if !walk_phase(routes, body, program, &mut table) {
        return Ok(false);
    }
    let words = program.array_size();
    Ok(table.are_home(program.size, words, words))
}
