// A walk over the actions of a processor.

ghost use Rattle.std.specs.Prelude.{◌≡◌, ◌↔◌, ◌+◌, ◌*◌, ◌-◌, ◌^◌, ◌<◌, ◌≤◌, [], length, take, IsTrue, SomeIff};
ghost use Rattle.icode.specs.Actions.{steps_of_stmt, steps_of_body};
ghost use Rattle.icode.specs.Expression.{expr_numbers};
ghost use Rattle.icode.specs.Lengths.{len_of_stmt, len_of_body};
ghost use Rattle.icode.specs.Limits.{is_expr_within, is_op_within, is_stmt_within, is_body_within};
ghost use Rattle.icode.specs.Plain.{plain_expr, plain_op};
ghost use Rattle.icode.specs.Program.{array_size, table_of, plain_program, op_step};
ghost use Rattle.code_check.specs.Live.{plain_live, plain_lives};
ghost use Rattle.code_check.specs.Uses.{line_count};
ghost use Rattle.code_check.specs.Walk.{walked, Answers};
ghost use Rattle.code_check.specs.Workers.{program_of, AnswersStep};

use crate::lines::{LineUse, touch};
use crate::live::Live;
use crate::place::checked_value;
use crate::registers::registers_fit;
use icode::program::{Expr, Op, Program};

/// How deep loops may be nested.
pub(crate) const MAX_DEPTH: usize = 64;

/// What is wrong with an action.
#[derive(Clone, Copy, PartialEq, Eq, Debug)]
pub(crate) enum Offence {
    /// Its place is not there.
    Place,
    /// Its place is there, and a register is not.
    Register,
}

/// A processor of a program.
#[derive(Clone, Copy)]
pub(crate) struct Worker<'a> {
    pub(crate) program: &'a Program,
    pub(crate) proc: u64,
}

// The place, where it is inside its array with all lanes.
fn array_place(program: &Program, place: &Expr, values: &[u64], proc: u64) -> Option<u64>
    requires { IsTrue (is_expr_within (plain_expr place.now) (length values.now)) }
    ensures { let at = expr_numbers place.now values.now proc in
        SomeIff result ((at.peak < 2 ^ 64)
        × (at.value + program.now.lanes ≤ array_size program.now)) at.value }
{
    let Some(at) = checked_value(place, values, proc) else {
        return None;
    };
    let room = program.array_size();
    if at <= room && program.lanes <= room - at {
        Some(at)
    } else {
        None
    }
}

// Whether the place is in the table, with the places of all lanes.
fn is_in_table(
    program: &Program,
    table: u64,
    place: &Expr,
    step: u64,
    values: &[u64],
    proc: u64,
) -> bool
    requires within { IsTrue (is_expr_within (plain_expr place.now) (length values.now)) }
    requires step { step < 2 }
    ensures { let at = expr_numbers place.now values.now proc in
        IsTrue result ↔ ((at.peak < 2 ^ 64)
        × (at.value + step * (program.now.lanes - 1) + 1 ≤ length (table_of program.now table))) }
{
    let Some(at) = checked_value(place, values, proc) else {
        return false;
    };
    if table >= program.tables.len() as u64 {
        return false;
    }
    let len = program.tables[table as usize].len() as u64;
    let more = step * (program.lanes - 1);
    at < len && more < len - at
}

/// Checks the operation, where these are the values of the open loops on this processor, and notes the lines that it touches.
pub(crate) fn check_op(
    op: &Op,
    program: &Program,
    values: &[u64],
    proc: u64,
    lines: &mut [LineUse],
) -> Result<(), Offence>
    requires within { IsTrue
        (is_op_within program.now.modulus (plain_op op.now) (length values.now)) }
    requires lines { length lines.old ≡ line_count (plain_program program.now) }
    requires proc { proc < 256 }
    ensures { let p = plain_program program.now in
        let step = op_step program.now op.now values.now proc in
        AnswersStep result p proc step lines.old lines.new }
{
    let fit = registers_fit(program, op);
    match op {
        Op::Load { array, place, .. } => {
            let Some(at) = array_place(program, place, values, proc) else {
                return Err(Offence::Place);
            };
            if fit {
                let address = program.address(*array, at);
                touch(program, address, proc as u8, false, lines);
            }
        }
        Op::Store { array, place, .. } => {
            let Some(at) = array_place(program, place, values, proc) else {
                return Err(Offence::Place);
            };
            if fit {
                let address = program.address(*array, at);
                touch(program, address, proc as u8, true, lines);
            }
        }
        Op::MulTable {
            table,
            place,
            step,
            ..
        } => {
            if !is_in_table(program, *table, place, *step, values, proc) {
                return Err(Offence::Place);
            }
        }
        _ => {}
    }
    if fit { Ok(()) } else { Err(Offence::Register) }
}

/// Checks the actions of the statement, where the first `depth` values are those of the open loops, up to the first
/// that is not sound. The count is raised by the actions that are.
#[cycle(walk)]
pub(crate) fn walk_stmt(
    stmt: &Live<'_>,
    worker: &Worker<'_>,
    values: &mut [u64; MAX_DEPTH],
    depth: usize,
    count: &mut u64,
    lines: &mut [LineUse],
) -> Result<(), Offence>
    requires within { IsTrue
        (is_stmt_within (program_of worker.now).modulus (plain_live stmt.now) depth) }
    requires depth { depth ≤ 64 }
    requires few { count.old + len_of_stmt (plain_live stmt.now) < 2 ^ 64 }
    requires lines { length lines.old ≡ line_count (program_of worker.now) }
    requires proc { worker.now.proc < 256 }
    ensures walk { let p = program_of worker.now in let q = worker.now.proc in
        let steps = steps_of_stmt p (plain_live stmt.now) (take depth values.old) q in
        Answers result count.new lines.new (walked p q steps count.old lines.old) }
    ensures values { take depth values.new ≡ take depth values.old }
{
    match stmt {
        Live::Loop { count: turns, body } => {
            for turn in 0..*turns {
                values[depth] = turn;
                walk_body(body, worker, values, depth + 1, count, lines)?;
            }
        }
        Live::Do(op) => {
            check_op(op, worker.program, &values[..depth], worker.proc, lines)?;
            *count += 1;
        }
    }
    Ok(())
}

/// Checks the actions of the statements likewise.
#[cycle(walk)]
pub(crate) fn walk_body(
    body: &[Live<'_>],
    worker: &Worker<'_>,
    values: &mut [u64; MAX_DEPTH],
    depth: usize,
    count: &mut u64,
    lines: &mut [LineUse],
) -> Result<(), Offence>
    requires within { IsTrue
        (is_body_within (program_of worker.now).modulus (plain_lives body.now) depth) }
    requires depth { depth ≤ 64 }
    requires few { count.old + len_of_body (plain_lives body.now) < 2 ^ 64 }
    requires lines { length lines.old ≡ line_count (program_of worker.now) }
    requires proc { worker.now.proc < 256 }
    ensures walk { let p = program_of worker.now in let q = worker.now.proc in
        let steps = steps_of_body p (plain_lives body.now) (take depth values.old) q in
        Answers result count.new lines.new (walked p q steps count.old lines.old) }
    ensures values { take depth values.new ≡ take depth values.old }
{
    for stmt in body {
        walk_stmt(stmt, worker, values, depth, count, lines)?;
    }
    Ok(())
}
