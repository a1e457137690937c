// At which lines of its listing the statements of a program begin.

ghost use Rattle.std.specs.Prelude.{◌≡◌, ◌+◌, IfOk};
ghost use Rattle.icode.specs.Plain.{plain_stmt, plain_body, plain_phases};
ghost use Rattle.icode.specs.Program.{plain_program};
ghost use Rattle.fast_main.specs.Lines.{lines_of_stmt, lines_of_body, line_in_body, line_in_phases, statement_line};

use icode::program::{Program, Stmt};
use memory::NoMemory;

// No memory holds a listing of 2^64 lines.
fn sum(left: u64, right: u64) -> Result<u64, NoMemory>
    ensures { IfOk result (λ sum. sum ≡ left + right) }
{
    match left.checked_add(right) {
        Some(sum) => Ok(sum),
        None => Err(NoMemory),
    }
}

#[cycle(lines)]
fn lines_of_stmt(stmt: &Stmt) -> Result<u64, NoMemory>
    ensures { IfOk result (λ lines. lines ≡ lines_of_stmt (plain_stmt stmt.now)) }
{
    match stmt {
        Stmt::Loop { body, .. } => {
            let lines = lines_of_body(body)?;
            sum(lines, 2)
        }
        Stmt::Do(_) => Ok(1),
    }
}

#[cycle(lines)]
fn lines_of_body(body: &[Stmt]) -> Result<u64, NoMemory>
    ensures { IfOk result (λ lines. lines ≡ lines_of_body (plain_body body.now)) }
{
    let mut lines = 0;
    for stmt in body {
        let more = lines_of_stmt(stmt)?;
        lines = sum(lines, more)?;
    }
    Ok(lines)
}

// The line of the statement of this number, where the first begins at `first`.
fn line_in_body(number: u64, first: u64, body: &[Stmt]) -> Result<u64, NoMemory>
    ensures { IfOk result (λ line. line ≡ line_in_body number 0 first (plain_body body.now)) }
{
    let mut line = first;
    for (at, stmt) in body.iter().enumerate() {
        if at as u64 == number {
            return Ok(line);
        }
        let more = lines_of_stmt(stmt)?;
        line = sum(line, more)?;
    }
    Ok(line)
}

// The same in the phase of this number, where the first phase begins at `first`.
fn line_in_phases(
    phase: u64,
    number: u64,
    first: u64,
    phases: &[Vec<Stmt>],
) -> Result<u64, NoMemory>
    ensures { IfOk result (λ line. line ≡ line_in_phases phase number 0 first (plain_phases phases.now)) }
{
    let mut line = first;
    for (at, body) in phases.iter().enumerate() {
        if at as u64 == phase {
            let begun = sum(line, 1)?;
            let found = line_in_body(number, begun, body)?;
            return Ok(found);
        }
        let more = lines_of_body(body)?;
        let whole = sum(more, 2)?;
        line = sum(line, whole)?;
    }
    Ok(line)
}

/// At which line the statement of this number in the phase begins, both counted from 0, and lines from 1.
pub(crate) fn statement_line(program: &Program, phase: u64, number: u64) -> Result<u64, NoMemory>
    ensures { IfOk result (λ line. line ≡ statement_line (plain_program program.now) phase number) }
{
    let first = program.tables.len() as u64 + 2;
    let line = line_in_phases(phase, number, first, &program.phases)?;
    Ok(line)
}
