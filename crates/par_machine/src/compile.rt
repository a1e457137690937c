// From statements to straight code.

ghost use Rattle.std.specs.Prelude.{◌≡◌, ℕ, ◌+◌, ◌<◌, ◌≤◌, ◌^◌, ◌++◌, [], List, length, replicate, All, IfOk, OnOk, IsTrue};
ghost use Rattle.icode.specs.Plain.{plain_op, plain_stmt, plain_body};
ghost use Rattle.icode.specs.Limits.{is_op_within, is_stmt_within, is_body_within};
ghost use Rattle.icode.specs.Actions.{steps_of_stmt, steps_of_body};
ghost use Rattle.icode.specs.Lengths.{len_of_stmt, len_of_body};
ghost use Rattle.par_machine.specs.Plays.{IsCompiled};

use crate::cursor::Instruction;
use icode::program::Stmt;
use memory::NoMemory;
use std::alloc::Global;

/// Appends the straight code of a statement, where `depth` loops are open. A loop whose body holds
/// no action has none.
pub(crate) fn compile(
    alloc: Global,
    modulus: u64,
    stmt: &Stmt,
    depth: u64,
    code: &mut Vec<Instruction>,
) -> Result<(), NoMemory>
    requires depth { depth ≤ 64 }
    requires within { IsTrue (is_stmt_within modulus (plain_stmt stmt.now) depth) }
    ensures { OnOk result
        (IsCompiled modulus depth (len_of_stmt (plain_stmt stmt.now))
        (λ p. steps_of_stmt p (plain_stmt stmt.now)) code.old.items code.new.items) }
{
    match stmt {
        Stmt::Loop { count, body } => {
            let start = code.len() as u64;
            for inner in body {
                compile(alloc, modulus, inner, depth + 1, code)?;
            }
            if code.len() as u64 > start {
                code.push(Instruction::Again {
                    start,
                    last: *count - 1,
                    depth,
                })?;
            }
        }
        Stmt::Do(op) => {
            let op = op.copied(alloc)?;
            code.push(Instruction::Act { op, depth })?;
        }
    }
    Ok(())
}

/// The straight code of a phase.
pub(crate) fn compile_phase(
    alloc: Global,
    modulus: u64,
    body: &[Stmt],
) -> Result<Vec<Instruction>, NoMemory>
    requires within { IsTrue (is_body_within modulus (plain_body body.now) 0) }
    ensures { IfOk result
        (λ code. IsCompiled modulus 0 (len_of_body (plain_body body.now))
        (λ p. steps_of_body p (plain_body body.now)) [] code.items) }
{
    let mut code = Vec::new(alloc);
    for stmt in body {
        compile(alloc, modulus, stmt, 0, &mut code)?;
    }
    Ok(code)
}
