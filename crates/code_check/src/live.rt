// Statements without those that hold no action.

ghost use Rattle.std.specs.Prelude.{◌≡◌, IfOk, OnOk};
ghost use Rattle.icode.specs.Plain.{NoStmts, plain_stmt, plain_body};
ghost use Rattle.code_check.specs.Live.{plain_lives, pruned, pruned_before};
ghost use Rattle.code_check.specs.Concatenated.{concatenated};

use icode::program::{Op, Stmt};
use memory::NoMemory;
use std::alloc::Global;

/// A statement that holds an action.
#[derive(Drop)]
pub(crate) enum Live<'a> {
    Loop { count: u64, body: Vec<Live<'a>> },
    Do(&'a Op),
}

// Puts the statement after the others, if it holds an action.
#[cycle(live)]
fn keep<'a>(alloc: Global, stmt: &'a Stmt, kept: &mut Vec<Live<'a>>) -> Result<(), NoMemory>
    ensures { OnOk result (plain_lives kept.new.items
        ≡ concatenated (plain_lives kept.old.items) (pruned_before (plain_stmt stmt.now) NoStmts)) }
{
    match stmt {
        Stmt::Loop { count, body } => {
            let body = live_of(alloc, body)?;
            if !body.is_empty() {
                kept.push(Live::Loop {
                    count: *count,
                    body,
                })?;
            }
        }
        Stmt::Do(op) => kept.push(Live::Do(op))?,
    }
    Ok(())
}

/// The statements that hold an action. A walk over them does something in each turn of each loop.
#[cycle(live)]
pub(crate) fn live_of<'a>(alloc: Global, body: &'a [Stmt]) -> Result<Vec<Live<'a>>, NoMemory>
    ensures { IfOk result (λ kept. plain_lives kept.items ≡ pruned (plain_body body.now)) }
{
    let mut kept = Vec::new(alloc);
    for stmt in body {
        keep(alloc, stmt, &mut kept)?;
    }
    Ok(kept)
}
