// Statements that go into the loops of others.

ghost use Rattle.std.specs.Prelude.{◌≡◌, OnOk};
ghost use Rattle.icode.specs.Plain.{plain_stmt, plain_body};
ghost use Rattle.fused_loops.specs.Fused.{put_behind, with_body, in_last, fused_stmt, fused_stmts};

use icode::program::Stmt;
use memory::NoMemory;

// The last statement goes after others, and into it, if it is a loop, these statements, their first loops being those of the last in it.
#[cycle(fusing)]
fn fuse_into(
    loops: u64,
    inside: Vec<Stmt>,
    last: Stmt,
    made: &mut Vec<Stmt>,
) -> Result<(), NoMemory>
    ensures { let changed = with_body (fused_stmts loops (plain_body inside.items)) (plain_stmt last) in
        OnOk result (plain_body made.new.items ≡ put_behind changed (plain_body made.old.items)) }
{
    match last {
        Stmt::Do(op) => made.push(Stmt::Do(op))?,
        Stmt::Loop { count, body } => {
            let mut body = body;
            fuse_stmts(loops, inside, &mut body)?;
            made.push(Stmt::Loop { count, body })?;
        }
    }
    Ok(())
}

// The statements go into the last loop.
#[cycle(fusing)]
fn fuse_in_last(loops: u64, inside: Vec<Stmt>, made: &mut Vec<Stmt>) -> Result<(), NoMemory>
    ensures { OnOk result (plain_body made.new.items
        ≡ in_last (fused_stmts loops (plain_body inside.items)) (plain_body made.old.items)) }
{
    if let Some(last) = made.pop() {
        fuse_into(loops, inside, last, made)?;
    }
    Ok(())
}

// The statements go after others, one after another.
#[cycle(fusing)]
fn fuse_stmts(loops: u64, inside: Vec<Stmt>, made: &mut Vec<Stmt>) -> Result<(), NoMemory>
    ensures { OnOk result (plain_body made.new.items
        ≡ fused_stmts loops (plain_body inside.items) (plain_body made.old.items)) }
{
    for stmt in inside {
        fuse_stmt(loops, stmt, made)?;
    }
    Ok(())
}

/// The statement goes after others, and its first `loops` loops are those of the last of them.
#[cycle(fusing)]
pub(crate) fn fuse_stmt(loops: u64, stmt: Stmt, made: &mut Vec<Stmt>) -> Result<(), NoMemory>
    ensures { OnOk result (plain_body made.new.items
        ≡ fused_stmt loops (plain_stmt stmt) (plain_body made.old.items)) }
{
    if loops == 0 {
        made.push(stmt)?;
        return Ok(());
    }
    match stmt {
        Stmt::Do(op) => made.push(Stmt::Do(op))?,
        Stmt::Loop { body, .. } => fuse_in_last(loops - 1, body, made)?,
    }
    Ok(())
}
