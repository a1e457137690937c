// Statements.
ghost use Rattle.std.specs.Prelude.{OnOk};
ghost use Rattle.icode.specs.Plain.{plain_op};
ghost use Rattle.code_gen.specs.Bodies.{AppendsOp};

use icode::program::{Op, Stmt};
use memory::NoMemory;

/// Appends the statement of an operation.
pub(crate) fn put_op(out: &mut Vec<Stmt>, op: Op) -> Result<(), NoMemory>
    ensures { OnOk result (AppendsOp out.old out.new (plain_op op)) }
{
    out.push(Stmt::Do(op))?;
    Ok(())
}
