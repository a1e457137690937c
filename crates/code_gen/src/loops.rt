// Loops.
ghost use Rattle.std.specs.Prelude.{◌≡◌, IfOk};
ghost use Rattle.code_gen.specs.PassCode.Statements.{nested};
ghost use Rattle.code_gen.specs.Views.{body_in};

use icode::program::Stmt;
use memory::NoMemory;
use std::alloc::Global;

/// The body in loops of these counts, the first the outermost.
pub(crate) fn in_loops(
    alloc: Global,
    counts: &[u64],
    body: Vec<Stmt>,
) -> Result<Vec<Stmt>, NoMemory>
    ensures { IfOk result (λ y. body_in y ≡ nested counts.now (body_in body)) }
{
    let mut inner = body;
    let mut left = counts.len();
    while left > 0 {
        left -= 1;
        let mut outer = Vec::new(alloc);
        outer.push(Stmt::Loop {
            count: counts[left],
            body: inner,
        })?;
        inner = outer;
    }
    Ok(inner)
}
