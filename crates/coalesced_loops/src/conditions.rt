// Whether places go on from round to round of two loops, one in the other.

ghost use Rattle.std.specs.Prelude.{◌≡◌, ◌+◌, ◌^◌, ◌<◌};
ghost use Rattle.icode.specs.Plain.{plain_expr, plain_op, plain_body};
ghost use Rattle.coalesced_loops.specs.Coalesced.{place_goes_on, op_goes_on, body_goes_on};

use icode::program::{Expr, Op, Stmt};
use nests::{are_linear, stride};

// Whether a linear place goes in a step of the loop at this depth as far as in `inner` steps of the next loop.
fn place_goes_on(depth: u64, inner: u64, place: &Expr) -> bool
    requires { depth + 1 < 2 ^ 64 }
    ensures { result ≡ place_goes_on depth inner (plain_expr place.now) }
{
    are_linear(&place.parts)
        && stride(depth, &place.parts) as u128
            == inner as u128 * stride(depth + 1, &place.parts) as u128
}

fn op_goes_on(depth: u64, inner: u64, op: &Op) -> bool
    requires { depth + 1 < 2 ^ 64 }
    ensures { result ≡ op_goes_on depth inner (plain_op op.now) }
{
    match op {
        Op::Load { place, .. } => place_goes_on(depth, inner, place),
        Op::Store { place, .. } => place_goes_on(depth, inner, place),
        Op::MulTable { place, .. } => place_goes_on(depth, inner, place),
        Op::Zero { .. } => true,
        Op::Add { .. } => true,
        Op::Sub { .. } => true,
        Op::Neg { .. } => true,
        Op::MulConst { .. } => true,
        Op::Tile { .. } => true,
    }
}

/// Whether the statements are operations alone, all of whose places go on so.
pub(crate) fn body_goes_on(depth: u64, inner: u64, body: &[Stmt]) -> bool
    requires { depth + 1 < 2 ^ 64 }
    ensures { result ≡ body_goes_on depth inner (plain_body body.now) }
{
    for stmt in body {
        match stmt {
            Stmt::Loop { .. } => return false,
            Stmt::Do(op) => {
                if !op_goes_on(depth, inner, op) {
                    return false;
                }
            }
        }
    }
    true
}
