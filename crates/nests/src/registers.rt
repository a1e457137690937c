// Whether statements read the registers alone that they have put, each putting the next one: then no round reads what another
// has left in a register.

ghost use Rattle.std.specs.Prelude.{◌≡◌, ◌+◌, ◌^◌, ◌<◌, true};
ghost use Rattle.icode.specs.Plain.{plain_op, plain_body};
ghost use Rattle.nests.specs.Rounds.{is_fresh, put_after, are_fresh};

use icode::program::{Op, Stmt};

/// Whether the operation puts the next register, or those from it on, and reads registers before it.
pub fn is_fresh(lanes: u64, next: u128, op: &Op) -> bool
    ensures { result ≡ is_fresh lanes next (plain_op op.now) }
{
    let is_next = |register: u64| register as u128 == next;
    let is_put = |register: u64| (register as u128) < next;
    match op {
        Op::Load { register, .. } => is_next(*register),
        Op::Store { register, .. } => is_put(*register),
        Op::Zero { register } => is_next(*register),
        Op::Add {
            register,
            left,
            right,
        } => is_next(*register) && (is_put(*left) && is_put(*right)),
        Op::Sub {
            register,
            left,
            right,
        } => is_next(*register) && (is_put(*left) && is_put(*right)),
        Op::Neg { register, source } => is_next(*register) && is_put(*source),
        Op::MulConst {
            register,
            source,
            ..
        } => is_next(*register) && is_put(*source),
        Op::MulTable {
            register,
            source,
            ..
        } => is_next(*register) && is_put(*source),
        Op::Tile { register, source } => {
            is_next(*register) && *source as u128 + lanes as u128 <= next
        }
    }
}

/// The register after those that have been put.
pub fn put_after(lanes: u64, next: u128, op: &Op) -> u128
    requires fresh { is_fresh lanes next (plain_op op.now) ≡ true }
    requires small { next < 2 ^ 65 }
    ensures value { result ≡ put_after lanes next (plain_op op.now) }
    ensures small { result < 2 ^ 65 }
{
    match op {
        Op::Store { .. } => next,
        Op::Tile { register, .. } => *register as u128 + lanes as u128,
        Op::Load { register, .. } => *register as u128 + 1,
        Op::Zero { register } => *register as u128 + 1,
        Op::Add { register, .. } => *register as u128 + 1,
        Op::Sub { register, .. } => *register as u128 + 1,
        Op::Neg { register, .. } => *register as u128 + 1,
        Op::MulConst { register, .. } => *register as u128 + 1,
        Op::MulTable { register, .. } => *register as u128 + 1,
    }
}

/// Whether they are straight statements, which read no register that they have not put.
pub fn are_fresh(lanes: u64, body: &[Stmt]) -> bool
    ensures { result ≡ are_fresh lanes 0 (plain_body body.now) }
{
    let mut next = 0;
    for stmt in body {
        match stmt {
            Stmt::Loop { .. } => return false,
            Stmt::Do(op) => {
                if !is_fresh(lanes, next, op) {
                    return false;
                }
                next = put_after(lanes, next, op);
            }
        }
    }
    true
}
