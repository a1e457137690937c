// In which order runs put their registers, and how many they put.

ghost use Rattle.std.specs.Prelude.{◌≡◌, ◌+◌, ℕ};
ghost use Rattle.std.specs.List.{list_all};
ghost use Rattle.icode.specs.Plain.{plain_op, plain_body, plain_phases};
ghost use Rattle.nests.specs.Rounds.{put_after};
ghost use Rattle.renumbered_registers.specs.Renumbered.{most_put, are_in_order, registers_for};

use icode::program::{Op, Stmt};
use nests::{is_fresh, put_after};

/// Whether each run puts its registers in order already.
#[cycle(in_order)]
pub(crate) fn are_in_order(lanes: u64, body: &[Stmt]) -> bool
    ensures { result ≡ are_in_order lanes 0 (plain_body body.now) }
{
    let mut next = 0;
    for stmt in body {
        match stmt {
            Stmt::Loop { body: inside, .. } => {
                if !are_in_order(lanes, inside) {
                    return false;
                }
                next = 0;
            }
            Stmt::Do(op) => {
                if !is_fresh(lanes, next, op) {
                    return false;
                }
                next = put_after(lanes, next, op);
            }
        }
    }
    true
}

/// Whether the runs of all phases do.
pub(crate) fn are_phases_in_order(lanes: u64, phases: &[Vec<Stmt>]) -> bool
    ensures { result ≡ list_all (are_in_order lanes 0) (plain_phases phases.now) }
{
    for body in phases {
        if !are_in_order(lanes, body) {
            return false;
        }
    }
    true
}

// How many registers the operation puts.
fn puts_by(lanes: u64, op: &Op) -> u64
    ensures { (next : ℕ) → put_after lanes next (plain_op op.now) ≡ next + result }
{
    match op {
        Op::Load { .. } => 1,
        Op::Store { .. } => 0,
        Op::Zero { .. } => 1,
        Op::Add { .. } => 1,
        Op::Sub { .. } => 1,
        Op::Neg { .. } => 1,
        Op::MulConst { .. } => 1,
        Op::MulTable { .. } => 1,
        Op::Tile { .. } => lanes,
    }
}

/// The most registers that a run puts.
#[cycle(putting)]
pub(crate) fn most_put(lanes: u64, body: &[Stmt]) -> u128
    ensures { result ≡ most_put lanes 0 (plain_body body.now) }
{
    let mut next: u128 = 0;
    let mut most: u128 = 0;
    for index in 0..body.len() {
        match &body[index] {
            Stmt::Loop { body: inside, .. } => {
                most = most.max(next).max(most_put(lanes, inside));
                next = 0;
            }
            Stmt::Do(op) => next += puts_by(lanes, op) as u128,
        }
    }
    most.max(next)
}

/// How many registers the phases need.
pub(crate) fn registers_for(lanes: u64, phases: &[Vec<Stmt>]) -> u128
    ensures { result ≡ registers_for lanes (plain_phases phases.now) }
{
    let mut most = 0;
    for body in phases {
        most = most.max(most_put(lanes, body));
    }
    most
}
