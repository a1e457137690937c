// How many actions there are, up to a limit.

ghost use Rattle.std.specs.Prelude.{◌≡◌, ◌^◌, ◌<◌, min};
ghost use Rattle.icode.specs.Lengths.{stmt_len, body_len};
ghost use Rattle.icode.specs.Program.{plain_program};
ghost use Rattle.code_check.specs.Refusals.{action_count};

use icode::program::{Program, Stmt};

/// The number of actions of the statement, or the limit where there are more. No loop is walked.
fn count_of(stmt: &Stmt, limit: u64) -> u64
    ensures { result ≡ min (stmt_len stmt.now) limit }
{
    match stmt {
        Stmt::Loop { count, body } => {
            let mut sum: u64 = 0;
            for inner in body {
                sum = sum.saturating_add(count_of(inner, limit)).min(limit);
            }
            count.saturating_mul(sum).min(limit)
        }
        Stmt::Do(_) => limit.min(1),
    }
}

fn count_of_body(body: &[Stmt], limit: u64) -> u64
    ensures { result ≡ min (body_len body.now) limit }
{
    let mut sum: u64 = 0;
    for stmt in body {
        sum = sum.saturating_add(count_of(stmt, limit)).min(limit);
    }
    sum
}

/// The number of actions of all phases and processors, or the limit where there are more.
pub(crate) fn count_actions(program: &Program, limit: u64) -> u64
    ensures { result ≡ min (action_count (plain_program program.now)) limit }
{
    let mut sum: u64 = 0;
    for body in &program.phases {
        sum = sum.saturating_add(count_of_body(body, limit)).min(limit);
    }
    sum.saturating_mul(program.procs).min(limit)
}
