// Straight code.

ghost use Rattle.std.specs.Prelude.{◌≡◌, ◌<◌, ◌≤◌, length, drop, All};
ghost use Rattle.par_machine.specs.Instruction.{IsClosed};
ghost use Rattle.par_machine.specs.Position.{resting};

use icode::program::Op;

/// How many loops may be open at once.
pub(crate) const OPEN_LOOPS: u64 = 64;

/// Straight code, whose loops are jumps back.
#[derive(Drop)]
pub(crate) enum Instruction {
    /// One action, where `depth` loops are open.
    Act { op: Op, depth: u64 },
    /// The end of a loop's body that begins at `start`. The loop's variable runs up to `last`.
    Again { start: u64, last: u64, depth: u64 },
}

/// Where a cursor comes to rest that goes on from this place: at the next action.
#[inline]
pub(crate) fn rest(code: &[Instruction], from: u64, values: &mut [u64]) -> u64
    requires from { from ≤ length code.now }
    requires values { length values.old ≡ 64 }
    requires closed { All IsClosed code.now }
    ensures at { result ≡ (resting (drop from code.now) from values.old).at }
    ensures values { values.new ≡ (resting (drop from code.now) from values.old).values }
{
    let mut at = from;
    while at < code.len() as u64 {
        match &code[at as usize] {
            Instruction::Act { .. } => return at,
            Instruction::Again { start, last, depth } => {
                let value = values[*depth as usize];
                if value < *last {
                    values[*depth as usize] = value + 1;
                    return *start;
                }
                values[*depth as usize] = 0;
            }
        }
        at += 1;
    }
    at
}
