// Whether the registers of an operation are there.

ghost use Rattle.std.specs.Prelude.{◌≡◌, ℕ, ◌+◌, List, nat_le};
ghost use Rattle.icode.specs.Program.{op_step};
ghost use Rattle.code_check.specs.Walk.{registers_fit};

use icode::program::{Op, Program};

fn ends_by(first: u64, count: u64, end: u64) -> bool
    ensures { result ≡ nat_le (first + count) end }
{
    first <= end && count <= end - first
}

/// Whether all registers of the operation are there, and those of a tile don't meet.
pub(crate) fn registers_fit(program: &Program, op: &Op) -> bool
    ensures { (vs : List ℕ) (q : ℕ) → result
        ≡ registers_fit program.now.regs program.now.lanes
        (op_step program.now op.now vs q).action }
{
    let regs = program.regs;
    let lanes = program.lanes;
    match op {
        Op::Load { register, .. } => *register < regs,
        Op::Store { register, .. } => *register < regs,
        Op::Zero { register } => *register < regs,
        Op::Add {
            register,
            left,
            right,
        } => *register < regs && *left < regs && *right < regs,
        Op::Sub {
            register,
            left,
            right,
        } => *register < regs && *left < regs && *right < regs,
        Op::Neg { register, source } => *register < regs && *source < regs,
        Op::MulConst {
            register,
            source,
            ..
        } => *register < regs && *source < regs,
        Op::MulTable {
            register,
            source,
            ..
        } => *register < regs && *source < regs,
        Op::Tile { register, source } => {
            ends_by(*register, lanes, regs)
                && ends_by(*source, lanes, regs)
                && (ends_by(*register, lanes, *source) || ends_by(*source, lanes, *register))
        }
    }
}
