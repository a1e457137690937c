// How many stores there are.

ghost use Rattle.std.specs.Prelude.{◌≡◌, ℕ, ◌^◌, ◌<◌, length};
ghost use Rattle.icode.specs.Buffers.{stores_among};
ghost use Rattle.icode.specs.Lengths.{body_stores, stmt_stores, stores_of_op};
ghost use Rattle.icode.specs.Machine.{acts};
ghost use Rattle.icode.specs.Plain.{plain_op};
ghost use Rattle.icode.specs.Program.{code_of, Fits};

use crate::program::{Op, Program, Stmt};

impl Op {
    fn stores(&self) -> u64
        ensures { result ≡ stores_of_op (plain_op self.now) }
    {
        match self {
            Op::Store { .. } => 1,
            _ => 0,
        }
    }
}

impl Stmt {
    /// The number of stores, which neither the open loops nor the processor change.
    pub(crate) fn stores(&self) -> u64
        requires fits { stmt_stores self.now < 2 ^ 64 }
        ensures { result ≡ stmt_stores self.now }
    {
        match self {
            Stmt::Loop { count, body } => {
                if *count == 0 {
                    return 0;
                }
                let mut sum = 0;
                for stmt in body {
                    sum += stmt.stores();
                }
                *count * sum
            }
            Stmt::Do(op) => op.stores(),
        }
    }
}

fn stores_of(body: &[Stmt]) -> u64
    requires fits { body_stores body.now < 2 ^ 64 }
    ensures { result ≡ body_stores body.now }
{
    let mut sum = 0;
    for stmt in body {
        sum += stmt.stores();
    }
    sum
}

impl Program {
    /// The number of stores that each processor makes in a phase.
    pub fn stores(&self, phase: u64) -> u64
        requires phase { phase < length self.now.phases.items }
        requires fits { Fits self.now }
        ensures each { (q : ℕ) → q < self.now.procs
            → result ≡ stores_among (acts (code_of self.now) phase q) }
        ensures few { result < 2 ^ 59 }
    {
        stores_of(&self.phases[phase as usize])
    }
}
