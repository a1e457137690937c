// Copies of operations and of tables.

ghost use Rattle.std.specs.Prelude.{◌≡◌, IfOk};
ghost use Rattle.icode.specs.Kinds.{HasNoPlace};
ghost use Rattle.icode.specs.Plain.{plain_expr, plain_part, plain_op, plain_tables};

use crate::program::{Expr, Op, Part};
use memory::NoMemory;
use std::alloc::Global;

impl Expr {
    /// A copy.
    #[cycle(copied)]
    pub fn copied(&self, alloc: Global) -> Result<Expr, NoMemory>
        ensures { IfOk result (λ e. plain_expr e ≡ plain_expr self.now) }
    {
        let mut parts = Vec::new(alloc);
        for part in &self.parts {
            let copy = part.copied(alloc)?;
            parts.push(copy)?;
        }
        Ok(Expr {
            constant: self.constant,
            parts,
        })
    }
}

impl Part {
    /// A copy.
    #[cycle(copied)]
    pub fn copied(&self, alloc: Global) -> Result<Part, NoMemory>
        ensures { IfOk result (λ p. plain_part p ≡ plain_part self.now) }
    {
        match self {
            Part::Proc { factor } => Ok(Part::Proc { factor: *factor }),
            Part::Var { depth, factor } => Ok(Part::Var {
                depth: *depth,
                factor: *factor,
            }),
            Part::Product {
                outer,
                inner,
                factor,
            } => Ok(Part::Product {
                outer: *outer,
                inner: *inner,
                factor: *factor,
            }),
            Part::Rem {
                of,
                divisor,
                factor,
            } => Ok(Part::Rem {
                of: of.copied(alloc)?,
                divisor: *divisor,
                factor: *factor,
            }),
            Part::Quot {
                of,
                divisor,
                factor,
            } => Ok(Part::Quot {
                of: of.copied(alloc)?,
                divisor: *divisor,
                factor: *factor,
            }),
        }
    }
}

impl Op {
    /// A copy.
    pub fn copied(&self, alloc: Global) -> Result<Op, NoMemory>
        ensures { IfOk result (λ o. plain_op o ≡ plain_op self.now) }
    {
        match self {
            Op::Load {
                register,
                array,
                place,
            } => Ok(Op::Load {
                register: *register,
                array: *array,
                place: place.copied(alloc)?,
            }),
            Op::Store {
                array,
                place,
                register,
            } => Ok(Op::Store {
                array: *array,
                place: place.copied(alloc)?,
                register: *register,
            }),
            Op::MulTable {
                register,
                source,
                table,
                place,
                step,
            } => Ok(Op::MulTable {
                register: *register,
                source: *source,
                table: *table,
                place: place.copied(alloc)?,
                step: *step,
            }),
            _ => Ok(self.copied_placeless()),
        }
    }

    /// A copy of an operation that names no place.
    fn copied_placeless(&self) -> Op
        requires { HasNoPlace (plain_op self.now) }
        ensures { plain_op result ≡ plain_op self.now }
    {
        match *self {
            Op::Zero { register } => Op::Zero { register },
            Op::Add {
                register,
                left,
                right,
            } => Op::Add {
                register,
                left,
                right,
            },
            Op::Sub {
                register,
                left,
                right,
            } => Op::Sub {
                register,
                left,
                right,
            },
            Op::Neg { register, source } => Op::Neg { register, source },
            Op::MulConst {
                register,
                source,
                factor,
            } => Op::MulConst {
                register,
                source,
                factor,
            },
            Op::Tile { register, source } => Op::Tile { register, source },
            Op::Load { .. } | Op::Store { .. } | Op::MulTable { .. } => unreachable!(),
        }
    }
}

fn copied_words(alloc: Global, words: &[u64]) -> Result<Vec<u64>, NoMemory>
    ensures { IfOk result (λ copy. copy.items ≡ words.now) }
{
    let mut copy = Vec::new(alloc);
    copy.extend_from_slice(words)?;
    Ok(copy)
}

/// A copy of a program's tables.
pub fn copied_tables(alloc: Global, tables: &[Vec<u64>]) -> Result<Vec<Vec<u64>>, NoMemory>
    ensures { IfOk result (λ copy. plain_tables copy.items ≡ plain_tables tables.now) }
{
    let mut copy = Vec::new(alloc);
    for entries in tables {
        let entries = copied_words(alloc, entries)?;
        copy.push(entries)?;
    }
    Ok(copy)
}
