// Operations with one loop less around them.

ghost use Rattle.std.specs.Prelude.{◌≡◌, ◌++◌, map, IfOk, OnOk};
ghost use Rattle.icode.specs.Plain.{plain_expr, plain_part, plain_op, plain_body};
ghost use Rattle.nests.specs.Views.{plain_parts};
ghost use Rattle.coalesced_loops.specs.Coalesced.{lifted_depth, lifted_parts, lifted_place, lifted_op, lifted_body};
ghost use Rattle.coalesced_loops.specs.Views.{lifted_part};

use icode::program::{Expr, Op, Part, Stmt};
use memory::NoMemory;
use std::alloc::Global;

fn lifted_depth(depth: u64, of: u64) -> u64
    ensures { result ≡ lifted_depth depth of }
{
    if depth < of { of - 1 } else { of }
}

// The part, unless it is a multiple of the value of the loop at this depth.
fn push_part(alloc: Global, depth: u64, part: &Part, made: &mut Vec<Part>) -> Result<(), NoMemory>
    ensures { OnOk result (map plain_part made.new.items
        ≡ map plain_part made.old.items ++ lifted_part depth (plain_part part.now)) }
{
    if let Part::Var { depth: of, factor } = part {
        if *of != depth {
            made.push(Part::Var {
                depth: lifted_depth(depth, *of),
                factor: *factor,
            })?;
        }
        return Ok(());
    }
    let copy = part.copied(alloc)?;
    made.push(copy)?;
    Ok(())
}

fn lifted_parts(alloc: Global, depth: u64, parts: &[Part]) -> Result<Vec<Part>, NoMemory>
    ensures { IfOk result
        (λ made. plain_parts made.items ≡ lifted_parts depth (plain_parts parts.now)) }
{
    let mut made = Vec::new(alloc);
    for part in parts {
        push_part(alloc, depth, part, &mut made)?;
    }
    Ok(made)
}

fn lifted_place(alloc: Global, depth: u64, place: &Expr) -> Result<Expr, NoMemory>
    ensures { IfOk result
        (λ made. plain_expr made ≡ lifted_place depth (plain_expr place.now)) }
{
    let parts = lifted_parts(alloc, depth, &place.parts)?;
    Ok(Expr {
        constant: place.constant,
        parts,
    })
}

fn lifted_op(alloc: Global, depth: u64, op: &Op) -> Result<Op, NoMemory>
    ensures { IfOk result (λ made. plain_op made ≡ lifted_op depth (plain_op op.now)) }
{
    match op {
        Op::Load {
            register,
            array,
            place,
        } => Ok(Op::Load {
            register: *register,
            array: *array,
            place: lifted_place(alloc, depth, place)?,
        }),
        Op::Store {
            array,
            place,
            register,
        } => Ok(Op::Store {
            array: *array,
            place: lifted_place(alloc, depth, place)?,
            register: *register,
        }),
        Op::MulTable {
            register,
            source,
            table,
            place,
            step,
        } => Ok(Op::MulTable {
            register: *register,
            source: *source,
            table: *table,
            place: lifted_place(alloc, depth, place)?,
            step: *step,
        }),
        _ => Ok(op.copied(alloc)?),
    }
}

/// The operations where the loop at this depth is no more, and those in it stand one higher.
pub(crate) fn lifted_body(alloc: Global, depth: u64, body: &[Stmt]) -> Result<Vec<Stmt>, NoMemory>
    ensures { IfOk result
        (λ made. plain_body made.items ≡ lifted_body depth (plain_body body.now)) }
{
    let mut made = Vec::new(alloc);
    for stmt in body {
        if let Stmt::Do(op) = stmt {
            let op = lifted_op(alloc, depth, op)?;
            made.push(Stmt::Do(op))?;
        }
    }
    Ok(made)
}
