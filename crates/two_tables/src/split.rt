// Statements where a table is in two factors.

ghost use Rattle.std.specs.Prelude.{◌≡◌, ◌++◌, map, IfOk, OnOk};
ghost use Rattle.icode.specs.Plain.{MulTable, plain_expr, plain_op, plain_stmt, plain_body, plain_phases};
ghost use Rattle.two_tables.specs.Places.{place_in_first, place_in_second};
ghost use Rattle.two_tables.specs.Factored.{factored_op, factored_stmt, factored_body};
ghost use Rattle.two_tables.specs.Views.{plain_cut, plain_split, plain_stmts};

use crate::factors::Cut;
use crate::places::{place_in_first, place_in_second};
use icode::program::{Expr, Op, Stmt};
use memory::NoMemory;
use std::alloc::Global;

/// The first factor takes the place of a table, the second has a place of its own, and a register has the first product.
#[derive(Clone, Copy, Drop)]
pub(crate) struct Split {
    pub cut: Cut,
    pub table: u64,
    pub second: u64,
    pub register: u64,
}

// The product by an entry of the first factor.
fn first_product(alloc: Global, split: Split, source: u64, place: &Expr) -> Result<Op, NoMemory>
    ensures { IfOk result (λ op. plain_op op ≡ MulTable split.register source split.table
        (place_in_first (plain_cut split.cut) (plain_expr place.now)) 0) }
{
    let place = place_in_first(alloc, split.cut, place)?;
    Ok(Op::MulTable {
        register: split.register,
        source,
        table: split.table,
        place,
        step: 0,
    })
}

// The product of that by an entry of the second.
fn second_product(
    alloc: Global,
    split: Split,
    register: u64,
    place: &Expr,
    step: u64,
) -> Result<Op, NoMemory>
    ensures { IfOk result (λ op. plain_op op ≡ MulTable register split.register split.second
        (place_in_second (plain_cut split.cut) (plain_expr place.now)) step) }
{
    let place = place_in_second(alloc, split.cut, place)?;
    Ok(Op::MulTable {
        register,
        source: split.register,
        table: split.second,
        place,
        step,
    })
}

fn push_op(alloc: Global, split: Split, op: &Op, made: &mut Vec<Stmt>) -> Result<(), NoMemory>
    ensures { OnOk result (plain_stmts made.new.items
        ≡ plain_stmts made.old.items ++ factored_op (plain_split split) (plain_op op.now)) }
{
    if let Op::MulTable {
        register,
        source,
        table,
        place,
        step,
    } = op
    {
        if *table == split.table {
            let first = first_product(alloc, split, *source, place)?;
            let second = second_product(alloc, split, *register, place, *step)?;
            made.push(Stmt::Do(first))?;
            made.push(Stmt::Do(second))?;
            return Ok(());
        }
    }
    let op = op.copied(alloc)?;
    made.push(Stmt::Do(op))?;
    Ok(())
}

fn push_stmt(alloc: Global, split: Split, stmt: &Stmt, made: &mut Vec<Stmt>) -> Result<(), NoMemory>
    ensures { OnOk result (plain_stmts made.new.items
        ≡ plain_stmts made.old.items ++ factored_stmt (plain_split split) (plain_stmt stmt.now)) }
{
    match stmt {
        Stmt::Loop { count, body } => {
            let mut inside = Vec::new(alloc);
            for inner in body {
                push_stmt(alloc, split, inner, &mut inside)?;
            }
            made.push(Stmt::Loop {
                count: *count,
                body: inside,
            })?;
            Ok(())
        }
        Stmt::Do(op) => push_op(alloc, split, op, made),
    }
}

fn split_body(alloc: Global, split: Split, body: &[Stmt]) -> Result<Vec<Stmt>, NoMemory>
    ensures { IfOk result (λ made. plain_body made.items
        ≡ factored_body (plain_split split) (plain_body body.now)) }
{
    let mut made = Vec::new(alloc);
    for stmt in body {
        push_stmt(alloc, split, stmt, &mut made)?;
    }
    Ok(made)
}

/// The phases, where products by entries of the table are two products.
pub(crate) fn split_phases(
    alloc: Global,
    split: Split,
    phases: &[Vec<Stmt>],
) -> Result<Vec<Vec<Stmt>>, NoMemory>
    ensures { IfOk result (λ made. plain_phases made.items
        ≡ map (factored_body (plain_split split)) (plain_phases phases.now)) }
{
    let mut made = Vec::new(alloc);
    for body in phases {
        let body = split_body(alloc, split, body)?;
        made.push(body)?;
    }
    Ok(made)
}
