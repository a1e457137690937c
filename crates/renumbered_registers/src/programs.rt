// Programs whose registers are renumbered.

ghost use Rattle.std.specs.Prelude.{◌≡◌, ◌^◌, ◌<◌, ℕ, true, Some, IfOk, OnOk, option_map};
ghost use Rattle.icode.specs.Limits.{are_phases_within};
ghost use Rattle.icode.specs.Plain.{NoStmts, AndStmts, plain_stmt, plain_body, plain_phases};
ghost use Rattle.icode.specs.Program.{plain_program};
ghost use Rattle.renumbered_registers.specs.Renumbered.{no_numbers, most_put, registers_for, after_stmt};
ghost use Rattle.renumbered_registers.specs.Renumbered.{numbered_stmt, numbered_body, numbered_phases, with_numbers};
ghost use Rattle.renumbered_registers.specs.Renumbered.{renumbered};
ghost use Rattle.renumbered_registers.specs.Laws.{RenumberedLeavesTheSame, InOrderStays};
ghost use Rattle.renumbered_registers.specs.Views.{plain_numbering, body_made, phases_made};

use crate::numbering::Numbering;
use crate::operations::numbered_op;
use crate::orders::{are_phases_in_order, registers_for};
use icode::program::{Program, Stmt};
use memory::NoMemory;
use std::alloc::Global;

#[cycle(numbered)]
fn numbered_stmt(
    alloc: Global,
    lanes: u64,
    numbering: &mut Numbering,
    stmt: &Stmt,
) -> Result<Option<Stmt>, NoMemory>
    requires { most_put lanes numbering.old.next (AndStmts (plain_stmt stmt.now) NoStmts) < 2 ^ 20 }
    ensures made { IfOk result (λ made. option_map plain_stmt made
        ≡ numbered_stmt lanes (plain_numbering numbering.old) (plain_stmt stmt.now)) }
    ensures after { OnOk result (plain_numbering numbering.new
        ≡ after_stmt lanes (plain_numbering numbering.old) (plain_stmt stmt.now)) }
{
    match stmt {
        Stmt::Loop { count, body } => {
            *numbering = Numbering::new(alloc);
            match numbered_body(alloc, lanes, body)? {
                Some(body) => Ok(Some(Stmt::Loop {
                    count: *count,
                    body,
                })),
                None => Ok(None),
            }
        }
        Stmt::Do(op) => match numbered_op(alloc, lanes, numbering, op)? {
            Some(op) => Ok(Some(Stmt::Do(op))),
            None => Ok(None),
        },
    }
}

// The statements, of which a run begins here.
#[cycle(numbered)]
fn numbered_body(alloc: Global, lanes: u64, body: &[Stmt]) -> Result<Option<Vec<Stmt>>, NoMemory>
    requires { most_put lanes 0 (plain_body body.now) < 2 ^ 20 }
    ensures { IfOk result (λ made. body_made made ≡ numbered_body lanes no_numbers (plain_body body.now)) }
{
    let mut numbering = Numbering::new(alloc);
    let mut made = Vec::new(alloc);
    for stmt in body {
        match numbered_stmt(alloc, lanes, &mut numbering, stmt)? {
            Some(stmt) => made.push(stmt)?,
            None => return Ok(None),
        }
    }
    Ok(Some(made))
}

fn numbered_phases(
    alloc: Global,
    lanes: u64,
    phases: &[Vec<Stmt>],
) -> Result<Option<Vec<Vec<Stmt>>>, NoMemory>
    requires { registers_for lanes (plain_phases phases.now) < 2 ^ 20 }
    ensures { IfOk result (λ made. phases_made made ≡ numbered_phases lanes (plain_phases phases.now)) }
{
    let mut made = Vec::new(alloc);
    for body in phases {
        match numbered_body(alloc, lanes, body)? {
            Some(body) => made.push(body)?,
            None => return Ok(None),
        }
    }
    Ok(Some(made))
}

// The program with these phases, and at least so many registers.
fn with_phases(program: Program, regs: u64, phases: Vec<Vec<Stmt>>) -> Program
    requires regs { regs < 2 ^ 20 }
    requires phases { are_phases_within program.modulus (plain_phases phases.items) ≡ true }
    ensures { plain_program result
        ≡ with_numbers regs (plain_program program) (Some (plain_phases phases.items)) }
{
    Program {
        size: program.size,
        modulus: program.modulus,
        procs: program.procs,
        line: program.line,
        lanes: program.lanes,
        regs: program.regs.max(regs),
        tables: program.tables,
        phases,
    }
}

/// The program where each run numbers its registers in the order in which it puts them. It stays as it is if they are
/// in order, or if they cannot be numbered so: where a run reads a register that it has not put, where a tile's
/// registers would not stand one after the other, and where there are too many.
pub fn renumber_registers(alloc: Global, program: Program) -> Result<Program, NoMemory>
    ensures { IfOk result (λ made. plain_program made ≡ renumbered (plain_program program)) }
{
    if are_phases_in_order(program.lanes, &program.phases) {
        return Ok(program);
    }
    let regs = registers_for(program.lanes, &program.phases);
    if regs >= 1 << 20 {
        return Ok(program);
    }
    match numbered_phases(alloc, program.lanes, &program.phases)? {
        Some(phases) => Ok(with_phases(program, regs as u64, phases)),
        None => Ok(program),
    }
}

/// Where a program fits and no processor touches a line that another writes in the same phase, that holds of the
/// program with its registers renumbered, and it leaves what the program leaves, whatever the orders of turns.
#[tactic(auto, using(crate::proofs::Law::renumbered_leaves_the_same))]
pub fn renumbered_leaves_the_same()
    ensures { RenumberedLeavesTheSame }
{}

/// A program whose registers are in order already stays as it is.
#[tactic(auto, using(crate::proofs::Law::in_order_stays))]
pub fn in_order_stays()
    ensures { InOrderStays }
{}
