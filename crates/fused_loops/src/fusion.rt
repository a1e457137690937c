// Programs whose nests are fused.

ghost use Rattle.std.specs.Prelude.{◌≡◌, [], IfOk, if◌then◌else◌};
ghost use Rattle.icode.specs.Plain.{plain_stmt, plain_body, plain_phases};
ghost use Rattle.icode.specs.Program.{plain_program};
ghost use Rattle.fused_loops.specs.Fused.{waiting, fused_phase, fused_phases, fused};
ghost use Rattle.fused_loops.specs.Blocks.{blocks_of};
ghost use Rattle.fused_loops.specs.Laws.{FusedLeavesTheSame};

use crate::blocks::{Block, blocks_of, shared};
use crate::statements::fuse_stmt;
use icode::program::{Program, Stmt};
use memory::NoMemory;
use nests::is_nest;
use std::alloc::Global;

/// The words of an array that the second cache does not hold.
pub const LARGE_SIZE: u64 = 131_072;

// How many statements stand up to the last that is no nest.
fn waiting(lanes: u64, body: &[Stmt]) -> usize
    ensures { result ≡ waiting lanes (plain_body body.now) }
{
    let mut count = 0;
    for index in 0..body.len() {
        if !is_nest(lanes, &body[index]) {
            count = index + 1;
        }
    }
    count
}

// The blocks of a statement, or none if it is to stay as it is.
fn blocks_unless(
    alloc: Global,
    stays: bool,
    lanes: u64,
    stmt: &Stmt,
) -> Result<Vec<Block>, NoMemory>
    ensures { IfOk result
        (λ made. made.items ≡ (if stays then [] else blocks_of lanes (plain_stmt stmt.now))) }
{
    if stays {
        return Ok(Vec::new(alloc));
    }
    let blocks = blocks_of(alloc, lanes, stmt)?;
    Ok(blocks)
}

fn fuse_phase(alloc: Global, lanes: u64, body: Vec<Stmt>) -> Result<Vec<Stmt>, NoMemory>
    ensures { IfOk result
        (λ made. plain_body made.items ≡ fused_phase lanes (plain_body body.items)) }
{
    let mut wait = waiting(lanes, &body);
    let mut before = Vec::new(alloc);
    let mut made = Vec::new(alloc);
    for stmt in body {
        let blocks = blocks_unless(alloc, wait > 0, lanes, &stmt)?;
        fuse_stmt(shared(&before, &blocks), stmt, &mut made)?;
        before = blocks;
        wait = wait.saturating_sub(1);
    }
    Ok(made)
}

fn fuse_phases(
    alloc: Global,
    lanes: u64,
    phases: Vec<Vec<Stmt>>,
) -> Result<Vec<Vec<Stmt>>, NoMemory>
    ensures { IfOk result (λ made. plain_phases made.items
        ≡ fused_phases lanes (plain_phases phases.items)) }
{
    if phases.len() != 1 {
        return Ok(phases);
    }
    let mut phases = phases;
    let Some(body) = phases.pop() else {
        return Ok(phases);
    };
    let body = fuse_phase(alloc, lanes, body)?;
    phases.push(body)?;
    Ok(phases)
}

/// The program with its nests fused, if it is of one processor and one phase and has at least `least` words: nests that
/// come one after the other and go over the same blocks of words become one nest, and so on inward.
pub fn fuse_loops(alloc: Global, least: u64, program: Program) -> Result<Program, NoMemory>
    ensures { IfOk result (λ made. plain_program made ≡ fused least (plain_program program)) }
{
    if program.size < least || program.procs != 1 {
        return Ok(program);
    }
    let phases = fuse_phases(alloc, program.lanes, program.phases)?;
    Ok(Program {
        size: program.size,
        modulus: program.modulus,
        procs: program.procs,
        line: program.line,
        lanes: program.lanes,
        regs: program.regs,
        tables: program.tables,
        phases,
    })
}

/// Where a program fits and no processor touches a line that another writes in the same phase, that holds of the program with its
/// loops fused, and it leaves what the program leaves, whatever the orders of turns.
#[tactic(auto, using(crate::proofs::Law::fused_leaves_the_same))]
pub fn fused_leaves_the_same()
    ensures { FusedLeavesTheSame }
{}
