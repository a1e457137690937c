// What becomes of a program before it is one on words.
ghost use Rattle.std.specs.Prelude.{◌≡◌, ◌≢◌, ℕ, IfOk};
ghost use Rattle.icode.specs.Machine.{IsApart};
ghost use Rattle.icode.specs.Program.{plain_program, code_of, Fits};
ghost use Rattle.loop_lanes.specs.Lanes.{IsLanes};
ghost use Rattle.fast_main.specs.Options.Asked.{IsLaneCount};
ghost use Rattle.fast_main.specs.Translation.{has_cheap_products, laned_if_coalesced, on_several, on_lanes, ending_at, ending_on, ending_of, prepared};

use crate::Status;
use crate::lines::statement_line;
use coalesced_loops::coalesce_loops;
use fused_loops::{LARGE_SIZE, fuse_loops};
use icode::program::Program;
use interchange::interchange;
use loop_lanes::{Obstacle, first_obstacle, lane_loops};
use memory::NoMemory;
use renumbered_registers::renumber_registers;
use std::alloc::Global;
use two_tables::{LARGE_TABLE, factor_tables};
use word_code::laziness::WordSize;

/// Whether two products cost less than an entry of a large table.
fn has_cheap_products(size: WordSize) -> bool
    ensures { result ≡ has_cheap_products size }
{
    match size {
        WordSize::Of16 => true,
        WordSize::Of32 => true,
        WordSize::Of52 => true,
        WordSize::Of64 => false,
    }
}

// The program on these lanes with its loops coalesced, if it can be laned so, and else the program.
fn lane_if_coalesced(alloc: Global, lanes: u64, program: Program) -> Result<Program, NoMemory>
    requires lanes { IsLanes lanes }
    requires others { program.lanes ≢ lanes }
    ensures { IfOk result
        (λ made. plain_program made ≡ laned_if_coalesced lanes (plain_program program)) }
{
    let coalesced = coalesce_loops(alloc, &program)?;
    let made = lane_loops(alloc, lanes, coalesced)?;
    if made.lanes == lanes {
        return Ok(made);
    }
    Ok(program)
}

// The program on these lanes as its loops are, or else with them coalesced, and else the program.
fn put_on_several(alloc: Global, lanes: u64, program: Program) -> Result<Program, NoMemory>
    requires { IsLanes lanes }
    ensures { IfOk result
        (λ made. plain_program made ≡ on_several lanes (plain_program program)) }
{
    let there = lane_loops(alloc, lanes, program)?;
    if there.lanes == lanes {
        return Ok(there);
    }
    let made = lane_if_coalesced(alloc, lanes, there)?;
    Ok(made)
}

// The program where registers are renumbered and loops interchanged, and where rounds of loops become lanes.
fn put_on_lanes(alloc: Global, lanes: u64, program: Program) -> Result<Program, NoMemory>
    requires { IsLaneCount lanes }
    ensures { IfOk result
        (λ made. plain_program made ≡ on_lanes lanes (plain_program program)) }
{
    let numbered = renumber_registers(alloc, program)?;
    let program = interchange(numbered);
    if lanes == 1 {
        return Ok(program);
    }
    let made = put_on_several(alloc, lanes, program)?;
    Ok(made)
}

// How a call ends that writes the text of a program which stays at one lane because of this.
fn ending_at(program: &Program, obstacle: Option<Obstacle>) -> Result<Status, NoMemory>
    ensures { IfOk result (λ status. status ≡ ending_at (plain_program program.now) obstacle) }
{
    match obstacle {
        None => Ok(Status::Success),
        Some(Obstacle::Lanes) => Ok(Status::Success),
        Some(Obstacle::Registers) => Ok(Status::OneLaneOfRegisters),
        Some(
            Obstacle::Statement {
                phase,
                number,
                fault,
            },
        ) => {
            let line = statement_line(program, phase, number)?;
            Ok(Status::OneLane { line, fault })
        }
    }
}

// How a call ends that writes the text of a program which was put on these lanes if it can be.
fn ending_on(alloc: Global, lanes: u64, program: &Program) -> Result<Status, NoMemory>
    requires { IsLaneCount lanes }
    ensures { IfOk result (λ status. status ≡ ending_on lanes (plain_program program.now)) }
{
    if lanes == 1 {
        return Ok(Status::Success);
    }
    if program.lanes != 1 {
        return Ok(Status::Success);
    }
    let coalesced = coalesce_loops(alloc, program)?;
    let obstacle = first_obstacle(alloc, lanes, &coalesced)?;
    let status = ending_at(program, obstacle)?;
    Ok(status)
}

/// A program as it is put on words, and how a call ends that writes its text.
#[derive(Drop)]
pub(crate) struct Prepared {
    pub(crate) program: Program,
    pub(crate) ending: Status,
}

/// The program on lanes, where nests go over the blocks of large arrays together, and large tables are in two factors if
/// products are cheap.
pub(crate) fn prepare(
    alloc: Global,
    size: WordSize,
    lanes: u64,
    program: Program,
) -> Result<Prepared, NoMemory>
    requires lanes { IsLaneCount lanes }
    requires fits { Fits program }
    requires apart { (phase : ℕ) → IsApart (code_of program) phase }
    ensures program { IfOk result
        (λ made. plain_program made.program ≡ prepared size lanes (plain_program program)) }
    ensures ending { IfOk result (λ made. made.ending ≡ ending_of lanes (plain_program program)) }
{
    let laned = put_on_lanes(alloc, lanes, program)?;
    let ending = ending_on(alloc, lanes, &laned)?;
    let blocks = fuse_loops(alloc, LARGE_SIZE, laned)?;
    if !has_cheap_products(size) {
        return Ok(Prepared {
            program: blocks,
            ending,
        });
    }
    let program = factor_tables(alloc, LARGE_TABLE, blocks)?;
    Ok(Prepared { program, ending })
}
