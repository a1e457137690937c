// The statements of nests and passes.
ghost use Rattle.std.specs.Prelude.{◌≡◌, IfOk, OnOk, All, map};
ghost use Rattle.sigma_spl.specs.Views.{plain_nest};
ghost use Rattle.code_gen.specs.Additions.{AddsTablesOfNest, AddsTablesOfPass};
ghost use Rattle.code_gen.specs.Conditions.{CanEmit};
ghost use Rattle.code_gen.specs.Sequences.{nest_between, pass_between};
ghost use Rattle.code_gen.specs.Sequences.{registers_of_nest, registers_of_pass};
ghost use Rattle.code_gen.specs.Views.{body_in, plain_host};

use crate::host::{Host, frame_of};
use crate::loops::in_loops;
use crate::site::Site;
use crate::tables::{number_multiplier, number_powers};
use crate::work::{Emitted, emit_work};
use icode::program::Array;
use memory::NoMemory;
use sigma_spl::Nest;
use std::alloc::Global;

// The statements of a nest from one array to another. A table that they use and that is not there yet is added.
fn emit_nest(
    alloc: Global,
    host: &Host,
    nest: &Nest,
    source: Array,
    target: Array,
    tables: &mut Vec<Vec<u64>>,
) -> Result<Emitted, NoMemory>
    requires { CanEmit (plain_host host.now) (plain_nest nest.now) }
    ensures body { IfOk result (λ e. body_in e.statements
        ≡ nest_between host.now nest.now tables.old source target) }
    ensures tables { OnOk result (AddsTablesOfNest host.now nest.now tables.old tables.new) }
    ensures registers { IfOk result (λ e. e.registers ≡ registers_of_nest host.now nest.now) }
{
    let frame = frame_of(host, &nest.work);
    let loops = &nest.counts[frame.first_loop as usize..];
    let powers = number_powers(alloc, &host.modulus, &nest.work, tables)?;
    let table = number_multiplier(alloc, &host.modulus, &nest.multiplier, tables)?;
    let site = Site {
        frame,
        open_loops: loops.len() as u64,
        powers,
        table,
        source,
        target,
    };
    let work = emit_work(alloc, host, nest, site)?;
    let statements = in_loops(alloc, loops, work.statements)?;
    Ok(Emitted {
        statements,
        registers: work.registers,
    })
}

/// The statements of a pass from one array to another: its nests in a row.
pub(crate) fn emit_pass(
    alloc: Global,
    host: &Host,
    nests: &[Nest],
    source: Array,
    target: Array,
    tables: &mut Vec<Vec<u64>>,
) -> Result<Emitted, NoMemory>
    requires { All (CanEmit (plain_host host.now)) (map plain_nest nests.now) }
    ensures body { IfOk result (λ e. body_in e.statements
        ≡ pass_between host.now nests.now tables.old source target) }
    ensures tables { OnOk result (AddsTablesOfPass host.now nests.now tables.old tables.new) }
    ensures registers { IfOk result (λ e. e.registers ≡ registers_of_pass host.now nests.now) }
{
    let mut statements = Vec::new(alloc);
    let mut registers: u64 = 0;
    for nest in nests {
        let mut one = emit_nest(alloc, host, nest, source, target, tables)?;
        statements.append(&mut one.statements)?;
        registers = registers.max(one.registers);
    }
    Ok(Emitted {
        statements,
        registers,
    })
}
