// The statements of a nest's work.
ghost use Rattle.std.specs.Prelude.{◌≡◌, ◌+◌, ◌<◌, ◌^◌, IfOk};
ghost use Rattle.std.specs.Option.{option_map};
ghost use Rattle.code_gen.specs.PassActions.Acts.{with_multiplier};
ghost use Rattle.sigma_spl.specs.Views.{plain_multiplier, plain_nest};
ghost use Rattle.code_gen.specs.Bodies.{IsFramed, work_at};
ghost use Rattle.code_gen.specs.Conditions.{CanEmit};
ghost use Rattle.code_gen.specs.Sequences.{registers_of_nest};
ghost use Rattle.code_gen.specs.Views.{body_in, plain_host};

use crate::copy_statements::statements_of_copies;
use crate::host::Host;
use crate::kernel_statements::statements_of_kernel;
use crate::kernels::{leaf_code, node_code};
use crate::row_statements::{statements_of_horner, statements_of_rows};
use crate::site::Site;
use crate::tile_statements::statements_of_tile;
use icode::program::Stmt;
use memory::NoMemory;
use sigma_spl::{Multiplier, Nest, Work};
use std::alloc::Global;

/// Statements, and how many registers they use.
#[derive(Drop)]
pub(crate) struct Emitted {
    pub statements: Vec<Stmt>,
    pub registers: u64,
}

// The statements, which use `used` registers, and more where items are multiplied.
fn with_registers(
    statements: Vec<Stmt>,
    multiplier: &Option<Multiplier>,
    used: u64,
    more: u64,
) -> Emitted
    requires { used + more < 2 ^ 64 }
    ensures body { body_in result.statements ≡ body_in statements }
    ensures registers { result.registers
        ≡ with_multiplier (option_map plain_multiplier multiplier.now) used more }
{
    let registers = match multiplier {
        None => used,
        Some(_) => used + more,
    };
    Emitted {
        statements,
        registers,
    }
}

/// The statements of a copy of a nest's work, inside of its loops.
pub(crate) fn emit_work(
    alloc: Global,
    host: &Host,
    nest: &Nest,
    site: Site,
) -> Result<Emitted, NoMemory>
    requires can { CanEmit (plain_host host.now) (plain_nest nest.now) }
    requires frame { IsFramed host.now nest.now site }
    requires shallow { site.open_loops + 2 < 64 }
    ensures body { IfOk result (λ e. body_in e.statements ≡ work_at host.now site nest.now) }
    ensures registers { IfOk result (λ e. e.registers ≡ registers_of_nest host.now nest.now) }
{
    match &nest.work {
        Work::Kernel { ctx, tree } => {
            let made = node_code(alloc, ctx, tree)?;
            let statements = statements_of_kernel(alloc, nest, &made, site)?;
            Ok(with_registers(statements, &nest.multiplier, made.regs, made.inputs))
        }
        Work::Short { kind, root, size } => {
            let made = leaf_code(alloc, &host.modulus, *kind, *root, *size)?;
            let statements = statements_of_kernel(alloc, nest, &made, site)?;
            Ok(with_registers(statements, &nest.multiplier, made.regs, made.inputs))
        }
        Work::Dense { size, .. } => {
            let statements = statements_of_rows(alloc, nest, *size, site)?;
            Ok(with_registers(statements, &nest.multiplier, 3, 1))
        }
        Work::Horner { size, .. } => {
            let statements = statements_of_horner(alloc, nest, *size, site)?;
            Ok(with_registers(statements, &nest.multiplier, 3, 1))
        }
        Work::Tile { lanes } => {
            let statements = statements_of_tile(alloc, nest, *lanes, site)?;
            Ok(with_registers(statements, &nest.multiplier, lanes + lanes, *lanes))
        }
        Work::Copy { size } => {
            let statements = statements_of_copies(alloc, nest, *size, site)?;
            Ok(with_registers(statements, &nest.multiplier, 1, 1))
        }
    }
}
