// The statements of a kernel.
ghost use Rattle.std.specs.Prelude.{◌≡◌, ◌+◌, ◌<◌, ◌^◌, IfOk, length};
ghost use Rattle.code_gen.specs.PassCode.Statements.{straight_body};
ghost use Rattle.sigma_spl.specs.Views.{plain_nest};
ghost use Rattle.code_gen.specs.Bodies.{kernel_at, kernel_stores_at};
ghost use Rattle.code_gen.specs.Conditions.{CanStore, HasPlaces};
ghost use Rattle.code_gen.specs.Views.{body_in};

use crate::inputs::loads;
use crate::outputs::put_output;
use crate::site::{Item, Site};
use crate::statements::put_op;
use icode::program::Stmt;
use kernel_gen::{Kernel, KernelOp};
use memory::NoMemory;
use sigma_spl::Nest;
use std::alloc::Global;

fn straight(alloc: Global, code: &[KernelOp]) -> Result<Vec<Stmt>, NoMemory>
    ensures { IfOk result (λ y. body_in y ≡ straight_body code.now) }
{
    let mut body = Vec::new(alloc);
    for instruction in code {
        put_op(&mut body, instruction.op())?;
    }
    Ok(body)
}

// The stores of the outputs. The registers after the kernel's are free.
fn outputs(alloc: Global, nest: &Nest, made: &Kernel, site: Site) -> Result<Vec<Stmt>, NoMemory>
    requires stores { CanStore (length made.now.outputs.items) (plain_nest nest.now) }
    requires room { made.now.regs + length made.now.outputs.items < 2 ^ 64 }
    ensures { IfOk result (λ y. body_in y ≡ kernel_stores_at site nest.now made.now) }
{
    let mut body = Vec::new(alloc);
    for k in 0..made.outputs.len() {
        let number = k as u64;
        let item = Item {
            number,
            from: made.outputs[k],
            free: made.regs + number,
        };
        put_output(alloc, &mut body, nest, site, 0, item)?;
    }
    Ok(body)
}

/// The statements of a kernel: its inputs are loaded, its code is run, and its outputs are stored.
pub(crate) fn statements_of_kernel(
    alloc: Global,
    nest: &Nest,
    made: &Kernel,
    site: Site,
) -> Result<Vec<Stmt>, NoMemory>
    requires outputs { length made.now.outputs.items ≡ made.now.inputs }
    requires loads { HasPlaces made.now.inputs (plain_nest nest.now).gathers }
    requires stores { CanStore made.now.inputs (plain_nest nest.now) }
    requires room { made.now.regs + made.now.inputs < 2 ^ 64 }
    ensures { IfOk result (λ y. body_in y ≡ kernel_at site nest.now made.now) }
{
    let mut stores = outputs(alloc, nest, made, site)?;
    let mut code = straight(alloc, &made.code)?;
    code.append(&mut stores)?;
    let mut statements = loads(alloc, nest, made.inputs, site)?;
    statements.append(&mut code)?;
    Ok(statements)
}
