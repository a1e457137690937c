// Kernels: their code, the registers of their outputs, and how many registers they use.

ghost use Rattle.tree_model.specs.Breakdown.{breakdown_of};
ghost use Rattle.tree_model.specs.Chosen.{IsWholeTree};

use crate::contexts::{context, tree_of};
use kernel_gen::{Kernel, KernelOp, kernel};
use memory::NoMemory;
use std::alloc::{AllocError, Global};
use std::fmt::Write;
use std::test::Fail;
use tree_model::{Ctx, Tree, admissible};
use worked_rows::check;

// A request, a tree of its size, and its kernel. The twiddle factors of a step by strides follow their row.
const ROWS: &str = "\
dft 2 mod 15 root 4; leaf 2|add 2 0 1, mul 3 1 4, add 4 0 3, outputs 2 4, registers 5
dft 4 mod 17 root 4; ct 2 2|add 4 0 2, sub 5 0 2, add 6 1 3, sub 7 1 3, mul 8 7 4, add 9 4 6, sub 10 4 6, add 11 5 8, sub 12 5 8, outputs 9 11 10 12, registers 13
dft 2x2 mod 17 root 16x16; dim 2 2|add 4 0 1, sub 5 0 1, add 6 2 3, sub 7 2 3, add 8 4 6, sub 9 4 6, add 10 5 7, sub 11 5 7, outputs 8 10 9 11, registers 12
";

// The instruction by its word and numbers.
fn write_instruction(text: &mut String, instruction: &KernelOp) -> Result<(), AllocError> {
    match *instruction {
        KernelOp::Add {
            register,
            left,
            right,
        } => write!(text, "add {register} {left} {right}, "),
        KernelOp::Sub {
            register,
            left,
            right,
        } => write!(text, "sub {register} {left} {right}, "),
        KernelOp::Neg { register, source } => write!(text, "neg {register} {source}, "),
        KernelOp::Mul {
            register,
            source,
            factor,
        } => write!(text, "mul {register} {source} {factor}, "),
    }
}

fn write_kernel(text: &mut String, made: &Kernel) -> Result<(), AllocError> {
    for instruction in &made.code {
        write_instruction(text, instruction)?;
    }
    write!(text, "outputs")?;
    for output in &made.outputs {
        write!(text, " {output}")?;
    }
    write!(text, ", registers {}", made.regs)
}

#[tactic(auto, using(crate::proofs::Whole::whole_stands))]
fn whole_kernel(alloc: Global, c: &Ctx, tree: &Tree) -> Result<Kernel, NoMemory>
    requires { IsWholeTree c.now (breakdown_of tree.now) }
{
    let made = kernel(alloc, c, tree)?;
    Ok(made)
}

fn kernel_text(alloc: Global, request: &str, tree: &str) -> Result<String, Fail> {
    let c = context(request)?;
    let tree = tree_of(alloc, tree)?;
    if !admissible(&c, &tree) {
        return Ok("not admissible".to_string(alloc)?);
    }
    let made = whole_kernel(alloc, &c, &tree)?;
    let mut text = String::new(alloc);
    write_kernel(&mut text, &made)?;
    Ok(text)
}

fn answer(alloc: Global, question: &str) -> Result<String, Fail> {
    let (request, tree) = question.split_once("; ").ok_or("a tree")?;
    kernel_text(alloc, request, tree)
}

#[test]
fn kernels(rt: HostRuntime) -> Result<(), Fail> {
    check(rt.alloc(), ROWS, answer)
}
