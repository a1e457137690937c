// Passes against places found by hand.

ghost use Rattle.tree_model.specs.Breakdown.{breakdown_of};
ghost use Rattle.tree_model.specs.Chosen.{IsWholeTree};

use crate::contexts::{context, tree_of};
use crate::stages::terms_of;
use loop_merge::merge;
use memory::NoMemory;
use perm_algebra::Affine;
use sigma_spl::{Merged, Nest};
use std::alloc::{AllocError, Global};
use std::fmt::Write;
use std::test::Fail;
use tree_model::{Ctx, Tree, admissible};
use worked_rows::check;

// A request and a tree, and the number of phases and the places of the passes.
//
// A step by strides has `k * 2 + i` before it and `i * 2 + k` after its right part. On two processors variable 0 is the
// processor's, and lines are single words, so each loads and stores its own part. On two lanes variable 0 is the lane's in the
// passes of both parts; a tile has none: its registers begin at its items 0 and 2. A step by coprime factors has
// `(3 * i + 2 * l) mod 6` before it and `(3 * k + 4 * j) mod 6` after it.
const ROWS: &str = "\
dft 4 mod 17 root 4 unroll 2; ct 2 2|1 ld 0+v0*1 ld 2+v0*1 mul 0+v0*2 mul 1+v0*2 st 0+v0*2 st 1+v0*2 ld 0+v0*1 ld 2+v0*1 st 0+v0*1 st 2+v0*1
dft 4 mod 17 root 4 procs 2 unroll 2; ct 2 2|2 ld 0+v0*1 ld 2+v0*1 mul 0+v0*2 mul 1+v0*2 st 0+v0*2 st 1+v0*2 ld 0+v0*1 ld 2+v0*1 st 0+v0*1 st 2+v0*1
dft 4 mod 17 root 4 lanes 2 unroll 2; ct 2 2|1 ld 0+v0*1 ld 2+v0*1 st 0+v0*1 st 2+v0*1 ld 0 ld 2 mul 0 mul 2 st 0 st 2 ld 0+v0*1 ld 2+v0*1 st 0+v0*1 st 2+v0*1
dft 6 mod 7 root 3 unroll 2; gt 2 3|1 ld 0+(0+v0*3+v2*2)%6*1 st 0+v0*3+v1*1 ld 0+v0*1 ld 3+v0*1 st 0+(0+v0*4)%6*1 st 0+(3+v0*4)%6*1
";

fn merged_tree(alloc: Global, c: &Ctx, tree: &Tree) -> Result<Merged, NoMemory>
    requires { IsWholeTree c.now (breakdown_of tree.now) }
{
    merge(alloc, terms_of(alloc, c, tree)?)
}

fn write_sums(text: &mut String, word: &str, sums: &[Affine]) -> Result<(), AllocError> {
    for sum in sums {
        write!(text, " {word} {sum}")?;
    }
    Ok(())
}

fn write_nest(text: &mut String, nest: &Nest) -> Result<(), AllocError> {
    write_sums(text, "ld", &nest.gathers)?;
    if let Some(multiplier) = &nest.multiplier {
        write_sums(text, "mul", &multiplier.places)?;
    }
    write_sums(text, "st", &nest.scatters)
}

fn write_phases(text: &mut String, merged: &Merged) -> Result<(), AllocError> {
    write!(text, "{}", merged.phases.len())?;
    for phase in &merged.phases {
        for pass in phase {
            for nest in pass {
                write_nest(text, nest)?;
            }
        }
    }
    Ok(())
}

fn listing(alloc: Global, merged: &Merged) -> Result<String, AllocError> {
    let mut text = String::new(alloc);
    write_phases(&mut text, merged)?;
    Ok(text)
}

fn passes_text(alloc: Global, request: &str, tree: &str) -> Result<String, Fail> {
    let c = context(request)?;
    let tree = tree_of(alloc, tree)?;
    if admissible(&c, &tree) {
        Ok(listing(alloc, &merged_tree(alloc, &c, &tree)?)?)
    } else {
        Ok("not admissible".to_string(alloc)?)
    }
}

fn answer(alloc: Global, question: &str) -> Result<String, Fail> {
    let (request, tree) = question.split_once("; ").ok_or("a tree")?;
    passes_text(alloc, request, tree)
}

#[test]
fn places_of_passes(rt: HostRuntime) -> Result<(), Fail> {
    check(rt.alloc(), ROWS, answer)
}
