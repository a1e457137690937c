// The factors of a transform of size 16, by hand from the identities: a step by four rows of four words. After `^` stands the root
// of a diagonal, or that of the request whose node a tree is.

use crate::contexts::{context, tree_of};
use crate::stages::{blocks_of, lanes_of};
use operators::Tensor;
use sigma_spl::Work;
use smp_rewrite::{Core, Factor, SmpSpl, Step};
use std::alloc::{AllocError, Global};
use std::fmt::Write;
use std::test::Fail;
use tree_model::admissible;
use vec_rewrite::{VecFactor, VecSpl};
use worked_rows::check;

// A request, and the factors of both phases of `ct 4 4` for processors.
const BLOCKS: &str = "\
dft 16 mod 17 root 3|blocks L(4,4); blocks b4 leaf(4)^3; blocks T(4,4)^3; blocks c4 leaf(4)^3; / 
dft 16 mod 17 root 3 procs 2 line 2|before c2 L(2,4); blocks L(2,4); blocks b2 leaf(4)^3; diagonals T(4,4)^3; / before c2 L(2,4); blocks c2 leaf(4)^3; after c2 L(4,2); 
dft 16 mod 17 root 3 procs 4 line 1|before L(4,4); blocks L(1,4); blocks leaf(4)^3; diagonals T(4,4)^3; / before L(4,4); blocks leaf(4)^3; after L(4,4); 
dft 16 mod 17 root 3 procs 4 line 2|not admissible
";

// The same for lanes.
const LANES: &str = "\
dft 16 mod 17 root 3|lanes L(4,4); lanes b4 leaf(4)^3; lanes T(4,4)^3; lanes c4 leaf(4)^3; / 
dft 16 mod 17 root 3 line 2 lanes 2|lanes L(2,4); lanes b2 leaf(4)^3; tiles b2 b2 ; after b2 L(2,2); diagonals T(4,4)^3; lanes c2 leaf(4)^3; / 
dft 16 mod 17 root 3 procs 2 line 2 lanes 2|before L(2,4); lanes L(1,4); lanes leaf(4)^3; tiles b2 ; after b2 L(2,2); diagonals T(4,4)^3; / before L(2,4); lanes leaf(4)^3; after L(4,2); 
dft 16 mod 17 root 3 line 3 lanes 3|not admissible
";

fn write_path(text: &mut String, path: &[Tensor]) -> Result<(), AllocError> {
    for tensor in path {
        match tensor {
            Tensor::Blocks(count) => write!(text, "b{count} ")?,
            Tensor::Columns(count) => write!(text, "c{count} ")?,
        }
    }
    Ok(())
}

// The tree of a kernel, with the root of its request; no longer leaf, tile or copy stands in these rows.
fn write_work(text: &mut String, work: &Work) -> Result<(), AllocError> {
    match work {
        Work::Kernel { ctx, tree } => write!(text, "{tree}^{}", ctx.request().root),
        _ => write!(text, "other work"),
    }
}

fn write_core(text: &mut String, core: &Core) -> Result<(), AllocError> {
    match core {
        Core::Piece(work) => write_work(text, work),
        Core::Turns { rows, cols } => write!(text, "L({rows},{cols})"),
        Core::Twiddles { rows, cols, root } => write!(text, "T({rows},{cols})^{root}"),
        Core::ThomasIn { rows, cols } => write!(text, "GTIN({rows},{cols})"),
        Core::ThomasOut { rows, cols } => write!(text, "GTOUT({rows},{cols})"),
    }
}

fn write_step(text: &mut String, word: &str, step: &Step) -> Result<(), AllocError> {
    write!(text, "{word} ")?;
    write_path(text, &step.path)?;
    write_core(text, &step.core)?;
    write!(text, "; ")
}

fn write_block(text: &mut String, factor: &Factor) -> Result<(), AllocError> {
    match factor {
        Factor::Blocks(step) => write_step(text, "blocks", step),
        Factor::Diagonals(step) => write_step(text, "diagonals", step),
        Factor::MoveBefore(step) => write_step(text, "before", step),
        Factor::MoveAfter(step) => write_step(text, "after", step),
    }
}

fn write_blocks(text: &mut String, factors: &[Factor]) -> Result<(), AllocError> {
    for factor in factors {
        write_block(text, factor)?;
    }
    Ok(())
}

fn write_tiles(text: &mut String, path: &[Tensor]) -> Result<(), AllocError> {
    write!(text, "tiles ")?;
    write_path(text, path)?;
    write!(text, "; ")
}

fn write_lane_factor(text: &mut String, factor: &VecFactor) -> Result<(), AllocError> {
    match factor {
        VecFactor::Lanes(step) => write_step(text, "lanes", step),
        VecFactor::Diagonals(step) => write_step(text, "diagonals", step),
        VecFactor::MoveBefore(step) => write_step(text, "before", step),
        VecFactor::MoveAfter(step) => write_step(text, "after", step),
        VecFactor::Tiles(path) => write_tiles(text, path),
    }
}

fn write_lanes(text: &mut String, factors: &[VecFactor]) -> Result<(), AllocError> {
    for factor in factors {
        write_lane_factor(text, factor)?;
    }
    Ok(())
}

fn blocks_text(alloc: Global, formula: &SmpSpl) -> Result<String, AllocError> {
    let mut text = String::new(alloc);
    write_blocks(&mut text, &formula.first)?;
    write!(text, "/ ")?;
    write_blocks(&mut text, &formula.second)?;
    Ok(text)
}

fn lanes_text(alloc: Global, formula: &VecSpl) -> Result<String, AllocError> {
    let mut text = String::new(alloc);
    write_lanes(&mut text, &formula.first)?;
    write!(text, "/ ")?;
    write_lanes(&mut text, &formula.second)?;
    Ok(text)
}

fn for_processors(alloc: Global, request: &str) -> Result<String, Fail> {
    let c = context(request)?;
    let tree = tree_of(alloc, "ct 4 4")?;
    if admissible(&c, &tree) {
        Ok(blocks_text(alloc, &blocks_of(alloc, &c, &tree)?)?)
    } else {
        Ok("not admissible".to_string(alloc)?)
    }
}

fn for_lanes(alloc: Global, request: &str) -> Result<String, Fail> {
    let c = context(request)?;
    let tree = tree_of(alloc, "ct 4 4")?;
    if admissible(&c, &tree) {
        Ok(lanes_text(alloc, &lanes_of(alloc, &c, &tree)?)?)
    } else {
        Ok("not admissible".to_string(alloc)?)
    }
}

#[test]
fn factors_for_processors(rt: HostRuntime) -> Result<(), Fail> {
    check(rt.alloc(), BLOCKS, for_processors)
}

#[test]
fn factors_for_lanes(rt: HostRuntime) -> Result<(), Fail> {
    check(rt.alloc(), LANES, for_lanes)
}
