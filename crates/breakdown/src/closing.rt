// The formula of an inverse, divided by its size.
ghost use Rattle.std.specs.Prelude.{◌≡◌, ◌≤◌, ◌<◌, ◌^◌, IfOk};
ghost use Rattle.std.specs.Int.{IsGcd};
ghost use Rattle.spl_ast.specs.Formula.{size_of as rows_of};
ghost use Rattle.breakdown.specs.Expansion.{closed_at, divided};

use matrix_meaning::Kind;
use ring_mod::Modulus;
use spl_ast::{NoMemory, Spl};
use std::alloc::Global;
use tree_model::Ctx;

/// A formula in the request: for an inverse that of the whole size is divided by it.
#[tactic(auto, using(crate::proofs::Asked::closed_whole, crate::proofs::Asked::closed_other))]
pub fn closed(alloc: Global, c: &Ctx, f: Spl) -> Result<Spl, NoMemory>
    ensures { IfOk result (λ g. g ≡ closed_at c.now (rows_of f) f) }
{
    let request = c.request();
    if f.rows() != request.size {
        return Ok(f);
    }
    match request.kind {
        Kind::Dft => Ok(f),
        Kind::Wht => Ok(f),
        Kind::Idft => {
            let g = divide(alloc, request.modulus, f)?;
            Ok(g)
        }
    }
}

// The formula, divided by its size.
fn divide(alloc: Global, modulus: u64, f: Spl) -> Result<Spl, NoMemory>
    requires low { 2 ≤ modulus }
    requires high { modulus < 2 ^ 62 }
    requires unit { IsGcd (rows_of f) modulus 1 }
    ensures { IfOk result (λ g. g ≡ divided modulus (rows_of f) f) }
{
    let size = f.rows();
    let inverse = Modulus::new(modulus).unwrap().inverse(size).unwrap();
    let mut values = Vec::new(alloc);
    values.push(inverse)?;
    let scaled = Spl::tensor_right(alloc, size, Spl::diagonal(values))?;
    let f = Spl::compose(alloc, scaled, f)?;
    Ok(f)
}
