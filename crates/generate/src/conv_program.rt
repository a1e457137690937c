// The program of a convolution.
ghost use Rattle.std.specs.Prelude.{◌≡◌, ◌<◌, Ok, IfOk, All, map, vec_len};
ghost use Rattle.matrix_meaning.specs.Convolving.{IsConvRequest};
ghost use Rattle.spl_ast.specs.Meaning.{IsVector};
ghost use Rattle.icode.specs.Program.{plain_program};
ghost use Rattle.ring_mod.specs.Residue.{product_mod};
ghost use Rattle.tree_model.specs.Breakdown.{breakdown_of};
ghost use Rattle.tree_model.specs.Chosen.{IsWholeTree};
ghost use Rattle.generate.specs.Convolver.{IsConvolver};
ghost use Rattle.generate.specs.Factors.{factors_of, root_transform};
ghost use Rattle.generate.specs.Emission.Whole.{conv_emission};
ghost use Rattle.generate.specs.ConvPlanned.{IsConvPlanned};

use crate::tree_passes::merge_tree;
use breakdown::expand;
use code_gen::emit_joined;
use icode::program::Program;
use loop_merge::join;
use matrix_meaning::Request;
use memory::NoMemory;
use plan_search::Plan;
use ring_mod::Modulus;
use spl_ast::Spl;
use std::alloc::Global;
use tree_model::{Ctx, Tree};

/// A program for convolutions with `h`, whose transforms go by the plan's tree.
pub fn generate_conv(
    alloc: Global,
    request: &Request,
    plan: &Plan,
    h: &[u64],
) -> Result<Program, NoMemory>
    requires request { IsConvRequest request.now }
    requires plan { IsConvPlanned request.now (Ok (breakdown_of plan.now.tree)) }
    requires list { IsVector request.now.modulus request.now.size h.now }
    ensures convolver { IfOk result (λ p.
        IsConvolver request.now (breakdown_of plan.now.tree) h.now (plain_program p)) }
    ensures letters { IfOk result (λ p.
        plain_program p ≡ conv_emission request.now (breakdown_of plan.now.tree) h.now) }
{
    let forward = Ctx::new(request);
    let backward = Ctx::new(&request.inverted());
    let first = merge_tree(alloc, &forward, &plan.tree)?;
    let diagonal = list_factors(alloc, &forward, &plan.tree, h)?;
    let second = merge_tree(alloc, &backward, &plan.tree)?;
    let joined = join(alloc, first, diagonal, second)?;
    let program = emit_joined(alloc, &forward, &backward, &joined)?;
    Ok(program)
}

// The diagonal between both transforms: the transform of `h`, divided by the size.
fn list_factors(alloc: Global, c: &Ctx, tree: &Tree, h: &[u64]) -> Result<Vec<u64>, NoMemory>
    requires request { IsConvRequest c.now }
    requires tree { IsWholeTree c.now (breakdown_of tree.now) }
    requires list { IsVector c.now.modulus c.now.size h.now }
    ensures value { IfOk result (λ ds. ds.items ≡ factors_of c.now h.now) }
    ensures size { IfOk result (λ ds. vec_len ds ≡ c.now.size) }
    ensures residues { IfOk result (λ ds. All (λ d. d < c.now.modulus) ds.items) }
{
    let request = c.request();
    let modulus = Modulus::new(request.modulus).unwrap();
    let spectrum = transform_by(alloc, c, tree, h)?;
    let inverse = modulus.inverse(request.size).unwrap();
    let factors = multiply(alloc, &modulus, inverse, &spectrum)?;
    Ok(factors)
}

// The transform of `x`, by the tree's formula.
fn transform_by(alloc: Global, c: &Ctx, tree: &Tree, x: &[u64]) -> Result<Vec<u64>, NoMemory>
    requires request { IsConvRequest c.now }
    requires tree { IsWholeTree c.now (breakdown_of tree.now) }
    requires vector { IsVector c.now.modulus c.now.size x.now }
    ensures value { IfOk result (λ y. y.items ≡ root_transform c.now x.now) }
    ensures vector { IfOk result (λ y. IsVector c.now.modulus c.now.size y.items) }
{
    let request = c.request();
    let modulus = Modulus::new(request.modulus).unwrap();
    let formula = expand(alloc, c, tree)?;
    let y = Spl::apply_plain(alloc, &modulus, &formula, x)?;
    Ok(y)
}

// Each item times a factor.
fn multiply(alloc: Global, modulus: &Modulus, factor: u64, x: &[u64]) -> Result<Vec<u64>, NoMemory>
    requires factor { factor < modulus.now }
    requires items { All (λ v. v < modulus.now) x.now }
    ensures value { IfOk result (λ y. y.items ≡ map (product_mod modulus.now factor) x.now) }
    ensures residues { IfOk result (λ y. All (λ v. v < modulus.now) y.items) }
{
    Ok(x.iter().map(|v| modulus.mul(factor, *v)).collect(alloc)?)
}
