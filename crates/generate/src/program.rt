// The program of a request's tree.
ghost use Rattle.std.specs.Prelude.{◌≡◌, IfOk};
ghost use Rattle.sigma_lower.specs.Merged.{tree_merged};
ghost use Rattle.generate.specs.Letters.{program_for};
ghost use Rattle.icode.specs.Program.{plain_program};
ghost use Rattle.code_gen.specs.PassCode.Contract.{Performs};
ghost use Rattle.tree_model.specs.Breakdown.{breakdown_of};
ghost use Rattle.tree_model.specs.Chosen.{IsWholeTree};
ghost use Rattle.sigma_spl.specs.Shared.Targets.{target_of};

use crate::tree_passes::merge_tree;
use code_gen::emit;
use icode::program::Program;
use memory::NoMemory;
use std::alloc::Global;
use tree_model::{Ctx, Tree};

/// The merged passes of the tree, written as code.
pub fn program_of_tree(alloc: Global, c: &Ctx, tree: &Tree) -> Result<Program, NoMemory>
    requires { IsWholeTree c.now (breakdown_of tree.now) }
    ensures letters { IfOk result (λ p.
        plain_program p ≡ program_for c.now (breakdown_of tree.now)) }
    ensures performs { IfOk result (λ p.
        Performs (target_of c.now) (tree_merged c.now (breakdown_of tree.now))
        (plain_program p)) }
{
    // For the proof: the request is valid.
    let _request = c.request();
    let merged = merge_tree(alloc, c, tree)?;
    let program = emit(alloc, c, &merged)?;
    Ok(program)
}
