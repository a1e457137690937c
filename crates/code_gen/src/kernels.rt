// The code of kernels.
ghost use Rattle.std.specs.Prelude.{◌≡◌, ◌≢◌, ◌≤◌, IfOk};
ghost use Rattle.kernel_gen.specs.Kernel.{kernel_of, trees_kernel};
ghost use Rattle.kernel_gen.specs.Kernels.{made_of};
ghost use Rattle.tree_model.specs.Breakdown.{breakdown_of, leaf, size_of, AllowsLeaf};
ghost use Rattle.tree_model.specs.Chosen.{StandsIn};
ghost use Rattle.tree_model.specs.Trees.{trees_size};
ghost use Rattle.tree_model.specs.Whole.{rooted_of};

use kernel_gen::{Kernel, dft_kernel, kernel};
use matrix_meaning::Kind;
use memory::NoMemory;
use ring_mod::Modulus;
use std::alloc::Global;
use tree_model::{Ctx, Tree};

/// The code of a node of a request that is no inverse.
pub(crate) fn node_code(alloc: Global, p: &Ctx, tree: &Tree) -> Result<Kernel, NoMemory>
    requires stands { StandsIn p.now (breakdown_of tree.now) }
    requires kind { p.now.kind ≢ Kind.Idft }
    ensures inputs { IfOk result (λ k.
        k.inputs ≡ trees_size (rooted_of p.now (breakdown_of tree.now))) }
    ensures code { IfOk result (λ k.
        made_of k ≡ trees_kernel p.now.modulus (rooted_of p.now (breakdown_of tree.now))) }
{
    let made = kernel(alloc, p, tree)?;
    Ok(made)
}

/// The code of a short leaf. That of the Walsh-Hadamard transform is a Fourier transform's by -1.
pub(crate) fn leaf_code(
    alloc: Global,
    m: &Modulus,
    kind: Kind,
    root: u64,
    size: u64,
) -> Result<Kernel, NoMemory>
    requires leaf { AllowsLeaf kind size }
    requires few { size ≤ 8 }
    ensures inputs { IfOk result (λ k. k.inputs ≡ size) }
    ensures code { IfOk result (λ k. made_of k ≡ kernel_of m.now kind (leaf size) root) }
{
    match kind {
        Kind::Dft => {
            let made = dft_kernel(alloc, m, size, root)?;
            Ok(made)
        }
        Kind::Wht => {
            let made = dft_kernel(alloc, m, size, m.get() - 1)?;
            Ok(made)
        }
        Kind::Idft => unreachable!(),
    }
}
