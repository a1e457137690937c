// Kernels.
ghost use Rattle.std.specs.Prelude.{◌≡◌, ◌^◌, ◌<◌, ◌≤◌, [], vec_len, IfOk};
ghost use Rattle.matrix_meaning.specs.Parts.{forward_of};
ghost use Rattle.operators.specs.Sum.{list_below};
ghost use Rattle.tree_model.specs.Breakdown.{breakdown_of, leaf, size_of, HasWordSizes};
ghost use Rattle.tree_model.specs.Chosen.{StandsIn};
ghost use Rattle.tree_model.specs.Whole.{rooted_of, IsTreeOf};
ghost use Rattle.kernel_gen.specs.Kernel.{kernel_of, node_kernel, trees_kernel};
ghost use Rattle.kernel_gen.specs.Writing.{next_of};
ghost use Rattle.kernel_gen.specs.Kernels.{made_of, CostsDefinition, CostsNode, IsStraight, TransformsBy, TransformsNode};

use crate::straight::Kernel;
use crate::transform::Transform;
use crate::writer::Writer;
use matrix_meaning::Kind;
use memory::NoMemory;
use ring_mod::Modulus;
use std::alloc::Global;
use tree_model::{Ctx, Tree};

// The registers of n inputs.
fn first_registers(alloc: Global, n: u64) -> Result<Vec<u64>, NoMemory>
    ensures value { IfOk result (λ y. y.items ≡ list_below n (λ k. k)) }
    ensures size { IfOk result (λ y. vec_len y ≡ n) }
{
    Ok((0..n).map(|k| k).collect(alloc)?)
}

// Nothing yet, on `inputs` inputs.
fn begun(alloc: Global, inputs: u64) -> Writer
    ensures inputs { result.inputs ≡ inputs }
    ensures code { result.code.items ≡ [] }
{
    Writer {
        inputs,
        code: Vec::new(alloc),
    }
}

// What was written, with these outputs.
fn ended(writer: Writer, outputs: Vec<u64>) -> Kernel
    requires { writer.inputs < 2 ^ 32 }
    ensures inputs { result.inputs ≡ writer.inputs }
    ensures code { result.code.items ≡ writer.code.items }
    ensures outputs { result.outputs.items ≡ outputs.items }
    ensures regs { result.regs ≡ next_of writer }
{
    let regs = writer.next();
    let Writer { inputs, code } = writer;
    Kernel {
        inputs,
        code,
        outputs,
        regs,
    }
}

// The code of a node of the request, modulo the modulus.
fn node_kernel(alloc: Global, modulus: &Modulus, p: &Ctx, t: &Tree) -> Result<Kernel, NoMemory>
    requires tree { IsTreeOf p.now (breakdown_of t.now) }
    requires words { HasWordSizes (breakdown_of t.now) }
    requires size { size_of (breakdown_of t.now) < 2 ^ 32 }
    ensures inputs { IfOk result (λ k. k.inputs ≡ size_of (breakdown_of t.now)) }
    ensures code { IfOk result (λ k.
        made_of k ≡ trees_kernel modulus.now (rooted_of p.now (breakdown_of t.now))) }
{
    let inputs = t.size();
    let first = first_registers(alloc, inputs)?;
    let mut writer = begun(alloc, inputs);
    let outputs = writer.put_node(alloc, modulus, p, t, &first)?;
    Ok(ended(writer, outputs))
}

// The code of a Fourier transform by its definition.
fn leaf_kernel(alloc: Global, modulus: &Modulus, size: u64, root: u64) -> Result<Kernel, NoMemory>
    requires { size < 2 ^ 32 }
    ensures inputs { IfOk result (λ k. k.inputs ≡ size) }
    ensures code { IfOk result (λ k. made_of k ≡ kernel_of modulus.now Kind.Dft (leaf size) root) }
{
    let first = first_registers(alloc, size)?;
    let mut writer = begun(alloc, size);
    let transform = Transform {
        modulus,
        kind: Kind::Dft,
        root: modulus.reduce(root),
    };
    let outputs = writer.put_tree(alloc, &transform, &Tree::Leaf(size), &first)?;
    Ok(ended(writer, outputs))
}

/// The code of a Fourier transform of at most eight items by its definition, on one lane. The root may be any number: it need
/// not be a root of 1.
pub fn dft_kernel(alloc: Global, m: &Modulus, d: u64, w: u64) -> Result<Kernel, NoMemory>
    requires { (1 ≤ d) × (d ≤ 8) }
    ensures inputs { IfOk result (λ k. k.inputs ≡ d) }
    ensures code { IfOk result (λ k. made_of k ≡ kernel_of m.now Kind.Dft (leaf d) w) }
    ensures transforms { IfOk result (λ k. TransformsBy m.now 1 Kind.Dft d w (made_of k)) }
    ensures cost { IfOk result (λ k. CostsDefinition m.now d w (made_of k)) }
    ensures straight { IfOk result (λ k. IsStraight m.now d (made_of k)) }
{
    // For the proof: the modulus is within its limits.
    let _modulus = m.get();
    let made = leaf_kernel(alloc, m, d, w)?;
    Ok(made)
}

/// The code of a tree that may stand in the request, for its node: from its inputs in the first registers it leaves the
/// node's transform in the outputs, in each lane, in exactly the operations that the tree costs where it is a kernel, a
/// multiplication counted as the request's weight, and names its own registers alone. An inverse has the trees of the
/// request by the inverse root.
pub fn kernel(alloc: Global, c: &Ctx, t: &Tree) -> Result<Kernel, NoMemory>
    requires stands { StandsIn c.now (breakdown_of t.now) }
    ensures inputs { IfOk result (λ k. k.inputs ≡ size_of (breakdown_of t.now)) }
    ensures code { IfOk result (λ k.
        made_of k ≡ node_kernel (forward_of c.now) (breakdown_of t.now)) }
    ensures transforms { IfOk result (λ k.
        TransformsNode (forward_of c.now) (breakdown_of t.now) (made_of k)) }
    ensures cost { IfOk result (λ k. CostsNode (forward_of c.now) (breakdown_of t.now) (made_of k)) }
    ensures straight { IfOk result (λ k. IsStraight c.now.modulus k.inputs (made_of k)) }
{
    let p = c.forward();
    let modulus = Modulus::new(p.request().modulus).unwrap();
    let made = node_kernel(alloc, &modulus, &p, t)?;
    Ok(made)
}
