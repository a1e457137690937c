// What a nest does to each copy.
ghost use Rattle.std.specs.Prelude.{◌≡◌, IfOk};
ghost use Rattle.sigma_spl.specs.Views.{plain_work};
ghost use Rattle.sigma_spl.specs.Work.{HasWords, work_size};

use matrix_meaning::Kind;
use memory::NoMemory;
use std::alloc::Global;
use tree_model::{Ctx, Tree};

/// The work of a nest on each of its copies. It carries all that its meaning rests on but the modulus.
#[derive(Drop)]
pub enum Work {
    /// The transform of a node of the request, in straight-line code.
    Kernel { ctx: Ctx, tree: Tree },
    /// A transform of few items by its definition, in straight-line code. The root of a Fourier transform may be any.
    Short { kind: Kind, root: u64, size: u64 },
    /// A longer leaf by its rows: each the sum of the items' products with powers of a root of this size.
    Dense { root: u64, size: u64 },
    /// A longer leaf for any root, each row by Horner's rule.
    Horner { root: u64, size: u64 },
    /// The stride permutation `L(lanes * lanes, lanes)`, in registers.
    Tile { lanes: u64 },
    /// The items as they are.
    Copy { size: u64 },
}

impl Work {
    /// How many items a copy has.
    #[tactic(auto, using(tree_model::proofs::RootedTrees::rooted_size, tree_model::proofs::RootedTrees::rooted_words))]
    pub fn size(&self) -> u64
        requires { HasWords (plain_work self.now) }
        ensures { result ≡ work_size (plain_work self.now) }
    {
        match self {
            Work::Kernel { tree, .. } => tree.size(),
            Work::Short { size, .. }
            | Work::Dense { size, .. }
            | Work::Horner { size, .. }
            | Work::Copy { size } => *size,
            Work::Tile { lanes } => lanes * lanes,
        }
    }

    /// A copy of the work, in other memory.
    pub fn copied(&self, alloc: Global) -> Result<Work, NoMemory>
        ensures { IfOk result (λ work. plain_work work ≡ plain_work self.now) }
    {
        match self {
            Work::Kernel { ctx, tree } => Ok(Work::Kernel {
                ctx: *ctx,
                tree: tree.copied(alloc)?,
            }),
            Work::Short { kind, root, size } => Ok(Work::Short {
                kind: *kind,
                root: *root,
                size: *size,
            }),
            Work::Dense { root, size } => Ok(Work::Dense {
                root: *root,
                size: *size,
            }),
            Work::Horner { root, size } => Ok(Work::Horner {
                root: *root,
                size: *size,
            }),
            Work::Tile { lanes } => Ok(Work::Tile { lanes: *lanes }),
            Work::Copy { size } => Ok(Work::Copy { size: *size }),
        }
    }
}
