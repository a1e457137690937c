// The steps of a breakdown tree: its products of tensors, taken apart into matrices under paths of tensors.
ghost use Rattle.smp_rewrite.specs.Layout.Meaning.{LayoutsAreGood, LayoutsCost, LayoutsDo, LayoutsHaveSize, StepsCost, StepsDo};
ghost use Rattle.smp_rewrite.specs.Layout.Whole.{WholesAreGood, WholesCost, WholesDo};

use operators::Tensor;
use sigma_spl::Work;

mod target;

pub use target::target_of;

/// The matrix of a step.
#[derive(Drop)]
pub enum Core {
    /// The transform of a kernel or a leaf.
    Piece(Work),
    /// The stride permutation `L(rows * cols, rows)`.
    Turns { rows: u64, cols: u64 },
    /// The diagonal of a ct, by its root.
    Twiddles { rows: u64, cols: u64, root: u64 },
    /// The permutation before the parts of a gt.
    ThomasIn { rows: u64, cols: u64 },
    /// The permutation after the parts of a gt.
    ThomasOut { rows: u64, cols: u64 },
}

/// A matrix under the tensors of a path, which is listed from the outside in.
#[derive(Drop)]
pub struct Step {
    pub path: Vec<Tensor>,
    pub core: Core,
}

/// The steps of a layout do what it does.
pub fn steps_do()
    ensures { StepsDo }
{}

/// The steps of a layout have its operations.
pub fn steps_cost()
    ensures { StepsCost }
{}

/// The layout of a tree has its size, does what the tree does at its cost, and can be made.
pub fn layouts_do()
    ensures size { LayoutsHaveSize }
    ensures meaning { LayoutsDo }
    ensures cost { LayoutsCost }
    ensures good { LayoutsAreGood }
{}

/// The whole of a request's tree does what the request asks for at its cost, and can be made.
pub fn wholes_do()
    ensures meaning { WholesDo }
    ensures cost { WholesCost }
    ensures good { WholesAreGood }
{}
