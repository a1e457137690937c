// Matrices under tensors: the size of the whole, the places of each copy, and the laws of both.

ghost use Rattle.std.specs.Prelude.{◌≡◌};
ghost use Rattle.operators.specs.Paths.Loop.{LoopIsUnder};

/// A tensor around a matrix.
#[derive(Clone, Copy, PartialEq, Eq, Debug)]
pub enum Tensor {
    /// A number of copies, one after the other: `I_k tensor .`.
    Blocks(u64),
    /// A number of copies, side by side: `. tensor I_k`.
    Columns(u64),
}

impl Tensor {
    ghost use Rattle.operators.specs.Paths.Tensors.{count_of};

    /// How many copies there are.
    pub fn count(self) -> u64
        ensures { result ≡ count_of self }
    {
        match self {
            Tensor::Blocks(count) => count,
            Tensor::Columns(count) => count,
        }
    }
}

/// A matrix under tensors is a loop over its copies.
pub fn loop_is_under()
    ensures { LoopIsUnder }
{}
