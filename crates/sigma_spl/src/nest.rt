// Loops as code has them, and the passes and phases that they make up.
use crate::Work;
use operators::Tensor;
use perm_algebra::Affine;
use smallvec::SmallVec;

/// The factors of a diagonal, from its first place on: residues modulo the transform's modulus.
#[derive(Drop)]
pub enum Factors {
    /// Values in a list.
    Values(Vec<u64>),
    /// The `rows * cols` twiddles of a Fourier transform by this root: at the place p the root to the power
    /// `(p / cols) * (p % cols)`.
    Twiddles {
        rows: u64,
        cols: u64,
        root: u64,
    },
    /// This value, a number of times.
    Repeated {
        value: u64,
        count: u64,
    },
    /// Those of a diagonal under the tensors of a path, from the outside in.
    Spread {
        path: Vec<Tensor>,
        factors: Box<Factors>,
    },
}

/// The diagonal after a nest, and the place in it of each item that is stored, as `Nest` names its items.
#[derive(Drop)]
pub struct Multiplier {
    pub factors: Factors,
    pub places: Vec<Affine>,
}

/// Loops around some work, with the places of its items, in words, as sums of variables: variable d is that of loop d. Straight
/// work has a sum for each register. Work by rows has one sum for all: the variable after those of the loops counts its
/// rows, which it stores by, and the next one its columns, which it loads by.
#[derive(Drop)]
pub struct Nest {
    /// How often each loop runs, the outermost first.
    pub counts: SmallVec<u64, 8>,
    pub work: Work,
    /// Where each item comes from, in the array that the pass reads.
    pub gathers: Vec<Affine>,
    pub multiplier: Option<Multiplier>,
    /// Where each item goes, in the array that the pass writes.
    pub scatters: Vec<Affine>,
}

/// Passes in phases, with a barrier after each phase. A pass is several nests that write one array together: each reads the
/// array before it.
#[derive(Drop)]
pub struct Merged {
    /// How many words an array has.
    pub size: u64,
    /// How many processors share each phase.
    pub procs: u64,
    /// How many lanes a register has.
    pub lanes: u64,
    /// The nests of each pass of each phase, in order.
    pub phases: Vec<Vec<Vec<Nest>>>,
}
