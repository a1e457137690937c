// Terms, which merging makes passes of.
use crate::{Factors, Work};
use index_fn::Index;
use operators::Tensor;

/// A term: a product of permutations, diagonals, loops over copies, and direct sums, on a list of items. The tensors of a
/// path stand from the outside in. Clauses see it as a `PlainTerm`.
#[derive(Drop)]
pub enum Term {
    /// The identity.
    Same,
    /// Takes the item at the function's value to each place.
    Gath(Index),
    /// Takes each item to the place that is the function's value.
    Scat(Index),
    /// A diagonal under the tensors of a path.
    DiagAt {
        path: Vec<Tensor>,
        factors: Factors,
    },
    /// Copies of some work under the tensors of a path.
    Sum {
        path: Vec<Tensor>,
        work: Work,
    },
    /// Copies under the tensors of a path, each of which takes its items from these places of the copy.
    Move {
        path: Vec<Tensor>,
        places: Vec<u64>,
    },
    /// One after the other: the first is applied first.
    Compose(Box<Term>, Box<Term>),
    /// Two terms side by side, on lists of `size` items, under the tensors of a path.
    Beside {
        path: Vec<Tensor>,
        first_size: u64,
        first: Box<Term>,
        second_size: u64,
        second: Box<Term>,
    },
}

/// The terms of each phase, with a barrier after each: on arrays of `size` words, for `procs` processors and `lanes`
/// lanes. Clauses see it as a `PlainSigma` (Franchetti et al., 2005).
#[derive(Drop)]
pub struct Sigma {
    /// How many words an array has.
    pub size: u64,
    /// How many processors share each phase.
    pub procs: u64,
    /// How many lanes a register has.
    pub lanes: u64,
    pub phases: Vec<Term>,
}
