//! Formulas of linear transforms over residues, in the language SPL (Püschel et al., 2005): what they do to a list, and
//! how rules rewrite them.
#![tactic(auto)]

mod build;
mod distribute;
mod halves;
mod places;
mod plain;
mod rewriting;

ghost use Rattle.std.specs.Prelude.{◌≡◌};
ghost use Rattle.spl_ast.specs.Formula.{size_of};
ghost use Rattle.spl_ast.specs.Shape.{IsShaped, IsSize};

pub use distribute::Distribute;
pub use halves::balance;
pub use memory::NoMemory;
pub use places::{by_places, turned};
pub use plain::transformed;
pub use rewriting::{Rule, rewrite};
use std::marker::Model;

/// A formula: a square matrix over the residues, as a term whose parts fit. Clauses see it as a `Formula`, with no boxes.
#[cycle(spl)]
#[derive(Drop)]
pub struct Spl {
    pub node: Node,
}

/// The outermost step of a formula. A size or factor is 1 to 1,048,576, a ring value is below 2^62.
#[cycle(spl)]
#[derive(Drop)]
pub enum Node {
    /// The identity of this size.
    I(u64),
    /// The Fourier transform `DFT(n, w)`: its size and root.
    Dft(u64, u64),
    /// The transform of Walsh and Hadamard: its size, a power of two.
    Wht(u64),
    /// The twiddle factors `T(n, s, w)`: the size, the length of a row, which divides it, and the root.
    Twiddle(u64, u64, u64),
    /// A diagonal of these ring values.
    Diag(Vec<u64>),
    /// The stride permutation `L(n, r)`: its size and stride, which divides it.
    L(u64, u64),
    /// A permutation, by the place that each item is taken from.
    Perm(Vec<u64>),
    /// The permutation before a Good-Thomas step: its two coprime factors, neither of them 1.
    GtIn(u64, u64),
    /// The permutation after a Good-Thomas step.
    GtOut(u64, u64),
    /// The product of two matrices of one size: the second is applied first.
    Compose(Box<Spl>, Box<Spl>),
    /// The tensor product `A tensor I_k`.
    TensorLeft(Box<Spl>, u64),
    /// The tensor product `I_k tensor A`.
    TensorRight(u64, Box<Spl>),
    /// The direct sum: the first matrix on the first part, the second on the rest.
    DirectSum(Box<Spl>, Box<Spl>),
    /// A part still to be rewritten, which means its content.
    Todo(Box<Spl>),
}

impl Model for Spl {
    ghost use Rattle.spl_ast.specs.Formula.{Formula, formula_code, parts_of};
    ghost use Rattle.spl_ast.specs.Shape.{IsShaped};

    ghost Value = { Formula };

    ghost coded = { formula_code };

    ghost use Rattle.spl_ast.specs.Views.{formula_of};

    ghost view = { λ a. formula_of a.node };

    ghost invariant = { λ a. IsShaped (formula_of a.node) };

    ghost size = { parts_of };

    ghost use Rattle.spl_ast.specs.Falls.{deep_le-parts_of};

    ghost size_decreases = { λ a h. deep_le-parts_of a.node };
}

impl Spl {
    /// The number of rows.
    #[tactic(auto, using(crate::proofs::Vectors::size_is_size))]
    pub fn rows(&self) -> u64
        ensures value { result ≡ size_of self.now }
        ensures size { IsSize result }
        ensures shaped { IsShaped self.now }
    {
        match &self.node {
            Node::I(n) | Node::Dft(n, _) | Node::Wht(n) | Node::Twiddle(n, _, _) | Node::L(n, _) =>
                *n,
            Node::Diag(values) => values.len() as u64,
            Node::Perm(places) => places.len() as u64,
            Node::GtIn(r, s) | Node::GtOut(r, s) => r * s,
            Node::Compose(a, _) => a.rows(),
            Node::TensorLeft(a, k) => a.rows() * k,
            Node::TensorRight(k, a) => k * a.rows(),
            Node::DirectSum(a, b) => a.rows() + b.rows(),
            Node::Todo(a) => a.rows(),
        }
    }

    /// The number of columns, which is that of rows.
    pub fn cols(&self) -> u64
        ensures value { result ≡ size_of self.now }
        ensures size { IsSize result }
        ensures shaped { IsShaped self.now }
    {
        self.rows()
    }
}
