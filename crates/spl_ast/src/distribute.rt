//! A rule that gives a tensor to the factors of its product.

ghost use Rattle.std.specs.Prelude.{◌≡◌, true};
ghost use Rattle.spl_ast.specs.Distribution.{is_product};
ghost use Rattle.spl_ast.specs.Formula.{Product};

use crate::{NoMemory, Node, Rule, Spl};
use ring_mod::Modulus;
use std::alloc::Global;

/// `(A B) tensor I_k` becomes `(A tensor I_k) (B tensor I_k)`, and `I_k tensor (A B)` becomes `(I_k tensor A) (I_k tensor B)`.
#[derive(Clone, Copy)]
pub struct Distribute {
    modulus: Modulus,
}

impl Distribute {
    pub fn new(modulus: Modulus) -> Self
        ensures { result.modulus ≡ modulus }
    {
        Self { modulus }
    }
}

impl Rule for Distribute {
    ghost use Rattle.spl_ast.specs.Distribution.{is_tensor_of_product, tensor_weight, tensor_weight_measures};

    ghost modulus = { λ rule. rule.modulus };

    ghost is_match = { λ _ f. is_tensor_of_product f };

    ghost measure = { λ _ f. tensor_weight f };

    ghost measures_parts = { λ _. tensor_weight_measures };

    fn matches(&self, f: &Spl) -> bool {
        match &f.node {
            Node::TensorLeft(a, _) | Node::TensorRight(_, a) => a.is_product(),
            _ => false,
        }
    }

    fn fire(&self, alloc: Global, f: Spl) -> Result<Spl, NoMemory> {
        let node = f.node;
        match node {
            Node::TensorLeft(product, k) => {
                let product = Box::into_inner(product);
                let (a, b) = product.factors();
                let left = Spl::tensor_left(alloc, a, k)?;
                let right = Spl::tensor_left(alloc, b, k)?;
                let g = Spl::compose(alloc, left, right)?;
                Ok(g)
            }
            Node::TensorRight(k, product) => {
                let product = Box::into_inner(product);
                let (a, b) = product.factors();
                let left = Spl::tensor_right(alloc, k, a)?;
                let right = Spl::tensor_right(alloc, k, b)?;
                let g = Spl::compose(alloc, left, right)?;
                Ok(g)
            }
            _ => unreachable!(),
        }
    }
}

impl Spl {
    /// Whether this is a product of two formulas.
    pub fn is_product(&self) -> bool
        ensures { result ≡ is_product self.now }
    {
        matches!(&self.node, Node::Compose(_, _))
    }

    /// The two factors of a product.
    pub fn factors(self) -> (Spl, Spl)
        requires { is_product self ≡ true }
        ensures { self ≡ Product result.0 result.1 }
    {
        let node = self.node;
        match node {
            Node::Compose(a, b) => (Box::into_inner(a), Box::into_inner(b)),
            _ => unreachable!(),
        }
    }
}
