//! Formulas made of numbers, lists and formulas.

ghost use Rattle.std.specs.Prelude.{◌≡◌, ◌*◌, ◌+◌, vec_len, IfOk, All};
ghost use Rattle.matrix_meaning.specs.Kind.{IsPowerOfTwo};
ghost use Rattle.spl_ast.specs.Formula.{Identity, Fourier, Hadamard, Twiddles, Diagonal, Stride, Permutation, GoodThomasIn, GoodThomasOut, Product, TensorLeft, TensorRight, DirectSum, Pending, size_of};
ghost use Rattle.spl_ast.specs.Shape.{IsSize, IsRingValue, IsMultiple, IsPermutation, AreGoodThomasFactors};

use crate::{NoMemory, Node, Spl};
use std::alloc::Global;

impl Spl {
    /// The identity of size `n`.
    pub fn identity(n: u64) -> Spl
        requires { IsSize n }
        ensures { result ≡ Identity n }
    {
        Spl { node: Node::I(n) }
    }

    /// The Fourier transform of size `n` with the root `w`.
    pub fn fourier(n: u64, w: u64) -> Spl
        requires size { IsSize n }
        requires root { IsRingValue w }
        ensures { result ≡ Fourier n w }
    {
        Spl {
            node: Node::Dft(n, w),
        }
    }

    /// The transform of Walsh and Hadamard of size `n`.
    pub fn hadamard(n: u64) -> Spl
        requires size { IsSize n }
        requires power { IsPowerOfTwo n }
        ensures { result ≡ Hadamard n }
    {
        Spl { node: Node::Wht(n) }
    }

    /// The twiddle factors of size `n` in rows of `s`, powers of `w`.
    pub fn twiddles(n: u64, s: u64, w: u64) -> Spl
        requires size { IsSize n }
        requires row { IsSize s }
        requires multiple { IsMultiple n s }
        requires root { IsRingValue w }
        ensures { result ≡ Twiddles n s w }
    {
        Spl {
            node: Node::Twiddle(n, s, w),
        }
    }

    /// The diagonal of these values.
    pub fn diagonal(values: Vec<u64>) -> Spl
        requires size { IsSize (vec_len values) }
        requires values { All IsRingValue values.items }
        ensures { result ≡ Diagonal values.items }
    {
        Spl {
            node: Node::Diag(values),
        }
    }

    /// The stride permutation of size `n` with the stride `r`.
    pub fn stride(n: u64, r: u64) -> Spl
        requires size { IsSize n }
        requires stride { IsSize r }
        requires multiple { IsMultiple n r }
        ensures { result ≡ Stride n r }
    {
        Spl {
            node: Node::L(n, r),
        }
    }

    /// The permutation that takes each item from its place in the list.
    pub fn permutation(places: Vec<u64>) -> Spl
        requires size { IsSize (vec_len places) }
        requires permutation { IsPermutation places.items }
        ensures { result ≡ Permutation places.items }
    {
        Spl {
            node: Node::Perm(places),
        }
    }

    /// The permutation before a Good-Thomas step.
    pub fn good_thomas_in(r: u64, s: u64) -> Spl
        requires size { IsSize (r * s) }
        requires factors { AreGoodThomasFactors r s }
        ensures { result ≡ GoodThomasIn r s }
    {
        Spl {
            node: Node::GtIn(r, s),
        }
    }

    /// The permutation after a Good-Thomas step.
    pub fn good_thomas_out(r: u64, s: u64) -> Spl
        requires size { IsSize (r * s) }
        requires factors { AreGoodThomasFactors r s }
        ensures { result ≡ GoodThomasOut r s }
    {
        Spl {
            node: Node::GtOut(r, s),
        }
    }

    /// The product of two formulas: `second` is applied first.
    pub fn compose(alloc: Global, first: Spl, second: Spl) -> Result<Spl, NoMemory>
        requires { size_of first ≡ size_of second }
        ensures { IfOk result (λ f. f ≡ Product first second) }
    {
        // For the proof: both formulas are well formed.
        let _ = &first.node;
        let _ = &second.node;
        let first = Box::new(alloc, first)?;
        let second = Box::new(alloc, second)?;
        Ok(Spl {
            node: Node::Compose(first, second),
        })
    }

    /// The tensor product with an identity of size `k` on the right.
    pub fn tensor_left(alloc: Global, a: Spl, k: u64) -> Result<Spl, NoMemory>
        requires copies { IsSize k }
        requires size { IsSize (size_of a * k) }
        ensures { IfOk result (λ f. f ≡ TensorLeft a k) }
    {
        // For the proof: the formula is well formed.
        let _ = &a.node;
        let a = Box::new(alloc, a)?;
        Ok(Spl {
            node: Node::TensorLeft(a, k),
        })
    }

    /// The tensor product with an identity of size `k` on the left.
    pub fn tensor_right(alloc: Global, k: u64, a: Spl) -> Result<Spl, NoMemory>
        requires copies { IsSize k }
        requires size { IsSize (k * size_of a) }
        ensures { IfOk result (λ f. f ≡ TensorRight k a) }
    {
        // For the proof: the formula is well formed.
        let _ = &a.node;
        let a = Box::new(alloc, a)?;
        Ok(Spl {
            node: Node::TensorRight(k, a),
        })
    }

    /// The direct sum of two formulas.
    pub fn direct_sum(alloc: Global, first: Spl, second: Spl) -> Result<Spl, NoMemory>
        requires { IsSize (size_of first + size_of second) }
        ensures { IfOk result (λ f. f ≡ DirectSum first second) }
    {
        // For the proof: both formulas are well formed.
        let _ = &first.node;
        let _ = &second.node;
        let first = Box::new(alloc, first)?;
        let second = Box::new(alloc, second)?;
        Ok(Spl {
            node: Node::DirectSum(first, second),
        })
    }

    /// The formula, marked as still to be rewritten.
    pub fn pending(alloc: Global, a: Spl) -> Result<Spl, NoMemory>
        ensures { IfOk result (λ f. f ≡ Pending a) }
    {
        // For the proof: the formula is well formed.
        let _ = &a.node;
        let a = Box::new(alloc, a)?;
        Ok(Spl {
            node: Node::Todo(a),
        })
    }
}
