// The term of a formula, as one phase.
ghost use Rattle.std.specs.Prelude.{◌≡◌, ◌≤◌, ◌%◌, ℕ, List, IfOk, map};
ghost use Rattle.sigma_lower.specs.OnePhase.{formula_sigma};
ghost use Rattle.sigma_lower.specs.Operations.{operations};
ghost use Rattle.sigma_spl.specs.Shared.Costs.{work_cost};
ghost use Rattle.sigma_lower.specs.Terms.{one_more, halvings, hadamard_term, fourier_term, term_of};
ghost use Rattle.index_fn.specs.Index.{mapping_of};
ghost use Rattle.matrix_meaning.specs.declared.Kind.TheVariants.{Wht};
ghost use Rattle.matrix_meaning.specs.Kind.{IsPowerOfTwo};
ghost use Rattle.sigma_spl.specs.Formulas.{IsFormulaSigma};
ghost use Rattle.spl_ast.specs.Meaning.{IsVector};
ghost use Rattle.sigma_spl.specs.Nest.{twiddles, values};
ghost use Rattle.sigma_spl.specs.Sigma.{IsGoodSigma, sigma_cost, sigma_on};
ghost use Rattle.sigma_spl.specs.Term.{gath, diag, nest, move, product, beside};
ghost use Rattle.sigma_spl.specs.Views.{plain_sigma, plain_term, plain_work};
ghost use Rattle.sigma_spl.specs.Work.{kernel, short};
ghost use Rattle.sigma_spl.specs.Room.{HasRoom};
ghost use Rattle.sigma_lower.specs.TreeTerms.Wrapped.{wrapped};
ghost use Rattle.spl_ast.specs.Formula.{parts_of, size_of};
ghost use Rattle.spl_ast.specs.Meaning.{apply};
ghost use Rattle.operators.specs.declared.paths.Tensor.TheVariants.{Columns};

use crate::tree_terms::under;
use index_fn::Index;
use matrix_meaning::Kind;
use memory::NoMemory;
use operators::Tensor;
use ring_mod::Modulus;
use sigma_spl::{Factors, Sigma, Term, Work};
use spl_ast::{Node, Spl};
use std::alloc::Global;

/// The longest DFT that is straight-line code.
const MAX_KERNEL: u64 = 8;

/// The term of a formula over residues, for one processor of one lane: its diagonals hold residues. It does what the
/// formula does, in its operations, and can be merged; of a formula of at most 65,536 parts its passes then make a
/// program.
pub fn lower_formula(alloc: Global, modulus: &Modulus, formula: &Spl) -> Result<Sigma, NoMemory>
    ensures form { IfOk result (λ s. plain_sigma s ≡ formula_sigma modulus.now formula.now) }
    ensures meaning { IfOk result (λ s. (x : List ℕ)
        → IsVector modulus.now (size_of formula.now) x
        → sigma_on modulus.now (plain_sigma s) x ≡ apply modulus.now formula.now x) }
    ensures good { IfOk result (λ s. IsGoodSigma (plain_sigma s)) }
    ensures formula { parts_of formula.now ≤ 65536
        → IfOk result (λ s. IsFormulaSigma modulus.now formula.now (plain_sigma s)) }
    ensures operations { IfOk result (λ s. (weight : ℕ)
        → sigma_cost weight (work_cost weight modulus.now) (plain_sigma s)
        ≡ operations weight modulus.now formula.now) }
{
    // For the proof: the modulus and the formula are within their limits.
    let _modulus = modulus.get();
    let size = formula.rows();
    let whole = term(alloc, modulus, &[], formula)?;
    let mut phases = Vec::new(alloc);
    phases.push(whole)?;
    Ok(Sigma {
        size,
        procs: 1,
        lanes: 1,
        phases,
    })
}

// The term of a formula under the tensors of a path.
#[tactic(auto, using(crate::proofs::Lowering::room_stride, crate::proofs::Lowering::room_left, crate::proofs::Lowering::room_right, crate::proofs::Lowering::room_same, crate::proofs::Lowering::room_alone))]
fn term(alloc: Global, modulus: &Modulus, path: &[Tensor], formula: &Spl) -> Result<Term, NoMemory>
    requires { HasRoom path.now (size_of formula.now) }
    ensures { IfOk result (λ t. plain_term t ≡ term_of modulus.now path.now formula.now) }
{
    match &formula.node {
        Node::I(_) => Ok(Term::Same),
        Node::Dft(n, w) => fourier(alloc, path, *n, *w),
        Node::Wht(n) => hadamard(alloc, path, *n),
        Node::Twiddle(n, s, w) => twiddles(alloc, path, n / s, *s, *w),
        Node::Diag(values) => diagonal(alloc, modulus, path, values),
        Node::L(n, r) => {
            let cols = n / r;
            gather(alloc, path, r * cols, Index::StridePermutation(*r, cols))
        }
        Node::Perm(places) => moved(alloc, path, places),
        Node::GtIn(r, s) => gather(alloc, path, r * s, Index::ThomasIn(*r, *s)),
        Node::GtOut(r, s) => gather(alloc, path, r * s, Index::ThomasOut(*r, *s)),
        Node::Compose(a, b) => {
            let first = term(alloc, modulus, path, b)?;
            let second = term(alloc, modulus, path, a)?;
            in_turn(alloc, first, second)
        }
        Node::TensorLeft(a, k) => {
            let longer = one_more(alloc, path, Tensor::Columns(*k))?;
            term(alloc, modulus, &longer, a)
        }
        Node::TensorRight(k, a) => {
            let longer = one_more(alloc, path, Tensor::Blocks(*k))?;
            term(alloc, modulus, &longer, a)
        }
        Node::DirectSum(a, b) => {
            let first = term(alloc, modulus, &[], a)?;
            let second = term(alloc, modulus, &[], b)?;
            beside(alloc, path, a.rows(), first, b.rows(), second)
        }
        Node::Todo(a) => term(alloc, modulus, path, a),
    }
}

// The path with one more tensor inside, unless that has a single copy.
fn one_more(alloc: Global, path: &[Tensor], tensor: Tensor) -> Result<Vec<Tensor>, NoMemory>
    ensures { IfOk result (λ longer. longer.items ≡ one_more path.now tensor) }
{
    let mut longer = path.to_vec(alloc)?;
    if tensor.count() != 1 {
        longer.push(tensor)?;
    }
    Ok(longer)
}

// A transform by its definition, in straight-line code.
fn leaf_kernel(kind: Kind, root: u64, size: u64) -> Work
    ensures { plain_work result ≡ kernel (short kind root size) }
{
    Work::Short { kind, root, size }
}

// A short DFT is straight-line code, and a longer one goes row by row.
fn fourier(alloc: Global, path: &[Tensor], n: u64, root: u64) -> Result<Term, NoMemory>
    ensures { IfOk result (λ t. plain_term t ≡ fourier_term path.now n root) }
{
    let path = path.to_vec(alloc)?;
    if n <= MAX_KERNEL {
        let work = leaf_kernel(Kind::Dft, root, n);
        return Ok(Term::Sum { path, work });
    }
    let work = Work::Horner { root, size: n };
    Ok(Term::Sum { path, work })
}

// A WHT, split by 2.
#[tactic(auto, using(crate::proofs::Lowering::hadamard_one, crate::proofs::Lowering::hadamard_more, crate::proofs::Lowering::half_power))]
fn hadamard(alloc: Global, path: &[Tensor], n: u64) -> Result<Term, NoMemory>
    requires { IsPowerOfTwo n }
    ensures { IfOk result (λ t. plain_term t ≡ hadamard_term path.now (halvings n n)) }
{
    if n < 2 {
        return Ok(Term::Same);
    }
    let half = n / 2;
    let mut pairs = path.to_vec(alloc)?;
    pairs.push(Tensor::Blocks(2))?;
    let first = hadamard(alloc, &pairs, half)?;
    let second = butterflies(alloc, path, half)?;
    in_turn(alloc, first, second)
}

// WHT of two items, on columns.
fn butterflies(alloc: Global, path: &[Tensor], count: u64) -> Result<Term, NoMemory>
    ensures { IfOk result (λ t. plain_term t
        ≡ nest (one_more path.now (Columns count)) (kernel (short Wht 0 2))) }
{
    let path = one_more(alloc, path, Tensor::Columns(count))?;
    let work = leaf_kernel(Kind::Wht, 0, 2);
    Ok(Term::Sum { path, work })
}

fn twiddles(
    alloc: Global,
    path: &[Tensor],
    rows: u64,
    cols: u64,
    root: u64,
) -> Result<Term, NoMemory>
    ensures { IfOk result (λ t. plain_term t ≡ diag path.now (twiddles rows cols root)) }
{
    let path = path.to_vec(alloc)?;
    let factors = Factors::Twiddles { rows, cols, root };
    Ok(Term::DiagAt { path, factors })
}

// The diagonal of these values, which count modulo the modulus.
fn diagonal(
    alloc: Global,
    modulus: &Modulus,
    path: &[Tensor],
    entries: &[u64],
) -> Result<Term, NoMemory>
    ensures { IfOk result
        (λ t. plain_term t ≡ diag path.now (values (map (λ v. v % modulus.now) entries.now))) }
{
    let path = path.to_vec(alloc)?;
    let factors = Factors::Values(residues(alloc, modulus, entries)?);
    Ok(Term::DiagAt { path, factors })
}

fn residues(alloc: Global, modulus: &Modulus, entries: &[u64]) -> Result<Vec<u64>, NoMemory>
    ensures { IfOk result (λ vs. vs.items ≡ map (λ v. v % modulus.now) entries.now) }
{
    let mut residues = Vec::new(alloc);
    for value in entries {
        residues.push(modulus.reduce(*value))?;
    }
    Ok(residues)
}

/// The permutation of size `n` under the tensors of a path.
pub fn gather(alloc: Global, path: &[Tensor], n: u64, f: Index) -> Result<Term, NoMemory>
    requires { HasRoom path.now n }
    ensures { IfOk result (λ t. plain_term t ≡ gath (wrapped path.now n (mapping_of f))) }
{
    let places = under(alloc, path, n, f)?;
    Ok(Term::Gath(places))
}

fn moved(alloc: Global, path: &[Tensor], places: &[u64]) -> Result<Term, NoMemory>
    ensures { IfOk result (λ t. plain_term t ≡ move path.now places.now) }
{
    let path = path.to_vec(alloc)?;
    let places = places.to_vec(alloc)?;
    Ok(Term::Move { path, places })
}

/// One after the other.
pub fn in_turn(alloc: Global, first: Term, second: Term) -> Result<Term, NoMemory>
    ensures { IfOk result (λ t. plain_term t ≡ product (plain_term first) (plain_term second)) }
{
    let first = Box::new(alloc, first)?;
    let second = Box::new(alloc, second)?;
    Ok(Term::Compose(first, second))
}

fn beside(
    alloc: Global,
    path: &[Tensor],
    first_size: u64,
    first: Term,
    second_size: u64,
    second: Term,
) -> Result<Term, NoMemory>
    ensures { IfOk result (λ t. plain_term t
        ≡ beside path.now first_size (plain_term first) second_size (plain_term second)) }
{
    let path = path.to_vec(alloc)?;
    let first = Box::new(alloc, first)?;
    let second = Box::new(alloc, second)?;
    Ok(Term::Beside {
        path,
        first_size,
        first,
        second_size,
        second,
    })
}
