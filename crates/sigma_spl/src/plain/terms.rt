// Terms, and their copies under the tensors of a path.
ghost use Rattle.std.specs.Prelude.{◌≡◌, ◌*◌, map, IfOk};
ghost use Rattle.sigma_spl.specs.Sigma.{sigma_on, terms_on};
ghost use Rattle.sigma_spl.specs.Term.{term_on};
ghost use Rattle.sigma_spl.specs.Views.{plain_sigma, plain_term};
ghost use Rattle.sigma_spl.specs.Plain.Copies.{cols_on, copy_on, copy_size, part_on, part_size, rows_on};
ghost use Rattle.sigma_spl.specs.Plain.Shape.{AllFit, Fits, FitsCopy};
ghost use Rattle.spl_ast.specs.Meaning.{IsVector};
ghost use Rattle.spl_ast.specs.Shape.{IsSize};

use crate::plain::parts::{gathered, multiplied, scattered};
use crate::plain::works::worked;
use crate::{Sigma, Term};
use memory::NoMemory;
use operators::Tensor;
use ring_mod::Modulus;
use spl_ast::{by_places, turned};
use std::alloc::Global;

impl Sigma {
    /// What the terms do to the residues `x` modulo `m`, each part by its definition.
    pub fn apply_plain(
        alloc: Global,
        m: &Modulus,
        sigma: &Sigma,
        x: &[u64],
    ) -> Result<Vec<u64>, NoMemory>
        requires size { IsSize sigma.now.size }
        requires fits { AllFit sigma.now.size (map plain_term sigma.now.phases.items) }
        requires vector { IsVector m.now sigma.now.size x.now }
        ensures value { IfOk result (λ y. y.items ≡ sigma_on m.now (plain_sigma sigma.now) x.now) }
        ensures vector { IfOk result (λ y. IsVector m.now sigma.now.size y.items) }
    {
        let y = terms_times(alloc, m, sigma.size, &sigma.phases, x)?;
        Ok(y)
    }
}

// The terms, one after the other.
#[tactic(auto, using(crate::proofs::PlainLemmas::Vectors::term_vector))]
fn terms_times(
    alloc: Global,
    m: &Modulus,
    n: u64,
    terms: &[Term],
    x: &[u64],
) -> Result<Vec<u64>, NoMemory>
    requires size { IsSize n }
    requires fit { AllFit n (map plain_term terms.now) }
    requires vector { IsVector m.now n x.now }
    ensures { IfOk result (λ y. y.items ≡ terms_on m.now n (map plain_term terms.now) x.now) }
{
    match terms.split_first() {
        None => Ok(Vec::from_slice(alloc, x)?),
        Some((term, rest)) => {
            let y = times(alloc, m, n, term, x)?;
            terms_times(alloc, m, n, rest, &y)
        }
    }
}

// One term.
#[cycle(terms)]
#[tactic(auto, using(crate::proofs::PlainLemmas::Vectors::term_vector))]
fn times(alloc: Global, m: &Modulus, n: u64, t: &Term, x: &[u64]) -> Result<Vec<u64>, NoMemory>
    requires size { IsSize n }
    requires fits { Fits n (plain_term t.now) }
    requires vector { IsVector m.now n x.now }
    ensures { IfOk result (λ y. y.items ≡ term_on m.now n (plain_term t.now) x.now) }
{
    match t {
        Term::Same => Ok(Vec::from_slice(alloc, x)?),
        Term::Gath(f) => gathered(alloc, n, f, x),
        Term::Scat(f) => scattered(alloc, m, n, f, x),
        Term::DiagAt { path, factors } => multiplied(alloc, m, n, path, factors, x),
        Term::Sum { path, .. } => {
            let y = under(alloc, m, path, t, x)?;
            Ok(y)
        }
        Term::Move { path, .. } => {
            let y = under(alloc, m, path, t, x)?;
            Ok(y)
        }
        Term::Compose(first, second) => {
            let y = times(alloc, m, n, first, x)?;
            times(alloc, m, n, second, &y)
        }
        Term::Beside { path, .. } => under(alloc, m, path, t, x),
    }
}

// What a term does to one copy.
#[cycle(terms)]
fn copy_times(alloc: Global, m: &Modulus, t: &Term, x: &[u64]) -> Result<Vec<u64>, NoMemory>
    requires size { IsSize (copy_size (plain_term t.now)) }
    requires fits { FitsCopy (plain_term t.now) }
    requires vector { IsVector m.now (copy_size (plain_term t.now)) x.now }
    ensures { IfOk result (λ y. y.items ≡ copy_on m.now (plain_term t.now) x.now) }
{
    match t {
        Term::Sum { work, .. } => worked(alloc, m, work, x),
        Term::Move { places, .. } => by_places(alloc, places, x),
        Term::Beside {
            first_size,
            first,
            second_size,
            second,
            ..
        } => {
            let (front, back) = x.split_at(*first_size as usize);
            let mut y = times(alloc, m, *first_size, first, front)?;
            let rest = times(alloc, m, *second_size, second, back)?;
            y.extend_from_slice(&rest)?;
            Ok(y)
        }
        _ => Ok(Vec::new(alloc)),
    }
}

// What the term does to each copy under the tensors of a path.
#[cycle(terms)]
fn under(
    alloc: Global,
    m: &Modulus,
    path: &[Tensor],
    t: &Term,
    x: &[u64],
) -> Result<Vec<u64>, NoMemory>
    requires size { IsSize (part_size path.now (plain_term t.now)) }
    requires fits { FitsCopy (plain_term t.now) }
    requires vector { IsVector m.now (part_size path.now (plain_term t.now)) x.now }
    ensures { IfOk result (λ y. y.items ≡ part_on m.now path.now (plain_term t.now) x.now) }
{
    match path.split_first() {
        None => copy_times(alloc, m, t, x),
        Some((tensor, rest)) => match tensor {
            Tensor::Blocks(count) => in_blocks(alloc, m, *count, rest, t, x),
            Tensor::Columns(count) => in_columns(alloc, m, *count, rest, t, x),
        },
    }
}

// On each of `count` blocks.
#[cycle(terms)]
fn in_blocks(
    alloc: Global,
    m: &Modulus,
    count: u64,
    path: &[Tensor],
    t: &Term,
    x: &[u64],
) -> Result<Vec<u64>, NoMemory>
    requires size { IsSize (count * part_size path.now (plain_term t.now)) }
    requires fits { FitsCopy (plain_term t.now) }
    requires vector { IsVector m.now (count * part_size path.now (plain_term t.now)) x.now }
    ensures { IfOk result (λ y. y.items ≡ rows_on m.now count path.now (plain_term t.now) x.now) }
{
    let size = x.len() as u64 / count;
    let mut out = Vec::new(alloc);
    for i in 0..count {
        let from = (i * size) as usize;
        let part = under(alloc, m, path, t, &x[from..from + size as usize])?;
        out.extend_from_slice(&part)?;
    }
    Ok(out)
}

// On each of `count` columns: on blocks, between two turns.
#[cycle(terms)]
fn in_columns(
    alloc: Global,
    m: &Modulus,
    count: u64,
    path: &[Tensor],
    t: &Term,
    x: &[u64],
) -> Result<Vec<u64>, NoMemory>
    requires size { IsSize (part_size path.now (plain_term t.now) * count) }
    requires fits { FitsCopy (plain_term t.now) }
    requires vector { IsVector m.now (part_size path.now (plain_term t.now) * count) x.now }
    ensures { IfOk result (λ y. y.items ≡ cols_on m.now count path.now (plain_term t.now) x.now) }
{
    let size = x.len() as u64 / count;
    let columns = turned(alloc, count, size, x)?;
    let parts = in_blocks(alloc, m, count, path, t, &columns)?;
    let y = turned(alloc, size, count, &parts)?;
    Ok(y)
}
