// Direct sums, grouped in halves.

ghost use Rattle.std.specs.Prelude.{◌≡◌, ℕ, ◌+◌, ◌≤◌, ◌++◌, All, IfOk, OnOk, vec_len};
ghost use Rattle.std.specs.List.{flat_map};
ghost use Rattle.spl_ast.specs.Halves.Depth.{IsBalanced, IsSummand, IsSumOf};
ghost use Rattle.spl_ast.specs.Halves.Balanced.{balanced, balanced_summands};
ghost use Rattle.spl_ast.specs.Halves.Summands.{summands};
ghost use Rattle.spl_ast.specs.Halves.Taken.{IsTakenFrom};
ghost use Rattle.spl_ast.specs.Halves.Rows.{rows_of};
ghost use Rattle.operators.specs.Sizes.{max_size};
ghost use Rattle.spl_ast.specs.Formula.{size_of};
ghost use Rattle.spl_ast.specs.Meaning.{IsSameMatrix};

use crate::{Node, Spl};
use memory::NoMemory;
use std::alloc::Global;

/// The formula with each of its direct sums, wherever it stands, grouped in halves.
#[cycle(balance)]
pub fn balance(alloc: Global, formula: Spl) -> Result<Spl, NoMemory>
    ensures summands { IfOk result (λ g. summands g ≡ summands formula) }
    ensures same { IfOk result (λ g. (m : ℕ) → IsSameMatrix m formula g) }
    ensures balanced { IfOk result IsBalanced }
    ensures halves { IfOk result (λ g. g ≡ balanced formula) }
{
    // For the proof: the formula is well formed.
    let _ = &formula.node;
    let mut parts = Vec::new(alloc);
    add_summands(alloc, &mut parts, formula)?;
    let count = parts.len();
    let sum = take_sum(alloc, &mut parts, count)?;
    // For the proof: the sum is well formed.
    let _ = &sum.node;
    Ok(sum)
}

// Appends the summands of a formula, each balanced.
#[cycle(balance)]
#[tactic(auto, using(crate::proofs::HalvesLemmas::Lists::rows_more, crate::proofs::HalvesLemmas::Sums::rows_alike))]
fn add_summands(alloc: Global, parts: &mut Vec<Spl>, formula: Spl) -> Result<(), NoMemory>
    requires apart { All IsSummand parts.old.items }
    ensures apart { OnOk result (All IsSummand parts.new.items) }
    ensures summands { OnOk result (flat_map summands parts.new.items
        ≡ flat_map summands parts.old.items ++ summands formula) }
    ensures rows { OnOk result
        (rows_of parts.new.items ≡ rows_of parts.old.items + size_of formula) }
    ensures items { OnOk result
        (parts.new.items ≡ parts.old.items ++ balanced_summands formula) }
    ensures more { OnOk result (1 + vec_len parts.old ≤ vec_len parts.new) }
{
    let node = formula.node;
    match node {
        Node::DirectSum(a, b) => {
            add_summands(alloc, parts, Box::into_inner(a))?;
            add_summands(alloc, parts, Box::into_inner(b))?;
            Ok(())
        }
        Node::Compose(a, b) => {
            let a = balance(alloc, Box::into_inner(a))?;
            let b = balance(alloc, Box::into_inner(b))?;
            parts.push(Spl::compose(alloc, a, b)?)?;
            Ok(())
        }
        Node::TensorLeft(a, k) => {
            let a = balance(alloc, Box::into_inner(a))?;
            parts.push(Spl::tensor_left(alloc, a, k)?)?;
            Ok(())
        }
        Node::TensorRight(k, a) => {
            let a = balance(alloc, Box::into_inner(a))?;
            parts.push(Spl::tensor_right(alloc, k, a)?)?;
            Ok(())
        }
        Node::Todo(a) => {
            let a = balance(alloc, Box::into_inner(a))?;
            parts.push(Spl::pending(alloc, a)?)?;
            Ok(())
        }
        leaf => {
            parts.push(Spl { node: leaf })?;
            Ok(())
        }
    }
}

// The sum of the last `count` parts, in halves, which it takes away.
#[tactic(auto, using(crate::proofs::HalvesLemmas::Lists::rows_more, crate::proofs::HalvesLemmas::Depths::single_sum, crate::proofs::HalvesLemmas::Depths::sum_of_halves, crate::proofs::HalvesLemmas::Balanced::single_taken, crate::proofs::HalvesLemmas::Balanced::halves_taken))]
fn take_sum(alloc: Global, parts: &mut Vec<Spl>, count: usize) -> Result<Spl, NoMemory>
    requires some { 1 ≤ count }
    requires there { count ≤ vec_len parts.old }
    requires rows { rows_of parts.old.items ≤ max_size }
    requires apart { All IsSummand parts.old.items }
    ensures apart { IfOk result (λ g. All IsSummand parts.new.items) }
    ensures balanced { IfOk result (IsSumOf count) }
    ensures summands { IfOk result (λ g. flat_map summands parts.old.items
        ≡ flat_map summands parts.new.items ++ summands g) }
    ensures rows { IfOk result
        (λ g. rows_of parts.old.items ≡ rows_of parts.new.items + size_of g) }
    ensures taken { IfOk result (λ g. vec_len parts.old ≡ vec_len parts.new + count) }
    ensures halves { IfOk result (IsTakenFrom count parts.old.items parts.new.items) }
{
    if count == 1 {
        let Some(last) = parts.pop() else {
            unreachable!()
        };
        return Ok(last);
    }
    let half = count / 2;
    let second = take_sum(alloc, parts, count - half)?;
    let first = take_sum(alloc, parts, half)?;
    let sum = Spl::direct_sum(alloc, first, second)?;
    Ok(sum)
}
