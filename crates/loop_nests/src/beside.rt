// Passes side by side.
ghost use Rattle.std.specs.Prelude.{◌≡◌, ◌+◌, ◌^◌, ◌<◌, ◌≤◌, IfOk, map};
ghost use Rattle.sigma_spl.specs.Limits.{AreSeveral};
ghost use Rattle.sigma_spl.specs.Merge.{lifted, side, sides};
ghost use Rattle.operators.specs.Paths.Tensors.{size_under};
ghost use Rattle.loop_nests.specs.Lifted.{AllLift, AreLifted, CanStand};
ghost use Rattle.loop_nests.specs.Parts.{IsPart};
ghost use Rattle.loop_nests.specs.Views.{from_last, plain_pass};

use crate::lifted::{lift_nests, raise_nests};
use crate::nests::copying;
use memory::NoMemory;
use operators::Tensor;
use sigma_spl::Nest;
use std::alloc::Global;

/// The passes of two parts, on lists of `sizes` words, under the tensors of a path: the shorter begins with copies.
pub fn sides(
    alloc: Global,
    path: &[Tensor],
    sizes: (u64, u64),
    first: Vec<Vec<Nest>>,
    second: Vec<Vec<Nest>>,
) -> Result<Vec<Vec<Nest>>, NoMemory>
    requires several { AreSeveral path.now }
    requires some { (0 < sizes.0) × (0 < sizes.1) }
    requires high { size_under path.now (sizes.0 + sizes.1) ≤ 2 ^ 20 }
    requires first { IsPart sizes.0 (from_last first.items) }
    requires second { IsPart sizes.1 (from_last second.items) }
    ensures { IfOk result (λ ps. from_last ps.items ≡ sides path.now sizes.0 sizes.1
        (from_last first.items) (from_last second.items)) }
{
    let mut first = first;
    let mut second = second;
    let both = sides_of(alloc, path, sizes, &mut first, &mut second)?;
    Ok(both)
}

// The passes of two parts, which are taken from their end.
fn sides_of(
    alloc: Global,
    path: &[Tensor],
    sizes: (u64, u64),
    first: &mut Vec<Vec<Nest>>,
    second: &mut Vec<Vec<Nest>>,
) -> Result<Vec<Vec<Nest>>, NoMemory>
    requires stand { CanStand path.now sizes.0 sizes.1 }
    requires first { AreLifted path.now (sizes.0 + sizes.1) 0 (from_last first.old.items) }
    requires second { AreLifted path.now (sizes.0 + sizes.1) sizes.0 (from_last second.old.items) }
    ensures { IfOk result (λ ps. from_last ps.items ≡ sides path.now sizes.0 sizes.1
        (from_last first.old.items) (from_last second.old.items)) }
{
    let (n, k) = sizes;
    match first.pop() {
        None => match second.pop() {
            None => Ok(Vec::new(alloc)),
            Some(other) => {
                let copies = copying(alloc, n)?;
                let last = side(alloc, path, sizes, copies, other)?;
                let mut both = sides_of(alloc, path, sizes, first, second)?;
                both.push(last)?;
                Ok(both)
            }
        },
        Some(pass) => match second.pop() {
            None => {
                let copies = copying(alloc, k)?;
                let last = side(alloc, path, sizes, pass, copies)?;
                let mut both = sides_of(alloc, path, sizes, first, second)?;
                both.push(last)?;
                Ok(both)
            }
            Some(other) => {
                let last = side(alloc, path, sizes, pass, other)?;
                let mut both = sides_of(alloc, path, sizes, first, second)?;
                both.push(last)?;
                Ok(both)
            }
        },
    }
}

// A pass of each part, as one.
fn side(
    alloc: Global,
    path: &[Tensor],
    sizes: (u64, u64),
    first: Vec<Nest>,
    second: Vec<Nest>,
) -> Result<Vec<Nest>, NoMemory>
    requires first { AllLift path.now (sizes.0 + sizes.1) 0 (plain_pass first) }
    requires second { AllLift path.now (sizes.0 + sizes.1) sizes.0 (plain_pass second) }
    requires fits { sizes.0 + sizes.1 < 2 ^ 64 }
    ensures { IfOk result (λ zs.
        plain_pass zs ≡ side path.now sizes.0 sizes.1 (plain_pass first) (plain_pass second)) }
{
    let (n, k) = sizes;
    let mut both = all_lifted(alloc, path, n + k, 0, first)?;
    let mut more = all_lifted(alloc, path, n + k, n, second)?;
    both.append(&mut more)?;
    Ok(both)
}

// The nests of a part. Under no tensors they stand where they are.
fn all_lifted(
    alloc: Global,
    path: &[Tensor],
    size: u64,
    before: u64,
    nests: Vec<Nest>,
) -> Result<Vec<Nest>, NoMemory>
    requires { AllLift path.now size before (plain_pass nests) }
    ensures { IfOk result (λ zs.
        plain_pass zs ≡ map (lifted path.now size before) (plain_pass nests)) }
{
    let mut nests = nests;
    match path.split_first() {
        None => {
            raise_nests(before, &mut nests);
            Ok(nests)
        }
        Some(_) => {
            lift_nests(alloc, path, size, before, &mut nests)?;
            Ok(nests)
        }
    }
}
