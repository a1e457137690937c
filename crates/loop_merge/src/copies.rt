// Gathers that wait: a pass takes them, and copy passes take what it does not.
ghost use Rattle.std.specs.Prelude.{◌≡◌, ◌∷◌, [], IfOk};
ghost use Rattle.index_fn.specs.Index.{mapping_of};
ghost use Rattle.sigma_spl.specs.Merge.{copies_before, copy_by, most, settled};
ghost use Rattle.loop_nests.specs.Places.Known.{AreSteps, IsKnownPass, IsStep};
ghost use Rattle.loop_nests.specs.Places.Views.{waiting_of};
ghost use Rattle.loop_merge.specs.Known.{HasRoom};
ghost use Rattle.loop_merge.specs.Taken.{taken};
ghost use Rattle.loop_nests.specs.Views.{from_last, plain_pass};

use index_fn::Index;
use loop_nests::{Change, Limits, copying, copying_words, gathered};
use memory::NoMemory;
use sigma_spl::Nest;
use std::alloc::Global;

/// A pass by itself.
pub(crate) fn one_pass(alloc: Global, pass: Vec<Nest>) -> Result<Vec<Vec<Nest>>, NoMemory>
    ensures { IfOk result (λ ps. from_last ps.items ≡ plain_pass pass ∷ []) }
{
    let mut passes = Vec::new(alloc);
    passes.push(pass)?;
    Ok(passes)
}

// One gather as a copy pass: in a loop over all words, or word by word where its place there is over the limits.
fn copy_by(alloc: Global, f: &Index, limits: Limits) -> Result<Vec<Nest>, NoMemory>
    requires room { HasRoom limits.room limits.size }
    requires step { IsStep limits.size (mapping_of f.now) }
    ensures { IfOk result (λ zs.
        plain_pass zs ≡ copy_by (most limits.room) limits.size (mapping_of f.now)) }
{
    let natural = copying(alloc, limits.size)?;
    match gathered(alloc, f, natural, limits)? {
        Change::Made(pass) => Ok(pass),
        Change::Refused(_) => {
            let pass = copying_words(alloc, limits.size, f)?;
            Ok(pass)
        }
    }
}

// Copy passes for gathers: the last of them, and those before it.
fn copies_before(
    alloc: Global,
    pass: Vec<Nest>,
    waiting: &[Index],
    limits: Limits,
) -> Result<Vec<Vec<Nest>>, NoMemory>
    requires room { HasRoom limits.room limits.size }
    requires known { IsKnownPass limits.room limits.size (plain_pass pass) }
    requires steps { AreSteps limits.size (waiting_of waiting.now) }
    ensures { IfOk result (λ ps. from_last ps.items
        ≡ copies_before (most limits.room) limits.size (plain_pass pass)
        (waiting_of waiting.now)) }
{
    match waiting.split_last() {
        None => {
            let passes = one_pass(alloc, pass)?;
            Ok(passes)
        }
        Some((f, rest)) => match gathered(alloc, f, pass, limits)? {
            Change::Made(pass) => {
                let passes = copies_before(alloc, pass, rest, limits)?;
                Ok(passes)
            }
            Change::Refused(pass) => {
                let copies = copy_by(alloc, f, limits)?;
                let mut passes = copies_before(alloc, copies, rest, limits)?;
                passes.push(pass)?;
                Ok(passes)
            }
        },
    }
}

/// The gathers that wait, as copy passes.
pub(crate) fn settled(
    alloc: Global,
    waiting: &[Index],
    limits: Limits,
) -> Result<Vec<Vec<Nest>>, NoMemory>
    requires room { HasRoom limits.room limits.size }
    requires steps { AreSteps limits.size (waiting_of waiting.now) }
    ensures { IfOk result (λ ps. from_last ps.items
        ≡ settled (most limits.room) limits.size (waiting_of waiting.now)) }
{
    match waiting.split_last() {
        None => Ok(Vec::new(alloc)),
        Some((f, rest)) => {
            let pass = copy_by(alloc, f, limits)?;
            let passes = copies_before(alloc, pass, rest, limits)?;
            Ok(passes)
        }
    }
}

/// A pass that takes of the gathers that wait what it can, and copy passes for the others.
pub(crate) fn taken(
    alloc: Global,
    pass: Vec<Nest>,
    waiting: &[Index],
    limits: Limits,
) -> Result<Vec<Vec<Nest>>, NoMemory>
    requires room { HasRoom limits.room limits.size }
    requires known { IsKnownPass limits.room limits.size (plain_pass pass) }
    requires steps { AreSteps limits.size (waiting_of waiting.now) }
    ensures { IfOk result (λ ps. from_last ps.items
        ≡ taken (most limits.room) limits.size (plain_pass pass) (waiting_of waiting.now)) }
{
    match waiting.split_last() {
        None => {
            let passes = one_pass(alloc, pass)?;
            Ok(passes)
        }
        Some((f, rest)) => match gathered(alloc, f, pass, limits)? {
            Change::Made(pass) => {
                let passes = taken(alloc, pass, rest, limits)?;
                Ok(passes)
            }
            Change::Refused(pass) => {
                let mut passes = settled(alloc, waiting, limits)?;
                passes.push(pass)?;
                Ok(passes)
            }
        },
    }
}
