// New nests, and copies of nests.
ghost use Rattle.std.specs.Prelude.{◌≡◌, ◌^◌, ◌<◌, ◌≤◌, ◌∷◌, [], IfOk, None, length, map};
ghost use Rattle.std.specs.Option.{option_map};
ghost use Rattle.index_fn.specs.Index.{mapping_of};
ghost use Rattle.index_fn.specs.Mapping.{IsWellFormed, at};
ghost use Rattle.operators.specs.Sum.{list_below};
ghost use Rattle.sigma_spl.specs.Good.{AreBelow};
ghost use Rattle.sigma_spl.specs.Limits.{AreSeveral, HasRows};
ghost use Rattle.sigma_spl.specs.Merge.{copying, one_loop};
ghost use Rattle.sigma_spl.specs.Views.{plain_multiplier, plain_nest, plain_work};
ghost use Rattle.sigma_spl.specs.Work.{HasWords, work_size};
ghost use Rattle.perm_algebra.specs.Affine.{constant};
ghost use Rattle.perm_algebra.specs.Views.{plain_sum};
ghost use Rattle.operators.specs.Paths.Tensors.{count_of, size_under};
ghost use Rattle.sigma_spl.specs.Words.{IsDefinedBelow};
ghost use Rattle.loop_nests.specs.NewNests.{CanMove, copied_by_word, loads_under, moved_nest, natural_nest, stores_under};

use crate::placed::all_placed;
use index_fn::Index;
use memory::NoMemory;
use operators::Tensor;
use perm_algebra::Affine;
use sigma_spl::{Multiplier, Nest, Work, copied_sums, counts, items_in, items_out};
use smallvec::SmallVec;
use std::alloc::Global;

/// Copies of some work, which load and store where their tensors put them.
pub fn natural_nest(alloc: Global, path: &[Tensor], work: Work) -> Result<Nest, NoMemory>
    requires words { HasWords (plain_work work) }
    requires rows { HasRows (plain_work work) }
    requires several { AreSeveral path.now }
    requires some { 0 < work_size (plain_work work) }
    requires high { size_under path.now (work_size (plain_work work)) ≤ 2 ^ 20 }
    ensures { IfOk result (λ z. plain_nest z ≡ natural_nest path.now (plain_work work)) }
{
    let gathers = loads(alloc, path, &work)?;
    let nest = nest_loading(alloc, path, work, gathers)?;
    Ok(nest)
}

// Copies of some work that load from these places, and store where their tensors put them.
fn nest_loading(
    alloc: Global,
    path: &[Tensor],
    work: Work,
    gathers: Vec<Affine>,
) -> Result<Nest, NoMemory>
    requires words { HasWords (plain_work work) }
    requires rows { HasRows (plain_work work) }
    requires several { AreSeveral path.now }
    requires some { 0 < work_size (plain_work work) }
    requires high { size_under path.now (work_size (plain_work work)) ≤ 2 ^ 20 }
    ensures { IfOk result (λ z. plain_nest z ≡ record {
      counts = map count_of path.now;
      work = plain_work work;
      gathers = map plain_sum gathers.items;
      multiplier = None;
      scatters = stores_under path.now (plain_work work);
    }) }
{
    let counts = counts(alloc, path)?;
    let scatters = stores(alloc, path, &work)?;
    Ok(Nest {
        counts,
        work,
        gathers,
        multiplier: None,
        scatters,
    })
}

// Where the work's items are loaded from.
#[tactic(auto, using(crate::proofs::Items::all_named, crate::proofs::Items::loads_named))]
fn loads(alloc: Global, path: &[Tensor], work: &Work) -> Result<Vec<Affine>, NoMemory>
    requires words { HasWords (plain_work work.now) }
    requires rows { HasRows (plain_work work.now) }
    requires several { AreSeveral path.now }
    requires some { 0 < work_size (plain_work work.now) }
    requires high { size_under path.now (work_size (plain_work work.now)) ≤ 2 ^ 20 }
    ensures { IfOk result (λ es.
        map plain_sum es.items ≡ loads_under path.now (plain_work work.now)) }
{
    let items = items_in(alloc, work, path.len() as u64)?;
    let places = all_placed(alloc, path, work.size(), &items)?;
    Ok(places)
}

// Where they are stored.
#[tactic(auto, using(crate::proofs::Items::all_named, crate::proofs::Items::stores_named))]
fn stores(alloc: Global, path: &[Tensor], work: &Work) -> Result<Vec<Affine>, NoMemory>
    requires words { HasWords (plain_work work.now) }
    requires rows { HasRows (plain_work work.now) }
    requires several { AreSeveral path.now }
    requires some { 0 < work_size (plain_work work.now) }
    requires high { size_under path.now (work_size (plain_work work.now)) ≤ 2 ^ 20 }
    ensures { IfOk result (λ es.
        map plain_sum es.items ≡ stores_under path.now (plain_work work.now)) }
{
    let items = items_out(alloc, work, path.len() as u64)?;
    let places = all_placed(alloc, path, work.size(), &items)?;
    Ok(places)
}

/// Copies that take their items from these places of the copy.
#[tactic(auto, using(crate::proofs::Items::places_named))]
pub fn moved_nest(alloc: Global, path: &[Tensor], places: &[u64]) -> Result<Nest, NoMemory>
    requires below { AreBelow (length places.now) places.now }
    requires several { AreSeveral path.now }
    requires some { 0 < length places.now }
    requires high { size_under path.now (length places.now) ≤ 2 ^ 20 }
    ensures { IfOk result (λ z. plain_nest z ≡ moved_nest path.now places.now) }
{
    let nest = listed_nest(alloc, path, places)?;
    Ok(nest)
}

#[tactic(auto, using(crate::proofs::Items::all_named))]
fn listed_nest(alloc: Global, path: &[Tensor], places: &[u64]) -> Result<Nest, NoMemory>
    requires named { CanMove path.now places.now }
    requires several { AreSeveral path.now }
    requires some { 0 < length places.now }
    requires high { size_under path.now (length places.now) ≤ 2 ^ 20 }
    ensures { IfOk result (λ z. plain_nest z ≡ moved_nest path.now places.now) }
{
    let size = places.len() as u64;
    let items = numbers(alloc, places)?;
    let gathers = all_placed(alloc, path, size, &items)?;
    let nest = nest_loading(alloc, path, Work::Copy { size }, gathers)?;
    Ok(nest)
}

fn numbers(alloc: Global, places: &[u64]) -> Result<Vec<Affine>, NoMemory>
    ensures { IfOk result (λ es. map plain_sum es.items ≡ map constant places.now) }
{
    let mut numbers = Vec::new(alloc);
    for place in places {
        numbers.push(Affine::Constant(*place))?;
    }
    Ok(numbers)
}

/// A pass that changes nothing, on `size` words.
#[tactic(auto, using(sigma_spl::proofs::Several::loop_several, crate::proofs::Items::loop_size))]
pub fn copying(alloc: Global, size: u64) -> Result<Vec<Nest>, NoMemory>
    requires some { 0 < size }
    requires high { size ≤ 2 ^ 20 }
    ensures { IfOk result (λ zs. map plain_nest zs.items ≡ copying size) }
{
    let path = one_loop(alloc, size)?;
    let nest = natural_nest(alloc, &path, Work::Copy { size: 1 })?;
    let nests = alone(alloc, nest)?;
    Ok(nests)
}

// A loop over `size` words; there is none for one word.
fn one_loop(alloc: Global, size: u64) -> Result<Vec<Tensor>, NoMemory>
    ensures { IfOk result (λ path. path.items ≡ one_loop size) }
{
    let mut path = Vec::new(alloc);
    if size != 1 {
        path.push(Tensor::Blocks(size))?;
    }
    Ok(path)
}

/// A pass of one nest.
pub fn alone(alloc: Global, nest: Nest) -> Result<Vec<Nest>, NoMemory>
    ensures { IfOk result (λ zs. map plain_nest zs.items ≡ plain_nest nest ∷ []) }
{
    let mut nests = Vec::new(alloc);
    nests.push(nest)?;
    Ok(nests)
}

/// A gather as a copy pass, word by word.
#[tactic(auto, using(crate::proofs::Items::alone_named))]
pub fn copying_words(alloc: Global, size: u64, f: &Index) -> Result<Vec<Nest>, NoMemory>
    requires some { 0 < size }
    requires high { size ≤ 2 ^ 20 }
    requires formed { IsWellFormed (mapping_of f.now) }
    requires defined { IsDefinedBelow size (mapping_of f.now) }
    ensures { IfOk result (λ zs.
        map plain_nest zs.items ≡ copied_by_word size (mapping_of f.now)) }
{
    let places = values(alloc, size, f)?;
    let nest = listed_nest(alloc, &[], &places)?;
    let nests = alone(alloc, nest)?;
    Ok(nests)
}

// The function's values below a size.
#[tactic(auto, using(crate::proofs::Items::values_count, crate::proofs::Items::values_more))]
fn values(alloc: Global, size: u64, f: &Index) -> Result<Vec<u64>, NoMemory>
    requires formed { IsWellFormed (mapping_of f.now) }
    requires defined { IsDefinedBelow size (mapping_of f.now) }
    ensures value { IfOk result (λ ks. ks.items ≡ list_below size (at (mapping_of f.now))) }
    ensures count { IfOk result (λ ks. length ks.items ≡ size) }
{
    let mut values = Vec::new(alloc);
    for i in 0..size {
        values.push(f.at(i))?;
    }
    Ok(values)
}

/// A copy of the nest, in other memory.
pub(crate) fn copied_nest(alloc: Global, nest: &Nest) -> Result<Nest, NoMemory>
    ensures { IfOk result (λ z. plain_nest z ≡ plain_nest nest.now) }
{
    let gathers = copied_sums(alloc, &nest.gathers)?;
    let scatters = copied_sums(alloc, &nest.scatters)?;
    let counts = SmallVec::from_slice(alloc, &nest.counts)?;
    let multiplier = copied_multiplier(alloc, &nest.multiplier)?;
    let work = nest.work.copied(alloc)?;
    Ok(Nest {
        counts,
        work,
        gathers,
        multiplier,
        scatters,
    })
}

fn copied_multiplier(
    alloc: Global,
    multiplier: &Option<Multiplier>,
) -> Result<Option<Multiplier>, NoMemory>
    ensures { IfOk result (λ d.
        option_map plain_multiplier d ≡ option_map plain_multiplier multiplier.now) }
{
    match multiplier {
        None => Ok(None),
        Some(multiplier) => {
            let factors = multiplier.factors.copied(alloc)?;
            let places = copied_sums(alloc, &multiplier.places)?;
            Ok(Some(Multiplier { factors, places }))
        }
    }
}
