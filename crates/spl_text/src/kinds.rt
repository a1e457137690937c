// A part of each kind, from what was read of it, or its fault.
ghost use Rattle.std.specs.Prelude.{◌≡◌, ℕ, ◌<◌, ◌≤◌, ◌↔◌, length, List, [], All, IsTrue, IfOk, Option, None, map, false};
ghost use Rattle.std.specs.List.{range_with_len};
ghost use Rattle.spl_ast.specs.Formula.{Identity, Fourier, Hadamard, Twiddles, Diagonal, Stride, Permutation, GoodThomasIn, GoodThomasOut, Product, TensorLeft, TensorRight, DirectSum};
ghost use Rattle.spl_ast.specs.Shape.{IsSize, IsRingValue, AreGoodThomasFactors};
ghost use Rattle.spl_text.specs.Reader.{Judged};
ghost use Rattle.spl_text.specs.declared.reading.Halt.TheVariants as halts;
ghost use Rattle.spl_text.specs.Fault.{are_coprime, first_stray};

use crate::reading::Halt;
use memory::NoMemory;
use operators::MAX_SIZE;
use ring_mod::is_coprime;
use spl_ast::Spl;
use std::alloc::Global;

/// The fault of a part whose size is over the limit.
fn oversize(place: usize, size: u64) -> Halt
    ensures { result ≡ halts.Shape place size 1048576 }
{
    Halt::Shape {
        left: place,
        first: size,
        second: MAX_SIZE,
    }
}

fn misfit(place: usize, first: u64, second: u64) -> Halt
    ensures { result ≡ halts.Shape place first second }
{
    Halt::Shape {
        left: place,
        first,
        second,
    }
}

pub fn identity(place: usize, n: u64) -> Result<Spl, Halt>
    requires { IsSize n }
    ensures { Judged result place (Identity n) }
{
    let _ = place;
    Ok(Spl::identity(n))
}

pub fn fourier(place: usize, n: u64, w: u64) -> Result<Spl, Halt>
    requires size { IsSize n }
    requires root { IsRingValue w }
    ensures { Judged result place (Fourier n w) }
{
    let _ = place;
    Ok(Spl::fourier(n, w))
}

#[tactic(auto, using(tree_model::proofs::PowerOfTwo::power_of_two))]
pub fn hadamard(place: usize, n: u64) -> Result<Spl, Halt>
    requires { IsSize n }
    ensures { Judged result place (Hadamard n) }
{
    if !n.is_power_of_two() {
        return Err(misfit(place, n, 2));
    }
    Ok(Spl::hadamard(n))
}

#[tactic(auto, using(crate::proofs::Coprime::multiple))]
pub fn twiddles(place: usize, n: u64, s: u64, w: u64) -> Result<Spl, Halt>
    requires size { IsSize n }
    requires row { IsSize s }
    requires root { IsRingValue w }
    ensures { Judged result place (Twiddles n s w) }
{
    if n % s != 0 {
        return Err(misfit(place, n, s));
    }
    Ok(Spl::twiddles(n, s, w))
}

#[tactic(auto, using(crate::proofs::Coprime::multiple))]
pub fn stride(place: usize, n: u64, r: u64) -> Result<Spl, Halt>
    requires size { IsSize n }
    requires stride { IsSize r }
    ensures { Judged result place (Stride n r) }
{
    if n % r != 0 {
        return Err(misfit(place, n, r));
    }
    Ok(Spl::stride(n, r))
}

pub fn diagonal(place: usize, values: Vec<u64>) -> Result<Spl, Halt>
    requires some { 0 < length values.items }
    requires values { All IsRingValue values.items }
    ensures { Judged result place (Diagonal values.items) }
{
    let size = values.len() as u64;
    if size > MAX_SIZE {
        return Err(oversize(place, size));
    }
    Ok(Spl::diagonal(values))
}

#[tactic(auto, using(crate::proofs::Strays::permutation_of))]
pub fn permutation(alloc: Global, place: usize, places: Vec<u64>) -> Result<Spl, Halt>
    requires some { 0 < length places.items }
    ensures { Judged result place (Permutation places.items) }
{
    let size = places.len() as u64;
    if let Some(stray) = first_stray(alloc, &places)? {
        return Err(misfit(place, size, stray));
    }
    if size > MAX_SIZE {
        return Err(oversize(place, size));
    }
    Ok(Spl::permutation(places))
}

/// The first entry that is no place of the list, or that stood before.
fn first_stray(alloc: Global, places: &[u64]) -> Result<Option<u64>, NoMemory>
    ensures { IfOk result (λ stray. stray ≡ first_stray (length places.now) [] places.now) }
{
    let mut seen = unmarked(alloc, places.len())?;
    for i in 0..places.len() {
        let place = places[i];
        if place >= places.len() as u64 {
            return Ok(Some(place));
        }
        if seen[place as usize] {
            return Ok(Some(place));
        }
        seen[place as usize] = true;
    }
    Ok(None)
}

fn unmarked(alloc: Global, count: usize) -> Result<Vec<bool>, NoMemory>
    ensures { IfOk result (λ marks. marks.items ≡ map (λ _. false) (range_with_len 0 count)) }
{
    Ok((0..count).map(|_| false).collect(alloc)?)
}

pub fn good_thomas_in(place: usize, r: u64, s: u64) -> Result<Spl, Halt>
    requires first { IsSize r }
    requires second { IsSize s }
    ensures { Judged result place (GoodThomasIn r s) }
{
    if !are_factors(r, s) {
        return Err(misfit(place, r, s));
    }
    if r * s > MAX_SIZE {
        return Err(oversize(place, r * s));
    }
    Ok(Spl::good_thomas_in(r, s))
}

pub fn good_thomas_out(place: usize, r: u64, s: u64) -> Result<Spl, Halt>
    requires first { IsSize r }
    requires second { IsSize s }
    ensures { Judged result place (GoodThomasOut r s) }
{
    if !are_factors(r, s) {
        return Err(misfit(place, r, s));
    }
    if r * s > MAX_SIZE {
        return Err(oversize(place, r * s));
    }
    Ok(Spl::good_thomas_out(r, s))
}

/// Whether a Good-Thomas step may have these factors.
fn are_factors(r: u64, s: u64) -> bool
    requires first { IsSize r }
    requires second { IsSize s }
    ensures value { result ≡ are_coprime r s }
    ensures factors { IsTrue result → AreGoodThomasFactors r s }
{
    if r < 2 {
        return false;
    }
    if s < 2 {
        return false;
    }
    is_coprime(r, s)
}

pub fn product(alloc: Global, place: usize, a: Spl, b: Spl) -> Result<Spl, Halt>
    ensures { Judged result place (Product a b) }
{
    let columns = a.cols();
    let rows = b.rows();
    if columns != rows {
        return Err(misfit(place, columns, rows));
    }
    let f = Spl::compose(alloc, a, b)?;
    Ok(f)
}

pub fn tensor_left(alloc: Global, place: usize, a: Spl, k: u64) -> Result<Spl, Halt>
    requires { IsSize k }
    ensures { Judged result place (TensorLeft a k) }
{
    let size = a.rows() * k;
    if size > MAX_SIZE {
        return Err(oversize(place, size));
    }
    let f = Spl::tensor_left(alloc, a, k)?;
    Ok(f)
}

pub fn tensor_right(alloc: Global, place: usize, k: u64, a: Spl) -> Result<Spl, Halt>
    requires { IsSize k }
    ensures { Judged result place (TensorRight k a) }
{
    let size = k * a.rows();
    if size > MAX_SIZE {
        return Err(oversize(place, size));
    }
    let f = Spl::tensor_right(alloc, k, a)?;
    Ok(f)
}

pub fn direct_sum(alloc: Global, place: usize, a: Spl, b: Spl) -> Result<Spl, Halt>
    ensures { Judged result place (DirectSum a b) }
{
    let size = a.rows() + b.rows();
    if size > MAX_SIZE {
        return Err(oversize(place, size));
    }
    let f = Spl::direct_sum(alloc, a, b)?;
    Ok(f)
}
