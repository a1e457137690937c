// The parts that are made of numbers alone, after their heads. A part begins at a place, by how much of the text is left there.
ghost use Rattle.grammar.specs.Stops.{tested_at};
ghost use Rattle.spl_ast.specs.Formula.{Identity, Fourier, Hadamard, Twiddles, Diagonal, Stride, Permutation, GoodThomasIn, GoodThomasOut};
ghost use Rattle.spl_text.specs.Reader.{Says};
ghost use Rattle.spl_text.specs.Arguments.{one_size_at, two_sizes_at, size_value_at, sizes_value_at, values_at};
ghost use Rattle.spl_text.specs.Fault.{shape_fault};
ghost use Rattle.spl_text.specs.Reading.{made_at};

use crate::arguments::{one_size, size_value, sizes_value, two_sizes, values};
use crate::kinds;
use crate::reading::Halt;
use grammar::Cursor;
use spl_ast::Spl;
use std::alloc::Global;

#[tactic(auto, using(crate::proofs::Judging::says_judged))]
pub fn identity(cursor: &mut Cursor, place: usize) -> Result<Spl, Halt>
    ensures { Says result cursor.new
        (tested_at place shape_fault (made_at one_size_at Identity cursor.old)) }
{
    let n = one_size(cursor)?;
    kinds::identity(place, n)
}

#[tactic(auto, using(crate::proofs::Judging::says_judged))]
pub fn fourier(cursor: &mut Cursor, place: usize) -> Result<Spl, Halt>
    ensures { Says result cursor.new
        (tested_at place shape_fault (made_at size_value_at (λ x. Fourier x.0 x.1) cursor.old)) }
{
    let (n, w) = size_value(cursor)?;
    kinds::fourier(place, n, w)
}

#[tactic(auto, using(crate::proofs::Judging::says_judged))]
pub fn hadamard(cursor: &mut Cursor, place: usize) -> Result<Spl, Halt>
    ensures { Says result cursor.new
        (tested_at place shape_fault (made_at one_size_at Hadamard cursor.old)) }
{
    let n = one_size(cursor)?;
    kinds::hadamard(place, n)
}

#[tactic(auto, using(crate::proofs::Judging::says_judged))]
pub fn twiddles(cursor: &mut Cursor, place: usize) -> Result<Spl, Halt>
    ensures { Says result cursor.new (tested_at place shape_fault
        (made_at sizes_value_at (λ x. Twiddles x.0 x.1 x.2) cursor.old)) }
{
    let (n, s, w) = sizes_value(cursor)?;
    kinds::twiddles(place, n, s, w)
}

#[tactic(auto, using(crate::proofs::Judging::says_judged))]
pub fn stride(cursor: &mut Cursor, place: usize) -> Result<Spl, Halt>
    ensures { Says result cursor.new
        (tested_at place shape_fault (made_at two_sizes_at (λ x. Stride x.0 x.1) cursor.old)) }
{
    let (n, r) = two_sizes(cursor)?;
    kinds::stride(place, n, r)
}

#[tactic(auto, using(crate::proofs::Judging::says_judged))]
pub fn good_thomas_in(cursor: &mut Cursor, place: usize) -> Result<Spl, Halt>
    ensures { Says result cursor.new (tested_at place shape_fault
        (made_at two_sizes_at (λ x. GoodThomasIn x.0 x.1) cursor.old)) }
{
    let (r, s) = two_sizes(cursor)?;
    kinds::good_thomas_in(place, r, s)
}

#[tactic(auto, using(crate::proofs::Judging::says_judged))]
pub fn good_thomas_out(cursor: &mut Cursor, place: usize) -> Result<Spl, Halt>
    ensures { Says result cursor.new (tested_at place shape_fault
        (made_at two_sizes_at (λ x. GoodThomasOut x.0 x.1) cursor.old)) }
{
    let (r, s) = two_sizes(cursor)?;
    kinds::good_thomas_out(place, r, s)
}

#[tactic(auto, using(crate::proofs::Judging::says_judged))]
pub fn diagonal(alloc: Global, cursor: &mut Cursor, place: usize) -> Result<Spl, Halt>
    ensures { Says result cursor.new
        (tested_at place shape_fault (made_at values_at Diagonal cursor.old)) }
{
    let c = values(alloc, cursor)?;
    kinds::diagonal(place, c)
}

#[tactic(auto, using(crate::proofs::Judging::says_judged))]
pub fn permutation(alloc: Global, cursor: &mut Cursor, place: usize) -> Result<Spl, Halt>
    ensures { Says result cursor.new
        (tested_at place shape_fault (made_at values_at Permutation cursor.old)) }
{
    let k = values(alloc, cursor)?;
    kinds::permutation(alloc, place, k)
}
