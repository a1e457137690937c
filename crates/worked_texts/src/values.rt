// Arithmetic modulo a number, index functions, and sums of loop variables.

use crate::same::same;
use index_fn::{Index, compose};
use matrix_meaning::{conv_plain, first_bad_power, twiddle_factor};
use perm_algebra::{Affine, simplify};
use ring_mod::{Modulus, QuickModulus, gcd};
use std::alloc::Global;
use std::test::Fail;
use worked_rows::{check, number};

// A call, the modulus and the numbers that it takes, and the value by Python's integers.
const VALUES: &str = "\
pow 4611686018427387903 3 1000000000000000000|Some(2215898355356453769)
pow 4611686018427387903 2 62|Some(1)
pow 4611686018427387903 0 0|Some(1)
mul 4611686018427387903 4611686018427387902 4611686018427387902|Some(1)
add 4611686018427387903 4611686018427387902 4611686018427387902|Some(4611686018427387901)
sub 4611686018427387903 0 4611686018427387902|Some(1)
neg 4611686018427387903 0 0|Some(0)
reduce 4611686018427387903 18446744073709551615 0|Some(3)
reduce 1 0 0|None
reduce 4611686018427387904 0 0|None
quick 4611686018427387903 4611686018427387902 4611686018427387902|Some(1)
quick 4611686018427387903 1234567890123456789 3456789012345678901|Some(2528027654149735671)
quick 12289 12288 12288|Some(1)
quick 12289 6789 1234|Some(8817)
quick 2 1 1|Some(1)
twiddle 17 3 11|Some(15)
inverse 4611686018427387903 65536 0|Some(70368744177664)
inverse 4611686018427387903 3 0|None
inverse 3 1048576 0|Some(1)
inverse 3 0 0|None
inverse 17 4 0|Some(13)
inverse 2 18446744073709551615 0|Some(1)
gcd 17 12 18|Some(6)
gcd 17 0 5|Some(5)
gcd 17 5 0|Some(5)
gcd 17 0 0|Some(0)
gcd 17 65536 65537|Some(1)
bad 17 4 4|None
bad 17 4 16|Some(2)
bad 17 1 1|None
bad 15 4 4|Some(1)
bad 15 4 14|Some(2)
bad 65537 64 8224|None
bad 65537 64 65529|Some(32)
bad 7 6 3|None
bad 8 2 7|None
";

// The value of a call on numbers that are residues, where there is such a modulus. A twiddle factor is one of four columns. The
// bad power is the first power sum that is not 0, of a root of this size.
fn value(call: &str, modulus: u64, a: u64, b: u64) -> Option<u64> {
    let m = Modulus::new(modulus)?;
    let (left, right) = (m.reduce(a), m.reduce(b));
    Some(match call {
        "pow" => m.pow(left, b),
        "add" => m.add(left, right),
        "sub" => m.sub(left, right),
        "neg" => m.neg(left),
        "mul" => m.mul(left, right),
        "inverse" => m.inverse(a)?,
        "gcd" => gcd(a, b),
        "bad" => first_bad_power(&m, a, right)?,
        "quick" => QuickModulus::new(m).mul(left, right),
        "twiddle" => twiddle_factor(&m, 4, left, b),
        _ => left,
    })
}

fn answer(alloc: Global, question: &str) -> Result<String, Fail> {
    let (call, rest) = question.split_once(' ').ok_or("a call")?;
    let (modulus, rest) = rest.split_once(' ').ok_or("a modulus")?;
    let (a, b) = rest.split_once(' ').ok_or("two numbers")?;
    let value = value(call, number(modulus)?, number(a)?, number(b)?);
    Ok(format!(in alloc; "{value:?}")?)
}

#[test]
fn values(rt: HostRuntime) -> Result<(), Fail> {
    check(rt.alloc(), VALUES, answer)
}

// By hand, from the formulas of the permutations.
#[test]
fn places_of_strides(rt: HostRuntime) -> Result<(), Fail> {
    let turn = Index::StridePermutation(2, 3);
    let turn_back = turn.inverse(rt.alloc())?;
    for i in 0..6 {
        let k = i as usize;
        same(&rt, turn.at(i), [0, 2, 4, 1, 3, 5][k]);
        same(&rt, turn_back.at(i), [0, 3, 1, 4, 2, 5][k]);
    }
    Ok(())
}

#[test]
fn places_of_coprime_factors(rt: HostRuntime) {
    let into = Index::ThomasIn(2, 3);
    let out = Index::ThomasOut(2, 3);
    let out_back = Index::ThomasBack(2, 3, 3, 4);
    for i in 0..6 {
        let k = i as usize;
        same(&rt, into.at(i), [0, 2, 4, 3, 5, 1][k]);
        same(&rt, out.at(i), [0, 4, 2, 3, 1, 5][k]);
        same(&rt, out_back.at(i), [0, 4, 2, 3, 1, 5][k]);
    }
}

#[test]
fn composed_places(rt: HostRuntime) -> Result<(), Fail> {
    let composed = compose(rt.alloc(), &Index::Stride(1, 2), &Index::Stride(0, 3))?;
    same(&rt, composed.at(2), 13);
    Ok(())
}

#[test]
fn inverse_of_a_list(rt: HostRuntime) -> Result<(), Fail> {
    let list = Index::Explicit(vec![in rt.alloc(); 1, 2, 0]?);
    let back = list.inverse(rt.alloc())?;
    same(&rt, back.at(0), 2);
    same(&rt, back.at(1), 0);
    same(&rt, back.at(2), 1);
    Ok(())
}

// A variable at a stride permutation.
fn variable_at_strides(alloc: Global) -> Result<String, Fail> {
    let turn = Index::StridePermutation(2, 3);
    let end = Box::new(alloc, Affine::Constant(0))?;
    let place = Affine::Variable(1, 0, end);
    let sum = simplify(alloc, &turn, &place, &[6])?;
    Ok(format!(in alloc; "{sum}")?)
}

// A row and a column at a stride permutation.
fn column_at_strides(alloc: Global) -> Result<String, Fail> {
    let turn = Index::StridePermutation(2, 3);
    let end = Box::new(alloc, Affine::Constant(0))?;
    let column = Box::new(alloc, Affine::Variable(1, 1, end))?;
    let place = Affine::Variable(3, 0, column);
    let sum = simplify(alloc, &turn, &place, &[2, 3])?;
    Ok(format!(in alloc; "{sum}")?)
}

#[test]
fn sums(rt: HostRuntime) -> Result<(), Fail> {
    let variable = variable_at_strides(rt.alloc())?;
    same(&rt, variable.as_str(), "0+(0+v0*1)%3*2+(0+v0*1)/3*1");
    let column = column_at_strides(rt.alloc())?;
    same(&rt, column.as_str(), "0+v1*2+v0*1");
    Ok(())
}

// By hand, from the definition: the item l of the first list times the item k - l of the second.
#[test]
fn convolution_of_four(rt: HostRuntime) -> Result<(), Fail> {
    let modulus = Modulus::new(17).ok_or("a modulus")?;
    if modulus.get() == 17 {
        let product = conv_plain(rt.alloc(), &modulus, &[1, 2, 0, 0], &[1, 2, 3, 4])?;
        same(&rt, product.as_slice(), [9, 4, 7, 10].as_slice());
    }
    Ok(())
}

#[test]
fn convolution_of_one(rt: HostRuntime) -> Result<(), Fail> {
    let modulus = Modulus::new(17).ok_or("a modulus")?;
    if modulus.get() == 17 {
        let product = conv_plain(rt.alloc(), &modulus, &[16], &[16])?;
        same(&rt, product.as_slice(), [1].as_slice());
    }
    Ok(())
}
