// Places of statements from sums of loop variables, by hand.

ghost use Rattle.std.specs.Prelude.{IfOk};
ghost use Rattle.code_gen.specs.PassCode.Conditions.{CanWrite};
ghost use Rattle.perm_algebra.specs.Views.{plain_sum};

use crate::same::same;
use code_gen::{Frame, place_expr};
use icode::program::{Expr, Part};
use perm_algebra::Affine;
use std::alloc::{AllocError, Global};
use std::fmt::Write;
use std::test::Fail;

// 5 + 3 v2 + 2 v0 + 4 v2 + 2 ((7 + v1 + v0) % 6) + ((v0 + v0) / 3)
fn five_and_parts(alloc: Global) -> Result<Affine, Fail>
    ensures { IfOk result (λ sum. CanWrite (plain_sum sum)) }
{
    let end = Box::new(alloc, Affine::Constant(0))?;
    let once = Box::new(alloc, Affine::Variable(1, 0, end))?;
    let twice = Box::new(alloc, Affine::Variable(1, 0, once))?;
    let five = Box::new(alloc, Affine::Constant(5))?;
    let halves = Box::new(alloc, Affine::Quotient(1, twice, 3, five))?;
    let more = Box::new(alloc, Affine::Variable(4, 2, halves))?;
    let seven = Box::new(alloc, Affine::Constant(7))?;
    let row = Box::new(alloc, Affine::Variable(1, 0, seven))?;
    let inner = Box::new(alloc, Affine::Variable(1, 1, row))?;
    let rest = Box::new(alloc, Affine::Remainder(2, inner, 6, more))?;
    let first = Box::new(alloc, Affine::Variable(2, 0, rest))?;
    Ok(Affine::Variable(3, 2, first))
}

// The constant and the variables of a place.
fn write_variables(text: &mut String, place: &Expr) -> Result<(), AllocError> {
    write!(text, "{}", place.constant)?;
    for part in &place.parts {
        match part {
            Part::Proc { factor } => write!(text, "+q*{factor}")?,
            Part::Var { depth, factor } => write!(text, "+v{depth}*{factor}")?,
            _ => write!(text, "+?")?,
        }
    }
    Ok(())
}

// A place whose remainders and quotients are of constants and variables.
fn write_part(text: &mut String, part: &Part) -> Result<(), AllocError> {
    match part {
        Part::Proc { factor } => write!(text, "+q*{factor}"),
        Part::Var { depth, factor } => write!(text, "+v{depth}*{factor}"),
        Part::Rem {
            of,
            divisor,
            factor,
        } => {
            write!(text, "+(")?;
            write_variables(text, of)?;
            write!(text, ")%{divisor}*{factor}")
        }
        Part::Quot {
            of,
            divisor,
            factor,
        } => {
            write!(text, "+(")?;
            write_variables(text, of)?;
            write!(text, ")/{divisor}*{factor}")
        }
        _ => write!(text, "+?"),
    }
}

fn write_place(text: &mut String, place: &Expr) -> Result<(), AllocError> {
    write!(text, "{}", place.constant)?;
    for part in &place.parts {
        write_part(text, part)?;
    }
    Ok(())
}

fn shown(alloc: Global, place: &Expr) -> Result<String, Fail> {
    let mut text = String::new(alloc);
    write_place(&mut text, place)?;
    Ok(text)
}

// By hand: the parts of a variable added up, by rising depth, inside a remainder too.
#[test]
fn places(rt: HostRuntime) -> Result<(), Fail> {
    let alloc = rt.alloc();
    let sum = five_and_parts(alloc)?;
    let alone = Frame {
        shared: false,
        first_loop: 0,
    };
    let text = shown(alloc, &place_expr(alloc, alone, &sum, 3)?)?;
    same(
        &rt,
        text.as_str(),
        "5+v0*2+v2*7+(7+v0*1+v1*1)%6*2+(0+v0*2)/3*1",
    );
    Ok(())
}

#[test]
fn constant_places(rt: HostRuntime) -> Result<(), Fail> {
    let alloc = rt.alloc();
    let alone = Frame {
        shared: false,
        first_loop: 0,
    };
    let text = shown(alloc, &place_expr(alloc, alone, &Affine::Constant(9), 2)?)?;
    same(&rt, text.as_str(), "9");
    Ok(())
}

// By hand: variable 0 is the processor's and variable 1 the lane's, which is left out; that of the only loop is 2.
#[test]
fn places_of_lanes(rt: HostRuntime) -> Result<(), Fail> {
    let alloc = rt.alloc();
    let sum = five_and_parts(alloc)?;
    let lanes = Frame {
        shared: true,
        first_loop: 2,
    };
    let text = shown(alloc, &place_expr(alloc, lanes, &sum, 1)?)?;
    same(&rt, text.as_str(), "5+q*2+v0*7+(7+q*1)%6*2+(0+q*2)/3*1");
    Ok(())
}

// By hand: variable 0 is the processor's.
#[test]
fn shared_places(rt: HostRuntime) -> Result<(), Fail> {
    let alloc = rt.alloc();
    let sum = five_and_parts(alloc)?;
    let shared = Frame {
        shared: true,
        first_loop: 1,
    };
    let text = shown(alloc, &place_expr(alloc, shared, &sum, 2)?)?;
    same(
        &rt,
        text.as_str(),
        "5+q*2+v1*7+(7+q*1+v0*1)%6*2+(0+q*2)/3*1",
    );
    Ok(())
}
