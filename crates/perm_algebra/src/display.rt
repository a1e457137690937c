// How sums are written.
ghost use Rattle.std.specs.Prelude.{◌≡◌, Some};
ghost use Rattle.std.specs.Fmt.{WritesOnOk};
ghost use Rattle.perm_algebra.specs.Text.{constant_of, parts_text, sum_text};
ghost use Rattle.perm_algebra.specs.Views.{plain_sum};

use crate::Affine;
use std::fmt;

/// The constant, and then each part as a listing writes it: `v0*3`, `(0+v0*1)%3*2`, `(0+v0*1)/3*1`.
impl fmt::Display for Affine {
    ghost output = { λ sum. Some (sum_text (plain_sum sum)) };

    fn fmt<W: fmt::Write>(&self, f: &mut fmt::Formatter<W>) -> fmt::Result {
        write_sum(self, f)
    }
}

// The constant at the end of a sum.
fn constant(sum: &Affine) -> u64
    ensures { result ≡ constant_of (plain_sum sum.now) }
{
    match sum {
        Affine::Constant(c) => *c,
        Affine::Variable(_, _, rest) => constant(rest),
        Affine::Remainder(_, _, _, rest) => constant(rest),
        Affine::Quotient(_, _, _, rest) => constant(rest),
    }
}

#[cycle(display)]
fn write_sum<W: fmt::Write>(sum: &Affine, f: &mut fmt::Formatter<W>) -> fmt::Result
    ensures { WritesOnOk W.write_str_gives f.old result (sum_text (plain_sum sum.now)) f.new }
{
    write!(f, "{}", constant(sum))?;
    write_parts(sum, f)
}

#[cycle(display)]
fn write_parts<W: fmt::Write>(sum: &Affine, f: &mut fmt::Formatter<W>) -> fmt::Result
    ensures { WritesOnOk W.write_str_gives f.old result (parts_text (plain_sum sum.now)) f.new }
{
    match sum {
        Affine::Constant(_) => Ok(()),
        Affine::Variable(factor, variable, rest) => {
            write!(f, "+v{variable}*{factor}")?;
            write_parts(rest, f)
        }
        Affine::Remainder(factor, of, divisor, rest) => {
            write!(f, "+(")?;
            write_sum(of, f)?;
            write!(f, ")%{divisor}*{factor}")?;
            write_parts(rest, f)
        }
        Affine::Quotient(factor, of, divisor, rest) => {
            write!(f, "+(")?;
            write_sum(of, f)?;
            write!(f, ")/{divisor}*{factor}")?;
            write_parts(rest, f)
        }
    }
}
