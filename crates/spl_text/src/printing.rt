// Writing a formula.
ghost use Rattle.std.specs.Prelude.{◌≡◌, ◌++◌, length, decimal, codes, IfOk, OnOk};
ghost use Rattle.spl_ast.specs.Nesting.{IsComplete, IsPrintable};
ghost use Rattle.spl_text.specs.Spelling.{spelling, spells, values_text, more_text, size_text, pair_text};

use itoa::Buffer;
use memory::NoMemory;
use spl_ast::{Node, Spl};
use std::alloc::Global;

/// The text of a formula that has no part still to be rewritten and at most 128 parentheses open at once, without a
/// line end.
pub fn print_spl(alloc: Global, f: &Spl) -> Result<Vec<u8>, NoMemory>
    requires { IsPrintable f.now }
    ensures value { IfOk result (λ text. text.items ≡ spelling f.now) }
    ensures spells { IfOk result (λ text. spells text.items f.now) }
{
    let _ = &f.node;
    let mut out = Vec::new(alloc);
    write_formula(&mut out, f)?;
    Ok(out)
}

fn write_formula(out: &mut Vec<u8>, f: &Spl) -> Result<(), NoMemory>
    requires { IsComplete f.now }
    ensures { OnOk result (out.new.items ≡ out.old.items ++ spelling f.now) }
{
    match &f.node {
        Node::I(n) => write_one(out, b"I(", *n),
        Node::Dft(n, w) => write_two(out, b"DFT(", *n, *w),
        Node::Wht(n) => write_one(out, b"WHT(", *n),
        Node::Twiddle(n, s, w) => write_three(out, b"T(", *n, *s, *w),
        Node::Diag(values) => write_values(out, b"DIAG(", values),
        Node::L(n, r) => write_two(out, b"L(", *n, *r),
        Node::Perm(places) => write_values(out, b"PERM(", places),
        Node::GtIn(r, s) => write_two(out, b"GTIN(", *r, *s),
        Node::GtOut(r, s) => write_two(out, b"GTOUT(", *r, *s),
        Node::Compose(a, b) => {
            out.extend_from_slice(b"TIMES(")?;
            write_formula(out, a)?;
            out.extend_from_slice(b",")?;
            write_formula(out, b)?;
            close(out)
        }
        Node::TensorLeft(a, k) => {
            out.extend_from_slice(b"LEFT(")?;
            write_formula(out, a)?;
            write_one(out, b",", *k)
        }
        Node::TensorRight(k, a) => {
            put(out, b"RIGHT(", *k)?;
            out.extend_from_slice(b",")?;
            write_formula(out, a)?;
            close(out)
        }
        Node::DirectSum(a, b) => {
            out.extend_from_slice(b"SUM(")?;
            write_formula(out, a)?;
            out.extend_from_slice(b",")?;
            write_formula(out, b)?;
            close(out)
        }
        Node::Todo(_) => unreachable!(),
    }
}

// A word and a number.
fn put(out: &mut Vec<u8>, word: &[u8], number: u64) -> Result<(), NoMemory>
    ensures { OnOk result (out.new.items ≡ out.old.items ++ word.now ++ decimal number) }
{
    let mut buffer = Buffer::new();
    out.extend_from_slice(word)?;
    out.extend_from_slice(buffer.format(number).as_bytes())?;
    Ok(())
}

fn close(out: &mut Vec<u8>) -> Result<(), NoMemory>
    ensures { OnOk result (out.new.items ≡ out.old.items ++ codes ")") }
{
    out.extend_from_slice(b")")?;
    Ok(())
}

fn write_one(out: &mut Vec<u8>, head: &[u8], n: u64) -> Result<(), NoMemory>
    ensures { OnOk result (out.new.items ≡ out.old.items ++ size_text head.now n) }
{
    put(out, head, n)?;
    close(out)
}

fn write_two(out: &mut Vec<u8>, head: &[u8], n: u64, r: u64) -> Result<(), NoMemory>
    ensures { OnOk result (out.new.items ≡ out.old.items ++ pair_text head.now n r) }
{
    put(out, head, n)?;
    write_one(out, b",", r)
}

fn write_three(out: &mut Vec<u8>, head: &[u8], n: u64, s: u64, w: u64) -> Result<(), NoMemory>
    ensures { OnOk result (out.new.items ≡ out.old.items ++ (head.now
        ++ (decimal n ++ (codes "," ++ (decimal s ++ (codes "," ++ (decimal w ++ codes ")"))))))) }
{
    put(out, head, n)?;
    write_two(out, b",", s, w)
}

fn write_values(out: &mut Vec<u8>, head: &[u8], values: &[u64]) -> Result<(), NoMemory>
    ensures { OnOk result (out.new.items
        ≡ out.old.items ++ (head.now ++ (values_text values.now ++ codes ")"))) }
{
    match values {
        [] => {
            out.extend_from_slice(head)?;
            close(out)
        }
        [first, others @ ..] => {
            put(out, head, *first)?;
            write_more(out, others)?;
            close(out)
        }
    }
}

// Each number after a comma.
fn write_more(out: &mut Vec<u8>, values: &[u64]) -> Result<(), NoMemory>
    ensures { OnOk result (out.new.items ≡ out.old.items ++ more_text values.now) }
{
    for value in values {
        put(out, b",", *value)?;
    }
    Ok(())
}
