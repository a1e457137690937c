//! Rows of tables for tests: a question and its answer on a line, which hold texts, and numbers with spaces between them.
#![tactic(auto)]

use std::alloc::{AllocError, Global};
use std::fmt::Write;
use std::test::Fail;

/// The listing of the transform of size 2 with root 4, modulo 15.
pub const PAIR: &str = "program size 2 mod 15 procs 1 line 1 lanes 1 regs 5
phase
ld r0 X[0]
ld r1 X[1]
add r2 r0 r1
mul r3 r1 4
add r4 r0 r3
st Y[0] r2
st Y[1] r4
end
";

/// The listing of the transform of size 4 with root 4, modulo 17, on two processors.
pub const QUAD: &str = "program size 4 mod 17 procs 2 line 1 lanes 1 regs 6
table 0 values 1 1 1 4
phase
ld r0 X[0+q*1]
ld r1 X[2+q*1]
add r2 r0 r1
sub r3 r0 r1
mul r4 r2 t0[0+q*2] step 0
st A[0+q*2] r4
mul r5 r3 t0[1+q*2] step 0
st A[1+q*2] r5
end
phase
ld r0 A[0+q*1]
ld r1 A[2+q*1]
add r2 r0 r1
sub r3 r0 r1
st Y[0+q*1] r2
st Y[2+q*1] r3
end
";

/// The text with a line end for each `~`.
pub fn spelled(alloc: Global, text: &str) -> Result<String, Fail> {
    Ok(text.replace(alloc, "~", "\n")?)
}

/// The text of the bytes with a `~` for each line end.
pub fn shown(alloc: Global, bytes: &[u8]) -> Result<String, Fail> {
    let text = std::str::from_utf8(bytes).ok().ok_or("a text")?;
    Ok(text.replace(alloc, "\n", "~")?)
}

/// The number that the word spells.
pub fn number(word: &str) -> Result<u64, Fail> {
    Ok(word.parse::<u64>().ok().ok_or("a number")?)
}

/// The numbers of the text, between white space.
pub fn numbers(alloc: Global, text: &str) -> Result<Vec<u64>, Fail> {
    let mut numbers = Vec::new(alloc);
    for word in text.split_whitespace() {
        numbers.push(number(word)?)?;
    }
    Ok(numbers)
}

/// Adds the number, after a space where the text has begun.
pub fn write_number(text: &mut String, number: u64) -> Result<(), AllocError> {
    if !text.is_empty() {
        text.push_str(" ")?;
    }
    write!(text, "{number}")
}

/// The numbers with a space between them.
pub fn joined(alloc: Global, numbers: &[u64]) -> Result<String, Fail> {
    let mut text = String::new(alloc);
    for number in numbers {
        write_number(&mut text, *number)?;
    }
    Ok(text)
}

/// The row's two parts, before and after its last stroke.
pub fn halves(row: &str) -> Result<(&str, &str), Fail> {
    Ok(row.rsplit_once('|').ok_or("a stroke")?)
}

/// The first field, before `; `, and the rest.
pub fn field(row: &str) -> Result<(&str, &str), Fail> {
    Ok(row.split_once("; ").ok_or("a field")?)
}

fn check_row<F: Fn(Global, &str) -> Result<String, Fail>>(
    alloc: Global,
    row: &str,
    answer: &F,
) -> Result<(), Fail>
    requires { F.IsAlwaysCallable answer.now }
{
    let (question, wanted) = halves(row)?;
    let answer = answer(alloc, question)?;
    if answer.as_str() == wanted {
        Ok(())
    } else {
        Err(Fail::from(format!(in alloc; "{answer}, but the row is {row}")?))
    }
}

/// The answer to each row's question, which stands before its last stroke, is what comes after it.
pub fn check<F: Fn(Global, &str) -> Result<String, Fail>>(
    alloc: Global,
    rows: &str,
    answer: F,
) -> Result<(), Fail>
    requires { F.IsAlwaysCallable answer }
{
    for row in rows.lines() {
        check_row(alloc, row, &answer)?;
    }
    Ok(())
}
