// Listings: what is read and printed again, and the line where a text is no listing.

use crate::same::same;
use listing_text::{ListingFault, print_listing, read_listing};
use std::alloc::{AllocError, Global};
use std::fmt::Write;
use std::test::Fail;
use worked_rows::{check, number, spelled};

// The transform of size 4 with root 4, modulo 17, by its definition.
const LEAF: &str = "program size 4 mod 17 procs 1 line 1 lanes 1 regs 3
table 0 values 1 4 16 13
phase
for v0 4
zero r0
for v1 4
ld r1 X[0+v1*1]
mul r2 r1 t0[0+(0+v0*v1*1)%4*1] step 0
add r0 r0 r2
end
st Y[0+v0*1] r0
end
end
";

/// The transform of size 2 with root 4, modulo 15.
pub(crate) const PAIR: &str = "program size 2 mod 15 procs 1 line 1 lanes 1 regs 5
phase
ld r0 X[0]
ld r1 X[1]
add r2 r0 r1
mul r3 r1 4
add r4 r0 r3
st Y[0] r2
st Y[1] r4
end
";

/// The transform of size 4 with root 4, modulo 17, on two processors.
pub(crate) const QUAD: &str = "program size 4 mod 17 procs 2 line 1 lanes 1 regs 6
table 0 values 1 1 1 4
phase
ld r0 X[0+q*1]
ld r1 X[2+q*1]
add r2 r0 r1
sub r3 r0 r1
mul r4 r2 t0[0+q*2] step 0
st A[0+q*2] r4
mul r5 r3 t0[1+q*2] step 0
st A[1+q*2] r5
end
phase
ld r0 A[0+q*1]
ld r1 A[2+q*1]
add r2 r0 r1
sub r3 r0 r1
st Y[0+q*1] r2
st Y[2+q*1] r3
end
";

// Every form, and numbers at their limits.
const ALL_FORMS: &str =
    "program size 1048576 mod 4611686018427387903 procs 16 line 64 lanes 16 regs 1048575
table 0 values 0
table 1 values 4611686018427387902 1
phase
end
phase
for v0 4294967295
for v1 1
neg r4294967295 r0
tile r16 r0
ld r2 B[4294967295+q*4294967295+v0*1+v1*2+v0*v1*3+(1+v0*4)%5*6+(7+(8+q*9)/10*11)/12*13]
mul r3 r2 4611686018427387902
mul r3 r2 t4294967295[0] step 1
end
end
end
";

fn printed(alloc: Global, text: &str) -> Result<Vec<u8>, Fail> {
    let program = read_listing(alloc, text.as_bytes())
        .ok()
        .ok_or("a listing")?;
    Ok(print_listing(alloc, &program)?)
}

#[test]
fn printed_as_read(rt: HostRuntime) -> Result<(), Fail> {
    for text in [LEAF, PAIR, QUAD, ALL_FORMS] {
        same(&rt, printed(rt.alloc(), text)?.as_slice(), text.as_bytes());
    }
    Ok(())
}

// The line where a text is lost, or 0 for a listing.
fn lost_line(alloc: Global, text: &str) -> u64 {
    match read_listing(alloc, text.as_bytes()) {
        Ok(_) => 0,
        Err(ListingFault::Syntax { line }) => line,
        Err(ListingFault::NoMemory) => u64::MAX,
    }
}

fn lost_text(alloc: Global, text: &str) -> Result<String, Fail> {
    Ok(format!(in alloc; "{}", lost_line(alloc, text))?)
}

// A text, and the line where it is lost.
const TEXTS: &str = "\
|1
program size 2 mod 15 procs 1 line 1 lanes 1 regs 5|1
program size 2 mod 15 procs 1 line 1 lanes 1 regs 5\r~phase~end~|1
program size 2 mod 15 procs 1 line 1 lanes 1 regs 5~|2
program size 0 mod 15 procs 1 line 1 lanes 1 regs 5~phase~end~|1
program size 1048577 mod 15 procs 1 line 1 lanes 1 regs 5~phase~end~|1
program size 2 mod 4611686018427387904 procs 1 line 1 lanes 1 regs 5~phase~end~|1
program size 2 mod 1 procs 1 line 1 lanes 1 regs 5~phase~end~|1
program size 2 mod 15 procs 17 line 1 lanes 1 regs 5~phase~end~|1
program size 2 mod 15 procs 1 line 65 lanes 1 regs 5~phase~end~|1
program size 2 mod 15 procs 1 line 1 lanes 17 regs 5~phase~end~|1
program size 2 mod 15 procs 1 line 1 lanes 1 regs 1048576~phase~end~|1
program size 2 mod 15 procs 1 line 1 lanes 1 regs 0~phase~end~|0
program size 2 mod 15 procs 1 line 1 lanes 1 regs 0~phase~end|3
program size 2 mod 15 procs 1 line 1 lanes 1 regs 0~phase~end~~|4
program size 2 mod 15 procs 1 line 1 lanes 1 regs 0~phase~|3
program size 2 mod 15 procs 1 line 1 lanes 1 regs 0~table 1 values 1~phase~end~|2
program size 2 mod 15 procs 1 line 1 lanes 1 regs 0~table 0 values~phase~end~|2
program size 2 mod 15 procs 1 line 1 lanes 1 regs 0~table 0 values 15~phase~end~|2
program size 2 mod 15 procs 1 line 1 lanes 1 regs 0~phase~end~table 0 values 1~|4
program size 2 mod 15 procs 1 line 1 lanes 1 regs 5~phase~ld r0 X[0]~|4
program size 2 mod 15 procs 1 line 1 lanes 1 regs 5~phase~ld r0 X[0]~ld r1 X[01]~end~|4
";

fn lost(alloc: Global, text: &str) -> Result<String, Fail> {
    lost_text(alloc, &spelled(alloc, text)?)
}

#[test]
fn lost_lines(rt: HostRuntime) -> Result<(), Fail> {
    check(rt.alloc(), TEXTS, lost)
}

// Lines inside two loops, from the text's fifth line on, and the line where the text is lost.
const LINES: &str = "\
add r2 r0 r9|0
add r2 r0  r9|5
add r2 r0 r4294967296|5
zero r0 |5
mul r1 r0 14|0
mul r1 r0 15|5
mul r1 r0 t0[0] step 1|0
mul r1 r0 t0[0] step 2|5
mul r1 r0 t4294967296[0] step 0|5
ld r0 C[0]|5
ld r0 X[4294967296]|5
ld r0 X[0+q*0]|5
ld r0 X[0+q*1+q*1]|5
ld r0 X[0+v0*1+q*1]|5
ld r0 X[0+v0*1+v1*1]|0
ld r0 X[0+v1*1+v0*1]|5
ld r0 X[0+v1*1+v1*1]|5
ld r0 X[0+v2*1]|5
ld r0 X[0+v0*v1*1]|0
ld r0 X[0+v0*v0*1]|5
ld r0 X[0+v1*v0*1]|5
ld r0 X[0+v0*v1*1+v1*1]|5
ld r0 X[0+(0)%1*1+(0)%1*1]|0
ld r0 X[0+(0)/1*1+(0)/1*1]|0
ld r0 X[0+(0)%1*1+(0)/1*1]|0
ld r0 X[0+(0)/1*1+(0)%1*1]|5
ld r0 X[0+(0)%0*1]|5
ld r0 X[0+(0)%1*0]|5
ld r0 X[0+(0%1*1]|5
for v2 1~end|0
for v1 1~end|5
for v2 0~end|5
for v2 4294967296~end|5
";

fn inside_loops(alloc: Global, line: &str) -> Result<String, Fail> {
    let header = "program size 2 mod 15 procs 1 line 1 lanes 1 regs 5";
    Ok(format!(in alloc; "{header}\nphase\nfor v0 2\nfor v1 3\n{line}\nend\nend\nend\n")?)
}

fn lost_inside_loops(alloc: Global, line: &str) -> Result<String, Fail> {
    let text = inside_loops(alloc, line)?;
    lost(alloc, &text)
}

#[test]
fn lines_of_a_phase(rt: HostRuntime) -> Result<(), Fail> {
    check(rt.alloc(), LINES, lost_inside_loops)
}

// A program with `count` loops, one inside the other.
fn write_nested_loops(text: &mut String, count: u64) -> Result<(), AllocError> {
    text.push_str("program size 2 mod 15 procs 1 line 1 lanes 1 regs 5\nphase\n")?;
    for depth in 0..count {
        write!(text, "for v{depth} 2\n")?;
    }
    write_times(text, count, "end\n")?;
    text.push_str("end\n")
}

/// This text, `count` times.
pub(crate) fn write_times(text: &mut String, count: u64, piece: &str) -> Result<(), AllocError> {
    for _ in 0..count {
        text.push_str(piece)?;
    }
    Ok(())
}

/// A place with a number of parts in each of a number of parentheses.
pub(crate) fn write_place(
    text: &mut String,
    parentheses: u64,
    parts: u64,
) -> Result<(), AllocError> {
    text.push_str("0")?;
    write_times(text, parentheses, "+(0")?;
    write_times(text, parts, "+(0)%2*1")?;
    write_times(text, parentheses, ")/2*1")
}

/// The numbers of parentheses and of parts in each.
pub(crate) fn depths(counts: &str) -> Result<(u64, u64), Fail> {
    let (parentheses, parts) = counts.split_once(' ').ok_or("two numbers")?;
    Ok((number(parentheses)?, number(parts)?))
}

/// The parentheses and parts of places that are as deep as may be, or deeper, and the line where the text is lost: 0, or the
/// line of the place for `LOST`.
pub(crate) const DEPTHS: &str = "\
64 0|0
65 0|LOST
0 64|0
0 65|LOST
32 33|LOST
";

fn line_of_place(alloc: Global, parentheses: u64, parts: u64) -> Result<String, AllocError> {
    let mut line = String::new(alloc);
    line.push_str("ld r0 X[")?;
    write_place(&mut line, parentheses, parts)?;
    line.push_str("]")?;
    Ok(line)
}

fn lost_place(alloc: Global, counts: &str) -> Result<String, Fail> {
    let (parentheses, parts) = depths(counts)?;
    lost_inside_loops(alloc, &line_of_place(alloc, parentheses, parts)?)
}

#[test]
fn limits_of_places(rt: HostRuntime) -> Result<(), Fail> {
    let rows = DEPTHS.replace(rt.alloc(), "LOST", "5")?;
    check(rt.alloc(), &rows, lost_place)
}

// The number of loops, and the line where the text is lost.
const LOOPS: &str = "\
64|0
65|67
";

fn lost_loop(alloc: Global, count: &str) -> Result<String, Fail> {
    let mut text = String::new(alloc);
    write_nested_loops(&mut text, number(count)?)?;
    lost_text(alloc, &text)
}

#[test]
fn limits_of_loops(rt: HostRuntime) -> Result<(), Fail> {
    check(rt.alloc(), LOOPS, lost_loop)
}
