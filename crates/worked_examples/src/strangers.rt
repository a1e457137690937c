// Listings that anyone may have written, and what `exec` makes of them.

use crate::call::{long_tells, tells, written};
use crate::rows::{lines_of, wanted, wanted_of};
use crate::streams::streams_tell;
use std::alloc::Global;
use std::process::Abort;
use std::test::Fail;
use worked_rows::{QUAD, field};

// A request, the words after `exec`, a vector, and what its listing makes of it. A stroke stands for a line end.
const LISTED: &str = "\
dft 4 mod 17 root 4; exec; 1 2 3 4; 10 7 15 6/
dft 4 mod 17 root 4; exec --schedule rr:3; 1 2 3 4 1 2 3 4/; 10 7 15 6/10 7 15 6/
dft 4 mod 17 root 4 procs 2 line 1; exec; 1 2 3 4/; 10 7 15 6/
dft 4 mod 17 root 4 procs 2 line 1; exec --schedule turns:1,1,1,0; 1 2 3 4; 10 7 15 6/
dft 4 mod 17 root 4 procs 2 line 1; exec --schedule seed:1:100; 18 19 20 21; 10 7 15 6/
dft 16 mod 17 root 3 procs 2 line 2 lanes 2; exec; 0 1 0 0 0 0 0 0 0 0 0 0 0 0 0 0; 1 3 9 10 13 5 15 11 16 14 8 7 4 12 2 6/
wht 4 mod 5 lanes 2; exec; 1 2 3 4; 0 3 1 0/
dft 1 mod 2 root 1; exec; 3 4/; 1/0/
dft 4 mod 17 root 4; exec; -; -
";

// What stands in the listing of `QUAD`, whose first phase ends with line 12 of 20, what takes its place, the words, what comes after the listing, and the answer: the status'
// code, the output and the note. A stroke stands for a line end, and a dash for nothing.
const CHANGED: &str = "\
-; -; exec; /1 2 3 4; 0; 10 7 15 6/; -
-; -; exec; /; 0; -; -
-; -; exec; -; 0; -; -
X[0+q*1]; X[3+q*1]; exec; /1 2 3 4; 19; -; bad place in phase 0, processor 1, action 0
X[0+q*1]; X[99]; exec; /1 2 3 4; 19; -; bad place in phase 0, processor 0, action 0
t0[1+q*2]; t0[2+q*2]; exec; /1 2 3 4; 19; -; bad place in phase 0, processor 1, action 6
Y[2+q*1]; Y[3+q*1]; exec; /1 2 3 4; 19; -; bad place in phase 1, processor 1, action 5
regs 6; regs 5; exec; /1 2 3 4; 20; -; bad register in phase 0, processor 0, action 6
ld r0 X; ld r6 X; exec; /1 2 3 4; 20; -; bad register in phase 0, processor 0, action 0
A[1+q*2] r5; A[1] r5; exec; /1 2 3 4; 21; -; phase 0 line 9 is shared by 0 and 1
line 1; line 2; exec; /1 2 3 4; 21; -; phase 1 line 2 is shared by 0 and 1
ld r0 X[0+q*1]; for v0 4294967295/ld r0 X[0+q*1]/end; exec; /1 2 3 4; 22; -; more than 100000000 actions
ld r0 X[0+q*1]; for v0 4294967295/end/ld r0 X[0+q*1]; exec; /1 2 3 4; 0; 10 7 15 6/; -
X[0+q*1]; X[01+q*1]; exec; /1 2 3 4; 18; -; listing syntax at line 4
phase/ld r0 A; phase/stop/ld r0 A; exec; /1 2 3 4; 18; -; listing syntax at line 14
-; -; exec; 1 2 3 4; 18; -; listing syntax at line 21
-; -; exec; end/; 18; -; listing syntax at line 21
-; -; exec --schedule turns:0,2; /1 2 3 4; 5; -; turn names processor 2 of 2
-; -; exec --schedule turns:0,2; /x; 5; -; turn names processor 2 of 2
regs 6; regs 5; exec --schedule turns:0,2; /1 2 3 4; 20; -; bad register in phase 0, processor 0, action 6
-; -; exec; /1 2 x 4; 9; -; token 3 is not a number
-; -; exec; /1 2 3 4/5 6 7; 9; 10 7 15 6/; input ends with 3 of 4 numbers
-; -; exec; /1 2 3 4 5 6 7 y; 9; 10 7 15 6/; token 8 is not a number
-; -; exec --seed 1; /1 2 3 4; 2; -; usage
-; -; exec --buffers; /1 2 3 4; 2; -; usage
-; -; exec --schedule mix:t0; /1 2 3 4; 2; -; usage
-; -; exec run; /1 2 3 4; 2; -; usage
";

// What `code` writes for the request, and the data after it.
fn listed(alloc: Global, request: &str, data: &str) -> Result<String, Fail> {
    let code = written(alloc, "code", request)?;
    let data = lines_of(alloc, data)?;
    Ok(format!(in alloc; "{code}\n{data}")?)
}

// It is run as `run` does it.
fn listed_as(rt: &impl Abort, alloc: Global, row: &str) -> Result<(), Fail> {
    let (request, rest) = field(row)?;
    let (words, rest) = field(rest)?;
    let (data, output) = field(rest)?;
    let input = listed(alloc, request, data)?;
    let wanted = wanted(alloc, "0", output, "-")?;
    tells(rt, alloc, words, &input, &wanted)
}

#[test]
fn listings_of_requests(rt: HostRuntime) -> Result<(), Fail> {
    for row in LISTED.lines() {
        listed_as(&rt, rt.alloc(), row)?;
    }
    Ok(())
}

fn replaced(alloc: Global, old: &str, new: &str) -> Result<String, Fail> {
    let old = lines_of(alloc, old)?;
    let new = lines_of(alloc, new)?;
    Ok(QUAD.replacen(alloc, &old, &new, 1)?)
}

// The listing with the new part in the place of the old one.
fn changed(alloc: Global, old: &str, new: &str) -> Result<String, Fail> {
    match old {
        "-" => Ok(QUAD.to_string(alloc)?),
        _ => replaced(alloc, old, new),
    }
}

fn changed_input(alloc: Global, old: &str, new: &str, behind: &str) -> Result<String, Fail> {
    let listing = changed(alloc, old, new)?;
    let behind = lines_of(alloc, behind)?;
    Ok(format!(in alloc; "{listing}{behind}")?)
}

fn answers_as(rt: &impl Abort, alloc: Global, row: &str) -> Result<(), Fail> {
    let (old, rest) = field(row)?;
    let (new, rest) = field(rest)?;
    let (words, rest) = field(rest)?;
    let (behind, rest) = field(rest)?;
    let input = changed_input(alloc, old, new, behind)?;
    let wanted = wanted_of(alloc, rest)?;
    tells(rt, alloc, words, &input, &wanted)
}

#[test]
fn changed_listings(rt: HostRuntime) -> Result<(), Fail> {
    for row in CHANGED.lines() {
        answers_as(&rt, rt.alloc(), row)?;
    }
    Ok(())
}

// A listing with a place of constants alone, and a vector: 65536 * 65536 leaves 4 by 7, so Y has word 4 of X.
const CONSTANT_PLACE: &str = "\
program size 8 mod 17 procs 1 line 1 lanes 1 regs 1
phase
ld r0 X[0+(0+(65536)/1*65536)%7*1]
st Y[0] r0
end

1 2 3 4 5 6 7 8
";

#[test]
fn places_of_constants(rt: HostRuntime) -> Result<(), Fail> {
    tells(
        &rt,
        rt.alloc(),
        "exec",
        CONSTANT_PLACE,
        "0; 5 0 0 0 0 0 0 0\n; ",
    )
}

fn is_lost(rt: &impl Abort, alloc: Global, input: &str, line: usize) -> Result<(), Fail> {
    let lost = format!(in alloc; "18; ; spiral: listing syntax at line {line}\n")?;
    tells(rt, alloc, "exec", input, &lost)
}

fn cut_as(rt: &impl Abort, alloc: Global, text: &str) -> Result<(), Fail> {
    let line = text.split('\n').count();
    if line == 13 && text.ends_with('\n') {
        tells(rt, alloc, "exec", text, "0; ; ")
    } else {
        is_lost(rt, alloc, text, line)
    }
}

// A listing that is cut is lost in the line that is not there whole, but where its first phase has just ended.
#[test]
fn cut_listings(rt: HostRuntime) -> Result<(), Fail> {
    for len in 0..QUAD.len() {
        cut_as(&rt, rt.alloc(), QUAD.get(..len).ok_or("a front")?)?;
    }
    Ok(())
}

// An input that begins with an empty line, or whose lines end otherwise, has no listing.
#[test]
fn other_line_ends(rt: HostRuntime) -> Result<(), Fail> {
    for input in ["", "\n", "\n1 2 3 4", "\n\n", "x"] {
        is_lost(&rt, rt.alloc(), input, 1)?;
    }
    Ok(())
}

#[test]
fn returns_at_line_ends(rt: HostRuntime) -> Result<(), Fail> {
    let returns = QUAD.replace(rt.alloc(), "\n", "\r\n")?;
    is_lost(&rt, rt.alloc(), &returns, 1)
}

fn is_lost_behind(rt: &impl Abort, alloc: Global, behind: &str) -> Result<(), Fail> {
    let input = format!(in alloc; "{QUAD}{behind}")?;
    is_lost(rt, alloc, &input, 21)
}

#[test]
fn other_line_ends_behind(rt: HostRuntime) -> Result<(), Fail> {
    for behind in ["\r\n1 2 3 4", " \n1 2 3 4", "\t\n"] {
        is_lost_behind(&rt, rt.alloc(), behind)?;
    }
    Ok(())
}

// At most 2^20 bytes stand before the empty line, the last of them a line end.
#[test]
fn longest_listings(rt: HostRuntime) -> Result<(), Fail> {
    let wanted = "18; ; spiral: listing syntax at line 1\n";
    for behind in ["\n", "\n\n", "\n\n1 2 3 4"] {
        long_tells(&rt, rt.alloc(), "exec", 1_048_575, behind, wanted)?;
    }
    Ok(())
}

#[test]
fn longer_listings(rt: HostRuntime) -> Result<(), Fail> {
    let wanted = "13; ; spiral: more than 1048576 bytes\n";
    long_tells(&rt, rt.alloc(), "exec", 1_048_576, "\n\n1 2 3 4", wanted)
}

fn fails_as(rt: &impl Abort, alloc: Global, streams: &str, wanted: &str) -> Result<(), Fail> {
    let input = format!(in alloc; "{QUAD}\n1 2 3 4\n1 2 3 4\n")?;
    streams_tell(rt, alloc, "exec", streams, &input, wanted)
}

// A read that fails in the listing leaves no output, and one that fails after it the lines of whole vectors.
#[test]
fn failing_reads(rt: HostRuntime) -> Result<(), Fail> {
    for read in [
        "step 30 read 0",
        "step 30 read 1",
        "step 30 read 3",
        "step 30 read 7",
    ] {
        fails_as(&rt, rt.alloc(), read, "10; ; spiral: read failed\n")?;
    }
    Ok(())
}

#[test]
fn failing_writes(rt: HostRuntime) -> Result<(), Fail> {
    fails_as(&rt, rt.alloc(), "write 0", "11; ; spiral: write failed\n")
}
