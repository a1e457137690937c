// Formulas that anyone may have written, and what `compile` and `apply` make of them.

use crate::call::{long_tells, same, tells, told, written};
use crate::rows::{all_answer, lines_of};
use crate::streams::all_stream;
use listing_text::read_listing;
use std::alloc::Global;
use std::process::Abort;
use std::test::Fail;
use worked_rows::field;

// Rows as those of requests: the words after the program's name, the input, the code, the output and the note.

const RESULTS: &str = "\
apply --mod 17; TIMES(LEFT(DFT(2,16),2),L(4,2))/1 2 3 4/; 0; 3 7 16 16/; -
apply --mod 17; TIMES(LEFT(DFT(2,16),2),L(4,2))/1 2 3 4 18 19 20 21; 0; 3 7 16 16/3 7 16 16/; -
apply --mod 17 --schedule rr:3; TIMES(LEFT(DFT(2,16),2),L(4,2))/1 2 3 4; 0; 3 7 16 16/; -
apply --mod 17 --schedule turns:0,0,0; TIMES(LEFT(DFT(2,16),2),L(4,2))/1 2 3 4; 0; 3 7 16 16/; -
apply --mod 17; TIMES(LEFT(DFT(2,16),2),TIMES(T(4,2,4),TIMES(RIGHT(2,DFT(2,16)),L(4,2))))/1 2 3 4; 0; 10 7 15 6/; -
apply --mod 7; SUM(I(1),DIAG(3,5))/1 2 3; 0; 1 6 1/; -
apply --mod 17; SUM(I(1),SUM(I(2),WHT(2)))/1 2 3 4 5; 0; 1 2 3 9 16/; -
apply --mod 17; SUM(SUM(TIMES(WHT(2),WHT(2)),I(2)),I(1))/1 2 3 4 5; 0; 2 4 3 4 5/; -
apply --mod 7; DFT(2,3)/1 1/; 0; 2 4/; -
apply --mod 5; WHT(4)/1 2 3 4; 0; 0 3 1 0/; -
apply --mod 2; I(1)/3 4/; 0; 1/0/; -
apply --mod 100; PERM(2,0,1)/10 20 30; 0; 30 10 20/; -
apply --mod 100; GTIN(2,3)/0 1 2 3 4 5; 0; 0 2 4 3 5 1/; -
apply --mod 17; DFT(2,16)/; 0; -; -
apply --mod 17; DFT(2,16); 0; -; -
";

// Words that nothing changes are copied in one loop where they stand side by side.
const LISTINGS: &str = "\
compile --mod 17; SUM(I(1),SUM(I(2),WHT(2))); 0; program size 5 mod 17 procs 1 line 1 lanes 1 regs 4/phase/for v0 3/ld r0 X[0+v0*1]/st Y[0+v0*1] r0/end/ld r0 X[3]/ld r1 X[4]/add r2 r0 r1/sub r3 r0 r1/st Y[3] r2/st Y[4] r3/end/; -
";

const REFUSALS: &str = "\
compile --mod 17; TIMES(I(2),I(3))/; 16; -; formula shape at byte 0: 2 and 3
apply --mod 17; TIMES(I(2),I(3))/x; 16; -; formula shape at byte 0: 2 and 3
apply --mod 17; RIGHT(2,L(6,4)); 16; -; formula shape at byte 8: 6 and 4
apply --mod 17; WHT(6)/; 16; -; formula shape at byte 0: 6 and 2
apply --mod 17; I(0); 3; -; syntax at byte 2
apply --mod 17; I(2/1 2; 3; -; syntax at byte 3
apply --mod 17; I(1048577)/; 3; -; syntax at byte 8
apply --mod 17; I(2) /1 2; 3; -; syntax at byte 4
compile --mod 17; -; 3; -; syntax at byte 0
compile --mod 17; /I(2)/; 3; -; syntax at byte 0
apply --mod 17 --schedule turns:0,1; DFT(2,16)/1 2; 5; -; turn names processor 1 of 1
apply --mod 17 --schedule turns:1; DFT(2,16)/x; 5; -; turn names processor 1 of 1
apply --mod 17 --schedule turns:1; TIMES(I(2),I(3))/1 2; 16; -; formula shape at byte 0: 2 and 3
apply --mod 17; DFT(2,16)/1 x 3; 9; -; token 2 is not a number
apply --mod 17; DFT(2,16)/1 2 3; 9; 3 16/; input ends with 1 of 2 numbers
compile --mod 1; I(2)/; 2; -; usage
compile; I(2)/; 2; -; usage
apply --mod 17 --buffers; I(2)/; 2; -; usage
apply --mod 17 --schedule mix:t0; I(2)/; 2; -; usage
";

#[test]
fn applied_formulas(rt: HostRuntime) -> Result<(), Fail> {
    all_answer(&rt, rt.alloc(), RESULTS)
}

#[test]
fn listed_formulas(rt: HostRuntime) -> Result<(), Fail> {
    all_answer(&rt, rt.alloc(), LISTINGS)
}

#[test]
fn refused_formulas(rt: HostRuntime) -> Result<(), Fail> {
    all_answer(&rt, rt.alloc(), REFUSALS)
}

// What `compile` writes for a formula: a listing, which `exec` runs on the data as `apply` does.
fn compiled(alloc: Global, modulus: &str, input: &str) -> Result<String, Fail> {
    let words = format!(in alloc; "compile --mod {modulus}")?;
    let text = written(alloc, &words, input)?;
    if read_listing(alloc, text.as_bytes()).is_err() {
        return Err(Fail::from("a listing"));
    }
    Ok(text)
}

// The listing, and after an empty line what comes after the input's line.
fn with_data(alloc: Global, listing: &str, input: &str) -> Result<String, Fail> {
    let data = match input.split_once('\n') {
        Some((_, data)) => data,
        None => "",
    };
    Ok(format!(in alloc; "{listing}\n{data}")?)
}

// What `exec` makes of the listing and the data.
fn executed(alloc: Global, words: &str, input: &str) -> Result<String, Fail> {
    let modulus = words.split(' ').nth(2).ok_or("a modulus")?;
    let listing = compiled(alloc, modulus, input)?;
    told(alloc, "exec", &with_data(alloc, &listing, input)?)
}

fn executes_as_applied(
    rt: &impl Abort,
    alloc: Global,
    words: &str,
    input: &str,
) -> Result<(), Fail> {
    let wanted = told(alloc, words, input)?;
    let seen = executed(alloc, words, input)?;
    same(rt, &seen, &wanted, words);
    Ok(())
}

fn row_executes(rt: &impl Abort, alloc: Global, row: &str) -> Result<(), Fail> {
    let (words, rest) = field(row)?;
    let (input, _) = field(rest)?;
    let input = lines_of(alloc, input)?;
    executes_as_applied(rt, alloc, words, &input)
}

#[test]
fn compiled_formulas(rt: HostRuntime) -> Result<(), Fail> {
    for row in RESULTS.lines() {
        row_executes(&rt, rt.alloc(), row)?;
    }
    Ok(())
}

// A line of 65,536 bytes is read, and a longer one is not.
#[test]
fn longest_lines(rt: HostRuntime) -> Result<(), Fail> {
    let wanted = "3; ; spiral: syntax at byte 0\n";
    long_tells(&rt, rt.alloc(), "compile --mod 17", 65_536, "", wanted)
}

#[test]
fn longer_lines(rt: HostRuntime) -> Result<(), Fail> {
    let wanted = "13; ; spiral: more than 65536 bytes\n";
    long_tells(&rt, rt.alloc(), "compile --mod 17", 65_537, "", wanted)
}

// 128 open parts with one more in them.
fn deep(alloc: Global) -> Result<String, Fail> {
    let fronts = "RIGHT(1,".repeat(alloc, 128)?;
    let ends = ")".repeat(alloc, 128)?;
    Ok(format!(in alloc; "{fronts}I(1){ends}")?)
}

#[test]
fn deep_formulas(rt: HostRuntime) -> Result<(), Fail> {
    let text = deep(rt.alloc())?;
    let wanted = "17; ; spiral: formula too deep at byte 1025\n";
    tells(&rt, rt.alloc(), "compile --mod 17", &text, wanted)
}

// Rows as those of streams. A read that fails in the line leaves no output, and so does a write that fails.
const FAILING: &str = "\
step 6 read 0; TIMES(LEFT(DFT(2,16),2),L(4,2))/1 2 3 4/; 10; ; spiral: read failed/
step 6 read 1; TIMES(LEFT(DFT(2,16),2),L(4,2))/1 2 3 4/; 10; ; spiral: read failed/
step 6 read 5; TIMES(LEFT(DFT(2,16),2),L(4,2))/1 2 3 4/; 10; ; spiral: read failed/
write 0; TIMES(LEFT(DFT(2,16),2),L(4,2))/1 2 3 4/; 11; ; spiral: write failed/
";

#[test]
fn failing_streams(rt: HostRuntime) -> Result<(), Fail> {
    all_stream(&rt, rt.alloc(), "apply --mod 17", FAILING)
}
