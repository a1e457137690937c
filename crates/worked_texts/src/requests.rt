// Request lines, and the words of schedules and of turns with drains.

ghost use Rattle.std.specs.Prelude.{◌≤◌};

use request_text::{read_conv, read_request};
use schedules::{Mix, Schedule, read_mix, read_schedule};
use std::alloc::{AllocError, Global};
use std::fmt::Write;
use std::test::Fail;
use worked_rows::{check, number, numbers, spelled};

// A line, and what it asks for or what is wrong with it. The places of syntax faults come from a matcher of prefixes that
// is no part of this program.
const LINES: &str = "\
dft 9 mod 19 root 4 unroll 2 budget 1000000000000|Ok(Request { kind: Dft, size: 9, modulus: 19, root: 4, dimensions: One, procs: 1, line: 1, lanes: 1, unroll: 2, budget: 1000000000000, weight: 1 })
dft 9 mod 19 root 4|Ok(Request { kind: Dft, size: 9, modulus: 19, root: 4, dimensions: One, procs: 1, line: 1, lanes: 1, unroll: 8, budget: 100000000, weight: 1 })
wht 8 mod 10 unroll 4|Ok(Request { kind: Wht, size: 8, modulus: 10, root: 0, dimensions: One, procs: 1, line: 1, lanes: 1, unroll: 4, budget: 100000000, weight: 1 })
wht 16 mod 97 procs 2 line 4 lanes 2 unroll 4|Ok(Request { kind: Wht, size: 16, modulus: 97, root: 0, dimensions: One, procs: 2, line: 4, lanes: 2, unroll: 4, budget: 100000000, weight: 1 })
wht 16 mod 97 procs 16 unroll 4|Ok(Request { kind: Wht, size: 16, modulus: 97, root: 0, dimensions: One, procs: 16, line: 1, lanes: 1, unroll: 4, budget: 100000000, weight: 1 })
wht 16 mod 97 line 3 lanes 2 unroll 4|Ok(Request { kind: Wht, size: 16, modulus: 97, root: 0, dimensions: One, procs: 1, line: 3, lanes: 2, unroll: 4, budget: 100000000, weight: 1 })
dft 4 mod 17 root 4 weight 1|Ok(Request { kind: Dft, size: 4, modulus: 17, root: 4, dimensions: One, procs: 1, line: 1, lanes: 1, unroll: 8, budget: 100000000, weight: 1 })
dft 4 mod 17 root 4 weight 5|Ok(Request { kind: Dft, size: 4, modulus: 17, root: 4, dimensions: One, procs: 1, line: 1, lanes: 1, unroll: 8, budget: 100000000, weight: 5 })
wht 16 mod 97 procs 2 line 4 lanes 2 unroll 4 budget 9 weight 1000|Ok(Request { kind: Wht, size: 16, modulus: 97, root: 0, dimensions: One, procs: 2, line: 4, lanes: 2, unroll: 4, budget: 9, weight: 1000 })
dft 2 mod 10 root 9|Ok(Request { kind: Dft, size: 2, modulus: 10, root: 9, dimensions: One, procs: 1, line: 1, lanes: 1, unroll: 8, budget: 100000000, weight: 1 })
idft 4 mod 17 root 4|Ok(Request { kind: Idft, size: 4, modulus: 17, root: 4, dimensions: One, procs: 1, line: 1, lanes: 1, unroll: 8, budget: 100000000, weight: 1 })
idft 16 mod 97 root 8 procs 2 line 4 lanes 2 unroll 4 budget 9 weight 1000|Ok(Request { kind: Idft, size: 16, modulus: 97, root: 8, dimensions: One, procs: 2, line: 4, lanes: 2, unroll: 4, budget: 9, weight: 1000 })
idft 1 mod 2 root 0|Ok(Request { kind: Idft, size: 1, modulus: 2, root: 0, dimensions: One, procs: 1, line: 1, lanes: 1, unroll: 8, budget: 100000000, weight: 1 })
idft 2 mod 10 root 9|Err(NotUnit { gcd: 2 })
idft 12 mod 18 root 5|Err(NotUnit { gcd: 6 })
idft 4 mod 10 root 3 procs 2 line 3 lanes 2|Err(LanesLine { lanes: 2, line: 3 })
idft 2 mod 10 root 10|Err(Range { field: Root, value: 10 })
idft 2 mod 10 root 9 weight 0|Err(Range { field: Weight, value: 0 })
wht 6 mod 10|Err(Shape { size: 6 })
wht 6 mod 97 procs 2 line 3 lanes 2|Err(Shape { size: 6 })
wht 16 mod 97 procs 2 line 3 lanes 2|Err(LanesLine { lanes: 2, line: 3 })
wht 6 mod 10 unroll 99|Err(Range { field: Unroll, value: 99 })
dft 0 mod 17 root 1|Err(Range { field: Size, value: 0 })
dft 1048577 mod 1 root 1|Err(Range { field: Size, value: 1048577 })
dft 1048577 mod 17 root 1|Err(Range { field: Size, value: 1048577 })
dft 4 mod 1 root 0|Err(Range { field: Mod, value: 1 })
dft 2 mod 4611686018427387904 root 1|Err(Range { field: Mod, value: 4611686018427387904 })
dft 4 mod 17 root 17|Err(Range { field: Root, value: 17 })
dft 1 mod 2 root 18446744073709551615|Err(Range { field: Root, value: 18446744073709551615 })
dft 4 mod 17 root 4 unroll 1 budget 0|Err(Range { field: Unroll, value: 1 })
dft 4 mod 17 root 4 unroll 65|Err(Range { field: Unroll, value: 65 })
dft 4 mod 17 root 4 budget 0|Err(Range { field: Budget, value: 0 })
dft 4 mod 17 root 4 budget 1000000000001|Err(Range { field: Budget, value: 1000000000001 })
dft 4 mod 17 root 18 unroll 65|Err(Range { field: Root, value: 18 })
dft 4 mod 17 root 4 procs 0|Err(Range { field: Procs, value: 0 })
dft 4 mod 17 root 4 procs 17 line 65|Err(Range { field: Procs, value: 17 })
dft 4 mod 17 root 4 procs 17 budget 0|Err(Range { field: Procs, value: 17 })
dft 4 mod 17 root 4 line 0|Err(Range { field: Line, value: 0 })
wht 4 mod 17 procs 16 line 65 lanes 17|Err(Range { field: Line, value: 65 })
wht 4 mod 17 line 64 lanes 17|Err(Range { field: Lanes, value: 17 })
wht 4 mod 5 lanes 17|Err(Range { field: Lanes, value: 17 })
wht 4 mod 17 procs 2 line 3 lanes 2 unroll 1|Err(Range { field: Unroll, value: 1 })
dft 4 mod 17 root 4 weight 0|Err(Range { field: Weight, value: 0 })
dft 4 mod 17 root 4 weight 1001|Err(Range { field: Weight, value: 1001 })
dft 4 mod 17 root 4 budget 0 weight 0|Err(Range { field: Budget, value: 0 })
wht 6 mod 97 procs 2 line 3 lanes 2 weight 1001|Err(Range { field: Weight, value: 1001 })
|Err(Syntax { at: 0 })
dft|Err(Syntax { at: 3 })
dft  4 mod 17 root 4|Err(Syntax { at: 4 })
dft 4 mod 17|Err(Syntax { at: 12 })
dft 4 mod 17 rot 4|Err(Syntax { at: 15 })
dft 04 mod 17 root 4|Err(Syntax { at: 5 })
dft 4 mod 17 root 4 |Err(Syntax { at: 20 })
dft 4 mod 17 root 4\r|Err(Syntax { at: 19 })
dft 4 mod 17 root 4~|Err(Syntax { at: 19 })
dft -4 mod 17 root 4|Err(Syntax { at: 4 })
dft 18446744073709551616 mod 17 root 4|Err(Syntax { at: 23 })
dft 4 mod 18446744073709551616 root 4|Err(Syntax { at: 29 })
dft 0 mod 1 root 5 procs|Err(Syntax { at: 24 })
dft 4 mod 17 root 4 procs 2 procs 2|Err(Syntax { at: 28 })
dft 4 mod 17 root 4 line 2 procs 1|Err(Syntax { at: 27 })
dft 4 mod 17 root 4 lanes 1 line 1|Err(Syntax { at: 28 })
dft 4 mod 17 root 4 procs 02|Err(Syntax { at: 27 })
dft 4 mod 17 root 4 lines 1|Err(Syntax { at: 24 })
dft 4 mod 17 root 4 weight 5 budget 9|Err(Syntax { at: 28 })
dft 4 mod 17 root 4 weight 5 weight 5|Err(Syntax { at: 28 })
dft 4 mod 17 root 4 weight|Err(Syntax { at: 26 })
dft 4 mod 17 root 4 weight 05|Err(Syntax { at: 28 })
dft 4 mod 17 root 4 weight 18446744073709551616|Err(Syntax { at: 46 })
dft 4 mod 17 root 4 wight 5|Err(Syntax { at: 21 })
i|Err(Syntax { at: 1 })
idft|Err(Syntax { at: 4 })
idft 4 mod 17|Err(Syntax { at: 13 })
idft 4 mod 10 root 9 procs|Err(Syntax { at: 26 })
iwht 4 mod 5|Err(Syntax { at: 1 })
idfts 4 mod 17 root 4|Err(Syntax { at: 4 })
xht 4 mod 5|Err(Syntax { at: 0 })
conv 4 mod 17 root 4|Err(Syntax { at: 0 })
wht|Err(Syntax { at: 3 })
wht 4 mod 5 root 1|Err(Syntax { at: 12 })
dft 4 mod 17 root 4 unroll 8 unroll 8|Err(Syntax { at: 29 })
dft 4 mod 17 root 4 budget 9 unroll 8|Err(Syntax { at: 29 })
dft 4 mod 17 root 4 unroll 8 bidget 9|Err(Syntax { at: 30 })
dft 4 mod 17 root 4 budget 99x|Err(Syntax { at: 29 })
dft 2x2 mod 17 root 16x16|Ok(Request { kind: Dft, size: 4, modulus: 17, root: 1, dimensions: Two(Dimension { size: 2, root: 16 }, Dimension { size: 2, root: 16 }), procs: 1, line: 1, lanes: 1, unroll: 8, budget: 100000000, weight: 1 })
dft 2x3x5 mod 31 root 30x5x2 weight 5|Ok(Request { kind: Dft, size: 30, modulus: 31, root: 1, dimensions: Three(Dimension { size: 2, root: 30 }, Dimension { size: 3, root: 5 }, Dimension { size: 5, root: 2 }), procs: 1, line: 1, lanes: 1, unroll: 8, budget: 100000000, weight: 5 })
dft 2x2x2x2 mod 15 root 4x11x14x1 procs 2|Ok(Request { kind: Dft, size: 16, modulus: 15, root: 1, dimensions: Four(Dimension { size: 2, root: 4 }, Dimension { size: 2, root: 11 }, Dimension { size: 2, root: 14 }, Dimension { size: 2, root: 1 }), procs: 2, line: 1, lanes: 1, unroll: 8, budget: 100000000, weight: 1 })
dft 1048576x1 mod 17 root 1x1|Err(Range { field: Size, value: 1 })
dft 1x2 mod 17 root 1x16|Err(Range { field: Size, value: 1 })
dft 2x0 mod 17 root 16x1|Err(Range { field: Size, value: 0 })
dft 2x1048577 mod 1 root 16x1|Err(Range { field: Size, value: 1048577 })
dft 1024x1024x2x2 mod 17 root 1x1x1x1|Err(Range { field: Size, value: 2097152 })
dft 1048576x1048576 mod 17 root 1x1|Err(Range { field: Size, value: 1099511627776 })
dft 1048576x1048576x1 mod 17 root 1x1x1|Err(Range { field: Size, value: 1 })
dft 4294967296x4294967296 mod 17 root 1x1|Err(Range { field: Size, value: 4294967296 })
dft 2x2 mod 1 root 0x0|Err(Range { field: Mod, value: 1 })
dft 2x2 mod 17 root 16x17 procs 17|Err(Range { field: Root, value: 17 })
dft 2x2 mod 17 root 18x17|Err(Range { field: Root, value: 18 })
dft 2x2 mod 17 root 16x16 procs 17|Err(Range { field: Procs, value: 17 })
dft 2x2 mod 17 root 16x16 procs 2 line 3 lanes 2|Err(LanesLine { lanes: 2, line: 3 })
dft 2x2 mod 17 root 16|Err(Syntax { at: 22 })
dft 2x2 mod 17 root 16x16x16|Err(Syntax { at: 25 })
dft 2 mod 17 root 16x16|Err(Syntax { at: 20 })
dft 2x2x2x2x2 mod 17 root 16x16x16x16x16|Err(Syntax { at: 11 })
dft 2x mod 17 root 16x16|Err(Syntax { at: 6 })
dft 2x02 mod 17 root 16x16|Err(Syntax { at: 7 })
dft 2X2 mod 17 root 16x16|Err(Syntax { at: 5 })
dft 2x18446744073709551616 mod 17 root 1x1|Err(Syntax { at: 25 })
idft 2x2 mod 17 root 16x16|Err(Syntax { at: 6 })
wht 2x2 mod 17|Err(Syntax { at: 5 })
";

fn line_answer(alloc: Global, line: &str) -> Result<String, Fail> {
    let line = spelled(alloc, line)?;
    Ok(format!(in alloc; "{:?}", read_request(line.as_bytes()))?)
}

#[test]
fn lines(rt: HostRuntime) -> Result<(), Fail> {
    check(rt.alloc(), LINES, line_answer)
}

// The line of a convolution, and what it asks for or what is wrong with it, by the matcher of fronts in
// checks/reference/convolutions.py.
const CONVOLUTIONS: &str = "\
conv 4 mod 17 root 4 unroll 2 budget 21 weight 1000|Ok(Request { kind: Dft, size: 4, modulus: 17, root: 4, dimensions: One, procs: 1, line: 1, lanes: 1, unroll: 2, budget: 21, weight: 1000 })
conv 4 mod 15 root 4|Ok(Request { kind: Dft, size: 4, modulus: 15, root: 4, dimensions: One, procs: 1, line: 1, lanes: 1, unroll: 8, budget: 100000000, weight: 1 })
conv 1 mod 2 root 0|Ok(Request { kind: Dft, size: 1, modulus: 2, root: 0, dimensions: One, procs: 1, line: 1, lanes: 1, unroll: 8, budget: 100000000, weight: 1 })
conv 1048576 mod 4611686018427387903 root 4611686018427387902 budget 1000000000000|Ok(Request { kind: Dft, size: 1048576, modulus: 4611686018427387903, root: 4611686018427387902, dimensions: One, procs: 1, line: 1, lanes: 1, unroll: 8, budget: 1000000000000, weight: 1 })
conv 4 mod 17 root 4 unroll 64 weight 1|Ok(Request { kind: Dft, size: 4, modulus: 17, root: 4, dimensions: One, procs: 1, line: 1, lanes: 1, unroll: 64, budget: 100000000, weight: 1 })
conv 2 mod 10 root 9|Err(NotUnit { gcd: 2 })
conv 12 mod 18 root 5|Err(NotUnit { gcd: 6 })
conv 3 mod 4611686018427387903 root 1|Err(NotUnit { gcd: 3 })
conv 65536 mod 65536 root 1 weight 1000|Err(NotUnit { gcd: 65536 })
conv 2 mod 10 root 10|Err(Range { field: Root, value: 10 })
conv 2 mod 10 root 9 unroll 1|Err(Range { field: Unroll, value: 1 })
conv 2 mod 10 root 9 unroll 65|Err(Range { field: Unroll, value: 65 })
conv 2 mod 10 root 9 budget 0|Err(Range { field: Budget, value: 0 })
conv 2 mod 10 root 9 budget 1000000000001 weight 0|Err(Range { field: Budget, value: 1000000000001 })
conv 2 mod 10 root 9 weight 0|Err(Range { field: Weight, value: 0 })
conv 2 mod 10 root 9 weight 1001|Err(Range { field: Weight, value: 1001 })
conv 0 mod 10 root 9|Err(Range { field: Size, value: 0 })
conv 1048577 mod 1 root 1|Err(Range { field: Size, value: 1048577 })
conv 2 mod 1 root 1|Err(Range { field: Mod, value: 1 })
conv 2 mod 4611686018427387904 root 1|Err(Range { field: Mod, value: 4611686018427387904 })
|Err(Syntax { at: 0 })
con|Err(Syntax { at: 3 })
conv|Err(Syntax { at: 4 })
conv |Err(Syntax { at: 5 })
convolve 4 mod 17 root 4|Err(Syntax { at: 4 })
dft 4 mod 17 root 4|Err(Syntax { at: 0 })
wht 4 mod 17|Err(Syntax { at: 0 })
conv  4 mod 17 root 4|Err(Syntax { at: 5 })
conv 04 mod 17 root 4|Err(Syntax { at: 6 })
conv -4 mod 17 root 4|Err(Syntax { at: 5 })
conv 2x2 mod 17 root 16x16|Err(Syntax { at: 6 })
conv 4 mod 17|Err(Syntax { at: 13 })
conv 4 mod 17 rot 4|Err(Syntax { at: 16 })
conv 4 mod 17 root 4 |Err(Syntax { at: 21 })
conv 4 mod 17 root 4~|Err(Syntax { at: 20 })
conv 4 mod 17 root 4 procs 1|Err(Syntax { at: 21 })
conv 4 mod 17 root 4 line 1|Err(Syntax { at: 21 })
conv 4 mod 17 root 4 lanes 1|Err(Syntax { at: 21 })
conv 4 mod 17 root 4 unroll 8 unroll 8|Err(Syntax { at: 30 })
conv 4 mod 17 root 4 unroll 8 procs 1|Err(Syntax { at: 30 })
conv 4 mod 17 root 4 budget 9 unroll 8|Err(Syntax { at: 30 })
conv 4 mod 17 root 4 weight 1 budget 9|Err(Syntax { at: 29 })
conv 4 mod 17 root 4 weight 05|Err(Syntax { at: 29 })
conv 4 mod 17 root 4 weight 1 |Err(Syntax { at: 29 })
conv 0 mod 1 root 5 procs|Err(Syntax { at: 20 })
conv 18446744073709551616 mod 17 root 4|Err(Syntax { at: 24 })
conv 4 mod 18446744073709551616 root 4|Err(Syntax { at: 30 })
conv 4 mod 17 root 4 budget 18446744073709551616|Err(Syntax { at: 47 })
";

fn convolution_answer(alloc: Global, line: &str) -> Result<String, Fail> {
    let line = spelled(alloc, line)?;
    Ok(format!(in alloc; "{:?}", read_conv(line.as_bytes()))?)
}

#[test]
fn convolutions(rt: HostRuntime) -> Result<(), Fail> {
    check(rt.alloc(), CONVOLUTIONS, convolution_answer)
}

// A word, a number of processors and some places; and the number of turns, those at the places, and the first turn of a
// processor that is not there. The seed's turns are those of the generator in Python.
const SCHEDULES: &str = "\
seq; 3|0: None
turns:1,4294967295; 2|2: Some(4294967295)
turns:1,1; 2 0 1|2: 1 1 None
rr:3; 5 13|15: 3 None
rr:3; 1|3: None
seed:18446744073709551615:1000000; 16 0 65535 524288 999999|1000000: 8 9 5 15 None
; 1|Syntax { at: 0 }
turns:; 1|Syntax { at: 6 }
rr:1000001; 1|Syntax { at: 9 }
seq1; 1|Syntax { at: 3 }
rr:01; 1|Syntax { at: 4 }
seed:1; 1|Syntax { at: 6 }
seed:18446744073709551616:1; 1|Syntax { at: 24 }
turns:1,,2; 1|Syntax { at: 8 }
turns:1,; 1|Syntax { at: 8 }
turns:4294967296; 1|Syntax { at: 15 }
";

fn write_turns(
    text: &mut String,
    schedule: &Schedule,
    procs: u64,
    places: &[u64],
) -> Result<(), AllocError>
    requires { (1 ≤ procs) × (procs ≤ 16) }
{
    write!(text, "{}:", schedule.len(procs))?;
    for place in places {
        if *place < schedule.len(procs) {
            let turn = schedule.turn_at(*place, procs);
            write!(text, " {turn}")?;
        }
    }
    write!(text, " {:?}", schedule.stranger(procs))
}

fn turns(alloc: Global, schedule: &Schedule, procs: u64, places: &[u64]) -> Result<String, Fail> {
    if procs < 1 || procs > 16 {
        return Err(Fail::from("a number of processors"));
    }
    let mut text = String::new(alloc);
    write_turns(&mut text, schedule, procs, places)?;
    Ok(text)
}

fn turns_of(alloc: Global, word: &str, numbers: &[u64]) -> Result<String, Fail> {
    let (procs, places) = numbers.split_first().ok_or("a number of processors")?;
    match read_schedule(alloc, word.as_bytes()) {
        Ok(schedule) => turns(alloc, &schedule, *procs, places),
        Err(fault) => Ok(format!(in alloc; "{fault:?}")?),
    }
}

fn schedule_answer(alloc: Global, question: &str) -> Result<String, Fail> {
    let (word, rest) = question.split_once("; ").ok_or("numbers")?;
    turns_of(alloc, word, &numbers(alloc, rest)?)
}

#[test]
fn schedules(rt: HostRuntime) -> Result<(), Fail> {
    check(rt.alloc(), SCHEDULES, schedule_answer)
}

// A word and a number of processors; and the turns and drains, and the first processor that is not there. The places of
// faults come from a matcher of prefixes that is no part of this program.
const MIXES: &str = "\
mix:t1,d0,t0,d4294967295; 2|Turn(1) Drain(0) Turn(0) Drain(4294967295) Some(4294967295)
mix:t1,d0,t0,d4294967295; 1|Turn(1) Drain(0) Turn(0) Drain(4294967295) Some(1)
mix:d2; 2|Drain(2) Some(2)
mix:d2; 3|Drain(2) None
; 1|Syntax { at: 0 }
mix; 1|Syntax { at: 3 }
mix:; 1|Syntax { at: 4 }
mix:t; 1|Syntax { at: 5 }
mix:t1,; 1|Syntax { at: 7 }
mix:x1; 1|Syntax { at: 4 }
mix:t01; 1|Syntax { at: 6 }
mix:t4294967296; 1|Syntax { at: 14 }
mix:t1 ; 1|Syntax { at: 6 }
mix:t1,,d0; 1|Syntax { at: 7 }
seq; 1|Syntax { at: 0 }
mix:d0,t1,d; 1|Syntax { at: 11 }
";

fn write_events(text: &mut String, mix: &Mix, procs: u64) -> Result<(), AllocError> {
    for place in 0..mix.len() {
        write!(text, "{:?} ", mix.event_at(place))?;
    }
    write!(text, "{:?}", mix.stranger(procs))
}

fn events(alloc: Global, mix: &Mix, procs: u64) -> Result<String, Fail> {
    let mut text = String::new(alloc);
    write_events(&mut text, mix, procs)?;
    Ok(text)
}

fn events_of(alloc: Global, word: &str, procs: u64) -> Result<String, Fail> {
    match read_mix(alloc, word.as_bytes()) {
        Ok(mix) => events(alloc, &mix, procs),
        Err(fault) => Ok(format!(in alloc; "{fault:?}")?),
    }
}

fn mix_answer(alloc: Global, question: &str) -> Result<String, Fail> {
    let (word, procs) = question.split_once("; ").ok_or("a number")?;
    events_of(alloc, word, number(procs)?)
}

#[test]
fn mixes(rt: HostRuntime) -> Result<(), Fail> {
    check(rt.alloc(), MIXES, mix_answer)
}
