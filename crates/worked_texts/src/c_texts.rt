// C texts: what is printed and read again, the line where a text is none, and single lines.

use crate::listings::{DEPTHS, PAIR, QUAD, depths, write_place, write_times};
use crate::same::same;
use c_print::{CFault, print_c, read_c, read_c_header, read_c_line, read_c_table};
use icode::program::Op;
use listing_text::{Act, print_listing, read_listing};
use std::alloc::{AllocError, Global};
use std::fmt::Write;
use std::process::Abort;
use std::test::Fail;
use worked_rows::{check, number, spelled};

const C_TEXT: &str = "/* program size 2 mod 15 procs 1 line 1 lanes 1 regs 5 */
#include <stdint.h>
#define M 15ULL
#define V 1
#define X (W + 0)
#define Y (W + 2)
#define A (W + 4)
#define B (W + 6)
static uint64_t W[8];
static uint64_t add(uint64_t a, uint64_t b) { uint64_t c = a + b; return c >= M ? c - M : c; }
static uint64_t sub(uint64_t a, uint64_t b) { return a >= b ? a - b : a + M - b; }
static uint64_t mul(uint64_t a, uint64_t b) { return (uint64_t)((unsigned __int128)a * b % M); }
void phase0(uint64_t q) {
uint64_t r[5][V];
(void)q;
for (int l = 0; l < V; l++) r[0][l] = X[0 + l];
for (int l = 0; l < V; l++) r[1][l] = X[1 + l];
for (int l = 0; l < V; l++) r[2][l] = add(r[0][l], r[1][l]);
for (int l = 0; l < V; l++) r[3][l] = mul(r[1][l], 4);
for (int l = 0; l < V; l++) r[4][l] = add(r[0][l], r[3][l]);
for (int l = 0; l < V; l++) Y[0 + l] = r[2][l];
for (int l = 0; l < V; l++) Y[1 + l] = r[4][l];
}
";

// The other statements, tables and several phases.
const FORMS: &str = "program size 5 mod 17 procs 2 line 4 lanes 2 regs 9
table 0 values 1
table 1 values 2 3 16
phase
end
phase
for v0 4
zero r0
for v1 3
sub r0 r1 r2
end
neg r3 r4
mul r5 r6 t1[0+v0*1] step 1
tile r0 r4
st A[0+q*1+(0+v0*1)%2*4] r8
end
end
";

const C_FORMS: &str = "/* program size 5 mod 17 procs 2 line 4 lanes 2 regs 9 */
#include <stdint.h>
#define M 17ULL
#define V 2
#define X (W + 0)
#define Y (W + 8)
#define A (W + 16)
#define B (W + 24)
static uint64_t W[32];
static const uint64_t t0[1] = {1};
static const uint64_t t1[3] = {2,3,16};
static uint64_t add(uint64_t a, uint64_t b) { uint64_t c = a + b; return c >= M ? c - M : c; }
static uint64_t sub(uint64_t a, uint64_t b) { return a >= b ? a - b : a + M - b; }
static uint64_t mul(uint64_t a, uint64_t b) { return (uint64_t)((unsigned __int128)a * b % M); }
void phase0(uint64_t q) {
uint64_t r[9][V];
(void)q;
}
void phase1(uint64_t q) {
uint64_t r[9][V];
(void)q;
for (uint64_t v0 = 0; v0 < 4; v0++) {
for (int l = 0; l < V; l++) r[0][l] = 0;
for (uint64_t v1 = 0; v1 < 3; v1++) {
for (int l = 0; l < V; l++) r[0][l] = sub(r[1][l], r[2][l]);
}
for (int l = 0; l < V; l++) r[3][l] = sub(0, r[4][l]);
for (int l = 0; l < V; l++) r[5][l] = mul(r[6][l], t1[0+v0*1 + 1 * l]);
for (int k = 0; k < V; k++) for (int l = 0; l < V; l++) r[0 + k][l] = r[4 + l][k];
for (int l = 0; l < V; l++) A[0+q*1+(0+v0*1)%2*4 + l] = r[8][l];
}
}
";

// Every form, and numbers at their limits; most registers are not there, which only a run would refuse.
const LIMITS: &str =
    "program size 1048576 mod 4611686018427387903 procs 16 line 64 lanes 16 regs 1048575
table 0 values 0
table 1 values 4611686018427387902 1
phase
end
phase
for v0 4294967295
for v1 1
neg r4294967295 r0
tile r16 r0
add r0 r4294967295 r1
sub r4294967295 r1 r0
zero r4294967295
st X[4294967295] r4294967295
st Y[0+(0)/1*1+(0)/4294967295*1] r0
ld r0 A[0+v0*1]
ld r2 B[4294967295+q*4294967295+v0*1+v1*2+v0*v1*3+(1+v0*4)%5*6+(7+(8+q*9)/10*11)/12*13]
mul r3 r2 4611686018427387902
mul r3 r2 t4294967295[0] step 1
end
end
end
";

// The C text of a listing.
fn c_text_of(alloc: Global, listing: &str) -> Result<Vec<u8>, Fail> {
    let program = read_listing(alloc, listing.as_bytes())
        .ok()
        .ok_or("a listing")?;
    Ok(print_c(alloc, &program)?)
}

// The listing of a C text.
fn listing_of(alloc: Global, c_text: &[u8]) -> Result<Vec<u8>, Fail> {
    let program = read_c(alloc, c_text).ok().ok_or("a C text")?;
    Ok(print_listing(alloc, &program)?)
}

fn is_read_again(rt: &impl Abort, alloc: Global, listing: &str) -> Result<(), Fail> {
    let printed = c_text_of(alloc, listing)?;
    is_listing_of(rt, alloc, listing, &printed)
}

fn is_listing_of(rt: &impl Abort, alloc: Global, listing: &str, c_text: &[u8]) -> Result<(), Fail> {
    same(
        rt,
        listing_of(alloc, c_text)?.as_slice(),
        listing.as_bytes(),
    );
    Ok(())
}

#[test]
fn reads_what_is_printed(rt: HostRuntime) -> Result<(), Fail> {
    for listing in [PAIR, FORMS, LIMITS, QUAD] {
        is_read_again(&rt, rt.alloc(), listing)?;
    }
    Ok(())
}

fn agree(rt: &impl Abort, alloc: Global, listing: &str, c_text: &str) -> Result<(), Fail> {
    same(rt, c_text_of(alloc, listing)?.as_slice(), c_text.as_bytes());
    is_listing_of(rt, alloc, listing, c_text.as_bytes())
}

#[test]
fn prints_and_reads(rt: HostRuntime) -> Result<(), Fail> {
    agree(&rt, rt.alloc(), PAIR, C_TEXT)?;
    agree(&rt, rt.alloc(), FORMS, C_FORMS)
}

// The line where a text is lost, or 0 for a C text.
fn lost_line(alloc: Global, text: &str) -> u64 {
    match read_c(alloc, text.as_bytes()) {
        Ok(_) => 0,
        Err(CFault::Syntax { line }) => line,
        Err(CFault::NoMemory) => u64::MAX,
    }
}

// Lines 1 to 9 of a text.
const FRONT: &str = "/* program size 2 mod 15 procs 1 line 1 lanes 1 regs 5 */
#include <stdint.h>
#define M 15ULL
#define V 1
#define X (W + 0)
#define Y (W + 2)
#define A (W + 4)
#define B (W + 6)
static uint64_t W[8];
";

// Lines 10 to 12, where there are no tables.
const FUNCTIONS: &str =
    "static uint64_t add(uint64_t a, uint64_t b) { uint64_t c = a + b; return c >= M ? c - M : c; }
static uint64_t sub(uint64_t a, uint64_t b) { return a >= b ? a - b : a + M - b; }
static uint64_t mul(uint64_t a, uint64_t b) { return (uint64_t)((unsigned __int128)a * b % M); }
";

// Lines 13 to 15.
const PHASE: &str = "void phase0(uint64_t q) {
uint64_t r[5][V];
(void)q;
";

// The text with a line end for each `~`, and those lines for their names.
fn whole(alloc: Global, text: &str) -> Result<String, Fail> {
    let mut text = spelled(alloc, text)?;
    for (name, lines) in [("FRONT", FRONT), ("FUNCTIONS", FUNCTIONS), ("PHASE", PHASE)] {
        text = text.replace(alloc, name, lines)?;
    }
    Ok(text)
}

fn lost_text(alloc: Global, text: &str) -> Result<String, Fail> {
    Ok(format!(in alloc; "{}", lost_line(alloc, text))?)
}

// A text, and the line where it is lost.
const TEXTS: &str = "\
|1
/* program size 2 mod 15 procs 1|1
/* program size 2 mod 15 procs 1~|1
/* program size 2 mod 15 procs 1 line 1 lanes 1 regs 5 */|1
/* program size 2 mod 15 procs 1 line 1 lanes 1 regs 5 */\r~|1
/* program size 2 mod 15 procs 1 line 1 lanes 1 regs 5 */~|2
/* program size 0 mod 15 procs 1 line 1 lanes 1 regs 5 */~|1
/* program size 1048577 mod 15 procs 1 line 1 lanes 1 regs 5 */~|1
/* program size 2 mod 4611686018427387904 procs 1 line 1 lanes 1 regs 5 */~|1
/* program size 2 mod 15 procs 17 line 1 lanes 1 regs 5 */~|1
/* program size 2 mod 15 procs 1 line 65 lanes 1 regs 5 */~|1
/* program size 2 mod 15 procs 1 line 1 lanes 17 regs 5 */~|1
/* program size 2 mod 15 procs 1 line 1 lanes 1 regs 1048576 */~|1
/* program size 2 mod 15 procs 1 line 1 lanes 1 regs 5 */~#include <stdint.h>~#define M 16ULL~|3
/* program size 2 mod 15 procs 1 line 64 lanes 1 regs 5 */~#include <stdint.h>~#define M 15ULL~#define V 1~#define X (W + 0)~#define Y (W + 64)~#define A (W + 127)~|7
FRONT|10
FRONTFUNCTIONS|13
FRONTPHASE|10
FRONTFUNCTIONSPHASE|16
FRONTFUNCTIONSPHASE}|16
FRONTFUNCTIONSPHASE}\r~|16
FRONTFUNCTIONSPHASE}~|0
FRONTFUNCTIONSPHASE}~~|17
FRONTFUNCTIONSPHASE}~PHASE|17
FRONTFUNCTIONSvoid phase1(uint64_t q) {~|13
FRONTFUNCTIONSvoid phase0(uint64_t q) {~uint64_t r[6][V];~|14
FRONTFUNCTIONSPHASE}~void phase1(uint64_t q) {~uint64_t r[5][V];~(void)q;~}~|0
FRONTstatic const uint64_t t0[1] = {14};~FUNCTIONSPHASE}~|0
FRONTstatic const uint64_t t0[1] = {15};~|10
FRONTstatic const uint64_t t0[2] = {14};~|10
FRONTstatic const uint64_t t1[1] = {14};~|10
FRONTstatic const uint64_t t0[1] = {14};~static const uint64_t t2[1] = {14};~|11
FRONTFUNCTIONSstatic const uint64_t t0[1] = {14};~|13
FRONTFUNCTIONSFUNCTIONS|13
FRONTFUNCTIONSPHASEfor (int l = 0; l < V; l++) r[9][l] = 0;~}~|0
";

fn lost(alloc: Global, text: &str) -> Result<String, Fail> {
    lost_text(alloc, &whole(alloc, text)?)
}

#[test]
fn lost_lines(rt: HostRuntime) -> Result<(), Fail> {
    check(rt.alloc(), TEXTS, lost)
}

// A line inside two loops, the text's line 18, and the line where the text is lost.
const LINES: &str = "\
for (int l = 0; l < V; l++) r[4294967295][l] = add(r[0][l], r[4294967295][l]);|0
for (int l = 0; l < V; l++) r[4294967296][l] = 0;|18
for (int l = 0; l < V; l++) r[1][l] = mul(r[0][l], 14);|0
for (int l = 0; l < V; l++) r[1][l] = mul(r[0][l], 15);|18
for (int l = 0; l < V; l++) r[1][l] = mul(r[0][l], t4294967295[0 + 1 * l]);|0
for (int l = 0; l < V; l++) r[1][l] = mul(r[0][l], t0[0 + 2 * l]);|18
for (int l = 0; l < V; l++) r[0][l] = X[0+v0*1+v1*1 + l];|0
for (int l = 0; l < V; l++) r[0][l] = X[0+v2*1 + l];|18
for (int l = 0; l < V; l++) r[0][l] = X[0+(0)/1*1+(0)%1*1 + l];|18
for (uint64_t v2 = 0; v2 < 1; v2++) {~}|0
for (uint64_t v1 = 0; v1 < 1; v1++) {~}|18
for (uint64_t v2 = 0; v2 < 0; v2++) {~}|18
for (uint64_t v2 = 0; v2 < 4294967295; v2++) {~}|0
for (uint64_t v2 = 0; v2 < 4294967296; v2++) {~}|18
";

fn inside_loops(alloc: Global, line: &str) -> Result<String, Fail> {
    let outer = "for (uint64_t v0 = 0; v0 < 2; v0++) {";
    let inner = "for (uint64_t v1 = 0; v1 < 3; v1++) {";
    Ok(format!(in alloc; "FRONTFUNCTIONSPHASE{outer}~{inner}~{line}~}}~}}~}}~")?)
}

fn lost_inside_loops(alloc: Global, line: &str) -> Result<String, Fail> {
    lost(alloc, &inside_loops(alloc, line)?)
}

#[test]
fn lines_inside_loops(rt: HostRuntime) -> Result<(), Fail> {
    check(rt.alloc(), LINES, lost_inside_loops)
}

// `count` loops, one inside the other, from line 16 on, and the end of the phase.
fn write_nested_loops(text: &mut String, count: u64) -> Result<(), AllocError> {
    for depth in 0..count {
        write!(
            text,
            "for (uint64_t v{depth} = 0; v{depth} < 2; v{depth}++) {{\n"
        )?;
    }
    write_times(text, count, "}\n")?;
    text.push_str("}\n")
}

// The number of loops, and the line where the text is lost.
const LOOPS: &str = "\
64|0
65|80
";

fn lost_loop(alloc: Global, count: &str) -> Result<String, Fail> {
    let mut text = whole(alloc, "FRONTFUNCTIONSPHASE")?;
    write_nested_loops(&mut text, number(count)?)?;
    lost_text(alloc, &text)
}

#[test]
fn limits_of_loops(rt: HostRuntime) -> Result<(), Fail> {
    check(rt.alloc(), LOOPS, lost_loop)
}

fn line_of_place(alloc: Global, parentheses: u64, parts: u64) -> Result<String, AllocError> {
    let mut line = String::new(alloc);
    line.push_str("for (int l = 0; l < V; l++) r[0][l] = X[")?;
    write_place(&mut line, parentheses, parts)?;
    line.push_str(" + l];")?;
    Ok(line)
}

fn lost_place(alloc: Global, counts: &str) -> Result<String, Fail> {
    let (parentheses, parts) = depths(counts)?;
    lost_inside_loops(alloc, &line_of_place(alloc, parentheses, parts)?)
}

#[test]
fn limits_of_places(rt: HostRuntime) -> Result<(), Fail> {
    let rows = DEPTHS.replace(rt.alloc(), "LOST", "18")?;
    check(rt.alloc(), &rows, lost_place)
}

// A line, and its numbers without its place and arrays: depth and count of a loop, or registers and factors.
const READ_LINES: &str = "\
for (uint64_t v1 = 0; v1 < 3; v1++) {~|Some([1, 3, 0])
for (uint64_t v1 = 0; v2 < 3; v1++) {~|None
for (uint64_t v1 = 0; v1 < 3; v2++) {~|None
}~|Some([0, 0, 0])
}|None
}~}~|None
for (int l = 0; l < V; l++) r[7][l] = X[2 + l];~|Some([7, 0, 0])
for (int l = 0; l < V; l++) A[0+q*1+(0+v0*1)%2*4 + l] = r[8][l];~|Some([8, 0, 0])
for (int l = 0; l < V; l++) C[0 + l] = r[8][l];~|None
for (int l = 0; l < V; l++) r[6][l] = 0;~|Some([6, 0, 0])
for (int l = 0; l < V; l++) r[6][l] = 1;~|None
for (int l = 0; l < V; l++) r[06][l] = 0;~|None
for (int l = 0; l < V; l++) r[2][l] = add(r[0][l], r[1][l]);~|Some([2, 0, 1])
for (int l = 0; l < V; l++) r[2][l] = add(r[0][l], r[1][l]); ~|None
for (int l = 0; l < V; l++) r[2][l] = sub(r[3][l], r[1][l]);~|Some([2, 3, 1])
for (int l = 0; l < V; l++) r[3][l] = sub(0, r[4][l]);~|Some([3, 4, 0])
for (int l = 0; l < V; l++) r[3][l] = sub(1, r[4][l]);~|None
for (int l = 0; l < V; l++) r[3][l] = mul(r[1][l], 4);~|Some([3, 1, 4])
for (int l = 0; l < V; l++) r[5][l] = mul(r[6][l], t1[0+v0*1 + 1 * l]);~|Some([5, 6, 1])
for (int l = 0; l < V; l++) r[5][l] = mul(r[6][l], t1[0+v0*1]);~|None
for (int k = 0; k < V; k++) for (int l = 0; l < V; l++) r[0 + k][l] = r[4 + l][k];~|Some([0, 4, 0])
for (int k = 0; k < V; k++) for (int l = 0; l < V; l++) r[0 + k][l] = r[4 + k][l];~|None
";

fn numbers_of(alloc: Global, line: &[u8]) -> Option<[u64; 3]> {
    match read_c_line(alloc, line) {
        Ok(Act::Open { depth, count }) => Some([depth, count, 0]),
        Ok(Act::Close) => Some([0, 0, 0]),
        Ok(Act::Do(op)) => Some(operands_of(op)),
        Err(_) => None,
    }
}

fn operands_of(op: Op) -> [u64; 3] {
    match op {
        Op::Load { register, .. } => [register, 0, 0],
        Op::Store { register, .. } => [register, 0, 0],
        Op::Zero { register } => [register, 0, 0],
        Op::Add {
            register,
            left,
            right,
        } => [register, left, right],
        Op::Sub {
            register,
            left,
            right,
        } => [register, left, right],
        Op::Neg { register, source } => [register, source, 0],
        Op::MulConst {
            register,
            source,
            factor,
        } => [register, source, factor],
        Op::MulTable {
            register,
            source,
            table,
            ..
        } => [register, source, table],
        Op::Tile { register, source } => [register, source, 0],
    }
}

fn line_answer(alloc: Global, line: &str) -> Result<String, Fail> {
    let line = spelled(alloc, line)?;
    Ok(format!(in alloc; "{:?}", numbers_of(alloc, line.as_bytes()))?)
}

#[test]
fn reads_lines(rt: HostRuntime) -> Result<(), Fail> {
    check(rt.alloc(), READ_LINES, line_answer)
}

// A line, and the table's number, length and last entry.
const TABLES: &str = "\
static const uint64_t t0[1] = {1};~|Some((0, 1, 1))
static const uint64_t t1[3] = {2,3,16};~|Some((1, 3, 16))
static const uint64_t t1[2] = {2,3,16};~|None
static const uint64_t t1[3] = {2,3, 16};~|None
static const uint64_t t1[0] = {};~|None
static const uint64_t t1[3] = {2,3,16};|None
static const uint64_t t1[3] = {2,3,016};~|None
static uint64_t t1[3] = {2,3,16};~|None
";

fn table_of(alloc: Global, line: &[u8]) -> Option<(u64, u64, u64)> {
    let (number, entries) = read_c_table(alloc, line).ok()?;
    let last = entries.last()?;
    Some((number, entries.len() as u64, *last))
}

fn table_answer(alloc: Global, line: &str) -> Result<String, Fail> {
    let line = spelled(alloc, line)?;
    Ok(format!(in alloc; "{:?}", table_of(alloc, line.as_bytes()))?)
}

#[test]
fn reads_tables(rt: HostRuntime) -> Result<(), Fail> {
    check(rt.alloc(), TABLES, table_answer)
}

// A first line, and what it says.
const HEADERS: &str = "\
/* program size 5 mod 17 procs 2 line 4 lanes 2 regs 9 */~|Some(Header { size: 5, modulus: 17, procs: 2, line: 4, lanes: 2, regs: 9 })
/* program size 5 mod 17 procs 2 line 4 lanes 2 regs 9 */|None
/* program size 5 mod 17 procs 2 line 4 lanes 2 regs 9~|None
/* program size 5 mod 017 procs 2 line 4 lanes 2 regs 9 */~|None
program size 5 mod 17 procs 2 line 4 lanes 2 regs 9~|None
";

fn header_answer(alloc: Global, line: &str) -> Result<String, Fail> {
    let line = spelled(alloc, line)?;
    Ok(format!(in alloc; "{:?}", read_c_header(line.as_bytes()).ok())?)
}

#[test]
fn reads_headers(rt: HostRuntime) -> Result<(), Fail> {
    check(rt.alloc(), HEADERS, header_answer)
}
