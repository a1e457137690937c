// Listings of programs, letter for letter, as the rules of emission give them.

use crate::call::tells;
use std::alloc::Global;
use std::process::Abort;
use std::test::Fail;
use worked_rows::{PAIR, QUAD};

// A kernel of two levels, whose one twiddle that is not 1 costs a product.
const FOUR: &str = "program size 4 mod 17 procs 1 line 1 lanes 1 regs 13
phase
ld r0 X[0]
ld r1 X[1]
ld r2 X[2]
ld r3 X[3]
add r4 r0 r2
sub r5 r0 r2
add r6 r1 r3
sub r7 r1 r3
mul r8 r7 4
add r9 r4 r6
sub r10 r4 r6
add r11 r5 r8
sub r12 r5 r8
st Y[0] r9
st Y[1] r11
st Y[2] r10
st Y[3] r12
end
";

// The twiddles stand directly after the part whose values they multiply.
const NINE_KERNEL: &str = "program size 9 mod 19 procs 1 line 1 lanes 1 regs 73
phase
ld r0 X[0]
ld r1 X[1]
ld r2 X[2]
ld r3 X[3]
ld r4 X[4]
ld r5 X[5]
ld r6 X[6]
ld r7 X[7]
ld r8 X[8]
add r9 r0 r3
add r10 r9 r6
mul r11 r3 7
add r12 r0 r11
mul r13 r6 11
add r14 r12 r13
mul r15 r3 11
add r16 r0 r15
mul r17 r6 7
add r18 r16 r17
add r19 r1 r4
add r20 r19 r7
mul r21 r4 7
add r22 r1 r21
mul r23 r7 11
add r24 r22 r23
mul r25 r4 11
add r26 r1 r25
mul r27 r7 7
add r28 r26 r27
mul r29 r24 4
mul r30 r28 16
add r31 r2 r5
add r32 r31 r8
mul r33 r5 7
add r34 r2 r33
mul r35 r8 11
add r36 r34 r35
mul r37 r5 11
add r38 r2 r37
mul r39 r8 7
add r40 r38 r39
mul r41 r36 16
mul r42 r40 9
add r43 r10 r20
add r44 r43 r32
mul r45 r20 7
add r46 r10 r45
mul r47 r32 11
add r48 r46 r47
mul r49 r20 11
add r50 r10 r49
mul r51 r32 7
add r52 r50 r51
add r53 r14 r29
add r54 r53 r41
mul r55 r29 7
add r56 r14 r55
mul r57 r41 11
add r58 r56 r57
mul r59 r29 11
add r60 r14 r59
mul r61 r41 7
add r62 r60 r61
add r63 r18 r30
add r64 r63 r42
mul r65 r30 7
add r66 r18 r65
mul r67 r42 11
add r68 r66 r67
mul r69 r30 11
add r70 r18 r69
mul r71 r42 7
add r72 r70 r71
st Y[0] r44
st Y[1] r54
st Y[2] r64
st Y[3] r48
st Y[4] r58
st Y[5] r68
st Y[6] r52
st Y[7] r62
st Y[8] r72
end
";

// Two passes over leaves share the table of powers, and the first has a diagonal.
const NINE_LEAVES: &str = "program size 9 mod 19 procs 1 line 1 lanes 1 regs 4
table 0 values 1 7 11
table 1 values 1 1 1 1 4 16 1 16 9
phase
for v0 3
for v1 3
zero r0
for v2 3
ld r1 X[0+v0*1+v2*3]
mul r2 r1 t0[0+(0+v1*v2*1)%3*1] step 0
add r0 r0 r2
end
mul r3 r0 t1[0+v0*3+v1*1] step 0
st A[0+v0*3+v1*1] r3
end
end
for v0 3
for v1 3
zero r0
for v2 3
ld r1 A[0+v0*1+v2*3]
mul r2 r1 t0[0+(0+v1*v2*1)%3*1] step 0
add r0 r0 r2
end
st Y[0+v0*1+v1*3] r0
end
end
end
";

// A remainder within a remainder.
const THIRTY: &str = "program size 30 mod 31 procs 1 line 1 lanes 1 regs 4
table 0 values 1 16 8 4 2
table 1 values 1 25 5
phase
for v0 2
for v1 3
for v2 5
zero r0
for v3 5
ld r1 X[0+(0+v0*15+(0+v1*5+v3*3)%15*2)%30*1]
mul r2 r1 t0[0+(0+v2*v3*1)%5*1] step 0
add r0 r0 r2
end
st A[0+v0*15+v1*5+v2*1] r0
end
end
end
for v0 2
for v1 5
for v2 3
zero r0
for v3 3
ld r1 A[0+v0*15+v1*1+v3*5]
mul r2 r1 t1[0+(0+v2*v3*1)%3*1] step 0
add r0 r0 r2
end
st B[0+v0*15+(0+v1*6+v2*10)%15*1] r0
end
end
end
for v0 15
ld r0 B[0+v0*1]
ld r1 B[15+v0*1]
add r2 r0 r1
sub r3 r0 r1
st Y[0+(0+v0*16)%30*1] r2
st Y[0+(15+v0*16)%30*1] r3
end
end
";

// Each place of a kernel has its remainder or does without, by its own constant.
const FIFTEEN: &str = "program size 15 mod 31 procs 1 line 1 lanes 1 regs 41
phase
for v0 3
ld r0 X[0+v0*5]
ld r1 X[3+v0*5]
ld r2 X[0+(6+v0*5)%15*1]
ld r3 X[0+(9+v0*5)%15*1]
ld r4 X[0+(12+v0*5)%15*1]
add r5 r0 r1
add r6 r5 r2
add r7 r6 r3
add r8 r7 r4
mul r9 r1 16
add r10 r0 r9
mul r11 r2 8
add r12 r10 r11
mul r13 r3 4
add r14 r12 r13
mul r15 r4 2
add r16 r14 r15
mul r17 r1 8
add r18 r0 r17
mul r19 r2 2
add r20 r18 r19
mul r21 r3 16
add r22 r20 r21
mul r23 r4 4
add r24 r22 r23
mul r25 r1 4
add r26 r0 r25
mul r27 r2 16
add r28 r26 r27
mul r29 r3 2
add r30 r28 r29
mul r31 r4 8
add r32 r30 r31
mul r33 r1 2
add r34 r0 r33
mul r35 r2 4
add r36 r34 r35
mul r37 r3 8
add r38 r36 r37
mul r39 r4 16
add r40 r38 r39
st A[0+v0*5] r8
st A[1+v0*5] r16
st A[2+v0*5] r24
st A[3+v0*5] r32
st A[4+v0*5] r40
end
for v0 5
ld r0 A[0+v0*1]
ld r1 A[5+v0*1]
ld r2 A[10+v0*1]
add r3 r0 r1
add r4 r3 r2
mul r5 r1 25
add r6 r0 r5
mul r7 r2 5
add r8 r6 r7
mul r9 r1 5
add r10 r0 r9
mul r11 r2 25
add r12 r10 r11
st Y[0+(0+v0*6)%15*1] r4
st Y[0+(10+v0*6)%15*1] r8
st Y[0+(5+v0*6)%15*1] r12
end
end
";

// A pass of tiles between two passes of kernels.
const LANES: &str = "program size 4 mod 17 procs 1 line 1 lanes 2 regs 6
table 0 values 1 1 1 4
phase
ld r0 X[0]
ld r1 X[2]
add r2 r0 r1
sub r3 r0 r1
st A[0] r2
st A[2] r3
ld r0 A[0]
ld r1 A[2]
tile r2 r0
mul r4 r2 t0[0] step 1
st B[0] r4
mul r5 r3 t0[2] step 1
st B[2] r5
ld r0 B[0]
ld r1 B[2]
add r2 r0 r1
sub r3 r0 r1
st Y[0] r2
st Y[2] r3
end
";

// The C text of the first listing.
const C_TEXT: &str = "/* program size 2 mod 15 procs 1 line 1 lanes 1 regs 5 */
#include <stdint.h>
#define M 15ULL
#define V 1
#define X (W + 0)
#define Y (W + 2)
#define A (W + 4)
#define B (W + 6)
static uint64_t W[8];
static uint64_t add(uint64_t a, uint64_t b) { uint64_t c = a + b; return c >= M ? c - M : c; }
static uint64_t sub(uint64_t a, uint64_t b) { return a >= b ? a - b : a + M - b; }
static uint64_t mul(uint64_t a, uint64_t b) { return (uint64_t)((unsigned __int128)a * b % M); }
void phase0(uint64_t q) {
uint64_t r[5][V];
(void)q;
for (int l = 0; l < V; l++) r[0][l] = X[0 + l];
for (int l = 0; l < V; l++) r[1][l] = X[1 + l];
for (int l = 0; l < V; l++) r[2][l] = add(r[0][l], r[1][l]);
for (int l = 0; l < V; l++) r[3][l] = mul(r[1][l], 4);
for (int l = 0; l < V; l++) r[4][l] = add(r[0][l], r[3][l]);
for (int l = 0; l < V; l++) Y[0 + l] = r[2][l];
for (int l = 0; l < V; l++) Y[1 + l] = r[4][l];
}
";

// Requests and their listings.
const LISTED: [(&str, &str); 8] = [
    ("dft 2 mod 15 root 4\n", PAIR),
    ("dft 4 mod 17 root 4\n", FOUR),
    ("dft 9 mod 19 root 4 unroll 16\n", NINE_KERNEL),
    ("dft 9 mod 19 root 4 unroll 2\n", NINE_LEAVES),
    ("dft 30 mod 31 root 3 unroll 2\n", THIRTY),
    ("dft 15 mod 31 root 9\n", FIFTEEN),
    ("dft 4 mod 17 root 4 procs 2 line 1\n", QUAD),
    ("dft 4 mod 17 root 4 lanes 2\n", LANES),
];

fn is_listed(
    rt: &impl Abort,
    alloc: Global,
    words: &str,
    line: &str,
    text: &str,
) -> Result<(), Fail> {
    let wanted = format!(in alloc; "0; {text}; ")?;
    tells(rt, alloc, words, line, &wanted)
}

#[test]
fn letter_for_letter(rt: HostRuntime) -> Result<(), Fail> {
    for (line, listing) in LISTED {
        is_listed(&rt, rt.alloc(), "code", line, listing)?;
    }
    Ok(())
}

#[test]
fn c_letter_for_letter(rt: HostRuntime) -> Result<(), Fail> {
    is_listed(&rt, rt.alloc(), "c", "dft 2 mod 15 root 4\n", C_TEXT)
}
