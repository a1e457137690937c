// Cyclic convolutions, and what `convolve` makes of their lines. The answers are those of checks/reference/convolutions.py.

use crate::call::{long_tells, tells, written};
use crate::rows::all_answer;
use crate::streams::all_stream;
use std::alloc::Global;
use std::test::Fail;

// Rows as those of requests: the words after the program's name, the input, the code, the output and the note.

const RESULTS: &str = "\
convolve; conv 4 mod 17 root 4/1 2 0 0/1 2 3 4/; 0; 9 4 7 10/; -
convolve; conv 4 mod 17 root 4/1 2 0 0/1 2 3 4; 0; 9 4 7 10/; -
convolve; conv 4 mod 17 root 4 budget 22/1 2 0 0 1 2 3 4 1 0 0 0/0 1 0 0/; 0; 9 4 7 10/1 2 0 0/0 1 2 0/; -
convolve; conv 4 mod 17 root 4/18 0019/17 34/18 19 20 21/; 0; 9 4 7 10/; -
convolve; conv 4 mod 17 root 4/1 2 0 0/; 0; -; -
convolve; conv 4 mod 17 root 4/1 2 0 0; 0; -; -
convolve; conv 4 mod 17 root 13/0 1 0 0/1 2 3 4/; 0; 4 1 2 3/; -
convolve; conv 4 mod 17 root 4 unroll 2 weight 5/1 2 3 4/5 6 7 8/; 0; 15 0 15 9/; -
convolve --schedule rr:3; conv 4 mod 17 root 4/1 2 0 0/1 2 3 4/; 0; 9 4 7 10/; -
convolve --schedule=turns:0,0,0; conv 8 mod 17 root 2 unroll 2/1 2 3 4 5 6 7 8/1 1 0 0 0 0 0 16/; 0; 7 0 1 2 3 4 5 14/; -
convolve --schedule seed:7:9; conv 6 mod 7 root 3/1 2 3 4 5 6/6 5 4 3 2 1/; 0; 6 4 1 4 6 0/; -
convolve; conv 3 mod 7 root 2/1 2 3/4 5 6/; 0; 3 3 0/; -
convolve; conv 2 mod 15 root 14/1 2/3 4/; 0; 11 10/; -
convolve; conv 2 mod 4611686018427387903 root 4611686018427387902/4611686018427387902 1/4611686018427387902 18446744073709551615/; 0; 4 4611686018427387899/; -
convolve; conv 1 mod 2 root 1/1/1 0 1/; 0; 1/0/1/; -
convolve; conv 1 mod 17 root 1 budget 1000 weight 1000/3/5 6/; 0; 15/1/; -
convolve; conv 11 mod 23 root 2/1 2 3 4 5 6 7 8 9 10 11/1 1 0 0 0 0 0 0 0 0 0/; 0; 12 3 5 7 9 11 13 15 17 19 21/; -
";

const CODES: &str = "\
convolve --code; conv 4 mod 17 root 4/1 2 0 0/1 2 3 4/; 0; program size 4 mod 17 procs 1 line 1 lanes 1 regs 17/table 0 values 5 15 4 11/phase/ld r0 X[0]/ld r1 X[1]/ld r2 X[2]/ld r3 X[3]/add r4 r0 r2/sub r5 r0 r2/add r6 r1 r3/sub r7 r1 r3/mul r8 r7 4/add r9 r4 r6/sub r10 r4 r6/add r11 r5 r8/sub r12 r5 r8/mul r13 r9 t0[0] step 0/st A[0] r13/mul r14 r11 t0[1] step 0/st A[1] r14/mul r15 r10 t0[2] step 0/st A[2] r15/mul r16 r12 t0[3] step 0/st A[3] r16/ld r0 A[0]/ld r1 A[1]/ld r2 A[2]/ld r3 A[3]/add r4 r0 r2/sub r5 r0 r2/add r6 r1 r3/sub r7 r1 r3/mul r8 r7 13/add r9 r4 r6/sub r10 r4 r6/add r11 r5 r8/sub r12 r5 r8/st Y[0] r9/st Y[1] r11/st Y[2] r10/st Y[3] r12/end/; -
convolve --code; conv 2 mod 15 root 14/1 2 rubbish 18446744073709551616/; 0; program size 2 mod 15 procs 1 line 1 lanes 1 regs 6/table 0 values 9 7/phase/ld r0 X[0]/ld r1 X[1]/add r2 r0 r1/sub r3 r0 r1/mul r4 r2 t0[0] step 0/st A[0] r4/mul r5 r3 t0[1] step 0/st A[1] r5/ld r0 A[0]/ld r1 A[1]/add r2 r0 r1/sub r3 r0 r1/st Y[0] r2/st Y[1] r3/end/; -
convolve --code --schedule rr:3; conv 1 mod 17 root 1/3/5/; 0; program size 1 mod 17 procs 1 line 1 lanes 1 regs 2/table 0 values 3/phase/ld r0 X[0]/mul r1 r0 t0[0] step 0/st A[0] r1/ld r0 A[0]/st Y[0] r0/end/; -
convolve --schedule turns:0,0 --code; conv 4 mod 17 root 4 unroll 2/1 2 0 0/1 2 x; 0; program size 4 mod 17 procs 1 line 1 lanes 1 regs 6/table 0 values 1 1 1 4/table 1 values 5 15 4 11/table 2 values 1 1 1 13/phase/for v0 2/ld r0 X[0+v0*1]/ld r1 X[2+v0*1]/add r2 r0 r1/sub r3 r0 r1/mul r4 r2 t0[0+v0*2] step 0/st A[0+v0*2] r4/mul r5 r3 t0[1+v0*2] step 0/st A[1+v0*2] r5/end/for v0 2/ld r0 A[0+v0*1]/ld r1 A[2+v0*1]/add r2 r0 r1/sub r3 r0 r1/mul r4 r2 t1[0+v0*1] step 0/st B[0+v0*1] r4/mul r5 r3 t1[2+v0*1] step 0/st B[2+v0*1] r5/end/for v0 2/ld r0 B[0+v0*1]/ld r1 B[2+v0*1]/add r2 r0 r1/sub r3 r0 r1/mul r4 r2 t2[0+v0*2] step 0/st A[0+v0*2] r4/mul r5 r3 t2[1+v0*2] step 0/st A[1+v0*2] r5/end/for v0 2/ld r0 A[0+v0*1]/ld r1 A[2+v0*1]/add r2 r0 r1/sub r3 r0 r1/st Y[0+v0*1] r2/st Y[2+v0*1] r3/end/end/; -
";

const REFUSALS: &str = "\
convolve; conv 4 mod 17 root 4 budget 21/1 2 0 0/1 2 3 4/; 8; -; least cost 22 is over budget 21
convolve; conv 4 mod 17 root 4 budget 45 weight 5/; 8; -; least cost 46 is over budget 45
convolve; conv 1 mod 17 root 1 budget 999 weight 1000/3/; 8; -; least cost 1000 is over budget 999
convolve --code; conv 4 mod 17 root 4 budget 21/x; 8; -; least cost 22 is over budget 21
convolve; conv 4 mod 17 root 4/; 9; -; input ends with 0 of 4 numbers
convolve; conv 4 mod 17 root 4; 9; -; input ends with 0 of 4 numbers
convolve; conv 4 mod 17 root 4/ //; 9; -; input ends with 0 of 4 numbers
convolve --code; conv 4 mod 17 root 4/; 9; -; input ends with 0 of 4 numbers
convolve; conv 4 mod 17 root 4/1 2 0; 9; -; input ends with 3 of 4 numbers
convolve --code; conv 4 mod 17 root 4/1 2 0; 9; -; input ends with 3 of 4 numbers
convolve; conv 4 mod 17 root 4/1 2 x 0/1 2 3 4/; 9; -; token 3 is not a number
convolve --code; conv 4 mod 17 root 4/1 2 0 0x/; 9; -; token 4 is not a number
convolve; conv 4 mod 17 root 4/1 2 0 0/1 2 3 4/5 6 -7 8/; 9; 9 4 7 10/; token 11 is not a number
convolve; conv 4 mod 17 root 4/1 2 0 0/1 2 3 4/5 6/; 9; 9 4 7 10/; input ends with 2 of 4 numbers
convolve; conv 4 mod 17 root 4/1 2 0 0/18446744073709551616/; 9; -; token 5 is not a number
convolve; conv 4 mod 15 root 4/1 2 0 0/1 2 3 4/; 23; -; power sum 1 is not zero
convolve; conv 4 mod 15 root 4 budget 1/; 23; -; power sum 1 is not zero
convolve; conv 4 mod 17 root 16/x; 23; -; power sum 2 is not zero
convolve; conv 12 mod 13 root 3/; 23; -; power sum 3 is not zero
convolve; conv 2 mod 15 root 4/1 1/; 23; -; power sum 1 is not zero
convolve; conv 4 mod 17 root 3/; 6; -; root to the size is 13, not 1
convolve; conv 2 mod 10 root 9/1 2/; 15; -; size and modulus share the factor 2
convolve --schedule turns:1; conv 2 mod 10 root 9/; 15; -; size and modulus share the factor 2
convolve --schedule turns:0,2,1; conv 4 mod 17 root 3/; 5; -; turn names processor 2 of 1
convolve --code --schedule turns:1; conv 4 mod 17 root 4/1 2 0 0/; 5; -; turn names processor 1 of 1
convolve; conv 2 mod 10 root 10/; 4; -; root 10 is out of range
convolve; conv 2 mod 10 root 9 unroll 1/; 4; -; unroll 1 is out of range
convolve; conv 2 mod 10 root 9 weight 1001/; 4; -; weight 1001 is out of range
convolve; conv 4 mod 17 root 4 procs 1/1 2 0 0/; 3; -; syntax at byte 21
convolve; conv 4 mod 17 root 4 weight 5 budget 9/; 3; -; syntax at byte 29
convolve; conv 2x2 mod 17 root 16x16/1 2 0 0/; 3; -; syntax at byte 6
convolve; dft 4 mod 17 root 4/1 2 0 0/1 2 3 4/; 3; -; syntax at byte 0
convolve; wht 4 mod 17/1 2 0 0/1 2 3 4/; 3; -; syntax at byte 0
convolve; -; 3; -; syntax at byte 0
";

// Words that are no command line, and lines that another command does not read.
const OTHERS: &str = "\
convolve --code --schedule seq1; conv 4 mod 17 root 4/1 2 0 0/1 2 3 4/; 2; -; usage
convolve --schedule turns:; conv 4 mod 17 root 4/1 2 0 0/1 2 3 4/; 2; -; usage
convolve --schedule mix:t0; conv 4 mod 17 root 4/1 2 0 0/1 2 3 4/; 2; -; usage
convolve --buffers; conv 4 mod 17 root 4/1 2 0 0/1 2 3 4/; 2; -; usage
convolve --mod 17; conv 4 mod 17 root 4/1 2 0 0/1 2 3 4/; 2; -; usage
convolve --code --code; conv 4 mod 17 root 4/1 2 0 0/1 2 3 4/; 2; -; usage
run --code; conv 4 mod 17 root 4/1 2 0 0/1 2 3 4/; 2; -; usage
run; conv 4 mod 17 root 4/1 2 0 0/1 2 3 4/; 3; -; syntax at byte 0
trace; conv 4 mod 17 root 4/1 2 0 0/1 2 3 4/; 3; -; syntax at byte 0
plan; conv 4 mod 17 root 4/1 2 0 0/1 2 3 4/; 3; -; syntax at byte 0
formula; conv 4 mod 17 root 4/1 2 0 0/1 2 3 4/; 3; -; syntax at byte 0
code; conv 4 mod 17 root 4/1 2 0 0/1 2 3 4/; 3; -; syntax at byte 0
c; conv 4 mod 17 root 4/1 2 0 0/1 2 3 4/; 3; -; syntax at byte 0
cert; conv 4 mod 17 root 4/1 2 0 0/1 2 3 4/; 3; -; syntax at byte 0
check; conv 4 mod 17 root 4/1 2 0 0/1 2 3 4/; 3; -; syntax at byte 0
sample; conv 4 mod 17 root 4/1 2 0 0/1 2 3 4/; 3; -; syntax at byte 0
apply --mod 17; conv 4 mod 17 root 4/1 2 0 0/1 2 3 4/; 3; -; syntax at byte 0
compile --mod 17; conv 4 mod 17 root 4/1 2 0 0/1 2 3 4/; 3; -; syntax at byte 0
exec; conv 4 mod 17 root 4/1 2 0 0/; 18; -; listing syntax at line 1
";

#[test]
fn convolutions(rt: HostRuntime) -> Result<(), Fail> {
    all_answer(&rt, rt.alloc(), RESULTS)
}

#[test]
fn listed_convolutions(rt: HostRuntime) -> Result<(), Fail> {
    all_answer(&rt, rt.alloc(), CODES)
}

#[test]
fn refused_convolutions(rt: HostRuntime) -> Result<(), Fail> {
    all_answer(&rt, rt.alloc(), REFUSALS)
}

#[test]
fn lines_of_other_commands(rt: HostRuntime) -> Result<(), Fail> {
    all_answer(&rt, rt.alloc(), OTHERS)
}

fn with_vectors(alloc: Global) -> Result<String, Fail> {
    let listing = written(alloc, "convolve --code", "conv 4 mod 17 root 4\n1 2 0 0\n")?;
    Ok(format!(in alloc; "{listing}\n1 2 3 4\n0 1 0 0\n")?)
}

// The listing is run on other vectors as a stranger's is.
#[test]
fn convolution_by_its_listing(rt: HostRuntime) -> Result<(), Fail> {
    let given = with_vectors(rt.alloc())?;
    tells(&rt, rt.alloc(), "exec", &given, "0; 9 4 7 10\n0 1 2 0\n; ")
}

// A line of 257 bytes is not read.
#[test]
fn long_lines(rt: HostRuntime) -> Result<(), Fail> {
    let wanted = "13; ; spiral: more than 256 bytes\n";
    long_tells(&rt, rt.alloc(), "convolve", 257, "", wanted)
}

// Rows as those of streams. A read that fails leaves the lines of the vectors before it, and a write that fails or a sink
// that is full leaves a front of the text.
const FAILING: &str = "\
step 7 read 0; conv 4 mod 17 root 4/1 2 0 0/1 2 3 4/5 6 7 8/; 10; ; spiral: read failed/
step 7 read 3; conv 4 mod 17 root 4/1 2 0 0/1 2 3 4/5 6 7 8/; 10; ; spiral: read failed/
step 7 read 6; conv 4 mod 17 root 4/1 2 0 0/1 2 3 4/5 6 7 8/; 10; 9 4 7 10/; spiral: read failed/
write 0; conv 4 mod 17 root 4/1 2 0 0/1 2 3 4/5 6 7 8/; 11; ; spiral: write failed/
room 12; conv 4 mod 17 root 4/1 2 0 0/1 2 3 4/5 6 7 8/; 11; 9 4 7 10/4 1; spiral: write failed/
";

// After h the listing needs no read.
const FAILING_CODES: &str = "\
write 0; conv 4 mod 17 root 4/1 2 0 0/1 2 3 4/5 6 7 8/; 11; ; spiral: write failed/
step 29 read 1; conv 4 mod 17 root 4/1 2 0 0/1 2 3 4/5 6 7 8/; 0; program size 4 mod 17 procs 1 line 1 lanes 1 regs 17/table 0 values 5 15 4 11/phase/ld r0 X[0]/ld r1 X[1]/ld r2 X[2]/ld r3 X[3]/add r4 r0 r2/sub r5 r0 r2/add r6 r1 r3/sub r7 r1 r3/mul r8 r7 4/add r9 r4 r6/sub r10 r4 r6/add r11 r5 r8/sub r12 r5 r8/mul r13 r9 t0[0] step 0/st A[0] r13/mul r14 r11 t0[1] step 0/st A[1] r14/mul r15 r10 t0[2] step 0/st A[2] r15/mul r16 r12 t0[3] step 0/st A[3] r16/ld r0 A[0]/ld r1 A[1]/ld r2 A[2]/ld r3 A[3]/add r4 r0 r2/sub r5 r0 r2/add r6 r1 r3/sub r7 r1 r3/mul r8 r7 13/add r9 r4 r6/sub r10 r4 r6/add r11 r5 r8/sub r12 r5 r8/st Y[0] r9/st Y[1] r11/st Y[2] r10/st Y[3] r12/end/;\x20
";

#[test]
fn failing_streams(rt: HostRuntime) -> Result<(), Fail> {
    all_stream(&rt, rt.alloc(), "convolve", FAILING)
}

#[test]
fn failing_streams_of_listings(rt: HostRuntime) -> Result<(), Fail> {
    all_stream(&rt, rt.alloc(), "convolve --code", FAILING_CODES)
}
