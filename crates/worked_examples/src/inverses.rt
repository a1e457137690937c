// The inverse of a Fourier transform, in every command. The answers are those of checks/reference/.

use crate::rows::all_answer;
use std::test::Fail;

// Rows as those of requests: the words after the program's name, the input, the code, the output and the note.

const RESULTS: &str = "\
run; idft 4 mod 17 root 4/10 7 15 6/4 0 0 0/; 0; 1 2 3 4/1 1 1 1/; -
run; idft 4 mod 17 root 4 unroll 2/10 7 15 6/; 0; 1 2 3 4/; -
run --schedule rr:3; idft 4 mod 17 root 4 procs 2 line 1/10 7 15 6/; 0; 1 2 3 4/; -
run; idft 4 mod 17 root 4 lanes 2/10 7 15 6/; 0; 1 2 3 4/; -
run --buffers; idft 16 mod 17 root 3 procs 2 line 2 lanes 2/1 2 3 4 5 6 7 8 9 10 11 12 13 14 15 16/; 0; 0 7 1 14 6 3 5 4 8 12 11 13 10 2 15 9/; -
run; idft 2 mod 17 root 1/3 3/; 0; 3 3/; -
run; idft 1 mod 2 root 1/1 0 3/; 0; 1/0/1/; -
run; idft 11 mod 23 root 2/1 2 3 4 5 6 7 8 9 10 11/; 0; 6 21 14 12 2 19 3 20 10 8 1/; -
run; idft 2 mod 15 root 4/7 8/; 0; 0 12/; -
run; idft 4 mod 17 root 1/1 2 3 4/; 0; 11 11 11 11/; -
";

const PLANS: &str = "\
plan; idft 4 mod 17 root 4; 0; tree ct(leaf(2),leaf(2))/cost 13/phases 1/each 13/; -
plan; idft 4 mod 17 root 4 weight 5; 0; tree ct(leaf(2),leaf(2))/cost 33/phases 1/each 33/; -
plan; idft 1 mod 17 root 1 weight 3; 0; tree leaf(1)/cost 3/phases 1/each 3/; -
plan; idft 16 mod 17 root 3 procs 2 line 2 lanes 2; 0; tree ct(ct(leaf(2),leaf(2)),ct(leaf(2),leaf(2)))/cost 104/phases 2/each 52/; -
plan; idft 4 mod 17 root 4 budget 13; 0; tree ct(leaf(2),leaf(2))/cost 13/phases 1/each 13/; -
formula; idft 4 mod 17 root 4; 0; TIMES(RIGHT(4,DIAG(13)),TIMES(LEFT(DFT(2,16),2),TIMES(T(4,2,13),TIMES(RIGHT(2,DFT(2,16)),L(4,2)))))/; -
formula; idft 1 mod 17 root 1; 0; TIMES(RIGHT(1,DIAG(1)),DFT(1,1))/; -
formula; idft 6 mod 7 root 3; 0; TIMES(RIGHT(6,DIAG(6)),TIMES(GTOUT(2,3),TIMES(LEFT(DFT(2,6),3),TIMES(RIGHT(2,DFT(3,4)),GTIN(2,3)))))/; -
cert; idft 4 mod 17 root 4; 0; {\"rows\":[[2,2,\"leaf\",0,0],[4,13,\"ct\",2,2]],\"size\":4,\"version\":2,\"weight\":1}/; -
cert; idft 1 mod 17 root 1 weight 3; 0; {\"rows\":[[1,3,\"leaf\",0,0]],\"size\":1,\"version\":2,\"weight\":3}/; -
cert; idft 12 mod 13 root 2 weight 2; 0; {\"rows\":[[2,2,\"leaf\",0,0],[3,14,\"leaf\",0,0],[4,10,\"ct\",2,2],[6,34,\"gt\",2,3],[12,110,\"gt\",3,4]],\"size\":12,\"version\":2,\"weight\":2}/; -
sample; idft 4 mod 17 root 4; 0; sum 12/operations 13/loads 4/stores 4/; -
sample --seed 7; idft 16 mod 17 root 3 procs 2 line 2 lanes 2 weight 2; 0; sum 3/operations 144/loads 48/stores 48/; -
check; idft 4 mod 17 root 4/{\"rows\":[[2,2,\"leaf\",0,0],[4,13,\"ct\",2,2]],\"size\":4,\"version\":2,\"weight\":1}; 0; least 13/; -
check; dft 4 mod 17 root 4/{\"rows\":[[2,2,\"leaf\",0,0],[4,13,\"ct\",2,2]],\"size\":4,\"version\":2,\"weight\":1}; 14; -; certificate row 4 gives 13, found 9
check; idft 4 mod 17 root 4/{\"rows\":[[2,2,\"leaf\",0,0],[4,9,\"ct\",2,2]],\"size\":4,\"version\":2,\"weight\":1}; 14; -; certificate row 4 gives 9, found 13
";

const CODES: &str = "\
code; idft 4 mod 17 root 4; 0; program size 4 mod 17 procs 1 line 1 lanes 1 regs 17/phase/ld r0 X[0]/ld r1 X[1]/ld r2 X[2]/ld r3 X[3]/add r4 r0 r2/sub r5 r0 r2/add r6 r1 r3/sub r7 r1 r3/mul r8 r7 13/add r9 r4 r6/sub r10 r4 r6/add r11 r5 r8/sub r12 r5 r8/mul r13 r9 13/st Y[0] r13/mul r14 r11 13/st Y[1] r14/mul r15 r10 13/st Y[2] r15/mul r16 r12 13/st Y[3] r16/end/; -
code; idft 1 mod 17 root 1; 0; program size 1 mod 17 procs 1 line 1 lanes 1 regs 2/phase/ld r0 X[0]/mul r1 r0 1/st Y[0] r1/end/; -
code; idft 4 mod 17 root 4 unroll 2; 0; program size 4 mod 17 procs 1 line 1 lanes 1 regs 6/table 0 values 1 1 1 13/phase/for v0 2/ld r0 X[0+v0*1]/ld r1 X[2+v0*1]/add r2 r0 r1/sub r3 r0 r1/mul r4 r2 t0[0+v0*2] step 0/st A[0+v0*2] r4/mul r5 r3 t0[1+v0*2] step 0/st A[1+v0*2] r5/end/for v0 2/ld r0 A[0+v0*1]/ld r1 A[2+v0*1]/add r2 r0 r1/sub r3 r0 r1/mul r4 r2 13/st Y[0+v0*1] r4/mul r5 r3 13/st Y[2+v0*1] r5/end/end/; -
code; idft 4 mod 17 root 4 procs 2 line 1; 0; program size 4 mod 17 procs 2 line 1 lanes 1 regs 6/table 0 values 1 1 1 13/phase/ld r0 X[0+q*1]/ld r1 X[2+q*1]/add r2 r0 r1/sub r3 r0 r1/mul r4 r2 t0[0+q*2] step 0/st A[0+q*2] r4/mul r5 r3 t0[1+q*2] step 0/st A[1+q*2] r5/end/phase/ld r0 A[0+q*1]/ld r1 A[2+q*1]/add r2 r0 r1/sub r3 r0 r1/mul r4 r2 13/st Y[0+q*1] r4/mul r5 r3 13/st Y[2+q*1] r5/end/; -
code; idft 3 mod 7 root 2 unroll 2; 0; program size 3 mod 7 procs 1 line 1 lanes 1 regs 4/table 0 values 1 4 2/phase/for v0 3/zero r0/for v1 3/ld r1 X[0+v1*1]/mul r2 r1 t0[0+(0+v0*v1*1)%3*1] step 0/add r0 r0 r2/end/mul r3 r0 5/st Y[0+v0*1] r3/end/end/; -
trace; idft 1 mod 17 root 1/5/; 0; program size 1 mod 17 procs 1 line 1 lanes 1 regs 2/phase/ld r0 X[0]/mul r1 r0 1/st Y[0] r1/end/0 0 ld r0 0/1 0 mul r1 r0 1/2 0 st 1 r1/5/; -
";

const REFUSALS: &str = "\
plan; idft 2 mod 10 root 9; 15; -; size and modulus share the factor 2
plan; idft 6 mod 15 root 4; 15; -; size and modulus share the factor 3
plan; idft 4 mod 17 root 3; 6; -; root to the size is 13, not 1
plan; idft 4 mod 17 root 4 budget 12; 8; -; least cost 13 is over budget 12
plan; idft 1 mod 17 root 1 budget 2 weight 3; 8; -; least cost 3 is over budget 2
plan; idft 4 mod 10 root 3 procs 2 line 3 lanes 2; 4; -; lanes 2 do not divide line 3
run --schedule turns:1; idft 2 mod 10 root 9/1 2/; 15; -; size and modulus share the factor 2
run --schedule turns:1; idft 4 mod 17 root 3/1 2 3 4/; 5; -; turn names processor 1 of 1
plan; idft 1048577 mod 17 root 1; 4; -; size 1048577 is out of range
plan; idft 4 mod 17 root 17; 4; -; root 17 is out of range
plan; idft 4 mod 17; 3; -; syntax at byte 13
plan; idf; 3; -; syntax at byte 3
plan; iwht 4 mod 17; 3; -; syntax at byte 1
plan; idft 2x2 mod 17 root 16; 3; -; syntax at byte 6
convolve; idft 4 mod 17 root 4/1 2 3 4/; 3; -; syntax at byte 0
";

#[test]
fn inverses(rt: HostRuntime) -> Result<(), Fail> {
    all_answer(&rt, rt.alloc(), RESULTS)
}

#[test]
fn plans_of_inverses(rt: HostRuntime) -> Result<(), Fail> {
    all_answer(&rt, rt.alloc(), PLANS)
}

#[test]
fn programs_of_inverses(rt: HostRuntime) -> Result<(), Fail> {
    all_answer(&rt, rt.alloc(), CODES)
}

#[test]
fn refused_inverses(rt: HostRuntime) -> Result<(), Fail> {
    all_answer(&rt, rt.alloc(), REFUSALS)
}
