// Runs and traces with store buffers, under turns and drains.

use crate::rows::all_answer;
use std::test::Fail;

// Rows as in `rows`. They leave what runs without buffers leave.
const RUNS: &str = "\
run --buffers --schedule mix:t1,d0,t0,d1; dft 4 mod 17 root 4 procs 2 line 1/1 2 3 4; 0; 10 7 15 6/; -
run --buffers; dft 4 mod 17 root 4 procs 2 line 1/1 2 3 4 1 2 3 4; 0; 10 7 15 6/10 7 15 6/; -
run --buffers --schedule rr:7; dft 4 mod 17 root 4 procs 2 line 1/1 2 3 4; 0; 10 7 15 6/; -
run --buffers --schedule seed:1:1000; dft 4 mod 17 root 4 procs 2 line 1/18 19 20 21; 0; 10 7 15 6/; -
run --buffers --schedule mix:t0,t0,d0,t0,t0,t0,t0,t0,t0,t0,d0,t0; dft 4 mod 17 root 4/1 2 3 4; 0; 10 7 15 6/; -
run --buffers --schedule mix:t1,t1,t1,d1,t0,d0,d1; dft 16 mod 17 root 3 procs 2 line 2 lanes 2/0 1 0 0 0 0 0 0 0 0 0 0 0 0 0 0; 0; 1 3 9 10 13 5 15 11 16 14 8 7 4 12 2 6/; -
run --schedule mix:t1,d1 --buffers; dft 16 mod 17 root 3 procs 2 line 2/0 1 0 0 0 0 0 0 0 0 0 0 0 0 0 0; 0; 1 3 9 10 13 5 15 11 16 14 8 7 4 12 2 6/; -
run --buffers --schedule turns:0,0,0; wht 4 mod 5 lanes 2/1 2 3 4; 0; 0 3 1 0/; -
run --buffers --schedule mix:d0,d0; dft 1 mod 2 root 1/3 4; 0; 1/0/; -
";

// A drain writes the oldest store that waits; the completion takes a processor's turns and then drains its queue.
const TRACES: &str = "\
trace --buffers --schedule mix:d0,t0; dft 2 mod 15 root 4/1 1; 0; program size 2 mod 15 procs 1 line 1 lanes 1 regs 5/phase/ld r0 X[0]/ld r1 X[1]/add r2 r0 r1/mul r3 r1 4/add r4 r0 r3/st Y[0] r2/st Y[1] r4/end/0 0 empty/1 0 ld r0 0/2 0 ld r1 1/3 0 add r2 r0 r1/4 0 mul r3 r1 4/5 0 add r4 r0 r3/6 0 st 2 r2/7 0 st 3 r4/8 0 drain 2/9 0 drain 3/2 5/; -
trace --buffers --schedule mix:t0,t0,t0,t0,t0,d0,t0,d0,t0,d0,d0,t0; dft 2 mod 15 root 4/1 1; 0; program size 2 mod 15 procs 1 line 1 lanes 1 regs 5/phase/ld r0 X[0]/ld r1 X[1]/add r2 r0 r1/mul r3 r1 4/add r4 r0 r3/st Y[0] r2/st Y[1] r4/end/0 0 ld r0 0/1 0 ld r1 1/2 0 add r2 r0 r1/3 0 mul r3 r1 4/4 0 add r4 r0 r3/5 0 empty/6 0 st 2 r2/7 0 drain 2/8 0 st 3 r4/9 0 drain 3/10 0 empty/11 0 done/2 5/; -
trace --buffers; wht 2 mod 5/1 2 3 4; 0; program size 2 mod 5 procs 1 line 1 lanes 1 regs 4/phase/ld r0 X[0]/ld r1 X[1]/add r2 r0 r1/sub r3 r0 r1/st Y[0] r2/st Y[1] r3/end/0 0 ld r0 0/1 0 ld r1 1/2 0 add r2 r0 r1/3 0 sub r3 r0 r1/4 0 st 2 r2/5 0 st 3 r3/6 0 drain 2/7 0 drain 3/3 4/0 0 ld r0 0/1 0 ld r1 1/2 0 add r2 r0 r1/3 0 sub r3 r0 r1/4 0 st 2 r2/5 0 st 3 r3/6 0 drain 2/7 0 drain 3/2 4/; -
trace --buffers --schedule mix:t1,t1,t1,t1,t1,t1,d1,t1,t1,t1,d1,d1,d1,d0; dft 4 mod 17 root 4 procs 2 line 1/1 2 3 4; 0; program size 4 mod 17 procs 2 line 1 lanes 1 regs 6/table 0 values 1 1 1 4/phase/ld r0 X[0+q*1]/ld r1 X[2+q*1]/add r2 r0 r1/sub r3 r0 r1/mul r4 r2 t0[0+q*2] step 0/st A[0+q*2] r4/mul r5 r3 t0[1+q*2] step 0/st A[1+q*2] r5/end/phase/ld r0 A[0+q*1]/ld r1 A[2+q*1]/add r2 r0 r1/sub r3 r0 r1/st Y[0+q*1] r2/st Y[2+q*1] r3/end/0 1 ld r0 1/1 1 ld r1 3/2 1 add r2 r0 r1/3 1 sub r3 r0 r1/4 1 mul r4 r2 1/5 1 st 10 r4/6 1 drain 10/7 1 mul r5 r3 4/8 1 st 11 r5/9 1 waits/10 1 drain 11/11 1 empty/12 1 empty/13 0 empty/14 0 ld r0 0/15 0 ld r1 2/16 0 add r2 r0 r1/17 0 sub r3 r0 r1/18 0 mul r4 r2 1/19 0 st 8 r4/20 0 mul r5 r3 1/21 0 st 9 r5/22 0 drain 8/23 0 drain 9/24 0 ld r0 8/25 0 ld r1 10/26 0 add r2 r0 r1/27 0 sub r3 r0 r1/28 0 st 4 r2/29 0 st 6 r3/30 0 drain 4/31 0 drain 6/32 1 ld r0 9/33 1 ld r1 11/34 1 add r2 r0 r1/35 1 sub r3 r0 r1/36 1 st 5 r2/37 1 st 7 r3/38 1 drain 5/39 1 drain 7/10 7 15 6/; -
trace --buffers --schedule turns:1,1; dft 4 mod 17 root 4 procs 2 line 1/1 2 3 4; 0; program size 4 mod 17 procs 2 line 1 lanes 1 regs 6/table 0 values 1 1 1 4/phase/ld r0 X[0+q*1]/ld r1 X[2+q*1]/add r2 r0 r1/sub r3 r0 r1/mul r4 r2 t0[0+q*2] step 0/st A[0+q*2] r4/mul r5 r3 t0[1+q*2] step 0/st A[1+q*2] r5/end/phase/ld r0 A[0+q*1]/ld r1 A[2+q*1]/add r2 r0 r1/sub r3 r0 r1/st Y[0+q*1] r2/st Y[2+q*1] r3/end/0 1 ld r0 1/1 1 ld r1 3/2 0 ld r0 0/3 0 ld r1 2/4 0 add r2 r0 r1/5 0 sub r3 r0 r1/6 0 mul r4 r2 1/7 0 st 8 r4/8 0 mul r5 r3 1/9 0 st 9 r5/10 0 drain 8/11 0 drain 9/12 1 add r2 r0 r1/13 1 sub r3 r0 r1/14 1 mul r4 r2 1/15 1 st 10 r4/16 1 mul r5 r3 4/17 1 st 11 r5/18 1 drain 10/19 1 drain 11/20 0 ld r0 8/21 0 ld r1 10/22 0 add r2 r0 r1/23 0 sub r3 r0 r1/24 0 st 4 r2/25 0 st 6 r3/26 0 drain 4/27 0 drain 6/28 1 ld r0 9/29 1 ld r1 11/30 1 add r2 r0 r1/31 1 sub r3 r0 r1/32 1 st 5 r2/33 1 st 7 r3/34 1 drain 5/35 1 drain 7/10 7 15 6/; -
trace --buffers --schedule mix:d0; dft 4 mod 17 root 4 lanes 2/1 2 3 4; 0; program size 4 mod 17 procs 1 line 1 lanes 2 regs 6/table 0 values 1 1 1 4/phase/ld r0 X[0]/ld r1 X[2]/add r2 r0 r1/sub r3 r0 r1/st A[0] r2/st A[2] r3/ld r0 A[0]/ld r1 A[2]/tile r2 r0/mul r4 r2 t0[0] step 1/st B[0] r4/mul r5 r3 t0[2] step 1/st B[2] r5/ld r0 B[0]/ld r1 B[2]/add r2 r0 r1/sub r3 r0 r1/st Y[0] r2/st Y[2] r3/end/0 0 empty/1 0 ld r0 0/2 0 ld r1 2/3 0 add r2 r0 r1/4 0 sub r3 r0 r1/5 0 st 8 r2/6 0 st 10 r3/7 0 ld r0 8/8 0 ld r1 10/9 0 tile r2 r0/10 0 mul r4 r2 1,1/11 0 st 12 r4/12 0 mul r5 r3 1,4/13 0 st 14 r5/14 0 ld r0 12/15 0 ld r1 14/16 0 add r2 r0 r1/17 0 sub r3 r0 r1/18 0 st 4 r2/19 0 st 6 r3/20 0 drain 8/21 0 drain 10/22 0 drain 12/23 0 drain 14/24 0 drain 4/25 0 drain 6/10 7 15 6/; -
";

const REFUSALS: &str = "\
run --buffers --schedule mix:d2; dft 4 mod 17 root 4 procs 2 line 1/1 2 3 4; 5; -; turn names processor 2 of 2
run --buffers --schedule mix:t0,d1,d7,t2; dft 4 mod 17 root 4 procs 2 line 1/x; 5; -; turn names processor 7 of 2
trace --buffers --schedule mix:t0,t4294967295; dft 4 mod 17 root 4 procs 2 line 1/1 2 3 4; 5; -; turn names processor 4294967295 of 2
run --buffers --schedule turns:0,2; dft 4 mod 17 root 4 procs 2 line 1/1 2 3 4; 5; -; turn names processor 2 of 2
run --buffers --schedule mix:d1; dft 4 mod 17 root 3/1 2 3 4; 5; -; turn names processor 1 of 1
run --buffers --schedule mix:d0; dft 4 mod 17 root 3/1 2 3 4; 6; -; root to the size is 13, not 1
run --buffers; dft 4 mod 17 root 4/1 2 3 4 5 6 7; 9; 10 7 15 6/; input ends with 3 of 4 numbers
run --buffers; dft 4 mod 17 root 4/1 2 x 4; 9; -; token 3 is not a number
run --buffers; dft 4 mod 17 root 4/; 0; -; -
run --schedule mix:t0; dft 4 mod 17 root 4/1 2 3 4; 2; -; usage
run --buffers --schedule mix:; dft 4 mod 17 root 4/1 2 3 4; 2; -; usage
run --buffers --schedule mix:t0,; dft 4 mod 17 root 4/1 2 3 4; 2; -; usage
trace --buffers --schedule mix:x0; dft 4 mod 17 root 4/1 2 3 4; 2; -; usage
sample --buffers; dft 4 mod 17 root 4/; 2; -; usage
plan --buffers; dft 4 mod 17 root 4/; 2; -; usage
";

#[test]
fn runs_with_buffers(rt: HostRuntime) -> Result<(), Fail> {
    all_answer(&rt, rt.alloc(), RUNS)
}

#[test]
fn traces_with_buffers(rt: HostRuntime) -> Result<(), Fail> {
    all_answer(&rt, rt.alloc(), TRACES)
}

#[test]
fn refusals_of_buffers(rt: HostRuntime) -> Result<(), Fail> {
    all_answer(&rt, rt.alloc(), REFUSALS)
}
