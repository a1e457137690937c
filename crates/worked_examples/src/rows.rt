// Calls whose answers are worked out from the definitions, or by the reference in checks/reference/.

use crate::call::{same, told};
use std::alloc::Global;
use std::process::Abort;
use std::test::Fail;
use worked_rows::field;

// A row has the words after the program's name, the input, the status' code, the output and the note after the program's
// name, with `; ` between them. A stroke stands for a line end, and a dash for nothing.

/// What the note says of words that are no command line.
pub(crate) const USAGE: &str =
    "usage: spiral plan|formula|code|c|run|trace|cert|check|sample|compile|apply|exec|convolve \
[--schedule WORD] [--seed NUMBER] [--mod NUMBER] [--buffers] [--code]";

// A square root of 1 that is not -1, a tie of two rules, twiddles that are -1, and a size that is no unit.
const RESULTS: &str = "\
run; dft 6 mod 7 root 3/0 1 0 0 0 0; 0; 1 3 2 6 4 5/; -
run; wht 4 mod 5/1 2 3 4/; 0; 0 3 1 0/; -
run; dft 2 mod 15 root 4/1 1/; 0; 2 5/; -
run; dft 4 mod 10 root 9/1 2 3 4/; 0; 0 8 0 8/; -
run; dft 11 mod 23 root 2 budget 242/0 1 0 0 0 0 0 0 0 0 0/; 0; 1 2 4 8 16 9 18 13 3 6 12/; -
run; dft 4 mod 17 root 4/0001 2 3 4; 0; 10 7 15 6/; -
run; dft 65521 mod 17 root 1 budget 10000000000/; 0; -; -
sample; dft 16 mod 17 root 3/; 0; sum 3/operations 88/loads 32/stores 32/; -
sample; dft 65536 mod 65537 root 3/; 0; sum 7978/operations 1572864/loads 393216/stores 393216/; -
sample --seed 0; wht 65536 mod 65536/; 0; sum 32768/operations 1048576/loads 917504/stores 917504/; -
run; dft 4 mod 17 root 4/1 2 3 4/; 0; 10 7 15 6/; -
run; wht 8 mod 10 unroll 2/1 2 3 4 5 6 7 8; 0; 6 6 2 0 4 0 0 0/; -
run; dft 9 mod 19 root 4 unroll 2/1 2 3 4 5 6 7 8 9; 0; 7 3 12 11 13 16 18 17 7/; -
run --schedule seed:7:9; dft 4 mod 17 root 4/1 2 3 4/; 0; 10 7 15 6/; -
run; dft 1 mod 2 root 1/1; 0; 1/; -
run; dft 2 mod 4611686018427387903 root 4611686018427387902/18446744073709551615 1; 0; 4 2/; -
run --schedule=turns:0,0; dft 4 mod 10 root 9 unroll 2 budget 32/1 2 3 4 4 3 2 1; 0; 0 8 0 8/0 2 0 2/; -
sample; dft 2 mod 10 root 9/x; 0; sum 5/operations 2/loads 2/stores 2/; -
sample --seed 18446744073709551615 --schedule rr:3; dft 6 mod 7 root 3; 0; sum 3/operations 26/loads 6/stores 6/; -
sample; wht 1024 mod 1024/; 0; sum 512/operations 10240/loads 8192/stores 8192/; -
sample; dft 6 mod 7 root 3 weight 5/; 0; sum 6/operations 58/loads 6/stores 6/; -
run; dft 4 mod 17 root 4 weight 1000/1 2 3 4/; 0; 10 7 15 6/; -
";

const PLANS: &str = "\
plan; dft 1 mod 2 root 1/; 0; tree leaf(1)/cost 0/phases 1/each 0/; -
plan; dft 6 mod 7 root 3/; 0; tree gt(leaf(2),leaf(3))/cost 26/phases 1/each 26/; -
plan; wht 4 mod 5/; 0; tree split(leaf(2),leaf(2))/cost 8/phases 1/each 8/; -
plan; dft 8 mod 17 root 2/; 0; tree ct(leaf(2),ct(leaf(2),leaf(2)))/cost 29/phases 1/each 29/; -
plan; dft 2 mod 15 root 4/; 0; tree leaf(2)/cost 3/phases 1/each 3/; -
plan; dft 4 mod 10 root 9/; 0; tree ct(leaf(2),leaf(2))/cost 9/phases 1/each 9/; -
plan; dft 16 mod 17 root 3/; 0; tree ct(ct(leaf(2),leaf(2)),ct(leaf(2),leaf(2)))/cost 88/phases 1/each 88/; -
plan; dft 16 mod 17 root 3 unroll 16/; 0; tree ct(leaf(2),ct(leaf(2),ct(leaf(2),leaf(2))))/cost 81/phases 1/each 81/; -
plan; dft 65536 mod 65537 root 3/; 0; tree ct(ct(leaf(2),leaf(2)),ct(ct(leaf(2),leaf(2)),ct(ct(leaf(2),ct(leaf(2),leaf(2))),ct(ct(leaf(2),ct(leaf(2),leaf(2))),ct(ct(leaf(2),ct(leaf(2),leaf(2))),ct(leaf(2),ct(leaf(2),leaf(2))))))))/cost 1572864/phases 1/each 1572864/; -
plan; dft 4 mod 17 root 4/1 2 3 4/; 0; tree ct(leaf(2),leaf(2))/cost 9/phases 1/each 9/; -
plan; dft 4 mod 17 root 4 weight 5/; 0; tree ct(leaf(2),leaf(2))/cost 13/phases 1/each 13/; -
plan; dft 6 mod 7 root 3 weight 5/; 0; tree gt(leaf(2),leaf(3))/cost 58/phases 1/each 58/; -
plan; dft 4 mod 10 root 9 weight 5/; 0; tree ct(leaf(2),leaf(2))/cost 9/phases 1/each 9/; -
plan; dft 16 mod 17 root 2 unroll 16/; 0; tree ct(leaf(2),ct(leaf(2),ct(leaf(2),leaf(2))))/cost 81/phases 1/each 81/; -
plan; dft 16 mod 17 root 2 unroll 16 weight 2/; 0; tree ct(ct(leaf(2),leaf(2)),ct(leaf(2),leaf(2)))/cost 89/phases 1/each 89/; -
";

const TEXTS: &str = "\
trace; dft 2 mod 15 root 4/1 1/; 0; program size 2 mod 15 procs 1 line 1 lanes 1 regs 5/phase/ld r0 X[0]/ld r1 X[1]/add r2 r0 r1/mul r3 r1 4/add r4 r0 r3/st Y[0] r2/st Y[1] r4/end/0 0 ld r0 0/1 0 ld r1 1/2 0 add r2 r0 r1/3 0 mul r3 r1 4/4 0 add r4 r0 r3/5 0 st 2 r2/6 0 st 3 r4/2 5/; -
trace --schedule turns:0,0,0,0,0,0,0,0; dft 2 mod 15 root 4/1 1/; 0; program size 2 mod 15 procs 1 line 1 lanes 1 regs 5/phase/ld r0 X[0]/ld r1 X[1]/add r2 r0 r1/mul r3 r1 4/add r4 r0 r3/st Y[0] r2/st Y[1] r4/end/0 0 ld r0 0/1 0 ld r1 1/2 0 add r2 r0 r1/3 0 mul r3 r1 4/4 0 add r4 r0 r3/5 0 st 2 r2/6 0 st 3 r4/7 0 done/2 5/; -
trace; dft 2 mod 15 root 4; 0; program size 2 mod 15 procs 1 line 1 lanes 1 regs 5/phase/ld r0 X[0]/ld r1 X[1]/add r2 r0 r1/mul r3 r1 4/add r4 r0 r3/st Y[0] r2/st Y[1] r4/end/; -
formula; dft 4 mod 17 root 4/1 2 3 4/; 0; TIMES(LEFT(DFT(2,16),2),TIMES(T(4,2,4),TIMES(RIGHT(2,DFT(2,16)),L(4,2))))/; -
cert; dft 4 mod 17 root 4/1 2 3 4/; 0; {\"rows\":[[2,2,\"leaf\",0,0],[4,9,\"ct\",2,2]],\"size\":4,\"version\":2,\"weight\":1}/; -
code --; dft 4 mod 17 root 4/1 2 3 4/; 0; program size 4 mod 17 procs 1 line 1 lanes 1 regs 13/phase/ld r0 X[0]/ld r1 X[1]/ld r2 X[2]/ld r3 X[3]/add r4 r0 r2/sub r5 r0 r2/add r6 r1 r3/sub r7 r1 r3/mul r8 r7 4/add r9 r4 r6/sub r10 r4 r6/add r11 r5 r8/sub r12 r5 r8/st Y[0] r9/st Y[1] r11/st Y[2] r10/st Y[3] r12/end/; -
code; dft 9 mod 19 root 4 unroll 2/; 0; program size 9 mod 19 procs 1 line 1 lanes 1 regs 4/table 0 values 1 7 11/table 1 values 1 1 1 1 4 16 1 16 9/phase/for v0 3/for v1 3/zero r0/for v2 3/ld r1 X[0+v0*1+v2*3]/mul r2 r1 t0[0+(0+v1*v2*1)%3*1] step 0/add r0 r0 r2/end/mul r3 r0 t1[0+v0*3+v1*1] step 0/st A[0+v0*3+v1*1] r3/end/end/for v0 3/for v1 3/zero r0/for v2 3/ld r1 A[0+v0*1+v2*3]/mul r2 r1 t0[0+(0+v1*v2*1)%3*1] step 0/add r0 r0 r2/end/st Y[0+v0*1+v1*3] r0/end/end/end/; -
";

const CERTIFICATES: &str = "\
check; dft 4 mod 17 root 4/{\"rows\":[[2,2,\"leaf\",0,0],[4,9,\"ct\",2,2]],\"size\":4,\"version\":1}/; 0; least 9/; -
check; dft 4 mod 17 root 4/{\"rows\": [[2, 2, \"leaf\", 0, 0], [4, 9, \"ct\", 2, 2]], \"size\": 4, \"version\": 1}; 0; least 9/; -
check; dft 4 mod 17 root 4 budget 1/{\"rows\":[[2,2,\"leaf\",0,0],[4,9,\"ct\",2,2]],\"size\":4,\"version\":1}; 0; least 9/; -
check; dft 4 mod 17 root 4/1 2 3 4/; 14; -; certificate unreadable
check; dft 4 mod 17 root 4/{\"rows\":[[2,2,\"leaf\",0,0],[4,8,\"ct\",2,2]],\"size\":4,\"version\":1}; 14; -; certificate row 4 gives 8, found 9
check; dft 4 mod 17 root 4/{\"rows\":[[2,3,\"leaf\",0,0],[4,9,\"ct\",2,2]],\"size\":4,\"version\":1}; 14; -; certificate row 2 gives 3, found 2
check; dft 4 mod 17 root 4/{\"rows\":[[2,2,\"leaf\",0,0],[4,9,\"leaf\",0,0]],\"size\":4,\"version\":1}; 14; -; certificate row 4 gives 9, found 16
check; dft 4 mod 17 root 4; 14; -; certificate unreadable
check; dft 4 mod 17 root 4/{\"rows\":[[2,2,\"leaf\",0,0],[4,9,\"ct\",2,2]],\"size\":4,\"version\":2}; 14; -; certificate unreadable
check; dft 4 mod 17 root 4/{\"rows\":[[4,9,\"ct\",2,2],[2,2,\"leaf\",0,0]],\"size\":4,\"version\":1}; 14; -; certificate unreadable
check; dft 4 mod 17 root 4/{\"rows\":[[2,2,\"leaf\",0,0],[4,9,\"ct\",2,2]],\"size\":4,\"version\":1,\"more\":1}; 14; -; certificate unreadable
check; dft 4 mod 17 root 4/{\"rows\":[[2,2,\"leaf\",0,0],[4,9,\"ct\",1,4]],\"size\":4,\"version\":1}; 14; -; certificate unreadable
check; dft 4 mod 17 root 4/{\"rows\":[[2,2,\"leaf\",0,0],[4,9,\"split\",2,2]],\"size\":4,\"version\":1}; 14; -; certificate unreadable
check; dft 4 mod 17 root 4/{\"rows\":[[2, 2, \"leaf\", 0, 0], [4, 9, \"ct\", 2, 2]], \"size\":4, \"version\":1}; 0; least 9/; -
check; dft 4 mod 17 root 4 weight 5/{\"rows\":[[2,2,\"leaf\",0,0],[4,9,\"ct\",2,2]],\"size\":4,\"version\":1}/; 14; -; certificate unreadable
cert; dft 4 mod 17 root 4 weight 5/; 0; {\"rows\":[[2,2,\"leaf\",0,0],[4,13,\"ct\",2,2]],\"size\":4,\"version\":2,\"weight\":5}/; -
check; dft 4 mod 17 root 4 weight 5/{\"rows\":[[2,2,\"leaf\",0,0],[4,13,\"ct\",2,2]],\"size\":4,\"version\":2,\"weight\":5}/; 0; least 13/; -
check; dft 4 mod 17 root 4/{\"rows\":[[2,2,\"leaf\",0,0],[4,13,\"ct\",2,2]],\"size\":4,\"version\":2,\"weight\":5}/; 14; -; certificate unreadable
cert; wht 4 mod 5/; 0; {\"rows\":[[2,2,\"leaf\",0,0],[4,8,\"split\",2,2]],\"size\":4,\"version\":2,\"weight\":1}/; -
check; wht 4 mod 5/{\"rows\":[[2,2,\"leaf\",0,0],[4,8,\"split\",2,2]],\"size\":4,\"version\":1}/; 0; least 8/; -
cert; wht 4 mod 5 lanes 2/; 0; {\"rows\":[[2,2,\"leaf\",0,0],[4,8,\"split\",2,2]],\"size\":4,\"version\":2,\"weight\":1}/; -
check; wht 4 mod 5 lanes 2/{\"rows\":[[2,2,\"leaf\",0,0],[4,8,\"split\",2,2]],\"size\":4,\"version\":1}/; 0; least 8/; -
check; wht 4 mod 5/{\"rows\":[[2,2,\"leaf\",0,0],[4,9,\"split\",2,2]],\"size\":4,\"version\":1}; 14; -; certificate row 4 gives 9, found 8
check; dft 6 mod 7 root 3/{\"rows\":[[2,2,\"leaf\",0,0],[3,10,\"leaf\",0,0],[6,26,\"gt\",2,3]],\"size\":6,\"version\":1}; 0; least 26/; -
check; dft 6 mod 7 root 3/{\"rows\":[[2,2,\"leaf\",0,0],[3,10,\"leaf\",0,0],[6,25,\"gt\",2,3]],\"size\":6,\"version\":1}; 14; -; certificate row 6 gives 25, found 26
";

const REFUSALS: &str = "\
-; dft 4 mod 17 root 4/1 2 3 4/; 2; -; usage
run --schedule turns:; dft 4 mod 17 root 4/1 2 3 4/; 2; -; usage
run --schedule rr:1000001; dft 4 mod 17 root 4/1 2 3 4/; 2; -; usage
run; -; 3; -; syntax at byte 0
run; dft 4 mod 17/; 3; -; syntax at byte 12
run; dft 1048577 mod 17 root 1/; 4; -; size 1048577 is out of range
run; dft 2 mod 4611686018427387904 root 1/; 4; -; mod 4611686018427387904 is out of range
run; wht 6 mod 5/; 4; -; wht size 6 is not a power of two
run; dft 4 mod 17 root 3/1 2 3 4/; 6; -; root to the size is 13, not 1
plan; dft 4 mod 17 root 4 budget 8/; 8; -; least cost 9 is over budget 8
plan; dft 11 mod 23 root 2 budget 483 weight 3/; 8; -; least cost 484 is over budget 483
run; dft 4 mod 17 root 4 weight 0/; 4; -; weight 0 is out of range
run; dft 4 mod 17 root 4 weight 1001/; 4; -; weight 1001 is out of range
run; dft 4 mod 17 root 4 weight 5 budget 9/; 3; -; syntax at byte 28
run; dft 4 mod 17 root 4/1 2 x 4/; 9; -; token 3 is not a number
run; dft 4 mod 17 root 4/1,2; 9; -; token 1 is not a number
run; dft 4 mod 17 root 4/18446744073709551616; 9; -; token 1 is not a number
run; dft 4 mod 17 root 4/1 99999999999999999999; 9; -; token 2 is not a number
jump; dft 4 mod 17 root 4/1 2 3 4/; 2; -; usage
run --seed 1; dft 4 mod 17 root 4/1 2 3 4/; 2; -; usage
check; dft 4 mod 17 root 3/{\"rows\":[[2,2,\"leaf\",0,0],[4,9,\"ct\",2,2]],\"size\":4,\"version\":1}; 6; -; root to the size is 13, not 1
run; dft 4 mod 17 rot 4/; 3; -; syntax at byte 15
code; dft 4 mod 17 root 17/; 4; -; root 17 is out of range
run --schedule turns:0,1,2; dft 4 mod 17 root 3/; 5; -; turn names processor 1 of 1
sample; dft 4 mod 17 root 3/; 6; -; root to the size is 13, not 1
c; dft 11 mod 23 root 2 budget 241/; 8; -; least cost 242 is over budget 241
run; dft 4 mod 17 root 4/1 2 3 4 1 2 3; 9; 10 7 15 6/; input ends with 3 of 4 numbers
run; dft 4 mod 17 root 4/1 2 3 4 -1; 9; 10 7 15 6/; token 5 is not a number
run --schedule seq1; dft 4 mod 17 root 4/1 2 3 4/; 2; -; usage
run --schedule rr:01; dft 4 mod 17 root 4/1 2 3 4/; 2; -; usage
run --schedule seed:1; dft 4 mod 17 root 4/1 2 3 4/; 2; -; usage
run --schedule turns:1,,2; dft 4 mod 17 root 4/1 2 3 4/; 2; -; usage
run --schedule turns:4294967296; dft 4 mod 17 root 4/1 2 3 4/; 2; -; usage
run --schedule turns:1; dft 4 mod 17 root 4/1 2 3 4/; 5; -; turn names processor 1 of 1
";

// Several processors and several lanes. The certificates that are no certificates are not read.
const SPREAD: &str = "\
run --schedule turns:1,1,1,0; dft 4 mod 17 root 4 procs 2 line 1/1 2 3 4/; 0; 10 7 15 6/; -
run; dft 16 mod 17 root 3 procs 2 line 2 lanes 2/0 1 0 0 0 0 0 0 0 0 0 0 0 0 0 0/; 0; 1 3 9 10 13 5 15 11 16 14 8 7 4 12 2 6/; -
run --schedule rr:3; dft 16 mod 17 root 3 procs 2 line 2/0 1 0 0 0 0 0 0 0 0 0 0 0 0 0 0/; 0; 1 3 9 10 13 5 15 11 16 14 8 7 4 12 2 6/; -
run --schedule seed:9:1000; dft 16 mod 17 root 3 procs 2 line 2/0 1 0 0 0 0 0 0 0 0 0 0 0 0 0 0/; 0; 1 3 9 10 13 5 15 11 16 14 8 7 4 12 2 6/; -
run; dft 4 mod 17 root 4 lanes 2/1 2 3 4/; 0; 10 7 15 6/; -
run; wht 4 mod 5 lanes 2/1 2 3 4/; 0; 0 3 1 0/; -
sample --schedule rr:3; dft 16 mod 17 root 3 procs 2 line 2/; 0; sum 3/operations 88/loads 32/stores 32/; -
sample --schedule seed:9:1000; dft 16 mod 17 root 3 procs 2 line 2/; 0; sum 3/operations 88/loads 32/stores 32/; -
sample; dft 16 mod 17 root 3 procs 2 line 2 lanes 2/; 0; sum 3/operations 88/loads 48/stores 48/; -
sample --schedule turns:1,1,1,0; dft 4 mod 17 root 4 procs 2 line 1/; 0; sum 0/operations 12/loads 8/stores 8/; -
sample --schedule rr:10; wht 1024 mod 65537 procs 16 line 2 lanes 2/; 0; sum 44731/operations 10240/loads 8192/stores 8192/; -
plan; dft 4 mod 17 root 4 procs 2 line 1/; 0; tree ct(leaf(2),leaf(2))/cost 12/phases 2/each 6/; -
plan; dft 4 mod 17 root 4 lanes 2/; 0; tree ct(leaf(2),leaf(2))/cost 12/phases 1/each 12/; -
plan; wht 4 mod 5 lanes 2/; 0; tree split(leaf(2),leaf(2))/cost 8/phases 1/each 8/; -
plan; dft 16 mod 17 root 3 procs 2 line 2/; 0; tree ct(ct(leaf(2),leaf(2)),ct(leaf(2),leaf(2)))/cost 88/phases 2/each 44/; -
plan; dft 16 mod 17 root 3 procs 2 line 2 lanes 2/; 0; tree ct(ct(leaf(2),leaf(2)),ct(leaf(2),leaf(2)))/cost 88/phases 2/each 44/; -
plan; wht 256 mod 17 procs 4 line 4 lanes 4/; 0; tree split(split(leaf(2),split(leaf(2),split(leaf(2),leaf(2)))),split(leaf(2),split(leaf(2),split(leaf(2),leaf(2)))))/cost 2048/phases 2/each 512/; -
cert; dft 4 mod 17 root 4 procs 2 line 1/; 0; {\"rows\":[[2,2,\"leaf\",0,0],[4,12,\"ct\",2,2]],\"size\":4,\"version\":2,\"weight\":1}/; -
formula; dft 4 mod 17 root 4 procs 2 line 1/; 0; TIMES(LEFT(DFT(2,16),2),TIMES(T(4,2,4),TIMES(RIGHT(2,DFT(2,16)),L(4,2))))/; -
trace --schedule turns:1,1,1,1,1,1,1,1,1; dft 4 mod 17 root 4 procs 2 line 1/1 2 3 4/; 0; program size 4 mod 17 procs 2 line 1 lanes 1 regs 6/table 0 values 1 1 1 4/phase/ld r0 X[0+q*1]/ld r1 X[2+q*1]/add r2 r0 r1/sub r3 r0 r1/mul r4 r2 t0[0+q*2] step 0/st A[0+q*2] r4/mul r5 r3 t0[1+q*2] step 0/st A[1+q*2] r5/end/phase/ld r0 A[0+q*1]/ld r1 A[2+q*1]/add r2 r0 r1/sub r3 r0 r1/st Y[0+q*1] r2/st Y[2+q*1] r3/end/0 1 ld r0 1/1 1 ld r1 3/2 1 add r2 r0 r1/3 1 sub r3 r0 r1/4 1 mul r4 r2 1/5 1 st 10 r4/6 1 mul r5 r3 4/7 1 st 11 r5/8 1 waits/9 0 ld r0 0/10 0 ld r1 2/11 0 add r2 r0 r1/12 0 sub r3 r0 r1/13 0 mul r4 r2 1/14 0 st 8 r4/15 0 mul r5 r3 1/16 0 st 9 r5/17 0 ld r0 8/18 0 ld r1 10/19 0 add r2 r0 r1/20 0 sub r3 r0 r1/21 0 st 4 r2/22 0 st 6 r3/23 1 ld r0 9/24 1 ld r1 11/25 1 add r2 r0 r1/26 1 sub r3 r0 r1/27 1 st 5 r2/28 1 st 7 r3/10 7 15 6/; -
trace; dft 4 mod 17 root 4 lanes 2/1 2 3 4/; 0; program size 4 mod 17 procs 1 line 1 lanes 2 regs 6/table 0 values 1 1 1 4/phase/ld r0 X[0]/ld r1 X[2]/add r2 r0 r1/sub r3 r0 r1/st A[0] r2/st A[2] r3/ld r0 A[0]/ld r1 A[2]/tile r2 r0/mul r4 r2 t0[0] step 1/st B[0] r4/mul r5 r3 t0[2] step 1/st B[2] r5/ld r0 B[0]/ld r1 B[2]/add r2 r0 r1/sub r3 r0 r1/st Y[0] r2/st Y[2] r3/end/0 0 ld r0 0/1 0 ld r1 2/2 0 add r2 r0 r1/3 0 sub r3 r0 r1/4 0 st 8 r2/5 0 st 10 r3/6 0 ld r0 8/7 0 ld r1 10/8 0 tile r2 r0/9 0 mul r4 r2 1,1/10 0 st 12 r4/11 0 mul r5 r3 1,4/12 0 st 14 r5/13 0 ld r0 12/14 0 ld r1 14/15 0 add r2 r0 r1/16 0 sub r3 r0 r1/17 0 st 4 r2/18 0 st 6 r3/10 7 15 6/; -
run; dft 8 mod 17 root 2 procs 2 line 2/; 7; -; no split fits procs, line and lanes
plan; dft 6 mod 7 root 3 lanes 2/; 7; -; no split fits procs, line and lanes
code; dft 1 mod 2 root 1 procs 2/; 7; -; no split fits procs, line and lanes
sample; dft 6 mod 7 root 3 procs 2/; 7; -; no split fits procs, line and lanes
run; dft 4 mod 17 root 3 procs 2/; 6; -; root to the size is 13, not 1
plan; dft 8 mod 17 root 3 procs 2 line 2/; 6; -; root to the size is 16, not 1
plan; dft 4 mod 17 root 4 procs 2 line 1 budget 11/; 8; -; least cost 12 is over budget 11
run --schedule turns:2; dft 4 mod 17 root 3 procs 2/; 5; -; turn names processor 2 of 2
run; dft 144 mod 17 root 1 procs 2 line 3 lanes 2/; 4; -; lanes 2 do not divide line 3
plan; dft 4 mod 17 root 4 procs 0/; 4; -; procs 0 is out of range
code; dft 4 mod 17 root 4 procs 2 line 65/; 4; -; line 65 is out of range
c; wht 4 mod 5 lanes 17/; 4; -; lanes 17 is out of range
run; dft 4 mod 17 root 4 line 1 procs 2/; 3; -; syntax at byte 27
check; dft 6 mod 7 root 3 lanes 2/x; 7; -; no split fits procs, line and lanes
check; dft 8 mod 17 root 3 procs 2 line 2/x; 6; -; root to the size is 16, not 1
check; dft 4 mod 17 root 4 procs 2 line 1/{\"rows\":[[2,2,\"leaf\",0,0],[4,12,\"ct\",2,2]],\"size\":4,\"version\":1}/; 0; least 12/; -
check; dft 4 mod 17 root 4 procs 2 line 1/{\"rows\":[[2,2,\"leaf\",0,0],[4,9,\"ct\",2,2]],\"size\":4,\"version\":1}/; 14; -; certificate row 4 gives 9, found 12
run --schedule turns:1,1,1,0; dft 4 mod 17 root 4 procs 2 line 1/1 2 3 4; 0; 10 7 15 6/; -
run; wht 4 mod 5 lanes 2/1 2 3 4; 0; 0 3 1 0/; -
sample --schedule seed:9:1000; dft 16 mod 17 root 3 procs 2 line 2 lanes 2/; 0; sum 3/operations 88/loads 48/stores 48/; -
run --schedule rr:0; dft 4 mod 17 root 4 procs 2 line 1/1 2 3 4/; 0; 10 7 15 6/; -
run --schedule seed:1:1000000; dft 4 mod 17 root 4 procs 2 line 1/1 2 3 4/; 0; 10 7 15 6/; -
run; dft 16 mod 17 root 3 procs 2 line 2/0 1 0 0 0 0 0 0 0 0 0 0 0 0 0 0/; 0; 1 3 9 10 13 5 15 11 16 14 8 7 4 12 2 6/; -
run; dft 16 mod 17 root 3 procs 2 line 2 lanes 2/0 0 1 0 0 0 0 0 0 0 0 0 0 0 0 0/; 0; 1 9 13 15 16 8 4 2 1 9 13 15 16 8 4 2/; -
sample --seed 0; wht 1024 mod 1024 procs 2 line 4 lanes 2/; 0; sum 512/operations 10240/loads 8192/stores 8192/; -
plan; wht 1024 mod 1024 procs 2 line 4 lanes 2/; 0; tree split(split(leaf(2),split(leaf(2),leaf(2))),split(leaf(2),split(leaf(2),split(leaf(2),split(leaf(2),split(leaf(2),split(leaf(2),leaf(2))))))))/cost 10240/phases 2/each 5120/; -
trace; dft 2 mod 15 root 4/1 x; 9; program size 2 mod 15 procs 1 line 1 lanes 1 regs 5/phase/ld r0 X[0]/ld r1 X[1]/add r2 r0 r1/mul r3 r1 4/add r4 r0 r3/st Y[0] r2/st Y[1] r4/end/; token 2 is not a number
run --schedule turns:1,2; dft 4 mod 17 root 3 procs 2/; 5; -; turn names processor 2 of 2
code; dft 144 mod 17 root 1 procs 2 line 3 lanes 2/; 4; -; lanes 2 do not divide line 3
formula; dft 8 mod 17 root 2 procs 2 line 2/; 7; -; no split fits procs, line and lanes
check; dft 6 mod 7 root 3 lanes 2/{}; 7; -; no split fits procs, line and lanes
run; dft 4 mod 17 root 4 procs 17 budget 0/; 4; -; procs 17 is out of range
";

/// The field with its line ends.
pub(crate) fn lines_of(alloc: Global, field: &str) -> Result<String, Fail> {
    Ok(match field {
        "-" => String::new(alloc),
        _ => field.replace(alloc, "/", "\n")?,
    })
}

/// The code, the output and the note, as a call tells them.
pub(crate) fn wanted(alloc: Global, code: &str, output: &str, note: &str) -> Result<String, Fail> {
    let output = lines_of(alloc, output)?;
    Ok(match note {
        "-" => format!(in alloc; "{code}; {output}; ")?,
        "usage" => format!(in alloc; "{code}; {output}; spiral: {USAGE}\n")?,
        _ => format!(in alloc; "{code}; {output}; spiral: {note}\n")?,
    })
}

/// The same of a row's fields after its question.
pub(crate) fn wanted_of(alloc: Global, answer: &str) -> Result<String, Fail> {
    let (code, rest) = field(answer)?;
    let (output, note) = field(rest)?;
    wanted(alloc, code, output, note)
}

fn answer(alloc: Global, words: &str, input: &str) -> Result<String, Fail> {
    let input = lines_of(alloc, input)?;
    told(alloc, words, &input)
}

fn answers_as(rt: &impl Abort, alloc: Global, row: &str) -> Result<(), Fail> {
    let (words, rest) = field(row)?;
    let (input, rest) = field(rest)?;
    let wanted = wanted_of(alloc, rest)?;
    let seen = answer(alloc, words, input)?;
    same(rt, &seen, &wanted, row);
    Ok(())
}

/// Each call answers as its row has it.
pub(crate) fn all_answer(rt: &impl Abort, alloc: Global, rows: &str) -> Result<(), Fail> {
    for row in rows.lines() {
        answers_as(rt, alloc, row)?;
    }
    Ok(())
}

#[test]
fn results(rt: HostRuntime) -> Result<(), Fail> {
    all_answer(&rt, rt.alloc(), RESULTS)
}

#[test]
fn plans(rt: HostRuntime) -> Result<(), Fail> {
    all_answer(&rt, rt.alloc(), PLANS)
}

#[test]
fn texts(rt: HostRuntime) -> Result<(), Fail> {
    all_answer(&rt, rt.alloc(), TEXTS)
}

#[test]
fn certificates(rt: HostRuntime) -> Result<(), Fail> {
    all_answer(&rt, rt.alloc(), CERTIFICATES)
}

#[test]
fn refusals(rt: HostRuntime) -> Result<(), Fail> {
    all_answer(&rt, rt.alloc(), REFUSALS)
}

#[test]
fn answers_for_processors_and_lanes(rt: HostRuntime) -> Result<(), Fail> {
    all_answer(&rt, rt.alloc(), SPREAD)
}
