// Fourier transforms of several dimensions, in every command. The answers are those of checks/reference/.

use crate::rows::all_answer;
use std::test::Fail;

// Rows as those of requests: the words after the program's name, the input, the code, the output and the note.

const RESULTS: &str = "\
run; dft 2x2 mod 17 root 16x16/1 2 3 4/; 0; 10 15 13 0/; -
run; dft 2x3 mod 7 root 6x2/0 1 0 0 0 0/; 0; 1 2 4 1 2 4/; -
run; dft 3x2 mod 7 root 2x6/0 1 0 0 0 0/; 0; 1 6 1 6 1 6/; -
run --schedule turns:1,1,0; dft 2x2 mod 17 root 16x16 procs 2 line 1/1 2 3 4/5 6 7 8/; 0; 10 15 13 0/9 15 13 0/; -
run --buffers; dft 4x4 mod 17 root 4x13 procs 2 line 2 lanes 2 unroll 2/1 2 3 4 5 6 7 8 9 10 11 12 13 14 15 16/; 0; 0 7 9 11 10 0 0 0 2 0 0 0 11 0 0 0/; -
run; dft 4x4 mod 17 root 4x13 lanes 2/1 2 3 4 5 6 7 8 9 10 11 12 13 14 15 16/; 0; 0 7 9 11 10 0 0 0 2 0 0 0 11 0 0 0/; -
run --schedule rr:3; dft 2x2x2x2 mod 15 root 4x11x14x1 procs 2/1 2 3 4 5 6 7 8 9 10 11 12 13 14 0 1/; 0; 1 1 14 14 1 1 9 9 1 1 5 5 1 1 0 0/; -
run; dft 2x3x5 mod 31 root 30x5x2/1 2 3 4 5 6 7 8 9 10 11 12 13 14 15 16 17 18 19 20 21 22 23 24 25 26 27 28 29 30/; 0; 0 30 10 22 2 22 0 0 0 0 14 0 0 0 0 23 0 0 0 0 0 0 0 0 0 0 0 0 0 0/; -
run; dft 9x2 mod 19 root 4x18 unroll 2/1 2 3 4 5 6 7 8 9 10 11 12 13 14 15 16 17 18/; 0; 0 10 12 0 10 0 6 0 14 0 7 0 15 0 11 0 9 0/; -
run; dft 2x2x2 mod 17 root 16x16x16/1 2 3 4 5 6 7 8/; 0; 2 13 9 0 1 0 0 0/; -
run; dft 4x2x2 mod 17 root 4x16x1 procs 2 line 2 lanes 2/1 2 3 4 5 6 7 8 9 10 11 12 13 14 15 16/; 0; 0 0 1 1 10 10 0 0 2 2 0 0 11 11 0 0/; -
run --schedule turns:1,0,1; dft 4x2x2 mod 17 root 4x16x1 procs 2/1 2 3 4 5 6 7 8 9 10 11 12 13 14 15 16/; 0; 0 0 1 1 10 10 0 0 2 2 0 0 11 11 0 0/; -
run; dft 2x3x5 mod 31 root 30x5x2 unroll 30/1 2 3 4 5 6 7 8 9 10 11 12 13 14 15 16 17 18 19 20 21 22 23 24 25 26 27 28 29 30/; 0; 0 30 10 22 2 22 0 0 0 0 14 0 0 0 0 23 0 0 0 0 0 0 0 0 0 0 0 0 0 0/; -
run; dft 2x3x5 mod 31 root 30x5x2 unroll 29/1 2 3 4 5 6 7 8 9 10 11 12 13 14 15 16 17 18 19 20 21 22 23 24 25 26 27 28 29 30/; 0; 0 30 10 22 2 22 0 0 0 0 14 0 0 0 0 23 0 0 0 0 0 0 0 0 0 0 0 0 0 0/; -
sample; dft 2x2 mod 17 root 16x16/; 0; sum 1/operations 8/loads 4/stores 4/; -
sample; dft 2x2 mod 17 root 16x16 procs 2/; 0; sum 1/operations 8/loads 8/stores 8/; -
sample; dft 2x3 mod 7 root 6x2/; 0; sum 6/operations 26/loads 6/stores 6/; -
sample; dft 3x4 mod 13 root 3x5 unroll 2/; 0; sum 2/operations 108/loads 60/stores 36/; -
sample; dft 8x6 mod 7 root 6x3/; 0; sum 1/operations 364/loads 96/stores 96/; -
sample; dft 2x3x5 mod 31 root 30x5x2 weight 5/; 0; sum 5/operations 890/loads 90/stores 90/; -
sample; dft 2x2x2x2 mod 15 root 4x11x14x1/; 0; sum 2/operations 80/loads 32/stores 32/; -
sample; dft 4x4 mod 17 root 4x13 lanes 2 unroll 2/; 0; sum 6/operations 96/loads 96/stores 96/; -
sample; dft 4x4 mod 17 root 4x13 procs 2 line 2 lanes 2/; 0; sum 6/operations 72/loads 64/stores 64/; -
sample; dft 4x2x2 mod 17 root 4x16x1 procs 2/; 0; sum 13/operations 68/loads 32/stores 32/; -
sample; dft 4x2x2 mod 17 root 4x16x1 lanes 2/; 0; sum 13/operations 68/loads 64/stores 64/; -
sample; dft 4x4 mod 17 root 4x13 procs 2 line 2 lanes 2 unroll 2/; 0; sum 6/operations 96/loads 96/stores 96/; -
sample --seed 7; dft 9x2 mod 19 root 4x18 unroll 2 weight 5/; 0; sum 7/operations 756/loads 126/stores 54/; -
sample; dft 2x3 mod 7 root 6x2 unroll 6/; 0; sum 6/operations 26/loads 6/stores 6/; -
sample; dft 2x3 mod 7 root 6x2 unroll 5/; 0; sum 6/operations 26/loads 12/stores 12/; -
sample; dft 2x2x2 mod 17 root 16x16x16 unroll 8/; 0; sum 16/operations 24/loads 8/stores 8/; -
sample; dft 2x2x2 mod 17 root 16x16x16 unroll 7/; 0; sum 16/operations 24/loads 16/stores 16/; -
sample; dft 2x2x2 mod 17 root 16x16x16 unroll 3/; 0; sum 16/operations 24/loads 24/stores 24/; -
sample; dft 4x2x2 mod 17 root 4x16x1 procs 2 line 2 lanes 2 unroll 4/; 0; sum 13/operations 68/loads 64/stores 64/; -
sample; dft 4x2x2 mod 17 root 4x16x1 procs 2 line 2 lanes 2 unroll 3/; 0; sum 13/operations 80/loads 96/stores 96/; -
sample --seed 7; dft 2x16x2x3 mod 97 root 96x8x1x35 weight 5/; 0; sum 5/operations 4256/loads 768/stores 768/; -
sample; dft 8x8 mod 17 root 2x9 unroll 64/; 0; sum 14/operations 464/loads 64/stores 64/; -
";

const PLANS: &str = "\
plan; dft 2x2 mod 17 root 16x16; 0; tree dim(leaf(2),leaf(2))/cost 8/phases 1/each 8/; -
plan; dft 2x2 mod 17 root 16x16 procs 2 line 1; 0; tree dim(leaf(2),leaf(2))/cost 8/phases 2/each 4/; -
plan; dft 2x3 mod 7 root 6x2; 0; tree dim(leaf(2),leaf(3))/cost 26/phases 1/each 26/; -
plan; dft 2x3x5 mod 31 root 30x5x2 weight 5; 0; tree dim(leaf(2),dim(leaf(3),leaf(5)))/cost 890/phases 1/each 890/; -
plan; dft 2x2x2x2 mod 15 root 4x11x14x1; 0; tree dim(leaf(2),dim(leaf(2),dim(leaf(2),leaf(2))))/cost 80/phases 1/each 80/; -
plan; dft 64x64x64 mod 257 root 249x249x249; 0; tree dim(ct(ct(leaf(2),ct(leaf(2),leaf(2))),ct(leaf(2),ct(leaf(2),leaf(2)))),dim(ct(ct(leaf(2),ct(leaf(2),leaf(2))),ct(leaf(2),ct(leaf(2),leaf(2)))),ct(ct(leaf(2),ct(leaf(2),leaf(2))),ct(leaf(2),ct(leaf(2),leaf(2))))))/cost 5898240/phases 1/each 5898240/; -
plan; dft 8x6 mod 7 root 6x3; 0; tree dim(ct(leaf(2),ct(leaf(2),leaf(2))),gt(leaf(2),leaf(3)))/cost 364/phases 1/each 364/; -
formula; dft 2x3 mod 7 root 6x2; 0; TIMES(LEFT(DFT(2,6),3),RIGHT(2,DFT(3,2)))/; -
formula; dft 4x2x2 mod 17 root 4x16x1 unroll 2; 0; TIMES(LEFT(TIMES(LEFT(DFT(2,16),2),TIMES(T(4,2,4),TIMES(RIGHT(2,DFT(2,16)),L(4,2)))),4),RIGHT(4,TIMES(LEFT(DFT(2,16),2),RIGHT(2,DFT(2,1)))))/; -
cert; dft 2x2 mod 17 root 16x16; 0; [{\"rows\":[[2,2,\"leaf\",0,0]],\"size\":2,\"version\":2,\"weight\":1},{\"rows\":[[2,2,\"leaf\",0,0]],\"size\":2,\"version\":2,\"weight\":1}]/; -
cert; dft 2x3 mod 7 root 6x2 weight 5; 0; [{\"rows\":[[2,2,\"leaf\",0,0]],\"size\":2,\"version\":2,\"weight\":5},{\"rows\":[[3,26,\"leaf\",0,0]],\"size\":3,\"version\":2,\"weight\":5}]/; -
";

const CERTIFICATES: &str = "\
check; dft 2x2 mod 17 root 16x16/[{\"rows\":[[2,2,\"leaf\",0,0]],\"size\":2,\"version\":2,\"weight\":1},{\"rows\":[[2,2,\"leaf\",0,0]],\"size\":2,\"version\":2,\"weight\":1}]/; 0; least 8/; -
check; dft 2x2 mod 17 root 16x16/[{\"rows\":[[2,2,\"leaf\",0,0]],\"size\":2,\"version\":1},{\"rows\":[[2,2,\"leaf\",0,0]],\"size\":2,\"version\":2,\"weight\":1}]; 0; least 8/; -
check; dft 2x2 mod 17 root 16x16/ [ {\"rows\":[[2,2,\"leaf\",0,0]],\"size\":2,\"version\":2,\"weight\":1} , {\"rows\":[[2,2,\"leaf\",0,0]],\"size\":2,\"version\":2,\"weight\":1} ] ; 0; least 8/; -
check; dft 2x2 mod 17 root 16x16 weight 5/[{\"rows\":[[2,2,\"leaf\",0,0]],\"size\":2,\"version\":1},{\"rows\":[[2,2,\"leaf\",0,0]],\"size\":2,\"version\":1}]; 14; -; certificate unreadable
check; dft 2x2 mod 17 root 16x16/[{\"rows\":[[2,2,\"leaf\",0,0]],\"size\":2,\"version\":2,\"weight\":1}]; 14; -; certificate unreadable
check; dft 2x2 mod 17 root 16x16/[{\"rows\":[[2,2,\"leaf\",0,0]],\"size\":2,\"version\":2,\"weight\":1},{\"rows\":[[2,2,\"leaf\",0,0]],\"size\":2,\"version\":2,\"weight\":1},{\"rows\":[[2,2,\"leaf\",0,0]],\"size\":2,\"version\":2,\"weight\":1}]; 14; -; certificate unreadable
check; dft 2x2 mod 17 root 16x16/{\"rows\":[[2,2,\"leaf\",0,0]],\"size\":2,\"version\":2,\"weight\":1}; 14; -; certificate unreadable
check; dft 2x2 mod 17 root 16x16/[{\"rows\":[[2,2,\"leaf\",0,0]],\"size\":2,\"version\":2,\"weight\":1},{\"rows\":[[3,10,\"leaf\",0,0]],\"size\":3,\"version\":2,\"weight\":1}]; 14; -; certificate unreadable
check; dft 2x2 mod 17 root 16x16/[{\"rows\":[[2,3,\"leaf\",0,0]],\"size\":2,\"version\":2,\"weight\":1},{\"rows\":[[2,2,\"leaf\",0,0]],\"size\":2,\"version\":2,\"weight\":1}]; 14; -; certificate row 2 gives 3, found 2
check; dft 2x2 mod 17 root 16x16/[{\"rows\":[[2,2,\"leaf\",0,0]],\"size\":2,\"version\":2,\"weight\":1},{\"rows\":[[2,3,\"leaf\",0,0]],\"size\":2,\"version\":2,\"weight\":1}]; 14; -; certificate row 2 gives 3, found 2
check; dft 2x2 mod 17 root 16x16/[{\"rows\":[[2,3,\"leaf\",0,0]],\"size\":2,\"version\":2,\"weight\":1},1]; 14; -; certificate unreadable
check; dft 2x3 mod 7 root 6x2/[{\"rows\":[[2,2,\"leaf\",0,0]],\"size\":2,\"version\":2,\"weight\":1},{\"rows\":[[3,10,\"leaf\",0,0]],\"size\":3,\"version\":2,\"weight\":1}]; 0; least 26/; -
check; dft 2x3 mod 7 root 6x2/[{\"rows\":[[3,10,\"leaf\",0,0]],\"size\":3,\"version\":2,\"weight\":1},{\"rows\":[[2,2,\"leaf\",0,0]],\"size\":2,\"version\":2,\"weight\":1}]; 14; -; certificate unreadable
check; dft 2x2 mod 17 root 16x4/[{\"rows\":[[2,2,\"leaf\",0,0]],\"size\":2,\"version\":2,\"weight\":1},{\"rows\":[[2,2,\"leaf\",0,0]],\"size\":2,\"version\":2,\"weight\":1}]; 6; -; root to the size is 16, not 1
check; dft 2x3 mod 7 root 6x2 lanes 2/[{\"rows\":[[2,2,\"leaf\",0,0]],\"size\":2,\"version\":2,\"weight\":1},{\"rows\":[[3,10,\"leaf\",0,0]],\"size\":3,\"version\":2,\"weight\":1}]; 7; -; no split fits procs, line and lanes
";

const CODES: &str = "\
code; dft 2x2 mod 17 root 16x16; 0; program size 4 mod 17 procs 1 line 1 lanes 1 regs 12/phase/ld r0 X[0]/ld r1 X[1]/ld r2 X[2]/ld r3 X[3]/add r4 r0 r1/sub r5 r0 r1/add r6 r2 r3/sub r7 r2 r3/add r8 r4 r6/sub r9 r4 r6/add r10 r5 r7/sub r11 r5 r7/st Y[0] r8/st Y[1] r10/st Y[2] r9/st Y[3] r11/end/; -
code; dft 2x2 mod 17 root 16x16 unroll 2; 0; program size 4 mod 17 procs 1 line 1 lanes 1 regs 4/phase/for v0 2/ld r0 X[0+v0*2]/ld r1 X[1+v0*2]/add r2 r0 r1/sub r3 r0 r1/st A[0+v0*2] r2/st A[1+v0*2] r3/end/for v0 2/ld r0 A[0+v0*1]/ld r1 A[2+v0*1]/add r2 r0 r1/sub r3 r0 r1/st Y[0+v0*1] r2/st Y[2+v0*1] r3/end/end/; -
code; dft 2x2 mod 17 root 16x16 procs 2 line 1; 0; program size 4 mod 17 procs 2 line 1 lanes 1 regs 4/phase/ld r0 X[0+q*2]/ld r1 X[1+q*2]/add r2 r0 r1/sub r3 r0 r1/st A[0+q*2] r2/st A[1+q*2] r3/end/phase/ld r0 A[0+q*1]/ld r1 A[2+q*1]/add r2 r0 r1/sub r3 r0 r1/st Y[0+q*1] r2/st Y[2+q*1] r3/end/; -
code; dft 2x3 mod 7 root 6x2 unroll 6; 0; program size 6 mod 7 procs 1 line 1 lanes 1 regs 32/phase/ld r0 X[0]/ld r1 X[1]/ld r2 X[2]/ld r3 X[3]/ld r4 X[4]/ld r5 X[5]/add r6 r0 r1/add r7 r6 r2/mul r8 r1 2/add r9 r0 r8/mul r10 r2 4/add r11 r9 r10/mul r12 r1 4/add r13 r0 r12/mul r14 r2 2/add r15 r13 r14/add r16 r3 r4/add r17 r16 r5/mul r18 r4 2/add r19 r3 r18/mul r20 r5 4/add r21 r19 r20/mul r22 r4 4/add r23 r3 r22/mul r24 r5 2/add r25 r23 r24/add r26 r7 r17/sub r27 r7 r17/add r28 r11 r21/sub r29 r11 r21/add r30 r15 r25/sub r31 r15 r25/st Y[0] r26/st Y[1] r28/st Y[2] r30/st Y[3] r27/st Y[4] r29/st Y[5] r31/end/; -
code; dft 2x3 mod 7 root 6x2 unroll 5; 0; program size 6 mod 7 procs 1 line 1 lanes 1 regs 13/phase/for v0 2/ld r0 X[0+v0*3]/ld r1 X[1+v0*3]/ld r2 X[2+v0*3]/add r3 r0 r1/add r4 r3 r2/mul r5 r1 2/add r6 r0 r5/mul r7 r2 4/add r8 r6 r7/mul r9 r1 4/add r10 r0 r9/mul r11 r2 2/add r12 r10 r11/st A[0+v0*3] r4/st A[1+v0*3] r8/st A[2+v0*3] r12/end/for v0 3/ld r0 A[0+v0*1]/ld r1 A[3+v0*1]/add r2 r0 r1/sub r3 r0 r1/st Y[0+v0*1] r2/st Y[3+v0*1] r3/end/end/; -
code; dft 2x2x2 mod 17 root 16x16x16; 0; program size 8 mod 17 procs 1 line 1 lanes 1 regs 32/phase/ld r0 X[0]/ld r1 X[1]/ld r2 X[2]/ld r3 X[3]/ld r4 X[4]/ld r5 X[5]/ld r6 X[6]/ld r7 X[7]/add r8 r0 r1/sub r9 r0 r1/add r10 r2 r3/sub r11 r2 r3/add r12 r8 r10/sub r13 r8 r10/add r14 r9 r11/sub r15 r9 r11/add r16 r4 r5/sub r17 r4 r5/add r18 r6 r7/sub r19 r6 r7/add r20 r16 r18/sub r21 r16 r18/add r22 r17 r19/sub r23 r17 r19/add r24 r12 r20/sub r25 r12 r20/add r26 r14 r22/sub r27 r14 r22/add r28 r13 r21/sub r29 r13 r21/add r30 r15 r23/sub r31 r15 r23/st Y[0] r24/st Y[1] r26/st Y[2] r28/st Y[3] r30/st Y[4] r25/st Y[5] r27/st Y[6] r29/st Y[7] r31/end/; -
code; dft 2x2x2 mod 17 root 16x16x16 unroll 7; 0; program size 8 mod 17 procs 1 line 1 lanes 1 regs 12/phase/for v0 2/ld r0 X[0+v0*4]/ld r1 X[1+v0*4]/ld r2 X[2+v0*4]/ld r3 X[3+v0*4]/add r4 r0 r1/sub r5 r0 r1/add r6 r2 r3/sub r7 r2 r3/add r8 r4 r6/sub r9 r4 r6/add r10 r5 r7/sub r11 r5 r7/st A[0+v0*4] r8/st A[1+v0*4] r10/st A[2+v0*4] r9/st A[3+v0*4] r11/end/for v0 4/ld r0 A[0+v0*1]/ld r1 A[4+v0*1]/add r2 r0 r1/sub r3 r0 r1/st Y[0+v0*1] r2/st Y[4+v0*1] r3/end/end/; -
code; dft 16x2x4 mod 17 root 3x16x4; 0; program size 128 mod 17 procs 1 line 1 lanes 1 regs 34/table 0 values 1 1 1 1 1 3 9 10 1 9 13 15 1 10 15 14/phase/for v0 16/ld r0 X[0+v0*8]/ld r1 X[1+v0*8]/ld r2 X[2+v0*8]/ld r3 X[3+v0*8]/ld r4 X[4+v0*8]/ld r5 X[5+v0*8]/ld r6 X[6+v0*8]/ld r7 X[7+v0*8]/add r8 r0 r2/sub r9 r0 r2/add r10 r1 r3/sub r11 r1 r3/mul r12 r11 4/add r13 r8 r10/sub r14 r8 r10/add r15 r9 r12/sub r16 r9 r12/add r17 r4 r6/sub r18 r4 r6/add r19 r5 r7/sub r20 r5 r7/mul r21 r20 4/add r22 r17 r19/sub r23 r17 r19/add r24 r18 r21/sub r25 r18 r21/add r26 r13 r22/sub r27 r13 r22/add r28 r15 r24/sub r29 r15 r24/add r30 r14 r23/sub r31 r14 r23/add r32 r16 r25/sub r33 r16 r25/st A[0+v0*8] r26/st A[1+v0*8] r28/st A[2+v0*8] r30/st A[3+v0*8] r32/st A[4+v0*8] r27/st A[5+v0*8] r29/st A[6+v0*8] r31/st A[7+v0*8] r33/end/for v0 8/for v1 4/ld r0 A[0+v0*1+v1*8]/ld r1 A[32+v0*1+v1*8]/ld r2 A[64+v0*1+v1*8]/ld r3 A[96+v0*1+v1*8]/add r4 r0 r2/sub r5 r0 r2/add r6 r1 r3/sub r7 r1 r3/mul r8 r7 13/add r9 r4 r6/sub r10 r4 r6/add r11 r5 r8/sub r12 r5 r8/mul r13 r9 t0[0+v1*4] step 0/st B[0+v0*1+v1*32] r13/mul r14 r11 t0[1+v1*4] step 0/st B[8+v0*1+v1*32] r14/mul r15 r10 t0[2+v1*4] step 0/st B[16+v0*1+v1*32] r15/mul r16 r12 t0[3+v1*4] step 0/st B[24+v0*1+v1*32] r16/end/end/for v0 8/for v1 4/ld r0 B[0+v0*1+v1*8]/ld r1 B[32+v0*1+v1*8]/ld r2 B[64+v0*1+v1*8]/ld r3 B[96+v0*1+v1*8]/add r4 r0 r2/sub r5 r0 r2/add r6 r1 r3/sub r7 r1 r3/mul r8 r7 13/add r9 r4 r6/sub r10 r4 r6/add r11 r5 r8/sub r12 r5 r8/st Y[0+v0*1+v1*8] r9/st Y[32+v0*1+v1*8] r11/st Y[64+v0*1+v1*8] r10/st Y[96+v0*1+v1*8] r12/end/end/end/; -
code; dft 4x4 mod 17 root 4x13 lanes 2 unroll 2; 0; program size 16 mod 17 procs 1 line 1 lanes 2 regs 6/table 0 values 1 1 1 13/table 1 values 1 1 1 4/phase/for v0 2/for v1 2/ld r0 X[0+v0*8+v1*2]/ld r1 X[4+v0*8+v1*2]/tile r2 r0/st A[0+v0*8+v1*4] r2/st A[2+v0*8+v1*4] r3/end/end/for v0 2/for v1 2/ld r0 A[0+v0*8+v1*2]/ld r1 A[4+v0*8+v1*2]/add r2 r0 r1/sub r3 r0 r1/mul r4 r2 t0[0+v1*2] step 0/st B[0+v0*8+v1*4] r4/mul r5 r3 t0[1+v1*2] step 0/st B[2+v0*8+v1*4] r5/end/end/for v0 2/for v1 2/ld r0 B[0+v0*8+v1*2]/ld r1 B[4+v0*8+v1*2]/add r2 r0 r1/sub r3 r0 r1/st A[0+v0*8+v1*2] r2/st A[4+v0*8+v1*2] r3/end/end/for v0 2/for v1 2/ld r0 A[0+v0*8+v1*4]/ld r1 A[2+v0*8+v1*4]/tile r2 r0/st B[0+v0*8+v1*2] r2/st B[4+v0*8+v1*2] r3/end/end/for v0 2/for v1 2/ld r0 B[0+v0*2+v1*4]/ld r1 B[8+v0*2+v1*4]/add r2 r0 r1/sub r3 r0 r1/mul r4 r2 t1[0+v1*2] step 0/st A[0+v0*2+v1*8] r4/mul r5 r3 t1[1+v1*2] step 0/st A[4+v0*2+v1*8] r5/end/end/for v0 2/for v1 2/ld r0 A[0+v0*2+v1*4]/ld r1 A[8+v0*2+v1*4]/add r2 r0 r1/sub r3 r0 r1/st Y[0+v0*2+v1*4] r2/st Y[8+v0*2+v1*4] r3/end/end/end/; -
code; dft 4x2x2 mod 17 root 4x16x1 procs 2; 0; program size 16 mod 17 procs 2 line 1 lanes 1 regs 13/phase/for v0 2/ld r0 X[0+q*8+v0*4]/ld r1 X[1+q*8+v0*4]/ld r2 X[2+q*8+v0*4]/ld r3 X[3+q*8+v0*4]/add r4 r0 r1/add r5 r0 r1/add r6 r2 r3/add r7 r2 r3/add r8 r4 r6/sub r9 r4 r6/add r10 r5 r7/sub r11 r5 r7/st A[0+q*8+v0*4] r8/st A[1+q*8+v0*4] r10/st A[2+q*8+v0*4] r9/st A[3+q*8+v0*4] r11/end/end/phase/for v0 2/ld r0 A[0+q*2+v0*1]/ld r1 A[4+q*2+v0*1]/ld r2 A[8+q*2+v0*1]/ld r3 A[12+q*2+v0*1]/add r4 r0 r2/sub r5 r0 r2/add r6 r1 r3/sub r7 r1 r3/mul r8 r7 4/add r9 r4 r6/sub r10 r4 r6/add r11 r5 r8/sub r12 r5 r8/st Y[0+q*2+v0*1] r9/st Y[4+q*2+v0*1] r11/st Y[8+q*2+v0*1] r10/st Y[12+q*2+v0*1] r12/end/end/; -
code; dft 4x2x2 mod 17 root 4x16x1 lanes 2; 0; program size 16 mod 17 procs 1 line 1 lanes 2 regs 13/phase/for v0 2/for v1 2/ld r0 X[0+v0*8+v1*2]/ld r1 X[4+v0*8+v1*2]/tile r2 r0/st A[0+v0*8+v1*4] r2/st A[2+v0*8+v1*4] r3/end/end/for v0 2/ld r0 A[0+v0*8]/ld r1 A[2+v0*8]/ld r2 A[4+v0*8]/ld r3 A[6+v0*8]/add r4 r0 r1/add r5 r0 r1/add r6 r2 r3/add r7 r2 r3/add r8 r4 r6/sub r9 r4 r6/add r10 r5 r7/sub r11 r5 r7/st B[0+v0*8] r8/st B[2+v0*8] r10/st B[4+v0*8] r9/st B[6+v0*8] r11/end/for v0 2/for v1 2/ld r0 B[0+v0*8+v1*4]/ld r1 B[2+v0*8+v1*4]/tile r2 r0/st A[0+v0*8+v1*2] r2/st A[4+v0*8+v1*2] r3/end/end/for v0 2/ld r0 A[0+v0*2]/ld r1 A[4+v0*2]/ld r2 A[8+v0*2]/ld r3 A[12+v0*2]/add r4 r0 r2/sub r5 r0 r2/add r6 r1 r3/sub r7 r1 r3/mul r8 r7 4/add r9 r4 r6/sub r10 r4 r6/add r11 r5 r8/sub r12 r5 r8/st Y[0+v0*2] r9/st Y[4+v0*2] r11/st Y[8+v0*2] r10/st Y[12+v0*2] r12/end/end/; -
code; dft 4x2x2 mod 17 root 4x16x1 procs 2 line 2 lanes 2; 0; program size 16 mod 17 procs 2 line 2 lanes 2 regs 13/phase/for v0 2/ld r0 X[0+q*8+v0*2]/ld r1 X[4+q*8+v0*2]/tile r2 r0/st A[0+q*8+v0*4] r2/st A[2+q*8+v0*4] r3/end/ld r0 A[0+q*8]/ld r1 A[2+q*8]/ld r2 A[4+q*8]/ld r3 A[6+q*8]/add r4 r0 r1/add r5 r0 r1/add r6 r2 r3/add r7 r2 r3/add r8 r4 r6/sub r9 r4 r6/add r10 r5 r7/sub r11 r5 r7/st B[0+q*8] r8/st B[2+q*8] r10/st B[4+q*8] r9/st B[6+q*8] r11/for v0 2/ld r0 B[0+q*8+v0*4]/ld r1 B[2+q*8+v0*4]/tile r2 r0/st A[0+q*8+v0*2] r2/st A[4+q*8+v0*2] r3/end/end/phase/ld r0 A[0+q*2]/ld r1 A[4+q*2]/ld r2 A[8+q*2]/ld r3 A[12+q*2]/add r4 r0 r2/sub r5 r0 r2/add r6 r1 r3/sub r7 r1 r3/mul r8 r7 4/add r9 r4 r6/sub r10 r4 r6/add r11 r5 r8/sub r12 r5 r8/st Y[0+q*2] r9/st Y[4+q*2] r11/st Y[8+q*2] r10/st Y[12+q*2] r12/end/; -
trace; dft 2x2 mod 17 root 16x16/1 2 3 4/; 0; program size 4 mod 17 procs 1 line 1 lanes 1 regs 12/phase/ld r0 X[0]/ld r1 X[1]/ld r2 X[2]/ld r3 X[3]/add r4 r0 r1/sub r5 r0 r1/add r6 r2 r3/sub r7 r2 r3/add r8 r4 r6/sub r9 r4 r6/add r10 r5 r7/sub r11 r5 r7/st Y[0] r8/st Y[1] r10/st Y[2] r9/st Y[3] r11/end/0 0 ld r0 0/1 0 ld r1 1/2 0 ld r2 2/3 0 ld r3 3/4 0 add r4 r0 r1/5 0 sub r5 r0 r1/6 0 add r6 r2 r3/7 0 sub r7 r2 r3/8 0 add r8 r4 r6/9 0 sub r9 r4 r6/10 0 add r10 r5 r7/11 0 sub r11 r5 r7/12 0 st 4 r8/13 0 st 5 r10/14 0 st 6 r9/15 0 st 7 r11/10 15 13 0/; -
trace; dft 2x2 mod 17 root 16x16 procs 2 line 1/1 2 3 4/; 0; program size 4 mod 17 procs 2 line 1 lanes 1 regs 4/phase/ld r0 X[0+q*2]/ld r1 X[1+q*2]/add r2 r0 r1/sub r3 r0 r1/st A[0+q*2] r2/st A[1+q*2] r3/end/phase/ld r0 A[0+q*1]/ld r1 A[2+q*1]/add r2 r0 r1/sub r3 r0 r1/st Y[0+q*1] r2/st Y[2+q*1] r3/end/0 0 ld r0 0/1 0 ld r1 1/2 0 add r2 r0 r1/3 0 sub r3 r0 r1/4 0 st 8 r2/5 0 st 9 r3/6 1 ld r0 2/7 1 ld r1 3/8 1 add r2 r0 r1/9 1 sub r3 r0 r1/10 1 st 10 r2/11 1 st 11 r3/12 0 ld r0 8/13 0 ld r1 10/14 0 add r2 r0 r1/15 0 sub r3 r0 r1/16 0 st 4 r2/17 0 st 6 r3/18 1 ld r0 9/19 1 ld r1 11/20 1 add r2 r0 r1/21 1 sub r3 r0 r1/22 1 st 5 r2/23 1 st 7 r3/10 15 13 0/; -
";

const REFUSALS: &str = "\
plan; dft 2x2 mod 17 root 16x4; 6; -; root to the size is 16, not 1
plan; dft 2x2 mod 17 root 16x16 budget 7; 8; -; least cost 8 is over budget 7
plan; dft 2x3 mod 7 root 6x2 procs 2; 7; -; no split fits procs, line and lanes
plan; dft 8x2x2 mod 17 root 2x1x1 procs 4 line 2; 7; -; no split fits procs, line and lanes
plan; dft 2x2 mod 17 root 16; 3; -; syntax at byte 22
plan; dft 2x2 mod 17 root 16x16x16; 3; -; syntax at byte 25
plan; dft 2 mod 17 root 16x16; 3; -; syntax at byte 20
plan; dft 2x2x2x2x2 mod 17 root 16x16x16x16x16; 3; -; syntax at byte 11
plan; idft 2x2 mod 17 root 16x16; 3; -; syntax at byte 6
plan; wht 2x2 mod 17; 3; -; syntax at byte 5
plan; dft 2x mod 17 root 16x16; 3; -; syntax at byte 6
plan; dft 2x02 mod 17 root 16x16; 3; -; syntax at byte 7
plan; dft 2X2 mod 17 root 16x16; 3; -; syntax at byte 5
plan; dft 1x2 mod 17 root 1x16; 4; -; size 1 is out of range
plan; dft 2x1 mod 17 root 16x1; 4; -; size 1 is out of range
plan; dft 2x0 mod 17 root 16x1; 4; -; size 0 is out of range
plan; dft 2x1048577 mod 17 root 16x1; 4; -; size 1048577 is out of range
plan; dft 1024x1024x2x2 mod 17 root 1x1x1x1; 4; -; size 2097152 is out of range
plan; dft 1048576x1048576 mod 17 root 1x1; 4; -; size 1099511627776 is out of range
plan; dft 1048576x1048576x1 mod 17 root 1x1x1; 4; -; size 1 is out of range
plan; dft 2x2 mod 1 root 0x0; 4; -; mod 1 is out of range
plan; dft 2x2 mod 17 root 16x17; 4; -; root 17 is out of range
plan; dft 2x2 mod 17 root 18x17; 4; -; root 18 is out of range
plan; dft 2x2 mod 17 root 16x16 procs 17; 4; -; procs 17 is out of range
plan; dft 2x2 mod 17 root 16x16 procs 2 line 3 lanes 2; 4; -; lanes 2 do not divide line 3
run; dft 2x2 mod 17 root 16x16/1 2 3 4 5; 9; 10 15 13 0/; input ends with 1 of 4 numbers
run --schedule turns:1; dft 2x2 mod 17 root 16x16/1 2 3 4; 5; -; turn names processor 1 of 1
convolve; dft 2x2 mod 17 root 16x16/1 2 3 4; 3; -; syntax at byte 0
";

#[test]
fn dimensions(rt: HostRuntime) -> Result<(), Fail> {
    all_answer(&rt, rt.alloc(), RESULTS)
}

#[test]
fn plans_of_dimensions(rt: HostRuntime) -> Result<(), Fail> {
    all_answer(&rt, rt.alloc(), PLANS)
}

#[test]
fn certificates_of_dimensions(rt: HostRuntime) -> Result<(), Fail> {
    all_answer(&rt, rt.alloc(), CERTIFICATES)
}

#[test]
fn programs_of_dimensions(rt: HostRuntime) -> Result<(), Fail> {
    all_answer(&rt, rt.alloc(), CODES)
}

#[test]
fn refused_dimensions(rt: HostRuntime) -> Result<(), Fail> {
    all_answer(&rt, rt.alloc(), REFUSALS)
}
