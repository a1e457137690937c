// What the check says of listings.

use crate::programs::nested;
use code_check::verify;
use listing_text::read_listing;
use std::alloc::Global;
use std::test::Fail;
use worked_rows::check;

// A word on it, a listing with `~` for each line end, and the answer.
const ROWS: &str = "\
Nobody is refused: program size 4 mod 17 procs 2 line 1 lanes 1 regs 6~table 0 values 1 1 1 4~phase~ld r0 X[0+q*1]~ld r1 X[2+q*1]~add r2 r0 r1~sub r3 r0 r1~mul r4 r2 t0[0+q*2] step 0~st A[0+q*2] r4~mul r5 r3 t0[1+q*2] step 0~st A[1+q*2] r5~end~phase~ld r0 A[0+q*1]~ld r1 A[2+q*1]~add r2 r0 r1~sub r3 r0 r1~st Y[0+q*1] r2~st Y[2+q*1] r3~end~|passes
A great number that stays below 2^64 is right: program size 4 mod 17 procs 1 line 1 lanes 1 regs 3~phase~ld r0 X[0+(0+(4294967294)%4294967295*4294967295)%2*1]~end~|passes
An array ends with its last line: program size 3 mod 17 procs 1 line 2 lanes 2 regs 3~phase~ld r0 X[2]~st Y[2] r0~end~|passes
Lines that all load and nobody writes: program size 4 mod 17 procs 3 line 1 lanes 1 regs 1~phase~ld r0 X[0]~end~|passes
What one phase writes the next may load: program size 4 mod 17 procs 2 line 1 lanes 1 regs 1~phase~st B[0+q*1] r0~end~phase~ld r0 B[0]~end~|passes
The second processor's first place is past the array: program size 4 mod 17 procs 2 line 1 lanes 1 regs 6~table 0 values 1 1 1 4~phase~ld r0 X[3+q*1]~ld r1 X[2+q*1]~add r2 r0 r1~sub r3 r0 r1~mul r4 r2 t0[0+q*2] step 0~st A[0+q*2] r4~mul r5 r3 t0[1+q*2] step 0~st A[1+q*2] r5~end~phase~ld r0 A[0+q*1]~ld r1 A[2+q*1]~add r2 r0 r1~sub r3 r0 r1~st Y[0+q*1] r2~st Y[2+q*1] r3~end~|bad place in phase 0, processor 1, action 0
The very last action of the first processor is past the array: program size 4 mod 17 procs 2 line 1 lanes 1 regs 6~table 0 values 1 1 1 4~phase~ld r0 X[0+q*1]~ld r1 X[2+q*1]~add r2 r0 r1~sub r3 r0 r1~mul r4 r2 t0[0+q*2] step 0~st A[0+q*2] r4~mul r5 r3 t0[1+q*2] step 0~st A[1+q*2] r5~end~phase~ld r0 A[0+q*1]~ld r1 A[2+q*1]~add r2 r0 r1~sub r3 r0 r1~st Y[0+q*1] r2~st Y[4] r3~end~|bad place in phase 1, processor 0, action 5
The very last action of the last processor is past the array: program size 4 mod 17 procs 2 line 1 lanes 1 regs 6~table 0 values 1 1 1 4~phase~ld r0 X[0+q*1]~ld r1 X[2+q*1]~add r2 r0 r1~sub r3 r0 r1~mul r4 r2 t0[0+q*2] step 0~st A[0+q*2] r4~mul r5 r3 t0[1+q*2] step 0~st A[1+q*2] r5~end~phase~ld r0 A[0+q*1]~ld r1 A[2+q*1]~add r2 r0 r1~sub r3 r0 r1~st Y[0+q*1] r2~st Y[3+q*1] r3~end~|bad place in phase 1, processor 1, action 5
A shared line of the first phase waits for the places of the second: program size 4 mod 17 procs 2 line 1 lanes 1 regs 6~table 0 values 1 1 1 4~phase~ld r0 X[0+q*1]~ld r1 X[2+q*1]~add r2 r0 r1~sub r3 r0 r1~mul r4 r2 t0[0+q*2] step 0~st A[0+q*2] r4~mul r5 r3 t0[1+q*2] step 0~st A[1] r5~end~phase~ld r0 A[0+q*1]~ld r1 A[2+q*1]~add r2 r0 r1~sub r3 r0 r1~st Y[0+q*1] r2~st Y[3+q*1] r3~end~|bad place in phase 1, processor 1, action 5
There is no such table: program size 4 mod 17 procs 2 line 1 lanes 1 regs 6~table 0 values 1 1 1 4~phase~ld r0 X[0+q*1]~ld r1 X[2+q*1]~add r2 r0 r1~sub r3 r0 r1~mul r4 r2 t0[0+q*2] step 0~st A[0+q*2] r4~mul r5 r3 t1[1+q*2] step 0~st A[1+q*2] r5~end~phase~ld r0 A[0+q*1]~ld r1 A[2+q*1]~add r2 r0 r1~sub r3 r0 r1~st Y[0+q*1] r2~st Y[2+q*1] r3~end~|bad place in phase 0, processor 0, action 6
The second processor's place is past the table: program size 4 mod 17 procs 2 line 1 lanes 1 regs 6~table 0 values 1 1 1 4~phase~ld r0 X[0+q*1]~ld r1 X[2+q*1]~add r2 r0 r1~sub r3 r0 r1~mul r4 r2 t0[0+q*2] step 0~st A[0+q*2] r4~mul r5 r3 t0[2+q*2] step 0~st A[1+q*2] r5~end~phase~ld r0 A[0+q*1]~ld r1 A[2+q*1]~add r2 r0 r1~sub r3 r0 r1~st Y[0+q*1] r2~st Y[2+q*1] r3~end~|bad place in phase 0, processor 1, action 6
Of one action the place comes first: program size 4 mod 17 procs 1 line 1 lanes 1 regs 3~phase~ld r9 X[99]~end~|bad place in phase 0, processor 0, action 0
A sum reaches 2^64 inside of a remainder: program size 4 mod 17 procs 1 line 1 lanes 1 regs 3~phase~ld r0 X[0+(0+(4294967294)%4294967295*4294967295+(4294967294)%4294967295*4294967295)%2*1]~end~|bad place in phase 0, processor 0, action 0
The second lane is past the array: program size 4 mod 17 procs 1 line 2 lanes 2 regs 3~phase~ld r0 X[2]~st Y[3] r0~end~|bad place in phase 0, processor 0, action 1
The entry of the second lane is past the table: program size 4 mod 17 procs 1 line 2 lanes 2 regs 3~table 0 values 1 2~phase~mul r0 r1 t0[1] step 0~mul r0 r1 t0[1] step 1~end~|bad place in phase 0, processor 0, action 1
Each loop's variable begins at 0 again: program size 4 mod 17 procs 1 line 1 lanes 1 regs 1~phase~for v0 2~for v1 2~ld r0 X[0+v0*1+v1*2]~end~ld r0 X[3+v0*1]~end~end~|bad place in phase 0, processor 0, action 5
There are registers r0 to r5: program size 4 mod 17 procs 2 line 1 lanes 1 regs 6~table 0 values 1 1 1 4~phase~ld r0 X[0+q*1]~ld r1 X[2+q*1]~add r6 r0 r1~sub r3 r0 r1~mul r4 r2 t0[0+q*2] step 0~st A[0+q*2] r4~mul r5 r3 t0[1+q*2] step 0~st A[1+q*2] r5~end~phase~ld r0 A[0+q*1]~ld r1 A[2+q*1]~add r2 r0 r1~sub r3 r0 r1~st Y[0+q*1] r2~st Y[2+q*1] r3~end~|bad register in phase 0, processor 0, action 2
The register of the first action comes before the place of the second: program size 4 mod 17 procs 1 line 1 lanes 1 regs 3~phase~add r9 r0 r0~ld r0 X[99]~end~|bad register in phase 0, processor 0, action 0
The tile's registers meet: program size 4 mod 17 procs 1 line 2 lanes 2 regs 4~phase~tile r2 r0~tile r1 r0~end~|bad register in phase 0, processor 0, action 1
The tile's last register is not there: program size 4 mod 17 procs 1 line 2 lanes 2 regs 4~phase~tile r0 r3~end~|bad register in phase 0, processor 0, action 0
Both processors store into the second word of A, and none loads it: program size 4 mod 17 procs 2 line 1 lanes 1 regs 6~table 0 values 1 1 1 4~phase~ld r0 X[0+q*1]~ld r1 X[2+q*1]~add r2 r0 r1~sub r3 r0 r1~mul r4 r2 t0[0+q*2] step 0~st A[0+q*2] r4~mul r5 r3 t0[1+q*2] step 0~st A[1] r5~end~phase~ld r0 A[0+q*1]~ld r1 A[2+q*1]~add r2 r0 r1~sub r3 r0 r1~st Y[0+q*1] r2~st Y[2+q*1] r3~end~|phase 0 line 9 is shared by 0 and 1
Two words of one line: program size 4 mod 17 procs 2 line 2 lanes 1 regs 1~phase~st A[0+q*1] r0~end~|phase 0 line 4 is shared by 0 and 1
Only the second lane meets the other processor: program size 8 mod 17 procs 2 line 2 lanes 2 regs 1~phase~ld r0 A[2]~for v0 1~st B[1+q*4] r0~end~end~phase~st B[3+q*2] r0~end~|phase 1 line 14 is shared by 0 and 1
Processor 2 writes what 0, 1 and 2 load: program size 4 mod 17 procs 3 line 1 lanes 1 regs 1~phase~ld r0 A[3]~st A[1+q*1] r0~end~|phase 0 line 11 is shared by 2 and 0
Of two shared lines the first is named, whatever the order: program size 4 mod 17 procs 2 line 1 lanes 1 regs 1~phase~st B[0] r0~st Y[3] r0~end~|phase 0 line 7 is shared by 0 and 1
Of two phases with shared lines the first is named: program size 4 mod 17 procs 2 line 1 lanes 1 regs 1~phase~end~phase~st B[0] r0~end~phase~st Y[3] r0~end~|phase 1 line 12 is shared by 0 and 1
The loop alone is too long: program size 4 mod 17 procs 2 line 1 lanes 1 regs 6~table 0 values 1 1 1 4~phase~for v0 4294967295~ld r0 X[0+q*1]~end~ld r1 X[2+q*1]~add r2 r0 r1~sub r3 r0 r1~mul r4 r2 t0[0+q*2] step 0~st A[0+q*2] r4~mul r5 r3 t0[1+q*2] step 0~st A[1+q*2] r5~end~phase~ld r0 A[0+q*1]~ld r1 A[2+q*1]~add r2 r0 r1~sub r3 r0 r1~st Y[0+q*1] r2~st Y[2+q*1] r3~end~|more than 100000000 actions
";

fn answer(alloc: Global, listing: &str) -> Result<String, Fail> {
    let Ok(program) = read_listing(alloc, listing.as_bytes()) else {
        return Err(Fail::from("no listing"));
    };
    match verify(alloc, &program) {
        Ok(_) => Ok(format!(in alloc; "passes")?),
        Err(fault) => Ok(format!(in alloc; "{fault}")?),
    }
}

fn row_answer(alloc: Global, question: &str) -> Result<String, Fail> {
    let (_, listing) = question.split_once(": ").ok_or("a word")?;
    answer(alloc, &listing.replace(alloc, "~", "\n")?)
}

#[test]
fn verdicts(rt: HostRuntime) -> Result<(), Fail> {
    check(rt.alloc(), ROWS, row_answer)
}

// The statements inside the loops, and the answer. No loop round nothing is walked.
const LOOPS: &str = "\
|passes
zero r0~|more than 100000000 actions
";

fn loops_answer(alloc: Global, statements: &str) -> Result<String, Fail> {
    let header = "size 4 mod 17 procs 2 line 1 lanes 1 regs 1";
    let text = nested(alloc, header, &statements.replace(alloc, "~", "\n")?)?;
    answer(alloc, &format!(in alloc; "{text}zero r0\nend\n")?)
}

#[test]
fn loops_in_loops(rt: HostRuntime) -> Result<(), Fail> {
    check(rt.alloc(), LOOPS, loops_answer)
}
