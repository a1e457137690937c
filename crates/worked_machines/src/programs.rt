// Programs by their listings. A machine takes what passes the check.

ghost use Rattle.std.specs.Prelude.{IfOk};
ghost use Rattle.icode.specs.Program.{Fits};

use code_check::laws::causes_are_exclusive;
use code_check::{CheckFault, verify};
use icode::program::Program;
use listing_text::read_listing;
use std::alloc::Global;
use std::fmt::Write;
use std::test::Fail;
use worked_rows::{PAIR, QUAD};

/// `PAIR` with its two results exchanged.
pub(crate) const EXCHANGED: &str = "program size 2 mod 15 procs 1 line 1 lanes 1 regs 5
phase
ld r0 X[0]
ld r1 X[1]
add r2 r0 r1
mul r3 r1 4
add r4 r0 r3
st Y[0] r4
st Y[1] r2
end
";

// The transform of size 16 modulo 17 with the root 3, for two processors and two lanes, written by the reference of
// examples/: a pass of kernels, one of tiles, and after the barrier one of kernels.
const TILED: &str = "program size 16 mod 17 procs 2 line 2 lanes 2 regs 13
table 0 values 1 1 1 1 1 3 9 10 1 9 13 15 1 10 15 14
phase
ld r0 X[0+q*2]
ld r1 X[4+q*2]
ld r2 X[8+q*2]
ld r3 X[12+q*2]
add r4 r0 r2
sub r5 r0 r2
add r6 r1 r3
sub r7 r1 r3
mul r8 r7 13
add r9 r4 r6
sub r10 r4 r6
add r11 r5 r8
sub r12 r5 r8
st A[0+q*8] r9
st A[2+q*8] r11
st A[4+q*8] r10
st A[6+q*8] r12
for v0 2
ld r0 A[0+q*8+v0*4]
ld r1 A[2+q*8+v0*4]
tile r2 r0
mul r4 r2 t0[0+q*8+v0*2] step 1
st B[0+q*8+v0*2] r4
mul r5 r3 t0[4+q*8+v0*2] step 1
st B[4+q*8+v0*2] r5
end
end
phase
ld r0 B[0+q*2]
ld r1 B[4+q*2]
ld r2 B[8+q*2]
ld r3 B[12+q*2]
add r4 r0 r2
sub r5 r0 r2
add r6 r1 r3
sub r7 r1 r3
mul r8 r7 13
add r9 r4 r6
sub r10 r4 r6
add r11 r5 r8
sub r12 r5 r8
st Y[0+q*2] r9
st Y[4+q*2] r11
st Y[8+q*2] r10
st Y[12+q*2] r12
end
";

// One of each action that loads and stores nothing.
const ACTIONS: &str = "program size 4 mod 17 procs 1 line 1 lanes 2 regs 8
table 0 values 1 3
phase
zero r0
neg r2 r1
mul r4 r2 t0[0] step 1
tile r6 r0
end
";

// Both processors store at one place.
const RACED: &str = "program size 2 mod 5 procs 2 line 1 lanes 1 regs 1
phase
ld r0 X[0+q*1]
st Y[0] r0
end
";

// Each processor raises a flag of its own and then looks at the other's.
const FLAGS: &str = "program size 2 mod 5 procs 2 line 1 lanes 1 regs 2
phase
ld r0 X[0+q*1]
st A[0+q*1] r0
ld r1 A[0+(1+q*1)%2*1]
st Y[0+q*1] r1
end
";

/// 64 loops of as many turns as can be, one in another, round the statements.
pub(crate) fn nested(alloc: Global, header: &str, statements: &str) -> Result<String, Fail> {
    let mut text = format!(in alloc; "program {header}\nphase\n")?;
    for depth in 0..64u64 {
        write!(text, "for v{depth} 4294967295\n")?;
    }
    text.push_str(statements)?;
    for _ in 0..64u64 {
        text.push_str("end\n")?;
    }
    Ok(text)
}

/// The listing of this name.
pub(crate) fn listing(alloc: Global, name: &str) -> Result<String, Fail> {
    let text = match name {
        "pair" => PAIR,
        "exchanged" => EXCHANGED,
        "quad" => QUAD,
        "tiled" => TILED,
        "actions" => ACTIONS,
        "raced" => RACED,
        "flags" => FLAGS,
        "nested" => {
            let header = "size 4 mod 17 procs 1 line 4 lanes 1 regs 0";
            let text = nested(alloc, header, "")?;
            return Ok(format!(in alloc; "{text}end\n")?);
        }
        _ => return Err(Fail::from("the name of a listing")),
    };
    Ok(text.to_string(alloc)?)
}

/// The program of this name.
pub(crate) fn program(alloc: Global, name: &str) -> Result<Program, Fail>
    ensures { IfOk result (λ program. Fits program) }
{
    let text = listing(alloc, name)?;
    let Ok(program) = read_listing(alloc, text.as_bytes()) else {
        return Err(Fail::from("no listing"));
    };
    causes_are_exclusive();
    match verify(alloc, &program) {
        Ok(_) => Ok(program),
        Err(_) => Err(Fail::from("a program that does not fit")),
    }
}

/// The program of this name, whose processors share a line.
pub(crate) fn sharing_program(alloc: Global, name: &str) -> Result<Program, Fail>
    ensures { IfOk result (λ program. Fits program) }
{
    let text = listing(alloc, name)?;
    let Ok(program) = read_listing(alloc, text.as_bytes()) else {
        return Err(Fail::from("no listing"));
    };
    match verify(alloc, &program) {
        Err(CheckFault::LineShared { .. }) => Ok(program),
        _ => Err(Fail::from("a program that shares no line")),
    }
}
