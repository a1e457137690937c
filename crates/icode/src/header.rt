// The header of a program.

ghost use Rattle.std.specs.Prelude.{◌≡◌};

use crate::program::Program;
use crate::shape::Shape;
use ring_mod::{Modulus, QuickModulus};

/// The numbers of the program's header.
pub fn shape_of(program: &Program) -> Shape
    ensures size { result.size ≡ program.now.size }
    ensures modulus { result.modulus ≡ program.now.modulus }
    ensures procs { result.procs ≡ program.now.procs }
    ensures line { result.line ≡ program.now.line }
    ensures lanes { result.lanes ≡ program.now.lanes }
    ensures regs { result.regs ≡ program.now.regs }
{
    Shape {
        size: program.size,
        modulus: QuickModulus::new(Modulus::new(program.modulus).unwrap()),
        procs: program.procs,
        line: program.line,
        lanes: program.lanes,
        regs: program.regs,
        room: program.array_size(),
    }
}
