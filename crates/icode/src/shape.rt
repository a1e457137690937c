// The numbers of a program's header.

ghost use Rattle.std.specs.Prelude.{◌≡◌};
ghost use Rattle.icode.specs.Limits.{IsHeaderWithin};
ghost use Rattle.icode.specs.Machine.{whole_lines};

use ring_mod::QuickModulus;

#[derive(Drop)]
pub struct Shape {
    pub size: u64,
    pub modulus: QuickModulus,
    pub procs: u64,
    pub line: u64,
    pub lanes: u64,
    pub regs: u64,
    /// The words of an array.
    pub room: u64,
    ghost limits: { IsHeaderWithin size modulus procs line lanes regs },
    ghost lines: { room ≡ whole_lines size line },
}
