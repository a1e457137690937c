//! What was read of a program so far.

ghost use Rattle.std.specs.Prelude.{◌≤◌, length};

use icode::program::Stmt;

/// The numbers of a program's header.
#[derive(Clone, Copy, Debug)]
pub struct Header {
    pub size: u64,
    pub modulus: u64,
    pub procs: u64,
    pub line: u64,
    pub lanes: u64,
    pub regs: u64,
}

/// A loop that is open: its count, and the statements that stand before it.
#[derive(Drop)]
pub struct Level {
    pub count: u64,
    pub before: Vec<Stmt>,
}

/// What was read so far: inside a phase also the open loops, the innermost last, and the statements of the innermost.
#[derive(Drop)]
pub struct Draft {
    pub header: Header,
    pub tables: Vec<Vec<u64>>,
    pub phases: Vec<Vec<Stmt>>,
    pub is_inside: bool,
    pub open_loops: Vec<Level>,
    pub body: Vec<Stmt>,
    pub ghost few: { length open_loops.items ≤ 64 },
}
