// Programs on words.

use icode::program::Op;

/// A register is reduced by the amount where it isn't below it.
#[derive(Clone, Copy, Drop, PartialEq, Eq, Debug)]
pub struct Reduction {
    pub register: u64,
    pub amount: u64,
}

/// What an operation on words has beside the operation.
#[derive(Drop)]
pub struct Note {
    /// The reductions before it.
    pub before: Vec<Reduction>,
    /// The multiple of the modulus that keeps a difference from falling below 0.
    pub bias: u64,
    /// The quotient of a constant factor.
    pub quotient: u64,
}

/// A statement.
#[derive(Drop)]
pub enum WordStmt {
    /// The body, for each value of the loop's variable from 0 up to the count.
    Loop { count: u64, body: Vec<WordStmt> },
    Do { note: Note, op: Op },
}

/// Loop code on words that wrap, for residues that are known up to a multiple of the modulus.
#[derive(Drop)]
pub struct WordProgram {
    /// The square root of the words' base.
    pub half: u64,
    /// Whether the high half of a product may be up to 2 too small.
    pub rough: bool,
    pub size: u64,
    pub modulus: u64,
    pub procs: u64,
    pub line: u64,
    pub lanes: u64,
    pub regs: u64,
    /// Tables of factors.
    pub tables: Vec<Vec<u64>>,
    /// The quotients of the factors, table by table.
    pub quotients: Vec<Vec<u64>>,
    pub phases: Vec<Vec<WordStmt>>,
}

/// How lazy a program on words is.
#[derive(Clone, Copy, Drop, PartialEq, Eq, Debug)]
pub struct Laziness {
    pub half: u64,
    pub rough: bool,
    /// The words of A stay below this multiple of the modulus.
    pub keep_a: u64,
    /// And those of B below this one.
    pub keep_b: u64,
    /// And those of registers below this one.
    pub limit: u64,
}

/// What the statements of a program share.
#[derive(Clone, Copy, Drop)]
pub(crate) struct Setting {
    pub laziness: Laziness,
    pub modulus: u64,
    pub lanes: u64,
    pub regs: u64,
}
