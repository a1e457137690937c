// Programs on words that are doubles.

use icode::program::Op;

/// What an operation on doubles has beside the operation.
#[derive(Drop)]
pub struct Note {
    /// The registers that are reduced before it.
    pub before: Vec<u64>,
    /// The factor of a product by a constant.
    pub factor: i64,
}

/// A statement.
#[derive(Drop)]
pub enum DoubleStmt {
    /// The body, for each value of the loop's variable from 0 up to the count.
    Loop { count: u64, body: Vec<DoubleStmt> },
    Do { note: Note, op: Op },
}

/// Loop code on whole numbers up to 2^53, each of which stands for a residue.
#[derive(Drop)]
pub struct DoubleProgram {
    pub size: u64,
    pub modulus: u64,
    pub procs: u64,
    pub line: u64,
    pub lanes: u64,
    pub regs: u64,
    /// Tables of residues.
    pub tables: Vec<Vec<u64>>,
    /// The factors that stand for them, table by table.
    pub factors: Vec<Vec<i64>>,
    pub phases: Vec<Vec<DoubleStmt>>,
}

/// What the statements of a program share.
#[derive(Clone, Copy, Drop)]
pub(crate) struct Setting {
    pub modulus: u64,
    pub lanes: u64,
    pub regs: u64,
}
