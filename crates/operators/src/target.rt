// The machine that code is made for.

/// For which machine: words, modulus, processors, words of a line, lanes of a register.
#[derive(Clone, Copy, Debug)]
pub struct Target {
    pub size: u64,
    pub modulus: u64,
    pub procs: u64,
    pub line: u64,
    pub lanes: u64,
}
