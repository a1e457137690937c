// What a call answers with.
use request_text::Field;

/// How a run ended.
#[derive(Clone, Copy, Debug, PartialEq, Eq)]
pub enum Status {
    Success,
    /// The words are no command line.
    Usage,
    /// No request's line, or no formula's, begins with more bytes of the first line than these.
    Syntax {
        at: u64,
    },
    /// The first field of the request that is out of its limits.
    Range {
        field: Field,
        value: u64,
    },
    /// The size of a Walsh-Hadamard transform is no power of two.
    Shape {
        size: u64,
    },
    /// There are several processors, and the lanes do not divide the line.
    LanesLine {
        lanes: u64,
        line: u64,
    },
    /// The size and the modulus share this factor, so the size has no inverse.
    NotUnit {
        gcd: u64,
    },
    /// The schedule's first turn of a processor that is none of the request's.
    Turn {
        q: u64,
        p: u64,
    },
    /// The root to the power of the size, which is not 1.
    Root {
        power: u64,
    },
    /// The least k from 1 on at which the sum of the powers of the root with exponents k * l is not 0.
    NotPrincipal {
        k: u64,
    },
    /// No tree fits the request's processors, line and lanes.
    NoDivide,
    /// The least cost of a program exceeds the budget.
    OverBudget {
        cost: u64,
        budget: u64,
    },
    /// The first token of the data that is no number. Tokens are counted from 1.
    BadNumber {
        token: u64,
    },
    /// The data end inside a vector.
    Truncated {
        have: u64,
        need: u64,
    },
    /// The input failed.
    ReadFault,
    /// The output failed.
    WriteFault,
    NoMemory,
    /// The line, the input, the certificate or the listing has more bytes than this.
    TooLong {
        limit: u64,
    },
    /// What comes after the request line is no certificate for the request.
    Unread,
    /// The certificate's first wrong row: its size, its cost, and the cost that was found in its place.
    Wrong {
        size: u64,
        given: u64,
        found: u64,
    },
    /// The part of a formula's text that begins here does not fit, for these two numbers.
    FormulaShape {
        at: u64,
        left: u64,
        right: u64,
    },
    /// The parenthesis of a formula's text that is open beside too many.
    TooDeep {
        at: u64,
    },
    /// The first line of a listing after which no listing goes on.
    ListingSyntax {
        line: u64,
    },
    /// The first action of a listing whose place is not there.
    Address {
        phase: u64,
        proc: u64,
        action: u64,
    },
    /// The first action of a listing with a register that is not there, or with tiles that meet.
    Register {
        phase: u64,
        proc: u64,
        action: u64,
    },
    /// In the phase a writes the line and b touches it.
    LineShared {
        phase: u64,
        line: u64,
        a: u64,
        b: u64,
    },
    /// The listing has more actions than this.
    OverSteps {
        limit: u64,
    },
}
