// Why a line is no request.
ghost use Rattle.std.specs.Prelude.{◌≡◌, Some};
ghost use Rattle.request_text.specs.Fields.{field_word};

use std::fmt;
use thiserror::Error;

/// A field of a request, by its word in the request line.
#[derive(Clone, Copy, PartialEq, Eq, Debug)]
pub enum Field {
    Size,
    Mod,
    Root,
    Procs,
    Line,
    Lanes,
    Unroll,
    Budget,
    Weight,
}

impl Field {
    /// The field's word.
    pub fn word(self) -> &'static str
        ensures { result.now ≡ field_word self }
    {
        match self {
            Field::Size => "size",
            Field::Mod => "mod",
            Field::Root => "root",
            Field::Procs => "procs",
            Field::Line => "line",
            Field::Lanes => "lanes",
            Field::Unroll => "unroll",
            Field::Budget => "budget",
            Field::Weight => "weight",
        }
    }
}

impl fmt::Display for Field {
    ghost output = { λ field. Some (field_word field) };

    fn fmt<W: fmt::Write>(&self, f: &mut fmt::Formatter<W>) -> fmt::Result {
        f.write_str(self.word())
    }
}

/// Why a line is no request that can be served.
#[derive(Clone, Copy, PartialEq, Eq, Debug, Error)]
pub enum RequestFault {
    /// No request's line begins with more bytes of this one than the first `at`.
    #[error("no request's line goes on at byte {at}")]
    Syntax { at: u64 },
    /// The first field that is out of its limits.
    #[error("{field} {value} is out of its limits")]
    Range { field: Field, value: u64 },
    /// The size of a Walsh-Hadamard transform is no power of two.
    #[error("size {size} is no power of two")]
    Shape { size: u64 },
    /// There are several processors, and the lanes do not divide the line.
    #[error("{lanes} lanes do not divide a line of {line} words")]
    LanesLine { lanes: u64, line: u64 },
    /// The size of an inverse or of a convolution has no inverse: it and the modulus share this greatest factor, over 1.
    #[error("size and modulus share the factor {gcd}")]
    NotUnit { gcd: u64 },
}
