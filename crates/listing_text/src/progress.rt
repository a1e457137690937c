//! What was read of a text so far.

ghost use Rattle.std.specs.Prelude.{◌≤◌, length};

use crate::draft::Draft;

/// What was read of a program, and the text that has to come next.
#[derive(Drop)]
pub struct Progress {
    pub draft: Draft,
    /// Whole lines; those from `at` on have to come next.
    pub owed: Vec<u8>,
    pub at: usize,
    pub ghost inside: { at ≤ length owed.items },
}
