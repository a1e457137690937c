// Assertions in functions of their own, so that a test has no way out at them.

use std::fmt::{Debug, Display};
use std::process::Abort;

/// What is seen is what is wanted.
pub(crate) fn same<T: PartialEq + Debug + Drop>(rt: &impl Abort, seen: T, wanted: T) {
    assert_eq!(rt; seen, wanted);
}

/// What is seen in this case is what is wanted.
pub(crate) fn same_in<T: PartialEq + Debug + Drop, D: Display + Drop>(
    rt: &impl Abort,
    seen: T,
    wanted: T,
    case: D,
) {
    assert_eq!(rt; seen, wanted, "{case}");
}
