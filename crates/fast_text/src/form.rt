// Which text of a program is written.

/// Which text of a program is written.
#[derive(Clone, Copy, Debug, PartialEq, Eq)]
pub enum Form<'a> {
    /// Arrays, and a function for each phase.
    Arrays,
    /// A function of this name over the caller's arrays.
    Function { name: &'a str },
    /// The header of that function.
    Header { name: &'a str },
    /// The function that multiplies two vectors of the function of this name, place by place.
    Product { name: &'a str },
    /// The header of that function.
    ProductHeader { name: &'a str },
}
