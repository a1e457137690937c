// Breakdown trees.
ghost use Rattle.std.specs.Prelude.{◌≡◌, ◌*◌, IfOk, Some};
ghost use Rattle.tree_model.specs.Breakdown.{breakdown_of, size_of, HasWordSizes};
ghost use Rattle.tree_model.specs.Text.{tree_text};

use memory::NoMemory;
use std::alloc::Global;
use std::fmt;

/// A rule that takes a transform apart into two.
#[derive(Clone, Copy, PartialEq, Eq, Debug)]
pub enum Rule {
    Gt,
    Ct,
    Split,
    Dim,
}

/// How a transform is taken apart: by its definition, or by a rule into two parts.
#[derive(Drop)]
pub enum Tree {
    Leaf(u64),
    Gt(Box<Tree>, Box<Tree>),
    Ct(Box<Tree>, Box<Tree>),
    Split(Box<Tree>, Box<Tree>),
    Dim(Box<Tree>, Box<Tree>),
}

impl Tree {
    /// A copy of the tree, in other memory.
    pub fn copied(&self, alloc: Global) -> Result<Tree, NoMemory>
        ensures { IfOk result (λ t. breakdown_of t ≡ breakdown_of self.now) }
    {
        match self {
            Tree::Leaf(size) => Ok(Tree::Leaf(*size)),
            Tree::Gt(a, b) => {
                let a = Box::new(alloc, a.copied(alloc)?)?;
                let b = Box::new(alloc, b.copied(alloc)?)?;
                Ok(Tree::Gt(a, b))
            }
            Tree::Ct(a, b) => {
                let a = Box::new(alloc, a.copied(alloc)?)?;
                let b = Box::new(alloc, b.copied(alloc)?)?;
                Ok(Tree::Ct(a, b))
            }
            Tree::Split(a, b) => {
                let a = Box::new(alloc, a.copied(alloc)?)?;
                let b = Box::new(alloc, b.copied(alloc)?)?;
                Ok(Tree::Split(a, b))
            }
            Tree::Dim(a, b) => {
                let a = Box::new(alloc, a.copied(alloc)?)?;
                let b = Box::new(alloc, b.copied(alloc)?)?;
                Ok(Tree::Dim(a, b))
            }
        }
    }

    pub fn size(&self) -> u64
        requires { HasWordSizes (breakdown_of self.now) }
        ensures { result ≡ size_of (breakdown_of self.now) }
    {
        match self {
            Tree::Leaf(size) => *size,
            Tree::Gt(a, b) | Tree::Ct(a, b) | Tree::Split(a, b) | Tree::Dim(a, b) => {
                a.size() * b.size()
            }
        }
    }
}

impl fmt::Display for Tree {
    ghost output = { λ t. Some (tree_text (breakdown_of t)) };

    fn fmt<W: fmt::Write>(&self, f: &mut fmt::Formatter<W>) -> fmt::Result {
        match self {
            Tree::Leaf(size) => write!(f, "leaf({size})"),
            Tree::Gt(a, b) => write!(f, "gt({a},{b})"),
            Tree::Ct(a, b) => write!(f, "ct({a},{b})"),
            Tree::Split(a, b) => write!(f, "split({a},{b})"),
            Tree::Dim(a, b) => write!(f, "dim({a},{b})"),
        }
    }
}
