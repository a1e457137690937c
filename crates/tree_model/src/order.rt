// The order of trees.
ghost use Rattle.std.specs.Prelude.{◌≡◌, ℕ, ◌*◌, ◌^◌, ◌<◌, ◌↔◌, IsTrue};
ghost use Rattle.tree_model.specs.Breakdown.{breakdown_of, size_of, IsTree, HasWordSizes};
ghost use Rattle.tree_model.specs.Order.{order_of, tree_rank, ComesBefore};

use crate::tree::Tree;
use std::cmp::Ordering;

/// Whether `a` stands before `b` in the order of trees.
#[tactic(auto, using(crate::proofs::Sizes::word_sizes_of))]
pub fn before(a: &Tree, b: &Tree) -> bool
    requires a_tree { IsTree (breakdown_of a.now) }
    requires b_tree { IsTree (breakdown_of b.now) }
    requires a_fits { size_of (breakdown_of a.now) < 2 ^ 64 }
    requires b_fits { size_of (breakdown_of b.now) < 2 ^ 64 }
    ensures { IsTrue result ↔ ComesBefore (breakdown_of a.now) (breakdown_of b.now) }
{
    compare(a, b).is_lt()
}

fn compare(a: &Tree, b: &Tree) -> Ordering
    requires a_fits { HasWordSizes (breakdown_of a.now) }
    requires b_fits { HasWordSizes (breakdown_of b.now) }
    ensures { result ≡ order_of (breakdown_of a.now) (breakdown_of b.now) }
{
    match a {
        Tree::Leaf(_) => match b {
            Tree::Leaf(_) => Ordering::Equal,
            _ => Ordering::Less,
        },
        Tree::Gt(p, q) | Tree::Ct(p, q) | Tree::Split(p, q) | Tree::Dim(p, q) => match b {
            Tree::Leaf(_) => Ordering::Greater,
            Tree::Gt(x, y) | Tree::Ct(x, y) | Tree::Split(x, y) | Tree::Dim(x, y) => {
                let by_rule = rank(a).cmp(&rank(b));
                if by_rule.is_ne() {
                    return by_rule;
                }
                let by_size = p.size().cmp(&x.size());
                if by_size.is_ne() {
                    return by_size;
                }
                let by_left = compare(p, x);
                if by_left.is_ne() {
                    return by_left;
                }
                compare(q, y)
            }
        },
    }
}

fn rank(t: &Tree) -> u8
    ensures { result ≡ tree_rank (breakdown_of t.now) }
{
    match t {
        Tree::Leaf(_) => 0,
        Tree::Gt(_, _) => 1,
        Tree::Ct(_, _) | Tree::Split(_, _) | Tree::Dim(_, _) => 2,
    }
}
