// The order of loops one in the other. From the innermost to the outermost, each loop changes places with the one inside it, as
// long as its rounds load from places nearer to one another than those of that loop. So rounds that follow one another load
// words that lie near one another.

ghost use Rattle.std.specs.Prelude.{◌≡◌, ◌+◌, ◌^◌, ◌<◌};
ghost use Rattle.icode.specs.Plain.{plain_body, Loop, NoStmts, AndStmts, plain_stmt};
ghost use Rattle.nests.specs.Rounds.{first_load};
ghost use Rattle.interchange.specs.Interchanged.{steps_less};
ghost use Rattle.nests.specs.Views.{loops_in, one_loop};
ghost use Rattle.interchange.specs.Views.{exchanged_in, sunk_loop, ordered_loop};

use crate::exchange::{exchange_op, exchange_round};
use icode::program::{Op, Stmt};
use nests::{innermost, stride};

/// Whether the loads of the loop's rounds step less than those of the next loop's.
fn steps_less(depth: u64, round: &[Stmt]) -> bool
    requires { depth + 1 < 2 ^ 64 }
    ensures { result ≡ steps_less depth (first_load (plain_body round.now)) }
{
    for stmt in round {
        if let Stmt::Do(Op::Load { place, .. }) = stmt {
            return stride(depth, &place.parts) < stride(depth + 1, &place.parts);
        }
    }
    false
}

// The only statement of a body, as the whole body.
#[cycle(exchanging)]
fn exchange_only(depth: u64, only: &mut Stmt)
    requires { depth < 64 }
    ensures { AndStmts (plain_stmt only.new) NoStmts
        ≡ exchanged_in depth (AndStmts (plain_stmt only.old) NoStmts) }
{
    match only {
        Stmt::Loop { body, .. } => exchange_innermost(depth, body),
        Stmt::Do(op) => exchange_op(depth, op),
    }
}

// The statements in the innermost loop, where the loops at this depth and the next are interchanged.
#[cycle(exchanging)]
fn exchange_innermost(depth: u64, body: &mut [Stmt])
    requires { depth < 64 }
    ensures { plain_body body.new ≡ exchanged_in depth (plain_body body.old) }
{
    if body.len() != 1 {
        exchange_round(depth, body);
        return;
    }
    exchange_only(depth, &mut body[0]);
}

// The loop at this depth, with one inside, goes into it and into those in it, as far as its rounds load from places nearer
// to one another.
#[cycle(sinking)]
fn sink(depth: u64, count: &mut u64, inner: &mut u64, inside: &mut [Stmt])
    requires { depth + loops_in (plain_body inside.old) < 63 }
    ensures { Loop count.new (one_loop inner.new (plain_body inside.new))
        ≡ sunk_loop depth count.old (one_loop inner.old (plain_body inside.old)) }
{
    if !steps_less(depth, innermost(inside)) {
        return;
    }
    exchange_innermost(depth, inside);
    std::mem::swap(count, inner);
    sink_further(depth + 1, inner, inside);
}

// The loop at this depth, of this body, goes inward.
#[cycle(sinking)]
fn sink_further(depth: u64, count: &mut u64, body: &mut [Stmt])
    requires { depth + loops_in (plain_body body.old) < 64 }
    ensures { Loop count.new (plain_body body.new)
        ≡ sunk_loop depth count.old (plain_body body.old) }
{
    if body.len() != 1 {
        return;
    }
    sink_around(depth, count, &mut body[0]);
}

// The loop at this depth, which stands around this statement alone, goes inward.
#[cycle(sinking)]
fn sink_around(depth: u64, count: &mut u64, only: &mut Stmt)
    requires { depth + loops_in (AndStmts (plain_stmt only.old) NoStmts) < 64 }
    ensures { Loop count.new (AndStmts (plain_stmt only.new) NoStmts)
        ≡ sunk_loop depth count.old (AndStmts (plain_stmt only.old) NoStmts) }
{
    match only {
        Stmt::Loop { count: inner, body } => sink(depth, count, inner, body),
        Stmt::Do(_) => (),
    }
}

// The loop at this depth, with one inside, gets in order with those in it.
#[cycle(ordering)]
fn order_both(depth: u64, count: &mut u64, inner: &mut u64, inside: &mut [Stmt])
    requires { depth + loops_in (plain_body inside.old) < 63 }
    ensures { Loop count.new (one_loop inner.new (plain_body inside.new))
        ≡ ordered_loop depth count.old (one_loop inner.old (plain_body inside.old)) }
{
    order(depth + 1, inner, inside);
    sink(depth, count, inner, inside);
}

/// Loops from this depth on get in order, from the innermost to the outermost.
#[cycle(ordering)]
pub(crate) fn order(depth: u64, count: &mut u64, body: &mut [Stmt])
    requires { depth + loops_in (plain_body body.old) < 64 }
    ensures { Loop count.new (plain_body body.new)
        ≡ ordered_loop depth count.old (plain_body body.old) }
{
    if body.len() != 1 {
        return;
    }
    order_around(depth, count, &mut body[0]);
}

// A loop that stands around this statement alone gets in order.
#[cycle(ordering)]
fn order_around(depth: u64, count: &mut u64, only: &mut Stmt)
    requires { depth + loops_in (AndStmts (plain_stmt only.old) NoStmts) < 64 }
    ensures { Loop count.new (AndStmts (plain_stmt only.new) NoStmts)
        ≡ ordered_loop depth count.old (AndStmts (plain_stmt only.old) NoStmts) }
{
    match only {
        Stmt::Loop { count: inner, body } => order_both(depth, count, inner, body),
        Stmt::Do(_) => (),
    }
}
