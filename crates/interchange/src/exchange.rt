// Rounds of which the loops are interchanged.

ghost use Rattle.std.specs.Prelude.{◌≡◌, ◌+◌, ◌^◌, ◌<◌, length, drop};
ghost use Rattle.icode.specs.Plain.{plain_part, plain_op, plain_stmt, plain_body};
ghost use Rattle.interchange.specs.Exchanged.{exchanged_first, exchanged_parts, exchanged_op, exchanged_round};
ghost use Rattle.interchange.specs.Views.{factor_at, exchanged_stmt};
ghost use Rattle.nests.specs.Views.{plain_parts};

use icode::program::{Op, Part, Stmt};

/// The factor of a multiple of the value of the loop at this depth.
fn factor_of(depth: u64, part: &Part) -> Option<u64>
    ensures { result ≡ factor_at depth (plain_part part.now) }
{
    match part {
        Part::Var { depth: of, factor } => { if *of == depth { Some(*factor) } else { None } }
        Part::Proc { .. } => None,
        Part::Product { .. } => None,
        Part::Rem { .. } => None,
        Part::Quot { .. } => None,
    }
}

/// The multiple of the loop at this depth, in front of the others, becomes one of the next loop, and the other way round.
fn exchange_first(depth: u64, factor: u64, parts: &mut [Part])
    requires deep { depth + 1 < 2 ^ 64 }
    requires first { 0 < length parts.old }
    ensures { plain_parts parts.new
        ≡ exchanged_first depth factor (plain_parts (drop 1 parts.old)) }
{
    let deeper = depth + 1;
    if let Some(second) = parts.get(1) {
        if let Some(inner) = factor_of(deeper, second) {
            parts[0] = Part::Var {
                depth,
                factor: inner,
            };
            parts[1] = Part::Var {
                depth: deeper,
                factor,
            };
            return;
        }
    }
    parts[0] = Part::Var {
        depth: deeper,
        factor,
    };
}

/// The parts where the loops at this depth and the next are interchanged.
fn exchange_parts(depth: u64, parts: &mut [Part])
    requires { depth + 1 < 2 ^ 64 }
    ensures { plain_parts parts.new ≡ exchanged_parts depth (plain_parts parts.old) }
{
    let Some(part) = parts.first() else {
        return;
    };
    if let Some(factor) = factor_of(depth, part) {
        exchange_first(depth, factor, parts);
        return;
    }
    if let Some(factor) = factor_of(depth + 1, part) {
        parts[0] = Part::Var { depth, factor };
        return;
    }
    if let Some((_first, rest)) = parts.split_first_mut() {
        exchange_parts(depth, rest);
    }
}

pub(crate) fn exchange_op(depth: u64, op: &mut Op)
    requires { depth + 1 < 2 ^ 64 }
    ensures { plain_op op.new ≡ exchanged_op depth (plain_op op.old) }
{
    match op {
        Op::Load { place, .. } => exchange_parts(depth, &mut place.parts),
        Op::Store { place, .. } => exchange_parts(depth, &mut place.parts),
        Op::MulTable { place, .. } => exchange_parts(depth, &mut place.parts),
        Op::Zero { .. } => (),
        Op::Add { .. } => (),
        Op::Sub { .. } => (),
        Op::Neg { .. } => (),
        Op::MulConst { .. } => (),
        Op::Tile { .. } => (),
    }
}

fn exchange_stmt(depth: u64, stmt: &mut Stmt)
    requires { depth + 1 < 2 ^ 64 }
    ensures { plain_stmt stmt.new ≡ exchanged_stmt depth (plain_stmt stmt.old) }
{
    match stmt {
        Stmt::Do(op) => exchange_op(depth, op),
        Stmt::Loop { .. } => (),
    }
}

/// The statements where the loops at this depth and the next are interchanged.
pub(crate) fn exchange_round(depth: u64, round: &mut [Stmt])
    requires { depth + 1 < 2 ^ 64 }
    ensures { plain_body round.new ≡ exchanged_round depth (plain_body round.old) }
{
    for stmt in round.iter_mut() {
        exchange_stmt(depth, stmt);
    }
}
