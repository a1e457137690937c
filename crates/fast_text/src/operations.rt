// Operations of a C text on words.

ghost use Rattle.std.specs.Prelude.{◌≡◌, ◌++◌, ◌+◌, ◌^◌, ◌<◌, ◌≤◌, IsTrue, OnOk, codes, flat_map};
ghost use Rattle.icode.specs.Plain.{plain_expr, plain_op};
ghost use Rattle.word_code.specs.Views.{plain_note};
ghost use Rattle.fast_text.specs.WordText.{becomes_text, reduction_text, call_text, load_text, store_text, addition_text, subtraction_text, negation_text, const_product_text, entry_text, row_text, entries_text, table_product_text, sources_text, targets_text, tile_text, word_op_text};
ghost use Rattle.fast_text.specs.WordNests.{is_tile_small};

use crate::places::put_index;
use icode::program::{Array, Expr, Op};
use listing_text::{put, put_array, put_numbered, put_word};
use std::alloc::AllocError;
use word_code::program::{Note, Reduction};

fn put_becomes(out: &mut Vec<u8>, register: u64) -> Result<(), AllocError>
    ensures { OnOk result (out.new.items ≡ out.old.items ++ becomes_text register) }
{
    put(out, b"r", register)?;
    put_word(out, b" = ")
}

#[tactic(auto, unfolding(crate::specs::WordText::reduction_text))]
fn put_reduction(out: &mut Vec<u8>, reduction: Reduction) -> Result<(), AllocError>
    ensures { OnOk result (out.new.items ≡ out.old.items ++ reduction_text reduction) }
{
    put_becomes(out, reduction.register)?;
    put(out, b"reduced(r", reduction.register)?;
    put_numbered(out, b", ", reduction.amount, b"ULL);\n")
}

/// Writes the reductions before an operation.
pub(crate) fn put_reductions(out: &mut Vec<u8>, before: &[Reduction]) -> Result<(), AllocError>
    ensures { OnOk result (out.new.items ≡ out.old.items ++ flat_map reduction_text before.now) }
{
    for reduction in before {
        put_reduction(out, *reduction)?;
    }
    Ok(())
}

// A function of one register.
fn put_call(
    out: &mut Vec<u8>,
    register: u64,
    function: &[u8],
    source: u64,
) -> Result<(), AllocError>
    ensures { OnOk result (out.new.items ≡ out.old.items
        ++ call_text register function.now source) }
{
    put_becomes(out, register)?;
    put_word(out, function)?;
    put(out, b"r", source)
}

fn put_load(out: &mut Vec<u8>, register: u64, array: Array, place: &Expr) -> Result<(), AllocError>
    ensures { OnOk result (out.new.items ≡ out.old.items
        ++ load_text register array (plain_expr place.now)) }
{
    put_becomes(out, register)?;
    put_word(out, b"load(")?;
    put_array(out, array)?;
    put_word(out, b" + ")?;
    put_index(out, place)?;
    put_word(out, b");\n")
}

fn put_store(out: &mut Vec<u8>, array: Array, place: &Expr, register: u64) -> Result<(), AllocError>
    ensures { OnOk result (out.new.items ≡ out.old.items
        ++ store_text array (plain_expr place.now) register) }
{
    put_word(out, b"store(")?;
    put_array(out, array)?;
    put_word(out, b" + ")?;
    put_index(out, place)?;
    put_word(out, b", ")?;
    put(out, b"r", register)?;
    put_word(out, b");\n")
}

fn put_zero(out: &mut Vec<u8>, register: u64) -> Result<(), AllocError>
    ensures { OnOk result (out.new.items ≡ out.old.items
        ++ (becomes_text register ++ codes "splat(0);\n")) }
{
    put_becomes(out, register)?;
    put_word(out, b"splat(0);\n")
}

fn put_add(out: &mut Vec<u8>, register: u64, left: u64, right: u64) -> Result<(), AllocError>
    ensures { OnOk result (out.new.items ≡ out.old.items ++ addition_text register left right) }
{
    put_call(out, register, b"add(", left)?;
    put_word(out, b", ")?;
    put(out, b"r", right)?;
    put_word(out, b");\n")
}

fn put_sub(
    out: &mut Vec<u8>,
    register: u64,
    left: u64,
    right: u64,
    bias: u64,
) -> Result<(), AllocError>
    ensures { OnOk result (out.new.items ≡ out.old.items
        ++ subtraction_text register left right bias) }
{
    put_call(out, register, b"sub(", left)?;
    put_word(out, b", ")?;
    put(out, b"r", right)?;
    put_numbered(out, b", ", bias, b"ULL);\n")
}

fn put_negative(out: &mut Vec<u8>, register: u64, source: u64, bias: u64) -> Result<(), AllocError>
    ensures { OnOk result (out.new.items ≡ out.old.items ++ negation_text register source bias) }
{
    put_call(out, register, b"neg(", source)?;
    put_numbered(out, b", ", bias, b"ULL);\n")
}

// A product by the same factor on all lanes.
fn put_const_product(
    out: &mut Vec<u8>,
    register: u64,
    source: u64,
    factor: u64,
    quotient: u64,
) -> Result<(), AllocError>
    ensures { OnOk result (out.new.items ≡ out.old.items
        ++ const_product_text register source factor quotient) }
{
    put_call(out, register, b"mul(", source)?;
    put_numbered(out, b", splat(", factor, b"ULL)")?;
    put_numbered(out, b", splat(", quotient, b"ULL));\n")
}

// One entry for all lanes.
fn put_entry(out: &mut Vec<u8>, name: &[u8], table: u64, place: &Expr) -> Result<(), AllocError>
    ensures { OnOk result (out.new.items ≡ out.old.items
        ++ entry_text name.now table (plain_expr place.now)) }
{
    put_word(out, b"splat(")?;
    put(out, name, table)?;
    put_word(out, b"[")?;
    put_index(out, place)?;
    put_word(out, b"])")
}

// An entry for each lane.
fn put_row(out: &mut Vec<u8>, name: &[u8], table: u64, place: &Expr) -> Result<(), AllocError>
    ensures { OnOk result (out.new.items ≡ out.old.items
        ++ row_text name.now table (plain_expr place.now)) }
{
    put_word(out, b"load(")?;
    put(out, name, table)?;
    put_word(out, b" + ")?;
    put_index(out, place)?;
    put_word(out, b")")
}

fn put_entries(
    out: &mut Vec<u8>,
    name: &[u8],
    table: u64,
    place: &Expr,
    step: u64,
) -> Result<(), AllocError>
    ensures { OnOk result (out.new.items ≡ out.old.items
        ++ entries_text name.now table (plain_expr place.now) step) }
{
    if step == 0 {
        put_entry(out, name, table, place)
    } else {
        put_row(out, name, table, place)
    }
}

fn put_table_product(
    out: &mut Vec<u8>,
    register: u64,
    source: u64,
    table: u64,
    place: &Expr,
    step: u64,
) -> Result<(), AllocError>
    ensures { OnOk result (out.new.items ≡ out.old.items
        ++ table_product_text register source table (plain_expr place.now) step) }
{
    put_call(out, register, b"mul(", source)?;
    put_word(out, b", ")?;
    put_entries(out, b"t", table, place, step)?;
    put_word(out, b", ")?;
    put_entries(out, b"u", table, place, step)?;
    put_word(out, b");\n")
}

// `count` registers from this one on.
fn put_sources(out: &mut Vec<u8>, count: u64, register: u64) -> Result<(), AllocError>
    requires { register + count < 2 ^ 64 }
    ensures { OnOk result (out.new.items ≡ out.old.items ++ sources_text count register) }
{
    if count == 0 {
        return Ok(());
    }
    put_numbered(out, b"r", register, b",")?;
    put_sources(out, count - 1, register + 1)
}

// `count` registers from this one on become the vectors from number k on.
fn put_targets(out: &mut Vec<u8>, count: u64, register: u64, k: u64) -> Result<(), AllocError>
    requires registers { register + count < 2 ^ 64 }
    requires vectors { k + count < 2 ^ 64 }
    ensures { OnOk result (out.new.items ≡ out.old.items ++ targets_text count register k) }
{
    if count == 0 {
        return Ok(());
    }
    put_becomes(out, register)?;
    put_numbered(out, b"b[", k, b"]; ")?;
    put_targets(out, count - 1, register + 1, k + 1)
}

#[tactic(auto, unfolding(crate::specs::WordText::tile_text))]
fn put_tile(out: &mut Vec<u8>, lanes: u64, register: u64, source: u64) -> Result<(), AllocError>
    requires lanes { lanes ≤ 16 }
    requires register { register < 2 ^ 32 }
    requires source { source < 2 ^ 32 }
    ensures { OnOk result (out.new.items ≡ out.old.items ++ tile_text lanes register source) }
{
    put_word(out, b"{ vec b[] = {")?;
    put_sources(out, lanes, source)?;
    put_word(out, b"}; tile(b); ")?;
    put_targets(out, lanes, register, 0)?;
    put_word(out, b"}\n")
}

/// Writes an operation, for these lanes.
#[tactic(auto, unfolding(crate::specs::WordText::word_op_text))]
pub(crate) fn put_op(out: &mut Vec<u8>, lanes: u64, note: &Note, op: &Op) -> Result<(), AllocError>
    requires lanes { lanes ≤ 16 }
    requires tile { IsTrue (is_tile_small (plain_op op.now)) }
    ensures { OnOk result (out.new.items ≡ out.old.items
        ++ word_op_text lanes (plain_note note.now) (plain_op op.now)) }
{
    match op {
        Op::Load {
            register,
            array,
            place,
        } => put_load(out, *register, *array, place),
        Op::Store {
            array,
            place,
            register,
        } => put_store(out, *array, place, *register),
        Op::Zero { register } => put_zero(out, *register),
        Op::Add {
            register,
            left,
            right,
        } => put_add(out, *register, *left, *right),
        Op::Sub {
            register,
            left,
            right,
        } => put_sub(out, *register, *left, *right, note.bias),
        Op::Neg { register, source } => put_negative(out, *register, *source, note.bias),
        Op::MulConst {
            register,
            source,
            factor,
        } => put_const_product(out, *register, *source, *factor, note.quotient),
        Op::MulTable {
            register,
            source,
            table,
            place,
            step,
        } => put_table_product(out, *register, *source, *table, place, *step),
        Op::Tile { register, source } => put_tile(out, lanes, *register, *source),
    }
}
