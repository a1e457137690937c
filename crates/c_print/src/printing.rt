ghost use Rattle.std.specs.Prelude.{◌≡◌, ◌++◌, ◌+◌, ◌*◌, ◌<◌, ◌^◌, ℕ, IfOk, OnOk, codes, decimal};
ghost use Rattle.icode.specs.Plain.{Zero, Neg, MulConst, Tile, plain_expr, plain_op};
ghost use Rattle.icode.specs.Program.{plain_program};
ghost use Rattle.listing_text.specs.Listing.{array_text, sum_text};
ghost use Rattle.c_print.specs.CGrammar.{c_grammar};
ghost use Rattle.c_print.specs.CText.{lane_loop, tile_loops, lane_text, becomes_text, c_op_text, front_text, joined_text, add_text, sub_text, mul_text, c_wording, c_text_of};
ghost use Rattle.c_print.specs.CTexts.{is_c_text};

use crate::header::read_c_header;
use crate::lines::read_c_line;
use crate::tables::read_c_table;
use grammar::{ReadError, Stuck};
use icode::program::{Array, Expr, Op, Program};
use listing_text::{
    Act, Header, Language, array_words, print, put, put_array, put_expr, put_header, put_numbered,
    put_word,
};
use memory::NoMemory;
use std::alloc::{AllocError, Global};

#[tactic(auto, unfolding(crate::specs::CText::lane_loop))]
fn put_lane_loop(out: &mut Vec<u8>) -> Result<(), AllocError>
    ensures { OnOk result (out.new.items ≡ out.old.items ++ lane_loop) }
{
    out.extend_from_slice(b"for (int l = 0; l < V; l++) ")
}

#[tactic(auto, unfolding(crate::specs::CText::tile_loops))]
fn put_tile_loops(out: &mut Vec<u8>) -> Result<(), AllocError>
    ensures { OnOk result (out.new.items ≡ out.old.items ++ tile_loops) }
{
    out.extend_from_slice(b"for (int k = 0; k < V; k++) for (int l = 0; l < V; l++) ")
}

// Lane l of a register.
fn put_lane(out: &mut Vec<u8>, register: u64) -> Result<(), AllocError>
    ensures { OnOk result (out.new.items ≡ out.old.items ++ lane_text register) }
{
    put(out, b"r[", register)?;
    out.extend_from_slice(b"][l]")
}

fn put_becomes(out: &mut Vec<u8>, register: u64) -> Result<(), AllocError>
    ensures { OnOk result (out.new.items ≡ out.old.items ++ becomes_text register) }
{
    put_lane_loop(out)?;
    put_lane(out, register)?;
    out.extend_from_slice(b" = ")
}

fn put_load(out: &mut Vec<u8>, register: u64, array: Array, place: &Expr) -> Result<(), AllocError>
    ensures { OnOk result (out.new.items ≡ out.old.items ++ (becomes_text register
        ++ array_text array ++ codes "[" ++ sum_text (plain_expr place.now) ++ codes " + l];")) }
{
    put_becomes(out, register)?;
    put_array(out, array)?;
    out.extend_from_slice(b"[")?;
    put_expr(out, place)?;
    out.extend_from_slice(b" + l];")
}

fn put_store(out: &mut Vec<u8>, array: Array, place: &Expr, register: u64) -> Result<(), AllocError>
    ensures { OnOk result (out.new.items ≡ out.old.items
        ++ (lane_loop ++ array_text array ++ codes "[" ++ sum_text (plain_expr place.now)
        ++ codes " + l] = " ++ lane_text register ++ codes ";")) }
{
    put_lane_loop(out)?;
    put_array(out, array)?;
    out.extend_from_slice(b"[")?;
    put_expr(out, place)?;
    out.extend_from_slice(b" + l] = ")?;
    put_lane(out, register)?;
    out.extend_from_slice(b";")
}

// A function of two registers.
fn put_call(
    out: &mut Vec<u8>,
    register: u64,
    function: &[u8],
    left: u64,
    right: u64,
) -> Result<(), AllocError>
    ensures { OnOk result (out.new.items ≡ out.old.items ++ (becomes_text register ++ function.now
        ++ lane_text left ++ codes ", " ++ lane_text right ++ codes ");")) }
{
    put_becomes(out, register)?;
    out.extend_from_slice(function)?;
    put_lane(out, left)?;
    out.extend_from_slice(b", ")?;
    put_lane(out, right)?;
    out.extend_from_slice(b");")
}

fn put_table_product(
    out: &mut Vec<u8>,
    register: u64,
    source: u64,
    table: u64,
    place: &Expr,
    step: u64,
) -> Result<(), AllocError>
    ensures { OnOk result (out.new.items ≡ out.old.items ++ (becomes_text register ++ codes "mul("
        ++ lane_text source ++ codes ", t" ++ decimal table ++ codes "["
        ++ sum_text (plain_expr place.now) ++ codes " + " ++ decimal step ++ codes " * l]);")) }
{
    put_becomes(out, register)?;
    out.extend_from_slice(b"mul(")?;
    put_lane(out, source)?;
    put(out, b", t", table)?;
    out.extend_from_slice(b"[")?;
    put_expr(out, place)?;
    put(out, b" + ", step)?;
    out.extend_from_slice(b" * l]);")
}

#[tactic(auto, unfolding(crate::specs::CText::c_op_text))]
fn put_zero(out: &mut Vec<u8>, register: u64) -> Result<(), AllocError>
    ensures { OnOk result (out.new.items ≡ out.old.items ++ c_op_text (Zero register)) }
{
    put_becomes(out, register)?;
    out.extend_from_slice(b"0;")
}

#[tactic(auto, unfolding(crate::specs::CText::c_op_text))]
fn put_negative(out: &mut Vec<u8>, register: u64, source: u64) -> Result<(), AllocError>
    ensures { OnOk result (out.new.items ≡ out.old.items ++ c_op_text (Neg register source)) }
{
    put_becomes(out, register)?;
    out.extend_from_slice(b"sub(0, ")?;
    put_lane(out, source)?;
    out.extend_from_slice(b");")
}

// A product by the same factor on all lanes.
#[tactic(auto, unfolding(crate::specs::CText::c_op_text))]
fn put_const_product(
    out: &mut Vec<u8>,
    register: u64,
    source: u64,
    factor: u64,
) -> Result<(), AllocError>
    ensures { OnOk result (out.new.items
        ≡ out.old.items ++ c_op_text (MulConst register source factor)) }
{
    put_becomes(out, register)?;
    out.extend_from_slice(b"mul(")?;
    put_lane(out, source)?;
    put(out, b", ", factor)?;
    out.extend_from_slice(b");")
}

#[tactic(auto, unfolding(crate::specs::CText::c_op_text))]
fn put_tile(out: &mut Vec<u8>, register: u64, source: u64) -> Result<(), AllocError>
    ensures { OnOk result (out.new.items ≡ out.old.items ++ c_op_text (Tile register source)) }
{
    put_tile_loops(out)?;
    put(out, b"r[", register)?;
    put(out, b" + k][l] = r[", source)?;
    out.extend_from_slice(b" + l][k];")
}

#[tactic(auto, unfolding(crate::specs::CText::c_op_text))]
fn put_op(out: &mut Vec<u8>, op: &Op) -> Result<(), AllocError>
    ensures { OnOk result (out.new.items ≡ out.old.items ++ c_op_text (plain_op op.now)) }
{
    match op {
        Op::Load {
            register,
            array,
            place,
        } => put_load(out, *register, *array, place),
        Op::Store {
            array,
            place,
            register,
        } => put_store(out, *array, place, *register),
        Op::Zero { register } => put_zero(out, *register),
        Op::Add {
            register,
            left,
            right,
        } => put_call(out, *register, b"add(", *left, *right),
        Op::Sub {
            register,
            left,
            right,
        } => put_call(out, *register, b"sub(", *left, *right),
        Op::Neg { register, source } => put_negative(out, *register, *source),
        Op::MulConst {
            register,
            source,
            factor,
        } => put_const_product(out, *register, *source, *factor),
        Op::MulTable {
            register,
            source,
            table,
            place,
            step,
        } => put_table_product(out, *register, *source, *table, place, *step),
        Op::Tile { register, source } => put_tile(out, *register, *source),
    }
}

// What stands between the first line and the tables.
fn put_front(out: &mut Vec<u8>, modulus: u64, lanes: u64, words: u64) -> Result<(), AllocError>
    requires { words < 2 ^ 32 }
    ensures { OnOk result (out.new.items ≡ out.old.items ++ front_text modulus lanes words) }
{
    put_word(out, b"#include <stdint.h>\n")?;
    put_numbered(out, b"#define M ", modulus, b"ULL\n")?;
    put_numbered(out, b"#define V ", lanes, b"\n")?;
    put_word(out, b"#define X (W + 0)\n")?;
    put_numbered(out, b"#define Y (W + ", words, b")\n")?;
    put_numbered(out, b"#define A (W + ", 2 * words, b")\n")?;
    put_numbered(out, b"#define B (W + ", 3 * words, b")\n")?;
    put_numbered(out, b"static uint64_t W[", 4 * words, b"];\n")
}

fn put_joined(out: &mut Vec<u8>, entries: &[u64]) -> Result<(), AllocError>
    ensures { OnOk result (out.new.items ≡ out.old.items ++ joined_text entries.now) }
{
    match entries {
        [] => Ok(()),
        [first, others @ ..] => {
            put(out, b"", *first)?;
            for entry in others {
                put(out, b",", *entry)?;
            }
            Ok(())
        }
    }
}

#[tactic(auto, unfolding(crate::specs::CText::add_text))]
fn put_add(out: &mut Vec<u8>) -> Result<(), AllocError>
    ensures { OnOk result (out.new.items ≡ out.old.items ++ add_text) }
{
    out.extend_from_slice(
        b"static uint64_t add(uint64_t a, uint64_t b) { uint64_t c = a + b; return c >= M ? c - M : c; }\n",
    )
}

#[tactic(auto, unfolding(crate::specs::CText::sub_text))]
fn put_sub(out: &mut Vec<u8>) -> Result<(), AllocError>
    ensures { OnOk result (out.new.items ≡ out.old.items ++ sub_text) }
{
    out.extend_from_slice(
        b"static uint64_t sub(uint64_t a, uint64_t b) { return a >= b ? a - b : a + M - b; }\n",
    )
}

#[tactic(auto, unfolding(crate::specs::CText::mul_text))]
fn put_mul(out: &mut Vec<u8>) -> Result<(), AllocError>
    ensures { OnOk result (out.new.items ≡ out.old.items ++ mul_text) }
{
    out.extend_from_slice(
        b"static uint64_t mul(uint64_t a, uint64_t b) { return (uint64_t)((unsigned __int128)a * b % M); }\n",
    )
}

/// The words of C.
pub struct C;

impl Language for C {
    ghost wording = { c_wording };

    ghost grammar = { c_grammar };

    fn put_first(out: &mut Vec<u8>, header: &Header) -> Result<(), AllocError> {
        put_word(out, b"/* ")?;
        put_header(out, header)?;
        put_word(out, b" */\n")
    }

    fn put_front(out: &mut Vec<u8>, header: &Header) -> Result<(), AllocError> {
        let words = array_words(header.size, header.line);
        put_front(out, header.modulus, header.lanes, words)
    }

    #[tactic(auto, unfolding(crate::specs::CText::c_table_text))]
    fn put_table(out: &mut Vec<u8>, number: u64, entries: &[u64]) -> Result<(), AllocError> {
        put(out, b"static const uint64_t t", number)?;
        put(out, b"[", entries.len() as u64)?;
        put_word(out, b"] = {")?;
        put_joined(out, entries)?;
        put_word(out, b"};\n")
    }

    fn put_between(out: &mut Vec<u8>) -> Result<(), AllocError> {
        put_add(out)?;
        put_sub(out)?;
        put_mul(out)
    }

    fn put_phase(out: &mut Vec<u8>, regs: u64, number: u64) -> Result<(), AllocError> {
        put_numbered(out, b"void phase", number, b"(uint64_t q) {\n")?;
        put_numbered(out, b"uint64_t r[", regs, b"][V];\n")?;
        put_word(out, b"(void)q;\n")
    }

    fn put_loop(out: &mut Vec<u8>, depth: u64, count: u64) -> Result<(), AllocError> {
        put(out, b"for (uint64_t v", depth)?;
        put(out, b" = 0; v", depth)?;
        put(out, b" < ", count)?;
        put(out, b"; v", depth)?;
        put_word(out, b"++) {\n")
    }

    fn put_end(out: &mut Vec<u8>) -> Result<(), AllocError> {
        put_word(out, b"}\n")
    }

    fn put_op(out: &mut Vec<u8>, op: &Op) -> Result<(), AllocError> {
        put_op(out, op)?;
        put_word(out, b"\n")
    }

    fn read_header(line: &[u8]) -> Result<Header, Stuck> {
        read_c_header(line)
    }

    fn read_table(alloc: Global, line: &[u8]) -> Result<(u64, Vec<u64>), ReadError> {
        read_c_table(alloc, line)
    }

    fn read_act(alloc: Global, line: &[u8]) -> Result<Act, ReadError> {
        read_c_line(alloc, line)
    }
}

/// The C text of a program.
pub fn print_c(alloc: Global, program: &Program) -> Result<Vec<u8>, NoMemory>
    ensures text { IfOk result (λ text. text.items ≡ c_text_of (plain_program program.now)) }
    ensures read_back { IfOk result (λ text. is_c_text text.items (plain_program program.now)) }
{
    let text = print::<C>(alloc, program)?;
    // For the proof: a word can count the bytes of a text, and so the entries of a table.
    let _bytes = text.as_slice();
    Ok(text)
}
