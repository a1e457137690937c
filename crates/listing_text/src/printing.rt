ghost use Rattle.std.specs.Prelude.{◌≡◌, ◌++◌, ℕ, IfOk, OnOk, codes, decimal};
ghost use Rattle.icode.specs.Plain.{Load, Store, MulConst, MulTable, plain_expr, plain_part, plain_op};
ghost use Rattle.listing_text.specs.Listing.{sum_text, sum_with, part_with, array_text, op_text, header_text, listing_wording, listing_of};
ghost use Rattle.icode.specs.Program.{plain_program};
ghost use Rattle.listing_text.specs.Texts.{is_listing};
ghost use Rattle.listing_text.specs.ListingGrammar.{listing_grammar};

use crate::acts::{Act, read_act};
use crate::draft::Header;
use crate::drafts::{read_header, read_table};
use crate::language::{Language, print};
use crate::pieces::{put, put_numbered, put_numbers};
use grammar::{ReadError, Stuck};
use icode::program::{Array, Expr, Op, Part, Program};
use memory::NoMemory;
use std::alloc::{AllocError, Global};

/// Writes a place, with a mark after each constant.
#[cycle(printing)]
pub fn put_sum(out: &mut Vec<u8>, place: &Expr, mark: &[u8]) -> Result<(), AllocError>
    ensures { OnOk result (out.new.items
        ≡ out.old.items ++ sum_with mark.now (plain_expr place.now)) }
{
    put_numbered(out, b"", place.constant, mark)?;
    for part in &place.parts {
        put_part(out, part, mark)?;
    }
    Ok(())
}

#[cycle(printing)]
fn put_part(out: &mut Vec<u8>, part: &Part, mark: &[u8]) -> Result<(), AllocError>
    ensures { OnOk result (out.new.items
        ≡ out.old.items ++ part_with mark.now (plain_part part.now)) }
{
    match part {
        Part::Proc { factor } => put(out, b"+q*", *factor),
        Part::Var { depth, factor } => {
            put(out, b"+v", *depth)?;
            put(out, b"*", *factor)
        }
        Part::Product {
            outer,
            inner,
            factor,
        } => put_numbers(out, &[(b"+v", *outer), (b"*v", *inner), (b"*", *factor)]),
        Part::Rem {
            of,
            divisor,
            factor,
        } => {
            out.extend_from_slice(b"+(")?;
            put_sum(out, of, mark)?;
            put_numbers(out, &[(b")%", *divisor), (b"*", *factor)])
        }
        Part::Quot {
            of,
            divisor,
            factor,
        } => {
            out.extend_from_slice(b"+(")?;
            put_sum(out, of, mark)?;
            put_numbers(out, &[(b")/", *divisor), (b"*", *factor)])
        }
    }
}

/// Writes a place.
pub fn put_expr(out: &mut Vec<u8>, place: &Expr) -> Result<(), AllocError>
    ensures { OnOk result (out.new.items ≡ out.old.items ++ sum_text (plain_expr place.now)) }
{
    put_sum(out, place, b"")
}

/// Writes the letter of an array.
pub fn put_array(out: &mut Vec<u8>, array: Array) -> Result<(), AllocError>
    ensures { OnOk result (out.new.items ≡ out.old.items ++ array_text array) }
{
    match array {
        Array::X => out.extend_from_slice(b"X"),
        Array::Y => out.extend_from_slice(b"Y"),
        Array::A => out.extend_from_slice(b"A"),
        Array::B => out.extend_from_slice(b"B"),
    }
}

fn put_place(out: &mut Vec<u8>, array: Array, place: &Expr) -> Result<(), AllocError>
    ensures { OnOk result (out.new.items ≡ out.old.items ++ array_text array ++ codes "["
        ++ sum_text (plain_expr place.now) ++ codes "]") }
{
    put_array(out, array)?;
    out.extend_from_slice(b"[")?;
    put_expr(out, place)?;
    out.extend_from_slice(b"]")
}

// An operation on one register.
fn put_unary(out: &mut Vec<u8>, word: &[u8], register: u64, source: u64) -> Result<(), AllocError>
    ensures { OnOk result (out.new.items
        ≡ out.old.items ++ (word.now ++ decimal register ++ codes " r" ++ decimal source)) }
{
    put(out, word, register)?;
    put(out, b" r", source)
}

// An operation on two registers.
fn put_binary(
    out: &mut Vec<u8>,
    word: &[u8],
    register: u64,
    left: u64,
    right: u64,
) -> Result<(), AllocError>
    ensures { OnOk result (out.new.items ≡ out.old.items ++ (word.now ++ decimal register
        ++ codes " r" ++ decimal left ++ codes " r" ++ decimal right)) }
{
    put_numbers(out, &[(word, register), (b" r", left), (b" r", right)])
}

fn put_load(out: &mut Vec<u8>, register: u64, array: Array, place: &Expr) -> Result<(), AllocError>
    ensures { OnOk result (out.new.items
        ≡ out.old.items ++ op_text (Load register array (plain_expr place.now))) }
{
    put(out, b"ld r", register)?;
    out.extend_from_slice(b" ")?;
    put_place(out, array, place)
}

fn put_store(out: &mut Vec<u8>, array: Array, place: &Expr, register: u64) -> Result<(), AllocError>
    ensures { OnOk result (out.new.items
        ≡ out.old.items ++ op_text (Store array (plain_expr place.now) register)) }
{
    out.extend_from_slice(b"st ")?;
    put_place(out, array, place)?;
    put(out, b" r", register)
}

// A product by the same factor on all lanes.
fn put_const_product(
    out: &mut Vec<u8>,
    register: u64,
    source: u64,
    factor: u64,
) -> Result<(), AllocError>
    ensures { OnOk result (out.new.items
        ≡ out.old.items ++ op_text (MulConst register source factor)) }
{
    put_numbers(
        out,
        &[(b"mul r", register), (b" r", source), (b" ", factor)],
    )
}

// A product by entries of a table.
fn put_table_product(
    out: &mut Vec<u8>,
    register: u64,
    source: u64,
    table: u64,
    place: &Expr,
    step: u64,
) -> Result<(), AllocError>
    ensures { OnOk result (out.new.items
        ≡ out.old.items ++ op_text (MulTable register source table (plain_expr place.now) step)) }
{
    put_numbers(
        out,
        &[(b"mul r", register), (b" r", source), (b" t", table)],
    )?;
    out.extend_from_slice(b"[")?;
    put_expr(out, place)?;
    put(out, b"] step ", step)
}

fn put_op(out: &mut Vec<u8>, op: &Op) -> Result<(), AllocError>
    ensures { OnOk result (out.new.items ≡ out.old.items ++ op_text (plain_op op.now)) }
{
    match op {
        Op::Load {
            register,
            array,
            place,
        } => put_load(out, *register, *array, place),
        Op::Store {
            array,
            place,
            register,
        } => put_store(out, *array, place, *register),
        Op::Zero { register } => put(out, b"zero r", *register),
        Op::Add {
            register,
            left,
            right,
        } => put_binary(out, b"add r", *register, *left, *right),
        Op::Sub {
            register,
            left,
            right,
        } => put_binary(out, b"sub r", *register, *left, *right),
        Op::Neg { register, source } => put_unary(out, b"neg r", *register, *source),
        Op::MulConst {
            register,
            source,
            factor,
        } => put_const_product(out, *register, *source, *factor),
        Op::MulTable {
            register,
            source,
            table,
            place,
            step,
        } => put_table_product(out, *register, *source, *table, place, *step),
        Op::Tile { register, source } => put_unary(out, b"tile r", *register, *source),
    }
}

/// Writes the header, without its line's end.
pub fn put_header(out: &mut Vec<u8>, header: &Header) -> Result<(), AllocError>
    ensures { OnOk result (out.new.items
        ≡ out.old.items ++ header_text header.now) }
{
    put_numbers(
        out,
        &[
            (b"program size ", header.size),
            (b" mod ", header.modulus),
            (b" procs ", header.procs),
            (b" line ", header.line),
            (b" lanes ", header.lanes),
            (b" regs ", header.regs),
        ],
    )
}

/// The words of listings.
pub struct Listing;

impl Language for Listing {
    ghost wording = { listing_wording };

    ghost grammar = { listing_grammar };

    fn put_first(out: &mut Vec<u8>, header: &Header) -> Result<(), AllocError> {
        put_header(out, header)?;
        out.extend_from_slice(b"\n")
    }

    fn put_front(_out: &mut Vec<u8>, _header: &Header) -> Result<(), AllocError> {
        Ok(())
    }

    fn put_table(out: &mut Vec<u8>, number: u64, entries: &[u64]) -> Result<(), AllocError> {
        put(out, b"table ", number)?;
        out.extend_from_slice(b" values")?;
        for entry in entries {
            put(out, b" ", *entry)?;
        }
        out.extend_from_slice(b"\n")
    }

    fn put_between(_out: &mut Vec<u8>) -> Result<(), AllocError> {
        Ok(())
    }

    fn put_phase(out: &mut Vec<u8>, _regs: u64, _number: u64) -> Result<(), AllocError> {
        out.extend_from_slice(b"phase\n")
    }

    fn put_loop(out: &mut Vec<u8>, depth: u64, count: u64) -> Result<(), AllocError> {
        put(out, b"for v", depth)?;
        put(out, b" ", count)?;
        out.extend_from_slice(b"\n")
    }

    fn put_end(out: &mut Vec<u8>) -> Result<(), AllocError> {
        out.extend_from_slice(b"end\n")
    }

    fn put_op(out: &mut Vec<u8>, op: &Op) -> Result<(), AllocError> {
        put_op(out, op)?;
        out.extend_from_slice(b"\n")
    }

    fn read_header(line: &[u8]) -> Result<Header, Stuck> {
        read_header(line, b"program size ", b"\n")
    }

    fn read_table(alloc: Global, line: &[u8]) -> Result<(u64, Vec<u64>), ReadError> {
        read_table(alloc, line)
    }

    fn read_act(alloc: Global, line: &[u8]) -> Result<Act, ReadError> {
        read_act(alloc, line)
    }
}

/// The listing of a program.
pub fn print_listing(alloc: Global, program: &Program) -> Result<Vec<u8>, NoMemory>
    ensures text { IfOk result (λ text. text.items ≡ listing_of (plain_program program.now)) }
    ensures listing { IfOk result (λ text. is_listing text.items (plain_program program.now)) }
{
    print::<Listing>(alloc, program)
}
