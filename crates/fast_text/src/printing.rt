// The C text of a program on words.

ghost use Rattle.std.specs.Prelude.{◌≡◌, ◌++◌, ◌+◌, ◌<◌, ◌≤◌, IsTrue, IfOk, OnOk};
ghost use Rattle.icode.specs.Limits.{IsHeaderWithin};
ghost use Rattle.icode.specs.Plain.{plain_tables};
ghost use Rattle.listing_text.specs.Wording.{header_of};
ghost use Rattle.word_code.specs.Views.{plain_word_stmt, plain_word_body, plain_word_phases, plain_word_program};
ghost use Rattle.fast_text.specs.WordText.{loop_text, word_stmt_text, word_body_text, word_header_text, word_table_text, word_tables_text, declared_text, word_phase_text, all_phases_text, front_text, arrays_and_phases_text, named_function_text, macros_text, named_header_text, named_product_text, named_product_header_text, words_text};
ghost use Rattle.fast_text.specs.FunctionText.{each_from};
ghost use Rattle.fast_text.specs.TextForm.{text_form};
ghost use Rattle.fast_text.specs.WordNests.{is_word_nest_within, are_word_nests_within, are_word_phases_within};
ghost use Rattle.fast_text.specs.WordTexts.{IsSpellable, IsReadAs};

use crate::first_values::{put_callers_first_values, put_own_first_values};
use crate::form::Form;
use crate::front::{put_arrays, put_functions, put_sizes};
use crate::function::{put_functions_to_link, static_phase};
use crate::header::{in_capitals, put_counts, put_guard, put_lengths, put_line_bytes, put_linked};
use crate::operations::{put_op, put_reductions};
use crate::products::{
    put_linked_product, put_product_function, put_product_guard, put_product_macros, put_products,
};
use listing_text::{Header, array_words, put_header, put_numbered, put_word};
use memory::NoMemory;
use std::alloc::{AllocError, Global};
use word_code::program::{WordProgram, WordStmt};

#[tactic(auto, unfolding(crate::specs::WordText::loop_text))]
fn put_loop(out: &mut Vec<u8>, depth: u64, count: u64) -> Result<(), AllocError>
    ensures { OnOk result (out.new.items ≡ out.old.items ++ loop_text depth count) }
{
    put_numbered(out, b"for (uint64_t v", depth, b" = 0; v")?;
    put_numbered(out, b"", depth, b" < ")?;
    put_numbered(out, b"", count, b"; v")?;
    put_numbered(out, b"", depth, b"++) {\n")
}

// A statement inside `depth` loops.
fn put_stmt(out: &mut Vec<u8>, lanes: u64, stmt: &WordStmt, depth: u64) -> Result<(), AllocError>
    requires lanes { lanes ≤ 16 }
    requires nests { IsTrue (is_word_nest_within (plain_word_stmt stmt.now) depth) }
    ensures { OnOk result (out.new.items ≡ out.old.items
        ++ word_stmt_text lanes depth (plain_word_stmt stmt.now)) }
{
    match stmt {
        WordStmt::Loop { count, body } => {
            put_loop(out, depth, *count)?;
            for inner in body {
                put_stmt(out, lanes, inner, depth + 1)?;
            }
            put_word(out, b"}\n")
        }
        WordStmt::Do { note, op } => {
            put_reductions(out, &note.before)?;
            put_op(out, lanes, note, op)
        }
    }
}

fn put_body(out: &mut Vec<u8>, lanes: u64, body: &[WordStmt]) -> Result<(), AllocError>
    requires lanes { lanes ≤ 16 }
    requires nests { IsTrue (are_word_nests_within (plain_word_body body.now) 0) }
    ensures { OnOk result (out.new.items ≡ out.old.items
        ++ word_body_text lanes 0 (plain_word_body body.now)) }
{
    for stmt in body {
        put_stmt(out, lanes, stmt, 0)?;
    }
    Ok(())
}

fn header_of(program: &WordProgram) -> Header
    ensures { result ≡ header_of (plain_word_program program.now).frame }
{
    Header {
        size: program.size,
        modulus: program.modulus,
        procs: program.procs,
        line: program.line,
        lanes: program.lanes,
        regs: program.regs,
    }
}

fn put_first(out: &mut Vec<u8>, program: &WordProgram) -> Result<(), AllocError>
    ensures { OnOk result (out.new.items ≡ out.old.items
        ++ word_header_text (plain_word_program program.now)) }
{
    put_word(out, b"/* ")?;
    put_header(out, &header_of(program))?;
    put_word(out, b" */\n")
}

#[tactic(auto, unfolding(crate::specs::WordText::word_table_text))]
fn put_table(out: &mut Vec<u8>, name: &[u8], number: u64, entries: &[u64]) -> Result<(), AllocError>
    ensures { OnOk result (out.new.items ≡ out.old.items
        ++ word_table_text name.now number entries.now) }
{
    put_word(out, b"static const word ")?;
    put_numbered(out, name, number, b"[] = {")?;
    for entry in entries {
        put_numbered(out, b"", *entry, b"ULL,")?;
    }
    put_word(out, b"};\n")
}

fn put_tables(out: &mut Vec<u8>, name: &[u8], tables: &[Vec<u64>]) -> Result<(), AllocError>
    ensures { OnOk result (out.new.items ≡ out.old.items
        ++ word_tables_text name.now 0 (plain_tables tables.now)) }
{
    for (number, entries) in tables.iter().enumerate() {
        put_table(out, name, number as u64, entries)?;
    }
    Ok(())
}

fn put_register(out: &mut Vec<u8>, register: u64) -> Result<(), AllocError>
    ensures { OnOk result (out.new.items ≡ out.old.items ++ declared_text register) }
{
    put_numbered(out, b"vec r", register, b" = splat(0); ")?;
    put_numbered(out, b"(void)r", register, b";\n")
}

fn put_registers(out: &mut Vec<u8>, count: u64) -> Result<(), AllocError>
    ensures { OnOk result (out.new.items ≡ out.old.items ++ each_from declared_text count 0) }
{
    for register in 0..count {
        put_register(out, register)?;
    }
    Ok(())
}

// What a phase does.
fn put_phase(out: &mut Vec<u8>, lanes: u64, regs: u64, body: &[WordStmt]) -> Result<(), AllocError>
    requires lanes { lanes ≤ 16 }
    requires nests { IsTrue (are_word_nests_within (plain_word_body body.now) 0) }
    ensures { OnOk result (out.new.items ≡ out.old.items
        ++ word_phase_text lanes regs (plain_word_body body.now)) }
{
    put_registers(out, regs)?;
    put_body(out, lanes, body)?;
    put_word(out, b"}\n")
}

// The phases, each with a text before its number and one after it.
fn put_phases(
    out: &mut Vec<u8>,
    before: &[u8],
    behind: &[u8],
    program: &WordProgram,
) -> Result<(), AllocError>
    requires lanes { program.now.lanes ≤ 16 }
    requires nests { IsTrue (are_word_phases_within (plain_word_phases program.now.phases.items)) }
    ensures { OnOk result (out.new.items ≡ out.old.items
        ++ all_phases_text before.now behind.now (plain_word_program program.now)) }
{
    for (number, body) in program.phases.iter().enumerate() {
        put_numbered(out, before, number as u64, behind)?;
        put_phase(out, program.lanes, program.regs, body)?;
    }
    Ok(())
}

// What stands before the arrays and the phases.
fn put_front(out: &mut Vec<u8>, program: &WordProgram) -> Result<(), AllocError>
    ensures { OnOk result (out.new.items ≡ out.old.items
        ++ front_text (plain_word_program program.now)) }
{
    put_first(out, program)?;
    put_sizes(
        out,
        program.half,
        program.rough,
        program.modulus,
        program.lanes,
    )?;
    put_functions(out)?;
    put_tables(out, b"t", &program.tables)?;
    put_tables(out, b"u", &program.quotients)
}

// Arrays, and a function for each phase.
fn print_arrays(alloc: Global, fresh: bool, program: &WordProgram) -> Result<Vec<u8>, NoMemory>
    requires header { IsHeaderWithin program.now.size program.now.modulus program.now.procs
        program.now.line program.now.lanes program.now.regs }
    requires nests { IsTrue (are_word_phases_within (plain_word_phases program.now.phases.items)) }
    ensures { IfOk result
        (λ text. text.items ≡ arrays_and_phases_text fresh (plain_word_program program.now)) }
{
    let mut out = Vec::new(alloc);
    put_front(&mut out, program)?;
    put_own_first_values(&mut out, fresh)?;
    put_arrays(&mut out, array_words(program.size, program.line))?;
    put_phases(
        &mut out,
        b"void phase",
        b"(uint64_t q) {\n(void)q;\n",
        program,
    )?;
    Ok(out)
}

// A function to link.
fn print_function(
    alloc: Global,
    name: &[u8],
    fresh: bool,
    program: &WordProgram,
) -> Result<Vec<u8>, NoMemory>
    requires header { IsHeaderWithin program.now.size program.now.modulus program.now.procs
        program.now.line program.now.lanes program.now.regs }
    requires nests { IsTrue (are_word_phases_within (plain_word_phases program.now.phases.items)) }
    ensures { IfOk result
        (λ text. text.items ≡ named_function_text name.now fresh (plain_word_program program.now)) }
{
    let mut out = Vec::new(alloc);
    put_front(&mut out, program)?;
    let static_phase = static_phase(alloc, name)?;
    put_phases(
        &mut out,
        &static_phase,
        b"(uint64_t q, const word *restrict X, word *restrict Y, word *restrict A, word *restrict B) {
(void)q; (void)X; (void)Y; (void)A; (void)B;
",
        program,
    )?;
    put_callers_first_values(&mut out, fresh)?;
    let words = array_words(program.size, program.line);
    let phases = program.phases.len() as u64;
    put_functions_to_link(&mut out, name, words, program.procs, phases)?;
    Ok(out)
}

// The sizes and counts of a function as macros.
fn put_macros(out: &mut Vec<u8>, capitals: &[u8], program: &WordProgram) -> Result<(), AllocError>
    requires header { IsHeaderWithin program.now.size program.now.modulus program.now.procs
        program.now.line program.now.lanes program.now.regs }
    ensures { OnOk result (out.new.items ≡ out.old.items
        ++ macros_text capitals.now (plain_word_program program.now)) }
{
    let words = array_words(program.size, program.line);
    let phases = program.phases.len() as u64;
    put_lengths(out, capitals, program.size, words)?;
    put_line_bytes(out, capitals, program.line, program.half)?;
    put_counts(out, capitals, program.modulus, program.procs, phases)
}

// The header of a function to link.
fn print_header(
    alloc: Global,
    name: &[u8],
    fresh: bool,
    program: &WordProgram,
) -> Result<Vec<u8>, NoMemory>
    requires header { IsHeaderWithin program.now.size program.now.modulus program.now.procs
        program.now.line program.now.lanes program.now.regs }
    ensures { IfOk result
        (λ text. text.items ≡ named_header_text name.now fresh (plain_word_program program.now)) }
{
    let mut out = Vec::new(alloc);
    let capitals = in_capitals(alloc, name)?;
    put_first(&mut out, program)?;
    put_guard(&mut out, &capitals)?;
    put_macros(&mut out, &capitals, program)?;
    put_callers_first_values(&mut out, fresh)?;
    put_linked(&mut out, &capitals, name, program.half)?;
    Ok(out)
}

// The function that multiplies vectors place by place.
fn print_product(alloc: Global, name: &[u8], program: &WordProgram) -> Result<Vec<u8>, NoMemory>
    ensures { IfOk result
        (λ text. text.items ≡ named_product_text name.now (plain_word_program program.now)) }
{
    let mut out = Vec::new(alloc);
    put_first(&mut out, program)?;
    put_sizes(
        &mut out,
        program.half,
        program.rough,
        program.modulus,
        program.lanes,
    )?;
    put_functions(&mut out)?;
    put_products(&mut out)?;
    put_product_function(&mut out, name, program.size)?;
    Ok(out)
}

// The header of that function.
fn print_product_header(
    alloc: Global,
    name: &[u8],
    program: &WordProgram,
) -> Result<Vec<u8>, NoMemory>
    ensures { IfOk result
        (λ text. text.items ≡ named_product_header_text name.now (plain_word_program program.now)) }
{
    let mut out = Vec::new(alloc);
    let capitals = in_capitals(alloc, name)?;
    put_first(&mut out, program)?;
    put_product_guard(&mut out, &capitals)?;
    put_product_macros(&mut out, &capitals, program.size, program.modulus)?;
    put_linked_product(&mut out, &capitals, name, program.half)?;
    Ok(out)
}

// The text of this form.
fn text_of(
    alloc: Global,
    form: Form<'_>,
    fresh: bool,
    program: &WordProgram,
) -> Result<Vec<u8>, NoMemory>
    requires header { IsHeaderWithin program.now.size program.now.modulus program.now.procs
        program.now.line program.now.lanes program.now.regs }
    requires nests { IsTrue (are_word_phases_within (plain_word_phases program.now.phases.items)) }
    ensures { IfOk result
        (λ text. text.items ≡ words_text (text_form form.entry) fresh (plain_word_program program.now)) }
{
    match form {
        Form::Arrays => print_arrays(alloc, fresh, program),
        Form::Function { name } => print_function(alloc, name.as_bytes(), fresh, program),
        Form::Header { name } => print_header(alloc, name.as_bytes(), fresh, program),
        Form::Product { name } => print_product(alloc, name.as_bytes(), program),
        Form::ProductHeader { name } => print_product_header(alloc, name.as_bytes(), program),
    }
}

/// The C text of a program on words. Where it has statements, it is read as that program. It says what arrays have to hold
/// where a run begins: any words, of a program that is fresh.
pub fn print_words(
    alloc: Global,
    form: Form<'_>,
    fresh: bool,
    program: &WordProgram,
) -> Result<Vec<u8>, NoMemory>
    requires { IsSpellable (plain_word_program program.now) }
    ensures text { IfOk result
        (λ text. text.items ≡ words_text (text_form form.entry) fresh (plain_word_program program.now)) }
    ensures read_back { IfOk result
        (λ text. IsReadAs (text_form form.entry) fresh text.items (plain_word_program program.now)) }
{
    let text = text_of(alloc, form, fresh, program)?;
    Ok(text)
}
