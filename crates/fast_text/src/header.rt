// The header of a function to link.

ghost use Rattle.std.specs.Prelude.{◌≡◌, ◌++◌, ◌+◌, ◌*◌, ◌^◌, ◌<◌, IfOk, OnOk, [], ◌∷◌, map};
ghost use Rattle.word_code.specs.Bytes.{bytes_of_word};
ghost use Rattle.fast_text.specs.FunctionText.{capital, macro_text, guard_text, lengths_text, line_bytes_text, counts_text, calls_text, input_asked_text, results_told_text, lines_told_text, asked_text, word_type_text, arrays_asked_text, declared_functions_text, linkage_text};

use listing_text::{put_numbered, put_word};
use memory::NoMemory;
use std::alloc::{AllocError, Global};

fn capital(letter: u8) -> u8
    ensures { result ≡ capital letter }
{
    if 97 <= letter && letter <= 122 {
        letter - 32
    } else {
        letter
    }
}

fn push(out: &mut Vec<u8>, byte: u8) -> Result<(), NoMemory>
    ensures { OnOk result (out.new.items ≡ out.old.items ++ byte ∷ []) }
{
    out.push(byte)?;
    Ok(())
}

/// A name in capitals.
pub(crate) fn in_capitals(alloc: Global, name: &[u8]) -> Result<Vec<u8>, NoMemory>
    ensures { IfOk result (λ text. text.items ≡ map capital name.now) }
{
    let mut text = Vec::new(alloc);
    for letter in name {
        push(&mut text, capital(*letter))?;
    }
    Ok(text)
}

/// Writes a macro of a number, whose name is in capitals and ends with the word.
pub(crate) fn put_macro(
    out: &mut Vec<u8>,
    capitals: &[u8],
    word: &[u8],
    number: u64,
    end: &[u8],
) -> Result<(), AllocError>
    ensures { OnOk result (out.new.items ≡ out.old.items
        ++ macro_text capitals.now word.now number end.now) }
{
    put_word(out, b"#define ")?;
    put_word(out, capitals)?;
    put_numbered(out, word, number, end)
}

/// Writes the lines by which a text has the header once.
pub(crate) fn put_guard(out: &mut Vec<u8>, capitals: &[u8]) -> Result<(), AllocError>
    ensures { OnOk result (out.new.items ≡ out.old.items ++ guard_text capitals.now) }
{
    put_word(out, b"#ifndef ")?;
    put_word(out, capitals)?;
    put_word(out, b"_H\n#define ")?;
    put_word(out, capitals)?;
    put_word(out, b"_H\n#include <stdint.h>\n")
}

/// Writes the size of the vector, and of the arrays.
pub(crate) fn put_lengths(
    out: &mut Vec<u8>,
    capitals: &[u8],
    size: u64,
    words: u64,
) -> Result<(), AllocError>
    requires { words < 2 ^ 32 }
    ensures { OnOk result (out.new.items ≡ out.old.items ++ lengths_text capitals.now size words) }
{
    put_macro(out, capitals, b"_SIZE ", size, b"\n")?;
    put_macro(out, capitals, b"_WORDS ", words, b"\n")?;
    put_macro(out, capitals, b"_WORK ", words + words, b"\n")
}

fn bytes_of_word(half: u64) -> u64
    ensures { result ≡ bytes_of_word half }
{
    match half {
        256 => 2,
        65536 => 4,
        _ => 8,
    }
}

/// Writes how many bytes a line of words has, which have a base with this square root.
pub(crate) fn put_line_bytes(
    out: &mut Vec<u8>,
    capitals: &[u8],
    line: u64,
    half: u64,
) -> Result<(), AllocError>
    requires { line < 2 ^ 32 }
    ensures { OnOk result (out.new.items ≡ out.old.items
        ++ line_bytes_text capitals.now (line * bytes_of_word half)) }
{
    put_macro(
        out,
        capitals,
        b"_LINE_BYTES ",
        line * bytes_of_word(half),
        b"\n",
    )
}

/// Writes the modulus, and how many processors and phases there are.
pub(crate) fn put_counts(
    out: &mut Vec<u8>,
    capitals: &[u8],
    modulus: u64,
    procs: u64,
    phases: u64,
) -> Result<(), AllocError>
    ensures { OnOk result (out.new.items ≡ out.old.items
        ++ counts_text capitals.now modulus procs phases) }
{
    put_macro(out, capitals, b"_MODULUS ", modulus, b"ULL\n")?;
    put_macro(out, capitals, b"_PROCS ", procs, b"\n")?;
    put_macro(out, capitals, b"_PHASES ", phases, b"\n")
}

/// Writes a name, and what comes behind it.
pub(crate) fn put_named(out: &mut Vec<u8>, name: &[u8], text: &[u8]) -> Result<(), AllocError>
    ensures { OnOk result (out.new.items ≡ out.old.items ++ (name.now ++ text.now)) }
{
    put_word(out, name)?;
    put_word(out, text)
}

// The two ways of calling.
fn put_calls(out: &mut Vec<u8>, capitals: &[u8], name: &[u8]) -> Result<(), AllocError>
    ensures { OnOk result (out.new.items ≡ out.old.items ++ calls_text capitals.now name.now) }
{
    put_word(out, b"/* ")?;
    put_named(
        out,
        name,
        b" does all phases, of each phase one processor after another. Threads call ",
    )?;
    put_named(out, name, b"_phase(k, q, ..)\n * for each phase k below ")?;
    put_named(out, capitals, b"_PHASES, with all q below ")?;
    put_named(
        out,
        capitals,
        b"_PROCS at once and a barrier after each k. Both leave the same.\n",
    )
}

// What the input has to be.
fn put_input_asked(out: &mut Vec<u8>, capitals: &[u8]) -> Result<(), AllocError>
    ensures { OnOk result (out.new.items ≡ out.old.items ++ input_asked_text capitals.now) }
{
    put_word(out, b" * in: ")?;
    put_named(out, capitals, b"_WORDS words below ")?;
    put_named(
        out,
        capitals,
        b"_MODULUS, which stay as they are. With -DCHECK the functions stop at a greater one.\n",
    )
}

// What comes out, and where.
fn put_results_told(out: &mut Vec<u8>, capitals: &[u8]) -> Result<(), AllocError>
    ensures { OnOk result (out.new.items ≡ out.old.items ++ results_told_text capitals.now) }
{
    put_word(out, b" * out: ")?;
    put_named(out, capitals, b"_WORDS words. The first ")?;
    put_named(
        out,
        capitals,
        b"_SIZE get the results, in the order of the listing (the natural one for\n * transforms), below ",
    )?;
    put_named(out, capitals, b"_MODULUS.\n * work: ")?;
    put_named(
        out,
        capitals,
        b"_WORK words. No two of the three arrays overlap.\n",
    )
}

// Where lines are those of the listing.
fn put_lines_told(out: &mut Vec<u8>, capitals: &[u8]) -> Result<(), AllocError>
    ensures { OnOk result (out.new.items ≡ out.old.items ++ lines_told_text capitals.now) }
{
    put_word(out, b" * A line has ")?;
    put_named(
        out,
        capitals,
        b"_LINE_BYTES bytes. Where each array begins at a multiple of that, no processor touches a line
 * that another one writes in the phase. Best at multiples of 64 bytes, too. */
",
    )
}

// What is asked of who calls, and what is told.
fn put_asked(out: &mut Vec<u8>, capitals: &[u8], name: &[u8]) -> Result<(), AllocError>
    ensures { OnOk result (out.new.items ≡ out.old.items ++ asked_text capitals.now name.now) }
{
    put_calls(out, capitals, name)?;
    put_input_asked(out, capitals)?;
    put_results_told(out, capitals)?;
    put_lines_told(out, capitals)
}

fn put_arrays_asked(out: &mut Vec<u8>, word: &[u8]) -> Result<(), AllocError>
    ensures { OnOk result (out.new.items ≡ out.old.items ++ arrays_asked_text word.now) }
{
    put_word(out, word)?;
    put_word(out, b" *out, const ")?;
    put_word(out, word)?;
    put_word(out, b" *in, ")?;
    put_word(out, word)?;
    put_word(out, b" *work);\n")
}

fn put_declared(out: &mut Vec<u8>, name: &[u8], word: &[u8]) -> Result<(), AllocError>
    ensures { OnOk result (out.new.items ≡ out.old.items
        ++ declared_functions_text name.now word.now) }
{
    put_word(out, b"void ")?;
    put_word(out, name)?;
    put_word(out, b"(")?;
    put_arrays_asked(out, word)?;
    put_word(out, b"void ")?;
    put_word(out, name)?;
    put_word(out, b"_phase(uint64_t k, uint64_t q, ")?;
    put_arrays_asked(out, word)
}

// The functions over words of a type, and what is asked of their arrays.
fn put_functions_of(
    out: &mut Vec<u8>,
    capitals: &[u8],
    name: &[u8],
    word: &[u8],
) -> Result<(), AllocError>
    ensures { OnOk result (out.new.items ≡ out.old.items
        ++ linkage_text (asked_text capitals.now name.now ++ declared_functions_text name.now word.now)) }
{
    put_word(out, b"#ifdef __cplusplus\nextern \"C\" {\n#endif\n")?;
    put_asked(out, capitals, name)?;
    put_declared(out, name, word)?;
    put_word(out, b"#ifdef __cplusplus\n}\n#endif\n#endif\n")
}

/// The type of words that have a base with this square root.
pub(crate) fn word_type(half: u64) -> &'static str
    ensures { result.now ≡ word_type_text half }
{
    match half {
        256 => "uint16_t",
        65536 => "uint32_t",
        _ => "uint64_t",
    }
}

/// Writes the functions over words that have a base with this square root.
pub(crate) fn put_linked(
    out: &mut Vec<u8>,
    capitals: &[u8],
    name: &[u8],
    half: u64,
) -> Result<(), AllocError>
    ensures { OnOk result (out.new.items ≡ out.old.items ++ linkage_text
        (asked_text capitals.now name.now
        ++ declared_functions_text name.now (word_type_text half))) }
{
    let word = word_type(half);
    put_functions_of(out, capitals, name, word.as_bytes())
}
