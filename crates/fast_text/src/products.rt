// Products of residues, place by place: a function to link by itself, and its header. Each half of a product is
// multiplied by a factor that is known, the high half by the base modulo M and the low half by 1, so that the
// products of the preamble make a residue of it.

ghost use Rattle.std.specs.Prelude.{◌≡◌, ◌++◌, OnOk};
ghost use Rattle.fast_text.specs.FunctionText.{linkage_text, word_type_text};
ghost use Rattle.fast_text.specs.ProductText.{halves_text, one_lane_halves_text, part_halves_of_52_text};
ghost use Rattle.fast_text.specs.ProductText.{part_halves_text, lane_halves_text, times_text, products_text};
ghost use Rattle.fast_text.specs.ProductText.{factors_check_text, each_product_text, product_function_text};
ghost use Rattle.fast_text.specs.ProductText.{product_asked_text, declared_product_text, product_guard_text};
ghost use Rattle.fast_text.specs.ProductText.{product_macros_text};

use crate::header::{put_macro, put_named, word_type};
use listing_text::{put_numbered, put_word};
use std::alloc::AllocError;

// The high and the low half of a product of two words, of which neither has a quotient.
#[tactic(auto, unfolding(crate::specs::ProductText::halves_text))]
fn put_halves(out: &mut Vec<u8>) -> Result<(), AllocError>
    ensures { OnOk result (out.new.items ≡ out.old.items ++ halves_text) }
{
    out.extend_from_slice(
        b"INLINE word high_half(word a, word b) {
#if HALF == 4294967296
return (unsigned __int128)a * b >> 64;
#else
return high(a, b);
#endif
}
INLINE word low_half(word a, word b) {
#if HALF == 67108864
return a * b & LOW52;
#else
return 1u * a * b;
#endif
}
",
    )
}

// Of registers of one lane.
#[tactic(auto, unfolding(crate::specs::ProductText::one_lane_halves_text))]
fn put_one_lane_halves(out: &mut Vec<u8>) -> Result<(), AllocError>
    ensures { OnOk result (out.new.items ≡ out.old.items ++ one_lane_halves_text) }
{
    out.extend_from_slice(
        b"#if V == 1
INLINE vec highs(vec a, vec b) { return high_half(a, b); }
INLINE vec lows(vec a, vec b) { return low_half(a, b); }
",
    )
}

// Of registers in parts, in words of 52 bits.
#[tactic(auto, unfolding(crate::specs::ProductText::part_halves_of_52_text))]
fn put_part_halves_of_52(out: &mut Vec<u8>) -> Result<(), AllocError>
    ensures { OnOk result (out.new.items ≡ out.old.items ++ part_halves_of_52_text) }
{
    out.extend_from_slice(
        b"#elif defined PARTS
#if HALF == 67108864 && defined FMA
INLINE part highs_part(part a, part b) { part none = {}; return FMA(hi, none, a, b); }
INLINE part lows_part(part a, part b) { part none = {}; return FMA(lo, none, a, b); }
#elif HALF == 67108864
INLINE part highs_part(part a, part b) {
part a1 = a >> 26, a0 = a & PART, b1 = b >> 26, b0 = b & PART;
return low(a1, b1) + ((low(a1, b0) + low(a0, b1) + (low(a0, b0) >> 26)) >> 26); }
INLINE part lows_part(part a, part b) { return a * b & LOW52; }
",
    )
}

// And in other words: halves of 64 bits are made of four partial products.
#[tactic(auto, unfolding(crate::specs::ProductText::part_halves_text))]
fn put_part_halves(out: &mut Vec<u8>) -> Result<(), AllocError>
    ensures { OnOk result (out.new.items ≡ out.old.items ++ part_halves_text) }
{
    out.extend_from_slice(
        b"#elif HALF == 4294967296
INLINE part highs_part(part a, part b) {
part a1 = a >> 32, b1 = b >> 32, x = low(a1, b), y = low(a, b1);
part carried = (low(a, b) >> 32) + (x & 0xffffffffULL) + (y & 0xffffffffULL);
return low(a1, b1) + (x >> 32) + (y >> 32) + (carried >> 32); }
INLINE part lows_part(part a, part b) { return a * b; }
#else
INLINE part highs_part(part a, part b) { return halves(a, b); }
INLINE part lows_part(part a, part b) { return a * b; }
#endif
INLINE vec highs(vec a, vec b) { PARTS(highs_part(a.p[i], b.p[i])); }
INLINE vec lows(vec a, vec b) { PARTS(lows_part(a.p[i], b.p[i])); }
",
    )
}

// Of registers of other lanes, one by one.
#[tactic(auto, unfolding(crate::specs::ProductText::lane_halves_text))]
fn put_lane_halves(out: &mut Vec<u8>) -> Result<(), AllocError>
    ensures { OnOk result (out.new.items ≡ out.old.items ++ lane_halves_text) }
{
    out.extend_from_slice(
        b"#else
INLINE vec highs(vec a, vec b) { LANES(high_half(a.l[l], b.l[l])); }
INLINE vec lows(vec a, vec b) { LANES(low_half(a.l[l], b.l[l])); }
#endif
",
    )
}

// A residue of each half, and their sum: the base modulo M and 1 are known factors, whose quotients a compiler
// computes.
#[tactic(auto, unfolding(crate::specs::ProductText::times_text))]
fn put_times(out: &mut Vec<u8>) -> Result<(), AllocError>
    ensures { OnOk result (out.new.items ≡ out.old.items ++ times_text) }
{
    out.extend_from_slice(
        b"#if HALF <= 65536
#define BASE ((uint64_t)HALF * HALF)
#else
#define BASE ((unsigned __int128)HALF * HALF)
#endif
INLINE vec residue(vec a) { return ROUGH ? reduced(reduced(a, 2 * (word)M), M) : reduced(a, M); }
INLINE vec times(vec a, vec b) {
vec x = residue(mul(highs(a, b), splat(BASE % M), splat(BASE % M * BASE / M)));
vec y = residue(mul(lows(a, b), splat(1), splat(BASE / M)));
return reduced(add(x, y), M); }
",
    )
}

/// Writes what products of registers do.
#[tactic(auto, unfolding(crate::specs::ProductText::products_text))]
pub(crate) fn put_products(out: &mut Vec<u8>) -> Result<(), AllocError>
    ensures { OnOk result (out.new.items ≡ out.old.items ++ products_text) }
{
    put_halves(out)?;
    put_one_lane_halves(out)?;
    put_part_halves_of_52(out)?;
    put_part_halves(out)?;
    put_lane_halves(out)?;
    put_times(out)
}

// What stops the function at a word that is too large, if CHECK is defined.
#[tactic(auto, unfolding(crate::specs::ProductText::factors_check_text))]
fn put_factors_check(out: &mut Vec<u8>, size: u64) -> Result<(), AllocError>
    ensures { OnOk result (out.new.items ≡ out.old.items ++ factors_check_text size) }
{
    put_numbered(
        out,
        b"#ifdef CHECK
for (uint64_t n = 0; n < ",
        size,
        b"; n++) if (a[n] >= M || b[n] >= M) __builtin_trap();
#endif
",
    )
}

// Whole registers, and then the words that are left, in a register that is filled up.
#[tactic(auto, unfolding(crate::specs::ProductText::each_product_text))]
fn put_each_product(out: &mut Vec<u8>, size: u64) -> Result<(), AllocError>
    ensures { OnOk result (out.new.items ≡ out.old.items ++ each_product_text size) }
{
    put_numbered(
        out,
        b"uint64_t n = 0;
for (; n + V <= ",
        size,
        b"; n += V) store(out + n, times(load(a + n), load(b + n)));
word x[V] = {0}, y[V] = {0};
",
    )?;
    put_numbered(
        out,
        b"for (uint64_t l = 0; n + l < ",
        size,
        b"; l++) { x[l] = a[n + l]; y[l] = b[n + l]; }
",
    )?;
    put_word(out, b"store(x, times(load(x), load(y)));\n")?;
    put_numbered(
        out,
        b"for (uint64_t l = 0; n + l < ",
        size,
        b"; l++) out[n + l] = x[l];
}
",
    )
}

/// Writes the function of vectors of this size.
pub(crate) fn put_product_function(
    out: &mut Vec<u8>,
    name: &[u8],
    size: u64,
) -> Result<(), AllocError>
    ensures { OnOk result (out.new.items ≡ out.old.items ++ product_function_text name.now size) }
{
    put_word(out, b"void ")?;
    put_word(out, name)?;
    put_word(out, b"_times(word *out, const word *a, const word *b) {\n")?;
    put_factors_check(out, size)?;
    put_each_product(out, size)
}

/// Writes the lines by which a text has the header once.
pub(crate) fn put_product_guard(out: &mut Vec<u8>, capitals: &[u8]) -> Result<(), AllocError>
    ensures { OnOk result (out.new.items ≡ out.old.items ++ product_guard_text capitals.now) }
{
    put_word(out, b"#ifndef ")?;
    put_word(out, capitals)?;
    put_word(out, b"_TIMES_H\n#define ")?;
    put_word(out, capitals)?;
    put_word(out, b"_TIMES_H\n#include <stdint.h>\n")
}

/// Writes the size and the modulus.
pub(crate) fn put_product_macros(
    out: &mut Vec<u8>,
    capitals: &[u8],
    size: u64,
    modulus: u64,
) -> Result<(), AllocError>
    ensures { OnOk result (out.new.items ≡ out.old.items
        ++ product_macros_text capitals.now size modulus) }
{
    put_macro(out, capitals, b"_TIMES_SIZE ", size, b"\n")?;
    put_macro(out, capitals, b"_TIMES_MODULUS ", modulus, b"ULL\n")
}

// What is asked of who calls, and what is told.
fn put_product_asked(out: &mut Vec<u8>, capitals: &[u8], name: &[u8]) -> Result<(), AllocError>
    ensures { OnOk result (out.new.items ≡ out.old.items
        ++ product_asked_text capitals.now name.now) }
{
    put_word(out, b"/* ")?;
    put_word(out, name)?;
    put_word(
        out,
        b"_times multiplies place by place: word k of out becomes a[k] * b[k] modulo ",
    )?;
    put_named(out, capitals, b"_TIMES_MODULUS, for k below\n * ")?;
    put_named(out, capitals, b"_TIMES_SIZE.\n * a, b: words below ")?;
    put_named(
        out,
        capitals,
        b"_TIMES_MODULUS. With -DCHECK the function stops at a greater one.\n * out: words below ",
    )?;
    put_named(
        out,
        capitals,
        b"_TIMES_MODULUS. It may be a or b, and else overlaps neither. */\n",
    )
}

fn put_declared_product(out: &mut Vec<u8>, name: &[u8], word: &[u8]) -> Result<(), AllocError>
    ensures { OnOk result (out.new.items ≡ out.old.items
        ++ declared_product_text name.now word.now) }
{
    put_word(out, b"void ")?;
    put_word(out, name)?;
    put_word(out, b"_times(")?;
    put_word(out, word)?;
    put_word(out, b" *out, const ")?;
    put_word(out, word)?;
    put_word(out, b" *a, const ")?;
    put_word(out, word)?;
    put_word(out, b" *b);\n")
}

// The function over words of a type, and what is asked of its arrays.
fn put_product_of(
    out: &mut Vec<u8>,
    capitals: &[u8],
    name: &[u8],
    word: &[u8],
) -> Result<(), AllocError>
    ensures { OnOk result (out.new.items ≡ out.old.items ++ linkage_text
        (product_asked_text capitals.now name.now ++ declared_product_text name.now word.now)) }
{
    put_word(out, b"#ifdef __cplusplus\nextern \"C\" {\n#endif\n")?;
    put_product_asked(out, capitals, name)?;
    put_declared_product(out, name, word)?;
    put_word(out, b"#ifdef __cplusplus\n}\n#endif\n#endif\n")
}

/// Writes the function over words that have a base with this square root.
pub(crate) fn put_linked_product(
    out: &mut Vec<u8>,
    capitals: &[u8],
    name: &[u8],
    half: u64,
) -> Result<(), AllocError>
    ensures { OnOk result (out.new.items ≡ out.old.items ++ linkage_text
        (product_asked_text capitals.now name.now
        ++ declared_product_text name.now (word_type_text half))) }
{
    let word = word_type(half);
    put_product_of(out, capitals, name, word.as_bytes())
}
