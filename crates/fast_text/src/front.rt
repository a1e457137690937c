// The first lines of a C text on words.

ghost use Rattle.std.specs.Prelude.{◌≡◌, ◌++◌, OnOk};
ghost use Rattle.word_code.specs.Words.{Width};
ghost use Rattle.fast_text.specs.WordFront.{word_text, one_lane_text, part_text, vector_text, exchange_text, vector_reduced_text, vector_low_text, vector_fused_text, vector_product_text, vector_tile_text, lanes_text, functions_text, rough_text, sizes_text, arrays_text};

use listing_text::{put_numbered, put_word};
use std::alloc::AllocError;

// The words: their type, and the high half of a product. C computes with words of 16 bits as with int, which is why
// products below begin with 1u.
#[tactic(auto, unfolding(crate::specs::WordFront::word_text))]
fn put_word_type(out: &mut Vec<u8>) -> Result<(), AllocError>
    ensures { OnOk result (out.new.items ≡ out.old.items ++ word_text) }
{
    out.extend_from_slice(
        b"#pragma GCC diagnostic ignored \"-Wpsabi\"
#define INLINE static inline __attribute__((always_inline, unused))
#if HALF == 256
typedef uint16_t word;
INLINE word high(word a, word q) { return (uint32_t)a * q >> 16; }
#elif HALF == 65536
typedef uint32_t word;
INLINE word high(word a, word q) { return (uint64_t)a * q >> 32; }
#elif HALF == 67108864
typedef uint64_t word;
#define LOW52 0xfffffffffffffULL
INLINE word high(word a, word q) { return (unsigned __int128)(a & LOW52) * q >> 52; }
#else
typedef uint64_t word;
#if ROUGH
INLINE word high(word a, word q) { uint64_t a1 = a >> 32, q1 = q >> 32; return a1 * q1 + (a1 * (uint32_t)q >> 32) + ((uint32_t)a * q1 >> 32); }
#else
INLINE word high(word a, word q) { return (unsigned __int128)a * q >> 64; }
#endif
#endif
",
    )
}

// A register of one lane.
#[tactic(auto, unfolding(crate::specs::WordFront::one_lane_text))]
fn put_one_lane(out: &mut Vec<u8>) -> Result<(), AllocError>
    ensures { OnOk result (out.new.items ≡ out.old.items ++ one_lane_text) }
{
    out.extend_from_slice(
        b"#if V == 1
typedef word vec;
INLINE vec splat(word x) { return x; }
INLINE vec load(const word *p) { return *p; }
INLINE void store(word *p, vec a) { *p = a; }
INLINE vec add(vec a, vec b) { return a + b; }
INLINE vec sub(vec a, vec b, word k) { return a + k - b; }
INLINE vec neg(vec a, word k) { return k - a; }
#if HALF == 67108864
INLINE vec mul(vec a, vec c, vec q) { return (a * c - high(a, q) * (word)M) & LOW52; }
#else
INLINE vec mul(vec a, vec c, vec q) { return 1u * a * c - 1u * high(a, q) * (word)M; }
#endif
INLINE vec reduced(vec a, word k) { vec d = a - k; return a < d ? a : d; }
INLINE void tile(vec *b) { (void)b; }
",
    )
}

// A register of lanes in parts: what a register of the machine holds, or at most 16 bytes where none is known.
// P is how many words that is, and BY names an operation of the machine on it. The headers of these operations bring none of stdlib.h
// with them, whose names a function may have.
#[tactic(auto, unfolding(crate::specs::WordFront::part_text))]
fn put_part(out: &mut Vec<u8>) -> Result<(), AllocError>
    ensures { OnOk result (out.new.items ≡ out.old.items ++ part_text) }
{
    out.extend_from_slice(
        b"#elif (V == 2 || V == 4 || V == 8 || V == 16) && (HALF < 4294967296 || ROUGH)
#define _MM_MALLOC_H_INCLUDED
#define __MM_MALLOC_H
#if defined __AVX2__
#include <immintrin.h>
#elif defined __SSE4_1__
#include <smmintrin.h>
#elif defined __SSE2__
#include <emmintrin.h>
#endif
#if HALF == 256
#define WORDS(bytes) ((bytes) / 2)
#elif HALF == 65536
#define WORDS(bytes) ((bytes) / 4)
#else
#define WORDS(bytes) ((bytes) / 8)
#endif
#if defined __AVX512F__ && V >= WORDS(64)
#define P WORDS(64)
#define BITS(a) (__m512i)(a)
#define BY(operation, ...) _mm512_##operation(__VA_ARGS__)
#elif defined __AVX2__ && V >= WORDS(32)
#define P WORDS(32)
#define BITS(a) (__m256i)(a)
#define BY(operation, ...) _mm256_##operation(__VA_ARGS__)
#elif defined __SSE2__ && V >= WORDS(16)
#define P WORDS(16)
#define BITS(a) (__m128i)(a)
#define BY(operation, ...) _mm_##operation(__VA_ARGS__)
#else
#define P (V < WORDS(16) ? V : WORDS(16))
#endif
",
    )
}

// Registers of such parts.
#[tactic(auto, unfolding(crate::specs::WordFront::vector_text))]
fn put_vector(out: &mut Vec<u8>) -> Result<(), AllocError>
    ensures { OnOk result (out.new.items ≡ out.old.items ++ vector_text) }
{
    out.extend_from_slice(
        b"typedef word part __attribute__((vector_size(sizeof(word) * P)));
typedef part unaligned __attribute__((aligned(sizeof(word)), may_alias));
#if HALF == 256
typedef uint32_t wide __attribute__((vector_size(2 * sizeof(part))));
#else
typedef uint64_t wide __attribute__((vector_size(sizeof(part))));
#endif
typedef struct { part p[V / P]; } vec;
#define PARTS(e) vec r; for (int i = 0; i < V / P; i++) r.p[i] = (e); return r
INLINE vec splat(word x) { PARTS((part){} + x); }
INLINE vec load(const word *p) { PARTS(*(const unaligned *)(p + P * i)); }
INLINE void store(word *p, vec a) {
for (int i = 0; i < V / P; i++) *(unaligned *)(p + P * i) = a.p[i]; }
INLINE vec add(vec a, vec b) { PARTS(a.p[i] + b.p[i]); }
INLINE vec sub(vec a, vec b, word k) { PARTS(a.p[i] + k - b.p[i]); }
INLINE vec neg(vec a, word k) { PARTS(k - a.p[i]); }
",
    )
}

// The lanes of two parts, picked as UPPER or LOWER says; both together exchange the lanes that are d apart.
#[tactic(auto, unfolding(crate::specs::WordFront::exchange_text))]
fn put_exchange(out: &mut Vec<u8>) -> Result<(), AllocError>
    ensures { OnOk result (out.new.items ≡ out.old.items ++ exchange_text) }
{
    out.extend_from_slice(
        b"#if P == 2
#define EACH(f, d) f(d, 0), f(d, 1)
#elif P == 4
#define EACH(f, d) f(d, 0), f(d, 1), f(d, 2), f(d, 3)
#elif P == 8
#define EACH(f, d) f(d, 0), f(d, 1), f(d, 2), f(d, 3), f(d, 4), f(d, 5), f(d, 6), f(d, 7)
#else
#define FIRST(f, d) f(d, 0), f(d, 1), f(d, 2), f(d, 3), f(d, 4), f(d, 5), f(d, 6), f(d, 7)
#define LAST(f, d) f(d, 8), f(d, 9), f(d, 10), f(d, 11), f(d, 12), f(d, 13), f(d, 14), f(d, 15)
#define EACH(f, d) FIRST(f, d), LAST(f, d)
#endif
#define UPPER(d, l) ((l) & (d) ? P + (l) - (d) : (l))
#define LOWER(d, l) ((l) & (d) ? P + (l) : (l) + (d))
#define PICKED(a, b, f, d) __builtin_shufflevector(a, b, EACH(f, d))
",
    )
}

// The least of a and a - k. No word is twice its k or more, so where k is at most half of all words, the top bit of
// a - k says which it is.
#[tactic(auto, unfolding(crate::specs::WordFront::vector_reduced_text))]
fn put_vector_reduced(out: &mut Vec<u8>) -> Result<(), AllocError>
    ensures { OnOk result (out.new.items ≡ out.old.items ++ vector_reduced_text) }
{
    out.extend_from_slice(
        b"#if defined BITS && HALF == 256 && defined __SSE4_1__
#define MINIMUM(a, b) (part)BY(min_epu16, BITS(a), BITS(b))
#elif defined BITS && HALF == 65536 && defined __SSE4_1__
#define MINIMUM(a, b) (part)BY(min_epu32, BITS(a), BITS(b))
#elif defined BITS && HALF > 65536 && defined __AVX512F__ && (P == WORDS(64) || defined __AVX512VL__)
#define MINIMUM(a, b) (part)BY(min_epu64, BITS(a), BITS(b))
#elif !defined BITS && HALF <= 65536 && defined __has_builtin
#if __has_builtin(__builtin_elementwise_min)
#define MINIMUM __builtin_elementwise_min
#endif
#endif
#ifdef MINIMUM
INLINE part reduced_part(part a, word k) { return MINIMUM(a, a - k); }
#else
#define TOP_BIT ((word)1 << (8 * sizeof(word) - 1))
INLINE part reduced_part(part a, word k) {
part d = a - k;
return k > TOP_BIT ? a - ((part)(a >= k) & k) : d + ((part)((__typeof__(a < d))d < 0) & k); }
#endif
INLINE vec reduced(vec a, word k) { PARTS(reduced_part(a.p[i], k)); }
",
    )
}

// Products of the low 32 bits, and a part of moduli. GCC makes shifts and sums of a product by a constant, which take
// longer, so it does not see that this is one.
#[tactic(auto, unfolding(crate::specs::WordFront::vector_low_text))]
fn put_vector_low(out: &mut Vec<u8>) -> Result<(), AllocError>
    ensures { OnOk result (out.new.items ≡ out.old.items ++ vector_low_text) }
{
    out.extend_from_slice(
        b"#ifdef BITS
INLINE part moduli(void) { part m = (part){} + (word)M; __asm__(\"\" : \"+v\"(m)); return m; }
#else
INLINE part moduli(void) { return (part){} + (word)M; }
#endif
#if defined BITS && HALF > 256
INLINE wide low(wide a, wide b) { return (wide)BY(mul_epu32, BITS(a), BITS(b)); }
#elif HALF > 256
#define LOW 0xffffffffULL
INLINE wide low(wide a, wide b) { return (a & LOW) * (b & LOW); }
#endif
",
    )
}

// Products in words of 52 bits: by an operation that gives the low or the high half of a product, or else by halves of
// 26 bits.
#[tactic(auto, unfolding(crate::specs::WordFront::vector_fused_text))]
fn put_vector_fused(out: &mut Vec<u8>) -> Result<(), AllocError>
    ensures { OnOk result (out.new.items ≡ out.old.items ++ vector_fused_text) }
{
    out.extend_from_slice(
        b"#if HALF == 67108864
#if defined BITS && defined __AVX512IFMA__ && (P == WORDS(64) || defined __AVX512VL__)
#define FMA(h, a, b, c) (part)BY(madd52##h##_epu64, BITS(a), BITS(b), BITS(c))
#elif defined BITS && defined __AVXIFMA__ && P < WORDS(64)
#define FMA(h, a, b, c) (part)BY(madd52##h##_avx_epu64, BITS(a), BITS(b), BITS(c))
#endif
#ifdef FMA
INLINE part mul_part(part a, part c, part q) {
part none = {}, h = FMA(hi, none, a, q);
return FMA(lo, FMA(lo, none, a, c), h, none + ((1ULL << 52) - M)) & LOW52; }
#else
#define PART 0x3ffffffULL
INLINE part mul_part(part a, part c, part q) {
part a1 = (a & LOW52) >> 26, a0 = a & PART, q1 = q >> 26, q0 = q & PART;
part h = low(a1, q1) + ((low(a1, q0) + low(a0, q1) + (low(a0, q0) >> 26)) >> 26);
return (a * c - h * moduli()) & LOW52; }
#endif
",
    )
}

// Products in words of 16, of 32 and of 64 bits, and of registers.
#[tactic(auto, unfolding(crate::specs::WordFront::vector_product_text))]
fn put_vector_product(out: &mut Vec<u8>) -> Result<(), AllocError>
    ensures { OnOk result (out.new.items ≡ out.old.items ++ vector_product_text) }
{
    out.extend_from_slice(
        b"#else
#if defined BITS && HALF == 256
INLINE part halves(part a, part q) { return (part)BY(mulhi_epu16, BITS(a), BITS(q)); }
#elif HALF == 256
INLINE wide widened(part a) { return __builtin_convertvector(a, wide); }
INLINE part halves(part a, part q) { return __builtin_convertvector(widened(a) * widened(q) >> 16, part); }
#elif HALF == 65536
INLINE part halves(part a, part q) {
wide even = low((wide)a, (wide)q), odd = low((wide)a >> 32, (wide)q >> 32);
return PICKED((part)even, (part)odd, LOWER, 1); }
#else
INLINE part halves(part a, part q) {
part a1 = a >> 32, q1 = q >> 32;
return low(a1, q1) + (low(a1, q) >> 32) + (low(a, q1) >> 32); }
#endif
INLINE part mul_part(part a, part c, part q) { return a * c - halves(a, q) * moduli(); }
#endif
INLINE vec mul(vec a, vec c, vec q) { PARTS(mul_part(a.p[i], c.p[i], q.p[i])); }
",
    )
}

// The transposition of registers: of their parts, and then within these.
#[tactic(auto, unfolding(crate::specs::WordFront::vector_tile_text))]
fn put_vector_tile(out: &mut Vec<u8>) -> Result<(), AllocError>
    ensures { OnOk result (out.new.items ≡ out.old.items ++ vector_tile_text) }
{
    out.extend_from_slice(
        b"INLINE void swap(part *a, part *b) { part x = *a; *a = *b; *b = x; }
#define EXCHANGED(a, b, d) { part x = PICKED(a, b, UPPER, d); b = PICKED(a, b, LOWER, d); a = x; }
#define EXCHANGE(d) for (int i = 0; i < V; i++) for (int k = 0; k < V / P; k++) \\
if (!(i & d)) EXCHANGED(b[i].p[k], b[i + d].p[k], d)
INLINE void tile(vec *b) {
for (int i = 0; i < V; i++) for (int k = i / P + 1; k < V / P; k++)
swap(b[i].p + k, b[P * k + i % P].p + i / P);
#if P > 8
EXCHANGE(8)
#endif
#if P > 4
EXCHANGE(4)
#endif
#if P > 2
EXCHANGE(2)
#endif
EXCHANGE(1)
}
",
    )
}

// A register of other lanes, one by one.
#[tactic(auto, unfolding(crate::specs::WordFront::lanes_text))]
fn put_lanes(out: &mut Vec<u8>) -> Result<(), AllocError>
    ensures { OnOk result (out.new.items ≡ out.old.items ++ lanes_text) }
{
    out.extend_from_slice(
        b"#else
typedef struct { word l[V]; } vec;
#define LANES(e) vec r; for (int l = 0; l < V; l++) r.l[l] = (e); return r
INLINE vec splat(word x) { LANES(x); }
INLINE vec load(const word *p) { LANES(p[l]); }
INLINE void store(word *p, vec a) { for (int l = 0; l < V; l++) p[l] = a.l[l]; }
INLINE vec add(vec a, vec b) { LANES(a.l[l] + b.l[l]); }
INLINE vec sub(vec a, vec b, word k) { LANES(a.l[l] + k - b.l[l]); }
INLINE vec neg(vec a, word k) { LANES(k - a.l[l]); }
#if HALF == 67108864
INLINE vec mul(vec a, vec c, vec q) { LANES((a.l[l] * c.l[l] - high(a.l[l], q.l[l]) * (word)M) & LOW52); }
#else
INLINE vec mul(vec a, vec c, vec q) { LANES(1u * a.l[l] * c.l[l] - 1u * high(a.l[l], q.l[l]) * (word)M); }
#endif
INLINE word least(word a, word b) { return a < b ? a : b; }
INLINE vec reduced(vec a, word k) { LANES(least(a.l[l], a.l[l] - k)); }
INLINE void tile(vec *b) { vec a[V]; for (int k = 0; k < V; k++) a[k] = b[k]; for (int k = 0; k < V; k++) for (int l = 0; l < V; l++) b[k].l[l] = a[l].l[k]; }
#endif
",
    )
}

/// Writes what operations do.
#[tactic(auto, unfolding(crate::specs::WordFront::functions_text))]
pub(crate) fn put_functions(out: &mut Vec<u8>) -> Result<(), AllocError>
    ensures { OnOk result (out.new.items ≡ out.old.items ++ functions_text) }
{
    put_word_type(out)?;
    put_one_lane(out)?;
    put_part(out)?;
    put_vector(out)?;
    put_exchange(out)?;
    put_vector_reduced(out)?;
    put_vector_low(out)?;
    put_vector_fused(out)?;
    put_vector_product(out)?;
    put_vector_tile(out)?;
    put_lanes(out)
}

fn put_rough(out: &mut Vec<u8>, rough: bool) -> Result<(), AllocError>
    ensures { OnOk result (out.new.items ≡ out.old.items ++ rough_text rough) }
{
    if rough {
        put_word(out, b"#define ROUGH 1\n")
    } else {
        put_word(out, b"#define ROUGH 0\n")
    }
}

/// Writes the modulus, the lanes and the width of words.
pub(crate) fn put_sizes(
    out: &mut Vec<u8>,
    half: u64,
    rough: bool,
    modulus: u64,
    lanes: u64,
) -> Result<(), AllocError>
    ensures { OnOk result (out.new.items ≡ out.old.items
        ++ sizes_text (record { half = half; rough = rough }) modulus lanes) }
{
    put_word(out, b"#include <stdint.h>\n")?;
    put_numbered(out, b"#define M ", modulus, b"ULL\n")?;
    put_numbered(out, b"#define V ", lanes, b"\n")?;
    put_numbered(out, b"#define HALF ", half, b"\n")?;
    put_rough(out, rough)
}

/// Writes the four arrays, of `words` words.
pub(crate) fn put_arrays(out: &mut Vec<u8>, words: u64) -> Result<(), AllocError>
    ensures { OnOk result (out.new.items ≡ out.old.items ++ arrays_text words) }
{
    put_word(out, b"static __attribute__((aligned(64), unused)) word ")?;
    put_numbered(out, b"X[", words, b"]")?;
    put_numbered(out, b", Y[", words, b"]")?;
    put_numbered(out, b", A[", words, b"]")?;
    put_numbered(out, b", B[", words, b"];\n")
}
