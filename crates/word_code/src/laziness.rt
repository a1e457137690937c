// How lazy a program may be. Words of 16, 32, 52 or 64 bits leave room for some multiples of the modulus, and each bound that is larger
// saves reductions (Harvey's lazy butterflies). The words that stay in A and B are kept as small as products leave them, since
// another phase begins with them. `make_fast` is the crate's main call: a size of words, its laziness, and the program on words.

ghost use Rattle.std.specs.Prelude.{◌≡◌, ◌^◌, ◌<◌, ◌≤◌, IfOk, IsTrue};
ghost use Rattle.icode.specs.Program.{plain_program};
ghost use Rattle.word_code.specs.Laziness.{limit_within, short, narrow, middle, wide, allows, takes_narrow, size_for, laziness_for, fast_words};
ghost use Rattle.word_code.specs.Laws.{IsLazyWithin};
ghost use Rattle.word_code.specs.Same.{LeavesTheSame, OrderIsFreeOf, FitsAs};
ghost use Rattle.word_code.specs.Views.{lazy_of, plain_word_program};

use crate::program::{Laziness, WordProgram};
use crate::quicken::quicken;
use icode::program::Program;
use memory::NoMemory;
use std::alloc::Global;

/// The size of the words that a program is to have.
#[derive(Clone, Copy, Drop, PartialEq, Eq, Debug)]
pub enum WordSize {
    /// 16 bits.
    Of16,
    /// 32 bits.
    Of32,
    /// 52 bits, in words of 64 for sums.
    Of52,
    /// 64 bits.
    Of64,
}

impl WordSize {
    /// Whether the modulus is less than half of the words' base.
    pub fn allows(&self, modulus: u64) -> bool
        ensures { result ≡ allows self.now modulus }
    {
        match self {
            WordSize::Of16 => modulus < 0x8000,
            WordSize::Of32 => modulus < 0x8000_0000,
            WordSize::Of52 => modulus < 0x8_0000_0000_0000,
            WordSize::Of64 => true,
        }
    }
}

// Whether words of 32 bits are taken by themselves: with several processors 64 bytes of such words never end inside a line.
fn takes_narrow(program: &Program) -> bool
    ensures { result ≡ takes_narrow (plain_program program.now) }
{
    program.modulus < 0x8000_0000 && (program.procs == 1 || program.line % 16 == 0)
}

/// The size of words that is asked for. Where none is, 32 bits or else 64.
pub fn size_for(asked: Option<WordSize>, program: &Program) -> WordSize
    ensures { result ≡ size_for asked (plain_program program.now) }
{
    match asked {
        Some(size) => size,
        None => {
            if takes_narrow(program) {
                WordSize::Of32
            } else {
                WordSize::Of64
            }
        }
    }
}

/// The greatest bound of registers that is of use.
const ENOUGH: u64 = 16;

fn limit_within(greatest: u64, modulus: u64) -> u64
    requires { 2 ≤ modulus }
    ensures { result ≡ limit_within greatest modulus }
{
    ENOUGH.min(greatest / modulus)
}

// For words of 16 bits. A and B stay below what products are below.
fn short(modulus: u64) -> Laziness
    requires { 2 ≤ modulus }
    ensures { lazy_of result ≡ short modulus }
{
    Laziness {
        half: 0x100,
        rough: false,
        keep_a: 2,
        keep_b: 2,
        limit: limit_within(0xffff, modulus),
    }
}

// For words of 32 bits.
fn narrow(modulus: u64) -> Laziness
    requires { 2 ≤ modulus }
    ensures { lazy_of result ≡ narrow modulus }
{
    Laziness {
        half: 0x1_0000,
        rough: false,
        keep_a: 2,
        keep_b: 2,
        limit: limit_within(0xffff_ffff, modulus),
    }
}

// For words of 52 bits.
fn middle(modulus: u64) -> Laziness
    requires { 2 ≤ modulus }
    ensures { lazy_of result ≡ middle modulus }
{
    Laziness {
        half: 0x400_0000,
        rough: false,
        keep_a: 2,
        keep_b: 2,
        limit: limit_within(0xf_ffff_ffff_ffff, modulus),
    }
}

// For words of 64 bits.
fn wide(modulus: u64, lanes: u64) -> Laziness
    requires { 2 ≤ modulus }
    ensures { lazy_of result ≡ wide modulus lanes }
{
    let rough = lanes > 1;
    let keep = if rough { 4 } else { 2 };
    Laziness {
        half: 0x1_0000_0000,
        rough,
        keep_a: keep,
        keep_b: keep,
        limit: limit_within(u64::MAX, modulus),
    }
}

/// How lazy words of this size are in a program with this modulus and these lanes.
pub fn laziness_for(size: WordSize, modulus: u64, lanes: u64) -> Laziness
    requires modulus { (2 ≤ modulus) × (modulus < 2 ^ 62) }
    requires allowed { IsTrue (allows size modulus) }
    ensures choice { lazy_of result ≡ laziness_for size modulus lanes }
    ensures lazy { IsLazyWithin (lazy_of result) modulus }
    ensures small { result.limit < 2 ^ 32 }
    ensures half { result.half ≤ 2 ^ 32 }
{
    match size {
        WordSize::Of16 => short(modulus),
        WordSize::Of32 => narrow(modulus),
        WordSize::Of52 => middle(modulus),
        WordSize::Of64 => wide(modulus, lanes),
    }
}

/// The program on words of this size that is chosen for a program. Where the program fits it leaves the
/// residues that the program leaves, for every vector of residues and every order of turns; where no
/// processor touches a line that another writes, that order is free.
pub fn make_fast(alloc: Global, size: WordSize, program: &Program) -> Result<WordProgram, NoMemory>
    requires allowed { IsTrue (allows size program.now.modulus) }
    ensures made { IfOk result
        (λ words. plain_word_program words ≡ fast_words size (plain_program program.now)) }
    ensures fits { IfOk result (λ words. FitsAs words program.now) }
    ensures same { IfOk result (λ words. LeavesTheSame words program.now) }
    ensures order { IfOk result (λ words. OrderIsFreeOf words program.now) }
{
    let laziness = laziness_for(size, program.modulus, program.lanes);
    let words = quicken(alloc, laziness, program)?;
    Ok(words)
}
