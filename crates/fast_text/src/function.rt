// The functions of a text to link, after its phases.

ghost use Rattle.std.specs.Prelude.{◌≡◌, ◌++◌, IfOk, OnOk};
ghost use Rattle.fast_text.specs.FunctionText.{static_phase_text, phase_call_text, case_text, turns_text, input_check_text, one_phase_text, whole_text, functions_to_link_text, each_from};

use listing_text::{put_numbered, put_word};
use memory::NoMemory;
use std::alloc::{AllocError, Global};

/// What stands before the number of a phase.
pub(crate) fn static_phase(alloc: Global, name: &[u8]) -> Result<Vec<u8>, NoMemory>
    ensures { IfOk result (λ text. text.items ≡ static_phase_text name.now) }
{
    let mut text = Vec::new(alloc);
    put_word(&mut text, b"static void ")?;
    put_word(&mut text, name)?;
    put_word(&mut text, b"_phase")?;
    Ok(text)
}

fn put_phase_call(out: &mut Vec<u8>, name: &[u8], words: u64, number: u64) -> Result<(), AllocError>
    ensures { OnOk result (out.new.items ≡ out.old.items ++ phase_call_text name.now words number) }
{
    put_word(out, name)?;
    put_numbered(out, b"_phase", number, b"(q, in, out, work, work + ")?;
    put_numbered(out, b"", words, b");")
}

fn put_case(out: &mut Vec<u8>, name: &[u8], words: u64, number: u64) -> Result<(), AllocError>
    ensures { OnOk result (out.new.items ≡ out.old.items ++ case_text name.now words number) }
{
    put_numbered(out, b"case ", number, b": ")?;
    put_phase_call(out, name, words, number)?;
    put_word(out, b" break;\n")
}

fn put_turns(
    out: &mut Vec<u8>,
    name: &[u8],
    words: u64,
    procs: u64,
    number: u64,
) -> Result<(), AllocError>
    ensures { OnOk result (out.new.items ≡ out.old.items
        ++ turns_text name.now words procs number) }
{
    put_numbered(out, b"for (uint64_t q = 0; q < ", procs, b"; q++) ")?;
    put_phase_call(out, name, words, number)?;
    put_word(out, b"\n")
}

// The cases of the phases.
fn put_cases(out: &mut Vec<u8>, name: &[u8], words: u64, phases: u64) -> Result<(), AllocError>
    ensures { OnOk result (out.new.items ≡ out.old.items
        ++ each_from (case_text name.now words) phases 0) }
{
    for number in 0..phases {
        put_case(out, name, words, number)?;
    }
    Ok(())
}

// The turns of all phases.
fn put_all_turns(
    out: &mut Vec<u8>,
    name: &[u8],
    words: u64,
    procs: u64,
    phases: u64,
) -> Result<(), AllocError>
    ensures { OnOk result (out.new.items ≡ out.old.items
        ++ each_from (turns_text name.now words procs) phases 0) }
{
    for number in 0..phases {
        put_turns(out, name, words, procs, number)?;
    }
    Ok(())
}

// What stops a function at a word of its input that is too large, if CHECK is defined.
#[tactic(auto, unfolding(crate::specs::FunctionText::input_check_text))]
fn put_input_check(out: &mut Vec<u8>, words: u64) -> Result<(), AllocError>
    ensures { OnOk result (out.new.items ≡ out.old.items ++ input_check_text words) }
{
    put_numbered(
        out,
        b"#ifdef CHECK
for (uint64_t n = 0; n < ",
        words,
        b"; n++) if (in[n] >= M) __builtin_trap();
#endif
",
    )
}

// The function that does one phase of one processor.
fn put_one_phase(out: &mut Vec<u8>, name: &[u8], words: u64, phases: u64) -> Result<(), AllocError>
    ensures { OnOk result (out.new.items ≡ out.old.items ++ one_phase_text name.now words phases) }
{
    put_word(out, b"void ")?;
    put_word(out, name)?;
    put_word(
        out,
        b"_phase(uint64_t k, uint64_t q, word *out, const word *in, word *work) {\n",
    )?;
    put_input_check(out, words)?;
    put_word(out, b"switch (k) {\n")?;
    put_cases(out, name, words, phases)?;
    put_word(out, b"}\n}\n")
}

// The function that does all of them.
fn put_whole(
    out: &mut Vec<u8>,
    name: &[u8],
    words: u64,
    procs: u64,
    phases: u64,
) -> Result<(), AllocError>
    ensures { OnOk result (out.new.items ≡ out.old.items
        ++ whole_text name.now words procs phases) }
{
    put_word(out, b"void ")?;
    put_word(out, name)?;
    put_word(out, b"(word *out, const word *in, word *work) {\n")?;
    put_input_check(out, words)?;
    put_all_turns(out, name, words, procs, phases)?;
    put_word(out, b"}\n")
}

/// Writes both, for arrays of `words` words.
pub(crate) fn put_functions_to_link(
    out: &mut Vec<u8>,
    name: &[u8],
    words: u64,
    procs: u64,
    phases: u64,
) -> Result<(), AllocError>
    ensures { OnOk result (out.new.items ≡ out.old.items
        ++ functions_to_link_text name.now words procs phases) }
{
    put_one_phase(out, name, words, phases)?;
    put_whole(out, name, words, procs, phases)
}
