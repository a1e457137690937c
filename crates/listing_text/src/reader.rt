//! Programs as their texts are read, line by line, in any language.

ghost use Rattle.std.specs.Prelude.{◌≡◌, ◌++◌, ◌<◌, ◌≤◌, ◌^◌, ◌+◌, ℕ, [], Ok, Err, None, OnOk, MatchOption, IsTrue, length, drop, true, false};
ghost use Rattle.std.specs.Option.{option_map};
ghost use Rattle.icode.specs.Plain.{plain_phases};
ghost use Rattle.grammar.specs.Reading.{word_in, whole};
ghost use Rattle.listing_text.specs.Drafts.{plain_draft, act_step, read_step, table_step, header_step, is_empty};
ghost use Rattle.listing_text.specs.Lines.{is_open, IsLine, read_lines, later, valued, ended};
ghost use Rattle.listing_text.specs.Progress.{plain_progress, free, owing, between_if, begin_text, phase_or_table, progress_step, begun, step, finish, Goes, Steps, progress_or_none};
ghost use Rattle.listing_text.specs.Reads.{Reads};

use crate::draft::Draft;
use crate::drafts::{Refusal, blank, entered, has_none, with_act, with_table};
use crate::language::Language;
use crate::listing::ListingFault;
use crate::progress::Progress;
use grammar::Cursor;
use std::alloc::{AllocError, Global};

// The line stands at the front of the text.
fn is_front(text: &[u8], line: &[u8]) -> bool
    ensures yes { result ≡ true → (length line.now ≤ length text.now)
        × (word_in line.now text.now ≡ Ok (tt, drop (length line.now) text.now)) }
    ensures no { result ≡ false → (left : ℕ) × (word_in line.now text.now ≡ Err left) }
{
    Cursor::new(text).word(line).is_ok()
}

// What was read with this line, where the text from a place on has to come next.
fn owing(draft: Draft, owed: Vec<u8>, at: usize, line: &[u8]) -> Result<Progress, Refusal>
    requires { at ≤ length owed.items }
    ensures { Goes result (owing (plain_draft draft) (drop at owed.items) line.now) }
{
    if !is_front(&owed[at..], line) {
        return Err(Refusal::Line);
    }
    Ok(Progress {
        draft,
        owed,
        at: at + line.len(),
    })
}

fn free(alloc: Global, draft: Draft) -> Progress
    ensures { plain_progress result ≡ free (plain_draft draft) }
{
    Progress {
        draft,
        owed: Vec::new(alloc),
        at: 0,
    }
}

// What the first line says.
fn begun<L: Language>(alloc: Global, line: &[u8]) -> Result<Progress, Refusal>
    ensures { Goes result (option_map (begun L.wording)
        (read_step header_step (whole L.grammar.header line.now))) }
{
    let header = L::read_header(line)?;
    let draft = blank(alloc, header)?;
    let mut owed = Vec::new(alloc);
    L::put_front(&mut owed, &header)?;
    Ok(Progress { draft, owed, at: 0 })
}

// A line of a phase.
fn with_act_line<L: Language>(alloc: Global, draft: Draft, line: &[u8]) -> Result<Progress, Refusal>
    ensures { Goes result (option_map free
        (read_step (act_step (plain_draft draft)) (whole L.grammar.act line.now))) }
{
    let act = L::read_act(alloc, line)?;
    let next = with_act(alloc, draft, act)?;
    Ok(free(alloc, next))
}

fn with_table_line<L: Language>(
    alloc: Global,
    draft: Draft,
    line: &[u8],
) -> Result<Progress, Refusal>
    ensures { Goes result (option_map free (read_step (table_step (plain_draft draft))
        (whole (L.grammar.table (length line.now)) line.now))) }
{
    let (number, entries) = L::read_table(alloc, line)?;
    let next = with_table(alloc, draft, number, entries)?;
    Ok(free(alloc, next))
}

fn put_between_if<L: Language>(out: &mut Vec<u8>, is_first: bool) -> Result<(), AllocError>
    ensures { OnOk result (out.new.items ≡ out.old.items ++ between_if L.wording is_first) }
{
    if is_first {
        return L::put_between(out);
    }
    Ok(())
}

// How the next phase begins.
fn put_begin<L: Language>(out: &mut Vec<u8>, draft: &Draft) -> Result<(), AllocError>
    ensures { OnOk result (out.new.items ≡ out.old.items
        ++ begin_text L.wording draft.now.header (plain_phases draft.now.phases.items)) }
{
    put_between_if::<L>(out, has_none(&draft.phases))?;
    L::put_phase(out, draft.header.regs, draft.phases.len() as u64)
}

// The first line of a phase, or a table.
fn with_outside_line<L: Language>(
    alloc: Global,
    draft: Draft,
    line: &[u8],
) -> Result<Progress, Refusal>
    ensures { Goes result (phase_or_table L.grammar (plain_draft draft) line.now
        (word_in line.now (begin_text L.wording draft.header (plain_phases draft.phases.items)))) }
{
    let mut owed = Vec::new(alloc);
    put_begin::<L>(&mut owed, &draft)?;
    if !is_front(&owed, line) {
        return with_table_line::<L>(alloc, draft, line);
    }
    Ok(Progress {
        draft: entered(alloc, draft),
        owed,
        at: line.len(),
    })
}

// What was read with one line more.
fn with_line<L: Language>(
    alloc: Global,
    progress: Progress,
    line: &[u8],
) -> Result<Progress, Refusal>
    ensures { Goes result
        (progress_step L.wording L.grammar (plain_progress progress) line.now) }
{
    if progress.at < progress.owed.len() {
        return owing(progress.draft, progress.owed, progress.at, line);
    }
    if progress.draft.is_inside {
        return with_act_line::<L>(alloc, progress.draft, line);
    }
    with_outside_line::<L>(alloc, progress.draft, line)
}

// The first line with its end, and what comes after it.
fn cut_line(text: &[u8]) -> Option<(&[u8], &[u8])>
    ensures { MatchOption result (IsTrue (is_open text.now)) (λ cut. IsLine cut.0.now
        × (text.now ≡ cut.0.now ++ cut.1.now)) }
{
    for (at, byte) in text.iter().enumerate() {
        if *byte == b'\n' {
            return Some(text.split_at(at + 1));
        }
    }
    None
}

fn stepped<L: Language>(
    alloc: Global,
    progress: Option<Progress>,
    line: &[u8],
) -> Result<Progress, Refusal>
    ensures { Steps result (step L.wording L.grammar (progress_or_none progress) line.now) }
{
    match progress {
        None => begun::<L>(alloc, line),
        Some(progress) => with_line::<L>(alloc, progress, line),
    }
}

// The draft, where this is left after `lines` lines.
fn finished(progress: Option<Progress>, rest: &[u8], lines: u64) -> Result<Draft, ListingFault>
    requires { lines < 2 ^ 63 }
    ensures { Reads result
        (later lines (ended rest.now (valued (finish (progress_or_none progress))))) }
{
    if !rest.is_empty() {
        return Err(ListingFault::Syntax { line: lines + 1 });
    }
    match progress {
        None => Err(ListingFault::Syntax { line: lines + 1 }),
        Some(progress) => {
            if progress.at < progress.owed.len() {
                return Err(ListingFault::Syntax { line: lines + 1 });
            }
            if progress.draft.is_inside || progress.draft.phases.is_empty() {
                return Err(ListingFault::Syntax { line: lines + 1 });
            }
            Ok(progress.draft)
        }
    }
}

/// What a text says, read line by line.
pub fn read<L: Language>(alloc: Global, text: &[u8]) -> Result<Draft, ListingFault>
    ensures { Reads result (read_lines (step L.wording L.grammar) finish None [] text.now) }
{
    let mut progress = None;
    let mut rest = text;
    let mut lines = 0;
    while let Some(cut) = cut_line(rest) {
        match stepped::<L>(alloc, progress, cut.0) {
            Ok(next) => progress = Some(next),
            Err(Refusal::Line) => return Err(ListingFault::Syntax { line: lines + 1 }),
            Err(Refusal::NoMemory) => return Err(ListingFault::NoMemory),
        }
        rest = cut.1;
        lines += 1;
    }
    finished(progress, rest, lines)
}
