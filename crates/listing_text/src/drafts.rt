//! A program as it is read, line by line.

ghost use Rattle.std.specs.Prelude.{◌≡◌, ◌≤◌, ◌&&◌, length, nat_lt, false};
ghost use Rattle.std.specs.List.{list_all};
ghost use Rattle.grammar.specs.Cursor.{Gives, GivesAll, Tells, TellsAll};
ghost use Rattle.grammar.specs.Reading.{whole};
ghost use Rattle.icode.specs.Plain.{plain_op, plain_phases};
ghost use Rattle.listing_text.specs.Acts.{plain_act, ActFits, OpFits};
ghost use Rattle.listing_text.specs.Drafts.{header_at, table_at, is_between, is_header_within, plain_draft, may_open, act_step, is_empty, may_hold, table_step, entered, header_step, Makes, refusal_of};
ghost use Rattle.listing_text.specs.Wording as plain;
ghost use Rattle.listing_text.specs.declared.drafts.Refusal.TheVariants as refusals;

use crate::acts::Act;
use crate::draft::{Draft, Header, Level};
use crate::limits::{is_op_within, is_small_positive};
use grammar::{Cursor, ReadError, Stuck};
use icode::program::{Op, Stmt};
use operators::MAX_SIZE;
use std::alloc::{AllocError, AllocFailed, Global};

/// Why a line is not taken.
#[derive(Clone, Copy)]
pub enum Refusal {
    /// It may not stand there.
    Line,
    NoMemory,
}

impl From<ReadError> for Refusal {
    ghost from_gives = { λ error e. e ≡ refusal_of error };

    fn from(error: ReadError) -> Refusal {
        match error {
            ReadError::Stuck(_) => Refusal::Line,
            ReadError::NoMemory => Refusal::NoMemory,
        }
    }
}

impl From<Stuck> for Refusal {
    ghost from_gives = { λ _ e. e ≡ refusals.Line };

    fn from(_stuck: Stuck) -> Refusal {
        Refusal::Line
    }
}

impl From<AllocError> for Refusal {
    ghost from_gives = { λ _ e. e ≡ refusals.NoMemory };

    fn from(_error: AllocError) -> Refusal {
        Refusal::NoMemory
    }
}

impl<T: Drop> From<AllocFailed<T>> for Refusal {
    ghost from_gives = { λ _ e. e ≡ refusals.NoMemory };

    fn from(_error: AllocFailed<T>) -> Refusal {
        Refusal::NoMemory
    }
}

fn header_of(cursor: &mut Cursor, before: &[u8], behind: &[u8]) -> Result<Header, Stuck>
    ensures { Gives result cursor.new (header_at before.now behind.now cursor.old) }
{
    let size = cursor.named_number(before, u64::MAX)?;
    let modulus = cursor.named_number(b" mod ", u64::MAX)?;
    let procs = cursor.named_number(b" procs ", u64::MAX)?;
    let line = cursor.named_number(b" line ", u64::MAX)?;
    let lanes = cursor.named_number(b" lanes ", u64::MAX)?;
    let regs = cursor.named_number(b" regs ", u64::MAX)?;
    cursor.word(behind)?;
    Ok(Header {
        size,
        modulus,
        procs,
        line,
        lanes,
        regs,
    })
}

/// The numbers in a first line, after the one word and before the other. Their limits are not tested.
pub fn read_header(line: &[u8], before: &[u8], behind: &[u8]) -> Result<Header, Stuck>
    ensures { GivesAll result (whole (header_at before.now behind.now) line.now) }
{
    let mut cursor = Cursor::new(line);
    let header = header_of(&mut cursor, before, behind)?;
    cursor.end()?;
    Ok(header)
}

fn is_between(low: u64, high: u64, number: u64) -> bool
    ensures { result ≡ is_between low high number }
{
    low <= number && number <= high
}

fn is_header_within(header: Header) -> bool
    ensures { result ≡ is_header_within header }
{
    is_between(1, MAX_SIZE, header.size)
        && (is_between(2, (1 << 62) - 1, header.modulus)
            && (is_between(1, 16, header.procs)
                && (is_between(1, 64, header.line)
                    && (is_between(1, 16, header.lanes) && header.regs < 1 << 20))))
}

/// What was read of a program with the header alone, if its numbers are within their limits.
pub fn blank(alloc: Global, header: Header) -> Result<Draft, Refusal>
    ensures { Makes result (header_step header) }
{
    if !is_header_within(header) {
        return Err(Refusal::Line);
    }
    Ok(Draft {
        header,
        tables: Vec::new(alloc),
        phases: Vec::new(alloc),
        is_inside: false,
        open_loops: Vec::new(alloc),
        body: Vec::new(alloc),
    })
}

fn table_of(alloc: Global, cursor: &mut Cursor, most: u64) -> Result<(u64, Vec<u64>), ReadError>
    ensures { Tells (λ table. (table.0, table.1.items)) result cursor.new
        (table_at most cursor.old) }
{
    let number = cursor.named_number(b"table ", u64::MAX)?;
    cursor.word(b" values ")?;
    let entries = cursor.numbers(alloc, b" ", u64::MAX, most)?;
    cursor.word(b"\n")?;
    Ok((number, entries))
}

/// The number and the entries of a listing's table.
pub fn read_table(alloc: Global, line: &[u8]) -> Result<(u64, Vec<u64>), ReadError>
    ensures { TellsAll (λ table. (table.0, table.1.items)) result
        (whole (table_at (length line.now)) line.now) }
{
    let mut cursor = Cursor::new(line);
    let table = table_of(alloc, &mut cursor, line.len() as u64)?;
    cursor.end()?;
    Ok(table)
}

// The same number of loops are open, and one more may be.
fn may_open(open_loops: u64, depth: u64, count: u64) -> bool
    ensures { result ≡ may_open open_loops depth count }
{
    depth == open_loops && (open_loops < 64 && is_small_positive(count))
}

fn opened(alloc: Global, draft: Draft, depth: u64, count: u64) -> Result<Draft, Refusal>
    ensures { Makes result (act_step (plain_draft draft) (plain.Open depth count)) }
{
    if !may_open(draft.open_loops.len() as u64, depth, count) {
        return Err(Refusal::Line);
    }
    let mut open_loops = draft.open_loops;
    open_loops.push(Level {
        count,
        before: draft.body,
    })?;
    Ok(Draft {
        header: draft.header,
        tables: draft.tables,
        phases: draft.phases,
        is_inside: true,
        open_loops,
        body: Vec::new(alloc),
    })
}

fn closed(alloc: Global, draft: Draft) -> Result<Draft, Refusal>
    ensures { Makes result (act_step (plain_draft draft) plain.Close) }
{
    let mut open_loops = draft.open_loops;
    let mut phases = draft.phases;
    match open_loops.pop() {
        None => {
            phases.push(draft.body)?;
            Ok(Draft {
                header: draft.header,
                tables: draft.tables,
                phases,
                is_inside: false,
                open_loops,
                body: Vec::new(alloc),
            })
        }
        Some(level) => {
            let mut body = level.before;
            body.push(Stmt::Loop {
                count: level.count,
                body: draft.body,
            })?;
            Ok(Draft {
                header: draft.header,
                tables: draft.tables,
                phases,
                is_inside: true,
                open_loops,
                body,
            })
        }
    }
}

fn with_op(draft: Draft, op: Op) -> Result<Draft, Refusal>
    requires { OpFits (plain_op op) }
    ensures { Makes result (act_step (plain_draft draft) (plain.Do (plain_op op))) }
{
    if !is_op_within(draft.header.modulus, &op, draft.open_loops.len() as u64) {
        return Err(Refusal::Line);
    }
    let mut body = draft.body;
    body.push(Stmt::Do(op))?;
    Ok(Draft {
        header: draft.header,
        tables: draft.tables,
        phases: draft.phases,
        is_inside: true,
        open_loops: draft.open_loops,
        body,
    })
}

/// What was read inside a phase, with one act more.
pub fn with_act(alloc: Global, draft: Draft, act: Act) -> Result<Draft, Refusal>
    requires { ActFits (plain_act act) }
    ensures { Makes result (act_step (plain_draft draft) (plain_act act)) }
{
    match act {
        Act::Open { depth, count } => opened(alloc, draft, depth, count),
        Act::Close => closed(alloc, draft),
        Act::Do(op) => with_op(draft, op),
    }
}

/// There are no phases.
pub fn has_none(phases: &[Vec<Stmt>]) -> bool
    ensures { result ≡ is_empty (plain_phases phases.now) }
{
    match phases {
        [] => true,
        [_, ..] => false,
    }
}

fn are_below(entries: &[u64], modulus: u64) -> bool
    ensures { result ≡ list_all (λ c. nat_lt c modulus) entries.now }
{
    entries.iter().all(|c| *c < modulus)
}

// The table is the next one, stands before all phases, and has residues.
fn may_hold(draft: &Draft, number: u64, entries: &[u64]) -> bool
    ensures { result ≡ may_hold (plain_draft draft.now) (number, entries.now) }
{
    number == draft.tables.len() as u64
        && (has_none(&draft.phases) && are_below(entries, draft.header.modulus))
}

/// What was read, with the table of this number.
pub fn with_table(
    alloc: Global,
    draft: Draft,
    number: u64,
    entries: Vec<u64>,
) -> Result<Draft, Refusal>
    ensures { Makes result (table_step (plain_draft draft) (number, entries.items)) }
{
    if !may_hold(&draft, number, &entries) {
        return Err(Refusal::Line);
    }
    let mut tables = draft.tables;
    tables.push(entries)?;
    Ok(Draft {
        header: draft.header,
        tables,
        phases: draft.phases,
        is_inside: false,
        open_loops: Vec::new(alloc),
        body: Vec::new(alloc),
    })
}

/// What was read, with the begin of one phase more.
pub fn entered(alloc: Global, draft: Draft) -> Draft
    ensures { plain_draft result ≡ entered (plain_draft draft) }
{
    Draft {
        header: draft.header,
        tables: draft.tables,
        phases: draft.phases,
        is_inside: true,
        open_loops: Vec::new(alloc),
        body: Vec::new(alloc),
    }
}
