// From programs on residues to programs on words.

ghost use Rattle.std.specs.Prelude.{◌≡◌, ◌*◌, ◌^◌, ◌<◌, ◌≤◌, length, map, replicate, All};
ghost use Rattle.std.specs.Prelude.{IfOk, OnOk, IsTrue, ◌==◌, ◌&&◌};
ghost use Rattle.icode.specs.Limits.{is_stmt_within, is_body_within};
ghost use Rattle.icode.specs.Limits.{are_tables_within, are_phases_within};
ghost use Rattle.icode.specs.Plain.{plain_stmt, plain_body, plain_tables, plain_phases};
ghost use Rattle.icode.specs.Program.{plain_program};
ghost use Rattle.word_code.specs.Words.{quotient_of};
ghost use Rattle.word_code.specs.Laws.{IsLazyWithin};
ghost use Rattle.word_code.specs.Same.{LeavesTheSame, OrderIsFreeOf, FitsAs};
ghost use Rattle.word_code.specs.Quicken.{quotients_of, quickened};
ghost use Rattle.word_code.specs.Setting.{IsSettingWithin, AreBoundsWithin};
ghost use Rattle.word_code.specs.Setting.{quick_stmt_in, quick_phase_in, quick_phases_in};
ghost use Rattle.word_code.specs.Views.{lazy_of, plain_word_stmt, plain_word_body};
ghost use Rattle.word_code.specs.Views.{plain_word_phases, plain_word_program};

use crate::note::{note_of, quotient};
use crate::program::{Laziness, Setting, WordProgram, WordStmt};
use crate::single::quicken_alone;
use icode::copies::copied_tables;
use icode::program::{Program, Stmt};
use memory::NoMemory;
use std::alloc::Global;

/// Nothing is known but the limit.
fn loosen(bounds: &mut [u64], limit: u64)
    ensures { bounds.new ≡ replicate (length bounds.old) limit }
{
    bounds.fill(limit);
}

/// The statement on words, with the bounds of the registers after it.
pub(crate) fn quicken_stmt(
    alloc: Global,
    setting: Setting,
    stmt: &Stmt,
    depth: u64,
    bounds: &mut [u64],
) -> Result<WordStmt, NoMemory>
    requires within { IsTrue (is_stmt_within setting.modulus (plain_stmt stmt.now) depth) }
    requires setting { IsSettingWithin setting }
    requires regs { length bounds.old ≡ setting.regs }
    requires depth { depth ≤ 64 }
    requires sane { AreBoundsWithin setting bounds.old }
    ensures stmt { IfOk result
        (λ s. plain_word_stmt s ≡ (quick_stmt_in setting stmt.now bounds.old).stmt) }
    ensures after { OnOk result
        (bounds.new ≡ (quick_stmt_in setting stmt.now bounds.old).bounds) }
{
    match stmt {
        Stmt::Loop { count, body } => {
            loosen(bounds, setting.laziness.limit);
            let mut made = Vec::new(alloc);
            for inner in body {
                let inner = quicken_stmt(alloc, setting, inner, depth + 1, bounds)?;
                made.push(inner)?;
            }
            loosen(bounds, setting.laziness.limit);
            Ok(WordStmt::Loop {
                count: *count,
                body: made,
            })
        }
        Stmt::Do(op) => {
            let note = note_of(alloc, setting, depth, op, bounds)?;
            let op = op.copied(alloc)?;
            Ok(WordStmt::Do { note, op })
        }
    }
}

/// The statements of a phase on words.
fn quicken_phase(alloc: Global, setting: Setting, body: &[Stmt]) -> Result<Vec<WordStmt>, NoMemory>
    requires within { IsTrue (is_body_within setting.modulus (plain_body body.now) 0) }
    requires setting { IsSettingWithin setting }
    ensures { IfOk result
        (λ made. plain_word_body made.items ≡ quick_phase_in setting (plain_body body.now)) }
{
    let mut bounds = vec![in alloc; setting.laziness.limit; setting.regs as usize]?;
    let bounds = bounds.as_mut_slice();
    let mut made = Vec::new(alloc);
    for stmt in body {
        let stmt = quicken_stmt(alloc, setting, stmt, 0, bounds)?;
        made.push(stmt)?;
    }
    Ok(made)
}

fn quotients(alloc: Global, half: u64, modulus: u64, entries: &[u64]) -> Result<Vec<u64>, NoMemory>
    requires half { half ≤ 2 ^ 32 }
    requires below { All (λ c. c < modulus) entries.now }
    ensures { IfOk result
        (λ made. made.items ≡ map (quotient_of (half * half) modulus) entries.now) }
{
    let mut made = Vec::new(alloc);
    for entry in entries {
        made.push(quotient(half, modulus, *entry))?;
    }
    Ok(made)
}

fn quotient_tables(
    alloc: Global,
    laziness: Laziness,
    modulus: u64,
    tables: &[Vec<u64>],
) -> Result<Vec<Vec<u64>>, NoMemory>
    requires half { laziness.half ≤ 2 ^ 32 }
    requires below { IsTrue (are_tables_within modulus (plain_tables tables.now)) }
    ensures { IfOk result (λ made. plain_tables made.items
        ≡ quotients_of (lazy_of laziness) modulus (plain_tables tables.now)) }
{
    let mut made = Vec::new(alloc);
    for entries in tables {
        let entries = quotients(alloc, laziness.half, modulus, entries)?;
        made.push(entries)?;
    }
    Ok(made)
}

/// Whether there are one processor and one phase alone.
fn is_alone(procs: u64, phases: &[Vec<Stmt>]) -> bool
    ensures { result ≡ (procs == 1 && length phases.now == 1) }
{
    procs == 1 && phases.len() == 1
}

fn quicken_phases(
    alloc: Global,
    setting: Setting,
    procs: u64,
    phases: &[Vec<Stmt>],
) -> Result<Vec<Vec<WordStmt>>, NoMemory>
    requires within { IsTrue (are_phases_within setting.modulus (plain_phases phases.now)) }
    requires setting { IsSettingWithin setting }
    ensures { IfOk result (λ made. plain_word_phases made.items
        ≡ quick_phases_in setting procs (plain_phases phases.now)) }
{
    let mut made = Vec::new(alloc);
    if is_alone(procs, phases) {
        let body = quicken_alone(alloc, setting, &phases[0])?;
        made.push(body)?;
        return Ok(made);
    }
    for body in phases {
        let body = quicken_phase(alloc, setting, body)?;
        made.push(body)?;
    }
    Ok(made)
}

fn words_of(alloc: Global, laziness: Laziness, program: &Program) -> Result<WordProgram, NoMemory>
    requires lazy { IsLazyWithin (lazy_of laziness) program.now.modulus }
    requires small { laziness.limit < 2 ^ 32 }
    requires half { laziness.half ≤ 2 ^ 32 }
    ensures { IfOk result (λ words. plain_word_program words
        ≡ quickened (lazy_of laziness) (plain_program program.now)) }
{
    let setting = Setting {
        laziness,
        modulus: program.modulus,
        lanes: program.lanes,
        regs: program.regs,
    };
    let tables = copied_tables(alloc, &program.tables)?;
    let quotients = quotient_tables(alloc, laziness, program.modulus, &program.tables)?;
    let phases = quicken_phases(alloc, setting, program.procs, &program.phases)?;
    Ok(WordProgram {
        half: laziness.half,
        rough: laziness.rough,
        size: program.size,
        modulus: program.modulus,
        procs: program.procs,
        line: program.line,
        lanes: program.lanes,
        regs: program.regs,
        tables,
        quotients,
        phases,
    })
}

/// The program on words. Where the program fits it leaves the residues that the program leaves, for every
/// vector of residues and every order of turns; where no processor touches a line that another writes, that
/// order is free.
pub fn quicken(
    alloc: Global,
    laziness: Laziness,
    program: &Program,
) -> Result<WordProgram, NoMemory>
    requires lazy { IsLazyWithin (lazy_of laziness) program.now.modulus }
    requires small { laziness.limit < 2 ^ 32 }
    requires half { laziness.half ≤ 2 ^ 32 }
    ensures made { IfOk result (λ words. plain_word_program words
        ≡ quickened (lazy_of laziness) (plain_program program.now)) }
    ensures fits { IfOk result (λ words. FitsAs words program.now) }
    ensures same { IfOk result (λ words. LeavesTheSame words program.now) }
    ensures order { IfOk result (λ words. OrderIsFreeOf words program.now) }
{
    let words = words_of(alloc, laziness, program)?;
    Ok(words)
}
