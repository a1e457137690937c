//! Programs in the words of a language: one walk for all of them.

ghost use Rattle.std.specs.Prelude.{◌≡◌, ◌++◌, IsTrue, IfOk, OnOk, length};
ghost use Rattle.std.specs.List.{list_all};
ghost use Rattle.icode.specs.Plain.{plain_op, plain_stmt, plain_body, plain_tables, plain_phases};
ghost use Rattle.icode.specs.Program.{plain_program};
ghost use Rattle.grammar.specs.Cursor.{GivesAll, TellsAll};
ghost use Rattle.grammar.specs.Reading.{whole};
ghost use Rattle.listing_text.specs.Acts.{plain_act, ActFits};
ghost use Rattle.listing_text.specs.Drafts.{is_header_within};
ghost use Rattle.listing_text.specs.Progress.{Grammar};
ghost use Rattle.listing_text.specs.Nests.{is_nest_within, are_nests_within};
ghost use Rattle.listing_text.specs.Wording.{Wording, header_of, Open, Close, Do, stmt_lines, body_lines, tables_text, phases_text, text_of};

use crate::acts::Act;
use crate::draft::Header;
use grammar::{ReadError, Stuck};
use icode::program::{Op, Program, Stmt};
use memory::NoMemory;
use std::alloc::{AllocError, Global};

/// What writes each part of a program.
pub trait Language {
    /// The text of each part.
    ghost wording: { Wording };

    /// How its lines are read.
    ghost grammar: { Grammar };

    /// Writes the first line.
    fn put_first(out: &mut Vec<u8>, header: &Header) -> Result<(), AllocError>
        ensures { OnOk result (out.new.items ≡ out.old.items ++ wording.header header.now) };

    /// Writes what stands between the first line and the tables.
    fn put_front(out: &mut Vec<u8>, header: &Header) -> Result<(), AllocError>
        requires { IsTrue (is_header_within header.now) }
        ensures { OnOk result (out.new.items ≡ out.old.items ++ wording.front header.now) };

    /// Writes a table.
    fn put_table(out: &mut Vec<u8>, number: u64, entries: &[u64]) -> Result<(), AllocError>
        ensures { OnOk result (out.new.items ≡ out.old.items ++ wording.table number entries.now) };

    /// Writes what stands between the tables and the phases.
    fn put_between(out: &mut Vec<u8>) -> Result<(), AllocError>
        ensures { OnOk result (out.new.items ≡ out.old.items ++ wording.between) };

    /// Writes how a phase begins.
    fn put_phase(out: &mut Vec<u8>, regs: u64, number: u64) -> Result<(), AllocError>
        ensures { OnOk result (out.new.items ≡ out.old.items ++ wording.phase regs number) };

    /// Writes how a loop begins.
    fn put_loop(out: &mut Vec<u8>, depth: u64, count: u64) -> Result<(), AllocError>
        ensures { OnOk result (out.new.items ≡ out.old.items ++ wording.line (Open depth count)) };

    /// Writes how a loop or a phase ends.
    fn put_end(out: &mut Vec<u8>) -> Result<(), AllocError>
        ensures { OnOk result (out.new.items ≡ out.old.items ++ wording.line Close) };

    /// Writes the line of an operation.
    fn put_op(out: &mut Vec<u8>, op: &Op) -> Result<(), AllocError>
        ensures { OnOk result (out.new.items
            ≡ out.old.items ++ wording.line (Do (plain_op op.now))) };

    /// The numbers of the first line.
    fn read_header(line: &[u8]) -> Result<Header, Stuck>
        ensures { GivesAll result (whole grammar.header line.now) };

    /// The number of a table and its entries.
    fn read_table(alloc: Global, line: &[u8]) -> Result<(u64, Vec<u64>), ReadError>
        ensures { TellsAll (λ table. (table.0, table.1.items)) result
            (whole (grammar.table (length line.now)) line.now) };

    /// What a line of a phase is.
    fn read_act(alloc: Global, line: &[u8]) -> Result<Act, ReadError>
        ensures read { TellsAll plain_act result (whole grammar.act line.now) }
        ensures fits { IfOk result (λ act. ActFits (plain_act act)) };
}

fn header_of(program: &Program) -> Header
    ensures value { result ≡ header_of (plain_program program.now) }
    ensures within { IsTrue (is_header_within result) }
{
    Header {
        size: program.size,
        modulus: program.modulus,
        procs: program.procs,
        line: program.line,
        lanes: program.lanes,
        regs: program.regs,
    }
}

// A statement inside `depth` loops.
fn put_stmt<L: Language>(out: &mut Vec<u8>, stmt: &Stmt, depth: u64) -> Result<(), AllocError>
    requires { IsTrue (is_nest_within (plain_stmt stmt.now) depth) }
    ensures { OnOk result (out.new.items
        ≡ out.old.items ++ stmt_lines L.wording.line depth (plain_stmt stmt.now)) }
{
    match stmt {
        Stmt::Loop { count, body } => {
            L::put_loop(out, depth, *count)?;
            for inner in body {
                put_stmt::<L>(out, inner, depth + 1)?;
            }
            L::put_end(out)
        }
        Stmt::Do(op) => L::put_op(out, op),
    }
}

// Statements that stand in no loop, of which none is deeper than a program's may be.
fn put_body<L: Language>(out: &mut Vec<u8>, body: &[Stmt]) -> Result<(), AllocError>
    requires { IsTrue (are_nests_within (plain_body body.now) 0) }
    ensures { OnOk result (out.new.items
        ≡ out.old.items ++ body_lines L.wording.line 0 (plain_body body.now)) }
{
    for stmt in body {
        put_stmt::<L>(out, stmt, 0)?;
    }
    Ok(())
}

fn put_tables<L: Language>(out: &mut Vec<u8>, tables: &[Vec<u64>]) -> Result<(), AllocError>
    ensures { OnOk result (out.new.items
        ≡ out.old.items ++ tables_text L.wording 0 (plain_tables tables.now)) }
{
    for (number, entries) in tables.iter().enumerate() {
        L::put_table(out, number as u64, entries)?;
    }
    Ok(())
}

fn put_phases<L: Language>(
    out: &mut Vec<u8>,
    regs: u64,
    phases: &[Vec<Stmt>],
) -> Result<(), AllocError>
    requires { IsTrue (list_all (λ body. are_nests_within body 0) (plain_phases phases.now)) }
    ensures { OnOk result (out.new.items
        ≡ out.old.items ++ phases_text L.wording regs 0 (plain_phases phases.now)) }
{
    for (number, body) in phases.iter().enumerate() {
        L::put_phase(out, regs, number as u64)?;
        put_body::<L>(out, body)?;
        L::put_end(out)?;
    }
    Ok(())
}

/// The text of a program.
pub fn print<L: Language>(alloc: Global, program: &Program) -> Result<Vec<u8>, NoMemory>
    ensures { IfOk result
        (λ text. text.items ≡ text_of L.wording (plain_program program.now)) }
{
    let mut out = Vec::new(alloc);
    let header = header_of(program);
    L::put_first(&mut out, &header)?;
    L::put_front(&mut out, &header)?;
    put_tables::<L>(&mut out, &program.tables)?;
    L::put_between(&mut out)?;
    put_phases::<L>(&mut out, program.regs, &program.phases)?;
    Ok(out)
}
