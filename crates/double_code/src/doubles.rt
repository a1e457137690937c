// From programs on residues to programs on doubles.

ghost use Rattle.std.specs.Prelude.{◌≡◌, ◌^◌, ◌<◌, ◌≤◌, length, map, replicate};
ghost use Rattle.std.specs.Prelude.{IfOk, OnOk, IsTrue};
ghost use Rattle.icode.specs.Limits.{is_stmt_within, is_body_within, are_phases_within};
ghost use Rattle.icode.specs.Plain.{plain_stmt, plain_body, plain_phases};
ghost use Rattle.icode.specs.Program.{plain_program};
ghost use Rattle.double_code.specs.Doubled.{doubled};
ghost use Rattle.double_code.specs.Reductions.{limit_of};
ghost use Rattle.double_code.specs.Same.{LeavesTheSame};
ghost use Rattle.double_code.specs.Setting.{IsSettingWithin, AreBoundsWithin};
ghost use Rattle.double_code.specs.Setting.{doubled_stmt_in, doubled_phase_in};
ghost use Rattle.double_code.specs.Views.{plain_double_stmt, plain_double_body};
ghost use Rattle.double_code.specs.Views.{plain_double_phases, plain_double_program};

use crate::limits::limit_of;
use crate::note::note_of;
use crate::program::{DoubleProgram, DoubleStmt, Setting};
use crate::tables::factor_tables;
use icode::copies::copied_tables;
use icode::program::{Program, Stmt};
use memory::NoMemory;
use std::alloc::Global;

/// Nothing is known but the limit.
fn loosen(bounds: &mut [u64], limit: u64)
    ensures { bounds.new ≡ replicate (length bounds.old) limit }
{
    bounds.fill(limit);
}

/// The statement on doubles, with the bounds of the registers after it.
fn double_stmt(
    alloc: Global,
    setting: Setting,
    stmt: &Stmt,
    depth: u64,
    bounds: &mut [u64],
) -> Result<DoubleStmt, NoMemory>
    requires within { IsTrue (is_stmt_within setting.modulus (plain_stmt stmt.now) depth) }
    requires setting { IsSettingWithin setting }
    requires regs { length bounds.old ≡ setting.regs }
    requires depth { depth ≤ 64 }
    requires sane { AreBoundsWithin setting bounds.old }
    ensures stmt { IfOk result
        (λ s. plain_double_stmt s ≡ (doubled_stmt_in setting stmt.now bounds.old).stmt) }
    ensures after { OnOk result
        (bounds.new ≡ (doubled_stmt_in setting stmt.now bounds.old).bounds) }
{
    match stmt {
        Stmt::Loop { count, body } => {
            loosen(bounds, limit_of(setting.modulus));
            let mut made = Vec::new(alloc);
            for inner in body {
                let inner = double_stmt(alloc, setting, inner, depth + 1, bounds)?;
                made.push(inner)?;
            }
            loosen(bounds, limit_of(setting.modulus));
            Ok(DoubleStmt::Loop {
                count: *count,
                body: made,
            })
        }
        Stmt::Do(op) => {
            let note = note_of(alloc, setting, depth, op, bounds)?;
            let op = op.copied(alloc)?;
            Ok(DoubleStmt::Do { note, op })
        }
    }
}

/// The statements of a phase on doubles.
fn double_phase(alloc: Global, setting: Setting, body: &[Stmt]) -> Result<Vec<DoubleStmt>, NoMemory>
    requires within { IsTrue (is_body_within setting.modulus (plain_body body.now) 0) }
    requires setting { IsSettingWithin setting }
    ensures { IfOk result
        (λ made. plain_double_body made.items ≡ doubled_phase_in setting (plain_body body.now)) }
{
    let mut bounds = vec![in alloc; limit_of(setting.modulus); setting.regs as usize]?;
    let bounds = bounds.as_mut_slice();
    let mut made = Vec::new(alloc);
    for stmt in body {
        let stmt = double_stmt(alloc, setting, stmt, 0, bounds)?;
        made.push(stmt)?;
    }
    Ok(made)
}

fn double_phases(
    alloc: Global,
    setting: Setting,
    phases: &[Vec<Stmt>],
) -> Result<Vec<Vec<DoubleStmt>>, NoMemory>
    requires within { IsTrue (are_phases_within setting.modulus (plain_phases phases.now)) }
    requires setting { IsSettingWithin setting }
    ensures { IfOk result (λ made. plain_double_phases made.items
        ≡ map (doubled_phase_in setting) (plain_phases phases.now)) }
{
    let mut made = Vec::new(alloc);
    for body in phases {
        let body = double_phase(alloc, setting, body)?;
        made.push(body)?;
    }
    Ok(made)
}

fn doubles_of(alloc: Global, program: &Program) -> Result<DoubleProgram, NoMemory>
    requires below { program.now.modulus < 2 ^ 50 }
    ensures { IfOk result
        (λ doubles. plain_double_program doubles ≡ doubled (plain_program program.now)) }
{
    let setting = Setting {
        modulus: program.modulus,
        lanes: program.lanes,
        regs: program.regs,
    };
    let tables = copied_tables(alloc, &program.tables)?;
    let factors = factor_tables(alloc, program.modulus, &program.tables)?;
    let phases = double_phases(alloc, setting, &program.phases)?;
    Ok(DoubleProgram {
        size: program.size,
        modulus: program.modulus,
        procs: program.procs,
        line: program.line,
        lanes: program.lanes,
        regs: program.regs,
        tables,
        factors,
        phases,
    })
}

/// The program on doubles. Where the program fits it leaves the residues that the program leaves, for every vector of
/// residues and every order of turns.
pub fn make_double(alloc: Global, program: &Program) -> Result<DoubleProgram, NoMemory>
    requires below { program.now.modulus < 2 ^ 50 }
    ensures made { IfOk result
        (λ doubles. plain_double_program doubles ≡ doubled (plain_program program.now)) }
    ensures same { IfOk result (λ doubles. LeavesTheSame doubles program.now) }
{
    let doubles = doubles_of(alloc, program)?;
    Ok(doubles)
}
