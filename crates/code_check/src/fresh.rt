// Whether a program reads anything that is left over from before its run.

ghost use Rattle.std.specs.Prelude.{◌≡◌, ℕ, ◌↔◌, ◌<◌, ◌≤◌, length, take, IsTrue, IfOk};
ghost use Rattle.icode.specs.Actions.{StepFits};
ghost use Rattle.icode.specs.Fresh.{IsFresh};
ghost use Rattle.icode.specs.Limits.{is_op_within, is_stmt_within, is_body_within};
ghost use Rattle.icode.specs.Machine.{IsApart};
ghost use Rattle.icode.specs.Plain.{plain_op};
ghost use Rattle.icode.specs.Program.{plain_program, code_of, op_step, Fits};
ghost use Rattle.code_check.specs.Live.{plain_live, plain_lives};
ghost use Rattle.code_check.specs.Marks.{reads_known, marks_after, is_fresh};
ghost use Rattle.code_check.specs.MarkTables.{marks_of, IsMarkTable, StmtFits, BodyFits};
ghost use Rattle.code_check.specs.MarkTables.{live_steps, lives_steps, Tells, MarksIf, PhaseTells, PhaseMarksIf};
ghost use Rattle.code_check.specs.Workers.{program_of};

use crate::live::{Live, live_of};
use crate::mark_table::{MarkTable, are_marked, mark};
use crate::walk::{MAX_DEPTH, Worker};
use icode::program::{Op, Program};
use memory::NoMemory;
use std::alloc::Global;

// Whether the operation reads what is known.
fn reads_known(op: &Op, worker: &Worker<'_>, values: &[u64], table: &MarkTable) -> bool
    requires within { IsTrue
        (is_op_within (program_of worker.now).modulus (plain_op op.now) (length values.now)) }
    requires fits { StepFits (program_of worker.now)
        (op_step worker.now.program.now op.now values.now worker.now.proc) }
    requires table { IsMarkTable (program_of worker.now) table.now }
    ensures { let step = op_step worker.now.program.now op.now values.now worker.now.proc in
        result ≡ reads_known (program_of worker.now).lanes step.action (marks_of table.now) }
{
    let program = worker.program;
    match op {
        Op::Load { array, place, .. } => {
            let address = program.address(*array, place.value(values, worker.proc));
            are_marked(&table.words, program.lanes, address)
        }
        Op::Store { register, .. } => table.registers[*register as usize],
        Op::Zero { .. } => true,
        Op::Add { left, right, .. } => {
            table.registers[*left as usize] && table.registers[*right as usize]
        }
        Op::Sub { left, right, .. } => {
            table.registers[*left as usize] && table.registers[*right as usize]
        }
        Op::Neg { source, .. } => table.registers[*source as usize],
        Op::MulConst { source, .. } => table.registers[*source as usize],
        Op::MulTable { source, .. } => table.registers[*source as usize],
        Op::Tile { source, .. } => are_marked(&table.registers, program.lanes, *source),
    }
}

// What it stores or puts is known from then on.
fn note(op: &Op, worker: &Worker<'_>, values: &[u64], table: &mut MarkTable)
    requires within { IsTrue
        (is_op_within (program_of worker.now).modulus (plain_op op.now) (length values.now)) }
    requires fits { StepFits (program_of worker.now)
        (op_step worker.now.program.now op.now values.now worker.now.proc) }
    requires table { IsMarkTable (program_of worker.now) table.old }
    ensures marks { let step = op_step worker.now.program.now op.now values.now worker.now.proc in
        marks_of table.new
        ≡ marks_after (program_of worker.now).lanes step.action (marks_of table.old) }
    ensures table { IsMarkTable (program_of worker.now) table.new }
{
    let program = worker.program;
    match op {
        Op::Store { array, place, .. } => {
            let address = program.address(*array, place.value(values, worker.proc));
            mark(&mut table.words, program.lanes, address);
        }
        Op::Load { register, .. } => table.registers[*register as usize] = true,
        Op::Zero { register } => table.registers[*register as usize] = true,
        Op::Add { register, .. } => table.registers[*register as usize] = true,
        Op::Sub { register, .. } => table.registers[*register as usize] = true,
        Op::Neg { register, .. } => table.registers[*register as usize] = true,
        Op::MulConst { register, .. } => table.registers[*register as usize] = true,
        Op::MulTable { register, .. } => table.registers[*register as usize] = true,
        Op::Tile { register, .. } => mark(&mut table.registers, program.lanes, *register),
    }
}

// Whether all turns of the statement do, one after another, where the first `depth` values are those of the open loops.
#[cycle(known)]
fn stmt_reads_known(
    stmt: &Live<'_>,
    worker: &Worker<'_>,
    values: &mut [u64; MAX_DEPTH],
    depth: usize,
    table: &mut MarkTable,
) -> bool
    requires within { IsTrue
        (is_stmt_within (program_of worker.now).modulus (plain_live stmt.now) depth) }
    requires depth { depth ≤ 64 }
    requires fits { StmtFits worker.now (plain_live stmt.now) (take depth values.old) }
    requires table { IsMarkTable (program_of worker.now) table.old }
    ensures known { Tells result (program_of worker.now)
        (live_steps worker.now stmt.now (take depth values.old)) table.old }
    ensures after { MarksIf result (program_of worker.now)
        (live_steps worker.now stmt.now (take depth values.old)) table.old table.new }
    ensures table { IsMarkTable (program_of worker.now) table.new }
    ensures values { take depth values.new ≡ take depth values.old }
{
    match stmt {
        Live::Loop { count, body } => {
            for turn in 0..*count {
                values[depth] = turn;
                if !body_reads_known(body, worker, values, depth + 1, table) {
                    return false;
                }
            }
            true
        }
        Live::Do(op) => {
            let known = reads_known(op, worker, &values[..depth], table);
            note(op, worker, &values[..depth], table);
            known
        }
    }
}

// Whether statements, one after another, read only what is known.
#[cycle(known)]
fn body_reads_known(
    body: &[Live<'_>],
    worker: &Worker<'_>,
    values: &mut [u64; MAX_DEPTH],
    depth: usize,
    table: &mut MarkTable,
) -> bool
    requires within { IsTrue
        (is_body_within (program_of worker.now).modulus (plain_lives body.now) depth) }
    requires depth { depth ≤ 64 }
    requires fits { BodyFits worker.now (plain_lives body.now) (take depth values.old) }
    requires table { IsMarkTable (program_of worker.now) table.old }
    ensures known { Tells result (program_of worker.now)
        (lives_steps worker.now body.now (take depth values.old)) table.old }
    ensures after { MarksIf result (program_of worker.now)
        (lives_steps worker.now body.now (take depth values.old)) table.old table.new }
    ensures table { IsMarkTable (program_of worker.now) table.new }
    ensures values { take depth values.new ≡ take depth values.old }
{
    for stmt in body {
        if !stmt_reads_known(stmt, worker, values, depth, table) {
            return false;
        }
    }
    true
}

// Whether the processors of a phase, one after another, read only what is known.
fn phase_reads_known(
    alloc: Global,
    program: &Program,
    phase: usize,
    table: &mut MarkTable,
) -> Result<bool, NoMemory>
    requires phase { phase < length program.now.phases.items }
    requires fits { Fits program.now }
    requires table { IsMarkTable (plain_program program.now) table.old }
    ensures known { IfOk result (PhaseTells program.now phase table.old) }
    ensures after { IfOk result (PhaseMarksIf program.now phase table.old table.new) }
    ensures table { IsMarkTable (plain_program program.now) table.new }
{
    let body = live_of(alloc, &program.phases[phase])?;
    let mut values = [0; MAX_DEPTH];
    for proc in 0..program.procs {
        table.begin_phase();
        let worker = Worker { program, proc };
        if !body_reads_known(&body, &worker, &mut values, 0, table) {
            return Ok(false);
        }
    }
    Ok(true)
}

// Whether all phases read only what is known, and all words of the result are known then.
fn program_reads_known(alloc: Global, program: &Program) -> Result<bool, NoMemory>
    requires fits { Fits program.now }
    ensures { IfOk result (λ fresh. fresh ≡ is_fresh (plain_program program.now)) }
{
    let mut table = MarkTable::of_input(alloc, program)?;
    for phase in 0..program.phases.len() {
        if !phase_reads_known(alloc, program, phase, &mut table)? {
            return Ok(false);
        }
    }
    Ok(are_marked(&table.words, program.size, program.array_size()))
}

/// Whether the program reads nothing that is left over: each action loads words of the input or words that were stored
/// before, reads registers that its processor has put in the phase, and all words of the result are stored.
pub fn is_fresh(alloc: Global, program: &Program) -> Result<bool, NoMemory>
    requires fits { Fits program.now }
    // What a walk over all actions answers that marks what is known.
    ensures marks { IfOk result (λ fresh. fresh ≡ is_fresh (plain_program program.now)) }
    // It is the right answer where no processor touches a line that another writes in the phase.
    ensures decides { ((phase : ℕ) → IsApart (code_of program.now) phase)
        → IfOk result (λ fresh. IsTrue fresh ↔ IsFresh (code_of program.now)) }
{
    let fresh = program_reads_known(alloc, program)?;
    Ok(fresh)
}
