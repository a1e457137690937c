// Programs whose loops are interchanged.

ghost use Rattle.std.specs.Prelude.{◌≡◌, ◌<◌, true, map};
ghost use Rattle.std.specs.List.{list_all};
ghost use Rattle.icode.specs.Plain.{Loop, plain_stmt, plain_body, plain_phases};
ghost use Rattle.icode.specs.Program.{plain_program};
ghost use Rattle.nests.specs.Nests.{is_nest, are_nests};
ghost use Rattle.interchange.specs.Interchanged.{interchanged_nest, interchanged_body, interchanged};
ghost use Rattle.nests.specs.Views.{loops_in};
ghost use Rattle.interchange.specs.Views.{is_shallow, are_shallow};
ghost use Rattle.interchange.specs.Laws.{InterchangedLeavesTheSame};

use crate::orders::order;
use icode::program::{Program, Stmt};
use nests::{are_independent, innermost, is_nest};

fn are_nests(lanes: u64, body: &[Stmt]) -> bool
    ensures { result ≡ are_nests lanes (plain_body body.now) }
{
    for stmt in body {
        if !is_nest(lanes, stmt) {
            return false;
        }
    }
    true
}

fn are_all_nests(lanes: u64, phases: &[Vec<Stmt>]) -> bool
    ensures { result ≡ list_all (are_nests lanes) (plain_phases phases.now) }
{
    for body in phases {
        if !are_nests(lanes, body) {
            return false;
        }
    }
    true
}

// Gets loops in order, of which the outermost has `count` rounds of this body, if their rounds are independent.
fn interchange_loop(lanes: u64, count: &mut u64, body: &mut [Stmt])
    requires { loops_in (plain_body body.old) < 64 }
    ensures { Loop count.new (plain_body body.new)
        ≡ interchanged_nest lanes (Loop count.old (plain_body body.old)) }
{
    if are_independent(lanes, body, innermost(body)) {
        order(0, count, body);
    }
}

fn interchange_nest(lanes: u64, stmt: &mut Stmt)
    requires { is_shallow (plain_stmt stmt.old) ≡ true }
    ensures { plain_stmt stmt.new ≡ interchanged_nest lanes (plain_stmt stmt.old) }
{
    match stmt {
        Stmt::Loop { count, body } => interchange_loop(lanes, count, body),
        Stmt::Do(_) => (),
    }
}

fn interchange_body(lanes: u64, body: &mut [Stmt])
    requires { are_shallow (plain_body body.old) ≡ true }
    ensures { plain_body body.new ≡ interchanged_body lanes (plain_body body.old) }
{
    for stmt in body.iter_mut() {
        interchange_nest(lanes, stmt);
    }
}

fn interchange_phase(lanes: u64, body: &mut Vec<Stmt>)
    requires { are_shallow (plain_body body.old.items) ≡ true }
    ensures { plain_body body.new.items ≡ interchanged_body lanes (plain_body body.old.items) }
{
    interchange_body(lanes, body);
}

fn interchange_phases(lanes: u64, phases: &mut [Vec<Stmt>])
    requires { list_all are_shallow (plain_phases phases.old) ≡ true }
    ensures { plain_phases phases.new ≡ map (interchanged_body lanes) (plain_phases phases.old) }
{
    for body in phases.iter_mut() {
        interchange_phase(lanes, body);
    }
}

fn interchange_all(lanes: u64, phases: Vec<Vec<Stmt>>) -> Vec<Vec<Stmt>>
    requires { list_all are_shallow (plain_phases phases.items) ≡ true }
    ensures { plain_phases result.items
        ≡ map (interchanged_body lanes) (plain_phases phases.items) }
{
    let mut phases = phases;
    interchange_phases(lanes, &mut phases);
    phases
}

/// The program with loops interchanged, if all its statements are nests of loops: in a nest whose rounds are independent, each
/// loop goes inward as far as its rounds load from places nearer to one another than those of the next.
pub fn interchange(program: Program) -> Program
    ensures { plain_program result ≡ interchanged (plain_program program) }
{
    if !are_all_nests(program.lanes, &program.phases) {
        return program;
    }
    let phases = interchange_all(program.lanes, program.phases);
    Program {
        size: program.size,
        modulus: program.modulus,
        procs: program.procs,
        line: program.line,
        lanes: program.lanes,
        regs: program.regs,
        tables: program.tables,
        phases,
    }
}

/// Where a program fits and no processor touches a line that another writes in the same phase, the program with its loops
/// interchanged fits, its processors share no line either, and it leaves what the program leaves, whatever the orders of turns.
#[tactic(auto, using(crate::proofs::Law::interchanged_leaves_the_same))]
pub fn interchanged_leaves_the_same()
    ensures { InterchangedLeavesTheSame }
{}
