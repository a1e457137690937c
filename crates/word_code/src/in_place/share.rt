// Programs on words in place.

ghost use Rattle.std.specs.Prelude.{◌≡◌, ℕ, IfOk};
ghost use Rattle.icode.specs.Machine.{IsApart};
ghost use Rattle.icode.specs.Plain.{plain_stmt, plain_body};
ghost use Rattle.icode.specs.Program.{plain_program, code_of, Fits};
ghost use Rattle.word_code.specs.Bare.{WordsFit};
ghost use Rattle.word_code.specs.Quicken.{PlainLaziness, quickened};
ghost use Rattle.word_code.specs.Views.{plain_word_program};
ghost use Rattle.word_code.specs.WordMachine.{under};
ghost use Rattle.word_code.specs.WordProgram.{word_code};
ghost use Rattle.word_code.specs.InPlace.Sharing.{is_full, are_full, is_loop, are_loops};
ghost use Rattle.word_code.specs.InPlace.Sharing.{routes_of, in_place};
ghost use Rattle.word_code.specs.InPlace.Laws.{LeavesAlike};

use crate::in_place::reroute::reroute;
use crate::in_place::routes::Route;
use crate::in_place::routing::choose;
use crate::in_place::walk::may_go;
use crate::program::WordProgram;
use icode::program::{Program, Stmt};
use memory::NoMemory;
use std::alloc::Global;

/// Whether no loop in the statement is empty.
#[cycle(full)]
fn is_full(stmt: &Stmt) -> bool
    ensures { result ≡ is_full (plain_stmt stmt.now) }
{
    match stmt {
        Stmt::Loop { body, .. } => !body.is_empty() && are_full(body),
        Stmt::Do(_) => true,
    }
}

#[cycle(full)]
fn are_full(body: &[Stmt]) -> bool
    ensures { result ≡ are_full (plain_body body.now) }
{
    for stmt in body {
        if !is_full(stmt) {
            return false;
        }
    }
    true
}

fn is_loop(stmt: &Stmt) -> bool
    ensures { result ≡ is_loop (plain_stmt stmt.now) }
{
    match stmt {
        Stmt::Loop { .. } => true,
        Stmt::Do(_) => false,
    }
}

fn are_loops(body: &[Stmt]) -> bool
    ensures { result ≡ are_loops (plain_body body.now) }
{
    for stmt in body {
        if !is_loop(stmt) {
            return false;
        }
    }
    true
}

/// The routes that a program may go, or none.
fn routes_of(alloc: Global, program: &Program) -> Result<Vec<Route>, NoMemory>
    requires fits { Fits program.now }
    ensures { IfOk result (λ routes. let p = plain_program program.now in
        routes.items ≡ routes_of p p.phases) }
{
    if program.procs != 1 || program.phases.len() != 1 {
        return Ok(Vec::new(alloc));
    }
    let body = &program.phases[0];
    if !are_loops(body) || !are_full(body) {
        return Ok(Vec::new(alloc));
    }
    let routes = choose(alloc, body)?;
    if may_go(alloc, program, body, &routes)? {
        Ok(routes)
    } else {
        Ok(Vec::new(alloc))
    }
}

/// The words of a program, in place: its statements share arrays where each load still finds its
/// words. They leave what they left, for every vector and every order of turns; they fit where they
/// did, and no processor touches a line that another writes.
pub fn work_in_place(
    alloc: Global,
    program: &Program,
    words: WordProgram,
) -> Result<WordProgram, NoMemory>
    requires fits { Fits program.now }
    ensures made { IfOk result (λ made. plain_word_program made
        ≡ in_place (plain_program program.now) (plain_word_program words)) }
    ensures same { IfOk result (λ made. (z : PlainLaziness)
        → plain_word_program words ≡ quickened z (plain_program program.now)
        → LeavesAlike (plain_word_program made) (plain_word_program words)) }
    ensures fits { IfOk result
        (λ made. WordsFit (plain_word_program words) → WordsFit (plain_word_program made)) }
    ensures apart { IfOk result (λ made. (z : PlainLaziness)
        → plain_word_program words ≡ quickened z (plain_program program.now)
        → ((phase : ℕ) → IsApart (code_of program.now) phase)
        → (phase : ℕ) → IsApart (under (word_code (plain_word_program made))) phase) }
{
    let routes = routes_of(alloc, program)?;
    let made = reroute(&routes, words);
    Ok(made)
}
