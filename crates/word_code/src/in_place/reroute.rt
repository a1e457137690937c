// Programs on words by other routes.

ghost use Rattle.std.specs.Prelude.{◌≡◌, map};
ghost use Rattle.icode.specs.Plain.{plain_op};
ghost use Rattle.word_code.specs.Views.{plain_word_stmt, plain_word_body};
ghost use Rattle.word_code.specs.Views.{plain_word_phases, plain_word_program};
ghost use Rattle.word_code.specs.InPlace.Routes.{rerouted_op, rerouted_stmt, rerouted_body};
ghost use Rattle.word_code.specs.InPlace.Routes.{rerouted_phase, rerouted};

use crate::in_place::routes::Route;
use crate::program::{WordProgram, WordStmt};
use icode::program::Op;

fn reroute_op(route: Route, op: &mut Op)
    ensures { plain_op op.new ≡ rerouted_op route (plain_op op.old) }
{
    match op {
        Op::Load { array, .. } => *array = route.source,
        Op::Store { array, .. } => *array = route.target,
        _ => (),
    }
}

#[cycle(reroute)]
fn reroute_stmt(route: Route, stmt: &mut WordStmt)
    ensures { plain_word_stmt stmt.new ≡ rerouted_stmt route (plain_word_stmt stmt.old) }
{
    match stmt {
        WordStmt::Loop { body, .. } => reroute_body(route, body),
        WordStmt::Do { op, .. } => reroute_op(route, op),
    }
}

#[cycle(reroute)]
fn reroute_body(route: Route, body: &mut [WordStmt])
    ensures { plain_word_body body.new ≡ rerouted_body route (plain_word_body body.old) }
{
    for stmt in body.iter_mut() {
        reroute_stmt(route, stmt);
    }
}

fn reroute_phase(routes: &[Route], body: &mut [WordStmt])
    ensures { plain_word_body body.new ≡ rerouted_phase routes.now (plain_word_body body.old) }
{
    for index in 0..routes.len().min(body.len()) {
        reroute_stmt(routes[index], &mut body[index]);
    }
}

fn reroute_phases(routes: &[Route], phases: &mut [Vec<WordStmt>])
    ensures { plain_word_phases phases.new
        ≡ map (rerouted_phase routes.now) (plain_word_phases phases.old) }
{
    for body in phases.iter_mut() {
        reroute_phase(routes, body);
    }
}

/// The program whose statements go these routes, phase by phase.
pub(crate) fn reroute(routes: &[Route], words: WordProgram) -> WordProgram
    ensures { plain_word_program result ≡ rerouted routes.now (plain_word_program words) }
{
    let mut words = words;
    reroute_phases(routes, &mut words.phases);
    words
}
