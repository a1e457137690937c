// Whether a program on words stores into X. A function to link cannot, since its input is the caller's.

ghost use Rattle.std.specs.Prelude.{◌≡◌};
ghost use Rattle.icode.specs.Plain.{plain_op};
ghost use Rattle.word_code.specs.Input.{is_input, op_writes_input, stmt_writes_input, body_writes_input, input_writer};
ghost use Rattle.word_code.specs.Views.{plain_word_stmt, plain_word_body, plain_word_program};

use crate::program::{WordProgram, WordStmt};
use icode::program::{Array, Op};

fn is_input(array: Array) -> bool
    ensures { result ≡ is_input array }
{
    match array {
        Array::X => true,
        Array::Y => false,
        Array::A => false,
        Array::B => false,
    }
}

fn op_writes_input(op: &Op) -> bool
    ensures { result ≡ op_writes_input (plain_op op.now) }
{
    match op {
        Op::Store { array, .. } => is_input(*array),
        _ => false,
    }
}

#[cycle(writes)]
fn stmt_writes_input(stmt: &WordStmt) -> bool
    ensures { result ≡ stmt_writes_input (plain_word_stmt stmt.now) }
{
    match stmt {
        WordStmt::Loop { body, .. } => body_writes_input(body),
        WordStmt::Do { op, .. } => op_writes_input(op),
    }
}

#[cycle(writes)]
fn body_writes_input(body: &[WordStmt]) -> bool
    ensures { result ≡ body_writes_input (plain_word_body body.now) }
{
    for stmt in body {
        if stmt_writes_input(stmt) {
            return true;
        }
    }
    false
}

/// The first phase that stores into X.
pub fn input_writer(program: &WordProgram) -> Option<u64>
    ensures { result ≡ input_writer (plain_word_program program.now) }
{
    for (number, body) in program.phases.iter().enumerate() {
        if body_writes_input(body) {
            return Some(number as u64);
        }
    }
    None
}
