// The top call.
ghost use Rattle.std.specs.Prelude.{◌≡◌, ◌⊎◌, true, [], map, string_bytes};
ghost use Rattle.std.specs.Io.KnownBytes.{Appends};
ghost use Rattle.io_edge.specs.Faults.{Reports};
ghost use Rattle.commands.specs.Input.Commands.{AskForRest, AskForCommand, AreJudged};
ghost use Rattle.spiral_main.specs.Outcome.{AccountsFor, Notes};
ghost use Rattle.spiral_main.specs.FormulaTheorem.{IsRightFormulaRun};
ghost use Rattle.spiral_main.specs.Theorem.{IsRightRun};
ghost use Rattle.spiral_words.specs.Statuses.Status.{IsDefined};
ghost use Rattle.commands.specs.Input.Stage.{status_of};
ghost use Rattle.spiral_words.specs.Statuses.Status.{note_line};

use crate::Status;
use commands::{asked, by_formula, convolve, exec, perform};
use io_edge::{Feed, Sink, Source};
use spiral_words::{Command, write_note};
use std::alloc::Global;

// Does what the words and the input ask for.
fn work<I: Source, O: Sink>(
    alloc: Global,
    words: &Vec<String>,
    input: &mut I,
    output: &mut O,
) -> Result<(), Status>
    ensures told { AccountsFor (map string_bytes words.now.items)
        (I.told input.old) (I.told input.new) (O.taken output.old) (O.taken output.new)
        (status_of result) }
    ensures end { status_of result ≡ Status.Success
        → AskForRest (map string_bytes words.now.items) → (I.told input.new).ended ≡ true }
    ensures read { Reports (I.faults input.old) (I.faults input.new)
        (status_of result ≡ Status.ReadFault) }
    ensures write { Reports (O.faults output.old) (O.faults output.new)
        (status_of result ≡ Status.WriteFault) }
    ensures after { status_of result ≡ Status.ReadFault
        → AskForCommand (map string_bytes words.now.items) }
    ensures words { AreJudged (map string_bytes words.now.items) (status_of result) }
    ensures memory { status_of result ≡ Status.NoMemory
        → Appends (O.taken output.old) (O.taken output.new) [] }
{
    let mut feed = Feed::new(alloc)?;
    let command = asked(alloc, words)?;
    match command {
        Command::ByRequest(command) => {
            let ended = perform(alloc, &command, &mut feed, input, output);
            feed.holds_a_block();
            ended
        }
        Command::ByFormula { modulus, command } => {
            let ended = by_formula(alloc, &modulus, &command, &mut feed, input, output);
            feed.holds_a_block();
            ended
        }
        Command::ByListing(schedule) => {
            let ended = exec(alloc, &schedule, &mut feed, input, output);
            feed.holds_a_block();
            ended
        }
        Command::ByList { schedule, code } => {
            let ended = convolve(alloc, &schedule, code, &mut feed, input, output);
            feed.holds_a_block();
            ended
        }
    }
}

// The status that a call ends with.
fn ending(ended: Result<(), Status>) -> Status
    ensures { result ≡ status_of ended }
{
    match ended {
        Ok(()) => Status::Success,
        Err(status) => status,
    }
}

/// Does what the words and the input ask for, and says in the note why not if it doesn't.
///
/// The words are the program's name, a command and its options. The first line of the input is the request. What
/// comes after it are the data of `run` and `trace`, numbers in tokens, of which every vector has as many as the
/// request's size, or the certificate that `check` judges. `exec` has no request: the lines before the first empty line
/// of its input are a listing, and what comes after that line are the data of its program. Nor have `compile` and
/// `apply`: the first line of their input is a formula, and what comes after it are the data of `apply`. The first
/// line of `convolve` is a request for convolutions, and the first vector of its data is the list with which it
/// convolves the others; for the listing it reads nothing after that list.
pub fn spiral_run<I: Source, O: Sink, E: Sink>(
    alloc: Global,
    words: &Vec<String>,
    input: &mut I,
    output: &mut O,
    note: &mut E,
) -> Status
    // The theorem: what `code` prints is right, and what `run` writes.
    ensures right { IsDefined result → IsRightRun (map string_bytes words.now.items)
        (I.told input.old) (I.told input.new) (O.taken output.old) (O.taken output.new) result }
    // And for formulas and convolutions: what `compile` and `convolve --code` print, and what `apply` and `convolve` write.
    ensures formulas { IsDefined result → IsRightFormulaRun (map string_bytes words.now.items)
        (I.told input.old) (I.told input.new) (O.taken output.old) (O.taken output.new) result }
    // The bytes that the input gave, with all that it may have left, and the words account for the status and for what
    // the output took. Where a read failed, that is the whole text of what the input gave.
    ensures told { AccountsFor (map string_bytes words.now.items)
        (I.told input.old) (I.told input.new) (O.taken output.old) (O.taken output.new) result }
    // `run`, `trace`, `check`, `exec`, `apply` and `convolve` without `--code` have read their input to its end where
    // they succeed.
    ensures end { result ≡ Status.Success
        → AskForRest (map string_bytes words.now.items) → (I.told input.new).ended ≡ true }

    // A fault has its cause and is not swallowed, also where nothing is told.
    ensures read { Reports (I.faults input.old) (I.faults input.new) (result ≡ Status.ReadFault) }
    ensures write { Reports (O.faults output.old) (O.faults output.new)
        (result ≡ Status.WriteFault) }
    // One side fails at most. Since each may fail whenever it is asked, none is asked after a fault: neither that side nor
    // the other.
    ensures one_side { (I.faults input.new ≡ I.faults input.old)
        ⊎ (O.faults output.new ≡ O.faults output.old) }
    // The words are judged before the input is read.
    ensures after { result ≡ Status.ReadFault → AskForCommand (map string_bytes words.now.items) }
    ensures words { AreJudged (map string_bytes words.now.items) result }

    // Want of memory comes before the first byte of output.
    ensures memory { result ≡ Status.NoMemory
        → Appends (O.taken output.old) (O.taken output.new) [] }
    ensures note { Notes (E.taken note.old) (E.taken note.new)
        (E.faults note.old) (E.faults note.new) (note_line result) }
{
    let status = ending(work(alloc, words, input, output));
    let _ = write_note(note, status);
    status
}
