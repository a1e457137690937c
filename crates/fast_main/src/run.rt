// The top call.
ghost use Rattle.std.specs.Prelude.{◌≡◌, ◌≢◌, ℕ, [], map, string_bytes, IsTrue, IfOk, IfErr};
ghost use Rattle.std.specs.Io.KnownBytes.{Appends};
ghost use Rattle.icode.specs.Machine.{IsApart};
ghost use Rattle.icode.specs.Program.{plain_program, code_of, Fits};
ghost use Rattle.io_edge.specs.Faults.{Reports};
ghost use Rattle.word_code.specs.Laziness.{allows, size_for};
ghost use Rattle.word_code.specs.Views.{plain_word_program};
ghost use Rattle.fast_text.specs.TextForm.{text_form};
ghost use Rattle.fast_main.specs.Options.Views.{plain_options};
ghost use Rattle.fast_main.specs.Outcome.{IsRefused, EndsAs, IsInside, IsDefined, IsDone, IsGood, HasFailed};
ghost use Rattle.fast_main.specs.Outcome.{AreJudged, HasReadListing};
ghost use Rattle.fast_main.specs.Outcome.{AccountsFor, Notes};
ghost use Rattle.fast_main.specs.Status.{note_line, status_of};
ghost use Rattle.fast_main.specs.Options.Asked.{IsLaneCount};
ghost use Rattle.fast_main.specs.Translation.{writer_in, ending_of, written_text, AreSoundWords, IsReadBack, IsWritten, KeepsInput};

use crate::Status;
use crate::first_line::with_first_line;
use crate::options::{Options, options_of};
use crate::prepare::prepare;
use crate::rows::write_note;
use crate::words::bits_of;
use code_check::{is_fresh, verify};
use data_stream::read_part;
use fast_text::{Form, print_words};
use icode::program::Program;
use io_edge::{Feed, Sink, Source, write_all};
use listing_text::read_listing;
use memory::NoMemory;
use std::alloc::Global;
use word_code::laziness::{WordSize, make_fast, size_for};
use word_code::program::WordProgram;
use word_code::{input_writer, work_in_place};

/// How many bytes a listing has at most.
pub const LISTING_LIMIT: u64 = 1 << 26;

// The phase that stores into the input, where that is the caller's.
fn writer_in(form: Form<'_>, words: &WordProgram) -> Option<u64>
    ensures { result ≡ writer_in (text_form form.entry) (plain_word_program words.now) }
{
    match form {
        Form::Arrays => None,
        Form::Function { .. } => input_writer(words),
        Form::Header { .. } => input_writer(words),
        Form::Product { .. } => None,
        Form::ProductHeader { .. } => None,
    }
}

/// A C text, and how a call ends that writes it.
#[derive(Drop)]
struct Answer {
    text: Vec<u8>,
    ending: Status,
}

// The C text of a program that is asked for, in words of the size that was chosen.
fn answer_of(
    alloc: Global,
    options: Options<'_>,
    size: WordSize,
    program: Program,
) -> Result<Answer, Status>
    requires fits { Fits program }
    requires apart { (phase : ℕ) → IsApart (code_of program) phase }
    requires allowed { IsTrue (allows size program.modulus) }
    requires lanes { IsLaneCount options.lanes }
    requires size { size ≡ size_for options.size (plain_program program) }
    ensures text { IfOk result
        (λ made. made.text.items ≡ written_text (plain_options options.entry) (plain_program program)) }
    ensures ending { IfOk result
        (λ made. made.ending ≡ ending_of options.entry.lanes (plain_program program)) }
    ensures done { IfOk result (λ made. IsDone made.ending) }
    ensures read_back { IfOk result
        (λ made. IsReadBack (plain_options options.entry) (plain_program program) made.text.items) }
    ensures keeps { IfOk result
        (λ _. KeepsInput (plain_options options.entry) (plain_program program)) }
    ensures sound { IfOk result
        (λ _. AreSoundWords size options.entry.lanes (plain_program program)) }
    ensures written { IfErr result (λ status. IsDefined status
        → IsWritten (plain_options options.entry) (plain_program program) status) }
    ensures inside { IfErr result (λ status. IsInside status) }
{
    let prepared = prepare(alloc, size, options.lanes, program)?;
    let fresh = is_fresh(alloc, &prepared.program)?;
    let words = make_fast(alloc, size, &prepared.program)?;
    let words = work_in_place(alloc, &prepared.program, words)?;
    if let Some(phase) = writer_in(options.form, &words) {
        return Err(Status::InputWritten { phase });
    }
    let printed = print_words(alloc, options.form, fresh, &words)?;
    let text = with_first_line(alloc, prepared.ending, printed)?;
    Ok(Answer {
        text,
        ending: prepared.ending,
    })
}

// The C text that is asked for, of the bytes of a listing.
fn answer_to(alloc: Global, options: Options<'_>, listing: &[u8]) -> Result<Answer, Status>
    requires { IsLaneCount options.lanes }
    ensures text { IfOk result
        (λ made. EndsAs (plain_options options.entry) listing.now made.ending made.text.items) }
    ensures done { IfOk result (λ made. IsDone made.ending) }
    ensures refused { IfErr result
        (λ status. IsDefined status → IsRefused (plain_options options.entry) listing.now status) }
    ensures inside { IfErr result (λ status. IsInside status) }
{
    let program = read_listing(alloc, listing)?;
    verify(alloc, &program)?;
    let size = size_for(options.size, &program);
    if !size.allows(program.modulus) {
        return Err(Status::WideModulus {
            bits: bits_of(size),
        });
    }
    let answer = answer_of(alloc, options, size, program)?;
    Ok(answer)
}

// Does what the words and the input ask for.
fn work<I: Source, O: Sink>(
    alloc: Global,
    words: &Vec<String>,
    input: &mut I,
    output: &mut O,
) -> Result<Status, Status>
    ensures told { AccountsFor (map string_bytes words.now.items) (I.told input.old)
        (I.told input.new) (O.taken output.old) (O.taken output.new) (status_of result) }
    ensures words { AreJudged (map string_bytes words.now.items) (status_of result) }
    ensures end { IsGood (status_of result)
        → HasReadListing (I.told input.old) (I.told input.new) }
    ensures read { Reports (I.faults input.old) (I.faults input.new)
        (status_of result ≡ Status.ReadFault) }
    ensures write { Reports (O.faults output.old) (O.faults output.new)
        (status_of result ≡ Status.WriteFault) }
    ensures nothing { HasFailed (status_of result) → status_of result ≢ Status.WriteFault
        → Appends (O.taken output.old) (O.taken output.new) [] }
{
    let options = options_of(alloc, words)?;
    let mut feed = Feed::new(alloc)?;
    let listing = read_part(alloc, &mut feed, input, LISTING_LIMIT)?;
    let made = answer_to(alloc, options, &listing)?;
    write_all(output, &made.text)?;
    Ok(made.ending)
}

// The status that a call ends with.
fn ending(ended: Result<Status, Status>) -> Status
    ensures { result ≡ status_of ended }
{
    match ended {
        Ok(status) => status,
        Err(status) => status,
    }
}

/// Writes the fast C text of the listing on the input, and says in the note why not if it doesn't, or why it is of one lane if
/// several were asked for.
///
/// The words are the program's name and options. The lines before the first empty line of the input are a listing, as
/// `spiral code` writes it, of at most [`LISTING_LIMIT`] bytes, and are verified first.
pub fn fast_run<I: Source, O: Sink, E: Sink>(
    alloc: Global,
    words: &Vec<String>,
    input: &mut I,
    output: &mut O,
    note: &mut E,
) -> Status
    // The bytes that the input gave, with all that it may have left, and the words account for the status and for what
    // the output took.
    ensures told { AccountsFor (map string_bytes words.now.items) (I.told input.old)
        (I.told input.new) (O.taken output.old) (O.taken output.new) result }
    // The words alone tell whether they are a call's.
    ensures words { AreJudged (map string_bytes words.now.items) result }
    // A call that writes its text has read its listing to its end.
    ensures end { IsGood result → HasReadListing (I.told input.old) (I.told input.new) }

    // A fault has its cause and is not swallowed, also where nothing is told.
    ensures read { Reports (I.faults input.old) (I.faults input.new) (result ≡ Status.ReadFault) }
    ensures write { Reports (O.faults output.old) (O.faults output.new)
        (result ≡ Status.WriteFault) }

    // Nothing is written on a refusal.
    ensures nothing { HasFailed result → result ≢ Status.WriteFault
        → Appends (O.taken output.old) (O.taken output.new) [] }
    ensures note { Notes (E.taken note.old) (E.taken note.new) (E.faults note.old)
        (E.faults note.new) (note_line result) }
{
    let status = ending(work(alloc, words, input, output));
    let _ = write_note(note, status);
    status
}
