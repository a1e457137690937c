// The options of a call.
ghost use Rattle.std.specs.Prelude.{◌≡◌, Err, IfOk, IfSome, None, Some, option_map, map, string_bytes};
ghost use Rattle.clap.specs.Words.{found_of, rows_of};
ghost use Rattle.fast_text.specs.TextForm.{text_form};
ghost use Rattle.fast_main.specs.declared.options.asked.Refusal.TheVariants.{NoMemory};
ghost use Rattle.fast_main.specs.Options.Asked.{IsLaneCount, asked, together, size_named, size_in, lanes_named, lanes_in, form_in};
ghost use Rattle.fast_main.specs.Options.Views.{plain_options};

use crate::options::form::form_by;
use crate::options::line::{is_given, option_in, parsed};
use clap::ArgMatches;
use fast_text::Form;
use std::alloc::{AllocError, Global};
use thiserror::Error;
use word_code::laziness::WordSize;

/// What the words ask for: words of a size, if of one, how many lanes, and which text.
#[derive(Clone, Copy)]
pub struct Options<'a> {
    pub size: Option<WordSize>,
    pub lanes: u64,
    pub form: Form<'a>,
}

/// Why the words ask for nothing.
#[derive(Clone, Copy, Debug, PartialEq, Eq, Error)]
pub enum Refusal {
    /// They are no command line.
    #[error("usage")]
    Usage,
    /// Memory ran out.
    #[error("out of memory")]
    NoMemory,
}

impl From<AllocError> for Refusal {
    ghost from_gives = { λ _ e. e ≡ NoMemory };

    fn from(_: AllocError) -> Self {
        Refusal::NoMemory
    }
}

// The size of words that a word names.
fn size_named(word: &str) -> Option<WordSize>
    ensures { result ≡ size_named word.now }
{
    match word {
        "16" => Some(WordSize::Of16),
        "32" => Some(WordSize::Of32),
        "52" => Some(WordSize::Of52),
        "64" => Some(WordSize::Of64),
        _ => None,
    }
}

fn size_in(matches: &ArgMatches<'_>) -> Option<Option<WordSize>>
    ensures { result ≡ size_in (rows_of (found_of matches.now)) }
{
    match option_in(matches, "words") {
        Some(word) => size_named(word).map(Some),
        None => Some(None),
    }
}

// The number of lanes that a word names.
fn lanes_named(word: &str) -> Option<u64>
    ensures value { result ≡ lanes_named word.now }
    ensures count { IfSome result IsLaneCount }
{
    match word {
        "2" => Some(2),
        "4" => Some(4),
        "8" => Some(8),
        "16" => Some(16),
        _ => None,
    }
}

fn lanes_in(matches: &ArgMatches<'_>) -> Option<u64>
    ensures value { result ≡ lanes_in (rows_of (found_of matches.now)) }
    ensures count { IfSome result IsLaneCount }
{
    match option_in(matches, "lanes") {
        Some(word) => lanes_named(word),
        None => Some(1),
    }
}

fn form_in<'a>(matches: &ArgMatches<'a>) -> Option<Form<'a>>
    ensures { option_map text_form result ≡ form_in (rows_of (found_of matches.now)) }
{
    form_by(
        is_given(matches, "header"),
        is_given(matches, "times"),
        option_in(matches, "name"),
    )
}

fn together<'a>(
    size: Option<Option<WordSize>>,
    lanes: Option<u64>,
    form: Option<Form<'a>>,
) -> Option<Options<'a>>
    requires { IfSome lanes IsLaneCount }
    ensures value { option_map plain_options result
        ≡ together size lanes (option_map text_form form.entry) }
    ensures count { IfSome result (λ options. IsLaneCount options.lanes) }
{
    match (size, lanes, form) {
        (Some(size), Some(lanes), Some(form)) => Some(Options { size, lanes, form }),
        _ => None,
    }
}

/// What the words ask for, the program's name first.
pub fn options_of<'a>(alloc: Global, words: &'a Vec<String>) -> Result<Options<'a>, Refusal>
    ensures ok { IfOk result
        (λ options. asked (map string_bytes words.now.items) ≡ Some (plain_options options)) }
    ensures lanes { IfOk result (λ options. IsLaneCount options.lanes) }
    ensures usage { result ≡ Err Refusal.Usage → asked (map string_bytes words.now.items) ≡ None }
{
    let matches = parsed(alloc, words)?;
    match together(size_in(&matches), lanes_in(&matches), form_in(&matches)) {
        Some(options) => Ok(options),
        None => Err(Refusal::Usage),
    }
}
