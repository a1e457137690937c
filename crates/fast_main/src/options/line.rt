// Command lines, as clap reads them.
ghost use Rattle.std.specs.Prelude.{◌≡◌, ◌↔◌, true, false, Err, IfOk, OnOk, option_map, map, string_bytes, codes};
ghost use Rattle.std.specs.Str.{bytes_eq};
ghost use Rattle.clap.specs.Words.{fault_of, first_of, found_of, kind_of, matches_of, rows_of};
ghost use Rattle.clap.specs.Walk.{is_empty};
ghost use Rattle.fast_main.specs.Options.CommandLine.{fast_app};
ghost use Rattle.fast_main.specs.Options.Asked.{is_given};

use crate::options::app::fast_app;
use crate::options::asked::Refusal;
use clap::error::ErrorKind;
use clap::{ArgMatches, Error};
use std::alloc::Global;

/// What clap finds in the words.
pub(crate) fn parsed<'a>(alloc: Global, words: &'a Vec<String>) -> Result<ArgMatches<'a>, Refusal>
    ensures taken { OnOk result
        (is_empty (fault_of fast_app (map string_bytes words.now.items)) ≡ true) }
    ensures found { IfOk result
        (λ m. rows_of (found_of m) ≡ matches_of fast_app (map string_bytes words.now.items)) }
    ensures refused { result ≡ Err Refusal.Usage
        → is_empty (fault_of fast_app (map string_bytes words.now.items)) ≡ false }
{
    let line = fast_app(alloc)?;
    match line.try_get_matches_from(words.as_slice()) {
        Ok(matches) => Ok(matches),
        Err(error) => Err(refusal_of(&error)),
    }
}

fn refusal_of(error: &Error) -> Refusal
    ensures { (result ≡ Refusal.NoMemory) ↔ (kind_of error.now ≡ ErrorKind.OutOfMemory) }
{
    if error.kind() == ErrorKind::OutOfMemory {
        Refusal::NoMemory
    } else {
        Refusal::Usage
    }
}

/// Whether an option without a value is given.
pub(crate) fn is_given<'a>(options: &ArgMatches<'a>, name: &str) -> bool
    ensures { result ≡ is_given name.now (rows_of (found_of options.now)) }
{
    match option_in(options, name) {
        Some(word) => is_true(word),
        None => false,
    }
}

fn is_true(word: &str) -> bool
    ensures { result ≡ bytes_eq word.now (codes "true") }
{
    match word {
        "true" => true,
        _ => false,
    }
}

/// The word of an option.
pub(crate) fn option_in<'a>(options: &ArgMatches<'a>, name: &str) -> Option<&'a str>
    ensures { option_map (λ s. s.now) result ≡ first_of name.now (rows_of (found_of options.now)) }
{
    options.get_str(name)
}
