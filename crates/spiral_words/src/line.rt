// Command lines, as clap reads them.
ghost use Rattle.std.specs.Prelude.{◌≡◌, ◌↔◌, None, Err, IfOk, map, string_bytes, codes};
ghost use Rattle.std.specs.Str.{bytes_eq};
ghost use Rattle.clap.specs.Words.{found_of, kind_of, rows_of, subcommand_rows_of};
ghost use Rattle.spiral_words.specs.CommandLine.{found_in, is_given, text_of};

use crate::app::{OptionName, spiral_app};
use crate::command::Refusal;
use clap::error::ErrorKind;
use clap::{ArgMatches, Error};
use std::alloc::Global;

/// What clap finds in the words.
pub(crate) fn parsed<'a>(alloc: Global, words: &'a Vec<String>) -> Result<ArgMatches<'a>, Refusal>
    ensures found { IfOk result
        (λ m. subcommand_rows_of m ≡ found_in (map string_bytes words.now.items)) }
    ensures refused { result ≡ Err Refusal.Usage
        → found_in (map string_bytes words.now.items) ≡ None }
{
    let line = spiral_app(alloc)?;
    match line.try_get_matches_from(words.as_slice()) {
        Ok(matches) => Ok(matches),
        Err(error) => Err(refusal_of(&error)),
    }
}

fn refusal_of(error: &Error) -> Refusal
    ensures { (result ≡ Refusal.NoMemory) ↔ (kind_of error.now ≡ ErrorKind.OutOfMemory) }
{
    if error.kind() == ErrorKind::OutOfMemory {
        Refusal::NoMemory
    } else {
        Refusal::Usage
    }
}

/// The text of an option, or its default.
pub(crate) fn text_of<'a>(options: &ArgMatches<'a>, option: OptionName) -> &'a str
    ensures { result.now ≡ text_of option (rows_of (found_of options.now)) }
{
    match options.get_str(option.name()) {
        Some(word) => word,
        None => "",
    }
}

/// Whether an option without a value is given.
pub(crate) fn is_given(options: &ArgMatches, option: OptionName) -> bool
    ensures { result ≡ is_given option (rows_of (found_of options.now)) }
{
    match text_of(options, option) {
        "true" => true,
        _ => false,
    }
}
