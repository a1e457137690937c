//! What the words of a command line ask for, and the statuses with which a call ends.
#![tactic(auto)]

ghost use Rattle.std.specs.Prelude.{◌≡◌, ◌⊎◌, ◌↔◌, List};
ghost use Rattle.clap.specs.Words.{Text};
ghost use Rattle.spiral_words.specs.declared.command.Command.{Command};
ghost use Rattle.spiral_words.specs.Asked.{IsAsked, IsUsage, Means, name_for};
ghost use Rattle.spiral_words.specs.CommandLine.{Names, Options};
ghost use Rattle.spiral_words.specs.Refused.{IsRefused};

mod app;
mod command;
mod line;
mod number;
mod order;
mod reading;
mod statuses;

pub use command::{Command, Document, FormulaCommand, Order, Refusal, RequestCommand};
pub use reading::command_of;
pub use statuses::{CERTIFICATE_LIMIT, LINE_LIMIT, Status, write_note};

/// Words ask for nothing where clap refuses them, or an option's text is outside its grammar, and there alone.
pub fn usage_is_refusal()
    ensures { (words : List Text) → IsUsage words ↔ IsRefused words }
{}

/// Words ask for a command exactly where they name it, with options that mean it.
pub fn words_by_row()
    ensures { (words : List Text) (asked : Command) → IsAsked words asked
        ↔ ((options : Options) × Names words (name_for asked) options
        × Means (name_for asked) options asked) }
{}

/// Words ask for one command.
pub fn words_ask_for_one_command()
    ensures { (words : List Text) (a b : Command) → IsAsked words a → IsAsked words b → a ≡ b }
{}

/// Words ask for a command, or are no command line.
pub fn words_are_decided()
    ensures { (words : List Text) → ((command : Command) × IsAsked words command) ⊎ IsUsage words }
{}
