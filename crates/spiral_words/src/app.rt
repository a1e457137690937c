// The command line as a table, and as `clap` is told of it.
ghost use Rattle.std.specs.Prelude.{◌≡◌, [], ◌∷◌, IfOk, false, map};
ghost use Rattle.clap.specs.Words.{app_of, shape_of, rule_of};
ghost use Rattle.clap.specs.declared.Command.TheViews.{out-Command as fields_of};
ghost use Rattle.spiral_words.specs.CommandLine.{name_of, option_rule, command_shape, app_with, bare_app, spiral_app};

use clap::{Arg, ArgAction, Command};
use std::alloc::{AllocError, Global};

/// An option of a command.
#[derive(Clone, Copy)]
pub(crate) enum OptionName {
    Schedule,
    Seed,
    Modulus,
    Buffers,
    Code,
}

use OptionName::{Buffers, Code, Modulus, Schedule, Seed};

/// The commands, each with its options.
const COMMANDS: [(&str, &[OptionName]); 13] = [
    ("plan", &[]),
    ("formula", &[]),
    ("code", &[]),
    ("c", &[]),
    ("run", &[Schedule, Buffers]),
    ("trace", &[Schedule, Buffers]),
    ("cert", &[]),
    ("check", &[]),
    ("sample", &[Seed, Schedule]),
    ("compile", &[Modulus]),
    ("apply", &[Modulus, Schedule]),
    ("exec", &[Schedule]),
    ("convolve", &[Schedule, Code]),
];

impl OptionName {
    /// The name, without its hyphens.
    pub(crate) fn name<'a>(self) -> &'a str
        ensures { result.now ≡ name_of self }
    {
        match self {
            Schedule => "schedule",
            Seed => "seed",
            Modulus => "mod",
            Buffers => "buffers",
            Code => "code",
        }
    }

    fn rule<'a>(self, alloc: Global) -> Arg<'a>
        ensures rule { rule_of result ≡ option_rule self }
        ensures local { result.global ≡ false }
    {
        let name = self.name();
        let arg = Arg::new(alloc, name).long(name);
        match self {
            Schedule => arg.action(ArgAction::Set).default_value("seq"),
            Seed => arg.action(ArgAction::Set).default_value("0"),
            Modulus => arg.action(ArgAction::Set).required(true),
            Buffers => arg.action(ArgAction::SetTrue),
            Code => arg.action(ArgAction::SetTrue),
        }
    }
}

/// The command of this name, with these options.
fn command<'a>(
    alloc: Global,
    name: &'a str,
    options: &[OptionName],
) -> Result<Command<'a>, AllocError>
    ensures shape { IfOk result
        (λ r. shape_of r ≡ command_shape (name.now, options.now)) }
    ensures local { IfOk result (λ r. (fields_of r).has_globals ≡ false) }
{
    let mut command = Command::new(alloc, name);
    for option in options {
        command = command.arg(option.rule(alloc))?;
    }
    Ok(command)
}

fn bare<'a>(alloc: Global) -> Command<'a>
    ensures { app_of result ≡ bare_app }
{
    Command::new(alloc, "spiral")
        .disable_help_flag(true)
        .disable_help_subcommand(true)
        .subcommand_required(true)
}

/// The command line with these commands.
fn with_commands<'a>(
    alloc: Global,
    rows: &[(&'a str, &'a [OptionName])],
) -> Result<Command<'a>, AllocError>
    ensures { IfOk result (λ r. app_of r ≡ app_with (map (λ row. (row.0.now, row.1.now)) rows.now)) }
{
    let mut app = bare(alloc);
    for row in rows {
        let command = command(alloc, row.0, row.1)?;
        app = app.subcommand(command)?;
    }
    Ok(app)
}

/// The whole command line.
pub(crate) fn spiral_app<'a>(alloc: Global) -> Result<Command<'a>, AllocError>
    ensures { IfOk result (λ r. app_of r ≡ spiral_app) }
{
    with_commands(alloc, &COMMANDS)
}
