// The command line, as `clap` is told of it.
ghost use Rattle.std.specs.Prelude.{◌≡◌, IfOk, codes, false};
ghost use Rattle.clap.specs.Words.{app_of, rule_of, with_rule};
ghost use Rattle.clap.specs.declared.Command.TheViews.{out-Command as fields_of};
ghost use Rattle.fast_main.specs.Options.CommandLine.{option_rule, flag_rule, bare_app, fast_app};

use clap::{Arg, ArgAction, Command};
use std::alloc::{AllocError, Global};

/// An option of one value.
fn option<'a>(alloc: Global, name: &'a str) -> Arg<'a>
    ensures rule { rule_of result ≡ option_rule name.now }
    ensures local { result.global ≡ false }
{
    Arg::new(alloc, name).long(name).action(ArgAction::Set)
}

/// An option without a value.
fn flag<'a>(alloc: Global, name: &'a str) -> Arg<'a>
    ensures rule { rule_of result ≡ flag_rule name.now }
    ensures local { result.global ≡ false }
{
    Arg::new(alloc, name).long(name).action(ArgAction::SetTrue)
}

fn bare<'a>(alloc: Global) -> Command<'a>
    ensures app { app_of result ≡ bare_app }
    ensures local { (fields_of result).has_globals ≡ false }
{
    Command::new(alloc, "spiral_fast").disable_help_flag(true)
}

// The options that have a value.
fn with_values<'a>(alloc: Global) -> Result<Command<'a>, AllocError>
    ensures app { IfOk result (λ r. app_of r ≡ with_rule (with_rule (with_rule bare_app
        (option_rule (codes "words"))) (option_rule (codes "lanes"))) (option_rule (codes "name"))) }
    ensures local { IfOk result (λ r. (fields_of r).has_globals ≡ false) }
{
    let words = option(alloc, "words");
    let sized = bare(alloc).arg(words)?;
    let lanes = option(alloc, "lanes");
    let laned = sized.arg(lanes)?;
    let name = option(alloc, "name");
    laned.arg(name)
}

/// The whole command line.
pub(crate) fn fast_app<'a>(alloc: Global) -> Result<Command<'a>, AllocError>
    ensures { IfOk result (λ r. app_of r ≡ fast_app) }
{
    let named = with_values(alloc)?;
    let header = flag(alloc, "header");
    let headed = named.arg(header)?;
    let times = flag(alloc, "times");
    headed.arg(times)
}
