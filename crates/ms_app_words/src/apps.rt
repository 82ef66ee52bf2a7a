ghost use Rattle.std.specs.Prelude.{◌≡◌, false, IfOk};
ghost use Rattle.clap.specs.Words.{app_of, new_app, rule_of};
ghost use Rattle.ms_app_words.specs.Command.{app_for, certify_app, check_app, command, decide_app, decide_front, flag, formula_app, gen_app, option, required, same_app};

use crate::command::Verb;
use clap::{Arg, ArgAction, Command};
use std::alloc::{AllocError, Global};

/// A command without a flag for help.
fn command<'a>(alloc: Global, name: &'a str) -> Command<'a>
    ensures { app_of result ≡ command name.entry.now }
{
    Command::new(alloc, name).disable_help_flag(true)
}

/// A value by its position, which must be there.
fn required<'a>(alloc: Global, id: &'a str) -> Arg<'a>
    ensures rule { rule_of result ≡ required id.entry.now }
    ensures local { result.global ≡ false }
{
    Arg::new(alloc, id).required(true)
}

/// `--NAME VALUE`: an option with a value.
fn option<'a>(alloc: Global, name: &'a str) -> Arg<'a>
    ensures rule { rule_of result ≡ option name.entry.now }
    ensures local { result.global ≡ false }
{
    Arg::new(alloc, name).long(name)
}

/// `--NAME`: a flag.
fn flag<'a>(alloc: Global, name: &'a str) -> Arg<'a>
    ensures rule { rule_of result ≡ flag name.entry.now }
    ensures local { result.global ≡ false }
{
    Arg::new(alloc, name).long(name).action(ArgAction::SetTrue)
}

/// The front of the command `decide`: `decide FILE [--out NAME] [--max-nodes N]`.
fn decide_front<'a>(alloc: Global) -> Result<Command<'a>, AllocError>
    ensures { IfOk result (λ made. app_of made ≡ decide_front) }
{
    let with_file = command(alloc, "decide").arg(required(alloc, "FILE"))?;
    let with_out = with_file.arg(option(alloc, "out"))?;
    with_out.arg(option(alloc, "max-nodes"))
}

/// The command `decide FILE [--out NAME] [--max-nodes N] [--stats] [--format V]`.
fn decide_app<'a>(alloc: Global) -> Result<Command<'a>, AllocError>
    ensures { IfOk result (λ made. app_of made ≡ decide_app) }
{
    let with_stats = decide_front(alloc)?.arg(flag(alloc, "stats"))?;
    with_stats.arg(option(alloc, "format"))
}

/// The command `same LEFT RIGHT [--max-nodes N]`.
fn same_app<'a>(alloc: Global) -> Result<Command<'a>, AllocError>
    ensures { IfOk result (λ made. app_of made ≡ same_app) }
{
    let with_left = command(alloc, "same").arg(required(alloc, "LEFT"))?;
    let with_right = with_left.arg(required(alloc, "RIGHT"))?;
    with_right.arg(option(alloc, "max-nodes"))
}

/// The command `gen K [--decide]`.
fn gen_app<'a>(alloc: Global) -> Result<Command<'a>, AllocError>
    ensures { IfOk result (λ made. app_of made ≡ gen_app) }
{
    let with_number = command(alloc, "gen").arg(required(alloc, "K"))?;
    with_number.arg(flag(alloc, "decide"))
}

/// The command `NAME FILE [--max-nodes N]`, by its name.
fn formula_app<'a>(alloc: Global, name: &'a str) -> Result<Command<'a>, AllocError>
    ensures { IfOk result (λ made. app_of made ≡ formula_app name.entry.now) }
{
    let with_file = command(alloc, name).arg(required(alloc, "FILE"))?;
    with_file.arg(option(alloc, "max-nodes"))
}

/// The command `check NAME`.
fn check_app<'a>(alloc: Global) -> Result<Command<'a>, AllocError>
    ensures { IfOk result (λ made. app_of made ≡ check_app) }
{
    command(alloc, "check").arg(required(alloc, "NAME"))
}

/// The command `certify FILE NAME [--max-nodes N]`.
fn certify_app<'a>(alloc: Global) -> Result<Command<'a>, AllocError>
    ensures { IfOk result (λ made. app_of made ≡ certify_app) }
{
    let with_file = command(alloc, "certify").arg(required(alloc, "FILE"))?;
    let with_name = with_file.arg(required(alloc, "NAME"))?;
    with_name.arg(option(alloc, "max-nodes"))
}

/// The command with this first word, as `clap` is told of it.
pub(crate) fn app<'a>(alloc: Global, verb: Verb) -> Result<Command<'a>, AllocError>
    ensures { IfOk result (λ made. app_of made ≡ app_for verb) }
{
    match verb {
        Verb::Decide => decide_app(alloc),
        Verb::Same => same_app(alloc),
        Verb::Gen => gen_app(alloc),
        Verb::Ltl => formula_app(alloc, "ltl"),
        Verb::Presburger => formula_app(alloc, "presburger"),
        Verb::Check => check_app(alloc),
        Verb::Certify => certify_app(alloc),
    }
}
