//! The command line as `clap` is told it.

ghost use Rattle.std.specs.Prelude.{◌≡◌, false, codes, IfOk};
ghost use Rattle.clap.specs.Words.{app_of, with_subcommand};
ghost use Rattle.clap.specs.declared.builder.command.Command.TheViews.{out-Command as fields_of};
ghost use Rattle.jl_command.specs.App.{threads_rule, fuel_rule, first_rule, second_rule, bare_app, optioned_app, numbered_app, asked_app, top_app, bare_apps, optioned_apps, jl_app};

use clap::{Arg, Command};
use std::alloc::{AllocError, Global};

/// A command with options.
fn optioned<'a>(alloc: Global, name: &'a str) -> Result<Command<'a>, AllocError>
    ensures app { IfOk result (λ c. app_of c ≡ optioned_app name.entry.now) }
    ensures local { IfOk result (λ c. (fields_of c).has_globals ≡ false) }
{
    let threads = Arg::new(alloc, "threads").long("threads");
    let fuel = Arg::new(alloc, "fuel").long("fuel");
    Command::new(alloc, name).arg(threads)?.arg(fuel)
}

/// A command with options and one word that stands for itself.
fn numbered<'a>(alloc: Global, name: &'a str) -> Result<Command<'a>, AllocError>
    ensures app { IfOk result (λ c. app_of c ≡ numbered_app name.entry.now) }
    ensures local { IfOk result (λ c. (fields_of c).has_globals ≡ false) }
{
    let first = Arg::new(alloc, "first").required(true);
    optioned(alloc, name)?.arg(first)
}

/// A command with options and two words that stand for themselves.
fn asked<'a>(alloc: Global, name: &'a str) -> Result<Command<'a>, AllocError>
    ensures app { IfOk result (λ c. app_of c ≡ asked_app name.entry.now) }
    ensures local { IfOk result (λ c. (fields_of c).has_globals ≡ false) }
{
    let second = Arg::new(alloc, "second").required(true);
    numbered(alloc, name)?.arg(second)
}

/// The program, which wants a command.
fn top<'a>(alloc: Global) -> Command<'a>
    ensures app { app_of result ≡ top_app }
    ensures local { (fields_of result).has_globals ≡ false }
{
    Command::new(alloc, "jl")
        .no_binary_name(true)
        .disable_help_flag(true)
        .disable_help_subcommand(true)
        .subcommand_required(true)
}

/// One more command, with no words after it.
fn with_bare<'a>(
    alloc: Global,
    above: Command<'a>,
    name: &'a str,
) -> Result<Command<'a>, AllocError>
    ensures app { IfOk result (λ c. app_of c ≡ with_subcommand (app_of above.entry) (bare_app name.entry.now).top) }
{
    above.subcommand(Command::new(alloc, name))
}

/// One more command, with options.
fn with_optioned<'a>(
    alloc: Global,
    above: Command<'a>,
    name: &'a str,
) -> Result<Command<'a>, AllocError>
    ensures app { IfOk result (λ c. app_of c ≡ with_subcommand (app_of above.entry) (optioned_app name.entry.now).top) }
{
    let command = optioned(alloc, name)?;
    above.subcommand(command)
}

/// One more command, with options and one word.
fn with_numbered<'a>(
    alloc: Global,
    above: Command<'a>,
    name: &'a str,
) -> Result<Command<'a>, AllocError>
    ensures app { IfOk result (λ c. app_of c ≡ with_subcommand (app_of above.entry) (numbered_app name.entry.now).top) }
{
    let command = numbered(alloc, name)?;
    above.subcommand(command)
}

/// One more command, with options and two words.
fn with_asked<'a>(
    alloc: Global,
    above: Command<'a>,
    name: &'a str,
) -> Result<Command<'a>, AllocError>
    ensures app { IfOk result (λ c. app_of c ≡ with_subcommand (app_of above.entry) (asked_app name.entry.now).top) }
{
    let command = asked(alloc, name)?;
    above.subcommand(command)
}

/// The commands without words after them.
fn bare_apps<'a>(alloc: Global) -> Result<Command<'a>, AllocError>
    ensures app { IfOk result (λ c. app_of c ≡ bare_apps) }
{
    let check = with_bare(alloc, top(alloc), "check")?;
    with_bare(alloc, check, "replay")
}

/// These, and the commands with options alone.
fn optioned_apps<'a>(alloc: Global) -> Result<Command<'a>, AllocError>
    ensures app { IfOk result (λ c. app_of c ≡ optioned_apps) }
{
    let bare = bare_apps(alloc)?;
    let run = with_optioned(alloc, bare, "run")?;
    let trace = with_optioned(alloc, run, "trace")?;
    with_optioned(alloc, trace, "ambiguous")
}

/// The whole command line.
pub(crate) fn jl<'a>(alloc: Global) -> Result<Command<'a>, AllocError>
    ensures app { IfOk result (λ c. app_of c ≡ jl_app) }
{
    let optioned = optioned_apps(alloc)?;
    let generated = with_numbered(alloc, optioned, "gen")?;
    with_asked(alloc, generated, "which")
}
