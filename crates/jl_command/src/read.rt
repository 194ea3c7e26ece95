//! From words to a command.

ghost use Rattle.std.specs.Prelude.{◌≡◌, ◌↔◌, [], Some, None, Err, IfOk, IfErr, MatchResult};
ghost use Rattle.clap.specs.Words.{fault_of, subcommand_of, subcommand_rows_of};
ghost use Rattle.jl_command.specs.App.{jl_app, made_by};
ghost use Rattle.jl_command.specs.Rule.{command_of, opening, IsInRange};
ghost use Rattle.jl_command.specs.Texts.{texts};

use crate::app::jl;
use crate::commands::{Command, Verb};
use crate::forms::opening;
use crate::values::make;
use clap::ArgMatches;
use clap::error::ErrorKind;
use std::alloc::Global;
use thiserror::Error;

/// Why words are no command.
#[derive(Debug, Drop, Error)]
pub enum WordsFault {
    #[error("the words are no command")]
    NoCommand,
    #[error("out of memory")]
    Memory,
}

/// What an error of a kind tells of the words.
fn fault(kind: ErrorKind) -> WordsFault
    ensures { (result ≡ WordsFault.Memory) ↔ (kind ≡ ErrorKind.OutOfMemory) }
{
    match kind {
        ErrorKind::OutOfMemory => WordsFault::Memory,
        _ => WordsFault::NoCommand,
    }
}

/// What `clap` finds in the words.
fn matches<'a>(alloc: Global, words: &'a [&'a str]) -> Result<ArgMatches<'a>, WordsFault>
    ensures found { IfOk result (λ m. fault_of jl_app (texts words.entry.now) ≡ []) }
    ensures rows { IfOk result (λ m. subcommand_rows_of m ≡ subcommand_of jl_app (texts words.entry.now)) }
    ensures refused { IfErr result (λ e. (e ≡ WordsFault.NoCommand) → fault_of jl_app (texts words.entry.now) ≡ [] → ⊥) }
{
    let Ok(command) = jl(alloc) else {
        return Err(WordsFault::Memory);
    };
    match command.try_get_matches_from(words) {
        Ok(matches) => Ok(matches),
        Err(error) => {
            let fault = fault(error.kind());
            drop(error);
            Err(fault)
        }
    }
}

/// The command that is asked for, by what was found in the words after it.
fn answer(alloc: Global, verb: Verb, matches: &ArgMatches<'_>) -> Result<Command, WordsFault>
    ensures { MatchResult result (λ c. made_by verb (subcommand_rows_of matches.now) ≡ Some c)
        (λ e. (e ≡ WordsFault.NoCommand) → made_by verb (subcommand_rows_of matches.now) ≡ None) }
{
    let Some((_, found)) = matches.subcommand() else {
        return Err(WordsFault::NoCommand);
    };
    match make(alloc, verb, found) {
        Ok(Some(command)) => Ok(command),
        Ok(None) => Err(WordsFault::NoCommand),
        Err(_) => Err(WordsFault::Memory),
    }
}

/// The command that words are. `NoCommand` comes exactly where they are none. Where the first word asks for no command, or a
/// later one begins with a hyphen and is no option, that takes no memory and is certain.
#[tactic(auto, using(crate::proofs::Decide::opened_none))]
pub fn command<'a>(alloc: Global, words: &'a [&'a str]) -> Result<Command, WordsFault>
    ensures command { IfOk result (λ c. command_of (texts words.entry.now) ≡ Some c) }
    ensures ranges { IfOk result IsInRange }
    ensures refused { IfErr result (λ e. (e ≡ WordsFault.NoCommand) → command_of (texts words.entry.now) ≡ None) }
    ensures certain { opening (texts words.entry.now) ≡ None → result ≡ Err WordsFault.NoCommand }
{
    let Some(verb) = opening(words) else {
        return Err(WordsFault::NoCommand);
    };
    match matches(alloc, words) {
        Ok(matches) => answer(alloc, verb, &matches),
        Err(fault) => Err(fault),
    }
}
