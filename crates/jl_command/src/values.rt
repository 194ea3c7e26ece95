//! The values of options, and the command that they make.

ghost use Rattle.std.specs.Prelude.{◌≡◌, ◌≤◌, ◌-◌, true, codes, IfSome, IfOk, Some};
ghost use Rattle.jl_command.specs.declared.commands.Command.TheVariants as C;
ghost use Rattle.clap.specs.Words.{first_value, found_of};
ghost use Rattle.jl_command.specs.Rule.{is_digit, is_value, digits_from, between, number_in, threads_in, fuel_in, script_in, with_script, with_question, command_with, make};

use crate::commands::{Command, Verb};
use crate::forms::is_value;
use clap::ArgMatches;
use jl_gen::MOST_NUMBER;
use jl_model::limits::{DEFAULT_FUEL, DEFAULT_THREADS, MOST_FUEL, MOST_THREADS};
use jl_model::shared::SharedList;
use jl_model::ty::Bytes;
use std::alloc::{AllocError, Global};

/// The number that a digit is.
fn digit_value(digit: u8) -> u64
    requires { is_digit digit ≡ true }
    ensures value { result ≡ digit - 48 }
    ensures small { result ≤ 9 }
{
    u64::from(digit - b'0')
}

/// The number that digits are.
fn number_of(digits: &[u8]) -> u64
    requires { is_value digits.now ≡ true }
    ensures { result ≡ digits_from 0 digits.now }
{
    let mut number: u64 = 0;
    for digit in digits {
        number = number * 10 + digit_value(*digit);
    }
    number
}

/// A number, where it stands between two others.
fn between(low: u64, high: u64, number: u64) -> Option<u64>
    ensures number { result ≡ between low high number }
    ensures small { IfSome result (λ n. n ≤ high) }
{
    if low <= number && number <= high {
        Some(number)
    } else {
        None
    }
}

/// The number that is given for an option, where it stands between two others, or what stands for it where none is given.
fn number_in(
    found: &ArgMatches<'_>,
    id: &str,
    low: u64,
    high: u64,
    default: Option<u64>,
) -> Option<u64>
    requires { IfSome default (λ n. n ≤ high) }
    ensures number { result ≡ number_in low high default (first_value (found_of found.now) id.now) }
    ensures small { IfSome result (λ n. n ≤ high) }
{
    match found.get_str(id) {
        Some(text) => {
            if is_value(text.as_bytes()) {
                between(low, high, number_of(text.as_bytes()))
            } else {
                None
            }
        }
        None => default,
    }
}

/// The number of threads.
fn threads_in(found: &ArgMatches<'_>) -> Option<u32>
    ensures { result ≡ threads_in (first_value (found_of found.now) (codes "threads")) }
{
    let default = Some(u64::from(DEFAULT_THREADS));
    match number_in(found, "threads", 1, u64::from(MOST_THREADS), default) {
        Some(threads) => Some(threads as u32),
        None => None,
    }
}

/// The fuel.
fn fuel_in(found: &ArgMatches<'_>) -> Option<u64>
    ensures { result ≡ fuel_in (first_value (found_of found.now) (codes "fuel")) }
{
    number_in(found, "fuel", 0, MOST_FUEL, Some(DEFAULT_FUEL))
}

/// The number of a generated script.
fn script_in(found: &ArgMatches<'_>) -> Option<u32>
    ensures { result ≡ script_in (first_value (found_of found.now) (codes "first")) }
{
    match number_in(found, "first", 0, u64::from(MOST_NUMBER), None) {
        Some(number) => Some(number as u32),
        None => None,
    }
}

/// A text, to be kept.
fn kept(alloc: Global, text: &str) -> Result<Bytes, AllocError>
    ensures { IfOk result (λ bytes. bytes ≡ text.now) }
{
    SharedList::from_vec(alloc, text.as_bytes().to_vec(alloc)?)
}

/// The command that asks which definition is chosen, where a name and a type are given.
fn question(
    alloc: Global,
    threads: u32,
    fuel: u64,
    found: &ArgMatches<'_>,
) -> Result<Option<Command>, AllocError>
    ensures { IfOk result (λ c. c ≡ with_question (first_value (found_of found.now) (codes "first")) (first_value (found_of found.now) (codes "second")) threads fuel) }
{
    let Some(name) = found.get_str("first") else {
        return Ok(None);
    };
    let Some(ty) = found.get_str("second") else {
        return Ok(None);
    };
    let name = kept(alloc, name)?;
    let ty = kept(alloc, ty)?;
    Ok(Some(Command::Which(name, ty, threads, fuel)))
}

/// The command that runs a generated script, where its number is given.
fn generated(threads: u32, fuel: u64, found: &ArgMatches<'_>) -> Option<Command>
    ensures { result ≡ with_script (script_in (first_value (found_of found.now) (codes "first"))) threads fuel }
{
    match script_in(found) {
        Some(number) => Some(Command::Gen(number, threads, fuel)),
        None => None,
    }
}

/// The command that is asked for, with so many threads and so much fuel.
fn command_with(
    alloc: Global,
    verb: Verb,
    threads: u32,
    fuel: u64,
    found: &ArgMatches<'_>,
) -> Result<Option<Command>, AllocError>
    ensures { IfOk result (λ c. c ≡ command_with verb threads fuel (first_value (found_of found.now) (codes "first")) (first_value (found_of found.now) (codes "second"))) }
{
    match verb {
        Verb::Check => Ok(Some(Command::Check)),
        Verb::Replay => Ok(Some(Command::Replay)),
        Verb::Run => Ok(Some(Command::Run(threads, fuel))),
        Verb::Trace => Ok(Some(Command::Trace(threads, fuel))),
        Verb::Ambiguous => Ok(Some(Command::Ambiguous(threads, fuel))),
        Verb::Gen => Ok(generated(threads, fuel, found)),
        Verb::Which => question(alloc, threads, fuel, found),
    }
}

/// The command that is asked for, with the values that are given for it.
pub(crate) fn make(
    alloc: Global,
    verb: Verb,
    found: &ArgMatches<'_>,
) -> Result<Option<Command>, AllocError>
    ensures { IfOk result (λ c. c ≡ make verb (first_value (found_of found.now) (codes "threads")) (first_value (found_of found.now) (codes "fuel")) (first_value (found_of found.now) (codes "first")) (first_value (found_of found.now) (codes "second"))) }
{
    let Some(threads) = threads_in(found) else {
        return Ok(None);
    };
    let Some(fuel) = fuel_in(found) else {
        return Ok(None);
    };
    command_with(alloc, verb, threads, fuel, found)
}
