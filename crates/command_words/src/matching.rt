//! What `clap` makes of the words: a value for each name.

ghost use Rattle.std.specs.Prelude.{◌≡◌, ◌≢◌, [], IfOk, IfErr, Err, map, codes, string_bytes, option_map, false};
ghost use Rattle.clap.specs.Words.{app_of, rule_of, with_rule};
ghost use Rattle.command_words.specs.CommandLine.{bared, word_rule, more_rule, option_rule, flag_rule, is_set, kept_words, command_line, kinds_of, command_values, plain_values};
ghost use Rattle.command_words.specs.declared.fault.WordsFault.TheVariants as fault;

use crate::fault::WordsFault;
use crate::values::Values;
use clap::error::ErrorKind;
use clap::{Arg, ArgAction, Command};
use std::alloc::{AllocError, Global};

/// A word that must be there.
fn word<'a>(alloc: Global, id: &'a str) -> Arg<'a>
    ensures rule { rule_of result ≡ word_rule id.entry.now }
    ensures local { result.global ≡ false }
{
    Arg::new(alloc, id).required(true).action(ArgAction::Set)
}

/// The words behind those that must be there.
fn further<'a>(alloc: Global, id: &'a str) -> Arg<'a>
    ensures rule { rule_of result ≡ more_rule id.entry.now }
    ensures local { result.global ≡ false }
{
    Arg::new(alloc, id).action(ArgAction::Append)
}

/// An option with one value.
fn option<'a>(alloc: Global, id: &'a str) -> Arg<'a>
    ensures rule { rule_of result ≡ option_rule id.entry.now }
    ensures local { result.global ≡ false }
{
    Arg::new(alloc, id).long(id).action(ArgAction::Set)
}

/// An option without a value.
fn flag<'a>(alloc: Global, id: &'a str) -> Arg<'a>
    ensures rule { rule_of result ≡ flag_rule id.entry.now }
    ensures local { result.global ≡ false }
{
    Arg::new(alloc, id).long(id).action(ArgAction::SetTrue)
}

/// Whether a flag is given, by the word that `clap` keeps of it.
fn is_given(word: Option<&str>) -> bool
    ensures { result ≡ is_set (option_map (λ s. s.now) word.entry) }
{
    match word {
        Some("true") => true,
        _ => false,
    }
}

/// The words that `clap` keeps of a name.
fn words_kept<'a>(alloc: Global, kept: Option<&[&'a str]>) -> Result<Vec<&'a str>, AllocError>
    ensures { IfOk result (λ words. map (λ s. s.now) words.items
        ≡ kept_words (option_map (λ words. map (λ s. s.now) words.now) kept.entry)) }
{
    match kept {
        Some(words) => words.to_vec(alloc),
        None => Ok(Vec::new(alloc)),
    }
}

fn with_arg<'a>(command: Command<'a>, arg: Arg<'a>) -> Result<Command<'a>, AllocError>
    requires { arg.global ≡ false }
    ensures { IfOk result (λ c. app_of c ≡ with_rule (app_of command.entry) (rule_of arg.entry)) }
{
    let command = command.arg(arg)?;
    Ok(command)
}

/// Without a name in front, help and version.
fn bare<'a>(command: Command<'a>) -> Command<'a>
    ensures { app_of result ≡ bared (app_of command.entry) }
{
    command
        .no_binary_name(true)
        .disable_help_flag(true)
        .disable_version_flag(true)
}

#[tactic(auto, unfolding(crate::specs::CommandLine::command_line))]
fn command<'a>(alloc: Global) -> Result<Command<'a>, AllocError>
    ensures { IfOk result (λ c. app_of c ≡ command_line) }
{
    let command = with_arg(Command::new(alloc, "forec"), word(alloc, "command"))?;
    let command = with_arg(command, word(alloc, "program"))?;
    let command = with_arg(command, further(alloc, "more"))?;
    let command = with_arg(command, option(alloc, "cores"))?;
    let command = with_arg(command, option(alloc, "place"))?;
    let command = with_arg(command, option(alloc, "budget"))?;
    let command = with_arg(command, option(alloc, "order"))?;
    let command = with_arg(command, flag(alloc, "fold"))?;
    Ok(bare(command))
}

/// Any error but out of memory is one of the words.
fn fault(kind: ErrorKind) -> WordsFault
    ensures { result ≡ fault.Usage → kind ≢ ErrorKind.OutOfMemory }
{
    match kind {
        ErrorKind::OutOfMemory => WordsFault::OutOfMemory,
        _ => WordsFault::Usage,
    }
}

/// The value of each name in the words.
///
/// # Errors
///
/// `Usage` exactly where `clap` refuses the words. Or out of memory.
pub fn values<'a>(alloc: Global, words: &'a [String]) -> Result<Values<'a>, WordsFault>
    ensures accepted { IfOk result (λ v. kinds_of (map string_bytes words.entry.now) ≡ []) }
    ensures values { IfOk result (λ v. plain_values v ≡ command_values (map string_bytes words.entry.now)) }
    ensures usage { result ≡ Err fault.Usage → kinds_of (map string_bytes words.entry.now) ≢ [] }
{
    let command = command(alloc)?;
    match command.try_get_matches_from(words) {
        Ok(matches) => {
            let more = words_kept(alloc, matches.get_strs("more"))?;
            Ok(Values {
                command: matches.get_str("command"),
                program: matches.get_str("program"),
                more,
                cores: matches.get_str("cores"),
                place: matches.get_str("place"),
                budget: matches.get_str("budget"),
                order: matches.get_str("order"),
                fold: is_given(matches.get_str("fold")),
            })
        }
        Err(error) => Err(fault(error.kind())),
    }
}
