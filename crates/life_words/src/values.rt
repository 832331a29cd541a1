//! The words behind a command's own, read by `clap`.

ghost use Rattle.std.specs.Prelude.{◌≡◌, ◌≢◌, ◌⊎◌, ◌+◌, ◌<◌, ℕ, List, ◌∷◌, [], length, map, Some, IfOk, IfErr};
ghost use Rattle.clap.specs.Words.{app_of, subcommand_rows_of};
ghost use Rattle.life_words.specs.Words.{AreRefused, BeginWith, phrase_of, texts_of};
ghost use Rattle.life_words.specs.declared.command.Command.{Command};
ghost use Rattle.life_words.specs.CommandLine.{line_of, values_row};

use crate::refusal::WordsError;
use clap::error::ErrorKind;
use clap::{Arg, ArgAction, ArgMatches};
use std::alloc::{AllocError, Global};

/// The id of the argument that takes the words behind a command's own.
const VALUES: &str = "values";

/// The command line of the command of this name, which takes so many words behind it.
fn command_line<'a>(
    alloc: Global,
    name: &'a str,
    count: usize,
) -> Result<clap::Command<'a>, AllocError>
    ensures { IfOk result (λ line. app_of line ≡ line_of name.now count) }
{
    let values = Arg::new(alloc, VALUES)
        .required(true)
        .num_args(count)
        .action(ArgAction::Set);
    let command = clap::Command::new(alloc, name).arg(values)?;
    clap::Command::new(alloc, "life")
        .no_binary_name(true)
        .disable_help_flag(true)
        .disable_help_subcommand(true)
        .subcommand(command)
}

/// What `clap` finds in words that begin with this name and have no dashes.
fn matches_of<'a>(
    alloc: Global,
    name: &'a str,
    words: &'a [String],
    count: usize,
) -> Result<ArgMatches<'a>, WordsError>
    requires some { 0 < count }
    requires begin { (rest : List (List ℕ)) × BeginWith words.now name.now rest }
    ensures ok { IfOk result (λ matches. (rest : List (List ℕ)) → BeginWith words.now name.now rest →
        (length rest ≡ count) × (subcommand_rows_of matches ≡ Some (name.now, values_row rest ∷ []))) }
    ensures err { IfErr result (λ e. (e ≡ WordsError.Memory) ⊎
        ((e ≡ WordsError.WrongCount) × ((rest : List (List ℕ)) → BeginWith words.now name.now rest → length rest ≢ count))) }
{
    match command_line(alloc, name, count)?.try_get_matches_from(words) {
        Ok(matches) => Ok(matches),
        Err(error) => match error.kind() {
            ErrorKind::OutOfMemory => Err(WordsError::Memory),
            _ => Err(WordsError::WrongCount),
        },
    }
}

/// The words behind the own word of a command of this name, which takes so many.
pub(crate) fn values_behind<'a>(
    alloc: Global,
    name: &'a str,
    words: &'a [String],
    count: usize,
) -> Result<Vec<&'a str>, WordsError>
    requires some { 0 < count }
    requires takes { (command : Command) × (((phrase_of command).command ≡ name.now) × (length (phrase_of command).sayings ≡ count)) }
    requires begin { (rest : List (List ℕ)) × BeginWith words.now name.now rest }
    ensures ok { IfOk result (λ values. (rest : List (List ℕ)) → BeginWith words.now name.now rest →
        (length rest ≡ count) × (map (λ v. v.now) values.items ≡ rest)) }
    ensures err { IfErr result (λ e. (e ≡ WordsError.Memory) ⊎ AreRefused words.now e) }
{
    let matches = matches_of(alloc, name, words, count)?;
    let (_, found) = matches.subcommand().unwrap();
    let values = found.get_strs(VALUES).unwrap();
    let values = values.to_vec(alloc)?;
    Ok(values)
}
