//! The command that words say.

ghost use Rattle.std.specs.Prelude.{◌≡◌, ◌⊎◌, ℕ, List, codes, IfOk, IfErr, IsTrue, ◌↔◌};
ghost use Rattle.life_words.specs.Words.{Ask, AreRefused, BeginWith};

use crate::command::Command;
use crate::dash::first_dash;
use crate::number::{Limits, number_at};
use crate::refusal::WordsError;
use crate::values::values_behind;
use crate::word::Word;
use life_sample::limits::{GREATEST_GAP, LEAST_GAP, MOST_COUNT};
use std::alloc::Global;

/// Any number of 32 bits.
const ANY_NUMBER: Limits = Limits {
    least: 0,
    most: u32::MAX,
};

/// How many kinds a sample may have.
const SAMPLE_COUNTS: Limits = Limits {
    least: 1,
    most: MOST_COUNT,
};

/// How far apart the blocks of a sample may be, in cells.
const SAMPLE_GAPS: Limits = Limits {
    least: LEAST_GAP,
    most: GREATEST_GAP,
};

/// The command `check BOOK` of these words, the first of which names it.
fn read_check(alloc: Global, words: &[String]) -> Result<Command, WordsError>
    requires { (rest : List (List ℕ)) × BeginWith words.now (codes "check") rest }
    ensures ok { IfOk result (λ command. Ask words.now command) }
    ensures err { IfErr result (λ e. (e ≡ WordsError.Memory) ⊎ AreRefused words.now e) }
{
    let values = values_behind(alloc, "check", words, 1)?;
    let book = Word::from_text(alloc, values[0])?;
    Ok(Command::Check { book })
}

/// The command `extend BOOK BUDGET` of these words, the first of which names it.
fn read_extend(alloc: Global, words: &[String]) -> Result<Command, WordsError>
    requires { (rest : List (List ℕ)) × BeginWith words.now (codes "extend") rest }
    ensures ok { IfOk result (λ command. Ask words.now command) }
    ensures err { IfErr result (λ e. (e ≡ WordsError.Memory) ⊎ AreRefused words.now e) }
{
    let values = values_behind(alloc, "extend", words, 2)?;
    let budget = number_at(&values, 1, ANY_NUMBER)?;
    let book = Word::from_text(alloc, values[0])?;
    Ok(Command::Extend { book, budget })
}

/// The command `compile BOOK TARGET` of these words, the first of which names it.
fn read_compile(alloc: Global, words: &[String]) -> Result<Command, WordsError>
    requires { (rest : List (List ℕ)) × BeginWith words.now (codes "compile") rest }
    ensures ok { IfOk result (λ command. Ask words.now command) }
    ensures err { IfErr result (λ e. (e ≡ WordsError.Memory) ⊎ AreRefused words.now e) }
{
    let values = values_behind(alloc, "compile", words, 2)?;
    let book = Word::from_text(alloc, values[0])?;
    let target = Word::from_text(alloc, values[1])?;
    Ok(Command::Compile { book, target })
}

/// The command `certify BOOK TARGET` of these words, the first of which names it.
fn read_certify(alloc: Global, words: &[String]) -> Result<Command, WordsError>
    requires { (rest : List (List ℕ)) × BeginWith words.now (codes "certify") rest }
    ensures ok { IfOk result (λ command. Ask words.now command) }
    ensures err { IfErr result (λ e. (e ≡ WordsError.Memory) ⊎ AreRefused words.now e) }
{
    let values = values_behind(alloc, "certify", words, 2)?;
    let book = Word::from_text(alloc, values[0])?;
    let target = Word::from_text(alloc, values[1])?;
    Ok(Command::Certify { book, target })
}

/// The command `audit BOOK TARGET CERT` of these words, the first of which names it.
fn read_audit(alloc: Global, words: &[String]) -> Result<Command, WordsError>
    requires { (rest : List (List ℕ)) × BeginWith words.now (codes "audit") rest }
    ensures ok { IfOk result (λ command. Ask words.now command) }
    ensures err { IfErr result (λ e. (e ≡ WordsError.Memory) ⊎ AreRefused words.now e) }
{
    let values = values_behind(alloc, "audit", words, 3)?;
    let book = Word::from_text(alloc, values[0])?;
    let target = Word::from_text(alloc, values[1])?;
    let cert = Word::from_text(alloc, values[2])?;
    Ok(Command::Audit { book, target, cert })
}

/// The command `replay PATTERN N` of these words, the first of which names it.
fn read_replay(alloc: Global, words: &[String]) -> Result<Command, WordsError>
    requires { (rest : List (List ℕ)) × BeginWith words.now (codes "replay") rest }
    ensures ok { IfOk result (λ command. Ask words.now command) }
    ensures err { IfErr result (λ e. (e ≡ WordsError.Memory) ⊎ AreRefused words.now e) }
{
    let values = values_behind(alloc, "replay", words, 2)?;
    let generations = number_at(&values, 1, ANY_NUMBER)?;
    let pattern = Word::from_text(alloc, values[0])?;
    Ok(Command::Replay {
        pattern,
        generations,
    })
}

/// The command `sample COUNT GAP` of these words, the first of which names it.
fn read_sample(alloc: Global, words: &[String]) -> Result<Command, WordsError>
    requires { (rest : List (List ℕ)) × BeginWith words.now (codes "sample") rest }
    ensures ok { IfOk result (λ command. Ask words.now command) }
    ensures err { IfErr result (λ e. (e ≡ WordsError.Memory) ⊎ AreRefused words.now e) }
{
    let values = values_behind(alloc, "sample", words, 2)?;
    let count = number_at(&values, 0, SAMPLE_COUNTS)?;
    let gap = number_at(&values, 1, SAMPLE_GAPS)?;
    Ok(Command::Sample { count, gap })
}

/// The command of this name that the words say, the first of which is the name.
fn read_command(alloc: Global, name: &str, words: &[String]) -> Result<Command, WordsError>
    requires { (rest : List (List ℕ)) × BeginWith words.now name.now rest }
    ensures ok { IfOk result (λ command. Ask words.now command) }
    ensures err { IfErr result (λ e. (e ≡ WordsError.Memory) ⊎ AreRefused words.now e) }
{
    match name {
        "check" => read_check(alloc, words),
        "extend" => read_extend(alloc, words),
        "compile" => read_compile(alloc, words),
        "certify" => read_certify(alloc, words),
        "audit" => read_audit(alloc, words),
        "replay" => read_replay(alloc, words),
        "sample" => read_sample(alloc, words),
        _ => Err(WordsError::UnknownCommand),
    }
}

/// The command that the words say: `check BOOK`, `extend BOOK BUDGET`, `compile BOOK TARGET`, `certify BOOK TARGET`, `audit BOOK TARGET CERT`,
/// `replay PATTERN N` or `sample COUNT GAP`. BUDGET and N are numbers from 0 to 2^32 - 1, COUNT is one from 1 to 64 and GAP one from 64 to 1,000,000,
/// each of 1 to 10 digits and no sign.
///
/// # Errors
/// The first that holds, in this order: no word, a word that begins with `-`, an unknown command, another number of words than the command takes,
/// a word that isn't the number that it is to be, no memory. Words count from 1.
pub fn read_words(alloc: Global, words: &[String]) -> Result<Command, WordsError>
    ensures ok { IfOk result (λ command. Ask words.now command) }
    ensures err { IfErr result (λ e. (e ≡ WordsError.Memory) ⊎ AreRefused words.now e) }
{
    let [first, ..] = words else {
        return Err(WordsError::NoCommand);
    };
    if let Some(before) = first_dash(words) {
        return Err(WordsError::Dash { place: before + 1 });
    }
    read_command(alloc, first.as_str(), words)
}
