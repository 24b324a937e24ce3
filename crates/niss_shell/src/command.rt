//! The commands, and how the words of a command line name them.
ghost use Rattle.std.specs.Prelude.{◌≡◌, Some, Ok, Err, IfOk, MatchResult, codes, map, slice_get, string_bytes};
ghost use Rattle.std.specs.Char.{is_ascii_digit};
ghost use Rattle.std.specs.List.{list_all};
ghost use Rattle.niss_shell.specs.Words.{Parses, IsInRange, ListSteps, request_of, requested, name_of_command, without_words, most_limit};
ghost use Rattle.niss_shell.specs.Words.{solve_words, count_words, near_words, scramble_words, spelled_number, step_named};

use niss_cube::Step;
use niss_search::Limit;
use std::alloc::{Allocator, Global};

/// The most turns of a scramble.
const MOST_TURNS: u64 = 256;

/// The most scrambles.
const MOST_SCRAMBLES: u64 = 10_000;

/// Why the words are no command.
#[derive(Clone, Copy, Debug, PartialEq, Eq)]
pub enum UsageFault {
    /// There are no words.
    NoCommand,
    /// The first word names no command.
    UnknownCommand,
    /// The command takes another number of words.
    WrongCount,
    /// A word that should be a number is none, or is out of its range.
    BadNumber,
    /// No step has this name.
    UnknownStep,
}

/// What is written for a line without a search.
#[derive(Clone, Copy)]
pub enum Rewriting {
    Invert,
    Unniss,
    Cleanup,
    Print,
}

/// A command. The words that it lends, whose memory is of an allocator `B`, are the input; if there are none, the input
/// comes from the source.
#[derive_where(Clone, Copy)]
pub enum Command<'a, B: Allocator = Global> {
    /// The inverse of each line.
    Invert(&'a [String<B>]),
    /// Each line without brackets: its normal moves, and then the inverse of its bracketed ones.
    Unniss(&'a [String<B>]),
    /// Each line as canonical face turns and a rotation, the normal and the bracketed moves each by itself.
    Cleanup(&'a [String<B>]),
    /// The facelet text of each line.
    Print(&'a [String<B>]),
    /// The shortest solutions of a step for each line, of at most so many turns.
    Solve(Step, Limit, &'a [String<B>]),
    /// Their length, how many they are, and how often the search looks at a position, for each line.
    Count(Step, Limit, &'a [String<B>]),
    /// The solutions of a step for each line, of at most so many turns (the first limit), and of at most so many more than the
    /// shortest (the second).
    Near(Step, Limit, Limit, &'a [String<B>]),
    /// The names of the steps.
    Steps,
    /// So many scrambles, at most 10,000, of so many turns, at most 256, by one generator of a state and a stream.
    Scramble {
        state: u64,
        stream: u64,
        length: usize,
        count: usize,
    },
}

/// Whether all that the word has are decimal digits.
fn has_digits_alone(word: &str) -> bool
    ensures { result ≡ list_all is_ascii_digit word.now }
{
    word.as_bytes().iter().all(|byte| byte.is_ascii_digit())
}

/// The number that the word spells in decimal digits, if it is at most `most`; `None` for any other word. Zeros may lead it.
#[inline(never)]
#[tactic(auto, using(crate::proofs::WordsLemmas::number_too_large))]
fn parse_number(word: &str, most: u64) -> Option<u64>
    ensures { result ≡ spelled_number most word.now }
{
    // `parse` would take a sign too
    if !has_digits_alone(word) {
        return None;
    }
    let number = word.parse::<u64>().ok()?;
    if number > most {
        return None;
    }
    Some(number)
}

/// The limit that the word spells in decimal digits, 0 to 20; `None` for any other word.
fn parse_limit(word: &str) -> Option<Limit>
    ensures { result ≡ spelled_number most_limit word.now }
{
    let turns = parse_number(word, Limit::MOST as u64)?;
    Limit::new(turns as u8)
}

/// The step of this name.
#[tactic(auto, using(crate::proofs::WordsLemmas::step_unknown))]
pub fn step_named(name: &[u8]) -> Option<Step>
    ensures { result ≡ step_named name.now }
{
    Step::from_name(name)
}

/// The command `solve`, by its step, its limit and the words that are the input.
fn parse_solve<B: Allocator>(words: &[String<B>]) -> Result<Command<'_, B>, UsageFault>
    ensures { Parses result (solve_words (map string_bytes words.now)) (Some (codes "solve")) }
{
    let [step, limit, rest @ ..] = words else {
        return Err(UsageFault::WrongCount);
    };
    let step = step_named(step.as_bytes()).ok_or(UsageFault::UnknownStep)?;
    let limit = parse_limit(limit.as_str()).ok_or(UsageFault::BadNumber)?;
    Ok(Command::Solve(step, limit, rest))
}

/// The command `count`, by the same.
fn parse_count<B: Allocator>(words: &[String<B>]) -> Result<Command<'_, B>, UsageFault>
    ensures { Parses result (count_words (map string_bytes words.now)) (Some (codes "count")) }
{
    let [step, limit, rest @ ..] = words else {
        return Err(UsageFault::WrongCount);
    };
    let step = step_named(step.as_bytes()).ok_or(UsageFault::UnknownStep)?;
    let limit = parse_limit(limit.as_str()).ok_or(UsageFault::BadNumber)?;
    Ok(Command::Count(step, limit, rest))
}

/// The command `near`, by its step, its limit, its slack and the words that are the input.
fn parse_near<B: Allocator>(words: &[String<B>]) -> Result<Command<'_, B>, UsageFault>
    ensures { Parses result (near_words (map string_bytes words.now)) (Some (codes "near")) }
{
    let [step, limit, slack, rest @ ..] = words else {
        return Err(UsageFault::WrongCount);
    };
    let step = step_named(step.as_bytes()).ok_or(UsageFault::UnknownStep)?;
    let limit = parse_limit(limit.as_str()).ok_or(UsageFault::BadNumber)?;
    let slack = parse_limit(slack.as_str()).ok_or(UsageFault::BadNumber)?;
    Ok(Command::Near(step, limit, slack, rest))
}

/// The command `steps`, which takes no words.
fn parse_steps<B: Allocator>(words: &[String<B>]) -> Result<Command<'_, B>, UsageFault>
    ensures { Parses result (without_words ListSteps (map string_bytes words.now)) (Some (codes "steps")) }
{
    match words {
        [] => Ok(Command::Steps),
        _ => Err(UsageFault::WrongCount),
    }
}

/// The command `scramble`, which takes four numbers.
fn parse_scramble<B: Allocator>(words: &[String<B>]) -> Result<Command<'_, B>, UsageFault>
    ensures command { MatchResult result
        (λ command. scramble_words (map string_bytes words.now) ≡ Ok (requested command))
        (λ fault. scramble_words (map string_bytes words.now) ≡ Err fault) }
    ensures in_range { IfOk result (λ command. IsInRange (requested command)) }
    ensures named { IfOk result (λ command. Some (codes "scramble") ≡ Some (name_of_command command)) }
{
    let [state, stream, length, count] = words else {
        return Err(UsageFault::WrongCount);
    };
    let state = parse_number(state.as_str(), u64::MAX).ok_or(UsageFault::BadNumber)?;
    let stream = parse_number(stream.as_str(), u64::MAX).ok_or(UsageFault::BadNumber)?;
    let length = parse_number(length.as_str(), MOST_TURNS).ok_or(UsageFault::BadNumber)?;
    let count = parse_number(count.as_str(), MOST_SCRAMBLES).ok_or(UsageFault::BadNumber)?;
    Ok(Command::Scramble {
        state,
        stream,
        length: length as usize,
        count: count as usize,
    })
}

/// The command that the words name, or their first fault: of the command, then of the count of words, of the step, and of
/// the numbers from left to right.
#[tactic(auto, using(crate::proofs::WordsLemmas::named_command))]
pub fn parse_words<B: Allocator>(words: &[String<B>]) -> Result<Command<'_, B>, UsageFault>
    // The request of `solve` is that of `near` with a slack of 0, so the first word is said too.
    ensures { Parses result (request_of (map string_bytes words.now)) (slice_get (map string_bytes words.now) 0) }
{
    let Some((name, rest)) = words.split_first() else {
        return Err(UsageFault::NoCommand);
    };
    match name.as_str() {
        "invert" => Ok(Command::Invert(rest)),
        "unniss" => Ok(Command::Unniss(rest)),
        "cleanup" => Ok(Command::Cleanup(rest)),
        "print" => Ok(Command::Print(rest)),
        "solve" => parse_solve(rest),
        "count" => parse_count(rest),
        "near" => parse_near(rest),
        "steps" => parse_steps(rest),
        "scramble" => parse_scramble(rest),
        _ => Err(UsageFault::UnknownCommand),
    }
}
