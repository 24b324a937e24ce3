//! The input of a command on lines: its words, joined, or what the source gives.
ghost use Rattle.std.specs.Prelude.{◌≡◌, ◌<◌, ◌≤◌, ◌++◌, Ok, List, ℕ, map, flat_map, string_bytes, length};
ghost use Rattle.std.specs.Prelude.{OnOk, IfOk, IfErr, IfSome, MatchOption};
ghost use Rattle.niss_shell.specs.Device.{Calls};
ghost use Rattle.niss_shell.specs.Names.{LineCommand, Step};
ghost use Rattle.niss_shell.specs.Words.{most_bytes, joined, spaced_word, OnLines};
ghost use Rattle.niss_shell.specs.Engine.{MayBegin, RunsUnflushed, EndsAtOnce, IsInput, output_state};

use crate::device::{Source, Target};
use crate::line_command::LineCommand;
use crate::lines::{Lines, MOST_BYTES};
use crate::output::Output;
use crate::stop::Stop;
use niss_cube::Step;
use niss_search::{Meter, Tables};
use std::alloc::{AllocError, Allocator};

/// How many bytes the words give, if these aren't too many.
fn joined_length<B: Allocator>(words: &[String<B>]) -> Option<usize>
    requires { 0 < length words.now }
    ensures { MatchOption result
        (most_bytes < length (joined (map string_bytes words.now)))
        (λ n. (n ≡ length (joined (map string_bytes words.now))) × (n ≤ most_bytes)) }
{
    let mut total = 0usize;
    for word in words {
        let length = word.as_bytes().len();
        if length >= MOST_BYTES - total {
            return None;
        }
        total += length + 1;
    }
    Some(total)
}

/// Appends the words, each after a space.
fn push_more_words<A: Allocator, B: Allocator>(
    words: &[String<B>],
    text: &mut Vec<u8, A>,
) -> Result<(), AllocError>
    ensures { OnOk result
        (text.new.items ≡ text.old.items ++ flat_map spaced_word (map string_bytes words.now)) }
{
    for word in words {
        text.push(b' ')?;
        text.extend_from_slice(word.as_bytes())?;
    }
    Ok(())
}

/// The words with single spaces, and a line feed.
fn joined_words<A: Allocator, B: Allocator>(
    alloc: A,
    words: &[String<B>],
    length: usize,
) -> Result<Vec<u8, A>, AllocError>
    ensures { IfOk result (λ text. text.items ≡ joined (map string_bytes words.now)) }
{
    let mut text = Vec::with_capacity(alloc, length)?;
    if let Some((first, rest)) = words.split_first() {
        text.extend_from_slice(first.as_bytes())?;
        push_more_words(rest, &mut text)?;
    }
    text.push(b'\n')?;
    Ok(text)
}

/// The words joined, if there are any; nothing if the source is read.
fn joined_input<A: Allocator, B: Allocator>(
    alloc: A,
    words: &[String<B>],
) -> Result<Option<Vec<u8, A>>, Stop>
    ensures input { IfOk result
        (λ input. IsInput (λ text. text.items) input (map string_bytes words.now)) }
    ensures refused { IfErr result (λ stop. (command : LineCommand Step) →
        EndsAtOnce (Ok (OnLines command (map string_bytes words.now))) stop) }
{
    if words.is_empty() {
        return Ok(None);
    }
    let Some(length) = joined_length(words) else {
        return Err(Stop::InputTooLong);
    };
    let text = joined_words(alloc, words, length)?;
    Ok(Some(text))
}

/// A command on lines with all that takes memory: its tables, and the words that give the lines, joined. Without words the
/// lines are the source's.
#[derive(Drop)]
pub struct Prepared<A: Allocator> {
    command: LineCommand<Tables<A>>,
    input: Option<Vec<u8, A>>,
}

impl<A: Allocator + Copy> Prepared<A> {
    /// Takes memory for the joined words, and then for the tables.
    #[tactic(auto, using(std::proofs::lemmas::Result::err_from_is_err_and))]
    pub fn new<B: Allocator>(
        alloc: A,
        command: LineCommand<Step>,
        words: &[String<B>],
    ) -> Result<Prepared<A>, Stop>
        ensures command { IfOk result (λ prepared. prepared.command ≡ command) }
        ensures input { IfOk result
            (λ prepared. IsInput (λ text. text.items) prepared.input (map string_bytes words.now)) }
        ensures refused { IfErr result (λ stop. EndsAtOnce (Ok (OnLines command (map string_bytes words.now))) stop) }
    {
        let input = joined_input(alloc, words)?;
        let command = command.with_tables(alloc)?;
        Ok(Prepared { command, input })
    }

    /// Answers the lines of the joined words, or of the source if there are none.
    pub fn answer<R: Source, W: Target>(
        &self,
        source: &mut R,
        output: &mut Output<W>,
        looks: &mut Meter,
    ) -> Result<(), Stop>
        requires begins { MayBegin (R.state source.old) (output_state output.old looks.old) }
        requires fits { IfSome self.now.input (λ text. length text.items ≤ most_bytes) }
        ensures { (words : List (List ℕ)) → IsInput (λ text. text.items) self.now.input words →
            RunsUnflushed W.call (Ok (OnLines self.now.command words)) result
            (Calls R.call source.old source.new)
            (output_state output.old looks.old) (output_state output.new looks.new) }
    {
        let mut lines = Lines::new(&self.command, looks);
        match &self.input {
            None => lines.read(source, output),
            Some(text) => lines.take_text(text.as_slice(), output),
        }
    }
}
