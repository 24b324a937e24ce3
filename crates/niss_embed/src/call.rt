//! The call that runs a command on bytes in memory.
ghost use Rattle.std.specs.Prelude.{◌≡◌, ◌<◌, [], MatchOption, IfOk, OnErr, Err, map, string_bytes, length};
ghost use Rattle.niss_shell.specs.Output.{unsearched};
ghost use Rattle.niss_embed.specs.Names.{OutOfMemory};
ghost use Rattle.niss_embed.specs.Memory.{memory};
ghost use Rattle.niss_embed.specs.Run.{IsFirstWord, TakesWords, Answers, RunsBytes, RunsWords};

use crate::memory::{MemorySource, MemoryTarget, put};
use niss_lines::Status;
use niss_shell::{Meter, more_input_keeps_answers, run_in};
use std::alloc::{AllocError, Allocator};

/// What a run returns.
#[repr(C)]
#[derive(Clone, Copy, Debug, PartialEq, Eq)]
pub struct Answer {
    /// The exit status, from 0 to 3, as that of `nissy`.
    pub status: u8,
    /// The output is longer than its memory, which holds a beginning of it. The status is 3 then.
    pub out_too_small: bool,
    /// The error text is longer than its memory, which holds a beginning of it.
    pub err_too_small: bool,
    /// How many bytes of the output were written, from the beginning of its memory.
    pub out_length: usize,
    /// How many bytes of the error text were written, from the beginning of its memory.
    pub err_length: usize,
}

/// The first word, and what is after it.
fn first_word(bytes: &[u8]) -> Option<(&[u8], &[u8])>
    ensures { MatchOption result (bytes.now ≡ [])
        (λ cut. IsFirstWord bytes.now cut.0.now cut.1.now) }
{
    if bytes.is_empty() {
        return None;
    }
    match bytes.iter().position(|byte| *byte == 0) {
        Some(at) => Some((&bytes[..at], &bytes[at + 1..])),
        None => Some((bytes, &[])),
    }
}

/// The words of these bytes. If one of them is no text there are none, since such words are no command.
fn words_in<A: Allocator + Copy>(alloc: A, bytes: &[u8]) -> Result<Vec<String<A>, A>, AllocError>
    ensures words { IfOk result (λ words. TakesWords bytes.now (map string_bytes words.items)) }
    ensures asked { OnErr result (0 < length bytes.now) }
{
    let mut words = Vec::new(alloc);
    let mut rest = bytes;
    while let Some((word, after)) = first_word(rest) {
        let Ok(text) = str::from_utf8(word) else {
            return Ok(Vec::new(alloc));
        };
        words.push(String::from_str(alloc, text)?)?;
        rest = after;
    }
    Ok(words)
}

/// Runs the command of these words.
fn run_words<A: Allocator + Copy>(
    alloc: A,
    words: &[String<A>],
    input: &[u8],
    out: &mut [u8],
    err: &mut [u8],
) -> Answer
    ensures runs { RunsWords (map string_bytes words.now) input.now (memory out.old out.new)
        (memory err.old err.new) result }
{
    // what is written of the input that is read is a beginning of what the whole is answered with
    more_input_keeps_answers();
    let mut source = MemorySource::new(input);
    let mut out = MemoryTarget::new(out);
    let mut err = MemoryTarget::new(err);
    let status = run_in(
        alloc,
        words,
        &mut source,
        &mut out,
        &mut err,
        &mut Meter::new(),
    );
    Answer {
        status,
        out_too_small: out.refused,
        err_too_small: err.refused,
        out_length: out.written,
        err_length: err.written,
    }
}

/// What is returned if memory is refused for the words, as for the tables of a step.
fn refuse_memory(out: &mut [u8], err: &mut [u8]) -> Answer
    ensures answers { Answers (unsearched [] (Err OutOfMemory)) (memory out.old out.new)
        (memory err.old err.new) result }
{
    let text = b"nissy: out of memory\n";
    let err_length = put(err, 0, text);
    Answer {
        status: Status::Stopped.number(),
        out_too_small: false,
        err_too_small: err_length < text.len(),
        out_length: 0,
        err_length,
    }
}

/// Runs the command of these words on the input, and writes the output into `out` and the error text into `err`.
///
/// The words are those after the program's name, each ended by a zero byte; what stands after the last zero byte is a
/// word if it has a byte. Words of which one isn't UTF-8 are no command, as they aren't for `nissy`. The words and
/// the tables of a step take memory of `alloc`; all else is on the stack, and nothing is kept after the call.
///
/// An output that is longer than `out` ends the run as `nissy` ends if it can't write, with the status 3: then `out`
/// is full, and `out_too_small` says so. A caller that wants the whole output tries again with more. What is after the
/// written bytes is left as it was.
pub fn run_bytes<A: Allocator + Copy>(
    alloc: A,
    words: &[u8],
    input: &[u8],
    out: &mut [u8],
    err: &mut [u8],
) -> Answer
    ensures runs { RunsBytes words.now input.now (memory out.old out.new) (memory err.old err.new)
        result }
{
    match words_in(alloc, words) {
        Ok(words) => run_words(alloc, &words, input, out, err),
        Err(_) => refuse_memory(out, err),
    }
}
