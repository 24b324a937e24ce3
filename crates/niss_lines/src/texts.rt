//! Short texts for a caller's buffer: what is written of one line without a search, a scramble, and what things are
//! called.
ghost use Rattle.std.specs.Prelude.{◌≡◌, ◌≢◌, ◌≤◌, Ok, Err, IfOk, IfErr, [], length};
ghost use Rattle.std.specs.Option.{option_copied};
ghost use Rattle.niss_moves.specs.Reader.{IsFed, read_line};
ghost use Rattle.niss_shell.specs.Output.{line_text};
ghost use Rattle.niss_shell.specs.Words.{most_bytes};
ghost use Rattle.niss_lines.specs.LineCalls.{enough_bytes, status_number, Does, Rewrites, outcome_of_text, outcome_of_scramble};
ghost use Rattle.niss_lines.specs.LineCalls.{outcome_of_steps, outcome_of_start, outcome_of_some, fault_text_of};
ghost use Rattle.niss_lines.specs.declared.answer.Status.TheVariants.{NoRoom};

use crate::answer::LineAnswer;
use niss_moves::{LineReader, LineText, Niss, ReadFault};
use niss_shell::{MOST_BYTES, Rewriting, rewrite, set_scramble, set_steps, step_named};

/// The most turns of a scramble.
const MOST_TURNS: u32 = 256;

/// The moves of a line by a new reader, or its fault. The reader is lent, since it is too large to be handed on by value
/// on a small stack.
pub fn read_by<'a>(reader: &'a mut LineReader, line: &[u8]) -> Result<&'a Niss, ReadFault>
    requires new { IsFed reader.old [] }
    requires room { length line.now ≤ most_bytes }
    ensures moves { IfOk result (λ moves. read_line line.now ≡ Ok moves.now) }
    ensures fault { IfErr result (λ fault. read_line line.now ≡ Err fault) }
{
    reader.feed_all(line);
    match reader.end() {
        Ok(()) => Ok(reader.moves()),
        Err(fault) => Err(fault),
    }
}

/// Writes the text of a line's moves, without the line feed.
fn put_rewritten(rewriting: Rewriting, line: &Niss, out: &mut [u8]) -> LineAnswer
    ensures does { Does (outcome_of_text (length out.old) (line_text rewriting line.now)) out.old out.new result }
    ensures room { enough_bytes ≤ length out.old → result.status ≢ status_number NoRoom }
{
    let mut text = LineText::new();
    rewrite(rewriting, line, &mut text);
    text.pop();
    LineAnswer::put(text.as_slice(), out)
}

/// Writes what the program writes of a line's moves, without the line feed: all of it, or nothing if the line has a fault or
/// the buffer is too small. 2,048 bytes are enough, as for each text of this file.
#[inline(never)]
pub fn rewrite_line(rewriting: Rewriting, line: &[u8], out: &mut [u8]) -> LineAnswer
    ensures does { Rewrites rewriting line.now out.old out.new result }
    ensures room { enough_bytes ≤ length out.old → result.status ≢ status_number NoRoom }
{
    if line.len() > MOST_BYTES {
        return LineAnswer::too_long();
    }
    let mut reader = LineReader::new();
    match read_by(&mut reader, line) {
        Ok(moves) => put_rewritten(rewriting, moves, out),
        Err(fault) => LineAnswer::unread(fault),
    }
}

/// Writes the first scramble of so many turns, at most 256, by the generator of a state and a stream, without the line
/// feed.
pub fn scramble(state: u64, stream: u64, turns: u32, out: &mut [u8]) -> LineAnswer
    ensures does { Does (outcome_of_scramble (length out.old) state stream turns) out.old out.new result }
    ensures room { enough_bytes ≤ length out.old → result.status ≢ status_number NoRoom }
{
    if turns > MOST_TURNS {
        return LineAnswer::misused();
    }
    let mut line = LineText::new();
    set_scramble(state, stream, turns as usize, &mut line);
    line.pop();
    LineAnswer::put(line.as_slice(), out)
}

/// Writes the names of the steps, each with its line feed.
pub fn step_names(out: &mut [u8]) -> LineAnswer
    ensures does { Does (outcome_of_steps (length out.old)) out.old out.new result }
    ensures room { enough_bytes ≤ length out.old → result.status ≢ status_number NoRoom }
{
    let mut text = LineText::new();
    set_steps(&mut text);
    LineAnswer::put(text.as_slice(), out)
}

/// Writes the name of the step that must hold before the step of this name, and nothing if none must.
#[tactic(auto, using(crate::proofs::TextLemmas::start_has_room))]
pub fn start_name(name: &[u8], out: &mut [u8]) -> LineAnswer
    ensures does { Does (outcome_of_start (length out.old) name.now) out.old out.new result }
    ensures room { enough_bytes ≤ length out.old → result.status ≢ status_number NoRoom }
{
    let Some(step) = step_named(name) else {
        return LineAnswer::misused();
    };
    match step.start_name() {
        Some(start) => LineAnswer::put(start.as_bytes(), out),
        None => LineAnswer::put(&[], out),
    }
}

/// What the fault of a number is called: those of reading moves by the numbers of `LineAnswer`, and 6, a step whose
/// start doesn't hold.
fn text_of_fault(number: u8) -> Option<&'static str>
    ensures { option_copied result ≡ fault_text_of number }
{
    match number {
        1 => Some(ReadFault::NotAMove { column: 0 }.text()),
        2 => Some(ReadFault::Nested { column: 0 }.text()),
        3 => Some(ReadFault::Unopened { column: 0 }.text()),
        4 => Some(ReadFault::Unclosed { column: 0 }.text()),
        5 => Some(ReadFault::TooLong { column: 0 }.text()),
        6 => Some("does not hold"),
        _ => None,
    }
}

/// Writes what the fault of a number is called.
#[tactic(auto, using(crate::proofs::TextLemmas::fault_has_room))]
pub fn fault_text(number: u8, out: &mut [u8]) -> LineAnswer
    ensures does { Does (outcome_of_some (length out.old) (fault_text_of number)) out.old out.new result }
    ensures room { enough_bytes ≤ length out.old → result.status ≢ status_number NoRoom }
{
    match text_of_fault(number) {
        Some(text) => LineAnswer::put(text.as_bytes(), out),
        None => LineAnswer::misused(),
    }
}
