//! A run, from the words of a command line to the exit status.
ghost use Rattle.std.specs.Prelude.{◌≡◌, ◌≤◌, ◌^◌, Bool, false, [], ℕ, Ok, length, map, flat_map, string_bytes};
ghost use Rattle.niss_shell.specs.Device.{Calls, Writes};
ghost use Rattle.niss_shell.specs.Words.{request_of};
ghost use Rattle.niss_shell.specs.Output.{error_text, most_error_text, status_of, step_line, unsearched};
ghost use Rattle.niss_cube.specs.Steps.{steps};
ghost use Rattle.niss_shell.specs.Engine.{MayBegin, Answers, RunsUnflushed, output_state};
ghost use Rattle.niss_shell.specs.Run.{Runs};

use crate::command::{Command, Rewriting, parse_words};
use crate::device::{Source, Target};
use crate::input::Prepared;
use crate::line_command::{LineCommand, Query};
use crate::output::Output;
use crate::scrambles::write_scrambles;
use crate::stop::Stop;
use crate::text::put_text;
use crate::writing::write_all;
use niss_cube::Step;
use niss_moves::LineText;
use niss_search::laws::counts_and_bounds;
use niss_search::{Limit, Meter};
use rand_pcg::Lcg64Xsh32;
use std::alloc::{Allocator, Global};

/// Sets the text to the names of the steps, each on a line.
pub fn set_steps(text: &mut LineText)
    ensures { text.new.items ≡ flat_map step_line steps }
{
    text.clear();
    for step in Step::all() {
        put_text(step.name().as_bytes(), text);
        text.push(b'\n');
    }
}

/// Writes the names of the steps, each on a line.
fn write_steps<W: Target>(output: &mut Output<W>) -> Result<(), Stop>
    ensures answers { (looks : ℕ) →
        Answers W.call (unsearched (flat_map step_line steps) (Ok tt)) result
        (output_state output.old looks) (output_state output.new looks) }
    ensures empty { output.new.pending.items ≡ [] }
{
    set_steps(&mut output.next);
    Ok(output.write()?)
}

/// Does what the words ask for, up to the last flush. A command on lines takes memory before the first byte is read or
/// written.
fn answer_command<A: Allocator + Copy, B: Allocator, R: Source, W: Target>(
    alloc: A,
    words: &[String<B>],
    source: &mut R,
    output: &mut Output<W>,
    looks: &mut Meter,
) -> Result<(), Stop>
    requires { MayBegin (R.state source.old) (output_state output.old looks.old) }
    ensures { RunsUnflushed W.call (request_of (map string_bytes words.now)) result
        (Calls R.call source.old source.new)
        (output_state output.old looks.old) (output_state output.new looks.new) }
{
    let Ok(command) = parse_words(words) else {
        return Err(Stop::Usage);
    };
    let (command, words) = match command {
        Command::Invert(words) => (LineCommand::Rewrite(Rewriting::Invert), words),
        Command::Unniss(words) => (LineCommand::Rewrite(Rewriting::Unniss), words),
        Command::Cleanup(words) => (LineCommand::Rewrite(Rewriting::Cleanup), words),
        Command::Print(words) => (LineCommand::Rewrite(Rewriting::Print), words),
        Command::Solve(step, limit, words) => {
            (
                LineCommand::Search(step, Query::Solutions(limit, Limit::ZERO)),
                words,
            )
        }
        Command::Count(step, limit, words) => {
            (LineCommand::Search(step, Query::Counts(limit)), words)
        }
        Command::Near(step, limit, slack, words) => {
            (
                LineCommand::Search(step, Query::Solutions(limit, slack)),
                words,
            )
        }
        Command::Steps => return write_steps(output),
        Command::Scramble {
            state,
            stream,
            length,
            count,
        } => return write_scrambles(Lcg64Xsh32::new(state, stream), length, count, output),
    };
    let prepared = Prepared::new(alloc, command, words)?;
    prepared.answer(source, output, looks)
}

/// Writes what went wrong, or as much of it as the error writer takes, and returns the exit status.
#[tactic(auto, using(crate::proofs::RunLemmas::reported, crate::proofs::RunLemmas::nothing_reported))]
fn report<E: Target>(outcome: Result<(), Stop>, err: &mut E) -> u8
    ensures reports { (refused : Bool) × Writes E.call refused (error_text outcome) [] err.old err.new }
    ensures short { length (error_text outcome) ≤ most_error_text }
    ensures status { result ≡ status_of outcome }
{
    let Err(stop) = outcome else {
        return 0;
    };
    let text = stop.text();
    let _ = write_all(err, text.as_slice());
    stop.status()
}

/// `run` over any allocator, for a caller that has a heap of its own, or that refuses growths. The memory of the words may
/// be of another one.
pub fn run_in<A: Allocator + Copy, B: Allocator, R: Source, W: Target, E: Target>(
    alloc: A,
    words: &[String<B>],
    input: &mut R,
    out: &mut W,
    err: &mut E,
    looks: &mut Meter,
) -> u8
    requires reads { (R.state input.old).has_failed ≡ false }
    requires goes_on { (R.state input.old).has_ended ≡ false }
    requires meter { looks.old ≤ 2 ^ 64 }
    ensures runs { Runs (map string_bytes words.now)
        (Calls R.call input.old input.new) (Calls W.call out.old out.new) (Calls E.call err.old err.new)
        looks.old looks.new result }
{
    // no search looks more often than its bound says
    counts_and_bounds();
    let mut output = Output::new(out);
    let answered = answer_command(alloc, words, input, &mut output, looks);
    let outcome = output.finish(answered);
    report(outcome, err)
}

/// Runs a command, and returns its exit status: 0 if all was written, 1 for a fault of a line, 2 for words that are no
/// command, 3 for an input that is too long, and if a read, a write, a flush or memory was refused.
///
/// The words are those after the program's name. The input, if no words give it, comes from `input`, of which no read has
/// failed or found the end yet. Nothing more is read after a fault of a line or a refused write. The answers go to `out`,
/// which is flushed once, at the end, and what went wrong to `err`, which isn't flushed; what these two did before doesn't
/// matter. `looks` counts the looks at positions of the searches for the lines; it stands at 2^64 or below, and doesn't rise
/// if memory was refused or no step is searched. Memory is taken only to join words that give the input, and for the tables
/// of a step, and before anything is read or written; `nissy: out of memory` comes only if the command takes memory.
pub fn run<R: Source, W: Target, E: Target>(
    alloc: Global,
    words: &[String],
    input: &mut R,
    out: &mut W,
    err: &mut E,
    looks: &mut Meter,
) -> u8
    requires reads { (R.state input.old).has_failed ≡ false }
    requires goes_on { (R.state input.old).has_ended ≡ false }
    requires meter { looks.old ≤ 2 ^ 64 }
    ensures runs { Runs (map string_bytes words.now)
        (Calls R.call input.old input.new) (Calls W.call out.old out.new) (Calls E.call err.old err.new)
        looks.old looks.new result }
{
    run_in(alloc, words, input, out, err, looks)
}
