//! The calls that write a short text: what is made of the moves on one line, a scramble, and what steps and faults are
//! called.
ghost use Rattle.std.specs.Prelude.{◌≢◌, ◌≤◌, length};
ghost use Rattle.niss_shell.specs.declared.command.Rewriting.TheVariants.{Invert, Unniss, Cleanup, Print};
ghost use Rattle.niss_lines.specs.LineCalls.{status_number, Does, Rewrites, outcome_of_scramble, outcome_of_steps};
ghost use Rattle.niss_lines.specs.LineCalls.{outcome_of_start, outcome_of_some, fault_text_of};
ghost use Rattle.niss_lines.specs.declared.answer.Status.TheVariants.{NoRoom};

use niss_lines::{LineAnswer, fault_text, rewrite_line, scramble, start_name, step_names};
use niss_shell::Rewriting;

/// Writes the inverse of a line's moves.
#[unsafe(no_mangle)]
pub extern "C" fn nissy_invert(line: &[u8], out: &mut [u8]) -> LineAnswer
    ensures does { Rewrites Invert line.now out.old out.new result }
    ensures room { 2048 ≤ length out.old → result.status ≢ status_number NoRoom }
{
    rewrite_line(Rewriting::Invert, line, out)
}

/// Writes a line's moves as one sequence, without brackets.
#[unsafe(no_mangle)]
pub extern "C" fn nissy_unniss(line: &[u8], out: &mut [u8]) -> LineAnswer
    ensures does { Rewrites Unniss line.now out.old out.new result }
    ensures room { 2048 ≤ length out.old → result.status ≢ status_number NoRoom }
{
    rewrite_line(Rewriting::Unniss, line, out)
}

/// Writes a line's moves cleaned: as face turns without wide turns and slices, and a rotation.
#[unsafe(no_mangle)]
pub extern "C" fn nissy_cleanup(line: &[u8], out: &mut [u8]) -> LineAnswer
    ensures does { Rewrites Cleanup line.now out.old out.new result }
    ensures room { 2048 ≤ length out.old → result.status ≢ status_number NoRoom }
{
    rewrite_line(Rewriting::Cleanup, line, out)
}

/// Writes the 54 facelet letters of the cube after a line.
#[unsafe(no_mangle)]
pub extern "C" fn nissy_facelets(line: &[u8], out: &mut [u8]) -> LineAnswer
    ensures does { Rewrites Print line.now out.old out.new result }
    ensures room { 2048 ≤ length out.old → result.status ≢ status_number NoRoom }
{
    rewrite_line(Rewriting::Print, line, out)
}

/// Writes the first scramble of so many turns, at most 256, by the generator of a state and a stream.
#[unsafe(no_mangle)]
pub extern "C" fn nissy_scramble(state: u64, stream: u64, turns: u32, out: &mut [u8]) -> LineAnswer
    ensures does { Does (outcome_of_scramble (length out.old) state stream turns) out.old out.new result }
    ensures room { 2048 ≤ length out.old → result.status ≢ status_number NoRoom }
{
    scramble(state, stream, turns, out)
}

/// Writes the names of the steps, each with its line feed.
#[unsafe(no_mangle)]
pub extern "C" fn nissy_steps(out: &mut [u8]) -> LineAnswer
    ensures does { Does (outcome_of_steps (length out.old)) out.old out.new result }
    ensures room { 2048 ≤ length out.old → result.status ≢ status_number NoRoom }
{
    step_names(out)
}

/// Writes the name of the step that must hold before the step of this name, and nothing if none must.
#[unsafe(no_mangle)]
pub extern "C" fn nissy_start(name: &[u8], out: &mut [u8]) -> LineAnswer
    ensures does { Does (outcome_of_start (length out.old) name.now) out.old out.new result }
    ensures room { 2048 ≤ length out.old → result.status ≢ status_number NoRoom }
{
    start_name(name, out)
}

/// Writes what the fault of a number is called.
#[unsafe(no_mangle)]
pub extern "C" fn nissy_fault_text(number: u8, out: &mut [u8]) -> LineAnswer
    ensures does { Does (outcome_of_some (length out.old) (fault_text_of number)) out.old out.new result }
    ensures room { 2048 ≤ length out.old → result.status ≢ status_number NoRoom }
{
    fault_text(number, out)
}
