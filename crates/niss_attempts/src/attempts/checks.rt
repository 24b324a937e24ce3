//! Checks all attempts of a text by one call.
ghost use Rattle.std.specs.Prelude.{◌≡◌, ◌≤◌, ◌<◌, ◌*◌, ◌+◌, ◌&&◌, ◌==◌, ◌⊎◌, IfOk, length, take, drop, set};
ghost use Rattle.niss_text.specs.Moves.{most_bytes};
ghost use Rattle.niss_attempts.specs.Attempts.{Are, IsOfAttempt, IsOfScramble, IsOfSolutions, IsUnseen, ChecksAttempts, attempts_from, number_of_checks};
ghost use Rattle.niss_attempts.specs.Doubts.{IsOkIfRoom};

use crate::attempts::check_own;
use crate::attempts::judged::Judged;
use crate::attempts::known_parts::{Known, Solution};
use crate::attempts::runs::{Placed, Run, next_run};
use crate::attempts::written::{NONE, NoRoom};
use crate::doubts::Reason;
use crate::stretch::stretch;
use niss_lines::{CheckAnswer, Status};
use niss_text::{KnownPart, TextLine};

/// What is said of an attempt that was checked.
#[repr(C)]
#[derive(Clone, Copy, Debug, PartialEq, Eq)]
pub struct AttemptCheck {
    /// Which of the known scrambles it is of, from 0, or the highest number.
    pub scramble: usize,
    /// Where the head of its part stands, in bytes of the text; both are 0 if it has none.
    pub name_begin: usize,
    pub name_end: usize,
    /// Its lines, and what is said of them.
    pub placed: Placed,
}

/// What `check_attempts` returns.
#[repr(C)]
#[derive(Clone, Copy, Debug, PartialEq, Eq)]
pub struct AttemptsAnswer {
    /// The number of `Done` or `NoRoom`.
    pub status: u8,
    /// How many attempts are checked.
    pub attempts: usize,
}

/// A text as solvers write it: its lines, and its parts if it has only solutions of scrambles that are known.
#[derive(Clone, Copy)]
pub struct Attempts<'a> {
    pub text: &'a [u8],
    pub lines: &'a [TextLine],
    pub parts: &'a [KnownPart],
    pub known: Known<'a>,
}

/// Writes a check after that many others, if there is room.
fn put_check(checks: &mut [AttemptCheck], count: usize, check: AttemptCheck)
    ensures { checks.new ≡ set checks.old count check }
{
    if count < checks.len() {
        checks[count] = check;
    }
}

/// What is said of a part of which it can't be told what it solves.
fn unseen(part: &KnownPart) -> Placed
    ensures { IsUnseen part.now result }
{
    Placed {
        lines: Run {
            first: part.first_line,
            end: part.solution_end,
        },
        judged: Judged {
            fault_at: NONE,
            doubt_at: part.begin,
            doubt: Reason::WhichScramble.number(),
            is_doubted: true,
            is_checked: false,
            check: CheckAnswer::nothing(),
        },
    }
}

impl Attempts<'_> {
    /// What is said of a part of a text of solutions.
    fn judge_part(
        &self,
        part: &KnownPart,
        out: &mut [u8],
        places: &mut [u64],
    ) -> Result<Placed, NoRoom>
        ensures is { IfOk result (λ it. IsOfScramble self.now.text.now self.now.lines.now self.now.known.scrambles.now self.now.known.ends.now part.now it) }
        ensures room { IsOkIfRoom (2 * most_bytes self.now.lines.now) out.old places.old result }
    {
        let Some(scramble) = self.known.scramble(part.scramble) else {
            return Ok(unseen(part));
        };
        let own = stretch(self.lines, part.first_line, part.solution_end);
        let others = stretch(self.lines, 0, part.end_line);
        let solution = Solution {
            text: self.text,
            own,
            lines: Run {
                first: part.first_line,
                end: part.solution_end,
            },
            others,
            scramble,
            known: self.known,
            begin: part.begin,
        };
        solution.check(part.solution_end.min(others.len()), out, places)
    }

    /// The same with its name, and with which scramble that is known it is of.
    fn check_part(
        &self,
        part: &KnownPart,
        out: &mut [u8],
        places: &mut [u64],
    ) -> Result<AttemptCheck, NoRoom>
        ensures is { IfOk result (λ it. IsOfSolutions self.now.text.now self.now.lines.now self.now.known.scrambles.now self.now.known.ends.now part.now it) }
        ensures room { IsOkIfRoom (2 * most_bytes self.now.lines.now) out.old places.old result }
    {
        let placed = self.judge_part(part, out, places)?;
        Ok(AttemptCheck {
            scramble: self.known.number_or_none(part.scramble),
            name_begin: part.name_begin,
            name_end: part.name_end,
            placed,
        })
    }

    /// Checks the parts of a text of solutions.
    fn check_parts(
        &self,
        out: &mut [u8],
        places: &mut [u64],
        checks: &mut [AttemptCheck],
    ) -> Result<usize, NoRoom>
        ensures are { IfOk result (λ count. count ≤ length checks.new →
            Are (IsOfSolutions self.now.text.now self.now.lines.now self.now.known.scrambles.now self.now.known.ends.now) self.now.parts.now (take count checks.new)) }
        ensures all { IfOk result (λ count. count ≡ length self.now.parts.now) }
        ensures room { IsOkIfRoom (2 * most_bytes self.now.lines.now) out.old places.old result }
        ensures after { IfOk result (λ count. drop count checks.new ≡ drop count checks.old) }
    {
        let mut count = 0;
        let mut rest = self.parts;
        while let Some((part, after)) = rest.split_first() {
            let check = self.check_part(part, out, places)?;
            put_check(checks, count, check);
            count += 1;
            rest = after;
        }
        Ok(count)
    }

    /// Checks the attempts among lines that have a scramble.
    #[tactic(auto, using(crate::proofs::AttemptLemmas::most_between))]
    fn check_runs(
        &self,
        out: &mut [u8],
        places: &mut [u64],
        checks: &mut [AttemptCheck],
    ) -> Result<usize, NoRoom>
        ensures are { IfOk result (λ count. count ≤ length checks.new →
            Are (IsOfAttempt self.now.text.now self.now.lines.now) (attempts_from 0 self.now.lines.now) (take count checks.new)) }
        ensures few { IfOk result (λ count. count ≤ length self.now.lines.now) }
        ensures all { IfOk result (λ count. count ≡ length (attempts_from 0 self.now.lines.now)) }
        ensures room { IsOkIfRoom (2 * most_bytes self.now.lines.now) out.old places.old result }
        ensures after { IfOk result (λ count. drop count checks.new ≡ drop count checks.old) }
    {
        let mut count = 0;
        let mut at = 0;
        while let Some(run) = next_run(self.lines, at) {
            let lines = &self.lines[run.first..run.end];
            let judged = check_own(self.text, lines, out, places)?;
            let check = AttemptCheck {
                scramble: NONE,
                name_begin: 0,
                name_end: 0,
                placed: Placed { lines: run, judged },
            };
            put_check(checks, count, check);
            count += 1;
            at = run.end;
        }
        Ok(count)
    }
}

/// Checks all attempts of a text by its lines, or its parts if it has only solutions of scrambles that are known: as many
/// as there are parts. Six bytes and places for each byte of the text and each line are room enough for their moves, half
/// of them for a scramble; what is written there says nothing. If the answer says `NoRoom`, nothing that is written does,
/// and it tells how many attempts there are, or none if the moves have no room.
pub fn check_attempts(
    attempts: &Attempts,
    out: &mut [u8],
    places: &mut [u64],
    checks: &mut [AttemptCheck],
) -> AttemptsAnswer
    ensures are { result.status ≡ 0 → ChecksAttempts ((length attempts.now.parts.now == 0) && (length attempts.now.known.ends.now == 0))
        attempts.now.text.now attempts.now.lines.now attempts.now.parts.now attempts.now.known.scrambles.now attempts.now.known.ends.now (take result.attempts checks.new) }
    ensures fits { result.status ≡ 0 → result.attempts ≤ length checks.old }
    ensures room { 2 * most_bytes attempts.now.lines.now ≤ length out.old → 2 * most_bytes attempts.now.lines.now ≤ length places.old →
        length attempts.now.lines.now + length attempts.now.parts.now ≤ length checks.old → result.status ≡ 0 }
    ensures known { (result.status ≡ 0) ⊎ (result.status ≡ 4) }
    ensures number { 2 * most_bytes attempts.now.lines.now ≤ length out.old → 2 * most_bytes attempts.now.lines.now ≤ length places.old →
        result.attempts ≡ number_of_checks ((length attempts.now.parts.now == 0) && (length attempts.now.known.ends.now == 0)) attempts.now.lines.now attempts.now.parts.now }
    ensures or_none { (result.attempts ≡ 0)
        ⊎ (result.attempts ≡ number_of_checks ((length attempts.now.parts.now == 0) && (length attempts.now.known.ends.now == 0)) attempts.now.lines.now attempts.now.parts.now) }
    ensures after { result.status ≡ 0 → drop result.attempts checks.new ≡ drop result.attempts checks.old }
{
    let counted = if attempts.parts.is_empty() && attempts.known.ends.is_empty() {
        attempts.check_runs(out, places, checks)
    } else {
        attempts.check_parts(out, places, checks)
    };
    match counted {
        Ok(count) if count <= checks.len() => AttemptsAnswer {
            status: Status::Done.number(),
            attempts: count,
        },
        Ok(count) => AttemptsAnswer {
            status: Status::NoRoom.number(),
            attempts: count,
        },
        Err(NoRoom) => AttemptsAnswer {
            status: Status::NoRoom.number(),
            attempts: 0,
        },
    }
}
