//! Whether what stands in a part of a text of solutions solves the scramble that is known of it.
ghost use Rattle.std.specs.Prelude.{◌≡◌, ◌≤◌, ◌<◌, ◌↔◌, IfOk, IsTrue, MatchOption, ℕ, List, [], length, slice_range};
ghost use Rattle.niss_text.specs.Moves.{most_bytes};
ghost use Rattle.niss_shell.specs.Output.{line_text};
ghost use Rattle.niss_shell.specs.declared.command.Rewriting.TheVariants.{Print};
ghost use Rattle.niss_attempts.specs.Attempts.{IsSameCube, IsWrittenScramble, IsAlone, IsMeant, IsBeside, IsOfKnown, scramble_of, begin_of, below_or_none};
ghost use Rattle.niss_lines.specs.LineFacts.{IsReadAs};
ghost use Rattle.niss_attempts.specs.Attempts.{IsTriedElsewhere, asked, attempts_from, is_open, solves_known, solves_some};
ghost use Rattle.niss_attempts.specs.Doubts.{IsOkIfRoom, IsOkIfRoomForEither};

use crate::attempts::judged::Judged;
use crate::attempts::line_kinds::has_solution;
use crate::attempts::runs::{Placed, Run, next_run};
use crate::attempts::written::{NONE, NoRoom, moves_of, place_at};
use crate::attempts::{Given, check_by, check_own};
use crate::doubts::{Doubt, Reason, first_doubt};
use crate::stretch::stretch;
use niss_lines::{is_solved, read_by};
use niss_moves::{LineReader, LineText, Niss};
use niss_shell::{MOST_BYTES, Rewriting, rewrite};
use niss_text::{MovesOf, TextLine};

/// With how many known scrambles a solution is tried that doesn't solve its own.
const MOST_TRIED: usize = 64;

/// Scrambles that are known, one after another, and where each ends, in their bytes. Callers make these places, so any number may be one.
#[derive(Clone, Copy)]
pub struct Known<'a> {
    pub scrambles: &'a [u8],
    pub ends: &'a [u64],
}

/// A scramble that stands in a part whose scramble is known.
#[derive(Clone, Copy)]
pub struct WrittenScramble {
    /// It makes the same cube.
    pub is_same: bool,
    /// Where its first move stands, in bytes of the text, or `NONE` if it has none.
    pub at: usize,
}

impl Known<'_> {
    /// Where the scramble of a number begins.
    fn begin_of(&self, number: usize) -> usize
        ensures { result ≡ begin_of self.now.ends.now number }
    {
        if number == 0 {
            return 0;
        }
        self.ends.get(number - 1).map_or(0, |end| *end as usize)
    }

    /// The same number, if there is such a scramble, or the highest one.
    pub(crate) fn number_or_none(&self, number: usize) -> usize
        ensures { result ≡ below_or_none (length self.now.ends.now) number }
    {
        if number < self.ends.len() {
            number
        } else {
            NONE
        }
    }

    /// The scramble of a number.
    pub(crate) fn scramble(&self, number: usize) -> Option<&[u8]>
        ensures { MatchOption result (length self.now.ends.now ≤ number) (λ scramble. (number < length self.now.ends.now)
            × (scramble.now ≡ scramble_of self.now.scrambles.now self.now.ends.now number)) }
    {
        let end = self.ends.get(number)?;
        Some(stretch(self.scrambles, self.begin_of(number), *end as usize))
    }

    /// Whether there is a scramble of a number that a solution solves, which was read.
    fn is_solved_by(&self, number: usize, solution: &Niss) -> bool
        ensures { (line : List ℕ) → IsReadAs line solution.now → result ≡ solves_known self.now.scrambles.now self.now.ends.now line number }
    {
        self.scramble(number)
            .is_some_and(|scramble| is_solved(scramble, solution))
    }

    /// Whether a solution that was read solves one of the first scrambles.
    fn is_one_solved(&self, solution: &Niss) -> bool
        ensures { (line : List ℕ) → IsReadAs line solution.now → result ≡ solves_some self.now.scrambles.now self.now.ends.now line }
    {
        for number in 0..self.ends.len().min(MOST_TRIED) {
            if self.is_solved_by(number, solution) {
                return true;
            }
        }
        false
    }

    /// Whether a solution solves one of the first scrambles. It is read once.
    fn is_one_solved_by(&self, solution: &[u8]) -> bool
        ensures { result ≡ solves_some self.now.scrambles.now self.now.ends.now solution.now }
    {
        if solution.len() > MOST_BYTES {
            return false;
        }
        let mut reader = LineReader::new();
        match read_by(&mut reader, solution) {
            Ok(line) => self.is_one_solved(line),
            Err(_) => false,
        }
    }
}

/// The cube of some moves as letters.
fn letters_of(moves: &Niss) -> LineText
    ensures { result.items ≡ line_text Print moves.now }
{
    let mut text = LineText::new();
    rewrite(Rewriting::Print, moves, &mut text);
    text.pop();
    text
}

/// Whether two scrambles make the same cube, held the same way.
fn is_same_cube(one: &[u8], other: &[u8]) -> bool
    ensures { IsTrue result ↔ IsSameCube one.now other.now }
{
    if one.len() > MOST_BYTES || other.len() > MOST_BYTES {
        return false;
    }
    let mut first = LineReader::new();
    let mut second = LineReader::new();
    match (read_by(&mut first, one), read_by(&mut second, other)) {
        (Ok(one), Ok(other)) => letters_of(one).as_slice() == letters_of(other).as_slice(),
        _ => false,
    }
}

/// Looks at the scramble among some lines beside one that is known.
fn written_scramble(
    text: &[u8],
    lines: &[TextLine],
    scramble: &[u8],
    out: &mut [u8],
    places: &mut [u64],
) -> Result<WrittenScramble, NoRoom>
    ensures is { IfOk result (λ it. IsWrittenScramble text.now lines.now scramble.now it) }
    ensures room { IsOkIfRoom (most_bytes lines.now) out.old places.old result }
{
    let count = moves_of(text, lines, MovesOf::Scramble, out, places)?;
    Ok(WrittenScramble {
        is_same: is_same_cube(scramble, &out[..count]),
        at: place_at(&places[..count], 0),
    })
}

/// The solution of a known scramble: its own lines, which these are, and all up to where its part ends.
#[derive(Clone, Copy)]
pub struct Solution<'a> {
    pub text: &'a [u8],
    pub own: &'a [TextLine],
    pub lines: Run,
    pub others: &'a [TextLine],
    pub scramble: &'a [u8],
    pub known: Known<'a>,
    /// Where the part begins, in bytes of the text.
    pub begin: usize,
}

impl Solution<'_> {
    /// What is said of it once it was judged by its scramble: if another one may be meant, whether it solves one.
    fn tried(&self, judged: Judged, out: &mut [u8], places: &mut [u64]) -> Result<Judged, NoRoom>
        ensures is { IfOk result (λ it. IsTriedElsewhere (is_open judged) (asked self.now) judged it) }
        ensures room { IsOkIfRoom (most_bytes self.now.own.now) out.old places.old result }
    {
        if !judged.is_open() {
            return Ok(judged);
        }
        let count = moves_of(self.text, self.own, MovesOf::Solution, out, places)?;
        if self.known.is_one_solved_by(&out[..count]) {
            return Ok(judged.in_doubt(Doubt {
                reason: Reason::WhichScramble,
                at: self.begin,
            }));
        }
        Ok(judged)
    }

    /// What is said of it by its own lines.
    fn alone(
        &self,
        doubt: Option<Doubt>,
        out: &mut [u8],
        places: &mut [u64],
    ) -> Result<Placed, NoRoom>
        ensures is { IfOk result (λ it. IsAlone (asked self.now) doubt it) }
        ensures room { IsOkIfRoom (most_bytes self.now.own.now) out.old places.old result }
    {
        let given = Given {
            scramble: self.scramble,
            places: &[],
            doubt,
        };
        let judged = check_by(self.text, self.own, &given, out, places)?;
        let judged = self.tried(judged, out, places)?;
        Ok(Placed {
            lines: self.lines,
            judged,
        })
    }

    /// The same if it is meant, and else of the attempt beside it that has a scramble.
    fn or_of(
        &self,
        run: Run,
        written: WrittenScramble,
        is_meant: bool,
        out: &mut [u8],
        places: &mut [u64],
    ) -> Result<Placed, NoRoom>
        ensures is { IfOk result (λ it. IsMeant is_meant (asked self.now) run written it) }
        ensures room { IsOkIfRoomForEither self.now.own.now (slice_range self.now.others.now run.first run.end) out.old places.old result }
    {
        if !is_meant {
            let doubt = Doubt {
                reason: Reason::AnotherScramble,
                at: written.at,
            };
            return self.alone(Some(doubt), out, places);
        }
        let lines = stretch(self.others, run.first, run.end);
        let judged = check_own(self.text, lines, out, places)?;
        Ok(Placed { lines: run, judged })
    }

    /// What is said of it beside an attempt that has a scramble, the only one or not.
    fn beside(
        &self,
        run: Run,
        is_only: bool,
        out: &mut [u8],
        places: &mut [u64],
    ) -> Result<Placed, NoRoom>
        ensures is { IfOk result (λ it. IsBeside (asked self.now) run is_only it) }
        ensures room { IsOkIfRoomForEither self.now.own.now (slice_range self.now.others.now run.first run.end) out.old places.old result }
    {
        let lines = stretch(self.others, run.first, run.end);
        let written = written_scramble(self.text, lines, self.scramble, out, places)?;
        let is_meant = is_only && (written.is_same && !has_solution(self.own));
        self.or_of(run, written, is_meant, out, places)
    }

    /// What is said of it, with the attempts from a line on that have a scramble.
    #[tactic(auto, using(crate::proofs::AttemptLemmas::most_between))]
    pub(crate) fn check(
        &self,
        from: usize,
        out: &mut [u8],
        places: &mut [u64],
    ) -> Result<Placed, NoRoom>
        requires { from ≤ length self.now.others.now }
        ensures is { IfOk result (λ it. IsOfKnown (asked self.now) (attempts_from from self.now.others.now) it) }
        ensures room { IsOkIfRoomForEither self.now.own.now self.now.others.now out.old places.old result }
    {
        match next_run(self.others, from) {
            None => self.alone(first_doubt(self.own), out, places),
            Some(run) => {
                let is_only = next_run(self.others, run.end).is_none();
                self.beside(run, is_only, out, places)
            }
        }
    }
}
