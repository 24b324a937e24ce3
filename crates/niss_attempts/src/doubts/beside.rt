//! Steps beside the solution of an attempt that is solved: of another attempt, or the solution with a slip.
ghost use Rattle.std.specs.Prelude.{◌≡◌, ◌↔◌, ◌&&◌, ℕ, List, [], ◌∷◌, IfOk, None, Some, IsTrue, MatchOption, true, false, not, if◌then◌else◌};
ghost use Rattle.std.specs.List.{list_any};
ghost use Rattle.std.specs.Option.{option_or};
ghost use Rattle.niss_moves.specs.Line.{Moves};
ghost use Rattle.niss_moves.specs.Reader.{IsFed};
ghost use Rattle.niss_moves.specs.Solving.{solves};
ghost use Rattle.niss_moves.specs.declared.turn.Turn.{Turn};
ghost use Rattle.niss_text.specs.Moves.{is_wanted, most_bytes};
ghost use Rattle.niss_text.specs.declared.moves.MovesOf.TheVariants.{EachStep};
ghost use Rattle.niss_text.specs.declared.text_line.TextLine.{TextLine};
ghost use Rattle.niss_attempts.specs.Beside.{AreNear, IsDoubtBeside, IsFoundBeside, IsOfLong, IsSeen, IsSlip, is_long_other, turns_of, undoes};
ghost use Rattle.niss_attempts.specs.Doubts.{IsOkIfRoom, doubt};
ghost use Rattle.niss_lines.specs.LineFacts.{IsReadAs};
ghost use Rattle.niss_attempts.specs.declared.doubts.Reason.TheVariants.{AnotherAttempt, SeveralSolutions};

mod near;

use crate::attempts::line_kinds::{is_step, length_of_moves};
use crate::attempts::written::{NoRoom, moves_of};
use crate::doubts::beside::near::are_near;
use crate::doubts::{Doubt, Reason};
use niss_lines::read_by;
use niss_moves::laws::{cleaned_lines, one_clean_list};
use niss_moves::{Faces, LineReader, Niss, Turn, cleanup, unniss};
use niss_shell::{MOST_BYTES, solves};
use niss_text::{MovesOf, TextLine};
use std::slice::from_ref;

/// How many bytes the moves of a line have at least that are as long as a scramble.
const SCRAMBLE_BYTES: usize = 40;

/// What is seen of a step that isn't of the solution and is as long as a scramble. Of others it is nothing.
#[derive(Clone, Copy)]
pub struct Seen {
    /// Nothing is said after it, and it doesn't solve.
    pub is_apart: bool,
    /// It doesn't solve, but is the solution but in one place.
    pub is_slip: bool,
}

/// What is found in some steps.
#[derive(Clone, Copy)]
pub struct Beside {
    /// The first one stands apart.
    pub begins_apart: bool,
    /// The doubt that another attempt begins in one of them.
    pub another: Option<Doubt>,
    /// The doubt that one is the solution with a slip.
    pub slip: Option<Doubt>,
}

/// An attempt that is solved: its text, its scramble, and the turns of its solution, cleaned.
#[derive(Clone, Copy)]
pub struct Solved<'a> {
    pub text: &'a [u8],
    pub scramble: &'a Niss,
    pub solution: &'a [Turn],
}

/// Whether a step isn't of the solution, and is as long as a scramble.
fn is_long_other(line: &TextLine) -> bool
    ensures { result ≡ is_long_other line.now }
{
    (is_step(line) && line.is_solution == 0) && length_of_moves(line) >= SCRAMBLE_BYTES
}

/// Whether one of some lines is such a step.
fn has_long_other(lines: &[TextLine]) -> bool
    ensures { result ≡ list_any is_long_other lines.now }
{
    lines.iter().any(|line| is_long_other(line))
}

/// The face turns of a line's one sequence, cleaned.
fn turns_of(line: &Niss) -> Faces
    ensures { result.items ≡ turns_of line.now }
{
    cleaned_lines();
    one_clean_list();
    let (turns, _) = cleanup(unniss(line).as_slice());
    turns
}

impl Beside {
    /// What is found in no steps.
    fn nothing() -> Beside
        ensures { (text : List ℕ) (scramble : Moves) (solution : List Turn) → IsFoundBeside text [] scramble solution result }
    {
        Beside {
            begins_apart: false,
            another: None,
            slip: None,
        }
    }

    /// The doubt that another attempt begins, with a step before the others.
    fn another_with(self, at: usize, is_apart: bool) -> Option<Doubt>
        ensures { result ≡ (if is_apart && self.begins_apart then Some (doubt AnotherAttempt at) else self.another) }
    {
        if is_apart && self.begins_apart {
            Some(Doubt {
                reason: Reason::AnotherAttempt,
                at,
            })
        } else {
            self.another
        }
    }

    /// The doubt that one is the solution with a slip, with a step before the others.
    fn slip_with(self, at: usize, is_slip: bool) -> Option<Doubt>
        ensures { result ≡ (if is_slip then Some (doubt SeveralSolutions at) else self.slip) }
    {
        if is_slip {
            Some(Doubt {
                reason: Reason::SeveralSolutions,
                at,
            })
        } else {
            self.slip
        }
    }

    /// The same with a step before the others, of which this is seen.
    fn with(self, line: &TextLine, seen: Seen) -> Beside
        ensures { (text : List ℕ) (lines : List TextLine) (scramble : Moves) (solution : List Turn) → IsFoundBeside text lines scramble solution self →
            is_wanted EachStep line.now ≡ true → IsSeen (is_long_other line.now) text line.now scramble solution seen → IsFoundBeside text (line.now ∷ lines) scramble solution result }
    {
        Beside {
            begins_apart: seen.is_apart,
            another: self.another_with(line.moves, seen.is_apart),
            slip: self.slip_with(line.moves, seen.is_slip),
        }
    }

    /// What makes one doubt the attempt.
    fn doubt(self) -> Option<Doubt>
        ensures { result ≡ option_or self.another self.slip }
    {
        self.another.or(self.slip)
    }
}

impl Solved<'_> {
    /// What is seen of moves, after which something is said or not.
    fn see_moves(&self, moves: &Niss, is_bare: bool) -> Seen
        ensures apart { result.is_apart ≡ (is_bare && not (solves self.now.scramble.now moves.now)) }
        ensures slip { IsTrue result.is_slip ↔ (solves self.now.scramble.now moves.now ≡ false) × AreNear self.now.solution.now (turns_of moves.now) }
    {
        let is_unsolving = !solves(self.scramble, moves);
        Seen {
            is_apart: is_bare && is_unsolving,
            is_slip: is_unsolving && are_near(self.solution, turns_of(moves).as_slice()),
        }
    }

    /// The same of a line, which may have a fault.
    fn see_line(&self, line: &[u8], is_bare: bool) -> Seen
        ensures apart { result.is_apart ≡ (is_bare && not (undoes self.now.scramble.now line.now)) }
        ensures slip { IsTrue result.is_slip ↔ IsSlip self.now.scramble.now self.now.solution.now line.now }
    {
        let unread = Seen {
            is_apart: is_bare,
            is_slip: false,
        };
        if line.len() > MOST_BYTES {
            return unread;
        }
        let mut reader = LineReader::new();
        match read_by(&mut reader, line) {
            Ok(moves) => self.see_moves(moves, is_bare),
            Err(_) => unread,
        }
    }

    /// What is seen of a step.
    fn see(&self, line: &TextLine, out: &mut [u8], places: &mut [u64]) -> Result<Seen, NoRoom>
        ensures is { IfOk result (λ seen. IsSeen (is_long_other line.now) self.now.text.now line.now self.now.scramble.now self.now.solution.now seen) }
        ensures room { IsOkIfRoom (most_bytes (line.now ∷ [])) out.old places.old result }
    {
        if !is_long_other(line) {
            return Ok(Seen {
                is_apart: false,
                is_slip: false,
            });
        }
        let count = moves_of(self.text, from_ref(line), MovesOf::EachStep, out, places)?;
        Ok(self.see_line(&out[..count], line.comment == line.end))
    }

    /// What is found in the steps among some lines, from the last one up.
    fn found_in(
        &self,
        lines: &[TextLine],
        out: &mut [u8],
        places: &mut [u64],
    ) -> Result<Beside, NoRoom>
        ensures is { IfOk result (λ it. IsFoundBeside self.now.text.now lines.now self.now.scramble.now self.now.solution.now it) }
        ensures room { IsOkIfRoom (most_bytes lines.now) out.old places.old result }
    {
        let mut found = Beside::nothing();
        let mut rest = lines;
        while let Some((line, above)) = rest.split_last() {
            rest = above;
            if !is_step(line) {
                continue;
            }
            let seen = self.see(line, out, places)?;
            found = found.with(line, seen);
        }
        Ok(found)
    }
}

/// The moves of a line by a new reader, if it can be read.
fn moves_by<'a>(reader: &'a mut LineReader, line: &[u8]) -> Option<&'a Niss>
    requires new { IsFed reader.old [] }
    ensures { MatchOption result ((moves : Moves) → IsReadAs line.now moves → ⊥) (λ moves. IsReadAs line.now moves.now) }
{
    if line.len() > MOST_BYTES {
        return None;
    }
    read_by(reader, line).ok()
}

/// What makes one doubt an attempt that is solved, by those of its steps that are long and not of the solution.
fn doubt_of_long(
    text: &[u8],
    lines: &[TextLine],
    scramble: &[u8],
    out: &mut [u8],
    places: &mut [u64],
) -> Result<Option<Doubt>, NoRoom>
    ensures is { IfOk result (λ told. IsOfLong text.now lines.now scramble.now told) }
    ensures room { IsOkIfRoom (most_bytes lines.now) out.old places.old result }
{
    let count = moves_of(text, lines, MovesOf::Solution, out, places)?;
    let mut first = LineReader::new();
    let Some(scramble) = moves_by(&mut first, scramble) else {
        return Ok(None);
    };
    let mut second = LineReader::new();
    let Some(solution) = moves_by(&mut second, &out[..count]) else {
        return Ok(None);
    };
    let turns = turns_of(solution);
    let solved = Solved {
        text,
        scramble,
        solution: turns.as_slice(),
    };
    let found = solved.found_in(lines, out, places)?;
    Ok(found.doubt())
}

/// What makes one doubt an attempt that is solved by what stands beside its solution: that two steps are another attempt, or
/// that one is the solution with a slip.
pub(crate) fn doubt_beside(
    text: &[u8],
    lines: &[TextLine],
    scramble: &[u8],
    out: &mut [u8],
    places: &mut [u64],
) -> Result<Option<Doubt>, NoRoom>
    ensures is { IfOk result (λ told. IsDoubtBeside (list_any is_long_other lines.now) text.now lines.now scramble.now told) }
    ensures room { IsOkIfRoom (most_bytes lines.now) out.old places.old result }
{
    if has_long_other(lines) {
        doubt_of_long(text, lines, scramble, out, places)
    } else {
        Ok(None)
    }
}
