//! Whether the solution of an attempt of a text solves its scramble, and what makes one doubt that it is read as it was
//! meant.
ghost use Rattle.std.specs.Prelude.{◌≡◌, ◌*◌, IfOk};
ghost use Rattle.niss_text.specs.Moves.{most_bytes};
ghost use Rattle.niss_attempts.specs.Attempts.{IsChecked, IsDoubt, IsOwn, fault_place, is_solved, outcome_of};
ghost use Rattle.niss_attempts.specs.Attempts.{IsDoubtOfSolved, IsDoubtOfSteps, IsDoubtOfUnsolved, IsDoubtThoughSolved, IsOfRest};
ghost use Rattle.niss_attempts.specs.Doubts.{IsOkIfRoom};

pub(crate) mod checks;
pub(crate) mod judged;
pub(crate) mod known_parts;
pub(crate) mod line_kinds;
mod runs;
mod told;
pub(crate) mod written;

use crate::attempts::judged::Judged;
use crate::attempts::line_kinds::has_solution;
use crate::attempts::told::Told;
use crate::attempts::written::{NONE, NoRoom, moves_of, place_at};
use crate::doubts::another::doubt_of_another;
use crate::doubts::beside::doubt_beside;
use crate::doubts::inner_attempt::doubt_within;
use crate::doubts::whole_doubt::doubt_of_written;
use crate::doubts::{Doubt, Reason, first_doubt, first_stray};
use niss_lines::{CheckAnswer, check_line};
use niss_text::{MovesOf, TextLine};

/// How the check of an attempt ended.
#[derive(Clone, Copy, PartialEq, Eq)]
pub enum Outcome {
    /// Its scramble or its solution has a fault.
    AtFault,
    /// There is a solution, which solves.
    Solved,
    /// No solution solves.
    Unsolved,
}

/// The scramble of an attempt, with the place of each byte, and what makes one doubt its reading.
#[derive(Clone, Copy)]
pub struct Given<'a> {
    pub scramble: &'a [u8],
    pub places: &'a [u64],
    pub doubt: Option<Doubt>,
}

/// Where a fault stands that a check tells of a scramble or a solution, in bytes of the text; `NONE` if there is none.
fn fault_place(check: &CheckAnswer, scramble_places: &[u64], solution_places: &[u64]) -> usize
    ensures { result ≡ fault_place check.now scramble_places.now solution_places.now }
{
    if check.column == 0 {
        NONE
    } else if check.line == 1 {
        place_at(scramble_places, check.column as usize - 1)
    } else {
        place_at(solution_places, check.column as usize - 1)
    }
}

impl Outcome {
    /// That of the check of an attempt which has a solution or none.
    fn of(has_solution: bool, check: &CheckAnswer) -> Outcome
        ensures { result ≡ outcome_of has_solution check.now }
    {
        if check.status != 0 {
            Outcome::AtFault
        } else if has_solution && check.solved {
            Outcome::Solved
        } else {
            Outcome::Unsolved
        }
    }
}

/// What makes one doubt an attempt that isn't solved, by its steps: that a part of them solves, or that all do with a turn
/// that was lost, and the text shows it, or with a rotation of the whole cube, or with one of them elsewhere.
fn doubt_of_steps(
    text: &[u8],
    lines: &[TextLine],
    scramble: &[u8],
    out: &mut [u8],
    places: &mut [u64],
) -> Result<Option<Doubt>, NoRoom>
    ensures are { IfOk result (λ told. IsDoubtOfSteps text.now lines.now scramble.now told) }
    ensures room { IsOkIfRoom (most_bytes lines.now) out.old places.old result }
{
    let count = moves_of(text, lines, MovesOf::EachStep, out, places)?;
    let told = doubt_of_written(scramble, &out[..count], &places[..count], text, lines);
    Ok(told)
}

impl Given<'_> {
    /// Whether the scramble stands in the text, and by itself is solved: the solution may stand in it.
    fn is_solved(&self) -> bool
        ensures { result ≡ is_solved self.now.scramble.now self.now.places.now }
    {
        !self.places.is_empty() && check_line(self.scramble, &[]).solved
    }

    /// What makes one doubt the attempt if it is solved: that it is so before its steps, or before a line in which another one
    /// may begin.
    fn doubt_of_solved(
        &self,
        text: &[u8],
        lines: &[TextLine],
        out: &mut [u8],
        places: &mut [u64],
    ) -> Result<Option<Doubt>, NoRoom>
        ensures is { IfOk result (λ told. IsDoubtOfSolved (is_solved self.now.scramble.now self.now.places.now)
            text.now lines.now self.now.scramble.now self.now.places.now told) }
        ensures room { IsOkIfRoom (most_bytes lines.now) out.old places.old result }
    {
        if self.is_solved() {
            return Ok(Some(Doubt {
                reason: Reason::AnotherAttempt,
                at: place_at(self.places, 0),
            }));
        }
        doubt_of_another(text, lines, self.scramble, out, places)
    }

    /// The same, or else what stands beside its solution.
    fn doubt_of_rest(
        &self,
        text: &[u8],
        lines: &[TextLine],
        out: &mut [u8],
        places: &mut [u64],
    ) -> Result<Option<Doubt>, NoRoom>
        ensures is { IfOk result (λ told. IsOfRest text.now lines.now self.now.scramble.now self.now.places.now told) }
        ensures room { IsOkIfRoom (most_bytes lines.now) out.old places.old result }
    {
        match self.doubt_of_solved(text, lines, out, places)? {
            Some(doubt) => Ok(Some(doubt)),
            None => doubt_beside(text, lines, self.scramble, out, places),
        }
    }

    /// What makes one doubt the attempt though it is solved: that a line may be of a scramble, or that another attempt may
    /// begin, or what stands beside its solution.
    fn doubt_though_solved(
        &self,
        text: &[u8],
        lines: &[TextLine],
        out: &mut [u8],
        places: &mut [u64],
    ) -> Result<Option<Doubt>, NoRoom>
        ensures is { IfOk result (λ told. IsDoubtThoughSolved text.now lines.now self.now.scramble.now self.now.places.now told) }
        ensures room { IsOkIfRoom (most_bytes lines.now) out.old places.old result }
    {
        match first_stray(lines) {
            Some(doubt) => Ok(Some(doubt)),
            None => self.doubt_of_rest(text, lines, out, places),
        }
    }

    /// What makes one doubt the attempt if it isn't solved: that its scramble is so by itself; else what does of its steps;
    /// else that another attempt stands in these.
    fn doubt_of_unsolved(
        &self,
        text: &[u8],
        lines: &[TextLine],
        out: &mut [u8],
        places: &mut [u64],
    ) -> Result<Option<Doubt>, NoRoom>
        ensures is { IfOk result (λ told. IsDoubtOfUnsolved (is_solved self.now.scramble.now self.now.places.now)
            text.now lines.now self.now.scramble.now self.now.places.now told) }
        ensures room { IsOkIfRoom (most_bytes lines.now) out.old places.old result }
    {
        if self.is_solved() {
            return Ok(Some(Doubt {
                reason: Reason::AnotherScramble,
                at: place_at(self.places, 0),
            }));
        }
        match doubt_of_steps(text, lines, self.scramble, out, places)? {
            Some(doubt) => Ok(Some(doubt)),
            None => doubt_within(text, lines, out, places),
        }
    }

    /// What makes one doubt the attempt, by its reading and how its check ended.
    fn told_of(
        &self,
        text: &[u8],
        lines: &[TextLine],
        outcome: Outcome,
        out: &mut [u8],
        places: &mut [u64],
    ) -> Result<Told, NoRoom>
        ensures is { IfOk result (λ it. IsDoubt outcome self.now.doubt text.now lines.now self.now.scramble.now self.now.places.now it) }
        ensures room { IsOkIfRoom (most_bytes lines.now) out.old places.old result }
    {
        match (outcome, self.doubt) {
            (Outcome::AtFault, read) => Ok(Told::of_fault(read)),
            (Outcome::Solved, read) => {
                let found = self.doubt_though_solved(text, lines, out, places)?;
                Ok(Told::of_solved(found, read))
            }
            (Outcome::Unsolved, Some(read)) => Ok(Told::of_unsolved(Some(read))),
            (Outcome::Unsolved, None) => {
                let found = self.doubt_of_unsolved(text, lines, out, places)?;
                Ok(Told::of_unsolved(found))
            }
        }
    }
}

/// Checks the solution of an attempt by its scramble.
pub(crate) fn check_by(
    text: &[u8],
    lines: &[TextLine],
    given: &Given,
    out: &mut [u8],
    places: &mut [u64],
) -> Result<Judged, NoRoom>
    ensures is { IfOk result (λ it. IsChecked text.now lines.now given.now.scramble.now given.now.places.now given.now.doubt it) }
    ensures room { IsOkIfRoom (most_bytes lines.now) out.old places.old result }
{
    let count = moves_of(text, lines, MovesOf::Solution, out, places)?;
    let check = check_line(given.scramble, &out[..count]);
    let fault_at = fault_place(&check, given.places, &places[..count]);
    let has_solution = has_solution(lines);
    let outcome = Outcome::of(has_solution, &check);
    let told = given.told_of(text, lines, outcome, out, places)?;
    Ok(Judged {
        fault_at,
        doubt_at: told.place(),
        doubt: told.number(),
        is_doubted: told.counts,
        is_checked: has_solution,
        check,
    })
}

/// Checks the solution of an attempt by the scramble among its lines. The rooms are for both, half and half.
pub(crate) fn check_own(
    text: &[u8],
    lines: &[TextLine],
    out: &mut [u8],
    places: &mut [u64],
) -> Result<Judged, NoRoom>
    ensures is { IfOk result (λ it. IsOwn text.now lines.now it) }
    ensures room { IsOkIfRoom (2 * most_bytes lines.now) out.old places.old result }
{
    let half = out.len().min(places.len()) / 2;
    let (scramble, out) = out.split_at_mut(half);
    let (scramble_places, places) = places.split_at_mut(half);
    let count = moves_of(text, lines, MovesOf::Scramble, scramble, scramble_places)?;
    let given = Given {
        scramble: &scramble[..count],
        places: &scramble_places[..count],
        doubt: first_doubt(lines),
    };
    check_by(text, lines, &given, out, places)
}
