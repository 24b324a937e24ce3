//! Another attempt among the lines of one: in a line of a solution before which all solves, or as it is sought otherwise.
ghost use Rattle.std.specs.Prelude.{◌≡◌, ◌<◌, ◌&&◌, ℕ, Bool, List, IfOk, length, nat_lt, take};
ghost use Rattle.niss_text.specs.Moves.{most_bytes};
ghost use Rattle.niss_text.specs.declared.text_line.TextLine.{TextLine};
ghost use Rattle.niss_attempts.specs.Another.{IsBegun, IsBegunAgain, IsSolvedBy, is_long, may_begin, most_lines_tried};
ghost use Rattle.niss_attempts.specs.Doubts.{IsOkIfRoom};

use crate::attempts::line_kinds::{has_solution, is_of_solution, length_of_moves};
use crate::attempts::written::{NoRoom, moves_of};
use crate::doubts::Doubt;
use niss_lines::check_line;
use niss_text::{MovesOf, TextLine};

/// How many bytes the moves of a line have at least in which another attempt may begin.
const LEAST_BYTES: usize = 20;

/// How many lines are tried.
const MOST_TRIED: usize = 12;

/// Another attempt that is sought among the lines of one.
pub(crate) trait Sought {
    /// It may begin in the line of a number.
    ghost is_possible: { Self → List TextLine → ℕ → Bool };

    /// It begins there, or it doesn't.
    ghost tells: { Self → List TextLine → ℕ → Bool → Type 0 };

    /// Whether it may begin in a line.
    fn may_begin_in(&self, lines: &[TextLine], at: usize) -> bool
        requires { at < length lines.now }
        ensures { result ≡ is_possible self.now lines.now at };

    /// Whether it begins there.
    fn begins_in(
        &self,
        lines: &[TextLine],
        at: usize,
        out: &mut [u8],
        places: &mut [u64],
    ) -> Result<bool, NoRoom>
        requires { at < length lines.now }
        ensures is { IfOk result (λ begins. tells self.now lines.now at begins) }
        ensures room { IsOkIfRoom (most_bytes lines.now) out.old places.old result };
}

/// Whether a line is tried, after so many that are.
fn is_tried<S: Sought>(sought: &S, tried: usize, lines: &[TextLine], at: usize) -> bool
    requires { at < length lines.now }
    ensures { result ≡ (nat_lt tried most_lines_tried && S.is_possible sought.now lines.now at) }
{
    tried < MOST_TRIED && sought.may_begin_in(lines, at)
}

/// What makes one doubt an attempt: that another one begins in it, in the first such line of those that are tried.
pub(crate) fn first_begun<S: Sought>(
    sought: &S,
    lines: &[TextLine],
    out: &mut [u8],
    places: &mut [u64],
) -> Result<Option<Doubt>, NoRoom>
    ensures is { IfOk result (λ told. IsBegun lines.now (S.is_possible sought.now lines.now) (S.tells sought.now lines.now) told) }
    ensures room { IsOkIfRoom (most_bytes lines.now) out.old places.old result }
{
    let mut tried = 0;
    for at in 0..lines.len() {
        if !is_tried(sought, tried, lines, at) {
            continue;
        }
        tried += 1;
        if sought.begins_in(lines, at, out, places)? {
            return Ok(Doubt::begun_in(&lines[at..]));
        }
    }
    Ok(None)
}

/// Whether the moves of a line are that long.
pub(crate) fn is_long(line: &TextLine) -> bool
    ensures { result ≡ is_long line.now }
{
    length_of_moves(line) >= LEAST_BYTES
}

/// Whether the lines of the solution among some lines solve a scramble.
pub(crate) fn is_solved_by(
    text: &[u8],
    lines: &[TextLine],
    scramble: &[u8],
    out: &mut [u8],
    places: &mut [u64],
) -> Result<bool, NoRoom>
    ensures is { IfOk result (λ solves. IsSolvedBy text.now lines.now scramble.now solves) }
    ensures room { IsOkIfRoom (most_bytes lines.now) out.old places.old result }
{
    let count = moves_of(text, lines, MovesOf::Solution, out, places)?;
    Ok(check_line(scramble, &out[..count]).solved)
}

/// One that begins in a line of the solution, before which all solves the scramble.
#[derive(Clone, Copy)]
struct Again<'a> {
    text: &'a [u8],
    scramble: &'a [u8],
}

impl Sought for Again<'_> {
    ghost is_possible = { λ again. may_begin };

    ghost tells = { λ again lines k solves. IsSolvedBy again.text.now (take k lines) again.scramble.now solves };

    fn may_begin_in(&self, lines: &[TextLine], at: usize) -> bool {
        let line = &lines[at];
        (is_of_solution(line) && is_long(line)) && has_solution(&lines[..at])
    }

    fn begins_in(
        &self,
        lines: &[TextLine],
        at: usize,
        out: &mut [u8],
        places: &mut [u64],
    ) -> Result<bool, NoRoom> {
        is_solved_by(self.text, &lines[..at], self.scramble, out, places)
    }
}

/// What makes one doubt an attempt that is solved: that it is so before a line in which another one may begin, the first such.
pub(crate) fn doubt_of_another(
    text: &[u8],
    lines: &[TextLine],
    scramble: &[u8],
    out: &mut [u8],
    places: &mut [u64],
) -> Result<Option<Doubt>, NoRoom>
    ensures is { IfOk result (λ told. IsBegunAgain text.now lines.now scramble.now told) }
    ensures room { IsOkIfRoom (most_bytes lines.now) out.old places.old result }
{
    first_begun(&Again { text, scramble }, lines, out, places)
}
