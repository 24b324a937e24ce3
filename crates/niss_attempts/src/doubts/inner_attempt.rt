//! Another attempt that stands within one that isn't solved: a step that is its scramble, and its solution after that.
ghost use Rattle.std.specs.Prelude.{◌≡◌, ◌≤◌, ◌+◌, ◌-◌, [], ◌∷◌, IfOk, drop, length};
ghost use Rattle.niss_text.specs.Moves.{most_bytes};
ghost use Rattle.niss_attempts.specs.InnerAttempt.{IsBegunIn, IsBegunWithin, may_be_scramble};
ghost use Rattle.niss_attempts.specs.Doubts.{IsOkIfRoom};

use crate::attempts::line_kinds::{has_solution, is_step, length_of_moves};
use crate::attempts::written::{NoRoom, moves_of};
use crate::doubts::Doubt;
use crate::doubts::another::{Sought, first_begun, is_long, is_solved_by};
use niss_text::{MovesOf, TextLine};
use std::slice::from_ref;

/// How many bytes of a room the moves of a line take at most: three for each of theirs, and three.
fn room_of(line: &TextLine, room: usize) -> usize
    ensures fits { result ≤ room }
    ensures few { result ≤ most_bytes (line.now ∷ []) }
    ensures enough { most_bytes (line.now ∷ []) ≤ room → most_bytes (line.now ∷ []) ≤ result }
{
    let moves = length_of_moves(line);
    moves.saturating_mul(3).saturating_add(3).min(room)
}

/// Whether lines of the solution after the first of some lines solve its moves, as a scramble. The rooms are for both.
fn is_begun_in(
    text: &[u8],
    lines: &[TextLine],
    out: &mut [u8],
    places: &mut [u64],
) -> Result<bool, NoRoom>
    ensures is { IfOk result (λ solves. IsBegunIn text.now lines.now solves) }
    ensures room { IsOkIfRoom (most_bytes lines.now) out.old places.old result }
{
    let Some((line, rest)) = lines.split_first() else {
        return Ok(false);
    };
    if !has_solution(rest) {
        return Ok(false);
    }
    let room = room_of(line, out.len().min(places.len()));
    let (scramble, out) = out.split_at_mut(room);
    let (scramble_places, places) = places.split_at_mut(room);
    let count = moves_of(
        text,
        from_ref(line),
        MovesOf::EachStep,
        scramble,
        scramble_places,
    )?;
    is_solved_by(text, rest, &scramble[..count], out, places)
}

/// One that begins in a step, which is its scramble.
#[derive(Clone, Copy)]
struct Within<'a> {
    text: &'a [u8],
}

impl Sought for Within<'_> {
    ghost is_possible = { λ within. may_be_scramble };

    ghost tells = { λ within lines k solves. IsBegunIn within.text.now (drop k lines) solves };

    fn may_begin_in(&self, lines: &[TextLine], at: usize) -> bool {
        let line = &lines[at];
        is_step(line) && is_long(line)
    }

    fn begins_in(
        &self,
        lines: &[TextLine],
        at: usize,
        out: &mut [u8],
        places: &mut [u64],
    ) -> Result<bool, NoRoom> {
        is_begun_in(self.text, &lines[at..], out, places)
    }
}

/// What makes one doubt an attempt that isn't solved: that another one stands in it, the first of those that begin in a step
/// that is tried.
pub(crate) fn doubt_within(
    text: &[u8],
    lines: &[TextLine],
    out: &mut [u8],
    places: &mut [u64],
) -> Result<Option<Doubt>, NoRoom>
    ensures is { IfOk result (λ told. IsBegunWithin text.now lines.now told) }
    ensures room { IsOkIfRoom (most_bytes lines.now) out.old places.old result }
{
    first_begun(&Within { text }, lines, out, places)
}
