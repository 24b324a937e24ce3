//! The turns at the end of a sequence, in whose direction its twins differ.
ghost use Rattle.std.specs.Prelude.{◌≡◌, ◌≤◌, length};
ghost use Rattle.niss_cube.specs.Steps.{is_face_of};
ghost use Rattle.niss_ways.specs.Shown.{last_axis, last_on};

use crate::counting::{Sequence, sequence_of};
use niss_cube::{Axis, Face, Power, Step, Turn};

/// Whether a face is one of the two of an axis.
pub fn is_face_of(axis: Axis, face: Face) -> bool
    ensures { result ≡ is_face_of axis face }
{
    match axis {
        Axis::Ud => matches!(face, Face::U | Face::D),
        Axis::Rl => matches!(face, Face::R | Face::L),
        Axis::Fb => matches!(face, Face::F | Face::B),
    }
}

/// The axis on whose faces a solution of a step has the turns at its end that may go either way: that of an orientation, and
/// the third one of a reduction; none if the step has several.
pub fn last_axis(step: Step) -> Option<Axis>
    ensures { result ≡ last_axis step }
{
    match step {
        Step::Eofb | Step::DrudEorl | Step::DrrlEoud => Some(Axis::Fb),
        Step::Eorl | Step::DrudEofb | Step::DrfbEoud => Some(Axis::Rl),
        Step::Eoud | Step::DrrlEofb | Step::DrfbEorl => Some(Axis::Ud),
        Step::Eo | Step::DrEofb | Step::DrEorl | Step::DrEoud => None,
    }
}

/// How many turns at the end are on an axis.
pub fn last_on(axis: Axis, turns: &[Turn]) -> usize
    ensures value { result ≡ last_on axis turns.now }
    ensures few { result ≤ length turns.now }
{
    let mut count = 0;
    let mut rest = turns;
    while let Some((last, front)) = rest.split_last() {
        if !is_face_of(axis, last.face) {
            break;
        }
        count += 1;
        rest = front;
    }
    count
}

/// How many twins a sequence has, with itself.
#[inline(never)]
pub fn twin_count(axis: Axis, turns: &[Turn]) -> u8
    ensures { result ≤ 4 }
{
    match last_on(axis, turns) {
        0 => 1,
        1 => 2,
        _ => 4,
    }
}

/// Whether a sequence stands for its twins: if it has turns, its last ones on the axis are quarter turns clockwise, one
/// at least.
pub fn stands_for_twins(axis: Axis, turns: &[Turn]) -> bool {
    let Some((last, front)) = turns.split_last() else {
        return true;
    };
    if !is_face_of(axis, last.face) || last.power != Power::Quarter {
        return false;
    }
    match front.last() {
        Some(before) => !is_face_of(axis, before.face) || before.power == Power::Quarter,
        None => true,
    }
}

/// A turn, or the one in the other direction.
fn turned_round(turn: Turn, is_round: bool) -> Turn {
    if is_round { turn.inverse() } else { turn }
}

/// The twin of a number: bit 0 turns the last turn round, bit 1 the one before.
pub fn twin_of(turns: &[Turn], number: u8) -> Sequence
    requires { length turns.now ≤ 20 }
{
    let mut twin = sequence_of(turns);
    let last = twin.pop();
    let before = twin.pop();
    if let Some(turn) = before {
        twin.push(turned_round(turn, number & 2 != 0));
    }
    if let Some(turn) = last {
        twin.push(turned_round(turn, number & 1 != 0));
    }
    twin
}

/// The half turn of the face of a quarter turn at a place from the end.
fn half_turn(turns: &[Turn], from_end: usize) -> Option<Turn> {
    let place = turns.len().checked_sub(from_end)?;
    let turn = turns.get(place)?;
    let half = Turn {
        face: turn.face,
        power: Power::Half,
    };
    (turn.power != Power::Half).then_some(half)
}

/// The half turns that lead to the twin of a number: of the last turn, and of the one before, if it turns them round.
pub fn half_turns(turns: &[Turn], number: u8) -> [Option<Turn>; 2] {
    let last = if number & 1 != 0 {
        half_turn(turns, 1)
    } else {
        None
    };
    let before = if number & 2 != 0 {
        half_turn(turns, 2)
    } else {
        None
    };
    [last, before]
}
