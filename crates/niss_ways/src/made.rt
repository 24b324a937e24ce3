//! What was made so far, and what a reduction may save by merging with it.
ghost use Rattle.std.specs.Prelude.{◌≤◌, length};

use crate::counting::cleaned;
use crate::last_turns::is_face_of;
use crate::solution::Solution;
use crate::start::Start;
use niss_cube::{Axis, Power, Turn};

/// Moves that are made, with those of an orientation.
#[derive(Clone, Copy, Debug)]
pub struct Made {
    /// How many they are.
    pub count: u16,
    /// How many moves in all a reduction after it saves at most, since it merges with moves so far.
    pub saving: u16,
}

/// Whether a turn keeps edges that are oriented on an axis.
pub fn keeps_edges(axis: Axis, turn: Turn) -> bool {
    turn.power == Power::Half || !is_face_of(axis, turn.face)
}

/// How many turns at the end keep edges that are oriented on an axis.
fn last_that_keep(axis: Axis, turns: &[Turn]) -> u16
    requires { length turns.now ≤ 512 }
    ensures { result ≤ 512 }
{
    let mut count = 0;
    let mut rest = turns;
    while let Some((last, front)) = rest.split_last() {
        if !keeps_edges(axis, *last) {
            break;
        }
        count += 1;
        rest = front;
    }
    count
}

/// What is made on a side with turns of an orientation on an axis.
fn made_on_side(axis: Axis, so_far: &[Turn], turns: &[Turn]) -> Made
    requires so_far { length so_far.now ≤ 200 }
    requires few { length turns.now ≤ 20 }
    ensures count { result.count ≤ 512 }
    ensures saving { result.saving ≤ 1028 }
{
    if so_far.is_empty() {
        return Made {
            count: turns.len() as u16,
            saving: 0,
        };
    }
    let all = cleaned(so_far, turns, &[]);
    // a turn of another axis that merged with nothing stands between the moves so far and a reduction
    let is_apart = all.len() == so_far.len() + turns.len()
        && turns.iter().any(|turn| !is_face_of(axis, turn.face));
    // a half turn may stand before the quarter turn of the opposite face that ends those that keep the edges
    let has_half = all.as_slice().iter().any(|turn| is_face_of(axis, turn.face)
        && turn.power == Power::Half);
    let saving = if is_apart {
        0
    } else {
        2 * (last_that_keep(axis, all.as_slice()) + 1 + u16::from(has_half))
    };
    Made {
        count: all.len() as u16,
        saving,
    }
}

impl Made {
    /// What is made with an orientation on an axis.
    pub fn with(start: &Start, axis: Axis, orientation: &Solution) -> Made
        ensures count { result.count ≤ 1024 }
        ensures saving { result.saving ≤ 2056 }
    {
        let normal = made_on_side(axis, start.normal(), orientation.normal());
        let inverse = made_on_side(axis, start.inverse(), orientation.inverse());
        Made {
            count: normal.count + inverse.count,
            saving: normal.saving + inverse.saving,
        }
    }
}
