//! The reduction after an orientation that leaves the fewest moves in all.
ghost use Rattle.std.specs.Prelude.{◌≡◌, ◌≤◌, length};
ghost use Rattle.niss_search.specs.BothSides.{pair};
ghost use Rattle.niss_ways.specs.Truth.{total_after};

use crate::counting::cleaned;
use crate::solution::Solution;
use crate::start::Start;
use niss_moves::Turn;
use niss_search::{Ends, PairSink, TurnPath};

/// No further reduction is asked for.
#[derive(Clone, Copy, Debug, PartialEq, Eq)]
pub struct Enough;

/// Takes reductions after an orientation, and keeps the first with the fewest moves in all, if these are fewer than a
/// bound.
#[derive(Drop)]
pub struct Nearest<'a> {
    pub start: &'a Start,
    pub orientation: &'a Solution,
    /// The bound, and then the moves in all with what was found.
    pub below: u16,
    /// Nothing merges, so all of one length come to the same.
    pub is_plain: bool,
    /// Some reduction came.
    pub is_seen: bool,
    pub found: Option<Solution>,
}

/// Whether two parts merge on a side, where one follows the other.
fn merges(first: &[Turn], then: &[Turn]) -> bool
    requires first { length first.now ≤ 20 }
    requires then { length then.now ≤ 20 }
{
    !first.is_empty() && cleaned(&[], first, then).len() < first.len() + then.len()
}

impl<'a> Nearest<'a> {
    /// After nothing: the first solution of a step that comes is enough, and is kept.
    pub fn first(start: &'a Start, nothing: &'a Solution) -> Nearest<'a> {
        Nearest {
            start,
            orientation: nothing,
            below: u16::MAX,
            is_plain: true,
            is_seen: false,
            found: None,
        }
    }

    /// With which ends reductions are asked for: if nothing merges, the first one comes before its twins.
    pub fn ends(&self) -> Ends {
        if self.is_plain {
            Ends::NotCounter
        } else {
            Ends::Any
        }
    }

    /// How many moves there are in all with a reduction.
    fn total(&self, normal: &[Turn], inverse: &[Turn]) -> u16
        requires normal { length normal.now ≤ 20 }
        requires inverse { length inverse.now ≤ 20 }
        ensures { result ≤ 1024 }
    {
        total_after(self.start, self.orientation, normal, inverse)
    }
}

/// How many moves there are in all after a solution and then turns on both sides: of each side once they are cleaned.
pub fn total_after(start: &Start, first: &Solution, normal: &[Turn], inverse: &[Turn]) -> u16
    requires normal { length normal.now ≤ 20 }
    requires inverse { length inverse.now ≤ 20 }
    ensures total { result ≡ total_after start.now first.now (pair normal.now inverse.now) }
    ensures few { result ≤ 1024 }
{
    let on_normal = cleaned(start.normal(), first.normal(), normal).len();
    let on_inverse = cleaned(start.inverse(), first.inverse(), inverse).len();
    (on_normal + on_inverse) as u16
}

impl PairSink for Nearest<'_> {
    type Fault = Enough;

    ghost took = { λ old p new. Unit {0} };

    ghost refused = { λ old p new. Unit {0} };

    fn take(&mut self, normal: &TurnPath, inverse: &TurnPath) -> Result<(), Enough> {
        self.is_seen = true;
        let (normal, inverse) = (normal.turns(), inverse.turns());
        // a reduction that merges with the orientation is another twin's, which has a turn less
        if merges(self.orientation.normal(), normal)
            || merges(self.orientation.inverse(), inverse)
        {
            return Ok(());
        }
        let total = self.total(normal, inverse);
        if total < self.below {
            self.below = total;
            self.found = Some(Solution::of(normal, inverse));
        }
        if self.is_plain { Err(Enough) } else { Ok(()) }
    }
}
