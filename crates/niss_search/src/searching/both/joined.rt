//! The sink of the search for tails, which makes pairs of them.
ghost use Rattle.std.specs.Prelude.{◌≡◌, ◌||◌};
ghost use Rattle.niss_cube.specs.Map.{map_of};
ghost use Rattle.niss_cube.specs.Steps.{reached};
ghost use Rattle.niss_search.specs.Cubes.{cubes};
ghost use Rattle.niss_search.specs.Solutions.{after_all};
ghost use Rattle.niss_search.specs.BothSides.{pair, begins_reached};
ghost use Rattle.niss_search.specs.BothWalk.{JoinedTook, JoinedRefused, is_kept, reached_along};

use super::splitting::Side;
use super::{Ends, PairSink};
use crate::path::TurnPath;
use crate::searching::Sink;
use niss_cube::laws::steps_see_places;
use niss_cube::{Cube, Step, Turn};
use niss_moves::laws::places_stay;

/// Hands on a pair for each tail after a head, but for those that are left out, or whose first turns reach the step already.
#[derive(Drop)]
pub(super) struct Joined<'a, K> {
    pub step: Step,
    pub cube: &'a Cube,
    pub ends: Ends,
    pub head: &'a TurnPath,
    pub side: Side,
    pub sink: &'a mut K,
    pub count: u128,
}

impl<K> Joined<'_, K> {
    /// Whether a pair is handed on.
    fn keeps(&self, normal: &TurnPath, inverse: &TurnPath) -> bool
        ensures { result ≡ is_kept self.now.ends self.now.step (map_of self.now.cube.now)
            (pair normal.now.turns inverse.now.turns) }
    {
        let is_left_out = self.ends.leaves_out(normal) || self.ends.leaves_out(inverse);
        !is_left_out && !begins_reached(self.step, self.cube, normal.turns(), inverse.turns())
    }
}

impl<K: PairSink> Sink for Joined<'_, K> {
    type Fault = K::Fault;

    ghost took = { λ old path new. JoinedTook K.took old path new };

    ghost refused = { λ old path new. JoinedRefused K.refused old path new };

    fn take(&mut self, path: &TurnPath) -> Result<(), K::Fault> {
        let (normal, inverse) = match self.side {
            Side::Normal => (self.head, path),
            Side::Inverse => (path, self.head),
        };
        if !self.keeps(normal, inverse) {
            return Ok(());
        }
        self.count = self.count.saturating_add(1);
        self.sink.take(normal, inverse)
    }
}

/// Whether the step is reached after the first turns on each side, from none to all of them, but not all on both.
pub fn begins_reached(step: Step, cube: &Cube, normal: &[Turn], inverse: &[Turn]) -> bool
    ensures { result ≡ begins_reached step (map_of cube.now) (pair normal.now inverse.now) }
{
    steps_see_places();
    places_stay();
    let mut here = *cube;
    for turn in inverse {
        if reaches_by(step, &here, normal) {
            return true;
        }
        here.turn_before(turn.inverse());
    }
    reached_along(step, &here, normal)
}

/// Whether the cube has reached the step after the first turns, from none to all.
fn reaches_by(step: Step, cube: &Cube, turns: &[Turn]) -> bool
    ensures { result ≡ (reached_along step (map_of cube.now) turns.now
        || reached step (after_all (cubes step) (map_of cube.now) turns.now)) }
{
    steps_see_places();
    let mut here = *cube;
    for turn in turns {
        if step.reached(&here) {
            return true;
        }
        here.turn(*turn);
    }
    step.reached(&here)
}

/// Whether the cube has reached the step after the first turns, but not all.
fn reached_along(step: Step, cube: &Cube, turns: &[Turn]) -> bool
    ensures { result ≡ reached_along step (map_of cube.now) turns.now }
{
    match turns.split_last() {
        Some((_, front)) => reaches_by(step, cube, front),
        None => false,
    }
}
