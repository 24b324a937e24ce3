//! What a search knows of its step: where a turn leads, and what a look at a position returns.
//!
//! `Tables`: a step, with its tables behind one public type; a `Position` has the coordinates of each goal, with their axis
//!   `Kind`: by the number of its goals and their shape, one of four searches, each compiled by itself
//!     `SearchTables`: the turns that may follow (`Followers`), and a `StateSpace`, whose states are such coordinates without the axis
//!       `StateSpace`: one `PruningTable`, or a `GoalAndOthers`, which has the table of one goal more
//!         `PruningTable`: a byte for each entry, and the `GoalMoves` of the goal
//!           `GoalMoves`: `EdgeMoves` with one `MoveTable`, or `DominoMoves` with two: the ranks after a turn
mod fill;
mod followers;
mod goal_moves;
mod kind;
mod meter;
mod move_table;
mod position;
mod pruning_table;
mod search_tables;
mod state_space;

use crate::laws::positions_follow_cubes;
pub(crate) use followers::Follower;
pub(crate) use kind::Kind;
pub use meter::Meter;
use niss_cube::{Cube, OutOfMemory, Step, Turn};
pub use position::Position;
pub(crate) use search_tables::SearchTables;
pub(crate) use state_space::StateSpace;
use std::alloc::{Allocator, Global};
use std::marker::Model;

/// What a search needs of a step: where its turns lead, and for each of its goals a pruning table, a byte for each entry.
#[derive(Drop)]
pub struct Tables<A: Allocator = Global> {
    step: Step,
    kind: Kind<A>,
}

impl<A: Allocator> Model for Tables<A> {
    ghost use Rattle.niss_cube.specs.declared.step.Step as steps;
    ghost use Rattle.niss_search.specs.KindOfStep.{IsOfStep};

    ghost Value = { steps.Step };

    ghost view = { λ t. t.step };

    ghost invariant = { λ t. IsOfStep t.kind t.step };
}

impl Tables {
    ghost use Rattle.std.specs.Prelude.{◌≡◌, ◌+◌, ◌*◌, ◌≤◌, ◌^◌, length, IfOk, OnOk, OnErr};
    ghost use Rattle.niss_cube.specs.Steps.{turns_of};
    ghost use Rattle.niss_search.specs.Entries.{entry_count, fill_ticks};

    /// Builds the tables of a step. It takes all memory before the meter rises: for each goal 36 bytes for each rank of its
    /// coordinates and one for each entry (2,048 for an edge orientation, 1,082,565 for a domino reduction).
    /// The meter rises by one for each turn that is tried from an entry. If the allocator refuses memory, nothing is kept
    /// and the meter stands where it stood. The meter is at most at 2^127 before.
    pub fn build(alloc: Global, step: Step, meter: &mut Meter) -> Result<Tables, OutOfMemory>
        requires { meter.old ≤ 2 ^ 127 }
        ensures step { IfOk result (λ tables. tables ≡ step) }
        ensures ticks { OnOk result (meter.new ≡ meter.old + fill_ticks step) }
        ensures at_most { meter.new ≤ meter.old + entry_count step * length (turns_of step) }
        ensures refused { OnErr result (meter.new ≡ meter.old) }
    {
        Tables::build_in(alloc, step, meter)
    }
}

impl<A: Allocator> Tables<A> {
    ghost use Rattle.std.specs.Prelude.{◌≡◌, ◌+◌, ◌*◌, ◌<◌, ◌≤◌, ◌^◌, ◌↔◌, length, IsTrue, Contains, IfOk, OnOk, OnErr};
    ghost use Rattle.niss_moves.specs.Places.{Place, SameMap};
    ghost use Rattle.niss_moves.specs.Effects.{turned};
    ghost use Rattle.niss_cube.specs.Map.{map_of};
    ghost use Rattle.niss_cube.specs.Steps.{turns_of, may_start, reached};
    ghost use Rattle.niss_search.specs.Positions.{position_after, distance_at};
    ghost use Rattle.niss_search.specs.Entries.{entry_count, fill_ticks};
    ghost use Rattle.niss_search.specs.Cubes.{HasPosition, IsPosition, distance_of};
    ghost use Rattle.niss_search.specs.Followers.{AreFollowers};
    ghost use Rattle.niss_moves.specs.Canonical.{may_follow};
    ghost use Rattle.niss_search.specs.KindOfStep.{IsOfStep};

    /// `build` over any allocator, for a caller that has a heap of its own, or that refuses growths.
    pub fn build_in(alloc: A, step: Step, meter: &mut Meter) -> Result<Tables<A>, OutOfMemory>
    where
        A: Copy,
        requires { meter.old ≤ 2 ^ 127 }
        ensures step { IfOk result (λ tables. tables ≡ step) }
        ensures ticks { OnOk result (meter.new ≡ meter.old + fill_ticks step) }
        ensures at_most { meter.new ≤ meter.old + entry_count step * length (turns_of step) }
        ensures refused { OnErr result (meter.new ≡ meter.old) }
    {
        let kind = Kind::build_in(alloc, step, meter)?;
        Ok(Tables { step, kind })
    }

    /// The step.
    pub fn step(&self) -> Step
        ensures { result ≡ self.now }
    {
        self.step
    }

    /// The tables by their kind.
    pub(crate) fn kind(&self) -> &Kind<A>
        ensures { IsOfStep result.now self.now }
    {
        &self.kind
    }

    /// The step's turns that may stand directly after the last one, in turn order.
    pub(crate) fn turns_after(&self, last: Option<Turn>) -> &[Follower]
        ensures { AreFollowers self.now (may_follow last) result.now }
    {
        match &self.kind {
            Kind::Edges(tables) => tables.turns_after(last),
            Kind::AnyEdges(tables) => tables.turns_after(last),
            Kind::Domino(tables) => tables.turns_after(last),
            Kind::EitherDomino(tables) => tables.turns_after(last),
        }
    }

    /// The position of a cube on which the step may start.
    pub fn position(&self, cube: &Cube) -> Position
        requires { IsTrue (may_start self.now (map_of cube.now)) }
        ensures of_cube { (e : Place → Place) → SameMap (map_of cube.now) e → HasPosition self.now e result }
        ensures position { IsPosition self.now result }
    {
        positions_follow_cubes();
        Position::of(self.step.goals(), cube)
    }

    /// The position after a turn. The position is one of this step, and the turn is one of the step's.
    #[inline(always)]
    pub fn after(&self, position: &Position, turn: Turn) -> Position
        requires position { IsPosition self.now position.now }
        requires of_step { Contains (turns_of self.now) turn }
        ensures value { result ≡ position_after position.now turn }
        ensures turned { (e : Place → Place) → HasPosition self.now e position.now
            → HasPosition self.now (λ q. turned turn (e q)) result }
        ensures position { IsPosition self.now result }
    {
        positions_follow_cubes();
        self.position_after(position, turn)
    }

    /// The position after a turn, by the kind of the tables.
    #[inline(always)]
    fn position_after(&self, position: &Position, turn: Turn) -> Position
        requires position { IsPosition self.now position.now }
        requires of_step { Contains (turns_of self.now) turn }
        ensures { result ≡ position_after position.now turn }
    {
        match &self.kind {
            Kind::Edges(tables) => tables.position_after(position, turn),
            Kind::AnyEdges(tables) => tables.position_after(position, turn),
            Kind::Domino(tables) => tables.position_after(position, turn),
            Kind::EitherDomino(tables) => tables.position_after(position, turn),
        }
    }

    /// The distance to the step: the least number of its turns that reach it, 0 to 20, or 21 for more or never. The
    /// position is one of this step. The meter, which is below its greatest number, rises by one.
    #[inline(always)]
    pub fn look(&self, position: &Position, meter: &mut Meter) -> u8
        requires position { IsPosition self.now position.now }
        requires meter { meter.old + 1 < 2 ^ 128 }
        ensures tick { meter.new ≡ meter.old + 1 }
        ensures in_range { result ≤ 21 }
        ensures of_position { result ≡ distance_at self.now position.now }
        ensures value { (e : Place → Place) → HasPosition self.now e position.now
            → result ≡ distance_of self.now e }
        ensures zero { (e : Place → Place) → HasPosition self.now e position.now
            → (result ≡ 0) ↔ IsTrue (reached self.now e) }
    {
        positions_follow_cubes();
        self.look_by_kind(position, meter)
    }

    /// The same look, by the kind of the tables.
    fn look_by_kind(&self, position: &Position, meter: &mut Meter) -> u8
        requires position { IsPosition self.now position.now }
        requires meter { meter.old + 1 < 2 ^ 128 }
        ensures tick { meter.new ≡ meter.old + 1 }
        ensures value { result ≡ distance_at self.now position.now }
    {
        match &self.kind {
            Kind::Edges(tables) => tables.look_at(position, meter),
            Kind::AnyEdges(tables) => tables.look_at(position, meter),
            Kind::Domino(tables) => tables.look_at(position, meter),
            Kind::EitherDomino(tables) => tables.look_at(position, meter),
        }
    }
}
