//! The list of a step's solutions over sides, of one length.
ghost use Rattle.std.specs.Prelude.{◌≡◌, ◌≤◌, ◌<◌, ◌+◌, ◌-◌, ◌^◌, min, length, [], MatchOption, IsTrue, true, false};
ghost use Rattle.niss_cube.specs.Map.{map_of};
ghost use Rattle.niss_cube.specs.Steps.{may_start};
ghost use Rattle.niss_ways.specs.Listing.{EndsListing, HasListed, LeftOut, ListedOne, Lists, ListsInto, PutOne, StaysListing};

use crate::solution::Solution;
use crate::start::Start;
use crate::way::{Names, Part};
use niss_cube::{Cube, Step};
use niss_search::{
    Ends, Limit, Meter, PairSink, PairsWanted, Sides, StepFrom, Stopped, Tables, TurnPath,
    search_pairs_of_length,
};
use std::alloc::Allocator;

/// Which solutions are listed.
#[derive(Clone, Copy, Debug, PartialEq, Eq)]
pub struct Listed {
    /// On which sides they are.
    pub sides: Sides,
    /// How many turns each has on both sides together.
    pub length: Limit,
    /// How many of the first ones are passed over.
    pub passed: u64,
    /// Whether those that have no place in the room are counted.
    pub counts: bool,
    /// How often may be looked.
    pub most_looks: u64,
}

/// What a list has.
#[derive(Clone, Copy, Debug, PartialEq, Eq)]
pub struct FoundSolutions {
    /// How many solutions stand in the room.
    pub rows: usize,
    /// How many came, with those that were passed over.
    pub solutions: u64,
    /// The room is full, and there are more, which weren't counted.
    pub more: bool,
    /// How often was looked.
    pub looks: u64,
    /// It ended before it was done.
    pub cut: bool,
}

/// A solution has no place.
#[derive(Clone, Copy, Debug, PartialEq, Eq)]
struct Full;

/// Puts solutions into a room, and counts them.
#[derive(Drop)]
struct Rows<'a> {
    names: &'a Names,
    step: Step,
    passed: u64,
    counts: bool,
    room: &'a mut [Part],
    rows: usize,
    came: u64,
}

impl Rows<'_> {
    /// One more came.
    fn count(&mut self)
        ensures { self.new ≡ record self.old { came = min (self.old.came + 1) (2 ^ 64 - 1) } }
    {
        self.came = self.came.saturating_add(1);
    }

    /// How a search ended that handed it its solutions.
    fn found(&self, ended: &Result<u128, Stopped<Full>>, looks: u64) -> FoundSolutions
        ensures { EndsListing ended.now self.now.rows self.now.came looks result }
    {
        let (more, cut) = match ended {
            Ok(_) => (false, false),
            Err(Stopped::Refused(_)) => (true, false),
            Err(Stopped::Cut) => (false, true),
        };
        FoundSolutions {
            rows: self.rows,
            solutions: self.came,
            more,
            looks,
            cut,
        }
    }

    /// Lists solutions from a cube on which the step may start.
    fn list<A: Allocator>(
        &mut self,
        tables: &Tables<A>,
        cube: &Cube,
        listed: &Listed,
    ) -> FoundSolutions
        requires starts { IsTrue (may_start tables.now (map_of cube.now)) }
        requires empty { HasListed self.old [] }
        requires step { self.old.step ≡ tables.now }
        requires passed { self.old.passed ≡ listed.now.passed }
        requires counts { self.old.counts ≡ listed.now.counts }
        ensures stays { StaysListing self.old self.new }
        ensures lists { ListsInto self.old.names.now tables.now (map_of cube.now) listed.now (length self.old.room.now)
            self.new.room.now result }
        ensures looks { result.looks ≤ listed.now.most_looks }
    {
        let mut meter = Meter::new();
        let most = u128::from(listed.most_looks);
        let wanted = PairsWanted {
            sides: listed.sides,
            ends: Ends::Any,
            length: listed.length,
        };
        let from = StepFrom { tables, cube };
        let ended = search_pairs_of_length(&from, wanted, &mut meter, self, most);
        self.found(&ended, meter.count() as u64)
    }

    /// A solution is put into the next place.
    fn put(&mut self, solution: &Solution)
        requires { self.old.rows < length self.old.room.now }
        ensures { PutOne self.old solution.now self.new }
    {
        self.room[self.rows] = Part::of(self.names, self.step, solution);
        self.rows += 1;
    }
}

impl PairSink for Rows<'_> {
    type Fault = Full;

    ghost took = { λ old p new. ListedOne old p new };

    ghost refused = { λ old p new. LeftOut old new };

    fn take(&mut self, normal: &TurnPath, inverse: &TurnPath) -> Result<(), Full> {
        if self.came < self.passed {
            self.count();
            return Ok(());
        }
        if self.rows < self.room.len() {
            self.put(&Solution::of(normal.turns(), inverse.turns()));
            self.count();
            return Ok(());
        }
        if self.counts {
            self.count();
            return Ok(());
        }
        Err(Full)
    }
}

/// Puts the solutions of a step from a cube that have exactly so many turns on some sides, and whose first turns don't
/// reach it, into the room, but for the first `passed`: by their turns on the normal side, fewer ones first, and then in
/// turn order of the shorter side, and of the other. None if the step may not start on the cube.
pub fn list_solutions<A: Allocator>(
    tables: &Tables<A>,
    start: &Start,
    listed: &Listed,
    room: &mut [Part],
) -> Option<FoundSolutions>
    ensures lists { MatchOption result ((may_start tables.now (map_of start.now.cube) ≡ false) × (room.new ≡ room.old))
        (λ found. (may_start tables.now (map_of start.now.cube) ≡ true) × Lists start.now tables.now listed.now room.old room.new found) }
    ensures looks { MatchOption result Unit (λ found. found.looks ≤ listed.now.most_looks) }
{
    let step = tables.step();
    if !step.may_start(start.cube()) {
        return None;
    }
    let mut rows = Rows {
        names: start.names(),
        step,
        passed: listed.passed,
        counts: listed.counts,
        room,
        rows: 0,
        came: 0,
    };
    Some(rows.list(tables, start.cube(), listed))
}
