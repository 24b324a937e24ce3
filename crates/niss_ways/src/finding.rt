//! The search for the best ways on.
ghost use Rattle.std.specs.Prelude.{◌≡◌, ◌≤◌, length, min};
ghost use Rattle.niss_ways.specs.Asked.{is_among};
ghost use Rattle.niss_ways.specs.Rooms.{Grows};

use crate::first_steps::{find_orientations, find_reductions};
use crate::start::Start;
use crate::tables::WayTables;
use crate::way::Way;
use niss_cube::{Axis, Step};
use niss_search::Limit;
use std::alloc::Allocator;

/// The steps that are reductions on one axis, bit i for step i.
const REDUCTIONS: u16 = 0b1_1111_1000;

/// Those that are orientations.
const ORIENTATIONS: u16 = 0b111;

/// Some axes.
#[derive(Clone, Copy, Debug, PartialEq, Eq)]
pub struct Axes {
    pub fb: bool,
    pub rl: bool,
    pub ud: bool,
}

impl Axes {
    /// All of them.
    pub const ALL: Axes = Axes {
        fb: true,
        rl: true,
        ud: true,
    };

    /// Whether an axis is among them.
    pub fn has(self, axis: Axis) -> bool
        ensures { result ≡ is_among self axis }
    {
        match axis {
            Axis::Fb => self.fb,
            Axis::Rl => self.rl,
            Axis::Ud => self.ud,
        }
    }
}

/// What is looked for.
#[derive(Clone, Copy, Debug, PartialEq, Eq)]
pub struct Wish {
    /// By how many turns the first step is longer at most than its least length of a kind: on the scramble alone, on
    /// its inverse alone, or over both.
    pub slack: Limit,
    /// On which axes the orientation is.
    pub axes: Axes,
    /// How many turns the first step has, from and to.
    pub from: Limit,
    pub to: Limit,
    /// How often it may be looked at most.
    pub most_looks: u64,
}

/// What was found.
#[derive(Clone, Copy, Debug, PartialEq, Eq)]
pub struct FoundWays {
    /// How many ways stand in the room.
    pub rows: usize,
    /// How many ways were tried.
    pub tried: u64,
    /// How often was looked.
    pub looks: u64,
    /// It ended before it was done.
    pub cut: bool,
    /// Longer first steps are let in on these axes.
    pub next: bool,
}

impl FoundWays {
    /// What there is after a cut.
    pub(crate) fn cut(rows: usize, looks: u64) -> FoundWays
        ensures rows { result.rows ≡ rows }
        ensures looks { result.looks ≡ looks }
    {
        FoundWays {
            rows,
            tried: 0,
            looks,
            cut: true,
            next: true,
        }
    }

    /// Nothing came.
    pub(crate) fn none(rows: usize) -> FoundWays
        ensures rows { result.rows ≡ rows }
        ensures looks { result.looks ≡ 0 }
    {
        FoundWays {
            rows,
            tried: 0,
            looks: 0,
            cut: false,
            next: false,
        }
    }
}

/// Finds the best ways on, and puts them in their order into the room, in which some may stand already at the front:
/// those of other axes and lengths, as many as `there` says, or all if the room is smaller. What is found may be cut before
/// the bound on looks is reached.
#[tactic(auto, using(crate::proofs::TurnLemmas::in_turn_none))]
pub fn find_ways<A: Allocator>(
    tables: &WayTables<A>,
    start: &Start,
    wish: &Wish,
    room: &mut [Way],
    there: usize,
) -> FoundWays
    ensures grows { Grows start.now (min there (length room.old)) room.old result.rows room.new }
    ensures rows { result.rows ≤ length room.new }
    ensures looks { result.looks ≤ wish.now.most_looks }
{
    let count = there.min(room.len());
    let reached = Step::all_reached(start.cube());
    if reached & REDUCTIONS != 0 {
        return FoundWays::none(count);
    }
    if reached & ORIENTATIONS == 0 {
        find_orientations(tables, start, wish, room, count)
    } else {
        find_reductions(tables, start, wish, room, count)
    }
}
