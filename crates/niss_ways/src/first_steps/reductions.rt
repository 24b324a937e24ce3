//! The reductions after orientations that hold.
#![tactic(auto, using(crate::proofs::TurnLemmas::in_turn_none))]

ghost use Rattle.std.specs.Prelude.{◌≡◌, ◌≤◌, length};
ghost use Rattle.niss_ways.specs.Rooms.{Grows};
ghost use Rattle.niss_ways.specs.Sinks.{Keeps};

use super::{FirstSteps, Task};
use crate::admitted::{Admitted, longest_of};
use crate::finding::{FoundWays, Wish};
use crate::following::Following;
use crate::looks::{Cut, Looks};
use crate::made::keeps_edges;
use crate::nearest::total_after;
use crate::rows::take;
use crate::solution::Solution;
use crate::start::Start;
use crate::tables::WayTables;
use crate::way::Way;
use niss_cube::{Axis, Step, Turn};
use niss_search::Tables;
use std::alloc::Allocator;

/// Whether the orientation on an axis is among some steps, bit i for step i.
fn holds(reached: u16, axis: Axis) -> bool {
    match axis {
        Axis::Fb => reached & 1 != 0,
        Axis::Rl => reached & 2 != 0,
        Axis::Ud => reached & 4 != 0,
    }
}

/// Whether all turns keep the orientation on an axis.
fn keep_edges(axis: Axis, turns: &[Turn]) -> bool {
    turns.iter().all(|turn| keeps_edges(axis, *turn))
}

/// Whether the orientation on an axis holds, and all turns keep it.
fn stays(reached: u16, axis: Axis, solution: &Solution) -> bool {
    holds(reached, axis)
        && keep_edges(axis, solution.normal())
        && keep_edges(axis, solution.inverse())
}

/// Whether all turns keep an orientation that holds before another one.
fn keeps_earlier(reached: u16, edges: Axis, solution: &Solution) -> bool {
    match edges {
        Axis::Fb => false,
        Axis::Rl => stays(reached, Axis::Fb, solution),
        Axis::Ud => stays(reached, Axis::Fb, solution) || stays(reached, Axis::Rl, solution),
    }
}

/// How many moves there are in all with a reduction.
fn total(start: &Start, solution: &Solution) -> u16 {
    let nothing = Solution::of(&[], &[]);
    total_after(start, &nothing, solution.normal(), solution.inverse())
}

/// The first twin with the fewest moves in all.
fn best_twin(start: &Start, axis: Axis, class: &Solution) -> Solution {
    let mut best = class.twin(axis, 0);
    let mut least = total(start, &best);
    for number in 1..class.twins(axis) {
        let twin = class.twin(axis, number);
        let count = total(start, &twin);
        if count < least {
            least = count;
            best = twin;
        }
    }
    best
}

impl<'a, A: Allocator> FirstSteps<'a, A> {
    /// Takes a reduction, if it stands for its twins, and if none of the orientations that hold before the one that it
    /// follows is kept by it.
    pub(super) fn take_reduction(&mut self, class: &Solution, reached: u16)
        ensures { Keeps self.old self.new }
    {
        let start = self.start;
        let Some(following) = Following::of(start, self.step) else {
            return;
        };
        let third = following.axes.third();
        if !class.stands_for_twins(third) || keeps_earlier(reached, following.axes.edges, class) {
            return;
        }
        let best = best_twin(start, third, class);
        self.take_row_of(&following, &best);
    }

    /// Takes the row of a reduction.
    fn take_row_of(&mut self, following: &Following<A>, reduction: &Solution)
        requires { following.now.start.now ≡ self.old.start.now }
        ensures { Keeps self.old self.new }
    {
        self.tried = self.tried.saturating_add(1);
        let Some(admitted) = &self.admitted else {
            return;
        };
        let Some(way) = following.row_of_reduction(reduction, &admitted.from) else {
            return;
        };
        let count = self.count;
        self.count = take(self.room, count, way);
    }

    /// Takes the reductions that are asked for, each by its tables, and returns whether longer ones are let in.
    fn take_reductions(
        &mut self,
        reduction: &'a Tables<A>,
        wish: &Wish,
        looks: &mut Looks,
    ) -> Result<bool, Cut>
        ensures most { looks.new.most ≡ looks.old.most }
        ensures room { Keeps self.old self.new }
    {
        self.step = reduction;
        self.admitted = Admitted::find(reduction, self.start, wish.slack, looks)?;
        self.go(wish, looks)?;
        Ok(longest_of(self.admitted) > wish.to.get())
    }

    /// Takes those after the orientation on an axis, if it holds and is asked for.
    fn take_after(
        &mut self,
        axis: Axis,
        reached: u16,
        wish: &Wish,
        looks: &mut Looks,
    ) -> Result<bool, Cut>
        ensures most { looks.new.most ≡ looks.old.most }
        ensures room { Keeps self.old self.new }
    {
        let Some(on_axis) = self.tables.on(axis) else {
            return Ok(false);
        };
        if !wish.axes.has(axis) || !holds(reached, axis) {
            return Ok(false);
        }
        let first = self.take_reductions(on_axis.first, wish, looks)?;
        let second = self.take_reductions(on_axis.second, wish, looks)?;
        Ok(first | second)
    }

    /// Takes those after each of the orientations that hold.
    fn take_after_all(&mut self, reached: u16, wish: &Wish, looks: &mut Looks) -> Result<bool, Cut>
        ensures most { looks.new.most ≡ looks.old.most }
        ensures room { Keeps self.old self.new }
    {
        let mut next = false;
        for axis in [Axis::Fb, Axis::Rl, Axis::Ud] {
            next |= self.take_after(axis, reached, wish, looks)?;
        }
        Ok(next)
    }
}

/// Finds the best reductions after the orientations that hold, bit i for step i.
pub fn find_reductions<'a, A: Allocator>(
    tables: &'a WayTables<'a, A>,
    start: &'a Start,
    wish: &Wish,
    room: &'a mut [Way],
    there: usize,
) -> FoundWays
    requires { there ≤ length room.old }
    ensures looks { result.looks ≤ wish.now.most_looks }
    ensures grows { Grows start.now there room.old result.rows room.new }
{
    let mut looks = Looks::new(wish.most_looks);
    let Some(some) = tables.some() else {
        return FoundWays::none(there);
    };
    let reached = Step::all_reached(start.cube());
    let mut sink = FirstSteps::new(tables, start, some.first, room, there);
    sink.task = Task::End(reached);
    let found = sink.take_after_all(reached, wish, &mut looks);
    FoundWays {
        rows: sink.count,
        tried: sink.tried,
        looks: looks.count(),
        cut: found.is_err(),
        next: found.unwrap_or(true),
    }
}
