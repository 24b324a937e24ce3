//! The orientations, each class of twins with the best reductions after it.
#![tactic(auto, using(crate::proofs::TurnLemmas::in_turn_none))]

ghost use Rattle.std.specs.Prelude.{◌≡◌, ◌≤◌, length};
ghost use Rattle.niss_ways.specs.Rooms.{Grows};
ghost use Rattle.niss_ways.specs.Sinks.{Keeps, KeepsRows};

use super::{FirstSteps, Task};
use crate::admitted::{Admitted, longest_of};
use crate::finding::{FoundWays, Wish};
use crate::following::{Following, Found};
use crate::looks::{Cut, Looks};
use crate::reductions_after::{Both, ReductionsAfter};
use crate::rows::take;
use crate::solution::Solution;
use crate::start::Start;
use crate::tables::WayTables;
use crate::totals::Totals;
use crate::way::Way;
use niss_cube::Axis;
use std::alloc::Allocator;

/// A wish, and which lengths of it are let in on each axis; none on one that isn't asked for.
#[derive(Drop)]
struct Plan<'a> {
    wish: &'a Wish,
    fb: Option<Admitted>,
    rl: Option<Admitted>,
    ud: Option<Admitted>,
}

impl<'a> Plan<'a> {
    /// The plan of a wish.
    fn find<A: Allocator>(
        tables: &WayTables<A>,
        start: &Start,
        wish: &'a Wish,
        looks: &mut Looks,
    ) -> Result<Plan<'a>, Cut>
        ensures { looks.new.most ≡ looks.old.most }
    {
        Ok(Plan {
            wish,
            fb: admitted_on(tables, start, wish, Axis::Fb, looks)?,
            rl: admitted_on(tables, start, wish, Axis::Rl, looks)?,
            ud: admitted_on(tables, start, wish, Axis::Ud, looks)?,
        })
    }

    /// Those on an axis.
    fn on(&self, axis: Axis) -> Option<Admitted> {
        match axis {
            Axis::Fb => self.fb,
            Axis::Rl => self.rl,
            Axis::Ud => self.ud,
        }
    }

    /// The greatest length that is let in.
    fn longest(&self) -> u8 {
        longest_of(self.fb)
            .max(longest_of(self.rl))
            .max(longest_of(self.ud))
    }
}

/// How often a pass through the orientations looked in the search for them, and at what follows, and whether it was cut.
#[derive(Clone, Copy)]
struct Passed {
    looks: u64,
    others: u64,
    cut: bool,
}

/// The lengths that are let in on an axis, if it is asked for.
fn admitted_on<A: Allocator>(
    tables: &WayTables<A>,
    start: &Start,
    wish: &Wish,
    axis: Axis,
    looks: &mut Looks,
) -> Result<Option<Admitted>, Cut>
    ensures { looks.new.most ≡ looks.old.most }
{
    match tables.on(axis) {
        Some(on_axis) if wish.axes.has(axis) => {
            Admitted::find(on_axis.orientation, start, wish.slack, looks)
        }
        _ => Ok(None),
    }
}

impl<A: Allocator> FirstSteps<'_, A> {
    /// Counts or takes the best ways on by the reductions after an orientation, if it stands for its twins.
    pub(super) fn take_orientation(&mut self, class: &Solution) -> Result<(), Cut>
        ensures { Keeps self.old self.new }
    {
        if !class.stands_for_twins(self.axis) {
            return Ok(());
        }
        let Some(tables) = self.tables.on(self.axis) else {
            return Ok(());
        };
        let Some(reductions) = ReductionsAfter::of(self.start, tables, self.axis) else {
            return Ok(());
        };
        match self.task {
            Task::Bound => {
                self.count_totals(&reductions, class);
                Ok(())
            }
            Task::Continue => self.take_best(&reductions, class),
            _ => Ok(()),
        }
    }

    /// Counts the moves in all that there are at most with each reduction.
    fn count_totals(&mut self, reductions: &ReductionsAfter<A>, class: &Solution)
        ensures { Keeps self.old self.new }
    {
        match reductions.at_most(class, &mut self.looks) {
            Ok(most) => {
                self.totals.add(most.first);
                self.totals.add(most.second);
            }
            // what was counted holds
            Err(Cut) => self.task = Task::Nothing,
        }
    }

    /// So many moves in all no way has that may still come into the room, of those that begin with these orientations.
    fn too_many(&self, following: &Following<A>, class: &Solution) -> u16 {
        let places = self.room.len();
        if self.count < places {
            return self.below;
        }
        if places == 0 {
            return 0;
        }
        let last = self.room[places - 1];
        let is_better = following.comes_before(class, &last);
        self.below
            .min(last.total.saturating_add(u16::from(is_better)))
    }

    /// Takes the best way on by each reduction, if it comes into the room.
    fn take_best(&mut self, reductions: &ReductionsAfter<A>, class: &Solution) -> Result<(), Cut>
        requires first { reductions.now.first.start.now ≡ self.old.start.now }
        requires second { reductions.now.second.start.now ≡ self.old.start.now }
        ensures { Keeps self.old self.new }
    {
        self.tried = self.tried.saturating_add(2);
        let below = Both {
            first: self.too_many(&reductions.first, class),
            second: self.too_many(&reductions.second, class),
        };
        let best = reductions.best(class, below, &mut self.looks)?;
        self.take_row(&reductions.first, best.first);
        self.take_row(&reductions.second, best.second);
        Ok(())
    }

    /// Takes what was found, if anything was.
    fn take_row(&mut self, following: &Following<A>, found: Option<Found>)
        requires { following.now.start.now ≡ self.old.start.now }
        ensures { Keeps self.old self.new }
    {
        let Some(found) = found else {
            return;
        };
        let Some(way) = following.row(&found) else {
            return;
        };
        let count = self.count;
        self.count = take(self.room, count, way);
    }

    /// Goes through the orientations of a plan, on each axis.
    fn go_on_axes(&mut self, plan: &Plan, outer: &mut Looks) -> Result<(), Cut>
        ensures most { outer.new.most ≡ outer.old.most }
        ensures room { Keeps self.old self.new }
    {
        for axis in [Axis::Fb, Axis::Rl, Axis::Ud] {
            self.go_on_axis(axis, plan, outer)?;
        }
        Ok(())
    }

    /// Goes through those on an axis.
    fn go_on_axis(&mut self, axis: Axis, plan: &Plan, outer: &mut Looks) -> Result<(), Cut>
        ensures most { outer.new.most ≡ outer.old.most }
        ensures room { Keeps self.old self.new }
    {
        let Some(tables) = self.tables.on(axis) else {
            return Ok(());
        };
        self.step = tables.orientation;
        self.admitted = plan.on(axis);
        self.axis = axis;
        self.go(plan.wish, outer)
    }

    /// Goes through all of them for a task, by so many looks at most for the search for orientations, and so many
    /// others.
    fn go_within(&mut self, task: Task, plan: &Plan, most: u64, most_others: u64) -> Passed
        ensures looks { result.looks ≤ most }
        ensures others { result.others ≤ most_others }
        ensures room { KeepsRows self.old self.new }
    {
        let mut looks = Looks::new(most);
        self.looks = Looks::new(most_others);
        self.task = task;
        let cut = self.go_on_axes(plan, &mut looks).is_err();
        Passed {
            looks: looks.count(),
            others: self.looks.count(),
            cut,
        }
    }

    /// Goes through all of them twice: it counts the moves in all that each comes to at most, which gives a bound early,
    /// and then takes the ways on. Returns how many looks are left, and whether it was cut.
    fn go_twice(&mut self, plan: &Plan, left: u64) -> (u64, bool)
        ensures left { result.0 ≤ left }
        ensures room { KeepsRows self.old self.new }
    {
        let half = left / 2;
        let bound = self.go_within(Task::Bound, plan, half, half / 2);
        let rest = left - bound.looks - bound.others;
        if bound.cut || rest < bound.looks {
            return (rest, true);
        }
        let places = self.room.len();
        self.below = self.totals.that_has(places).saturating_add(1);
        let taken = self.go_within(Task::Continue, plan, bound.looks, rest - bound.looks);
        (rest - taken.looks - taken.others, taken.cut)
    }
}

/// How many ways that stand there have each total.
fn totals_of(ways: &[Way]) -> Totals {
    let mut totals = Totals::new();
    for way in ways {
        totals.add(way.total);
    }
    totals
}

/// Finds the best ways on by orientations.
pub fn find_orientations<'a, A: Allocator>(
    tables: &'a WayTables<'a, A>,
    start: &'a Start,
    wish: &Wish,
    room: &'a mut [Way],
    there: usize,
) -> FoundWays
    requires { there ≤ length room.old }
    ensures looks { result.looks ≤ wish.now.most_looks }
    ensures grows { Grows start.now there room.old result.rows room.new }
{
    let most_looks = wish.most_looks;
    let mut looks = Looks::new(most_looks);
    let Some(some) = tables.some() else {
        return FoundWays::none(there);
    };
    let Ok(plan) = Plan::find(tables, start, wish, &mut looks) else {
        return FoundWays::cut(there, looks.count());
    };
    let totals = totals_of(&room[..there]);
    let mut sink = FirstSteps::new(tables, start, some.orientation, room, there);
    sink.totals = totals;
    let (left, cut) = sink.go_twice(&plan, looks.left());
    FoundWays {
        rows: sink.count,
        tried: sink.tried,
        looks: most_looks - left,
        cut,
        next: plan.longest() > wish.to.get(),
    }
}
