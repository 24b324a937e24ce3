//! The solutions of the first step, and what is done with each. One type takes orientations and reductions, so that the
//! search for both is compiled once.
#![tactic(auto, using(crate::proofs::TurnLemmas::in_turn_none))]

ghost use Rattle.std.specs.Prelude.{◌≡◌};
ghost use Rattle.niss_ways.specs.Sinks.{Keeps};

mod orientations;
mod reductions;

use crate::admitted::Admitted;
use crate::finding::Wish;
use crate::looks::{Cut, Looks};
use crate::solution::Solution;
use crate::start::Start;
use crate::tables::WayTables;
use crate::totals::Totals;
use crate::way::Way;
use niss_cube::Axis;
use niss_search::{Ends, Limit, PairSink, PairsWanted, Sides, Tables, TurnPath};
pub use orientations::find_orientations;
pub use reductions::find_reductions;
use std::alloc::Allocator;

/// What is done with a solution.
#[derive(Clone, Copy, Debug, PartialEq, Eq)]
enum Task {
    /// Nothing more: the search goes on to its end.
    Nothing,
    /// The moves in all that an orientation comes to at most are counted.
    Bound,
    /// The ways on by an orientation are taken.
    Continue,
    /// A reduction is taken; these orientations hold, bit i for step i.
    End(u16),
}

/// Takes the solutions of the first step.
#[derive(Drop)]
struct FirstSteps<'a, A: Allocator> {
    tables: &'a WayTables<'a, A>,
    start: &'a Start,
    /// The first step, by its tables, and which lengths of it are let in, if any are.
    step: &'a Tables<A>,
    admitted: Option<Admitted>,
    task: Task,
    /// The axis of the orientations.
    axis: Axis,
    /// How many moves in all each orientation comes to at most, and how many are more than any way that is wanted has.
    totals: Totals,
    below: u16,
    /// The looks at what follows orientations.
    looks: Looks,
    tried: u64,
    room: &'a mut [Way],
    count: usize,
}

impl<'a, A: Allocator> FirstSteps<'a, A> {
    /// Nothing is searched for yet, and so many rows stand in the room.
    fn new(
        tables: &'a WayTables<'a, A>,
        start: &'a Start,
        step: &'a Tables<A>,
        room: &'a mut [Way],
        count: usize,
    ) -> FirstSteps<'a, A>
        ensures start { result.start.now ≡ start.now }
        ensures count { result.count ≡ count }
        ensures same_room { result.room.ghost_name ≡ room.entry.ghost_name }
        ensures unchanged { result.room.now ≡ room.old }
    {
        FirstSteps {
            tables,
            start,
            step,
            admitted: None,
            task: Task::Nothing,
            axis: Axis::Fb,
            totals: Totals::new(),
            below: u16::MAX,
            looks: Looks::new(0),
            tried: 0,
            room,
            count,
        }
    }

    /// Goes through the solutions of a wish's lengths that are let in.
    fn go(&mut self, wish: &Wish, outer: &mut Looks) -> Result<(), Cut>
        ensures most { outer.new.most ≡ outer.old.most }
        ensures room { Keeps self.old self.new }
    {
        for length in wish.from.get()..wish.to.get() + 1 {
            self.go_through(length, outer)?;
        }
        Ok(())
    }

    /// Goes through those of a length.
    fn go_through(&mut self, length: u8, outer: &mut Looks) -> Result<(), Cut>
        ensures most { outer.new.most ≡ outer.old.most }
        ensures room { Keeps self.old self.new }
    {
        self.search(Sides::Both, length, outer)?;
        self.search(Sides::Normal, length, outer)?;
        self.search(Sides::Inverse, length, outer)
    }

    /// Goes through those on these sides, if they are asked for.
    fn search(&mut self, sides: Sides, length: u8, outer: &mut Looks) -> Result<(), Cut>
        ensures most { outer.new.most ≡ outer.old.most }
        ensures room { Keeps self.old self.new }
    {
        let Some(admitted) = &self.admitted else {
            return Ok(());
        };
        if !admitted.asks(sides, length) {
            return Ok(());
        }
        let Some(length) = Limit::new(length) else {
            return Ok(());
        };
        let step = self.step;
        let cube = *self.start.cube();
        // one of twins is enough: those that stand for theirs are among these
        let wanted = PairsWanted {
            sides,
            ends: Ends::NotCounter,
            length,
        };
        match outer.search(step, &cube, wanted, self) {
            Ok(_) => Ok(()),
            Err(_) => Err(Cut),
        }
    }
}

impl<A: Allocator> PairSink for FirstSteps<'_, A> {
    type Fault = Cut;

    ghost took = { λ old p new. Keeps old new };

    ghost refused = { λ old p new. Keeps old new };

    fn take(&mut self, normal: &TurnPath, inverse: &TurnPath) -> Result<(), Cut> {
        let class = Solution::of(normal.turns(), inverse.turns());
        if let Task::End(reached) = self.task {
            self.take_reduction(&class, reached);
            return Ok(());
        }
        self.take_orientation(&class)
    }
}
