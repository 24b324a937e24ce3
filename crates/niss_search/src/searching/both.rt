//! The search over both sides: the shorter side of each pair is gone through without the tables, and after it the other
//! side is searched by them.
ghost use Rattle.std.specs.Prelude.{◌≡◌, ◌+◌, ◌*◌, ◌≤◌, ◌^◌, min, IsTrue, IfOk, OnOk, OnErr};
ghost use Rattle.niss_cube.specs.Map.{map_of};
ghost use Rattle.niss_cube.specs.Steps.{may_start};
ghost use Rattle.niss_search.specs.Budgets.{is_cut_in, HasSpent};
ghost use Rattle.niss_search.specs.BothSides.{Pair, pair, HandsOut, fewest_normal, most_normal};
ghost use Rattle.niss_search.specs.BothSides.{skips, leaves_out, pairs_with, least_pair_length, pair_solutions};
ghost use Rattle.niss_search.specs.BothSides.{looks_with, pair_looks};
ghost use Rattle.niss_search.specs.BothWalk.{HasSearched, MaySearch, part_of_length, part_of_lengths, part_of_search};
ghost use Rattle.niss_search.specs.declared.searching.both.Ends.TheVariants.{Any};
ghost use Rattle.niss_search.specs.declared.searching.both.Sides.TheVariants.{Both};

mod joined;
mod splitting;
mod walk;

use super::{Outcome, last_length};
use crate::budget::{Stopped, UpTo};
use crate::path::{Lengths, Limit, TurnPath};
use crate::tables::{Meter, Tables};
pub use joined::begins_reached;
use niss_cube::laws::idle_turns_leave_steps;
use niss_cube::{Cube, Power, Turn};
use splitting::Split;
use std::alloc::Allocator;
use walk::Walk;

/// The sides that a search has turns on: the normal one, the inverse, or both.
#[derive(Clone, Copy, Debug, PartialEq, Eq)]
pub enum Sides {
    Normal,
    Inverse,
    Both,
}

impl Sides {
    /// The fewest of so many turns that stand on the normal side.
    fn fewest_normal(self, length: u8) -> u8
        ensures { result ≡ fewest_normal self length }
    {
        match self {
            Sides::Normal => length,
            Sides::Inverse | Sides::Both => 0,
        }
    }

    /// The most of them.
    fn most_normal(self, length: u8) -> u8
        ensures { result ≡ most_normal self length }
    {
        match self {
            Sides::Normal | Sides::Both => length,
            Sides::Inverse => 0,
        }
    }
}

/// Which turns the sides of a pair may end in.
#[derive(Clone, Copy, Debug, PartialEq, Eq)]
pub enum Ends {
    /// Any.
    Any,
    /// Any but a quarter turn counterclockwise: so of twins, which differ in the direction of such a turn, one comes.
    NotCounter,
}

impl Ends {
    /// Whether sequences that end in a turn are left out.
    fn skips(self, turn: Turn) -> bool
        ensures { result ≡ skips self turn }
    {
        match (self, turn.power) {
            (Ends::NotCounter, Power::Counter) => true,
            _ => false,
        }
    }

    /// Whether a sequence is left out.
    fn leaves_out(self, path: &TurnPath) -> bool
        ensures { result ≡ leaves_out self path.now.turns }
    {
        match path.last() {
            Some(turn) => self.skips(turn),
            None => false,
        }
    }
}

/// Which pairs are searched for: on these sides, with such ends, of exactly so many turns.
#[derive(Clone, Copy, Debug)]
pub struct PairsWanted {
    pub sides: Sides,
    pub ends: Ends,
    pub length: Limit,
}

/// Where pairs are searched: a step, by its tables, and the cube that it starts on.
#[derive(Drop)]
pub struct StepFrom<'a, A: Allocator> {
    pub tables: &'a Tables<A>,
    pub cube: &'a Cube,
}

/// What takes the solutions of a search over both sides, one pair at a time. It states what a pair does to it by two
/// relations, each between its value before, the pair, and its value after.
pub trait PairSink {
    /// Why a pair was refused.
    type Fault;

    /// The pair was taken.
    ghost took: { Self → Pair → Self → Type 0 };

    /// The pair was refused.
    ghost refused: { Self → Pair → Self → Type 0 };

    /// Takes the turns on the normal side and those on the inverse, or refuses them with a fault.
    fn take(&mut self, normal: &TurnPath, inverse: &TurnPath) -> Result<(), Self::Fault>
        ensures ok { OnOk result (took self.old (pair normal.now.turns inverse.now.turns) self.new) }
        ensures err { OnErr result (refused self.old (pair normal.now.turns inverse.now.turns) self.new) };
}

/// Hands each solution over both sides within the limit that is at most `slack` turns longer than the least to the
/// sink, until the sink refuses one: pairs of turns on the cube and turns on its inverse that reach the step together,
/// and whose first turns don't. They come by length, then by their turns on the normal side, fewer ones first, and then
/// in turn order of the shorter side, and of the other. It makes at most `looks` looks, as `search_within`.
///
/// The step may start on the cube, and the meter is at most at 2^127. The meter rises by one for each look.
pub fn search_both_within<K: PairSink>(
    from: &StepFrom<'_, impl Allocator>,
    lengths: Lengths,
    meter: &mut Meter,
    sink: &mut K,
    looks: u128,
) -> Result<Outcome, Stopped<K::Fault>>
    requires starts { IsTrue (may_start from.now.tables.now (map_of from.now.cube.now)) }
    requires meter { meter.old ≤ 2 ^ 127 }
    ensures length { IfOk result (λ o. o.length
        ≡ least_pair_length from.now.tables.now (map_of from.now.cube.now) Both lengths.limit) }
    ensures solutions { HandsOut K.took K.refused
        (pair_solutions from.now.tables.now (map_of from.now.cube.now) Both lengths.limit lengths.slack)
        (pair_looks from.now.tables.now (map_of from.now.cube.now) Both lengths.limit lengths.slack)
        meter.old meter.new sink.old sink.new is_cut_in (meter.old + looks) (λ o. o.solutions) result }
    ensures within { meter.new ≤ meter.old + looks }
    ensures spent { HasSpent is_cut_in (meter.old + looks) from.now.tables.now meter.new result }
{
    let search = PairSearch {
        tables: from.tables,
        cube: from.cube,
        sides: Sides::Both,
        ends: Ends::Any,
        budget: budget_of(meter, looks),
    };
    search.from_least(lengths, meter, sink)
}

/// Hands each wanted pair that reaches the step, and whose first turns don't, to the sink, in the order of
/// `search_both_within`. Returns how many they are: so a caller goes from length to length.
///
/// The step may start on the cube, and the meter is at most at 2^127. The meter rises by one for each look, and by at
/// most `looks`, as in `search_within`.
pub fn search_pairs_of_length<K: PairSink>(
    from: &StepFrom<'_, impl Allocator>,
    wanted: PairsWanted,
    meter: &mut Meter,
    sink: &mut K,
    looks: u128,
) -> Result<u128, Stopped<K::Fault>>
    requires starts { IsTrue (may_start from.now.tables.now (map_of from.now.cube.now)) }
    requires meter { meter.old ≤ 2 ^ 127 }
    ensures solutions { HandsOut K.took K.refused
        (pairs_with from.now.tables.now (map_of from.now.cube.now) wanted.ends wanted.sides wanted.length)
        (looks_with from.now.tables.now (map_of from.now.cube.now) wanted.ends wanted.sides wanted.length)
        meter.old meter.new sink.old sink.new is_cut_in (meter.old + looks) (λ count. count) result }
    ensures within { meter.new ≤ meter.old + looks }
    ensures spent { HasSpent is_cut_in (meter.old + looks) from.now.tables.now meter.new result }
{
    let search = PairSearch {
        tables: from.tables,
        cube: from.cube,
        sides: wanted.sides,
        ends: wanted.ends,
        budget: budget_of(meter, looks),
    };
    search.of_length(wanted.length.get(), meter, sink)
}

/// How far the meter may go by so many looks more. No search over both sides looks 2^126 times, so this may stay far
/// below the greatest number.
fn budget_of(meter: &Meter, looks: u128) -> UpTo
    ensures { result.bound ≡ min (meter.now + looks) (3 * 2 ^ 126) }
{
    UpTo {
        bound: meter.count().saturating_add(looks).min(3 << 126),
    }
}

/// A search for pairs: the tables of a step, the cube, on which sides it has turns, with which ends, and how far the meter
/// may go.
#[derive(Drop)]
struct PairSearch<'a, A: Allocator> {
    tables: &'a Tables<A>,
    cube: &'a Cube,
    sides: Sides,
    ends: Ends,
    budget: UpTo,
}

impl<A: Allocator> PairSearch<'_, A> {
    /// Hands out the pairs with any ends of each length in turn, up to the last, and returns what they are.
    fn from_least<K: PairSink>(
        &self,
        lengths: Lengths,
        meter: &mut Meter,
        sink: &mut K,
    ) -> Result<Outcome, Stopped<K::Fault>>
        requires starts { IsTrue (may_start self.now.tables.now (map_of self.now.cube.now)) }
        requires any { self.now.ends ≡ Any }
        requires asked { MaySearch self.now.budget.bound meter.old }
        ensures length { IfOk result (λ o. o.length
            ≡ least_pair_length self.now.tables.now (map_of self.now.cube.now) self.now.sides lengths.limit) }
        ensures searched { HasSearched K.took K.refused self.now.budget.bound self.now.tables.now (λ o. o.solutions)
            (part_of_search self.now.tables.now (map_of self.now.cube.now) self.now.sides lengths.limit lengths.slack) 0
            meter.old meter.new sink.old sink.new result }
        ensures limit { lengths.limit ≤ 20 }
    {
        let mut least = None;
        let mut solutions = 0;
        let mut length = 0;
        while length <= last_length(least, lengths.limit, lengths.slack) {
            let found = self.of_length(length, meter, sink)?;
            least = least.or((found > 0).then_some(length));
            solutions += found;
            length += 1;
        }
        Ok(Outcome {
            length: least,
            solutions,
        })
    }

    /// Hands out the pairs of exactly so many turns, and returns how many they are.
    fn of_length<K: PairSink>(
        &self,
        length: u8,
        meter: &mut Meter,
        sink: &mut K,
    ) -> Result<u128, Stopped<K::Fault>>
        requires starts { IsTrue (may_start self.now.tables.now (map_of self.now.cube.now)) }
        requires few { length ≤ 20 }
        requires asked { MaySearch self.now.budget.bound meter.old }
        ensures { HasSearched K.took K.refused self.now.budget.bound self.now.tables.now (λ count. count)
            (part_of_length self.now.ends self.now.tables.now (map_of self.now.cube.now) self.now.sides length) 0
            meter.old meter.new sink.old sink.new result }
    {
        idle_turns_leave_steps();
        let mut count = 0;
        for normal in self.sides.fewest_normal(length)..self.sides.most_normal(length) + 1 {
            count += self.of_lengths(normal, length - normal, meter, sink)?;
        }
        Ok(count)
    }

    /// Hands out those of them that have so many turns on each side, and returns how many they are.
    fn of_lengths<K: PairSink>(
        &self,
        normal: u8,
        inverse: u8,
        meter: &mut Meter,
        sink: &mut K,
    ) -> Result<u128, Stopped<K::Fault>>
        requires starts { IsTrue (may_start self.now.tables.now (map_of self.now.cube.now)) }
        requires few { normal + inverse ≤ 20 }
        requires asked { MaySearch self.now.budget.bound meter.old }
        ensures { HasSearched K.took K.refused self.now.budget.bound self.now.tables.now (λ count. count)
            (part_of_lengths self.now.ends self.now.tables.now (map_of self.now.cube.now) normal inverse) 0
            meter.old meter.new sink.old sink.new result }
    {
        let split = Split::of(normal, inverse);
        let walk = Walk {
            tables: self.tables,
            cube: self.cube,
            budget: &self.budget,
            ends: self.ends,
            side: split.side,
            tail: split.tail,
        };
        walk.go(split.head, meter, sink)
    }
}
