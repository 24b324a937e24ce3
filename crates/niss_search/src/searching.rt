//! The search: depth first to each length in turn (iterative deepening), up to the least at which something is found,
//! and to as many lengths more as the slack allows.
ghost use Rattle.std.specs.Prelude.{◌≡◌, ◌+◌, ◌≤◌, ◌<◌, ◌^◌, length, IfOk, OnOk, OnErr, [], ◌-◌, IfErr, true, false, ℕ};
ghost use Rattle.niss_moves.specs.Places.{Place};
ghost use Rattle.niss_cube.specs.Steps.{turns_of};
ghost use Rattle.niss_search.specs.Cubes.{IsPosition, HasPosition, least_length_of, near_solutions_of, near_looks_of};
ghost use Rattle.niss_search.specs.Solutions.{look_bound, last_length, least_length};
ghost use Rattle.niss_search.specs.Positions.{positions, distance_at};
ghost use Rattle.niss_search.specs.Delivery.{WentThrough, StoppedIn, StoppedAt, EndedIn, at_limit, Path};
ghost use Rattle.niss_search.specs.Budgets.{is_cut_in, HasSpent};
ghost use Rattle.niss_search.specs.LookNumbers.{found_within_of, look_number_of};
ghost use Rattle.niss_search.specs.Deepening.{deepening, all_deepenings, Delivers, turns};

mod after;
mod both;
mod depth_first;

use crate::budget::{Budget, Stopped, Unbounded, UpTo};
use crate::laws::positions_follow_cubes;
use crate::path::{Limit, TurnPath};
use crate::tables::{Meter, Position, Tables};
pub use after::search_after;
pub use both::{
    Ends, PairSink, PairsWanted, Sides, StepFrom, begins_reached, search_both_within,
    search_pairs_of_length,
};
use depth_first::{Descent, Guide};
use niss_cube::laws::step_turns_in_order;
use std::alloc::Allocator;

/// What takes the solutions of a search, one path at a time. It states what a path does to it by two relations, each
/// between its value before, the limit and the turns of the path, and its value after.
pub trait Sink {
    /// Why a path was refused.
    type Fault;

    /// The path was taken.
    ghost took: { Self → Path → Self → Type 0 };

    /// The path was refused.
    ghost refused: { Self → Path → Self → Type 0 };

    /// Takes a path, or refuses it with a fault.
    fn take(&mut self, path: &TurnPath) -> Result<(), Self::Fault>
        ensures ok { OnOk result (took self.old path.now self.new) }
        ensures err { OnErr result (refused self.old path.now self.new) };
}

/// What a search handed to its sink: the least length of a solution in turns, `None` if there is none within the
/// limit, and how many solutions it handed out, of all lengths.
#[derive(Clone, Copy, Debug, PartialEq, Eq)]
pub struct Outcome {
    pub length: Option<u8>,
    pub solutions: u128,
}

/// Hands each solution within the path's limit that is at most `slack` turns longer than the least to the sink, until
/// the sink refuses one: those of one length after those of another, each in turn order. Each is handed out as a path
/// of that limit. What is said here holds of every cube that has the position.
///
/// The position is one of the tables' step, the path is empty, and the meter is at most at 2^127. The path is empty
/// again at the end, of the same limit. The meter rises by one for each look: by those of the whole search if the
/// sink took every path, and by those up to the one at a path that it refused.
pub fn search<K: Sink>(
    tables: &Tables<impl Allocator>,
    position: &Position,
    slack: Limit,
    path: &mut TurnPath,
    meter: &mut Meter,
    sink: &mut K,
) -> Result<Outcome, K::Fault>
    requires position { IsPosition tables.now position.now }
    requires empty { path.old.turns ≡ [] }
    requires meter { meter.old ≤ 2 ^ 127 }
    ensures length { (e : Place → Place) → HasPosition tables.now e position.now
        → IfOk result (λ o. o.length ≡ least_length_of tables.now e path.old.limit) }
    ensures solutions { (e : Place → Place) → HasPosition tables.now e position.now
        → IfOk result (λ o. o.solutions ≡ length (near_solutions_of tables.now e path.old.limit slack)) }
    ensures path { path.new ≡ path.old }
    ensures ok { (e : Place → Place) → HasPosition tables.now e position.now
        → OnOk result (WentThrough (at_limit K.took path.old.limit)
        sink.old (near_solutions_of tables.now e path.old.limit slack) sink.new) }
    ensures err { (e : Place → Place) → HasPosition tables.now e position.now
        → OnErr result (StoppedIn (at_limit K.took path.old.limit) (at_limit K.refused path.old.limit)
        sink.old (near_solutions_of tables.now e path.old.limit slack) sink.new) }
    ensures stopped { (e : Place → Place) (made : ℕ) → HasPosition tables.now e position.now → meter.new ≡ meter.old + made
        → OnErr result (StoppedAt (at_limit K.took path.old.limit) (at_limit K.refused path.old.limit)
        (look_number_of tables.now e) sink.old (near_solutions_of tables.now e path.old.limit slack) sink.new made) }
    ensures looks { (e : Place → Place) → HasPosition tables.now e position.now
        → OnOk result (meter.new ≡ meter.old + near_looks_of tables.now e path.old.limit slack) }
    ensures looks_at_most { (e : Place → Place) → HasPosition tables.now e position.now
        → meter.new ≤ meter.old + near_looks_of tables.now e path.old.limit slack }
    ensures rises { meter.old ≤ meter.new }
    ensures bound { meter.new ≤ meter.old + look_bound (turns_of tables.now) path.old.limit }
{
    step_turns_in_order();
    positions_follow_cubes();
    let root = Root { tables, position };
    root.deepen_all(slack, path, meter, sink, &Unbounded)
}

/// Searches as `search` does, but makes at most so many looks: before looks that would pass them it ends with
/// `Stopped::Cut`, and the sink took exactly the solutions that the looks made reach. It is cut only if the whole search
/// looks more often, and leaves fewer of its looks than the step has turns. A refusal of the sink is `Stopped::Refused`.
///
/// The position is one of the tables' step, the path is empty, and the meter is at most at 2^127. The path is empty
/// again at the end, of the same limit. The meter rises by one for each look.
pub fn search_within<K: Sink>(
    tables: &Tables<impl Allocator>,
    position: &Position,
    slack: Limit,
    path: &mut TurnPath,
    meter: &mut Meter,
    sink: &mut K,
    looks: u128,
) -> Result<Outcome, Stopped<K::Fault>>
    requires position { IsPosition tables.now position.now }
    requires empty { path.old.turns ≡ [] }
    requires meter { meter.old ≤ 2 ^ 127 }
    ensures length { (e : Place → Place) → HasPosition tables.now e position.now
        → IfOk result (λ o. o.length ≡ least_length_of tables.now e path.old.limit) }
    ensures solutions { (e : Place → Place) → HasPosition tables.now e position.now
        → IfOk result (λ o. o.solutions ≡ length (near_solutions_of tables.now e path.old.limit slack)) }
    ensures path { path.new ≡ path.old }
    ensures ok { (e : Place → Place) → HasPosition tables.now e position.now
        → OnOk result (WentThrough (at_limit K.took path.old.limit)
        sink.old (near_solutions_of tables.now e path.old.limit slack) sink.new) }
    ensures err { (e : Place → Place) → HasPosition tables.now e position.now
        → IfErr result (λ stop. EndedIn (at_limit K.took path.old.limit) (at_limit K.refused path.old.limit)
        (is_cut_in stop) sink.old (near_solutions_of tables.now e path.old.limit slack) sink.new) }
    ensures cut { (e : Place → Place) → HasPosition tables.now e position.now
        → IfErr result (λ stop. is_cut_in stop ≡ true
        → looks < near_looks_of tables.now e path.old.limit slack) }
    ensures found { (e : Place → Place) (made : ℕ) → HasPosition tables.now e position.now → meter.new ≡ meter.old + made
        → IfErr result (λ stop. is_cut_in stop ≡ true → WentThrough (at_limit K.took path.old.limit)
        sink.old (found_within_of tables.now e path.old.limit slack made) sink.new) }
    ensures stopped { (e : Place → Place) (made : ℕ) → HasPosition tables.now e position.now → meter.new ≡ meter.old + made
        → IfErr result (λ stop. is_cut_in stop ≡ false
        → StoppedAt (at_limit K.took path.old.limit) (at_limit K.refused path.old.limit) (look_number_of tables.now e)
        sink.old (near_solutions_of tables.now e path.old.limit slack) sink.new made) }
    ensures looks { (e : Place → Place) → HasPosition tables.now e position.now
        → OnOk result (meter.new ≡ meter.old + near_looks_of tables.now e path.old.limit slack) }
    ensures looks_at_most { (e : Place → Place) → HasPosition tables.now e position.now
        → meter.new ≤ meter.old + near_looks_of tables.now e path.old.limit slack }
    ensures rises { meter.old ≤ meter.new }
    ensures within { meter.new ≤ meter.old + looks }
    ensures spent { HasSpent is_cut_in (meter.old + looks) tables.now meter.new result }
{
    step_turns_in_order();
    positions_follow_cubes();
    let budget = UpTo {
        bound: meter.count().saturating_add(looks),
    };
    let root = Root { tables, position };
    root.deepen_all(slack, path, meter, sink, &budget)
}

/// Where each deepening begins: a position, with the tables that judge it.
#[derive(Drop)]
struct Root<'a, A: Allocator> {
    tables: &'a Tables<A>,
    position: &'a Position,
}

impl<A: Allocator> Root<'_, A> {
    /// Hands out the solutions of each length in turn, up to the last, and returns what they are.
    #[inline(always)]
    fn deepen_all<K: Sink, B: Budget<K::Fault>>(
        &self,
        slack: Limit,
        path: &mut TurnPath,
        meter: &mut Meter,
        sink: &mut K,
        budget: &B,
    ) -> Result<Outcome, B::Stop>
        requires position { IsPosition self.now.tables.now self.now.position.now }
        requires empty { path.old.turns ≡ [] }
        requires meter { meter.old ≤ 2 ^ 127 }
        requires budget { meter.old ≤ B.bound budget.now }
        ensures length { IfOk result (λ o. o.length
            ≡ least_length (positions self.now.tables.now) self.now.position.now path.old.limit) }
        ensures path { path.new ≡ path.old }
        ensures delivers { Delivers K.took K.refused path.old.limit
            (all_deepenings (positions self.now.tables.now) (distance_at self.now.tables.now)
            self.now.position.now path.old.limit slack)
            meter.old meter.new sink.old sink.new B.is_cut (B.bound budget.now) (λ o. o.solutions) result }
        ensures rises { meter.old ≤ meter.new }
        ensures within { meter.new ≤ B.bound budget.now }
        ensures spent { HasSpent B.is_cut (B.bound budget.now) self.now.tables.now meter.new result }
        ensures limit { path.old.limit ≤ 20 }
    {
        let limit = path.limit();
        let mut least = None;
        let mut solutions = 0;
        let mut length = 0;
        while length <= last_length(least, limit, slack) {
            let found = self.deepen(length, path, meter, sink, budget)?;
            least = least.or((found > 0).then_some(length));
            solutions += found;
            length += 1;
        }
        Ok(Outcome {
            length: least,
            solutions,
        })
    }

    /// Hands out the solutions of exactly so many turns, and returns how many they are.
    fn deepen<K: Sink, B: Budget<K::Fault>>(
        &self,
        length: u8,
        path: &mut TurnPath,
        meter: &mut Meter,
        sink: &mut K,
        budget: &B,
    ) -> Result<u128, B::Stop>
        requires position { IsPosition self.now.tables.now self.now.position.now }
        requires empty { path.old.turns ≡ [] }
        requires within { length ≤ path.old.limit }
        requires meter { meter.old
            + (deepening (positions self.now.tables.now) (distance_at self.now.tables.now)
            self.now.position.now length).looks < 2 ^ 128 }
        requires budget { meter.old ≤ B.bound budget.now }
        ensures path { path.new ≡ path.old }
        ensures delivers { Delivers K.took K.refused path.old.limit
            (deepening (positions self.now.tables.now) (distance_at self.now.tables.now) self.now.position.now length)
            meter.old meter.new sink.old sink.new B.is_cut (B.bound budget.now) (λ count. count) result }
        ensures within { meter.new ≤ B.bound budget.now }
        ensures spent { HasSpent B.is_cut (B.bound budget.now) self.now.tables.now meter.new result }
        ensures counted { IfOk result (λ count. meter.old + count ≤ meter.new) }
    {
        let mut descent = Descent {
            path,
            sink,
            count: 0,
        };
        let guide = Guide {
            tables: self.tables,
            budget,
        };
        let ended = descent.begin(guide, self.position, length, meter.take());
        descent.finish(ended, meter)
    }
}

/// The greatest length of a deepening, by the least length of a solution if one is known.
fn last_length(least: Option<u8>, limit: Limit, slack: Limit) -> u8
    ensures value { result ≡ last_length least limit slack }
    ensures in_range { result ≤ 20 }
{
    match least {
        Some(least) => limit.get().min(least.saturating_add(slack.get())),
        None => limit.get(),
    }
}
