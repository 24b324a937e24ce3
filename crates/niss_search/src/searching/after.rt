//! The solutions that come after a sequence: so a caller goes through a long list in pieces, and keeps the last solution
//! of each alone.
ghost use Rattle.std.specs.Prelude.{◌≡◌, ◌+◌, ◌≤◌, ◌<◌, ◌^◌, [], length, IfOk, OnOk, IfErr, true, Contains};
ghost use Rattle.niss_moves.specs.Places.{Place};
ghost use Rattle.niss_cube.specs.Steps.{turns_of};
ghost use Rattle.niss_search.specs.Cubes.{IsPosition, HasPosition};
ghost use Rattle.niss_search.specs.After.{turn_place, sequences_after, deepening_looks_of};
ghost use Rattle.niss_search.specs.Delivery.{WentThrough, EndedIn, at_limit};
ghost use Rattle.niss_search.specs.Budgets.{is_cut_in, HasSpent};
ghost use Rattle.niss_search.specs.Deepening.{Delivers, EndsAt, MayMake, HasMade, turns};
ghost use Rattle.niss_search.specs.Deepening.{later_at, later_turn_at, goes_on_at, all_after};

use super::depth_first::{Descent, Guide};
use super::{Root, Sink};
use crate::budget::{Budget, Stopped, UpTo};
use crate::laws::positions_follow_cubes;
use crate::path::TurnPath;
use crate::tables::{Meter, Position, Tables};
use niss_moves::{Token, Turn, allowed};
use std::alloc::Allocator;

/// The place of a turn in turn order, from 0.
fn turn_place(turn: Turn) -> usize
    ensures { result ≡ turn_place turn }
{
    Token::Face(turn).index()
}

/// Hands each solution within the path's limit that comes after the turns of `after` to the sink, until the sink refuses
/// one: those as long as it that are later in turn order, and then the longer ones, as `search` hands them out. `after`
/// may be any sequence. A search that handed out up to one of its solutions so goes on after this one, with the
/// greatest length of that search as the path's limit. Returns how many these are.
///
/// It makes at most so many looks, as `search_within`. The position is one of the tables' step, the path is empty, and
/// the meter is at most at 2^127. The path is empty again at the end, of the same limit. The meter rises by one for each
/// look.
pub fn search_after<K: Sink>(
    tables: &Tables<impl Allocator>,
    position: &Position,
    after: &[Turn],
    path: &mut TurnPath,
    meter: &mut Meter,
    sink: &mut K,
    looks: u128,
) -> Result<u128, Stopped<K::Fault>>
    requires position { IsPosition tables.now position.now }
    requires empty { path.old.turns ≡ [] }
    requires meter { meter.old ≤ 2 ^ 127 }
    ensures solutions { (e : Place → Place) → HasPosition tables.now e position.now
        → IfOk result (λ count. count ≡ length (sequences_after tables.now e path.old.limit after.now)) }
    ensures path { path.new ≡ path.old }
    ensures ok { (e : Place → Place) → HasPosition tables.now e position.now
        → OnOk result (WentThrough (at_limit K.took path.old.limit)
        sink.old (sequences_after tables.now e path.old.limit after.now) sink.new) }
    ensures err { (e : Place → Place) → HasPosition tables.now e position.now
        → IfErr result (λ stop. EndedIn (at_limit K.took path.old.limit) (at_limit K.refused path.old.limit)
        (is_cut_in stop) sink.old (sequences_after tables.now e path.old.limit after.now) sink.new) }
    ensures cut { (e : Place → Place) → HasPosition tables.now e position.now
        → IfErr result (λ stop. is_cut_in stop ≡ true → looks < deepening_looks_of tables.now e path.old.limit) }
    ensures ends { IfErr result (λ stop. EndsAt (at_limit K.took path.old.limit) (at_limit K.refused path.old.limit)
        (is_cut_in stop) (all_after tables.now position.now path.old.limit after.now).events
        meter.old sink.old meter.new sink.new) }
    ensures looks { OnOk result (meter.new
        ≡ meter.old + (all_after tables.now position.now path.old.limit after.now).looks) }
    ensures looks_at_most { (e : Place → Place) → HasPosition tables.now e position.now
        → meter.new ≤ meter.old + deepening_looks_of tables.now e path.old.limit }
    ensures rises { meter.old ≤ meter.new }
    ensures within { meter.new ≤ meter.old + looks }
    ensures spent { HasSpent is_cut_in (meter.old + looks) tables.now meter.new result }
{
    positions_follow_cubes();
    let budget = UpTo {
        bound: meter.count().saturating_add(looks),
    };
    let root = Root { tables, position };
    root.deepen_all_after(after, path, meter, sink, &budget)
}

impl<A: Allocator> Root<'_, A> {
    /// Hands out what comes after a sequence: of its length, and then of each greater one up to the path's limit. Returns
    /// how many solutions these are.
    fn deepen_all_after<K: Sink, B: Budget<K::Fault>>(
        &self,
        after: &[Turn],
        path: &mut TurnPath,
        meter: &mut Meter,
        sink: &mut K,
        budget: &B,
    ) -> Result<u128, B::Stop>
        requires position { IsPosition self.now.tables.now self.now.position.now }
        requires empty { path.old.turns ≡ [] }
        requires meter { meter.old ≤ 2 ^ 127 }
        requires budget { meter.old ≤ B.bound budget.now }
        ensures path { path.new ≡ path.old }
        ensures delivers { Delivers K.took K.refused path.old.limit
            (all_after self.now.tables.now self.now.position.now path.old.limit after.now)
            meter.old meter.new sink.old sink.new B.is_cut (B.bound budget.now) (λ count. count) result }
        ensures rises { meter.old ≤ meter.new }
        ensures within { meter.new ≤ B.bound budget.now }
        ensures spent { HasSpent B.is_cut (B.bound budget.now) self.now.tables.now meter.new result }
        ensures limit { path.old.limit ≤ 20 }
    {
        let limit = path.limit().get();
        if after.len() > usize::from(limit) {
            return Ok(0);
        }
        let mut solutions = self.deepen_later(after, path, meter, sink, budget)?;
        let mut length = after.len() as u8 + 1;
        while length <= limit {
            solutions += self.deepen(length, path, meter, sink, budget)?;
            length += 1;
        }
        Ok(solutions)
    }

    /// Hands out the solutions that are as long as a sequence and later, and returns how many they are.
    fn deepen_later<K: Sink, B: Budget<K::Fault>>(
        &self,
        after: &[Turn],
        path: &mut TurnPath,
        meter: &mut Meter,
        sink: &mut K,
        budget: &B,
    ) -> Result<u128, B::Stop>
        requires position { IsPosition self.now.tables.now self.now.position.now }
        requires empty { path.old.turns ≡ [] }
        requires few { length after.now ≤ 20 }
        requires within { length after.now ≤ path.old.limit }
        requires meter { meter.old
            + (later_at self.now.tables.now self.now.position.now [] after.now).looks < 2 ^ 128 }
        requires budget { meter.old ≤ B.bound budget.now }
        ensures path { path.new ≡ path.old }
        ensures delivers { Delivers K.took K.refused path.old.limit
            (later_at self.now.tables.now self.now.position.now [] after.now)
            meter.old meter.new sink.old sink.new B.is_cut (B.bound budget.now) (λ count. count) result }
        ensures within { meter.new ≤ B.bound budget.now }
        ensures spent { HasSpent B.is_cut (B.bound budget.now) self.now.tables.now meter.new result }
        ensures counted { IfOk result (λ count. meter.old + count ≤ meter.new) }
    {
        let mut descent = Descent {
            path,
            sink,
            count: 0,
        };
        let guide = Guide {
            tables: self.tables,
            budget,
        };
        let ended = descent.pass(guide, self.position, after, meter.take());
        descent.finish(ended, meter)
    }
}

impl<K: Sink> Descent<'_, K> {
    /// Goes along the path and then the turns of `after`, as far as solutions may be there, and hands out those that are
    /// as long as both together and later.
    #[cycle(passing)]
    fn pass<A: Allocator, B: Budget<K::Fault>>(
        &mut self,
        guide: Guide<'_, Tables<A>, B>,
        position: &Position,
        after: &[Turn],
        meter: Meter,
    ) -> (Meter, Result<(), B::Stop>)
        requires position { IsPosition guide.tables.now position.now }
        requires few { length after.now ≤ 20 }
        requires asked { MayMake
            (later_at guide.tables.now position.now (turns self.old) after.now) (length after.now) 0
            (B.bound guide.budget.now) meter self.old }
        ensures { HasMade K.took K.refused B.is_cut (B.bound guide.entry.budget.now) guide.entry.tables.now
            (later_at guide.entry.tables.now position.now (turns self.old) after.now) 0
            meter result.0 self.old self.new result.1 }
    {
        if after.is_empty() {
            return (meter, Ok(()));
        }
        let mut meter = meter;
        if let Err(stop) = guide.budget.admit(&meter, 1) {
            return (meter, Err(stop));
        }
        if usize::from(guide.tables.look(position, &mut meter)) > after.len() {
            return (meter, Ok(()));
        }
        let turns = guide.tables.step().turns();
        for index in 0..turns.len() {
            let (counted, below) = self.pass_turn(guide, position, turns[index], after, meter);
            meter = counted;
            if let Err(stop) = below {
                return (meter, Err(stop));
            }
        }
        (meter, Ok(()))
    }

    /// Goes on by one turn if it may follow the path: if it is the first of `after`, after the others; if it is later,
    /// by as many turns as there are others.
    #[cycle(passing)]
    fn pass_turn<A: Allocator, B: Budget<K::Fault>>(
        &mut self,
        guide: Guide<'_, Tables<A>, B>,
        position: &Position,
        turn: Turn,
        after: &[Turn],
        meter: Meter,
    ) -> (Meter, Result<(), B::Stop>)
        requires position { IsPosition guide.tables.now position.now }
        requires of_step { Contains (turns_of guide.tables.now) turn }
        requires some { 0 < length after.now }
        requires few { length after.now ≤ 20 }
        requires asked { MayMake
            (later_turn_at guide.tables.now position.now (turns self.old) after.now turn) (length after.now) 0
            (B.bound guide.budget.now) meter self.old }
        ensures { HasMade K.took K.refused B.is_cut (B.bound guide.entry.budget.now) guide.entry.tables.now
            (later_turn_at guide.entry.tables.now position.now (turns self.old) after.now turn) 0
            meter result.0 self.old self.new result.1 }
    {
        let place = turn_place(turn);
        let first = turn_place(after[0]);
        if !allowed(self.path.last(), turn) || place < first {
            return (meter, Ok(()));
        }
        let position = guide.tables.after(position, turn);
        self.path.push(turn);
        let below = self.go_on(guide, &position, place == first, &after[1..], meter);
        self.path.pop();
        below
    }

    /// Goes on after the path and the turns of `rest` if the path is the same as far, or else below it by as many turns.
    #[cycle(passing)]
    fn go_on<A: Allocator, B: Budget<K::Fault>>(
        &mut self,
        guide: Guide<'_, Tables<A>, B>,
        position: &Position,
        same: bool,
        rest: &[Turn],
        meter: Meter,
    ) -> (Meter, Result<(), B::Stop>)
        requires position { IsPosition guide.tables.now position.now }
        requires few { length rest.now ≤ 20 }
        requires asked { MayMake
            (goes_on_at same guide.tables.now position.now (turns self.old) rest.now) (length rest.now) 0
            (B.bound guide.budget.now) meter self.old }
        ensures { HasMade K.took K.refused B.is_cut (B.bound guide.entry.budget.now) guide.entry.tables.now
            (goes_on_at same guide.entry.tables.now position.now (turns self.old) rest.now) 0
            meter result.0 self.old self.new result.1 }
    {
        if same {
            self.pass(guide, position, rest, meter)
        } else {
            self.begin(guide, position, rest.len() as u8, meter)
        }
    }
}
