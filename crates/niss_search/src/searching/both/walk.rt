//! The walk through the shorter sides of pairs, the heads, with a search of the other side after each for tails.
ghost use Rattle.std.specs.Prelude.{◌≡◌, ◌+◌, ◌<◌, ◌≤◌, ◌==◌, ◌&&◌, ◌||◌, ◌++◌, ◌∷◌, false, [], length, IsTrue};
ghost use Rattle.niss_moves.specs.Effects.{turned};
ghost use Rattle.niss_cube.specs.Map.{map_of};
ghost use Rattle.niss_cube.specs.Steps.{may_start};
ghost use Rattle.niss_search.specs.BothSides.{skips};
ghost use Rattle.niss_search.specs.BothWalk.{HasSearched, MaySearch, StandsAt, IsTailAt};
ghost use Rattle.niss_search.specs.BothWalk.{done_after, done_below, ends_here, once_looked};
ghost use Rattle.niss_search.specs.Followers.{IsFollower};
ghost use Rattle.niss_search.specs.Positions.{distance_at};

use super::joined::Joined;
use super::splitting::Side;
use super::{Ends, PairSink};
use crate::budget::{Stopped, UpTo};
use crate::laws::tails_follow_heads;
use crate::path::{Limit, TurnPath};
use crate::searching::depth_first::{Guide, descend_from};
use crate::tables::{Follower, Kind, Meter, SearchTables, StateSpace, Tables};
use niss_cube::Cube;
use niss_cube::laws::{inverse_has_steps, start_is_kept, steps_see_places};
use niss_moves::{Face, Power, Turn};
use std::alloc::Allocator;

/// A turn that a head goes on by, and how many come after it.
#[derive(Clone, Copy)]
struct Next {
    follower: Follower,
    left: u8,
}

impl Next {
    /// Whether no turn comes after it, and nothing is searched after it: it is left out, or idle.
    fn is_end(self, ends: Ends) -> bool
        ensures { result ≡ (self.left == 0 && (skips ends self.follower.turn || self.follower.is_idle)) }
    {
        self.left == 0 && (ends.skips(self.follower.turn) || self.follower.is_idle)
    }
}

/// The last turn of a head, and the cube of its side before it. The turn is never made: the other side's state is read from
/// the cube.
#[derive(Clone, Copy)]
struct LastTurn<'a> {
    cube: &'a Cube,
    turn: Turn,
}

/// A walk through heads on a side of a cube, with a search for tails of so many turns after each.
///
/// It turns the cube of the head's own side. The other side's is the inverse of that, which is never made: its position is
/// read from the cube.
#[derive(Drop)]
pub(super) struct Walk<'a, A: Allocator> {
    pub tables: &'a Tables<A>,
    pub cube: &'a Cube,
    pub budget: &'a UpTo,
    pub ends: Ends,
    pub side: Side,
    pub tail: u8,
}

impl<A: Allocator> Walk<'_, A> {
    /// Goes through all heads of so many turns, hands out the pairs, and returns how many they are.
    pub fn go<K: PairSink>(
        &self,
        head: u8,
        meter: &mut Meter,
        sink: &mut K,
    ) -> Result<u128, Stopped<K::Fault>>
        requires starts { IsTrue (may_start self.now.tables.now (map_of self.now.cube.now)) }
        requires few { head + self.now.tail ≤ 20 }
        requires asked { MaySearch self.now.budget.now.bound meter.old }
        ensures { HasSearched K.took K.refused self.now.budget.now.bound self.now.tables.now (λ count. count)
            (done_below self.now [] head) 0
            meter.old meter.new sink.old sink.new result }
    {
        tails_follow_heads();
        steps_see_places();
        let mut here = self.start();
        let mut path = TurnPath::new(Limit::new(head).unwrap());
        if head == 0 {
            // a half turn is its own inverse: made now, it is the one that is still to be made
            let turn = Turn {
                face: Face::U,
                power: Power::Half,
            };
            here.turn(turn);
            let last = LastTurn { cube: &here, turn };
            return self.search_other(last, &path, meter, sink);
        }
        self.go_on(&here, head, &mut path, meter, sink)
    }

    /// The cube of the head's side before any head.
    fn start(&self) -> Cube
        requires { IsTrue (may_start self.now.tables.now (map_of self.now.cube.now)) }
        ensures { StandsAt self.now [] (map_of result) }
    {
        inverse_has_steps();
        match self.side {
            Side::Normal => *self.cube,
            Side::Inverse => self.cube.inverse(),
        }
    }

    /// Goes on below a head with `left` turns more, one at least. `here` is the cube of the head's side after it.
    #[cycle(heads)]
    fn go_on<K: PairSink>(
        &self,
        here: &Cube,
        left: u8,
        head: &mut TurnPath,
        meter: &mut Meter,
        sink: &mut K,
    ) -> Result<u128, Stopped<K::Fault>>
        requires some { 0 < left }
        requires here { StandsAt self.now head.old.turns (map_of here.now) }
        requires few { self.now.tail ≤ 20 }
        requires room { length head.old.turns + left ≤ head.old.limit }
        requires asked { MaySearch self.now.budget.now.bound meter.old }
        ensures head { head.new ≡ head.old }
        ensures searched { HasSearched K.took K.refused self.now.budget.now.bound self.now.tables.now (λ count. count)
            (done_below self.now head.old.turns left) 0
            meter.old meter.new sink.old sink.new result }
    {
        let mut count = 0;
        for follower in self.tables.turns_after(head.last()) {
            let next = Next {
                follower: *follower,
                left: left - 1,
            };
            count += self.follow(here, next, head, meter, sink)?;
        }
        Ok(count)
    }

    /// Goes on below a head and the next turn. If none come after that, it does nothing after an idle one: a pair that
    /// reaches the step by it reaches it before.
    #[cycle(heads)]
    fn follow<K: PairSink>(
        &self,
        here: &Cube,
        next: Next,
        head: &mut TurnPath,
        meter: &mut Meter,
        sink: &mut K,
    ) -> Result<u128, Stopped<K::Fault>>
        requires follower { IsFollower self.now.tables.now next.follower }
        requires here { StandsAt self.now head.old.turns (map_of here.now) }
        requires few { self.now.tail ≤ 20 }
        requires room { length head.old.turns + 1 + next.left ≤ head.old.limit }
        requires asked { MaySearch self.now.budget.now.bound meter.old }
        ensures head { head.new ≡ head.old }
        ensures searched { HasSearched K.took K.refused self.now.budget.now.bound self.now.tables.now (λ count. count)
            (done_below self.now (head.old.turns ++ next.follower.turn ∷ []) next.left) 0
            meter.old meter.new sink.old sink.new result }
    {
        if next.is_end(self.ends) {
            return Ok(0);
        }
        start_is_kept();
        tails_follow_heads();
        head.push(next.follower.turn);
        let found = self.go_below(here, next, head, meter, sink);
        head.pop();
        found
    }

    /// Goes on below a head by whose last turn the cube is still to be turned: it isn't if no turn comes after that.
    #[cycle(heads)]
    #[inline(always)]
    fn go_below<K: PairSink>(
        &self,
        here: &Cube,
        next: Next,
        head: &mut TurnPath,
        meter: &mut Meter,
        sink: &mut K,
    ) -> Result<u128, Stopped<K::Fault>>
        requires here { StandsAt self.now head.old.turns (λ q. turned next.follower.turn (map_of here.now q)) }
        requires few { self.now.tail ≤ 20 }
        requires room { length head.old.turns + next.left ≤ head.old.limit }
        requires end { next.left ≡ 0 → ends_here self.now.ends self.now.tables.now head.old.turns ≡ false }
        requires asked { MaySearch self.now.budget.now.bound meter.old }
        ensures head { head.new ≡ head.old }
        ensures searched { HasSearched K.took K.refused self.now.budget.now.bound self.now.tables.now (λ count. count)
            (done_below self.now head.old.turns next.left) 0
            meter.old meter.new sink.old sink.new result }
    {
        let turn = next.follower.turn;
        if next.left == 0 {
            let last = LastTurn { cube: here, turn };
            return self.search_other(last, head, meter, sink);
        }
        steps_see_places();
        tails_follow_heads();
        let mut after = *here;
        after.turn(turn);
        self.go_on(&after, next.left, head, meter, sink)
    }

    /// Searches the other side for tails after a head.
    fn search_other<K: PairSink>(
        &self,
        last: LastTurn<'_>,
        head: &TurnPath,
        meter: &mut Meter,
        sink: &mut K,
    ) -> Result<u128, Stopped<K::Fault>>
        requires last { StandsAt self.now head.now.turns (λ q. turned last.turn (map_of last.cube.now q)) }
        requires few { self.now.tail ≤ 20 }
        requires end { ends_here self.now.ends self.now.tables.now head.now.turns ≡ false }
        requires asked { MaySearch self.now.budget.now.bound meter.old }
        ensures { HasSearched K.took K.refused self.now.budget.now.bound self.now.tables.now (λ count. count)
            (done_after self.now head.now.turns) 0
            meter.old meter.new sink.old sink.new result }
    {
        match self.tables.kind() {
            Kind::Edges(tables) => self.search_by_kind(tables, last, head, meter, sink),
            Kind::AnyEdges(tables) => self.search_by_kind(tables, last, head, meter, sink),
            Kind::Domino(tables) => self.search_by_kind(tables, last, head, meter, sink),
            Kind::EitherDomino(tables) => self.search_by_kind(tables, last, head, meter, sink),
        }
    }

    /// The same with tables of one kind, exactly as deep as tails are long. Most states are too far, which the first look
    /// shows: nothing is set up before it.
    #[inline(always)]
    fn search_by_kind<S: StateSpace, K: PairSink>(
        &self,
        tables: &SearchTables<S>,
        last: LastTurn<'_>,
        head: &TurnPath,
        meter: &mut Meter,
        sink: &mut K,
    ) -> Result<u128, Stopped<K::Fault>>
        requires of_step { tables.now.step ≡ self.now.tables.now }
        requires last { StandsAt self.now head.now.turns (λ q. turned last.turn (map_of last.cube.now q)) }
        requires few { self.now.tail ≤ 20 }
        requires end { ends_here self.now.ends self.now.tables.now head.now.turns ≡ false }
        requires asked { MaySearch self.now.budget.now.bound meter.old }
        ensures { HasSearched K.took K.refused self.now.budget.now.bound self.now.tables.now (λ count. count)
            (done_after self.now head.now.turns) 0
            meter.old meter.new sink.old sink.new result }
    {
        tails_follow_heads();
        let state = tables.inverse_after(last.cube, last.turn);
        if meter.count() >= self.budget.bound {
            return Err(Stopped::Cut);
        }
        if tables.look(state, meter) > self.tail {
            return Ok(0);
        }
        self.search_near(tables, state, head, meter, sink)
    }

    /// The same once the state was looked at and is near enough: hands on the pairs.
    #[inline(never)]
    fn search_near<S: StateSpace, K: PairSink>(
        &self,
        tables: &SearchTables<S>,
        state: S::State,
        head: &TurnPath,
        meter: &mut Meter,
        sink: &mut K,
    ) -> Result<u128, Stopped<K::Fault>>
        requires of_step { tables.now.step ≡ self.now.tables.now }
        requires tail { IsTailAt self.now.tables.now self.now.side (map_of self.now.cube.now)
            head.now.turns (S.seen tables.now.space state) }
        requires near { distance_at self.now.tables.now (S.seen tables.now.space state) ≤ self.now.tail }
        requires few { self.now.tail ≤ 20 }
        requires end { ends_here self.now.ends self.now.tables.now head.now.turns ≡ false }
        requires looked { 0 < meter.old }
        requires asked { MaySearch self.now.budget.now.bound meter.old }
        ensures { HasSearched K.took K.refused self.now.budget.now.bound self.now.tables.now (λ count. count)
            (once_looked (done_after self.now head.now.turns)) 1
            meter.old meter.new sink.old sink.new result }
    {
        tails_follow_heads();
        let mut path = TurnPath::new(Limit::new(self.tail).unwrap());
        let mut joined = Joined {
            step: self.tables.step(),
            cube: self.cube,
            ends: self.ends,
            head,
            side: self.side,
            sink,
            count: 0,
        };
        let guide = Guide {
            tables,
            budget: self.budget,
        };
        descend_from(guide, state, &mut path, meter, &mut joined)?;
        Ok(joined.count)
    }
}
