//! One length: depth first from a position, with a look before each turn that is put on the path.
ghost use Rattle.std.specs.Prelude.{◌≡◌, ◌+◌, ◌≤◌, ◌<◌, ◌^◌, ◌∷◌, length, [], ◌++◌, All, IfSome, IfNone, IfOk};
ghost use Rattle.niss_search.specs.Cubes.{IsPosition};
ghost use Rattle.niss_search.specs.Positions.{distance_at};
ghost use Rattle.niss_search.specs.Budgets.{HasSpent};
ghost use Rattle.niss_search.specs.Deepening.{below_at, beyond_at, MayMake, HasMade, Delivers, found_by, turns};
ghost use Rattle.niss_search.specs.Followers.{IsFollower, IsNextNear, AreFar};

use super::Sink;
use crate::budget::Budget;
use crate::path::TurnPath;
use crate::tables::{Follower, Kind, Meter, Position, SearchTables, StateSpace, Tables};
use niss_moves::Turn;
use std::alloc::{AllocError, Allocator};

/// What guides a descent: the tables that say how far states are from the step, and how often it may look. It goes by
/// value, as the meter does: where the tables stand is then known in a register.
pub(super) struct Guide<'a, T, B> {
    pub tables: &'a T,
    pub budget: &'a B,
}

// by hand: a derived one would ask that the tables can be copied
impl<T, B> Clone for Guide<'_, T, B> {
    ghost is_clone = { λ x y. y ≡ x };

    ghost is_infallible = { λ _. Unit {0} };

    fn clone(&self) -> Result<Self, AllocError> {
        Ok(*self)
    }
}

impl<T, B> Copy for Guide<'_, T, B> {}

/// A descent: the path that it goes along, the sink that it hands what it finds, and how much that is.
///
/// The meter isn't in it, but goes in and comes back by value: through a borrow each look would write it to memory.
#[derive(Drop)]
pub(super) struct Descent<'a, K> {
    pub path: &'a mut TurnPath,
    pub sink: &'a mut K,
    pub count: u128,
}

impl<K: Sink> Descent<'_, K> {
    /// Puts the meter back at the end, and returns how much was found.
    #[inline(always)]
    pub fn finish<E>(&self, ended: (Meter, Result<(), E>), meter: &mut Meter) -> Result<u128, E>
        ensures meter { meter.new ≡ ended.0 }
        ensures found { result ≡ found_by self.now.count ended.1 }
    {
        let (after, said) = ended;
        *meter = after;
        said?;
        Ok(self.count)
    }

    /// Looks at the position of the path and, if the look allows, goes on below it with `left` turns more. Hands
    /// what it finds to the sink, and counts it.
    pub fn begin<A: Allocator, B: Budget<K::Fault>>(
        &mut self,
        guide: Guide<'_, Tables<A>, B>,
        position: &Position,
        left: u8,
        meter: Meter,
    ) -> (Meter, Result<(), B::Stop>)
        requires position { IsPosition guide.tables.now position.now }
        requires asked { MayMake (below_at guide.tables.now position.now (turns self.old) left) left 0
            (B.bound guide.budget.now) meter self.old }
        ensures { HasMade K.took K.refused B.is_cut (B.bound guide.entry.budget.now) guide.entry.tables.now
            (below_at guide.entry.tables.now position.now (turns self.old) left) 0
            meter result.0 self.old self.new result.1 }
    {
        let budget = guide.budget;
        match guide.tables.kind() {
            Kind::Edges(tables) => self.begin_with(Guide { tables, budget }, position, left, meter),
            Kind::AnyEdges(tables) => self.begin_with(
                Guide { tables, budget },
                position,
                left,
                meter,
            ),
            Kind::Domino(tables) => self.begin_with(
                Guide { tables, budget },
                position,
                left,
                meter,
            ),
            Kind::EitherDomino(tables) => self.begin_with(
                Guide { tables, budget },
                position,
                left,
                meter,
            ),
        }
    }

    /// `begin` with tables of one kind.
    fn begin_with<S: StateSpace, B: Budget<K::Fault>>(
        &mut self,
        guide: Guide<'_, SearchTables<S>, B>,
        position: &Position,
        left: u8,
        meter: Meter,
    ) -> (Meter, Result<(), B::Stop>)
        requires position { IsPosition guide.tables.now.step position.now }
        requires asked { MayMake (below_at guide.tables.now.step position.now (turns self.old) left) left 0
            (B.bound guide.budget.now) meter self.old }
        ensures { HasMade K.took K.refused B.is_cut (B.bound guide.entry.budget.now) guide.entry.tables.now.step
            (below_at guide.entry.tables.now.step position.now (turns self.old) left) 0
            meter result.0 self.old self.new result.1 }
    {
        let mut meter = meter;
        let state = guide.tables.state(position);
        if let Err(stop) = guide.budget.admit(&meter, 1) {
            return (meter, Err(stop));
        }
        if guide.tables.look(state, &mut meter) > left {
            return (meter, Ok(()));
        }
        self.extend(guide, state, left, meter)
    }

    /// Goes on below the path with `left` turns more, once its state was looked at. So a turn is put on the path only
    /// if the look after it allows. It is inlined: where a path ends, no call is made.
    #[cycle(descent)]
    #[inline(always)]
    fn extend<S: StateSpace, B: Budget<K::Fault>>(
        &mut self,
        guide: Guide<'_, SearchTables<S>, B>,
        state: S::State,
        left: u8,
        meter: Meter,
    ) -> (Meter, Result<(), B::Stop>)
        requires near { distance_at guide.tables.now.step (S.seen guide.tables.now.space state) ≤ left }
        requires asked { MayMake
            (beyond_at guide.tables.now.step (S.seen guide.tables.now.space state) (turns self.old) left) left 1
            (B.bound guide.budget.now) meter self.old }
        ensures { HasMade K.took K.refused B.is_cut (B.bound guide.entry.budget.now) guide.entry.tables.now.step
            (beyond_at guide.entry.tables.now.step (S.seen guide.entry.tables.now.space state) (turns self.old) left) 1
            meter result.0 self.old self.new result.1 }
    {
        if left == 0 {
            // counted first, since nothing follows on the hand-out: of the count nothing is said if the sink refuses
            self.count += 1;
            return (meter, B::taken(self.sink.take(self.path)));
        }
        self.try_turns(guide, state, left, meter)
    }

    /// Tries the turns that may follow the path, with `left` turns more.
    #[cycle(descent)]
    fn try_turns<S: StateSpace, B: Budget<K::Fault>>(
        &mut self,
        guide: Guide<'_, SearchTables<S>, B>,
        state: S::State,
        left: u8,
        meter: Meter,
    ) -> (Meter, Result<(), B::Stop>)
        requires some { 0 < left }
        requires near { distance_at guide.tables.now.step (S.seen guide.tables.now.space state) ≤ left }
        requires asked { MayMake
            (beyond_at guide.tables.now.step (S.seen guide.tables.now.space state) (turns self.old) left) left 1
            (B.bound guide.budget.now) meter self.old }
        ensures { HasMade K.took K.refused B.is_cut (B.bound guide.entry.budget.now) guide.entry.tables.now.step
            (beyond_at guide.entry.tables.now.step (S.seen guide.entry.tables.now.space state) (turns self.old) left) 1
            meter result.0 self.old self.new result.1 }
    {
        let mut meter = meter;
        let tables = guide.tables;
        let mut rest = tables.turns_after(self.path.last());
        loop {
            if let Err(stop) = guide.budget.admit(&meter, rest.len()) {
                return (meter, Err(stop));
            }
            let Some(index) = next_near(tables, state, rest, left - 1, &mut meter) else {
                return (meter, Ok(()));
            };
            let next = rest[index];
            // the state once more: kept from the look, it would be written to memory at each look
            let after = tables.after(state, next);
            let (counted, below) = self.follow(guide, after, next.turn, left - 1, meter);
            meter = counted;
            if let Err(stop) = below {
                return (meter, Err(stop));
            }
            rest = &rest[index + 1..];
        }
    }

    /// Goes on below the path and a turn with `left` turns more, once the state after the turn was looked at.
    #[cycle(descent)]
    fn follow<S: StateSpace, B: Budget<K::Fault>>(
        &mut self,
        guide: Guide<'_, SearchTables<S>, B>,
        state: S::State,
        turn: Turn,
        left: u8,
        meter: Meter,
    ) -> (Meter, Result<(), B::Stop>)
        requires near { distance_at guide.tables.now.step (S.seen guide.tables.now.space state) ≤ left }
        requires asked { MayMake
            (beyond_at guide.tables.now.step (S.seen guide.tables.now.space state) (turns self.old ++ turn ∷ []) left)
            (1 + left) 1 (B.bound guide.budget.now) meter self.old }
        ensures { HasMade K.took K.refused B.is_cut (B.bound guide.entry.budget.now) guide.entry.tables.now.step
            (beyond_at guide.entry.tables.now.step (S.seen guide.entry.tables.now.space state) (turns self.old ++ turn ∷ []) left)
            1 meter result.0 self.old self.new result.1 }
    {
        self.path.push(turn);
        let below = self.extend(guide, state, left, meter);
        self.path.pop();
        below
    }
}

/// Goes on from a state that was looked at, and is near enough, exactly as deep as the path may get long. Hands what it
/// finds to the sink, and returns how much that is.
pub(super) fn descend_from<S: StateSpace, K: Sink, B: Budget<K::Fault>>(
    guide: Guide<'_, SearchTables<S>, B>,
    state: S::State,
    path: &mut TurnPath,
    meter: &mut Meter,
    sink: &mut K,
) -> Result<u128, B::Stop>
    requires near { distance_at guide.tables.now.step (S.seen guide.tables.now.space state) ≤ path.old.limit }
    requires empty { path.old.turns ≡ [] }
    requires looked { 0 < meter.old }
    requires meter { meter.old
        + (beyond_at guide.tables.now.step (S.seen guide.tables.now.space state) [] path.old.limit).looks < 2 ^ 128 }
    requires budget { meter.old ≤ B.bound guide.budget.now }
    ensures delivers { Delivers K.took K.refused path.old.limit
        (beyond_at guide.entry.tables.now.step (S.seen guide.entry.tables.now.space state) [] path.old.limit)
        meter.old meter.new sink.old sink.new B.is_cut (B.bound guide.entry.budget.now) (λ count. count) result }
    ensures within { meter.new ≤ B.bound guide.entry.budget.now }
    ensures spent { HasSpent B.is_cut (B.bound guide.entry.budget.now) guide.entry.tables.now.step meter.new result }
    ensures counted { IfOk result (λ count. meter.old + count ≤ meter.new + 1) }
{
    let length = path.limit().get();
    let mut descent = Descent {
        path,
        sink,
        count: 0,
    };
    let ended = descent.extend(guide, state, length, meter.take());
    descent.finish(ended, meter)
}

/// Looks at the state after each turn, up to the first after which the look allows `left` turns more; returns its
/// index. Most looks end here: all that the loop calls is inlined, so that where the tables stand is read once for all
/// of its looks.
#[inline(always)]
fn next_near<S: StateSpace>(
    tables: &SearchTables<S>,
    state: S::State,
    followers: &[Follower],
    left: u8,
    meter: &mut Meter,
) -> Option<usize>
    requires of_step { All (IsFollower tables.now.step) followers.now }
    requires meter { meter.old + length followers.now < 2 ^ 128 }
    ensures near { IfSome result (IsNextNear tables.now.step (S.seen tables.now.space state) left
        followers.now meter.old meter.new) }
    ensures far { IfNone result (AreFar tables.now.step (S.seen tables.now.space state) left
        followers.now meter.old meter.new) }
{
    for index in 0..followers.len() {
        if tables.look(tables.after(state, followers[index]), meter) <= left {
            return Some(index);
        }
    }
    None
}
