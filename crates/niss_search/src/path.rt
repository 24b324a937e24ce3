//! A list of turns within a limit.
use arrayvec::ArrayVec;
use niss_moves::Turn;
use std::marker::Model;

/// A greatest number of turns, from 0 to 20.
#[derive(Clone, Copy, Debug, PartialEq, Eq)]
pub struct Limit {
    turns: u8,
}

impl Model for Limit {
    ghost use Rattle.std.specs.Prelude.{ℕ, ◌≤◌};

    ghost Value = { ℕ };

    ghost view = { λ l. l.turns };

    ghost invariant = { λ l. l.turns ≤ 20 };

    ghost inverse = { λ n. record { turns = n } };
}

impl Limit {
    ghost use Rattle.std.specs.Prelude.{◌≡◌, ◌≤◌, ◌↔◌, IsSome, IfSome};

    /// The most turns that a limit allows. A pruning table has distances of at most so many.
    pub const MOST: u8 = 20;

    /// The limit of no turn.
    pub const ZERO: Limit = Limit { turns: 0 };

    /// The limit of so many turns, or `None` if they are more than 20.
    pub fn new(turns: u8) -> Option<Limit>
        ensures variant { IsSome result ↔ (turns ≤ 20) }
        ensures value { IfSome result (λ l. l ≡ turns) }
    {
        if turns <= Limit::MOST {
            Some(Limit { turns })
        } else {
            None
        }
    }

    /// The number of turns, at most 20.
    pub fn get(self) -> u8
        ensures value { result ≡ self }
        ensures in_range { result ≤ 20 }
    {
        self.turns
    }
}

/// The lengths of a search's solutions: at most `limit` turns, and at most `slack` more than the least.
#[derive(Clone, Copy, Debug, PartialEq, Eq)]
pub struct Lengths {
    pub limit: Limit,
    pub slack: Limit,
}

/// The most turns of a path.
const CAPACITY: usize = Limit::MOST as usize;

/// A list of turns that is never longer than its limit.
#[derive(Drop)]
pub struct TurnPath {
    limit: Limit,
    turns: ArrayVec<Turn, CAPACITY>,
}

impl Model for TurnPath {
    ghost use Rattle.std.specs.Prelude.{◌≤◌, length};
    ghost use Rattle.niss_search.specs.Delivery.{Path};

    ghost Value = { Path };

    ghost view = { λ p. record { limit = p.limit; turns = p.turns.items } };

    ghost invariant = { λ p. length p.turns.items ≤ p.limit };
}

impl TurnPath {
    ghost use Rattle.std.specs.Prelude.{◌≡◌, ◌≤◌, ◌<◌, ◌++◌, ◌∷◌, [], length, IfSome, IfNone};
    ghost use Rattle.niss_moves.specs.Canonical.{last_turn};

    /// The empty path with a limit.
    pub fn new(limit: Limit) -> TurnPath
        ensures { result ≡ record { limit = limit; turns = [] } }
    {
        TurnPath {
            limit,
            turns: ArrayVec::new(),
        }
    }

    /// The greatest number of its turns.
    pub fn limit(&self) -> Limit
        ensures value { result ≡ self.now.limit }
        ensures within { length self.now.turns ≤ result }
        ensures in_range { result ≤ 20 }
    {
        let limit = self.limit;
        // that a limit is at most 20 is known to a proof by this call alone
        let _in_range = limit.get();
        limit
    }

    /// Its turns, from the first.
    pub fn turns(&self) -> &[Turn]
        ensures value { result.now ≡ self.now.turns }
        ensures few { length result.now ≤ 20 }
    {
        self.turns.as_slice()
    }

    /// The last turn, if there is one.
    pub(crate) fn last(&self) -> Option<Turn>
        ensures { result ≡ last_turn self.now.turns }
    {
        self.turns().last().copied()
    }

    /// Adds a last turn to a path that has fewer turns than its limit.
    pub fn push(&mut self, turn: Turn)
        requires { length self.old.turns < self.old.limit }
        ensures { self.new ≡ record self.old { turns = self.old.turns ++ turn ∷ [] } }
    {
        self.turns.push(turn);
    }

    /// Takes the last turn away, if there is one.
    pub fn pop(&mut self) -> Option<Turn>
        ensures limit { self.new.limit ≡ self.old.limit }
        ensures some { IfSome result (λ t. self.old.turns ≡ self.new.turns ++ t ∷ []) }
        ensures none { IfNone result ((self.old.turns ≡ []) × (self.new.turns ≡ [])) }
    {
        self.turns.pop()
    }
}
