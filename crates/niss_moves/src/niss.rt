//! The moves of a line, and its one sequence.
ghost use Rattle.std.specs.Prelude.{◌≡◌, ◌+◌, ◌≤◌, List, ◌++◌, length};
ghost use Rattle.niss_moves.specs.Places.{Place};
ghost use Rattle.niss_moves.specs.Effects.{effect, inverse, HasMeaning};
ghost use Rattle.niss_moves.specs.Line.{joined_moves};
ghost use Rattle.niss_moves.specs.declared.token.Token.{Token};

use crate::token::Token;
use arrayvec::ArrayVec;
use std::marker::Model;

/// The moves of a line: the normal ones and the bracketed ones, each in order, together at most 256. A contract sees
/// them as the record `Moves` of the two lists.
#[derive(Drop)]
pub struct Niss {
    normal: ArrayVec<Token, 256>,
    bracketed: ArrayVec<Token, 256>,
}

impl Model for Niss {
    ghost use Rattle.std.specs.Prelude.{◌+◌, ◌≤◌, length};
    ghost use Rattle.niss_moves.specs.Line.{Moves};

    ghost Value = { Moves };

    ghost view = { λ n. record { normal = n.normal.items; bracketed = n.bracketed.items } };

    ghost invariant = { λ n. length n.normal.items + length n.bracketed.items ≤ 256 };
}

impl Niss {
    ghost use Rattle.std.specs.Prelude.{◌≡◌, ◌+◌, ◌<◌, ◌≤◌, [], ◌∷◌, ◌++◌, length};

    /// The moves outside brackets.
    pub fn normal(&self) -> &[Token]
        ensures moves { result.now ≡ self.now.normal }
        ensures fits { length self.now.normal + length self.now.bracketed ≤ 256 }
    {
        &self.normal
    }

    /// The moves inside brackets, which are made on the inverse scramble.
    pub fn inverse(&self) -> &[Token]
        ensures moves { result.now ≡ self.now.bracketed }
        ensures fits { length self.now.normal + length self.now.bracketed ≤ 256 }
    {
        &self.bracketed
    }

    /// The line with no moves.
    pub(crate) fn new() -> Niss
        ensures { result ≡ record { normal = []; bracketed = [] } }
    {
        Niss {
            normal: ArrayVec::new(),
            bracketed: ArrayVec::new(),
        }
    }

    /// How many moves it has.
    pub(crate) fn len(&self) -> usize
        ensures { result ≡ length self.now.normal + length self.now.bracketed }
    {
        self.normal.len() + self.bracketed.len()
    }

    /// Appends a move outside brackets.
    pub(crate) fn push_normal(&mut self, token: Token)
        requires { length self.old.normal + length self.old.bracketed < 256 }
        ensures { self.new
            ≡ record { normal = self.old.normal ++ token ∷ []; bracketed = self.old.bracketed } }
    {
        self.normal.push(token);
    }

    /// Appends a move inside brackets.
    pub(crate) fn push_bracketed(&mut self, token: Token)
        requires { length self.old.normal + length self.old.bracketed < 256 }
        ensures { self.new
            ≡ record { normal = self.old.normal; bracketed = self.old.bracketed ++ token ∷ [] } }
    {
        self.bracketed.push(token);
    }

    /// Takes the moves away.
    pub(crate) fn clear(&mut self)
        ensures { self.new ≡ record { normal = []; bracketed = [] } }
    {
        self.normal.clear();
        self.bracketed.clear();
    }
}

/// The normal moves of a line, and then the inverse of its bracketed ones.
#[inline(never)]
#[tactic(auto, using(crate::proofs::Effects::joined, crate::proofs::Effects::meaning_of))]
pub fn unniss(niss: &Niss) -> ArrayVec<Token, 256>
    ensures moves { result.items ≡ joined_moves niss.now }
    ensures meaning { HasMeaning result.items niss.now.normal niss.now.bracketed }
{
    let mut moves = ArrayVec::new();
    push_all(&mut moves, niss.normal());
    push_inverse(&mut moves, niss.inverse());
    moves
}

/// The inverse of the list that `unniss` gives.
#[tactic(auto, using(crate::proofs::Effects::joined, crate::proofs::Effects::inverse_of))]
pub fn invert(niss: &Niss) -> ArrayVec<Token, 256>
    ensures moves { result.items ≡ inverse (joined_moves niss.now) }
    ensures effect { (s : List Token) (q : Place) →
        HasMeaning s niss.now.normal niss.now.bracketed → effect result.items (effect s q) ≡ q }
{
    let mut moves = ArrayVec::new();
    push_all(&mut moves, niss.inverse());
    push_inverse(&mut moves, niss.normal());
    moves
}

fn push_all(moves: &mut ArrayVec<Token, 256>, tokens: &[Token])
    requires { length moves.old.items + length tokens.now ≤ 256 }
    ensures { moves.new.items ≡ moves.old.items ++ tokens.now }
{
    moves.try_extend_from_slice(tokens).unwrap();
}

fn push_inverse(moves: &mut ArrayVec<Token, 256>, tokens: &[Token])
    requires { length moves.old.items + length tokens.now ≤ 256 }
    ensures { moves.new.items ≡ moves.old.items ++ inverse tokens.now }
{
    let mut rest = tokens;
    while let Some((last, front)) = rest.split_last() {
        moves.push(last.inverse());
        rest = front;
    }
}
