//! The moves of a line.
ghost use Rattle.std.specs.Prelude.{◌≡◌, ◌<◌};
ghost use Rattle.niss_moves.specs.Effects.{inverse_token};
ghost use Rattle.niss_moves.specs.Indices.{token_index};
ghost use Rattle.niss_moves.specs.Line.{token_of};

use crate::turn::{Axis, Face, Power, Turn};

/// A slice: `M` turns as `L`, `E` as `D`, `S` as `F`.
#[derive(Clone, Copy, Debug, PartialEq, Eq)]
pub enum Slice {
    M,
    E,
    S,
}

/// One move of a line: a face turn, a wide turn of two layers, a slice turn or a rotation of the whole cube.
#[derive(Clone, Copy, Debug, PartialEq, Eq)]
pub enum Token {
    Face(Turn),
    Wide(Face, Power),
    Slice(Slice, Power),
    Rotation(Axis, Power),
}

/// The turn `U`, which fills the unused cells of a sequence of bounded length.
impl Default for Token {
    ghost use Rattle.std.specs.Prelude.{◌≡◌};
    ghost use Rattle.niss_moves.specs.declared.token.Token.TheVariants as token;
    ghost use Rattle.niss_moves.specs.Names.{U, Quarter};

    ghost is_default = { λ t. t ≡ token.Face (record { face = U; power = Quarter }) };

    fn default() -> Token {
        Token::Face(Turn::default())
    }
}

impl Token {
    /// Its number among the 54 moves, by which tables are looked up: face turns, wide turns, slices and rotations, those of
    /// one kind in the order of `Face`, `Slice` or `Axis`, each with its three powers.
    pub fn index(self) -> usize
        ensures value { result ≡ token_index self }
        ensures in_range { result < 54 }
    {
        // the arms differ in a number alone: a jump by the kind of a move is mispredicted
        let (first, letter, power) = match self {
            Token::Face(turn) => (0, turn.face as usize, turn.power),
            Token::Wide(face, power) => (6, face as usize, power),
            Token::Slice(slice, power) => (12, slice as usize, power),
            Token::Rotation(axis, power) => (15, axis as usize, power),
        };
        3 * (first + letter) + power as usize
    }

    /// The move that undoes this one.
    pub fn inverse(self) -> Token
        ensures { result ≡ inverse_token self }
    {
        match self {
            Token::Face(turn) => Token::Face(turn.inverse()),
            Token::Wide(face, power) => Token::Wide(face, power.inverse()),
            Token::Slice(slice, power) => Token::Slice(slice, power.inverse()),
            Token::Rotation(axis, power) => Token::Rotation(axis, power.inverse()),
        }
    }
}

/// A move without its suffix, as it is written: `R`, `Rw`, `r`, `M`, `x`.
#[derive(Clone, Copy)]
pub enum Base {
    Face(Face),
    Wide(Face),
    LowerCase(Face),
    Slice(Slice),
    Rotation(Axis),
}

impl Base {
    /// The move with a power.
    pub fn token(self, power: Power) -> Token
        ensures { result ≡ token_of self power }
    {
        match self {
            Base::Face(face) => Token::Face(Turn { face, power }),
            Base::Wide(face) | Base::LowerCase(face) => Token::Wide(face, power),
            Base::Slice(slice) => Token::Slice(slice, power),
            Base::Rotation(axis) => Token::Rotation(axis, power),
        }
    }
}
