//! The 24 rotations of the whole cube, and sequences as face turns and a rotation.
ghost use Rattle.std.specs.Prelude.{◌≡◌, ◌+◌, ◌*◌, ◌≤◌, [], ◌∷◌, ◌++◌, length, None};
ghost use Rattle.niss_moves.specs.Places.{Place};
ghost use Rattle.niss_moves.specs.Facelets.{centre};
ghost use Rattle.niss_moves.specs.Effects.{effect, effect_of_turns, moved_by, inverse_power};
ghost use Rattle.niss_moves.specs.Canonical.{opposite};
ghost use Rattle.niss_moves.specs.Rotations.{spelling, face_before, face_before_power, renamed_turn, about_vertical};
ghost use Rattle.niss_moves.specs.Rotations.{faces, expanded, FaceTurn, WholeRotation, IsRotationOf, IsNext};
ghost use Rattle.niss_moves.specs.Helpers.{rotation_by, turns_in, Takes};
ghost use Rattle.niss_moves.specs.declared.token.Token.TheVariants as token;
ghost use Rattle.niss_moves.specs.declared.turn.Face.TheVariants.{U};

use crate::token::{Slice, Token};
use crate::turn::Power::{Counter, Half, Quarter};
use crate::turn::{Axis, Face, Power, Turn};
use arrayvec::ArrayVec;
use std::marker::Model;

/// One of the 24 rotations of the whole cube (WCA Regulations, article 12). Each value is another rotation. It is spelled
/// by the rotation that brings `top` to the top (none for U, `x` for F, `x2` for D, `x'` for B, `z` for L, `z'` for R)
/// and then the one about the vertical axis (`y`, `y2`, `y'` or none).
#[derive(Clone, Copy, Debug, PartialEq, Eq)]
pub struct Rotation {
    /// The face that comes to the top.
    pub top: Face,
    /// The rotation about the vertical axis that follows.
    pub vertical: Option<Power>,
}

/// By the faces that come to the top and to the front: the turn about the vertical axis. A face that comes to the top, and
/// its opposite, can't come to the front.
static VERTICAL: [[Option<Power>; 6]; 6] = [
    [None, None, Some(Quarter), Some(Counter), None, Some(Half)],
    [None, None, Some(Quarter), Some(Counter), Some(Half), None],
    [Some(Counter), Some(Quarter), None, None, None, Some(Half)],
    [Some(Quarter), Some(Counter), None, None, None, Some(Half)],
    [Some(Half), None, Some(Quarter), Some(Counter), None, None],
    [None, Some(Half), Some(Quarter), Some(Counter), None, None],
];

/// The rotation that brings these faces to the top and to the front.
pub(crate) fn rotation_by(top: Face, front: Face) -> Rotation
    ensures { result ≡ rotation_by top front }
{
    Rotation {
        top,
        vertical: VERTICAL[top as usize][front as usize],
    }
}

impl Rotation {
    /// No rotation.
    pub const IDENTITY: Rotation = Rotation {
        top: Face::U,
        vertical: None,
    };

    /// The rotation about the vertical axis that follows, if there is one.
    pub(crate) fn about_vertical(self) -> Option<(Axis, Power)>
        ensures { result ≡ about_vertical self.vertical }
    {
        match self.vertical {
            None => None,
            Some(power) => Some((Axis::Ud, power)),
        }
    }

    /// The face that this rotation brings to the place of `face`: `x` brings F to the place of U.
    pub fn face_before(self, face: Face) -> Face
        ensures renames { result ≡ face_before self face }
        ensures brings { effect (spelling self) (centre result) ≡ centre face }
    {
        let beside = match self.vertical {
            None => face,
            Some(power) => Axis::Ud.face_before(power, face),
        };
        match self.top.to_top() {
            None => beside,
            Some((axis, power)) => axis.face_before(power, beside),
        }
    }

    /// The face that this rotation and then one about an axis bring to the place of `face`.
    fn face_before_both(self, axis: Axis, power: Power, face: Face) -> Face
        ensures { result ≡ face_before self (face_before_power axis power face) }
    {
        self.face_before(axis.face_before(power, face))
    }

    /// This rotation and then one about an axis, as one rotation: `z` and then `z` is `x2 y2`.
    #[tactic(auto, using(crate::proofs::Effects::by_next))]
    pub fn then(self, axis: Axis, power: Power) -> Rotation
        ensures is_next { IsNext self axis power result }
    {
        let top = self.face_before_both(axis, power, Face::U);
        let front = self.face_before_both(axis, power, Face::F);
        rotation_by(top, front)
    }
}

/// Face turns. A line has at most 256 moves, and a move at most two face turns.
pub type Faces = ArrayVec<Turn, 512>;

/// The rotation of the whole cube that turns as a face does.
fn rotation_with_face(face: Face, power: Power) -> (Axis, Power)
    ensures { expanded (token.Wide face power)
        ≡ FaceTurn (opposite face) power ∷ WholeRotation result.0 result.1 ∷ [] }
{
    match face {
        Face::U => (Axis::Ud, power),
        Face::D => (Axis::Ud, power.inverse()),
        Face::R => (Axis::Rl, power),
        Face::L => (Axis::Rl, power.inverse()),
        Face::F => (Axis::Fb, power),
        Face::B => (Axis::Fb, power.inverse()),
    }
}

/// A slice turn is a turn of this face, the inverse one of the opposite face, and the inverse rotation about this axis.
fn face_turn_of_slice(slice: Slice, power: Power) -> (Turn, Axis)
    ensures { expanded (token.Slice slice power)
        ≡ FaceTurn result.0.face result.0.power
        ∷ FaceTurn (opposite result.0.face) (inverse_power result.0.power)
        ∷ WholeRotation result.1 (inverse_power result.0.power) ∷ [] }
{
    let (face, power, axis) = match slice {
        Slice::M => (Face::R, power, Axis::Rl),
        Slice::E => (Face::U, power, Axis::Ud),
        Slice::S => (Face::F, power.inverse(), Axis::Fb),
    };
    (Turn { face, power }, axis)
}

/// The face turns of one move.
#[derive(Clone, Copy)]
pub enum MoveTurns {
    NoTurn,
    One(Turn),
    Two(Turn, Turn),
}

/// A rotation as the faces that it brings to the places of U, D, R, L, F and B, so that one look renames a turn.
/// A contract sees it as the rotation.
#[derive(Drop)]
pub struct RotationSoFar {
    before: [Face; 6],
}

impl Model for RotationSoFar {
    ghost use Rattle.std.specs.Prelude.{◌≡◌, map};
    ghost use Rattle.niss_moves.specs.Canonical.{face_order};
    ghost use Rattle.niss_moves.specs.Helpers.{rotation_of_faces};
    ghost use Rattle.niss_moves.specs.Rotations.{face_before};
    ghost use Rattle.niss_moves.specs.declared.rotation.Rotation.{Rotation};

    ghost Value = { Rotation };

    ghost view = { λ h. rotation_of_faces h.before };

    ghost invariant = { λ h. h.before ≡ map (face_before (rotation_of_faces h.before)) face_order };
}

impl RotationSoFar {
    /// No rotation.
    pub fn new() -> RotationSoFar
        ensures { result ≡ record { top = U; vertical = None } }
    {
        RotationSoFar {
            before: [Face::U, Face::D, Face::R, Face::L, Face::F, Face::B],
        }
    }

    /// The face that the rotation brings to the place of `face`.
    fn face_before(&self, face: Face) -> Face
        ensures { result ≡ face_before self.now face }
    {
        self.before[face as usize]
    }

    /// The turn that, made before the rotation, does what `turn` does after it: `x U` is `F x`.
    pub fn turn_before(&self, turn: Turn) -> Turn
        ensures { result ≡ renamed_turn (face_before self.now) turn }
    {
        Turn {
            face: self.face_before(turn.face),
            power: turn.power,
        }
    }

    /// The face that the rotation and then one about an axis bring to the place of `face`.
    fn face_before_both(&self, axis: Axis, power: Power, face: Face) -> Face
        ensures { result ≡ face_before self.now (face_before_power axis power face) }
    {
        self.face_before(axis.face_before(power, face))
    }

    /// Makes a rotation about an axis after this one.
    #[tactic(auto, using(crate::proofs::Effects::by_next))]
    pub fn rotate(&mut self, axis: Axis, power: Power)
        ensures { IsNext self.old axis power self.new }
    {
        self.before = [
            self.face_before_both(axis, power, Face::U),
            self.face_before_both(axis, power, Face::D),
            self.face_before_both(axis, power, Face::R),
            self.face_before_both(axis, power, Face::L),
            self.face_before_both(axis, power, Face::F),
            self.face_before_both(axis, power, Face::B),
        ];
    }

    /// The rotation.
    pub fn rotation(&self) -> Rotation
        ensures { result ≡ self.now }
    {
        rotation_by(self.before[Face::U as usize], self.before[Face::F as usize])
    }

    /// The face turns of a move after this rotation, and the rotation after both.
    #[tactic(auto, using(crate::proofs::Home::takes_face, crate::proofs::Home::takes_rotation))]
    pub(crate) fn take_move(&mut self, token: Token) -> MoveTurns
        ensures { Takes self.old token (turns_in result) self.new }
    {
        match token {
            Token::Face(turn) => MoveTurns::One(self.turn_before(turn)),
            Token::Wide(face, power) => {
                let other = face.opposite();
                let turn = self.turn_before(Turn { face: other, power });
                let (axis, power) = rotation_with_face(face, power);
                self.rotate(axis, power);
                MoveTurns::One(turn)
            }
            Token::Slice(slice, power) => {
                let (turn, axis) = face_turn_of_slice(slice, power);
                let (face, power) = (turn.face.opposite(), turn.power.inverse());
                let first = self.turn_before(turn);
                let second = self.turn_before(Turn { face, power });
                self.rotate(axis, power);
                MoveTurns::Two(first, second)
            }
            Token::Rotation(axis, power) => {
                self.rotate(axis, power);
                MoveTurns::NoTurn
            }
        }
    }
}

/// Appends the face turns of one move.
fn push_turns(turns: &mut Faces, more: MoveTurns)
    requires { length turns.old.items ≤ 510 }
    ensures len { length turns.new.items ≤ length turns.old.items + 2 }
    ensures items { turns.new.items ≡ turns.old.items ++ turns_in more }
{
    match more {
        MoveTurns::NoTurn => {}
        MoveTurns::One(turn) => turns.push(turn),
        MoveTurns::Two(first, second) => {
            turns.push(first);
            turns.push(second);
        }
    }
}

/// The face turns of a sequence, and the rotation that is left at its end: `Rw U` is `L F` and then `x`. Wide turns and
/// slices are written as face turns and rotations, and a rotation renames the face turns after it. The sequence has the
/// effect of the face turns and then the rotation. It has at most 256 moves.
#[tactic(auto, using(crate::proofs::Home::of_taking))]
pub fn to_faces(tokens: &[Token]) -> (Faces, Rotation)
    requires { length tokens.now ≤ 256 }
    ensures len { length result.0.items ≤ 2 * length tokens.now }
    ensures faces { result.0.items ≡ faces tokens.now }
    ensures rotation { IsRotationOf tokens.now result.1 }
    ensures effect { (q : Place) →
        effect tokens.now q ≡ effect (spelling result.1) (effect_of_turns result.0.items q) }
{
    let mut turns = Faces::new();
    let mut rotation = RotationSoFar::new();
    for token in tokens {
        push_turns(&mut turns, rotation.take_move(*token));
    }
    (turns, rotation.rotation())
}
