//! Where a search begins: the cube after a scramble and the moves so far, and how those name the faces.
ghost use Rattle.niss_moves.specs.Effects.{effect_of_turns};
ghost use Rattle.niss_moves.specs.Places.{Place, SameMap};
ghost use Rattle.niss_cube.specs.Map.{map_of};
ghost use Rattle.std.specs.Prelude.{◌≡◌, ◌<◌, ◌≤◌, ◌++◌, List, get_or, length, map, reverse, IfSome, MatchOption};
ghost use Rattle.niss_moves.specs.Effects.{effect, inverse, inverse_turn};
ghost use Rattle.niss_moves.specs.Facelets.{centre};
ghost use Rattle.niss_moves.specs.Indices.{face_index};
ghost use Rattle.niss_moves.specs.Rotations.{IsRotationOf, faces, spelling};
ghost use Rattle.niss_moves.specs.declared.token.Token.{Token};
ghost use Rattle.niss_ways.specs.Starts.{turns_after};

use crate::counting::{cleaned, inverse_of};
use crate::way::Names;
use arrayvec::ArrayVec;
use niss_cube::Cube;
use niss_moves::{Axis, Face, Faces, Niss, Rotation, Token, Turn, to_faces, unniss};
use std::marker::Model;

/// The most face turns of the moves so far on a side.
const MOST_MADE: usize = 200;

/// The most turns that are read of a line.
const MOST_READ: usize = 256;

/// Where one stands: a cube, and what the faces are called for whoever holds it.
#[derive(Drop)]
pub struct Start {
    cube: Cube,
    line: Faces,
    normal: Faces,
    inverse: Faces,
    names: Names,
}

impl Model for Start {
    ghost use Rattle.std.specs.Prelude.{◌≡◌, ◌≤◌, length};
    ghost use Rattle.niss_moves.specs.Effects.{effect_of_turns};
    ghost use Rattle.niss_moves.specs.Places.{SameMap};
    ghost use Rattle.niss_cube.specs.Map.{map_of};
    ghost use Rattle.niss_ways.specs.Truth.{Origin};

    ghost Value = { Origin };

    ghost view = { λ s. record {
      cube = s.cube;
      line = s.line.items;
      normal = s.normal.items;
      inverse = s.inverse.items;
      names = s.names;
    } };

    ghost invariant = { λ s. SameMap (map_of s.cube) (effect_of_turns s.line.items)
        × (length s.normal.items ≤ 200) × (length s.inverse.items ≤ 200) × (length s.names ≡ 6) };
}

/// A rotation and then another.
fn then(rotation: Rotation, next: Rotation) -> Rotation
    ensures { (q : Place) → effect (spelling result) q ≡ effect (spelling next) (effect (spelling rotation) q) }
{
    let first = match next.top.to_top() {
        Some((axis, power)) => rotation.then(axis, power),
        None => rotation,
    };
    match next.vertical {
        Some(power) => first.then(Axis::Ud, power),
        None => first,
    }
}

/// The face turns of moves after a rotation, by the names of the centres, cleaned, and the rotation after all; none if
/// they are too many.
fn made_after(rotation: Rotation, moves: &[Token]) -> Option<(Faces, Rotation)>
    requires { length moves.now ≤ 256 }
    ensures few { MatchOption result (200 < length (faces moves.now))
        (λ made. (length (faces moves.now) ≤ 200) × (length made.0.items ≤ 200)) }
    ensures turns { IfSome result (λ made. made.0.items ≡ turns_after rotation moves.now) }
    ensures held { IfSome result (λ made.
        (s : List Token) → IsRotationOf s rotation → IsRotationOf (s ++ moves.now) made.1) }
{
    let (turns, left) = to_faces(moves);
    if turns.len() > MOST_MADE {
        return None;
    }
    let mut renamed = Faces::new();
    for turn in turns.as_slice() {
        renamed.push(Turn {
            face: rotation.face_before(turn.face),
            power: turn.power,
        });
    }
    let made = cleaned(renamed.as_slice(), &[], &[]);
    Some((made, then(rotation, left)))
}

/// Moves that undo those in brackets.
fn undone(line: &Niss) -> ArrayVec<Token, 256>
    ensures { result.items ≡ inverse line.now.bracketed }
{
    let mut moves = ArrayVec::new();
    let mut rest = line.inverse();
    while let Some((last, front)) = rest.split_last() {
        moves.push(last.inverse());
        rest = front;
    }
    moves
}

/// All faces, each at its own place.
const FACES: [Face; 6] = [Face::U, Face::D, Face::R, Face::L, Face::F, Face::B];

/// What a face is called after a rotation: the face to whose place its centre is brought.
fn name_after(rotation: Rotation, face: Face) -> Face
    ensures { effect (spelling rotation) (centre face) ≡ centre result }
{
    let mut rest = FACES.as_slice();
    while let Some((name, others)) = rest.split_first() {
        if rotation.face_before(*name) == face {
            return *name;
        }
        rest = others;
    }
    face
}

/// What each face is called after a rotation.
fn names_after(rotation: Rotation) -> Names
    ensures { (f : Face) → effect (spelling rotation) (centre f) ≡ centre (get_or result (face_index f) f) }
{
    FACES.map(|face| name_after(rotation, face))
}

/// Three sequences as one, if they aren't too many turns.
fn joined(first: &[Turn], second: &[Turn], third: &[Turn]) -> Option<Faces>
    ensures { MatchOption result (512 < length (first.now ++ second.now ++ third.now))
        (λ all. all.items ≡ first.now ++ second.now ++ third.now) }
{
    let mut all = Faces::new();
    all.try_extend_from_slice(first).ok()?;
    all.try_extend_from_slice(second).ok()?;
    all.try_extend_from_slice(third).ok()?;
    Some(all)
}

/// The cube of some turns.
fn cube_of(turns: &Faces) -> Cube
    ensures { SameMap (map_of result) (effect_of_turns turns.now.items) }
{
    let mut cube = Cube::solved();
    cube.apply(turns.as_slice());
    cube
}

/// What was made on the inverse, by what came before the scramble.
fn undoing(before: &Faces) -> Faces
    requires { length before.now.items ≤ 200 }
    ensures few { length result.items ≤ 200 }
    ensures turns { result.items ≡ reverse (map inverse_turn before.now.items) }
{
    inverse_of(before.as_slice())
}

impl Start {
    ghost use Rattle.std.specs.Prelude.{◌≡◌, ◌≤◌, ◌<◌, length, MatchOption};
    ghost use Rattle.niss_moves.specs.Cleaning.{clean_turns};
    ghost use Rattle.niss_moves.specs.Effects.{effect_of_turns};
    ghost use Rattle.niss_moves.specs.Places.{SameMap};
    ghost use Rattle.niss_cube.specs.Map.{map_of};
    ghost use Rattle.niss_ways.specs.Starts.{AreTooMany, IsAfter};

    /// The cube after a scramble and the moves so far; none if they are too many: more than 200 face turns on a side, or
    /// 512 in all. Moves in brackets come before the scramble, inverted; they name the faces as the moves outside brackets
    /// leave the cube.
    pub fn after(scramble: &Niss, so_far: &Niss) -> Option<Start>
        ensures { MatchOption result (AreTooMany scramble.now so_far.now) (λ start. IsAfter scramble.now so_far.now start) }
    {
        let (scrambled, held) = to_faces(unniss(scramble).as_slice());
        let (normal, held) = made_after(held, so_far.normal())?;
        let (before, _) = made_after(held, undone(so_far).as_slice())?;
        let line = joined(before.as_slice(), scrambled.as_slice(), normal.as_slice())?;
        Some(Start {
            cube: cube_of(&line),
            line,
            normal,
            inverse: undoing(&before),
            names: names_after(held),
        })
    }

    /// The cube.
    pub(crate) fn cube(&self) -> &Cube
        ensures { result.now ≡ self.now.cube }
    {
        &self.cube
    }

    /// Turns that lead to it, by the names of the centres: the moves in brackets inverted, the scramble, and the
    /// others.
    pub fn line(&self) -> &[Turn]
        ensures value { result.now ≡ self.now.line }
        ensures of_cube { SameMap (map_of self.now.cube) (effect_of_turns self.now.line) }
    {
        self.line.as_slice()
    }

    /// These turns cleaned, if they are at most 256.
    pub fn clean_line(&self) -> Option<Faces>
        ensures { MatchOption result (256 < length self.now.line)
            (λ clean. (length self.now.line ≤ 256) × (clean.items ≡ clean_turns self.now.line)) }
    {
        if self.line.len() > MOST_READ {
            return None;
        }
        Some(cleaned(self.line.as_slice(), &[], &[]))
    }

    /// What was made on the normal side, cleaned, by the names of the centres.
    pub fn normal(&self) -> &[Turn]
        ensures value { result.now ≡ self.now.normal }
        ensures few { length result.now ≤ 200 }
    {
        self.normal.as_slice()
    }

    /// What was made on the inverse, cleaned.
    pub fn inverse(&self) -> &[Turn]
        ensures value { result.now ≡ self.now.inverse }
        ensures few { length result.now ≤ 200 }
    {
        self.inverse.as_slice()
    }

    /// What the faces are called as the cube is held.
    pub(crate) fn names(&self) -> &Names
        ensures value { result.now ≡ self.now.names }
    {
        &self.names
    }
}
