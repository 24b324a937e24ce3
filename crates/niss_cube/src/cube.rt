//! Cubes by their cubies.
ghost use Rattle.std.specs.Prelude.{◌≡◌, ◌<◌};
ghost use Rattle.niss_moves.specs.Rotations.{about_vertical};
ghost use Rattle.niss_cube.specs.Cubies.{AreCubies};

use crate::cubie_turns::{cubie_turn, places_of, turn_homes, turn_orientations, turned_back};
use crate::facelet_text::{
    CORNER_POSITIONS, CUBIES, EDGE_POSITIONS, FACELETS, SOLVED_TEXT, rotated_if,
};
use coordinate::Coordinate;
use coordinate::renaming::Renaming;
use niss_moves::{Axis, Power, Rotation, Turn};
use std::alloc::AllocError;

pub(crate) mod coordinate;

/// The corners by place, each at home.
const CORNERS_HOME: [u8; 8] = [0, 1, 2, 3, 4, 5, 6, 7];

/// The edges by place, each at home.
const EDGES_HOME: [u8; 12] = [0, 1, 2, 3, 4, 5, 6, 7, 8, 9, 10, 11];

/// A cube with its centres home: which cubie stands at each place, and how it is twisted or flipped there.
///
/// Its contracts name it by `map_of`: where the sticker that began at each of the 54 places stands. The places, the cubies
/// at home and the orientations are those of Kociemba's cubie level.
#[derive(Copy, Debug)]
pub struct Cube {
    // which corner stands at each corner place, and its twist there
    corners: [u8; 8],
    twists: [u8; 8],
    // which edge stands at each edge place, and its flip there
    edges: [u8; 12],
    flips: [u8; 12],
    ghost are_cubies: { AreCubies corners twists edges flips },
}

impl Cube {
    ghost use Rattle.std.specs.Prelude.{◌≡◌, ◌↔◌, ℕ, slice_index, IsTrue};
    ghost use Rattle.niss_moves.specs.Places.{SameMap};
    ghost use Rattle.niss_moves.specs.Facelets.{letters};
    ghost use Rattle.niss_moves.specs.Effects.{effect, effect_of_turns, turned};
    ghost use Rattle.niss_moves.specs.Rotations.{spelling};
    ghost use Rattle.niss_cube.specs.Map.{map_of, same_cubies, BeganAt, is_home};
    ghost use Rattle.niss_cube.specs.BadPieces.{TakesBack};
    ghost use Rattle.niss_cube.specs.CubieTurns.{renamed_by};
    ghost use Rattle.niss_cube.specs.Coordinates.{IsRank};
    ghost use Rattle.niss_cube.specs.declared.cube.coordinate.Coordinate.TheVariants.{Flip, Twist, Slice};

    /// The solved cube.
    pub fn solved() -> Self
        ensures { SameMap (map_of result) (λ q. q) }
    {
        Cube {
            corners: CORNERS_HOME,
            twists: [0; 8],
            edges: EDGES_HOME,
            flips: [0; 12],
        }
    }

    /// Turns a face, as WCA Regulations 12a say.
    pub fn turn(&mut self, turn: Turn)
        ensures { SameMap (map_of self.new) (λ q. turned turn (map_of self.old q)) }
    {
        let table = cubie_turn(turn);
        *self = Cube {
            corners: turn_homes(&self.corners, &table.corners),
            twists: turn_orientations::<8, 3>(&self.twists, &table.corners, &table.twists),
            edges: turn_homes(&self.edges, &table.edges),
            flips: turn_orientations::<12, 2>(&self.flips, &table.edges, &table.flips),
        };
    }

    /// Makes a turn before all that made the cube. So a turn on the inverse of a scramble is its inverse turn, made before.
    pub fn turn_before(&mut self, turn: Turn)
        ensures { SameMap (map_of self.new) (λ q. map_of self.old (turned turn q)) }
    {
        let table = cubie_turn(turn);
        *self = Cube {
            corners: turn_homes(&table.corners, &self.corners),
            twists: turn_orientations::<8, 3>(&table.twists, &self.corners, &self.twists),
            edges: turn_homes(&table.edges, &self.edges),
            flips: turn_orientations::<12, 2>(&table.flips, &self.edges, &self.flips),
        };
    }

    /// The cube of the inverse scramble, which takes this one back.
    pub fn inverse(&self) -> Cube
        ensures { TakesBack self.now result }
    {
        let corners = places_of(&self.corners);
        let edges = places_of(&self.edges);
        Cube {
            corners,
            twists: turned_back::<8, 3>(&self.twists, &corners),
            edges,
            flips: turned_back::<12, 2>(&self.flips, &edges),
        }
    }

    /// Turns faces, from the first to the last.
    pub fn apply(&mut self, turns: &[Turn])
        ensures { SameMap (map_of self.new) (λ q. effect_of_turns turns.now (map_of self.old q)) }
    {
        for turn in turns {
            self.turn(*turn);
        }
    }

    /// The cube renamed by a rotation.
    #[inline(always)]
    fn renamed(&self, renaming: Renaming) -> Cube
        ensures { SameMap (map_of result) (renamed_by renaming (map_of self.now)) }
    {
        let table = renaming.table();
        let (corners, twists) = table.corners.renamed(&self.corners, &self.twists);
        let (edges, flips) = table.edges.renamed(&self.edges, &self.flips);
        Cube {
            corners,
            twists,
            edges,
            flips,
        }
    }

    /// Whether each sticker stands where it began.
    pub fn is_solved(&self) -> bool
        ensures value { result ≡ is_home (map_of self.now) }
        ensures solved { IsTrue result ↔ SameMap (map_of self.now) (λ q. q) }
    {
        *self == Cube::solved()
    }

    /// The edge orientation with respect to an axis, from 0 to 2,047: the flips at the first eleven edge places of the cube
    /// that is renamed for this axis (by `x'` for Ud, by `y` for Rl), as a number in base 2. It is 0 exactly if all
    /// edges are oriented: if their stickers of the set `flip_set` stand on places of this set.
    pub fn flip(&self, axis: Axis) -> u16
        ensures { IsRank Flip axis (map_of self.now) result }
    {
        Coordinate::Flip.rank(axis, self)
    }

    /// The corner orientation with respect to an axis, from 0 to 2,186: the twists at the first seven corner places of the
    /// cube that is renamed for this axis (by `z'` for Rl, by `x` for Fb), as a number in base 3. It is 0 exactly if all
    /// corners are oriented: if their stickers of the set `twist_set` stand on places of this set.
    pub fn twist(&self, axis: Axis) -> u16
        ensures { IsRank Twist axis (map_of self.now) result }
    {
        Coordinate::Twist.rank(axis, self)
    }

    /// The slice coordinate of an axis, from 0 to 494: the number of the places at which the four edges between the axis's
    /// two faces stand, in any order, on the cube that is renamed for this axis (by `z'` for Rl, by `x` for Fb). It is 0
    /// exactly if each of them stands in the slice.
    pub fn slice(&self, axis: Axis) -> u16
        ensures { IsRank Slice axis (map_of self.now) result }
    {
        Coordinate::Slice.rank(axis, self)
    }

    /// Whether the same cubies stand at the same places, turned alike.
    fn has_same_cubies(&self, other: &Cube) -> bool
        ensures { result ≡ same_cubies self.now other.now }
    {
        self.corners == other.corners
            && (self.twists == other.twists
                && (self.edges == other.edges && self.flips == other.flips))
    }

    /// The position in the facelet text at which the sticker at a position began. `CUBIES` has the corners below 8, the edges
    /// below 20, and then the centres, which no turn moves.
    fn origin(&self, position: usize) -> usize
        requires { position < 54 }
        ensures { BeganAt self.now position result }
    {
        let cubie = CUBIES[position] as usize;
        let facelet = FACELETS[position] as usize;
        if cubie < 8 {
            let turned_back = (3 - self.twists[cubie] as usize + facelet) % 3;
            return CORNER_POSITIONS[3 * self.corners[cubie] as usize + turned_back] as usize;
        }
        if cubie < 20 {
            let turned_back = (2 - self.flips[cubie - 8] as usize + facelet) % 2;
            return EDGE_POSITIONS[2 * self.edges[cubie - 8] as usize + turned_back] as usize;
        }
        position
    }

    /// The facelet text of the cube as its centres stand.
    fn text(&self) -> [u8; 54]
        ensures { result ≡ letters (map_of self.now) }
    {
        let mut text = [0; 54];
        for (position, letter) in text.iter_mut().enumerate() {
            *letter = SOLVED_TEXT[self.origin(position)];
        }
        text
    }

    /// The facelet text of the cube, then rotated as a whole: the faces in the order U, R, F, D, L, B with nine letters
    /// each, row by row as one looks at the face. The letter at a place names the face on which its sticker began.
    pub fn facelets(&self, rotation: Rotation) -> [u8; 54]
        ensures { result ≡ letters (λ q. effect (spelling rotation) (map_of self.now q)) }
    {
        let held = rotated_if(self.text(), rotation.top.to_top());
        rotated_if(held, about_vertical(rotation.vertical))
    }
}

/// A rotation about the vertical axis, if there is one.
fn about_vertical(power: Option<Power>) -> Option<(Axis, Power)>
    ensures { result ≡ about_vertical power }
{
    power.map(|power| (Axis::Ud, power))
}

impl Clone for Cube {
    ghost use Rattle.std.specs.Prelude.{◌≡◌, Ok};

    fn clone(&self) -> Result<Cube, AllocError>
        ensures { result ≡ Ok self.now }
    {
        Ok(*self)
    }
}

impl PartialEq for Cube {
    ghost use Rattle.std.specs.Prelude.{◌≡◌, ◌↔◌, ◌&&◌, IsTrue, nat_eq};
    ghost use Rattle.std.specs.Cmp.Rules.{comparing};
    ghost use Rattle.std.proofs.Common.{rules};
    ghost use Rattle.niss_moves.specs.Places.{SameMap};
    ghost use Rattle.niss_cube.specs.Map.{map_of, same_cubies};

    ghost eq = { same_cubies };

    ghost laws = { Prim.search (comparing, rules) };

    fn eq(&self, other: &Cube) -> bool
        ensures value { result ≡ same_cubies self.now other.now }
        ensures map { IsTrue result ↔ SameMap (map_of self.now) (map_of other.now) }
    {
        self.has_same_cubies(other)
    }
}

impl Eq for Cube {
    ghost use Rattle.std.specs.Cmp.Rules.{comparing};
    ghost use Rattle.std.proofs.Common.{rules};

    ghost laws = { Prim.search (comparing, rules) };
}
