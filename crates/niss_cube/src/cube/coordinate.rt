//! The coordinates of a cube, each as one value.
ghost use Rattle.std.specs.Prelude.{◌≡◌, ◌<◌, ◌≤◌, ◌↔◌, ℕ, IsTrue};
ghost use Rattle.niss_moves.specs.Effects.{turned};
ghost use Rattle.niss_moves.specs.Places.{SameMap};
ghost use Rattle.niss_cube.specs.Map.{map_of};
ghost use Rattle.niss_cube.specs.Sets.{Kept, is_kept, set_of};
ghost use Rattle.niss_cube.specs.Coordinates.{IsRank, count_of, face_for, rank_of, renamed_for, renaming_for, standard_axis, turn_for};
ghost use Rattle.niss_cube.specs.AfterTurn.{rank_after};
ghost use Rattle.niss_cube.specs.BadPlaces.{bad_mask, bad_count};
ghost use Rattle.niss_cube.specs.Inverses.{IsInverseRank};
ghost use Rattle.std.specs.Int.RustNames.{count_ones};

use super::{CORNERS_HOME, Cube, EDGES_HOME};
use crate::cubie_turns::{cubie_turn, turn_homes, turn_orientations};
use bad_places::{flip_marks, mask_of_turned, slice_marks, twist_marks};
use inverse::{flip_digits, orientation_rank_back, slice_places, slice_rank_back, twist_digits};
use niss_moves::{Axis, Face, Turn};
use ranking::{rank_digits, rank_slice, unrank_orientations, unrank_slice};
use renaming::Renaming;

mod bad_places;
mod inverse;
mod move_rows;
mod ranking;
pub(crate) mod renaming;

/// A coordinate of a cube, which has a rank on each axis: a number below `count`.
#[derive(Clone, Copy, Debug, PartialEq, Eq)]
pub enum Coordinate {
    /// How the edges are flipped.
    Flip,
    /// How the corners are twisted.
    Twist,
    /// Where the four edges of a slice stand.
    Slice,
}

impl Coordinate {
    /// How many ranks it has: 2,048, 2,187 or 495.
    pub fn count(self) -> usize
        ensures { result ≡ count_of self }
    {
        match self {
            Coordinate::Flip => 2048,
            Coordinate::Twist => 2187,
            Coordinate::Slice => 495,
        }
    }

    /// The rank of a cube on an axis, below `count`. It is 0 exactly if the cube keeps the coordinate's set of places.
    #[inline(always)]
    pub fn rank(self, axis: Axis, cube: &Cube) -> u16
        ensures { IsRank self axis (map_of cube.now) result }
    {
        self.standard_rank(&self.renamed(axis, cube))
    }

    /// The rank on an axis of the inverse of a cube after a turn, below `count`. Neither the turned cube nor its inverse is
    /// made: each cubie that the coordinate depends on says what it counts.
    #[inline(always)]
    pub fn inverse_rank_after(self, axis: Axis, cube: &Cube, turn: Turn) -> u16
        ensures { IsInverseRank self axis (λ q. turned turn (map_of cube.now q)) result }
    {
        let table = cubie_turn(turn);
        match self {
            Coordinate::Flip => orientation_rank_back::<12, 2>(
                &cube.edges,
                &cube.flips,
                &table.edges,
                &table.flips,
                flip_digits(axis),
            ),
            Coordinate::Twist => orientation_rank_back::<8, 3>(
                &cube.corners,
                &cube.twists,
                &table.corners,
                &table.twists,
                twist_digits(axis),
            ),
            Coordinate::Slice => slice_rank_back(&cube.edges, &table.edges, slice_places(axis)),
        }
    }

    /// Whether it is 0 on an axis: whether the cube keeps its set of places.
    pub(crate) fn is_zero(self, axis: Axis, cube: &Cube) -> bool
        ensures value { result ≡ is_kept (set_of self axis) (map_of cube.now) }
        ensures kept { IsTrue result ↔ Kept (set_of self axis) (map_of cube.now) }
    {
        self.bad_places(axis, cube).count_ones() == 0
    }

    /// At which places a bad piece stands on an axis, as a mask: bit i is set if the piece at place i is bad. The 8 places of
    /// corners are URF, UFL, ULB, UBR, DFR, DLF, DBL, DRB, the 12 of edges UR, UF, UL, UB, DR, DF, DL, DB, FR, FL, BL, BR. Of
    /// a slice, edges on the wrong side are bad: those of the slice that stand outside, and the others that stand in it.
    #[inline(never)]
    pub fn bad_places(self, axis: Axis, cube: &Cube) -> u16
        ensures mask { result ≡ bad_mask self axis (map_of cube.now) }
        ensures bits { count_ones result ≡ bad_count self axis (map_of cube.now) }
        ensures at_most { bad_count self axis (map_of cube.now) ≤ 12 }
    {
        match self {
            Coordinate::Flip => {
                mask_of_turned::<12, 2>(&cube.edges, &cube.flips, flip_marks(axis))
            }
            Coordinate::Twist => {
                mask_of_turned::<8, 3>(&cube.corners, &cube.twists, twist_marks(axis))
            }
            Coordinate::Slice => mask_of_turned::<12, 3>(&cube.edges, &[0; 12], slice_marks(axis)),
        }
    }

    /// The rotation by which a cube is renamed before the coordinate on an axis is read, if it is. The flips on Ud are
    /// read from the renamed cube, whose set is the complement, among the edge places, of the set that geometry
    /// defines: a cube keeps both or neither, so the rank is 0 exactly if it keeps this one.
    #[inline(always)]
    fn renaming(self, axis: Axis) -> Option<Renaming>
        ensures { result ≡ renaming_for self axis }
    {
        match self {
            Coordinate::Flip => match axis {
                Axis::Ud => Some(Renaming::XCounter),
                Axis::Rl => Some(Renaming::YQuarter),
                Axis::Fb => None,
            },
            Coordinate::Twist | Coordinate::Slice => match axis {
                Axis::Ud => None,
                Axis::Rl => Some(Renaming::ZCounter),
                Axis::Fb => Some(Renaming::XQuarter),
            },
        }
    }

    /// A cube as the coordinate on an axis is read from it.
    #[inline(always)]
    fn renamed(self, axis: Axis, cube: &Cube) -> Cube
        ensures { SameMap (map_of result) (renamed_for self axis (map_of cube.now)) }
    {
        match self.renaming(axis) {
            Some(renaming) => cube.renamed(renaming),
            None => *cube,
        }
    }

    /// The rank of a cube on the standard axis, for which it isn't renamed.
    #[inline(always)]
    fn standard_rank(self, cube: &Cube) -> u16
        ensures { result ≡ rank_of self (standard_axis self) (map_of cube.now) }
    {
        match self {
            Coordinate::Flip => rank_digits(2, &cube.flips[..11]),
            Coordinate::Twist => rank_digits(3, &cube.twists[..7]),
            Coordinate::Slice => rank_slice(&cube.edges),
        }
    }

    /// A cube with a rank on the standard axis, its other cubies at home.
    fn unrank(self, rank: u16) -> Cube
        requires { rank < count_of self }
        ensures { rank_of self (standard_axis self) (map_of result) ≡ rank }
    {
        let (mut twists, mut edges, mut flips) = ([0; 8], EDGES_HOME, [0; 12]);
        match self {
            Coordinate::Flip => unrank_orientations(2, rank, &mut flips),
            Coordinate::Twist => unrank_orientations(3, rank, &mut twists),
            Coordinate::Slice => edges = unrank_slice(rank),
        }
        Cube {
            corners: CORNERS_HOME,
            twists,
            edges,
            flips,
        }
    }

    /// The rank on the standard axis after a turn, for which the cubies that it depends on are turned alone.
    fn standard_rank_after(self, cube: &Cube, turn: Turn) -> u16
        ensures { result ≡ rank_of self (standard_axis self) (λ q. turned turn (map_of cube.now q)) }
    {
        let table = cubie_turn(turn);
        match self {
            Coordinate::Flip => {
                let flips = turn_orientations::<12, 2>(&cube.flips, &table.edges, &table.flips);
                rank_digits(2, &flips[..11])
            }
            Coordinate::Twist => {
                let twists = turn_orientations::<8, 3>(&cube.twists, &table.corners, &table.twists);
                rank_digits(3, &twists[..7])
            }
            Coordinate::Slice => rank_slice(&turn_homes(&cube.edges, &table.edges)),
        }
    }

    /// The face to which the renaming for an axis brings `face`.
    #[inline(always)]
    fn renamed_face(self, axis: Axis, face: Face) -> Face
        ensures { result ≡ face_for self axis face }
    {
        match self.renaming(axis) {
            Some(renaming) => renaming.face(face),
            None => face,
        }
    }

    /// The turn that does to the rank on the standard axis, Fb for flips and Ud for twists and slices, what `turn` does to
    /// that on `axis`.
    #[inline(always)]
    pub fn standard_turn(self, axis: Axis, turn: Turn) -> Turn
        ensures value { result ≡ turn_for self axis turn }
        ensures same_rank { (rank : ℕ)
            → rank_after self (standard_axis self) rank result ≡ rank_after self axis rank turn }
    {
        Turn {
            face: self.renamed_face(axis, turn.face),
            power: turn.power,
        }
    }

    /// The axis for which a cube isn't renamed before the coordinate is read.
    pub(crate) fn standard_axis(self) -> Axis
        ensures { result ≡ standard_axis self }
    {
        match self {
            Coordinate::Flip => Axis::Fb,
            Coordinate::Twist | Coordinate::Slice => Axis::Ud,
        }
    }
}
