//! Bad pieces of a cube, with their places, and what it has reached: numbers worked out by hand from what a turn moves.
use crate::cubes::cube_after;
use niss_cube::Coordinate::{self, Flip, Slice, Twist};
use niss_cube::{Axis, Step};

/// The edges UF, DF, FR and FL, at the places 1, 5, 8 and 9.
const EDGES: u16 = 0b11_0010_0010;

/// The corners that F moves, at the places 0, 1, 4 and 5.
const CORNERS: u16 = 0b11_0011;

/// F flips its edges, and twists its corners for the other two axes. On these two, two edges of the slice leave it for two
/// others.
const AFTER_F: &[(Coordinate, Axis, u16)] = &[
    (Flip, Axis::Fb, EDGES),
    (Flip, Axis::Rl, 0),
    (Twist, Axis::Ud, CORNERS),
    (Twist, Axis::Rl, CORNERS),
    (Twist, Axis::Fb, 0),
    (Slice, Axis::Ud, EDGES),
    (Slice, Axis::Fb, 0),
];

#[test]
fn a_turn_has_its_bad_pieces(rt: HostRuntime) {
    let cube = cube_after(&rt, "F");
    for (coordinate, axis, places) in AFTER_F {
        assert!(rt; coordinate.bad_places(*axis, &cube) == *places);
    }
}

/// Moves, the steps that are reached after them, by their bits, and whether the cube is solved. F disorients edges on the axis of F
/// and B alone, and keeps what a domino reduction to F and B keeps besides: the steps 1, 2, 6, 8, 9, 11 and 12.
const REACHED: &[(&str, u16, bool)] = &[
    ("F", 0b1_1011_0100_0110, false),
    ("F F2 F", 0b1_1111_1111_1111, true),
];

#[test]
fn what_a_cube_has_reached(rt: HostRuntime) {
    for (moves, steps, is_solved) in REACHED {
        let cube = cube_after(&rt, moves);
        assert!(rt; Step::all_reached(&cube) == *steps, "{moves}");
        assert!(rt; cube.is_solved() == *is_solved, "{moves}");
    }
}
