//! Coordinates of cubes, and the tables that turn them.
use crate::cubes::{F, R, cube_after};
use niss_cube::Coordinate::{self, Flip, Slice, Twist};
use niss_cube::{Axis, Cube, TurnTables};
use std::alloc::Allocator;
use std::process::Abort;

/// A number of the solved cube after some moves.
type Row = (&'static str, Axis, Coordinate, u16);

const NUMBERS: &[Row] = &[
    ("", Axis::Ud, Flip, 0),
    ("", Axis::Ud, Twist, 0),
    ("", Axis::Ud, Slice, 0),
    ("", Axis::Rl, Flip, 0),
    ("", Axis::Rl, Twist, 0),
    ("", Axis::Rl, Slice, 0),
    ("", Axis::Fb, Flip, 0),
    ("", Axis::Fb, Twist, 0),
    ("", Axis::Fb, Slice, 0),
    // a quarter turn flips edges, twists corners, and takes edges out of a slice
    ("F", Axis::Fb, Flip, 550),
    ("R", Axis::Rl, Flip, 550),
    ("U", Axis::Ud, Flip, 550),
    ("R", Axis::Ud, Twist, 1494),
    ("R", Axis::Fb, Twist, 1494),
    ("D", Axis::Rl, Twist, 1494),
    ("F", Axis::Ud, Slice, 33),
    ("F", Axis::Rl, Slice, 33),
    ("D", Axis::Fb, Slice, 33),
    // the largest: the edges FR, FL, BL, BR come to the places UF, UL, UB, UR
    ("R U R2 B' L'", Axis::Ud, Slice, 494),
    // worked out from the places of stickers, by a program that turns places and no cubies
    ("R U' F2 L D B'", Axis::Ud, Flip, 1309),
    ("R U' F2 L D B'", Axis::Ud, Twist, 518),
    ("R U' F2 L D B'", Axis::Ud, Slice, 14),
    ("R U' F2 L D B'", Axis::Rl, Flip, 1221),
    ("R U' F2 L D B'", Axis::Rl, Twist, 1588),
    ("R U' F2 L D B'", Axis::Rl, Slice, 350),
    ("R U' F2 L D B'", Axis::Fb, Flip, 137),
    ("R U' F2 L D B'", Axis::Fb, Twist, 749),
    ("R U' F2 L D B'", Axis::Fb, Slice, 378),
];

/// The number by the call for this coordinate.
fn number_of(cube: &Cube, axis: Axis, coordinate: Coordinate) -> u16 {
    match coordinate {
        Flip => cube.flip(axis),
        Twist => cube.twist(axis),
        Slice => cube.slice(axis),
    }
}

#[test]
fn cubes_have_their_numbers(rt: HostRuntime) {
    for (moves, axis, coordinate, wanted) in NUMBERS {
        let cube = cube_after(&rt, moves);
        assert!(rt; number_of(&cube, *axis, *coordinate) == *wanted, "{moves}");
    }
}

/// Turns the numbers of the solved cube.
pub fn check_numbers<A: Allocator>(rt: &impl Abort, tables: &TurnTables<A>) {
    assert!(rt; tables.next_flip(Axis::Fb, 0, F) == 550);
    assert!(rt; tables.next_twist(Axis::Ud, 0, R) == 1494);
    assert!(rt; tables.next_slice(Axis::Ud, 0, F) == 33);
}

#[test]
fn tables_turn_the_solved_cube(rt: HostRuntime) {
    let tables = TurnTables::build(rt.alloc()).expect(&rt, "tables");
    check_numbers(&rt, &tables);
    drop(tables);
}
