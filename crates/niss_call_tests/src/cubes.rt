//! Cubes that tests turn.
use niss_cube::{Cube, Face, Power, Turn};
use niss_moves::{read, to_faces};
use std::process::Abort;

pub const U: Turn = Turn {
    face: Face::U,
    power: Power::Quarter,
};

pub const D: Turn = Turn {
    face: Face::D,
    power: Power::Quarter,
};

pub const R: Turn = Turn {
    face: Face::R,
    power: Power::Quarter,
};

pub const F: Turn = Turn {
    face: Face::F,
    power: Power::Quarter,
};

/// The solved cube after face turns.
pub fn cube_after(rt: &impl Abort, moves: &str) -> Cube {
    assert!(rt; moves.len() <= 256, "{moves}");
    let line = read(moves.as_bytes()).expect(rt, "face turns");
    let (turns, _) = to_faces(line.normal());
    let mut cube = Cube::solved();
    cube.apply(turns.as_slice());
    cube
}

/// R and U, again and again, give the solved cube back after 105 times and not before.
#[test]
fn right_and_up_have_order_105(rt: HostRuntime) {
    let mut cube = Cube::solved();
    for count in 1..=105usize {
        cube.apply(&[R, U]);
        let is_solved = cube == Cube::solved();
        assert!(rt; is_solved == (count == 105), "after {count} times");
    }
}
