//! Cubes as they are shown and compared.
use crate::checks::check_bytes;
use crate::cubes::cube_after;
use niss_cube::{Face, Power, Rotation};

/// Moves, the rotation by which the whole cube is held after them, and its letters.
type Row = (&'static str, Rotation, &'static [u8; 54]);

const ROWS: &[Row] = &[
    (
        "",
        Rotation {
            top: Face::F,
            vertical: None,
        },
        b"FFFFFFFFFRRRRRRRRRDDDDDDDDDBBBBBBBBBLLLLLLLLLUUUUUUUUU",
    ),
    // the slice M, as its face turns and the rotation that is left
    (
        "R L'",
        Rotation {
            top: Face::B,
            vertical: None,
        },
        b"UBUUBUUBURRRRRRRRRFUFFUFFUFDFDDFDDFDLLLLLLLLLBDBBDBBDB",
    ),
    // x and then y: F comes to the top and then R to the front
    (
        "",
        Rotation {
            top: Face::F,
            vertical: Some(Power::Quarter),
        },
        b"FFFFFFFFFUUUUUUUUURRRRRRRRRBBBBBBBBBDDDDDDDDDLLLLLLLLL",
    ),
];

#[test]
fn a_cube_is_shown_as_it_is_held(rt: HostRuntime) {
    for (moves, rotation, letters) in ROWS {
        let text = cube_after(&rt, moves).facelets(*rotation);
        check_bytes(&rt, text.as_slice(), letters.as_slice());
    }
}

/// A commutator of order six.
const SIX: &str = "R U R' U' R U R' U' R U R' U' R U R' U' R U R' U' R U R' U'";

/// Moves, others, and whether they lead to one cube.
const PAIRS: &[(&str, &str, bool)] = &[
    ("R U R' U'", "", false),
    (SIX, "", true),
    ("U2", "U' U'", true),
];

#[test]
fn cubes_are_equal_if_the_same_turns_lead_home(rt: HostRuntime) {
    for (moves, others, is_same) in PAIRS {
        let is_equal = cube_after(&rt, moves) == cube_after(&rt, others);
        assert!(rt; is_equal == *is_same, "{moves}");
    }
}
