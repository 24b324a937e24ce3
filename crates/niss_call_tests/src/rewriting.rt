//! Which turns may stand side by side, and the room of lists and texts.
use crate::checks::check_bytes;
use crate::cubes::{D, U};
use niss_moves::{Faces, LineText, Turn, invert, put_faces, read, turns_after, unniss};

/// A turn, if there is one, and those that may follow it: D may follow U, but not U a D.
const FOLLOWERS: &[(Option<Turn>, &str)] = &[
    (None, "U U2 U' D D2 D' R R2 R' L L2 L' F F2 F' B B2 B'"),
    (Some(U), "D D2 D' R R2 R' L L2 L' F F2 F' B B2 B'"),
    (Some(D), "R R2 R' L L2 L' F F2 F' B B2 B'"),
];

#[test]
fn turns_may_follow(rt: HostRuntime) {
    for (last, turns) in FOLLOWERS {
        let mut text = LineText::new();
        put_faces(turns_after(*last), &mut text);
        check_bytes(&rt, text.as_slice(), turns.as_bytes());
    }
}

// A line has at most 256 moves, of at most two face turns each. What bounds a list is seen by no contract.
#[test]
fn lists_have_room_for_a_line_and_no_more(rt: HostRuntime) {
    assert!(rt; Faces::new().capacity() == 512 && LineText::new().capacity() == 2048);
    let line = read(b"").expect(&rt, "an empty line");
    assert!(rt; unniss(&line).capacity() == 256 && invert(&line).capacity() == 256);
}
