//! Steps: their names and turns.
use crate::checks::check_bytes;
use crate::cubes::cube_after;
use niss_cube::Step;
use niss_moves::{LineText, put_faces};
use std::process::Abort;

const ALL_TURNS: &str = "U U2 U' D D2 D' R R2 R' L L2 L' F F2 F' B B2 B'";

const TURNS_FROM_UD: &str = "U2 D2 R R2 R' L L2 L' F F2 F' B B2 B'";

const TURNS_FROM_RL: &str = "U U2 U' D D2 D' R2 L2 F F2 F' B B2 B'";

const TURNS_FROM_FB: &str = "U U2 U' D D2 D' R R2 R' L L2 L' F2 B2";

// A step with its name, the name of the step before it, and its turns.
type Row = (Step, &'static str, Option<&'static str>, &'static str);

const STEPS: &[Row] = &[
    (Step::Eofb, "eofb", None, ALL_TURNS),
    (Step::Eorl, "eorl", None, ALL_TURNS),
    (Step::Eoud, "eoud", None, ALL_TURNS),
    (Step::DrudEofb, "drud-eofb", Some("eofb"), TURNS_FROM_FB),
    (Step::DrrlEofb, "drrl-eofb", Some("eofb"), TURNS_FROM_FB),
    (Step::DrudEorl, "drud-eorl", Some("eorl"), TURNS_FROM_RL),
    (Step::DrfbEorl, "drfb-eorl", Some("eorl"), TURNS_FROM_RL),
    (Step::DrrlEoud, "drrl-eoud", Some("eoud"), TURNS_FROM_UD),
    (Step::DrfbEoud, "drfb-eoud", Some("eoud"), TURNS_FROM_UD),
    (Step::Eo, "eo", None, ALL_TURNS),
    (Step::DrEofb, "dr-eofb", Some("eofb"), TURNS_FROM_FB),
    (Step::DrEorl, "dr-eorl", Some("eorl"), TURNS_FROM_RL),
    (Step::DrEoud, "dr-eoud", Some("eoud"), TURNS_FROM_UD),
];

fn check_row(rt: &impl Abort, index: usize, row: &Row) {
    let (step, name, start_name, turns) = *row;
    let is_there = Step::all().get(index) == Some(&step);
    let is_named = step.name() == name && Step::from_name(name.as_bytes()) == Some(step);
    assert!(rt;
        is_there && is_named && step.start_name() == start_name,
        "{name}"
    );
    let mut text = LineText::new();
    assert!(rt; step.turns().len() <= 18);
    put_faces(step.turns(), &mut text);
    check_bytes(rt, text.as_slice(), turns.as_bytes());
}

#[test]
fn steps_have_their_names_and_turns(rt: HostRuntime) {
    assert!(rt; Step::all().len() == STEPS.len());
    for (index, row) in STEPS.iter().enumerate() {
        check_row(&rt, index, row);
    }
}

/// The steps that are reached after some moves, and the others that may start. No other may start.
struct Standing {
    moves: &'static str,
    reached: &'static [Step],
    started: &'static [Step],
}

const STANDINGS: &[Standing] = &[
    Standing {
        moves: "",
        reached: &[
            Step::Eofb,
            Step::Eorl,
            Step::Eoud,
            Step::DrudEofb,
            Step::DrrlEofb,
            Step::DrudEorl,
            Step::DrfbEorl,
            Step::DrrlEoud,
            Step::DrfbEoud,
            Step::Eo,
            Step::DrEofb,
            Step::DrEorl,
            Step::DrEoud,
        ],
        started: &[],
    },
    // A quarter turn flips edges with respect to its own axis alone. It keeps the stickers of its axis on that axis, and
    // brings edges of the other two slices out of them.
    Standing {
        moves: "F",
        reached: &[
            Step::Eorl,
            Step::Eoud,
            Step::DrfbEorl,
            Step::DrfbEoud,
            Step::Eo,
            Step::DrEorl,
            Step::DrEoud,
        ],
        started: &[Step::Eofb, Step::DrudEorl, Step::DrrlEoud],
    },
    // R flips edges with respect to R and L, and U those with respect to U and D. R twists corners with respect to U and
    // D, and U then twists them with respect to R and L.
    Standing {
        moves: "R U",
        reached: &[Step::Eofb, Step::Eo],
        started: &[
            Step::Eorl,
            Step::Eoud,
            Step::DrudEofb,
            Step::DrrlEofb,
            Step::DrEofb,
        ],
    },
    // Quarter turns of U and D and half turns of the other faces keep a domino on U and D.
    Standing {
        moves: "R2 U F2",
        reached: &[
            Step::Eofb,
            Step::Eorl,
            Step::DrudEofb,
            Step::DrudEorl,
            Step::Eo,
            Step::DrEofb,
            Step::DrEorl,
        ],
        started: &[Step::Eoud, Step::DrrlEofb, Step::DrfbEorl],
    },
    // Three edges of the upper layer cycled, R U' R U R U R' U' R' U' R2, between R and R': the edge FR is one of them, and
    // all corners are home. So the edge outside its slice alone keeps the domino from being reached.
    Standing {
        moves: "R2 U' R U R U R' U' R' U' R",
        reached: &[Step::Eofb, Step::Eo],
        started: &[
            Step::Eorl,
            Step::Eoud,
            Step::DrudEofb,
            Step::DrrlEofb,
            Step::DrEofb,
        ],
    },
];

fn check_standing(rt: &impl Abort, standing: &Standing, step: Step) {
    let cube = cube_after(rt, standing.moves);
    let is_reached = standing.reached.contains(&step);
    let may_start = is_reached || standing.started.contains(&step);
    let is_right = step.reached(&cube) == is_reached && step.may_start(&cube) == may_start;
    assert!(rt; is_right, "{} after {}", step.name(), standing.moves);
}

#[test]
fn steps_are_reached_or_may_start(rt: HostRuntime) {
    for standing in STANDINGS {
        for step in Step::all() {
            check_standing(&rt, standing, *step);
        }
    }
}
