//! Cubes as far from the nearest of several goals as a cube can be.
use crate::path_sinks::All;
use crate::searches::{Search, tables_of};
use niss_cube::Step;
use niss_search::{Meter, Outcome, Tables};
use std::process::Abort;

/// How many shortest solutions a cube has, and how many looks find them.
struct Far {
    moves: &'static str,
    solutions: u128,
    looks: u128,
    /// The solutions of up to a turn more, if they were counted.
    near: Option<u128>,
}

/// A step, the least length of the solutions, and two cubes: one of special form, of which the model counted, and a drawn
/// one, of which a program did that moves sets of sticker places.
type Row = (Step, u8, &'static [Far]);

const ROWS: &[Row] = &[
    (
        Step::Eo,
        7,
        &[
            // the superflip
            Far {
                moves: "U R2 F B R B2 R U2 L B2 R U' D' R2 F R' L B2 U2 F2",
                solutions: 1344,
                looks: 33020,
                near: None,
            },
            Far {
                moves: "U R' F' U2 F B U F D' B R' L' B D2 L2 B L2 B2 R' U'",
                solutions: 1728,
                looks: 38573,
                near: Some(86952),
            },
        ],
    ),
    // a cube in three orientations
    (
        Step::DrEofb,
        10,
        &[
            Far {
                moves: "U2 D' B2 D2 R2 B2 R2 U B2 U2 L F2 B2 R2 L U R' L F2 U D' L'",
                solutions: 708,
                looks: 26077,
                near: None,
            },
            Far {
                moves: "U R2 U2 F2 L2 D' B2 R' D U2 L B2 L' F2 L' U L'",
                solutions: 134,
                looks: 4829,
                near: Some(5132),
            },
        ],
    ),
    (
        Step::DrEorl,
        10,
        &[
            Far {
                moves: "U2 D' R2 D2 F2 R2 F2 U R2 U2 B L2 R2 F2 B U F' B L2 U D' B'",
                solutions: 708,
                looks: 26079,
                near: None,
            },
            Far {
                moves: "U R2 L2 B2 R2 D R2 B D2 U L2 R2 B' U D R2 F'",
                solutions: 124,
                looks: 4814,
                near: Some(5532),
            },
        ],
    ),
    (
        Step::DrEoud,
        10,
        &[
            Far {
                moves: "F2 B' U2 B2 R2 U2 R2 F U2 F2 L D2 U2 R2 L F R' L D2 F B' L'",
                solutions: 708,
                looks: 26079,
                near: None,
            },
            Far {
                moves: "R F2 L B2 D2 B' L2 R' U2 B D2 L B R' B'",
                solutions: 164,
                looks: 5764,
                near: Some(6042),
            },
        ],
    ),
];

impl Far {
    /// Searches for solutions of at most so many turns, and of at most `slack` more than the least.
    fn search(&self, rt: &impl Abort, tables: &Tables, limit: u8, slack: u8) -> (Outcome, u128) {
        let search = Search {
            moves: self.moves,
            limit,
            slack,
        };
        let (answer, looks) = search.run(rt, tables, &mut All);
        (answer.expect(rt, self.moves), looks)
    }

    /// With a turn less there is no solution, and each deepening looks once.
    fn check(&self, rt: &impl Abort, tables: &Tables, least: u8) {
        let (found, looks) = self.search(rt, tables, 20, 0);
        let is_least = found.length == Some(least) && found.solutions == self.solutions;
        assert!(rt; is_least && looks == self.looks, "{}", self.moves);
        let (found, looks) = self.search(rt, tables, least.saturating_sub(1), 0);
        let is_none = found.length.is_none() && looks == u128::from(least);
        assert!(rt; is_none, "{}", self.moves);
        if let Some(near) = self.near {
            let (found, _looks) = self.search(rt, tables, 20, 1);
            assert!(rt; found.solutions == near, "{}", self.moves);
        }
    }
}

#[test]
fn the_farthest_cubes_are_solved(rt: HostRuntime) {
    for (step, least, cubes) in ROWS {
        let tables = tables_of(&rt, rt.alloc(), *step, &mut Meter::new());
        for far in *cubes {
            far.check(&rt, &tables, *least);
        }
        drop(tables);
    }
}
