//! Searches: what is handed out, how often positions are looked at and turns are tried, and where a refusal ends them.
ghost use Rattle.std.specs.Prelude.{◌≤◌, ◌^◌};
ghost use Rattle.niss_search.specs.Cubes.{IsPosition};

use crate::cubes::cube_after;
use crate::path_sinks::{Comparison, Refused};
use niss_cube::Step;
use niss_search::{
    Limit, Meter, Outcome, Position, Sink, Stopped, Tables, TurnPath, search, search_within,
};
use std::alloc::{Allocator, Global};
use std::process::Abort;

/// The tables of a step. Who has them ends with `drop(tables)`, which is proved once: if a scope ends without it, the
/// proof goes through all parts of the tables again.
pub fn tables_of(rt: &impl Abort, alloc: Global, step: Step, meter: &mut Meter) -> Tables
    requires { meter.old ≤ 2 ^ 127 }
{
    let tables = Tables::build(alloc, step, meter).expect(rt, "tables");
    assert!(rt; tables.step() == step);
    tables
}

/// The position of the solved cube after some moves, on which the step of the tables may start.
pub fn position_after<A: Allocator>(rt: &impl Abort, tables: &Tables<A>, moves: &str) -> Position
    ensures { IsPosition tables.now result }
{
    let cube = cube_after(rt, moves);
    assert!(rt; tables.step().may_start(&cube), "{moves}");
    tables.position(&cube)
}

/// A search from the solved cube after some moves.
#[derive(Clone, Copy)]
pub struct Search {
    pub moves: &'static str,
    pub limit: u8,
    pub slack: u8,
}

impl Search {
    /// Searches, and returns the looks at positions too. The path that the search goes along is left empty, with its
    /// limit.
    pub fn run<K: Sink, A: Allocator>(
        &self,
        rt: &impl Abort,
        tables: &Tables<A>,
        sink: &mut K,
    ) -> (Result<Outcome, K::Fault>, u128) {
        let position = position_after(rt, tables, self.moves);
        let slack = Limit::new(self.slack).expect(rt, "a slack");
        let mut path = TurnPath::new(Limit::new(self.limit).expect(rt, "a limit"));
        let mut meter = Meter::new();
        let answer = search(tables, &position, slack, &mut path, &mut meter, sink);
        assert!(rt; path.turns().is_empty(), "{}", self.moves);
        assert!(rt; path.limit().get() == self.limit, "{}", self.moves);
        (answer, meter.count())
    }
}

/// A search, the paths that its sink takes before it refuses one, the length of the shortest, and the looks at positions.
type Row = (
    Search,
    &'static [&'static str],
    Result<Option<u8>, Refused>,
    u128,
);

fn check_row(rt: &impl Abort, tables: &Tables, row: &Row) {
    let (search, paths, length, looks) = row;
    let mut sink = Comparison::new(paths);
    let (answer, looked) = search.run(rt, tables, &mut sink);
    let solutions = paths.len() as u128;
    let wanted = match *length {
        Ok(length) => Ok(Outcome { length, solutions }),
        Err(Refused) => Err(Refused),
    };
    assert!(rt; answer == wanted, "{}", search.moves);
    assert!(rt; sink.took_all() && looked == *looks, "{}", search.moves);
}

/// Moves, and how far the solved cube is from the goal after them.
const DISTANCES: &[(&str, u8)] = &[("", 0), ("R", 1), ("R U", 2)];

/// Each look ticks once.
#[test]
fn looks_give_distances(rt: HostRuntime) {
    let tables = tables_of(&rt, rt.alloc(), Step::DrudEofb, &mut Meter::new());
    let mut meter = Meter::new();
    for (moves, distance) in DISTANCES {
        let position = position_after(&rt, &tables, moves);
        assert!(&rt; meter.count() < 3);
        assert!(&rt; tables.look(&position, &mut meter) == *distance, "{moves}");
    }
    assert!(&rt; meter.count() == 3);
    drop(tables);
}

/// A table for each alternative is filled, each with 18 turns from each of 2,048 entries, or 14 from each of 1,082,565.
const FILLS: &[(Step, u128)] = &[
    (Step::Eofb, 36_864),
    (Step::Eorl, 36_864),
    (Step::Eoud, 36_864),
    (Step::DrudEofb, 15_155_910),
    (Step::Eo, 110_592),
    (Step::DrEofb, 30_311_820),
    (Step::DrEorl, 30_311_820),
    (Step::DrEoud, 30_311_820),
];

/// Checks how many turns are tried from the entries of a step's tables while these are filled.
#[test]
fn a_fill_counts_each_turn_it_tries(rt: HostRuntime) {
    for (step, ticks) in FILLS {
        let mut meter = Meter::new();
        drop(tables_of(&rt, rt.alloc(), *step, &mut meter));
        assert!(&rt; meter.count() == *ticks, "{}", step.name());
    }
}

/// From the cube that both F and B disorient.
const TWO_TURNS: Search = Search {
    moves: "F B",
    limit: 5,
    slack: 0,
};

/// Up to a turn longer than the least.
const A_TURN_MORE: Search = Search {
    moves: "F",
    limit: 2,
    slack: 1,
};

/// Four turns are needed.
const TOO_FEW_TURNS: Search = Search {
    moves: "F R U B",
    limit: 3,
    slack: 0,
};

/// What disorients no edge may follow a turn that orients them all.
pub const ORIENTED_AFTER_F: &[&str] = &[
    "F", "F'", "F U", "F U2", "F U'", "F D", "F D2", "F D'", "F R", "F R2", "F R'", "F L", "F L2",
    "F L'", "F B2", "F' U", "F' U2", "F' U'", "F' D", "F' D2", "F' D'", "F' R", "F' R2", "F' R'",
    "F' L", "F' L2", "F' L'", "F' B2",
];

/// A refusal ends the search at once. The looks of `TWO_TURNS` before it: one in each of the deepenings to 0 and 1; then the
/// one at the root and 13 to F, 13 more to F B and 2 to F B'; 2 to F', 13 to F' B and 2 to F' B'. Without a refusal 27 follow
/// below B and B'. Those of `A_TURN_MORE`: 20 in the two deepenings before it; in the third the one at the root, 13 to F, and
/// the one to F U. Without a refusal the third has 76.
const ROWS: &[Row] = &[
    (TWO_TURNS, &[], Err(Refused), 29),
    (TWO_TURNS, &["F B"], Err(Refused), 31),
    (TWO_TURNS, &["F B", "F B'"], Err(Refused), 46),
    (TWO_TURNS, &["F B", "F B'", "F' B"], Err(Refused), 48),
    (
        TWO_TURNS,
        &["F B", "F B'", "F' B", "F' B'"],
        Ok(Some(2)),
        75,
    ),
    (A_TURN_MORE, &["F", "F'"], Err(Refused), 35),
    (A_TURN_MORE, ORIENTED_AFTER_F, Ok(Some(1)), 96),
    (TOO_FEW_TURNS, &[], Ok(None), 4),
];

/// Of a search from the cube after F: within how many looks, the paths, what it returns, and the looks.
type Within = (
    u128,
    &'static [&'static str],
    Result<Outcome, Stopped<Refused>>,
    u128,
);

/// One look in each of the deepenings to 0 and 1, and 18 more that find F and F': a bound of 19 cuts the search before these.
const BOUNDS: &[Within] = &[
    (
        20,
        &["F", "F'"],
        Ok(Outcome {
            length: Some(1),
            solutions: 2,
        }),
        20,
    ),
    (19, &[], Err(Stopped::Cut), 2),
];

fn check_within(rt: &impl Abort, tables: &Tables, row: &Within) {
    let (bound, paths, wanted, looks) = *row;
    let position = position_after(rt, tables, "F");
    let mut path = TurnPath::new(Limit::new(5).expect(rt, "a limit"));
    let mut meter = Meter::new();
    let mut sink = Comparison::new(paths);
    let slack = Limit::ZERO;
    let answer = search_within(
        tables, &position, slack, &mut path, &mut meter, &mut sink, bound,
    );
    assert!(rt; answer == wanted, "{bound}");
    assert!(rt; sink.took_all() && meter.count() == looks, "{bound}");
}

#[test]
fn paths_are_taken_or_refused(rt: HostRuntime) {
    let tables = tables_of(&rt, rt.alloc(), Step::Eofb, &mut Meter::new());
    for row in ROWS {
        check_row(&rt, &tables, row);
    }
    for row in BOUNDS {
        check_within(&rt, &tables, row);
    }
    drop(tables);
}
