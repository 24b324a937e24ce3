//! Searches over both sides. Pairs and looks are those of another program, which has its own cube and tables; the few looks of
//! a part are counted by hand.
ghost use Rattle.std.specs.Prelude.{IsTrue};
ghost use Rattle.niss_cube.specs.Map.{map_of};
ghost use Rattle.niss_cube.specs.Steps.{may_start};

use crate::cubes::{F, cube_after};
use crate::path_sinks::{PairComparison, Refused};
use crate::searches::tables_of;
use niss_cube::{Cube, Step};
use niss_search::{
    Ends, Lengths, Limit, Meter, Outcome, PairsWanted, Sides, StepFrom, Stopped, Tables,
    search_both_within, search_pairs_of_length,
};
use std::process::Abort;

/// The solved cube after some moves, on which the step of the tables may start.
fn start(rt: &impl Abort, tables: &Tables, moves: &str) -> Cube
    ensures { IsTrue (may_start tables.now (map_of result)) }
{
    let cube = cube_after(rt, moves);
    assert!(rt; tables.step().may_start(&cube), "{moves}");
    cube
}

/// No search of this file looks so often.
const ENOUGH: u128 = 1_000_000;

/// A pair: its turns on the normal side, and those on the inverse.
type Written = (&'static str, &'static str);

/// Moves, how many turns at most and how many more than the least, and within how many looks; the pairs that the sink takes
/// before it refuses one, the least length or why the search ends, and the looks.
type Row = (
    (&'static str, u8, u8),
    u128,
    &'static [Written],
    Result<Option<u8>, Stopped<Refused>>,
    u128,
);

fn check_row(rt: &impl Abort, tables: &Tables, row: &Row) {
    let ((moves, limit, slack), bound, pairs, wanted, looks) = *row;
    let cube = start(rt, tables, moves);
    let lengths = Lengths {
        limit: Limit::new(limit).expect(rt, "a limit"),
        slack: Limit::new(slack).expect(rt, "a slack"),
    };
    let mut meter = Meter::new();
    let mut sink = PairComparison::new(pairs);
    let from = StepFrom {
        tables,
        cube: &cube,
    };
    let answer = search_both_within(&from, lengths, &mut meter, &mut sink, bound);
    let solutions = pairs.len() as u128;
    let wanted = match wanted {
        Ok(length) => Ok(Outcome { length, solutions }),
        Err(stop) => Err(stop),
    };
    assert!(rt; answer == wanted, "{moves}");
    assert!(rt; sink.took_all() && meter.count() == looks, "{moves}");
}

const AFTER_F: &[(&str, &str)] = &[("", "F"), ("", "F'"), ("F", ""), ("F'", "")];

const AFTER_F_B: &[(&str, &str)] = &[
    ("", "F B"),
    ("", "F B'"),
    ("", "F' B"),
    ("", "F' B'"),
    ("F", "B"),
    ("F", "B'"),
    ("F'", "B"),
    ("F'", "B'"),
    ("B", "F"),
    ("B", "F'"),
    ("B'", "F"),
    ("B'", "F'"),
    ("F B", ""),
    ("F B'", ""),
    ("F' B", ""),
    ("F' B'", ""),
];

/// One side alone needs four turns.
const AFTER_F_R_U_B: &[(&str, &str)] = &[("B", "F"), ("B", "F'"), ("B'", "F"), ("B'", "F'")];

/// With a turn more: of two sequences that differ in order alone, one is canonical.
const AND_A_TURN_MORE: &[(&str, &str)] = &[
    ("B", "F"),
    ("B", "F'"),
    ("B'", "F"),
    ("B'", "F'"),
    ("F2 B", "F"),
    ("F2 B'", "F"),
    ("F2 B", "F'"),
    ("F2 B'", "F'"),
];

/// Those of no or one turn more than the least: F U, a solution with a turn more, has F as its first turn, which reaches the
/// step, so it is none of them. Up to one turn no pair reaches the step after F R U B, which needs four turns on one side alone,
/// and two over both: each side makes one look with no turn, and one with a turn on the other.
const IN_ORDER: &[Row] = &[
    (("", 20, 0), ENOUGH, &[("", "")], Ok(Some(0)), 1),
    (("F", 20, 0), ENOUGH, AFTER_F, Ok(Some(1)), 39),
    (("F B", 20, 0), ENOUGH, AFTER_F_B, Ok(Some(2)), 225),
    (("F R U B", 20, 0), ENOUGH, AFTER_F_R_U_B, Ok(Some(2)), 45),
    (("F", 20, 1), ENOUGH, AFTER_F, Ok(Some(1)), 231),
    (
        ("F R U B", 20, 1),
        ENOUGH,
        AND_A_TURN_MORE,
        Ok(Some(2)),
        343,
    ),
    (("F R U B", 1, 3), ENOUGH, &[], Ok(None), 3),
];

/// After F: the look with no turn; on the inverse the one at the root, 13 to F and 2 more to F', and 3 after it; on the normal
/// side the one at the root, and 18 that follow at once, which pass a bound of 38.
const ENDED: &[Row] = &[
    (
        ("F", 20, 0),
        38,
        &[("", "F"), ("", "F'")],
        Err(Stopped::Cut),
        21,
    ),
    (("F", 20, 0), 0, &[], Err(Stopped::Cut), 0),
    (
        ("F", 20, 0),
        ENOUGH,
        &[],
        Err(Stopped::Refused(Refused)),
        15,
    ),
    (
        ("F", 20, 0),
        ENOUGH,
        &[("", "F")],
        Err(Stopped::Refused(Refused)),
        17,
    ),
];

/// R and L turn the corners of this reduction.
const AFTER_R_U_R: Row = (
    ("R U R", 20, 0),
    ENOUGH,
    &[("R", "R"), ("R", "R'"), ("R'", "R"), ("R'", "R'")],
    Ok(Some(2)),
    37,
);

#[test]
fn a_reduction_has_pairs(rt: HostRuntime) {
    let tables = tables_of(&rt, rt.alloc(), Step::DrudEofb, &mut Meter::new());
    check_row(&rt, &tables, &AFTER_R_U_R);
    drop(tables);
}

/// A search after F for pairs of one length on some sides, with all of twins or one, the pairs, and how often it looks.
type LengthRow = (Sides, Ends, u8, &'static [Written], u128);

/// The looks of all lengths together are those of the search over both sides: on each side there is one at the cube, and one
/// after each of 18 turns. Of twins one comes, on each side, if one is enough.
const LENGTHS: &[LengthRow] = &[
    (Sides::Both, Ends::Any, 0, &[], 1),
    (Sides::Both, Ends::Any, 1, AFTER_F, 38),
    (Sides::Both, Ends::Any, 2, &[], 192),
    (
        Sides::Both,
        Ends::NotCounter,
        1,
        &[("", "F"), ("F", "")],
        38,
    ),
    (Sides::Normal, Ends::Any, 1, &[("F", ""), ("F'", "")], 19),
    (Sides::Inverse, Ends::Any, 1, &[("", "F"), ("", "F'")], 19),
];

fn check_length(rt: &impl Abort, tables: &Tables, row: &LengthRow) {
    let (sides, ends, turns, pairs, looks) = *row;
    let wanted = PairsWanted {
        sides,
        ends,
        length: Limit::new(turns).expect(rt, "a length"),
    };
    let cube = start(rt, tables, "F");
    let mut meter = Meter::new();
    let mut sink = PairComparison::new(pairs);
    let from = StepFrom {
        tables,
        cube: &cube,
    };
    let answer = search_pairs_of_length(&from, wanted, &mut meter, &mut sink, ENOUGH);
    assert!(rt; answer == Ok(pairs.len() as u128), "{turns}");
    assert!(rt; sink.took_all() && meter.count() == looks, "{turns}");
}

/// All pairs come in order, or a search ends early; and those of one length.
#[test]
fn pairs_come_in_order_until_a_search_ends(rt: HostRuntime) {
    let tables = tables_of(&rt, rt.alloc(), Step::Eofb, &mut Meter::new());
    for row in IN_ORDER.iter().chain(ENDED) {
        check_row(&rt, &tables, row);
    }
    for row in LENGTHS {
        check_length(&rt, &tables, row);
    }
    drop(tables);
}

/// A turn before all that made a cube, and the cube of the inverse moves.
#[test]
fn cubes_have_an_inverse_side(rt: HostRuntime) {
    let mut cube = cube_after(&rt, "R U2 L'");
    assert!(rt; cube.inverse() == cube_after(&rt, "L U2 R'"));
    cube.turn_before(F);
    assert!(rt; cube == cube_after(&rt, "F R U2 L'"));
    assert!(rt; cube.inverse() == cube_after(&rt, "L U2 R' F'"));
}
