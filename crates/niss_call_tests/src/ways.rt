//! The best ways on. The rows are those of another program, which goes through all solutions of each step by the definition
//! alone, with its own cube and tables.
use crate::searches::tables_of;
use niss_cube::Step;
use niss_moves::{Niss, read};
use niss_search::{Limit, Meter, Tables};
use niss_ways::{Axes, AxisTables, SideTurns, Start, Way, WayTables, Wish, find_ways};
use std::alloc::Global;
use std::process::Abort;

const U: u8 = 0;

const U2: u8 = 1;

const U3: u8 = 2;

const D: u8 = 3;

const D2: u8 = 4;

const D3: u8 = 5;

const R: u8 = 6;

const R2: u8 = 7;

const R3: u8 = 8;

const L: u8 = 9;

const L2: u8 = 10;

const L3: u8 = 11;

const F: u8 = 12;

const F2: u8 = 13;

const F3: u8 = 14;

const B: u8 = 15;

const B2: u8 = 16;

const B3: u8 = 17;

/// Moves in all; bad corners, and edges on the wrong side of the slice; the turns of the orientation on the normal side and on the
/// inverse, and those of the reduction.
type Row = (u16, (u8, u8), [&'static [u8]; 4]);

/// A scramble, the moves so far, by how many turns an orientation may be longer than the shortest, and the best rows.
#[derive(Clone, Copy)]
struct Question {
    scramble: &'static [u8],
    so_far: &'static [u8],
    slack: u8,
    rows: &'static [Row],
}

const SCRAMBLE: &[u8] = b"R' U' F D2 L2 F R2 U2 R2 B D2 L B2 D' B2 L' R' B' D2 B2 R' U' F";

const QUESTIONS: &[Question] = &[
    Question {
        scramble: SCRAMBLE,
        so_far: b"",
        slack: 0,
        rows: &[
            (9, (7, 8), [&[F], &[B3, U, B], &[], &[D2, L, U3, L3, D]]),
            (
                10,
                (4, 4),
                [&[U], &[D, R3, B, U3], &[], &[R2, B3, U2, B, L]],
            ),
            (
                10,
                (6, 6),
                [&[R3, U, F3, R, L], &[], &[D3, F, B3, L2, D], &[]],
            ),
            (
                10,
                (6, 2),
                [&[U2, F3, U, L3, B2, D3], &[], &[U2, F], &[R3, F]],
            ),
            (
                10,
                (4, 4),
                [&[L3, B3, U3, F, B2, D], &[], &[], &[R2, U2, R2, F]],
            ),
            (
                11,
                (6, 6),
                [&[F], &[B3, U, B], &[U, L2, U, D2, L], &[D3, L]],
            ),
        ],
    },
    // moves on both sides
    Question {
        scramble: SCRAMBLE,
        so_far: b"B (D R2)",
        slack: 0,
        rows: &[
            (
                11,
                (7, 6),
                [&[], &[R, D, B3, D3, L], &[B3, D2, B], &[F2, U2, B]],
            ),
            (12, (7, 6), [&[F3], &[B3, D3, B], &[R3, L2, D], &[F2, D]]),
            (
                12,
                (6, 2),
                [&[F, L3, D3, B2, R3], &[], &[L2, D, B], &[R2, D3, B2, U3, F]],
            ),
            (
                12,
                (6, 4),
                [&[F3, U3, B3, L3, B3], &[], &[L, U], &[R, L, U]],
            ),
        ],
    },
    // the edges are oriented on one axis
    Question {
        scramble: SCRAMBLE,
        so_far: b"R' U F' R L",
        slack: 1,
        rows: &[
            (10, (6, 6), [&[], &[], &[D3, F, B3, L2, D], &[]]),
            (10, (6, 6), [&[], &[], &[D3, F3, B, R2, U], &[]]),
            (11, (6, 6), [&[], &[], &[U2, D, F, B3, R2, D], &[]]),
            (11, (6, 6), [&[], &[], &[U2, D, F3, B, L2, U], &[]]),
            (11, (6, 6), [&[], &[], &[F, B3, U3, D, F, U], &[]]),
        ],
    },
    Question {
        scramble: b"R U F2 L D R B",
        so_far: b"",
        slack: 1,
        rows: &[
            (5, (5, 6), [&[B3], &[], &[R3, D], &[R, U]]),
            (5, (7, 6), [&[B3], &[], &[R3, D3, L], &[R]]),
            (5, (0, 0), [&[B3, R3, D3, L], &[R], &[], &[]]),
            (6, (4, 4), [&[B3, R3, D3, L], &[R], &[], &[U]]),
        ],
    },
];

/// No line of a question is longer.
const MOST_BYTES: usize = 1_000;

/// Checks the turns of a side.
fn check_turns(rt: &impl Abort, turns: &SideTurns, wanted: &[u8]) {
    let told = turns.turns.get(..usize::from(turns.count));
    assert!(rt; told == Some(wanted));
}

/// Checks what a row tells.
fn check_row(rt: &impl Abort, way: &Way, row: &Row) {
    let (total, case, [first, second, third, fourth]) = row;
    assert!(rt; way.total == *total && (way.corners, way.edges) == *case);
    check_turns(rt, &way.eo.normal, first);
    check_turns(rt, &way.eo.inverse, second);
    check_turns(rt, &way.dr.normal, third);
    check_turns(rt, &way.dr.inverse, fourth);
}

/// What is read of a line.
fn line_of(rt: &impl Abort, bytes: &[u8]) -> Niss {
    assert!(rt; bytes.len() <= MOST_BYTES);
    read(bytes).expect(rt, "a line")
}

/// The most rows of a question.
const MOST_ROWS: usize = 6;

/// Checks the rows of a question, of which the room has no more.
fn check_rows(rt: &impl Abort, tables: &WayTables<Global>, question: &Question) {
    let scramble = line_of(rt, question.scramble);
    let so_far = line_of(rt, question.so_far);
    let start = Start::after(&scramble, &so_far).expect(rt, "few moves");
    let mut room = [Way::default(); MOST_ROWS];
    let wish = Wish {
        slack: Limit::new(question.slack).expect(rt, "a slack"),
        axes: Axes::ALL,
        from: Limit::ZERO,
        to: Limit::new(20).expect(rt, "a length"),
        most_looks: 1_000_000_000,
    };
    let places = question.rows.len();
    assert!(rt; places <= MOST_ROWS);
    let found = find_ways(tables, &start, &wish, &mut room[..places], 0);
    assert!(rt; !found.cut && found.rows == places);
    for (way, row) in room.iter().zip(question.rows) {
        check_row(rt, way, row);
    }
}

/// Answers the questions by the tables of the first nine steps.
fn check_questions(rt: &impl Abort, all: &[Tables]) {
    let [
        eofb,
        eorl,
        eoud,
        drud_eofb,
        drrl_eofb,
        drud_eorl,
        drfb_eorl,
        drrl_eoud,
        drfb_eoud,
    ] = all
    else {
        panic!(rt; "not nine tables")
    };
    let tables = WayTables {
        fb: Some(AxisTables {
            orientation: eofb,
            first: drud_eofb,
            second: drrl_eofb,
        }),
        rl: Some(AxisTables {
            orientation: eorl,
            first: drud_eorl,
            second: drfb_eorl,
        }),
        ud: Some(AxisTables {
            orientation: eoud,
            first: drrl_eoud,
            second: drfb_eoud,
        }),
    };
    for question in QUESTIONS {
        check_rows(rt, &tables, question);
    }
}

#[test]
fn the_best_rows_are_those_of_the_definition(rt: HostRuntime) {
    let mut all = Vec::new(rt.alloc());
    for step in Step::all().iter().take(9) {
        let tables = tables_of(&rt, rt.alloc(), *step, &mut Meter::new());
        all.push(tables).expect(&rt, "memory for tables");
    }
    check_questions(&rt, all.as_slice());
    drop(all);
}
