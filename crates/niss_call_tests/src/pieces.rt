//! Solutions behind a sequence: a list in pieces, and sequences that are no solutions.
use crate::path_sinks::{Comparison, Refused};
use crate::searches::{ORIENTED_AFTER_F, position_after, tables_of};
use niss_cube::Step;
use niss_moves::{read, to_faces};
use niss_search::{Limit, Meter, Stopped, Tables, TurnPath, search_after};
use std::process::Abort;

/// What a search behind a sequence is to hand out and return, within so many looks.
#[derive(Clone, Copy)]
struct Behind<'a> {
    limit: u8,
    after: &'a str,
    paths: &'a [&'a str],
    answer: Result<u128, Stopped<Refused>>,
    bound: u128,
}

/// No search of this file looks so often.
const AMPLE: u128 = 10_000;

impl Behind<'_> {
    /// Searches behind the sequence, from the solved cube after some moves, and returns the looks.
    fn check(&self, rt: &impl Abort, tables: &Tables, moves: &str) -> u128 {
        let position = position_after(rt, tables, moves);
        assert!(rt; self.after.len() <= 256, "{}", self.after);
        let line = read(self.after.as_bytes()).expect(rt, "face turns");
        let (after, _) = to_faces(line.normal());
        let mut path = TurnPath::new(Limit::new(self.limit).expect(rt, "a limit"));
        let mut meter = Meter::new();
        let mut sink = Comparison::new(self.paths);
        let answer = search_after(
            tables, &position, &after, &mut path, &mut meter, &mut sink, self.bound,
        );
        assert!(rt; answer == self.answer, "{}", self.after);
        assert!(rt;
            sink.took_all() && path.turns().is_empty(),
            "{}",
            self.after
        );
        meter.count()
    }
}

/// Goes on behind each of the edge orientations of at most two turns of the cube after F, so many at a time.
fn check_pieces(rt: &impl Abort, tables: &Tables, size: usize) {
    for index in 0..ORIENTED_AFTER_F.len() {
        let (_, rest) = ORIENTED_AFTER_F.split_at(index + 1);
        let count = size.min(rest.len());
        let (paths, others) = rest.split_at(count);
        let answer = if others.is_empty() {
            Ok(count as u128)
        } else {
            Err(Stopped::Refused(Refused))
        };
        let behind = Behind {
            limit: 2,
            after: ORIENTED_AFTER_F[index],
            paths,
            answer,
            bound: AMPLE,
        };
        behind.check(rt, tables, "F");
    }
}

#[test]
fn a_piece_goes_on_behind_each_solution(rt: HostRuntime) {
    let tables = tables_of(&rt, rt.alloc(), Step::Eofb, &mut Meter::new());
    for size in &[1usize, 2, 7] {
        check_pieces(&rt, &tables, *size);
    }
    drop(tables);
}

/// Sequences of which the last six are no solutions, and how many of the list stand before those that come after them: F is
/// a turn of F and stands first in turn order; U, D, R and L come before it, B after.
const STANDING_BEFORE: &[(&str, usize)] = &[
    ("F' B2", 28),
    ("F", 1),
    ("L B2", 2),
    ("F2", 1),
    ("F2 U", 15),
    ("D U", 2),
    ("B F", 28),
    ("U D R", 28),
];

/// F' B2 is the last of two turns. Behind it there is a look at the root, one after F' and one after F' B', one after each of
/// B, B2 and B', which come after F', and since B2 leaves what a turn of F orients, 12 after it; F may not follow there. A
/// bound of 16 cuts the search before these 12.
const BEHIND_THE_LAST: &[(Behind, u128)] = &[
    (
        Behind {
            limit: 2,
            after: "F' B2",
            paths: &[],
            answer: Ok(0),
            bound: 18,
        },
        18,
    ),
    (
        Behind {
            limit: 2,
            after: "F' B2",
            paths: &[],
            answer: Err(Stopped::Cut),
            bound: 16,
        },
        5,
    ),
];

#[test]
fn any_sequence_has_a_place_in_the_order(rt: HostRuntime) {
    let tables = tables_of(&rt, rt.alloc(), Step::Eofb, &mut Meter::new());
    for (after, before) in STANDING_BEFORE {
        let (_, paths) = ORIENTED_AFTER_F.split_at(*before);
        let behind = Behind {
            limit: 2,
            after,
            paths,
            answer: Ok(paths.len() as u128),
            bound: AMPLE,
        };
        behind.check(&rt, &tables, "F");
    }
    for (behind, looks) in BEHIND_THE_LAST {
        assert!(&rt; behind.check(&rt, &tables, "F") == *looks);
    }
    drop(tables);
}

/// On the solved cube the solution without a turn comes first; the ten turns that keep a domino come after it.
const BEHIND_NO_TURN: Behind<'static> = Behind {
    limit: 1,
    after: "",
    paths: &["U", "U2", "U'", "D", "D2", "D'", "R2", "L2", "F2", "B2"],
    answer: Ok(10),
    bound: AMPLE,
};

#[test]
fn behind_no_turn_are_the_others(rt: HostRuntime) {
    let tables = tables_of(&rt, rt.alloc(), Step::DrudEofb, &mut Meter::new());
    BEHIND_NO_TURN.check(&rt, &tables, "");
    drop(tables);
}
