//! Tables in heaps of the size that they ask for, or a little less, each of their growths refused in turn, and a heap while a
//! search goes on.
ghost use Rattle.std.specs.Prelude.{◌≤◌, ◌^◌};

use crate::coordinates::check_numbers;
use crate::path_sinks::HeapWatch;
use crate::searches::{Search, tables_of};
use linked_list_allocator::LocalHeap;
use niss_cube::{OutOfMemory, Step, TurnTables};
use niss_search::{Meter, Tables};
use std::alloc::Global;
use std::process::Abort;

/// A heap of this size has no room for the tables, and nothing of them is left in it.
fn check_refused(rt: &impl Abort, alloc: Global, size: usize) {
    let heap = LocalHeap::new(alloc, size).expect(rt, "a heap");
    let refused = TurnTables::build_in(&heap).err();
    assert!(rt;
        refused == Some(OutOfMemory) && heap.used() == 0,
        "a heap of {size}"
    );
}

/// Fills a heap with the tables. Others are refused then, and built once the first ones were dropped.
fn check_room_for_one(rt: &impl Abort, heap: &LocalHeap) {
    let tables = TurnTables::build_in(heap).expect(rt, "tables");
    assert!(rt; TurnTables::build_in(heap).err() == Some(OutOfMemory));
    check_numbers(rt, &tables);
    drop(tables);
    let again = TurnTables::build_in(heap).expect(rt, "tables again");
    check_numbers(rt, &again);
    drop(again);
}

#[test]
fn turn_tables_fill_a_heap_or_are_refused(rt: HostRuntime) {
    // the three growths ask for 73728, 78732 and 17820 bytes, and each takes a multiple of 16
    for size in &[73_712usize, 152_448, 170_272] {
        check_refused(&rt, rt.alloc(), *size);
    }
    let heap = LocalHeap::new(rt.alloc(), 170_288).expect(&rt, "a heap");
    check_room_for_one(&rt, &heap);
}

/// The bytes of a table of the flips after each turn. Each growth takes a multiple of 16.
const FLIPS: usize = 73_728;

/// The bytes of such a table of the twists, and of one of the slices.
const TWISTS_AND_SLICES: usize = 78_736 + 17_824;

/// The bytes for an edge orientation: its moves take as much as those of its coordinate, and each position one for its distance.
const EDGES: usize = FLIPS + 2048;

/// The bytes for a domino reduction, in the same way.
const DOMINO: usize = TWISTS_AND_SLICES + 1_082_576;

/// A step, moves before a search, and the bytes that the tables take.
type Kind = (Step, &'static str, usize);

const KINDS: &[Kind] = &[
    (Step::Eofb, "F", FLIPS + EDGES),
    (Step::Eo, "F R U", FLIPS + 3 * EDGES),
    (Step::DrudEofb, "R", TWISTS_AND_SLICES + DOMINO),
    (Step::DrEofb, "R U", TWISTS_AND_SLICES + 2 * DOMINO),
];

/// Searches from the solved cube after some moves, by tables in a heap that has room for no more. At each hand-out it has given
/// nothing more.
fn check_search(rt: &impl Abort, heap: &LocalHeap, kind: &Kind) {
    let (step, moves, _) = *kind;
    let tables = Tables::build_in(heap, step, &mut Meter::new()).expect(rt, "tables");
    let search = Search {
        moves,
        limit: 3,
        slack: 1,
    };
    let mut sink = HeapWatch {
        heap,
        used: heap.used(),
        is_same: true,
    };
    let (answer, _looks) = search.run(rt, &tables, &mut sink);
    let found = answer.expect(rt, moves);
    assert!(rt; found.solutions > 0 && sink.is_same, "{moves}");
    drop(tables);
}

/// A search keeps nothing in the memory of its tables, and they take no more than is said.
#[test]
fn searches_hold_no_memory(rt: HostRuntime) {
    for kind in KINDS {
        let heap = LocalHeap::new(rt.alloc(), kind.2).expect(&rt, "a heap");
        check_search(&rt, &heap, kind);
    }
}

/// The bytes of a heap with room for all.
const AMPLE: usize = 1 << 22;

/// How many rooms are tried.
const MOST_ROOMS: usize = 1000;

/// The turns that the fill of an orientation's table tries: where the meter stands before each build.
const TICKS_BEFORE: u128 = 36_864;

/// Whether a room, the number of which is given, is enough for the tables of a step. Rooms differ by less than the smallest growth
/// of these tables: so each growth is refused in one of them. Enough or not, nothing is left in the heap.
fn fits_in(rt: &impl Abort, heap: &LocalHeap, step: Step, number: usize, meter: &mut Meter) -> bool
    requires { meter.old ≤ 2 ^ 127 }
{
    let has_start = step.start_name().is_some();
    let room = number.saturating_mul(if has_start { 16_000 } else { 2_000 });
    let filled: Vec<u8, &LocalHeap> = Vec::with_capacity(heap, AMPLE.saturating_sub(room)).expect(
        rt,
        "a heap of this size",
    );
    let used = heap.used();
    let built = Tables::build_in(heap, step, meter);
    let fits = built.is_ok();
    drop(built);
    assert!(rt; heap.used() == used, "{}", step.name());
    drop(filled);
    fits
}

/// Checks that of rooms that grow some are refused, which leaves the meter where it stood, and that one is enough, also with a
/// meter above 0.
fn check_growths(rt: &impl Abort, alloc: Global, step: Step) {
    let heap = LocalHeap::new(alloc, AMPLE).expect(rt, "a heap");
    let mut meter = Meter::new();
    drop(tables_of(rt, alloc, Step::Eofb, &mut meter));
    let mut refused = 0usize;
    for number in 0..MOST_ROOMS {
        assert!(rt; meter.count() == TICKS_BEFORE, "{}", step.name());
        if fits_in(rt, &heap, step, number, &mut meter) {
            break;
        }
        refused = refused.saturating_add(1);
    }
    assert!(rt; 0 < refused && refused < MOST_ROOMS, "{}", step.name());
}

#[test]
fn each_growth_of_a_step_is_refused(rt: HostRuntime) {
    for step in Step::all() {
        check_growths(&rt, rt.alloc(), *step);
    }
}
