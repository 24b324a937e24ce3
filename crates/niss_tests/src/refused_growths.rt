//! Each growth of a run refused in turn, by its number, until a run ends well.
use crate::devices::{Devices, FAULTLESS};
use crate::refusing::Refusing;
use crate::runs::Given::{Input, Words};
use crate::runs::Run::{self, Fault, Good};
use crate::runs::{OUT_OF_MEMORY, Outcome, SHORTEST, STEPS, run_over, words_of};
use linked_list_allocator::LocalHeap;
use std::alloc::Global;
use std::process::Abort;

/// The bytes of a heap with room for all.
const AMPLE: usize = 1 << 22;

/// More growths than any of the runs has.
const MOST_GROWTHS: u64 = 100;

/// Devices of a run that takes its memory here.
fn in_memory<'a>(memory: &'a Refusing<&'a LocalHeap>) -> Devices<'a> {
    Devices {
        memory: Some(memory),
        ..FAULTLESS
    }
}

/// Makes a run with this memory, and returns whether it ended well. If it didn't, nothing was read, written or looked at.
/// The words' own memory is another.
fn ends_well<'a>(
    rt: &impl Abort,
    alloc: Global,
    run: &Run<'static>,
    memory: &'a Refusing<&'a LocalHeap>,
) -> bool {
    let (given, granted) = run.parts();
    let (words, input) = given.parts();
    let words = words_of(alloc, words).expect(rt, "memory for words");
    let ran = run_over(alloc, &words, input, in_memory(memory));
    let is_good = ran.status == 0;
    let is_untouched = ran.input.reads == 0 && ran.out.writes == 0 && ran.looks == 0;
    assert!(rt; is_good || is_untouched);
    let wanted = if is_good {
        granted
    } else {
        Outcome {
            name: "a growth refused",
            output: b"",
            error: OUT_OF_MEMORY,
            status: 3,
        }
    };
    wanted.compare(rt, ran.status, &ran.out, &ran.err);
    drop(ran);
    is_good
}

/// Makes the run with the growth after so many others refused. Nothing is left in the heap then.
fn ends_well_after(rt: &impl Abort, alloc: Global, run: &Run<'static>, granted: u64) -> bool {
    let heap = LocalHeap::new(alloc, AMPLE).expect(rt, "a heap");
    let memory = Refusing::after(&heap, granted);
    let is_good = ends_well(rt, alloc, run, &memory);
    drop(memory);
    assert!(rt; heap.used() == 0, "after {granted} growths");
    is_good
}

/// Some growths are refused, each in a run of its own, until one ends well.
fn check_growths(rt: &impl Abort, alloc: Global, run: &Run<'static>) {
    let mut refused = 0u64;
    for granted in 0..MOST_GROWTHS {
        if ends_well_after(rt, alloc, run, granted) {
            break;
        }
        refused = refused.saturating_add(1);
    }
    assert!(rt; 0 < refused && refused < MOST_GROWTHS);
}

const RUNS: &[Run] = &[
    Good(Words(&["invert", "R U' F2"]), b"F2 U R'\n"),
    Good(Words(&["solve", "eofb", "7", "F"]), SHORTEST),
    Good(Input(&["solve", "eofb", "7"], b"F"), SHORTEST),
    Good(Words(&["near", "eofb", "7", "0", "F"]), SHORTEST),
    Good(
        Words(&["count", "drud-eofb", "5", "R", "U"]),
        b"length 2 solutions 2 nodes 28\n",
    ),
];

#[test]
fn each_growth_of_a_run_is_refused(rt: HostRuntime) {
    for run in RUNS {
        check_growths(&rt, rt.alloc(), run);
    }
}

/// What asks for no memory: lines from the source, scrambles, and the list of steps.
const WITHOUT_GROWTH: &[Run] = &[
    Good(Input(&["invert"], b"U\nR"), b"U'\nR'\n"),
    Good(Input(&["unniss"], b"U\nR"), b"U\nR\n"),
    Good(Input(&["cleanup"], b"U\nR"), b"U\nR\n"),
    Good(
        Input(&["print"], b"U\nR"),
        b"UUUUUUUUUBBBRRRRRRRRRFFFFFFDDDDDDDDDFFFLLLLLLLLLBBBBBB\nUUFUUFUUFRRRRRRRRRFFDFFDFFDDDBDDBDDBLLLLLLLLLUBBUBBUBB\n",
    ),
    Good(Input(&["steps"], b"U\nR"), STEPS),
    Good(
        Input(&["scramble", "42", "54", "6", "1"], b"U\nR"),
        b"L' D' F' R2 F' L'\n",
    ),
    Good(
        Input(&["scramble", "42", "54", "3", "2"], b"U\nR"),
        b"L' D' F'\nL F' L'\n",
    ),
    Fault(
        Input(&["unniss"], b"R\n(U"),
        b"R\n",
        b"nissy: line 2, column 1: bracket not closed\n",
    ),
];

/// Makes a run with the first growth refused.
pub fn check_first_refused(rt: &impl Abort, alloc: Global, run: Run<'_>) {
    let heap = LocalHeap::new(alloc, AMPLE).expect(rt, "a heap");
    let memory = Refusing::after(&heap, 0);
    run.check(rt, alloc, in_memory(&memory));
}

#[test]
fn runs_without_growth_end_well_with_the_first_refused(rt: HostRuntime) {
    for run in WITHOUT_GROWTH {
        check_first_refused(&rt, rt.alloc(), *run);
    }
}
