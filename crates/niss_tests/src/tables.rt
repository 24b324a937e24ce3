//! Makes the runs of all tables.
use crate::runs::{check_looks, check_runs};
use crate::{alternatives, lines, near, solutions};

#[test]
fn runs_write_and_answer(rt: HostRuntime) {
    for runs in [
        lines::INVERTED,
        lines::JOINED,
        lines::CLEANED,
        lines::SHOWN,
        lines::SCRAMBLES,
        solutions::EDGES,
        solutions::AFTER_ROTATIONS,
        solutions::DOMINOES,
        solutions::NOT_STARTED,
        alternatives::DOMINOES,
    ] {
        check_runs(&rt, rt.alloc(), runs);
    }
}

#[test]
fn looks_are_counted(rt: HostRuntime) {
    for runs in [
        solutions::COUNTED,
        solutions::COUNTED_DOMINOES,
        alternatives::EDGES,
        alternatives::NOT_STARTED,
        near::NEAR,
    ] {
        check_looks(&rt, rt.alloc(), runs);
    }
}
