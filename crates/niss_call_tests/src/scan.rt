//! The scan of a table for the next entry of a level.
use niss_search::next_at;

/// It has 3 at its beginning, at the end of a block of 32, at the beginning of the next one, and at its end.
#[rattlefmt::skip]
const TABLE: [u8; 70] = [
    3, 21, 21, 21, 21, 21, 21, 21, 21, 21, 21, 21, 21, 21, 21, 21, 21, 21, 21, 21, 21, 21, 21, 21,
    21, 21, 21, 21, 21, 21, 21, 3, 3, 21, 21, 21, 21, 21, 21, 21, 21, 21, 21, 21, 21, 21, 21, 21,
    21, 21, 21, 21, 21, 21, 21, 21, 21, 21, 21, 21, 21, 21, 21, 21, 21, 21, 21, 21, 21, 3,
];

/// Where a scan begins, the level that it looks for, and what it finds.
type Row = (usize, u8, Option<usize>);

const ROWS: &[Row] = &[
    (0, 3, Some(0)),
    (1, 3, Some(31)),
    (32, 3, Some(32)),
    (33, 3, Some(69)),
    (70, 3, None),
    (0, 4, None),
    (0, 21, Some(1)),
];

#[test]
fn a_scan_finds_the_next_of_its_level(rt: HostRuntime) {
    for (from, level, found) in ROWS {
        assert!(rt; *from <= 70);
        assert!(rt; next_at(&TABLE, *from, *level) == *found, "from {from}");
    }
    assert!(rt; next_at(&[], 0, 3).is_none());
}
