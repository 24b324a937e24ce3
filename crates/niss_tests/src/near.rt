//! Solutions that are up to some turns longer than the least.
use crate::runs::Given::{Input, Words};
use crate::runs::Run::{self, Fault, Good};
use crate::runs::SHORTEST;

/// The edge orientations of at most two turns of the cube after F.
const AFTER_F: &[u8] = b"F (1)
F' (1)
F U (2)
F U2 (2)
F U' (2)
F D (2)
F D2 (2)
F D' (2)
F R (2)
F R2 (2)
F R' (2)
F L (2)
F L2 (2)
F L' (2)
F B2 (2)
F' U (2)
F' U2 (2)
F' U' (2)
F' D (2)
F' D2 (2)
F' D' (2)
F' R (2)
F' R2 (2)
F' R' (2)
F' L (2)
F' L2 (2)
F' L' (2)
F' B2 (2)

";

/// Runs, and how many positions they look at: those of all deepenings to the last length.
pub const NEAR: &[(Run, u128)] = &[
    // the slack cuts the limit
    (Good(Words(&["near", "eofb", "7", "0", "F"]), SHORTEST), 20),
    (Good(Words(&["near", "eofb", "2", "0", "F"]), SHORTEST), 20),
    (Good(Words(&["near", "eofb", "20", "1", "F"]), AFTER_F), 96),
    // the limit cuts the slack
    (Good(Words(&["near", "eofb", "1", "5", "F"]), SHORTEST), 20),
    (Good(Words(&["near", "eofb", "2", "20", "F"]), AFTER_F), 96),
    // 1, 19 and 76
    (Good(Words(&["near", "eofb", "2", "1", "F"]), AFTER_F), 96),
    (
        Good(
            Words(&["near", "eofb", "0", "3", "F"]),
            b"no solution within 0 moves\n\n",
        ),
        1,
    ),
    (
        Good(
            Words(&["near", "drud-eofb", "1", "1", ""]),
            b"(0)\nU (1)\nU2 (1)\nU' (1)\nD (1)\nD2 (1)\nD' (1)\nR2 (1)\nL2 (1)\nF2 (1)\nB2 (1)\n\n",
        ),
        16,
    ),
    (
        Good(Input(&["near", "eofb", "007", "00"], b"F\n"), SHORTEST),
        20,
    ),
    (Good(Input(&["near", "eofb", "5", "0"], b""), b""), 0),
    (
        Fault(
            Input(&["near", "eofb", "1", "0"], b"F\nR\nq\nF"),
            b"F (1)\nF' (1)\n\n(0)\n\n",
            b"nissy: line 3, column 1: not a move\n",
        ),
        21,
    ),
];
