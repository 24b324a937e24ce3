//! Steps with alternatives: an edge orientation on any axis, and a domino reduction on either of two.
use crate::runs::Given::Words;
use crate::runs::Run::{self, Fault, Good};

pub const EDGES: &[(Run, u128)] = &[
    // two alternatives hold, and the empty sequence is one solution
    (
        Good(
            Words(&["count", "eo", "3", "F"]),
            b"length 0 solutions 1 nodes 1\n",
        ),
        1,
    ),
    (
        Good(
            Words(&["solve", "eo", "3", "F", "R", "U"]),
            b"U (1)\nU' (1)\n\n",
        ),
        20,
    ),
    (
        Good(
            Words(&["count", "eo", "3", "F", "R", "U"]),
            b"length 1 solutions 2 nodes 20\n",
        ),
        20,
    ),
    (
        Good(
            Words(&["solve", "eo", "0", "F R U"]),
            b"no solution within 0 moves\n\n",
        ),
        1,
    ),
    // four turns on the axis of U and D, five on each of the others
    (
        Good(
            Words(&["count", "eo", "20", "F R U B L D F"]),
            b"length 4 solutions 8 nodes 176\n",
        ),
        176,
    ),
    (
        Good(
            Words(&["count", "eorl", "20", "F R U B L D F"]),
            b"length 5 solutions 32 nodes 627\n",
        ),
        627,
    ),
    (
        Good(
            Words(&["count", "eofb", "20", "F R U B L D F"]),
            b"length 5 solutions 28 nodes 582\n",
        ),
        582,
    ),
];

/// A turn that reaches a domino reduction may be followed by one that keeps it, and by those of the other faces.
const EITHER_DOMINO: &[u8] = b"U (1)
U' (1)
U D2 (2)
U R (2)
U R2 (2)
U R' (2)
U L (2)
U L2 (2)
U L' (2)
U F2 (2)
U B2 (2)
U' D2 (2)
U' R (2)
U' R2 (2)
U' R' (2)
U' L (2)
U' L2 (2)
U' L' (2)
U' F2 (2)
U' B2 (2)

";

pub const DOMINOES: &[Run] = &[
    Good(
        Words(&["near", "dr-eofb", "2", "1", "R", "U"]),
        EITHER_DOMINO,
    ),
    Good(Words(&["solve", "dr-eofb", "5", "R"]), b"(0)\n\n"),
    // one turn for the second axis, but two for the first
    Good(
        Words(&["solve", "dr-eofb", "5", "R", "U"]),
        b"U (1)\nU' (1)\n\n",
    ),
    Good(
        Words(&["count", "dr-eofb", "3", ""]),
        b"length 0 solutions 1 nodes 1\n",
    ),
    Good(
        Words(&["count", "dr-eofb", "0", "R U"]),
        b"length none solutions 0 nodes 1\n",
    ),
    Good(
        Words(&["solve", "dr-eofb", "7", "R U F2 L D R"]),
        b"R' D' L' F2 U (5)\nR' D' L' F2 U' (5)\n\n",
    ),
    Good(
        Words(&["count", "dr-eofb", "20", "R U F2 L D R"]),
        b"length 5 solutions 2 nodes 60\n",
    ),
    Good(
        Words(&["solve", "dr-eorl", "7", "U F R2"]),
        b"R2 F (2)\nR2 F' (2)\n\n",
    ),
    Good(
        Words(&["solve", "dr-eoud", "7", "F R"]),
        b"R (1)\nR' (1)\n\n",
    ),
];

pub const NOT_STARTED: &[(Run, u128)] = &[
    (
        Fault(
            Words(&["solve", "dr-eoud", "3", "U"]),
            b"",
            b"nissy: line 1: eoud does not hold\n",
        ),
        0,
    ),
    (
        Fault(
            Words(&["solve", "dr-eofb", "3", "F"]),
            b"",
            b"nissy: line 1: eofb does not hold\n",
        ),
        0,
    ),
    (
        Fault(
            Words(&["count", "dr-eorl", "3", "R"]),
            b"",
            b"nissy: line 1: eorl does not hold\n",
        ),
        0,
    ),
    (
        Fault(
            Words(&["near", "dr-eoud", "3", "1", "U"]),
            b"",
            b"nissy: line 1: eoud does not hold\n",
        ),
        0,
    ),
];
