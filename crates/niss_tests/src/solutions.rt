//! Shortest solutions of a step on one axis, and how many there are.
use crate::runs::Given::{Input, Words};
use crate::runs::Run::{self, Fault, Good};
use crate::runs::SHORTEST;

pub const EDGES: &[Run] = &[
    Good(Words(&["solve", "eofb", "7", "F"]), SHORTEST),
    Good(Words(&["solve", "eofb", "007", "F"]), SHORTEST),
    Good(
        Words(&[
            "solve",
            "eofb",
            "000000000000000000000000000000000000001",
            "F",
        ]),
        SHORTEST,
    ),
    Good(
        Words(&["solve", "eofb", "0", "F"]),
        b"no solution within 0 moves\n\n",
    ),
    Good(
        Words(&["solve", "eofb", "1", "F", "B"]),
        b"no solution within 1 moves\n\n",
    ),
    Good(
        Words(&["solve", "eofb", "2", "F R U B"]),
        b"no solution within 2 moves\n\n",
    ),
    Good(
        Words(&["solve", "eofb", "3", "F R U B"]),
        b"no solution within 3 moves\n\n",
    ),
    Good(Words(&["solve", "eofb", "3", ""]), b"(0)\n\n"),
    Good(Words(&["solve", "eofb", "20", ""]), b"(0)\n\n"),
    Good(Words(&["solve", "eorl", "7", "R"]), b"R (1)\nR' (1)\n\n"),
    Good(Input(&["solve", "eofb", "3"], b""), b""),
];

pub const AFTER_ROTATIONS: &[Run] = &[
    Good(Words(&["solve", "eofb", "3", "x U"]), SHORTEST),
    Good(Words(&["solve", "eofb", "3", "x", "U"]), SHORTEST),
    Good(Words(&["solve", "eofb", "3", "x F"]), b"(0)\n\n"),
    Good(Words(&["solve", "eofb", "3", "x", "F"]), b"(0)\n\n"),
    Good(Words(&["solve", "eofb", "3", "Fw"]), b"B (1)\nB' (1)\n\n"),
    Good(Words(&["solve", "eofb", "3", "(F)"]), SHORTEST),
];

pub const DOMINOES: &[Run] = &[
    Good(
        Words(&["solve", "drud-eofb", "5", "R", "U"]),
        b"U' R (2)\nU' R' (2)\n\n",
    ),
    Good(
        Words(&["solve", "drud-eofb", "5", "R"]),
        b"R (1)\nR' (1)\n\n",
    ),
    Good(
        Words(&["solve", "drud-eofb", "3", "R U L D"]),
        b"no solution within 3 moves\n\n",
    ),
    Good(Words(&["solve", "drrl-eofb", "5", "R"]), b"(0)\n\n"),
    Good(
        Words(&["solve", "drfb-eorl", "3", "U"]),
        b"U (1)\nU' (1)\n\n",
    ),
];

pub const NOT_STARTED: &[Run] = &[
    Fault(
        Words(&["solve", "drud-eofb", "5", "F"]),
        b"",
        b"nissy: line 1: eofb does not hold\n",
    ),
    Fault(
        Input(&["count", "drud-eorl", "5"], b"U\nR\nU"),
        b"length 0 solutions 1 nodes 1\n",
        b"nissy: line 2: eorl does not hold\n",
    ),
    Fault(
        Input(&["solve", "drrl-eoud", "20"], b"U\n(U)\n"),
        b"",
        b"nissy: line 1: eoud does not hold\n",
    ),
];

/// Runs, and how many positions they look at: each in each deepening.
pub const COUNTED: &[(Run, u128)] = &[
    (
        Good(
            Words(&["solve", "eofb", "5", "F", "B"]),
            b"F B (2)\nF B' (2)\nF' B (2)\nF' B' (2)\n\n",
        ),
        75,
    ),
    // 1, 1 and 73
    (
        Good(
            Words(&["count", "eofb", "5", "F", "B"]),
            b"length 2 solutions 4 nodes 75\n",
        ),
        75,
    ),
    (
        Good(
            Words(&["count", "eofb", "1", "F", "B"]),
            b"length none solutions 0 nodes 2\n",
        ),
        2,
    ),
    (
        Good(
            Words(&["count", "eofb", "20", ""]),
            b"length 0 solutions 1 nodes 1\n",
        ),
        1,
    ),
    (
        Good(
            Words(&["count", "eofb", "0", "F"]),
            b"length none solutions 0 nodes 1\n",
        ),
        1,
    ),
    // 1 and 19
    (
        Good(
            Words(&["count", "eofb", "7", "F"]),
            b"length 1 solutions 2 nodes 20\n",
        ),
        20,
    ),
    (
        Good(
            Words(&["count", "eorl", "7", "R"]),
            b"length 1 solutions 2 nodes 20\n",
        ),
        20,
    ),
    // four turns are needed: one look in each deepening
    (
        Good(
            Words(&["count", "eofb", "2", "F R U B"]),
            b"length none solutions 0 nodes 3\n",
        ),
        3,
    ),
    (
        Good(
            Words(&["count", "eofb", "3", "F R U B"]),
            b"length none solutions 0 nodes 4\n",
        ),
        4,
    ),
    (
        Good(
            Input(&["count", "eofb", "7"], b"F\nR"),
            b"length 1 solutions 2 nodes 20\nlength 0 solutions 1 nodes 1\n",
        ),
        21,
    ),
    (
        Fault(
            Input(&["solve", "eofb", "2"], b"R\nF\nq\nF"),
            b"(0)\n\nF (1)\nF' (1)\n\n",
            b"nissy: line 3, column 1: not a move\n",
        ),
        21,
    ),
    // what doesn't search looks at nothing
    (Good(Words(&["invert", "R"]), b"R'\n"), 0),
];

/// The same of domino reductions.
pub const COUNTED_DOMINOES: &[(Run, u128)] = &[
    // 1 and 15
    (
        Good(
            Words(&["count", "drud-eofb", "5", "R"]),
            b"length 1 solutions 2 nodes 16\n",
        ),
        16,
    ),
    // 1, 1 and 26
    (
        Good(
            Words(&["count", "drud-eofb", "5", "R", "U"]),
            b"length 2 solutions 2 nodes 28\n",
        ),
        28,
    ),
    (
        Good(
            Words(&["count", "drud-eofb", "3", "R U L D"]),
            b"length none solutions 0 nodes 4\n",
        ),
        4,
    ),
    (
        Good(
            Words(&["count", "drrl-eofb", "5", "R"]),
            b"length 0 solutions 1 nodes 1\n",
        ),
        1,
    ),
    (
        Good(
            Words(&["count", "drfb-eorl", "3", "U"]),
            b"length 1 solutions 2 nodes 16\n",
        ),
        16,
    ),
];
