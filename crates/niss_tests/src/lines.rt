//! Lines that are inverted, joined, cleaned or shown, and what needs no lines: what a run writes, reports and returns.
use crate::runs::Given::{Input, Words};
use crate::runs::Run::{self, Fault, Good};
use crate::runs::STEPS;

pub const INVERTED: &[Run] = &[
    Good(Words(&["invert", "R U' F2"]), b"F2 U R'\n"),
    Good(Words(&["invert", ""]), b"\n"),
    Good(Words(&["invert", "R2'", "U"]), b"U' R2\n"),
    Good(Words(&["invert", "(R)"]), b"R\n"),
    Good(Words(&["invert", "R (U F') D"]), b"U F' D' R'\n"),
    Good(
        Words(&["invert", "u2 (f'M' yB2\u{2019})"]),
        b"Fw' M' y B2 Uw2\n",
    ),
    Good(Input(&["invert"], b""), b""),
    Good(Input(&["invert"], b"R\nU"), b"R'\nU'\n"),
    Good(Input(&["invert"], b"R\nU\n\n"), b"R'\nU'\n\n"),
    Good(Input(&["invert"], b"R\r\nU\r\n"), b"R'\nU'\n"),
    Good(Input(&["invert"], b"R\xe2\x80\x99\n"), b"R\n"),
    Fault(
        Words(&["invert", "R '"]),
        b"",
        b"nissy: line 1, column 3: not a move\n",
    ),
    Fault(
        Input(&["invert"], b"R\xe2\x80U\n"),
        b"",
        b"nissy: line 1, column 2: not a move\n",
    ),
    Fault(
        Input(&["invert"], b"R\nq\nU"),
        b"R'\n",
        b"nissy: line 2, column 1: not a move\n",
    ),
];

pub const JOINED: &[Run] = &[
    Good(Words(&["unniss", "R (U F') D"]), b"R D F U'\n"),
    Good(Words(&["unniss", "r2' Mx'"]), b"Rw2 M x'\n"),
    Good(
        Words(&["unniss", "u2 (f'M' yB2\u{2019})"]),
        b"Uw2 B2 y' M Fw\n",
    ),
    Fault(
        Words(&["unniss", "R Q"]),
        b"",
        b"nissy: line 1, column 3: not a move\n",
    ),
    Fault(
        Words(&["unniss", "(R (U))"]),
        b"",
        b"nissy: line 1, column 4: bracket inside a bracket\n",
    ),
    Fault(
        Words(&["unniss", "R (U ("]),
        b"",
        b"nissy: line 1, column 6: bracket inside a bracket\n",
    ),
    Fault(
        Words(&["unniss", "R )"]),
        b"",
        b"nissy: line 1, column 3: bracket closed that was not opened\n",
    ),
    Fault(
        Words(&["unniss", "R)"]),
        b"",
        b"nissy: line 1, column 2: bracket closed that was not opened\n",
    ),
    Fault(
        Words(&["unniss", "(R) (U"]),
        b"",
        b"nissy: line 1, column 5: bracket not closed\n",
    ),
    Fault(
        Input(&["unniss"], b"R\n(U"),
        b"R\n",
        b"nissy: line 2, column 1: bracket not closed\n",
    ),
];

pub const CLEANED: &[Run] = &[
    Good(Words(&["cleanup", "Rw U"]), b"L F x\n"),
    Good(Words(&["cleanup", "r U"]), b"L F x\n"),
    Good(Words(&["cleanup", "M"]), b"R L' x'\n"),
    Good(Words(&["cleanup", "z z"]), b"x2 y2\n"),
    Good(Words(&["cleanup", "x y x'"]), b"z\n"),
    Good(Words(&["cleanup", "D U"]), b"U D\n"),
    Good(Words(&["cleanup", "U D U'"]), b"D\n"),
    Good(Words(&["cleanup", "D U D'"]), b"U\n"),
    Good(Words(&["cleanup", "R L R"]), b"R2 L\n"),
    Good(Words(&["cleanup", "F F F F"]), b"\n"),
    Good(Words(&["cleanup", "R R'"]), b"\n"),
    Good(Words(&["cleanup", "R2'"]), b"R2\n"),
    // these two have one effect: the clean list is more than that
    Good(Words(&["cleanup", "R2 L2 U2 D2"]), b"R2 L2 U2 D2\n"),
    Good(Words(&["cleanup", "U2 D2 R2 L2"]), b"U2 D2 R2 L2\n"),
    Good(Words(&["cleanup", "R (U U) R'"]), b"(U2)\n"),
    Good(Words(&["cleanup", "R L R (U U) R'"]), b"R L (U2)\n"),
    Good(Words(&["cleanup", "x (y)"]), b"x (y)\n"),
    Good(Words(&["cleanup", "R (U2 x)"]), b"R (U2 x)\n"),
    Good(Input(&["cleanup"], b"Rw U\nM\n"), b"L F x\nR L' x'\n"),
];

/// Edges in each other place of each face.
const CHECKERED: &[u8] = b"UDUDUDUDURLRLRLRLRFBFBFBFBFDUDUDUDUDLRLRLRLRLBFBFBFBFB\n";

/// The cube on which each edge is flipped in its place, by a sequence of 20 turns.
const SUPERFLIP: &str = "U R2 F B R B2 R U2 L B2 R U' D' R2 F R' L B2 U2 F2";

pub const SHOWN: &[Run] = &[
    Good(
        Words(&["print", ""]),
        b"UUUUUUUUURRRRRRRRRFFFFFFFFFDDDDDDDDDLLLLLLLLLBBBBBBBBB\n",
    ),
    Good(
        Words(&["print", "R"]),
        b"UUFUUFUUFRRRRRRRRRFFDFFDFFDDDBDDBDDBLLLLLLLLLUBBUBBUBB\n",
    ),
    Good(
        Words(&["print", "M"]),
        b"UBUUBUUBURRRRRRRRRFUFFUFFUFDFDDFDDFDLLLLLLLLLBDBBDBBDB\n",
    ),
    Good(Words(&["print", "M2 E2 S2"]), CHECKERED),
    Good(Words(&["print", "R2 L2 U2 D2 F2 B2"]), CHECKERED),
    Good(
        Words(&["print", SUPERFLIP]),
        b"UBULURUFURURFRBRDRFUFLFRFDFDFDLDRDBDLULBLFLDLBUBRBLBDB\n",
    ),
    // the whole cube is turned as R, U and F turn a face: WCA Regulations, 12a4
    Good(
        Words(&["print", "x"]),
        b"FFFFFFFFFRRRRRRRRRDDDDDDDDDBBBBBBBBBLLLLLLLLLUUUUUUUUU\n",
    ),
    Good(
        Words(&["print", "y"]),
        b"UUUUUUUUUBBBBBBBBBRRRRRRRRRDDDDDDDDDFFFFFFFFFLLLLLLLLL\n",
    ),
    Good(
        Words(&["print", "z"]),
        b"LLLLLLLLLUUUUUUUUUFFFFFFFFFRRRRRRRRRDDDDDDDDDBBBBBBBBB\n",
    ),
    Good(
        Words(&["print", "x2", "y"]),
        b"DDDDDDDDDFFFFFFFFFRRRRRRRRRUUUUUUUUUBBBBBBBBBLLLLLLLLL\n",
    ),
    // brackets, wide moves, slices and rotations between turns, by an independent model
    Good(
        Words(&["print", "R x (U Fw)"]),
        b"DRRFRRFRRBBBBBRBBRLDDDDDDDDLLLLLLBBUFUULFFLFFUURFUUFUU\n",
    ),
    Good(
        Words(&["print", "(Bw2 E) z' D (S y2)"]),
        b"LLLFDDRRRURFFBBBRDBBBULUDDDLLLBUURRRBLDFFBULFUUUDRDFFF\n",
    ),
];

const GREATEST: &str = "18446744073709551615";

/// Scrambles of a seed, and the list of steps.
pub const SCRAMBLES: &[Run] = &[
    Good(Words(&["steps"]), STEPS),
    Good(
        Words(&["scramble", "42", "54", "6", "1"]),
        b"L' D' F' R2 F' L'\n",
    ),
    Good(
        Words(&["scramble", "42", "54", "3", "2"]),
        b"L' D' F'\nL F' L'\n",
    ),
    Good(Words(&["scramble", "42", "54", "0", "1"]), b"\n"),
    Good(Words(&["scramble", "42", "54", "0", "3"]), b"\n\n\n"),
    Good(Words(&["scramble", "42", "54", "6", "0"]), b""),
    Good(
        Words(&["scramble", "042", "0000000000000000000054", "03", "0001"]),
        b"L' D' F'\n",
    ),
    Good(Words(&["scramble", GREATEST, GREATEST, "256", "0"]), b""),
    // by a program of our own in another language, after PCG's C code
    Good(
        Words(&["scramble", GREATEST, GREATEST, "12", "2"]),
        b"U' L2 F2 D' L D' B2 R D2 R2 F' U2\nL F' U2 L2 D' B2 L2 U D2 B D2 B\n",
    ),
];
