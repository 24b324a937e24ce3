//! What is told of lines without a search, in numbers.
ghost use Rattle.std.specs.Prelude.{◌≡◌};
ghost use Rattle.niss_moves.specs.Faults.{fault_column};
ghost use Rattle.niss_lines.specs.LineCalls.{fault_number};
ghost use Rattle.niss_lines.specs.LineFacts.{no_facts, no_axis, unchecked};
ghost use Rattle.niss_lines.specs.declared.answer.Status.TheVariants.{Done, Fault, Stopped};

use crate::answer::{Status, fault_number};
use niss_moves::ReadFault;

/// The bad pieces of a cube on one axis: at which places they stand, bit i for place i, and how many they are.
#[repr(C)]
#[derive(Clone, Copy, Debug, PartialEq, Eq)]
pub struct AxisFacts {
    /// The edge places with a flipped edge.
    pub bad_edge_places: u16,
    /// The corner places with a twisted corner.
    pub bad_corner_places: u16,
    /// The edge places with an edge on the wrong side of the slice.
    pub misplaced_edge_places: u16,
    /// The flipped edges, of 12.
    pub bad_edges: u8,
    /// The twisted corners, of 8.
    pub bad_corners: u8,
    /// The edges on the wrong side of the slice, two for each of its own outside it.
    pub misplaced_edges: u8,
}

/// What is seen of the cube of a line.
#[repr(C)]
#[derive(Clone, Copy, Debug, PartialEq, Eq)]
pub struct FactsAnswer {
    /// The number of `Done`, `Fault` or `Stopped`.
    pub status: u8,
    /// What is wrong with the line, 1 to 5 in the order of `ReadFault`; 0 if nothing is.
    pub fault: u8,
    /// The cube is solved, however it is held.
    pub solved: bool,
    /// The column of the fault in bytes, from 1; 0 if there is none.
    pub column: u32,
    /// How many moves the line counts as it is written: turns of faces and outer blocks one each, slice turns two.
    pub moves: u16,
    /// How many face turns its one sequence has once it is cleaned.
    pub clean_moves: u16,
    /// Which steps the cube has reached: bit i for step i.
    pub holds: u16,
    /// The bad pieces on the axis of F and B.
    pub fb: AxisFacts,
    /// The same on that of R and L.
    pub rl: AxisFacts,
    /// The same on that of U and D.
    pub ud: AxisFacts,
}

/// Whether a solution solves a scramble, how many moves it counts, and in which forms it is written.
#[repr(C)]
#[derive(Clone, Copy, Debug, PartialEq, Eq)]
pub struct CheckAnswer {
    /// The number of `Done`, `Fault` or `Stopped`.
    pub status: u8,
    /// What is wrong with the line, 1 to 5 in the order of `ReadFault`; 0 if nothing is.
    pub fault: u8,
    /// Which line has a fault or too many bytes: 1, the scramble, or 2, the solution; 0 if none has.
    pub line: u8,
    /// The solution solves the scramble, however the cube is held then.
    pub solved: bool,
    /// The column of the fault in bytes, from 1; 0 if there is none.
    pub column: u32,
    /// How many moves the solution counts as it is written: turns of faces and outer blocks one each, slice turns two.
    pub moves: u16,
    /// How many face turns its one sequence has once it is cleaned.
    pub clean_moves: u16,
    /// The forms that it has and that the WCA's notation hasn't: 1 slices, 2 lower-case letters, 4 brackets, 8 U+2019, 16
    /// a 2 with an apostrophe.
    pub forms: u8,
}

impl AxisFacts {
    /// No bad pieces.
    fn none() -> AxisFacts
        ensures { result ≡ no_axis }
    {
        AxisFacts {
            bad_edge_places: 0,
            bad_corner_places: 0,
            misplaced_edge_places: 0,
            bad_edges: 0,
            bad_corners: 0,
            misplaced_edges: 0,
        }
    }
}

impl FactsAnswer {
    /// An answer that tells of no cube.
    fn no_facts(status: Status, fault: u8, column: u32) -> FactsAnswer
        ensures { result ≡ no_facts status fault column }
    {
        FactsAnswer {
            status: status.number(),
            fault,
            solved: false,
            column,
            moves: 0,
            clean_moves: 0,
            holds: 0,
            fb: AxisFacts::none(),
            rl: AxisFacts::none(),
            ud: AxisFacts::none(),
        }
    }

    /// The answer to a line of too many bytes.
    pub fn too_long() -> FactsAnswer
        ensures { result ≡ no_facts Stopped 0 0 }
    {
        FactsAnswer::no_facts(Status::Stopped, 0, 0)
    }

    /// The answer to a line with this fault.
    pub fn unread(fault: ReadFault) -> FactsAnswer
        ensures { result ≡ no_facts Fault (fault_number fault) (fault_column fault) }
    {
        FactsAnswer::no_facts(Status::Fault, fault_number(fault), fault.column())
    }
}

impl CheckAnswer {
    /// An answer that tells of no solution.
    fn unchecked(status: Status, line: u8, fault: u8, column: u32) -> CheckAnswer
        ensures { result ≡ unchecked status line fault column }
    {
        CheckAnswer {
            status: status.number(),
            fault,
            line,
            solved: false,
            column,
            moves: 0,
            clean_moves: 0,
            forms: 0,
        }
    }

    /// The answer if nothing is checked.
    pub fn nothing() -> CheckAnswer
        ensures { result ≡ unchecked Done 0 0 0 }
    {
        CheckAnswer::unchecked(Status::Done, 0, 0, 0)
    }

    /// The answer if the line of this number has too many bytes.
    pub fn too_long(line: u8) -> CheckAnswer
        ensures { result ≡ unchecked Stopped line 0 0 }
    {
        CheckAnswer::unchecked(Status::Stopped, line, 0, 0)
    }

    /// The answer if the line of this number has this fault.
    pub fn unread(line: u8, fault: ReadFault) -> CheckAnswer
        ensures { result ≡ unchecked Fault line (fault_number fault) (fault_column fault) }
    {
        CheckAnswer::unchecked(Status::Fault, line, fault_number(fault), fault.column())
    }
}
