//! Turns, notation and move sequences of the 3x3x3 cube. In crates.txt: `app: niss_moves`.
//!
//! A line of moves is read as solvers write it: face turns, wide turns, slice turns and rotations by article 12 of the WCA
//! Regulations (slices by common usage), with or without blanks between them. Moves in brackets are made on the inverse
//! scramble. Bytes that are no line have one fault, with its column.
//!
//! ```
//! use niss_moves::{LineText, put_tokens, read, unniss};
//!
//! let line = read(bytes)?;                   // of b"R (U F') D"
//! let mut text = LineText::new();
//! put_tokens(&unniss(&line), &mut text);     // R D F U'
//! ```
//!
//! A line that comes in pieces goes into a `LineReader`, by one byte or by many. No call takes memory.
//!
//! Any sequence is face turns and one rotation after them (`to_faces`), and the face turns are made canonical (`cleanup`):
//!
//! ```
//! use niss_moves::{LineText, put_niss_clean, read};
//!
//! let line = read(bytes)?;                   // of b"Rw U"
//! let mut text = LineText::new();
//! put_niss_clean(&line, &mut text);          // L F x
//! ```
//!
//! Contracts speak of moves by what they do to the 54 sticker places (`specs/Places`, `specs/Effects`), and of lines by
//! their grammar and their faults (`specs/Line`, `specs/Faults`); of face turns by `specs/Rotations`, `specs/Canonical`
//! and `specs/Cleaning`. What follows from these definitions alone stands in `laws`, as functions that do nothing.
#![tactic(auto)]

mod cleaning;
mod fault;
pub mod laws;
mod niss;
mod partial_line;
mod reader;
mod rotation;
mod symbol;
mod text;
mod token;
mod turn;

pub use cleaning::cleanup;
pub use fault::ReadFault;
pub use niss::{Niss, invert, unniss};
pub use reader::{LineReader, read};
pub use rotation::{Faces, Rotation, to_faces};
pub use text::{
    LineText, put_faces, put_inverted, put_niss_clean, put_rotation, put_tokens, put_unniss,
};
pub use token::{Slice, Token};
pub use turn::{Axis, Face, Power, Turn, allowed, turn_order, turns_after};
