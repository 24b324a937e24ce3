//! The cube: its cubies, its map of the 54 sticker places, its coordinates, the tables that turn coordinates, and the steps
//! of solving. In crates.txt: `app: niss_cube niss_moves`.
//!
//! The cube of a line is that of its face turns, once its rotations were pushed to the end:
//!
//! ```
//! use niss_cube::{Axis, Cube, Rotation};
//! use niss_moves::{read, to_faces, unniss};
//!
//! let line = read(bytes)?;                              // of b"x U"
//! let (turns, _rotation) = to_faces(&unniss(&line));    // F, and the rotation x
//! let mut cube = Cube::solved();
//! cube.apply(&turns);
//! let text = cube.facelets(Rotation::IDENTITY);         // UUUUUULLLURRURRURRFFFFFFFFFRRRDDDDDDLLDLLDLLDBBBBBBBBB
//! let number = cube.flip(Axis::Fb);                     // 550: the turn flips four edges with respect to F and B
//! ```
//!
//! The coordinate after a turn follows from the coordinate alone, so a table gives it without a cube. A step asks whether its
//! coordinates are 0:
//!
//! ```
//! use niss_cube::{Axis, Face, Power, Step, Turn, TurnTables};
//!
//! let tables = TurnTables::build(alloc)?;
//! let same = tables.next_flip(Axis::Fb, 0, front);      // 550 again, for the turn F
//! let reached = Step::Eofb.reached(&cube);              // false
//! let may_start = Step::DrudEofb.may_start(&cube);      // false: its edges aren't oriented
//! ```
//!
//! A contract names a cube by `map_of`: where each sticker place's sticker stands, by the geometry of `niss_moves`. A
//! coordinate is 0 exactly if the map keeps a set of places, and its rank after a turn follows from the rank alone:
//! the functions of `laws` state this. A step of solving may start, and is reached, if the map keeps its sets of places.
#![tactic(auto)]

mod cube;
mod cubie_turns;
mod facelet_text;
pub mod laws;
mod out_of_memory;
mod step;
mod turn_tables;

pub use cube::Cube;
pub use cube::coordinate::Coordinate;
pub use niss_moves::{Axis, Face, Power, Rotation, Turn};
pub use out_of_memory::OutOfMemory;
pub use step::{Goal, Step};
pub use turn_tables::TurnTables;
