//! The engine of `nissy`, a tool for move sequences of the 3x3x3 cube. In crates.txt: `app: niss_shell`.
//!
//! `run` takes the words of a command line, reads lines of moves from a `Source`, writes the answers to one `Target`
//! and what went wrong to another, and returns the exit status. Its contract says every byte of both as a function of
//! the words and of the bytes read, whatever the devices do. `FromReader` and `ToWriter` make devices of the readers and
//! writers of `std::io`:
//!
//! ```
//! use niss_shell::{FromReader, Meter, ToWriter, run};
//!
//! let status = run(
//!     rt.alloc(),
//!     words,                                 // "invert" and "R U' F2": `F2 U R'` and a line feed, and the status 0
//!     &mut FromReader::new(rt.stdin()),
//!     &mut ToWriter::new(rt.stdout()),
//!     &mut ToWriter::new(rt.stderr()),
//!     &mut Meter::new(),                     // counts the positions that searches look at
//! );
//! ```
#![tactic(auto)]

mod checking;
mod command;
mod device;
mod input;
mod laws;
mod line_command;
mod lines;
mod output;
mod scrambles;
mod shell;
mod stop;
mod streams;
mod text;
mod writing;

pub use checking::{clean_count, move_count, solves};
pub use command::{Command, Rewriting, UsageFault, parse_words, step_named};
pub use device::{DeviceFault, Source, Target};
pub use laws::{accepted_lines_are_solved, lines_are_cut, more_input_keeps_answers};
pub use line_command::{count_solutions, cube_of, rewrite, start_position};
pub use lines::MOST_BYTES;
pub use niss_cube::Step;
pub use niss_search::{Limit, Meter};
pub use scrambles::set_scramble;
pub use shell::{run, run_in, set_steps};
pub use stop::LineFault;
pub use streams::{FromReader, ToWriter};
pub use text::set_solution;
