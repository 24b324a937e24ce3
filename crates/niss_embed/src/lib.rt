//! `nissy` in other programs: a call that runs a command on bytes in memory, and calls on one line or on many. In
//! crates.txt: `app: niss_embed`.
//!
//! `run_bytes` is handed what the program `nissy` is given: the words of a command line, the input, and memory for the
//! output and for the error text. It returns the exit status and how much of that memory it wrote. Its contract says
//! each byte of both, for every word, input and room:
//!
//! ```
//! use niss_embed::run_bytes;
//!
//! let answer = run_bytes(rt.alloc(), b"invert\0", b"R U' F2\n", &mut out, &mut err);
//! // `answer.status` is 0, and `out[..answer.out_length]` is `F2 U R'` and a line feed
//! ```
//!
//! `solve_line` and `count_line` search for one line by tables that the caller keeps, and take no memory; `count_lines` and
//! `facts_of_lines` answer each line of a text, `best_ways` and `solve_sides` search over both sides:
//!
//! ```
//! let wanted = Wanted { limit: 20, slack: 0, most: 10, most_nodes: 1_000_000 };
//! let answer = solve_line(&tables, b"R U' F2", wanted, &mut out);
//! let next = solve_after(&tables, b"R U' F2", last, wanted, &mut out);     // `last` has the moves of the last one written
//! ```
#![tactic(auto)]

mod call;
mod line;
mod memory;
mod two_lines;

pub use call::{Answer, run_bytes};
pub use line::many_lines::{LinesAnswer, count_lines, facts_of_lines};
pub use line::search::{Wanted, count_line, solve_after, solve_line};
pub use line::search_answer::SearchAnswer;
pub use two_lines::best::{best_ways, line_after};
pub use two_lines::sides::solve_sides;
pub use two_lines::sides_answer::{SidesAnswer, SidesWanted};
pub use two_lines::ways_answer::{LineAfterAnswer, WaysAnswer, WaysWanted};
