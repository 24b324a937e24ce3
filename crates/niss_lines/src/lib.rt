//! What is written and told of a line without a search, as other programs take it: numbers and bytes, no enum. In crates.txt:
//! `app: niss_lines`.
//!
//! A line that is rewritten, a scramble and the names of things are written to the front of a caller's buffer; what solvers
//! choose continuations by, and whether a solution solves a scramble, comes as a struct:
//!
//! ```
//! use niss_lines::{check_line, facts_of_line};
//!
//! let check = check_line(b"R U F", b"F' U' R'");     // `check.solved`, and `check.moves` is 3
//! let facts = facts_of_line(b"R U F2");              // `facts.fb.bad_edges` is 0
//! ```
#![tactic(auto)]

mod answer;
mod fact_answers;
mod facts;
mod texts;

pub use answer::{LineAnswer, Status, fault_number};
pub use fact_answers::{AxisFacts, CheckAnswer, FactsAnswer};
pub use facts::{check_line, facts_of_line, has_brackets, is_small_letter, is_solved};
pub use texts::{fault_text, read_by, rewrite_line, scramble, start_name, step_names};
