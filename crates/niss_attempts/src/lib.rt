//! Attempts at scrambles as solvers write them down, judged: whether each solves its scramble, and what makes one doubt that it
//! was read as it was meant. In crates.txt: `app: niss_attempts`.
//!
//! `check_attempts` takes the lines that `niss_text` makes of a text, and puts an answer for each attempt into a caller's
//! room; `solving_part` tells which part of the steps of an attempt solves its scramble.
#![tactic(auto)]

mod attempts;
mod doubts;
mod steps;
mod stretch;

pub use attempts::checks::{AttemptCheck, Attempts, AttemptsAnswer, check_attempts};
pub use attempts::judged::Judged;
pub use attempts::known_parts::Known;
pub use steps::parts::{PartAnswer, solving_part};
