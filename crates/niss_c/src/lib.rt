//! The library for C: what other programs call. `include/nissy.h` says the same in the words of C.
#![tactic(auto)]

mod attempt_call;
mod best_call;
mod check_calls;
mod reading_calls;
mod run_call;
mod table_calls;
mod text_calls;
mod version;

pub use attempt_call::nissy_check_attempts;
pub use best_call::{nissy_best, nissy_line_after, nissy_solve_sides};
pub use check_calls::{nissy_check, nissy_facts, nissy_facts_lines, nissy_solving_part};
pub use niss_attempts::{AttemptCheck, AttemptsAnswer, PartAnswer};
pub use niss_embed::{Answer, LineAfterAnswer, LinesAnswer, SearchAnswer, WaysAnswer, WaysWanted};
pub use niss_kept::Held;
pub use niss_lines::{AxisFacts, CheckAnswer, FactsAnswer, LineAnswer};
pub use niss_ways::{Part, SideTurns, Way};
pub use reading_calls::{nissy_known_lines, nissy_plain, nissy_text_lines, nissy_text_moves};
pub use run_call::nissy_run;
pub use table_calls::{
    nissy_build, nissy_count, nissy_count_lines, nissy_solve, nissy_solve_after,
};
pub use text_calls::{
    nissy_cleanup, nissy_facelets, nissy_fault_text, nissy_invert, nissy_scramble, nissy_start,
    nissy_steps, nissy_unniss,
};
pub use version::nissy_version;
