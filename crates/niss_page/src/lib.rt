//! The module for web pages and other hosts of WebAssembly. `Instance` of `web/module` makes its calls.
//! `#[inline(never)]` in the crates below keeps one copy of what many places call, so that the module is small.
#![tactic(auto)]

mod arena;
mod attempt_call;
mod best_call;
mod check_calls;
mod held;
mod one_block;
mod reading_calls;
mod room;
mod run_call;
mod table_calls;
mod text_calls;

pub use attempt_call::nissy_check_attempts;
pub use best_call::{nissy_best, nissy_line_after, nissy_solve_sides};
pub use check_calls::{nissy_check, nissy_facts, nissy_facts_lines, nissy_solving_part};
pub use held::{Held, Kept};
pub use reading_calls::{nissy_known_lines, nissy_plain, nissy_text_lines, nissy_text_moves};
pub use room::{Block, Room};
pub use run_call::nissy_run;
pub use table_calls::{
    nissy_build, nissy_count, nissy_count_lines, nissy_solve, nissy_solve_after,
};
pub use text_calls::{
    nissy_cleanup, nissy_facelets, nissy_fault_text, nissy_invert, nissy_scramble, nissy_start,
    nissy_steps, nissy_unniss,
};
