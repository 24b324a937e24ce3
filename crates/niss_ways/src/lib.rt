//! The ways on from a cube to a domino reduction, each step over both sides. In crates.txt:
//! `app: niss_ways niss_search niss_cube niss_moves`.
//!
//! ```
//! let Some(start) = Start::after(&scramble, &so_far) else { .. };      // both as `Niss`; there are too many moves
//! let mut room = [Way::default(); 20];
//! let wish = Wish { slack: Limit::new(1).unwrap(), ..Wish::ALL };
//! let found = find_ways(&tables, &start, &wish, &mut room, 0);         // `room[..found.rows]` has the best, in order
//! ```
//!
//! No call takes memory: the best rows stand in the caller's room, as many as it has place for.
#![tactic(auto)]

mod admitted;
mod counting;
mod finding;
mod first_steps;
mod following;
mod last_turns;
mod listing;
mod looks;
mod made;
mod measured;
mod nearest;
mod oriented;
mod reductions_after;
mod rows;
mod solution;
mod start;
mod tables;
mod totals;
mod way;

pub use finding::{Axes, FoundWays, Wish, find_ways};
pub use listing::{FoundSolutions, Listed, list_solutions};
pub use start::Start;
pub use tables::{AxisTables, HoldsTables, WayTables, tables_on};
pub use way::{NO_STEP, NO_TURN, Part, SideTurns, Way};
