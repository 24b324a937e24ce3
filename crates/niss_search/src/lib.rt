//! Search for the shortest solutions of a step of solving. In crates.txt: `app: niss_search niss_cube niss_moves`.
//!
//! ```
//! use niss_cube::Step;
//! use niss_search::{Limit, Meter, Sink, Tables, TurnPath, search};
//!
//! let built = Tables::build(rt.alloc(), step, &mut Meter::new());
//! if tables.step().may_start(cube) {                           // what `position` asks for
//!     let position = tables.position(cube);
//!     let mut path = TurnPath::new(Limit::new(20).unwrap());   // at most 20 turns
//!     let mut meter = Meter::new();
//!     let slack = Limit::ZERO;                                 // shortest solutions alone
//!     search(tables, &position, slack, &mut path, &mut meter, &mut sink)?;
//! }   // of the cube after F the sink was handed F and F', by 20 looks
//! ```
//!
//! The sink is handed every canonical sequence of least length that reaches the step, in turn order, and nothing else.
//! With a slack those that are at most so many turns longer follow, by length and then in turn order.
//!
//! `search_after` hands out those alone that come after a sequence: so a caller goes through a long list in pieces.
//!
//! `search_both_within` hands out pairs of turns on a cube and turns on its inverse that reach the step together, to a
//! `PairSink`; `search_pairs_of_length` those of one length, on one side or on both, with any ends or with one of twins.
//!
//! A sink says by `took` and `refused` what a path does to it, and so a caller knows what it was handed. One that
//! promises nothing writes both of them so (`crates/eo_axes` is the whole program):
//!
//! ```
//! impl Sink for Printer<'_> {
//!     type Fault = io::Error;
//!     ghost took = { λ old path new. Unit {0} };
//!     ghost refused = { λ old path new. Unit {0} };
//!     fn take(&mut self, path: &TurnPath) -> Result<(), io::Error> {
//!         let mut text = LineText::new();
//!         text.push(b':');
//!         put_faces(path.turns(), &mut text);
//!         let text = std::str::from_utf8(text.as_slice()).unwrap_or("");
//!         println!(self.rt; "{} {}{text}", self.step.name(), path.turns().len())
//!     }
//! }
//! ```
//!
//! A meter counts the turns that the fill of the tables tries, or the looks of searches. A look at a position returns
//! its distance, by the pruning table. It is the only way to judge a position: the search sees neither its coordinates
//! nor the tick of a meter.
//!
//! `random_turns` draws a canonical sequence: each word of the generator picks among the turns that may follow the last
//! one.
//!
//! ```
//! let mut rng = Lcg64Xsh32::new(42, 54);
//! let scramble = random_turns(&mut rng, 6);                     // L' D' F' R2 F' L'
//! ```
//!
//! Contracts name a cube by its map of the 54 sticker places, and what is said of a position is said of every cube that
//! has it (`specs/Cubes`). The functions of `laws` state what follows from the definitions alone.
#![tactic(auto)]

mod budget;
pub mod laws;
mod path;
mod scan;
mod scramble;
mod searching;
mod tables;

pub use budget::Stopped;
pub use path::{Lengths, Limit, TurnPath};
pub use scan::next_at;
pub use scramble::random_turns;
pub use searching::{
    Ends, Outcome, PairSink, PairsWanted, Sides, Sink, StepFrom, begins_reached, search,
    search_after, search_both_within, search_pairs_of_length, search_within,
};
pub use tables::{Meter, Position, Tables};
