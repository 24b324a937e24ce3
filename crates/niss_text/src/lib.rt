//! Text as solvers write it: which bytes of it are moves, and which of its lines are scrambles, steps and notes. It
//! knows nothing of what moves do: what isn't told apart here is at fault where it is read as a line.
#![tactic(auto)]

mod among_moves;
mod attempts;
mod body;
mod doubts;
mod forms;
mod full_stop;
mod groups;
mod heads;
mod known;
mod label_words;
mod left_out;
mod line;
mod line_parts;
mod marks;
mod moves;
mod outline;
mod parts;
mod pen;
mod piece;
mod plain;
mod progress;
mod said;
mod scramble_lines;
mod short_word;
mod sights;
mod sign;
mod single;
mod span;
mod spelling;
mod status;
mod step_order;
mod stretches;
mod text_line;
mod topics;
mod word;
mod worded_heads;
mod words;

pub use attempts::{TextAnswer, text_lines};
pub use known::{KnownAnswer, KnownPart, known_lines};
pub use moves::{MovesOf, MovesPart, text_moves};
pub use plain::{PlainAnswer, plain_line};
pub use text_line::TextLine;
