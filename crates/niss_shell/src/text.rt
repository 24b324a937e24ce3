//! What answers are made of: bytes and numbers, which are appended to a text, and lines, which a text is set to.
ghost use Rattle.std.specs.Prelude.{◌≡◌, ◌+◌, ◌≤◌, ◌<◌, ◌^◌, ◌∷◌, ◌++◌, [], decimal, length};
ghost use Rattle.niss_shell.specs.Lines.{line_feed};
ghost use Rattle.niss_shell.specs.Output.{solution_line, none_line, count_text, length_text};

use niss_moves::{LineText, put_faces};
use niss_search::{Limit, Outcome, TurnPath};

/// Appends the number in decimal digits, from the first.
#[tactic(auto, using(crate::proofs::WordsLemmas::digit_laws))]
fn put_digits(number: u128, text: &mut LineText)
    requires { length text.old.items + length (decimal number) ≤ 2048 }
    ensures words { text.new.items ≡ text.old.items ++ decimal number }
    ensures len { length text.new.items ≡ length text.old.items + length (decimal number) }
{
    if number < 10 {
        text.push(b'0' + number as u8);
        return;
    }
    put_digits(number / 10, text);
    text.push(b'0' + (number % 10) as u8);
}

/// Appends the number in decimal digits, of which there are at most 39.
#[tactic(auto, using(crate::proofs::WordsLemmas::decimal_short, crate::proofs::WordsLemmas::decimal_narrow))]
pub fn put_number(number: u128, text: &mut LineText)
    requires { length text.old.items + 40 ≤ 2048 }
    ensures words { text.new.items ≡ text.old.items ++ decimal number }
    ensures len { length text.new.items ≤ length text.old.items + 40 }
    ensures narrow { number < 2 ^ 32 → length text.new.items ≤ length text.old.items + 10 }
{
    put_digits(number, text);
}

/// Appends bytes.
pub fn put_text(part: &[u8], text: &mut LineText)
    requires { length text.old.items + length part.now ≤ 2048 }
    ensures words { text.new.items ≡ text.old.items ++ part.now }
    ensures len { length text.new.items ≡ length text.old.items + length part.now }
{
    text.try_extend_from_slice(part).unwrap();
}

/// Sets the text to a solution on a line: its turns, their number in brackets, and a line feed.
pub fn set_solution(path: &TurnPath, text: &mut LineText)
    ensures { text.new.items ≡ solution_line path.now.turns }
{
    let turns = path.turns();
    text.clear();
    if !turns.is_empty() {
        put_faces(turns, text);
        text.push(b' ');
    }
    text.push(b'(');
    put_number(turns.len() as u128, text);
    put_text(b")\n", text);
}

/// Sets the text to what stands after so many solutions: if they are none, a line that says so; and an empty line.
pub fn set_end(solutions: u128, limit: Limit, text: &mut LineText)
    ensures { text.new.items ≡ none_line limit solutions ++ line_feed ∷ [] }
{
    text.clear();
    if solutions == 0 {
        put_text(b"no solution within ", text);
        put_number(limit.get() as u128, text);
        put_text(b" moves\n", text);
    }
    text.push(b'\n');
}

/// Appends the least length of a solution, or `none`.
fn put_length(least: Option<u8>, text: &mut LineText)
    requires { length text.old.items + 40 ≤ 2048 }
    ensures words { text.new.items ≡ text.old.items ++ length_text least }
    ensures len { length text.new.items ≤ length text.old.items + 40 }
{
    match least {
        Some(length) => put_number(length as u128, text),
        None => put_text(b"none", text),
    }
}

/// Sets the text to what a search found, how often it looked at a position, and a line feed.
pub fn set_count(outcome: Outcome, looks: u128, text: &mut LineText)
    ensures { text.new.items ≡ count_text outcome.length outcome.solutions looks }
{
    text.clear();
    put_text(b"length ", text);
    put_length(outcome.length, text);
    put_text(b" solutions ", text);
    put_number(outcome.solutions, text);
    put_text(b" nodes ", text);
    put_number(looks, text);
    text.push(b'\n');
}
