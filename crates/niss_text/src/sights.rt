//! What is looked for at each place of a line, and where it is seen first.
ghost use Rattle.std.specs.Prelude.{◌≡◌, ◌≤◌, ◌<◌, true, false, length, slice_index};
ghost use Rattle.niss_text.specs.Doubts.{is_small, is_capital, is_prime, is_letter, ends_move, closes, is_times, is_cross};
ghost use Rattle.niss_text.specs.Doubts.{is_after_bracket, is_before_digit, is_repeated, is_marked, is_comma, ends_capital, is_after_move, is_before_letter, is_between, is_gap, is_joint, turn_size, are_opposite, is_axis, is_pair, sees, HasNone};

use crate::sign::is_digit_byte;

/// What is looked for in a line, by a byte and those beside it.
#[derive(Clone, Copy)]
pub enum Sight {
    /// A small letter of an outer turn.
    Small,
    /// A capital letter of an outer turn.
    Capital,
    /// A letter right after the sign of a move.
    Joined,
    /// A letter after something else.
    Parted,
    /// An apostrophe.
    Prime,
    /// A number of times after moves in brackets, such as `)x2`.
    Repeated,
    /// A digit in square brackets before moves, such as `[1] R`.
    Marked,
    /// A comma between a move and a letter.
    Comma,
    /// A blank beside which no comma stands.
    Gap,
    /// A `y` between blanks, which joins words in Spanish.
    Joint,
    /// The first of two turns of faces with a blank between, which don't name an axis.
    Pair,
}

/// Whether a byte is a letter of ASCII, a digit or an apostrophe, of which a sign of moves may end.
fn ends_move(byte: u8) -> bool
    ensures { result ≡ ends_move byte }
{
    is_letter(byte) || (is_digit_byte(byte) || is_prime(byte))
}

/// Whether a byte is a letter of ASCII.
pub fn is_letter(byte: u8) -> bool
    ensures { result ≡ is_letter byte }
{
    (byte >= b'A' && byte <= b'Z') || (byte >= b'a' && byte <= b'z')
}

/// Whether a byte is an apostrophe, or the last one of an apostrophe beyond ASCII.
fn is_prime(byte: u8) -> bool
    ensures { result ≡ is_prime byte }
{
    matches!(byte, b'\'' | b'`' | 0x98 | 0x99 | 0xb2 | 0xb4 | 0xbc)
}

/// Whether a byte is a small letter of an outer turn.
fn is_small(byte: u8) -> bool
    ensures { result ≡ is_small byte }
{
    matches!(byte, b'u' | b'd' | b'r' | b'l' | b'f' | b'b')
}

/// Whether a byte is a capital letter of an outer turn.
pub fn is_capital(byte: u8) -> bool
    ensures { result ≡ is_capital byte }
{
    matches!(byte, b'U' | b'D' | b'R' | b'L' | b'F' | b'B')
}

/// Whether a byte closes a bracket.
fn closes(byte: u8) -> bool
    ensures { result ≡ closes byte }
{
    byte == b')' || byte == b']'
}

/// Whether a byte is a sign before a number of times.
fn is_times(byte: u8) -> bool
    ensures { result ≡ is_times byte }
{
    matches!(byte, b'x' | b'X' | b'*' | b'^')
}

/// The byte of a text at a place, 0 after its end.
pub fn byte_at(text: &[u8], at: usize) -> u8
    ensures { result ≡ slice_index text.now at }
{
    if at < text.len() { text[at] } else { 0 }
}

/// Whether a bracket is closed before a place, or before a blank there.
#[tactic(auto, unfolding(crate::specs::Doubts::is_after_bracket))]
fn is_after_bracket(text: &[u8], at: usize) -> bool
    ensures { result ≡ is_after_bracket text.now at }
{
    let before = byte_at(text, at.saturating_sub(1));
    closes(before) || (before == b' ' && closes(byte_at(text, at.saturating_sub(2))))
}

/// Whether a digit stands after a place, or after a blank there.
#[tactic(auto, unfolding(crate::specs::Doubts::is_before_digit))]
fn is_before_digit(text: &[u8], at: usize) -> bool
    requires { at ≤ length text.now }
    ensures { result ≡ is_before_digit text.now at }
{
    let after = byte_at(text, at + 1);
    is_digit_byte(after) || (after == b' ' && is_digit_byte(byte_at(text, at + 2)))
}

/// Whether U+00D7 stands at a place.
fn is_cross(text: &[u8], at: usize) -> bool
    requires { at < length text.now }
    ensures { result ≡ is_cross text.now at }
{
    text[at] == 0xc3 && byte_at(text, at + 1) == 0x97
}

/// Whether moves in brackets are said at a place to be made several times.
#[tactic(auto, unfolding(crate::specs::Doubts::is_repeated))]
fn is_repeated(text: &[u8], at: usize) -> bool
    requires { at < length text.now }
    ensures { result ≡ is_repeated text.now at }
{
    let last = if text[at] == 0xc3 { at + 1 } else { at };
    (is_times(text[at]) || is_cross(text, at))
        && (is_after_bracket(text, at) && is_before_digit(text, last))
}

/// Whether a digit stands in square brackets at a place of a text, and after them a letter. In round ones solvers count.
#[tactic(auto, unfolding(crate::specs::Doubts::is_marked))]
fn is_marked(text: &[u8], at: usize) -> bool
    requires { at < length text.now }
    ensures { result ≡ is_marked text.now at }
{
    if text[at] != b'[' {
        return false;
    }
    let after = &text[at..];
    let letter = byte_at(after, 3);
    is_digit_byte(byte_at(after, 1))
        && (byte_at(after, 2) == b']'
            && (is_letter(letter) || (letter == b' ' && is_letter(byte_at(after, 4)))))
}

/// Whether a byte is a comma or a semicolon.
fn is_comma(byte: u8) -> bool
    ensures { result ≡ is_comma byte }
{
    byte == b',' || byte == b';'
}

/// Whether a byte ends a move of a capital letter, or moves in brackets.
fn ends_capital(byte: u8) -> bool
    ensures { result ≡ ends_capital byte }
{
    is_capital(byte) || (is_digit_byte(byte) || (is_prime(byte) || closes(byte)))
}

/// Whether a move ends before a place, or before a blank there.
#[tactic(auto, unfolding(crate::specs::Doubts::is_after_move))]
fn is_after_move(text: &[u8], at: usize) -> bool
    ensures { result ≡ is_after_move text.now at }
{
    let before = byte_at(text, at.saturating_sub(1));
    ends_capital(before) || (before == b' ' && ends_capital(byte_at(text, at.saturating_sub(2))))
}

/// Whether a letter stands after a place, or after a blank there.
#[tactic(auto, unfolding(crate::specs::Doubts::is_before_letter))]
fn is_before_letter(text: &[u8], at: usize) -> bool
    requires { at ≤ length text.now }
    ensures { result ≡ is_before_letter text.now at }
{
    let after = byte_at(text, at + 1);
    is_letter(after) || (after == b' ' && is_letter(byte_at(text, at + 2)))
}

/// Whether a comma stands at a place of a text, between a move and a letter.
#[tactic(auto, unfolding(crate::specs::Doubts::is_between))]
fn is_between(text: &[u8], at: usize) -> bool
    requires { at < length text.now }
    ensures { result ≡ is_between text.now at }
{
    is_comma(text[at]) && (is_after_move(text, at) && is_before_letter(text, at))
}

/// Whether a blank stands at a place of a text, and no comma beside it.
#[tactic(auto, unfolding(crate::specs::Doubts::is_gap))]
fn is_gap(text: &[u8], at: usize) -> bool
    requires { at < length text.now }
    ensures { result ≡ is_gap text.now at }
{
    text[at] == b' ' && !(is_comma(text[at.saturating_sub(1)]) || is_comma(byte_at(text, at + 1)))
}

/// Whether a `y` stands between blanks at a place of a text.
#[tactic(auto, unfolding(crate::specs::Doubts::is_joint))]
fn is_joint(text: &[u8], at: usize) -> bool
    requires { at < length text.now }
    ensures { result ≡ is_joint text.now at }
{
    text[at] == b'y' && (text[at.saturating_sub(1)] == b' ' && byte_at(text, at + 1) == b' ')
}

/// How many bytes a turn has whose letter stands at a place.
fn turn_size(text: &[u8], at: usize) -> usize
    requires { at < 18446744073709551614 }
    ensures is { result ≡ turn_size text.now at }
    ensures few { result ≤ 4 }
{
    match byte_at(text, at + 1) {
        b'2' | b'\'' => 2,
        0xe2 => 4,
        _ => 1,
    }
}

/// Whether two letters are those of opposite faces.
fn are_opposite(one: u8, other: u8) -> bool
    ensures { result ≡ are_opposite one other }
{
    match one {
        b'U' => other == b'D',
        b'D' => other == b'U',
        b'R' => other == b'L',
        b'L' => other == b'R',
        b'F' => other == b'B',
        b'B' => other == b'F',
        _ => false,
    }
}

/// Whether the letters of two opposite faces, of which one stands at a place of a text, name an axis: neither has a sign.
pub fn is_axis(text: &[u8], at: usize) -> bool
    requires { at < length text.now }
    ensures { result ≡ is_axis text.now at }
{
    are_opposite(text[at], byte_at(text, at + 2))
        && (turn_size(text, at) == 1 && turn_size(text, at + 2) == 1)
}

/// Whether two turns of faces stand at a place of a text, with a blank between, and no letter beside them, which name no
/// axis.
#[tactic(auto, unfolding(crate::specs::Doubts::is_pair))]
fn is_pair(text: &[u8], at: usize) -> bool
    requires { at < length text.now }
    ensures { result ≡ is_pair text.now at }
{
    let next = at + turn_size(text, at);
    (is_capital(text[at]) && !is_letter(text[at.saturating_sub(1)]))
        && (byte_at(text, next) == b' '
            && ((is_capital(byte_at(text, next + 1)) && !is_letter(byte_at(text, next + 2)))
                && !is_axis(text, at)))
}

/// Whether something is seen at a place of a text.
#[tactic(auto, unfolding(crate::specs::Doubts::sees))]
fn sees(text: &[u8], sight: Sight, at: usize) -> bool
    requires { at < length text.now }
    ensures { result ≡ sees text.now sight at }
{
    let before = text[at.saturating_sub(1)];
    let byte = text[at];
    match sight {
        Sight::Small => is_small(byte),
        Sight::Capital => is_capital(byte),
        Sight::Joined => ends_move(before) && (is_letter(byte) && byte != b'w'),
        Sight::Parted => !ends_move(before) && is_letter(byte),
        Sight::Prime => is_prime(byte),
        Sight::Repeated => is_repeated(text, at),
        Sight::Marked => is_marked(text, at),
        Sight::Comma => is_between(text, at),
        Sight::Gap => is_gap(text, at),
        Sight::Joint => is_joint(text, at),
        Sight::Pair => is_pair(text, at),
    }
}

/// The first place of a part of a text at which something is seen, or the part's end.
#[inline(never)]
pub fn first_seen(text: &[u8], from: usize, to: usize, sight: Sight) -> usize
    requires { to ≤ length text.now }
    ensures fits { result ≤ to }
    ensures seen { result < to → (from ≤ result) × (sees text.now sight result ≡ true) }
    ensures first { HasNone text.now sight from result }
{
    for at in from..to {
        if sees(text, sight, at) {
            return at;
        }
    }
    to
}
