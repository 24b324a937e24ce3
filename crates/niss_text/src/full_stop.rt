//! A full stop after the moves of a line, which is none of them.
ghost use Rattle.std.specs.Prelude.{◌≡◌, ◌<◌, ◌≤◌, ◌+◌, ℕ, true, length, slice_index, IfSome, MatchOption};
ghost use Rattle.niss_text.specs.Kept.{AreStopped, is_stop};

use crate::sign::trimmed;
use crate::word::are_plain_moves;

/// Whether a byte is a blank that may follow a full stop at the end of a line.
fn is_gap(byte: u8) -> bool
    ensures { result ≡ true → byte ≡ 46 → ⊥ }
{
    byte == b' ' || byte == b'\t'
}

/// How many bytes of a line stand before the blanks at its end.
fn filled_length(line: &[u8]) -> usize
    ensures fits { result ≤ length line.now }
    ensures all { (count : ℕ) → length line.now ≡ count + 1 → slice_index line.now count ≡ 46 → result ≡ count + 1 }
{
    let mut end = line.len();
    while end > 0 {
        if !is_gap(line[end - 1]) {
            return end;
        }
        end -= 1;
    }
    end
}

/// Whether a full stop stands at a place of a text right after something, and that is no blank.
#[tactic(auto, unfolding(crate::specs::Kept::is_stop))]
fn is_stop(text: &[u8], at: usize) -> bool
    requires { at < length text.now }
    ensures { result ≡ is_stop text.now at }
{
    at > 0 && (text[at] == b'.' && text[at.saturating_sub(1)] != b' ')
}

/// How many bytes of a line stand before such a full stop at its end, after which it may have blanks; all if there is none.
fn before_stop(line: &[u8]) -> usize
    ensures fits { result ≤ length line.now }
    ensures stop { result < length line.now → is_stop line.now result ≡ true }
    ensures last { (count : ℕ) → length line.now ≡ count + 1 → is_stop line.now count ≡ true → result ≡ count }
{
    let end = filled_length(line);
    if end == 0 {
        return line.len();
    }
    if is_stop(line, end - 1) {
        return end - 1;
    }
    line.len()
}

/// Whether a text has a blank.
fn has_blank(text: &[u8]) -> bool
    ensures { (k : ℕ) → k < length text.now → slice_index text.now k ≡ 32 → result ≡ true }
{
    for byte in text {
        if *byte == b' ' {
            return true;
        }
    }
    false
}

/// Where the full stop stands that follows the moves of a line, if these are two or more in the WCA's notation, and nothing
/// but blanks follows it.
pub fn stop_after_moves(line: &[u8]) -> Option<usize>
    ensures fits { IfSome result (λ at. at < length line.now) }
    ensures stop { IfSome result (λ at. is_stop line.now at ≡ true) }
    ensures all { (count : ℕ) → AreStopped line.now count → MatchOption result ⊥ (λ at. at ≡ count) }
{
    let end = before_stop(line);
    if end == line.len() {
        return None;
    }
    // a label may stand before it
    let moves = trimmed(&line[..end]);
    if !has_blank(moves) {
        return None;
    }
    if !are_plain_moves(moves) {
        return None;
    }
    Some(end)
}

/// Whether something is said in what stands after the moves of a line: more than a full stop.
pub fn says_more(tail: &[u8]) -> bool {
    let end = filled_length(tail);
    end > 1 || (end == 1 && tail[0] != b'.')
}
