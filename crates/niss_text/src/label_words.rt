//! The words that a label has in front of a line, among which an axis may have a slash, as in `EO R/L`.
ghost use Rattle.std.specs.Prelude.{◌≡◌, ◌<◌, ◌≤◌, false, length, take, slice_index};
ghost use Rattle.niss_text.specs.Doubts.{is_letter as is_plain_letter};
ghost use Rattle.niss_text.specs.Titles.{AreLabelWords, parts_axis};

use crate::sights::is_axis;
use crate::sign::{Class, first_kind, from_place, is_letter, is_of_word, length_of};

/// Whether a slash stands at a place of a text between the letters of two opposite faces, which name an axis.
#[tactic(auto, unfolding(crate::specs::Titles::parts_axis))]
fn parts_axis(text: &[u8], at: usize) -> bool
    requires { at < length text.now }
    ensures { result ≡ parts_axis text.now at }
{
    text[at] == b'/' && is_axis(text, at.saturating_sub(1))
}

/// Whether a label may begin a line: its first word has two signs, or is an axis.
pub fn begins_label(line: &[u8]) -> bool {
    line.len() > 1
        && is_letter(first_kind(line))
        && (is_of_word(first_kind(&line[1..])) || parts_axis(line, 1))
}

/// How many bytes the words of a label have in front of a line, which may be one.
pub fn label_words_length(line: &[u8]) -> usize
    ensures fits { result ≤ length line.now }
    ensures words { AreLabelWords (take result line.now) }
    ensures all_words { is_plain_letter (slice_index line.now result) ≡ false }
    ensures axes { result < length line.now → parts_axis line.now result ≡ false }
{
    let mut end = length_of(line, Class::Words);
    while end < line.len() {
        if !parts_axis(line, end) {
            return end;
        }
        let rest = from_place(line, end + 1);
        end += 1 + length_of(rest, Class::Words);
    }
    end
}
