//! What is seen of a line that may be a step of one turn, with words before it or after it.
ghost use Rattle.std.specs.Prelude.{◌≡◌, true, false};
ghost use Rattle.niss_text.specs.Titles.{has_sign, is_marked};
ghost use Rattle.niss_text.specs.declared.word.Word.TheVariants.{Move};

use crate::sights::{byte_at, is_capital};
use crate::sign::{Kind, first_kind};
use crate::word::Word;
use crate::words::names_step;

/// What is seen of such a line up to a word. A turn with a 2 or an apostrophe can't be a word, so that others are told
/// from it as from several moves, if their place says what they are.
#[derive(Clone, Copy)]
pub struct Single {
    /// The last move is a turn of a face with a 2 or an apostrophe.
    is_marked: bool,
    /// A step's name or signs without letters stand before it.
    is_led: bool,
    /// Other words stand before it, or several.
    has_others: bool,
    /// Nothing stands between the last move and the next word.
    is_next: bool,
    /// A dash or a bracket follows it.
    is_parted: bool,
    has_words: bool,
}

impl Single {
    /// Before the first word.
    pub fn nothing() -> Single
        ensures { result.is_marked ≡ false }
    {
        Single {
            is_marked: false,
            is_led: false,
            has_others: false,
            is_next: false,
            is_parted: false,
            has_words: false,
        }
    }

    /// After one more word, which has these bytes, and stands before the moves or not.
    pub fn with(self, word: Word, bytes: &[u8], is_lead: bool) -> Single
        ensures { word ≡ Move → result.is_marked ≡ is_marked bytes.now }
    {
        match word {
            Word::Move => self.with_move(bytes),
            Word::Parting | Word::Close => self,
            _ if is_lead => self.with_lead(word, bytes),
            _ => self.with_tail(word, bytes),
        }
    }

    /// After a move.
    fn with_move(self, bytes: &[u8]) -> Single
        ensures { result.is_marked ≡ is_marked bytes.now }
    {
        Single {
            is_marked: is_marked(bytes),
            is_next: true,
            ..self
        }
    }

    /// After a word before the moves. No more than one name stands there.
    fn with_lead(self, word: Word, bytes: &[u8]) -> Single {
        let mut seen = self;
        match word {
            Word::Mark => seen.is_led = true,
            Word::Open => {}
            Word::Said if !self.is_next && names_step(bytes) => {
                seen.is_led = true;
                seen.is_next = true;
            }
            _ => seen.has_others = true,
        }
        seen
    }

    /// After a word behind the move.
    fn with_tail(self, word: Word, bytes: &[u8]) -> Single {
        let mut seen = self;
        let is_dash = word == Word::Mark && first_kind(bytes) == Kind::Dash;
        if self.is_next && (is_dash || word == Word::Open) {
            seen.is_parted = true;
        }
        seen.has_words = self.has_words || word == Word::Said;
        seen.is_next = false;
        seen
    }

    /// Whether the line is a step if it has one move.
    pub fn is_step(&self) -> bool
        ensures { result ≡ true → self.now.is_marked ≡ true }
    {
        self.is_marked && !self.has_others && (self.is_led || (self.is_parted && self.has_words))
    }
}

/// Whether a move is a turn of a face, and has a 2 or an apostrophe right after its letter.
#[tactic(auto, unfolding(crate::specs::Titles::has_sign))]
fn is_marked(word: &[u8]) -> bool
    ensures { result ≡ is_marked word.now }
{
    is_capital(byte_at(word, 0)) && has_sign(byte_at(word, 1), byte_at(word, 2), byte_at(word, 3))
}

/// Whether a 2 or an apostrophe begins with three bytes.
#[tactic(auto, unfolding(crate::specs::Titles::has_sign))]
fn has_sign(first: u8, second: u8, third: u8) -> bool
    ensures { result ≡ has_sign first second third }
{
    match first {
        b'2' | b'\'' | b'`' => true,
        0xc2 => second == 0xb4,
        0xca => second == 0xbc,
        0xe2 => second == 0x80 && matches!(third, 0x98 | 0x99 | 0xb2),
        _ => false,
    }
}
