//! The words of a line: moves that stand alone, moves in one word, and words that are no moves.
ghost use Rattle.std.specs.Prelude.{◌≡◌, ◌≤◌, ◌<◌, ◌⊎◌, ℕ, true, length, map, slice_index};
ghost use Rattle.std.specs.List.{Contains};
ghost use Rattle.niss_text.specs.Kept.{AreInNotation, begins_with_layers, begins_with_move, follows_move, goes_on, needs_more, small};
ghost use Rattle.niss_text.specs.Said.{words_of_step};
ghost use Rattle.niss_text.specs.declared.word.Word.TheVariants.{Move, Name, Other, Said};

use crate::forms::count_length;
use crate::short_word::short_word;
use crate::sights::{byte_at, is_capital, is_letter};
use crate::sign::{Kind, first_kind, first_sign, is_digit_byte};
use crate::spelling::{Spelling, is_capital_move};
use crate::words::is_step_name;

/// What a word of a line is.
#[derive(Clone, Copy, PartialEq, Eq)]
pub enum Word {
    Open,
    Close,
    /// What parts words: blanks, commas, and numbers of moves.
    Parting,
    /// One move.
    Move,
    /// Moves in one word, as `RUR'`.
    Moves,
    /// Letters that spell moves, but stand together as those of a name do, such as `LL`.
    Name,
    /// Letters that stand together and spell none, or the name of a step, such as `DR`.
    Said,
    /// Such letters, and moves at a sign between them, as `EO=F'`.
    Glued,
    /// Signs without letters and digits, such as `->`.
    Mark,
    /// Digits with other signs, such as `0:12` or `4/9`.
    Stamp,
    /// 2 or 3, or digits with apostrophes, without a letter.
    Number,
    /// A number that counts moves: 2 and 3 may be of one.
    Total,
    /// A letter that spells no move, such as `Q` or `Ri`.
    Other,
}

impl Word {
    /// The same of a name that solvers give a step. A phone writes small letters after its first one.
    fn or_step(self, text: &[u8]) -> Word
        ensures named { (self ≡ Name) ⊎ (self ≡ Other) → 0 < length text.now → Contains words_of_step (map small text.now) → result ≡ Said }
        ensures only { (result ≡ self) ⊎ Contains words_of_step (map small text.now) }
    {
        match self {
            Word::Name | Word::Other if is_step_name(text) => Word::Said,
            _ => self,
        }
    }
}

/// Whether a sign begins a letter.
fn begins_letter(kind: Kind) -> bool {
    matches!(kind, Kind::Capital | Kind::Small | Kind::Beyond)
}

/// Whether a sign ends a word.
fn is_parting(kind: Kind) -> bool {
    matches!(
        kind,
        Kind::Blank | Kind::Comma | Kind::LineEnd | Kind::Open | Kind::Close
    )
}

/// Whether a byte may follow another one of moves in the WCA's notation, each a word of its own.
#[tactic(auto, unfolding(crate::specs::Kept::follows_move))]
fn follows_moves(before: u8, byte: u8) -> bool
    ensures is { result ≡ follows_move before byte }
    ensures slash { result ≡ true → byte ≡ 47 → ⊥ }
{
    match before {
        0xe2 => byte == 0x80,
        0x80 => byte == 0x99,
        b' ' => byte == b' ' || (byte == b'(' || is_capital_move(byte)),
        b'(' => is_capital_move(byte),
        b')' => byte == b' ',
        _ => goes_on(byte) || (byte == b'w' && is_capital(before)),
    }
}

/// Whether a byte may stand after any but the first of a move.
fn goes_on(byte: u8) -> bool
    ensures { result ≡ goes_on byte }
{
    matches!(byte, b' ' | b'2' | b'\'' | b')' | 0xe2)
}

/// Whether a text is such moves: what most lines are, of which nothing else is to be told.
#[inline(never)]
pub fn are_plain_moves(text: &[u8]) -> bool
    ensures some { result ≡ true → 0 < length text.now }
    ensures plain { AreInNotation text.now → result ≡ true }
    ensures slash { result ≡ true → (k : ℕ) → slice_index text.now k ≡ 47 → ⊥ }
{
    if text.is_empty() || text[0] == b' ' {
        return false;
    }
    let mut before = b' ';
    for byte in text {
        if !follows_moves(before, *byte) {
            return false;
        }
        before = *byte;
    }
    !needs_more(before)
}

/// Whether a byte of such moves is followed by another one: it is of U+2019 but the last, or opens a bracket.
#[tactic(auto, unfolding(crate::specs::Kept::needs_more))]
fn needs_more(byte: u8) -> bool
    ensures { result ≡ needs_more byte }
{
    matches!(byte, 0xe2 | 0x80 | b'(')
}

/// One more than a number, three at most.
fn up_to_three(number: u8) -> u8 {
    if number < 3 { number + 1 } else { 3 }
}

/// What is seen of a word.
#[derive(Clone, Copy)]
struct Seen {
    spelling: Spelling,
    /// How many signs, capitals of moves, letters in a row, and most letters in a row it has, three at most.
    signs: u8,
    capitals: u8,
    row: u8,
    most: u8,
    has_prime: bool,
    has_digit: bool,
    /// One that says how often no move is made.
    has_other_digit: bool,
    has_mark: bool,
    is_beyond: bool,
    /// Its first letter is a capital of a move, and its second a small one or beyond ASCII: a slip rather than a name.
    is_slip: bool,
}

impl Seen {
    fn nothing() -> Seen {
        Seen {
            spelling: Spelling::Empty,
            signs: 0,
            capitals: 0,
            row: 0,
            most: 0,
            has_prime: false,
            has_digit: false,
            has_other_digit: false,
            has_mark: false,
            is_beyond: false,
            is_slip: false,
        }
    }

    /// With one more sign, which begins with this byte.
    fn with(self, kind: Kind, byte: u8) -> Seen {
        if kind == Kind::Unseen {
            return self;
        }
        let mut seen = self;
        seen.is_slip = self.is_slip
            || (self.signs == 1
                && self.spelling == Spelling::Letter
                && (kind == Kind::Small || kind == Kind::Beyond));
        seen.is_beyond = self.is_beyond || (self.signs == 0 && kind == Kind::Beyond);
        seen.signs = up_to_three(self.signs);
        seen.spelling = self.spelling.with(kind, byte);
        if is_capital_move(byte) {
            seen.capitals = up_to_three(self.capitals);
        }
        seen.has_other_digit = self.has_other_digit
            || (kind == Kind::Digit && !matches!(byte, b'2' | b'3'));
        seen.with_letter(kind).with_sign(kind)
    }

    /// With a letter, if the sign is one.
    fn with_letter(self, kind: Kind) -> Seen {
        let mut seen = self;
        if begins_letter(kind) {
            seen.row = up_to_three(self.row);
        } else if kind != Kind::Inner {
            seen.row = 0;
        }
        if seen.row > self.most {
            seen.most = seen.row;
        }
        seen
    }

    /// With what is no letter, if the sign is none.
    fn with_sign(self, kind: Kind) -> Seen {
        let mut seen = self;
        seen.has_prime = self.has_prime || kind.is_prime();
        seen.has_digit = self.has_digit || kind == Kind::Digit;
        seen.has_mark = self.has_mark
            || !(kind.is_prime()
                || kind == Kind::Digit
                || kind == Kind::Capital
                || kind == Kind::Small);
        seen
    }

    /// What the word is.
    fn word(self) -> Word {
        match self.spelling {
            Spelling::Small => Word::Move,
            Spelling::Letter | Spelling::Moves => self.moves(),
            _ => self.no_moves(),
        }
    }

    /// What a word is that spells moves by capitals.
    fn moves(self) -> Word {
        if self.capitals < 2 {
            Word::Move
        } else if self.has_prime || self.most < 2 {
            Word::Moves
        } else {
            Word::Name
        }
    }

    /// Whether a part of a word spells moves by capitals, and no name.
    fn is_glued(self, has_dash: bool) -> bool {
        matches!(self.spelling, Spelling::Letter | Spelling::Moves)
            && self.moves() != Word::Name
            && (!has_dash || self.has_prime || self.has_digit)
    }

    /// What a word is that spells none.
    fn no_moves(self) -> Word {
        let is_name = self.most == 2 && !self.has_prime && !self.is_slip;
        if is_name || self.most > 2 || (self.most > 0 && self.is_beyond && !self.has_prime) {
            Word::Said
        } else if self.most > 0 {
            Word::Other
        } else if !self.has_prime && !self.has_mark && (self.signs > 1 || self.has_other_digit) {
            Word::Total
        } else if self.has_prime || !self.has_mark {
            Word::Number
        } else if self.has_digit {
            Word::Stamp
        } else {
            Word::Mark
        }
    }
}

/// Whether a sign in a word parts moves from what they are glued to.
fn is_joint(kind: Kind, byte: u8) -> bool {
    match kind {
        Kind::Other => byte != b'.' && byte != b'&',
        // others are letters of alphabets
        Kind::Beyond => byte == 0xc2 || byte >= 0xe2,
        Kind::Colon | Kind::Dash | Kind::Slash => true,
        _ => false,
    }
}

/// What is seen of the word in front of a text, or of its part up to such a sign, and its bytes: one sign at least.
#[inline(never)]
fn spelled(text: &[u8], is_part: bool) -> (Seen, usize)
    requires { 0 < length text.now }
    ensures { (0 < result.1) × (result.1 ≤ length text.now) }
{
    let mut seen = Seen::nothing();
    let mut rest = text;
    while !rest.is_empty() {
        let sign = first_sign(rest);
        let is_end = is_parting(sign.kind) || (is_part && is_joint(sign.kind, rest[0]));
        if is_end && rest.len() < text.len() {
            break;
        }
        seen = seen.with(sign.kind, rest[0]);
        rest = &rest[sign.length..];
    }
    (seen, text.len() - rest.len())
}

/// Whether a part of a word between such signs is moves. Beside a dash or a slash they have a 2 or an apostrophe: solvers
/// write axes so, as `EO-FB`.
fn has_glued_moves(word: &[u8]) -> bool {
    let has_dash = word.iter().any(|byte| matches!(*byte, b'-' | b'/'));
    let mut rest = word;
    while !rest.is_empty() {
        let kind = first_kind(rest);
        // the further bytes of a sign are Inner
        if kind == Kind::Inner || is_joint(kind, rest[0]) {
            rest = &rest[1..];
        } else {
            let (part, length) = spelled(rest, true);
            if part.is_glued(has_dash) {
                return true;
            }
            rest = &rest[length..];
        }
    }
    false
}

/// Whether a text begins with a turn of as many layers as a digit says, such as `3Rw`: it is none of this cube, but no word.
#[tactic(auto, unfolding(crate::specs::Kept::begins_with_layers))]
fn begins_with_layers(text: &[u8]) -> bool
    ensures { result ≡ begins_with_layers text.now }
{
    is_digit_byte(byte_at(text, 0))
        && (is_capital(byte_at(text, 1))
            && (byte_at(text, 2) == b'w' && !is_letter(byte_at(text, 3))))
}

/// The first word of a text, and how many bytes it has.
#[tactic(auto, using(crate::proofs::LayerLemmas::not_both))]
pub fn first_word(text: &[u8]) -> (Word, usize)
    requires { 0 < length text.now }
    ensures fits { (0 < result.1) × (result.1 ≤ length text.now) }
    ensures single { begins_with_move text.now ≡ true → result.0 ≡ Move }
    ensures layers { begins_with_layers text.now ≡ true → result.0 ≡ Other }
{
    if begins_with_layers(text) {
        return (Word::Other, spelled(text, false).1);
    }
    if let Some(word) = short_word(text) {
        return word;
    }
    let count = count_length(text);
    if count > 0 {
        return (Word::Parting, count);
    }
    let sign = first_sign(text);
    match sign.kind {
        Kind::Open => (Word::Open, sign.length),
        Kind::Close => (Word::Close, sign.length),
        Kind::Blank | Kind::Comma | Kind::LineEnd | Kind::Unseen => (Word::Parting, sign.length),
        _ => {
            let (seen, length) = spelled(text, false);
            let word = seen.word().or_step(&text[..length]);
            let may_have_moves = word == Word::Said && seen.has_mark && seen.capitals > 0;
            if may_have_moves && has_glued_moves(&text[..length]) {
                (Word::Glued, length)
            } else {
                (word, length)
            }
        }
    }
}

/// Whether three moves stand in a text, one after another.
pub fn has_three_moves(text: &[u8]) -> bool {
    let mut moves = 0u8;
    let mut rest = text;
    while !rest.is_empty() {
        let (word, length) = first_word(rest);
        moves = match word {
            Word::Move => up_to_three(moves),
            Word::Parting => moves,
            _ => 0,
        };
        if moves == 3 {
            return true;
        }
        rest = &rest[length..];
    }
    false
}
