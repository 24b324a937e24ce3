//! The signs of a text: those that are told apart, however many bytes they have, and else single bytes.
ghost use Rattle.std.specs.Prelude.{◌≡◌, ◌<◌, ◌≤◌, ◌-◌, ℕ, true, false, not, None, [], ◌∷◌, length, take, drop, slice_index, IfSome, MatchOption};
ghost use Rattle.niss_text.specs.Signs.{IsSign, HasNoMoves, is_digit, is_letter, is_of_letters, is_of_words, is_skipped, is_kept, is_changed, is_spacing, begins_changed, ends_word, AreSigns, AreWords};
ghost use Rattle.niss_text.specs.Doubts.{is_capital, is_letter as is_plain_letter};
ghost use Rattle.niss_text.specs.Kept.{HasTurns, IsTurnUpTo, is_turn};
ghost use Rattle.niss_text.specs.FirstSigns.{IsBehind, IsFirstSign, IsOfAscii};
ghost use Rattle.niss_text.specs.declared.sign.Kind.TheVariants.{Capital, Colon};
ghost use Rattle.niss_text.specs.declared.sign.Class.TheVariants.{Letters, NoBlanks, Skipped, Words};

/// What a sign is. A byte that begins none of the longer ones is one by itself, also if it isn't UTF-8.
#[derive(Clone, Copy, PartialEq, Eq)]
pub enum Kind {
    /// A line feed, a return, or both.
    LineEnd,
    Blank,
    /// One that isn't seen, such as U+200B.
    Unseen,
    /// `,` or `;`.
    Comma,
    /// An apostrophe that the grammar hasn't.
    Apostrophe,
    /// `'`, or the first byte of U+2019.
    Prime,
    /// `:`, or that of Chinese.
    Colon,
    /// `-`, U+2013 or U+2014.
    Dash,
    Slash,
    Open,
    Close,
    Digit,
    Capital,
    Small,
    /// The first byte of another sign beyond ASCII.
    Beyond,
    /// A further byte of one.
    Inner,
    Other,
}

impl Kind {
    /// Whether it is an apostrophe, of the grammar or not.
    pub fn is_prime(self) -> bool {
        self == Kind::Prime || self == Kind::Apostrophe
    }
}

/// A sign, and how many bytes it has.
#[derive(Clone, Copy)]
pub struct Sign {
    pub kind: Kind,
    pub length: usize,
}

/// What a byte of ASCII is.
#[inline(always)]
#[tactic(auto, unfolding(crate::specs::Signs::is_of_moves, crate::specs::Signs::parts_words, crate::specs::Signs::is_line_end, crate::specs::Signs::is_blank, crate::specs::Signs::is_unseen, crate::specs::Signs::is_comma, crate::specs::Signs::is_apostrophe, crate::specs::Signs::is_colon, crate::specs::Signs::is_changed))]
fn kind_of_byte(byte: u8) -> Kind
    ensures is { IsSign result (byte ∷ []) }
    ensures kept { is_kept result ≡ true → is_changed (byte ∷ []) ≡ false }
    ensures turn { is_turn byte ≡ true → ends_word result ≡ false }
    ensures capital { is_capital byte ≡ true → result ≡ Capital }
    ensures colon { byte ≡ 58 → result ≡ Colon }
    ensures blank { byte ≡ 32 → (is_skipped result ≡ true) × (ends_word result ≡ true) }
    ensures letter { is_of_letters result ≡ true → is_letter byte ≡ true }
    ensures plain { is_plain_letter byte ≡ true → is_of_letters result ≡ true }
{
    match byte {
        b'\n' | b'\r' => Kind::LineEnd,
        b' ' | b'\t' | 0x0b | 0x0c => Kind::Blank,
        b',' | b';' => Kind::Comma,
        b'`' => Kind::Apostrophe,
        b'\'' => Kind::Prime,
        b':' => Kind::Colon,
        b'-' => Kind::Dash,
        b'/' => Kind::Slash,
        b'(' | b'[' => Kind::Open,
        b')' | b']' => Kind::Close,
        b'0'..=b'9' => Kind::Digit,
        b'A'..=b'Z' => Kind::Capital,
        b'a'..=b'z' => Kind::Small,
        0x80..=0xbf => Kind::Inner,
        0xc0..=0xff => Kind::Beyond,
        _ => Kind::Other,
    }
}

/// What two bytes are together, if that is told apart.
#[tactic(auto, using(crate::proofs::SignLemmas::two), unfolding(crate::specs::Signs::is_of_moves, crate::specs::Signs::parts_words, crate::specs::Signs::is_line_end, crate::specs::Signs::is_blank, crate::specs::Signs::is_unseen, crate::specs::Signs::is_comma, crate::specs::Signs::is_apostrophe, crate::specs::Signs::is_colon, crate::specs::Signs::is_changed))]
fn kind_of_two(first: u8, second: u8) -> Option<Kind>
    ensures is { IfSome result (λ kind. IsSign kind (first ∷ second ∷ [])) }
    ensures changed { IfSome result (λ kind. is_kept kind ≡ false) }
    ensures other { IfSome result (λ kind. is_of_letters kind ≡ false) }
    ensures others { IfSome result (λ kind. (is_plain_letter first ≡ false) × (is_plain_letter second ≡ false)) }
    ensures none { result ≡ None → is_changed (first ∷ second ∷ []) ≡ false }
{
    match (first, second) {
        (b'\r', b'\n') => Some(Kind::LineEnd),
        // a dot in the middle of the line stands between moves as a blank does
        (0xc2, 0xa0 | 0xb7) => Some(Kind::Blank),
        (0xc2, 0xb4) | (0xca, 0xbc) => Some(Kind::Apostrophe),
        _ => None,
    }
}

/// What three bytes are together, of which the first is 0xe2 and the second 0x80.
#[tactic(auto, using(crate::proofs::SignLemmas::three, crate::proofs::SignLemmas::words_three), unfolding(crate::specs::Signs::is_line_end, crate::specs::Signs::is_blank, crate::specs::Signs::is_unseen, crate::specs::Signs::is_comma, crate::specs::Signs::is_apostrophe, crate::specs::Signs::is_colon, crate::specs::Signs::is_changed))]
fn kind_of_punctuation(third: u8) -> Option<Kind>
    ensures is { IfSome result (λ kind. IsSign kind (226 ∷ 128 ∷ third ∷ [])) }
    ensures kept { MatchOption result (is_changed (226 ∷ 128 ∷ third ∷ []) ≡ false)
        (λ kind. is_kept kind ≡ true → is_changed (226 ∷ 128 ∷ third ∷ []) ≡ false) }
    ensures other { IfSome result (λ kind. is_of_letters kind ≡ false) }
    ensures beyond { IfSome result (λ kind. 128 ≤ third) }
{
    match third {
        0x80..=0x8a | 0xa8 | 0xa9 | 0xaf => Some(Kind::Blank),
        0x8b..=0x8d => Some(Kind::Unseen),
        0x93 | 0x94 => Some(Kind::Dash),
        0x98 | 0xb2 => Some(Kind::Apostrophe),
        0x99 => Some(Kind::Prime),
        _ => None,
    }
}

/// What three bytes are together, if that is told apart.
#[tactic(auto, using(crate::proofs::SignLemmas::three), unfolding(crate::specs::Signs::is_line_end, crate::specs::Signs::is_blank, crate::specs::Signs::is_unseen, crate::specs::Signs::is_comma, crate::specs::Signs::is_apostrophe, crate::specs::Signs::is_colon, crate::specs::Signs::is_changed))]
fn kind_of_three(first: u8, second: u8, third: u8) -> Option<Kind>
    ensures is { IfSome result (λ kind. IsSign kind (first ∷ second ∷ third ∷ [])) }
    ensures kept { MatchOption result (is_changed (first ∷ second ∷ third ∷ []) ≡ false)
        (λ kind. is_kept kind ≡ true → is_changed (first ∷ second ∷ third ∷ []) ≡ false) }
    ensures beyond { IfSome result (λ kind. 128 ≤ first) }
    ensures inner { IfSome result (λ kind. (128 ≤ second) × (128 ≤ third)) }
    ensures other { IfSome result (λ kind. is_of_letters kind ≡ false) }
{
    match (first, second, third) {
        (0xe2, 0x80, third) => kind_of_punctuation(third),
        (0xe2, 0x81, 0x9f) | (0xe1, 0x9a, 0x80) | (0xe3, 0x80, 0x80) => Some(Kind::Blank),
        (0xe2, 0x81, 0xa0) | (0xef, 0xbb, 0xbf) => Some(Kind::Unseen),
        (0xef, 0xbc, 0x9a) => Some(Kind::Colon),
        _ => None,
    }
}

/// The first sign of a text.
#[inline(always)]
pub fn first_sign(text: &[u8]) -> Sign
    requires { 0 < length text.now }
    ensures sign { IsFirstSign text.now result }
    ensures kept { is_kept result.kind ≡ true → begins_changed text.now ≡ false }
    ensures ascii { IsOfAscii text.now result }
{
    // no longer sign begins with another byte of ASCII
    if text[0] < 0x80 && text[0] != b'\r' {
        return Sign {
            kind: kind_of_byte(text[0]),
            length: 1,
        };
    }
    longer_sign(text)
}

/// The first sign of a text, which may have several bytes.
#[inline(never)]
fn longer_sign(text: &[u8]) -> Sign
    requires { 0 < length text.now }
    ensures sign { IsFirstSign text.now result }
    ensures kept { is_kept result.kind ≡ true → begins_changed text.now ≡ false }
{
    if text.len() > 1 {
        if let Some(kind) = kind_of_two(text[0], text[1]) {
            return Sign { kind, length: 2 };
        }
    }
    if text.len() > 2 {
        if let Some(kind) = kind_of_three(text[0], text[1], text[2]) {
            return Sign { kind, length: 3 };
        }
    }
    Sign {
        kind: kind_of_byte(text[0]),
        length: 1,
    }
}

/// The same, as a call: what asks for it seldom has fewer bytes of code so.
#[inline(never)]
pub fn one_sign(text: &[u8]) -> Sign
    requires { 0 < length text.now }
    ensures sign { IsFirstSign text.now result }
    ensures kept { is_kept result.kind ≡ true → begins_changed text.now ≡ false }
    ensures ascii { IsOfAscii text.now result }
{
    first_sign(text)
}

/// What the first sign of a text is, a line end of none.
pub fn first_kind(text: &[u8]) -> Kind
    ensures { is_capital (slice_index text.now 0) ≡ true → result ≡ Capital }
{
    if text.is_empty() {
        Kind::LineEnd
    } else {
        one_sign(text).kind
    }
}

/// Whether a byte is a digit.
pub fn is_digit_byte(byte: u8) -> bool
    ensures { result ≡ is_digit byte }
{
    byte >= b'0' && byte <= b'9'
}

/// Whether a byte is a letter of ASCII, or of a sign beyond it.
pub fn is_letter_byte(byte: u8) -> bool
    ensures { result ≡ is_letter byte }
{
    (byte >= b'A' && byte <= b'Z') || ((byte >= b'a' && byte <= b'z') || byte >= 0x80)
}

/// Whether a sign parts what stands beside it.
pub fn is_skipped(kind: Kind) -> bool
    ensures is { result ≡ is_skipped kind }
    ensures words { result ≡ true → is_of_words kind ≡ true }
{
    matches!(kind, Kind::Blank | Kind::Unseen)
}

/// Whether a sign is one of a word.
pub fn is_of_word(kind: Kind) -> bool
    ensures is { result ≡ true → is_of_words kind ≡ true }
    ensures letters { is_of_letters kind ≡ true → result ≡ true }
{
    matches!(
        kind,
        Kind::Digit | Kind::Capital | Kind::Small | Kind::Beyond | Kind::Inner
    )
}

/// Whether a sign is a letter, or a byte beyond ASCII.
pub fn is_letter(kind: Kind) -> bool
    ensures { result ≡ is_of_letters kind }
{
    matches!(
        kind,
        Kind::Capital | Kind::Small | Kind::Beyond | Kind::Inner
    )
}

/// Signs that may follow each other.
#[derive(Clone, Copy)]
pub enum Class {
    /// Blanks and what isn't seen.
    Skipped,
    /// Letters and digits, and what is beyond ASCII.
    Word,
    Letters,
    /// All but letters.
    NoLetters,
    /// All but blanks, what is not seen, and the end of the line.
    NoBlanks,
    /// Words, and blanks and dashes between them.
    Words,
}

impl Class {
    /// Whether a sign is of it.
    fn has(self, kind: Kind) -> bool
        ensures skipped { self ≡ Skipped → result ≡ is_skipped kind }
        ensures words { self ≡ Words → result ≡ true → is_of_words kind ≡ true }
        ensures no_blanks { self ≡ NoBlanks → result ≡ not (ends_word kind) }
        ensures letters { self ≡ Letters → result ≡ is_of_letters kind }
        ensures of_words { self ≡ Words → is_of_letters kind ≡ true → result ≡ true }
    {
        match self {
            Class::Skipped => is_skipped(kind),
            Class::Word => is_of_word(kind),
            Class::Letters => is_letter(kind),
            Class::NoLetters => !is_letter(kind),
            Class::NoBlanks => !is_skipped(kind) && kind != Kind::LineEnd,
            Class::Words => is_of_word(kind) || is_skipped(kind) || kind == Kind::Dash,
        }
    }
}

/// What stands in a text from a place on.
#[inline(always)]
pub fn from_place(text: &[u8], at: usize) -> &[u8]
    requires { at ≤ length text.now }
    ensures { result.now ≡ drop at text.now }
{
    &text[at..]
}

/// What is after the signs of a class in front of a text.
#[inline(never)]
pub fn behind(text: &[u8], class: Class) -> &[u8]
    ensures { IsBehind class text.now result.now }
{
    // a loop for the one that is asked for most, which has only its test
    match class {
        Class::Skipped => passed(text, Class::Skipped),
        _ => passed(text, class),
    }
}

/// The same, to be compiled for one class.
#[inline(always)]
fn passed(text: &[u8], class: Class) -> &[u8]
    ensures { IsBehind class text.now result.now }
{
    let mut rest = text;
    while !rest.is_empty() {
        let sign = first_sign(rest);
        if !class.has(sign.kind) {
            break;
        }
        rest = from_place(rest, sign.length);
    }
    rest
}

/// What is after blanks and what isn't seen in front of a text. Most begin with none.
#[inline(never)]
pub fn trimmed(text: &[u8]) -> &[u8]
    ensures fits { length result.now ≤ length text.now }
    ensures rest { result.now ≡ drop (length text.now - length result.now) text.now }
    ensures skipped { HasNoMoves (take (length text.now - length result.now) text.now) }
    ensures spacing { AreSigns is_spacing (take (length text.now - length result.now) text.now) }
    ensures unblank { slice_index result.now 0 ≡ 32 → ⊥ }
    ensures begun { 32 < slice_index text.now 0 → slice_index text.now 0 < 128 → result.now ≡ text.now }
{
    if !text.is_empty() && text[0] > b' ' && text[0] < 0x80 {
        return text;
    }
    behind(text, Class::Skipped)
}

/// How many digits a text begins with.
pub fn digits_length(text: &[u8]) -> usize
    ensures fits { result ≤ length text.now }
    ensures digits { (k : ℕ) → k < result → is_digit (slice_index text.now k) ≡ true }
{
    for (at, byte) in text.iter().enumerate() {
        if !is_digit_byte(*byte) {
            return at;
        }
    }
    text.len()
}

/// How many bytes the signs of a class in front of a text have.
pub fn length_of(text: &[u8], class: Class) -> usize
    ensures fits { result ≤ length text.now }
    ensures words { class ≡ Words → AreWords (take result text.now) }
    ensures turns { class ≡ NoBlanks → HasTurns text.now → IsTurnUpTo text.now result }
    ensures letters { class ≡ Letters → (k : ℕ) → k < result → is_letter (slice_index text.now k) ≡ true }
    ensures all_letters { class ≡ Letters → is_plain_letter (slice_index text.now result) ≡ false }
    ensures all_words { class ≡ Words → is_plain_letter (slice_index text.now result) ≡ false }
{
    text.len() - behind(text, class).len()
}
