//! What each byte may be in a line, and moves that are read at once, as most can be.
ghost use Rattle.std.specs.Prelude.{◌≡◌, ◌+◌, ◌≤◌, ◌<◌, IfSome, length, take, slice_index, if◌then◌else◌};
ghost use Rattle.niss_moves.specs.Line.{base_bytes};
ghost use Rattle.niss_moves.specs.Helpers.{BeginsApostrophe, IsSuffix, IsMove};
ghost use Rattle.niss_moves.specs.Symbols.{symbol_of};

use crate::token::{Base, Slice, Token};
use crate::turn::{Axis, Face, Power};
use Symbol::{Apostrophe, Blank, Close, Cut, Open, Other, Two, Wide};

/// What a byte may be, unless it is to continue a U+2019.
#[derive(Clone, Copy)]
pub enum Symbol {
    Blank,
    Open,
    Close,
    Base(Base),
    Wide,
    Two,
    Apostrophe,
    /// The first byte of U+2019, which is cut until its other two come.
    Cut,
    Other,
}

/// A symbol by its name in the table: a move by its letter.
macro_rules! symbol {
    (_) => { Symbol::Other };
    (U) => { Symbol::Base(Base::Face(Face::U)) };
    (D) => { Symbol::Base(Base::Face(Face::D)) };
    (R) => { Symbol::Base(Base::Face(Face::R)) };
    (L) => { Symbol::Base(Base::Face(Face::L)) };
    (F) => { Symbol::Base(Base::Face(Face::F)) };
    (B) => { Symbol::Base(Base::Face(Face::B)) };
    (u) => { Symbol::Base(Base::LowerCase(Face::U)) };
    (d) => { Symbol::Base(Base::LowerCase(Face::D)) };
    (r) => { Symbol::Base(Base::LowerCase(Face::R)) };
    (l) => { Symbol::Base(Base::LowerCase(Face::L)) };
    (f) => { Symbol::Base(Base::LowerCase(Face::F)) };
    (b) => { Symbol::Base(Base::LowerCase(Face::B)) };
    (M) => { Symbol::Base(Base::Slice(Slice::M)) };
    (E) => { Symbol::Base(Base::Slice(Slice::E)) };
    (S) => { Symbol::Base(Base::Slice(Slice::S)) };
    (x) => { Symbol::Base(Base::Rotation(Axis::Rl)) };
    (y) => { Symbol::Base(Base::Rotation(Axis::Ud)) };
    (z) => { Symbol::Base(Base::Rotation(Axis::Fb)) };
    ($name:ident) => { Symbol::$name };
}

macro_rules! symbols {
    ($($name:tt)*) => { [$(symbol!($name)),*] };
}

/// What each byte may be, from 0 to 255: the letters stand at their ASCII codes.
static SYMBOLS: [Symbol; 256] = symbols!(
    _ _ _ _ _ _ _ _ _ Blank _ _ _ Blank _ _
    _ _ _ _ _ _ _ _ _ _ _ _ _ _ _ _
    Blank _ _ _ _ _ _ Apostrophe Open Close _ _ _ _ _ _
    _ _ Two _ _ _ _ _ _ _ _ _ _ _ _ _
    _ _ B _ D E F _ _ _ _ _ L M _ _
    _ _ R S _ U _ _ _ _ _ _ _ _ _ _
    _ _ b _ d _ f _ _ _ _ _ l _ _ _
    _ _ r _ _ u _ Wide x y z _ _ _ _ _
    _ _ _ _ _ _ _ _ _ _ _ _ _ _ _ _
    _ _ _ _ _ _ _ _ _ _ _ _ _ _ _ _
    _ _ _ _ _ _ _ _ _ _ _ _ _ _ _ _
    _ _ _ _ _ _ _ _ _ _ _ _ _ _ _ _
    _ _ _ _ _ _ _ _ _ _ _ _ _ _ _ _
    _ _ _ _ _ _ _ _ _ _ _ _ _ _ _ _
    _ _ Cut _ _ _ _ _ _ _ _ _ _ _ _ _
    _ _ _ _ _ _ _ _ _ _ _ _ _ _ _ _
);

/// What a byte may be, unless it is to continue a U+2019.
pub fn symbol_of(byte: u8) -> Symbol
    ensures { result ≡ symbol_of byte }
{
    SYMBOLS[byte as usize]
}

/// The most bytes of a move and a blank: `Rw2` with U+2019.
const LONGEST: usize = 7;

/// By whether a `2` stands there, and twice whether an apostrophe does.
static POWERS: [Power; 4] = [Power::Quarter, Power::Half, Power::Counter, Power::Half];

/// How many bytes U+2019 in front of the bytes has, if it is whole. It stands by itself, since most apostrophes are plain.
#[inline(never)]
fn typographic_length(bytes: &[u8]) -> usize
    requires first { slice_index bytes.now 0 ≡ 0xE2 }
    requires fits { 2 < length bytes.now }
    ensures bytes { BeginsApostrophe bytes.now result }
    ensures short { result ≤ 3 }
{
    if bytes[1] == 0x80 && bytes[2] == 0x99 {
        3
    } else {
        0
    }
}

/// How many bytes the apostrophe in front of the bytes has, if there is one.
fn apostrophe_length(first: u8, bytes: &[u8]) -> usize
    requires first { slice_index bytes.now 0 ≡ first }
    requires fits { 2 < length bytes.now }
    ensures bytes { BeginsApostrophe bytes.now result }
    ensures short { result ≤ 3 }
{
    if first == 0xE2 {
        return typographic_length(bytes);
    }
    // a number and no branch, which would be mispredicted
    (first == b'\'') as usize
}

/// One byte or the other, without a branch.
fn chosen(two: bool, second: u8, first: u8) -> u8
    ensures { result ≡ (if two then second else first) }
{
    if two { second } else { first }
}

/// The power of the suffix in front of the bytes, and how many bytes it has.
fn suffix_of(bytes: &[u8]) -> (Power, usize)
    requires { 3 < length bytes.now }
    ensures suffix { IsSuffix (take result.1 bytes.now) result.0 }
    ensures short { result.1 ≤ 4 }
{
    let two = bytes[0] == b'2';
    let mark = chosen(two, bytes[1], bytes[0]);
    let apostrophe = apostrophe_length(mark, &bytes[two as usize..]);
    // by a table, since a branch on what is drawn at random is mispredicted
    let power = POWERS[two as usize + 2 * (apostrophe > 0) as usize];
    (power, two as usize + apostrophe)
}

/// The move of the base in front of the bytes, which has so many bytes, with the blank after it.
fn move_of(base: Base, start: usize, bytes: &[u8]) -> Option<(Token, usize)>
    requires base { take start bytes.now ≡ base_bytes base }
    requires short { start ≤ 2 }
    requires fits { 7 ≤ length bytes.now }
    ensures fits { IfSome result (λ m. m.1 ≤ length bytes.now) }
    ensures moves { IfSome result (λ m. IsMove (take m.1 bytes.now) m.0) }
{
    let (power, length) = suffix_of(&bytes[start..]);
    let end = start + length;
    let Symbol::Blank = symbol_of(bytes[end]) else {
        return None;
    };
    Some((base.token(power), end + 1))
}

/// The same for a letter and `w`. It stands by itself, since most moves have no `w`.
#[inline(never)]
fn wide_move(letter: Base, bytes: &[u8]) -> Option<(Token, usize)>
    requires letter { take 1 bytes.now ≡ base_bytes letter }
    requires wide { slice_index bytes.now 1 ≡ 119 }
    requires fits { 7 ≤ length bytes.now }
    ensures fits { IfSome result (λ m. m.1 ≤ length bytes.now) }
    ensures moves { IfSome result (λ m. IsMove (take m.1 bytes.now) m.0) }
{
    match letter {
        Base::Face(face) => move_of(Base::Wide(face), 2, bytes),
        _ => None,
    }
}

/// The move in front of the bytes and how many bytes it has with the blank after it.
#[tactic(auto, using(crate::proofs::ReaderLemmas::take_one, crate::proofs::Completes::base_is))]
pub fn whole_move(bytes: &[u8]) -> Option<(Token, usize)>
    ensures fits { IfSome result (λ m. m.1 ≤ length bytes.now) }
    ensures moves { IfSome result (λ m. IsMove (take m.1 bytes.now) m.0) }
{
    if bytes.len() < LONGEST {
        return None;
    }
    let Symbol::Base(letter) = symbol_of(bytes[0]) else {
        return None;
    };
    if bytes[1] == b'w' {
        return wide_move(letter, bytes);
    }
    move_of(letter, 1, bytes)
}
