//! What writes a line: its bytes, and of each its place in the text.
ghost use Rattle.std.specs.Prelude.{◌≡◌, ◌≤◌, ◌+◌, ◌*◌, ◌++◌, [], ◌∷◌, ℕ, List, true, length, take, drop, replicate, slice_index};
ghost use Rattle.niss_text.specs.Pieces.{IsPiece, written};
ghost use Rattle.niss_text.specs.Written.{PutsPart};

use crate::left_out::LeftOut;
use crate::piece::{Piece, Place, first_piece};

/// How far a line is written.
#[derive(Clone, Copy)]
pub struct Pen {
    /// How many bytes are written, and how many places.
    pub length: usize,
    /// There was room for all so far.
    pub has_room: bool,
}

/// Where a part of a text begins, and where one is in a line there.
#[derive(Clone, Copy)]
pub struct Beginning {
    pub at: usize,
    pub place: Place,
}

/// What is written of a piece with this first byte.
fn written(piece: Piece, first: u8) -> ([u8; 3], usize)
    ensures short { result.1 ≤ 3 }
    ensures is { (bytes : List ℕ) → IsPiece piece bytes → slice_index bytes 0 ≡ first → take result.1 result.0 ≡ written piece bytes }
{
    match piece {
        Piece::Kept => ([first, 0, 0], 1),
        Piece::Blank | Piece::LineEnd | Piece::Comma => ([b' ', 0, 0], 1),
        Piece::Apostrophe => ([0xe2, 0x80, 0x99], 3),
        _ => ([0, 0, 0], 0),
    }
}

/// What is after that many bytes of a text.
fn behind_piece(text: &[u8], size: usize) -> &[u8]
    requires { size ≤ length text.now }
    ensures { result.now ≡ drop size text.now }
{
    &text[size..]
}

/// Writes that many of some bytes there.
fn put_bytes(bytes: &[u8], count: usize, out: &mut [u8], at: usize)
    requires some { count ≤ length bytes.now }
    requires room { at + count ≤ length out.old }
    ensures written { take (at + count) out.new ≡ take at out.old ++ take count bytes.now }
    ensures behind { drop (at + count) out.new ≡ drop (at + count) out.old }
{
    out[at..at + count].copy_from_slice(&bytes[..count]);
}

/// Writes that many times the same place there.
fn put_places(place: u64, count: usize, places: &mut [u64], at: usize)
    requires { at + count ≤ length places.old }
    ensures written { take (at + count) places.new ≡ take at places.old ++ replicate count place }
    ensures behind { drop (at + count) places.new ≡ drop (at + count) places.old }
{
    places[at..at + count].fill(place);
}

impl Pen {
    /// Before the first byte.
    pub fn new() -> Pen
        ensures { (result.length ≡ 0) × (result.has_room ≡ true) }
    {
        Pen {
            length: 0,
            has_room: true,
        }
    }

    /// Writes one byte with its place, if there is room.
    pub fn put_sign(self, byte: u8, place: u64, out: &mut [u8], places: &mut [u64]) -> Pen
        requires { (self.length ≤ length out.old) × (self.length ≤ length places.old) }
        ensures had { result.has_room ≡ true → self.has_room ≡ true }
        ensures written { result.has_room ≡ true → take result.length out.new ≡ take self.length out.old ++ byte ∷ [] }
        ensures placed { result.has_room ≡ true → take result.length places.new ≡ take self.length places.old ++ place ∷ [] }
        ensures room { self.has_room ≡ true → self.length + 1 ≤ length out.old → self.length + 1 ≤ length places.old → result.has_room ≡ true }
        ensures further { (self.length ≤ result.length) × (result.length ≤ self.length + 1) }
        ensures within { (result.length ≤ length out.old) × (result.length ≤ length places.old) }
        ensures behind { drop result.length out.new ≡ drop result.length out.old }
        ensures behind_places { drop result.length places.new ≡ drop result.length places.old }
    {
        let room = out.len().min(places.len());
        if !self.has_room || self.length >= room {
            return Pen {
                has_room: false,
                ..self
            };
        }
        put_bytes(&[byte], 1, out, self.length);
        put_places(place, 1, places, self.length);
        Pen {
            length: self.length + 1,
            ..self
        }
    }

    /// Writes a part of a text, as long as there is room, and returns what it leaves out.
    pub fn put_part(
        self,
        part: &[u8],
        from: Beginning,
        out: &mut [u8],
        places: &mut [u64],
    ) -> (Pen, LeftOut)
        requires begun { (self.length ≤ length out.old) × (self.length ≤ length places.old) }
        requires there { from.at + length part.now ≤ usize.MAX }
        ensures had { result.0.has_room ≡ true → self.has_room ≡ true }
        ensures reads { result.0.has_room ≡ true → PutsPart part.now from (take self.length out.old) (take result.0.length out.new)
            (take self.length places.old) (take result.0.length places.new) result.1 }
        ensures room { self.has_room ≡ true → self.length + 3 * length part.now ≤ length out.old →
            self.length + 3 * length part.now ≤ length places.old → result.0.has_room ≡ true }
        ensures further { (self.length ≤ result.0.length) × (result.0.length ≤ self.length + 3 * length part.now) }
        ensures within { (result.0.length ≤ length out.old) × (result.0.length ≤ length places.old) }
        ensures behind { drop result.0.length out.new ≡ drop result.0.length out.old }
        ensures behind_places { drop result.0.length places.new ≡ drop result.0.length places.old }
    {
        if !self.has_room {
            return (self, LeftOut::none());
        }
        let room = out.len().min(places.len());
        let mut rest = part;
        let mut place = from.place;
        let mut pen = self;
        let mut gone = LeftOut::none();
        while !rest.is_empty() {
            let (piece, size) = first_piece(rest, place);
            let (bytes, count) = written(piece, rest[0]);
            if room - pen.length < count {
                pen.has_room = false;
                return (pen, gone);
            }
            let at = (from.at + (part.len() - rest.len())) as u64;
            put_bytes(&bytes, count, out, pen.length);
            put_places(at, count, places, pen.length);
            pen.length += count;
            gone = gone.and(LeftOut::of(piece));
            place = place.after(piece);
            rest = behind_piece(rest, size);
        }
        (pen, gone)
    }
}
