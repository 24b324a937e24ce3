//! Lines that come in pieces.
ghost use Rattle.std.specs.Prelude.{◌≡◌, ◌≤◌, length};
ghost use Rattle.niss_moves.specs.Faults.{IsReading};
ghost use Rattle.niss_moves.specs.Reader.{read_line};

use crate::fault::ReadFault;
use crate::niss::Niss;
use crate::partial_line::PartialLine;
use std::marker::Model;

/// Reads a line of at most 16,777,216 bytes, by one byte or by many.
///
/// The `PartialLine` reads, the reader keeps the first fault: in one type each step would have to say what a fault does
/// to it.
#[derive(Drop)]
pub struct LineReader {
    line: PartialLine,
    fault: Option<ReadFault>,
}

impl Model for LineReader {
    ghost use Rattle.niss_moves.specs.Reader.{Reader};

    ghost Value = { Reader };

    ghost view = { λ r. record { fed = r.line.fed; fault = r.fault; so_far = r.line } };
}

impl LineReader {
    ghost use Rattle.std.specs.Prelude.{◌≡◌, ℕ, ◌+◌, ◌<◌, ◌≤◌, ◌↔◌, List, [], ◌∷◌, ◌++◌, length, take, IsOk, IfErr, OnErr};
    ghost use Rattle.std.specs.Prelude.{MatchResult, Err, None, Some};
    ghost use Rattle.niss_moves.specs.Faults.{CanContinue, Stops, IsReading};
    ghost use Rattle.niss_moves.specs.Reader.{IsFed, read_line, line_of, moves_if, moves_of};
    ghost use Rattle.niss_moves.specs.declared.fault.ReadFault.{ReadFault};

    /// A reader before the first byte of a line.
    #[tactic(auto, using(crate::proofs::ReaderLemmas::new_fed))]
    pub fn new() -> LineReader
        ensures fed { result.fed ≡ 0 }
        ensures bytes { IsFed result [] }
        ensures no_fault { result.fault ≡ None }
    {
        LineReader {
            line: PartialLine::new(),
            fault: None,
        }
    }

    /// How many bytes were fed, refused ones among them.
    pub fn fed(&self) -> u32
        ensures { result ≡ self.now.fed }
    {
        self.line.fed()
    }

    /// Takes one byte. It returns a fault as soon as the bytes are the beginning of no line, and from then on that fault
    /// until `clear`. At most 16,777,216 bytes can be fed.
    pub fn feed(&mut self, byte: u8) -> Result<(), ReadFault>
        requires { self.old.fed < 16777216 }
        ensures fed { self.new.fed ≡ self.old.fed + 1 }
        ensures bytes { (bytes : List ℕ) → IsFed self.old bytes →
            IsFed self.new (bytes ++ byte ∷ []) }

        // A byte is taken if some line begins so, and else the fault is that of such a byte.
        ensures taken { (bytes : List ℕ) → IsFed self.old bytes →
            IsOk result ↔ CanContinue (bytes ++ byte ∷ []) }
        ensures fault { (bytes : List ℕ) → IsFed self.old bytes →
            IfErr result (λ f. Stops (bytes ++ byte ∷ []) f) }
        ensures reported { MatchResult result
            (λ _. self.new.fault ≡ None)
            (λ f. self.new.fault ≡ Some f) }
        ensures again { (f : ReadFault) → self.old.fault ≡ Some f →
            (result ≡ Err f) × (self.new.fault ≡ Some f) }
    {
        let taken = match self.fault {
            Some(fault) => {
                self.line.skip();
                Err(fault)
            }
            None => self.line.step(byte),
        };
        self.fault = taken.err();
        taken
    }

    /// Takes whole moves in front of the bytes, each with the blank after it, and returns how many bytes these are. How
    /// many moves it takes is a matter of speed and may be none.
    fn feed_moves(&mut self, bytes: &[u8]) -> usize
        requires { self.old.fed + length bytes.now ≤ 16777216 }
        ensures taken { result ≤ length bytes.now }
        ensures fed { self.new.fed ≡ self.old.fed + result }
        ensures bytes { (front : List ℕ) → IsFed self.old front →
            IsFed self.new (front ++ take result bytes.now) }
        ensures fault { self.new.fault ≡ self.old.fault }
    {
        match self.fault {
            Some(_) => 0,
            None => self.line.take_moves(bytes),
        }
    }

    /// Takes the first bytes, whole moves or one byte, and returns how many.
    fn feed_some(&mut self, bytes: &[u8]) -> usize
        requires some { 0 < length bytes.now }
        requires room { self.old.fed + length bytes.now ≤ 16777216 }
        ensures some { 0 < result }
        ensures taken { result ≤ length bytes.now }
        ensures fed { self.new.fed ≡ self.old.fed + result }
        ensures bytes { (front : List ℕ) → IsFed self.old front →
            IsFed self.new (front ++ take result bytes.now) }
        ensures again { (f : ReadFault) → self.old.fault ≡ Some f → self.new.fault ≡ Some f }
    {
        let count = self.feed_moves(bytes);
        if count > 0 {
            return count;
        }
        // a fault comes again at the line's end
        let _ = self.feed(bytes[0]);
        1
    }

    /// Takes all of the bytes, as `feed` takes them one by one. A fault shows at the line's end. With those fed before, the
    /// bytes are at most 16,777,216.
    pub fn feed_all(&mut self, bytes: &[u8])
        requires { self.old.fed + length bytes.now ≤ 16777216 }
        ensures fed { self.new.fed ≡ self.old.fed + length bytes.now }
        ensures bytes { (front : List ℕ) → IsFed self.old front →
            IsFed self.new (front ++ bytes.now) }
        ensures again { (f : ReadFault) → self.old.fault ≡ Some f → self.new.fault ≡ Some f }
    {
        let mut index = 0;
        while index < bytes.len() {
            index += self.feed_some(&bytes[index..]);
        }
    }

    /// Ends the line: the bytes spell `moves`, or have a fault, and then the reader stays as it was. Ended again it returns
    /// the same. Once the line is ended well, `clear` comes before the next byte.
    #[tactic(auto, using(crate::proofs::ReaderLemmas::at_the_end))]
    pub fn end(&mut self) -> Result<(), ReadFault>
        ensures reading { (bytes : List ℕ) → IsFed self.old bytes →
            IsReading bytes (moves_if result (moves_of self.new)) }
        ensures line { (bytes : List ℕ) → IsFed self.old bytes →
            moves_if result (moves_of self.new) ≡ read_line bytes }
        ensures ends { moves_if result (moves_of self.new) ≡ line_of self.old }
        ensures once_more { line_of self.new ≡ line_of self.old }
        ensures fed { self.new.fed ≡ self.old.fed }
        ensures fault { self.new.fault ≡ self.old.fault }
        ensures refused { OnErr result (self.new ≡ self.old) }
        ensures again { (f : ReadFault) → self.old.fault ≡ Some f → result ≡ Err f }
    {
        match self.fault {
            Some(fault) => Err(fault),
            None => self.line.end(),
        }
    }

    /// The moves that were read, all of them once the line was ended. After a fault of `feed` nothing is said of them.
    pub fn moves(&self) -> &Niss
        ensures { result.now ≡ moves_of self.now }
    {
        self.line.moves()
    }

    /// Goes back before the first byte of a line.
    #[tactic(auto, using(crate::proofs::ReaderLemmas::new_fed))]
    pub fn clear(&mut self)
        ensures fed { self.new.fed ≡ 0 }
        ensures bytes { IsFed self.new [] }
        ensures no_fault { self.new.fault ≡ None }
    {
        self.line.clear();
        self.fault = None;
    }

    /// The line that the bytes spell, or its fault: the one reading that the grammar has of them. By the name `read_line`
    /// callers go on.
    pub fn finish(mut self) -> Result<Niss, ReadFault>
        ensures reading { (bytes : List ℕ) → IsFed self bytes → IsReading bytes result }
        ensures value { (bytes : List ℕ) → IsFed self bytes → result ≡ read_line bytes }
        ensures ends { result ≡ line_of self }
        ensures again { (f : ReadFault) → self.fault ≡ Some f → result ≡ Err f }
    {
        self.end()?;
        Ok(self.line.into_moves())
    }
}

/// The line that the bytes spell, or its fault: the one reading that the grammar has of them. There may be at most
/// 16,777,216 bytes.
pub fn read(bytes: &[u8]) -> Result<Niss, ReadFault>
    requires { length bytes.now ≤ 16777216 }
    ensures reading { IsReading bytes.now result }
    ensures value { result ≡ read_line bytes.now }
{
    let mut reader = LineReader::new();
    reader.feed_all(bytes);
    reader.finish()
}
