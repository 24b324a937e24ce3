//! A line as far as it is read. Its steps are those of the module Machine of `specs/`.
use crate::fault::ReadFault;
use crate::niss::Niss;
use crate::symbol::{Symbol, symbol_of, whole_move};
use crate::token::{Base, Token};
use crate::turn::Power;
use std::marker::Model;

/// The most moves of a line.
const MOST_MOVES: usize = 256;

/// The last move of what is read, as far as it goes.
#[derive(Clone, Copy)]
pub enum LastMove {
    /// Nothing can go on.
    Finished,
    /// A base, which may get a suffix.
    Bare(Base),
    /// A base and `2`, which may get an apostrophe.
    Doubled(Base),
    /// A move that ends in the first byte of U+2019.
    FirstByte(Token),
    /// A move that ends in its first two bytes.
    SecondByte(Token),
}

impl LastMove {
    ghost use Rattle.std.specs.Prelude.{◌≡◌};
    ghost use Rattle.niss_moves.specs.Machine.{last_token};

    /// The move, if no more of it follows.
    fn token(self) -> Option<Token>
        ensures { result ≡ last_token self }
    {
        match self {
            LastMove::Finished => None,
            LastMove::Bare(base) => Some(base.token(Power::Quarter)),
            LastMove::Doubled(base) => Some(base.token(Power::Half)),
            // asked for at the third byte alone: whatever else follows the first two is a fault
            LastMove::FirstByte(token) | LastMove::SecondByte(token) => Some(token),
        }
    }
}

/// What is read so far: the whole moves, the column of the open bracket, the last move as far as it goes, and how many bytes
/// were fed. A contract sees it as the record `State` of these.
#[derive(Drop)]
pub struct PartialLine {
    niss: Niss,
    bracket: Option<u32>,
    last: LastMove,
    fed: u32,
}

impl Model for PartialLine {
    ghost use Rattle.std.specs.Prelude.{◌≤◌};
    ghost use Rattle.niss_moves.specs.Machine.{State, HasRoom};

    ghost Value = { State };

    ghost view = { λ p. record { moves = p.niss; bracket = p.bracket; last = p.last; fed = p.fed } };

    ghost invariant = { λ p. (p.fed ≤ 16777216) × HasRoom (record { moves = p.niss; bracket = p.bracket; last = p.last; fed = p.fed }) };
}

impl PartialLine {
    ghost use Rattle.std.specs.Prelude.{◌≡◌, ◌+◌, ◌-◌, ◌<◌, ◌≤◌, Some, Ok, OnErr, length, take};
    ghost use Rattle.niss_moves.specs.Reader.{moves_if};
    ghost use Rattle.niss_moves.specs.declared.fault.ReadFault.TheVariants.{NotAMove};
    ghost use Rattle.niss_moves.specs.Machine.{start, count, added, settled, opened, closed, begun, widened, doubled};
    ghost use Rattle.niss_moves.specs.Machine.{primed, cut, step_at, step_by, step, run, ended, IsStep};

    /// The line before its first byte.
    pub fn new() -> PartialLine
        ensures { result ≡ start }
    {
        PartialLine {
            niss: Niss::new(),
            bracket: None,
            last: LastMove::Finished,
            fed: 0,
        }
    }

    /// How many bytes were fed.
    pub fn fed(&self) -> u32
        ensures { result ≡ self.now.fed }
    {
        self.fed
    }

    /// The column of the next byte.
    fn column(&self) -> u32
        ensures { result ≡ self.now.fed + 1 }
    {
        self.fed + 1
    }

    /// Takes one more byte.
    #[tactic(auto, unfolding(crate::specs::Machine::step_within))]
    pub fn step(&mut self, byte: u8) -> Result<(), ReadFault>
        requires fits { self.old.fed < 16777216 }
        ensures steps { IsStep (λ s. step s byte) self.old result self.new }
        ensures fed { self.new.fed ≡ self.old.fed + 1 }
    {
        let column = self.column();
        let taken = self.take(byte);
        self.fed = column;
        taken
    }

    /// Counts a byte that follows a fault.
    pub fn skip(&mut self)
        requires { self.old.fed < 16777216 }
        ensures { self.new ≡ record self.old { fed = self.old.fed + 1 } }
    {
        self.fed += 1;
    }

    /// Takes one more byte, and doesn't count it.
    fn take(&mut self, byte: u8) -> Result<(), ReadFault>
        ensures { IsStep (λ s. step_at 256 s.last s byte) self.old result self.new }
    {
        match self.last {
            LastMove::FirstByte(token) => {
                if byte != 0x80 {
                    return Err(ReadFault::NotAMove { column: self.fed });
                }
                self.last = LastMove::SecondByte(token);
                Ok(())
            }
            LastMove::SecondByte(_) => {
                if byte != 0x99 {
                    return Err(self.cut_fault());
                }
                self.settle();
                Ok(())
            }
            _ => self.step_by(symbol_of(byte)),
        }
    }

    /// The fault of a byte that can't go on here.
    fn not_a_move(&self) -> ReadFault
        ensures { result ≡ NotAMove (self.now.fed + 1) }
    {
        let column = self.column();
        ReadFault::NotAMove { column }
    }

    /// The fault of a U+2019 that is cut after two bytes, also by the line's end. So at least two were fed.
    fn cut_fault(&self) -> ReadFault
        ensures { result ≡ NotAMove (self.now.fed - 1) }
    {
        ReadFault::NotAMove {
            column: self.fed.saturating_sub(1),
        }
    }

    /// Takes the moves in front of the bytes that can be read at once, and returns how many bytes they have.
    pub fn take_moves(&mut self, bytes: &[u8]) -> usize
        requires fits { self.old.fed + length bytes.now ≤ 16777216 }
        ensures taken { result ≤ length bytes.now }
        ensures runs { run self.old (take result bytes.now) ≡ Ok self.new }
        ensures fed { self.new.fed ≡ self.old.fed + result }
    {
        let LastMove::Finished = self.last else {
            return 0;
        };
        let mut taken = 0;
        while self.niss.len() < MOST_MOVES {
            let Some((token, length)) = whole_move(&bytes[taken..]) else {
                break;
            };
            self.push(token);
            taken += length;
        }
        self.fed += taken as u32;
        taken
    }

    /// Ends the line: it is whole then, or has a fault.
    pub fn end(&mut self) -> Result<(), ReadFault>
        ensures value { moves_if result self.new.moves ≡ ended (Ok self.old) }
        ensures again { ended (Ok self.new) ≡ ended (Ok self.old) }
        ensures fed { self.new.fed ≡ self.old.fed }
        ensures refused { OnErr result (self.new ≡ self.old) }
    {
        match self.last {
            LastMove::FirstByte(_) => return Err(ReadFault::NotAMove { column: self.fed }),
            LastMove::SecondByte(_) => return Err(self.cut_fault()),
            _ => {}
        }
        if let Some(column) = self.bracket {
            return Err(ReadFault::Unclosed { column });
        }
        self.settle();
        Ok(())
    }

    /// The moves of the line, once it is ended, for keeps.
    pub fn into_moves(self) -> Niss
        ensures { result ≡ self.moves }
    {
        self.niss
    }

    /// The moves of the line, once it is ended.
    pub fn moves(&self) -> &Niss
        ensures { result.now ≡ self.now.moves }
    {
        &self.niss
    }

    /// Goes back before the first byte.
    pub fn clear(&mut self)
        ensures { self.new ≡ start }
    {
        self.niss.clear();
        self.bracket = None;
        self.last = LastMove::Finished;
        self.fed = 0;
    }

    /// Takes the next byte, which isn't to continue a U+2019.
    fn step_by(&mut self, symbol: Symbol) -> Result<(), ReadFault>
        ensures { IsStep (step_by 256 symbol) self.old result self.new }
    {
        match symbol {
            Symbol::Blank => {
                self.settle();
                Ok(())
            }
            Symbol::Open => self.open_bracket(),
            Symbol::Close => self.close_bracket(),
            Symbol::Base(base) => self.begin_move(base),
            Symbol::Wide => self.widen(),
            Symbol::Two => self.double(),
            Symbol::Apostrophe => self.finish_move(),
            Symbol::Cut => self.cut_apostrophe(),
            Symbol::Other => Err(self.not_a_move()),
        }
    }

    fn open_bracket(&mut self) -> Result<(), ReadFault>
        ensures { IsStep (λ s. opened s.bracket s) self.old result self.new }
    {
        let column = self.column();
        if self.bracket.is_some() {
            return Err(ReadFault::Nested { column });
        }
        self.settle();
        self.bracket = Some(column);
        Ok(())
    }

    fn close_bracket(&mut self) -> Result<(), ReadFault>
        ensures { IsStep (λ s. closed s.bracket s) self.old result self.new }
    {
        if self.bracket.is_none() {
            let column = self.column();
            return Err(ReadFault::Unopened { column });
        }
        self.settle();
        self.bracket = None;
        Ok(())
    }

    fn begin_move(&mut self, base: Base) -> Result<(), ReadFault>
        ensures { IsStep (begun 256 base) self.old result self.new }
    {
        self.settle();
        // here alone: blanks and brackets may follow 256 moves, and any other byte is no move
        if self.niss.len() >= MOST_MOVES {
            let column = self.column();
            return Err(ReadFault::TooLong { column });
        }
        self.last = LastMove::Bare(base);
        Ok(())
    }

    fn widen(&mut self) -> Result<(), ReadFault>
        ensures { IsStep (λ s. widened s.last s) self.old result self.new }
    {
        let LastMove::Bare(Base::Face(face)) = self.last else {
            return Err(self.not_a_move());
        };
        self.last = LastMove::Bare(Base::Wide(face));
        Ok(())
    }

    fn double(&mut self) -> Result<(), ReadFault>
        ensures { IsStep (λ s. doubled s.last s) self.old result self.new }
    {
        let LastMove::Bare(base) = self.last else {
            return Err(self.not_a_move());
        };
        self.last = LastMove::Doubled(base);
        Ok(())
    }

    /// Takes the apostrophe that ends a move.
    fn finish_move(&mut self) -> Result<(), ReadFault>
        ensures { IsStep (λ s. primed s.last s) self.old result self.new }
    {
        match self.last {
            LastMove::Bare(base) => self.push(base.token(Power::Counter)),
            LastMove::Doubled(base) => self.push(base.token(Power::Half)),
            _ => return Err(self.not_a_move()),
        }
        Ok(())
    }

    /// Takes the first byte of U+2019.
    fn cut_apostrophe(&mut self) -> Result<(), ReadFault>
        ensures { IsStep (λ s. cut s.last s) self.old result self.new }
    {
        self.last = match self.last {
            LastMove::Bare(base) => LastMove::FirstByte(base.token(Power::Counter)),
            LastMove::Doubled(base) => LastMove::FirstByte(base.token(Power::Half)),
            _ => return Err(self.not_a_move()),
        };
        Ok(())
    }

    /// Makes the last move whole.
    #[inline(always)]
    fn settle(&mut self)
        ensures { self.new ≡ settled self.old }
    {
        if let Some(token) = self.last.token() {
            self.push(token);
        }
    }

    /// Appends a whole move.
    fn push(&mut self, token: Token)
        requires { count self.old < 256 }
        ensures { self.new ≡ added self.old (Some token) }
    {
        if self.bracket.is_some() {
            self.niss.push_bracketed(token);
        } else {
            self.niss.push_normal(token);
        }
        self.last = LastMove::Finished;
    }
}
