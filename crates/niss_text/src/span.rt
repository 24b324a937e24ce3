//! Where the moves of a line begin and end: after words in front of them that are none, and before those after them.
ghost use Rattle.std.specs.Prelude.{◌≡◌, ◌≤◌, ◌<◌, ℕ, List, length, drop, true, false};
ghost use Rattle.niss_text.specs.Kept.{AreInNotation, AreStopped, begins_with_move, begins_with_turn, IsNoMove};
ghost use Rattle.niss_text.specs.declared.word.Word.TheVariants.{Move, Other};

use crate::full_stop::stop_after_moves;
use crate::sign::from_place;
use crate::single::Single;
use crate::word::{Word, are_plain_moves, first_word};

/// Where the moves of a line begin and end, and where the first name stands that may be moves, such as `LL`: the end if
/// there is none.
#[derive(Clone, Copy)]
pub struct Span {
    /// Whether these are moves. What they are is to be read. A line of words alone that spell none is a sentence, and
    /// one without letters is none either.
    pub is_moves: bool,
    pub begin: usize,
    pub end: usize,
    pub name: usize,
    ghost in_order: { begin ≤ end },
}

/// What is seen of a line up to a word. Places count only if it has them.
#[derive(Clone, Copy)]
struct Frame {
    /// The end of the words before the moves.
    lead: usize,
    is_lead: bool,
    /// Where the words after the moves begin.
    tail: usize,
    has_tail: bool,
    /// Where a bracket was opened.
    bracket: usize,
    is_open: bool,
    /// The bracket has moves in it.
    is_of_moves: bool,
    name: usize,
    has_name: bool,
    /// How many words of moves there are, two at most.
    moves: u8,
    /// There is a word that spells no move, and a letter that does not.
    has_words: bool,
    has_others: bool,
}

impl Frame {
    fn nothing() -> Frame
        ensures begin { (result.lead ≤ 0) × (result.tail ≤ 0) × (result.bracket ≤ 0) × (result.name ≤ 0) }
        ensures none { (result.has_tail ≡ false) × (result.is_open ≡ false) }
    {
        Frame {
            lead: 0,
            is_lead: true,
            tail: 0,
            has_tail: false,
            bracket: 0,
            is_open: false,
            is_of_moves: false,
            name: 0,
            has_name: false,
            moves: 0,
            has_words: false,
            has_others: false,
        }
    }

    /// After moves.
    fn with_moves(self) -> Frame
        ensures lead { result.lead ≤ self.lead }
        ensures tail { result.tail ≤ self.tail }
        ensures bracket { result.bracket ≤ self.bracket }
        ensures name { result.name ≤ self.name }
        ensures tail_is { (text : List ℕ) → IsNoMove text self.has_tail self.tail → IsNoMove text result.has_tail result.tail }
        ensures open_is { (text : List ℕ) → IsNoMove text self.is_open self.bracket → IsNoMove text result.is_open result.bracket }
        ensures moved { (result.is_lead ≡ false) × (result.lead ≡ self.lead) }
    {
        let mut frame = self;
        frame.is_lead = false;
        frame.has_tail = false;
        frame.is_of_moves = self.is_open;
        frame.moves = if self.moves == 0 { 1 } else { 2 };
        frame
    }

    /// After a word that is no move, from there to there.
    fn with_words(self, begin: usize, end: usize) -> Frame
        requires { begin ≤ end }
        ensures lead { self.lead ≤ begin → result.lead ≤ end }
        ensures tail { self.tail ≤ begin → self.bracket ≤ begin → result.tail ≤ end }
        ensures bracket { result.bracket ≤ self.bracket }
        ensures name { result.name ≤ self.name }
        ensures tail_is { (text : List ℕ) → IsNoMove text self.has_tail self.tail → IsNoMove text self.is_open self.bracket →
            IsNoMove text true begin → IsNoMove text result.has_tail result.tail }
        ensures open_is { (text : List ℕ) → IsNoMove text self.is_open self.bracket → IsNoMove text result.is_open result.bracket }
        ensures stays { self.is_lead ≡ false → (result.is_lead ≡ false) × (result.lead ≡ self.lead) }
    {
        let mut frame = self;
        if self.is_lead {
            frame.lead = end;
        } else if !self.has_tail && !self.is_of_moves {
            frame.has_tail = true;
            frame.tail = if self.is_open { self.bracket } else { begin };
        }
        frame
    }

    /// With a name there, if it is the first one.
    fn with_name(self, begin: usize) -> Frame
        ensures lead { result.lead ≤ self.lead }
        ensures tail { result.tail ≤ self.tail }
        ensures bracket { result.bracket ≤ self.bracket }
        ensures name { self.name ≤ begin → result.name ≤ begin }
        ensures tail_is { (text : List ℕ) → IsNoMove text self.has_tail self.tail → IsNoMove text result.has_tail result.tail }
        ensures open_is { (text : List ℕ) → IsNoMove text self.is_open self.bracket → IsNoMove text result.is_open result.bracket }
        ensures stays { self.is_lead ≡ false → (result.is_lead ≡ false) × (result.lead ≡ self.lead) }
    {
        let mut frame = self;
        if !self.has_name {
            frame.has_name = true;
            frame.name = begin;
        }
        frame
    }

    /// After a bracket that opens there.
    fn opened(self, begin: usize) -> Frame
        ensures lead { result.lead ≤ self.lead }
        ensures tail { result.tail ≤ self.tail }
        ensures bracket { self.bracket ≤ begin → result.bracket ≤ begin }
        ensures name { result.name ≤ self.name }
        ensures tail_is { (text : List ℕ) → IsNoMove text self.has_tail self.tail → IsNoMove text result.has_tail result.tail }
        ensures open_is { (text : List ℕ) → IsNoMove text self.is_open self.bracket → IsNoMove text true begin →
            IsNoMove text result.is_open result.bracket }
        ensures stays { self.is_lead ≡ false → (result.is_lead ≡ false) × (result.lead ≡ self.lead) }
    {
        let mut frame = self;
        if !self.has_tail {
            frame.is_open = true;
            frame.bracket = begin;
            frame.is_of_moves = false;
        }
        frame
    }

    /// After a bracket that closes there.
    fn closed(self, end: usize) -> Frame
        ensures lead { self.lead ≤ end → result.lead ≤ end }
        ensures tail { result.tail ≤ self.tail }
        ensures bracket { result.bracket ≤ self.bracket }
        ensures name { result.name ≤ self.name }
        ensures tail_is { (text : List ℕ) → IsNoMove text self.has_tail self.tail → IsNoMove text result.has_tail result.tail }
        ensures open_is { (text : List ℕ) → IsNoMove text self.is_open self.bracket → IsNoMove text result.is_open result.bracket }
        ensures stays { self.is_lead ≡ false → (result.is_lead ≡ false) × (result.lead ≡ self.lead) }
    {
        let mut frame = self;
        if self.is_lead && self.is_open && self.lead > 0 {
            frame.lead = end;
        }
        frame.is_open = false;
        frame.is_of_moves = false;
        frame
    }

    /// After a word from there to there.
    fn after(self, word: Word, begin: usize, end: usize) -> Frame
        requires { begin ≤ end }
        ensures lead { self.lead ≤ begin → result.lead ≤ end }
        ensures tail { self.tail ≤ begin → self.bracket ≤ begin → result.tail ≤ end }
        ensures bracket { self.bracket ≤ begin → result.bracket ≤ end }
        ensures name { self.name ≤ begin → result.name ≤ end }
        ensures tail_is { (text : List ℕ) → IsNoMove text self.has_tail self.tail → IsNoMove text self.is_open self.bracket →
            ((word ≡ Move → ⊥) → (word ≡ Other → ⊥) → IsNoMove text true begin) → IsNoMove text result.has_tail result.tail }
        ensures open_is { (text : List ℕ) → IsNoMove text self.is_open self.bracket → ((word ≡ Move → ⊥) → (word ≡ Other → ⊥) → IsNoMove text true begin) →
            IsNoMove text result.is_open result.bracket }
        ensures stays { self.is_lead ≡ false → (result.is_lead ≡ false) × (result.lead ≡ self.lead) }
        ensures moved { word ≡ Move → (result.is_lead ≡ false) × (result.lead ≡ self.lead) }
    {
        match word {
            Word::Move | Word::Moves => self.with_moves(),
            Word::Name => self.with_name(begin).with_words(begin, end),
            Word::Said => self.with_said().with_words(begin, end),
            Word::Glued => self.with_said().without_lead(),
            Word::Mark => self.with_words(begin, end),
            Word::Stamp => self.with_words(begin, end),
            Word::Total if !self.is_lead => self.with_words(begin, end),
            Word::Open => self.opened(begin),
            Word::Close => self.closed(end),
            Word::Other => self.without_lead(),
            _ => self,
        }
    }

    /// After what is at fault where the moves are read.
    fn without_lead(self) -> Frame
        ensures lead { result.lead ≤ self.lead }
        ensures tail { result.tail ≤ self.tail }
        ensures bracket { result.bracket ≤ self.bracket }
        ensures name { result.name ≤ self.name }
        ensures tail_is { (text : List ℕ) → IsNoMove text self.has_tail self.tail → IsNoMove text result.has_tail result.tail }
        ensures open_is { (text : List ℕ) → IsNoMove text self.is_open self.bracket → IsNoMove text result.is_open result.bracket }
        ensures stays { self.is_lead ≡ false → (result.is_lead ≡ false) × (result.lead ≡ self.lead) }
    {
        let mut frame = self;
        frame.is_lead = false;
        frame.has_others = true;
        frame
    }

    /// After a word that spells no move.
    fn with_said(self) -> Frame
        ensures lead { result.lead ≤ self.lead }
        ensures tail { result.tail ≤ self.tail }
        ensures bracket { result.bracket ≤ self.bracket }
        ensures name { result.name ≤ self.name }
        ensures tail_is { (text : List ℕ) → IsNoMove text self.has_tail self.tail → IsNoMove text result.has_tail result.tail }
        ensures open_is { (text : List ℕ) → IsNoMove text self.is_open self.bracket → IsNoMove text result.is_open result.bracket }
        ensures stays { self.is_lead ≡ false → (result.is_lead ≡ false) × (result.lead ≡ self.lead) }
    {
        let mut frame = self;
        frame.has_words = true;
        frame
    }

    /// Whether there are moves, or what may be some.
    fn has_moves(&self) -> bool {
        self.moves > 0 || self.has_name || (self.has_others && !self.has_words)
    }

    /// Where the moves of a line are that has that many bytes. Words are told from moves only beside two moves, or beside
    /// one that is a step by itself.
    fn span(self, length: usize, is_single: bool) -> Span
        requires { self.name ≤ length }
        ensures alone { self.moves ≤ 1 → is_single ≡ false → (result.begin ≡ 0) × (result.end ≡ length) }
        ensures fits { result.end ≤ length }
        ensures name { result.name ≤ length }
        ensures tail { (text : List ℕ) → IsNoMove text self.has_tail self.tail → result.end < length → begins_with_turn (drop result.end text) ≡ false }
        ensures front { self.lead ≡ 0 → result.begin ≡ 0 }
    {
        let is_step = self.moves > 1 || (is_single && self.moves == 1 && !self.has_others);
        if !is_step || (self.is_open && self.is_of_moves) {
            return Span {
                is_moves: self.has_moves(),
                begin: 0,
                end: length,
                name: length,
            };
        }
        let end = if self.has_tail && self.tail < length {
            self.tail
        } else {
            length
        };
        Span {
            is_moves: true,
            begin: self.lead.min(end),
            end,
            name: if self.has_name { self.name } else { length },
        }
    }
}

/// Where the moves of a line are, which has no comment. A full stop right after several is none of them.
pub fn span_of(line: &[u8]) -> Span
    ensures fits { result.end ≤ length line.now }
    ensures name { result.name ≤ length line.now }
    ensures tail { result.end < length line.now → begins_with_turn (drop result.end line.now) ≡ false }
    ensures plain { AreInNotation line.now → (result.is_moves ≡ true) × ((result.begin ≡ 0) × (result.end ≡ length line.now)) }
    ensures front { begins_with_move line.now ≡ true → result.begin ≡ 0 }
    ensures stopped { (count : ℕ) → AreStopped line.now count →
        (result.is_moves ≡ true) × ((result.begin ≡ 0) × (result.end ≡ count)) }
{
    if let Some(end) = stop_after_moves(line) {
        return Span {
            is_moves: true,
            begin: 0,
            end,
            name: line.len(),
        };
    }
    if are_plain_moves(line) {
        return Span {
            is_moves: true,
            begin: 0,
            end: line.len(),
            name: line.len(),
        };
    }
    let mut frame = Frame::nothing();
    let mut single = Single::nothing();
    let mut rest = line;
    while !rest.is_empty() {
        let (word, length) = first_word(rest);
        let begin = line.len() - rest.len();
        single = single.with(word, &rest[..length], frame.is_lead);
        frame = frame.after(word, begin, begin + length);
        rest = from_place(rest, length);
    }
    frame.span(line.len(), single.is_step())
}
