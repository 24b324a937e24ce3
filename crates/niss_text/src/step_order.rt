//! The order of steps by what their labels say, and of scrambles by their titles.
ghost use Rattle.std.specs.Prelude.{◌≡◌, ◌≤◌, ◌<◌, true, length, map, codes, IfSome};
ghost use Rattle.niss_text.specs.Kept.{small};
ghost use Rattle.niss_text.specs.Order.{is_late, rank_of};

use crate::line::Line;
use crate::marks::{last_word, word_at_end};
use crate::parts::number_in;
use crate::sights::{byte_at, is_capital, is_letter};
use crate::sign::is_digit_byte;
use crate::words::{
    Wanted, behind_letters, fits_one_of, is_word, letters_in_front, place_said, says, says_solution,
};

/// A step by its name.
#[derive(Clone, Copy, PartialEq, Eq)]
pub enum StepName {
    Orientation,
    Reduction,
    HalfTurns,
    Finish,
}

impl StepName {
    /// The step that a word names, if it names one of them.
    fn of(word: &[u8]) -> Option<StepName> {
        if is_word(word, b"eo") {
            Some(StepName::Orientation)
        } else if is_word(word, b"dr") {
            Some(StepName::Reduction)
        } else if is_word(word, b"htr") {
            Some(StepName::HalfTurns)
        } else if is_word(word, b"finish") {
            Some(StepName::Finish)
        } else {
            None
        }
    }

    /// Its place among them.
    fn rank(self) -> u8
        ensures { result ≡ rank_of self }
    {
        match self {
            StepName::Orientation => 0,
            StepName::Reduction => 1,
            StepName::HalfTurns => 2,
            StepName::Finish => 3,
        }
    }
}

/// The earliest and the latest of some steps that are named together.
#[derive(Clone, Copy)]
struct Named {
    first: StepName,
    last: StepName,
}

impl Named {
    /// With one more of them.
    fn with(self, name: StepName) -> Named {
        let mut named = self;
        if name.rank() < self.first.rank() {
            named.first = name;
        }
        if name.rank() > self.last.rank() {
            named.last = name;
        }
        named
    }
}

/// Which steps a text names beside those named before, if it names any.
fn steps_named(text: &[u8], before: Option<Named>) -> Option<Named> {
    let mut named = before;
    let mut rest = text;
    while !rest.is_empty() {
        let letters = letters_in_front(rest);
        if let Some(name) = StepName::of(&rest[..letters]) {
            let alone = Named {
                first: name,
                last: name,
            };
            named = Some(named.map_or(alone, |others| others.with(name)));
        }
        rest = behind_letters(rest, letters);
    }
    named
}

/// What the steps of a group are called.
#[derive(Clone, Copy)]
pub struct Called {
    /// By which names.
    has_orientation: bool,
    has_reduction: bool,
    has_half_turns: bool,
    has_finish: bool,
    /// One has the number 1 before it, and one a higher number.
    is_first: bool,
    is_later: bool,
}

impl Called {
    fn nothing() -> Called {
        Called {
            has_orientation: false,
            has_reduction: false,
            has_half_turns: false,
            has_finish: false,
            is_first: false,
            is_later: false,
        }
    }

    /// Whether a step of that name comes too late: below a later one, and not as if all began again.
    fn is_late(&self, name: StepName) -> bool
        ensures { result ≡ is_late self.now name }
    {
        match name {
            StepName::Orientation => {
                (self.has_reduction || (self.has_half_turns || self.has_finish))
                    && !self.has_orientation
            }
            StepName::Reduction => {
                (self.has_half_turns || self.has_finish) && !self.has_reduction
            }
            StepName::HalfTurns => self.has_finish && !self.has_half_turns,
            StepName::Finish => false,
        }
    }

    /// With a step of that name.
    fn with_name(self, name: StepName) -> Called {
        let mut called = self;
        match name {
            StepName::Orientation => called.has_orientation = true,
            StepName::Reduction => called.has_reduction = true,
            StepName::HalfTurns => called.has_half_turns = true,
            StepName::Finish => called.has_finish = true,
        }
        called
    }

    /// With a step of those names, and whether it comes too late. Of several the last one says which step it is, and the
    /// first one what comes too late below it: `EO, good for HTR` is an EO too.
    fn with_names(self, named: Named) -> (Called, bool)
        ensures { result.1 ≡ is_late self named.last }
    {
        (self.with_name(named.first), self.is_late(named.last))
    }

    /// With a step of that number, and whether it is the first one, and comes below a later one. Others may count moves.
    fn with_number(self, number: usize) -> (Called, bool) {
        let mut called = self;
        if number == 1 {
            called.is_first = true;
        } else {
            called.is_later = true;
        }
        (called, number == 1 && self.is_later && !self.is_first)
    }

    /// With the step in the first line of a text, and whether it comes too late.
    fn with(self, text: &[u8], line: &Line) -> (Called, bool)
        requires { line.now.length ≤ length text.now }
    {
        if line.is_step {
            let named = steps_named(&text[line.label_begin..line.label_end], None);
            return steps_named(&text[line.comment..line.length], named).map_or(
                (self, false),
                |names| self.with_names(names),
            );
        }
        let lead = &text[line.head..line.moves];
        match number_in(lead) {
            Some(number) if !has_letter(lead) => self.with_number(number),
            _ => (self, false),
        }
    }
}

/// The digits of the marks that stand between moves, such as `(1)`, as solvers write them where others belong.
#[derive(Clone, Copy)]
struct Marks {
    digits: [bool; 10],
}

/// Where the last turn of some moves stands.
fn last_turn(moves: &[u8]) -> usize {
    moves
        .iter()
        .rposition(|byte| is_capital(*byte))
        .unwrap_or(0)
}

/// The digit in round brackets that a text begins with.
fn digit_in_brackets(text: &[u8]) -> Option<u8>
    ensures { IfSome result (λ digit. digit < 10) }
{
    let digit = byte_at(text, 1);
    if byte_at(text, 0) == b'(' && is_digit_byte(digit) && byte_at(text, 2) == b')' {
        Some(digit - b'0')
    } else {
        None
    }
}

impl Marks {
    fn none() -> Marks {
        Marks {
            digits: [false; 10],
        }
    }

    /// With those between some moves: a number at their end counts them.
    fn with(self, moves: &[u8]) -> Marks {
        let mut marks = self;
        let end = last_turn(moves).min(moves.len());
        for at in 1..end {
            if let Some(digit) = digit_in_brackets(&moves[at..]) {
                marks.digits[digit as usize] = true;
            }
        }
        marks
    }

    /// Whether a line, which is the first one of a text, has the number of one of them before its moves.
    fn has_number_of(&self, text: &[u8], line: &Line) -> bool
        requires { line.now.length ≤ length text.now }
    {
        if let Some(digit) = digit_in_brackets(&text[line.moves..line.comment]) {
            return self.digits[digit as usize];
        }
        let lead = &text[line.head..line.moves];
        match number_in(lead) {
            Some(number) if number < 10 && !has_letter(lead) => self.digits[number],
            _ => false,
        }
    }
}

/// What is seen of the order of steps.
#[derive(Clone, Copy)]
pub struct Order {
    called: Called,
    marks: Marks,
    /// Where the first step stands that has the number of a mark above it.
    pub inserted: Option<usize>,
    /// Where the first one stands that comes too late, and the group of the last one up to that.
    pub found: Option<usize>,
    pub group: usize,
}

impl Order {
    /// Before the first step.
    pub fn nothing() -> Order {
        Order {
            called: Called::nothing(),
            marks: Marks::none(),
            inserted: None,
            found: None,
            group: 0,
        }
    }

    /// With the marks of one more step, or that it belongs at one.
    fn with_marks(self, text: &[u8], line: &Line, at: usize) -> Order
        requires { line.now.length ≤ length text.now }
    {
        let mut order = self;
        if self.inserted.is_none() && self.marks.has_number_of(text, line) {
            order.inserted = Some(at);
        }
        order.marks = self.marks.with(&text[line.moves..line.comment]);
        order
    }

    /// After one more step, which begins a text that begins there, and is in a group.
    pub fn after(self, text: &[u8], line: &Line, at: usize, group: usize) -> Order
        requires { line.now.length ≤ length text.now }
    {
        let seen = self.with_marks(text, line, at);
        if self.found.is_some() {
            return seen;
        }
        let above = if group == self.group {
            self.called
        } else {
            Called::nothing()
        };
        let (called, is_late) = above.with(text, line);
        Order {
            called,
            found: is_late.then_some(at),
            group,
            ..seen
        }
    }
}

/// Whether words end with one that says of what follows it that others are of it, as in `Solve of the`, or `Pre-`.
fn end_with_link(words: &[u8]) -> bool {
    let last = word_at_end(words);
    let link = if is_word(last, b"the") {
        word_at_end(&words[..last_word(words)])
    } else {
        last
    };
    fits_one_of(link, b"of,for,on,to,from,with,after,in,pre-", true)
}

/// Whether what stands before moves calls them a scramble: no step of one, not the inverse's, and no solution.
#[tactic(auto, using(crate::proofs::DoubtLemmas::some_spelled))]
pub fn calls_scramble(words: &[u8]) -> bool
    ensures word { map small words.now ≡ codes "scramble" → result ≡ true }
    ensures colon { map small words.now ≡ codes "scramble:" → result ≡ true }
    ensures some { result ≡ true → 0 < length words.now }
{
    if is_word(words, b"scramble") || is_word(words, b"scramble:") {
        return true;
    }
    let at = place_said(words, Wanted::Scramble);
    at < words.len()
        && !end_with_link(&words[..at])
        && !says_solution(words)
        && !says(words, Wanted::Step)
        && !says(words, Wanted::Inverse)
        && !says(words, Wanted::Switch)
}

/// Whether a text has a letter of ASCII.
fn has_letter(text: &[u8]) -> bool {
    text.iter().any(|byte| is_letter(*byte))
}

/// What stands in a text before its first digit.
fn before_digit(text: &[u8]) -> &[u8] {
    let digit = text.iter().position(|byte| is_digit_byte(*byte));
    &text[..digit.unwrap_or(text.len())]
}

/// The number of a text after the words that it begins with.
fn number_after(text: &[u8], words: &[u8]) -> Option<usize> {
    number_in(&text[words.len().min(text.len())..])
}

/// Whether a line may be the title of the next attempt: both begin with the same words, and have other numbers then.
pub fn is_next(line: &[u8], title: &[u8]) -> bool {
    let words = before_digit(title);
    has_letter(words)
        && before_digit(line) == words
        && number_after(line, words) != number_after(title, words)
}
