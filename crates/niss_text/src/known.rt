//! A text that has only solutions, of scrambles that are known: which part of it is of which scramble, and what its
//! lines are after that scramble.
ghost use Rattle.std.specs.Prelude.{◌≡◌, ◌≤◌, ◌<◌, ◌+◌, ◌⊎◌, ◌||◌, ℕ, List, false, MatchOption, is_some, length, drop, get_or, set, take};
ghost use Rattle.niss_text.specs.Kept.{words_of_any_head};
ghost use Rattle.niss_text.specs.Known.{AreKnown, AreApart, AreAssigned, AreCounted, AreNamedAs, AreOf, AreSaid, IsCountedAlone, IsName, IsNumbered, HasBody, HaveLines, HaveNames, PartsTake, have_numbers, scramble_with};
ghost use Rattle.niss_text.specs.Lines.{Counts, CoversBy, Takes, TellsPlain};

use crate::attempts::{put_attempts, put_solution};
use crate::parts::{Part, first_part, has_head};
use crate::progress::Progress;
use crate::status::Status;
use crate::text_line::TextLine;
use crate::worded_heads::put_heads;

/// A part of such a text: what stands under a head, which words may follow, or in a block if the text has no heads.
#[repr(C)]
#[derive(Clone, Copy, Debug, PartialEq, Eq)]
pub struct KnownPart {
    /// Which of the scrambles it is of, from 0; `usize::MAX` if that can't be told.
    pub scramble: usize,
    /// Where its first line begins that isn't blank.
    pub begin: usize,
    /// Where its head stands; both are 0 if it has none.
    pub name_begin: usize,
    pub name_end: usize,
    /// Which of the lines is its first one, which the first one after those of its solution, and which that after all.
    pub first_line: usize,
    pub solution_end: usize,
    pub end_line: usize,
}

/// What `known_lines` returns.
#[repr(C)]
#[derive(Clone, Copy, Debug, PartialEq, Eq)]
pub struct KnownAnswer {
    /// The number of a `Status`.
    pub status: u8,
    /// How many lines the parts have.
    pub lines: usize,
    /// How many parts there are.
    pub parts: usize,
}

/// How far the parts of a text are read.
#[derive(Clone, Copy)]
struct Reading {
    read: Progress,
    parts: usize,
    has_numbers: bool,
}

/// Writes a part after that many others, if there is room.
fn put_part(parts: &mut [KnownPart], count: usize, part: KnownPart)
    ensures { parts.new ≡ set parts.old count part }
{
    if count < parts.len() {
        parts[count] = part;
    }
}

/// The scramble of which a head has this number, from 0, or the highest number of all if it has none.
fn scramble_of_number(number: Option<usize>) -> usize
    ensures { result ≡ scramble_with number }
{
    number
        .and_then(|number| number.checked_sub(1))
        .unwrap_or(usize::MAX)
}

impl Reading {
    /// Before the first part.
    fn nothing() -> Reading
        ensures begin { (result.read.at ≡ 0) × (result.read.lines ≡ 0) }
        ensures none { result.parts ≡ 0 }
        ensures unnumbered { result.has_numbers ≡ false }
    {
        Reading {
            read: Progress::nothing(),
            parts: 0,
            has_numbers: false,
        }
    }

    /// With one more part.
    #[tactic(auto, using(crate::proofs::KnownLemmas::lines_next))]
    fn with(
        self,
        text: &[u8],
        part: &Part,
        lines: &mut [TextLine],
        parts: &mut [KnownPart],
    ) -> Reading
        requires at { self.read.at ≤ length text.now }
        requires room { self.parts < usize.MAX }
        ensures at { result.read.at ≤ length text.now }
        ensures one { result.parts ≤ self.parts + 1 }
        ensures more { (self.parts ≤ result.parts) × (self.read.lines ≤ result.read.lines) }
        ensures takes { (most : ℕ) → HasBody text.now self.read.at most part.now → Takes text.now 0 (take self.read.lines lines.old) self.read.at →
            result.read.lines ≤ length lines.new → Takes text.now 0 (take result.read.lines lines.new) result.read.at }
        ensures told { (most : ℕ) → HasBody text.now self.read.at most part.now → HaveLines 0 (take self.parts parts.old) self.read.lines →
            PartsTake text.now lines.old 0 (take self.parts parts.old) self.read.at → result.parts ≤ length parts.new → result.read.lines ≤ length lines.new →
            PartsTake text.now lines.new 0 (take result.parts parts.new) result.read.at }
        ensures ends { (most : ℕ) → HasBody text.now self.read.at most part.now → (result.read.at ≡ part.now.end) × (result.read.lines ≤ self.read.lines + most) }
        ensures lines { HaveLines 0 (take self.parts parts.old) self.read.lines → result.parts ≤ length parts.new →
            HaveLines 0 (take result.parts parts.new) result.read.lines }
        ensures behind_parts { drop result.parts parts.new ≡ drop result.parts parts.old }
        ensures said { self.parts < length parts.old → (none : KnownPart) → (get_or parts.new self.parts none).scramble ≡ scramble_with part.now.number }
        ensures numbers { result.has_numbers ≡ (self.has_numbers || is_some part.now.number) }
        ensures behind { drop result.read.lines lines.new ≡ drop result.read.lines lines.old }
        ensures names { HaveNames text.now (take self.parts parts.old) → IsName text.now part.now.name_begin part.now.name_end →
            result.parts ≤ length parts.new → HaveNames text.now (take result.parts parts.new) }
        ensures named { self.parts < length parts.old → (none : KnownPart) →
            ((get_or parts.new self.parts none).name_begin ≡ part.now.name_begin) × ((get_or parts.new self.parts none).name_end ≡ part.now.name_end) }
        ensures says { AreSaid text.now (take self.parts parts.old) → IsNumbered text.now part.now → result.parts ≤ length parts.new →
            AreSaid text.now (take result.parts parts.new) }
        ensures numbered { self.has_numbers ≡ have_numbers text.now (take self.parts parts.old) → IsNumbered text.now part.now →
            result.parts ≤ length parts.new → result.has_numbers ≡ have_numbers text.now (take result.parts parts.new) }
    {
        // the parts follow one another
        let begin = part.body.max(self.read.at).min(text.len());
        let end = part.end.max(begin).min(text.len());
        let from = Progress {
            at: begin,
            lines: self.read.lines,
            attempts: 0,
        };
        let solution = put_solution(text, end, from, lines);
        let read = put_attempts(text, end, solution, lines);
        let known = KnownPart {
            scramble: scramble_of_number(part.number),
            begin: part.begin,
            name_begin: part.name_begin,
            name_end: part.name_end,
            first_line: self.read.lines,
            solution_end: solution.lines,
            end_line: read.lines,
        };
        put_part(parts, self.parts, known);
        Reading {
            read,
            parts: self.parts + 1,
            has_numbers: self.has_numbers || part.number.is_some(),
        }
    }
}

/// Reads the parts of a text of which that many lines were told, and writes the lines of each after those of the one
/// before: they are no more than were told of it, so none stands over what was told of the next part.
fn read_parts(
    text: &[u8],
    count: usize,
    is_by_blocks: bool,
    lines: &mut [TextLine],
    parts: &mut [KnownPart],
) -> Reading
    requires { count ≤ length lines.old }
    ensures at { result.read.at ≤ length text.now }
    ensures few { result.parts ≤ count }
    ensures takes { CoversBy words_of_any_head text.now 0 (take count lines.old) (length text.now) →
        Takes text.now 0 (take result.read.lines lines.new) (length text.now) }
    ensures told { CoversBy words_of_any_head text.now 0 (take count lines.old) (length text.now) → result.parts ≤ length parts.new →
        PartsTake text.now lines.new 0 (take result.parts parts.new) (length text.now) }
    ensures few_lines { CoversBy words_of_any_head text.now 0 (take count lines.old) (length text.now) → result.read.lines ≤ count }
    ensures lines { result.parts ≤ length parts.new → HaveLines 0 (take result.parts parts.new) result.read.lines }
    ensures says { result.parts ≤ length parts.new → AreSaid text.now (take result.parts parts.new) }
    ensures names { CoversBy words_of_any_head text.now 0 (take count lines.old) (length text.now) → result.parts ≤ length parts.new →
        HaveNames text.now (take result.parts parts.new) }
    ensures numbered { result.parts ≤ length parts.new → result.has_numbers ≡ have_numbers text.now (take result.parts parts.new) }
    ensures behind_parts { drop result.parts parts.new ≡ drop result.parts parts.old }
{
    let mut seen = Reading::nothing();
    let mut next = 0;
    while next < count {
        let (part, size) = first_part(text, &lines[next..count], is_by_blocks);
        next += size;
        if part.is_something() {
            seen = seen.with(text, &part, lines, parts);
        }
    }
    seen
}

/// Counts how many parts have the number of each scramble.
fn count_numbers(parts: &[KnownPart], counts: &mut [u64])
    ensures once { AreCounted parts.now counts.new }
    ensures alone { IsCountedAlone parts.now counts.new }
{
    counts.fill(0);
    for part in parts {
        if part.scramble < counts.len() {
            counts[part.scramble] = counts[part.scramble].saturating_add(1);
        }
    }
}

/// Which scramble a part is of: that in its place, or that of its number if no other part has it.
fn scramble_of(part: &KnownPart, place: Option<usize>, counts: &[u64]) -> usize
    ensures known { (result < length counts.now) ⊎ (result ≡ usize.MAX) }
    ensures own { (result ≡ usize.MAX) ⊎ MatchOption place
        ((result < length counts.now) × (get_or counts.now result 0 ≡ 1) × (part.now.scramble ≡ result)) (λ at. result ≡ at) }
    ensures told { MatchOption place (part.now.scramble < length counts.now → get_or counts.now part.now.scramble 0 ≡ 1 → result ≡ part.now.scramble)
        (λ at. at < length counts.now → result ≡ at) }
{
    let scramble = place.unwrap_or(part.scramble);
    if scramble < counts.len() && (place.is_some() || counts[scramble] == 1) {
        scramble
    } else {
        usize::MAX
    }
}

/// Tells of each part which scramble it is of, of as many as there are counts.
fn assign(parts: &mut [KnownPart], is_in_order: bool, counts: &mut [u64])
    ensures known { AreKnown (length counts.old) parts.new }
    ensures lines { (to : ℕ) → HaveLines 0 parts.old to → HaveLines 0 parts.new to }
    ensures told { (text : List ℕ) (told : List TextLine) (to : ℕ) → PartsTake text told 0 parts.old to → PartsTake text told 0 parts.new to }
    ensures apart { AreApart parts.new }
    ensures named { AreNamedAs parts.old parts.new }
    ensures own { (none : KnownPart) → AreAssigned is_in_order (length counts.old) (λ k. (get_or parts.old k none).scramble) parts.new }
{
    count_numbers(parts, counts);
    let mut at = 0;
    while at < parts.len() {
        let place = if is_in_order { Some(at) } else { None };
        parts[at].scramble = scramble_of(&parts[at], place, counts);
        at += 1;
    }
}

/// Tells of the parts of a text that has only solutions, of as many scrambles that are known as there are counts, and
/// of each line of these what it is after a scramble, in as many attempts as a part has: the first one is the solution.
/// A part is of the scramble of its number, if no other one has that; of as many parts as scrambles without any number
/// each is of the scramble in its place. What isn't told has no moves. As many lines and parts as the text has lines are
/// room enough. What stood in the counts says nothing, nor what stands there then.
#[tactic(auto, using(crate::proofs::LineLemmas::counts_none))]
pub fn known_lines(
    text: &[u8],
    lines: &mut [TextLine],
    parts: &mut [KnownPart],
    counts: &mut [u64],
) -> KnownAnswer
    ensures few { (result.lines ≤ length text.now) × (result.parts ≤ length text.now) }
    ensures fits { result.status ≡ 0 → (result.lines ≤ length lines.old) × (result.parts ≤ length parts.old) }
    ensures room { length text.now ≤ length lines.old → length text.now ≤ length parts.old → result.status ≡ 0 }
    ensures enough { (count : ℕ) → Counts text.now 0 count (length text.now) → count ≤ length lines.old → count ≤ length parts.old → result.status ≡ 0 }
    ensures told { (result.status ≡ 0) ⊎ (result.status ≡ 4) }
    ensures counts { result.status ≡ 4 → Counts text.now 0 result.lines (length text.now) }
    ensures none { result.status ≡ 4 → length lines.old < result.lines → result.parts ≡ 0 }
    ensures takes { result.status ≡ 0 → Takes text.now 0 (take result.lines lines.new) (length text.now) }
    ensures plain { result.status ≡ 0 → TellsPlain text.now (take result.lines lines.new) }
    ensures parts { result.status ≡ 0 → PartsTake text.now lines.new 0 (take result.parts parts.new) (length text.now) }
    ensures known { result.status ≡ 0 → AreKnown (length counts.old) (take result.parts parts.new) }
    ensures apart { result.status ≡ 0 → AreApart (take result.parts parts.new) }
    ensures names { result.status ≡ 0 → HaveNames text.now (take result.parts parts.new) }
    ensures are_of { result.status ≡ 0 → AreOf text.now (length counts.old) (take result.parts parts.new) }
    ensures lines { result.status ≡ 0 → HaveLines 0 (take result.parts parts.new) result.lines }
    ensures behind { drop result.parts parts.new ≡ drop result.parts parts.old }
{
    let all = put_attempts(text, text.len(), Progress::nothing(), lines);
    if all.lines > lines.len() {
        return KnownAnswer {
            status: Status::NoRoom.number(),
            lines: all.lines,
            parts: 0,
        };
    }
    put_heads(text, &mut lines[..all.lines], counts);
    let is_by_blocks = counts.len() > 1 && !has_head(&lines[..all.lines]);
    let seen = read_parts(text, all.lines, is_by_blocks, lines, parts);
    if seen.read.lines > lines.len() || seen.parts > parts.len() {
        return KnownAnswer {
            status: Status::NoRoom.number(),
            lines: all.lines,
            parts: seen.parts,
        };
    }
    let is_in_order = !seen.has_numbers && seen.parts == counts.len();
    assign(&mut parts[..seen.parts], is_in_order, counts);
    KnownAnswer {
        status: Status::Done.number(),
        lines: seen.read.lines,
        parts: seen.parts,
    }
}
