//! Heads that words follow, such as `Attempt 2: DNF`, or that have other words, as `Cube 2`: with known scrambles they
//! begin a part too.
ghost use Rattle.std.specs.Prelude.{◌≡◌, ◌≤◌, ◌<◌, ◌+◌, ℕ, true, false, length, slice_index, slice_range, take, drop, IfSome};
ghost use Rattle.niss_text.specs.Doubts.{is_capital};
ghost use Rattle.niss_text.specs.Kept.{AreInNotation, ArePlainBefore, HasOnlyWords, words_of_any_head};
ghost use Rattle.niss_text.specs.Known.{AreOrHeaded, IsHeaded, IsOrHeaded, MayBeHeaded, scramble_with};
ghost use Rattle.niss_text.specs.Lines.{CoversBy, IsLine, IsToldBy};
ghost use Rattle.niss_text.specs.Numbers.{number_of_kind};
ghost use Rattle.niss_text.specs.Signs.{HasNoMoves};

use crate::forms::margin;
use crate::heads::{head_of, named_length, number_length};
use crate::line::{Head, Numbers, is_empty_from, line_of};
use crate::moves::part_of;
use crate::parts::{first_part, has_head, has_moves, number_in, number_of};
use crate::sights::{byte_at, is_capital};
use crate::sign::from_place;
use crate::text_line::{LineKind, TextLine};

/// What tells a scramble that is known from others in front of a line, whatever follows, and how many bytes it has with
/// the blanks before it. A number does only if the line stands free.
fn worded_head(line: &[u8], is_free: bool) -> Option<(Head, usize)>
    ensures some { IfSome result (λ head. 0 < head.1) }
    ensures fits { IfSome result (λ head. head.1 ≤ length line.now) }
    ensures words { IfSome result (λ head. HasOnlyWords words_of_any_head (take head.1 line.now)) }
{
    let begin = margin(line);
    let rest = from_place(line, begin);
    let (kind, word) = head_of(rest, Numbers::OfLines);
    if kind == Head::Word {
        return Some((Head::Word, begin + word));
    }
    let name = named_length(rest);
    if name > 0 {
        return Some((Head::Word, begin + name));
    }
    let number = number_length(rest);
    if is_free && number > 0 {
        Some((Head::Number, begin + number))
    } else {
        None
    }
}

/// A line as one whose head ends there, and of which nothing else is told but its kind.
fn with_head(line: &TextLine, head_end: usize, kind: LineKind) -> TextLine
    ensures { IsHeaded line.now head_end (number_of_kind kind) result }
{
    TextLine {
        kind: kind.number(),
        is_solution: 0,
        is_headed: 1,
        says_solution: 0,
        is_inverse: 0,
        doubt: 0,
        head_end,
        label_begin: head_end,
        label_end: line.end,
        moves: line.end,
        comment: line.end,
        doubt_at: line.end,
        ..*line
    }
}

/// Whether a number is that of a scramble, of as many as there are counts, and wasn't seen before. It is seen then.
fn is_new(number: Option<usize>, counts: &mut [u64]) -> bool
    ensures { result ≡ true → scramble_with number < length counts.old }
{
    match number {
        Some(number) if 0 < number && number <= counts.len() => {
            let is_new = counts[number - 1] == 0;
            counts[number - 1] = 1;
            is_new
        }
        _ => false,
    }
}

/// Sees the numbers of the heads of some lines, and no others.
fn see_numbers(text: &[u8], lines: &[TextLine], counts: &mut [u64]) {
    counts.fill(0);
    for line in lines {
        is_new(number_of(text, line), counts);
    }
}

/// What stands above a line in which a head is looked for.
#[derive(Clone, Copy, PartialEq, Eq)]
enum Above {
    /// A head that stands alone: what follows is said of that.
    HeadAlone,
    /// A head with words, a blank line, or nothing.
    Gap,
    Line,
}

impl Above {
    /// What stands above the line after this one.
    fn of(line: &TextLine) -> Above {
        match (line.is_headed != 0, line.is_a(LineKind::Blank)) {
            (true, true) => Above::HeadAlone,
            (false, false) => Above::Line,
            _ => Above::Gap,
        }
    }
}

/// A text in whose lines heads are looked for, whatever follows these.
#[derive(Clone, Copy)]
struct Search<'a> {
    text: &'a [u8],
    /// Only those count below which moves stand, before the next one.
    is_over_moves: bool,
}

/// A head in front of a line.
#[derive(Clone, Copy)]
struct WordedHead {
    /// Where it ends in the text.
    end: usize,
    /// What the line is told to be with it: blank, or with moves, as a scramble's line is, or with words.
    kind: LineKind,
}

/// What a line is told to be with a head in front of it, after which moves may follow only if that is a word.
fn kind_behind(line: &[u8], head: (Head, usize)) -> Option<LineKind>
    requires { (0 < head.1) × (head.1 ≤ length line.now) }
    ensures kind { IfSome result (λ kind. MayBeHeaded (number_of_kind kind)) }
    ensures plain { IfSome result (λ kind. AreInNotation line.now → ⊥) }
    ensures commented { IfSome result (λ kind. (count : ℕ) → ArePlainBefore line.now count → ⊥) }
    ensures blank { IfSome result (λ kind. number_of_kind kind ≡ 0 → HasNoMoves (drop head.1 line.now)) }
{
    // a scramble may have lines without moves
    let seen = line_of(line, Numbers::OfLines);
    if !seen.is_moves {
        return if is_empty_from(line, head.1) {
            Some(LineKind::Blank)
        } else {
            Some(LineKind::Note)
        };
    }
    if head.0 == Head::Word && seen.moves > 0 {
        Some(LineKind::Scramble)
    } else {
        None
    }
}

impl Search<'_> {
    /// The head with a number in front of a line, if it isn't told to have one.
    fn head_of_line(&self, line: &TextLine, above: Above) -> Option<WordedHead>
        ensures some { IfSome result (λ head. line.now.begin < head.end) }
        ensures unheaded { IfSome result (λ head. line.now.is_headed ≡ 0) }
        ensures plain { IfSome result (λ head. AreInNotation (slice_range self.now.text.now line.now.begin line.now.end) → ⊥) }
        ensures commented { IfSome result (λ head. (count : ℕ) → ArePlainBefore (slice_range self.now.text.now line.now.begin line.now.end) count → ⊥) }
        ensures within { IfSome result (λ head. head.end ≤ line.now.end) }
        ensures words { IfSome result (λ head. HasOnlyWords words_of_any_head (slice_range self.now.text.now line.now.begin head.end)) }
        ensures rest { IfSome result (λ head. is_capital (slice_index (slice_range self.now.text.now head.end line.now.end) 0) ≡ false) }
        ensures kind { IfSome result (λ head. MayBeHeaded (number_of_kind head.kind)) }
        ensures blank { IfSome result (λ head. number_of_kind head.kind ≡ 0 → HasNoMoves (slice_range self.now.text.now head.end line.now.end)) }
    {
        if above == Above::HeadAlone {
            return None;
        }
        if line.is_headed != 0 {
            return None;
        }
        let whole = part_of(self.text, line.begin, line.end);
        let head = worded_head(whole, above == Above::Gap)?;
        let length = head.1;
        if number_in(&whole[..length]).is_none() || is_capital(byte_at(whole, length)) {
            return None;
        }
        let kind = kind_behind(whole, head)?;
        Some(WordedHead {
            end: line.begin + length,
            kind,
        })
    }

    /// Whether moves stand in the lines below a head, before the next one, if that is asked; and how many of these lines
    /// were looked at, and have no head.
    fn moves_below(&self, head: WordedHead, lines: &[TextLine]) -> (bool, usize)
        ensures { result.1 ≤ length lines.now }
    {
        if !self.is_over_moves || head.kind == LineKind::Scramble {
            return (true, 0);
        }
        let mut above = Above::Gap;
        for (count, line) in lines.iter().enumerate() {
            if line.is_headed != 0 || self.head_of_line(line, above).is_some() {
                return (false, count);
            }
            if has_moves(line) {
                return (true, count + 1);
            }
            above = Above::of(line);
        }
        (false, lines.len())
    }

    /// A line with the head in front of it, if that has the number of a scramble which wasn't seen; it is seen then. And
    /// how many of the lines below it were looked at, and have no head.
    fn or_headed(
        &self,
        line: &TextLine,
        below: &[TextLine],
        above: Above,
        counts: &mut [u64],
    ) -> (TextLine, usize)
        ensures begin { result.0.begin ≡ line.now.begin }
        ensures end { result.0.end ≡ line.now.end }
        ensures line { IsLine line.now.begin line.now → IsLine line.now.begin result.0 }
        ensures told { IsLine line.now.begin line.now → IsToldBy words_of_any_head self.now.text.now line.now →
            IsToldBy words_of_any_head self.now.text.now result.0 }
        ensures only { IsOrHeaded self.now.text.now (length counts.old) line.now result.0 }
        ensures below { result.1 ≤ length below.now }
    {
        let Some(head) = self.head_of_line(line, above) else {
            return (*line, 0);
        };
        let (has_moves, count) = self.moves_below(head, below);
        if !has_moves {
            return (*line, count);
        }
        if !is_new(number_in(part_of(self.text, line.begin, head.end)), counts) {
            return (*line, count);
        }
        (with_head(line, head.end, head.kind), count)
    }

    /// Has lines begin with the heads in front of them whose number wasn't seen.
    fn put_in(&self, lines: &mut [TextLine], counts: &mut [u64])
        ensures covers { CoversBy words_of_any_head self.now.text.now 0 lines.old (length self.now.text.now) →
            CoversBy words_of_any_head self.now.text.now 0 lines.new (length self.now.text.now) }
        ensures only { AreOrHeaded self.now.text.now (length counts.old) lines.old lines.new }
    {
        let mut above = Above::Gap;
        let mut at = 0;
        while at < lines.len() {
            let (line, below) = self.or_headed(&lines[at], &lines[at + 1..], above, counts);
            lines[at] = line;
            at += below;
            above = Above::of(&lines[at]);
            at += 1;
        }
    }
}

/// How many blocks of some lines have moves.
fn count_blocks(text: &[u8], lines: &[TextLine]) -> usize {
    let mut count: usize = 0;
    let mut next = 0;
    while next < lines.len() {
        let (part, size) = first_part(text, &lines[next..], true);
        next += size;
        if part.is_something() {
            count = count.saturating_add(1);
        }
    }
    count
}

/// Whether some lines of a text are parts in order without any head: as many as scrambles are known.
fn are_in_order(text: &[u8], lines: &[TextLine], scrambles: usize) -> bool {
    !has_head(lines) && (scrambles == 1 || count_blocks(text, lines) == scrambles)
}

/// Has the lines of a text begin with the heads in front of them, whatever follows these, unless they are parts in order
/// without any. Each has the number of a scramble, of as many as there are counts, that no head has by itself: of
/// several the first one below which moves stand, or the first. What stood in the counts says nothing, nor what stands
/// there then.
pub fn put_heads(text: &[u8], lines: &mut [TextLine], counts: &mut [u64])
    ensures covers { CoversBy words_of_any_head text.now 0 lines.old (length text.now) →
        CoversBy words_of_any_head text.now 0 lines.new (length text.now) }
    ensures only { AreOrHeaded text.now (length counts.old) lines.old lines.new }
{
    if are_in_order(text, lines, counts.len()) {
        return;
    }
    see_numbers(text, lines, counts);
    let over_moves = Search {
        text,
        is_over_moves: true,
    };
    over_moves.put_in(lines, counts);
    let others = Search {
        text,
        is_over_moves: false,
    };
    others.put_in(lines, counts);
}
