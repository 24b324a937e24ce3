//! The calls that read text as solvers write it.
ghost use Rattle.std.specs.Prelude.{◌≡◌, ◌≤◌, ◌<◌, ◌*◌, ◌⊎◌, ℕ, length, take, drop};
ghost use Rattle.niss_text.specs.Plain.{IsPlain};
ghost use Rattle.niss_text.specs.Lines.{Covers, Counts, Takes, TellsPlain, AreNumbered, Begins, BeginNumbered};
ghost use Rattle.niss_text.specs.Groups.{AreGrouped};
ghost use Rattle.niss_text.specs.Moves.{WritesIfMoves, moves_of_number};
ghost use Rattle.niss_text.specs.Known.{AreKnown, AreApart, AreOf, HaveLines, HaveNames, PartsTake};

use niss_text::{
    KnownAnswer, KnownPart, MovesOf, MovesPart, PlainAnswer, TextAnswer, TextLine, known_lines,
    plain_line, text_lines, text_moves,
};

/// Writes a text as one line, with the place of each byte, as `plain_line` of `niss_text`.
#[unsafe(no_mangle)]
pub extern "C" fn nissy_plain(text: &[u8], out: &mut [u8], places: &mut [u64]) -> PlainAnswer
    ensures reads { result.status ≡ 0 → IsPlain text.now (take result.length out.new) (take result.length places.new) result.left_out }
    ensures room { 3 * length text.now ≤ length out.old → 3 * length text.now ≤ length places.old → result.status ≡ 0 }
    ensures known { (result.status ≡ 0) ⊎ (result.status ≡ 4) }
    ensures within { (result.length ≤ length out.old) × (result.length ≤ length places.old) }
    ensures behind { drop result.length out.new ≡ drop result.length out.old }
    ensures behind_places { drop result.length places.new ≡ drop result.length places.old }
{
    plain_line(text, out, places)
}

/// Tells of each line of a text what it is, as `text_lines` of `niss_text`.
#[unsafe(no_mangle)]
pub extern "C" fn nissy_text_lines(text: &[u8], lines: &mut [TextLine]) -> TextAnswer
    ensures covers { result.lines ≤ length lines.old → Covers text.now 0 (take result.lines lines.new) (length text.now) }
    ensures counts { Counts text.now 0 result.lines (length text.now) }
    ensures numbers { result.lines ≤ length lines.old → AreNumbered 0 (take result.lines lines.new) result.attempts }
    ensures begins { Begins text.now (take result.lines lines.new) }
    ensures in_order { BeginNumbered (take result.lines lines.new) }
    ensures groups { AreGrouped (take result.lines lines.new) }
    ensures few { result.lines ≤ length text.now }
    ensures done { result.lines ≤ length lines.old → result.status ≡ 0 }
    ensures room { length lines.old < result.lines → result.status ≡ 4 }
    ensures behind { drop result.lines lines.new ≡ drop result.lines lines.old }
{
    text_lines(text, lines)
}

/// Writes the moves of some lines of a text as one line, and tells where those of each stand, as `text_moves` of
/// `niss_text`. Which moves these are a number says, that of `MovesOf::of_number`; after another one the answer says `Usage`,
/// and nothing is written.
#[unsafe(no_mangle)]
pub extern "C" fn nissy_text_moves(
    text: &[u8],
    lines: &[TextLine],
    which: u8,
    out: &mut [u8],
    places: &mut [u64],
    parts: &mut [MovesPart],
) -> PlainAnswer
    ensures { WritesIfMoves (moves_of_number which) text.now lines.now out.old out.new places.old places.new parts.old parts.new result }
{
    match MovesOf::of_number(which) {
        Some(of) => text_moves(text, lines, of, out, places, parts),
        None => PlainAnswer::refusal(),
    }
}

/// Tells which part of a text of solutions is of which scramble that is known, and of each line what it is, as
/// `known_lines` of `niss_text`.
#[unsafe(no_mangle)]
pub extern "C" fn nissy_known_lines(
    text: &[u8],
    lines: &mut [TextLine],
    parts: &mut [KnownPart],
    counts: &mut [u64],
) -> KnownAnswer
    ensures few { (result.lines ≤ length text.now) × (result.parts ≤ length text.now) }
    ensures fits { result.status ≡ 0 → (result.lines ≤ length lines.old) × (result.parts ≤ length parts.old) }
    ensures room { length text.now ≤ length lines.old → length text.now ≤ length parts.old → result.status ≡ 0 }
    ensures enough { (count : ℕ) → Counts text.now 0 count (length text.now) → count ≤ length lines.old → count ≤ length parts.old → result.status ≡ 0 }
    ensures told { (result.status ≡ 0) ⊎ (result.status ≡ 4) }
    ensures counts { result.status ≡ 4 → Counts text.now 0 result.lines (length text.now) }
    ensures none { result.status ≡ 4 → length lines.old < result.lines → result.parts ≡ 0 }
    ensures takes { result.status ≡ 0 → Takes text.now 0 (take result.lines lines.new) (length text.now) }
    ensures plain { result.status ≡ 0 → TellsPlain text.now (take result.lines lines.new) }
    ensures parts { result.status ≡ 0 → PartsTake text.now lines.new 0 (take result.parts parts.new) (length text.now) }
    ensures known { result.status ≡ 0 → AreKnown (length counts.old) (take result.parts parts.new) }
    ensures apart { result.status ≡ 0 → AreApart (take result.parts parts.new) }
    ensures names { result.status ≡ 0 → HaveNames text.now (take result.parts parts.new) }
    ensures are_of { result.status ≡ 0 → AreOf text.now (length counts.old) (take result.parts parts.new) }
    ensures lines { result.status ≡ 0 → HaveLines 0 (take result.parts parts.new) result.lines }
    ensures behind { drop result.parts parts.new ≡ drop result.parts parts.old }
{
    known_lines(text, lines, parts, counts)
}
