//! What makes one doubt that a line is read as it was meant.
ghost use Rattle.std.specs.Prelude.{◌≡◌, ◌≤◌, ◌<◌, ◌+◌, ◌-◌, ◌⊎◌, ℕ, true, false, length, slice_range, IfSome};
ghost use Rattle.niss_text.specs.Doubts.{DoubtsStep, IsDoubted, IsAsWritten, IsCalledScramble, IsUncommentedStep, MayBeScramble, HasNone, number_of, sees};
ghost use Rattle.niss_text.specs.Doubts.{is_letter as is_plain_letter};
ghost use Rattle.niss_text.specs.Signs.{is_letter};
ghost use Rattle.niss_text.specs.Said.{DeniesNothing, HasWord, HasNoSlashes, IsDenied, IsOnInverse, IsPlainlyOnInverse, IsSided, Names};
ghost use Rattle.niss_text.specs.Said.{are_spelled, words_of, label_in, moves_in, comment_in};
ghost use Rattle.niss_text.specs.Lines.{IsLine, IsPlacedAs};
ghost use Rattle.niss_text.specs.declared.doubts.Doubt.TheVariants.{Nothing, Letters, SmallLetters};
ghost use Rattle.niss_text.specs.declared.sights.Sight.TheVariants.{Small, Capital, Joined, Repeated, Marked, Comma, Gap, Joint, Pair};

use crate::among_moves::{comma_at, letters_at, may_be_misread, small_alone};
use crate::forms::has_bracket;
use crate::line::Line;
use crate::marks::{
    begin_with_letter_of_words, column_at, defined_mark, has_moves_aside, is_mark, is_no_count,
    letter_of_words, times_at_end, times_said,
};
use crate::said::{doubt_said, doubt_said_beside, names};
use crate::scramble_lines::{may_be_scramble, may_have_step};
use crate::sights::{Sight, first_seen};
use crate::text_line::{LineKind, TextLine, flag};
use crate::words::Wanted;

/// A reason for a doubt.
#[derive(Clone, Copy, PartialEq, Eq)]
pub enum Doubt {
    Nothing,
    /// The line has more than a scramble, or may be none: it is unlike others of the text, and has no steps.
    AnotherScramble,
    /// Which of several groups is the solution can't be told, or a list has those of several scrambles.
    SeveralSolutions,
    /// Another side than the normal one is named, and the moves have no brackets.
    Side,
    /// Letters stand together as moves don't elsewhere in the line.
    Letters,
    /// A scramble has a move in a small letter, or a step has no others.
    SmallLetters,
    /// Moves that may belong to the line stand in its comment, or a letter before one may be of its words.
    Comment,
    /// Moves are said to be made several times.
    Repetition,
    /// Moves are said to belong into others, or a mark stands where they do.
    Insertion,
    /// A line after the scramble may be of it, or another one, or the first step may stand on a line of it. This counts also
    /// if the attempt is solved.
    StepOrScramble,
    /// Moves may be written by signs that aren't read so: by a comma, wide letters or a link.
    Signs,
}

/// What is seen of the attempt of a line.
#[derive(Clone, Copy)]
pub struct Sheet {
    /// A group of it is the solution.
    pub has_solution: bool,
    /// Its scramble may be none.
    pub is_strange: bool,
    /// Its scramble says that it is a step, so that the first one may stand on its line.
    pub has_step: bool,
    /// A sign may have been lost of the R' U' F at one end of its scramble.
    pub is_half_framed: bool,
    /// The line may be of a scramble, though it stands after one.
    pub is_stray: bool,
    /// Its scramble is called the solution, so that a step may be the scramble.
    pub is_swapped: bool,
    /// It is a step that comes before one above it, by what their labels say.
    pub is_out_of_order: bool,
    /// It has the number of a mark between the moves of a step above it.
    pub is_put_into_others: bool,
}

impl Doubt {
    /// Its number.
    fn number(self) -> u8
        ensures value { result ≡ number_of self }
        ensures in_range { (result ≤ 8) ⊎ ((11 ≤ result) × (result ≤ 12)) }
    {
        match self {
            Doubt::Nothing => 0,
            Doubt::AnotherScramble => 1,
            Doubt::SeveralSolutions => 2,
            Doubt::Side => 3,
            Doubt::Letters => 4,
            Doubt::SmallLetters => 5,
            Doubt::Comment => 6,
            Doubt::Repetition => 7,
            Doubt::Insertion => 8,
            // 9 and 10 are told of checks
            Doubt::StepOrScramble => 11,
            Doubt::Signs => 12,
        }
    }
}

/// Where the first or the last move of a line stands if it is a letter that may be of the words beside it, up to the slashes.
fn letter_beside_words(text: &[u8], told: &TextLine, slashes: usize) -> Option<usize>
    requires line { IsLine told.now.begin told.now }
    requires fits { told.now.end ≤ length text.now }
    requires slashes { (told.now.comment ≤ slashes) × (slashes ≤ told.now.end) }
    ensures { IfSome result (λ at. (told.now.moves ≤ at) × (at ≤ told.now.comment)) }
{
    let moves = &text[told.moves..told.comment];
    if begin_with_letter_of_words(moves, &text[told.label_begin..told.moves]) {
        return Some(told.moves);
    }
    let last = letter_of_words(moves, &text[told.comment..slashes])?;
    Some(told.moves + last)
}

/// What makes one doubt a step beside its letters, and where. Its comment begins at the slashes.
fn doubt_of_step(text: &[u8], told: &TextLine, slashes: usize, sheet: Sheet) -> (Doubt, usize)
    requires line { IsLine told.now.begin told.now }
    requires fits { told.now.end ≤ length text.now }
    requires slashes { (told.now.comment ≤ slashes) × (slashes ≤ told.now.end) }
    ensures step { DoubtsStep text.now told.now result.0 result.1 }
    ensures ordered { result.0 ≡ Nothing → sheet.is_out_of_order ≡ false }
{
    if has_moves_aside(&text[slashes..told.end]) {
        return (Doubt::Comment, slashes);
    }
    if !sheet.has_solution || sheet.is_out_of_order {
        return (Doubt::SeveralSolutions, told.moves);
    }
    if let Some(at) = times_said(&text[slashes..told.end]) {
        return (Doubt::Repetition, slashes + at);
    }
    if let Some(at) = times_at_end(&text[told.moves..told.comment]) {
        return (Doubt::Repetition, told.moves + at);
    }
    if let Some(at) = defined_mark(&text[told.begin..told.moves]) {
        return (Doubt::Insertion, told.begin + at);
    }
    if is_mark(&text[told.comment..slashes]) {
        return (Doubt::Insertion, told.comment);
    }
    if is_no_count(&text[told.comment..slashes]) {
        return (Doubt::Signs, told.comment);
    }
    if let Some(at) = letter_beside_words(text, told, slashes) {
        return (Doubt::Comment, at);
    }
    doubt_seen(text, told)
}

/// What makes one doubt a step by what is seen among its moves, and after them, and where.
fn doubt_seen(text: &[u8], told: &TextLine) -> (Doubt, usize)
    requires line { IsLine told.now.begin told.now }
    requires fits { told.now.end ≤ length text.now }
    ensures { DoubtsStep text.now told.now result.0 result.1 }
{
    let marked = first_seen(text, told.moves + 1, told.comment, Sight::Marked);
    if marked < told.comment {
        return (Doubt::Insertion, marked);
    }
    let joint = first_seen(text, told.moves + 1, told.comment, Sight::Joint);
    if joint < told.comment {
        return (Doubt::Comment, joint);
    }
    let pair = first_seen(text, told.comment, told.end, Sight::Pair);
    if pair < told.end {
        return (Doubt::Comment, pair);
    }
    let small = small_alone(text, told.moves, told.comment);
    if small < told.comment {
        return (Doubt::SmallLetters, small);
    }
    (Doubt::Nothing, told.end)
}

/// What makes one doubt a line of a scramble beside its letters, and where. Its comment begins at the slashes.
fn doubt_of_scramble(text: &[u8], told: &TextLine, slashes: usize, sheet: Sheet) -> (Doubt, usize)
    requires line { IsLine told.now.begin told.now }
    requires fits { told.now.end ≤ length text.now }
    requires slashes { (told.now.comment ≤ slashes) × (slashes ≤ told.now.end) }
    ensures place { (told.now.begin ≤ result.1) × (result.1 ≤ told.now.end) }
    ensures others { (number_of result.0 ≡ 2 → ⊥) × ((number_of result.0 ≡ 4 → ⊥) × (number_of result.0 ≡ 11 → ⊥)) }
    ensures nowhere { result.0 ≡ Nothing → result.1 ≡ told.now.end }
    ensures small { result.0 ≡ SmallLetters → sees text.now Small result.1 ≡ true }
    ensures no_small { result.0 ≡ Nothing → HasNone text.now Small told.now.moves told.now.comment }
{
    let small = first_seen(text, told.moves, told.comment, Sight::Small);
    if small < told.comment {
        return (Doubt::SmallLetters, small);
    }
    if sheet.is_strange {
        return (Doubt::AnotherScramble, told.moves);
    }
    if sheet.is_half_framed {
        return (Doubt::Signs, told.moves);
    }
    if has_moves_aside(&text[slashes..told.end]) {
        return (Doubt::Comment, slashes);
    }
    (Doubt::Nothing, told.end)
}

/// What makes one doubt a line of moves, and where.
fn doubt_of_moves(text: &[u8], told: &TextLine, line: &Line, sheet: Sheet) -> (Doubt, usize)
    requires line { IsLine told.now.begin told.now }
    requires fits { told.now.end ≤ length text.now }
    requires same { told.now.begin + line.now.length ≡ told.now.end }
    requires comment { told.now.begin + line.now.comment ≡ told.now.comment }
    ensures place { (told.now.begin ≤ result.1) × (result.1 ≤ told.now.end) }
    ensures nowhere { result.0 ≡ Nothing → result.1 ≡ told.now.end }
    ensures another { number_of result.0 ≡ 1 → told.now.kind ≡ 2 }
    ensures of_step { told.now.kind ≡ 2 → number_of result.0 ≡ 2 → ⊥ }
    ensures small { result.0 ≡ SmallLetters → sees text.now Small result.1 ≡ true }
    ensures no_capital { result.0 ≡ SmallLetters → (told.now.kind ≡ 2 → ⊥) →
        HasNone text.now Capital told.now.moves told.now.comment }
    ensures capital { result.0 ≡ Nothing → told.now.kind ≡ 3 → HasNone text.now Capital told.now.moves told.now.comment →
        HasNone text.now Small told.now.moves told.now.comment }
    ensures letters { result.0 ≡ Letters → sees text.now Joined result.1 ≡ true }
    ensures none { result.0 ≡ Nothing → IsAsWritten text.now told.now.moves told.now.comment }
    ensures once { result.0 ≡ Nothing → HasNone text.now Repeated told.now.moves told.now.comment }
    ensures commas { result.0 ≡ Nothing →
        HasNone text.now Comma told.now.moves (told.now.comment - 2) ⊎ HasNone text.now Gap told.now.moves told.now.comment }
    ensures step { number_of result.0 ≡ 11 → ⊥ }
    ensures unmarked { result.0 ≡ Nothing → told.now.kind ≡ 3 → HasNone text.now Marked (told.now.moves + 1) told.now.comment }
    ensures unjoined { result.0 ≡ Nothing → told.now.kind ≡ 3 → HasNone text.now Joint (told.now.moves + 1) told.now.comment }
    ensures unpaired { result.0 ≡ Nothing → told.now.kind ≡ 3 → HasNone text.now Pair told.now.comment told.now.end }
    ensures ordered { result.0 ≡ Nothing → told.now.kind ≡ 3 → sheet.is_out_of_order ≡ false }
    ensures no_small { result.0 ≡ Nothing → told.now.kind ≡ 2 → HasNone text.now Small told.now.moves told.now.comment }
{
    let letters = letters_at(text, told.moves, told.comment);
    if letters < told.comment {
        return (Doubt::Letters, letters);
    }
    let slashes = told.begin + line.slashes;
    let name = first_seen(text, told.begin + line.name + 1, slashes, Sight::Joined);
    if name < slashes {
        return (Doubt::Letters, name);
    }
    let repeated = first_seen(text, told.moves, slashes, Sight::Repeated);
    if repeated < slashes {
        return (Doubt::Repetition, repeated);
    }
    let comma = comma_at(text, told.moves, told.comment);
    if comma < told.comment {
        return (Doubt::Signs, comma);
    }
    if let Some(at) = column_at(&text[told.moves..told.comment]) {
        return (Doubt::Signs, told.moves + at);
    }
    if may_be_misread(text, told.moves, told.comment) {
        return (Doubt::Signs, told.moves);
    }
    if told.is_a(LineKind::Scramble) {
        doubt_of_scramble(text, told, slashes, sheet)
    } else {
        doubt_of_step(text, told, slashes, sheet)
    }
}

/// What makes one doubt a line, and where: of its scramble, or of its solution if that can be told.
fn doubt_of(text: &[u8], told: &TextLine, line: &Line, sheet: Sheet) -> (Doubt, usize)
    requires line { IsLine told.now.begin told.now }
    requires fits { told.now.end ≤ length text.now }
    requires same { told.now.begin + line.now.length ≡ told.now.end }
    requires comment { told.now.begin + line.now.comment ≡ told.now.comment }
    ensures place { (told.now.begin ≤ result.1) × (result.1 ≤ told.now.end) }
    ensures free { told.now.kind ≡ 4 → (number_of result.0 ≡ 3) ⊎ (number_of result.0 ≡ 7) → (between : ℕ) →
        IsDenied between (slice_range text.now told.now.head_end told.now.end) (result.1 - told.now.head_end) → ⊥ }
    ensures nowhere { result.0 ≡ Nothing → result.1 ≡ told.now.end }
    ensures before { told.now.kind < 2 → number_of result.0 ≡ 0 }
    ensures another { number_of result.0 ≡ 1 → told.now.kind ≡ 2 }
    ensures several { number_of result.0 ≡ 2 → told.now.kind ≡ 3 }
    ensures comment { number_of result.0 ≡ 6 → (2 ≤ told.now.kind) × (told.now.kind ≤ 4) }
    ensures small { result.0 ≡ SmallLetters → ((2 ≤ told.now.kind) × (told.now.kind ≤ 3)) × (sees text.now Small result.1 ≡ true) }
    ensures no_capital { result.0 ≡ SmallLetters → told.now.kind ≡ 3 → HasNone text.now Capital told.now.moves told.now.comment }
    ensures capital { result.0 ≡ Nothing → told.now.kind ≡ 3 → told.now.is_solution ≡ 1 →
        HasNone text.now Capital told.now.moves told.now.comment → HasNone text.now Small told.now.moves told.now.comment }
    ensures letters { result.0 ≡ Letters → sees text.now Joined result.1 ≡ true }
    ensures scramble { result.0 ≡ Nothing → told.now.kind ≡ 2 → IsAsWritten text.now told.now.moves told.now.comment }
    ensures solution { result.0 ≡ Nothing → told.now.kind ≡ 3 → told.now.is_solution ≡ 1 → IsAsWritten text.now told.now.moves told.now.comment }
    ensures no_small { result.0 ≡ Nothing → told.now.kind ≡ 2 → HasNone text.now Small told.now.moves told.now.comment }
    ensures once { result.0 ≡ Nothing → told.now.kind ≡ 2 → HasNone text.now Repeated told.now.moves told.now.comment }
    ensures once_solved { result.0 ≡ Nothing → told.now.kind ≡ 3 → told.now.is_solution ≡ 1 → HasNone text.now Repeated told.now.moves told.now.comment }
    ensures commas { result.0 ≡ Nothing → (told.now.kind ≡ 2) ⊎ ((told.now.kind ≡ 3) × (told.now.is_solution ≡ 1)) →
        HasNone text.now Comma told.now.moves (told.now.comment - 2) ⊎ HasNone text.now Gap told.now.moves told.now.comment }
    ensures of_scramble { number_of result.0 ≡ 11 → (told.now.kind ≡ 2) ⊎ MayBeScramble told.now }
    ensures called { told.now.kind ≡ 3 → IsCalledScramble text.now told.now → number_of result.0 ≡ 11 }
    ensures swapped { IsUncommentedStep told.now → sheet.is_swapped ≡ true → number_of result.0 ≡ 11 }
    ensures stepped { told.now.kind ≡ 2 → sheet.has_step ≡ true → number_of result.0 ≡ 11 }
    ensures unmarked { result.0 ≡ Nothing → told.now.kind ≡ 3 → told.now.is_solution ≡ 1 → HasNone text.now Marked (told.now.moves + 1) told.now.comment }
    ensures unjoined { result.0 ≡ Nothing → told.now.kind ≡ 3 → told.now.is_solution ≡ 1 → HasNone text.now Joint (told.now.moves + 1) told.now.comment }
    ensures unpaired { result.0 ≡ Nothing → told.now.kind ≡ 3 → told.now.is_solution ≡ 1 → HasNone text.now Pair told.now.comment told.now.end }
    ensures ordered { result.0 ≡ Nothing → told.now.kind ≡ 3 → told.now.is_solution ≡ 1 → sheet.is_out_of_order ≡ false }
    ensures inserted { result.0 ≡ Nothing → told.now.kind ≡ 3 → sheet.is_put_into_others ≡ false }
{
    if told.is_a(LineKind::Scramble) {
        if may_have_step(text, told, sheet) {
            return (Doubt::StepOrScramble, told.moves);
        }
        return doubt_of_moves(text, told, line, sheet);
    }
    if may_be_scramble(text, told, sheet) {
        return (Doubt::StepOrScramble, told.moves);
    }
    let is_after = told.is_a(LineKind::Step) || told.is_a(LineKind::Note);
    if !is_after {
        return (Doubt::Nothing, told.end);
    }
    if sheet.is_put_into_others && told.is_a(LineKind::Step) {
        return (Doubt::Insertion, told.moves);
    }
    if sheet.has_solution && told.is_solution == 0 {
        return doubt_said_beside(text, told);
    }
    let said = doubt_said(text, told);
    if said.0 != Doubt::Nothing {
        return said;
    }
    if told.is_a(LineKind::Step) {
        return doubt_of_moves(text, told, line, sheet);
    }
    (Doubt::Nothing, told.end)
}

/// Whether a line says so, in its label or after its moves, and doesn't deny it.
fn is_said(text: &[u8], told: &TextLine, wanted: Wanted) -> bool
    requires line { IsLine told.now.begin told.now }
    requires fits { told.now.end ≤ length text.now }
    ensures said { result ≡ true → Names is_plain_letter (words_of wanted) (label_in text.now told.now)
        ⊎ Names is_plain_letter (words_of wanted) (comment_in text.now told.now) }
    ensures label { are_spelled (words_of wanted) ≡ true → DeniesNothing (label_in text.now told.now) →
        HasWord is_letter (words_of wanted) (label_in text.now told.now) → result ≡ true }
    ensures comment { are_spelled (words_of wanted) ≡ true → DeniesNothing (comment_in text.now told.now) →
        HasWord is_letter (words_of wanted) (comment_in text.now told.now) → result ≡ true }
{
    names(&text[told.label_begin..told.label_end], wanted)
        || names(&text[told.comment..told.end], wanted)
}

/// Whether what is said of a step has it on the inverse, and its moves have no brackets.
fn is_inverse(text: &[u8], told: &TextLine) -> bool
    requires line { IsLine told.now.begin told.now }
    requires fits { told.now.end ≤ length text.now }
    ensures step { result ≡ true → told.now.kind ≡ 3 }
    ensures only { result ≡ true → HasNoSlashes (moves_in text.now told.now) → IsOnInverse text.now told.now }
    ensures all { IsPlainlyOnInverse text.now told.now → result ≡ true }
{
    if !told.is_a(LineKind::Step) || has_bracket(&text[told.moves..told.comment]) {
        return false;
    }
    is_said(text, told, Wanted::Inverse) && !is_said(text, told, Wanted::Switch)
}

/// A line of a text with what makes one doubt it.
#[tactic(auto, using(crate::proofs::DoubtLemmas::is_nothing, crate::proofs::DoubtLemmas::is_letters, crate::proofs::DoubtLemmas::is_small_letters))]
pub fn judged(text: &[u8], told: TextLine, line: &Line, sheet: Sheet) -> TextLine
    requires line { IsLine told.begin told }
    requires fits { told.end ≤ length text.now }
    requires same { told.begin + line.now.length ≡ told.end }
    requires comment { told.begin + line.now.comment ≡ told.comment }
    ensures is { IsLine told.begin result }
    ensures ends { result.end ≡ told.end }
    ensures attempt { result.attempt ≡ told.attempt }
    ensures doubt { IsDoubted text.now result }
    ensures placed { IsPlacedAs told result }
    ensures sided { HasNoSlashes (moves_in text.now result) → IsSided text.now result }
    ensures swapped { IsUncommentedStep told → sheet.is_swapped ≡ true → result.doubt ≡ 11 }
    ensures stepped { told.kind ≡ 2 → sheet.has_step ≡ true → result.doubt ≡ 11 }
    ensures ordered { result.doubt ≡ 0 → result.kind ≡ 3 → result.is_solution ≡ 1 → sheet.is_out_of_order ≡ false }
    ensures inserted { result.doubt ≡ 0 → result.kind ≡ 3 → sheet.is_put_into_others ≡ false }
{
    let (doubt, at) = doubt_of(text, &told, line, sheet);
    TextLine {
        is_inverse: flag(is_inverse(text, &told)),
        doubt: doubt.number(),
        doubt_at: at,
        ..told
    }
}
