//! Which lines may be of a scramble though they stand after it, and which ones of a scramble may have a step too.
ghost use Rattle.std.specs.Prelude.{◌≡◌, ◌≤◌, true, length};
ghost use Rattle.niss_text.specs.Doubts.{HasTitle, IsCalledScramble, IsUncommentedStep, MayBeScramble};
ghost use Rattle.niss_text.specs.Lines.{IsLine};

use crate::body::{are_long, has_more_than_scramble};
use crate::doubts::Sheet;
use crate::step_order::calls_scramble;
use crate::text_line::{LineKind, TextLine};
use crate::words::{Wanted, says};

/// Whether a line is a step, and nothing stands after its moves.
fn is_uncommented_step(told: &TextLine) -> bool
    ensures step { result ≡ true → IsUncommentedStep told.now }
    ensures all { IsUncommentedStep told.now → result ≡ true }
{
    told.is_a(LineKind::Step) && told.comment == told.end
}

/// Whether a line that isn't of the solution is as long as a scramble, and words for one are in its label, but not for
/// that of the inverse.
fn is_like_scramble(text: &[u8], told: &TextLine) -> bool
    requires line { IsLine told.now.begin told.now }
    requires fits { told.now.end ≤ length text.now }
{
    let label = &text[told.label_begin..told.label_end];
    told.is_solution == 0
        && are_long(told.moves, told.comment)
        && says(label, Wanted::Scramble)
        && !says(label, Wanted::Inverse)
}

/// Whether the head of a line or its label calls it a scramble.
#[tactic(auto, using(crate::proofs::DoubtLemmas::small_word, crate::proofs::DoubtLemmas::small_head))]
fn is_called_scramble(text: &[u8], told: &TextLine) -> bool
    requires line { IsLine told.now.begin told.now }
    requires fits { told.now.end ≤ length text.now }
    ensures called { IsCalledScramble text.now told.now → result ≡ true }
    ensures titled { result ≡ true → HasTitle told.now }
{
    calls_scramble(&text[told.begin..told.head_end])
        || calls_scramble(&text[told.label_begin..told.label_end])
}

/// Whether a line may be of a scramble: a step that is called so, or after which nothing is said, and that its attempt shows to
/// be one, or its length and its label.
pub fn may_be_scramble(text: &[u8], told: &TextLine, sheet: Sheet) -> bool
    requires line { IsLine told.now.begin told.now }
    requires fits { told.now.end ≤ length text.now }
    ensures only { result ≡ true → MayBeScramble told.now }
    ensures called { told.now.kind ≡ 3 → IsCalledScramble text.now told.now → result ≡ true }
    ensures swapped { IsUncommentedStep told.now → sheet.is_swapped ≡ true → result ≡ true }
{
    if is_uncommented_step(told)
        && (sheet.is_stray || sheet.is_swapped || is_like_scramble(text, told))
    {
        return true;
    }
    told.is_a(LineKind::Step) && is_called_scramble(text, told)
}

/// Whether a line of a scramble may have a step too: it says that it is one, or turns stand beside all of a scramble.
pub fn may_have_step(text: &[u8], told: &TextLine, sheet: Sheet) -> bool
    requires line { IsLine told.now.begin told.now }
    requires fits { told.now.end ≤ length text.now }
    ensures { sheet.has_step ≡ true → result ≡ true }
{
    sheet.has_step || has_more_than_scramble(&text[told.moves..told.comment])
}
