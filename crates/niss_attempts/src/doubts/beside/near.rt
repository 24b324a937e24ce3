//! Whether two sequences of turns are the same but in one place.
ghost use Rattle.std.specs.Prelude.{◌≡◌, ◌↔◌, ◌≤◌, IsTrue, MatchOption, [], ◌∷◌, ◌++◌, length};
ghost use Rattle.niss_moves.specs.declared.turn.Turn.{Turn};
ghost use Rattle.niss_attempts.specs.Beside.{AreNear};
ghost use Rattle.niss_attempts.specs.Ends.{BeginSame, EndSame, AreNearAtBegin};

use niss_moves::Turn;

/// How many turns each has at most in that place.
const MOST_APART: usize = 2;

/// Whether two turns are the same.
fn is_same(one: Turn, other: Turn) -> bool
    ensures { IsTrue result ↔ one ≡ other }
{
    one == other
}

/// Whether two sequences have few turns.
fn are_few(one: &[Turn], other: &[Turn]) -> bool
    ensures { IsTrue result ↔ (length one.now ≤ 2) × (length other.now ≤ 2) }
{
    one.len() <= MOST_APART && other.len() <= MOST_APART
}

/// What follows the first turn of two sequences, if both begin with the same one.
fn after_same<'a>(one: &'a [Turn], other: &'a [Turn]) -> Option<(&'a [Turn], &'a [Turn])>
    ensures { MatchOption result (BeginSame one.now other.now → ⊥) (λ rests. (turn : Turn) × (one.now ≡ turn ∷ rests.0.now) × (other.now ≡ turn ∷ rests.1.now)) }
{
    match (one.split_first(), other.split_first()) {
        (Some((turn, rest)), Some((other_turn, other_rest))) if is_same(*turn, *other_turn) => {
            Some((rest, other_rest))
        }
        _ => None,
    }
}

/// What stands before the last turn of two sequences, if both end with the same one.
fn before_same<'a>(one: &'a [Turn], other: &'a [Turn]) -> Option<(&'a [Turn], &'a [Turn])>
    ensures { MatchOption result (EndSame one.now other.now → ⊥) (λ fronts. (turn : Turn) × (one.now ≡ fronts.0.now ++ turn ∷ []) × (other.now ≡ fronts.1.now ++ turn ∷ [])) }
{
    match (one.split_last(), other.split_last()) {
        (Some((turn, front)), Some((other_turn, other_front))) if is_same(*turn, *other_turn) => {
            Some((front, other_front))
        }
        _ => None,
    }
}

/// Whether two sequences are the same but at their begin, where each has two turns more at most.
fn are_near_at_begin(one: &[Turn], other: &[Turn]) -> bool
    ensures { IsTrue result ↔ AreNearAtBegin one.now other.now }
{
    let (mut rest, mut other_rest) = (one, other);
    while let Some((front, other_front)) = before_same(rest, other_rest) {
        rest = front;
        other_rest = other_front;
    }
    are_few(rest, other_rest)
}

/// Whether two sequences are the same but in one place, where each has two turns at most.
pub(crate) fn are_near(one: &[Turn], other: &[Turn]) -> bool
    ensures { IsTrue result ↔ AreNear one.now other.now }
{
    let (mut rest, mut other_rest) = (one, other);
    while let Some((after, other_after)) = after_same(rest, other_rest) {
        rest = after;
        other_rest = other_after;
    }
    are_near_at_begin(rest, other_rest)
}
