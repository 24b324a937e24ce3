//! Face turns made canonical.
ghost use Rattle.std.specs.Prelude.{◌≡◌, ◌+◌, ◌*◌, ◌<◌, ◌≤◌, List, [], ◌∷◌, ◌++◌, length, false, IfSome};
ghost use Rattle.niss_moves.specs.Places.{Place};
ghost use Rattle.niss_moves.specs.Effects.{effect, effect_of_turns};
ghost use Rattle.niss_moves.specs.Rotations.{spelling, IsRotationOf, faces};
ghost use Rattle.niss_moves.specs.Canonical.{face_may_follow, last_turn, IsCanonical};
ghost use Rattle.niss_moves.specs.Cleaning.{sum_of_powers, sum_of_turns, Cleans, clean_turns, rotation_left};
ghost use Rattle.niss_moves.specs.Helpers.{pair_of_turns, list_with_turn, turns_in, Cleaned};

use crate::rotation::{Faces, MoveTurns, Rotation, RotationSoFar};
use crate::token::Token;
use crate::turn::{Turn, allowed};

/// Appends the sum of two turns of one face.
fn push_sum(turns: &mut Faces, first: Turn, second: Turn)
    requires { length turns.old.items < 512 }
    ensures len { length turns.new.items ≤ length turns.old.items + 1 }
    ensures items { turns.new.items ≡ turns.old.items ++ sum_of_turns first second }
{
    if let Some(power) = first.power.plus(second.power) {
        turns.push(Turn {
            face: first.face,
            power,
        });
    }
}

/// Appends two turns, or their sum if they are of one face.
fn push_pair(turns: &mut Faces, first: Turn, second: Turn)
    requires { length turns.old.items + 1 < 512 }
    ensures len { length turns.new.items ≤ length turns.old.items + 2 }
    ensures items { turns.new.items ≡ turns.old.items ++ pair_of_turns first second }
{
    if first.face.is(second.face) {
        push_sum(turns, first, second);
    } else {
        turns.push(first);
        turns.push(second);
    }
}

/// Appends a turn, or sums it with the last one if that is of its face.
#[tactic(auto, using(crate::proofs::Cleaned::turn_at_end))]
fn push_or_sum(turns: &mut Faces, turn: Turn)
    requires { length turns.old.items < 512 }
    ensures len { length turns.new.items ≤ length turns.old.items + 1 }
    ensures items { turns.new.items ≡ list_with_turn turns.old.items turn }
{
    match turns.pop() {
        Some(last) => push_pair(turns, last, turn),
        None => turns.push(turn),
    }
}

/// Sums a turn that may not follow the last one with it, or lets it pass.
#[tactic(auto, using(crate::proofs::Cleaned::cleaned_first))]
fn sum_or_exchange(turns: &mut Faces, turn: Turn)
    requires breaks { IfSome (last_turn turns.old.items) (λ t. face_may_follow t.face turn.face ≡ false) }
    requires canonical { IsCanonical turns.old.items }
    requires room { length turns.old.items < 512 }
    ensures len { length turns.new.items ≤ length turns.old.items + 1 }
    ensures cleaned { Cleaned turns.old.items turn turns.new.items }
{
    let Some(last) = turns.pop() else {
        turns.push(turn);
        return;
    };
    if last.face.is(turn.face) {
        push_sum(turns, last, turn);
    } else {
        push_or_sum(turns, turn);
        turns.push(last);
    }
}

/// Appends a turn to a clean list and cleans it again.
#[tactic(auto, using(crate::proofs::CanonicalLists::canonical_more))]
fn push_and_clean(turns: &mut Faces, turn: Turn)
    requires canonical { IsCanonical turns.old.items }
    requires room { length turns.old.items < 512 }
    ensures len { length turns.new.items ≤ length turns.old.items + 1 }
    ensures canonical { IsCanonical turns.new.items }
    ensures cleans { (rest c : List Turn) →
        Cleans (turns.new.items ++ rest) c → Cleans (turns.old.items ++ turn ∷ rest) c }
{
    if allowed(turns.as_slice().last().copied(), turn) {
        turns.push(turn);
    } else {
        sum_or_exchange(turns, turn);
    }
}

/// Appends the face turns of one move to a clean list and cleans it again.
fn push_all_and_clean(turns: &mut Faces, more: MoveTurns)
    requires canonical { IsCanonical turns.old.items }
    requires room { length turns.old.items ≤ 510 }
    ensures len { length turns.new.items ≤ length turns.old.items + 2 }
    ensures canonical { IsCanonical turns.new.items }
    ensures cleans { (rest c : List Turn) →
        Cleans (turns.new.items ++ rest) c → Cleans (turns.old.items ++ (turns_in more ++ rest)) c }
{
    match more {
        MoveTurns::NoTurn => {}
        MoveTurns::One(turn) => push_and_clean(turns, turn),
        MoveTurns::Two(first, second) => {
            push_and_clean(turns, first);
            push_and_clean(turns, second);
        }
    }
}

/// Writes the cleaned face turns of a sequence into an empty list, and returns the rotation that is left at its end.
#[tactic(auto, using(crate::proofs::Home::left_none))]
pub(crate) fn clean_sequence(tokens: &[Token], turns: &mut Faces) -> Rotation
    requires moves { length tokens.now ≤ 256 }
    requires empty { turns.old.items ≡ [] }
    ensures len { length turns.new.items ≤ 2 * length tokens.now }
    ensures turns { turns.new.items ≡ clean_turns (faces tokens.now) }
    ensures canonical { IsCanonical turns.new.items }
    ensures rotation { result ≡ rotation_left tokens.now }
{
    let mut rotation = RotationSoFar::new();
    for token in tokens {
        push_all_and_clean(turns, rotation.take_move(*token));
    }
    rotation.rotation()
}

/// The face turns of a sequence made canonical, and the rotation that is left at its end. As long as two neighbours break
/// the order, the leftmost two are summed, if they are of one face, or exchanged: `R L R` is `R2 L`, `U D U'` is `D`.
/// A sum that is a whole round leaves nothing: so does `F F F F`. That the list is the shortest of its effect isn't said.
/// A sequence has at most 256 moves.
#[tactic(auto, using(crate::proofs::Home::of_cleaning))]
pub fn cleanup(tokens: &[Token]) -> (Faces, Rotation)
    requires { length tokens.now ≤ 256 }
    ensures len { length result.0.items ≤ 2 * length tokens.now }
    ensures clean { Cleans (faces tokens.now) result.0.items }
    ensures canonical { IsCanonical result.0.items }
    ensures rotation { IsRotationOf tokens.now result.1 }
    ensures effect { (q : Place) →
        effect_of_turns result.0.items q ≡ effect_of_turns (faces tokens.now) q }
    ensures whole_effect { (q : Place) →
        effect tokens.now q ≡ effect (spelling result.1) (effect_of_turns result.0.items q) }
{
    let mut turns = Faces::new();
    let rotation = clean_sequence(tokens, &mut turns);
    (turns, rotation)
}
