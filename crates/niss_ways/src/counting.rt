//! How many turns are left of some, once they are cleaned.
ghost use Rattle.std.specs.Prelude.{◌≡◌, ◌+◌, ◌≤◌, ◌++◌, map, length, reverse};
ghost use Rattle.niss_moves.specs.Cleaning.{clean_turns};
ghost use Rattle.niss_moves.specs.Effects.{inverse_turn};
ghost use Rattle.niss_moves.specs.declared.token.Token.TheVariants as token;

use arrayvec::ArrayVec;
use niss_moves::laws::{cleaned_lines, cleaning_ends, one_clean_list};
use niss_moves::{Faces, Token, Turn, cleanup};

/// The turns of a solution on a side.
pub type Sequence = ArrayVec<Turn, 20>;

/// Moves of a line.
type Moves = ArrayVec<Token, 256>;

/// Appends turns as moves.
fn push_turns(moves: &mut Moves, turns: &[Turn])
    requires { length moves.old.items + length turns.now ≤ 256 }
    ensures { moves.new.items ≡ moves.old.items ++ map token.Face turns.now }
{
    for turn in turns {
        moves.push(Token::Face(*turn));
    }
}

/// Some turns, then others, and then others again, cleaned.
#[inline(never)]
pub fn cleaned(made: &[Turn], first: &[Turn], then: &[Turn]) -> Faces
    requires { length made.now + length first.now + length then.now ≤ 256 }
    ensures turns { result.items ≡ clean_turns (made.now ++ first.now ++ then.now) }
    ensures few { length result.items ≤ 512 }
    ensures no_more { length result.items ≤ length made.now + length first.now + length then.now }
{
    cleaned_lines();
    one_clean_list();
    cleaning_ends();
    let mut moves = Moves::new();
    push_turns(&mut moves, made);
    push_turns(&mut moves, first);
    push_turns(&mut moves, then);
    let (turns, _) = cleanup(moves.as_slice());
    turns
}

/// Turns that undo others.
pub fn inverse_of(turns: &[Turn]) -> Faces
    requires { length turns.now ≤ 512 }
    ensures turns { result.items ≡ reverse (map inverse_turn turns.now) }
    ensures few { length result.items ≡ length turns.now }
{
    let mut inverse = Faces::new();
    let mut rest = turns;
    while let Some((last, front)) = rest.split_last() {
        inverse.push(last.inverse());
        rest = front;
    }
    inverse
}

/// The turns of a solution by themselves.
pub fn sequence_of(turns: &[Turn]) -> Sequence
    requires { length turns.now ≤ 20 }
    ensures { result.items ≡ turns.now }
{
    let mut sequence = Sequence::new();
    sequence.try_extend_from_slice(turns).unwrap();
    sequence
}
