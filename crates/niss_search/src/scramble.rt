//! Random sequences of turns, drawn from the words of a generator.
ghost use Rattle.std.specs.Prelude.{◌≡◌, ◌≤◌, ◌*◌, ◌/◌, ◌^◌, None, true, length};
ghost use Rattle.niss_moves.specs.Canonical.{IsCanonical, may_follow};
ghost use Rattle.niss_search.specs.Draw.{choice, choices, next_words, after_words, draw};
ghost use Rattle.rand_pcg.specs.Pcg.{pcg32};

use niss_moves::{Faces, Turn, turns_after};
use rand_core::utils::NextWord;
use rand_pcg::Lcg64Xsh32;

/// The index that a word picks among the turns that may follow the last one.
fn choice_index(last: Option<Turn>, word: u32) -> usize
    ensures { result ≡ word * length (choices last) / 2 ^ 32 }
{
    let word = u64::from(word);
    let index = match last {
        None => word * 18 / (1 << 32),
        // D, L and B, whose numbers are odd, have 12 turns after them. The products don't wait for the last turn
        Some(last) => {
            let (of_15, of_12) = (word * 15 / (1 << 32), word * 12 / (1 << 32));
            of_15 - (of_15 - of_12) * (last.face as u64 % 2)
        }
    };
    index as usize
}

/// The turn that the generator's next word picks among those that may follow the last one.
fn random_turn(rng: &mut Lcg64Xsh32, last: Option<Turn>) -> Turn
    ensures turn { result ≡ choice last (pcg32 rng.old).0 }
    ensures follows { may_follow last result ≡ true }
    ensures word { rng.new ≡ (pcg32 rng.old).1 }
{
    let index = choice_index(last, rng.next_word());
    turns_after(last)[index]
}

/// A canonical sequence of `count` turns, at most 256, by that many words of the generator. Each word picks among the
/// turns that may follow the last one, listed in turn order: of k turns the word w picks the one with the index w * k /
/// 2^32, rounded down. The first turn has none before it.
pub fn random_turns(rng: &mut Lcg64Xsh32, count: usize) -> Faces
    requires { count ≤ 256 }
    ensures drawn { result.items ≡ draw None (next_words count rng.old) }
    ensures canonical { IsCanonical result.items }
    ensures length { length result.items ≡ count }
    ensures words { rng.new ≡ after_words count rng.old }
{
    let mut turns = Faces::new();
    let mut last = None;
    for _ in 0..count {
        let turn = random_turn(rng, last);
        turns.push(turn);
        last = Some(turn);
    }
    turns
}
