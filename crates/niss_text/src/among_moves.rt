//! Where something stands among the moves of a line that makes one doubt them.
ghost use Rattle.std.specs.Prelude.{◌≡◌, ◌≤◌, ◌<◌, ◌-◌, ◌⊎◌, true, length};
ghost use Rattle.niss_text.specs.Doubts.{IsAsWritten, HasNone, sees};
ghost use Rattle.niss_text.specs.declared.sights.Sight.TheVariants.{Small, Capital, Joined, Comma, Gap};

use crate::body::are_long;
use crate::marks::has_slice;
use crate::sights::{Sight, first_seen};

/// Where letters stand together in the moves of a line as moves don't elsewhere in it, or where the moves end: not if
/// all stand so, and one has an apostrophe.
#[tactic(auto, using(crate::proofs::DoubtLemmas::none_joined, crate::proofs::DoubtLemmas::none_parted))]
pub fn letters_at(text: &[u8], from: usize, to: usize) -> usize
    requires { (from ≤ to) × (to ≤ length text.now) }
    ensures fits { result ≤ to }
    ensures seen { result < to → (from < result) × (sees text.now Joined result ≡ true) }
    ensures none { result ≡ to → IsAsWritten text.now from to }
{
    if from == to {
        return to;
    }
    let joined = first_seen(text, from + 1, to, Sight::Joined);
    if joined == to {
        return to;
    }
    let parted = first_seen(text, from + 1, to, Sight::Parted);
    let prime = first_seen(text, from, to, Sight::Prime);
    if parted < to || prime == to {
        joined
    } else {
        to
    }
}

/// Where the first small letter of a turn stands in the moves of a step, or where the moves end: not if there is a
/// capital one too.
pub fn small_alone(text: &[u8], from: usize, to: usize) -> usize
    requires { to ≤ length text.now }
    ensures fits { result ≤ to }
    ensures seen { result < to → (from ≤ result) × (sees text.now Small result ≡ true) }
    ensures alone { result < to → HasNone text.now Capital from to }
    ensures none { result ≡ to → HasNone text.now Capital from to → HasNone text.now Small from to }
{
    if first_seen(text, from, to, Sight::Capital) < to {
        to
    } else {
        first_seen(text, from, to, Sight::Small)
    }
}

/// Where a comma stands between moves of a line of which others have none between them, or where the moves end. One that
/// parts words from them stands there too.
pub fn comma_at(text: &[u8], from: usize, to: usize) -> usize
    requires { to ≤ length text.now }
    ensures fits { result ≤ to }
    ensures seen { result < to → (from ≤ result) × (sees text.now Comma result ≡ true) }
    ensures none { result ≡ to → HasNone text.now Comma from (to - 2) ⊎ HasNone text.now Gap from to }
{
    let last = to.saturating_sub(2);
    let comma = first_seen(text, from, last, Sight::Comma);
    if comma < last && first_seen(text, from, to, Sight::Gap) < to {
        comma
    } else {
        to
    }
}

/// Whether the moves of a line are as long as a scramble, and may have been printed otherwise: none is turned back, so that
/// their apostrophes may have been lost, or one is of a slice.
pub fn may_be_misread(text: &[u8], from: usize, to: usize) -> bool
    requires { (from ≤ to) × (to ≤ length text.now) }
{
    are_long(from, to)
        && (first_seen(text, from, to, Sight::Prime) == to || has_slice(&text[from..to]))
}
