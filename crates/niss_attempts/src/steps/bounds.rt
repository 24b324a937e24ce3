//! The places where the steps of an attempt begin and end.
ghost use Rattle.std.specs.Prelude.{◌≡◌, ◌<◌, ◌≤◌, ◌++◌, [], ◌∷◌, length};
ghost use Rattle.niss_attempts.specs.Corners.{AreBounds};
ghost use Rattle.niss_attempts.specs.Parts.{bounds_of, in_bracket, is_end, is_open_after, most_bounds};

use arrayvec::ArrayVec;

/// How many steps of an attempt are looked at.
pub const MOST_STEPS: usize = 12;

/// Where the first of them begins, and where each ends.
pub const MOST_BOUNDS: usize = 13;

/// Whether a bracket is open after a byte.
fn is_open_after(before: bool, byte: u8) -> bool
    ensures { result ≡ is_open_after before byte }
{
    match byte {
        b'(' => true,
        b')' => false,
        _ => before,
    }
}

/// Whether a step ends before a place of a text, at which a bracket is open or not.
fn is_end(text: &[u8], place: usize, is_open: bool) -> bool
    requires place { (0 < place) × (place ≤ length text.now) }
    requires bracket { is_open ≡ in_bracket text.now place }
    ensures { result ≡ is_end text.now place }
{
    (text[place - 1] == b'\n' && !is_open) || place == text.len()
}

/// The place where the first step begins, and those where the first ones end. One goes on over lines while a bracket is open.
pub fn bounds_of(text: &[u8]) -> ArrayVec<usize, MOST_BOUNDS>
    ensures are { result.items ≡ bounds_of text.now }
    ensures few { (0 < length result.items) × (length result.items ≤ most_bounds) }
    ensures bounds { AreBounds result.items }
{
    let mut bounds = ArrayVec::new();
    bounds.push(0);
    let mut is_open = false;
    for at in 0..text.len() {
        is_open = is_open_after(is_open, text[at]);
        if !is_end(text, at + 1, is_open) {
            continue;
        }
        push_bound(&mut bounds, at + 1);
    }
    bounds
}

/// Adds a place, if there is room.
fn push_bound(bounds: &mut ArrayVec<usize, MOST_BOUNDS>, place: usize)
    ensures room { length bounds.old.items < most_bounds → bounds.new.items ≡ bounds.old.items ++ place ∷ [] }
    ensures full { most_bounds ≤ length bounds.old.items → bounds.new.items ≡ bounds.old.items }
{
    if !bounds.is_full() {
        bounds.push(place);
    }
}
