//! The bytes of a table that are at a level, found eight at a time.
ghost use Rattle.std.specs.Prelude.{◌≡◌, ◌≢◌, ℕ, ◌<◌, ◌≤◌, ◌==◌, length, not, slice_index, IfSome, IfNone};
ghost use Rattle.std.specs.List.{prefix_len};

use std::simd::prelude::*;

/// The first index of the level in a block, or 8 if there is none.
fn first_in_block(block: &[u8; 8], level: u8) -> usize
    ensures { result ≡ prefix_len (λ byte. not (byte == level)) block.now }
{
    let mask = u8x8::from_array(*block)
        .simd_eq(u8x8::splat(level))
        .to_bitmask();
    if mask == 0 {
        8
    } else {
        mask.trailing_zeros() as usize
    }
}

/// The least index, from `from` on, at which the table has the level, if there is one. `from` is at most the table's
/// length.
pub fn next_at(table: &[u8], from: usize, level: u8) -> Option<usize>
    requires { from ≤ length table.now }
    ensures found { IfSome result
        (λ i. (from ≤ i) × (i < length table.now) × (slice_index table.now i ≡ level)) }
    ensures least { IfSome result (λ i. (k : ℕ) → from ≤ k → k < i → slice_index table.now k ≢ level) }
    ensures none { IfNone result
        ((k : ℕ) → from ≤ k → k < length table.now → slice_index table.now k ≢ level) }
{
    let (blocks, rest) = table[from..].as_chunks::<8>();
    let mut at = from;
    for block in blocks {
        let place = first_in_block(block, level);
        if place < 8 {
            return Some(at + place);
        }
        at += 8;
    }
    for byte in rest {
        if *byte == level {
            return Some(at);
        }
        at += 1;
    }
    None
}
