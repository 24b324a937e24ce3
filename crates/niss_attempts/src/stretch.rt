//! What stands in a slice from one place to another.
ghost use Rattle.std.specs.Prelude.{◌≡◌, ◌≤◌, length, slice_range};

/// The values of a slice from one place to another, as far as it goes.
pub fn stretch<T>(all: &[T], begin: usize, end: usize) -> &[T]
    ensures is { result.now ≡ slice_range all.now begin end }
    ensures fits { length result.now ≤ length all.now }
{
    let end = end.min(all.len());
    if begin < end {
        &all[begin..end]
    } else {
        &all[..0]
    }
}
