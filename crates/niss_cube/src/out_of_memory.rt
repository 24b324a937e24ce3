//! What each call that takes memory returns if it gets none.

/// The allocator refused memory. Nothing is kept then.
#[derive(Clone, Copy, Debug, PartialEq, Eq)]
pub struct OutOfMemory;
