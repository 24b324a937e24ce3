//! An allocator that refuses one allocation, by its number.

use std::alloc::{AllocError, Allocator};
use std::cell::Cell;

/// Passes each call on to another allocator, but refuses one allocation.
pub struct Refusing<B: Allocator> {
    inner: B,
    // how many more are granted before the one that is refused
    left: Cell<u64>,
}

impl<B: Allocator> Refusing<B> {
    /// The allocator that refuses the allocation after so many others.
    pub fn after(inner: B, granted: u64) -> Refusing<B> {
        Refusing {
            inner,
            left: Cell::new(granted),
        }
    }
}

impl<B: Allocator> Drop for Refusing<B> {
    fn drop(self) {
        let Self { inner: _, left: _ } = self;
    }
}

/// Counts an allocation, and returns whether it is the one that is refused.
fn is_refused(left: &Cell<u64>) -> bool {
    let before = left.get();
    left.set(before.wrapping_sub(1));
    before == 0
}

unsafe impl<B: Allocator> Allocator for Refusing<B> {
    ghost dealloc_token = { λ heap ty ptr. B.dealloc_token heap.inner ty ptr };

    fn allocate(&self, size: usize, align: usize) -> Result<*mut u8, AllocError> {
        if is_refused(&self.left) {
            return Err(AllocError);
        }
        self.inner.allocate(size, align)
    }

    unsafe fn deallocate(&self, ptr: *mut u8, size: usize, align: usize) {
        self.inner.deallocate(ptr, size, align);
    }
}
