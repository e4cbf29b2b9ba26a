//! For tests: an allocator that refuses an allocation, and readers and writers that fail, on demand.
#![tactic(auto)]

mod halting;

pub use halting::{Endless, Halting};
use std::alloc::{AllocError, Allocator};
use std::cell::Cell;

/// An allocator that refuses one allocation, the one after the next `left`, and passes every other on to `inner`.
pub struct FailsAt<B: Allocator> {
    inner: B,
    left: Cell<u64>,
}

impl<B: Allocator> FailsAt<B> {
    pub fn new(inner: B, left: u64) -> FailsAt<B> {
        FailsAt {
            inner,
            left: Cell::new(left),
        }
    }

    /// From now on, refuses the allocation after the next `left`, and no other.
    pub fn refuse_after(&self, left: u64) {
        self.left.set(left);
    }

    /// Whether the allocation was refused.
    pub fn has_refused(&self) -> bool {
        self.left.get() == u64::MAX
    }
}

impl<B: Allocator> Drop for FailsAt<B> {
    fn drop(self) {
        let Self { inner: _, left: _ } = self;
    }
}

fn refuses(left: &Cell<u64>) -> bool {
    let count = left.get();
    if count < u64::MAX {
        left.set(count.wrapping_sub(1));
    }
    count == 0
}

fn tick(_left: &Cell<u64>) {}

unsafe impl<B: Allocator> Allocator for FailsAt<B> {
    ghost dealloc_token = { λ heap ty ptr. B.dealloc_token heap.inner ty ptr };

    fn allocate(&self, size: usize, align: usize) -> Result<*mut u8, AllocError> {
        if refuses(&self.left) {
            return Err(AllocError);
        }
        self.inner.allocate(size, align)
    }

    unsafe fn deallocate(&self, ptr: *mut u8, size: usize, align: usize) {
        tick(&self.left);
        self.inner.deallocate(ptr, size, align);
    }
}
