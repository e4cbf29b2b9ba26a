//! An allocator with a limit: it refuses what would have it hold more.
#![tactic(auto)]

mod usage;

use std::alloc::{AllocError, Allocator};
use std::cell::Cell;
pub use usage::Usage;

/// An allocator that passes requests on to `inner`, as long as the blocks that it has handed out and not got back have at
/// most so many octets together. It refuses any other by `AllocError`, as an allocator without memory does.
///
/// Use it as `&Quota<B>`, which is `Copy`. What is counted is the size that was asked for, and not what the inner
/// allocator adds to it. Of a block that grows or shrinks the difference counts, also if the inner allocator moves it.
pub struct Quota<B: Allocator> {
    inner: B,
    usage: Cell<Usage>,
}

impl<B: Allocator> Quota<B> {
    /// Hands out at most `most` octets at a time, out of `inner`.
    pub fn new(inner: B, most: u64) -> Quota<B> {
        Quota {
            inner,
            usage: Cell::new(Usage::new(most)),
        }
    }

    /// What is handed out now, the most that was, and the limit. A block that the inner allocator refuses counts in
    /// `peak`.
    pub fn usage(&self) -> Usage {
        self.usage.get()
    }

    /// The octets of the blocks that were handed out and not given back.
    pub fn held(&self) -> u64 {
        self.usage().held
    }

    /// The limit, as `new` was told.
    pub fn most(&self) -> u64 {
        self.usage().most
    }
}

impl<B: Allocator> Drop for Quota<B> {
    fn drop(self) {
        let Self { inner: _, usage: _ } = self;
    }
}

// Whether it is too much if a block for `from` values of `size` octets becomes one for `to`. If it is not, they count from
// now on.
fn refuses(usage: &Cell<Usage>, from: usize, to: usize, size: usize) -> bool {
    let octets = to.saturating_sub(from).saturating_mul(size);
    match usage.get().with(octets) {
        Some(after) => {
            usage.set(after);
            false
        }
        None => true,
    }
}

// A block for `from` values of `size` octets became one for `to`, or is none any more, if that is 0.
fn give_back(usage: &Cell<Usage>, from: usize, to: usize, size: usize) {
    let octets = from.saturating_sub(to).saturating_mul(size);
    usage.set(usage.get().without(octets));
}

unsafe impl<B: Allocator> Allocator for Quota<B> {
    ghost dealloc_token = { λ quota ty ptr. B.dealloc_token quota.inner ty ptr };

    fn allocate(&self, size: usize, align: usize) -> Result<*mut u8, AllocError> {
        if refuses(&self.usage, 0, size, 1) {
            return Err(AllocError);
        }
        match self.inner.allocate(size, align) {
            Ok(block) => Ok(block),
            Err(error) => {
                give_back(&self.usage, size, 0, 1);
                Err(error)
            }
        }
    }

    unsafe fn deallocate(&self, ptr: *mut u8, size: usize, align: usize) {
        give_back(&self.usage, size, 0, 1);
        self.inner.deallocate(ptr, size, align);
    }

    unsafe fn grow<T>(
        &self,
        ptr: *mut T,
        len: usize,
        old_cap: usize,
        new_cap: usize,
    ) -> Result<*mut T, AllocError> {
        if refuses(&self.usage, old_cap, new_cap, size_of::<T>()) {
            return Err(AllocError);
        }
        match self.inner.grow(ptr, len, old_cap, new_cap) {
            Ok(block) => Ok(block),
            Err(error) => {
                give_back(&self.usage, new_cap, old_cap, size_of::<T>());
                Err(error)
            }
        }
    }

    unsafe fn shrink<T>(
        &self,
        ptr: *mut T,
        len: usize,
        old_cap: usize,
        new_cap: usize,
    ) -> Result<*mut T, AllocError> {
        match self.inner.shrink(ptr, len, old_cap, new_cap) {
            Ok(block) => {
                give_back(&self.usage, old_cap, new_cap, size_of::<T>());
                Ok(block)
            }
            Err(error) => Err(error),
        }
    }
}
