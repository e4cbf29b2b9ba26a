//! Regions of one stream, made invalid when it is closed.
ghost use Rattle.std.specs.Prelude.{◌≡◌, ◌||◌, is_some};
ghost use Rattle.iw_memory.specs.Retiring.{retired_all, retired_at};

use crate::region::Stored;
use crate::slots::Slot;
use slab::Slab;
use std::alloc::Allocator;

// Puts the regions in these slots that are limited to the stream out of use.
pub(crate) fn retire_all<A: Allocator>(
    regions: &mut Slab<Stored<A>, A>,
    slots: &[Slot],
    stream: Option<u32>,
)
    ensures { regions.new ≡ retired_all stream slots.now regions.old }
{
    for slot in slots {
        if let Some(at) = slot.at {
            retire_at(regions, at, stream);
        }
    }
}

// Puts the region that is stored there out of use, if it is limited to the stream.
fn retire_at<A: Allocator>(regions: &mut Slab<Stored<A>, A>, at: usize, stream: Option<u32>)
    ensures { regions.new ≡ retired_at stream regions.old at }
{
    if let Some(stored) = regions.get_mut(at) {
        stored.retire(stream);
    }
}

/// Whether a region was ever limited to a stream, once one with this bound is registered too.
#[inline(always)]
pub(crate) fn is_limited(limited: bool, bound: Option<u32>) -> bool
    ensures { result ≡ limited || is_some bound }
{
    limited || bound.is_some()
}
