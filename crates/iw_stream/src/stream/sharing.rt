//! What a stream has of the pool that it shares.
ghost use Rattle.std.specs.Prelude.{◌≡◌};

use super::Stream;
use std::alloc::Allocator;

impl<A: Allocator> Stream<A> {
    ghost use Rattle.iw_stream.specs.Pooling.{bound_buffers};

    /// How many buffers of its pool are bound to the stream's messages: each was taken when the first segment of its message
    /// was placed, and stays bound until it is handed out or back ([`Stream::work_shared`]). At most 256; 0 if the stream
    /// shares no pool.
    pub fn bound_buffers(&self) -> usize
        ensures { result ≡ bound_buffers self.now }
    {
        if self.receiving.is_shared() {
            return self.receiving.len();
        }
        0
    }
}
