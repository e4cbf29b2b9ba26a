//! Streams that bind no more than a share of their domain's pool (RFC 5042 6.4.3.1).
ghost use Rattle.std.specs.Prelude.{◌≡◌, ◌↔◌, ◌+◌, ◌<◌, ◌≤◌, ◌^◌, nat_lt, true, false, is_ok, Ok, Err, IfOk, OnOk, OnErr};
ghost use Rattle.iw_stream.specs.Kept.{IsWithinBuffer};
ghost use Rattle.iw_stream.specs.Pooling.{bound_buffers};
ghost use Rattle.iw_stream.specs.Work.{IsTry, task};

use super::Endpoint;
use crate::refusal::{CallRefusal, NoSuchStream};
use iw_octets::Octets;
use iw_stream::{Step, Stream};
use std::alloc::{AllocError, Allocator};

// Whether a stream has fewer buffers bound than its share.
#[inline(always)]
fn has_fewer<A: Allocator>(stream: &Stream<A>, share: usize) -> bool
    ensures { result ≡ nat_lt (bound_buffers stream.now) share }
{
    stream.bound_buffers() < share
}

impl<A: Allocator> Endpoint<A> {
    ghost use Rattle.iw_endpoint.specs.Endpoint.{has_stream, point_at};
    ghost use Rattle.iw_endpoint.specs.Sharing.{bound_at, step_within, after_work_within, lent_within};

    /// How many buffers of its domain's pool are bound to a stream's messages: each was taken when the first segment of its
    /// message was placed ([`Step::Buffered`]), and stays bound until it is handed out or back. At most 256; 0 if the stream
    /// shares no pool.
    pub fn bound_buffers(&self, number: u32) -> Result<usize, NoSuchStream>
        ensures stream { is_ok result ≡ has_stream self.now number }
        ensures bound { IfOk result (λ bound. bound ≡ bound_at self.now number) }
    {
        match self.streams.get(number) {
            Some(stream) => Ok(stream.bound_buffers()),
            None => Err(NoSuchStream),
        }
    }

    /// As [`Endpoint::work`], for streams that share a pool without trusting one another: the stream may have no more than
    /// `share` of the pool's buffers bound to its messages (RFC 5042 6.4.3.1).
    ///
    /// While it has fewer, this is `work`; a step binds one buffer at most. Once it has `share`, or more, the step is that of an
    /// endpoint at which the pool of the stream's domain is empty, and the pool stays as it is: a segment that would take one
    /// more is the fault of a message without a buffer (RFC 5041 7.1), and the stream ends by it. All other steps are as ever.
    ///
    /// It allocates as `work` does, and answers `Err` when that does.
    #[inline(always)]
    pub fn work_within(
        &mut self,
        number: u32,
        share: usize,
    ) -> Result<Step<Octets<A>>, CallRefusal<AllocError>>
    where
        A: Copy,
        requires { point_at self.old number ≤ 2 ^ 62 }
        ensures stream { (result ≡ Err CallRefusal.NoSuchStream) ↔ (has_stream self.old number ≡ false) }
        ensures step { IfOk result (λ step. Ok step ≡ step_within self.old number share) }
        ensures after { OnOk result (self.new ≡ after_work_within self.old number share) }
        ensures err { OnErr result (self.new ≡ self.old) }
        ensures want { has_stream self.old number ≡ true → OnErr result (IsTry (task (lent_within self.old number share))) }
        ensures reach { point_at self.new number ≤ point_at self.old number + 2 ^ 18 }
        ensures within { IfOk result IsWithinBuffer }
    {
        // Each arm takes its own answer apart, as in `Pools::work`.
        match self.streams.get_mut(number) {
            Some(stream) => {
                if has_fewer(stream, share) {
                    match self.pools.work(stream, &mut self.memory) {
                        Ok(step) => Ok(step),
                        Err(refusal) => Err(CallRefusal::Refused(refusal)),
                    }
                } else {
                    match self.pools.work_alone(stream, &mut self.memory) {
                        Ok(step) => Ok(step),
                        Err(refusal) => Err(CallRefusal::Refused(refusal)),
                    }
                }
            }
            None => Err(CallRefusal::NoSuchStream),
        }
    }
}
