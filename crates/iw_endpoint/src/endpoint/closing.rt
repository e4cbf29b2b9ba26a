//! Streams whose link broke, and streams that are forgotten.
ghost use Rattle.std.specs.Prelude.{◌≡◌, is_ok, IfOk, OnOk, OnErr};
ghost use Rattle.std.specs.Result.{result_err};
ghost use Rattle.iw_stream.specs.Stream.{peer_of};

use super::Endpoint;
use crate::refusal::{CallRefusal, NoSuchStream, NotAtRest};
use iw_memory::Peer;
use std::alloc::Allocator;

impl<A: Allocator> Endpoint<A> {
    ghost use Rattle.iw_endpoint.specs.Endpoint.{has_stream, stream_at, broken, close_refusal, after_close};

    /// Reports that a stream's link broke, for example because its connection closed. The stream has ended, and nothing
    /// more is emitted, not even a pending Terminate or start-up frame. [`Endpoint::work`] hands back what was posted.
    pub fn break_link(&mut self, number: u32) -> Result<(), NoSuchStream>
        ensures stream { is_ok result ≡ has_stream self.old number }
        ensures ok { OnOk result (self.new ≡ broken self.old number) }
        ensures err { OnErr result (self.new ≡ self.old) }
    {
        match self.streams.get_mut(number) {
            Some(stream) => {
                stream.break_link();
                Ok(())
            }
            None => Err(NoSuchStream),
        }
    }

    /// Forgets a stream and frees its memory. The stream must be at rest: it has ended, and [`Endpoint::work`] and
    /// [`Endpoint::emit`] have nothing left to do. The number stays taken, and each later call on it answers
    /// `NoSuchStream`. The regions that were registered for this stream alone ([`Endpoint::register_for`]) become invalid.
    ///
    /// `NotAtRest`: the stream has not ended, has something left to hand back, or has a start-up frame or a Terminate
    /// left to emit; [`Endpoint::break_link`] drops such a frame. An `Err` changes nothing.
    pub fn close(&mut self, number: u32) -> Result<(), CallRefusal<NotAtRest>>
        ensures refused { result_err result ≡ close_refusal self.old number }
        ensures ok { OnOk result (self.new ≡ after_close self.old number) }
        ensures err { OnErr result (self.new ≡ self.old) }
    {
        let peer = self.peer_at_rest(number)?;
        self.memory.retire(peer);
        self.streams.remove(number);
        self.closed.keep(number, peer.domain);
        Ok(())
    }

    // The peer of a stream that may be closed; else why the stream may not.
    fn peer_at_rest(&self, number: u32) -> Result<Peer, CallRefusal<NotAtRest>>
        ensures refused { result_err result ≡ close_refusal self.now number }
        ensures peer { IfOk result (λ peer. peer ≡ peer_of (stream_at self.now number)) }
    {
        match self.streams.get(number) {
            Some(stream) if stream.is_at_rest() => Ok(stream.peer()),
            Some(_) => Err(CallRefusal::Refused(NotAtRest)),
            None => Err(CallRefusal::NoSuchStream),
        }
    }
}
