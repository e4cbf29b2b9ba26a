//! Regions that are limited to one stream (RFC 5042 6.1.1).
ghost use Rattle.std.specs.Prelude.{◌≡◌, length, IfSome, IfNone, IfOk, IfErr, IsErr, OnOk, OnErr};
ghost use Rattle.std.specs.Result.{result_err};
ghost use Rattle.iw_memory.specs.Table.{next_stag};

use super::Endpoint;
use crate::refusal::{CallRefusal, LimitRefusal};
use iw_memory::{RegisterRefusal, Rights, Stag};
use std::alloc::Allocator;

impl<A: Allocator> Endpoint<A> {
    ghost use Rattle.iw_endpoint.specs.Endpoint.{stream_at, running_refusal, limit_refusal, limited};

    /// Registers octets in the domain of a stream as [`Endpoint::register`] does, but for this stream alone (RFC 5042 6.1.1):
    /// to the peers of other streams the STag is as one of another domain. When the stream is closed ([`Endpoint::close`]),
    /// the region becomes invalid. It stays registered for its owner.
    ///
    /// `Ended`: the stream has ended. Then come the refusals of `register`; `NoMemory` comes only if no other refusal applies.
    /// An `Err` changes nothing and gives the octets back.
    pub fn register_for(
        &mut self,
        number: u32,
        base: u64,
        octets: Vec<u8, A>,
        rights: Rights,
    ) -> Result<Stag, (CallRefusal<LimitRefusal>, Vec<u8, A>)>
        // The first refusal that applies; if none does, only `NoMemory`.
        ensures refused { IfSome (limit_refusal self.old number base (length octets.items)) (λ refusal. IfErr result (λ e. e.0 ≡ refusal) × IsErr result) }
        ensures memory { IfNone (limit_refusal self.old number base (length octets.items)) (IfErr result (λ e. e.0 ≡ CallRefusal.Refused (LimitRefusal.Refused RegisterRefusal.NoMemory))) }
        ensures back { IfErr result (λ e. e.1 ≡ octets) }
        ensures err { OnErr result (self.new ≡ self.old) }

        ensures stag { IfOk result (λ stag. stag ≡ next_stag self.old.table (stream_at self.old number).domain) }
        ensures ok { OnOk result (self.new ≡ limited self.old number base octets.items rights) }
    {
        match self.domain_running(number) {
            Ok(pd) => match self.memory.register_for(pd, number, base, octets, rights) {
                Ok(stag) => Ok(stag),
                Err((refusal, octets)) => Err((
                    CallRefusal::Refused(LimitRefusal::Refused(refusal)),
                    octets,
                )),
            },
            Err(refusal) => Err((refusal, octets)),
        }
    }

    // The domain of a stream that runs; else why nothing is registered for the stream.
    pub(super) fn domain_running(&self, number: u32) -> Result<u8, CallRefusal<LimitRefusal>>
        ensures refused { result_err result ≡ running_refusal self.now number }
        ensures domain { IfOk result (λ pd. pd ≡ (stream_at self.now number).domain) }
    {
        match self.streams.get(number) {
            Some(stream) if !stream.has_ended() => Ok(stream.domain()),
            Some(_) => Err(CallRefusal::Refused(LimitRefusal::Ended)),
            None => Err(CallRefusal::NoSuchStream),
        }
    }
}
