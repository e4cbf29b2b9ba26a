//! Regions that are limited to one stream.
ghost use Rattle.std.specs.Prelude.{◌≡◌, ◌⊎◌, None, Some, [], length, IfSome, IfNone, IfOk, IfErr, IsErr, OnOk, OnErr};
ghost use Rattle.iw_endpoint.specs.Endpoint.{limited};
ghost use Rattle.iw_handle.specs.StreamRegions.{refusal_to_limit, next_stag_at};
ghost use Rattle.iw_handle.specs.State.{refusal_in, refusal_with, changed, told_in};
ghost use Rattle.iw_handle.specs.Words.{bits_refusal, rights_of};

use crate::handle::Handle;
use crate::refusal::{Refusal, limit_reason};
use crate::words::{check_bits, rights_of};
use iw_buffer::Buffer;
use iw_endpoint::{Endpoint, Stag};
use std::alloc::Global;

// Registers the octets themselves for a stream: none are left where they were.
fn register_these(
    endpoint: &mut Endpoint,
    alloc: Global,
    number: u32,
    base: u64,
    octets: &mut Vec<u8>,
    rights: u32,
) -> Result<Stag, Refusal>
    // The first refusal that applies; if none does, only `NoMemory`.
    ensures refused { IfSome (refusal_to_limit endpoint.old number base (length octets.old.items) rights)
        (λ r. result ≡ Err r) }
    ensures memory { IfNone (refusal_to_limit endpoint.old number base (length octets.old.items) rights)
        (IfErr result (λ e. e ≡ Refusal.NoMemory)) }
    ensures stag { IfOk result (λ stag. stag ≡ next_stag_at endpoint.old number) }
    ensures ok { OnOk result (endpoint.new ≡ limited endpoint.old number base octets.old.items (rights_of rights)) }
    ensures taken { OnOk result (octets.new.items ≡ []) }
    ensures err { OnErr result (endpoint.new ≡ endpoint.old) }
    ensures back { OnErr result (octets.new.items ≡ octets.old.items) }
{
    check_bits(16, rights)?;
    let these = std::mem::replace(octets, Vec::new(alloc));
    match endpoint.register_for(number, base, these, rights_of(rights)) {
        Ok(stag) => Ok(stag),
        Err((refusal, back)) => {
            *octets = back;
            Err(limit_reason(refusal))
        }
    }
}

// Registers a copy of the octets for a stream.
fn register_copy(
    endpoint: &mut Endpoint,
    alloc: Global,
    number: u32,
    base: u64,
    octets: &[u8],
    rights: u32,
) -> Result<Stag, Refusal>
    ensures refused { IfSome (refusal_to_limit endpoint.old number base (length octets.now) rights) (λ _. IsErr result) }
    ensures why { IfErr result
        (λ e. (e ≡ Refusal.NoMemory) ⊎ (refusal_to_limit endpoint.old number base (length octets.now) rights ≡ Some e)) }
    ensures bits { IfSome (bits_refusal 16 rights) (λ r. result ≡ Err r) }
    ensures stag { IfOk result (λ stag. stag ≡ next_stag_at endpoint.old number) }
    ensures ok { OnOk result (endpoint.new ≡ limited endpoint.old number base octets.now (rights_of rights)) }
    ensures err { OnErr result (endpoint.new ≡ endpoint.old) }
{
    check_bits(16, rights)?;
    let Ok(mut copy) = Vec::from_slice(alloc, octets) else {
        return Err(Refusal::NoMemory);
    };
    register_these(endpoint, alloc, number, base, &mut copy, rights)
}

impl Handle {
    /// Registers a copy of the octets for one stream ([`Endpoint::register_for`]): to the peers of other streams the STag is
    /// as one of another domain, and the region becomes invalid when the stream is closed. `rights` is a sum as at
    /// [`Handle::register`]. `Ended`: the stream has ended. An `Err` changes nothing. `NoMemory` may come in place of a refusal
    /// of the endpoint's, since the copy is made first.
    pub fn register_for(
        &mut self,
        alloc: Global,
        number: u32,
        base: u64,
        octets: &[u8],
        rights: u32,
    ) -> Result<Stag, Refusal>
        // The first refusal that applies, or `NoMemory`.
        ensures refused { IfSome
            (refusal_in self.old.state (λ e. refusal_to_limit e number base (length octets.now) rights))
            (λ _. IsErr result) }
        ensures why { IfErr result (λ e. (e ≡ Refusal.NoMemory) ⊎
            (refusal_in self.old.state (λ e. refusal_to_limit e number base (length octets.now) rights) ≡ Some e)) }
        ensures bits { IfSome (refusal_in self.old.state (λ e. bits_refusal 16 rights)) (λ r. result ≡ Err r) }
        ensures stag { IfOk result (λ stag. Some stag ≡ told_in self.old.state (λ e. next_stag_at e number)) }
        ensures ok { OnOk result
            (self.new.state ≡ changed self.old.state (λ e. limited e number base octets.now (rights_of rights))) }
        ensures err { OnErr result (self.new.state ≡ self.old.state) }
    {
        let Some(mut held) = self.take(alloc) else {
            return Err(Refusal::Closed);
        };
        let done = register_copy(&mut held.endpoint, alloc, number, base, octets, rights);
        self.put(held);
        done
    }

    /// Registers a buffer's octets themselves for one stream, as [`Handle::register_for`] does a copy: nothing is copied, and
    /// the buffer then has none. An `Err` changes nothing, and the buffer keeps its octets. `NoMemory` comes only if no other
    /// refusal applies.
    pub fn register_buffer_for(
        &mut self,
        alloc: Global,
        number: u32,
        base: u64,
        buffer: &mut Buffer,
        rights: u32,
    ) -> Result<Stag, Refusal>
        ensures refused { IfSome (refusal_with self.old.state buffer.old.state
            (λ e octets. refusal_to_limit e number base (length octets) rights)) (λ r. result ≡ Err r) }
        ensures memory { IfNone (refusal_with self.old.state buffer.old.state
            (λ e octets. refusal_to_limit e number base (length octets) rights)) (IfErr result (λ e. e ≡ Refusal.NoMemory)) }
        ensures stag { IfOk result (λ stag. Some stag ≡ told_in self.old.state (λ e. next_stag_at e number)) }
        ensures ok { OnOk result (IfSome buffer.old.state (λ octets.
            self.new.state ≡ changed self.old.state (λ e. limited e number base octets (rights_of rights)))) }
        ensures taken { OnOk result (buffer.new.state ≡ Some []) }
        ensures err { OnErr result (self.new.state ≡ self.old.state) }
        ensures back { OnErr result (buffer.new.state ≡ buffer.old.state) }
    {
        let Some(mut held) = self.take(alloc) else {
            return Err(Refusal::Closed);
        };
        let Some(mut lent) = buffer.take_vec(alloc) else {
            self.put(held);
            return Err(Refusal::BufferMissing);
        };
        let done = register_these(
            &mut held.endpoint,
            alloc,
            number,
            base,
            &mut lent.octets,
            rights,
        );
        self.put(held);
        buffer.put_vec(lent);
        done
    }
}
