//! Octets that change hands with no copy: a buffer's octets are a region's, or a frame is put behind them.
ghost use Rattle.std.specs.Prelude.{◌≡◌, ◌++◌, None, Some, [], length, vec_len, vec_capacity, IfSome, IfNone, IfOk, IfErr, OnOk, OnErr};
ghost use Rattle.std.specs.Result.{result_err};
ghost use Rattle.iw_memory.specs.Table.{next_stag};
ghost use Rattle.iw_endpoint.specs.Endpoint.{registered, deregistered, octets_of};
ghost use Rattle.iw_endpoint.specs.Endpoint.{emission_at, emitted_at, after_emit};
ghost use Rattle.iw_handle.specs.Events.{emitted_of, IsFrame};
ghost use Rattle.iw_handle.specs.Filling.{TakesMemoryForReads, TakesMemoryForReadsAt};
ghost use Rattle.iw_handle.specs.KeptRegions.{refusal_to_move};
ghost use Rattle.iw_handle.specs.Regions.{refusal_to_register};
ghost use Rattle.iw_handle.specs.State.{called_on, refusal_with, changed, told_in, shown_in};
ghost use Rattle.iw_handle.specs.Streams.{refusal_to_go_on};
ghost use Rattle.iw_handle.specs.Words.{rights_of};

use crate::event::{Emitted, emitted_of};
use crate::handle::Handle;
use crate::refusal::{Refusal, deregister_reason, register_reason};
use crate::words::{check_bits, rights_of};
use iw_buffer::Buffer;
use iw_endpoint::{CallRefusal, Endpoint, MAX_PLACE, Stag};
use std::alloc::Global;

// Registers the octets themselves: none are left where they were.
fn register_these(
    endpoint: &mut Endpoint,
    alloc: Global,
    pd: u8,
    base: u64,
    octets: &mut Vec<u8>,
    rights: u32,
) -> Result<Stag, Refusal>
    // The first refusal that applies; if none does, only `NoMemory`.
    ensures refused { IfSome (refusal_to_register endpoint.old pd base (length octets.old.items) rights)
        (λ r. result ≡ Err r) }
    ensures memory { IfNone (refusal_to_register endpoint.old pd base (length octets.old.items) rights)
        (IfErr result (λ e. e ≡ Refusal.NoMemory)) }
    ensures stag { IfOk result (λ stag. stag ≡ next_stag endpoint.old.table pd) }
    ensures ok { OnOk result (endpoint.new ≡ registered endpoint.old pd base octets.old.items (rights_of rights)) }
    ensures taken { OnOk result (octets.new.items ≡ []) }
    ensures err { OnErr result (endpoint.new ≡ endpoint.old) }
    ensures back { OnErr result (octets.new.items ≡ octets.old.items) }
{
    check_bits(16, rights)?;
    let these = std::mem::replace(octets, Vec::new(alloc));
    match endpoint.register(pd, base, these, rights_of(rights)) {
        Ok(stag) => Ok(stag),
        Err((refusal, back)) => {
            *octets = back;
            Err(register_reason(refusal))
        }
    }
}

// Takes a region out, and its octets with it. Those that were there go.
fn deregister_these(
    endpoint: &mut Endpoint,
    stag: Stag,
    octets: &mut Vec<u8>,
) -> Result<(), Refusal>
    ensures refused { result_err result ≡ refusal_to_move endpoint.old stag }
    ensures octets { OnOk result (Some octets.new.items ≡ octets_of endpoint.old stag) }
    ensures ok { OnOk result (endpoint.new ≡ deregistered endpoint.old stag) }
    ensures err { OnErr result (endpoint.new ≡ endpoint.old) }
    ensures back { OnErr result (octets.new.items ≡ octets.old.items) }
{
    match endpoint.deregister(stag) {
        Ok(taken) => {
            *octets = taken;
            Ok(())
        }
        Err(refusal) => Err(deregister_reason(refusal)),
    }
}

// Emits what is due behind what stands in a buffer.
fn emit_onto(endpoint: &mut Endpoint, number: u32, out: &mut Vec<u8>) -> Result<Emitted, Refusal>
    // The first refusal that applies; if none does, only `NoMemory`.
    ensures refused { IfSome (refusal_to_go_on endpoint.old number) (λ r. result ≡ Err r) }
    ensures memory { IfNone (refusal_to_go_on endpoint.old number) (IfErr result (λ e. e ≡ Refusal.NoMemory)) }
    ensures want { result ≡ Err Refusal.NoMemory → IsFrame (emission_at endpoint.old number) }
    ensures room { result ≡ Err Refusal.NoMemory → TakesMemoryForReads endpoint.old number (vec_len out.old) (vec_capacity out.old) }
    ensures emitted { IfOk result (λ emitted. emitted ≡ emitted_of (emission_at endpoint.old number)) }
    ensures octets { OnOk result (out.new.items ≡ out.old.items ++ emitted_at endpoint.old number) }
    ensures ok { OnOk result (endpoint.new ≡ after_emit endpoint.old number) }
    ensures err { OnErr result (endpoint.new ≡ endpoint.old) }
    ensures back { OnErr result (out.new.items ≡ out.old.items) }
{
    let Ok(sent) = endpoint.sent(number) else {
        return Err(Refusal::NoSuchStream);
    };
    if sent > MAX_PLACE {
        return Err(Refusal::TooFar);
    }
    match endpoint.emit(number, out) {
        Ok(emission) => Ok(emitted_of(emission)),
        Err(CallRefusal::NoSuchStream) => Err(Refusal::NoSuchStream),
        Err(CallRefusal::Refused(_)) => Err(Refusal::NoMemory),
    }
}

impl Handle {
    /// Registers a buffer's octets themselves, as [`Handle::register`] does a copy: nothing is copied, and the buffer then has
    /// none. An `Err` changes nothing, and the buffer keeps its octets. `NoMemory` comes only if no other refusal applies.
    pub fn register_buffer(
        &mut self,
        alloc: Global,
        pd: u8,
        base: u64,
        buffer: &mut Buffer,
        rights: u32,
    ) -> Result<Stag, Refusal>
        ensures refused { IfSome (refusal_with self.old.state buffer.old.state
            (λ e octets. refusal_to_register e pd base (length octets) rights)) (λ r. result ≡ Err r) }
        ensures memory { IfNone (refusal_with self.old.state buffer.old.state
            (λ e octets. refusal_to_register e pd base (length octets) rights)) (IfErr result (λ e. e ≡ Refusal.NoMemory)) }
        ensures stag { IfOk result (λ stag. Some stag ≡ told_in self.old.state (λ e. next_stag e.table pd)) }
        ensures ok { OnOk result (IfSome buffer.old.state (λ octets.
            self.new.state ≡ changed self.old.state (λ e. registered e pd base octets (rights_of rights)))) }
        ensures taken { OnOk result (buffer.new.state ≡ Some []) }
        ensures err { OnErr result (self.new.state ≡ self.old.state) }
        ensures back { OnErr result (buffer.new.state ≡ buffer.old.state) }
    {
        let Some(mut held) = self.take(alloc) else {
            return Err(Refusal::Closed);
        };
        let Some(mut lent) = buffer.take_vec(alloc) else {
            self.put(held);
            return Err(Refusal::BufferMissing);
        };
        let done = register_these(
            &mut held.endpoint,
            alloc,
            pd,
            base,
            &mut lent.octets,
            rights,
        );
        self.put(held);
        buffer.put_vec(lent);
        done
    }

    /// Deregisters a region, valid or not, and moves its octets into the buffer: nothing is copied, and the octets that the
    /// buffer had are freed. From then on the STag names nothing. `OtherMemory`: the program keeps the region's memory
    /// ([`Handle::deregister_memory`]). An `Err` changes nothing.
    pub fn deregister_buffer(
        &mut self,
        alloc: Global,
        stag: Stag,
        buffer: &mut Buffer,
    ) -> Result<(), Refusal>
        ensures refused { result_err result ≡ refusal_with self.old.state buffer.old.state
            (λ e octets. refusal_to_move e stag) }
        ensures octets { OnOk result (buffer.new.state ≡ shown_in self.old.state (λ e. octets_of e stag)) }
        ensures ok { OnOk result (self.new.state ≡ changed self.old.state (λ e. deregistered e stag)) }
        ensures err { OnErr result (self.new.state ≡ self.old.state) }
        ensures back { OnErr result (buffer.new.state ≡ buffer.old.state) }
    {
        let Some(mut held) = self.take(alloc) else {
            return Err(Refusal::Closed);
        };
        let Some(mut lent) = buffer.take_vec(alloc) else {
            self.put(held);
            return Err(Refusal::BufferMissing);
        };
        let done = deregister_these(&mut held.endpoint, stag, &mut lent.octets);
        self.put(held);
        buffer.put_vec(lent);
        done
    }

    /// Appends what a stream emits next to a buffer ([`Endpoint::emit`]), and reports it in numbers. An `Err` changes
    /// nothing. `TooFar` means that more than 2^62 octets were emitted; `NoMemory` comes only if no other refusal applies and
    /// octets are due for which the buffer has no room, or a Read is begun while none is outstanding.
    pub fn emit_onto(
        &mut self,
        alloc: Global,
        number: u32,
        buffer: &mut Buffer,
    ) -> Result<Emitted, Refusal>
        ensures refused { IfSome (refusal_with (called_on self.old.state number) buffer.old.state (λ e octets. refusal_to_go_on e number))
            (λ r. result ≡ Err r) }
        ensures memory { IfNone (refusal_with (called_on self.old.state number) buffer.old.state (λ e octets. refusal_to_go_on e number))
            (IfErr result (λ e. e ≡ Refusal.NoMemory)) }
        ensures want { result ≡ Err Refusal.NoMemory → IfSome (called_on self.old.state number)
            (λ held. IsFrame (emission_at held.endpoint number)) }
        ensures room { result ≡ Err Refusal.NoMemory →
            TakesMemoryForReadsAt (called_on self.old.state number) number buffer.old.state buffer.old.room }
        ensures emitted { IfOk result
            (λ emitted. Some emitted ≡ told_in (called_on self.old.state number) (λ e. emitted_of (emission_at e number))) }
        ensures octets { OnOk result (IfSome buffer.old.state (λ octets.
            buffer.new.state ≡ told_in (called_on self.old.state number) (λ e. octets ++ emitted_at e number))) }
        ensures ok { OnOk result (self.new.state ≡ changed (called_on self.old.state number) (λ e. after_emit e number)) }
        ensures err { OnErr result (self.new.state ≡ called_on self.old.state number) }
        ensures back { OnErr result (buffer.new.state ≡ buffer.old.state) }
    {
        let Some(mut held) = self.take_on(alloc, number) else {
            return Err(Refusal::Closed);
        };
        let Some(mut lent) = buffer.take_vec(alloc) else {
            self.put(held);
            return Err(Refusal::BufferMissing);
        };
        let done = emit_onto(&mut held.endpoint, number, &mut lent.octets);
        self.put(held);
        buffer.put_vec(lent);
        done
    }
}
