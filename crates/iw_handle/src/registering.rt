//! Registering a region that a struct describes.
ghost use Rattle.std.specs.Prelude.{◌≡◌, ◌<◌, ◌⊎◌, None, Some, [], length, IfSome, IfNone, IfOk, IfErr, IsErr, OnOk, OnErr};
ghost use Rattle.std.specs.Result.{result_err};
ghost use Rattle.iw_memory.specs.Table.{register_refusal};
ghost use Rattle.iw_endpoint.specs.Endpoint.{stream_at, limit_refusal};
ghost use Rattle.iw_handle.specs.Registering.{registration_refusal, described_refusal, refusal_to_register_as};
ghost use Rattle.iw_handle.specs.Registering.{stag_within, stag_as, registered_in, registered_for, registered_as};
ghost use Rattle.iw_handle.specs.State.{refusal_in, refusal_with, changed, told_in};
ghost use Rattle.iw_handle.specs.Words.{bits_refusal, domain_number, has_bit};

use crate::handle::Handle;
use crate::refusal::{Refusal, limit_reason, register_reason};
use crate::structs::{REGISTRATION_SIZE, Registration, check_size};
use crate::words::{check_bits, domain_number, rights_of};
use iw_buffer::Buffer;
use iw_codes::numbers;
use iw_endpoint::{CallRefusal, Endpoint, LimitRefusal, RegisterRefusal, Stag};
use std::alloc::Global;

pub(crate) fn check_flags(flags: u64) -> Result<(), Refusal>
    ensures { result_err result ≡ bits_refusal 4 flags }
{
    if flags < 4 {
        Ok(())
    } else {
        Err(Refusal::BadBits)
    }
}

pub(crate) fn check_registration(registration: &Registration) -> Result<(), Refusal>
    ensures { result_err result ≡ registration_refusal registration.now }
{
    check_size(REGISTRATION_SIZE, registration.size)?;
    check_flags(registration.flags)?;
    check_bits(16, registration.rights)
}

pub(crate) fn has_flag(flags: u64, flag: u32) -> bool
    requires { 0 < flag }
    ensures { result ≡ has_bit flags flag }
{
    flags / flag as u64 % 2 == 1
}

// In a domain, by the next STag or a drawn one.
fn register_in(
    endpoint: &mut Endpoint,
    registration: &Registration,
    octets: Vec<u8>,
) -> Result<Stag, (RegisterRefusal, Vec<u8>)>
    ensures refused { IfSome (register_refusal endpoint.old.table (domain_number registration.now.pd)
        registration.now.base (length octets.items)) (λ refusal. IfErr result (λ e. e.0 ≡ refusal) × IsErr result) }
    ensures memory { IfNone (register_refusal endpoint.old.table (domain_number registration.now.pd)
        registration.now.base (length octets.items)) (IfErr result (λ e. e.0 ≡ RegisterRefusal.NoMemory)) }
    ensures back { IfErr result (λ e. e.1 ≡ octets) }
    ensures err { OnErr result (endpoint.new ≡ endpoint.old) }
    ensures stag { IfOk result
        (λ stag. stag ≡ stag_within endpoint.old registration.now (domain_number registration.now.pd)) }
    ensures ok { OnOk result (endpoint.new ≡ registered_in endpoint.old registration.now octets.items) }
{
    let pd = domain_number(registration.pd);
    let base = registration.base;
    let rights = rights_of(registration.rights);
    if has_flag(registration.flags, numbers::DRAWN) {
        endpoint.register_drawn(pd, base, octets, rights, registration.drawn)
    } else {
        endpoint.register(pd, base, octets, rights)
    }
}

// The same for one stream.
fn register_for(
    endpoint: &mut Endpoint,
    registration: &Registration,
    octets: Vec<u8>,
) -> Result<Stag, (CallRefusal<LimitRefusal>, Vec<u8>)>
    ensures refused { IfSome (limit_refusal endpoint.old registration.now.stream registration.now.base
        (length octets.items)) (λ refusal. IfErr result (λ e. e.0 ≡ refusal) × IsErr result) }
    ensures memory { IfNone (limit_refusal endpoint.old registration.now.stream registration.now.base
        (length octets.items))
        (IfErr result (λ e. e.0 ≡ CallRefusal.Refused (LimitRefusal.Refused RegisterRefusal.NoMemory))) }
    ensures back { IfErr result (λ e. e.1 ≡ octets) }
    ensures err { OnErr result (endpoint.new ≡ endpoint.old) }
    ensures stag { IfOk result (λ stag. stag ≡
        stag_within endpoint.old registration.now (stream_at endpoint.old registration.now.stream).domain) }
    ensures ok { OnOk result (endpoint.new ≡ registered_for endpoint.old registration.now octets.items) }
{
    let number = registration.stream;
    let base = registration.base;
    let rights = rights_of(registration.rights);
    if has_flag(registration.flags, numbers::DRAWN) {
        endpoint.register_drawn_for(number, base, octets, rights, registration.drawn)
    } else {
        endpoint.register_for(number, base, octets, rights)
    }
}

fn register_described(
    endpoint: &mut Endpoint,
    registration: &Registration,
    octets: Vec<u8>,
) -> Result<Stag, (Refusal, Vec<u8>)>
    ensures refused { IfSome (described_refusal endpoint.old registration.now (length octets.items))
        (λ refusal. IfErr result (λ e. e.0 ≡ refusal) × IsErr result) }
    ensures memory { IfNone (described_refusal endpoint.old registration.now (length octets.items))
        (IfErr result (λ e. e.0 ≡ Refusal.NoMemory)) }
    ensures back { IfErr result (λ e. e.1 ≡ octets) }
    ensures err { OnErr result (endpoint.new ≡ endpoint.old) }
    ensures stag { IfOk result (λ stag. stag ≡ stag_as endpoint.old registration.now) }
    ensures ok { OnOk result (endpoint.new ≡ registered_as endpoint.old registration.now octets.items) }
{
    if has_flag(registration.flags, numbers::LIMITED) {
        match register_for(endpoint, registration, octets) {
            Ok(stag) => Ok(stag),
            Err((refusal, back)) => Err((limit_reason(refusal), back)),
        }
    } else {
        match register_in(endpoint, registration, octets) {
            Ok(stag) => Ok(stag),
            Err((refusal, back)) => Err((register_reason(refusal), back)),
        }
    }
}

// Registers the octets themselves: none are left where they were.
fn register_these(
    endpoint: &mut Endpoint,
    alloc: Global,
    registration: &Registration,
    octets: &mut Vec<u8>,
) -> Result<Stag, Refusal>
    // The first refusal that applies; if none does, only `NoMemory`.
    ensures refused { IfSome (refusal_to_register_as endpoint.old registration.now (length octets.old.items))
        (λ r. result ≡ Err r) }
    ensures memory { IfNone (refusal_to_register_as endpoint.old registration.now (length octets.old.items))
        (IfErr result (λ e. e ≡ Refusal.NoMemory)) }
    ensures stag { IfOk result (λ stag. stag ≡ stag_as endpoint.old registration.now) }
    ensures ok { OnOk result (endpoint.new ≡ registered_as endpoint.old registration.now octets.old.items) }
    ensures taken { OnOk result (octets.new.items ≡ []) }
    ensures err { OnErr result (endpoint.new ≡ endpoint.old) }
    ensures back { OnErr result (octets.new.items ≡ octets.old.items) }
{
    check_registration(registration)?;
    let these = std::mem::replace(octets, Vec::new(alloc));
    match register_described(endpoint, registration, these) {
        Ok(stag) => Ok(stag),
        Err((refusal, back)) => {
            *octets = back;
            Err(refusal)
        }
    }
}

// Registers a copy of the octets.
fn register_copy(
    endpoint: &mut Endpoint,
    alloc: Global,
    registration: &Registration,
    octets: &[u8],
) -> Result<Stag, Refusal>
    ensures refused { IfSome (refusal_to_register_as endpoint.old registration.now (length octets.now))
        (λ _. IsErr result) }
    ensures why { IfErr result (λ e. (e ≡ Refusal.NoMemory) ⊎
        (refusal_to_register_as endpoint.old registration.now (length octets.now) ≡ Some e)) }
    ensures bad { IfSome (registration_refusal registration.now) (λ r. result ≡ Err r) }
    ensures stag { IfOk result (λ stag. stag ≡ stag_as endpoint.old registration.now) }
    ensures ok { OnOk result (endpoint.new ≡ registered_as endpoint.old registration.now octets.now) }
    ensures err { OnErr result (endpoint.new ≡ endpoint.old) }
{
    check_registration(registration)?;
    let Ok(mut copy) = Vec::from_slice(alloc, octets) else {
        return Err(Refusal::NoMemory);
    };
    register_these(endpoint, alloc, registration, &mut copy)
}

impl Handle {
    /// Registers a copy of the octets as a struct describes it: as [`Handle::register`] does or, with flag 1, as
    /// [`Handle::register_for`]. With flag 2 the STag is drawn by random bits of the program's
    /// ([`Endpoint::register_drawn`], [`Endpoint::register_drawn_for`]; RFC 5042 6.1.1). `BadStruct` means that the struct is
    /// shorter than that of the first version, `BadBits` that its flags or rights have a bit without meaning. An `Err` changes
    /// nothing. `NoMemory` may come in place of a refusal of the endpoint's, since the copy is made first.
    pub fn register_as(
        &mut self,
        alloc: Global,
        registration: &Registration,
        octets: &[u8],
    ) -> Result<Stag, Refusal>
        // The first refusal that applies, or `NoMemory`.
        ensures refused { IfSome
            (refusal_in self.old.state (λ e. refusal_to_register_as e registration.now (length octets.now)))
            (λ _. IsErr result) }
        ensures why { IfErr result (λ e. (e ≡ Refusal.NoMemory) ⊎
            (refusal_in self.old.state (λ e. refusal_to_register_as e registration.now (length octets.now)) ≡ Some e)) }
        ensures bad { IfSome (refusal_in self.old.state (λ e. registration_refusal registration.now))
            (λ r. result ≡ Err r) }
        ensures stag { IfOk result (λ stag. Some stag ≡ told_in self.old.state (λ e. stag_as e registration.now)) }
        ensures ok { OnOk result
            (self.new.state ≡ changed self.old.state (λ e. registered_as e registration.now octets.now)) }
        ensures err { OnErr result (self.new.state ≡ self.old.state) }
    {
        let Some(mut held) = self.take(alloc) else {
            return Err(Refusal::Closed);
        };
        let done = register_copy(&mut held.endpoint, alloc, registration, octets);
        self.put(held);
        done
    }

    /// Registers a buffer's octets themselves, as [`Handle::register_as`] does a copy: nothing is copied, and the buffer then
    /// has none. An `Err` changes nothing, and the buffer keeps its octets. `NoMemory` comes only if no other refusal applies.
    pub fn register_buffer_as(
        &mut self,
        alloc: Global,
        registration: &Registration,
        buffer: &mut Buffer,
    ) -> Result<Stag, Refusal>
        ensures refused { IfSome (refusal_with self.old.state buffer.old.state
            (λ e octets. refusal_to_register_as e registration.now (length octets))) (λ r. result ≡ Err r) }
        ensures memory { IfNone (refusal_with self.old.state buffer.old.state
            (λ e octets. refusal_to_register_as e registration.now (length octets)))
            (IfErr result (λ e. e ≡ Refusal.NoMemory)) }
        ensures stag { IfOk result (λ stag. Some stag ≡ told_in self.old.state (λ e. stag_as e registration.now)) }
        ensures ok { OnOk result (IfSome buffer.old.state (λ octets.
            self.new.state ≡ changed self.old.state (λ e. registered_as e registration.now octets))) }
        ensures taken { OnOk result (buffer.new.state ≡ Some []) }
        ensures err { OnErr result (self.new.state ≡ self.old.state) }
        ensures back { OnErr result (buffer.new.state ≡ buffer.old.state) }
    {
        let Some(mut held) = self.take(alloc) else {
            return Err(Refusal::Closed);
        };
        let Some(mut lent) = buffer.take_vec(alloc) else {
            self.put(held);
            return Err(Refusal::BufferMissing);
        };
        let done = register_these(&mut held.endpoint, alloc, registration, &mut lent.octets);
        self.put(held);
        buffer.put_vec(lent);
        done
    }
}
