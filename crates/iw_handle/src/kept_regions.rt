//! Regions of memory that the program keeps.
ghost use Rattle.std.specs.Prelude.{◌≡◌, true, None, Some, [], length, IfSome, IfNone, IfOk, IfErr, IsErr, OnOk, OnErr};
ghost use Rattle.std.specs.Result.{result_err};
ghost use Rattle.iw_kept.specs.Octets.{octets_of as octets_in, is_kept};
ghost use Rattle.iw_memory.specs.Forms.{octets_refusal};
ghost use Rattle.iw_memory.specs.Region.{most_octets};
ghost use Rattle.iw_endpoint.specs.Endpoint.{stream_at, octets_of, deregistered};
ghost use Rattle.iw_endpoint.specs.KeptRegions.{limited_refusal};
ghost use Rattle.iw_handle.specs.KeptRegions.{kept_within, kept_as, refusal_to_keep_as, refusal_to_hand_back};
ghost use Rattle.iw_handle.specs.Registering.{described_refusal_within, stag_within, stag_as};
ghost use Rattle.iw_handle.specs.State.{refusal_in, changed, told_in, shown_in};
ghost use Rattle.iw_handle.specs.Words.{domain_number};

use crate::handle::Handle;
use crate::refusal::{Refusal, deregister_reason, limit_reason, register_reason};
use crate::registering::{check_registration, has_flag};
use crate::structs::Registration;
use crate::words::{domain_number, rights_of};
use iw_codes::numbers;
use iw_endpoint::{CallRefusal, Endpoint, Kept, LimitRefusal, RegionOctets, RegisterRefusal, Stag};
use std::alloc::Global;

// In a domain, by the next STag or a drawn one.
fn register_in(
    endpoint: &mut Endpoint,
    registration: &Registration,
    octets: RegionOctets,
) -> Result<Stag, (RegisterRefusal, RegionOctets)>
    requires { is_kept octets ≡ true }
    ensures refused { IfSome
        (octets_refusal endpoint.old.table (domain_number registration.now.pd) registration.now.base octets)
        (λ refusal. IfErr result (λ e. e.0 ≡ refusal) × IsErr result) }
    ensures memory { IfNone
        (octets_refusal endpoint.old.table (domain_number registration.now.pd) registration.now.base octets)
        (IfErr result (λ e. e.0 ≡ RegisterRefusal.NoMemory)) }
    ensures back { IfErr result (λ e. e.1 ≡ octets) }
    ensures err { OnErr result (endpoint.new ≡ endpoint.old) }
    ensures stag { IfOk result
        (λ stag. stag ≡ stag_within endpoint.old registration.now (domain_number registration.now.pd)) }
    ensures ok { OnOk result (endpoint.new ≡
        kept_within endpoint.old registration.now (domain_number registration.now.pd) None (octets_in octets)) }
{
    let pd = domain_number(registration.pd);
    let base = registration.base;
    let rights = rights_of(registration.rights);
    if has_flag(registration.flags, numbers::DRAWN) {
        endpoint.register_octets_drawn(pd, base, octets, rights, registration.drawn)
    } else {
        endpoint.register_octets(pd, base, octets, rights)
    }
}

// The same for one stream.
fn register_for(
    endpoint: &mut Endpoint,
    registration: &Registration,
    octets: RegionOctets,
) -> Result<Stag, (CallRefusal<LimitRefusal>, RegionOctets)>
    requires { is_kept octets ≡ true }
    ensures refused { IfSome
        (limited_refusal endpoint.old registration.now.stream registration.now.base octets)
        (λ refusal. IfErr result (λ e. e.0 ≡ refusal) × IsErr result) }
    ensures memory { IfNone
        (limited_refusal endpoint.old registration.now.stream registration.now.base octets)
        (IfErr result (λ e. e.0 ≡ CallRefusal.Refused (LimitRefusal.Refused RegisterRefusal.NoMemory))) }
    ensures back { IfErr result (λ e. e.1 ≡ octets) }
    ensures err { OnErr result (endpoint.new ≡ endpoint.old) }
    ensures stag { IfOk result (λ stag. stag ≡
        stag_within endpoint.old registration.now (stream_at endpoint.old registration.now.stream).domain) }
    ensures ok { OnOk result (endpoint.new ≡ kept_within endpoint.old registration.now
        (stream_at endpoint.old registration.now.stream).domain (Some registration.now.stream) (octets_in octets)) }
{
    let number = registration.stream;
    let base = registration.base;
    let rights = rights_of(registration.rights);
    if has_flag(registration.flags, numbers::DRAWN) {
        endpoint.register_octets_drawn_for(number, base, octets, rights, registration.drawn)
    } else {
        endpoint.register_octets_for(number, base, octets, rights)
    }
}

fn register_described(
    endpoint: &mut Endpoint,
    registration: &Registration,
    octets: RegionOctets,
) -> Result<Stag, (Refusal, RegionOctets)>
    requires { is_kept octets ≡ true }
    ensures refused { IfSome (described_refusal_within (most_octets (is_kept octets)) endpoint.old registration.now (length (octets_in octets)))
        (λ refusal. IfErr result (λ e. e.0 ≡ refusal) × IsErr result) }
    ensures memory { IfNone (described_refusal_within (most_octets (is_kept octets)) endpoint.old registration.now (length (octets_in octets)))
        (IfErr result (λ e. e.0 ≡ Refusal.NoMemory)) }
    ensures back { IfErr result (λ e. e.1 ≡ octets) }
    ensures err { OnErr result (endpoint.new ≡ endpoint.old) }
    ensures stag { IfOk result (λ stag. stag ≡ stag_as endpoint.old registration.now) }
    ensures ok { OnOk result (endpoint.new ≡ kept_as endpoint.old registration.now (octets_in octets)) }
{
    if has_flag(registration.flags, numbers::LIMITED) {
        match register_for(endpoint, registration, octets) {
            Ok(stag) => Ok(stag),
            Err((refusal, back)) => Err((limit_reason(refusal), back)),
        }
    } else {
        match register_in(endpoint, registration, octets) {
            Ok(stag) => Ok(stag),
            Err((refusal, back)) => Err((register_reason(refusal), back)),
        }
    }
}

// Registers the memory: none is left where it was.
fn register_this(
    endpoint: &mut Endpoint,
    registration: &Registration,
    memory: &mut Kept,
) -> Result<Stag, Refusal>
    // The first refusal that applies; if none does, only `NoMemory`.
    ensures refused { IfSome (refusal_to_keep_as endpoint.old registration.now (length memory.old.octets))
        (λ r. result ≡ Err r) }
    ensures memory { IfNone (refusal_to_keep_as endpoint.old registration.now (length memory.old.octets))
        (IfErr result (λ e. e ≡ Refusal.NoMemory)) }
    ensures stag { IfOk result (λ stag. stag ≡ stag_as endpoint.old registration.now) }
    ensures ok { OnOk result (endpoint.new ≡ kept_as endpoint.old registration.now memory.old.octets) }
    ensures taken { OnOk result (memory.new.octets ≡ []) }
    ensures err { OnErr result (endpoint.new ≡ endpoint.old) }
    ensures back { OnErr result (memory.new.octets ≡ memory.old.octets) }
{
    check_registration(registration)?;
    let these = RegionOctets::of_kept(std::mem::replace(memory, Kept::none()));
    match register_described(endpoint, registration, these) {
        Ok(stag) => Ok(stag),
        Err((refusal, back)) => {
            *memory = back.into_kept();
            Err(refusal)
        }
    }
}

// Takes a region out, and its memory with it.
fn deregister_this(endpoint: &mut Endpoint, stag: Stag, memory: &mut Kept) -> Result<(), Refusal>
    ensures refused { result_err result ≡ refusal_to_hand_back endpoint.old stag }
    ensures octets { OnOk result (Some memory.new.octets ≡ octets_of endpoint.old stag) }
    ensures ok { OnOk result (endpoint.new ≡ deregistered endpoint.old stag) }
    ensures err { OnErr result (endpoint.new ≡ endpoint.old) }
    ensures back { OnErr result (memory.new.octets ≡ memory.old.octets) }
{
    match endpoint.deregister_kept(stag) {
        Ok(octets) => {
            *memory = Kept::of_vec(octets);
            Ok(())
        }
        Err(refusal) => Err(deregister_reason(refusal)),
    }
}

impl Handle {
    /// Registers memory that the program keeps, as a struct describes it ([`Handle::register_as`]): nothing is copied. Until the
    /// program has it back, by [`Handle::deregister_memory`], it leaves the memory to the endpoint. It may have up to 2^46
    /// octets. An `Err` changes nothing. `NoMemory` comes only if no other refusal applies.
    pub fn register_memory(
        &mut self,
        alloc: Global,
        registration: &Registration,
        memory: &mut Kept,
    ) -> Result<Stag, Refusal>
        ensures refused { IfSome
            (refusal_in self.old.state (λ e. refusal_to_keep_as e registration.now (length memory.old.octets)))
            (λ r. result ≡ Err r) }
        ensures memory { IfNone
            (refusal_in self.old.state (λ e. refusal_to_keep_as e registration.now (length memory.old.octets)))
            (IfErr result (λ e. e ≡ Refusal.NoMemory)) }
        ensures stag { IfOk result (λ stag. Some stag ≡ told_in self.old.state (λ e. stag_as e registration.now)) }
        ensures ok { OnOk result
            (self.new.state ≡ changed self.old.state (λ e. kept_as e registration.now memory.old.octets)) }
        ensures taken { OnOk result (memory.new.octets ≡ []) }
        ensures err { OnErr result (self.new.state ≡ self.old.state) }
        ensures back { OnErr result (memory.new.octets ≡ memory.old.octets) }
    {
        let Some(mut held) = self.take(alloc) else {
            return Err(Refusal::Closed);
        };
        let done = register_this(&mut held.endpoint, registration, memory);
        self.put(held);
        done
    }

    /// Deregisters a region of memory that the program keeps, valid or not, and hands the memory back as it is. From then on the
    /// STag names nothing. `OtherMemory`: the octets are in a buffer of the library's. An `Err` changes nothing.
    pub fn deregister_memory(
        &mut self,
        alloc: Global,
        stag: Stag,
        memory: &mut Kept,
    ) -> Result<(), Refusal>
        ensures refused { result_err result ≡ refusal_in self.old.state (λ e. refusal_to_hand_back e stag) }
        ensures octets { OnOk result (Some memory.new.octets ≡ shown_in self.old.state (λ e. octets_of e stag)) }
        ensures ok { OnOk result (self.new.state ≡ changed self.old.state (λ e. deregistered e stag)) }
        ensures err { OnErr result (self.new.state ≡ self.old.state) }
        ensures back { OnErr result (memory.new.octets ≡ memory.old.octets) }
    {
        let Some(mut held) = self.take(alloc) else {
            return Err(Refusal::Closed);
        };
        let done = deregister_this(&mut held.endpoint, stag, memory);
        self.put(held);
        done
    }
}
