//! Calls on regions: register, deregister, store, load, and their facts.
ghost use Rattle.std.specs.Prelude.{◌≡◌, ◌⊎◌, None, Some, length, IfSome, IfOk, IfErr, IsErr, OnOk, OnErr};
ghost use Rattle.std.specs.Option.{option_map};
ghost use Rattle.std.specs.Result.{result_err, result_ok};
ghost use Rattle.iw_memory.specs.Table.{next_stag};
ghost use Rattle.iw_endpoint.specs.Endpoint.{registered, deregistered, invalidated, stored, octets_of, facts_at};
ghost use Rattle.iw_handle.specs.Regions.{region_refusal, refusal_to_register, part_refusal, part_at};
ghost use Rattle.iw_handle.specs.Words.{bits_refusal, rights_of};
ghost use Rattle.iw_handle.specs.State.{refusal_in, changed, told_in, shown_in, copy_refusal, filled, length_told};

use crate::copying::copy_out;
use crate::handle::Handle;
use crate::refusal::{Refusal, register_reason, store_reason};
use crate::words::{check_bits, rights_of};
use iw_endpoint::{Endpoint, Facts, RegisterRefusal, Stag};
use std::alloc::Global;
use std::ptr::{NonNull, null_mut};

// Registers a copy of the octets.
fn register_copy(
    endpoint: &mut Endpoint,
    alloc: Global,
    pd: u8,
    base: u64,
    octets: &[u8],
    rights: u32,
) -> Result<Stag, Refusal>
    ensures refused { IfSome (refusal_to_register endpoint.old pd base (length octets.now) rights) (λ _. IsErr result) }
    ensures why { IfErr result
        (λ e. (e ≡ Refusal.NoMemory) ⊎ (refusal_to_register endpoint.old pd base (length octets.now) rights ≡ Some e)) }
    ensures bits { IfSome (bits_refusal 16 rights) (λ r. result ≡ Err r) }
    ensures stag { IfOk result (λ stag. stag ≡ next_stag endpoint.old.table pd) }
    ensures ok { OnOk result (endpoint.new ≡ registered endpoint.old pd base octets.now (rights_of rights)) }
    ensures err { OnErr result (endpoint.new ≡ endpoint.old) }
{
    check_bits(16, rights)?;
    let Ok(copy) = Vec::from_slice(alloc, octets) else {
        return Err(Refusal::NoMemory);
    };
    match endpoint.register(pd, base, copy, rights_of(rights)) {
        Ok(stag) => Ok(stag),
        Err((RegisterRefusal::NoMemory, _)) => Err(Refusal::NoMemory),
        Err((refusal, _)) => Err(register_reason(refusal)),
    }
}

// Copies a region's octets to the front of a buffer.
fn copy_region(
    endpoint: &Endpoint,
    stag: Stag,
    out: &mut [u8],
    len: &mut usize,
) -> Result<(), Refusal>
    ensures refused { result_err result ≡ copy_refusal (octets_of endpoint.now stag) Refusal.NoRegion (length out.old) }
    ensures len { len.new ≡ length_told (octets_of endpoint.now stag) len.old }
    ensures ok { OnOk result (out.new ≡ filled (octets_of endpoint.now stag) out.old) }
    ensures err { OnErr result (out.new ≡ out.old) }
{
    match endpoint.local(stag) {
        Some(octets) => copy_out(octets, out, len),
        None => Err(Refusal::NoRegion),
    }
}

// Removes a region, if there is room for its octets.
fn take_region(
    endpoint: &mut Endpoint,
    stag: Stag,
    out: &mut [u8],
    len: &mut usize,
) -> Result<(), Refusal>
    ensures refused { result_err result ≡ copy_refusal (octets_of endpoint.old stag) Refusal.NoRegion (length out.old) }
    ensures len { len.new ≡ length_told (octets_of endpoint.old stag) len.old }
    ensures octets { OnOk result (out.new ≡ filled (octets_of endpoint.old stag) out.old) }
    ensures kept { OnErr result (out.new ≡ out.old) }
    ensures ok { OnOk result (endpoint.new ≡ deregistered endpoint.old stag) }
    ensures err { OnErr result (endpoint.new ≡ endpoint.old) }
{
    copy_region(endpoint, stag, out, len)?;
    let _ = endpoint.take_region(stag);
    Ok(())
}

// Copies the octets of a part of a region.
fn copy_part(endpoint: &Endpoint, stag: Stag, to: u64, out: &mut [u8]) -> Result<(), Refusal>
    ensures refused { result_err result ≡ part_refusal endpoint.now stag to (length out.old) }
    ensures ok { OnOk result (out.new ≡ part_at endpoint.now stag to (length out.old)) }
    ensures err { OnErr result (out.new ≡ out.old) }
{
    let Some(facts) = endpoint.facts(stag) else {
        return Err(Refusal::NoRegion);
    };
    let Some(octets) = endpoint.local(stag) else {
        return Err(Refusal::NoRegion);
    };
    if to < facts.base || to - facts.base > octets.len() as u64 {
        return Err(Refusal::Outside);
    }
    let rest = &octets[(to - facts.base) as usize..];
    let n = out.len();
    if n > rest.len() {
        return Err(Refusal::Outside);
    }
    out.copy_from_slice(&rest[..n]);
    Ok(())
}

// The address of a region's octets, and how many they are.
fn place_of(
    endpoint: &Endpoint,
    stag: Stag,
    at: &mut *mut u8,
    len: &mut usize,
) -> Result<(), Refusal>
    ensures refused { result_err result ≡ region_refusal endpoint.now stag }
    ensures len { OnOk result (Some len.new ≡ option_map (λ octets. length octets) (octets_of endpoint.now stag)) }
    ensures kept { OnErr result ((at.new ≡ at.old) × (len.new ≡ len.old)) }
{
    let Some(octets) = endpoint.local(stag) else {
        return Err(Refusal::NoRegion);
    };
    *len = octets.len();
    *at = match octets.first() {
        Some(first) => NonNull::from_ref(first).as_ptr(),
        None => null_mut(),
    };
    Ok(())
}

impl Handle {
    /// Registers a copy of the octets ([`Endpoint::register`]). `rights` is a sum of 1 (write), 2 (read), 4 (sink) and 8
    /// (invalidate); `BadBits` means that it has another bit. An `Err` changes nothing. `NoMemory` may come in place of a
    /// refusal of the endpoint's, since the copy is made first.
    pub fn register(
        &mut self,
        alloc: Global,
        pd: u8,
        base: u64,
        octets: &[u8],
        rights: u32,
    ) -> Result<Stag, Refusal>
        // The first refusal that applies, or `NoMemory`.
        ensures refused { IfSome
            (refusal_in self.old.state (λ e. refusal_to_register e pd base (length octets.now) rights))
            (λ _. IsErr result) }
        ensures why { IfErr result (λ e. (e ≡ Refusal.NoMemory) ⊎
            (refusal_in self.old.state (λ e. refusal_to_register e pd base (length octets.now) rights) ≡ Some e)) }
        ensures bits { IfSome (refusal_in self.old.state (λ e. bits_refusal 16 rights)) (λ r. result ≡ Err r) }
        ensures stag { IfOk result (λ stag. Some stag ≡ told_in self.old.state (λ e. next_stag e.table pd)) }
        ensures ok { OnOk result
            (self.new.state ≡ changed self.old.state (λ e. registered e pd base octets.now (rights_of rights))) }
        ensures err { OnErr result (self.new.state ≡ self.old.state) }
    {
        let Some(mut held) = self.take(alloc) else {
            return Err(Refusal::Closed);
        };
        let done = register_copy(&mut held.endpoint, alloc, pd, base, octets, rights);
        self.put(held);
        done
    }

    /// Removes a region, valid or not, and copies its octets to the front of a buffer. `len` becomes their number, even
    /// if they do not fit (`NoRoom`). An `Err` changes nothing else.
    pub fn deregister(
        &mut self,
        alloc: Global,
        stag: Stag,
        out: &mut [u8],
        len: &mut usize,
    ) -> Result<(), Refusal>
        ensures refused { result_err result ≡ refusal_in self.old.state
            (λ e. copy_refusal (octets_of e stag) Refusal.NoRegion (length out.old)) }
        ensures len { len.new ≡ length_told (shown_in self.old.state (λ e. octets_of e stag)) len.old }
        ensures octets { OnOk result (out.new ≡ filled (shown_in self.old.state (λ e. octets_of e stag)) out.old) }
        ensures kept { OnErr result (out.new ≡ out.old) }
        ensures ok { OnOk result (self.new.state ≡ changed self.old.state (λ e. deregistered e stag)) }
        ensures err { OnErr result (self.new.state ≡ self.old.state) }
    {
        let Some(mut held) = self.take(alloc) else {
            return Err(Refusal::Closed);
        };
        let done = take_region(&mut held.endpoint, stag, out, len);
        self.put(held);
        done
    }

    /// Deregisters a region, valid or not, and frees its octets. An `Err` changes nothing.
    pub fn drop_region(&mut self, alloc: Global, stag: Stag) -> Result<(), Refusal>
        ensures refused { result_err result ≡ refusal_in self.old.state (λ e. region_refusal e stag) }
        ensures ok { OnOk result (self.new.state ≡ changed self.old.state (λ e. deregistered e stag)) }
        ensures err { OnErr result (self.new.state ≡ self.old.state) }
    {
        let Some(mut held) = self.take(alloc) else {
            return Err(Refusal::Closed);
        };
        let done = held.endpoint.take_region(stag);
        self.put(held);
        match done {
            Ok(_) => Ok(()),
            Err(_) => Err(Refusal::NoRegion),
        }
    }

    /// Makes a region invalid: peers can no longer use it. It stays registered. An `Err` changes nothing.
    pub fn invalidate(&mut self, alloc: Global, stag: Stag) -> Result<(), Refusal>
        ensures refused { result_err result ≡ refusal_in self.old.state (λ e. region_refusal e stag) }
        ensures ok { OnOk result (self.new.state ≡ changed self.old.state (λ e. invalidated e stag)) }
        ensures err { OnErr result (self.new.state ≡ self.old.state) }
    {
        let Some(mut held) = self.take(alloc) else {
            return Err(Refusal::Closed);
        };
        let done = held.endpoint.invalidate(stag);
        self.put(held);
        match done {
            Ok(()) => Ok(()),
            Err(_) => Err(Refusal::NoRegion),
        }
    }

    /// Writes octets into a region at tagged offset `to`, valid or not. An `Err` changes nothing.
    pub fn store(
        &mut self,
        alloc: Global,
        stag: Stag,
        to: u64,
        octets: &[u8],
    ) -> Result<(), Refusal>
        ensures refused { result_err result ≡ refusal_in self.old.state
            (λ e. part_refusal e stag to (length octets.now)) }
        ensures ok { OnOk result (self.new.state ≡ changed self.old.state (λ e. stored e stag to octets.now)) }
        ensures err { OnErr result (self.new.state ≡ self.old.state) }
    {
        let Some(mut held) = self.take(alloc) else {
            return Err(Refusal::Closed);
        };
        let done = held.endpoint.store(stag, to, octets);
        self.put(held);
        match done {
            Ok(()) => Ok(()),
            Err(refusal) => Err(store_reason(refusal)),
        }
    }

    /// Reads a region's octets at tagged offset `to`, as many as fill the buffer. An `Err` leaves the buffer as it was.
    pub fn load(
        &mut self,
        alloc: Global,
        stag: Stag,
        to: u64,
        out: &mut [u8],
    ) -> Result<(), Refusal>
        ensures refused { result_err result ≡ refusal_in self.old.state (λ e. part_refusal e stag to (length out.old)) }
        ensures ok { OnOk result (Some out.new ≡ told_in self.old.state (λ e. part_at e stag to (length out.old))) }
        ensures err { OnErr result (out.new ≡ out.old) }
        ensures same { self.new.state ≡ self.old.state }
    {
        let Some(held) = self.take(alloc) else {
            return Err(Refusal::Closed);
        };
        let done = copy_part(&held.endpoint, stag, to, out);
        self.put(held);
        done
    }

    /// The address of a region's octets, valid or not, and how many they are. Their owner may read and write them there
    /// between calls, until the region is deregistered. The address is null if there are none; no clause says which address it
    /// is. An `Err` writes nothing.
    pub fn region_at(
        &mut self,
        alloc: Global,
        stag: Stag,
        at: &mut *mut u8,
        len: &mut usize,
    ) -> Result<(), Refusal>
        ensures refused { result_err result ≡ refusal_in self.old.state (λ e. region_refusal e stag) }
        ensures len { OnOk result (Some len.new ≡ option_map (λ octets. length octets)
            (shown_in self.old.state (λ e. octets_of e stag))) }
        ensures kept { OnErr result ((at.new ≡ at.old) × (len.new ≡ len.old)) }
        ensures same { self.new.state ≡ self.old.state }
    {
        let Some(held) = self.take(alloc) else {
            return Err(Refusal::Closed);
        };
        let done = place_of(&held.endpoint, stag, at, len);
        self.put(held);
        done
    }

    /// The facts of a region, valid or not.
    pub fn facts(&mut self, alloc: Global, stag: Stag) -> Result<Facts, Refusal>
        ensures refused { result_err result ≡ refusal_in self.old.state (λ e. region_refusal e stag) }
        ensures facts { result_ok result ≡ shown_in self.old.state (λ e. facts_at e stag) }
        ensures same { self.new.state ≡ self.old.state }
    {
        let Some(held) = self.take(alloc) else {
            return Err(Refusal::Closed);
        };
        let facts = held.endpoint.facts(stag);
        self.put(held);
        match facts {
            Some(facts) => Ok(facts),
            None => Err(Refusal::NoRegion),
        }
    }
}
