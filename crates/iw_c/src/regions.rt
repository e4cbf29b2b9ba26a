//! Calls on regions: register, deregister, store, load, and their facts.
ghost use Rattle.std.specs.Prelude.{◌≡◌, ◌≢◌, ◌⊎◌, pos, None, Some, length, IfSome, IfNone};
ghost use Rattle.std.specs.Option.{option_map};
ghost use Rattle.iw_octets.specs.Stag.{number_of, stag_of};
ghost use Rattle.iw_memory.specs.Table.{next_stag};
ghost use Rattle.iw_endpoint.specs.Endpoint.{registered, deregistered, invalidated, stored, octets_of, facts_at};
ghost use Rattle.iw_handle.specs.Events.{facts_of};
ghost use Rattle.iw_handle.specs.Refusals.{code_of, refusal_code};
ghost use Rattle.iw_handle.specs.Regions.{region_refusal, refusal_to_register, part_refusal, part_at};
ghost use Rattle.iw_handle.specs.State.{refusal_in, changed, told_in, shown_in, copy_refusal, filled, length_told};
ghost use Rattle.iw_handle.specs.Words.{domain_number, bits_refusal, rights_of};
ghost use Rattle.iw_handle.specs.declared.refusal.Refusal.TheVariants.{NoRegion};

use iw_handle::{Handle, RegionFacts, code, domain_number, facts_of, stag_of};
use std::alloc::Global;

/// Registers a copy of the octets. `stag` becomes the region's STag.
#[unsafe(no_mangle)]
pub extern "C" fn iwarp_register(
    alloc: Global,
    handle: &mut Handle,
    pd: u32,
    base: u64,
    octets: &[u8],
    rights: u32,
    stag: &mut u32,
) -> i32
    // The code of the first refusal that applies, or of `NoMemory`.
    ensures refused { IfSome (refusal_in handle.old.state
        (λ e. refusal_to_register e (domain_number pd) base (length octets.now) rights))
        (λ r. (result ≡ pos 3) ⊎ (result ≡ pos (refusal_code r))) }
    ensures memory { IfNone (refusal_in handle.old.state
        (λ e. refusal_to_register e (domain_number pd) base (length octets.now) rights))
        ((result ≡ pos 0) ⊎ (result ≡ pos 3)) }
    ensures bits { IfSome (refusal_in handle.old.state (λ e. bits_refusal 16 rights))
        (λ r. result ≡ pos (refusal_code r)) }
    ensures stag { result ≡ pos 0 → Some stag.new ≡ told_in handle.old.state
        (λ e. number_of (next_stag e.table (domain_number pd))) }
    ensures ok { result ≡ pos 0 → handle.new.state ≡ changed handle.old.state
        (λ e. registered e (domain_number pd) base octets.now (rights_of rights)) }
    ensures err { result ≢ pos 0 → handle.new.state ≡ handle.old.state }
    ensures kept { result ≢ pos 0 → stag.new ≡ stag.old }
{
    let done = handle.register(alloc, domain_number(pd), base, octets, rights);
    if let Ok(given) = done {
        *stag = given.into();
    }
    code(done.err())
}

/// Removes a region, valid or not, and copies its octets to the front of a buffer.
#[unsafe(no_mangle)]
pub extern "C" fn iwarp_deregister(
    alloc: Global,
    handle: &mut Handle,
    stag: u32,
    out: &mut [u8],
    len: &mut usize,
) -> i32
    ensures code { result ≡ pos (code_of
        (refusal_in handle.old.state (λ e. copy_refusal (octets_of e (stag_of stag)) NoRegion (length out.old)))) }
    ensures len { len.new ≡ length_told (shown_in handle.old.state (λ e. octets_of e (stag_of stag))) len.old }
    ensures octets { result ≡ pos 0 → out.new ≡ filled (shown_in handle.old.state (λ e. octets_of e (stag_of stag)))
        out.old }
    ensures kept { result ≢ pos 0 → out.new ≡ out.old }
    ensures ok { result ≡ pos 0 → handle.new.state ≡ changed handle.old.state (λ e. deregistered e (stag_of stag)) }
    ensures err { result ≢ pos 0 → handle.new.state ≡ handle.old.state }
{
    code(handle.deregister(alloc, stag_of(stag), out, len).err())
}

/// Deregisters a region, valid or not, and frees its octets.
#[unsafe(no_mangle)]
pub extern "C" fn iwarp_drop_region(alloc: Global, handle: &mut Handle, stag: u32) -> i32
    ensures code { result ≡ pos (code_of (refusal_in handle.old.state (λ e. region_refusal e (stag_of stag)))) }
    ensures ok { result ≡ pos 0 → handle.new.state ≡ changed handle.old.state (λ e. deregistered e (stag_of stag)) }
    ensures err { result ≢ pos 0 → handle.new.state ≡ handle.old.state }
{
    code(handle.drop_region(alloc, stag_of(stag)).err())
}

/// Makes a region invalid: peers can no longer use it. It stays registered.
#[unsafe(no_mangle)]
pub extern "C" fn iwarp_invalidate(alloc: Global, handle: &mut Handle, stag: u32) -> i32
    ensures code { result ≡ pos (code_of (refusal_in handle.old.state (λ e. region_refusal e (stag_of stag)))) }
    ensures ok { result ≡ pos 0 → handle.new.state ≡ changed handle.old.state (λ e. invalidated e (stag_of stag)) }
    ensures err { result ≢ pos 0 → handle.new.state ≡ handle.old.state }
{
    code(handle.invalidate(alloc, stag_of(stag)).err())
}

/// Writes octets into a region at tagged offset `to`.
#[unsafe(no_mangle)]
pub extern "C" fn iwarp_store(
    alloc: Global,
    handle: &mut Handle,
    stag: u32,
    to: u64,
    octets: &[u8],
) -> i32
    ensures code { result ≡ pos
        (code_of (refusal_in handle.old.state (λ e. part_refusal e (stag_of stag) to (length octets.now)))) }
    ensures ok { result ≡ pos 0 → handle.new.state ≡ changed handle.old.state
        (λ e. stored e (stag_of stag) to octets.now) }
    ensures err { result ≢ pos 0 → handle.new.state ≡ handle.old.state }
{
    code(handle.store(alloc, stag_of(stag), to, octets).err())
}

/// Reads a region's octets at tagged offset `to`, as many as fill the buffer.
#[unsafe(no_mangle)]
pub extern "C" fn iwarp_load(
    alloc: Global,
    handle: &mut Handle,
    stag: u32,
    to: u64,
    out: &mut [u8],
) -> i32
    ensures code { result ≡ pos
        (code_of (refusal_in handle.old.state (λ e. part_refusal e (stag_of stag) to (length out.old)))) }
    ensures ok { result ≡ pos 0 → Some out.new ≡ told_in handle.old.state
        (λ e. part_at e (stag_of stag) to (length out.old)) }
    ensures err { result ≢ pos 0 → out.new ≡ out.old }
    ensures same { handle.new.state ≡ handle.old.state }
{
    code(handle.load(alloc, stag_of(stag), to, out).err())
}

/// The address of a region's octets, valid or not, and how many they are.
#[unsafe(no_mangle)]
pub extern "C" fn iwarp_region_at(
    alloc: Global,
    handle: &mut Handle,
    stag: u32,
    at: &mut *mut u8,
    n: &mut usize,
) -> i32
    ensures code { result ≡ pos (code_of (refusal_in handle.old.state (λ e. region_refusal e (stag_of stag)))) }
    ensures len { result ≡ pos 0 → Some n.new ≡ option_map (λ octets. length octets)
        (shown_in handle.old.state (λ e. octets_of e (stag_of stag))) }
    ensures kept { result ≢ pos 0 → (at.new ≡ at.old) × (n.new ≡ n.old) }
    ensures same { handle.new.state ≡ handle.old.state }
{
    code(handle.region_at(alloc, stag_of(stag), at, n).err())
}

/// The facts of a region, valid or not.
#[unsafe(no_mangle)]
pub extern "C" fn iwarp_facts(
    alloc: Global,
    handle: &mut Handle,
    stag: u32,
    facts: &mut RegionFacts,
) -> i32
    ensures code { result ≡ pos (code_of (refusal_in handle.old.state (λ e. region_refusal e (stag_of stag)))) }
    ensures ok { result ≡ pos 0 → Some facts.new ≡ option_map facts_of
        (shown_in handle.old.state (λ e. facts_at e (stag_of stag))) }
    ensures err { result ≢ pos 0 → facts.new ≡ facts.old }
    ensures same { handle.new.state ≡ handle.old.state }
{
    let done = handle.facts(alloc, stag_of(stag));
    if let Ok(told) = done {
        *facts = facts_of(told);
    }
    code(done.err())
}
