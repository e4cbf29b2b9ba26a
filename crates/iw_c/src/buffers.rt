//! Buffers that C keeps, and octets that change hands with no copy.
ghost use Rattle.std.specs.Prelude.{◌≡◌, ◌≢◌, ◌⊎◌, ◌++◌, ◌≤◌, pos, None, Some, [], length, take, drop, IfSome, IfNone};
ghost use Rattle.std.specs.Option.{option_map};
ghost use Rattle.std.specs.Result.{result_err};
ghost use Rattle.iw_buffer.specs.Octets.{buffer_refusal, zeroes};
ghost use Rattle.iw_octets.specs.Stag.{number_of, stag_of};
ghost use Rattle.iw_memory.specs.Table.{next_stag};
ghost use Rattle.iw_endpoint.specs.Endpoint.{registered, deregistered, octets_of};
ghost use Rattle.iw_endpoint.specs.Endpoint.{emission_at, emitted_at, after_emit};
ghost use Rattle.iw_handle.specs.Events.{emitted_of, IsFrame};
ghost use Rattle.iw_handle.specs.Filling.{FillsAt, TakesMemoryForReadsAt};
ghost use Rattle.iw_handle.specs.Refusals.{buffer_reason, code_of, refusal_code};
ghost use Rattle.iw_handle.specs.KeptRegions.{refusal_to_move};
ghost use Rattle.iw_handle.specs.Regions.{refusal_to_register};
ghost use Rattle.iw_handle.specs.State.{called_on, refusal_with, changed, told_in, shown_in};
ghost use Rattle.iw_handle.specs.Streams.{refusal_to_go_on};
ghost use Rattle.iw_handle.specs.Words.{domain_number, rights_of};

use iw_buffer::{Buffer, BufferRefusal};
use iw_handle::{Emitted, Filling, Handle, buffer_reason, code, domain_number, stag_of};
use std::alloc::Global;

// The code of a call on a buffer.
fn buffer_code(done: Result<(), BufferRefusal>) -> i32
    ensures code { result ≡ pos (code_of (option_map buffer_reason (result_err done))) }
{
    match done {
        Ok(()) => 0,
        Err(refusal) => code(Some(buffer_reason(refusal))),
    }
}

/// Makes a buffer of `n` zero octets.
#[unsafe(no_mangle)]
pub extern "C" fn iwarp_buffer_new(alloc: Global, n: usize, buffer: &mut Buffer) -> i32
    ensures made { IfSome buffer.old.state (λ _. result ≡ pos 32) }
    ensures why { buffer.old.state ≡ None → (result ≡ pos 0) ⊎ (result ≡ pos 3) }
    ensures ok { result ≡ pos 0 → buffer.new.state ≡ Some (zeroes n) }
    ensures room { result ≡ pos 0 → n ≤ buffer.new.room }
    ensures err { result ≢ pos 0 → buffer.new.state ≡ buffer.old.state }
{
    buffer_code(buffer.make(alloc, n))
}

/// Frees what a buffer has. Without a buffer it does nothing.
#[unsafe(no_mangle)]
pub extern "C" fn iwarp_buffer_free(alloc: Global, buffer: &mut Buffer)
    ensures { buffer.new.state ≡ None }
{
    buffer.free(alloc);
}

/// Tells where a buffer's octets stand, and how many they are.
#[unsafe(no_mangle)]
pub extern "C" fn iwarp_buffer_at(
    alloc: Global,
    buffer: &mut Buffer,
    at: &mut *mut u8,
    n: &mut usize,
) -> i32
    ensures code { result ≡ pos (code_of (option_map buffer_reason (buffer_refusal buffer.old.state))) }
    ensures len { result ≡ pos 0 → Some n.new ≡ option_map (λ octets. length octets) buffer.old.state }
    ensures kept { result ≢ pos 0 → (at.new ≡ at.old) × (n.new ≡ n.old) }
    ensures same { buffer.new.state ≡ buffer.old.state }
    ensures room { result ≡ pos 0 → buffer.new.room ≡ buffer.old.room }
{
    buffer_code(buffer.address(alloc, at, n))
}

/// Keeps the first `n` octets of a buffer.
#[unsafe(no_mangle)]
pub extern "C" fn iwarp_buffer_truncate(alloc: Global, buffer: &mut Buffer, n: usize) -> i32
    ensures code { result ≡ pos (code_of (option_map buffer_reason (buffer_refusal buffer.old.state))) }
    ensures after { buffer.new.state ≡ option_map (λ octets. take n octets) buffer.old.state }
    ensures room { result ≡ pos 0 → buffer.old.room ≤ buffer.new.room }
{
    buffer_code(buffer.truncate(alloc, n))
}

/// Drops the first `n` octets of a buffer.
#[unsafe(no_mangle)]
pub extern "C" fn iwarp_buffer_drop_front(alloc: Global, buffer: &mut Buffer, n: usize) -> i32
    ensures code { result ≡ pos (code_of (option_map buffer_reason (buffer_refusal buffer.old.state))) }
    ensures after { buffer.new.state ≡ option_map (λ octets. drop n octets) buffer.old.state }
    ensures room { result ≡ pos 0 → buffer.old.room ≤ buffer.new.room }
{
    buffer_code(buffer.drop_front(alloc, n))
}

/// Registers a buffer's octets themselves, and tells the STag.
#[unsafe(no_mangle)]
pub extern "C" fn iwarp_register_buffer(
    alloc: Global,
    handle: &mut Handle,
    pd: u32,
    base: u64,
    buffer: &mut Buffer,
    rights: u32,
    stag: &mut u32,
) -> i32
    ensures refused { IfSome (refusal_with handle.old.state buffer.old.state
        (λ e octets. refusal_to_register e (domain_number pd) base (length octets) rights))
        (λ r. result ≡ pos (refusal_code r)) }
    ensures memory { IfNone (refusal_with handle.old.state buffer.old.state
        (λ e octets. refusal_to_register e (domain_number pd) base (length octets) rights))
        ((result ≡ pos 0) ⊎ (result ≡ pos 3)) }
    ensures stag { result ≡ pos 0 → Some stag.new ≡ told_in handle.old.state
        (λ e. number_of (next_stag e.table (domain_number pd))) }
    ensures untold { result ≢ pos 0 → stag.new ≡ stag.old }
    ensures ok { result ≡ pos 0 → IfSome buffer.old.state (λ octets. handle.new.state ≡ changed handle.old.state
        (λ e. registered e (domain_number pd) base octets (rights_of rights))) }
    ensures taken { result ≡ pos 0 → buffer.new.state ≡ Some [] }
    ensures err { result ≢ pos 0 → handle.new.state ≡ handle.old.state }
    ensures back { result ≢ pos 0 → buffer.new.state ≡ buffer.old.state }
{
    let done = handle.register_buffer(alloc, domain_number(pd), base, buffer, rights);
    if let Ok(given) = done {
        *stag = given.into();
    }
    code(done.err())
}

/// Takes a region out, valid or not: its octets are the buffer's then.
#[unsafe(no_mangle)]
pub extern "C" fn iwarp_deregister_buffer(
    alloc: Global,
    handle: &mut Handle,
    stag: u32,
    buffer: &mut Buffer,
) -> i32
    ensures code { result ≡ pos (code_of (refusal_with handle.old.state buffer.old.state
        (λ e octets. refusal_to_move e (stag_of stag)))) }
    ensures octets { result ≡ pos 0 → buffer.new.state ≡ shown_in handle.old.state (λ e. octets_of e (stag_of stag)) }
    ensures ok { result ≡ pos 0 → handle.new.state ≡ changed handle.old.state (λ e. deregistered e (stag_of stag)) }
    ensures err { result ≢ pos 0 → handle.new.state ≡ handle.old.state }
    ensures back { result ≢ pos 0 → buffer.new.state ≡ buffer.old.state }
{
    code(handle.deregister_buffer(alloc, stag_of(stag), buffer).err())
}

/// Emits what is due at a stream behind what stands in a buffer, and tells it in numbers.
#[unsafe(no_mangle)]
pub extern "C" fn iwarp_emit_onto(
    alloc: Global,
    handle: &mut Handle,
    number: u32,
    buffer: &mut Buffer,
    emitted: &mut Emitted,
) -> i32
    ensures refused { IfSome (refusal_with (called_on handle.old.state number) buffer.old.state
        (λ e octets. refusal_to_go_on e number)) (λ r. result ≡ pos (refusal_code r)) }
    ensures memory { IfNone (refusal_with (called_on handle.old.state number) buffer.old.state
        (λ e octets. refusal_to_go_on e number)) ((result ≡ pos 0) ⊎ (result ≡ pos 3)) }
    ensures want { result ≡ pos 3 → IfSome (called_on handle.old.state number)
        (λ held. IsFrame (emission_at held.endpoint number)) }
    ensures room { result ≡ pos 3 →
        TakesMemoryForReadsAt (called_on handle.old.state number) number buffer.old.state buffer.old.room }
    ensures emitted { result ≡ pos 0 → Some emitted.new ≡ told_in (called_on handle.old.state number)
        (λ e. emitted_of (emission_at e number)) }
    ensures untold { result ≢ pos 0 → emitted.new ≡ emitted.old }
    ensures octets { result ≡ pos 0 → IfSome buffer.old.state (λ octets.
        buffer.new.state ≡ told_in (called_on handle.old.state number) (λ e. octets ++ emitted_at e number)) }
    ensures ok { result ≡ pos 0 → handle.new.state ≡ changed (called_on handle.old.state number)
        (λ e. after_emit e number) }
    ensures err { result ≢ pos 0 → handle.new.state ≡ called_on handle.old.state number }
    ensures back { result ≢ pos 0 → buffer.new.state ≡ buffer.old.state }
{
    let done = handle.emit_onto(alloc, number, buffer);
    if let Ok(told) = done {
        *emitted = told;
    }
    code(done.err())
}

/// Emits frames of a stream behind what stands in a buffer, at most `most` octets but for a first frame that is longer, and
/// tells in numbers where that stops.
#[unsafe(no_mangle)]
pub extern "C" fn iwarp_fill(
    alloc: Global,
    handle: &mut Handle,
    number: u32,
    most: usize,
    buffer: &mut Buffer,
    filling: &mut Filling,
) -> i32
    ensures refused { IfSome (refusal_with (called_on handle.old.state number) buffer.old.state
        (λ e octets. refusal_to_go_on e number)) (λ r. result ≡ pos (refusal_code r)) }
    ensures memory { IfNone (refusal_with (called_on handle.old.state number) buffer.old.state
        (λ e octets. refusal_to_go_on e number)) ((result ≡ pos 0) ⊎ (result ≡ pos 3)) }
    ensures room { result ≡ pos 3 →
        TakesMemoryForReadsAt (called_on handle.old.state number) number buffer.old.state buffer.old.room }
    ensures ok { result ≡ pos 0 → IfSome (called_on handle.old.state number) (λ held. IfSome buffer.old.state
        (λ octets. FillsAt held number most octets buffer.new.room handle.new.state buffer.new.state filling.new)) }
    ensures untold { result ≢ pos 0 → filling.new ≡ filling.old }
    ensures err { result ≢ pos 0 → handle.new.state ≡ called_on handle.old.state number }
    ensures back { result ≢ pos 0 → buffer.new.state ≡ buffer.old.state }
{
    let done = handle.fill(alloc, number, most, buffer);
    if let Ok(told) = done {
        *filling = told;
    }
    code(done.err())
}
