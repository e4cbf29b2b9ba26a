//! Regions that are limited to one stream.
ghost use Rattle.std.specs.Prelude.{◌≡◌, ◌≢◌, ◌⊎◌, pos, Some, [], length, IfSome, IfNone};
ghost use Rattle.iw_octets.specs.Stag.{number_of};
ghost use Rattle.iw_endpoint.specs.Endpoint.{limited};
ghost use Rattle.iw_handle.specs.StreamRegions.{refusal_to_limit, next_stag_at};
ghost use Rattle.iw_handle.specs.Refusals.{refusal_code};
ghost use Rattle.iw_handle.specs.State.{refusal_in, refusal_with, changed, told_in};
ghost use Rattle.iw_handle.specs.Words.{bits_refusal, rights_of};

use iw_buffer::Buffer;
use iw_handle::{Handle, code};
use std::alloc::Global;

/// Registers a copy of the octets for one stream. `stag` becomes the region's STag.
#[unsafe(no_mangle)]
pub extern "C" fn iwarp_register_for(
    alloc: Global,
    handle: &mut Handle,
    number: u32,
    base: u64,
    octets: &[u8],
    rights: u32,
    stag: &mut u32,
) -> i32
    // The code of the first refusal that applies, or of `NoMemory`.
    ensures refused { IfSome (refusal_in handle.old.state
        (λ e. refusal_to_limit e number base (length octets.now) rights))
        (λ r. (result ≡ pos 3) ⊎ (result ≡ pos (refusal_code r))) }
    ensures memory { IfNone (refusal_in handle.old.state
        (λ e. refusal_to_limit e number base (length octets.now) rights))
        ((result ≡ pos 0) ⊎ (result ≡ pos 3)) }
    ensures bits { IfSome (refusal_in handle.old.state (λ e. bits_refusal 16 rights))
        (λ r. result ≡ pos (refusal_code r)) }
    ensures stag { result ≡ pos 0 → Some stag.new ≡ told_in handle.old.state (λ e. number_of (next_stag_at e number)) }
    ensures ok { result ≡ pos 0 → handle.new.state ≡ changed handle.old.state
        (λ e. limited e number base octets.now (rights_of rights)) }
    ensures err { result ≢ pos 0 → handle.new.state ≡ handle.old.state }
    ensures kept { result ≢ pos 0 → stag.new ≡ stag.old }
{
    let done = handle.register_for(alloc, number, base, octets, rights);
    if let Ok(given) = done {
        *stag = given.into();
    }
    code(done.err())
}

/// Registers a buffer's octets themselves for one stream, and tells the STag.
#[unsafe(no_mangle)]
pub extern "C" fn iwarp_register_buffer_for(
    alloc: Global,
    handle: &mut Handle,
    number: u32,
    base: u64,
    buffer: &mut Buffer,
    rights: u32,
    stag: &mut u32,
) -> i32
    ensures refused { IfSome (refusal_with handle.old.state buffer.old.state
        (λ e octets. refusal_to_limit e number base (length octets) rights))
        (λ r. result ≡ pos (refusal_code r)) }
    ensures memory { IfNone (refusal_with handle.old.state buffer.old.state
        (λ e octets. refusal_to_limit e number base (length octets) rights))
        ((result ≡ pos 0) ⊎ (result ≡ pos 3)) }
    ensures stag { result ≡ pos 0 → Some stag.new ≡ told_in handle.old.state (λ e. number_of (next_stag_at e number)) }
    ensures untold { result ≢ pos 0 → stag.new ≡ stag.old }
    ensures ok { result ≡ pos 0 → IfSome buffer.old.state (λ octets. handle.new.state ≡ changed handle.old.state
        (λ e. limited e number base octets (rights_of rights))) }
    ensures taken { result ≡ pos 0 → buffer.new.state ≡ Some [] }
    ensures err { result ≢ pos 0 → handle.new.state ≡ handle.old.state }
    ensures back { result ≢ pos 0 → buffer.new.state ≡ buffer.old.state }
{
    let done = handle.register_buffer_for(alloc, number, base, buffer, rights);
    if let Ok(given) = done {
        *stag = given.into();
    }
    code(done.err())
}
