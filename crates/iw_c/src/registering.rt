//! Registering a region that a struct describes.
ghost use Rattle.std.specs.Prelude.{◌≡◌, ◌≢◌, ◌⊎◌, pos, Some, [], length, IfSome, IfNone};
ghost use Rattle.iw_octets.specs.Stag.{number_of};
ghost use Rattle.iw_handle.specs.Refusals.{refusal_code};
ghost use Rattle.iw_handle.specs.Registering.{registration_refusal, refusal_to_register_as, stag_as, registered_as};
ghost use Rattle.iw_handle.specs.State.{refusal_in, refusal_with, changed, told_in};

use iw_buffer::Buffer;
use iw_handle::{Handle, Registration, code};
use std::alloc::Global;

/// Registers a copy of the octets, in a domain or for one stream. `stag` becomes the region's STag, a drawn one or the next.
#[unsafe(no_mangle)]
pub extern "C" fn iwarp_register_as(
    alloc: Global,
    handle: &mut Handle,
    registration: &Registration,
    octets: &[u8],
    stag: &mut u32,
) -> i32
    // The code of the first refusal that applies, or of `NoMemory`.
    ensures refused { IfSome (refusal_in handle.old.state
        (λ e. refusal_to_register_as e registration.now (length octets.now)))
        (λ r. (result ≡ pos 3) ⊎ (result ≡ pos (refusal_code r))) }
    ensures memory { IfNone (refusal_in handle.old.state
        (λ e. refusal_to_register_as e registration.now (length octets.now)))
        ((result ≡ pos 0) ⊎ (result ≡ pos 3)) }
    ensures bad { IfSome (refusal_in handle.old.state (λ e. registration_refusal registration.now))
        (λ r. result ≡ pos (refusal_code r)) }
    ensures stag { result ≡ pos 0 → Some stag.new ≡ told_in handle.old.state
        (λ e. number_of (stag_as e registration.now)) }
    ensures ok { result ≡ pos 0 → handle.new.state ≡ changed handle.old.state
        (λ e. registered_as e registration.now octets.now) }
    ensures err { result ≢ pos 0 → handle.new.state ≡ handle.old.state }
    ensures kept { result ≢ pos 0 → stag.new ≡ stag.old }
{
    let done = handle.register_as(alloc, registration, octets);
    if let Ok(given) = done {
        *stag = given.into();
    }
    code(done.err())
}

/// Registers a buffer's octets themselves, in a domain or for one stream, and tells the STag.
#[unsafe(no_mangle)]
pub extern "C" fn iwarp_register_buffer_as(
    alloc: Global,
    handle: &mut Handle,
    registration: &Registration,
    buffer: &mut Buffer,
    stag: &mut u32,
) -> i32
    ensures refused { IfSome (refusal_with handle.old.state buffer.old.state
        (λ e octets. refusal_to_register_as e registration.now (length octets)))
        (λ r. result ≡ pos (refusal_code r)) }
    ensures memory { IfNone (refusal_with handle.old.state buffer.old.state
        (λ e octets. refusal_to_register_as e registration.now (length octets)))
        ((result ≡ pos 0) ⊎ (result ≡ pos 3)) }
    ensures stag { result ≡ pos 0 → Some stag.new ≡ told_in handle.old.state
        (λ e. number_of (stag_as e registration.now)) }
    ensures untold { result ≢ pos 0 → stag.new ≡ stag.old }
    ensures ok { result ≡ pos 0 → IfSome buffer.old.state (λ octets. handle.new.state ≡ changed handle.old.state
        (λ e. registered_as e registration.now octets)) }
    ensures taken { result ≡ pos 0 → buffer.new.state ≡ Some [] }
    ensures err { result ≢ pos 0 → handle.new.state ≡ handle.old.state }
    ensures back { result ≢ pos 0 → buffer.new.state ≡ buffer.old.state }
{
    let done = handle.register_buffer_as(alloc, registration, buffer);
    if let Ok(given) = done {
        *stag = given.into();
    }
    code(done.err())
}
