//! Regions of memory that the program keeps.
ghost use Rattle.std.specs.Prelude.{◌≡◌, ◌≢◌, ◌⊎◌, pos, Some, [], length, IfSome, IfNone};
ghost use Rattle.iw_octets.specs.Stag.{number_of, stag_of};
ghost use Rattle.iw_endpoint.specs.Endpoint.{deregistered, octets_of};
ghost use Rattle.iw_handle.specs.KeptRegions.{kept_as, refusal_to_keep_as, refusal_to_hand_back};
ghost use Rattle.iw_handle.specs.Refusals.{code_of, refusal_code};
ghost use Rattle.iw_handle.specs.Registering.{stag_as};
ghost use Rattle.iw_handle.specs.State.{refusal_in, changed, told_in, shown_in};

use iw_handle::{Handle, Registration, code, stag_of};
use iw_kept::Kept;
use std::alloc::Global;

/// Registers memory that the program keeps, in a domain or for one stream, and tells the STag.
#[unsafe(no_mangle)]
pub extern "C" fn iwarp_register_memory(
    alloc: Global,
    handle: &mut Handle,
    registration: &Registration,
    memory: &mut Kept,
    stag: &mut u32,
) -> i32
    ensures refused { IfSome (refusal_in handle.old.state
        (λ e. refusal_to_keep_as e registration.now (length memory.old.octets)))
        (λ r. result ≡ pos (refusal_code r)) }
    ensures memory { IfNone (refusal_in handle.old.state
        (λ e. refusal_to_keep_as e registration.now (length memory.old.octets)))
        ((result ≡ pos 0) ⊎ (result ≡ pos 3)) }
    ensures stag { result ≡ pos 0 → Some stag.new ≡ told_in handle.old.state
        (λ e. number_of (stag_as e registration.now)) }
    ensures untold { result ≢ pos 0 → stag.new ≡ stag.old }
    ensures ok { result ≡ pos 0 → handle.new.state ≡ changed handle.old.state
        (λ e. kept_as e registration.now memory.old.octets) }
    ensures taken { result ≡ pos 0 → memory.new.octets ≡ [] }
    ensures err { result ≢ pos 0 → handle.new.state ≡ handle.old.state }
    ensures back { result ≢ pos 0 → memory.new.octets ≡ memory.old.octets }
{
    let done = handle.register_memory(alloc, registration, memory);
    if let Ok(given) = done {
        *stag = given.into();
    }
    code(done.err())
}

/// Takes a region out, valid or not, whose memory the program keeps, and hands that back.
#[unsafe(no_mangle)]
pub extern "C" fn iwarp_deregister_memory(
    alloc: Global,
    handle: &mut Handle,
    stag: u32,
    memory: &mut Kept,
) -> i32
    ensures code { result ≡ pos (code_of (refusal_in handle.old.state (λ e. refusal_to_hand_back e (stag_of stag)))) }
    ensures octets { result ≡ pos 0 → Some memory.new.octets ≡ shown_in handle.old.state
        (λ e. octets_of e (stag_of stag)) }
    ensures ok { result ≡ pos 0 → handle.new.state ≡ changed handle.old.state (λ e. deregistered e (stag_of stag)) }
    ensures err { result ≢ pos 0 → handle.new.state ≡ handle.old.state }
    ensures back { result ≢ pos 0 → memory.new.octets ≡ memory.old.octets }
{
    code(handle.deregister_memory(alloc, stag_of(stag), memory).err())
}
