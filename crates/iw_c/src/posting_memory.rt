//! Posting messages whose octets are in memory that the program keeps.
ghost use Rattle.std.specs.Prelude.{◌≡◌, ◌≢◌, ◌⊎◌, pos, [], IfSome, IfNone};
ghost use Rattle.iw_handle.specs.Refusals.{refusal_code};
ghost use Rattle.iw_handle.specs.Structs.{request_of, refusal_to_post_from};
ghost use Rattle.iw_handle.specs.State.{refusal_in};
ghost use Rattle.iw_handle.specs.Streams.{posted};

use iw_handle::{Handle, Posting, code};
use iw_kept::Kept;
use std::alloc::Global;

/// Posts a Send or a Write of octets in memory that the program keeps.
#[unsafe(no_mangle)]
pub extern "C" fn iwarp_post_memory(
    alloc: Global,
    handle: &mut Handle,
    number: u32,
    posting: &Posting,
    memory: &mut Kept,
) -> i32
    ensures refused { IfSome (refusal_in handle.old.state
        (λ e. refusal_to_post_from e number posting.now memory.old.octets))
        (λ r. result ≡ pos (refusal_code r)) }
    ensures memory { IfNone (refusal_in handle.old.state
        (λ e. refusal_to_post_from e number posting.now memory.old.octets))
        ((result ≡ pos 0) ⊎ (result ≡ pos 3)) }
    ensures ok { result ≡ pos 0 → handle.new.state ≡ posted handle.old.state number
        (request_of posting.now memory.old.octets) posting.now.token }
    ensures taken { result ≡ pos 0 → memory.new.octets ≡ [] }
    ensures err { result ≢ pos 0 → handle.new.state ≡ handle.old.state }
    ensures back { result ≢ pos 0 → memory.new.octets ≡ memory.old.octets }
{
    code(handle.post_memory(alloc, number, posting, memory).err())
}
