//! Posting a message that a struct describes.
ghost use Rattle.std.specs.Prelude.{◌≡◌, ◌≢◌, ◌⊎◌, pos, Some, [], IfSome, IfNone};
ghost use Rattle.iw_handle.specs.Refusals.{refusal_code};
ghost use Rattle.iw_handle.specs.Sending.{posted_from, HasKeptIn};
ghost use Rattle.iw_handle.specs.Structs.{posting_refusal, posting_from_refusal, request_of};
ghost use Rattle.iw_handle.specs.Structs.{refusal_to_post_as, refusal_to_post_from};
ghost use Rattle.iw_handle.specs.State.{refusal_in, refusal_with};
ghost use Rattle.iw_handle.specs.Streams.{posted};

use iw_buffer::Buffer;
use iw_handle::{Handle, Posting, code};
use std::alloc::Global;

/// Posts a Send or a Write of a copy of the octets, or a Read.
#[unsafe(no_mangle)]
pub extern "C" fn iwarp_post(
    alloc: Global,
    handle: &mut Handle,
    number: u32,
    posting: &Posting,
    octets: &[u8],
) -> i32
    // The code of the first refusal that applies, or of `NoMemory`.
    ensures refused { IfSome (refusal_in handle.old.state
        (λ e. refusal_to_post_as e number posting.now octets.now))
        (λ r. (result ≡ pos 3) ⊎ (result ≡ pos (refusal_code r))) }
    ensures memory { IfNone (refusal_in handle.old.state
        (λ e. refusal_to_post_as e number posting.now octets.now))
        ((result ≡ pos 0) ⊎ (result ≡ pos 3)) }
    ensures bad { IfSome (refusal_in handle.old.state (λ e. posting_refusal posting.now))
        (λ r. result ≡ pos (refusal_code r)) }
    ensures ok { result ≡ pos 0 → handle.new.state ≡
        posted handle.old.state number (request_of posting.now octets.now) posting.now.token }
    ensures err { result ≢ pos 0 → handle.new.state ≡ handle.old.state }
{
    code(handle.post(alloc, number, posting, octets).err())
}

/// Posts a Send or a Write of a buffer's octets themselves.
#[unsafe(no_mangle)]
pub extern "C" fn iwarp_post_buffer(
    alloc: Global,
    handle: &mut Handle,
    number: u32,
    posting: &Posting,
    buffer: &mut Buffer,
) -> i32
    // The code of the first refusal that applies, or of `NoMemory`.
    ensures refused { IfSome (refusal_with handle.old.state buffer.old.state
        (λ e octets. refusal_to_post_from e number posting.now octets))
        (λ r. (result ≡ pos 3) ⊎ (result ≡ pos (refusal_code r))) }
    ensures memory { IfNone (refusal_with handle.old.state buffer.old.state
        (λ e octets. refusal_to_post_from e number posting.now octets))
        ((result ≡ pos 0) ⊎ (result ≡ pos 3)) }
    ensures bad { IfSome (refusal_with handle.old.state buffer.old.state (λ e octets. posting_from_refusal posting.now))
        (λ r. result ≡ pos (refusal_code r)) }
    ensures ok { result ≡ pos 0 → IfSome buffer.old.state (λ octets. handle.new.state ≡
        posted_from handle.old.state number (request_of posting.now octets) posting.now.token octets) }
    ensures taken { result ≡ pos 0 → buffer.new.state ≡ Some [] }
    ensures err { result ≢ pos 0 → HasKeptIn (result ≡ pos 3)
        handle.old.state number buffer.old.state handle.new.state buffer.new.state }
{
    code(handle.post_buffer(alloc, number, posting, buffer).err())
}
