//! Messages that are posted from a buffer, with no copy.
ghost use Rattle.std.specs.Prelude.{◌≡◌, ◌≢◌, ◌⊎◌, pos, None, Some, [], IfSome, IfNone};
ghost use Rattle.iw_octets.specs.Stag.{stag_of};
ghost use Rattle.iw_handle.specs.Refusals.{refusal_code};
ghost use Rattle.iw_handle.specs.Sending.{posted_from, sent_in, with_sent_in, HasKeptIn};
ghost use Rattle.iw_handle.specs.State.{refusal_with, stream_refusal};
ghost use Rattle.iw_handle.specs.Streams.{refusal_to_post, refusal_to_send, sent, write_of};
ghost use Rattle.iw_handle.specs.Words.{bits_refusal};

use iw_buffer::Buffer;
use iw_handle::{Handle, code, stag_of};
use std::alloc::Global;

/// Posts a Send of a buffer's octets themselves, with its token.
#[unsafe(no_mangle)]
pub extern "C" fn iwarp_post_send_buffer(
    alloc: Global,
    handle: &mut Handle,
    number: u32,
    buffer: &mut Buffer,
    flags: u32,
    stag: u32,
    token: u64,
) -> i32
    // The code of the first refusal that applies, or of `NoMemory`.
    ensures refused { IfSome (refusal_with handle.old.state buffer.old.state
        (λ e octets. refusal_to_send e number octets flags stag))
        (λ r. (result ≡ pos 3) ⊎ (result ≡ pos (refusal_code r))) }
    ensures memory { IfNone (refusal_with handle.old.state buffer.old.state
        (λ e octets. refusal_to_send e number octets flags stag)) ((result ≡ pos 0) ⊎ (result ≡ pos 3)) }
    ensures bits { IfSome (refusal_with handle.old.state buffer.old.state (λ e octets. bits_refusal 4 flags))
        (λ r. result ≡ pos (refusal_code r)) }
    ensures ok { result ≡ pos 0 → IfSome buffer.old.state (λ octets.
        handle.new.state ≡ posted_from handle.old.state number (sent octets flags stag) token octets) }
    ensures taken { result ≡ pos 0 → buffer.new.state ≡ Some [] }
    ensures err { result ≢ pos 0 → HasKeptIn (result ≡ pos 3)
        handle.old.state number buffer.old.state handle.new.state buffer.new.state }
{
    code(
        handle
            .post_send_buffer(alloc, number, buffer, flags, stag, token)
            .err(),
    )
}

/// Posts a Write of a buffer's octets themselves, with its token.
#[unsafe(no_mangle)]
pub extern "C" fn iwarp_post_write_buffer(
    alloc: Global,
    handle: &mut Handle,
    number: u32,
    stag: u32,
    to: u64,
    buffer: &mut Buffer,
    token: u64,
) -> i32
    // The code of the first refusal that applies, or of `NoMemory`.
    ensures refused { IfSome (refusal_with handle.old.state buffer.old.state
        (λ e octets. refusal_to_post e number (write_of (stag_of stag) to octets)))
        (λ r. (result ≡ pos 3) ⊎ (result ≡ pos (refusal_code r))) }
    ensures memory { IfNone (refusal_with handle.old.state buffer.old.state
        (λ e octets. refusal_to_post e number (write_of (stag_of stag) to octets)))
        ((result ≡ pos 0) ⊎ (result ≡ pos 3)) }
    ensures missing { IfSome (refusal_with handle.old.state buffer.old.state (λ e octets. None))
        (λ r. result ≡ pos (refusal_code r)) }
    ensures ok { result ≡ pos 0 → IfSome buffer.old.state (λ octets.
        handle.new.state ≡ posted_from handle.old.state number (write_of (stag_of stag) to octets) token octets) }
    ensures taken { result ≡ pos 0 → buffer.new.state ≡ Some [] }
    ensures err { result ≢ pos 0 → HasKeptIn (result ≡ pos 3)
        handle.old.state number buffer.old.state handle.new.state buffer.new.state }
{
    code(
        handle
            .post_write_buffer(alloc, number, stag_of(stag), to, buffer, token)
            .err(),
    )
}

/// Moves into a buffer the octets of the message that was done or flushed last at a stream, if it was posted from a buffer.
#[unsafe(no_mangle)]
pub extern "C" fn iwarp_fetch_sent(
    alloc: Global,
    handle: &mut Handle,
    number: u32,
    buffer: &mut Buffer,
) -> i32
    ensures refused { IfSome (refusal_with handle.old.state buffer.old.state (λ e octets. stream_refusal e number))
        (λ r. result ≡ pos (refusal_code r)) }
    ensures memory { IfNone (refusal_with handle.old.state buffer.old.state (λ e octets. stream_refusal e number))
        ((result ≡ pos 0) ⊎ (result ≡ pos 3)) }
    ensures octets { result ≡ pos 0 → buffer.new.state ≡ sent_in handle.old.state number }
    ensures ok { result ≡ pos 0 → handle.new.state ≡ with_sent_in handle.old.state number [] }
    ensures err { result ≢ pos 0 → handle.new.state ≡ handle.old.state }
    ensures back { result ≢ pos 0 → buffer.new.state ≡ buffer.old.state }
{
    code(handle.fetch_sent(alloc, number, buffer).err())
}
