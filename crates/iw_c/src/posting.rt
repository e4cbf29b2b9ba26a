//! Posting to a stream: Sends and Writes of copied octets, Reads, and receive buffers.
ghost use Rattle.std.specs.Prelude.{◌≡◌, ◌≢◌, ◌⊎◌, pos, IfSome, IfNone};
ghost use Rattle.iw_octets.specs.Stag.{stag_of};
ghost use Rattle.iw_endpoint.specs.Endpoint.{with_buffer};
ghost use Rattle.iw_handle.specs.Refusals.{refusal_code};
ghost use Rattle.iw_handle.specs.State.{refusal_in, changed, length_refusal};
ghost use Rattle.iw_handle.specs.Streams.{refusal_to_post, refusal_to_send, refusal_to_lend};
ghost use Rattle.iw_handle.specs.Streams.{sent, write_of, read_of, posted, zeroes};
ghost use Rattle.iw_handle.specs.Words.{bits_refusal, read_request};

use iw_handle::{Handle, code, read_request, stag_of};
use std::alloc::Global;

/// Posts a Send of a copy of the octets. The token is told when the Send is done or flushed.
#[unsafe(no_mangle)]
pub extern "C" fn iwarp_post_send(
    alloc: Global,
    handle: &mut Handle,
    number: u32,
    octets: &[u8],
    flags: u32,
    stag: u32,
    token: u64,
) -> i32
    // The code of the first refusal that applies, or of `NoMemory`.
    ensures refused { IfSome (refusal_in handle.old.state
        (λ e. refusal_to_send e number octets.now flags stag))
        (λ r. (result ≡ pos 3) ⊎ (result ≡ pos (refusal_code r))) }
    ensures memory { IfNone (refusal_in handle.old.state
        (λ e. refusal_to_send e number octets.now flags stag))
        ((result ≡ pos 0) ⊎ (result ≡ pos 3)) }
    ensures bits { IfSome (refusal_in handle.old.state (λ e. bits_refusal 4 flags))
        (λ r. result ≡ pos (refusal_code r)) }
    ensures ok { result ≡ pos 0 →
        handle.new.state ≡ posted handle.old.state number (sent octets.now flags stag) token }
    ensures err { result ≢ pos 0 → handle.new.state ≡ handle.old.state }
{
    code(
        handle
            .post_send(alloc, number, octets, flags, stag, token)
            .err(),
    )
}

/// Posts a Write of a copy of the octets, with its token.
#[unsafe(no_mangle)]
pub extern "C" fn iwarp_post_write(
    alloc: Global,
    handle: &mut Handle,
    number: u32,
    stag: u32,
    to: u64,
    octets: &[u8],
    token: u64,
) -> i32
    // The code of the first refusal that applies, or of `NoMemory`.
    ensures refused { IfSome
        (refusal_in handle.old.state
        (λ e. refusal_to_post e number (write_of (stag_of stag) to octets.now)))
        (λ r. (result ≡ pos 3) ⊎ (result ≡ pos (refusal_code r))) }
    ensures memory { IfNone
        (refusal_in handle.old.state
        (λ e. refusal_to_post e number (write_of (stag_of stag) to octets.now)))
        ((result ≡ pos 0) ⊎ (result ≡ pos 3)) }
    ensures ok { result ≡ pos 0 →
        handle.new.state ≡ posted handle.old.state number (write_of (stag_of stag) to octets.now) token }
    ensures err { result ≢ pos 0 → handle.new.state ≡ handle.old.state }
{
    code(
        handle
            .post_write(alloc, number, stag_of(stag), to, octets, token)
            .err(),
    )
}

/// Posts a Read, with its token.
#[unsafe(no_mangle)]
pub extern "C" fn iwarp_post_read(
    alloc: Global,
    handle: &mut Handle,
    number: u32,
    sink: u32,
    sink_to: u64,
    size: u32,
    source: u32,
    source_to: u64,
    token: u64,
) -> i32
    ensures refused { IfSome (refusal_in handle.old.state
        (λ e. refusal_to_post e number (read_of (read_request sink sink_to size source source_to))))
        (λ r. result ≡ pos (refusal_code r)) }
    ensures memory { IfNone (refusal_in handle.old.state
        (λ e. refusal_to_post e number (read_of (read_request sink sink_to size source source_to))))
        ((result ≡ pos 0) ⊎ (result ≡ pos 3)) }
    ensures ok { result ≡ pos 0 → handle.new.state ≡ posted handle.old.state number
        (read_of (read_request sink sink_to size source source_to)) token }
    ensures err { result ≢ pos 0 → handle.new.state ≡ handle.old.state }
{
    let request = read_request(sink, sink_to, size, source, source_to);
    code(handle.post_read(alloc, number, request, token).err())
}

/// Posts a receive buffer of `n` zero octets.
#[unsafe(no_mangle)]
pub extern "C" fn iwarp_post_recv(alloc: Global, handle: &mut Handle, number: u32, n: usize) -> i32
    // The code of the first refusal that applies, or of `NoMemory`.
    ensures refused { IfSome (refusal_in handle.old.state (λ e. refusal_to_lend e number n))
        (λ r. (result ≡ pos 3) ⊎ (result ≡ pos (refusal_code r))) }
    ensures memory { IfNone (refusal_in handle.old.state (λ e. refusal_to_lend e number n))
        ((result ≡ pos 0) ⊎ (result ≡ pos 3)) }
    ensures long { IfSome (refusal_in handle.old.state (λ e. length_refusal n)) (λ r. result ≡ pos (refusal_code r)) }
    ensures ok { result ≡ pos 0 → handle.new.state ≡ changed handle.old.state
        (λ e. with_buffer e number (zeroes n)) }
    ensures err { result ≢ pos 0 → handle.new.state ≡ handle.old.state }
{
    code(handle.post_recv(alloc, number, n).err())
}
