//! Receive buffers that change hands with no copy.
ghost use Rattle.std.specs.Prelude.{◌≡◌, ◌≢◌, ◌⊎◌, pos, Some, [], length, is_some, unwrap_or, IfSome, IfNone};
ghost use Rattle.std.specs.Option.{option_map};
ghost use Rattle.iw_endpoint.specs.Endpoint.{with_buffer, pooled, taken_at, after_take};
ghost use Rattle.iw_handle.specs.Events.{flag};
ghost use Rattle.iw_handle.specs.Pools.{refusal_to_pool, refusal_to_take};
ghost use Rattle.iw_handle.specs.Refusals.{code_of, refusal_code};
ghost use Rattle.iw_handle.specs.State.{refusal_with, changed, told_in, stream_refusal};
ghost use Rattle.iw_handle.specs.Streams.{refusal_to_lend, fetched};
ghost use Rattle.iw_handle.specs.Words.{domain_number};
ghost use Rattle.iw_lines.specs.Lines.{line_at};

use iw_buffer::Buffer;
use iw_handle::{Handle, code, domain_number};
use std::alloc::Global;

/// Moves into a buffer what a stream handed back last, which is then no longer kept, and tells how many of its first octets
/// are a message's.
#[unsafe(no_mangle)]
pub extern "C" fn iwarp_fetch_buffer(
    alloc: Global,
    handle: &mut Handle,
    number: u32,
    buffer: &mut Buffer,
    n: &mut usize,
) -> i32
    ensures code { result ≡ pos (code_of (refusal_with handle.old.state buffer.old.state
        (λ e octets. stream_refusal e number))) }
    ensures octets { result ≡ pos 0 → buffer.new.state ≡ option_map
        (λ held. (line_at held.lines number).handed.buffer) handle.old.state }
    ensures len { result ≡ pos 0 → Some n.new ≡ option_map
        (λ held. (line_at held.lines number).handed.len) handle.old.state }
    ensures untold { result ≢ pos 0 → n.new ≡ n.old }
    ensures ok { result ≡ pos 0 → handle.new.state ≡ fetched handle.old.state number }
    ensures err { result ≢ pos 0 → handle.new.state ≡ handle.old.state }
    ensures back { result ≢ pos 0 → buffer.new.state ≡ buffer.old.state }
{
    code(handle.fetch_buffer(alloc, number, buffer, n).err())
}

/// Posts a buffer's octets themselves as a receive buffer.
#[unsafe(no_mangle)]
pub extern "C" fn iwarp_post_recv_buffer(
    alloc: Global,
    handle: &mut Handle,
    number: u32,
    buffer: &mut Buffer,
) -> i32
    ensures refused { IfSome (refusal_with handle.old.state buffer.old.state
        (λ e octets. refusal_to_lend e number (length octets))) (λ r. result ≡ pos (refusal_code r)) }
    ensures memory { IfNone (refusal_with handle.old.state buffer.old.state
        (λ e octets. refusal_to_lend e number (length octets))) ((result ≡ pos 0) ⊎ (result ≡ pos 3)) }
    ensures ok { result ≡ pos 0 → IfSome buffer.old.state (λ octets. handle.new.state ≡ changed handle.old.state
        (λ e. with_buffer e number octets)) }
    ensures taken { result ≡ pos 0 → buffer.new.state ≡ Some [] }
    ensures err { result ≢ pos 0 → handle.new.state ≡ handle.old.state }
    ensures back { result ≢ pos 0 → buffer.new.state ≡ buffer.old.state }
{
    code(handle.post_recv_buffer(alloc, number, buffer).err())
}

/// Posts a buffer's octets themselves to the domain's pool.
#[unsafe(no_mangle)]
pub extern "C" fn iwarp_post_shared_buffer(
    alloc: Global,
    handle: &mut Handle,
    pd: u32,
    buffer: &mut Buffer,
) -> i32
    ensures refused { IfSome (refusal_with handle.old.state buffer.old.state
        (λ e octets. refusal_to_pool e (domain_number pd) (length octets))) (λ r. result ≡ pos (refusal_code r)) }
    ensures memory { IfNone (refusal_with handle.old.state buffer.old.state
        (λ e octets. refusal_to_pool e (domain_number pd) (length octets))) ((result ≡ pos 0) ⊎ (result ≡ pos 3)) }
    ensures ok { result ≡ pos 0 → IfSome buffer.old.state (λ octets. handle.new.state ≡ changed handle.old.state
        (λ e. pooled e (domain_number pd) octets)) }
    ensures taken { result ≡ pos 0 → buffer.new.state ≡ Some [] }
    ensures err { result ≢ pos 0 → handle.new.state ≡ handle.old.state }
    ensures back { result ≢ pos 0 → buffer.new.state ≡ buffer.old.state }
{
    code(
        handle
            .post_shared_buffer(alloc, domain_number(pd), buffer)
            .err(),
    )
}

/// Moves the oldest buffer of the domain's pool into a buffer, and tells whether there was one (1 or 0).
#[unsafe(no_mangle)]
pub extern "C" fn iwarp_take_shared_buffer(
    alloc: Global,
    handle: &mut Handle,
    pd: u32,
    buffer: &mut Buffer,
    found: &mut u32,
) -> i32
    ensures code { result ≡ pos (code_of (refusal_with handle.old.state buffer.old.state
        (λ e octets. refusal_to_take e (domain_number pd)))) }
    ensures found { result ≡ pos 0 → Some found.new ≡ told_in handle.old.state
        (λ e. flag (is_some (taken_at e (domain_number pd))) 1) }
    ensures untold { result ≢ pos 0 → found.new ≡ found.old }
    ensures octets { result ≡ pos 0 → IfSome buffer.old.state (λ octets.
        buffer.new.state ≡ told_in handle.old.state (λ e. unwrap_or (taken_at e (domain_number pd)) octets)) }
    ensures ok { result ≡ pos 0 → handle.new.state ≡ changed handle.old.state (λ e. after_take e (domain_number pd)) }
    ensures err { result ≢ pos 0 → handle.new.state ≡ handle.old.state }
    ensures back { result ≢ pos 0 → buffer.new.state ≡ buffer.old.state }
{
    let done = handle.take_shared_buffer(alloc, domain_number(pd), buffer);
    if let Ok(there) = done {
        *found = if there { 1 } else { 0 };
    }
    code(done.err())
}
