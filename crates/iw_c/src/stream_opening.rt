//! Streams whose numbers the endpoint gives, and streams that are closed.
ghost use Rattle.std.specs.Prelude.{◌≡◌, ◌≢◌, ◌⊎◌, pos, Some, IfSome, IfNone};
ghost use Rattle.iw_endpoint.specs.Endpoint.{next_number, opened_next, opened_shared_next};
ghost use Rattle.iw_handle.specs.Openings.{refusal_to_open_next, refusal_to_open_shared_next, refusal_to_close};
ghost use Rattle.iw_handle.specs.Openings.{opened_next_in, closed_in};
ghost use Rattle.iw_handle.specs.Refusals.{code_of, refusal_code};
ghost use Rattle.iw_handle.specs.State.{refusal_in, told_in};
ghost use Rattle.iw_handle.specs.Words.{domain_number, role_in, config_of};

use iw_handle::{Handle, code, domain_number};
use std::alloc::Global;

/// Opens a stream in a domain under the next number, and tells the number.
#[unsafe(no_mangle)]
pub extern "C" fn iwarp_open_next(
    alloc: Global,
    handle: &mut Handle,
    pd: u32,
    role: u32,
    options: u32,
    private: &[u8],
    number: &mut u32,
) -> i32
    ensures refused { IfSome (refusal_in handle.old.state
        (λ e. refusal_to_open_next e (domain_number pd) role options private.now))
        (λ r. result ≡ pos (refusal_code r)) }
    ensures memory { IfNone (refusal_in handle.old.state
        (λ e. refusal_to_open_next e (domain_number pd) role options private.now))
        ((result ≡ pos 0) ⊎ (result ≡ pos 3)) }
    ensures number { result ≡ pos 0 → told_in handle.old.state next_number ≡ Some (Some number.new) }
    ensures kept { result ≢ pos 0 → number.new ≡ number.old }
    ensures ok { result ≡ pos 0 → handle.new.state ≡ opened_next_in handle.old.state (λ e.
        opened_next e (next_number e) (domain_number pd) (role_in role) (config_of options private.now)) }
    ensures err { result ≢ pos 0 → handle.new.state ≡ handle.old.state }
{
    let done = handle.open_next(alloc, domain_number(pd), role, options, private);
    if let Ok(given) = done {
        *number = given;
    }
    code(done.err())
}

/// Opens a stream in a domain under the next number, and tells the number. It takes its receive buffers from the domain's pool.
#[unsafe(no_mangle)]
pub extern "C" fn iwarp_open_shared_next(
    alloc: Global,
    handle: &mut Handle,
    pd: u32,
    role: u32,
    options: u32,
    private: &[u8],
    number: &mut u32,
) -> i32
    ensures refused { IfSome (refusal_in handle.old.state
        (λ e. refusal_to_open_shared_next e (domain_number pd) role options private.now))
        (λ r. result ≡ pos (refusal_code r)) }
    ensures memory { IfNone (refusal_in handle.old.state
        (λ e. refusal_to_open_shared_next e (domain_number pd) role options private.now))
        ((result ≡ pos 0) ⊎ (result ≡ pos 3)) }
    ensures number { result ≡ pos 0 → told_in handle.old.state next_number ≡ Some (Some number.new) }
    ensures kept { result ≢ pos 0 → number.new ≡ number.old }
    ensures ok { result ≡ pos 0 → handle.new.state ≡ opened_next_in handle.old.state (λ e.
        opened_shared_next e (next_number e) (domain_number pd) (role_in role) (config_of options private.now)) }
    ensures err { result ≢ pos 0 → handle.new.state ≡ handle.old.state }
{
    let done = handle.open_shared_next(alloc, domain_number(pd), role, options, private);
    if let Ok(given) = done {
        *number = given;
    }
    code(done.err())
}

/// Forgets a stream that is at rest, and frees its memory.
#[unsafe(no_mangle)]
pub extern "C" fn iwarp_close(alloc: Global, handle: &mut Handle, number: u32) -> i32
    ensures code { result ≡ pos (code_of (refusal_in handle.old.state (λ e. refusal_to_close e number))) }
    ensures ok { result ≡ pos 0 → handle.new.state ≡ closed_in handle.old.state number }
    ensures err { result ≢ pos 0 → handle.new.state ≡ handle.old.state }
{
    code(handle.close_stream(alloc, number).err())
}
