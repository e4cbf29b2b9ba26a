//! Pools of receive buffers that streams of a domain share.
ghost use Rattle.std.specs.Prelude.{◌≡◌, ◌≢◌, ◌⊎◌, pos, IfSome, IfNone};
ghost use Rattle.iw_endpoint.specs.Endpoint.{shared, pooled, opened_shared};
ghost use Rattle.iw_handle.specs.Openings.{opened_in};
ghost use Rattle.iw_handle.specs.Pools.{refusal_to_share, refusal_to_pool, refusal_to_open_shared};
ghost use Rattle.iw_handle.specs.Refusals.{refusal_code};
ghost use Rattle.iw_handle.specs.State.{refusal_in, changed, length_refusal};
ghost use Rattle.iw_handle.specs.Streams.{zeroes};
ghost use Rattle.iw_handle.specs.Words.{domain_number, role_in, config_of};

use iw_handle::{Handle, code, domain_number};
use std::alloc::Global;

/// Gives the domain an empty pool of receive buffers.
#[unsafe(no_mangle)]
pub extern "C" fn iwarp_share(alloc: Global, handle: &mut Handle, pd: u32) -> i32
    ensures refused { IfSome (refusal_in handle.old.state (λ e. refusal_to_share e (domain_number pd)))
        (λ r. result ≡ pos (refusal_code r)) }
    ensures memory { IfNone (refusal_in handle.old.state (λ e. refusal_to_share e (domain_number pd)))
        ((result ≡ pos 0) ⊎ (result ≡ pos 3)) }
    ensures ok { result ≡ pos 0 → handle.new.state ≡ changed handle.old.state (λ e. shared e (domain_number pd)) }
    ensures err { result ≢ pos 0 → handle.new.state ≡ handle.old.state }
{
    code(handle.share(alloc, domain_number(pd)).err())
}

/// Posts a receive buffer of `n` zero octets to the domain's pool.
#[unsafe(no_mangle)]
pub extern "C" fn iwarp_post_shared(alloc: Global, handle: &mut Handle, pd: u32, n: usize) -> i32
    // The code of the first refusal that applies, or of `NoMemory`.
    ensures refused { IfSome (refusal_in handle.old.state (λ e. refusal_to_pool e (domain_number pd) n))
        (λ r. (result ≡ pos 3) ⊎ (result ≡ pos (refusal_code r))) }
    ensures memory { IfNone (refusal_in handle.old.state (λ e. refusal_to_pool e (domain_number pd) n))
        ((result ≡ pos 0) ⊎ (result ≡ pos 3)) }
    ensures long { IfSome (refusal_in handle.old.state (λ e. length_refusal n)) (λ r. result ≡ pos (refusal_code r)) }
    ensures ok { result ≡ pos 0 → handle.new.state ≡ changed handle.old.state
        (λ e. pooled e (domain_number pd) (zeroes n)) }
    ensures err { result ≢ pos 0 → handle.new.state ≡ handle.old.state }
{
    code(handle.post_shared(alloc, domain_number(pd), n).err())
}

/// Opens a stream in a domain under a number. It takes its receive buffers from the domain's pool.
#[unsafe(no_mangle)]
pub extern "C" fn iwarp_open_shared(
    alloc: Global,
    handle: &mut Handle,
    number: u32,
    pd: u32,
    role: u32,
    options: u32,
    private: &[u8],
) -> i32
    ensures refused { IfSome
        (refusal_in handle.old.state
        (λ e. refusal_to_open_shared e number (domain_number pd) role options private.now))
        (λ r. result ≡ pos (refusal_code r)) }
    ensures memory { IfNone
        (refusal_in handle.old.state
        (λ e. refusal_to_open_shared e number (domain_number pd) role options private.now))
        ((result ≡ pos 0) ⊎ (result ≡ pos 3)) }
    ensures ok { result ≡ pos 0 → handle.new.state ≡ opened_in handle.old.state number (λ e.
        opened_shared e number (domain_number pd) (role_in role) (config_of options private.now)) }
    ensures err { result ≢ pos 0 → handle.new.state ≡ handle.old.state }
{
    code(
        handle
            .open_shared(alloc, number, domain_number(pd), role, options, private)
            .err(),
    )
}
