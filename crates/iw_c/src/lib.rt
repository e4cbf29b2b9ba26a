//! An iWARP endpoint for C. `include/iwarp.h` declares these functions and describes them. Each is one call of
//! [`iw_handle::Handle`]. A `Global` has no bytes, so C passes nothing for it.
//!
//! No clause says what C must uphold, since the types say it: a handle is closed (null), or as the last call left it,
//! and it is in one place. A copy of an open handle must not be used.
#![tactic(auto)]

mod buffers;
mod kept_regions;
mod lending;
mod octets;
mod pools;
mod posting;
mod posting_memory;
mod receiving;
mod regions;
mod registering;
mod sending;
mod sharing;
mod stream_opening;
mod stream_regions;
mod streams;
mod struct_posting;
mod structs;
mod texts;

ghost use Rattle.std.specs.Prelude.{◌≡◌, ◌≢◌, ◌⊎◌, pos, None, IfSome, IfNone};
ghost use Rattle.std.specs.Option.{option_map};
ghost use Rattle.iw_c.specs.declared.TheConstants.{VERSION};
ghost use Rattle.iw_endpoint.specs.Endpoint.{fresh, added, domain_refusal};
ghost use Rattle.iw_handle.specs.Refusals.{refusal_code, domain_reason};
ghost use Rattle.iw_handle.specs.State.{open_with, refusal_in, changed};
ghost use Rattle.iw_handle.specs.Words.{domain_number};

pub use buffers::{
    iwarp_buffer_at, iwarp_buffer_free, iwarp_buffer_new, iwarp_buffer_truncate,
    iwarp_deregister_buffer, iwarp_emit_onto, iwarp_register_buffer,
};
use iw_handle::{Handle, code, domain_number};
pub use kept_regions::{iwarp_deregister_memory, iwarp_register_memory};
pub use lending::{iwarp_came, iwarp_room};
pub use octets::{
    iwarp_deliver, iwarp_emit, iwarp_fetch, iwarp_first_number, iwarp_progress, iwarp_wants_write,
    iwarp_work, iwarp_work_on,
};
pub use pools::{iwarp_open_shared, iwarp_post_shared, iwarp_share};
pub use posting::{iwarp_post_read, iwarp_post_recv, iwarp_post_send, iwarp_post_write};
pub use posting_memory::iwarp_post_memory;
pub use receiving::{
    iwarp_fetch_buffer, iwarp_post_recv_buffer, iwarp_post_shared_buffer, iwarp_take_shared_buffer,
};
pub use regions::{
    iwarp_deregister, iwarp_drop_region, iwarp_facts, iwarp_invalidate, iwarp_load,
    iwarp_region_at, iwarp_register, iwarp_store,
};
pub use registering::{iwarp_register_as, iwarp_register_buffer_as};
pub use sending::{iwarp_fetch_sent, iwarp_post_send_buffer, iwarp_post_write_buffer};
pub use sharing::{iwarp_work_marked, iwarp_work_within};
use std::alloc::Global;
pub use stream_opening::{iwarp_close, iwarp_open_next, iwarp_open_shared_next};
pub use stream_regions::{iwarp_register_buffer_for, iwarp_register_for};
pub use streams::{
    iwarp_accept, iwarp_break, iwarp_open, iwarp_private, iwarp_reject, iwarp_set_mulpdu,
    iwarp_state, iwarp_told,
};
pub use struct_posting::{iwarp_post, iwarp_post_buffer};
pub use structs::{iwarp_new_with, iwarp_peer_facts, iwarp_region_facts};
pub use texts::{iwarp_fault_text_at, iwarp_text_at};

/// The version of this library: 10,000 for each major number, 100 for each minor one, 1 for each revision.
pub const VERSION: u32 = 10_300;

/// Returns [`VERSION`].
#[unsafe(no_mangle)]
pub extern "C" fn iwarp_version() -> u32
    ensures { result ≡ VERSION }
{
    VERSION
}

/// Opens a closed handle with a new endpoint, which has no domain and no stream.
#[unsafe(no_mangle)]
pub extern "C" fn iwarp_new(alloc: Global, handle: &mut Handle) -> i32
    ensures open { IfSome handle.old.state (λ _. result ≡ pos 2) }
    ensures why { handle.old.state ≡ None → (result ≡ pos 0) ⊎ (result ≡ pos 3) }
    ensures ok { result ≡ pos 0 → handle.new.state ≡ open_with fresh }
    ensures err { result ≢ pos 0 → handle.new.state ≡ handle.old.state }
{
    code(handle.open(alloc).err())
}

/// Closes a handle and frees all that it has. A closed handle stays closed.
#[unsafe(no_mangle)]
pub extern "C" fn iwarp_free(alloc: Global, handle: &mut Handle)
    ensures { handle.new.state ≡ None }
{
    handle.close(alloc);
}

/// Adds a protection domain with no region and no stream.
#[unsafe(no_mangle)]
pub extern "C" fn iwarp_add_domain(alloc: Global, handle: &mut Handle, pd: u32) -> i32
    ensures refused { IfSome
        (refusal_in handle.old.state (λ e. option_map domain_reason (domain_refusal e (domain_number pd))))
        (λ r. result ≡ pos (refusal_code r)) }
    ensures memory { IfNone
        (refusal_in handle.old.state (λ e. option_map domain_reason (domain_refusal e (domain_number pd))))
        ((result ≡ pos 0) ⊎ (result ≡ pos 3)) }
    ensures ok { result ≡ pos 0 → handle.new.state ≡ changed handle.old.state (λ e. added e (domain_number pd)) }
    ensures err { result ≢ pos 0 → handle.new.state ≡ handle.old.state }
{
    code(handle.add_domain(alloc, domain_number(pd)).err())
}
