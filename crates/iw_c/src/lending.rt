//! Octets that the program reads to a place that is lent.
ghost use Rattle.std.specs.Prelude.{◌≡◌, ◌≢◌, ◌⊎◌, ◌<◌, pos, Some, IfSome, IfNone, IsSomeAnd};
ghost use Rattle.iw_handle.specs.Lending.{lendable_at, IsFull, IsUnlent, lent_at, lent_in, HasTaken};
ghost use Rattle.iw_handle.specs.Refusals.{refusal_code};
ghost use Rattle.iw_handle.specs.State.{called_on, refusal_in, told_in, stream_refusal};

use iw_handle::{Handle, code};
use std::alloc::Global;

/// Lends the place past the last octet that came at a stream: its address, and for how many octets.
#[unsafe(no_mangle)]
pub extern "C" fn iwarp_room(
    alloc: Global,
    handle: &mut Handle,
    number: u32,
    want: usize,
    at: &mut *mut u8,
    n: &mut usize,
) -> i32
    ensures refused { IfSome (refusal_in (called_on handle.old.state number) (λ e. stream_refusal e number))
        (λ r. result ≡ pos (refusal_code r)) }
    ensures why { IfNone (refusal_in (called_on handle.old.state number) (λ e. stream_refusal e number))
        ((result ≡ pos 0) ⊎ (result ≡ pos 38) ⊎ (result ≡ pos 3)) }
    ensures full { result ≡ pos 38 → IfSome (called_on handle.old.state number) (λ held. IsFull held.endpoint number) }
    ensures lent { result ≡ pos 0 → Some n.new ≡ told_in (called_on handle.old.state number) (λ e. lendable_at e number want) }
    ensures kept { result ≢ pos 0 → (at.new ≡ at.old) × (n.new ≡ n.old) }
    ensures ok { result ≡ pos 0 → handle.new.state ≡ lent_in (called_on handle.old.state number) number n.new }
    ensures err { result ≢ pos 0 → handle.new.state ≡ called_on handle.old.state number }
{
    let done = handle.room(alloc, number, want, at);
    if let Ok(lent) = done {
        *n = lent;
    }
    code(done.err())
}

/// Takes the first `n` octets that stand in the lent place as one delivery.
#[unsafe(no_mangle)]
pub extern "C" fn iwarp_came(alloc: Global, handle: &mut Handle, number: u32, n: usize) -> i32
    ensures refused { IfSome (refusal_in handle.old.state (λ e. stream_refusal e number))
        (λ r. result ≡ pos (refusal_code r)) }
    ensures more { IfSome handle.old.state (λ held. IfNone (stream_refusal held.endpoint number)
        (lent_at held number < n → result ≡ pos 39)) }
    ensures why { IfSome handle.old.state (λ held. IfNone (stream_refusal held.endpoint number)
        ((result ≡ pos 0) ⊎ (((result ≡ pos 39) × IsUnlent held number n) ⊎ (result ≡ pos 3)))) }
    ensures ok { result ≡ pos 0 →
        IfSome handle.old.state (λ held. IsSomeAnd handle.new.state (λ after. HasTaken held number n after)) }
    ensures err { result ≢ pos 0 → handle.new.state ≡ handle.old.state }
{
    code(handle.came(alloc, number, n).err())
}
