//! Work with a share of the domain's pool, and with a high-water mark.
ghost use Rattle.std.specs.Prelude.{◌≡◌, ◌≢◌, pos, None, IfSome, IfNone, IsSomeAnd};
ghost use Rattle.iw_handle.specs.Limits.{limits_refusal, share_of, mark_of};
ghost use Rattle.iw_handle.specs.Marking.{TellsOnMarked};
ghost use Rattle.iw_handle.specs.Refusals.{refusal_code};
ghost use Rattle.iw_handle.specs.Sharing.{TellsOnWithin};
ghost use Rattle.iw_handle.specs.State.{called_on};
ghost use Rattle.iw_handle.specs.declared.working.TheConstants.{QUIET_STEPS};

use iw_handle::{Event, Handle, Limits, code};
use std::alloc::Global;

/// Does steps at a stream as `iwarp_work_on` does, lending it the domain's pool only while it has fewer than `share` buffers
/// bound.
#[unsafe(no_mangle)]
pub extern "C" fn iwarp_work_within(
    alloc: Global,
    handle: &mut Handle,
    number: u32,
    share: usize,
    event: &mut Event,
) -> i32
    ensures closed { (called_on handle.old.state number) ≡ None → (result ≡ pos 1) × (handle.new.state ≡ None) }
    ensures steps { IfSome (called_on handle.old.state number) (λ held.
        IsSomeAnd handle.new.state (λ after. TellsOnWithin QUIET_STEPS held number share result event.new after)) }
    ensures kept { result ≢ pos 0 → event.new ≡ event.old }
{
    code(handle.work_within(alloc, number, share, event).err())
}

/// Does steps at a stream as `iwarp_work_within` does, with the share of a struct, and stops at the step by which the stream comes
/// to have more than the struct's mark of the pool's buffers bound. The flags say which limits count.
#[unsafe(no_mangle)]
pub extern "C" fn iwarp_work_marked(
    alloc: Global,
    handle: &mut Handle,
    number: u32,
    limits: &Limits,
    event: &mut Event,
) -> i32
    ensures closed { (called_on handle.old.state number) ≡ None → (result ≡ pos 1) × (handle.new.state ≡ None) }
    ensures bad { IfSome (called_on handle.old.state number) (λ held.
        IfSome (limits_refusal limits.now)
        (λ r. (result ≡ pos (refusal_code r)) × (handle.new.state ≡ Some held))) }
    ensures steps { IfSome (called_on handle.old.state number) (λ held.
        IfNone (limits_refusal limits.now) (IsSomeAnd handle.new.state (λ after.
        TellsOnMarked QUIET_STEPS held number (share_of limits.now) (mark_of limits.now) result event.new after))) }
    ensures kept { result ≢ pos 0 → event.new ≡ event.old }
{
    code(handle.work_marked(alloc, number, limits, event).err())
}
