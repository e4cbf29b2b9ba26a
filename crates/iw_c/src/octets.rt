//! Delivery, work and emission.
ghost use Rattle.std.specs.Prelude.{◌≡◌, ◌≢◌, ◌⊎◌, pos, None, Some, length, IfSome, IfNone, IsSomeAnd};
ghost use Rattle.std.specs.Option.{option_map};
ghost use Rattle.iw_endpoint.specs.Endpoint.{with_first, delivery_at, emission_at, after_emit};
ghost use Rattle.iw_handle.specs.Events.{flag, kept_number, emitted_of, IsFrame};
ghost use Rattle.iw_handle.specs.Refusals.{code_of, refusal_code};
ghost use Rattle.iw_handle.specs.State.{called_on, refusal_in, changed, told_in, shown_in, stream_refusal};
ghost use Rattle.iw_handle.specs.State.{filled, length_told};
ghost use Rattle.iw_handle.specs.Streams.{refusal_to_work, refusal_to_emit, refusal_to_go_on, due_shown, wants_write, progress_at};
ghost use Rattle.iw_handle.specs.Steps.{TellsOn};
ghost use Rattle.iw_handle.specs.declared.working.TheConstants.{QUIET_STEPS};
ghost use Rattle.iw_handle.specs.Streams.{first_refusal, BringsAt, TriesAt, delivered, worked, event_in};
ghost use Rattle.iw_handle.specs.Streams.{handed_in, refusal_to_fetch, fetched};

use iw_handle::{Emitted, Event, Handle, Progress, code, kept_number};
use std::alloc::Global;

/// Sets the sequence number of the peer's first octet.
#[unsafe(no_mangle)]
pub extern "C" fn iwarp_first_number(
    alloc: Global,
    handle: &mut Handle,
    number: u32,
    first: u32,
) -> i32
    ensures code { result ≡ pos (code_of (refusal_in handle.old.state (λ e. first_refusal e number))) }
    ensures ok { result ≡ pos 0 → handle.new.state ≡ changed handle.old.state
        (λ e. with_first e number first) }
    ensures err { result ≢ pos 0 → handle.new.state ≡ handle.old.state }
{
    code(handle.first_number(alloc, number, first).err())
}

/// Takes octets that came on a stream's connection; the first has this sequence number. `kept` becomes 1 if they are
/// kept, 0 if they are dropped.
#[unsafe(no_mangle)]
pub extern "C" fn iwarp_deliver(
    alloc: Global,
    handle: &mut Handle,
    number: u32,
    sequence: u32,
    octets: &[u8],
    kept: &mut u32,
) -> i32
    ensures refused { IfSome (refusal_in (called_on handle.old.state number) (λ e. stream_refusal e number))
        (λ r. result ≡ pos (refusal_code r)) }
    ensures memory { IfNone (refusal_in (called_on handle.old.state number) (λ e. stream_refusal e number))
        ((result ≡ pos 0) ⊎ (result ≡ pos 3)) }
    ensures want { IfSome (called_on handle.old.state number)
        (λ held. result ≡ pos 3 → BringsAt held.endpoint number sequence (length octets.now)) }
    ensures delivery { result ≡ pos 0 → Some kept.new ≡ told_in (called_on handle.old.state number)
        (λ e. kept_number (delivery_at e number sequence (length octets.now))) }
    ensures kept { result ≢ pos 0 → kept.new ≡ kept.old }
    ensures ok { result ≡ pos 0 → handle.new.state ≡ delivered (called_on handle.old.state number) number sequence octets.now }
    ensures err { result ≢ pos 0 → handle.new.state ≡ called_on handle.old.state number }
{
    let done = handle.deliver(alloc, number, sequence, octets);
    if let Ok(delivery) = done {
        *kept = kept_number(delivery);
    }
    code(done.err())
}

/// Does one step at a stream and writes it to `event`, in numbers.
#[unsafe(no_mangle)]
pub extern "C" fn iwarp_work(
    alloc: Global,
    handle: &mut Handle,
    number: u32,
    event: &mut Event,
) -> i32
    ensures refused { IfSome (refusal_in (called_on handle.old.state number) (λ e. refusal_to_work e number))
        (λ r. result ≡ pos (refusal_code r)) }
    ensures memory { IfNone (refusal_in (called_on handle.old.state number) (λ e. refusal_to_work e number))
        ((result ≡ pos 0) ⊎ (result ≡ pos 3)) }
    ensures want { result ≡ pos 3 → IfSome (called_on handle.old.state number) (λ held. TriesAt held.endpoint number) }
    ensures event { result ≡ pos 0 → Some event.new ≡ option_map
        (λ held. event_in held number) (called_on handle.old.state number) }
    ensures kept { result ≢ pos 0 → event.new ≡ event.old }
    ensures ok { result ≡ pos 0 → handle.new.state ≡ worked (called_on handle.old.state number) number }
    ensures err { result ≢ pos 0 → handle.new.state ≡ called_on handle.old.state number }
{
    code(handle.work(alloc, number, event).err())
}

/// Does steps at a stream until one that the program has to act on, and writes that one to `event`, in numbers.
#[unsafe(no_mangle)]
pub extern "C" fn iwarp_work_on(
    alloc: Global,
    handle: &mut Handle,
    number: u32,
    event: &mut Event,
) -> i32
    ensures closed { (called_on handle.old.state number) ≡ None → (result ≡ pos 1) × (handle.new.state ≡ None) }
    ensures steps { IfSome (called_on handle.old.state number) (λ held.
        IsSomeAnd handle.new.state (λ after. TellsOn QUIET_STEPS held number result event.new after)) }
    ensures kept { result ≢ pos 0 → event.new ≡ event.old }
{
    code(handle.work_on(alloc, number, event).err())
}

/// Copies what a stream handed back last to the front of a buffer, and forgets it.
#[unsafe(no_mangle)]
pub extern "C" fn iwarp_fetch(
    alloc: Global,
    handle: &mut Handle,
    number: u32,
    out: &mut [u8],
    len: &mut usize,
) -> i32
    ensures code { result ≡ pos (code_of (refusal_to_fetch handle.old.state number (length out.old))) }
    ensures len { len.new ≡ length_told (handed_in handle.old.state number) len.old }
    ensures octets { result ≡ pos 0 → out.new ≡ filled (handed_in handle.old.state number) out.old }
    ensures kept { result ≢ pos 0 → out.new ≡ out.old }
    ensures ok { result ≡ pos 0 → handle.new.state ≡ fetched handle.old.state number }
    ensures err { result ≢ pos 0 → handle.new.state ≡ handle.old.state }
{
    code(handle.fetch(alloc, number, out, len).err())
}

/// Emits what is due at a stream to the front of a buffer, and writes what it was to `emission`, in numbers.
#[unsafe(no_mangle)]
pub extern "C" fn iwarp_emit(
    alloc: Global,
    handle: &mut Handle,
    number: u32,
    out: &mut [u8],
    len: &mut usize,
    emitted: &mut Emitted,
) -> i32
    ensures refused { IfSome (refusal_in (called_on handle.old.state number)
        (λ e. refusal_to_emit e number (length out.old)))
        (λ r. result ≡ pos (refusal_code r)) }
    ensures memory { IfNone (refusal_in (called_on handle.old.state number)
        (λ e. refusal_to_emit e number (length out.old)))
        ((result ≡ pos 0) ⊎ (result ≡ pos 3)) }
    ensures want { result ≡ pos 3 → IfSome (called_on handle.old.state number)
        (λ held. IsFrame (emission_at held.endpoint number)) }
    ensures len { len.new ≡ length_told (shown_in (called_on handle.old.state number) (λ e. due_shown e number)) len.old }
    ensures emitted { result ≡ pos 0 → Some emitted.new ≡ told_in (called_on handle.old.state number)
        (λ e. emitted_of (emission_at e number)) }
    ensures untold { result ≢ pos 0 → emitted.new ≡ emitted.old }
    ensures octets { result ≡ pos 0 → out.new ≡ filled (shown_in (called_on handle.old.state number)
        (λ e. due_shown e number)) out.old }
    ensures kept { result ≢ pos 0 → out.new ≡ out.old }
    ensures ok { result ≡ pos 0 → handle.new.state ≡ changed (called_on handle.old.state number)
        (λ e. after_emit e number) }
    ensures err { result ≢ pos 0 → handle.new.state ≡ called_on handle.old.state number }
{
    let done = handle.emit(alloc, number, out, len);
    if let Ok(told) = done {
        *emitted = told;
    }
    code(done.err())
}

/// Tells whether the next call of `iwarp_emit` has anything to report (1 or 0).
#[unsafe(no_mangle)]
pub extern "C" fn iwarp_wants_write(
    alloc: Global,
    handle: &mut Handle,
    number: u32,
    wants: &mut u32,
) -> i32
    ensures code { result ≡ pos
        (code_of (refusal_in handle.old.state (λ e. stream_refusal e number))) }
    ensures wants { result ≡ pos 0 → Some wants.new ≡ told_in handle.old.state
        (λ e. flag (wants_write e number) 1) }
    ensures kept { result ≢ pos 0 → wants.new ≡ wants.old }
    ensures same { handle.new.state ≡ handle.old.state }
{
    let done = handle.wants_write(alloc, number);
    if let Ok(due) = done {
        *wants = if due { 1 } else { 0 };
    }
    code(done.err())
}

/// Tells how far a stream is, in octets, and how often it took a slow path.
#[unsafe(no_mangle)]
pub extern "C" fn iwarp_progress(
    alloc: Global,
    handle: &mut Handle,
    number: u32,
    progress: &mut Progress,
) -> i32
    ensures code { result ≡ pos (code_of (refusal_in handle.old.state (λ e. refusal_to_go_on e number))) }
    ensures progress { result ≡ pos 0 → Some progress.new ≡ option_map (λ held. progress_at held number) handle.old.state }
    ensures untold { result ≢ pos 0 → progress.new ≡ progress.old }
    ensures same { handle.new.state ≡ handle.old.state }
{
    let done = handle.progress(alloc, number);
    if let Ok(told) = done {
        *progress = told;
    }
    code(done.err())
}
