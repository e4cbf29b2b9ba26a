//! Calls that open a stream, answer its Request and end it.
ghost use Rattle.std.specs.Prelude.{◌≡◌, ◌≢◌, ◌⊎◌, pos, Some, length, IfSome, IfNone};
ghost use Rattle.iw_endpoint.specs.Endpoint.{opened, accepted, rejected, agreement, broken, with_mulpdu, told_at, options_at, standing_at};
ghost use Rattle.iw_handle.specs.Events.{agreed_flags, peer_told, state_number};
ghost use Rattle.iw_handle.specs.Openings.{opened_in};
ghost use Rattle.iw_handle.specs.Refusals.{code_of, refusal_code};
ghost use Rattle.iw_handle.specs.State.{called_on, refusal_in, changed, told_in, shown_in, stream_refusal};
ghost use Rattle.iw_handle.specs.State.{copy_refusal, filled, length_told};
ghost use Rattle.iw_handle.specs.Streams.{refusal_to_open, refusal_to_answer, size_refusal, private_shown};
ghost use Rattle.iw_handle.specs.Words.{domain_number, role_in, config_of, private_of};
ghost use Rattle.iw_handle.specs.declared.refusal.Refusal.TheVariants.{NoSuchStream};

use iw_handle::{Handle, Told, agreed_flags, code, domain_number, state_number};
use std::alloc::Global;

/// Opens a stream in a domain under a number.
#[unsafe(no_mangle)]
pub extern "C" fn iwarp_open(
    alloc: Global,
    handle: &mut Handle,
    number: u32,
    pd: u32,
    role: u32,
    options: u32,
    private: &[u8],
) -> i32
    ensures refused { IfSome (refusal_in handle.old.state
        (λ e. refusal_to_open e number (domain_number pd) role options private.now))
        (λ r. result ≡ pos (refusal_code r)) }
    ensures memory { IfNone (refusal_in handle.old.state
        (λ e. refusal_to_open e number (domain_number pd) role options private.now))
        ((result ≡ pos 0) ⊎ (result ≡ pos 3)) }
    ensures ok { result ≡ pos 0 → handle.new.state ≡ opened_in handle.old.state number
        (λ e. opened e number (domain_number pd) (role_in role) (config_of options private.now)) }
    ensures err { result ≢ pos 0 → handle.new.state ≡ handle.old.state }
{
    code(
        handle
            .open_stream(alloc, number, domain_number(pd), role, options, private)
            .err(),
    )
}

/// Accepts the pending MPA Request, with this private data. `agreed` becomes what both ends agreed on.
#[unsafe(no_mangle)]
pub extern "C" fn iwarp_accept(
    alloc: Global,
    handle: &mut Handle,
    number: u32,
    private: &[u8],
    agreed: &mut u32,
) -> i32
    ensures code { result ≡ pos
        (code_of (refusal_in (called_on handle.old.state number) (λ e. refusal_to_answer e number private.now))) }
    ensures agreed { result ≡ pos 0 → Some agreed.new ≡ told_in (called_on handle.old.state number)
        (λ e. agreed_flags (agreement e number)) }
    ensures kept { result ≢ pos 0 → agreed.new ≡ agreed.old }
    ensures ok { result ≡ pos 0 → handle.new.state ≡ changed (called_on handle.old.state number)
        (λ e. accepted e number (private_of private.now)) }
    ensures err { result ≢ pos 0 → handle.new.state ≡ called_on handle.old.state number }
{
    let done = handle.accept(alloc, number, private);
    if let Ok(told) = done {
        *agreed = agreed_flags(told);
    }
    code(done.err())
}

/// Rejects the pending MPA Request, with this private data. The stream has then ended.
#[unsafe(no_mangle)]
pub extern "C" fn iwarp_reject(
    alloc: Global,
    handle: &mut Handle,
    number: u32,
    private: &[u8],
) -> i32
    ensures code { result ≡ pos
        (code_of (refusal_in (called_on handle.old.state number) (λ e. refusal_to_answer e number private.now))) }
    ensures ok { result ≡ pos 0 → handle.new.state ≡ changed (called_on handle.old.state number)
        (λ e. rejected e number (private_of private.now)) }
    ensures err { result ≢ pos 0 → handle.new.state ≡ called_on handle.old.state number }
{
    code(handle.reject(alloc, number, private).err())
}

/// Copies the private data of the peer's start-up frame to the front of a buffer.
#[unsafe(no_mangle)]
pub extern "C" fn iwarp_private(
    alloc: Global,
    handle: &mut Handle,
    number: u32,
    out: &mut [u8],
    len: &mut usize,
) -> i32
    ensures code { result ≡ pos (code_of
        (refusal_in handle.old.state
        (λ e. copy_refusal (private_shown e number) NoSuchStream (length out.old)))) }
    ensures len { len.new ≡ length_told (shown_in handle.old.state
        (λ e. private_shown e number)) len.old }
    ensures ok { result ≡ pos 0 → out.new ≡ filled (shown_in handle.old.state
        (λ e. private_shown e number)) out.old }
    ensures err { result ≢ pos 0 → out.new ≡ out.old }
    ensures same { handle.new.state ≡ handle.old.state }
{
    code(handle.private(alloc, number, out, len).err())
}

/// What the peer told in its start-up frame.
#[unsafe(no_mangle)]
pub extern "C" fn iwarp_told(
    alloc: Global,
    handle: &mut Handle,
    number: u32,
    told: &mut Told,
) -> i32
    ensures code { result ≡ pos
        (code_of (refusal_in handle.old.state (λ e. stream_refusal e number))) }
    ensures told { result ≡ pos 0 → Some told.new ≡ told_in handle.old.state
        (λ e. peer_told (options_at e number) (told_at e number)) }
    ensures kept { result ≢ pos 0 → told.new ≡ told.old }
    ensures same { handle.new.state ≡ handle.old.state }
{
    let done = handle.told(alloc, number);
    if let Ok(said) = done {
        *told = said;
    }
    code(done.err())
}

/// Tells whether a stream is starting (0), is open (1) or has ended (2).
#[unsafe(no_mangle)]
pub extern "C" fn iwarp_state(
    alloc: Global,
    handle: &mut Handle,
    number: u32,
    state: &mut u32,
) -> i32
    ensures code { result ≡ pos
        (code_of (refusal_in handle.old.state (λ e. stream_refusal e number))) }
    ensures state { result ≡ pos 0 → Some state.new ≡ told_in handle.old.state
        (λ e. state_number (standing_at e number)) }
    ensures kept { result ≢ pos 0 → state.new ≡ state.old }
    ensures same { handle.new.state ≡ handle.old.state }
{
    let done = handle.standing(alloc, number);
    if let Ok(standing) = done {
        *state = state_number(standing);
    }
    code(done.err())
}

/// Reports that a stream's link broke: the stream has ended, and nothing more is emitted.
#[unsafe(no_mangle)]
pub extern "C" fn iwarp_break(alloc: Global, handle: &mut Handle, number: u32) -> i32
    ensures code { result ≡ pos (code_of (refusal_in (called_on handle.old.state number) (λ e. stream_refusal e number))) }
    ensures ok { result ≡ pos 0 → handle.new.state ≡ changed (called_on handle.old.state number) (λ e. broken e number) }
    ensures err { result ≢ pos 0 → handle.new.state ≡ called_on handle.old.state number }
{
    code(handle.break_link(alloc, number).err())
}

/// Sets the maximum ULPDU of the frames that a stream emits from then on.
#[unsafe(no_mangle)]
pub extern "C" fn iwarp_set_mulpdu(
    alloc: Global,
    handle: &mut Handle,
    number: u32,
    size: u32,
) -> i32
    ensures code { result ≡ pos (code_of (refusal_in handle.old.state
        (λ e. size_refusal e number size))) }
    ensures ok { result ≡ pos 0 → handle.new.state ≡ changed handle.old.state
        (λ e. with_mulpdu e number size) }
    ensures err { result ≢ pos 0 → handle.new.state ≡ handle.old.state }
{
    code(handle.set_mulpdu(alloc, number, size).err())
}
