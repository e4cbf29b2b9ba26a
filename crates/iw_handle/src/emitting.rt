//! Emission: the next frame, written to the program's octets, and whether one is due.
ghost use Rattle.std.specs.Prelude.{◌≡◌, None, Some, length, IfSome, IfNone, IfOk, IfErr, OnOk, OnErr};
ghost use Rattle.std.specs.Option.{option_map};
ghost use Rattle.std.specs.Result.{result_err};
ghost use Rattle.iw_endpoint.specs.Endpoint.{emission_at, emitted_at, after_emit};
ghost use Rattle.iw_handle.specs.Events.{emitted_of, IsFrame};
ghost use Rattle.iw_handle.specs.State.{called_on, refusal_in, changed, told_in, shown_in, stream_refusal, filled, length_told};
ghost use Rattle.iw_handle.specs.Streams.{refusal_to_emit, refusal_to_go_on, due_shown, wants_write, progress_at};

use crate::event::{Emitted, Progress, emitted_of};
use crate::handle::Handle;
use crate::open_handle::Held;
use crate::refusal::Refusal;
use iw_endpoint::{CallRefusal, Endpoint, MAX_PLACE};
use std::alloc::Global;

// Emits a frame to the front of a buffer, if there is room for it.
fn emit(
    endpoint: &mut Endpoint,
    alloc: Global,
    number: u32,
    out: &mut [u8],
    len: &mut usize,
) -> Result<Emitted, Refusal>
    // The first refusal that applies; if none does, only `NoMemory`.
    ensures refused { IfSome (refusal_to_emit endpoint.old number (length out.old)) (λ r. result ≡ Err r) }
    ensures memory { IfNone (refusal_to_emit endpoint.old number (length out.old))
        (IfErr result (λ e. e ≡ Refusal.NoMemory)) }
    ensures want { result ≡ Err Refusal.NoMemory → IsFrame (emission_at endpoint.old number) }
    ensures len { len.new ≡ length_told (due_shown endpoint.old number) len.old }
    ensures emitted { IfOk result (λ emitted. emitted ≡ emitted_of (emission_at endpoint.old number)) }
    ensures octets { OnOk result (out.new ≡ filled (due_shown endpoint.old number) out.old) }
    ensures kept { OnErr result (out.new ≡ out.old) }
    ensures ok { OnOk result (endpoint.new ≡ after_emit endpoint.old number) }
    ensures err { OnErr result (endpoint.new ≡ endpoint.old) }
{
    let Ok(sent) = endpoint.sent(number) else {
        return Err(Refusal::NoSuchStream);
    };
    if sent > MAX_PLACE {
        return Err(Refusal::TooFar);
    }
    let Ok(due) = endpoint.due_len(number) else {
        return Err(Refusal::NoSuchStream);
    };
    *len = due;
    if due > out.len() {
        return Err(Refusal::NoRoom);
    }
    let mut frame = Vec::new(alloc);
    match endpoint.emit(number, &mut frame) {
        Ok(emission) => {
            let n = frame.len();
            out[..n].copy_from_slice(frame.as_slice());
            Ok(emitted_of(emission))
        }
        Err(CallRefusal::NoSuchStream) => Err(Refusal::NoSuchStream),
        Err(CallRefusal::Refused(_)) => Err(Refusal::NoMemory),
    }
}

// How far a stream is.
fn progress(held: &Held, number: u32) -> Result<Progress, Refusal>
    ensures refused { result_err result ≡ refusal_to_go_on held.now.endpoint number }
    ensures progress { IfOk result (λ progress. progress ≡ progress_at held.now number) }
{
    let endpoint = &held.endpoint;
    let Ok(sent) = endpoint.sent(number) else {
        return Err(Refusal::NoSuchStream);
    };
    if sent > MAX_PLACE {
        return Err(Refusal::TooFar);
    }
    let Ok(in_order) = endpoint.in_order_point(number) else {
        return Err(Refusal::NoSuchStream);
    };
    let Ok(due) = endpoint.due_len(number) else {
        return Err(Refusal::NoSuchStream);
    };
    let Ok(bound) = endpoint.bound_buffers(number) else {
        return Err(Refusal::NoSuchStream);
    };
    let slow = held.lines.slow_paths(number);
    Ok(Progress {
        sent,
        in_order,
        due: due as u64,
        bound: bound as u64,
        dropped: slow.dropped,
        tried: slow.tried,
        reserved_0: 0,
    })
}

// Whether there is something to emit, or a fault to tell.
fn wants_write(endpoint: &Endpoint, number: u32) -> Result<bool, Refusal>
    ensures refused { result_err result ≡ stream_refusal endpoint.now number }
    ensures wants { IfOk result (λ wants. wants ≡ wants_write endpoint.now number) }
{
    match endpoint.has_due(number) {
        Ok(wants) => Ok(wants),
        Err(_) => Err(Refusal::NoSuchStream),
    }
}

impl Handle {
    /// Whether the next call of [`Handle::emit`] has anything to report, a frame or a fault, unless memory runs out.
    pub fn wants_write(&mut self, alloc: Global, number: u32) -> Result<bool, Refusal>
        ensures refused { result_err result ≡ refusal_in self.old.state (λ e. stream_refusal e number) }
        ensures wants { IfOk result (λ wants. Some wants ≡ told_in self.old.state (λ e. wants_write e number)) }
        ensures same { self.new.state ≡ self.old.state }
    {
        let Some(held) = self.take(alloc) else {
            return Err(Refusal::Closed);
        };
        let done = wants_write(&held.endpoint, number);
        self.put(held);
        done
    }

    /// How far a stream is: how many octets it has emitted, its in-order point, how many octets the next call of
    /// [`Handle::emit`] gives, 0 also if that would tell a fault, how many buffers of its domain's pool it has bound
    /// ([`Endpoint::bound_buffers`]), and how often it took a slow path (RFC 5042 6.4.4).
    pub fn progress(&mut self, alloc: Global, number: u32) -> Result<Progress, Refusal>
        ensures refused { result_err result ≡ refusal_in self.old.state (λ e. refusal_to_go_on e number) }
        ensures progress { IfOk result (λ progress. Some progress ≡ option_map (λ held. progress_at held number) self.old.state) }
        ensures same { self.new.state ≡ self.old.state }
    {
        let Some(held) = self.take(alloc) else {
            return Err(Refusal::Closed);
        };
        let done = progress(&held, number);
        self.put(held);
        done
    }

    /// Emits what is due at a stream to the front of a buffer ([`Endpoint::emit`]) and returns what it was, in numbers.
    /// `len` becomes its length in octets, even if it does not fit (`NoRoom`) or memory runs out. An `Err` changes
    /// nothing else. `TooFar` comes if more than 2^62 octets were emitted; `NoMemory` only if no other refusal applies
    /// and octets are due.
    pub fn emit(
        &mut self,
        alloc: Global,
        number: u32,
        out: &mut [u8],
        len: &mut usize,
    ) -> Result<Emitted, Refusal>
        ensures refused { IfSome (refusal_in (called_on self.old.state number) (λ e. refusal_to_emit e number (length out.old)))
            (λ r. result ≡ Err r) }
        ensures memory { IfNone (refusal_in (called_on self.old.state number) (λ e. refusal_to_emit e number (length out.old)))
            (IfErr result (λ e. e ≡ Refusal.NoMemory)) }
        ensures want { result ≡ Err Refusal.NoMemory → IfSome (called_on self.old.state number)
            (λ held. IsFrame (emission_at held.endpoint number)) }
        ensures len { len.new ≡ length_told (shown_in (called_on self.old.state number) (λ e. due_shown e number)) len.old }
        ensures emitted { IfOk result
            (λ emitted. Some emitted ≡ told_in (called_on self.old.state number) (λ e. emitted_of (emission_at e number))) }
        ensures octets { OnOk result (out.new ≡ filled (shown_in (called_on self.old.state number) (λ e. due_shown e number)) out.old) }
        ensures kept { OnErr result (out.new ≡ out.old) }
        ensures ok { OnOk result (self.new.state ≡ changed (called_on self.old.state number) (λ e. after_emit e number)) }
        ensures err { OnErr result (self.new.state ≡ called_on self.old.state number) }
    {
        let Some(mut held) = self.take_on(alloc, number) else {
            return Err(Refusal::Closed);
        };
        let done = emit(&mut held.endpoint, alloc, number, out, len);
        self.put(held);
        done
    }
}
