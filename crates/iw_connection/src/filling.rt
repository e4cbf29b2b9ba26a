ghost use Rattle.std.specs.Prelude.{◌≡◌, ◌<◌, ◌≤◌, ◌+◌, ◌^◌, ◌++◌, length, true, false, None, Err, vec_len, vec_capacity};
ghost use Rattle.std.specs.Prelude.{IfOk, IfErr, IfSome, IfNone, OnOk, OnErr};
ghost use Rattle.std.specs.Result.{result_err};
ghost use Rattle.iw_stream.specs.Stream.{BeginsReads, IsNothing, due};
ghost use Rattle.iw_endpoint.specs.Endpoint.{has_stream, stream_at, sent_at, emission_at, emitted_at, after_emit};
ghost use Rattle.iw_connection.specs.Filling.{fill_refusal, Fills, FillsTo, Fits, IsHeld, Stopped};

use crate::StreamNumber;
use crate::working::Refusal;
use iw_endpoint::{CallRefusal, Emission, Endpoint, Fault, MAX_PLACE};
use std::alloc::{AllocError, Allocator};

/// Where [`fill`] stopped.
#[derive(Clone, Copy, Debug, PartialEq, Eq)]
pub enum Filled {
    /// Nothing more is due.
    All,
    /// Frames were appended, and more may be due: the next frame would be one too many, or there was no memory for it. The
    /// next call appends it, or tells why not. Behind a first frame that is longer than was asked for, it was not looked what
    /// is next: nothing may be due.
    More,
    /// The peer may no longer read what it asked for: the stream has ended by this fault. The next call appends the
    /// Terminate.
    Fault(Fault),
}

// How many octets a stream emitted, if it may emit more.
fn octets_sent<A: Allocator>(endpoint: &Endpoint<A>, number: StreamNumber) -> Result<u64, Refusal>
    ensures refused { result_err result ≡ fill_refusal endpoint.now number }
    ensures there { OnOk result (has_stream endpoint.now number ≡ true) }
    ensures sent { IfOk result (λ sent. sent ≡ sent_at endpoint.now number) }
    ensures few { IfOk result (λ sent. sent ≤ 2 ^ 62) }
{
    match endpoint.sent(number) {
        Ok(sent) if sent <= MAX_PLACE => Ok(sent),
        Ok(_) => Err(Refusal::TooFar),
        Err(_) => Err(Refusal::NoSuchStream),
    }
}

// Emits what is due, and tells where it stops, unless that is a frame. An `Err` means out of memory.
#[inline(always)]
fn emit<A: Allocator>(
    endpoint: &mut Endpoint<A>,
    number: StreamNumber,
    out: &mut Vec<u8, A>,
) -> Result<Option<Filled>, AllocError>
    requires there { has_stream endpoint.old number ≡ true }
    requires few { sent_at endpoint.old number ≤ 2 ^ 62 }
    ensures stopped { IfOk result (λ stopped. Stopped (emission_at endpoint.old number) stopped) }
    ensures out { OnOk result (out.new.items ≡ out.old.items ++ emitted_at endpoint.old number) }
    ensures after { OnOk result (endpoint.new ≡ after_emit endpoint.old number) }
    ensures room { vec_len out.old + length (emitted_at endpoint.old number) ≤ vec_capacity out.old
        → OnErr result (BeginsReads (stream_at endpoint.old number) (due (stream_at endpoint.old number))) }
    ensures err { OnErr result ((endpoint.new ≡ endpoint.old) × (out.new.items ≡ out.old.items)) }
{
    match endpoint.emit(number, out) {
        Ok(Emission::Frame { .. }) => Ok(None),
        Ok(Emission::Fetched { .. }) => Ok(None),
        Ok(Emission::Nothing) => Ok(Some(Filled::All)),
        Ok(Emission::Fault(fault)) => Ok(Some(Filled::Fault(fault))),
        Err(CallRefusal::NoSuchStream) => unreachable!(),
        Err(CallRefusal::Refused(refused)) => Err(refused),
    }
}

// How many octets the next emission has, or at most has if that is enough to tell that they are no more than `rest`.
#[inline(always)]
fn due_within<A: Allocator>(endpoint: &Endpoint<A>, number: StreamNumber, rest: usize) -> usize
    requires there { has_stream endpoint.now number ≡ true }
    requires few { sent_at endpoint.now number ≤ 2 ^ 62 }
    ensures most { length (emitted_at endpoint.now number) ≤ result }
    ensures over { rest < result → rest < length (emitted_at endpoint.now number) }
    ensures some { length (emitted_at endpoint.now number) ≡ 0 → IsNothing (emission_at endpoint.now number) }
{
    match endpoint.most_due(number) {
        Ok(most) if most <= rest => most,
        Ok(_) => due_len(endpoint, number),
        Err(_) => unreachable!(),
    }
}

fn due_len<A: Allocator>(endpoint: &Endpoint<A>, number: StreamNumber) -> usize
    requires there { has_stream endpoint.now number ≡ true }
    requires few { sent_at endpoint.now number ≤ 2 ^ 62 }
    ensures { result ≡ length (emitted_at endpoint.now number) }
{
    match endpoint.due_len(number) {
        Ok(len) => len,
        Err(_) => unreachable!(),
    }
}

// Whether the next emission is held back behind `n` frames: it has more than `rest` octets, or there is no room for it and none
// can be made. The first never is.
#[inline(always)]
fn is_held<A: Allocator>(
    endpoint: &Endpoint<A>,
    number: StreamNumber,
    out: &mut Vec<u8, A>,
    n: u64,
    rest: usize,
) -> bool
    requires there { has_stream endpoint.now number ≡ true }
    requires few { sent_at endpoint.now number ≤ 2 ^ 62 }
    ensures items { out.new.items ≡ out.old.items }
    ensures first { n ≡ 0 → vec_capacity out.new ≡ vec_capacity out.old }
    ensures held { result ≡ true → (0 < n) × IsHeld endpoint.now number (vec_len out.new + rest) (vec_len out.new) (vec_capacity out.new) }
    ensures fits { result ≡ false → 0 < n → Fits endpoint.now number rest (vec_len out.new) (vec_capacity out.new) }
{
    if n == 0 {
        return false;
    }
    let most = due_within(endpoint, number, rest);
    most > rest || out.reserve(most).is_err()
}

/// As [`fill`], and tells how many frames it appended.
pub fn fill_frames<A: Allocator>(
    endpoint: &mut Endpoint<A>,
    number: StreamNumber,
    out: &mut Vec<u8, A>,
    most: usize,
) -> Result<(u64, Filled), Refusal>
    ensures ok { IfOk result (λ told. FillsTo endpoint.old number most out.old.items out.new.items (vec_capacity out.new) endpoint.new told.0 told.1) }
    ensures refused { IfSome (fill_refusal endpoint.old number) (λ refusal. result ≡ Err refusal) }
    ensures memory { IfNone (fill_refusal endpoint.old number) (IfErr result (λ e. e ≡ Refusal.NoMemory)) }
    ensures room { fill_refusal endpoint.old number ≡ None → vec_len out.old + length (emitted_at endpoint.old number) ≤ vec_capacity out.old
        → OnErr result (BeginsReads (stream_at endpoint.old number) (due (stream_at endpoint.old number))) }
    ensures err { OnErr result ((endpoint.new ≡ endpoint.old) × (out.new.items ≡ out.old.items)) }
{
    let sent = octets_sent(endpoint, number)?;
    let begun = out.len();
    'frames: for n in 0..u64::MAX {
        let filled = out.len() - begun;
        if filled > most {
            return Ok((n, Filled::More));
        }
        if filled as u64 > MAX_PLACE - sent {
            return Ok((n, Filled::More));
        }
        if is_held(endpoint, number, out, n, most - filled) {
            return Ok((n, Filled::More));
        }
        match emit(endpoint, number, out) {
            Ok(None) => {}
            Ok(Some(stopped)) => {
                return Ok((n, stopped));
            }
            Err(_) if n > 0 => return Ok((n, Filled::More)),
            Err(_) => return Err(Refusal::NoMemory),
        }
    }
    // No buffer has as many octets.
    Ok((0, Filled::More))
}

/// Appends to `out` what a stream is to send, frame by frame, until nothing is due or one frame more would make what this
/// call appends more than `most` octets. A first frame is appended even if it is longer; then the answer is `More` whether
/// anything else is due or not. No frame is cut.
///
/// An `Err` comes only if no frame was appended, and changes nothing; what is refused behind a frame is answered `More`, and
/// the next call meets it first. The first that applies is told: `NoSuchStream`; `TooFar`, if more than 2^62 octets were
/// emitted; `NoMemory`, which comes only if `out` has no room for what is due, or if a Read is begun while none is
/// outstanding.
pub fn fill<A: Allocator>(
    endpoint: &mut Endpoint<A>,
    number: StreamNumber,
    out: &mut Vec<u8, A>,
    most: usize,
) -> Result<Filled, Refusal>
    ensures ok { IfOk result (λ filled. Fills endpoint.old number most out.old.items out.new.items (vec_capacity out.new) endpoint.new filled) }
    ensures refused { IfSome (fill_refusal endpoint.old number) (λ refusal. result ≡ Err refusal) }
    ensures memory { IfNone (fill_refusal endpoint.old number) (IfErr result (λ e. e ≡ Refusal.NoMemory)) }
    ensures room { fill_refusal endpoint.old number ≡ None → vec_len out.old + length (emitted_at endpoint.old number) ≤ vec_capacity out.old
        → OnErr result (BeginsReads (stream_at endpoint.old number) (due (stream_at endpoint.old number))) }
    ensures err { OnErr result ((endpoint.new ≡ endpoint.old) × (out.new.items ≡ out.old.items)) }
{
    match fill_frames(endpoint, number, out, most) {
        Ok((_, filled)) => Ok(filled),
        Err(refusal) => Err(refusal),
    }
}
