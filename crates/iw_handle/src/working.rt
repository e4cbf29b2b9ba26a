//! Delivery, work and what work hands back.
ghost use Rattle.std.specs.Prelude.{◌≡◌, ◌≤◌, ◌^◌, true, None, Some, length, IfSome, IfNone, IfOk, IfErr, OnOk, OnErr, IsSomeAnd};
ghost use Rattle.std.specs.Option.{option_map};
ghost use Rattle.std.specs.Result.{result_err};
ghost use Rattle.iw_endpoint.specs.Endpoint.{with_first, delivery_at, after_deliver, has_stream, point_at, step_at, after_work};
ghost use Rattle.iw_lines.specs.Line.{oldest_token};
ghost use Rattle.iw_lines.specs.Lines.{line_at};
ghost use Rattle.iw_handle.specs.Events.{event_of};
ghost use Rattle.iw_handle.specs.State.{called_on, refusal_in, changed, told_in, stream_refusal};
ghost use Rattle.iw_handle.specs.State.{copy_refusal, filled, length_told};
ghost use Rattle.iw_handle.specs.Streams.{first_refusal, refusal_to_work, BringsAt, TriesAt};
ghost use Rattle.iw_handle.specs.Streams.{handed_at, handed_in, refusal_to_fetch, fetched};
ghost use Rattle.iw_handle.specs.Streams.{lines_by, lines_passed, held_worked, worked, event_in};
ghost use Rattle.iw_handle.specs.Streams.{held_delivered, delivered};
ghost use Rattle.iw_handle.specs.Steps.{WorksOn};

use crate::copying::{check_stream, copy_out};
use crate::event::{Event, event_of, is_quiet};
use crate::handle::Handle;
use crate::open_handle::Held;
use crate::refusal::{Refusal, first_reason};
use iw_endpoint::{CallRefusal, Delivery, Endpoint, MAX_PLACE, Octets, Step};
use iw_lines::{Handed, Lines};
use std::alloc::Global;

/// The most steps that [`Handle::work_on`] does before the one that it reports.
pub const QUIET_STEPS: u32 = 4_095;

fn deliver_at(
    endpoint: &mut Endpoint,
    number: u32,
    sequence: u32,
    octets: &[u8],
) -> Result<Delivery, Refusal>
    ensures refused { IfSome (stream_refusal endpoint.old number) (λ r. result ≡ Err r) }
    ensures memory { IfNone (stream_refusal endpoint.old number) (IfErr result (λ e. e ≡ Refusal.NoMemory)) }
    ensures want { IfNone (stream_refusal endpoint.old number)
        (OnErr result (BringsAt endpoint.old number sequence (length octets.now))) }
    ensures delivery { IfOk result (λ delivery. delivery ≡ delivery_at endpoint.old number sequence (length octets.now)) }
    ensures ok { OnOk result (endpoint.new ≡ after_deliver endpoint.old number sequence octets.now) }
    ensures err { OnErr result (endpoint.new ≡ endpoint.old) }
{
    match endpoint.deliver(number, sequence, octets) {
        Ok(delivery) => Ok(delivery),
        Err(CallRefusal::NoSuchStream) => Err(Refusal::NoSuchStream),
        Err(CallRefusal::Refused(_)) => Err(Refusal::NoMemory),
    }
}

// The same, and counts a delivery that is dropped.
fn deliver(held: &mut Held, number: u32, sequence: u32, octets: &[u8]) -> Result<Delivery, Refusal>
    ensures refused { IfSome (stream_refusal held.old.endpoint number) (λ r. result ≡ Err r) }
    ensures memory { IfNone (stream_refusal held.old.endpoint number) (IfErr result (λ e. e ≡ Refusal.NoMemory)) }
    ensures want { IfNone (stream_refusal held.old.endpoint number)
        (OnErr result (BringsAt held.old.endpoint number sequence (length octets.now))) }
    ensures delivery { IfOk result (λ delivery. delivery ≡ delivery_at held.old.endpoint number sequence (length octets.now)) }
    ensures ok { OnOk result (held.new ≡ held_delivered held.old number sequence octets.now) }
    ensures err { OnErr result (held.new ≡ held.old) }
{
    let delivery = deliver_at(&mut held.endpoint, number, sequence, octets)?;
    match delivery {
        Delivery::Kept => {}
        Delivery::Dropped => held.lines.count_dropped(number),
    }
    Ok(delivery)
}

// Tells a step, and keeps what it hands back. The token of a message that is done or given up is taken out.
#[inline(always)]
pub(crate) fn tell(step: Step<Octets>, number: u32, lines: &mut Lines, event: &mut Event)
    ensures event { event.new ≡ event_of (oldest_token (line_at lines.old number)) step }
    ensures lines { lines.new ≡ lines_by step number lines.old }
{
    *event = event_of(0, &step);
    match step {
        Step::Received { buffer, len, .. } => lines.keep(number, Handed { buffer, len }),
        Step::FlushedRecv(buffer) => lines.keep(number, Handed::whole(buffer)),
        Step::Done(_) | Step::Flushed(_) => event.token = lines.pop(number),
        Step::Tried(_) => lines.count_tried(number),
        Step::Asked
        | Step::Opened(_)
        | Step::Closed(_)
        | Step::Placed { .. }
        | Step::Buffered { .. }
        | Step::Requested { .. }
        | Step::Passed
        | Step::Terminated(_)
        | Step::Fault(_)
        | Step::Idle => {}
    }
}

// Passes over a quiet step: counts a frame that was judged before its turn.
#[inline(always)]
pub(crate) fn pass(step: &Step<Octets>, number: u32, lines: &mut Lines)
    ensures { lines.new ≡ lines_passed step.now number lines.old }
{
    match step {
        Step::Tried(_) => lines.count_tried(number),
        Step::Received { .. }
        | Step::FlushedRecv(_)
        | Step::Done(_)
        | Step::Flushed(_)
        | Step::Asked
        | Step::Opened(_)
        | Step::Closed(_)
        | Step::Placed { .. }
        | Step::Buffered { .. }
        | Step::Requested { .. }
        | Step::Passed
        | Step::Terminated(_)
        | Step::Fault(_)
        | Step::Idle => {}
    }
}

// By how much a step moves the in-order point at most: by the window.
pub(crate) const MOST_MOVED: u64 = 1 << 18;

// Where the in-order point is, if a step may be done.
pub(crate) fn point(endpoint: &Endpoint, number: u32) -> Result<u64, Refusal>
    ensures refused { result_err result ≡ refusal_to_work endpoint.now number }
    ensures there { OnOk result (has_stream endpoint.now number ≡ true) }
    ensures point { IfOk result (λ point. point_at endpoint.now number ≤ point) }
    ensures near { IfOk result (λ point. point ≤ 2 ^ 62) }
{
    match endpoint.in_order_point(number) {
        Ok(point) if point <= MAX_PLACE => Ok(point),
        Ok(_) => Err(Refusal::TooFar),
        Err(_) => Err(Refusal::NoSuchStream),
    }
}

// The same, given a place that the point is not past: it is looked up only if that is too far.
#[inline(always)]
pub(crate) fn point_within(endpoint: &Endpoint, number: u32, reach: u64) -> Result<u64, Refusal>
    requires { point_at endpoint.now number ≤ reach }
    ensures refused { IfErr result (λ refusal. refusal_to_work endpoint.now number ≡ Some refusal) }
    ensures point { IfOk result (λ point. point_at endpoint.now number ≤ point) }
    ensures near { IfOk result (λ point. point ≤ 2 ^ 62) }
{
    if reach <= MAX_PLACE {
        return Ok(reach);
    }
    point(endpoint, number)
}

// Does one step at an endpoint. The in-order point is not past `reach`, before it and after it.
#[inline(always)]
fn step(endpoint: &mut Endpoint, number: u32, reach: &mut u64) -> Result<Step<Octets>, Refusal>
    requires there { has_stream endpoint.old number ≡ true }
    requires reach { point_at endpoint.old number ≤ reach.old }
    // The first refusal that applies; if none does, only `NoMemory`.
    ensures refused { IfSome (refusal_to_work endpoint.old number) (λ r. result ≡ Err r) }
    ensures memory { IfNone (refusal_to_work endpoint.old number) (IfErr result (λ e. e ≡ Refusal.NoMemory)) }
    ensures want { result ≡ Err Refusal.NoMemory → TriesAt endpoint.old number }
    ensures step { IfOk result (λ step. Ok step ≡ step_at endpoint.old number) }
    ensures ok { OnOk result (endpoint.new ≡ after_work endpoint.old number) }
    ensures there { OnOk result (has_stream endpoint.new number ≡ true) }
    ensures reach { OnOk result (point_at endpoint.new number ≤ reach.new) }
    ensures err { OnErr result (endpoint.new ≡ endpoint.old) }
{
    let near = point_within(endpoint, number, *reach)?;
    match endpoint.work(number) {
        Ok(step) => {
            *reach = near + MOST_MOVED;
            Ok(step)
        }
        Err(CallRefusal::NoSuchStream) => unreachable!(),
        Err(CallRefusal::Refused(_)) => Err(Refusal::NoMemory),
    }
}

// Does one step, and reports it.
#[inline(never)]
fn work(held: &mut Held, number: u32, event: &mut Event) -> Result<(), Refusal>
    // The first refusal that applies; if none does, only `NoMemory`.
    ensures refused { IfSome (refusal_to_work held.old.endpoint number) (λ r. result ≡ Err r) }
    ensures memory { IfNone (refusal_to_work held.old.endpoint number) (IfErr result (λ e. e ≡ Refusal.NoMemory)) }
    ensures want { result ≡ Err Refusal.NoMemory → TriesAt held.old.endpoint number }
    ensures event { OnOk result (event.new ≡ event_in held.old number) }
    ensures kept { OnErr result (event.new ≡ event.old) }
    ensures ok { OnOk result (held.new ≡ held_worked held.old number) }
    ensures err { OnErr result (held.new ≡ held.old) }
{
    let mut reach = point(&held.endpoint, number)?;
    let step = step(&mut held.endpoint, number, &mut reach)?;
    tell(step, number, &mut held.lines, event);
    Ok(())
}

// Does steps one after another: at most `most` quiet ones, then the one that it reports. That may be quiet only behind so many, so
// what a quiet step tells is let go until then.
fn steps(held: &mut Held, number: u32, most: u32, event: &mut Event) -> Result<(), Refusal>
    ensures steps { WorksOn most held.old number (result_err result) event.new held.new }
    ensures kept { OnErr result (event.new ≡ event.old) }
{
    let mut reach = point(&held.endpoint, number)?;
    'steps: for n in 0..most {
        match step(&mut held.endpoint, number, &mut reach) {
            Ok(step) if is_quiet(&step) => pass(&step, number, &mut held.lines),
            Ok(step) => {
                tell(step, number, &mut held.lines, event);
                return Ok(());
            }
            Err(refusal) => return Err(refusal),
        }
    }
    work(held, number, event)
}

// Copies out what a stream handed back, and frees it.
fn fetch(
    held: &mut Held,
    alloc: Global,
    number: u32,
    out: &mut [u8],
    len: &mut usize,
) -> Result<(), Refusal>
    ensures refused { result_err result ≡ copy_refusal (handed_at held.old number) Refusal.NoSuchStream (length out.old) }
    ensures len { len.new ≡ length_told (handed_at held.old number) len.old }
    ensures octets { OnOk result (out.new ≡ filled (handed_at held.old number) out.old) }
    ensures kept { OnErr result (out.new ≡ out.old) }
    ensures ok { OnOk result (Some held.new ≡ fetched (Some held.old) number) }
    ensures err { OnErr result (held.new ≡ held.old) }
{
    check_stream(&held.endpoint, number)?;
    copy_out(held.lines.told(number), out, len)?;
    let _ = held.lines.fetch(alloc, number);
    Ok(())
}

impl Handle {
    /// Sets the sequence number of the peer's first octet ([`Endpoint::first_number`]). `Late`: octets were delivered
    /// on the stream before. An `Err` changes nothing.
    pub fn first_number(&mut self, alloc: Global, number: u32, first: u32) -> Result<(), Refusal>
        ensures refused { result_err result ≡ refusal_in self.old.state (λ e. first_refusal e number) }
        ensures ok { OnOk result (self.new.state ≡ changed self.old.state (λ e. with_first e number first)) }
        ensures err { OnErr result (self.new.state ≡ self.old.state) }
    {
        let Some(mut held) = self.take(alloc) else {
            return Err(Refusal::Closed);
        };
        let done = held.endpoint.first_number(number, first);
        self.put(held);
        match done {
            Ok(()) => Ok(()),
            Err(refusal) => Err(first_reason(refusal)),
        }
    }

    /// Takes octets that came on a stream's connection; the first has this sequence number ([`Endpoint::deliver`]). An
    /// `Err` changes nothing; `NoMemory` comes only if the octets would be kept and one of them is new.
    pub fn deliver(
        &mut self,
        alloc: Global,
        number: u32,
        sequence: u32,
        octets: &[u8],
    ) -> Result<Delivery, Refusal>
        ensures refused { IfSome (refusal_in (called_on self.old.state number) (λ e. stream_refusal e number)) (λ r. result ≡ Err r) }
        ensures memory { IfNone (refusal_in (called_on self.old.state number) (λ e. stream_refusal e number))
            (IfErr result (λ e. e ≡ Refusal.NoMemory)) }
        ensures want { IfSome (called_on self.old.state number) (λ held. IfNone (stream_refusal held.endpoint number)
            (OnErr result (BringsAt held.endpoint number sequence (length octets.now)))) }
        ensures delivery { IfOk result
            (λ delivery. Some delivery ≡ told_in (called_on self.old.state number) (λ e. delivery_at e number sequence (length octets.now))) }
        ensures ok { OnOk result
            (self.new.state ≡ delivered (called_on self.old.state number) number sequence octets.now) }
        ensures err { OnErr result (self.new.state ≡ called_on self.old.state number) }
    {
        let Some(mut held) = self.take_on(alloc, number) else {
            return Err(Refusal::Closed);
        };
        let done = deliver(&mut held, number, sequence, octets);
        self.put(held);
        done
    }

    /// Does one step at a stream ([`Endpoint::work`]) and writes it to `event`, in numbers, with the token of a message that is
    /// done or flushed. Get a message that was received, or a buffer that is handed back, with [`Handle::fetch`] before this
    /// stream hands back the next one. An `Err`
    /// changes nothing. `TooFar` comes if the in-order point is past 2^62; `NoMemory` only if no other refusal applies
    /// and a frame is judged before its turn.
    pub fn work(&mut self, alloc: Global, number: u32, event: &mut Event) -> Result<(), Refusal>
        ensures refused { IfSome (refusal_in (called_on self.old.state number) (λ e. refusal_to_work e number)) (λ r. result ≡ Err r) }
        ensures memory { IfNone (refusal_in (called_on self.old.state number) (λ e. refusal_to_work e number))
            (IfErr result (λ e. e ≡ Refusal.NoMemory)) }
        ensures want { result ≡ Err Refusal.NoMemory → IfSome (called_on self.old.state number) (λ held. TriesAt held.endpoint number) }
        ensures event { OnOk result (Some event.new ≡ option_map (λ held. event_in held number) (called_on self.old.state number)) }
        ensures kept { OnErr result (event.new ≡ event.old) }
        ensures ok { OnOk result (self.new.state ≡ worked (called_on self.old.state number) number) }
        ensures err { OnErr result (self.new.state ≡ called_on self.old.state number) }
    {
        let Some(mut held) = self.take_on(alloc, number) else {
            return Err(Refusal::Closed);
        };
        let done = work(&mut held, number, event);
        self.put(held);
        done
    }

    /// Calls [`Handle::work`] until a step is not quiet or is refused, at most 4,096 times, and reports the last step.
    /// The quiet steps, which the program need not act on, are `Placed`, `Buffered`, `Requested`, `Tried` and `Passed`;
    /// one of them is reported only if it is the 4,096th. An `Err` leaves the steps before it done, and changes nothing
    /// else.
    pub fn work_on(&mut self, alloc: Global, number: u32, event: &mut Event) -> Result<(), Refusal>
        ensures closed { (called_on self.old.state number) ≡ None → (result ≡ Err Refusal.Closed) × (self.new.state ≡ None) }
        ensures steps { IfSome (called_on self.old.state number) (λ held. IsSomeAnd self.new.state
            (λ after. WorksOn QUIET_STEPS held number (result_err result) event.new after)) }
        ensures kept { OnErr result (event.new ≡ event.old) }
    {
        let Some(mut held) = self.take_on(alloc, number) else {
            return Err(Refusal::Closed);
        };
        let done = steps(&mut held, number, QUIET_STEPS, event);
        self.put(held);
        done
    }

    /// Copies what a stream handed back last to the front of a buffer, and forgets it. `len` becomes its length in octets,
    /// even if it does not fit (`NoRoom`); 0 if nothing waits there. An `Err` changes nothing else. `NoSuchStream` leaves `len` too.
    pub fn fetch(
        &mut self,
        alloc: Global,
        number: u32,
        out: &mut [u8],
        len: &mut usize,
    ) -> Result<(), Refusal>
        ensures refused { result_err result ≡ refusal_to_fetch self.old.state number (length out.old) }
        ensures len { len.new ≡ length_told (handed_in self.old.state number) len.old }
        ensures octets { OnOk result (out.new ≡ filled (handed_in self.old.state number) out.old) }
        ensures kept { OnErr result (out.new ≡ out.old) }
        ensures ok { OnOk result (self.new.state ≡ fetched self.old.state number) }
        ensures err { OnErr result (self.new.state ≡ self.old.state) }
    {
        let Some(mut held) = self.take(alloc) else {
            return Err(Refusal::Closed);
        };
        let done = fetch(&mut held, alloc, number, out, len);
        self.put(held);
        done
    }
}
