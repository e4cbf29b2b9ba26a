ghost use Rattle.std.specs.Prelude.{◌≡◌, ◌≤◌, ◌^◌, ◌⊎◌, true, None, Some, Ok, IfOk, IfErr, OnOk, OnErr};
ghost use Rattle.std.specs.Result.{result_err};
ghost use Rattle.iw_stream.specs.Kept.{IsWithinBuffer};
ghost use Rattle.iw_endpoint.specs.Endpoint.{has_stream, point_at, step_at, after_work};
ghost use Rattle.iw_connection.specs.Steps.{is_progress, work_refusal, TriesAt, GoesTo, Stops, StopsFor};

use crate::StreamNumber;
use iw_endpoint::{CallRefusal, Endpoint, MAX_PLACE, Octets, Step};
use std::alloc::Allocator;
use thiserror::Error;

/// Why nothing more is done or emitted.
#[derive(Clone, Copy, Debug, PartialEq, Eq, Error)]
pub enum Refusal {
    /// No stream was opened under this number, or it was closed.
    #[error("no stream was opened under this number, or it was closed")]
    NoSuchStream,
    /// Out of memory: the call may be made again.
    #[error("no memory: the call may be made again")]
    NoMemory,
    /// The stream has taken in, or emitted, more than 2^62 octets: end the connection.
    #[error("the stream has taken in, or emitted, more than 2^62 octets")]
    TooFar,
}

/// Whether a step only tells how far the stream has come, so that the application need not act on it.
#[inline(always)]
pub fn is_progress<A: Allocator>(step: &Step<Octets<A>>) -> bool
    ensures { result ≡ is_progress step.now }
{
    match step {
        Step::Placed { .. }
        | Step::Buffered { .. }
        | Step::Requested { .. }
        | Step::Tried(_)
        | Step::Passed => true,
        Step::Done(_)
        | Step::Flushed(_)
        | Step::FlushedRecv(_)
        | Step::Asked
        | Step::Opened(_)
        | Step::Closed(_)
        | Step::Received { .. }
        | Step::Terminated(_)
        | Step::Fault(_)
        | Step::Idle => false,
    }
}

// By how much a step moves the in-order point at most: by the window.
pub(crate) const MOST_MOVED: u64 = 1 << 18;

// Where the in-order point is, if a step may be done.
pub(crate) fn point<A: Allocator>(
    endpoint: &Endpoint<A>,
    number: StreamNumber,
) -> Result<u64, Refusal>
    ensures refused { result_err result ≡ work_refusal endpoint.now number }
    ensures there { OnOk result (has_stream endpoint.now number ≡ true) }
    ensures point { IfOk result (λ point. point_at endpoint.now number ≤ point) }
    ensures near { IfOk result (λ point. point ≤ 2 ^ 62) }
{
    match endpoint.in_order_point(number) {
        Ok(point) if point <= MAX_PLACE => Ok(point),
        Ok(_) => Err(Refusal::TooFar),
        Err(_) => Err(Refusal::NoSuchStream),
    }
}

// The same, given a place that the point is not past: it is looked up only if that is too far.
#[inline(always)]
pub(crate) fn point_within<A: Allocator>(
    endpoint: &Endpoint<A>,
    number: StreamNumber,
    reach: u64,
) -> Result<u64, Refusal>
    requires { point_at endpoint.now number ≤ reach }
    ensures refused { IfErr result (λ refusal. work_refusal endpoint.now number ≡ Some refusal) }
    ensures point { IfOk result (λ point. point_at endpoint.now number ≤ point) }
    ensures near { IfOk result (λ point. point ≤ 2 ^ 62) }
{
    if reach <= MAX_PLACE {
        return Ok(reach);
    }
    point(endpoint, number)
}

// Does one step. The in-order point is not past `reach`, before it and after it.
#[inline(always)]
fn step<A: Allocator>(
    endpoint: &mut Endpoint<A>,
    number: StreamNumber,
    reach: &mut u64,
) -> Result<Step<Octets<A>>, Refusal>
    requires there { has_stream endpoint.old number ≡ true }
    requires reach { point_at endpoint.old number ≤ reach.old }
    ensures why { IfErr result (λ refusal. (work_refusal endpoint.old number ≡ Some refusal)
        ⊎ ((work_refusal endpoint.old number ≡ None) × (refusal ≡ Refusal.NoMemory) × TriesAt endpoint.old number)) }
    ensures step { IfOk result (λ step. Ok step ≡ step_at endpoint.old number) }
    ensures ok { OnOk result (endpoint.new ≡ after_work endpoint.old number) }
    ensures there { OnOk result (has_stream endpoint.new number ≡ true) }
    ensures reach { OnOk result (point_at endpoint.new number ≤ reach.new) }
    ensures within { IfOk result IsWithinBuffer }
    ensures err { OnErr result (endpoint.new ≡ endpoint.old) }
{
    let near = point_within(endpoint, number, *reach)?;
    match endpoint.work(number) {
        Ok(step) => {
            *reach = near + MOST_MOVED;
            Ok(step)
        }
        Err(CallRefusal::NoSuchStream) => unreachable!(),
        Err(CallRefusal::Refused(_)) => Err(Refusal::NoMemory),
    }
}

/// Works on to the next step that the application has to act on, and returns it; [`Step::Idle`] if there is nothing to
/// do. The steps that it leaves out only tell how far the stream has come: `Placed`, `Buffered`, `Requested`, `Tried` and
/// `Passed`.
///
/// An `Err` leaves the steps that were done before it, none of which has to be acted on. The first that applies then is told:
/// `NoSuchStream`; `TooFar`, if the in-order point is past 2^62 (or after 2^64 - 1 steps); `NoMemory`, which comes only when a
/// frame is judged before its turn.
pub fn next<A: Allocator>(
    endpoint: &mut Endpoint<A>,
    number: StreamNumber,
) -> Result<Step<Octets<A>>, Refusal>
    ensures ok { IfOk result (λ step. GoesTo endpoint.old number step endpoint.new) }
    ensures within { IfOk result IsWithinBuffer }
    ensures err { OnErr result (Stops endpoint.old number endpoint.new) }
    ensures why { IfErr result (λ refusal. StopsFor endpoint.old number endpoint.new refusal) }
{
    let mut reach = point(endpoint, number)?;
    'steps: for n in 0..u64::MAX {
        match step(endpoint, number, &mut reach) {
            Ok(step) if is_progress(&step) => {}
            Ok(step) => return Ok(step),
            Err(refusal) => return Err(refusal),
        }
    }
    Err(Refusal::TooFar)
}
