ghost use Rattle.std.specs.Prelude.{◌≡◌, ◌≤◌, ◌^◌, ◌⊎◌, true, None, Some, Ok, IfOk, IfErr, OnOk, OnErr};
ghost use Rattle.iw_stream.specs.Kept.{IsWithinBuffer};
ghost use Rattle.iw_endpoint.specs.Endpoint.{has_stream, point_at};
ghost use Rattle.iw_endpoint.specs.Sharing.{step_within, after_work_within};
ghost use Rattle.iw_connection.specs.Marking.{is_above_mark, passes_over, GoesMarked, StopsMarked, StopsMarkedFor};
ghost use Rattle.iw_connection.specs.Steps.{is_progress, work_refusal};
ghost use Rattle.iw_connection.specs.Within.{TriesWithin, GoesWithin, StopsWithin, StopsWithinFor};

use crate::StreamNumber;
use crate::working::{MOST_MOVED, Refusal, is_progress, point, point_within};
use iw_endpoint::{CallRefusal, Endpoint, Octets, Step};
use std::alloc::Allocator;

// Does one step within a share of the pool. The in-order point is not past `reach`, before it and after it.
#[inline(always)]
fn step_within<A: Allocator>(
    endpoint: &mut Endpoint<A>,
    number: StreamNumber,
    share: usize,
    reach: &mut u64,
) -> Result<Step<Octets<A>>, Refusal>
where
    A: Copy,
    requires there { has_stream endpoint.old number ≡ true }
    requires reach { point_at endpoint.old number ≤ reach.old }
    ensures why { IfErr result (λ refusal. (work_refusal endpoint.old number ≡ Some refusal)
        ⊎ ((work_refusal endpoint.old number ≡ None) × (refusal ≡ Refusal.NoMemory) × TriesWithin endpoint.old number share)) }
    ensures step { IfOk result (λ step. Ok step ≡ step_within endpoint.old number share) }
    ensures ok { OnOk result (endpoint.new ≡ after_work_within endpoint.old number share) }
    ensures there { OnOk result (has_stream endpoint.new number ≡ true) }
    ensures reach { OnOk result (point_at endpoint.new number ≤ reach.new) }
    ensures within { IfOk result IsWithinBuffer }
    ensures err { OnErr result (endpoint.new ≡ endpoint.old) }
{
    let near = point_within(endpoint, number, *reach)?;
    match endpoint.work_within(number, share) {
        Ok(step) => {
            *reach = near + MOST_MOVED;
            Ok(step)
        }
        Err(CallRefusal::NoSuchStream) => unreachable!(),
        Err(CallRefusal::Refused(_)) => Err(Refusal::NoMemory),
    }
}

/// As [`next`](crate::next), at a stream that may have no more than `share` of its pool's buffers bound to its messages
/// ([`Endpoint::work_within`]): for streams that share a pool without trusting one another.
///
/// An `Err` comes when that of `next` does, and leaves the same.
pub fn next_within<A: Allocator>(
    endpoint: &mut Endpoint<A>,
    number: StreamNumber,
    share: usize,
) -> Result<Step<Octets<A>>, Refusal>
where
    A: Copy,
    ensures ok { IfOk result (λ step. GoesWithin endpoint.old number share step endpoint.new) }
    ensures within { IfOk result IsWithinBuffer }
    ensures err { OnErr result (StopsWithin endpoint.old number share endpoint.new) }
    ensures why { IfErr result (λ refusal. StopsWithinFor endpoint.old number share endpoint.new refusal) }
{
    let mut reach = point(endpoint, number)?;
    'steps: for n in 0..u64::MAX {
        match step_within(endpoint, number, share, &mut reach) {
            Ok(step) if is_progress(&step) => {}
            Ok(step) => return Ok(step),
            Err(refusal) => return Err(refusal),
        }
    }
    Err(Refusal::TooFar)
}

/// Whether a stream has more than `mark` of its pool's buffers bound to its messages ([`Endpoint::bound_buffers`]). A stream
/// that shares no pool has none bound, and neither has a number under which no stream is open.
pub fn is_above_mark<A: Allocator>(
    endpoint: &Endpoint<A>,
    number: StreamNumber,
    mark: usize,
) -> bool
    ensures { result ≡ is_above_mark endpoint.now number mark }
{
    match endpoint.bound_buffers(number) {
        Ok(bound) => mark < bound,
        Err(_) => false,
    }
}

/// Whether [`next_marked`] passes over a step: it is progress ([`is_progress`](crate::is_progress)), and the stream was above the
/// mark before it (`above`), or is not above it now.
#[inline]
pub fn passes_over<A: Allocator>(
    step: &Step<Octets<A>>,
    above: bool,
    endpoint: &Endpoint<A>,
    number: StreamNumber,
    mark: usize,
) -> bool
    ensures { result ≡ passes_over (is_progress step.now) above (is_above_mark endpoint.now number mark) }
{
    is_progress(step) && (above || !is_above_mark(endpoint, number, mark))
}

/// As [`next_within`], and it also stops at the step by which the stream comes to have more than `mark` of its pool's buffers
/// bound, and returns it, which is a [`Step::Buffered`]: the high-water notification of RFC 5042 6.4.3.1, for an application
/// that is to act on a peer which takes much of the pool. It comes once, and again only after the stream had `mark` or fewer
/// bound ([`is_above_mark`]). `next` and `next_within` pass over that step: work at the stream by this call alone. An
/// application that sets no share passes `usize::MAX` for it.
///
/// An `Err` comes when that of [`next`](crate::next) does. It leaves the steps that were done before it, none of which has to
/// be acted on, and none of which passed the mark.
pub fn next_marked<A: Allocator>(
    endpoint: &mut Endpoint<A>,
    number: StreamNumber,
    share: usize,
    mark: usize,
) -> Result<Step<Octets<A>>, Refusal>
where
    A: Copy,
    ensures ok { IfOk result (λ step. GoesMarked endpoint.old number share mark step endpoint.new) }
    ensures within { IfOk result IsWithinBuffer }
    ensures err { OnErr result (StopsMarked endpoint.old number share mark endpoint.new) }
    ensures why { IfErr result (λ refusal. StopsMarkedFor endpoint.old number share mark endpoint.new refusal) }
{
    let mut reach = point(endpoint, number)?;
    'steps: for n in 0..u64::MAX {
        let above = is_above_mark(endpoint, number, mark);
        match step_within(endpoint, number, share, &mut reach) {
            Ok(step) if passes_over(&step, above, endpoint, number, mark) => {}
            Ok(step) => return Ok(step),
            Err(refusal) => return Err(refusal),
        }
    }
    Err(Refusal::TooFar)
}
