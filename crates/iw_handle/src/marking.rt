//! Work with a share of the domain's pool, and a high-water mark.
ghost use Rattle.std.specs.Prelude.{◌≡◌, ◌<◌, not, ◌&&◌, None, IfSome, IfNone, OnErr, IsSomeAnd};
ghost use Rattle.std.specs.Result.{result_err};
ghost use Rattle.iw_connection.specs.Marking.{is_above_mark};
ghost use Rattle.iw_handle.specs.Limits.{is_plain, limits_refusal, counts, share_of, mark_of};
ghost use Rattle.iw_handle.specs.Marking.{with_mark, WorksOnMarked};
ghost use Rattle.iw_handle.specs.State.{called_on};

use crate::event::Event;
use crate::handle::Handle;
use crate::open_handle::Held;
use crate::refusal::Refusal;
use crate::registering::{check_flags, has_flag};
use crate::sharing::step;
use crate::structs::{FLAGGED_LIMITS_SIZE, LIMITS_SIZE, Limits, check_size};
use crate::working::{QUIET_STEPS, pass, point, tell};
use iw_codes::numbers;
use iw_connection::{is_above_mark, passes_over};
use iw_endpoint::Endpoint;
use std::alloc::Global;

// In place of a share or a mark that does not count.
const NO_LIMIT: usize = usize::MAX;

// Whether limits have no flags, as in the first version.
fn is_plain(limits: &Limits) -> bool
    ensures { result ≡ is_plain limits.now }
{
    limits.size < FLAGGED_LIMITS_SIZE
}

fn check_limits(limits: &Limits) -> Result<(), Refusal>
    ensures { result_err result ≡ limits_refusal limits.now }
{
    check_size(LIMITS_SIZE, limits.size)?;
    if is_plain(limits) {
        Ok(())
    } else {
        check_flags(limits.flags)
    }
}

// Whether a limit counts, whose flag this is.
fn counts(limits: &Limits, flag: u32, limit: usize) -> bool
    requires { 0 < flag }
    ensures { result ≡ counts limits.now flag limit }
{
    if is_plain(limits) {
        return true;
    }
    if limits.flags == 0 {
        return limit != 0;
    }
    has_flag(limits.flags, flag)
}

fn share_of(limits: &Limits) -> usize
    ensures { result ≡ share_of limits.now }
{
    if counts(limits, numbers::HAS_SHARE, limits.share) {
        limits.share
    } else {
        NO_LIMIT
    }
}

fn mark_of(limits: &Limits) -> usize
    ensures { result ≡ mark_of limits.now }
{
    if counts(limits, numbers::HAS_MARK, limits.mark) {
        limits.mark
    } else {
        NO_LIMIT
    }
}

// Tells that a step took the stream above the mark: it was not above it before (`above`), and is now.
fn tell_mark(above: bool, endpoint: &Endpoint, number: u32, mark: usize, event: &mut Event)
    ensures { event.new ≡ with_mark (not above && is_above_mark endpoint.now number mark) event.old }
{
    if !above && is_above_mark(endpoint, number, mark) {
        event.flags = numbers::ABOVE_MARK;
    }
}

// Does steps one after another: at most `most` quiet ones that do not pass the mark, then the one that it reports.
fn steps(
    held: &mut Held,
    number: u32,
    share: usize,
    mark: usize,
    most: u32,
    event: &mut Event,
) -> Result<(), Refusal>
    ensures steps { WorksOnMarked most held.old number share mark (result_err result) event.new held.new }
    ensures kept { OnErr result (event.new ≡ event.old) }
{
    let mut reach = point(&held.endpoint, number)?;
    let mut before = 0;
    'steps: loop {
        let above = is_above_mark(&held.endpoint, number, mark);
        match step(&mut held.endpoint, number, share, &mut reach) {
            Ok(step) if before < most && passes_over(&step, above, &held.endpoint, number, mark) =>
                {
                    pass(&step, number, &mut held.lines);
                    before += 1;
                }
            Ok(step) => {
                tell(step, number, &mut held.lines, event);
                tell_mark(above, &held.endpoint, number, mark, event);
                return Ok(());
            }
            Err(refusal) => return Err(refusal),
        }
    }
}

// The same, with the limits of a struct, which is judged first.
fn steps_by(held: &mut Held, number: u32, limits: &Limits, event: &mut Event) -> Result<(), Refusal>
    ensures bad { IfSome (limits_refusal limits.now) (λ r. (result ≡ Err r) × (held.new ≡ held.old)) }
    ensures steps { IfNone (limits_refusal limits.now)
        (WorksOnMarked QUIET_STEPS held.old number (share_of limits.now) (mark_of limits.now) (result_err result) event.new held.new) }
    ensures kept { OnErr result (event.new ≡ event.old) }
{
    check_limits(limits)?;
    steps(
        held,
        number,
        share_of(limits),
        mark_of(limits),
        QUIET_STEPS,
        event,
    )
}

impl Handle {
    /// As [`Handle::work_within`], with the share of a struct; and the call also ends with the step by which the stream comes to
    /// have more than the struct's mark of its pool's buffers bound, and writes it to `event`, `BUFFERED` with the flag
    /// `ABOVE_MARK`, which no other has: the high-water notification of RFC 5042 6.4.3.1. It comes once, and again only after the
    /// stream had so many or fewer bound. [`Handle::work_on`] and [`Handle::work_within`] pass over that step. The flags say
    /// which limits count; without one those that are not 0. In a struct of less than 64 octets, which has no flags, both count. A
    /// limit of `usize::MAX` is none. `BadStruct` means that the struct is shorter than that of the first version, `BadBits` that it has an unknown
    /// flag; both are judged before the stream, and then no step is done.
    pub fn work_marked(
        &mut self,
        alloc: Global,
        number: u32,
        limits: &Limits,
        event: &mut Event,
    ) -> Result<(), Refusal>
        ensures closed { (called_on self.old.state number) ≡ None → (result ≡ Err Refusal.Closed) × (self.new.state ≡ None) }
        ensures bad { IfSome (called_on self.old.state number) (λ held.
            IfSome (limits_refusal limits.now) (λ r. (result ≡ Err r) × (self.new.state ≡ Some held))) }
        ensures steps { IfSome (called_on self.old.state number) (λ held.
            IfNone (limits_refusal limits.now) (IsSomeAnd self.new.state (λ after.
            WorksOnMarked QUIET_STEPS held number (share_of limits.now) (mark_of limits.now) (result_err result) event.new after))) }
        ensures kept { OnErr result (event.new ≡ event.old) }
    {
        let Some(mut held) = self.take_on(alloc, number) else {
            return Err(Refusal::Closed);
        };
        let done = steps_by(&mut held, number, limits, event);
        self.put(held);
        done
    }
}
