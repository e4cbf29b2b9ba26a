//! Work with a share of the domain's pool.
ghost use Rattle.std.specs.Prelude.{◌≡◌, ◌≤◌, true, None, IfSome, IfNone, IfOk, IfErr, OnOk, OnErr, IsSomeAnd};
ghost use Rattle.std.specs.Result.{result_err};
ghost use Rattle.iw_endpoint.specs.Endpoint.{has_stream, point_at};
ghost use Rattle.iw_endpoint.specs.Sharing.{step_within, after_work_within};
ghost use Rattle.iw_handle.specs.Sharing.{TriesWithin, WorksOnWithin};
ghost use Rattle.iw_handle.specs.State.{called_on};
ghost use Rattle.iw_handle.specs.Streams.{refusal_to_work};

use crate::event::{Event, is_quiet};
use crate::handle::Handle;
use crate::open_handle::Held;
use crate::refusal::Refusal;
use crate::working::{MOST_MOVED, QUIET_STEPS, pass, point, point_within, tell};
use iw_endpoint::{CallRefusal, Endpoint, Octets, Step};
use std::alloc::Global;

// Does one step at an endpoint. The in-order point is not past `reach`, before it and after it.
#[inline(always)]
pub(crate) fn step(
    endpoint: &mut Endpoint,
    number: u32,
    share: usize,
    reach: &mut u64,
) -> Result<Step<Octets>, Refusal>
    requires there { has_stream endpoint.old number ≡ true }
    requires reach { point_at endpoint.old number ≤ reach.old }
    // The first refusal that applies; if none does, only `NoMemory`.
    ensures refused { IfSome (refusal_to_work endpoint.old number) (λ r. result ≡ Err r) }
    ensures memory { IfNone (refusal_to_work endpoint.old number) (IfErr result (λ e. e ≡ Refusal.NoMemory)) }
    ensures want { result ≡ Err Refusal.NoMemory → TriesWithin endpoint.old number share }
    ensures step { IfOk result (λ step. Ok step ≡ step_within endpoint.old number share) }
    ensures ok { OnOk result (endpoint.new ≡ after_work_within endpoint.old number share) }
    ensures there { OnOk result (has_stream endpoint.new number ≡ true) }
    ensures reach { OnOk result (point_at endpoint.new number ≤ reach.new) }
    ensures err { OnErr result (endpoint.new ≡ endpoint.old) }
{
    let near = point_within(endpoint, number, *reach)?;
    match endpoint.work_within(number, share) {
        Ok(step) => {
            *reach = near + MOST_MOVED;
            Ok(step)
        }
        Err(CallRefusal::NoSuchStream) => unreachable!(),
        Err(CallRefusal::Refused(_)) => Err(Refusal::NoMemory),
    }
}

// Does steps one after another: at most `most` quiet ones, then the one that it reports.
fn steps(
    held: &mut Held,
    number: u32,
    share: usize,
    most: u32,
    event: &mut Event,
) -> Result<(), Refusal>
    ensures steps { WorksOnWithin most held.old number share (result_err result) event.new held.new }
    ensures kept { OnErr result (event.new ≡ event.old) }
{
    let mut reach = point(&held.endpoint, number)?;
    let mut before = 0;
    'steps: loop {
        match step(&mut held.endpoint, number, share, &mut reach) {
            Ok(step) if before < most && is_quiet(&step) => {
                pass(&step, number, &mut held.lines);
                before += 1;
            }
            Ok(step) => {
                tell(step, number, &mut held.lines, event);
                return Ok(());
            }
            Err(refusal) => return Err(refusal),
        }
    }
}

impl Handle {
    /// As [`Handle::work_on`], but each step is lent the domain's pool only while the stream has bound fewer than `share` of its
    /// buffers ([`Endpoint::work_within`]; RFC 5042 6.4.3.1): a Send that would bind one more ends the stream, as one that finds
    /// the pool empty does.
    pub fn work_within(
        &mut self,
        alloc: Global,
        number: u32,
        share: usize,
        event: &mut Event,
    ) -> Result<(), Refusal>
        ensures closed { (called_on self.old.state number) ≡ None → (result ≡ Err Refusal.Closed) × (self.new.state ≡ None) }
        ensures steps { IfSome (called_on self.old.state number) (λ held. IsSomeAnd self.new.state
            (λ after. WorksOnWithin QUIET_STEPS held number share (result_err result) event.new after)) }
        ensures kept { OnErr result (event.new ≡ event.old) }
    {
        let Some(mut held) = self.take_on(alloc, number) else {
            return Err(Refusal::Closed);
        };
        let done = steps(&mut held, number, share, QUIET_STEPS, event);
        self.put(held);
        done
    }
}
