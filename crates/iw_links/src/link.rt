ghost use Rattle.std.specs.Prelude.{◌≡◌, ◌+◌, ◌≤◌, ◌++◌, [], length, take, List, ℕ, if◌then◌else◌};
ghost use Rattle.std.specs.Prelude.{Some, None, Ok, IfOk, IfErr, OnOk, OnErr};
ghost use Rattle.iw_memory.specs.Table.{next_stag};
ghost use Rattle.iw_stream.specs.Kept.{IsWithinBuffer};
ghost use Rattle.iw_endpoint.specs.Endpoint.{fresh, added, registered};
ghost use Rattle.iw_links.specs.Exchange.{Did, Emits, report_of, told_by, with_domain, writable, zero_octets};
ghost use Rattle.iw_links.specs.Exchange.{Phase, Lending, Listening, Working, Accepting, Speaking, after_lending, after_step};
ghost use Rattle.iw_links.specs.Exchange.{IsDue};
ghost use Rattle.iw_links.specs.Standing.{standing, told_in, plan_of, phase_of, Halts};

use crate::plan::Plan;
use crate::report::{Ended, Report};
use bytes::Bytes;
use iw_connection::{Filled, fill, next};
use iw_endpoint::{Endpoint, Octets, PrivateData, Request, Rights, Stag, Step};
use std::alloc::{AllocError, Global};

/// The protection domain of all connections.
pub(crate) const DOMAIN: u8 = 1;

/// The most octets of a text, and the size of the receive buffer.
pub const MOST_TEXT: usize = 4_096;

// How many octets the region of a listening end has.
const REGION: usize = 65_536;

/// The link broke: a reader or writer failed, the peer did not do its part, the window was full, or memory ran out.
#[derive(Clone, Copy, Debug, PartialEq, Eq)]
pub(crate) struct Broken;

/// Why a connection stops before it is completed.
#[derive(Clone, Copy, Debug, PartialEq, Eq)]
pub(crate) enum Stop {
    /// The link broke.
    Broken,
    /// The peer's start-up frame was at fault, and closes the connection (RFC 5044 8).
    Closed,
}

/// An endpoint for outgoing connections, with a domain and no region. An `Err` means out of memory.
pub fn caller(alloc: Global) -> Result<Endpoint, AllocError>
    ensures { IfOk result (λ endpoint. endpoint ≡ with_domain) }
{
    let mut endpoint = Endpoint::new(alloc);
    match endpoint.add_domain(DOMAIN) {
        Ok(()) => Ok(endpoint),
        Err(_) => Err(AllocError),
    }
}

// `count` zero octets.
fn zeroes(alloc: Global, count: usize) -> Result<Vec<u8>, AllocError>
    ensures { IfOk result (λ octets. octets.items ≡ zero_octets count) }
{
    let octets = vec![in alloc; 0u8; count]?;
    Ok(octets)
}

/// An endpoint for incoming connections, with a domain and a region of 65,536 zero octets at base 0 that peers may
/// write; and that region's STag. An `Err` means out of memory.
pub fn listener(alloc: Global) -> Result<(Endpoint, Stag), AllocError>
    ensures endpoint { IfOk result (λ end. end.0 ≡ registered with_domain 1 0 (zero_octets 65536) writable) }
    ensures stag { IfOk result (λ end. end.1 ≡ next_stag with_domain.table 1) }
{
    let mut endpoint = caller(alloc)?;
    let octets = zeroes(alloc, REGION)?;
    let rights = Rights {
        write: true,
        read: false,
        sink: false,
        invalidate: false,
    };
    match endpoint.register(DOMAIN, 0, octets, rights) {
        Ok(stag) => Ok((endpoint, stag)),
        Err(_) => Err(AllocError),
    }
}

/// The state of a connection.
#[derive(Drop)]
pub(crate) struct Link {
    /// The octets of the Send that was received.
    pub(crate) received: Option<Octets>,
    /// How the stream ended.
    pub(crate) ended: Option<Ended>,
    /// The peer's Reply opened the stream.
    pub(crate) is_open: bool,
}

impl Link {
    /// A new connection.
    pub(crate) fn new() -> Link
        ensures received { result.received ≡ None }
        ensures ended { result.ended ≡ None }
    {
        Link {
            received: None,
            ended: None,
            is_open: false,
        }
    }

    /// The connection's report.
    pub(crate) fn into_report(self, broken: bool) -> Report
        ensures { result ≡ report_of (told_in self) broken }
    {
        Report {
            received: self.received,
            ended: self.ended,
            broken,
        }
    }

    // Takes note of a step of work.
    fn tell(&mut self, step: Step<Octets>)
        requires { IsWithinBuffer step }
        ensures told { told_in self.new ≡ told_by (told_in self.old) step }
    {
        match step {
            Step::Received { buffer, len, .. } => {
                let mut octets = buffer.into_vec();
                octets.truncate(len);
                self.received = Some(Octets::from_vec(octets));
            }
            Step::Fault(fault) => self.ended = Some(Ended::Fault(fault)),
            Step::Terminated(fault) => self.ended = Some(Ended::Terminated(fault)),
            Step::Closed(fault) => self.ended = Some(Ended::Closed(fault)),
            Step::Opened(_) => self.is_open = true,
            Step::Done(_)
            | Step::Flushed(_)
            | Step::FlushedRecv(_)
            | Step::Asked
            | Step::Placed { .. }
            | Step::Buffered { .. }
            | Step::Requested { .. }
            | Step::Tried(_)
            | Step::Passed
            | Step::Idle => {}
        }
    }
}

/// Posts the receive buffer. An `Err` changes nothing.
pub(crate) fn lend(
    alloc: Global,
    plan: &Plan<'_>,
    endpoint: &mut Endpoint,
    link: &Link,
) -> Result<(), Broken>
    ensures ok { OnOk result ((k : ℕ) → Did (plan_of plan.now) (standing endpoint.old link.now Lending k)
        (standing endpoint.new link.now (after_lending (plan_of plan.now).part) k) [] []) }
    ensures err { OnErr result (endpoint.new ≡ endpoint.old) }
{
    let Ok(buffer) = zeroes(alloc, MOST_TEXT) else {
        return Err(Broken);
    };
    match endpoint.post_recv(plan.terms.number, buffer) {
        Ok(()) => return Ok(()),
        Err(_) => {}
    }
    Err(Broken)
}

/// Posts a message. An `Err` changes nothing.
pub(crate) fn post(
    plan: &Plan<'_>,
    endpoint: &mut Endpoint,
    link: &Link,
    request: Request<Bytes>,
) -> Result<(), Broken>
    ensures ok { OnOk result ((phase : Phase) (k : ℕ) →
        IsDue (plan_of plan.now).part (plan_of plan.now).number (standing endpoint.old link.now phase k) request →
        Did (plan_of plan.now) (standing endpoint.old link.now phase k) (standing endpoint.new link.now Speaking (k + 1)) [] []) }
    ensures err { OnErr result (endpoint.new ≡ endpoint.old) }
{
    match endpoint.post(plan.terms.number, request) {
        Ok(()) => return Ok(()),
        Err(_) => {}
    }
    Err(Broken)
}

// Accepts the peer's Request. An `Err` changes nothing.
fn accept(plan: &Plan<'_>, endpoint: &mut Endpoint, link: &Link) -> Result<(), Broken>
    ensures ok { OnOk result ((k : ℕ) → Did (plan_of plan.now)
        (standing endpoint.old link.now Accepting k) (standing endpoint.new link.now Working k) [] []) }
    ensures err { OnErr result (endpoint.new ≡ endpoint.old) }
{
    match endpoint.accept(plan.terms.number, plan.private()) {
        Ok(_) => Ok(()),
        Err(_) => Err(Broken),
    }
}

// Works to the next step that has to be acted on, and takes note of it. Returns what to do next.
fn step(plan: &Plan<'_>, endpoint: &mut Endpoint, link: &mut Link) -> Result<Next, Broken>
    ensures ok { IfOk result (λ next. (k : ℕ) → Did (plan_of plan.now)
        (standing endpoint.old link.old Working k) (standing endpoint.new link.new (phase_of next) k) [] []) }
    ensures err { OnErr result ((k : ℕ) → Did (plan_of plan.now)
        (standing endpoint.old link.old Working k) (standing endpoint.new link.new Working k) [] []) }
{
    match next(endpoint, plan.terms.number) {
        Ok(step) => {
            let after = Next::of(&step);
            link.tell(step);
            Ok(after)
        }
        Err(_) => Err(Broken),
    }
}

// What to do after a step that has to be acted on.
#[derive(Clone, Copy, Debug, PartialEq, Eq)]
enum Next {
    // The peer's Request is to be answered.
    Accept,
    Work,
    // There is nothing to do.
    Rest,
    // The peer's start-up frame closes the connection.
    Close,
}

impl Next {
    fn of(step: &Step<Octets>) -> Next
        ensures { phase_of result ≡ after_step step.now }
    {
        match step {
            Step::Asked => Next::Accept,
            Step::Idle => Next::Rest,
            Step::Closed(_) => Next::Close,
            _ => Next::Work,
        }
    }
}

// Works to the next step that has to be acted on, and accepts the peer's Request if that is pending then. Returns whether
// there is nothing to do.
fn work_on(plan: &Plan<'_>, endpoint: &mut Endpoint, link: &mut Link) -> Result<bool, Stop>
    ensures ok { IfOk result (λ rests. (k : ℕ) → Did (plan_of plan.now) (standing endpoint.old link.old Working k)
        (standing endpoint.new link.new (if rests then Speaking else Working) k) [] []) }
    ensures err { IfErr result (λ stop. (k : ℕ) → Halts stop (plan_of plan.now)
        (standing endpoint.old link.old Working k) (standing endpoint.new link.new) k) }
{
    match step(plan, endpoint, link) {
        Ok(Next::Rest) => Ok(true),
        Ok(Next::Work) => Ok(false),
        Ok(Next::Close) => Err(Stop::Closed),
        Ok(Next::Accept) => match accept(plan, endpoint, link) {
            Ok(()) => Ok(false),
            Err(_) => Err(Stop::Broken),
        },
        Err(_) => Err(Stop::Broken),
    }
}

/// Works until there is nothing to do, or the peer's start-up frame closes the connection. Accepts the peer's Request
/// if it comes.
pub(crate) fn work_all(
    plan: &Plan<'_>,
    endpoint: &mut Endpoint,
    link: &mut Link,
) -> Result<(), Stop>
    ensures ok { OnOk result ((k : ℕ) → Did (plan_of plan.now)
        (standing endpoint.old link.old Working k) (standing endpoint.new link.new Speaking k) [] []) }
    ensures err { IfErr result (λ stop. (k : ℕ) → Halts stop (plan_of plan.now)
        (standing endpoint.old link.old Working k) (standing endpoint.new link.new) k) }
{
    'steps: for _ in 0..u64::MAX {
        match work_on(plan, endpoint, link) {
            Ok(true) => return Ok(()),
            Ok(false) => {}
            Err(stop) => return Err(stop),
        }
    }
    Err(Stop::Broken)
}

// Emits what is due. Returns whether more may be due: the Terminate, if the stream ended.
fn emit(
    plan: &Plan<'_>,
    endpoint: &mut Endpoint,
    link: &mut Link,
    out: &mut Vec<u8>,
) -> Result<bool, Broken>
    ensures ok { IfOk result (λ more. (k : ℕ) → Emits (plan_of plan.now) (standing endpoint.old link.old Speaking k)
        (standing endpoint.new link.new (if more then Speaking else Listening) k) out.old.items out.new.items) }
    ensures err { OnErr result ((k : ℕ) → Emits (plan_of plan.now) (standing endpoint.old link.old Speaking k)
        (standing endpoint.new link.new Speaking k) out.old.items out.new.items) }
{
    match fill(endpoint, plan.terms.number, out, usize::MAX) {
        Ok(Filled::All) => Ok(false),
        Ok(Filled::More) => Ok(true),
        Ok(Filled::Fault(fault)) => {
            link.ended = Some(Ended::Fault(fault));
            Ok(true)
        }
        Err(_) => Err(Broken),
    }
}

/// Emits all that is due into one buffer.
pub(crate) fn emit_all(
    plan: &Plan<'_>,
    endpoint: &mut Endpoint,
    link: &mut Link,
    out: &mut Vec<u8>,
) -> Result<(), Broken>
    ensures ok { OnOk result ((k : ℕ) → Emits (plan_of plan.now) (standing endpoint.old link.old Speaking k)
        (standing endpoint.new link.new Listening k) out.old.items out.new.items) }
    ensures err { OnErr result ((k : ℕ) → Emits (plan_of plan.now) (standing endpoint.old link.old Speaking k)
        (standing endpoint.new link.new Speaking k) out.old.items out.new.items) }
{
    'rounds: for _ in 0..u64::MAX {
        match emit(plan, endpoint, link, out) {
            Ok(true) => {}
            Ok(false) => return Ok(()),
            Err(fault) => return Err(fault),
        }
    }
    Err(Broken)
}
