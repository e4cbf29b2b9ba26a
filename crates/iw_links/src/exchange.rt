ghost use Rattle.std.specs.Prelude.{◌≡◌, ◌≤◌, List, ℕ, Option, None, Ok, IfOk, IfErr, OnOk, OnErr, true, false};
ghost use Rattle.std.specs.Io.KnownBytes.{IsAtEnd};
ghost use Rattle.iw_links.specs.Exchange.{Exchanged, Failed, IsSettled, after_break, answers_at_once, config_of, report_of, send_of};
ghost use Rattle.iw_links.specs.Exchange.{Listening, Speaking, Working};
ghost use Rattle.iw_links.specs.Standing.{standing, told_in, plan_of, is_over, ReadsOn, Stopped};

use crate::counted::Counted;
use crate::link::{Broken, Link, Stop, emit_all, work_all};
use crate::plan::Plan;
use crate::report::Report;
use bytes::Bytes;
use iw_connection::{Intake, StreamNumber};
use iw_endpoint::{Config, Endpoint, Establishment, Message, PrivateData, Request};
use iw_output::write_octets;
use std::io::{Read, Write};

/// The options with which a connection's stream is opened.
#[derive(Clone, Copy, Debug, PartialEq, Eq)]
pub struct Terms {
    /// Its number: 0 to 63.
    pub number: StreamNumber,
    /// The peer is asked to put markers into what it sends.
    pub markers: bool,
    /// The peer is asked for CRCs in both directions.
    pub crc: bool,
    /// The revision of MPA, and what it is used for.
    pub establishment: Establishment,
}

impl Terms {
    /// Whether a serving end answers once the Send was received. Otherwise it answers at the end of the peer's output.
    pub(crate) fn answers_at_once(self) -> bool
        ensures { result ≡ answers_at_once self.establishment }
    {
        match self.establishment {
            Establishment::Plain => false,
            Establishment::Enhanced | Establishment::PeerToPeer => true,
        }
    }

    pub(crate) fn config(self) -> Config
        ensures { result ≡ config_of self }
    {
        Config {
            markers: self.markers,
            crc: self.crc,
            establishment: self.establishment,
            private: PrivateData::new(),
        }
    }
}

/// A Send of these octets.
pub(crate) fn send(octets: Bytes) -> Request<Bytes>
    ensures { result ≡ send_of octets }
{
    Request::Message(Message::Send {
        octets,
        solicited: false,
        invalidate: None,
    })
}

/// Emits all that is due, and writes it.
pub(crate) fn speak<W: Write>(
    plan: &Plan<'_>,
    endpoint: &mut Endpoint,
    link: &mut Link,
    out: &mut Vec<u8>,
    output: &mut W,
) -> Result<(), Broken>
    ensures ok { OnOk result ((i : Option (List ℕ)) (k : ℕ) →
        Exchanged (plan_of plan.now) (standing endpoint.old link.old Speaking k) i (W.contents output.old)
        (standing endpoint.new link.new Listening k) i (W.contents output.new)) }
    ensures err { OnErr result ((i : Option (List ℕ)) (k : ℕ) →
        Failed (plan_of plan.now) (standing endpoint.old link.old Speaking k) i (W.contents output.old)
        (standing endpoint.new link.new) i (W.contents output.new)) }
{
    out.clear();
    match emit_all(plan, endpoint, link, out) {
        Ok(()) => {}
        Err(fault) => return Err(fault),
    }
    match write_octets(output, out.as_slice()) {
        Ok(()) => Ok(()),
        Err(_) => Err(Broken),
    }
}

// Works, and writes what is due, unless the peer's start-up frame closes the connection.
fn take_turn<W: Write>(
    plan: &Plan<'_>,
    endpoint: &mut Endpoint,
    link: &mut Link,
    out: &mut Vec<u8>,
    output: &mut W,
) -> Result<(), Stop>
    ensures ok { OnOk result ((i : Option (List ℕ)) (k : ℕ) →
        Exchanged (plan_of plan.now) (standing endpoint.old link.old Working k) i (W.contents output.old)
        (standing endpoint.new link.new Listening k) i (W.contents output.new)) }
    ensures err { IfErr result (λ stop. (i : Option (List ℕ)) (k : ℕ) →
        Stopped stop (plan_of plan.now) (standing endpoint.old link.old Working k) i (W.contents output.old)
        (standing endpoint.new link.new) i (W.contents output.new)) }
{
    match work_all(plan, endpoint, link) {
        Ok(()) => {}
        Err(stop) => return Err(stop),
    }
    match speak(plan, endpoint, link, out, output) {
        Ok(()) => Ok(()),
        Err(_) => Err(Stop::Broken),
    }
}

/// How long to read from the peer.
#[derive(Clone, Copy, Debug, PartialEq, Eq)]
pub(crate) enum Until {
    /// Until its Reply came or the stream has ended.
    Reply,
    /// Until a Send was received or the stream has ended.
    Send,
    /// To the end of its output.
    End,
}

impl Until {
    fn is_over(self, link: &Link) -> bool
        ensures is { result ≡ is_over self link.now.is_open (told_in link.now) }
        ensures end { self ≡ Until.End → result ≡ false }
    {
        match self {
            Until::Reply => link.is_open || link.ended.is_some(),
            Until::Send => link.received.is_some() || link.ended.is_some(),
            Until::End => false,
        }
    }
}

/// Reads, until that is over; after each read, which is one delivery, works and writes what is due. Returns whether the
/// input has ended. If the peer's start-up frame closes the connection, nothing more is read or written. The link breaks
/// if the window is full.
pub(crate) fn hear<R: Read, W: Write>(
    until: Until,
    plan: &Plan<'_>,
    endpoint: &mut Endpoint,
    link: &mut Link,
    out: &mut Vec<u8>,
    input: &mut Counted<R>,
    output: &mut W,
) -> Result<bool, Stop>
    requires reads { input.old.reads ≤ 1000000 }
    ensures ok { OnOk result ((k : ℕ) → ReadsOn until (plan_of plan.now) (told_in link.old) k →
        Exchanged (plan_of plan.now) (standing endpoint.old link.old Listening k)
        (R.remaining input.old.reader) (W.contents output.old)
        (standing endpoint.new link.new Listening k) (R.remaining input.new.reader) (W.contents output.new)) }
    ensures err { IfErr result (λ stop. (k : ℕ) → ReadsOn until (plan_of plan.now) (told_in link.old) k →
        Stopped stop (plan_of plan.now) (standing endpoint.old link.old Listening k)
        (R.remaining input.old.reader) (W.contents output.old)
        (standing endpoint.new link.new) (R.remaining input.new.reader) (W.contents output.new)) }
    ensures end { result ≡ Ok true → IsAtEnd (R.remaining input.new.reader) }
    ensures whole { until ≡ Until.End → IfOk result (λ end. end ≡ true) }
    ensures bounded { input.new.reads ≤ 1000000 }
{
    'reads: for _ in 0..u64::MAX {
        if until.is_over(link) {
            return Ok(false);
        }
        match input.take_to(endpoint, plan.terms.number) {
            Ok(Intake::Came(_)) => match take_turn(plan, endpoint, link, out, output) {
                Ok(()) => {}
                Err(stop) => return Err(stop),
            },
            Ok(Intake::End) => return Ok(true),
            Ok(Intake::Full) => return Err(Stop::Broken),
            Err(_) => return Err(Stop::Broken),
        }
    }
    Err(Stop::Broken)
}

/// `Ok` if a Send was received or the peer ended the stream; otherwise the peer has broken off.
pub(crate) fn settle(link: &Link) -> Result<(), Broken>
    ensures { OnOk result (IsSettled (told_in link.now)) }
{
    if link.received.is_some() || link.ended.is_some() {
        Ok(())
    } else {
        Err(Broken)
    }
}

/// Reports the broken link to the endpoint, and returns the connection's report.
pub(crate) fn break_off(plan: &Plan<'_>, endpoint: &mut Endpoint, link: Link) -> Report
    ensures report { result ≡ report_of (told_in link) true }
    ensures endpoint { endpoint.new ≡ after_break endpoint.old (plan_of plan.now).number }
{
    let _ = endpoint.break_link(plan.terms.number);
    link.into_report(true)
}
