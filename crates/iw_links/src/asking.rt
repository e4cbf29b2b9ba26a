ghost use Rattle.std.specs.Prelude.{◌≡◌, ◌<◌, ◌≤◌, [], length, List, ℕ, Option, None, IfOk, IfErr, OnOk, OnErr};
ghost use Rattle.std.specs.Io.KnownBytes.{IsAtEnd};
ghost use Rattle.iw_octets.specs.Stag.{stag_at};
ghost use Rattle.iw_endpoint.specs.Endpoint.{private_at};
ghost use Rattle.iw_links.specs.Exchange.{Did, Exchanged, Failed, Finished, Served, Told, Asks, plan_for};
ghost use Rattle.iw_links.specs.Exchange.{Lending, Listening, Speaking};
ghost use Rattle.iw_links.specs.Standing.{standing, told_in, plan_of, count_said, ReadsOn, Stopped};

use crate::counted::Counted;
use crate::exchange::{Terms, Until, break_off, hear, send, settle, speak};
use crate::link::{Broken, DOMAIN, Link, Stop, lend, post};
use crate::output::Output;
use crate::plan::{Part, Plan};
use crate::report::Report;
use bytes::Bytes;
use iw_connection::StreamNumber;
use iw_endpoint::{Endpoint, Message, OpenRefusal, Request, Role, Stag};
use std::alloc::Global;
use std::io::{Read, Write};

// The STag that the Reply named.
fn named_region(endpoint: &Endpoint, number: StreamNumber) -> Result<Stag, Broken>
    ensures length { OnOk result (length (private_at endpoint.now number) ≡ 4) }
    ensures stag { IfOk result (λ stag. stag ≡ stag_at (private_at endpoint.now number) 0) }
{
    let Ok(private) = endpoint.private(number) else {
        return Err(Broken);
    };
    let octets: Result<[u8; 4], _> = private.try_into();
    match octets {
        Ok(octets) => Ok(Stag::from_octets(octets)),
        Err(_) => Err(Broken),
    }
}

// Posts a Write of the text to the region that the Reply named. An `Err` changes nothing.
fn post_write(
    alloc: Global,
    plan: &Plan<'_>,
    endpoint: &mut Endpoint,
    link: &Link,
    text: &[u8],
) -> Result<(), Broken>
    requires plan { plan.now.part ≡ Part.Asks text }
    ensures ok { OnOk result (Did (plan_of plan.now) (standing endpoint.old link.now Listening 0)
        (standing endpoint.new link.now Speaking 1) [] []) }
    ensures err { OnErr result (endpoint.new ≡ endpoint.old) }
{
    let stag = match named_region(endpoint, plan.terms.number) {
        Ok(stag) => stag,
        Err(fault) => return Err(fault),
    };
    let Ok(octets) = Bytes::copy_from_slice(alloc, text) else {
        return Err(Broken);
    };
    let message = Message::Write {
        stag,
        to: 0,
        octets,
    };
    post(plan, endpoint, link, Request::Message(message))
}

// Posts a Send of the text. An `Err` changes nothing.
fn post_send(
    alloc: Global,
    plan: &Plan<'_>,
    endpoint: &mut Endpoint,
    link: &Link,
    text: &[u8],
) -> Result<(), Broken>
    requires plan { plan.now.part ≡ Part.Asks text }
    ensures ok { OnOk result (Did (plan_of plan.now) (standing endpoint.old link.now Speaking 1)
        (standing endpoint.new link.now Speaking 2) [] []) }
    ensures err { OnErr result (endpoint.new ≡ endpoint.old) }
{
    let Ok(octets) = Bytes::copy_from_slice(alloc, text) else {
        return Err(Broken);
    };
    post(plan, endpoint, link, send(octets))
}

// Posts a Write of the text to the region that the Reply named, and a Send of it, and writes what is due.
fn request<W: Write>(
    alloc: Global,
    plan: &Plan<'_>,
    endpoint: &mut Endpoint,
    link: &mut Link,
    text: &[u8],
    out: &mut Vec<u8>,
    output: &mut W,
) -> Result<(), Broken>
    requires plan { plan.now.part ≡ Part.Asks text }
    ensures ok { OnOk result ((i : Option (List ℕ)) →
        Exchanged (plan_of plan.now) (standing endpoint.old link.old Listening 0) i (W.contents output.old)
        (standing endpoint.new link.new Listening 2) i (W.contents output.new)) }
    ensures err { OnErr result ((i : Option (List ℕ)) →
        Failed (plan_of plan.now) (standing endpoint.old link.old Listening 0) i (W.contents output.old)
        (standing endpoint.new link.new) i (W.contents output.new)) }
{
    match post_write(alloc, plan, endpoint, link, text) {
        Ok(()) => {}
        Err(fault) => return Err(fault),
    }
    match post_send(alloc, plan, endpoint, link, text) {
        Ok(()) => {}
        Err(fault) => return Err(fault),
    }
    match speak(plan, endpoint, link, out, output) {
        Ok(()) => Ok(()),
        Err(fault) => Err(fault),
    }
}

// Makes the request, unless the stream has ended. If the stream is not open, the Reply will not come any more.
fn request_where_open<W: Write>(
    alloc: Global,
    plan: &Plan<'_>,
    endpoint: &mut Endpoint,
    link: &mut Link,
    text: &[u8],
    out: &mut Vec<u8>,
    output: &mut W,
) -> Result<(), Broken>
    requires plan { plan.now.part ≡ Part.Asks text }
    ensures ok { OnOk result ((i : Option (List ℕ)) →
        Exchanged (plan_of plan.now) (standing endpoint.old link.old Listening 0) i (W.contents output.old)
        (standing endpoint.new link.new Listening (count_said link.old.ended)) i (W.contents output.new)) }
    ensures err { OnErr result ((i : Option (List ℕ)) →
        Failed (plan_of plan.now) (standing endpoint.old link.old Listening 0) i (W.contents output.old)
        (standing endpoint.new link.new) i (W.contents output.new)) }
{
    if link.ended.is_some() {
        return Ok(());
    }
    if !link.is_open {
        return Err(Broken);
    }
    match request(alloc, plan, endpoint, link, text, out, output) {
        Ok(()) => Ok(()),
        Err(fault) => Err(fault),
    }
}

// Reads until the answer was received or the stream has ended, if the peer answers at once.
fn await_answer<R: Read, W: Write>(
    plan: &Plan<'_>,
    endpoint: &mut Endpoint,
    link: &mut Link,
    out: &mut Vec<u8>,
    input: &mut Counted<R>,
    output: &mut W,
) -> Result<(), Stop>
    requires reads { input.old.reads ≤ 1000000 }
    ensures ok { OnOk result ((k : ℕ) → ReadsOn Until.Send (plan_of plan.now) (told_in link.old) k →
        Exchanged (plan_of plan.now) (standing endpoint.old link.old Listening k)
        (R.remaining input.old.reader) (W.contents output.old)
        (standing endpoint.new link.new Listening k) (R.remaining input.new.reader) (W.contents output.new)) }
    ensures err { IfErr result (λ stop. (k : ℕ) → ReadsOn Until.Send (plan_of plan.now) (told_in link.old) k →
        Stopped stop (plan_of plan.now) (standing endpoint.old link.old Listening k)
        (R.remaining input.old.reader) (W.contents output.old)
        (standing endpoint.new link.new) (R.remaining input.new.reader) (W.contents output.new)) }
    ensures bounded { input.new.reads ≤ 1000000 }
{
    if !plan.terms.answers_at_once() {
        return Ok(());
    }
    match hear(Until::Send, plan, endpoint, link, out, input, output) {
        Ok(_) => Ok(()),
        Err(stop) => Err(stop),
    }
}

// Ends the output: after the answer was received, if the peer answers at once.
fn end_output<R: Read, W: Output>(
    plan: &Plan<'_>,
    endpoint: &mut Endpoint,
    link: &mut Link,
    out: &mut Vec<u8>,
    input: &mut Counted<R>,
    output: &mut W,
) -> Result<(), Stop>
    requires reads { input.old.reads ≤ 1000000 }
    ensures ok { OnOk result ((k : ℕ) → ReadsOn Until.Send (plan_of plan.now) (told_in link.old) k →
        Exchanged (plan_of plan.now) (standing endpoint.old link.old Listening k)
        (R.remaining input.old.reader) (W.contents output.old)
        (standing endpoint.new link.new Listening k) (R.remaining input.new.reader) (W.contents output.new)) }
    ensures err { IfErr result (λ stop. (k : ℕ) → ReadsOn Until.Send (plan_of plan.now) (told_in link.old) k →
        Stopped stop (plan_of plan.now) (standing endpoint.old link.old Listening k)
        (R.remaining input.old.reader) (W.contents output.old)
        (standing endpoint.new link.new) (R.remaining input.new.reader) (W.contents output.new)) }
    ensures bounded { input.new.reads ≤ 1000000 }
{
    match await_answer(plan, endpoint, link, out, input, output) {
        Ok(()) => {}
        Err(stop) => return Err(stop),
    }
    match output.end() {
        Ok(()) => Ok(()),
        Err(_) => Err(Stop::Broken),
    }
}

// The start-up of a connecting end: writes its Request, and reads until the peer's Reply came or the stream has ended.
fn start_up<R: Read, W: Write>(
    plan: &Plan<'_>,
    endpoint: &mut Endpoint,
    link: &mut Link,
    out: &mut Vec<u8>,
    input: &mut Counted<R>,
    output: &mut W,
) -> Result<(), Stop>
    requires reads { input.old.reads ≤ 1000000 }
    ensures ok { OnOk result (((told : Told) → ReadsOn Until.Reply (plan_of plan.now) told 0) →
        Exchanged (plan_of plan.now) (standing endpoint.old link.old Speaking 0)
        (R.remaining input.old.reader) (W.contents output.old)
        (standing endpoint.new link.new Listening 0) (R.remaining input.new.reader) (W.contents output.new)) }
    ensures err { IfErr result (λ stop. ((told : Told) → ReadsOn Until.Reply (plan_of plan.now) told 0) →
        Stopped stop (plan_of plan.now) (standing endpoint.old link.old Speaking 0)
        (R.remaining input.old.reader) (W.contents output.old)
        (standing endpoint.new link.new) (R.remaining input.new.reader) (W.contents output.new)) }
    ensures bounded { input.new.reads ≤ 1000000 }
{
    match speak(plan, endpoint, link, out, output) {
        Ok(()) => {}
        Err(_) => return Err(Stop::Broken),
    }
    match hear(Until::Reply, plan, endpoint, link, out, input, output) {
        Ok(_) => Ok(()),
        Err(stop) => Err(stop),
    }
}

// What a connecting end does after its stream was opened.
fn speak_to<R: Read, W: Output>(
    alloc: Global,
    plan: &Plan<'_>,
    endpoint: &mut Endpoint,
    link: &mut Link,
    text: &[u8],
    input: &mut Counted<R>,
    output: &mut W,
) -> Result<(), Stop>
    requires plan { plan.now.part ≡ Part.Asks text }
    requires reads { input.old.reads ≤ 1000000 }
    ensures ok { OnOk result (Finished (plan_of plan.now) (standing endpoint.old link.old Lending 0)
        (R.remaining input.old.reader) (W.contents output.old)
        (standing endpoint.new link.new) (R.remaining input.new.reader) (W.contents output.new) (told_in link.new)) }
    ensures err { IfErr result (λ stop. Stopped stop (plan_of plan.now) (standing endpoint.old link.old Lending 0)
        (R.remaining input.old.reader) (W.contents output.old)
        (standing endpoint.new link.new) (R.remaining input.new.reader) (W.contents output.new)) }
    ensures end { OnOk result (IsAtEnd (R.remaining input.new.reader)) }
    ensures bounded { input.new.reads ≤ 1000000 }
{
    match lend(alloc, plan, endpoint, link) {
        Ok(()) => {}
        Err(_) => return Err(Stop::Broken),
    }
    let mut out = Vec::new(alloc);
    match start_up(plan, endpoint, link, &mut out, input, output) {
        Ok(()) => {}
        Err(stop) => return Err(stop),
    }
    match request_where_open(alloc, plan, endpoint, link, text, &mut out, output) {
        Ok(()) => {}
        Err(_) => return Err(Stop::Broken),
    }
    match end_output(plan, endpoint, link, &mut out, input, output) {
        Ok(()) => {}
        Err(stop) => return Err(stop),
    }
    match hear(Until::End, plan, endpoint, link, &mut out, input, output) {
        Ok(_) => {}
        Err(stop) => return Err(stop),
    }
    match settle(link) {
        Ok(()) => Ok(()),
        Err(_) => Err(Stop::Broken),
    }
}

/// Makes a request on a connection: writes the text into the region that the peer's Reply names, at tagged offset 0,
/// and sends it too; then ends the output, and reads to the end of the peer's output. With an enhanced start-up it ends
/// the output only after the answer was received, the stream ended or the peer's output ended, since real peers cannot
/// go on after it. A text has at most 4,096 octets.
///
/// The MPA Request is written before the first read. Each read is one delivery; after it, `ask` works until there is
/// nothing to do and writes all that is due. The link breaks if the reader or writer fails, the input ends early, the
/// Reply names no region, the window is full, or memory runs out. Then nothing more is read or written. Nor is it if the
/// Reply is at fault or rejects: the caller closes the connection (RFC 5044 8).
///
/// An `Err` means that the stream cannot be opened; nothing was read, written or changed.
pub fn ask<R: Read, W: Output>(
    alloc: Global,
    endpoint: &mut Endpoint,
    terms: Terms,
    text: &[u8],
    input: &mut Counted<R>,
    output: &mut W,
) -> Result<Report, OpenRefusal>
    requires reads { input.old.reads ≤ 1000000 }
    ensures served { IfOk result (λ report. Served (plan_for terms (Asks text.now))
        endpoint.old (R.remaining input.old.reader) (W.contents output.old)
        endpoint.new (R.remaining input.new.reader) (W.contents output.new) report) }
    ensures err { OnErr result (endpoint.new ≡ endpoint.old) }
    ensures input { OnErr result (input.new ≡ input.old) }
    ensures output { OnErr result (output.new ≡ output.old) }
    ensures bounded { input.new.reads ≤ 1000000 }
{
    match endpoint.open(terms.number, DOMAIN, Role::Initiator, terms.config()) {
        Ok(()) => {}
        Err(refusal) => return Err(refusal),
    }
    let plan = Plan {
        terms,
        part: Part::Asks(text),
    };
    let mut link = Link::new();
    match speak_to(alloc, &plan, endpoint, &mut link, text, input, output) {
        Ok(()) => Ok(link.into_report(false)),
        Err(Stop::Closed) => Ok(link.into_report(false)),
        Err(Stop::Broken) => Ok(break_off(&plan, endpoint, link)),
    }
}
