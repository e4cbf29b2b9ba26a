ghost use Rattle.std.specs.Prelude.{◌≡◌, ◌<◌, ◌≤◌, [], length, take, List, ℕ, Option, None, Some, true, IfOk, IfErr, OnOk, OnErr};
ghost use Rattle.std.specs.Option.{option_map};
ghost use Rattle.std.specs.Io.KnownBytes.{IsAtEnd};
ghost use Rattle.iw_endpoint.specs.Endpoint.{octets_of};
ghost use Rattle.iw_links.specs.Exchange.{Did, Exchanged, Failed, Finished, Served, Lending, Listening, Speaking, Serves, answers_at_once, plan_for};
ghost use Rattle.iw_links.specs.Standing.{standing, told_in, plan_of, count_answered, ReadsOn, Stopped};

use crate::counted::Counted;
use crate::exchange::{Terms, Until, break_off, hear, send, settle, speak};
use crate::link::{Broken, DOMAIN, Link, Stop, lend, post};
use crate::output::Output;
use crate::plan::{Part, Plan};
use crate::report::Report;
use bytes::Bytes;
use iw_endpoint::{Endpoint, OpenRefusal, Role, Stag};
use std::alloc::Global;
use std::io::{Read, Write};

// The first octets of a region.
fn copy_front(alloc: Global, endpoint: &Endpoint, region: Stag, len: usize) -> Result<Bytes, Broken>
    ensures { IfOk result (λ octets. option_map (take len) (octets_of endpoint.now region) ≡ Some octets) }
{
    let Some(octets) = endpoint.local(region) else {
        return Err(Broken);
    };
    let Some(front) = octets.get(..len) else {
        return Err(Broken);
    };
    match Bytes::copy_from_slice(alloc, front) {
        Ok(octets) => Ok(octets),
        Err(_) => Err(Broken),
    }
}

// The first octets of the region, as many as were received.
fn front(alloc: Global, endpoint: &Endpoint, link: &Link, region: Stag) -> Result<Bytes, Broken>
    ensures { IfOk result (λ octets. (received : List ℕ) × (link.now.received ≡ Some received) ×
        (option_map (take (length received)) (octets_of endpoint.now region) ≡ Some octets)) }
{
    match &link.received {
        Some(octets) => copy_front(alloc, endpoint, region, octets.len()),
        None => Err(Broken),
    }
}

// Posts the answer: the first octets of the region, as many as were received. An `Err` changes nothing.
fn post_answer(
    alloc: Global,
    plan: &Plan<'_>,
    endpoint: &mut Endpoint,
    link: &Link,
    region: Stag,
) -> Result<(), Broken>
    requires plan { plan.now.part ≡ Part.Serves region }
    requires open { link.now.ended ≡ None }
    ensures ok { OnOk result (Did (plan_of plan.now) (standing endpoint.old link.now Listening 0)
        (standing endpoint.new link.now Speaking 1) [] []) }
    ensures err { OnErr result (endpoint.new ≡ endpoint.old) }
{
    match front(alloc, endpoint, link, region) {
        Ok(octets) => post(plan, endpoint, link, send(octets)),
        Err(fault) => Err(fault),
    }
}

// Sends back the first octets of the region, as many as were received.
fn answer<W: Write>(
    alloc: Global,
    plan: &Plan<'_>,
    endpoint: &mut Endpoint,
    link: &mut Link,
    region: Stag,
    out: &mut Vec<u8>,
    output: &mut W,
) -> Result<(), Broken>
    requires plan { plan.now.part ≡ Part.Serves region }
    requires open { link.old.ended ≡ None }
    ensures ok { OnOk result ((i : Option (List ℕ)) →
        Exchanged (plan_of plan.now) (standing endpoint.old link.old Listening 0) i (W.contents output.old)
        (standing endpoint.new link.new Listening 1) i (W.contents output.new)) }
    ensures err { OnErr result ((i : Option (List ℕ)) →
        Failed (plan_of plan.now) (standing endpoint.old link.old Listening 0) i (W.contents output.old)
        (standing endpoint.new link.new) i (W.contents output.new)) }
{
    match post_answer(alloc, plan, endpoint, link, region) {
        Ok(()) => {}
        Err(fault) => return Err(fault),
    }
    match speak(plan, endpoint, link, out, output) {
        Ok(()) => Ok(()),
        Err(fault) => Err(fault),
    }
}

// Answers, unless the stream has ended.
fn answer_where_open<W: Write>(
    alloc: Global,
    plan: &Plan<'_>,
    endpoint: &mut Endpoint,
    link: &mut Link,
    region: Stag,
    out: &mut Vec<u8>,
    output: &mut W,
) -> Result<(), Broken>
    requires plan { plan.now.part ≡ Part.Serves region }
    ensures ok { OnOk result ((i : Option (List ℕ)) →
        Exchanged (plan_of plan.now) (standing endpoint.old link.old Listening 0) i (W.contents output.old)
        (standing endpoint.new link.new Listening (count_answered link.old.ended)) i (W.contents output.new)) }
    ensures err { OnErr result ((i : Option (List ℕ)) →
        Failed (plan_of plan.now) (standing endpoint.old link.old Listening 0) i (W.contents output.old)
        (standing endpoint.new link.new) i (W.contents output.new)) }
{
    if link.ended.is_some() {
        return Ok(());
    }
    match answer(alloc, plan, endpoint, link, region, out, output) {
        Ok(()) => Ok(()),
        Err(fault) => Err(fault),
    }
}

// Reads until this is over, and answers then.
fn answer_after<R: Read, W: Write>(
    until: Until,
    alloc: Global,
    plan: &Plan<'_>,
    endpoint: &mut Endpoint,
    link: &mut Link,
    region: Stag,
    out: &mut Vec<u8>,
    input: &mut Counted<R>,
    output: &mut W,
) -> Result<(), Stop>
    requires plan { plan.now.part ≡ Part.Serves region }
    requires reads { input.old.reads ≤ 1000000 }
    ensures ok { OnOk result (ReadsOn until (plan_of plan.now) (told_in link.old) 0 →
        Finished (plan_of plan.now) (standing endpoint.old link.old Listening 0)
        (R.remaining input.old.reader) (W.contents output.old)
        (standing endpoint.new link.new) (R.remaining input.new.reader) (W.contents output.new) (told_in link.new)) }
    ensures err { IfErr result (λ stop. ReadsOn until (plan_of plan.now) (told_in link.old) 0 →
        Stopped stop (plan_of plan.now) (standing endpoint.old link.old Listening 0)
        (R.remaining input.old.reader) (W.contents output.old)
        (standing endpoint.new link.new) (R.remaining input.new.reader) (W.contents output.new)) }
    ensures end { until ≡ Until.End → OnOk result (IsAtEnd (R.remaining input.new.reader)) }
    ensures bounded { input.new.reads ≤ 1000000 }
{
    match hear(until, plan, endpoint, link, out, input, output) {
        Ok(_) => {}
        Err(stop) => return Err(stop),
    }
    match settle(link) {
        Ok(()) => {}
        Err(_) => return Err(Stop::Broken),
    }
    match answer_where_open(alloc, plan, endpoint, link, region, out, output) {
        Ok(()) => Ok(()),
        Err(_) => Err(Stop::Broken),
    }
}

// Answers once the peer's Send was received, and reads on to the end of its output.
fn answer_at_once<R: Read, W: Write>(
    alloc: Global,
    plan: &Plan<'_>,
    endpoint: &mut Endpoint,
    link: &mut Link,
    region: Stag,
    out: &mut Vec<u8>,
    input: &mut Counted<R>,
    output: &mut W,
) -> Result<(), Stop>
    requires plan { plan.now.part ≡ Part.Serves region }
    requires at_once { answers_at_once plan.now.terms.establishment ≡ true }
    requires reads { input.old.reads ≤ 1000000 }
    ensures ok { OnOk result (Finished (plan_of plan.now) (standing endpoint.old link.old Listening 0)
        (R.remaining input.old.reader) (W.contents output.old)
        (standing endpoint.new link.new) (R.remaining input.new.reader) (W.contents output.new) (told_in link.new)) }
    ensures err { IfErr result (λ stop. Stopped stop (plan_of plan.now) (standing endpoint.old link.old Listening 0)
        (R.remaining input.old.reader) (W.contents output.old)
        (standing endpoint.new link.new) (R.remaining input.new.reader) (W.contents output.new)) }
    ensures end { OnOk result (IsAtEnd (R.remaining input.new.reader)) }
    ensures bounded { input.new.reads ≤ 1000000 }
{
    match answer_after(
        Until::Send,
        alloc,
        plan,
        endpoint,
        link,
        region,
        out,
        input,
        output,
    ) {
        Ok(()) => {}
        Err(stop) => return Err(stop),
    }
    match hear(Until::End, plan, endpoint, link, out, input, output) {
        Ok(_) => Ok(()),
        Err(stop) => Err(stop),
    }
}

// What a listening end does after its receive buffer was posted.
fn await_peer<R: Read, W: Write>(
    alloc: Global,
    plan: &Plan<'_>,
    endpoint: &mut Endpoint,
    link: &mut Link,
    region: Stag,
    out: &mut Vec<u8>,
    input: &mut Counted<R>,
    output: &mut W,
) -> Result<(), Stop>
    requires plan { plan.now.part ≡ Part.Serves region }
    requires reads { input.old.reads ≤ 1000000 }
    ensures ok { OnOk result (Finished (plan_of plan.now) (standing endpoint.old link.old Listening 0)
        (R.remaining input.old.reader) (W.contents output.old)
        (standing endpoint.new link.new) (R.remaining input.new.reader) (W.contents output.new) (told_in link.new)) }
    ensures err { IfErr result (λ stop. Stopped stop (plan_of plan.now) (standing endpoint.old link.old Listening 0)
        (R.remaining input.old.reader) (W.contents output.old)
        (standing endpoint.new link.new) (R.remaining input.new.reader) (W.contents output.new)) }
    ensures end { OnOk result (IsAtEnd (R.remaining input.new.reader)) }
    ensures bounded { input.new.reads ≤ 1000000 }
{
    if plan.terms.answers_at_once() {
        return answer_at_once(alloc, plan, endpoint, link, region, out, input, output);
    }
    match answer_after(
        Until::End,
        alloc,
        plan,
        endpoint,
        link,
        region,
        out,
        input,
        output,
    ) {
        Ok(()) => Ok(()),
        Err(stop) => Err(stop),
    }
}

// What a listening end does after its stream was opened.
fn listen_to<R: Read, W: Output>(
    alloc: Global,
    plan: &Plan<'_>,
    endpoint: &mut Endpoint,
    link: &mut Link,
    region: Stag,
    input: &mut Counted<R>,
    output: &mut W,
) -> Result<(), Stop>
    requires plan { plan.now.part ≡ Part.Serves region }
    requires reads { input.old.reads ≤ 1000000 }
    ensures ok { OnOk result (Finished (plan_of plan.now) (standing endpoint.old link.old Lending 0)
        (R.remaining input.old.reader) (W.contents output.old)
        (standing endpoint.new link.new) (R.remaining input.new.reader) (W.contents output.new) (told_in link.new)) }
    ensures err { IfErr result (λ stop. Stopped stop (plan_of plan.now) (standing endpoint.old link.old Lending 0)
        (R.remaining input.old.reader) (W.contents output.old)
        (standing endpoint.new link.new) (R.remaining input.new.reader) (W.contents output.new)) }
    ensures end { OnOk result (IsAtEnd (R.remaining input.new.reader)) }
    ensures bounded { input.new.reads ≤ 1000000 }
{
    match lend(alloc, plan, endpoint, link) {
        Ok(()) => {}
        Err(_) => return Err(Stop::Broken),
    }
    let mut out = Vec::new(alloc);
    match await_peer(alloc, plan, endpoint, link, region, &mut out, input, output) {
        Ok(()) => Ok(()),
        Err(stop) => Err(stop),
    }
}

/// Serves a connection: reads to the end of the peer's output, accepts its MPA Request with the region's STag as
/// private data, and sends back the region's first octets, as many as the peer's Send had. With an enhanced start-up it
/// sends them back once that Send was received, and then reads to the end, since real peers cannot end their output
/// alone. The caller then closes the connection.
///
/// Each read is one delivery; after it, `serve` works until there is nothing to do and writes all that is due. The link
/// breaks if the reader or writer fails, the input ends early, the window is full, or memory runs out. Then nothing more is
/// read or written. Nor is it if the peer's MPA Request is at fault (RFC 5044 8).
///
/// An `Err` means that the stream cannot be opened; nothing was read, written or changed.
pub fn serve<R: Read, W: Output>(
    alloc: Global,
    endpoint: &mut Endpoint,
    terms: Terms,
    region: Stag,
    input: &mut Counted<R>,
    output: &mut W,
) -> Result<Report, OpenRefusal>
    requires reads { input.old.reads ≤ 1000000 }
    ensures served { IfOk result (λ report. Served (plan_for terms (Serves region))
        endpoint.old (R.remaining input.old.reader) (W.contents output.old)
        endpoint.new (R.remaining input.new.reader) (W.contents output.new) report) }
    ensures err { OnErr result (endpoint.new ≡ endpoint.old) }
    ensures input { OnErr result (input.new ≡ input.old) }
    ensures output { OnErr result (output.new ≡ output.old) }
    ensures bounded { input.new.reads ≤ 1000000 }
{
    match endpoint.open(terms.number, DOMAIN, Role::Responder, terms.config()) {
        Ok(()) => {}
        Err(refusal) => return Err(refusal),
    }
    let plan = Plan {
        terms,
        part: Part::Serves(region),
    };
    let mut link = Link::new();
    match listen_to(alloc, &plan, endpoint, &mut link, region, input, output) {
        Ok(()) => Ok(link.into_report(false)),
        Err(Stop::Closed) => Ok(link.into_report(false)),
        Err(Stop::Broken) => Ok(break_off(&plan, endpoint, link)),
    }
}
