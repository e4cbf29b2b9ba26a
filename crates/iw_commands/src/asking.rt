ghost use Rattle.std.specs.Prelude.{◌≡◌, IfOk, OnErr};
ghost use Rattle.iw_endpoint.specs.Endpoint.{EndpointState};
ghost use Rattle.iw_links.specs.Exchange.{Asks, plan_for, with_domain};
ghost use Rattle.iw_commands.specs.Printed.{IsTold, Prints, PrintsFront};

use crate::fault::CommandFault;
use crate::options::Options;
use crate::peers::{Calls, Peers};
use crate::printing::{print_report, unmade};
use crate::timed::Pace;
use iw_endpoint::Endpoint;
use iw_links::{Counted, Output, Report, Terms, ask, caller};
use iw_output::Status;
use std::alloc::Global;
use std::cell::Cell;
use std::io::{Read, Write};
use std::net::Net;
use std::time::Clock;

/// What `connect` sends, on how many connections.
#[derive(Clone, Copy, Debug)]
pub struct Request<'a> {
    /// The text that is written into the peer's region and sent: at most 4,096 octets.
    pub text: &'a str,
    /// How many connections are made, one after the other.
    pub count: u8,
    /// What each start-up frame asks for.
    pub options: Options,
}

/// Makes a request on a connection, given its two halves.
pub(crate) fn ask_peer<R: Read + Drop, O: Output + Drop>(
    alloc: Global,
    endpoint: &mut Endpoint,
    terms: Terms,
    text: &str,
    peer: (R, O),
) -> Report
    ensures told { IsTold (plan_for terms (Asks text.now)) endpoint.old endpoint.new result }
{
    let (input, mut output) = peer;
    let mut input = Counted::new(input);
    match ask(
        alloc,
        endpoint,
        terms,
        text.as_bytes(),
        &mut input,
        &mut output,
    ) {
        Ok(report) => report,
        Err(_) => unmade(),
    }
}

// Makes a request on the next connection.
fn ask_next<P: Peers>(
    alloc: Global,
    peers: &mut P,
    endpoint: &mut Endpoint,
    terms: Terms,
    text: &str,
) -> Report
    ensures told { IsTold (plan_for terms (Asks text.now)) endpoint.old endpoint.new result }
{
    match peers.next_peer() {
        Ok(peer) => ask_peer(alloc, endpoint, terms, text, peer),
        Err(_) => unmade(),
    }
}

// Makes requests on connections one after the other, and prints the lines of each.
fn ask_each<P: Peers, W: Write>(
    alloc: Global,
    peers: &mut P,
    endpoint: &mut Endpoint,
    request: &Request<'_>,
    print: &mut W,
) -> Result<Status, CommandFault>
    ensures printed { IfOk result (Prints request.now.options (Asks request.now.text.now) endpoint.old endpoint.new
        request.now.count (W.contents print.old) (W.contents print.new)) }
    ensures stopped { OnErr result (PrintsFront request.now.options (Asks request.now.text.now) endpoint.old endpoint.new
        request.now.count (W.contents print.old) (W.contents print.new)) }
{
    let mut status = Status::Completed;
    for stream in 0..request.count {
        let terms = request.options.at(stream);
        let report = ask_next(alloc, peers, endpoint, terms, request.text);
        match print_report(alloc, print, stream, &report) {
            Ok(next) => status = status.with(next),
            Err(fault) => return Err(fault),
        }
    }
    Ok(status)
}

/// Makes a request on connections one after the other, the first as stream 0, and prints the lines of each. One that
/// breaks does not stop the later ones.
///
/// An `Err` is `Output` if a line could not be printed, or `NoMemory`. Then only the front of the lines was printed.
pub fn connect_all<P: Peers, W: Write>(
    alloc: Global,
    peers: &mut P,
    request: &Request<'_>,
    print: &mut W,
) -> Result<Status, CommandFault>
    ensures printed { IfOk result (λ status. (last : EndpointState) × Prints request.now.options (Asks request.now.text.now)
        with_domain last request.now.count (W.contents print.old) (W.contents print.new) status) }
    ensures stopped { OnErr result ((last : EndpointState) × PrintsFront request.now.options (Asks request.now.text.now)
        with_domain last request.now.count (W.contents print.old) (W.contents print.new)) }
{
    let Ok(mut endpoint) = caller(alloc) else {
        return Err(CommandFault::NoMemory);
    };
    match ask_each(alloc, peers, &mut endpoint, request, print) {
        Ok(status) => Ok(status),
        Err(fault) => Err(fault),
    }
}

/// Makes requests at a port of 127.0.0.1, as [`connect_all`] does, each at this pace: a connection that takes longer breaks.
pub fn connect<N: Net + Clock, W: Write>(
    alloc: Global,
    net: &N,
    port: u16,
    pace: Pace,
    request: &Request<'_>,
    print: &mut W,
) -> Result<Status, CommandFault>
    ensures printed { IfOk result (λ status. (last : EndpointState) × Prints request.now.options (Asks request.now.text.now)
        with_domain last request.now.count (W.contents print.old) (W.contents print.new) status) }
    ensures stopped { OnErr result ((last : EndpointState) × PrintsFront request.now.options (Asks request.now.text.now)
        with_domain last request.now.count (W.contents print.old) (W.contents print.new)) }
{
    let is_met = Cell::new(false);
    connect_all(
        alloc,
        &mut Calls::new(net, port, pace, &is_met),
        request,
        print,
    )
}
