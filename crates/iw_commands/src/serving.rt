ghost use Rattle.std.specs.Prelude.{◌≡◌, IfOk, OnErr};
ghost use Rattle.iw_endpoint.specs.Endpoint.{EndpointState};
ghost use Rattle.iw_links.specs.Exchange.{Serves, plan_for, listening, shared_region};
ghost use Rattle.iw_commands.specs.Printed.{IsPort, IsTold, Prints, PrintsFront, PrintsPort, PrintsPortFront};

use crate::fault::CommandFault;
use crate::options::Options;
use crate::peers::{Arrivals, Peers};
use crate::port::port_text;
use crate::printing::{print_report, print_text, unmade};
use crate::timed::Pace;
use iw_endpoint::{Endpoint, Stag};
use iw_links::{Counted, Report, Terms, listener, serve};
use iw_output::Status;
use std::alloc::Global;
use std::cell::Cell;
use std::io::Write;
use std::net::Net;
use std::time::Clock;

// Serves the next connection.
fn serve_next<P: Peers>(
    alloc: Global,
    peers: &mut P,
    endpoint: &mut Endpoint,
    terms: Terms,
    region: Stag,
) -> Report
    ensures told { IsTold (plan_for terms (Serves region)) endpoint.old endpoint.new result }
{
    let Ok((input, mut output)) = peers.next_peer() else {
        return unmade();
    };
    let mut input = Counted::new(input);
    match serve(alloc, endpoint, terms, region, &mut input, &mut output) {
        Ok(report) => report,
        Err(_) => unmade(),
    }
}

// Serves connections one after the other, and prints the lines of each.
fn serve_each<P: Peers, W: Write>(
    alloc: Global,
    peers: &mut P,
    endpoint: &mut Endpoint,
    region: Stag,
    options: Options,
    count: u8,
    print: &mut W,
) -> Result<Status, CommandFault>
    ensures printed { IfOk result (Prints options (Serves region) endpoint.old endpoint.new
        count (W.contents print.old) (W.contents print.new)) }
    ensures stopped { OnErr result (PrintsFront options (Serves region) endpoint.old endpoint.new
        count (W.contents print.old) (W.contents print.new)) }
{
    let mut status = Status::Completed;
    for stream in 0..count {
        let terms = options.at(stream);
        let report = serve_next(alloc, peers, endpoint, terms, region);
        match print_report(alloc, print, stream, &report) {
            Ok(next) => status = status.with(next),
            Err(fault) => return Err(fault),
        }
    }
    Ok(status)
}

/// Serves connections one after the other, the first as stream 0, and prints the lines of each. One that breaks does
/// not stop the later ones.
///
/// An `Err` is `Output` if a line could not be printed, or `NoMemory`. Then only the front of the lines was printed.
pub fn listen_all<P: Peers, W: Write>(
    alloc: Global,
    peers: &mut P,
    options: Options,
    count: u8,
    print: &mut W,
) -> Result<Status, CommandFault>
    ensures printed { IfOk result (λ status. (last : EndpointState) × Prints options (Serves shared_region) listening last
        count (W.contents print.old) (W.contents print.new) status) }
    ensures stopped { OnErr result ((last : EndpointState) × PrintsFront options (Serves shared_region) listening last
        count (W.contents print.old) (W.contents print.new)) }
{
    let Ok((mut endpoint, region)) = listener(alloc) else {
        return Err(CommandFault::NoMemory);
    };
    match serve_each(alloc, peers, &mut endpoint, region, options, count, print) {
        Ok(status) => Ok(status),
        Err(fault) => Err(fault),
    }
}

// The port that was bound: the one that was asked for, unless that was 0.
fn named_port<N: Net>(arrivals: &Arrivals<'_, N>, asked: u16) -> Result<u16, CommandFault>
    ensures { IfOk result (IsPort asked) }
{
    match arrivals.port() {
        Ok(port) if asked == 0 || port == asked => Ok(port),
        _ => Err(CommandFault::Port),
    }
}

/// Binds 127.0.0.1 at `port`, or at any free port if that is 0, prints `port Q` with the bound port Q, and serves
/// connections as [`listen_all`] does. A connection breaks whose MPA Request did not come and was not answered within the
/// `seconds` of `pace`, from when it was accepted, whatever octets came (RFC 5044 7.1.2, rule 10).
///
/// An `Err` is `Port` if the port cannot be bound (then nothing was printed), or that of [`listen_all`].
pub fn listen<N: Net + Clock, W: Write>(
    alloc: Global,
    net: &N,
    port: u16,
    pace: Pace,
    options: Options,
    count: u8,
    print: &mut W,
) -> Result<Status, CommandFault>
    ensures printed { IfOk result (PrintsPort options port count (W.contents print.old) (W.contents print.new)) }
    ensures stopped { OnErr result (PrintsPortFront options port count (W.contents print.old) (W.contents print.new)) }
{
    let is_answered = Cell::new(false);
    let Ok(mut arrivals) = Arrivals::bind(net, port, pace, &is_answered) else {
        return Err(CommandFault::Port);
    };
    let Ok(bound) = named_port(&arrivals, port) else {
        return Err(CommandFault::Port);
    };
    let Ok(line) = port_text(alloc, bound) else {
        return Err(CommandFault::NoMemory);
    };
    match print_text(print, line.as_bytes()) {
        Ok(()) => {}
        Err(fault) => return Err(fault),
    }
    match listen_all(alloc, &mut arrivals, options, count, print) {
        Ok(status) => Ok(status),
        Err(fault) => Err(fault),
    }
}
