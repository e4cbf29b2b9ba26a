ghost use Rattle.std.specs.Prelude.{◌≡◌, ◌≤◌, length, true, Some, IfOk, OnOk};
ghost use Rattle.iw_stream.specs.Kept.{IsWithinBuffer};
ghost use Rattle.iw_server.specs.Acting.{IsSame, standing, opened_as, Answers, lent_again, Does, HasActedFor};

use crate::connection::{Broken, Connection, Phase};
use crate::effort::{Effort, Halt, next_step};
use crate::log::Log;
use bytes::Bytes;
use iw_connection::{Endpoint, Octets, Step};
use iw_endpoint::{Message, PrivateData, Request};
use std::alloc::Global;

/// Does what the steps of a connection's stream ask for, until there is nothing to do, or as much was done as one turn has
/// room for. Returns whether there is nothing to do.
pub(crate) fn act(
    alloc: Global,
    endpoint: &mut Endpoint,
    connection: &mut Connection,
    log: &mut Log,
    now: u64,
) -> Result<bool, Broken>
    ensures same { IsSame connection.old connection.new }
    ensures ok { IfOk result (λ is_all. HasActedFor is_all connection.old.region connection.old.stream
        (standing endpoint.old connection.old) (standing endpoint.new connection.new)) }
{
    let mut effort = Effort::new();
    let acted = act_within(alloc, endpoint, connection, log, &mut effort);
    if effort.is_of_use() {
        connection.moved = now;
    }
    acted
}

// The same, with so much effort.
fn act_within(
    alloc: Global,
    endpoint: &mut Endpoint,
    connection: &mut Connection,
    log: &mut Log,
    effort: &mut Effort,
) -> Result<bool, Broken>
    ensures same { IsSame connection.old connection.new }
    ensures ok { IfOk result (λ is_all. HasActedFor is_all connection.old.region connection.old.stream
        (standing endpoint.old connection.old) (standing endpoint.new connection.new)) }
{
    'steps: for _ in 0..u64::MAX {
        match next_step(endpoint, connection.stream, effort) {
            Ok(Step::Idle) => return Ok(true),
            Ok(step) => match act_on(alloc, endpoint, connection, log, step) {
                Ok(()) => {}
                Err(broken) => return Err(broken),
            },
            Err(Halt::Spent) => return Ok(false),
            Err(Halt::Broken) => return Err(Broken),
        }
    }
    Err(Broken)
}

// Does what a step asks for.
fn act_on(
    alloc: Global,
    endpoint: &mut Endpoint,
    connection: &mut Connection,
    log: &mut Log,
    step: Step<Octets>,
) -> Result<(), Broken>
    requires { IsWithinBuffer step }
    ensures same { IsSame connection.old connection.new }
    ensures ok { OnOk result (Does connection.old.region connection.old.stream step
        (standing endpoint.old connection.old) (standing endpoint.new connection.new)) }
{
    match step {
        Step::Asked => accept(endpoint, connection),
        Step::Received { buffer, len, .. } => {
            receive(alloc, endpoint, connection, log, buffer, len)
        }
        Step::Done(_) => lend_again(endpoint, connection),
        Step::Fault(fault) => {
            connection.end_by_fault();
            log.add_fault(connection.stream, connection.peer, "fault", fault);
            Ok(())
        }
        Step::Terminated(fault) => {
            connection.end_by_fault();
            log.add_fault(connection.stream, connection.peer, "terminated", fault);
            Ok(())
        }
        Step::Closed(fault) => {
            connection.has_failed = true;
            connection.phase = Phase::Closed;
            log.add_closed(connection.stream, connection.peer, fault);
            Ok(())
        }
        Step::Flushed(_)
        | Step::FlushedRecv(_)
        | Step::Opened(_)
        | Step::Placed { .. }
        | Step::Buffered { .. }
        | Step::Requested { .. }
        | Step::Tried(_)
        | Step::Passed
        | Step::Idle => Ok(()),
    }
}

// Accepts the peer's Request, with the STag of its region as private data: the stream is open.
fn accept(endpoint: &mut Endpoint, connection: &mut Connection) -> Result<(), Broken>
    ensures same { IsSame connection.old connection.new }
    ensures ok { OnOk result (standing endpoint.new connection.new ≡ opened_as connection.old.stream connection.old.region (standing endpoint.old connection.old)) }
{
    let mut private = PrivateData::new();
    let _ = private.try_extend_from_slice(&connection.region.to_octets());
    match endpoint.accept(connection.stream, private) {
        Ok(_) => {
            connection.phase = Phase::Running;
            Ok(())
        }
        Err(_) => Err(Broken),
    }
}

// A Send came: answers it. Its buffer is posted again once the answer is out, so that a peer has one Send on its way.
fn receive(
    alloc: Global,
    endpoint: &mut Endpoint,
    connection: &mut Connection,
    log: &mut Log,
    buffer: Octets,
    len: usize,
) -> Result<(), Broken>
    requires { len ≤ length buffer }
    ensures same { IsSame connection.old connection.new }
    ensures answers { OnOk result (Answers connection.old.region connection.old.stream len endpoint.old endpoint.new) }
    ensures held { OnOk result (standing endpoint.new connection.new ≡ record (standing endpoint.new connection.old) { buffer = Some buffer; has_received = true }) }
{
    log.add_received(
        alloc,
        connection.stream,
        connection.peer,
        &buffer.as_slice()[..len],
    );
    connection.has_received = true;
    connection.buffer = Some(buffer.into_vec());
    answer(alloc, endpoint, connection, len)
}

// Sends back the front of the peer's region, which its peer can no longer write by then.
fn answer(
    alloc: Global,
    endpoint: &mut Endpoint,
    connection: &Connection,
    len: usize,
) -> Result<(), Broken>
    ensures { OnOk result (Answers connection.now.region connection.now.stream len endpoint.old endpoint.new) }
{
    if endpoint.invalidate(connection.region).is_err() {
        return Err(Broken);
    }
    let Some(octets) = endpoint.local(connection.region) else {
        return Err(Broken);
    };
    let Some(front) = octets.get(..len) else {
        return Err(Broken);
    };
    let Ok(octets) = Bytes::copy_from_slice(alloc, front) else {
        return Err(Broken);
    };
    let send = Message::Send {
        octets,
        solicited: false,
        invalidate: None,
    };
    match endpoint.post(connection.stream, Request::Message(send)) {
        Ok(()) => Ok(()),
        Err(_) => Err(Broken),
    }
}

// The answer is out: posts the receive buffer again.
fn lend_again(endpoint: &mut Endpoint, connection: &mut Connection) -> Result<(), Broken>
    ensures same { IsSame connection.old connection.new }
    ensures ok { OnOk result (standing endpoint.new connection.new ≡ lent_again connection.old.stream (standing endpoint.old connection.old)) }
{
    let Some(buffer) = connection.buffer.take() else {
        return Ok(());
    };
    match endpoint.post_recv(connection.stream, buffer) {
        Ok(()) => Ok(()),
        Err(_) => Err(Broken),
    }
}
