ghost use Rattle.std.specs.Prelude.{◌≡◌, ◌⊎◌, [], ◌∷◌, ◌++◌, IfOk, OnOk, OnErr};
ghost use Rattle.iw_server.specs.Opening.{zero_octets, prepared, region_for, IsOpened};

use crate::closing::end_stream;
use crate::connection::Connection;
use crate::domains::{Domains, NoRoom, number_at};
use crate::terms::{Terms, config_of};
use iw_connection::{Endpoint, StreamNumber};
use iw_endpoint::{OpenNextRefusal, Rights, Role, Stag};
use std::alloc::Global;
use std::net::SocketAddr;

/// Whose connection it is, and 32 bits for the STag of its region.
#[derive(Clone, Copy, Debug, PartialEq, Eq)]
pub(crate) struct Arrival {
    pub(crate) peer: SocketAddr,
    pub(crate) drawn: u32,
    /// The second in which it was accepted.
    pub(crate) now: u64,
}

/// Opens a stream for a connection, with a receive buffer and a region that is registered for this stream alone, under an STag that
/// is drawn, in a domain that has room for one. An `Err` leaves no connection, and may leave a domain that was added; it is
/// `Spent` if all numbers of streams were given.
pub(crate) fn open(
    alloc: Global,
    endpoint: &mut Endpoint,
    domains: &mut Domains,
    terms: Terms,
    arrival: Arrival,
) -> Result<Connection, NoRoom>
    ensures opened { IfOk result (IsOpened terms arrival.drawn domains.old domains.new endpoint.old endpoint.new) }
    ensures err { OnErr result ((domains.new ≡ domains.old) ⊎ (domains.new ≡ domains.old ++ 0 ∷ [])) }
{
    let place = match domains.with_room(endpoint) {
        Ok(place) => place,
        Err(refusal) => return Err(refusal),
    };
    let stream = match endpoint.open_next(number_at(place), Role::Responder, config_of(terms)) {
        Ok(stream) => stream,
        Err(OpenNextRefusal::NumbersSpent) => return Err(NoRoom::Spent),
        Err(_) => return Err(NoRoom::Full),
    };
    match prepare(alloc, endpoint, stream, terms.most, arrival.drawn) {
        Ok(region) => {
            domains.take(place);
            Ok(Connection::new(alloc, stream, region, place, arrival.peer, arrival.now))
        }
        Err(refusal) => {
            let _ = end_stream(endpoint, stream);
            Err(refusal)
        }
    }
}

// Posts a receive buffer, and registers a region for this stream alone, which its peer may write.
fn prepare(
    alloc: Global,
    endpoint: &mut Endpoint,
    stream: StreamNumber,
    most: usize,
    drawn: u32,
) -> Result<Stag, NoRoom>
    ensures ok { OnOk result (endpoint.new ≡ prepared endpoint.old stream most drawn) }
    ensures region { IfOk result (λ stag. stag ≡ region_for endpoint.old stream most drawn) }
{
    let buffer = zeroes(alloc, most)?;
    if endpoint.post_recv(stream, buffer).is_err() {
        return Err(NoRoom::Full);
    }
    let octets = zeroes(alloc, most)?;
    let rights = Rights {
        write: true,
        read: false,
        sink: false,
        invalidate: false,
    };
    match endpoint.register_drawn_for(stream, 0, octets, rights, drawn) {
        Ok(stag) => Ok(stag),
        Err(_) => Err(NoRoom::Full),
    }
}

// So many zero octets.
fn zeroes(alloc: Global, count: usize) -> Result<Vec<u8>, NoRoom>
    ensures { IfOk result (λ octets. octets.items ≡ zero_octets count) }
{
    match vec![in alloc; 0u8; count] {
        Ok(octets) => Ok(octets),
        Err(_) => Err(NoRoom::Full),
    }
}
