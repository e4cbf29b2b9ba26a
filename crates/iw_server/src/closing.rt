ghost use Rattle.std.specs.Prelude.{◌≡◌, OnOk};
ghost use Rattle.iw_endpoint.specs.Endpoint.{after_close};
ghost use Rattle.iw_server.specs.Domains.{given_back_at};
ghost use Rattle.iw_server.specs.Closing.{IsForgotten, IsGone};

use crate::connection::{Broken, Connection};
use crate::domains::Domains;
use iw_connection::{Endpoint, Step, StreamNumber, break_link, next};

/// Ends a stream, whose connection is over: what was posted is handed back, and the endpoint forgets the stream.
pub(crate) fn end_stream(endpoint: &mut Endpoint, stream: StreamNumber) -> Result<(), Broken>
    ensures { OnOk result (IsForgotten endpoint.old stream endpoint.new) }
{
    match break_link(endpoint, stream) {
        Ok(()) => {}
        Err(_) => return Err(Broken),
    }
    'steps: for _ in 0..u64::MAX {
        match next(endpoint, stream) {
            Ok(Step::Idle) => return forget(endpoint, stream),
            Ok(_) => {}
            Err(_) => return Err(Broken),
        }
    }
    Err(Broken)
}

// Has the endpoint forget a stream that is at rest.
fn forget(endpoint: &mut Endpoint, stream: StreamNumber) -> Result<(), Broken>
    ensures { OnOk result (endpoint.new ≡ after_close endpoint.old stream) }
{
    match endpoint.close(stream) {
        Ok(()) => Ok(()),
        Err(_) => Err(Broken),
    }
}

/// A connection is over: ends its stream, and takes back its region.
pub(crate) fn close_connection(
    endpoint: &mut Endpoint,
    domains: &mut Domains,
    connection: &Connection,
) -> Result<(), Broken>
    ensures endpoint { OnOk result (IsGone endpoint.old connection.now.stream connection.now.region endpoint.new) }
    ensures domains { OnOk result (domains.new ≡ given_back_at domains.old connection.now.place) }
{
    match end_stream(endpoint, connection.stream) {
        Ok(()) => {}
        Err(broken) => return Err(broken),
    }
    match endpoint.deregister(connection.region) {
        Ok(_) => {
            domains.give_back(connection.place);
            Ok(())
        }
        Err(_) => Err(Broken),
    }
}
