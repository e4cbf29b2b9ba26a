//! Facts about the values in a trace.

ghost use Rattle.iw_laws.specs.Rules.{FitsPosted};
ghost use Rattle.iw_octets.specs.Payload.{FitsRequest};
ghost use Rattle.iw_octets.specs.Stag.{FitsStag};

use bytes::Bytes;
use iw_memory::Stag;
use iw_octets::{Message, ReadRequest};
use iw_stream::Request;
use std::alloc::Allocator;

// For the prover alone, as all of this file: the numbers of an STag fit their types.
fn known_stag(stag: Stag)
    ensures { FitsStag stag }
{
    stag.known();
}

// So do the numbers of a Read.
fn known_read(request: ReadRequest)
    ensures { FitsRequest request }
{
    let ReadRequest {
        sink,
        sink_to: _,
        size: _,
        source,
        source_to: _,
    } = request;
    known_stag(sink);
    known_stag(source);
}

/// For the prover alone: it does nothing. Its clause states that the numbers of a request fit their fields.
pub(crate) fn known<A: Allocator>(request: &Request<Bytes<A>>)
    ensures { FitsPosted request.now }
{
    match request {
        Request::Message(Message::Write { stag, to, .. }) => {
            known_stag(*stag);
            let _to = *to;
        }
        Request::Message(Message::Send { invalidate, .. }) => {
            if let Some(stag) = invalidate {
                known_stag(*stag);
            }
        }
        Request::Read(read) => known_read(*read),
    }
}
