ghost use Rattle.std.specs.Prelude.{◌≡◌};
ghost use Rattle.iw_rdmap.specs.Head.{header_octets, is_request, is_early};

use iw_octets::{
    ReadRequest, TAGGED_HEADER, TaggedHead, TerminateWord, UNTAGGED_HEADER, UntaggedHead,
};

/// A segment whose header passed its checks, by what the segment is part of (RFC 5040 4.1, figure 4).
///
/// Each has its header as it was read.
#[derive(Clone, Copy, Debug, PartialEq, Eq)]
pub enum Head {
    /// Part of a Write.
    Write(TaggedHead),
    /// Part of the response to a Read.
    Response(TaggedHead),
    /// Part of a Send of any kind; the header's opcode tells which.
    Send(UntaggedHead),
    /// A Read Request, whole.
    Request(UntaggedHead, ReadRequest),
    /// A Terminate, with the first word of its payload.
    Terminate(UntaggedHead, TerminateWord),
}

impl Head {
    /// How many octets of the ULPDU its DDP header has; the payload is all past them (RFC 5041 4.2 to 4.4).
    pub fn header_len(&self) -> usize
        ensures { result ≡ header_octets self.now }
    {
        match self {
            Head::Write(_) | Head::Response(_) => TAGGED_HEADER,
            Head::Send(_) | Head::Request(..) | Head::Terminate(..) => UNTAGGED_HEADER,
        }
    }

    /// Whether it is a Read Request, whose own header a Terminate may take along.
    pub fn is_request(&self) -> bool
        ensures { result ≡ is_request self.now }
    {
        matches!(self, Head::Request(..))
    }
}

/// Whether the segment is placed before those in front of it have come (RFC 5041 5.3, RFC 5040 5.5).
///
/// Exactly the parts of Writes, Read Responses and Sends are: their headers name a place, of a region or of a receive
/// buffer. Read Requests and Terminates, which have no place to go to, wait for their turn.
pub fn early(head: &Head) -> bool
    ensures { result ≡ is_early head.now }
{
    match head {
        Head::Write(_) | Head::Response(_) | Head::Send(_) => true,
        Head::Request(..) | Head::Terminate(..) => false,
    }
}
