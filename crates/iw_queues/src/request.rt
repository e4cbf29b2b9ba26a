ghost use Rattle.std.specs.Prelude.{◌≡◌, ◌≤◌, length};
ghost use Rattle.iw_queues.specs.Outgoing.{request_of};
ghost use Rattle.iw_queues.specs.Request.{kind_of, payload, size_of, header_len};

use crate::outgoing::Outgoing;
use bytes::Bytes;
use iw_octets::{Message, ReadRequest, TAGGED_HEADER, UNTAGGED_HEADER};
use std::alloc::Allocator;
use std_alloc::vec::Lodged;
use thiserror::Error;

/// What is posted: a message with octets of this end, or a Read of octets of the peer. The payload's type is the
/// parameter.
#[derive(Debug, PartialEq, Eq, Drop)]
pub enum Request<O> {
    Message(Message<O>),
    Read(ReadRequest),
}

/// What a posted message is.
#[derive(Clone, Copy, Debug, PartialEq, Eq)]
pub enum Kind {
    Write,
    Send,
    Read,
}

/// Why a message is not posted: the first reason that holds, in the order of the variants.
#[derive(Clone, Copy, Debug, PartialEq, Eq, Error)]
pub enum Refusal {
    /// 256 messages are posted and not yet handed out: send parts, and take out what is done.
    #[error("256 messages are posted and not yet handed out: send parts, and take out what is done")]
    Full,
    /// The message has more than 16,777,216 octets, or is a Read that asks for more: post it in parts.
    #[error("a message or Read has at most 16,777,216 octets: post it in parts")]
    TooLong,
    /// Out of memory: the call may be made again.
    #[error("no memory: the call may be made again")]
    NoMemory,
}

impl<A: Allocator> Request<Bytes<A>> {
    /// How many octets it moves: its own, or those that a Read asks for.
    pub fn size(&self) -> usize
        ensures { result ≡ size_of self.now }
    {
        match self {
            Request::Message(Message::Write { octets, .. }) => octets.len(),
            Request::Message(Message::Send { octets, .. }) => octets.len(),
            Request::Read(read) => read.size as usize,
        }
    }

    /// The request, with its octets as they are.
    pub(crate) fn outgoing(self) -> Request<Outgoing<A>>
        ensures { result ≡ self }
    {
        match self {
            Request::Message(message) => Request::Message(shared_message(message)),
            Request::Read(read) => Request::Read(read),
        }
    }
}

// The message, with its octets as they are.
fn shared_message<A: Allocator>(message: Message<Bytes<A>>) -> Message<Outgoing<A>>
    ensures { result ≡ message }
{
    match message {
        Message::Write { stag, to, octets } => Message::Write {
            stag,
            to,
            octets: Outgoing::shared(octets),
        },
        Message::Send {
            octets,
            solicited,
            invalidate,
        } => Message::Send {
            octets: Outgoing::shared(octets),
            solicited,
            invalidate,
        },
    }
}

/// How many octets a message has that a program keeps.
pub(crate) fn kept_len(message: &Message<Vec<u8, Lodged>>) -> usize
    ensures { result ≡ size_of (request_of message.now) }
{
    match message {
        Message::Write { octets, .. } => octets.len(),
        Message::Send { octets, .. } => octets.len(),
    }
}

/// The message as a request, with its octets where they are.
pub(crate) fn kept_request<A: Allocator>(message: Message<Vec<u8, Lodged>>) -> Request<Outgoing<A>>
    ensures { result ≡ request_of message }
{
    match message {
        Message::Write { stag, to, octets } => Request::Message(Message::Write {
            stag,
            to,
            octets: Outgoing::kept(octets),
        }),
        Message::Send {
            octets,
            solicited,
            invalidate,
        } => Request::Message(Message::Send {
            octets: Outgoing::kept(octets),
            solicited,
            invalidate,
        }),
    }
}

impl<A: Allocator> Request<Outgoing<A>> {
    pub fn kind(&self) -> Kind
        ensures { result ≡ kind_of self.now }
    {
        match self {
            Request::Message(Message::Write { .. }) => Kind::Write,
            Request::Message(Message::Send { .. }) => Kind::Send,
            Request::Read(_) => Kind::Read,
        }
    }

    /// The octets that are sent with it; a Read has none.
    pub fn payload(&self) -> &[u8]
        ensures { result.now ≡ payload self.now }
    {
        match self {
            Request::Message(Message::Write { octets, .. }) => octets.as_slice(),
            Request::Message(Message::Send { octets, .. }) => octets.as_slice(),
            Request::Read(_) => &[],
        }
    }

    /// How many octets the header of each of its parts has: a Write is tagged, the others are untagged.
    pub fn header_len(&self) -> usize
        ensures len { result ≡ header_len self.now }
        ensures small { result ≤ 18 }
    {
        match self {
            Request::Message(Message::Write { .. }) => TAGGED_HEADER,
            Request::Message(Message::Send { .. }) | Request::Read(_) => UNTAGGED_HEADER,
        }
    }
}
