//! What calls on a stream answer, and why they are refused.
use iw_memory::Right;
use iw_octets::{Fault, Stag};
use iw_queues::Kind;
use iw_startup::{Agreed, StartupFault};
use thiserror::Error;

/// The fault of a stream whose peer's Reply has an ORD of over 16 (RFC 6581 8, 9.1).
pub const INSUFFICIENT_IRD: Fault = Fault {
    layer: 2,
    kind: 0,
    code: 6,
};

/// The fault of a stream whose peer's Reply offers no RTR that this end can send (RFC 6581 8, 9.2).
pub const NO_MATCHING_RTR: Fault = Fault {
    layer: 2,
    kind: 0,
    code: 7,
};

/// Why a stream is not opened: the first reason that holds.
#[derive(Clone, Copy, Debug, PartialEq, Eq, Error)]
pub enum OpenRefusal {
    /// A stream was opened under this number before: use `open_next`.
    #[error("a stream was opened under this number before: use `open_next`")]
    NumberTaken,
    /// The number is greater than 63: `open_next` gives others.
    #[error("a number that is picked is 0 to 63: `open_next` gives others")]
    BadNumber,
    /// The domain was not added.
    #[error("the domain was not added: add it first")]
    NoDomain,
    /// An initiator that asks for revision 2 has over 508 octets of private data (RFC 6581 9).
    #[error("private data has at most 512 octets, and 508 in an enhanced start-up frame")]
    PrivateTooLong,
    /// Out of memory: the call may be made again.
    #[error("no memory: the call may be made again")]
    NoMemory,
}

/// Why a message or a Read is not posted: the first reason that holds, in the order `NotOpen`, `NoReads`, `Full`,
/// `TooLong`, `NoMemory`.
#[derive(Clone, Copy, Debug, PartialEq, Eq, Error)]
pub enum PostRefusal {
    /// 256 messages are posted and not yet handed out: emit, and work until one is done.
    #[error("256 messages are posted and not yet done: emit, and work until one is")]
    Full,
    /// The message has more than 16,777,216 octets, or the Read asks for more: post it in parts.
    #[error("a message or Read has at most 16,777,216 octets: post it in parts")]
    TooLong,
    /// The stream is not open yet, or has ended.
    #[error("the stream is not open yet, or has ended")]
    NotOpen,
    /// The peer takes no Reads: its IRD is 0 (RFC 6581 9.1).
    #[error("the peer takes no Reads")]
    NoReads,
    /// Out of memory: the call may be made again.
    #[error("no memory: the call may be made again")]
    NoMemory,
}

/// Why a Request is not answered: the first reason that holds.
#[derive(Clone, Copy, Debug, PartialEq, Eq, Error)]
pub enum AnswerRefusal {
    /// This end is an initiator, the Request is not whole, or it is answered already; or the stream has ended.
    #[error("no MPA Request waits for an answer")]
    NotAsked,
    /// The answer to an enhanced Request has over 508 octets of private data (RFC 6581 9).
    #[error("private data has at most 512 octets, and 508 in an enhanced start-up frame")]
    PrivateTooLong,
}

/// Why a receive buffer is not posted: the first reason that holds, in the order `Shared`, `Ended`, `Full`,
/// `NoMemory`.
#[derive(Clone, Copy, Debug, PartialEq, Eq, Error)]
pub enum RecvRefusal {
    /// 256 buffers are posted and not yet handed back: work until one is.
    #[error("256 receive buffers are posted: work until one is handed back")]
    Full,
    /// Out of memory: the call may be made again.
    #[error("no memory: the call may be made again")]
    NoMemory,
    /// The stream has ended: close it.
    #[error("the stream has ended: close it")]
    Ended,
    /// The stream takes its receive buffers from its domain's pool: post them there.
    #[error("the stream takes its receive buffers from its domain's pool: post them there")]
    Shared,
}

/// Why the sequence number of the peer's first octet is not set.
#[derive(Clone, Copy, Debug, PartialEq, Eq, Error)]
pub enum FirstRefusal {
    /// Octets were delivered on the stream before, and kept or dropped.
    #[error("octets were delivered on the stream before: set the first number before that")]
    Late,
}

/// Why a ULPDU size is not set.
#[derive(Clone, Copy, Debug, PartialEq, Eq, Error)]
pub enum SizeRefusal {
    /// It is outside 128 to 64,512 octets.
    #[error("the maximum ULPDU is 128 to 64,512 octets")]
    BadSize,
}

/// What a call to emit appended.
#[derive(Clone, Copy, Debug, PartialEq, Eq)]
pub enum Emission {
    /// A frame of `len` octets, the first of which has the stream place `from`.
    Frame {
        from: u64,
        len: usize,
    },
    /// A frame of the response to a Read, as `Frame`. Its payload is the `n` octets of region `stag` from tagged offset `to` on.
    Fetched {
        from: u64,
        len: usize,
        stag: Stag,
        to: u64,
        n: usize,
    },
    /// The source of the Read that is answered is denied: nothing is appended, and the stream has ended by this fault.
    Fault(Fault),
    /// Nothing is due.
    Nothing,
}

/// How a stream begins.
#[derive(Clone, Copy, Debug, PartialEq, Eq)]
pub enum Role {
    /// It is open at once, with no start-up frames.
    Preset,
    /// It sends the Request, and is open once the Reply accepts (RFC 5044 7.1).
    Initiator,
    /// It waits for the Request, and is open once its user accepts.
    Responder,
}

/// How far a stream is in its life.
#[derive(Clone, Copy, Debug, PartialEq, Eq)]
pub enum Standing {
    /// Its start-up goes on: nothing may be posted but receive buffers.
    Starting,
    /// It is open: messages may be posted.
    Open,
    /// It has ended. A Terminate or a start-up frame may still be due.
    Ended,
}

/// What one step of work did. The buffer's type is the parameter.
#[derive(Debug, PartialEq, Drop)]
pub enum Step<O> {
    /// The oldest posted message is finished.
    Done(Kind),
    /// The stream has ended: the oldest posted message is given up.
    Flushed(Kind),
    /// The stream has ended: its oldest receive buffer is handed back, whole, with what was placed in it.
    FlushedRecv(O),
    /// The peer's Request is complete: the stream's user is to accept or to reject it.
    Asked,
    /// The peer's Reply has accepted: the stream is open.
    Opened(Agreed),
    /// The peer's start-up frame has closed the stream.
    Closed(StartupFault),
    /// A tagged segment's `len` octets were placed from tagged offset `to` on.
    Placed {
        right: Right,
        stag: Stag,
        to: u64,
        len: usize,
    },
    /// A Send's segment of `len` octets was placed in the buffer that its message sequence number names, from offset `mo` on.
    Buffered {
        msn: u32,
        mo: u32,
        len: usize,
    },
    /// A Read Request for `size` octets was taken up: those of region `stag` from tagged offset `to` on.
    Requested {
        size: u32,
        stag: Stag,
        to: u64,
    },
    /// The frame whose first octet has this stream place was judged before its turn and is left for it: only its place, its
    /// length and where it ends are kept.
    Tried(u64),
    /// A frame had its turn, and there is nothing more to say of it.
    Passed,
    /// A Send is complete: its buffer, of which the first `len` octets are the message, whether it is solicited, and the
    /// STag of the region that it has invalidated.
    Received {
        buffer: O,
        len: usize,
        solicited: bool,
        invalidate: Option<Stag>,
    },
    /// The stream has ended by the peer's Terminate, which tells this fault.
    Terminated(Fault),
    /// The stream has ended by this fault.
    Fault(Fault),
    /// There is nothing to do.
    Idle,
}
