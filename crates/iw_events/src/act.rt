use crate::call::{End, Options};
use iw_endpoint::{OpenSharedRefusal, PoolRefusal, ShareRefusal, TakeRefusal};
use iw_memory::{DomainRefusal, NoRegion, RegisterRefusal, Right, Rights, StoreRefusal};
use iw_octets::{Fault, Stag};
use iw_queues::Request;
use iw_startup::{Agreed, StartupFault};
use iw_stream::{
    AnswerRefusal, Delivery, EnhancedData, FirstRefusal, Kind, OpenRefusal, PostRefusal,
    RecvRefusal, Role, SizeRefusal,
};

/// What a call of `emit` appended, with the octets.
#[derive(Drop)]
pub enum Shown<O> {
    /// A frame, whose first octet has the stream place `from`.
    Frame {
        from: u64,
        octets: O,
    },
    /// A frame of a Read Response, whose first octet has the stream place `from`. Its payload is what region `stag` had
    /// at tagged offset `to`.
    Fetched {
        from: u64,
        frame: O,
        stag: Stag,
        to: u64,
        octets: O,
    },
    /// The peer may not read what its Read asks for: nothing was emitted, and the stream has ended by this fault.
    Fault(Fault),
    /// Nothing was due.
    Nothing,
}

/// What one call of `work` did, with the octets that it placed or handed out.
#[derive(Drop)]
pub enum Seen<O> {
    /// The oldest posted message is finished.
    Done(Kind),
    /// The stream has ended: the oldest posted message, which is not finished, is given up.
    Flushed(Kind),
    /// The stream has ended: the oldest receive buffer is handed back. All its octets, with those that were placed in
    /// it.
    FlushedRecv(O),
    /// The peer's MPA Request is complete, with this word of IRD and ORD, if it has one (RFC 6581 9), and this private
    /// data.
    Asked {
        told: Option<EnhancedData>,
        private: O,
    },
    /// The peer's MPA Reply has accepted: what was agreed, and the Reply's word and private data.
    Opened {
        agreed: Agreed,
        told: Option<EnhancedData>,
        private: O,
    },
    /// The peer's start-up frame has closed the stream.
    Closed(StartupFault),
    /// A tagged segment was placed: the region now has these octets at tagged offset `to`.
    Placed {
        right: Right,
        stag: Stag,
        to: u64,
        octets: O,
    },
    /// A Send's segment of `len` octets was placed at offset `mo` in the buffer of the message `msn`.
    Buffered {
        msn: u32,
        mo: u32,
        len: usize,
    },
    /// A Read Request was accepted: it asks for `size` octets of region `stag` at tagged offset `to`.
    Requested {
        size: u32,
        stag: Stag,
        to: u64,
    },
    /// The frame whose first octet has this stream place was judged before its turn, and is left until its turn.
    Tried(u64),
    /// A frame had its turn. It completed nothing.
    Passed,
    /// A Send is complete: its octets, whether it was solicited, and the STag that it invalidated.
    Received {
        octets: O,
        solicited: bool,
        invalidate: Option<Stag>,
    },
    /// The peer's Terminate has ended the stream: the fault that it names (RFC 5040 4.8).
    Terminated(Fault),
    /// The stream has ended by this fault: of a frame, or of a Reply that wants what this end does not have (RFC 6581 8).
    Fault(Fault),
    /// There is nothing to do.
    Idle,
}

/// A call on a stream with its answer. `refused: None` means that the call was not refused.
#[derive(Drop)]
pub enum StreamAct<O> {
    Recv {
        len: u32,
        refused: Option<RecvRefusal>,
    },
    Post {
        message: Request<O>,
        refused: Option<PostRefusal>,
    },
    Emit(Shown<O>),
    First {
        number: u32,
        refused: Option<FirstRefusal>,
    },
    /// Octets that the other end emitted, the first of them at stream place `from` there. It was delivered with this
    /// sequence number. The octets are shown even if they were dropped.
    Deliver {
        from: u64,
        number: u32,
        octets: O,
        delivery: Delivery,
    },
    /// Any octets, whether or not the other end emitted them.
    Raw {
        number: u32,
        octets: O,
        delivery: Delivery,
    },
    Mulpdu {
        size: u32,
        refused: Option<SizeRefusal>,
    },
    Accept {
        private: O,
        answer: Result<Agreed, AnswerRefusal>,
    },
    Reject {
        private: O,
        refused: Option<AnswerRefusal>,
    },
    Work(Seen<O>),
    /// The link broke. This call is never refused.
    Break,
}

/// A call with its answer.
#[derive(Drop)]
pub enum Act<O> {
    Domain {
        pd: u8,
        refused: Option<DomainRefusal>,
    },
    Register {
        pd: u8,
        base: u64,
        rights: Rights,
        octets: O,
        answer: Result<Stag, RegisterRefusal>,
    },
    Deregister {
        stag: Stag,
        answer: Result<O, NoRegion>,
    },
    Invalidate {
        stag: Stag,
        refused: Option<NoRegion>,
    },
    Store {
        stag: Stag,
        to: u64,
        octets: O,
        refused: Option<StoreRefusal>,
    },
    Open {
        stream: u8,
        pd: u8,
        role: Role,
        options: Options,
        private: O,
        refused: Option<OpenRefusal>,
    },
    Share {
        pd: u8,
        refused: Option<ShareRefusal>,
    },
    Pool {
        pd: u8,
        len: u32,
        refused: Option<PoolRefusal>,
    },
    /// The buffer that was taken; `None` if the pool was empty.
    Unpool {
        pd: u8,
        answer: Result<Option<O>, TakeRefusal>,
    },
    OpenShared {
        stream: u8,
        pd: u8,
        role: Role,
        options: Options,
        private: O,
        refused: Option<OpenSharedRefusal>,
    },
    Stream {
        stream: u8,
        act: StreamAct<O>,
    },
}

/// A call at one of the ends, with its answer.
#[derive(Drop)]
pub struct Entry<O> {
    pub end: End,
    pub act: Act<O>,
}
