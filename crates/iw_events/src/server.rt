use crate::act::{Act, StreamAct};
use crate::call::{Call, End, Options, StreamCall};
use iw_endpoint::{LimitRefusal, NotAtRest, OpenNextRefusal};
use iw_memory::Rights;
use iw_octets::Stag;
use iw_stream::{Delivery, Role};

/// A call at an end that serves any number of connections: each call of a schedule, and those that a schedule does not
/// have. A read in place is none: it is a call with a connection, and an entry says what came.
#[derive(Drop)]
pub enum ServerCall<O> {
    /// A call of a schedule. A stream that it opens has the number that it names.
    Plain(Call<O>),
    /// A call on a stream of any number.
    Stream {
        stream: u32,
        call: StreamCall<O>,
    },
    /// Opens a stream in a domain under the next number. The private data goes into the MPA Request; only the role
    /// `Initiator` uses it.
    OpenNext {
        pd: u8,
        role: Role,
        options: Options,
        private: O,
    },
    /// As `OpenNext`, but the stream shares the pool of its domain.
    OpenSharedNext {
        pd: u8,
        role: Role,
        options: Options,
        private: O,
    },
    /// Registers octets in the domain of a stream, for this stream alone.
    RegisterFor {
        stream: u32,
        base: u64,
        rights: Rights,
        octets: O,
    },
    /// Forgets a stream that is at rest.
    Close {
        stream: u32,
    },
}

/// A call at one of the ends.
#[derive(Drop)]
pub struct ServerEvent<O> {
    pub end: End,
    pub call: ServerCall<O>,
}

/// A call with its answer. `refused: None` means that the call was not refused.
#[derive(Drop)]
pub enum ServerAct<O> {
    Plain(Act<O>),
    Stream {
        stream: u32,
        act: StreamAct<O>,
    },
    /// The number under which the stream was opened.
    OpenNext {
        pd: u8,
        role: Role,
        options: Options,
        private: O,
        answer: Result<u32, OpenNextRefusal>,
    },
    OpenSharedNext {
        pd: u8,
        role: Role,
        options: Options,
        private: O,
        answer: Result<u32, OpenNextRefusal>,
    },
    /// Octets that the other end emitted, as of `StreamAct::Deliver`. This is the sequence number of the octet past the
    /// last that had come.
    Read {
        stream: u32,
        from: u64,
        number: u32,
        octets: O,
        delivery: Delivery,
    },
    /// Any octets. This is the sequence number of the octet past the last that had come.
    ReadRaw {
        stream: u32,
        number: u32,
        octets: O,
        delivery: Delivery,
    },
    /// The STag of the region.
    RegisterFor {
        stream: u32,
        base: u64,
        rights: Rights,
        octets: O,
        answer: Result<Stag, LimitRefusal>,
    },
    Close {
        stream: u32,
        refused: Option<NotAtRest>,
    },
}

/// A call at one of the ends, with its answer.
#[derive(Drop)]
pub struct ServerEntry<O> {
    pub end: End,
    pub act: ServerAct<O>,
}
