use iw_memory::Rights;
use iw_octets::Stag;
use iw_queues::Request;
use iw_stream::{Establishment, Role};

/// One of the two ends. Stream n of one is connected to stream n of the other.
#[derive(Clone, Copy, Debug, PartialEq, Eq)]
pub enum End {
    A,
    B,
}

/// What an end asks for on a stream (RFC 5044 7.1): markers in what the peer sends, CRCs in both directions, and by
/// which revision of MPA it is established (RFC 6581).
///
/// With the role `Preset` both hold in both directions, and there is no start-up.
#[derive(Clone, Copy, Debug, PartialEq, Eq)]
pub struct Options {
    pub markers: bool,
    pub crc: bool,
    pub establishment: Establishment,
}

/// A call on a stream.
#[derive(Drop)]
pub enum StreamCall<O> {
    /// Posts a receive buffer of `len` zero octets.
    Recv { len: u32 },
    /// Posts a Write, a Send or a Read.
    Post { message: Request<O> },
    /// Emits one frame.
    Emit,
    /// Sets the sequence number of the peer's first octet (RFC 9293 3.4), before any delivery.
    First { number: u32 },
    /// Delivers `len` octets that the other end emitted, the first of them at stream place `from` there.
    Deliver { from: u64, len: u64 },
    /// Delivers any octets, the first of them with this sequence number.
    Raw { number: u32, octets: O },
    /// Sets the maximum ULPDU, in octets, of the frames that are emitted from then on.
    Mulpdu { size: u32 },
    /// Accepts the pending MPA Request, with this private data in the Reply.
    Accept { private: O },
    /// Rejects the pending MPA Request, with this private data in the Reply.
    Reject { private: O },
    /// Does one step of work.
    Work,
    /// Reports that the link broke: the stream ends, and no Terminate is sent.
    Break,
}

/// A call at an end: on its regions or its pools, the opening of a stream, or a call on a stream.
#[derive(Drop)]
pub enum Call<O> {
    /// Adds a protection domain.
    Domain {
        pd: u8,
    },
    /// Registers octets as a region of a domain, the first of them at tagged offset `base`.
    Register {
        pd: u8,
        base: u64,
        rights: Rights,
        octets: O,
    },
    /// Removes a region and returns its octets.
    Deregister {
        stag: Stag,
    },
    /// Makes a region invalid: peers can no longer use it. It stays registered.
    Invalidate {
        stag: Stag,
    },
    /// Writes octets into a region at tagged offset `to`, for its owner.
    Store {
        stag: Stag,
        to: u64,
        octets: O,
    },
    /// Opens a stream in a domain. The private data goes into the MPA Request; only the role `Initiator` uses it.
    Open {
        stream: u8,
        pd: u8,
        role: Role,
        options: Options,
        private: O,
    },
    /// Gives a domain a pool of receive buffers.
    Share {
        pd: u8,
    },
    /// Posts a buffer of `len` zero octets to the pool of a domain.
    Pool {
        pd: u8,
        len: u32,
    },
    /// Takes the oldest buffer out of the pool of a domain.
    Unpool {
        pd: u8,
    },
    /// As `Open`, but the stream shares the pool of its domain.
    OpenShared {
        stream: u8,
        pd: u8,
        role: Role,
        options: Options,
        private: O,
    },
    /// A call on a stream.
    Stream {
        stream: u8,
        call: StreamCall<O>,
    },
}

/// A call at one of the ends.
#[derive(Drop)]
pub struct Event<O> {
    pub end: End,
    pub call: Call<O>,
}
