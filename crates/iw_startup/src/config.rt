use crate::enhanced::Rtr;
use arrayvec::ArrayVec;
use iw_octets::MAX_PRIVATE;

/// How many octets of a start-up frame stand before its private data.
pub const FIXED_OCTETS: usize = 20;

/// How many octets a start-up frame has at most.
pub const MAX_FRAME: usize = FIXED_OCTETS + MAX_PRIVATE;

/// How many octets the word of IRD and ORD has, with which the private data of an enhanced frame begins (RFC 6581 9).
pub(crate) const WORD_OCTETS: usize = 4;

/// How many octets of a user's private data an enhanced frame has at most.
pub const MAX_ENHANCED_PRIVATE: usize = MAX_PRIVATE - WORD_OCTETS;

/// What a user sends to the other end's user in a start-up frame.
pub type PrivateData = ArrayVec<u8, MAX_PRIVATE>;

/// How a connection is established.
#[derive(Clone, Copy, Debug, PartialEq, Eq)]
pub enum Establishment {
    /// By revision 1 of MPA alone (RFC 5044 7.1).
    Plain,
    /// An initiator asks by revision 2, in an enhanced frame that tells its IRD and ORD (RFC 6581 9.1). A responder takes
    /// revisions 1 and 2, and answers in kind.
    Enhanced,
    /// As `Enhanced`, and an initiator asks for the peer-to-peer model: its first message is an RTR (RFC 6581 9.2).
    /// A responder takes this as `Enhanced`.
    PeerToPeer,
}

/// What this end asks for in its start-up frame.
#[derive(Debug, Drop)]
pub struct Config {
    /// The peer is to put markers into what it sends.
    pub markers: bool,
    /// CRCs are to be used, in both directions.
    pub crc: bool,
    /// The revision of MPA, and what it is used for.
    pub establishment: Establishment,
    /// The private data of a Request. A responder's comes with its answer, and this is not used.
    pub private: PrivateData,
}

/// What the peer asks for in its start-up frame.
#[derive(Clone, Copy, Debug, PartialEq, Eq)]
pub struct PeerOptions {
    /// This end is to put markers into what it sends (M, RFC 5044 7.1.1).
    pub markers: bool,
    /// CRCs are to be used, in both directions (C).
    pub crc: bool,
    /// The revision of MPA: 1 or 2.
    pub revision: u8,
}

/// What the two frames agree on, as this end sees it (RFC 5044 7.1.1, RFC 6581 9).
#[derive(Clone, Copy, Debug, PartialEq, Eq)]
pub struct Agreed {
    /// This end puts markers into what it sends, as the peer's frame asks.
    pub send_markers: bool,
    /// The peer puts markers into what it sends, as this end's frame asks.
    pub expect_markers: bool,
    /// CRCs are generated and checked in both directions, as either frame asks.
    pub crc: bool,
    /// How many of this end's RDMA Reads are outstanding at most: 16, or the peer's IRD if that is less.
    pub ord: usize,
    /// The RTR that this end sends before any other message, if one is due.
    pub rtr: Option<Rtr>,
}
