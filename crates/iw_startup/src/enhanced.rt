use thiserror::Error;

/// What an end tells in an enhanced start-up frame (RFC 6581 9). A depth of 16383 is not negotiated.
#[derive(Clone, Copy, Debug, PartialEq, Eq)]
pub struct EnhancedData {
    /// IRD: how many RDMA Reads of the other end it takes at once, 16383 at most.
    pub ird: u16,
    /// ORD: how many RDMA Reads it wants to have outstanding, 16383 at most.
    pub ord: u16,
    /// A: the peer-to-peer model.
    pub peer_to_peer: bool,
    /// B: the RTR may be a Send of no octets.
    pub rtr_send: bool,
    /// C: the RTR may be an RDMA Write of no octets.
    pub rtr_write: bool,
    /// D: the RTR may be an RDMA Read of no octets.
    pub rtr_read: bool,
}

/// The first message of an initiator in the peer-to-peer model (RFC 6581 9.2).
#[derive(Clone, Copy, Debug, PartialEq, Eq)]
pub enum Rtr {
    /// An RDMA Write of no octets.
    Write,
    /// An RDMA Read of no octets.
    Read,
}

/// What a Reply that accepts wants and an initiator does not have: the first that holds (RFC 6581 8, 9).
#[derive(Clone, Copy, Debug, PartialEq, Eq, Error)]
pub enum Mismatch {
    /// Its ORD is over 16, and not 16383.
    #[error("insufficient IRD resources")]
    InsufficientIrd,
    /// No RTR that it offers can be sent, and the peer-to-peer model was asked for.
    #[error("no matching RTR option")]
    NoMatchingRtr,
}

/// Which revision of MPA a frame is of, and the word that it has.
#[derive(Clone, Copy)]
pub(crate) enum Revision {
    One,
    Two(Option<EnhancedData>),
}
