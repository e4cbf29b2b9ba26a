//! Numbers that the RFCs give and several crates need, and the limits of this endpoint.

/// DDP's version, in each header (RFC 5041 4.1).
pub const DDP_VERSION: u8 = 1;

/// RDMAP's version, in its octet of each header (RFC 5040 4.1).
pub const RDMAP_VERSION: u8 = 1;

/// The octets of a tagged segment's header, RDMAP's octet included (RFC 5041 4.2).
pub const TAGGED_HEADER: usize = 14;

/// The octets of an untagged segment's header, RDMAP's five octets included (RFC 5041 4.3).
pub const UNTAGGED_HEADER: usize = 18;

/// The octets of a Read Request after its untagged header (RFC 5040 4.4).
pub const READ_REQUEST_HEADER: usize = 28;

/// The most octets that a ULPDU sent by this end has. A ULPDU that is received may have 65,535 (RFC 5044 4.1).
pub const MAX_ULPDU: usize = 64_512;

/// The most octets that a message has, that a Read asks for, and that a region holds.
pub const MAX_OCTETS: usize = 16_777_216;

/// The most Read Requests of this end that may be unanswered, and the most of the peer (RFC 5040 6.1).
pub const MAX_UNANSWERED: usize = 16;

/// The place of a stream up to which octets are received and sent. Sums of places stay below 2^63.
pub const MAX_PLACE: u64 = 1 << 62;

/// The most octets of private data in a start-up frame (RFC 5044 7.1.1).
pub const MAX_PRIVATE: usize = 512;
