use thiserror::Error;

/// Why a stream ends, as the numbers of a Terminate: the layer, the error type within the layer, and the error code.
///
/// Layer 0 is RDMAP (RFC 5040 4.8), layer 1 is DDP (RFC 5041 7.2), layer 2 is MPA (RFC 5044 8).
#[derive(Clone, Copy, Debug, PartialEq, Eq, Error)]
#[error("fault of layer {layer}, type {kind}, code {code}")]
pub struct Fault {
    /// The layer: 0 is RDMAP, 1 is DDP, 2 is MPA.
    pub layer: u8,
    /// The error type within the layer.
    pub kind: u8,
    /// The error code within the type.
    pub code: u8,
}

/// RDMAP: remote protection errors (RFC 5040 4.8).
impl Fault {
    /// The source STag of a Read Request, or the STag that a Send invalidates, names no region.
    pub const PROTECTION_INVALID_STAG: Fault = Fault {
        layer: 0,
        kind: 1,
        code: 0,
    };

    /// The source of a Read Request does not lie within its region; or a segment of a Read Response lies elsewhere
    /// than where the oldest Read's response goes on, or runs past its size.
    pub const PROTECTION_BOUNDS: Fault = Fault {
        layer: 0,
        kind: 1,
        code: 1,
    };

    /// The region does not grant the peer what it asks for: to read it, or to write it. RFC 5041 has no code of its own
    /// for the second.
    pub const PROTECTION_RIGHTS: Fault = Fault {
        layer: 0,
        kind: 1,
        code: 2,
    };

    /// The source STag of a Read Request, or the STag that a Send invalidates, names a region of another protection
    /// domain than the stream's.
    pub const PROTECTION_NOT_ASSOCIATED: Fault = Fault {
        layer: 0,
        kind: 1,
        code: 3,
    };

    /// The source tagged offset of a Read Request and its size add up to more than 2^64 - 1.
    pub const PROTECTION_OFFSET_WRAP: Fault = Fault {
        layer: 0,
        kind: 1,
        code: 4,
    };

    /// The STag that a Send invalidates names a region that the peer may not invalidate.
    pub const PROTECTION_CANNOT_INVALIDATE: Fault = Fault {
        layer: 0,
        kind: 1,
        code: 9,
    };
}

/// RDMAP: remote operation errors (RFC 5040 4.8).
impl Fault {
    /// A header has another RDMAP version than 1.
    pub const OPERATION_VERSION: Fault = Fault {
        layer: 0,
        kind: 2,
        code: 5,
    };

    /// An opcode does not belong to the header or the queue that carries it, or a Read Response comes when no Read is
    /// outstanding, or not at the sink that the oldest one named.
    pub const OPERATION_UNEXPECTED: Fault = Fault {
        layer: 0,
        kind: 2,
        code: 6,
    };
}

/// DDP: errors of the segment, of tagged buffers and of untagged buffers (RFC 5041 7.2).
impl Fault {
    /// The segment is shorter than its header. RFC 5041 has no code of its own for it: a local catastrophic error.
    pub const SEGMENT_SHORT: Fault = Fault {
        layer: 1,
        kind: 0,
        code: 0,
    };

    /// The STag of a tagged segment names no region.
    pub const TAGGED_INVALID_STAG: Fault = Fault {
        layer: 1,
        kind: 1,
        code: 0,
    };

    /// A tagged segment has octets outside its region.
    pub const TAGGED_BOUNDS: Fault = Fault {
        layer: 1,
        kind: 1,
        code: 1,
    };

    /// The STag of a tagged segment names a region of another protection domain than the stream's.
    pub const TAGGED_NOT_ASSOCIATED: Fault = Fault {
        layer: 1,
        kind: 1,
        code: 2,
    };

    /// The tagged offset of a segment and the length of its payload add up to more than 2^64 - 1.
    pub const TAGGED_OFFSET_WRAP: Fault = Fault {
        layer: 1,
        kind: 1,
        code: 3,
    };

    /// A tagged header has another DDP version than 1.
    pub const TAGGED_VERSION: Fault = Fault {
        layer: 1,
        kind: 1,
        code: 4,
    };

    /// The queue number of an untagged header is over 2.
    pub const UNTAGGED_INVALID_QUEUE: Fault = Fault {
        layer: 1,
        kind: 2,
        code: 1,
    };

    /// No buffer is posted for a Send's message sequence number; or a Read Request comes while 16 are unanswered.
    pub const UNTAGGED_NO_BUFFER: Fault = Fault {
        layer: 1,
        kind: 2,
        code: 2,
    };

    /// The message sequence number of a Send had its turn or lies too far ahead; that of a Read Request is not the next
    /// one; that of a Terminate is not 1.
    pub const UNTAGGED_MSN_RANGE: Fault = Fault {
        layer: 1,
        kind: 2,
        code: 3,
    };

    /// A segment does not begin where the one before it ended in the message; or the offset of a Read Request or a
    /// Terminate is not 0.
    pub const UNTAGGED_INVALID_OFFSET: Fault = Fault {
        layer: 1,
        kind: 2,
        code: 4,
    };

    /// A Send is longer than the buffer posted for it; or a Read Request or a Terminate has more octets than it may have,
    /// or is not in one segment.
    pub const UNTAGGED_TOO_LONG: Fault = Fault {
        layer: 1,
        kind: 2,
        code: 5,
    };

    /// An untagged header has another DDP version than 1.
    pub const UNTAGGED_VERSION: Fault = Fault {
        layer: 1,
        kind: 2,
        code: 6,
    };
}

/// MPA: errors of the CRC and of markers (RFC 5044 8).
impl Fault {
    /// The CRC of a frame is not that of its octets (code 2).
    pub const CRC_MISMATCH: Fault = Fault {
        layer: 2,
        kind: 0,
        code: 2,
    };

    /// A marker does not point to the start of its frame, or two frames overlap (code 3).
    pub const MARKER_MISMATCH: Fault = Fault {
        layer: 2,
        kind: 0,
        code: 3,
    };
}
