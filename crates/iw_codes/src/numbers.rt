// The numbers that C sees. include/iwarp.h has the same, with IWARP_ in front.

// Why a call did nothing.
pub const OK: u32 = 0;

pub const IS_CLOSED: u32 = 1;

pub const ALREADY_OPEN: u32 = 2;

pub const NO_MEMORY: u32 = 3;

pub const NO_ROOM: u32 = 4;

pub const NO_SUCH_STREAM: u32 = 5;

pub const NO_REGION: u32 = 6;

pub const OUTSIDE: u32 = 7;

pub const BAD_DOMAIN: u32 = 8;

pub const DOMAIN_TAKEN: u32 = 9;

pub const NO_DOMAIN: u32 = 10;

pub const DOMAIN_FULL: u32 = 11;

pub const REGION_TOO_LONG: u32 = 12;

pub const BASE_WRAP: u32 = 13;

pub const NUMBER_TAKEN: u32 = 14;

pub const BAD_NUMBER: u32 = 15;

pub const BAD_ROLE: u32 = 16;

pub const PRIVATE_TOO_LONG: u32 = 17;

pub const NOT_ASKED: u32 = 18;

pub const NOT_OPEN: u32 = 19;

pub const MESSAGES_FULL: u32 = 20;

pub const MESSAGE_TOO_LONG: u32 = 21;

pub const BUFFERS_FULL: u32 = 22;

pub const ENDED: u32 = 23;

pub const BAD_SIZE: u32 = 24;

pub const TOO_FAR: u32 = 25;

pub const LATE: u32 = 26;

pub const ALREADY_SHARED: u32 = 27;

pub const NOT_SHARED: u32 = 28;

pub const POOL_FULL: u32 = 29;

pub const SHARED: u32 = 30;

pub const BUFFER_MISSING: u32 = 31;

pub const BUFFER_EXISTS: u32 = 32;

pub const BUFFER_TOO_LONG: u32 = 33;

pub const BAD_BITS: u32 = 34;

pub const NO_READS: u32 = 35;

pub const NOT_AT_REST: u32 = 36;

pub const NUMBERS_SPENT: u32 = 37;

pub const WINDOW_FULL: u32 = 38;

pub const NOT_LENT: u32 = 39;

pub const BAD_STRUCT: u32 = 40;

pub const OTHER_MEMORY: u32 = 41;

// What a region may be used for.
pub const WRITE: u32 = 1;

pub const READ: u32 = 2;

pub const SINK: u32 = 4;

pub const INVALIDATE: u32 = 8;

// How a region is registered.
pub const LIMITED: u32 = 1;

pub const DRAWN: u32 = 2;

// How a stream begins.
pub const PRESET: u32 = 0;

pub const INITIATOR: u32 = 1;

pub const RESPONDER: u32 = 2;

// What an end asks for.
pub const MARKERS: u32 = 1;

pub const CRC: u32 = 2;

pub const ENHANCED: u32 = 4;

pub const PEER_TO_PEER: u32 = 8;

// What both ends agree on.
pub const SENDS_MARKERS: u32 = 1;

pub const EXPECTS_MARKERS: u32 = 2;

pub const USES_CRC: u32 = 4;

pub const RTR_WRITE: u32 = 8;

pub const RTR_READ: u32 = 16;

// How far a stream is in its life.
pub const STATE_STARTING: u32 = 0;

pub const STATE_OPEN: u32 = 1;

pub const STATE_ENDED: u32 = 2;

// How a Send is posted, and how one was received.
pub const SOLICITED: u32 = 1;

pub const INVALIDATES: u32 = 2;

// What a step of work did.
pub const IDLE: u32 = 0;

pub const DONE: u32 = 1;

pub const FLUSHED: u32 = 2;

pub const FLUSHED_RECV: u32 = 3;

pub const ASKED: u32 = 4;

pub const OPENED: u32 = 5;

pub const CLOSED_BY_PEER: u32 = 6;

pub const PLACED: u32 = 7;

pub const BUFFERED: u32 = 8;

pub const REQUESTED: u32 = 9;

pub const PASSED: u32 = 10;

pub const RECEIVED: u32 = 11;

pub const TERMINATED: u32 = 12;

pub const FAULT: u32 = 13;

pub const TRIED: u32 = 14;

// Whether a stream came to be above its high-water mark.
pub const ABOVE_MARK: u32 = 1;

// Which limits of a pool count.
pub const HAS_SHARE: u32 = 1;

pub const HAS_MARK: u32 = 2;

// What was posted.
pub const MESSAGE_WRITE: u32 = 1;

pub const MESSAGE_SEND: u32 = 2;

pub const MESSAGE_READ: u32 = 3;

// What is wrong with a start-up frame.
pub const BAD_KEY: u32 = 1;

pub const BAD_REVISION: u32 = 2;

pub const BAD_LENGTH: u32 = 3;

pub const REJECTED: u32 = 4;

// What a call of iwarp_emit did.
pub const NOTHING: u32 = 0;

pub const FRAME: u32 = 1;

pub const FETCHED: u32 = 2;

pub const DENIED: u32 = 3;

// Where a call of iwarp_fill stopped.
pub const FILL_ALL: u32 = 0;

pub const FILL_MORE: u32 = 1;

pub const FILL_DENIED: u32 = 2;

// The layer of a fault (RFC 5040 4.8).
pub const LAYER_RDMAP: u32 = 0;

pub const LAYER_DDP: u32 = 1;

pub const LAYER_MPA: u32 = 2;

// The error types of RDMAP (RFC 5040 4.8).
pub const RDMAP_CATASTROPHIC: u32 = 0;

pub const RDMAP_PROTECTION: u32 = 1;

pub const RDMAP_OPERATION: u32 = 2;

// The error codes of remote protection and remote operation errors (RFC 5040 4.8).
pub const RDMAP_INVALID_STAG: u32 = 0;

pub const RDMAP_BOUNDS: u32 = 1;

pub const RDMAP_RIGHTS: u32 = 2;

pub const RDMAP_NOT_ASSOCIATED: u32 = 3;

pub const RDMAP_TO_WRAP: u32 = 4;

pub const RDMAP_VERSION: u32 = 5;

pub const RDMAP_UNEXPECTED: u32 = 6;

pub const RDMAP_STREAM_CATASTROPHIC: u32 = 7;

pub const RDMAP_GLOBAL_CATASTROPHIC: u32 = 8;

pub const RDMAP_CANNOT_INVALIDATE: u32 = 9;

pub const RDMAP_UNSPECIFIED: u32 = 255;

// The error types of DDP (RFC 5041 8.2).
pub const DDP_CATASTROPHIC: u32 = 0;

pub const DDP_TAGGED: u32 = 1;

pub const DDP_UNTAGGED: u32 = 2;

// The error codes of tagged buffer errors (RFC 5041 8.2).
pub const TAGGED_INVALID_STAG: u32 = 0;

pub const TAGGED_BOUNDS: u32 = 1;

pub const TAGGED_NOT_ASSOCIATED: u32 = 2;

pub const TAGGED_TO_WRAP: u32 = 3;

pub const TAGGED_VERSION: u32 = 4;

// The error codes of untagged buffer errors (RFC 5041 8.2).
pub const UNTAGGED_INVALID_QN: u32 = 1;

pub const UNTAGGED_NO_BUFFER: u32 = 2;

pub const UNTAGGED_MSN_RANGE: u32 = 3;

pub const UNTAGGED_INVALID_MO: u32 = 4;

pub const UNTAGGED_TOO_LONG: u32 = 5;

pub const UNTAGGED_VERSION: u32 = 6;

// The error type of MPA, and its error codes (RFC 5044 8, RFC 6581 8).
pub const MPA_ERROR: u32 = 0;

pub const MPA_CONNECTION_LOST: u32 = 1;

pub const MPA_CRC_MISMATCH: u32 = 2;

pub const MPA_MARKER_MISMATCH: u32 = 3;

pub const MPA_INVALID_FRAME: u32 = 4;

pub const MPA_CATASTROPHIC: u32 = 5;

pub const MPA_INSUFFICIENT_IRD: u32 = 6;

pub const MPA_NO_MATCHING_RTR: u32 = 7;
