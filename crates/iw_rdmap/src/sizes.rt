//! How many octets are looked at, and how many a Terminate has.
use iw_octets::{READ_REQUEST_HEADER, UNTAGGED_HEADER};

/// How many octets of a ULPDU are judged at most: a DDP header, and an RDMAP header after it.
pub const FIRST_OCTETS: usize = UNTAGGED_HEADER + READ_REQUEST_HEADER;

/// How many octets the payload of a Terminate has at most (RFC 5040 4.8).
pub const MAX_TERMINATE: usize = 52;
