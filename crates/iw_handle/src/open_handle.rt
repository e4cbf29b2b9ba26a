//! What an open handle has.
use iw_endpoint::Endpoint;
use iw_lines::{Lends, Lines};

/// What an open handle has: an endpoint, what waits for the program at each of its streams, and for how many octets a place to
/// read to is lent there.
#[derive(Drop)]
pub struct Held {
    pub endpoint: Endpoint,
    pub lines: Lines,
    pub lends: Lends,
}
