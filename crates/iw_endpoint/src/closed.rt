//! The domains of closed streams whose numbers the application picked.
ghost use Rattle.std.specs.Prelude.{◌≡◌, is_some, slice_index_or, slice_set, None, Some};
ghost use Rattle.iw_endpoint.specs.Endpoint.{no_closed};

use crate::streams::STREAM_NUMBERS;

/// By number, 0 to 63: the domain of the stream that was closed under it.
#[derive(Drop)]
pub(crate) struct Closed {
    domains: [Option<u8>; STREAM_NUMBERS],
}

impl Closed {
    /// No stream was closed.
    pub(crate) fn new() -> Closed
        ensures { result.domains ≡ no_closed }
    {
        Closed {
            domains: [None; STREAM_NUMBERS],
        }
    }

    /// Whether a stream was closed under this number.
    pub(crate) fn has(&self, number: u32) -> bool
        ensures { result ≡ is_some (slice_index_or self.now.domains number None) }
    {
        match self.domains.get(number as usize) {
            Some(domain) => domain.is_some(),
            None => false,
        }
    }

    /// Keeps the domain of the stream that was closed. It does nothing for a number above 63.
    pub(crate) fn keep(&mut self, number: u32, pd: u8)
        ensures { self.new.domains ≡ slice_set self.old.domains number (Some pd) }
    {
        if number < STREAM_NUMBERS as u32 {
            self.domains[number as usize] = Some(pd);
        }
    }
}
