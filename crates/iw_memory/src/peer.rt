//! Who asks for the use of a region: a domain and a stream.
ghost use Rattle.std.specs.Prelude.{◌≡◌};
ghost use Rattle.iw_memory.specs.Region.{in_domain};

/// Who asks for the use of a region: the peer of a stream, by the stream's domain and number.
#[derive(Clone, Copy, Debug, PartialEq, Eq)]
pub struct Peer {
    /// The protection domain of the stream.
    pub domain: u8,
    /// The stream's number at its endpoint. No region is limited to a stream that has none.
    pub stream: Option<u32>,
}

impl Peer {
    /// The peer of a stream of this domain that has no number.
    pub fn in_domain(pd: u8) -> Peer
        ensures { result ≡ in_domain pd }
    {
        Peer {
            domain: pd,
            stream: None,
        }
    }
}
