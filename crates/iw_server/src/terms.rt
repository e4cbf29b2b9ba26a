ghost use Rattle.std.specs.Prelude.{◌≡◌};
ghost use Rattle.iw_server.specs.Opening.{config_of};

use iw_endpoint::{Config, Establishment, PrivateData};

/// How connections are served.
#[derive(Clone, Copy, Debug, PartialEq, Eq)]
pub struct Terms {
    /// The peer is asked to put markers into what it sends.
    pub markers: bool,
    /// The peer is asked for CRCs in both directions.
    pub crc: bool,
    /// The peer may also open with revision 2 of MPA (RFC 6581).
    pub enhanced: bool,
    /// How many octets a peer's region has, and its longest Send.
    pub most: usize,
    /// A connection whose stream is not open so many seconds after it was accepted is dropped, whatever octets came (RFC 5044
    /// 7.1.2, rule 10).
    pub start: u64,
    /// A connection on which nothing of use went for more seconds than this is dropped: no octet was placed, no Send received, and
    /// none of what is due taken.
    pub stall: u64,
    /// No line is printed.
    pub quiet: bool,
}

/// What the Reply asks for.
pub(crate) fn config_of(terms: Terms) -> Config
    ensures { result ≡ config_of terms }
{
    Config {
        markers: terms.markers,
        crc: terms.crc,
        establishment: if terms.enhanced {
            Establishment::Enhanced
        } else {
            Establishment::Plain
        },
        private: PrivateData::new(),
    }
}
