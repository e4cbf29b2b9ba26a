ghost use Rattle.std.specs.Prelude.{◌≡◌};
ghost use Rattle.iw_links.specs.Exchange.{private_of};
ghost use Rattle.iw_links.specs.Standing.{part_of};

use crate::exchange::Terms;
use iw_endpoint::{PrivateData, Stag};

/// What an end does on a connection.
#[derive(Debug, Drop)]
pub(crate) enum Part<'a> {
    /// Peers may write into this region. The front of it is sent back.
    Serves(Stag),
    /// This text is written into the region that the peer names, and sent.
    Asks(&'a [u8]),
}

/// What is to be done on a connection.
#[derive(Debug, Drop)]
pub(crate) struct Plan<'a> {
    pub(crate) terms: Terms,
    pub(crate) part: Part<'a>,
}

impl Plan<'_> {
    /// The private data with which a Request is accepted.
    pub(crate) fn private(&self) -> PrivateData
        ensures { result.items ≡ private_of (part_of self.now.part) }
    {
        let mut private = PrivateData::new();
        if let Part::Serves(region) = &self.part {
            let octets = region.to_octets();
            let _ = private.try_extend_from_slice(&octets);
        }
        private
    }
}
