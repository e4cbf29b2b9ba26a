use crate::stag::Stag;

/// What is posted at one end for the other. The payload's type is the parameter.
#[derive(Debug, PartialEq, Eq, Drop)]
pub enum Message<O> {
    /// Octets for a region of the peer, from a tagged offset on.
    Write {
        stag: Stag,
        to: u64,
        octets: O,
    },
    /// Octets for the peer's next receive buffer; `invalidate` names a region of the peer that it loses with it.
    Send {
        octets: O,
        solicited: bool,
        invalidate: Option<Stag>,
    },
}
