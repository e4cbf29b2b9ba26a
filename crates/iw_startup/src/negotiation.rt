//! What the words of IRD and ORD come to, of which each end sends one (RFC 6581 9).
ghost use Rattle.std.specs.Prelude.{◌≡◌};
ghost use Rattle.iw_startup.specs.Frame.{is_enhanced, number};
ghost use Rattle.iw_startup.specs.Enhanced.{at_responder, is_peer_to_peer, asked_data, asked_revision, answer_data, in_kind};
ghost use Rattle.iw_startup.specs.Enhanced.{agreed_ord, matching_rtr, rtr_due, mismatch_in};

use crate::config::Establishment;
use crate::enhanced::{EnhancedData, Mismatch, Revision, Rtr};
use iw_octets::MAX_UNANSWERED;

// A depth that is not negotiated.
const UNSET_DEPTH: u16 = 0x3fff;

// How many Reads of the peer this end takes at once, and how many of its own it wants to have outstanding.
const OWN_DEPTH: u16 = MAX_UNANSWERED as u16;

impl Revision {
    /// The frame has the word.
    pub(crate) fn is_enhanced(self) -> bool
        ensures { result ≡ is_enhanced self }
    {
        match self {
            Revision::One | Revision::Two(None) => false,
            Revision::Two(Some(_)) => true,
        }
    }

    /// The number in the frame.
    pub(crate) fn number(self) -> u8
        ensures { result ≡ number self }
    {
        match self {
            Revision::One => 1,
            Revision::Two(_) => 2,
        }
    }
}

/// The peer-to-peer model is an initiator's to ask for.
pub(crate) fn at_responder(establishment: Establishment) -> Establishment
    ensures { result ≡ at_responder establishment }
{
    match establishment {
        Establishment::Plain => Establishment::Plain,
        Establishment::Enhanced | Establishment::PeerToPeer => Establishment::Enhanced,
    }
}

fn is_peer_to_peer(establishment: Establishment) -> bool
    ensures { result ≡ is_peer_to_peer establishment }
{
    match establishment {
        Establishment::Plain | Establishment::Enhanced => false,
        Establishment::PeerToPeer => true,
    }
}

fn asked_data(peer_to_peer: bool) -> EnhancedData
    ensures { result ≡ asked_data peer_to_peer }
{
    EnhancedData {
        ird: OWN_DEPTH,
        ord: OWN_DEPTH,
        peer_to_peer,
        rtr_send: false,
        rtr_write: peer_to_peer,
        rtr_read: peer_to_peer,
    }
}

/// The revision of an initiator's Request.
pub(crate) fn asked_revision(establishment: Establishment) -> Revision
    ensures { result ≡ asked_revision establishment }
{
    match establishment {
        Establishment::Plain => Revision::One,
        Establishment::Enhanced => Revision::Two(Some(asked_data(false))),
        Establishment::PeerToPeer => Revision::Two(Some(asked_data(true))),
    }
}

fn answer_data(rejecting: bool, asked: EnhancedData) -> EnhancedData
    ensures { result ≡ answer_data rejecting asked }
{
    let ird = if asked.ord == UNSET_DEPTH {
        UNSET_DEPTH
    } else {
        OWN_DEPTH
    };
    let ord = if asked.ird == UNSET_DEPTH {
        UNSET_DEPTH
    } else if rejecting {
        OWN_DEPTH
    } else {
        OWN_DEPTH.min(asked.ird)
    };
    EnhancedData {
        ird,
        ord,
        peer_to_peer: asked.peer_to_peer,
        rtr_send: false,
        rtr_write: asked.peer_to_peer && (asked.rtr_write || !asked.rtr_read),
        rtr_read: asked.peer_to_peer && asked.rtr_read,
    }
}

/// The revision of a responder's Reply to a Request of this one.
pub(crate) fn in_kind(rejecting: bool, asked: Revision) -> Revision
    ensures { result ≡ in_kind rejecting asked }
{
    match asked {
        Revision::One => Revision::One,
        Revision::Two(None) => Revision::Two(None),
        Revision::Two(Some(asked)) => Revision::Two(Some(answer_data(rejecting, asked))),
    }
}

/// How many of this end's Reads are outstanding at most, where the peer told this.
pub(crate) fn agreed_ord(told: Option<EnhancedData>) -> usize
    ensures { result ≡ agreed_ord told }
{
    match told {
        None => MAX_UNANSWERED,
        Some(told) => MAX_UNANSWERED.min(usize::from(told.ird)),
    }
}

// The RTR that a Reply in the peer-to-peer model allows. A Read that may not be outstanding is none.
fn matching_rtr(told: EnhancedData) -> Option<Rtr>
    ensures { result ≡ matching_rtr told }
{
    if !told.peer_to_peer {
        return None;
    }
    if told.rtr_write {
        return Some(Rtr::Write);
    }
    if told.rtr_read && told.ird != 0 {
        return Some(Rtr::Read);
    }
    None
}

/// The RTR that this end sends first.
pub(crate) fn rtr_due(establishment: Establishment, told: Option<EnhancedData>) -> Option<Rtr>
    ensures { result ≡ rtr_due establishment told }
{
    match (establishment, told) {
        (Establishment::PeerToPeer, Some(told)) => matching_rtr(told),
        _ => None,
    }
}

/// What a Reply that accepts and tells this wants and an initiator does not have.
pub(crate) fn mismatch_in(
    establishment: Establishment,
    told: Option<EnhancedData>,
) -> Option<Mismatch>
    ensures { result ≡ mismatch_in establishment told }
{
    let told = told?;
    if told.ord > OWN_DEPTH && told.ord != UNSET_DEPTH {
        return Some(Mismatch::InsufficientIrd);
    }
    if is_peer_to_peer(establishment) && matching_rtr(told).is_none() {
        return Some(Mismatch::NoMatchingRtr);
    }
    None
}
