//! The start-up of an MPA connection: the Request and Reply frames, and what they agree on (RFC 5044 7.1, RFC 6581).
//!
//! An initiator sends a Request, a responder answers with a Reply. A [`Startup`] is one end of this: it takes the
//! peer's octets in whatever pieces they come, spells this end's own frame, and tells what was agreed.
//! It takes no memory.
#![tactic(auto)]

mod config;
mod enhanced;
mod frame;
mod laws;
mod negotiation;
mod own;
mod progress;
mod side;
mod startup;

pub use config::{
    Agreed, Config, Establishment, FIXED_OCTETS, MAX_ENHANCED_PRIVATE, MAX_FRAME, PeerOptions,
    PrivateData,
};
pub use enhanced::{EnhancedData, Mismatch, Rtr};
pub use iw_octets::MAX_PRIVATE;
pub use laws::{
    accepted_ends_agree, answers_stay, cuts_do_not_matter, known_frames, rejections_are_told,
    requests_are_asked, words_are_kept,
};
pub use progress::{Progress, StartupFault};
pub use side::{Reply, Side};
pub use startup::{NotAsked, Startup};
