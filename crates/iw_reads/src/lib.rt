//! What a stream keeps of Reads (RFC 5040 4.4, 4.5, 5.2): at the end that asks, the Reads that are outstanding; at the
//! end that is asked, the Read Requests that wait for their responses, and how each response is cut and fetched.
//!
//! Only [`Reads::add`] takes memory, for all Reads at once.
#![tactic(auto)]

mod laws;
mod reads;
mod requests;
mod response;
mod source;

pub use laws::{
    answers_are_asked_for, answers_in_order, checks_tell, known_responses, parts_may_be_fetched,
    responses_are_whole,
};
pub use reads::{Outstanding, Reads};
pub use requests::{Asked, REQUEST_HEADERS, Requests};
pub use response::{ResponsePart, fetch};
pub use source::check_source;
