//! An endpoint behind a handle that a C program keeps. `iw_c` exports each call of [`Handle`] as a C function, and
//! include/iwarp.h declares them.
#![tactic(auto)]

mod buffers;
mod copying;
mod emitting;
mod event;
mod filling;
mod handle;
mod handle_opening;
mod kept_regions;
mod laws;
mod lending;
mod marking;
mod open_handle;
mod pools;
mod posting;
mod posting_memory;
mod receiving;
mod refusal;
mod regions;
mod registering;
mod sending;
mod sharing;
mod stream_opening;
mod stream_regions;
mod streams;
mod struct_posting;
mod structs;
mod words;
mod working;

pub use event::{
    Emitted, Event, Filling, NO_EVENT, Progress, RegionFacts, Told, agreed_flags, emitted_of,
    event_of, facts_of, filling_of, kept_number, peer_told, state_number,
};
pub use handle::Handle;
pub use laws::{calls_give_work_to_their_own_stream, cleared_limits_set_none, codes_are_distinct};
pub use open_handle::Held;
pub use refusal::{Refusal, buffer_reason, code};
pub use structs::{Limits, Options, PeerTold, Posting, RegionTold, Registration};
pub use words::{domain_number, read_request, stag_of};
pub use working::QUIET_STEPS;
