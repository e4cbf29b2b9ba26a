//! The calls that can be made at the two ends of a connection, and their answers.
//!
//! An *event* is a call at one end. An *entry* is a call with its answer, and a *trace* is a list of entries. Their
//! type parameter is the type of octets. [`shared`], [`standing`] and the like make the copies for entries.
//!
//! [`Event`] and [`Entry`] are those of schedules, which name the numbers of their streams. [`ServerEvent`] and
//! [`ServerEntry`] have these and the calls of a server, whose streams have any number, come and go.
#![tactic(auto)]

mod act;
mod call;
mod copies;
mod server;

pub use act::{Act, Entry, Seen, Shown, StreamAct};
pub use call::{Call, End, Event, Options, StreamCall};
pub use copies::{message_in, private_data, shared, standing, whole};
pub use iw_queues::Request;
pub use iw_stream::{AnswerRefusal, EnhancedData, Establishment, Role};
pub use server::{ServerAct, ServerCall, ServerEntry, ServerEvent};
