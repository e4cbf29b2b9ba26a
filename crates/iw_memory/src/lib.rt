//! The registered memory of an endpoint: regions, the STags that name them, and who may use them (RFC 5040, RFC 5042).
//!
//! A [`Memory`] begins without domains. Its owner adds one (`add_domain`), registers octets in it with a base and
//! [`Rights`] (`register`, which answers the [`Stag`]), and takes them out again (`deregister`). `invalidate` ends the
//! use of a region by peers; `local`, `local_mut` and `store` are the owner's own and work on invalid regions too.
//!
//! `check` says whether a peer may use the part that an STag, a tagged offset and a length name; `part` and `part_mut`
//! lend it. The region must be valid, of the stream's domain, and long enough, and must grant the [`Right`]; otherwise a
//! [`Deny`] says why not. A region may be limited to one stream of its domain (`register_for`): the calls that take a
//! [`Peer`] (`check_for`, `part_for` and others) know the stream, and `retire` ends the use of its regions.
//! `register_drawn` and `register_drawn_for` give STags that cannot be guessed. Only `add_domain` and the four calls that
//! register take memory.
#![tactic(auto)]

mod domain_slots;
mod laws;
mod marks;
mod memory;
mod peer;
mod refusal;
mod region;
mod retiring;
mod rights;
mod slots;

pub use iw_octets::Stag;
pub use laws::{
    denies_rest, deregister_changes_one_stag, domains_are_apart, draw_changes_one_stag,
    draws_are_apart, each_is_drawn, invalidate_changes_one_region, known_draws, known_scopes,
    last_is_not_drawn, out_of_scope_is_hidden, out_of_scope_is_kept, out_of_scope_looks_foreign,
    put_changes_one_region, put_nothing, register_changes_one_stag, register_takes_the_next,
    retire_ends_scope,
};
pub use memory::Memory;
pub use peer::Peer;
pub use refusal::{
    Deny, DeregisterRefusal, DomainRefusal, InvalidateDeny, NoRegion, RegisterRefusal, StoreRefusal,
};
pub use region::Facts;
pub use rights::{Right, Rights};
