//! Tests of how `iw_connection` carries an endpoint's streams, in memory: reads of many sizes in every mix, of which nothing is
//! lost, the loop of docs/EMBEDDING.md, and streams that keep to a share of a pool; an allocator with a limit, and an endpoint
//! over one.
#![tactic(auto)]

#[cfg(test)]
mod asked;
#[cfg(test)]
mod carried;
#[cfg(test)]
mod end;
#[cfg(test)]
mod made;
#[cfg(test)]
mod quota;
#[cfg(test)]
mod quota_ends;
#[cfg(test)]
mod reads;
#[cfg(test)]
mod shares;
