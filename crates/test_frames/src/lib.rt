//! Tests of the layers from octets up to frames, over their public interfaces: test vectors of other programs, and frames
//! and start-up frames computed by hand.
#![tactic(auto)]

#[cfg(test)]
mod fpdu;
#[cfg(test)]
mod memory;
#[cfg(test)]
mod octets;
#[cfg(test)]
mod ranges;
#[cfg(test)]
mod startup;
