//! The numbers that the C interface has for codes, kinds and flags, those that the RFCs have for faults, and words for them.
#![tactic(auto)]

pub mod numbers;
mod texts;

pub use texts::{fault_text, text_of};
