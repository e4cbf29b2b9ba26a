//! Tests of the layers from segments up to runs, over their public interfaces: segments and messages computed by hand, streams
//! that place frames before their turn without a copy, texts of schedules, servers' runs, and the replay of a text, also over input
//! and output that fail.
#![tactic(auto)]

#[cfg(test)]
mod halts;
#[cfg(test)]
mod no_copy;
#[cfg(test)]
mod programs;
#[cfg(test)]
mod queues;
#[cfg(test)]
mod rdmap;
#[cfg(test)]
mod schedules;
#[cfg(test)]
mod servings;
