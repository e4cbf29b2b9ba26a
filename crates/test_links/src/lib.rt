//! The serving and the asking end of a connection, in memory: whole exchanges, exchanges that are cut short or whose
//! reads and writes fail, and one that never ends. Then the commands over such connections: connections that are cut or cannot
//! be made, and outputs and pipes that fail.
#![tactic(auto)]

#[cfg(test)]
mod exchange;
#[cfg(test)]
mod halts;
#[cfg(test)]
mod lines;
#[cfg(test)]
mod pairs;
#[cfg(test)]
mod peers;
#[cfg(test)]
mod pipes;
#[cfg(test)]
mod printing;
#[cfg(test)]
mod rows;
