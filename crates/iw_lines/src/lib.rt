//! What waits for the program at each stream: the buffer that was handed back last and not yet fetched, the tokens by which
//! the program knows what it posted, and the octets that it posted from a buffer, until they are fetched. And for how many
//! octets a place to read to is lent there. Besides, how often the stream took a slow path.
#![tactic(auto)]

mod handed;
mod lends;
mod line;
mod lines;
mod payload;
mod place;
mod slow;
mod waiting;

pub use handed::Handed;
pub use lends::Lends;
pub use line::Line;
pub use lines::Lines;
pub use payload::Payload;
pub use place::Place;
pub use slow::SlowPaths;
pub use waiting::{MAX_WAITING, Waiting};
