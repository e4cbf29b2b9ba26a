//! How a run of the program ends; the most reads of one input; and writes of octets to an output: all of them, or as many as
//! it takes.
#![tactic(auto)]

ghost use Rattle.std.specs.Prelude.{◌≡◌, ◌≤◌, length, take, MatchResult};
ghost use Rattle.std.specs.Io.KnownBytes.{Appends};

mod status;

pub use status::Status;
use std::io::{ErrorKind, Write};
use thiserror::Error;

/// The most reads of one input, a schedule or a connection: so each loop over an input ends.
pub const MOST_READS: u32 = 1_000_000;

/// How many octets a writer took before it failed.
#[derive(Clone, Copy, Debug, PartialEq, Eq, Error)]
#[error("the output took {0} octets, and no more")]
pub struct Short(pub usize);

/// Writes all the octets, in one write if the writer takes them at once. A writer that takes none of those that are
/// left has failed. An interrupted write is made again. An `Err` says how many octets were taken.
pub fn write_octets<W: Write>(output: &mut W, octets: &[u8]) -> Result<(), Short>
    ensures { MatchResult result (λ _. Appends (W.contents output.old) (W.contents output.new) octets.now)
        (λ short. Appends (W.contents output.old) (W.contents output.new) (take short.0 octets.now)) }
{
    let mut written = 0;
    'writes: for _ in 0..u64::MAX {
        if written >= octets.len() {
            return Ok(());
        }
        match output.write(&octets[written..]) {
            Ok(0) => return Err(Short(written)),
            Ok(n) => written += n,
            Err(error) => {
                if error.kind() != ErrorKind::Interrupted {
                    return Err(Short(written));
                }
            }
        }
    }
    Err(Short(written))
}
