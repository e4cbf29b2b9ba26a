//! Schedules that are replayed, as `iwarp replay` does it: the text is read, run at two ends, and printed.

use anyhow::{Result, bail};
use bench_input::{Digest, Digits, Random, Schedule};
use iw_program::replay_text;
use std::alloc::Global;

/// How many messages a schedule has.
const MESSAGES: u32 = 2_000;

/// Replays schedules. Returns the digest of their traces.
pub(crate) fn run(alloc: Global, seed: u32, schedules: u32) -> Result<u64> {
    let mut random = Random::new(seed);
    let digits = Digits::new(alloc, &mut random)?;
    let mut digest = Digest::new();
    for _ in 0..schedules {
        let text = Schedule::new(alloc, &mut random, &digits).written(MESSAGES)?;
        match replay_text(alloc, text.as_slice()) {
            Ok(replayed) => {
                digest.add_octets(replayed.trace.as_bytes());
                digest.add(replayed.status.code().into());
            }
            Err(refusal) => bail!("replay: {refusal}"),
        }
    }
    Ok(digest.finish())
}
