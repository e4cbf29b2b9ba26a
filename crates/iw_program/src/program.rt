ghost use Rattle.std.specs.Prelude.{IfOk, IfErr};
ghost use Rattle.iw_program.specs.Replay.{Prints, Stops};

use crate::fault::ReplayFault;
use crate::input::read_text;
use crate::text::replay_text;
use iw_output::{Status, write_octets};
use std::alloc::Allocator;
use std::io::{Read, Write};

/// Reads a schedule to the end of the input, runs it, and writes its trace.
///
/// If the schedule cannot be read, run or printed, nothing is written. If the output fails, it took the front of the
/// trace. An input that does not end within 1,000,000 reads has failed, and so has an output that takes no octet while
/// some are left.
pub fn replay<R: Read, W: Write, A: Allocator + Copy>(
    alloc: A,
    input: &mut R,
    output: &mut W,
) -> Result<Status, ReplayFault>
    ensures prints { IfOk result (Prints (R.remaining input.old) (R.remaining input.new)
        (W.contents output.old) (W.contents output.new)) }
    ensures stops { IfErr result (Stops (R.remaining input.old) (R.remaining input.new)
        (W.contents output.old) (W.contents output.new)) }
{
    let text = read_text(alloc, input)?;
    let replayed = replay_text(alloc, text.as_slice())?;
    match write_octets(output, replayed.trace.as_bytes()) {
        Ok(()) => {}
        Err(_) => return Err(ReplayFault::Output),
    }
    match output.flush() {
        Ok(()) => Ok(replayed.status),
        Err(_) => Err(ReplayFault::Output),
    }
}
