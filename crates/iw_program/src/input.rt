ghost use Rattle.std.specs.Prelude.{◌≡◌, ℕ, ◌<◌, ◌++◌, List, length, false, Ok, IfOk, OnOk, IfErr};
ghost use Rattle.std.specs.Io.KnownBytes.{Consumes, IsAtEnd};
ghost use Rattle.iw_program.specs.Replay.{IsReadFault};

use crate::fault::{Refusal, ReplayFault};
use iw_output::MOST_READS;
use std::alloc::Allocator;
use std::io::{ErrorKind, Read};

/// The most octets of one read. With `MOST_READS` it bounds an input to some 4 GB.
const MAX_READ_OCTETS: usize = 4_096;

// Reads once, and appends what was read. Returns whether the input may go on.
fn read_once<R: Read, A: Allocator>(
    input: &mut R,
    buffer: &mut [u8],
    text: &mut Vec<u8, A>,
) -> Result<bool, ReplayFault>
    requires { 0 < length buffer.old }
    ensures more { OnOk result ((octets : List ℕ) × Consumes (R.remaining input.old) (R.remaining input.new) octets
        × (text.new.items ≡ text.old.items ++ octets)) }
    ensures end { result ≡ Ok false → IsAtEnd (R.remaining input.new) }
    ensures fault { IfErr result IsReadFault }
{
    match input.read(buffer) {
        Ok(0) => Ok(false),
        Ok(n) => match text.extend_from_slice(&buffer[..n]) {
            Ok(()) => Ok(true),
            Err(_) => Err(ReplayFault::Refused(Refusal::NoMemory)),
        },
        Err(error) if error.kind() == ErrorKind::Interrupted => Ok(true),
        Err(_) => Err(ReplayFault::Input),
    }
}

/// Reads to the end of the input. `Input`: a read failed, or the input did not end within 1,000,000 reads.
pub(crate) fn read_text<R: Read, A: Allocator>(
    alloc: A,
    input: &mut R,
) -> Result<Vec<u8, A>, ReplayFault>
    ensures text { IfOk result (λ text. Consumes (R.remaining input.old) (R.remaining input.new) text.items) }
    ensures end { OnOk result (IsAtEnd (R.remaining input.new)) }
    ensures fault { IfErr result IsReadFault }
{
    let mut text = Vec::new(alloc);
    let mut buffer = [0; MAX_READ_OCTETS];
    'reads: for _ in 0..MOST_READS {
        if !read_once(input, &mut buffer, &mut text)? {
            return Ok(text);
        }
    }
    Err(ReplayFault::Input)
}
