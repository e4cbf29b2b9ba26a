ghost use Rattle.std.specs.Prelude.{◌≡◌, ℕ, ◌<◌, ◌≤◌, ◌⊎◌, length, take, Ok, Err, IfOk, IfErr, OnOk, OnErr};
ghost use Rattle.std.specs.Io.{ReadsAtMost};
ghost use Rattle.std.specs.Io.KnownBytes.{Consumes, IsAtEnd, Keeps};
ghost use Rattle.iw_endpoint.specs.Reading.{IsRead};

use iw_connection::{CallRefusal, Endpoint, Intake, StreamNumber, take};
use iw_output::MOST_READS;
use std::io::{ErrorKind, Read};
use thiserror::Error;

/// Why nothing was read.
#[derive(Clone, Copy, Debug, PartialEq, Eq, Error)]
pub enum ReadFault {
    /// A read failed.
    #[error("the input could not be read")]
    Failed,
    /// The input did not end within the most reads: end the connection.
    #[error("the input did not end within 1,000,000 reads: end the connection")]
    TooMany,
}

/// A reader that counts its reads, so that every loop over it ends.
#[derive(Drop)]
pub struct Counted<R> {
    pub reader: R,
    /// How many reads there were.
    pub reads: u32,
}

impl<R: Read> Counted<R> {
    /// Counts the reads of this reader, from 0.
    pub fn new(reader: R) -> Counted<R>
        ensures reader { result.reader ≡ reader }
        ensures reads { result.reads ≡ 0 }
    {
        Counted { reader, reads: 0 }
    }

    /// Reads the next octets into the front of `buffer` and returns how many: 0 at the end of the input. An interrupted
    /// read is made again, and counts. `TooMany` comes after 1,000,000 reads.
    pub fn next(&mut self, buffer: &mut [u8]) -> Result<usize, ReadFault>
        requires bounded { self.old.reads ≤ 1000000 }
        requires room { 0 < length buffer.old }
        ensures count { IfOk result (λ n. n ≤ length buffer.new) }
        ensures octets { IfOk result (λ n.
            Consumes (R.remaining self.old.reader) (R.remaining self.new.reader) (take n buffer.new)) }
        ensures end { result ≡ Ok 0 → IsAtEnd (R.remaining self.new.reader) }
        ensures err { OnErr result (Keeps (R.remaining self.old.reader) (R.remaining self.new.reader)) }
        ensures bounded { self.new.reads ≤ 1000000 }
        ensures progress { OnOk result (self.old.reads < self.new.reads) }
        ensures kept { self.old.reads ≤ self.new.reads }
        ensures fault { IfErr result (λ fault.
            (fault ≡ ReadFault.Failed) ⊎ ((fault ≡ ReadFault.TooMany) × (self.new.reads ≡ 1000000))) }
    {
        for read in self.reads..MOST_READS {
            self.reads = read + 1;
            match self.reader.read(buffer) {
                Ok(n) => return Ok(n),
                Err(error) => {
                    if error.kind() != ErrorKind::Interrupted {
                        return Err(ReadFault::Failed);
                    }
                }
            }
        }
        Err(ReadFault::TooMany)
    }

    /// Reads once from a stream's connection, right to where the octets are to stand ([`iw_connection::take`]). An
    /// interrupted read is made again, and counts. `Failed` also means out of memory, or that the endpoint has no such
    /// stream; `TooMany` comes after 1,000,000 reads. An `Err` reads nothing, and leaves the endpoint as it was.
    pub(crate) fn take_to(
        &mut self,
        endpoint: &mut Endpoint,
        number: StreamNumber,
    ) -> Result<Intake, ReadFault>
        requires bounded { self.old.reads ≤ 1000000 }
        ensures ok { IfOk result (λ intake.
            IsRead endpoint.old endpoint.new number (R.remaining self.old.reader) (R.remaining self.new.reader) intake) }
        ensures err { OnErr result (Keeps (R.remaining self.old.reader) (R.remaining self.new.reader)) }
        ensures endpoint { OnErr result (endpoint.new ≡ endpoint.old) }
        ensures bounded { self.new.reads ≤ 1000000 }
        ensures progress { OnOk result (self.old.reads < self.new.reads) }
        ensures kept { self.old.reads ≤ self.new.reads }
        ensures fault { IfErr result (λ fault.
            (fault ≡ ReadFault.Failed) ⊎ ((fault ≡ ReadFault.TooMany) × (self.new.reads ≡ 1000000))) }
    {
        for taken in self.reads..MOST_READS {
            self.reads = taken + 1;
            match take(endpoint, number, &mut self.reader) {
                Ok(intake) => return Ok(intake),
                Err(CallRefusal::Refused(error)) => {
                    if error.kind() != ErrorKind::Interrupted {
                        return Err(ReadFault::Failed);
                    }
                }
                Err(CallRefusal::NoSuchStream) => return Err(ReadFault::Failed),
            }
        }
        Err(ReadFault::TooMany)
    }
}
