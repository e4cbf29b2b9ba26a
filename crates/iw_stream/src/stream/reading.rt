//! Octets that are read from the connection in place.
ghost use Rattle.std.specs.Prelude.{◌≡◌, ◌<◌, ◌≤◌, max, length, List, ℕ, false, true, IfOk, OnErr};
ghost use Rattle.std.specs.Io.KnownBytes.{Consumes, IsAtEnd, Keeps};

use super::Stream;
use crate::intake::{Intake, MOST_READ};
use std::alloc::Allocator;
use std::io::{self, Read};

// How many octets one read at a stream that has ended takes at most.
const DROPPED_OCTETS: usize = 4096;

// One read of at most `n` octets, which go nowhere.
fn read_past<R: Read>(from: &mut R, n: usize) -> io::Result<usize>
    requires some { 0 < n }
    requires most { n ≤ 4096 }
    ensures few { IfOk result (λ got. got ≤ n) }
    ensures given { IfOk result (λ got. (octets : List ℕ) × (length octets ≡ got) × Consumes (R.remaining from.old) (R.remaining from.new) octets) }
    ensures end { IfOk result (λ got. got ≡ 0 → IsAtEnd (R.remaining from.new)) }
    ensures err { OnErr result (Keeps (R.remaining from.old) (R.remaining from.new)) }
{
    let mut octets = [0u8; DROPPED_OCTETS];
    from.read(&mut octets[..n])
}

impl<A: Allocator> Stream<A> {
    ghost use Rattle.iw_stream.specs.Stream.{ended};
    ghost use Rattle.iw_stream.specs.Reading.{IsRead, octets_read};

    /// Reads once from the connection, right to where the octets are to stand: at most 65,536 octets, and no more than the
    /// window has room for. It is one delivery ([`Stream::deliver`]) of what was read, past the last octet that came, and
    /// none of it is dropped, unless the stream has ended: such a stream still reads, and drops.
    ///
    /// The first read asks for 4,096 octets, and one behind a read that brought all that it asked for, for four times as
    /// many. So a connection that brings little keeps little memory.
    ///
    /// An `Err` is that of the reader, also for a read that would block or was interrupted, or one of the kind
    /// `OutOfMemory`. Nothing was read then, and nothing changed.
    pub fn read_from<R: Read>(&mut self, from: &mut R) -> io::Result<Intake>
        ensures ok { IfOk result (λ intake. IsRead self.old self.new (R.remaining from.old) (R.remaining from.new) intake) }
        ensures err { OnErr result ((self.new ≡ self.old) × Keeps (R.remaining from.old) (R.remaining from.new)) }
    {
        if self.ending.has_ended() {
            return self.read_ended(from, MOST_READ);
        }
        self.read_growing(from)
    }

    /// As [`Stream::read_from`], but at most `most` octets are read, 1 if `most` is 0, and memory is taken for that many
    /// alone: none for more than the stream then keeps of what came.
    pub fn read_some<R: Read>(&mut self, from: &mut R, most: usize) -> io::Result<Intake>
        ensures few { IfOk result (λ intake. octets_read intake ≤ max most 1) }
        ensures ok { IfOk result (λ intake. IsRead self.old self.new (R.remaining from.old) (R.remaining from.new) intake) }
        ensures err { OnErr result ((self.new ≡ self.old) × Keeps (R.remaining from.old) (R.remaining from.new)) }
    {
        if self.ending.has_ended() {
            return self.read_ended(from, most);
        }
        self.read_running(from, most)
    }

    // The same of a stream that runs.
    fn read_growing<R: Read>(&mut self, from: &mut R) -> io::Result<Intake>
        requires { ended self.old ≡ false }
        ensures ok { IfOk result (λ intake. IsRead self.old self.new (R.remaining from.old) (R.remaining from.new) intake) }
        ensures err { OnErr result ((self.new ≡ self.old) × Keeps (R.remaining from.old) (R.remaining from.new)) }
    {
        let asked = self.arrived.asked_next();
        let intake = self.read_running(from, asked)?;
        self.grow_after(intake, asked);
        Ok(intake)
    }

    // Makes room for a larger read where one brought all that it asked for.
    fn grow_after(&mut self, intake: Intake, asked: usize)
        ensures { self.new ≡ self.old }
    {
        self.arrived.grow_after(intake, asked);
    }

    // One read of at most `most` octets at a stream that has ended.
    fn read_ended<R: Read>(&mut self, from: &mut R, most: usize) -> io::Result<Intake>
        requires { ended self.old ≡ true }
        ensures few { IfOk result (λ intake. octets_read intake ≤ max most 1) }
        ensures ok { IfOk result (λ intake. IsRead self.old self.new (R.remaining from.old) (R.remaining from.new) intake) }
        ensures err { OnErr result ((self.new ≡ self.old) × Keeps (R.remaining from.old) (R.remaining from.new)) }
    {
        let got = read_past(from, most.max(1).min(DROPPED_OCTETS))?;
        if got == 0 {
            return Ok(Intake::End);
        }
        self.answered = true;
        Ok(Intake::Came(got))
    }

    // The same of a stream that runs.
    fn read_running<R: Read>(&mut self, from: &mut R, most: usize) -> io::Result<Intake>
        requires { ended self.old ≡ false }
        ensures few { IfOk result (λ intake. octets_read intake ≤ max most 1) }
        ensures ok { IfOk result (λ intake. IsRead self.old self.new (R.remaining from.old) (R.remaining from.new) intake) }
        ensures err { OnErr result ((self.new ≡ self.old) × Keeps (R.remaining from.old) (R.remaining from.new)) }
    {
        match self.arrived.read_some(from, most) {
            Ok(Intake::Came(got)) => {
                self.answered = true;
                Ok(Intake::Came(got))
            }
            Ok(Intake::End) => Ok(Intake::End),
            Ok(Intake::Full) => Ok(Intake::Full),
            Err(error) => Err(error),
        }
    }
}
