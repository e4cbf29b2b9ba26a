//! Octets that are read in place: to where they stand past the last that came.
ghost use Rattle.std.specs.Prelude.{◌≡◌, ◌<◌, ◌≤◌, max, take, [], IfOk, OnErr};
ghost use Rattle.std.specs.Io.KnownBytes.{Consumes, IsAtEnd, Keeps};
ghost use Rattle.iw_ranges.specs.Arrived.{IsReadyFor};
ghost use Rattle.iw_stream.specs.Reading.{Brings, Reads, octets_read, room_ahead};

use super::Incoming;
use crate::intake::{Intake, MOST_READ};
use iw_ranges::{Islands, WINDOW};
use std::alloc::Allocator;
use std::io::{self, Read};

// For how many octets the first read of a stream asks.
const FIRST_READ: usize = 4_096;

// For how many times as many the next one asks, where one brought all that it asked for.
const GROWTH: usize = 4;

// For how many octets a read asks at a stream that has memory for so many: for no more than that, but 4,096 at least and
// 65,536 at most.
fn asked_with(memory: usize) -> usize
    ensures some { 4096 ≤ result }
    ensures most { result ≤ 65536 }
    ensures few { result ≤ max 4096 memory }
{
    if memory >= MOST_READ {
        MOST_READ
    } else if memory >= FIRST_READ * GROWTH {
        FIRST_READ * GROWTH
    } else {
        FIRST_READ
    }
}

// One read of at most `n` octets to where they stand past the last that came. They are not counted as come.
fn read_ahead<A: Allocator, R: Read>(
    islands: &mut Islands<A>,
    from: &mut R,
    n: usize,
) -> io::Result<usize>
    requires { IsReadyFor n islands.old }
    ensures ready { IsReadyFor n islands.new }
    ensures arrived { islands.new.arrived ≡ islands.old.arrived }
    ensures few { IfOk result (λ got. got ≤ n) }
    ensures octets { IfOk result (λ got. Consumes (R.remaining from.old) (R.remaining from.new) (take got islands.new.ahead)) }
    ensures end { IfOk result (λ got. 0 < n → got ≡ 0 → IsAtEnd (R.remaining from.new)) }
    ensures err { OnErr result (Keeps (R.remaining from.old) (R.remaining from.new)) }
{
    from.read(islands.lend(n))
}

// The same, and counts the octets as come.
fn read_in_place<A: Allocator, R: Read>(
    islands: &mut Islands<A>,
    from: &mut R,
    n: usize,
) -> io::Result<usize>
    requires ready { IsReadyFor n islands.old }
    requires some { 0 < n }
    ensures few { IfOk result (λ got. got ≤ n) }
    ensures none { IfOk result (λ got. got ≡ 0 →
        (islands.new.arrived ≡ islands.old.arrived) × Consumes (R.remaining from.old) (R.remaining from.new) [] × IsAtEnd (R.remaining from.new)) }
    ensures came { IfOk result (λ got. 0 < got →
        Brings islands.old.arrived islands.new.arrived (R.remaining from.old) (R.remaining from.new) got) }
    ensures err { OnErr result ((islands.new.arrived ≡ islands.old.arrived) × Keeps (R.remaining from.old) (R.remaining from.new)) }
{
    let got = read_ahead(islands, from, n)?;
    if got == 0 {
        return Ok(0);
    }
    let place = islands.end();
    islands.came_in_place(place, got);
    Ok(got)
}

impl<A: Allocator> Incoming<A> {
    ghost use Rattle.iw_stream.specs.Incoming.{IsSameStart};

    // For how many octets the window has room past the last that came.
    pub(super) fn room(&self) -> usize
        ensures { result ≡ room_ahead self.now.arrived }
    {
        (self.islands.floor() + WINDOW - self.islands.end()) as usize
    }

    /// For how many octets the next read is to ask, 4,096 to 65,536: for no more than there is memory for, from 4,096 on.
    pub(crate) fn asked_next(&self) -> usize
        ensures { 4096 ≤ result }
    {
        asked_with(self.islands.memory())
    }

    /// Makes room for four times as many octets where a read brought all that it asked for, 65,536 at most, so that the next
    /// one asks for as many. Where there is no memory for them, it asks for no more than this one.
    pub(crate) fn grow_after(&mut self, intake: Intake, asked: usize)
        ensures arrived { self.new.arrived ≡ self.old.arrived }
        ensures early { self.new.early ≡ self.old.early }
        ensures same { IsSameStart self.old self.new }
    {
        if intake == Intake::Came(asked) && asked < MOST_READ {
            let _ = self.islands.make_room(asked.saturating_mul(GROWTH));
        }
    }

    /// One read of at most `most` octets, 1 if that is 0, at most 65,536, and no more than the window has room for, to where
    /// they are to stand. An `Err` means out of memory, or that the read failed.
    pub(crate) fn read_some<R: Read>(&mut self, from: &mut R, most: usize) -> io::Result<Intake>
        ensures few { IfOk result (λ intake. octets_read intake ≤ max most 1) }
        ensures ok { IfOk result (λ intake. Reads self.old.arrived self.new.arrived (R.remaining from.old) (R.remaining from.new) intake) }
        ensures err { OnErr result ((self.new.arrived ≡ self.old.arrived) × Keeps (R.remaining from.old) (R.remaining from.new)) }
        ensures early { self.new.early ≡ self.old.early }
        ensures same { IsSameStart self.old self.new }
    {
        let n = self.room().min(most.max(1)).min(MOST_READ);
        if n == 0 || !self.islands.make_room(n)? {
            return Ok(Intake::Full);
        }
        let place = self.islands.end();
        let got = read_in_place(&mut self.islands, from, n)?;
        if got == 0 {
            return Ok(Intake::End);
        }
        let from = place.saturating_sub(self.locator.base);
        let to = (place + got as u64).saturating_sub(self.locator.base);
        self.unsearched.delivered(from, to);
        Ok(Intake::Came(got))
    }
}
