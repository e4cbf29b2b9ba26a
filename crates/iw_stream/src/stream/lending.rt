//! A place that is lent to an owner that reads by a call of its own.
ghost use Rattle.std.specs.Prelude.{◌≡◌, true, false, MatchBool, IfOk, IfErr, OnOk, OnErr};

use super::Stream;
use crate::intake::{LendRefusal, MOST_READ, TakeLentRefusal};
use std::alloc::Allocator;

impl<A: Allocator> Stream<A> {
    ghost use Rattle.iw_stream.specs.Stream.{ended};
    ghost use Rattle.iw_stream.specs.Reading.{Counts, IsNotLent, IsNotTaken, lendable};

    /// Lends the place past the last octet that came, for an owner that reads by a call of its own, as C does: tells the
    /// address at which octets from the connection may be written, and how many, as many as are wanted, 65,536 at most, and
    /// no more than the window has room for. [`Stream::came`] counts those that were written. `read_from` does both.
    ///
    /// A stream that has ended lends no place: its owner reads into memory of its own, and what comes is dropped.
    ///
    /// The place is good until the next call on the stream. No clause says which address it is; that of no octets may be null.
    /// The stream does not change, and an `Err` tells no address.
    pub fn lend_place(&mut self, want: usize, at: &mut *mut u8) -> Result<usize, LendRefusal>
        ensures runs { OnOk result (ended self.old ≡ false) }
        ensures lent { IfOk result (λ n. n ≡ lendable self.old want) }
        ensures refused { IfErr result (λ refusal. IsNotLent self.old refusal) }
        ensures kept { OnErr result (at.new ≡ at.old) }
        ensures same { self.new ≡ self.old }
    {
        if self.ending.has_ended() {
            return Err(LendRefusal::Ended);
        }
        self.lend_running(want, at)
    }

    // The same of a stream that runs.
    fn lend_running(&mut self, want: usize, at: &mut *mut u8) -> Result<usize, LendRefusal>
        requires { ended self.old ≡ false }
        ensures lent { IfOk result (λ n. n ≡ lendable self.old want) }
        ensures refused { IfErr result (λ refusal. IsNotLent self.old refusal) }
        ensures kept { OnErr result (at.new ≡ at.old) }
        ensures same { self.new ≡ self.old }
    {
        self.arrived.lend(want, at)
    }

    /// Takes the first `n` octets that stand in the lent place as one delivery ([`Stream::deliver`]), past the last octet
    /// that came. None of it is dropped, unless the stream has ended: such a stream drops all, 1 to 65,536 octets, wherever
    /// they are.
    ///
    /// So it takes what [`Stream::lend_place`] lent, if nothing else was called on the stream since. It counts what stands
    /// there, written or not. Refused are no octets (`Nothing`); more than can be lent (`TooMany`); and, if fewer or none were
    /// lent, those for which there is no memory (`NoMemory`). An `Err` changes nothing.
    pub fn take_lent(&mut self, n: usize) -> Result<(), TakeLentRefusal>
        ensures ok { OnOk result (Counts self.old self.new n) }
        ensures refused { IfErr result (λ refusal. IsNotTaken self.old n refusal) }
        ensures err { OnErr result (self.new ≡ self.old) }
    {
        if self.ending.has_ended() {
            return self.take_ended(n);
        }
        self.take_running(n)
    }

    // The same of a stream that has ended.
    fn take_ended(&mut self, n: usize) -> Result<(), TakeLentRefusal>
        requires { ended self.old ≡ true }
        ensures ok { OnOk result (Counts self.old self.new n) }
        ensures refused { IfErr result (λ refusal. IsNotTaken self.old n refusal) }
        ensures err { OnErr result (self.new ≡ self.old) }
    {
        if n == 0 {
            return Err(TakeLentRefusal::Nothing);
        }
        if n > MOST_READ {
            return Err(TakeLentRefusal::TooMany);
        }
        self.answered = true;
        Ok(())
    }

    // The same of a stream that runs.
    fn take_running(&mut self, n: usize) -> Result<(), TakeLentRefusal>
        requires { ended self.old ≡ false }
        ensures ok { OnOk result (Counts self.old self.new n) }
        ensures refused { IfErr result (λ refusal. IsNotTaken self.old n refusal) }
        ensures err { OnErr result (self.new ≡ self.old) }
    {
        match self.arrived.take_lent(n) {
            Ok(()) => {
                self.answered = true;
                Ok(())
            }
            Err(refusal) => Err(refusal),
        }
    }

    /// The same as [`take_lent`](Stream::take_lent), but tells alone whether it took them, and asks for no memory: it takes none
    /// where no place for so many was lent.
    pub fn came(&mut self, n: usize) -> bool
        ensures { MatchBool result (Counts self.old self.new n) (self.new ≡ self.old) }
    {
        if self.ending.has_ended() {
            return self.take_ended(n).is_ok();
        }
        self.came_running(n)
    }

    // The same of a stream that runs.
    fn came_running(&mut self, n: usize) -> bool
        requires { ended self.old ≡ false }
        ensures { MatchBool result (Counts self.old self.new n) (self.new ≡ self.old) }
    {
        if self.arrived.came(n) {
            self.answered = true;
            return true;
        }
        false
    }
}
