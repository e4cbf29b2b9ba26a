//! A place that is lent to an owner that reads by a call of its own.
ghost use Rattle.std.specs.Prelude.{◌≡◌, ◌↔◌, Err, is_ok, true, false, MatchBool, IfOk, IfErr, OnOk, OnErr};
ghost use Rattle.iw_endpoint.specs.Reading.{IsNotLent, lendable};

use super::Endpoint;
use crate::refusal::{CallRefusal, NoSuchStream, PlaceRefusal};
use crate::scrap::Scrap;
use iw_stream::{LendRefusal, Stream, TakeLentRefusal};
use std::alloc::Allocator;

// The place that a stream lends, or the scrap if the stream has ended.
fn lend_place<A: Allocator>(
    stream: &mut Stream<A>,
    scrap: &mut Scrap<A>,
    want: usize,
    at: &mut *mut u8,
) -> Result<usize, PlaceRefusal>
    ensures lent { IfOk result (λ n. n ≡ lendable stream.old want) }
    ensures refused { IfErr result (λ refusal. IsNotLent stream.old refusal) }
    ensures kept { OnErr result (at.new ≡ at.old) }
    ensures same { stream.new ≡ stream.old }
{
    match stream.lend_place(want, at) {
        Ok(n) => Ok(n),
        Err(LendRefusal::Ended) => scrap.lend(want, at),
        Err(LendRefusal::Full) => Err(PlaceRefusal::Full),
        Err(LendRefusal::NoMemory) => Err(PlaceRefusal::NoMemory),
    }
}

impl<A: Allocator> Endpoint<A> {
    ghost use Rattle.iw_endpoint.specs.Endpoint.{has_stream, stream_at};
    ghost use Rattle.iw_endpoint.specs.Reading.{Counts, IsNotLentAt, IsNotTakenAt};

    /// Lends the place past the last octet that came at a stream, for an owner that reads by a call of its own, as C does:
    /// tells the address at which octets from the connection may be written, and how many, as many as are wanted, 65,536 at
    /// most, and no more than the window has room for. [`Endpoint::came`] counts those that were written. `read_from` does
    /// both.
    ///
    /// For a stream that has ended a place of 4,096 octets at most is lent, the same for all such streams, and what comes
    /// there is dropped. Nothing but `NoMemory` refuses it.
    ///
    /// The place is good until the next call on the endpoint. No clause says which address it is; that of no octets may be
    /// null. The endpoint does not change, and an `Err` tells no address.
    pub fn lend_place(
        &mut self,
        number: u32,
        want: usize,
        at: &mut *mut u8,
    ) -> Result<usize, CallRefusal<PlaceRefusal>>
        ensures stream { (result ≡ Err CallRefusal.NoSuchStream) ↔ (has_stream self.old number ≡ false) }
        ensures lent { IfOk result (λ n. n ≡ lendable (stream_at self.old number) want) }
        ensures refused { IfErr result (λ refusal. IsNotLentAt self.old number refusal) }
        ensures kept { OnErr result (at.new ≡ at.old) }
        ensures same { self.new ≡ self.old }
    {
        match self.streams.get_mut(number) {
            Some(stream) => match lend_place(stream, &mut self.scrap, want, at) {
                Ok(n) => Ok(n),
                Err(refusal) => Err(CallRefusal::Refused(refusal)),
            },
            None => Err(CallRefusal::NoSuchStream),
        }
    }

    /// Takes the first `n` octets that stand in the lent place as one delivery ([`Endpoint::deliver`]), past the last octet
    /// that came. None of it is dropped, unless the stream has ended: such a stream drops all.
    ///
    /// So it takes what [`Endpoint::lend_place`] lent, if nothing else was called on the endpoint since. Refused are no octets
    /// (`Nothing`); more than 65,536, or, of a stream that runs, than the window has room for (`TooMany`); and, of a stream
    /// that runs, those for which no place was lent and there is no memory (`NoMemory`). An `Err` changes nothing.
    pub fn take_lent(&mut self, number: u32, n: usize) -> Result<(), CallRefusal<TakeLentRefusal>>
        ensures stream { (result ≡ Err CallRefusal.NoSuchStream) ↔ (has_stream self.old number ≡ false) }
        ensures ok { OnOk result (Counts self.old self.new number n) }
        ensures refused { IfErr result (λ refusal. IsNotTakenAt self.old number n refusal) }
        ensures err { OnErr result (self.new ≡ self.old) }
    {
        match self.streams.get_mut(number) {
            Some(stream) => match stream.take_lent(n) {
                Ok(()) => Ok(()),
                Err(refusal) => Err(CallRefusal::Refused(refusal)),
            },
            None => Err(CallRefusal::NoSuchStream),
        }
    }

    /// The same, but tells alone whether it took them, and asks for no memory: it takes none where no place for so many was
    /// lent.
    pub fn came(&mut self, number: u32, n: usize) -> Result<bool, NoSuchStream>
        ensures stream { is_ok result ≡ has_stream self.old number }
        ensures counted { IfOk result (λ came. MatchBool came (Counts self.old self.new number n) (self.new ≡ self.old)) }
        ensures err { OnErr result (self.new ≡ self.old) }
    {
        match self.streams.get_mut(number) {
            Some(stream) => Ok(stream.came(n)),
            None => Err(NoSuchStream),
        }
    }
}
