//! Octets that the program reads to a place that is lent.
ghost use Rattle.std.specs.Prelude.{◌≡◌, ◌⊎◌, ◌<◌, IfSome, IfNone, IfOk, IfErr, OnOk, OnErr, IsSomeAnd, Some};
ghost use Rattle.iw_handle.specs.Lending.{lendable_at, IsFull, IsNoPlace, IsUnlent, lent_at, held_lent, lent_in, HasTaken};
ghost use Rattle.iw_endpoint.specs.Reading.{Counts};
ghost use Rattle.iw_handle.specs.State.{called_on, refusal_in, told_in, stream_refusal};

use crate::handle::Handle;
use crate::open_handle::Held;
use crate::refusal::Refusal;
use iw_endpoint::{CallRefusal, Endpoint, PlaceRefusal, TakeLentRefusal};
use std::alloc::Global;
use std::ptr::null_mut;

// Lends the place past the last octet that came.
fn lend_place(
    endpoint: &mut Endpoint,
    number: u32,
    want: usize,
    at: &mut *mut u8,
) -> Result<usize, Refusal>
    ensures refused { IfSome (stream_refusal endpoint.old number) (λ r. result ≡ Err r) }
    ensures why { IfNone (stream_refusal endpoint.old number)
        (IfErr result (λ e. (e ≡ Refusal.WindowFull) ⊎ (e ≡ Refusal.NoMemory))) }
    ensures full { result ≡ Err Refusal.WindowFull → IsFull endpoint.old number }
    ensures lent { IfOk result (λ n. n ≡ lendable_at endpoint.old number want) }
    ensures kept { OnErr result (at.new ≡ at.old) }
    ensures same { endpoint.new ≡ endpoint.old }
{
    match endpoint.lend_place(number, want, at) {
        Ok(n) => Ok(n),
        Err(CallRefusal::NoSuchStream) => Err(Refusal::NoSuchStream),
        Err(CallRefusal::Refused(PlaceRefusal::Full)) => Err(Refusal::WindowFull),
        Err(CallRefusal::Refused(PlaceRefusal::NoMemory)) => Err(Refusal::NoMemory),
    }
}

fn room(held: &mut Held, number: u32, want: usize, at: &mut *mut u8) -> Result<usize, Refusal>
    ensures refused { IfSome (stream_refusal held.old.endpoint number) (λ r. result ≡ Err r) }
    ensures why { IfNone (stream_refusal held.old.endpoint number)
        (IfErr result (λ e. (e ≡ Refusal.WindowFull) ⊎ (e ≡ Refusal.NoMemory))) }
    ensures full { result ≡ Err Refusal.WindowFull → IsFull held.old.endpoint number }
    ensures lent { IfOk result (λ n. n ≡ lendable_at held.old.endpoint number want) }
    ensures kept { OnErr result (at.new ≡ at.old) }
    ensures ok { IfOk result (λ n. held.new ≡ held_lent held.old number n) }
    ensures err { OnErr result (held.new ≡ held.old) }
{
    let mut place = null_mut();
    let n = lend_place(&mut held.endpoint, number, want, &mut place)?;
    let Ok(()) = held.lends.lend(number, n) else {
        return Err(Refusal::NoMemory);
    };
    *at = place;
    Ok(n)
}

// Takes octets that stand in the place that is lent.
fn came_at(endpoint: &mut Endpoint, number: u32, n: usize) -> Result<(), Refusal>
    ensures why { IfNone (stream_refusal endpoint.old number)
        (IfErr result (λ e. ((e ≡ Refusal.NotLent) × IsNoPlace endpoint.old number n) ⊎ (e ≡ Refusal.NoMemory))) }
    ensures ok { OnOk result (Counts endpoint.old endpoint.new number n) }
    ensures err { OnErr result (endpoint.new ≡ endpoint.old) }
{
    match endpoint.take_lent(number, n) {
        Ok(()) => Ok(()),
        Err(CallRefusal::Refused(TakeLentRefusal::NoMemory)) => Err(Refusal::NoMemory),
        Err(_) => Err(Refusal::NotLent),
    }
}

fn came(held: &mut Held, number: u32, n: usize) -> Result<(), Refusal>
    ensures refused { IfSome (stream_refusal held.old.endpoint number) (λ r. result ≡ Err r) }
    ensures more { IfNone (stream_refusal held.old.endpoint number)
        (lent_at held.old number < n → result ≡ Err Refusal.NotLent) }
    ensures why { IfNone (stream_refusal held.old.endpoint number)
        (IfErr result (λ e. ((e ≡ Refusal.NotLent) × IsUnlent held.old number n) ⊎ (e ≡ Refusal.NoMemory))) }
    ensures ok { OnOk result (HasTaken held.old number n held.new) }
    ensures err { OnErr result (held.new ≡ held.old) }
{
    if held.endpoint.standing(number).is_err() {
        return Err(Refusal::NoSuchStream);
    }
    if held.lends.lent(number) < n {
        return Err(Refusal::NotLent);
    }
    came_at(&mut held.endpoint, number, n)?;
    held.lends.take_back(number);
    Ok(())
}

impl Handle {
    /// Lends the place past the last octet that came at a stream ([`Endpoint::lend_place`]): `at` becomes the address at
    /// which octets from the connection may be written until the next call on this stream, and the result says for how many
    /// there is room, `want` at most. No clause says which address it is. Places may be lent at many streams at once.
    ///
    /// The place is taken back, whatever they answer, by this call, which may lend another, and by `accept`, `reject`, `deliver`,
    /// `work`, `work_on`, `emit`, `emit_onto`, `fill` and `break_link` on this stream: they may move or free what came. It stays
    /// lent over calls that post or fetch something or only tell something, and over those on other streams.
    ///
    /// A stream that has ended lends a place too; what comes there is dropped. `WindowFull`: the stream runs, and its window
    /// has no room before [`Handle::work`] makes some. An `Err` writes nothing, and changes nothing else.
    pub fn room(
        &mut self,
        alloc: Global,
        number: u32,
        want: usize,
        at: &mut *mut u8,
    ) -> Result<usize, Refusal>
        ensures refused { IfSome (refusal_in (called_on self.old.state number) (λ e. stream_refusal e number)) (λ r. result ≡ Err r) }
        ensures why { IfNone (refusal_in (called_on self.old.state number) (λ e. stream_refusal e number))
            (IfErr result (λ e. (e ≡ Refusal.WindowFull) ⊎ (e ≡ Refusal.NoMemory))) }
        ensures full { result ≡ Err Refusal.WindowFull → IfSome (called_on self.old.state number) (λ held. IsFull held.endpoint number) }
        ensures lent { IfOk result (λ n. Some n ≡ told_in (called_on self.old.state number) (λ e. lendable_at e number want)) }
        ensures kept { OnErr result (at.new ≡ at.old) }
        ensures ok { IfOk result (λ n. self.new.state ≡ lent_in (called_on self.old.state number) number n) }
        ensures err { OnErr result (self.new.state ≡ called_on self.old.state number) }
    {
        let Some(mut held) = self.take_on(alloc, number) else {
            return Err(Refusal::Closed);
        };
        let done = room(&mut held, number, want, at);
        self.put(held);
        done
    }

    /// Takes the first `n` octets that stand in the place that was lent last as one delivery, past the last octet that came
    /// ([`Endpoint::take_lent`]). Then no place is lent. `NotLent`: `n` is 0, or more than are lent; none are if the place was
    /// taken back. An `Err` changes nothing. (`NoMemory` stands in the contract alone: the place is there since it was lent.)
    pub fn came(&mut self, alloc: Global, number: u32, n: usize) -> Result<(), Refusal>
        ensures refused { IfSome (refusal_in self.old.state (λ e. stream_refusal e number)) (λ r. result ≡ Err r) }
        ensures more { IfSome self.old.state (λ held. IfNone (stream_refusal held.endpoint number)
            (lent_at held number < n → result ≡ Err Refusal.NotLent)) }
        ensures why { IfSome self.old.state (λ held. IfNone (stream_refusal held.endpoint number)
            (IfErr result (λ e. ((e ≡ Refusal.NotLent) × IsUnlent held number n) ⊎ (e ≡ Refusal.NoMemory)))) }
        ensures ok { OnOk result
            (IfSome self.old.state (λ held. IsSomeAnd self.new.state (λ after. HasTaken held number n after))) }
        ensures err { OnErr result (self.new.state ≡ self.old.state) }
    {
        let Some(mut held) = self.take(alloc) else {
            return Err(Refusal::Closed);
        };
        let done = came(&mut held, number, n);
        self.put(held);
        done
    }
}
