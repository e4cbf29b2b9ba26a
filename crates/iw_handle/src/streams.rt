//! Calls that open a stream, answer its Request and end it.
ghost use Rattle.std.specs.Prelude.{◌≡◌, None, Some, length, IfSome, IfNone, IfOk, IfErr, OnOk, OnErr};
ghost use Rattle.std.specs.Result.{result_err};
ghost use Rattle.iw_endpoint.specs.Endpoint.{opened, accepted, rejected, agreement, broken, with_mulpdu, told_at, options_at, standing_at};
ghost use Rattle.iw_handle.specs.Events.{peer_told};
ghost use Rattle.iw_handle.specs.Openings.{held_opened, opened_in};
ghost use Rattle.iw_handle.specs.State.{called_on, refusal_in, changed, told_in, shown_in, stream_refusal};
ghost use Rattle.iw_handle.specs.State.{copy_refusal, filled, length_told};
ghost use Rattle.iw_handle.specs.Streams.{refusal_to_open, refusal_to_answer, size_refusal, private_shown};
ghost use Rattle.iw_handle.specs.Words.{role_in, config_of, private_of};

use crate::copying::copy_out;
use crate::event::{Told, peer_told};
use crate::handle::Handle;
use crate::open_handle::Held;
use crate::refusal::{Refusal, answer_reason, open_reason, size_reason};
use crate::stream_opening::open_lined;
use crate::words::{config_of, private_of, role_of};
use iw_endpoint::{Agreed, Endpoint, Standing};
use std::alloc::Global;

// Opens a stream. Role and options are numbers.
fn open_stream(
    held: &mut Held,
    alloc: Global,
    number: u32,
    pd: u8,
    role: u32,
    options: u32,
    private: &[u8],
) -> Result<(), Refusal>
    // The first refusal that applies; if none does, only `NoMemory`.
    ensures refused { IfSome (refusal_to_open held.old.endpoint number pd role options private.now)
        (λ r. result ≡ Err r) }
    ensures memory { IfNone (refusal_to_open held.old.endpoint number pd role options private.now)
        (IfErr result (λ e. e ≡ Refusal.NoMemory)) }
    ensures ok { OnOk result (held.new ≡ held_opened held.old number
        (λ e. opened e number pd (role_in role) (config_of options private.now))) }
    ensures err { OnErr result (held.new ≡ held.old) }
{
    let role = role_of(role)?;
    let config = config_of(role, options, private)?;
    match open_lined(held, alloc, number, pd, role, config) {
        Ok(()) => Ok(()),
        Err(refusal) => Err(open_reason(refusal)),
    }
}

fn accept(endpoint: &mut Endpoint, number: u32, private: &[u8]) -> Result<Agreed, Refusal>
    ensures refused { result_err result ≡ refusal_to_answer endpoint.old number private.now }
    ensures agreed { IfOk result (λ agreed. agreed ≡ agreement endpoint.old number) }
    ensures ok { OnOk result (endpoint.new ≡ accepted endpoint.old number (private_of private.now)) }
    ensures err { OnErr result (endpoint.new ≡ endpoint.old) }
{
    let private = private_of(private)?;
    match endpoint.accept(number, private) {
        Ok(agreed) => Ok(agreed),
        Err(refusal) => Err(answer_reason(refusal)),
    }
}

fn reject(endpoint: &mut Endpoint, number: u32, private: &[u8]) -> Result<(), Refusal>
    ensures refused { result_err result ≡ refusal_to_answer endpoint.old number private.now }
    ensures ok { OnOk result (endpoint.new ≡ rejected endpoint.old number (private_of private.now)) }
    ensures err { OnErr result (endpoint.new ≡ endpoint.old) }
{
    let private = private_of(private)?;
    match endpoint.reject(number, private) {
        Ok(()) => Ok(()),
        Err(refusal) => Err(answer_reason(refusal)),
    }
}

// Copies the peer's private data.
fn copy_private(
    endpoint: &Endpoint,
    number: u32,
    out: &mut [u8],
    len: &mut usize,
) -> Result<(), Refusal>
    ensures refused { result_err result ≡ copy_refusal (private_shown endpoint.now number) Refusal.NoSuchStream
        (length out.old) }
    ensures len { len.new ≡ length_told (private_shown endpoint.now number) len.old }
    ensures ok { OnOk result (out.new ≡ filled (private_shown endpoint.now number) out.old) }
    ensures err { OnErr result (out.new ≡ out.old) }
{
    match endpoint.private(number) {
        Ok(private) => copy_out(private, out, len),
        Err(_) => Err(Refusal::NoSuchStream),
    }
}

// What the peer told in its start-up frame.
pub(crate) fn told(endpoint: &Endpoint, number: u32) -> Result<Told, Refusal>
    ensures refused { result_err result ≡ stream_refusal endpoint.now number }
    ensures told { IfOk result
        (λ told. told ≡ peer_told (options_at endpoint.now number) (told_at endpoint.now number)) }
{
    let Ok(options) = endpoint.peer_options(number) else {
        return Err(Refusal::NoSuchStream);
    };
    let Ok(word) = endpoint.peer_enhanced(number) else {
        return Err(Refusal::NoSuchStream);
    };
    Ok(peer_told(options, word))
}

fn standing(endpoint: &Endpoint, number: u32) -> Result<Standing, Refusal>
    ensures refused { result_err result ≡ stream_refusal endpoint.now number }
    ensures standing { IfOk result (λ standing. standing ≡ standing_at endpoint.now number) }
{
    match endpoint.standing(number) {
        Ok(standing) => Ok(standing),
        Err(_) => Err(Refusal::NoSuchStream),
    }
}

impl Handle {
    /// Opens a stream in a domain under a number from 0 to 63 ([`Endpoint::open`]). `role` is 0 (preset), 1 (initiator)
    /// or 2 (responder). `options` is a sum of 1 (the peer is to send markers), 2 (CRCs), 4 (revision 2 of MPA) and, of an
    /// initiator and with 4, 8 (the peer-to-peer model). An `Err` changes nothing; `NoMemory` comes only if no other refusal
    /// applies.
    pub fn open_stream(
        &mut self,
        alloc: Global,
        number: u32,
        pd: u8,
        role: u32,
        options: u32,
        private: &[u8],
    ) -> Result<(), Refusal>
        ensures refused { IfSome
            (refusal_in self.old.state (λ e. refusal_to_open e number pd role options private.now))
            (λ r. result ≡ Err r) }
        ensures memory { IfNone (refusal_in self.old.state (λ e. refusal_to_open e number pd role options private.now))
            (IfErr result (λ e. e ≡ Refusal.NoMemory)) }
        ensures ok { OnOk result (self.new.state ≡ opened_in self.old.state number
            (λ e. opened e number pd (role_in role) (config_of options private.now))) }
        ensures err { OnErr result (self.new.state ≡ self.old.state) }
    {
        let Some(mut held) = self.take(alloc) else {
            return Err(Refusal::Closed);
        };
        let done = open_stream(&mut held, alloc, number, pd, role, options, private);
        self.put(held);
        done
    }

    /// Accepts the pending MPA Request, with this private data in the Reply ([`Endpoint::accept`]). An `Err` changes
    /// nothing.
    pub fn accept(&mut self, alloc: Global, number: u32, private: &[u8]) -> Result<Agreed, Refusal>
        ensures refused { result_err result ≡ refusal_in (called_on self.old.state number)
            (λ e. refusal_to_answer e number private.now) }
        ensures agreed { IfOk result (λ agreed. Some agreed ≡ told_in (called_on self.old.state number) (λ e. agreement e number)) }
        ensures ok { OnOk result
            (self.new.state ≡ changed (called_on self.old.state number) (λ e. accepted e number (private_of private.now))) }
        ensures err { OnErr result (self.new.state ≡ called_on self.old.state number) }
    {
        let Some(mut held) = self.take_on(alloc, number) else {
            return Err(Refusal::Closed);
        };
        let done = accept(&mut held.endpoint, number, private);
        self.put(held);
        done
    }

    /// Rejects the pending MPA Request, with this private data in the Reply. The stream has then ended. An `Err`
    /// changes nothing.
    pub fn reject(&mut self, alloc: Global, number: u32, private: &[u8]) -> Result<(), Refusal>
        ensures refused { result_err result ≡ refusal_in (called_on self.old.state number)
            (λ e. refusal_to_answer e number private.now) }
        ensures ok { OnOk result
            (self.new.state ≡ changed (called_on self.old.state number) (λ e. rejected e number (private_of private.now))) }
        ensures err { OnErr result (self.new.state ≡ called_on self.old.state number) }
    {
        let Some(mut held) = self.take_on(alloc, number) else {
            return Err(Refusal::Closed);
        };
        let done = reject(&mut held.endpoint, number, private);
        self.put(held);
        done
    }

    /// Copies the private data of the peer's start-up frame to the front of a buffer; none before that frame was read.
    /// `len` becomes the number of octets, even if they do not fit (`NoRoom`). An `Err` leaves the buffer as it was.
    pub fn private(
        &mut self,
        alloc: Global,
        number: u32,
        out: &mut [u8],
        len: &mut usize,
    ) -> Result<(), Refusal>
        ensures refused { result_err result ≡ refusal_in self.old.state
            (λ e. copy_refusal (private_shown e number) Refusal.NoSuchStream (length out.old)) }
        ensures len { len.new ≡ length_told (shown_in self.old.state (λ e. private_shown e number)) len.old }
        ensures ok { OnOk result (out.new ≡ filled (shown_in self.old.state (λ e. private_shown e number)) out.old) }
        ensures err { OnErr result (out.new ≡ out.old) }
        ensures same { self.new.state ≡ self.old.state }
    {
        let Some(held) = self.take(alloc) else {
            return Err(Refusal::Closed);
        };
        let done = copy_private(&held.endpoint, number, out, len);
        self.put(held);
        done
    }

    /// What the peer told in its start-up frame, once that was read: what it asks for ([`Endpoint::peer_options`]), and the word of
    /// IRD and ORD, if it has one ([`Endpoint::peer_enhanced`]).
    pub fn told(&mut self, alloc: Global, number: u32) -> Result<Told, Refusal>
        ensures refused { result_err result ≡ refusal_in self.old.state (λ e. stream_refusal e number) }
        ensures told { IfOk result
            (λ told. Some told ≡ told_in self.old.state (λ e. peer_told (options_at e number) (told_at e number))) }
        ensures same { self.new.state ≡ self.old.state }
    {
        let Some(held) = self.take(alloc) else {
            return Err(Refusal::Closed);
        };
        let done = told(&held.endpoint, number);
        self.put(held);
        done
    }

    /// Whether a stream is starting, is open or has ended ([`Endpoint::standing`]).
    pub fn standing(&mut self, alloc: Global, number: u32) -> Result<Standing, Refusal>
        ensures refused { result_err result ≡ refusal_in self.old.state (λ e. stream_refusal e number) }
        ensures standing { IfOk result (λ standing. Some standing ≡ told_in self.old.state (λ e. standing_at e number)) }
        ensures same { self.new.state ≡ self.old.state }
    {
        let Some(held) = self.take(alloc) else {
            return Err(Refusal::Closed);
        };
        let done = standing(&held.endpoint, number);
        self.put(held);
        done
    }

    /// Reports that a stream's link broke: the stream has ended, and nothing more is emitted. An `Err` changes nothing.
    pub fn break_link(&mut self, alloc: Global, number: u32) -> Result<(), Refusal>
        ensures refused { result_err result ≡ refusal_in (called_on self.old.state number) (λ e. stream_refusal e number) }
        ensures ok { OnOk result (self.new.state ≡ changed (called_on self.old.state number) (λ e. broken e number)) }
        ensures err { OnErr result (self.new.state ≡ called_on self.old.state number) }
    {
        let Some(mut held) = self.take_on(alloc, number) else {
            return Err(Refusal::Closed);
        };
        let done = held.endpoint.break_link(number);
        self.put(held);
        match done {
            Ok(()) => Ok(()),
            Err(_) => Err(Refusal::NoSuchStream),
        }
    }

    /// Sets the maximum ULPDU of the frames that a stream emits from then on, 128 to 64,512 octets. An `Err` changes
    /// nothing.
    pub fn set_mulpdu(&mut self, alloc: Global, number: u32, size: u32) -> Result<(), Refusal>
        ensures refused { result_err result ≡ refusal_in self.old.state (λ e. size_refusal e number size) }
        ensures ok { OnOk result (self.new.state ≡ changed self.old.state (λ e. with_mulpdu e number size)) }
        ensures err { OnErr result (self.new.state ≡ self.old.state) }
    {
        let Some(mut held) = self.take(alloc) else {
            return Err(Refusal::Closed);
        };
        let done = held.endpoint.set_mulpdu(number, size);
        self.put(held);
        match done {
            Ok(()) => Ok(()),
            Err(refusal) => Err(size_reason(refusal)),
        }
    }
}
