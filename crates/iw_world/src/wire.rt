//! The octets that one stream of an end emitted.

ghost use Rattle.std.specs.Prelude.{◌≡◌, ◌≢◌, ◌++◌, [], true, IfOk, IfErr, OnOk};
ghost use Rattle.iw_endpoint.specs.Endpoint.{has_stream, stream_at, emission_at, emitted_at, after_emit};
ghost use Rattle.iw_laws.specs.Bounds.{IsShort};
ghost use Rattle.iw_laws.specs.Rules.{shown_of};

use crate::fault::Failure;
use bytes::Bytes;
use iw_endpoint::{CallRefusal, Emission, Endpoint};
use iw_events::{Shown, standing};
use iw_memory::Memory;
use std::alloc::{AllocError, Allocator, Global};
use std::marker::Model;

/// The octets that a stream emitted.
#[derive(Drop)]
pub(crate) struct Wire<A: Allocator = Global> {
    octets: Vec<u8, A>,
}

impl<A: Allocator> Model for Wire<A> {
    ghost use Rattle.std.specs.Prelude.{List, ℕ};

    ghost Value = { List ℕ };

    ghost view = { λ w. w.octets.items };
}

impl<A: Allocator + Copy> Wire<A> {
    pub(crate) fn new(alloc: A) -> Wire<A>
        ensures { result ≡ [] }
    {
        Wire {
            octets: Vec::new(alloc),
        }
    }

    pub(crate) fn octets(&self) -> &[u8]
        ensures { result.now ≡ self.now }
    {
        self.octets.as_slice()
    }

    /// Emits what is due at a stream, appends it, and returns what the trace shows of it.
    pub(crate) fn emit(
        &mut self,
        alloc: A,
        endpoint: &mut Endpoint<A>,
        number: u32,
    ) -> Result<Shown<Bytes<A>>, Failure>
        requires there { has_stream endpoint.old number ≡ true }
        requires short { IsShort (stream_at endpoint.old number) }
        ensures shown { IfOk result (λ shown. shown
            ≡ shown_of endpoint.old.table (emission_at endpoint.old number) (emitted_at endpoint.old number)) }
        ensures after { OnOk result (endpoint.new ≡ after_emit endpoint.old number) }
        ensures wire { OnOk result (self.new ≡ self.old ++ emitted_at endpoint.old number) }
        ensures failure { IfErr result (λ failure. failure ≡ Failure.NoMemory) }
    {
        emit_to(alloc, endpoint, number, &mut self.octets)
    }
}

// Emits what is due at a stream, appends it to these octets, and returns what the trace shows of it.
fn emit_to<A: Allocator + Copy>(
    alloc: A,
    endpoint: &mut Endpoint<A>,
    number: u32,
    wire: &mut Vec<u8, A>,
) -> Result<Shown<Bytes<A>>, Failure>
    requires there { has_stream endpoint.old number ≡ true }
    requires short { IsShort (stream_at endpoint.old number) }
    ensures shown { IfOk result (λ shown. shown
        ≡ shown_of endpoint.old.table (emission_at endpoint.old number) (emitted_at endpoint.old number)) }
    ensures after { OnOk result (endpoint.new ≡ after_emit endpoint.old number) }
    ensures wire { OnOk result (wire.new.items ≡ wire.old.items ++ emitted_at endpoint.old number) }
    ensures failure { IfErr result (λ failure. failure ≡ Failure.NoMemory) }
{
    let before = wire.len();
    let emission = emission(endpoint, number, wire)?;
    Ok(shown(alloc, endpoint.memory(), &wire[before..], emission)?)
}

// Emits what is due at a stream, and appends it to these octets.
fn emission<A: Allocator + Copy>(
    endpoint: &mut Endpoint<A>,
    number: u32,
    wire: &mut Vec<u8, A>,
) -> Result<Emission, Failure>
    requires there { has_stream endpoint.old number ≡ true }
    requires short { IsShort (stream_at endpoint.old number) }
    ensures emission { IfOk result (λ emission. emission ≡ emission_at endpoint.old number) }
    ensures after { OnOk result (endpoint.new ≡ after_emit endpoint.old number) }
    ensures wire { OnOk result (wire.new.items ≡ wire.old.items ++ emitted_at endpoint.old number) }
    ensures failure { IfErr result (λ failure. failure ≡ Failure.NoMemory) }
{
    match endpoint.emit(number, wire) {
        Ok(emission) => Ok(emission),
        Err(CallRefusal::Refused(_)) => Err(Failure::NoMemory),
        Err(CallRefusal::NoSuchStream) => unreachable!(),
    }
}

// What the trace shows of an emission of these octets, given the regions.
fn shown<A: Allocator + Copy>(
    alloc: A,
    memory: &Memory<A>,
    emitted: &[u8],
    emission: Emission,
) -> Result<Shown<Bytes<A>>, AllocError>
    ensures { IfOk result (λ shown. shown ≡ shown_of memory.now emission emitted.now) }
{
    match emission {
        Emission::Frame { from, len: _ } => Ok(Shown::Frame {
            from,
            octets: Bytes::copy_from_slice(alloc, emitted)?,
        }),
        Emission::Fetched {
            from,
            len: _,
            stag,
            to,
            n,
        } => Ok(Shown::Fetched {
            from,
            frame: Bytes::copy_from_slice(alloc, emitted)?,
            stag,
            to,
            octets: standing(alloc, memory, stag, to, n)?,
        }),
        Emission::Fault(fault) => Ok(Shown::Fault(fault)),
        Emission::Nothing => Ok(Shown::Nothing),
    }
}
