//! One end: its endpoint, and what its streams emitted.

ghost use Rattle.std.specs.Prelude.{◌≡◌, ◌<◌, ◌≤◌, ◌^◌, true, false, length, is_some, IfOk, IfErr, OnErr};
ghost use Rattle.iw_events.specs.Events.{call_of};
ghost use Rattle.iw_endpoint.specs.Endpoint.{has_stream, domain_refusal, open_refusal};
ghost use Rattle.iw_endpoint.specs.Isolation.{after, answer_or};
ghost use Rattle.iw_endpoint.specs.Isolation as calls;
ghost use Rattle.iw_memory.specs.Table.{register_refusal, next_stag};
ghost use Rattle.iw_laws.specs.Words.{config_for};

use crate::fault::Failure;
use crate::wire::Wire;
use bytes::Bytes;
use iw_endpoint::{Endpoint, STREAM_NUMBERS};
use iw_events::{Act, Call, Options, private_data};
use iw_memory::{DomainRefusal, RegisterRefusal, Rights, Stag};
use iw_stream::{Config, OpenRefusal, Role};
use std::alloc::{AllocError, Allocator, Global};
use std::marker::Model;

/// One end: its endpoint, and what each stream emitted, by its number.
#[derive(Drop)]
pub(crate) struct Host<A: Allocator = Global> {
    pub(crate) endpoint: Endpoint<A>,
    pub(crate) wires: Vec<Wire<A>, A>,
}

impl<A: Allocator> Model for Host<A> {
    ghost use Rattle.iw_laws.specs.Rules.{EndState};

    ghost Value = { EndState };

    ghost view = { λ h. record { endpoint = h.endpoint; wires = h.wires.items } };
}

impl<A: Allocator + Copy> Host<A> {
    ghost use Rattle.iw_laws.specs.Rules.{at_first, wire_at, end_after, EndRule, PeerRule};
    ghost use Rattle.iw_laws.specs.Bounds.{IsShortEnd, LacksStream, AsksTooMuch};

    pub(crate) fn new(alloc: A) -> Result<Host<A>, AllocError>
        ensures { IfOk result (λ host. host ≡ at_first) }
    {
        let mut wires = Vec::with_capacity(alloc, STREAM_NUMBERS)?;
        for _i in 0..64usize {
            wires.push(Wire::new(alloc))?;
        }
        let endpoint = Endpoint::new(alloc);
        Ok(Host { endpoint, wires })
    }

    /// Whether a stream was opened under this number.
    pub(crate) fn has_stream(&self, number: u32) -> bool
        ensures there { result ≡ has_stream self.now.endpoint number }
    {
        self.endpoint.sent(number).is_ok()
    }

    /// What the stream of this number emitted; nothing if none was opened.
    pub(crate) fn wire(&self, number: u32) -> &[u8]
        ensures { result.now ≡ wire_at self.now number }
    {
        match self.wires.get(number as usize) {
            Some(wire) => wire.octets(),
            None => &[],
        }
    }

    /// Makes a call at this end. `peer` is the other end.
    pub(crate) fn act(
        &mut self,
        alloc: A,
        peer: &Host<A>,
        call: &Call<Bytes<A>>,
    ) -> Result<Act<Bytes<A>>, Failure>
        requires short { IsShortEnd self.old }
        requires peer { IsShortEnd peer.now }
        ensures rule { IfOk result (λ act. EndRule self.old.endpoint act) }
        ensures peer { IfOk result (λ act. PeerRule peer.now act) }
        ensures call { IfOk result (λ act. call_of act ≡ call.now) }
        ensures state { IfOk result (λ act. self.new ≡ end_after self.old act) }
        ensures no_stream { result ≡ Err Failure.NoSuchStream → LacksStream self.old peer.now call.now }
        ensures not_sent { result ≡ Err Failure.NotSent → AsksTooMuch self.old peer.now call.now }
    {
        match call {
            Call::Domain { pd } => self.add_domain(*pd),
            Call::Register {
                pd,
                base,
                rights,
                octets,
            } => self.register(alloc, *pd, *base, *rights, octets),
            Call::Deregister { stag } => self.deregister(alloc, *stag),
            Call::Invalidate { stag } => Ok(self.invalidate(*stag)),
            Call::Store { stag, to, octets } => self.store(*stag, *to, octets),
            Call::Open {
                stream,
                pd,
                role,
                options,
                private,
            } => self.open(*stream, *pd, *role, *options, private),
            Call::Share { pd } => self.share(*pd),
            Call::Pool { pd, len } => self.pool(alloc, *pd, *len),
            Call::Unpool { pd } => self.unpool(*pd),
            Call::OpenShared {
                stream,
                pd,
                role,
                options,
                private,
            } => self.open_shared(*stream, *pd, *role, *options, private),
            Call::Stream { stream, call } => {
                let act = self.act_on(alloc, peer, u32::from(*stream), call)?;
                Ok(Act::Stream {
                    stream: *stream,
                    act,
                })
            }
        }
    }

    fn add_domain(&mut self, pd: u8) -> Result<Act<Bytes<A>>, Failure>
        ensures rule { IfOk result (λ act. EndRule self.old.endpoint act) }
        ensures call { IfOk result (λ act. call_of act ≡ Call.Domain pd) }
        ensures state { IfOk result (λ act. self.new ≡ end_after self.old act) }
        ensures failure { IfErr result (λ failure. failure ≡ Failure.NoMemory) }
    {
        let refused = add_domain(&mut self.endpoint, pd)?;
        Ok(Act::Domain { pd, refused })
    }

    fn register(
        &mut self,
        alloc: A,
        pd: u8,
        base: u64,
        rights: Rights,
        octets: &Bytes<A>,
    ) -> Result<Act<Bytes<A>>, Failure>
        ensures rule { IfOk result (λ act. EndRule self.old.endpoint act) }
        ensures call { IfOk result (λ act. call_of act ≡ Call.Register pd base rights octets.now) }
        ensures state { IfOk result (λ act. self.new ≡ end_after self.old act) }
        ensures failure { IfErr result (λ failure. failure ≡ Failure.NoMemory) }
    {
        let copy = Vec::from_slice(alloc, octets.as_slice())?;
        let answer = register(&mut self.endpoint, pd, base, copy, rights)?;
        Ok(Act::Register {
            pd,
            base,
            rights,
            octets: octets.clone()?,
            answer,
        })
    }

    fn deregister(&mut self, alloc: A, stag: Stag) -> Result<Act<Bytes<A>>, Failure>
        ensures rule { IfOk result (λ act. EndRule self.old.endpoint act) }
        ensures call { IfOk result (λ act. call_of act ≡ Call.Deregister stag) }
        ensures state { IfOk result (λ act. self.new ≡ end_after self.old act) }
        ensures failure { IfErr result (λ failure. failure ≡ Failure.NoMemory) }
    {
        match self.endpoint.take_region(stag) {
            Ok(octets) => {
                let octets = Bytes::from_vec(octets.into_vec(alloc)?)?;
                Ok(Act::Deregister {
                    stag,
                    answer: Ok(octets),
                })
            }
            Err(missing) => Ok(Act::Deregister {
                stag,
                answer: Err(missing),
            }),
        }
    }

    fn invalidate(&mut self, stag: Stag) -> Act<Bytes<A>>
        ensures rule { EndRule self.old.endpoint result }
        ensures call { call_of result ≡ Call.Invalidate stag }
        ensures state { self.new ≡ end_after self.old result }
    {
        let refused = self.endpoint.invalidate(stag).err();
        Act::Invalidate { stag, refused }
    }

    fn store(&mut self, stag: Stag, to: u64, octets: &Bytes<A>) -> Result<Act<Bytes<A>>, Failure>
        ensures rule { IfOk result (λ act. EndRule self.old.endpoint act) }
        ensures call { IfOk result (λ act. call_of act ≡ Call.Store stag to octets.now) }
        ensures state { IfOk result (λ act. self.new ≡ end_after self.old act) }
        ensures failure { IfErr result (λ failure. failure ≡ Failure.NoMemory) }
    {
        let copy = octets.clone()?;
        let refused = self.endpoint.store(stag, to, octets.as_slice()).err();
        Ok(Act::Store {
            stag,
            to,
            octets: copy,
            refused,
        })
    }

    fn open(
        &mut self,
        number: u8,
        pd: u8,
        role: Role,
        options: Options,
        private: &Bytes<A>,
    ) -> Result<Act<Bytes<A>>, Failure>
        ensures rule { IfOk result (λ act. EndRule self.old.endpoint act) }
        ensures call { IfOk result (λ act. call_of act ≡ Call.Open number pd role options private.now) }
        ensures state { IfOk result (λ act. self.new ≡ end_after self.old act) }
        ensures failure { IfErr result (λ failure. failure ≡ Failure.NoMemory) }
    {
        let copy = private.clone()?;
        let config = config_for(options, private.as_slice());
        let refused = open(&mut self.endpoint, number, pd, role, config)?;
        Ok(Act::Open {
            stream: number,
            pd,
            role,
            options,
            private: copy,
            refused,
        })
    }
}

// Adds a domain: returns why not, if it is refused.
fn add_domain<A: Allocator + Copy>(
    endpoint: &mut Endpoint<A>,
    pd: u8,
) -> Result<Option<DomainRefusal>, Failure>
    ensures rule { IfOk result (λ refused. refused ≡ domain_refusal endpoint.old pd) }
    ensures state { IfOk result (λ refused. endpoint.new ≡ after endpoint.old (calls.AddDomain pd)) }
    ensures failure { IfErr result (λ failure. failure ≡ Failure.NoMemory) }
{
    match endpoint.add_domain(pd) {
        Ok(()) => Ok(None),
        Err(DomainRefusal::NoMemory) => Err(Failure::NoMemory),
        Err(refusal) => Ok(Some(refusal)),
    }
}

// Registers octets: returns the STag, or why not.
fn register<A: Allocator>(
    endpoint: &mut Endpoint<A>,
    pd: u8,
    base: u64,
    octets: Vec<u8, A>,
    rights: Rights,
) -> Result<Result<Stag, RegisterRefusal>, Failure>
    ensures rule { IfOk result (λ answer. answer
        ≡ answer_or (register_refusal endpoint.old.table pd base (length octets.items))
        (next_stag endpoint.old.table pd)) }
    ensures state { IfOk result (λ answer. endpoint.new
        ≡ after endpoint.old (calls.Register pd base octets.items rights)) }
    ensures failure { IfErr result (λ failure. failure ≡ Failure.NoMemory) }
{
    match endpoint.register(pd, base, octets, rights) {
        Ok(stag) => Ok(Ok(stag)),
        Err((RegisterRefusal::NoMemory, _)) => Err(Failure::NoMemory),
        Err((refusal, _)) => Ok(Err(refusal)),
    }
}

// Opens a stream in a domain: returns why not, if it is refused.
fn open<A: Allocator + Copy>(
    endpoint: &mut Endpoint<A>,
    number: u8,
    pd: u8,
    role: Role,
    config: Config,
) -> Result<Option<OpenRefusal>, Failure>
    ensures rule { IfOk result (λ refused. refused ≡ open_refusal endpoint.old number pd role config) }
    ensures state { IfOk result (λ refused. endpoint.new ≡ after endpoint.old (calls.Open number pd role config)) }
    ensures failure { IfErr result (λ failure. failure ≡ Failure.NoMemory) }
{
    match endpoint.open(u32::from(number), pd, role, config) {
        Ok(()) => Ok(None),
        Err(OpenRefusal::NoMemory) => Err(Failure::NoMemory),
        Err(refusal) => Ok(Some(refusal)),
    }
}

/// The configuration of a stream with these options and this private data.
pub(crate) fn config_for(options: Options, private: &[u8]) -> Config
    ensures { result ≡ config_for options private.now }
{
    Config {
        markers: options.markers,
        crc: options.crc,
        establishment: options.establishment,
        private: private_data(private),
    }
}
