//! Calls on an end's streams.

ghost use Rattle.std.specs.Prelude.{◌≡◌, ◌≢◌, ◌+◌, ◌%◌, ◌<◌, ◌≤◌, ◌^◌, true, false, length, take, is_some, IfOk, IfErr, OnOk};
ghost use Rattle.iw_events.specs.declared.act.Seen.TheVariants.{Received};
ghost use Rattle.iw_events.specs.Events.{stream_call_of};
ghost use Rattle.iw_endpoint.specs.Endpoint.{has_stream, stream_at, private_at, told_at};
ghost use Rattle.iw_laws.specs.Bounds.{IsShort};
ghost use Rattle.iw_laws.specs.Rules.{needs_peer, seen_of};
ghost use Rattle.iw_events.specs.declared.act.Act.{Act};
ghost use Rattle.iw_events.specs.declared.call.Call.{Call};

use crate::fault::Failure;
use crate::host::Host;
use crate::known::known;
use crate::stream;
use bytes::Bytes;
use iw_endpoint::Endpoint;
use iw_events::{Seen, StreamAct, StreamCall, message_in, private_data, shared, standing, whole};
use iw_octets::{Octets, Stag};
use iw_stream::{EnhancedData, Request, Step};
use std::alloc::{AllocError, Allocator};

impl<A: Allocator + Copy> Host<A> {
    ghost use Rattle.iw_laws.specs.Rules.{end_after, EndRule, PeerRule, WireRule};
    ghost use Rattle.iw_laws.specs.Bounds.{AsksOver, IsShortEnd, LacksStream, AsksTooMuch};

    /// Makes a call on a stream. `peer` is the other end.
    pub(crate) fn act_on(
        &mut self,
        alloc: A,
        peer: &Host<A>,
        number: u32,
        call: &StreamCall<Bytes<A>>,
    ) -> Result<StreamAct<Bytes<A>>, Failure>
        requires short { IsShortEnd self.old }
        requires peer { IsShortEnd peer.now }
        ensures rule { IfOk result (λ act. EndRule self.old.endpoint (Act.Stream number act)) }
        ensures peer { IfOk result (λ act. PeerRule peer.now (Act.Stream number act)) }
        ensures call { IfOk result (λ act. stream_call_of act ≡ call.now) }
        ensures state { IfOk result (λ act. self.new ≡ end_after self.old (Act.Stream number act)) }
        ensures no_stream { result ≡ Err Failure.NoSuchStream
            → LacksStream self.old peer.now (Call.Stream number call.now) }
        ensures not_sent { result ≡ Err Failure.NotSent → AsksTooMuch self.old peer.now (Call.Stream number call.now) }
    {
        if needs_peer(call) && !peer.has_stream(number) {
            return Err(Failure::NoSuchStream);
        }
        if !self.has_stream(number) {
            return Err(Failure::NoSuchStream);
        }
        self.act_there(alloc, peer.wire(number), number, call)
    }

    // Makes a call on a stream that was opened. `wire` is what the other end has emitted on it.
    #[tactic(auto, using(iw_laws::proofs::Seeing::own_octets))]
    fn act_there(
        &mut self,
        alloc: A,
        wire: &[u8],
        number: u32,
        call: &StreamCall<Bytes<A>>,
    ) -> Result<StreamAct<Bytes<A>>, Failure>
        requires there { has_stream self.old.endpoint number ≡ true }
        requires laid { length self.old.wires ≡ length self.old.endpoint.streams }
        requires short { IsShort (stream_at self.old.endpoint number) }
        requires wire { length wire.now ≤ 2 ^ 62 }
        ensures rule { IfOk result (λ act. EndRule self.old.endpoint (Act.Stream number act)) }
        ensures wire { IfOk result (λ act. WireRule wire.now act) }
        ensures call { IfOk result (λ act. stream_call_of act ≡ call.now) }
        ensures state { IfOk result (λ act. self.new ≡ end_after self.old (Act.Stream number act)) }
        ensures not_sent { result ≡ Err Failure.NotSent → AsksOver wire.now call.now }
        ensures stream { result ≢ Err Failure.NoSuchStream }
    {
        match call {
            StreamCall::Recv { len } => self.recv(alloc, number, *len),
            StreamCall::Post { message } => self.post(number, message),
            StreamCall::Emit => self.emit(alloc, number),
            StreamCall::Deliver { from, len } => self.deliver(alloc, wire, number, *from, *len),
            StreamCall::Raw {
                number: from,
                octets,
            } => self.raw(number, *from, octets),
            StreamCall::First { number: first } => Ok(self.first(number, *first)),
            StreamCall::Mulpdu { size } => Ok(self.mulpdu(number, *size)),
            StreamCall::Accept { private } => self.accept(number, private),
            StreamCall::Reject { private } => self.reject(number, private),
            StreamCall::Work => self.work(alloc, number),
            StreamCall::Break => self.break_link(number),
        }
    }

    fn recv(&mut self, alloc: A, number: u32, len: u32) -> Result<StreamAct<Bytes<A>>, Failure>
        requires { has_stream self.old.endpoint number ≡ true }
        ensures rule { IfOk result (λ act. EndRule self.old.endpoint (Act.Stream number act)) }
        ensures call { IfOk result (λ act. stream_call_of act ≡ StreamCall.Recv len) }
        ensures state { IfOk result (λ act. self.new ≡ end_after self.old (Act.Stream number act)) }
        ensures failure { IfErr result (λ failure. failure ≡ Failure.NoMemory) }
    {
        let buffer = vec![in alloc; 0; len as usize]?;
        let refused = stream::post_recv(&mut self.endpoint, number, buffer)?;
        Ok(StreamAct::Recv { len, refused })
    }

    fn post(
        &mut self,
        number: u32,
        message: &Request<Bytes<A>>,
    ) -> Result<StreamAct<Bytes<A>>, Failure>
        requires { has_stream self.old.endpoint number ≡ true }
        ensures rule { IfOk result (λ act. EndRule self.old.endpoint (Act.Stream number act)) }
        ensures call { IfOk result (λ act. stream_call_of act ≡ StreamCall.Post message.now) }
        ensures state { IfOk result (λ act. self.new ≡ end_after self.old (Act.Stream number act)) }
        ensures failure { IfErr result (λ failure. failure ≡ Failure.NoMemory) }
    {
        known(message);
        let refused = stream::post(&mut self.endpoint, number, shared(message)?)?;
        Ok(StreamAct::Post {
            message: shared(message)?,
            refused,
        })
    }

    fn emit(&mut self, alloc: A, number: u32) -> Result<StreamAct<Bytes<A>>, Failure>
        requires there { has_stream self.old.endpoint number ≡ true }
        requires laid { length self.old.wires ≡ length self.old.endpoint.streams }
        requires short { IsShort (stream_at self.old.endpoint number) }
        ensures rule { IfOk result (λ act. EndRule self.old.endpoint (Act.Stream number act)) }
        ensures call { IfOk result (λ act. stream_call_of act ≡ StreamCall.Emit) }
        ensures state { IfOk result (λ act. self.new ≡ end_after self.old (Act.Stream number act)) }
        ensures failure { IfErr result (λ failure. failure ≡ Failure.NoMemory) }
    {
        let wire = &mut self.wires[number as usize];
        let shown = wire.emit(alloc, &mut self.endpoint, number)?;
        Ok(StreamAct::Emit(shown))
    }

    fn deliver(
        &mut self,
        alloc: A,
        wire: &[u8],
        number: u32,
        from: u64,
        len: u64,
    ) -> Result<StreamAct<Bytes<A>>, Failure>
        requires there { has_stream self.old.endpoint number ≡ true }
        requires wire { length wire.now ≤ 2 ^ 62 }
        ensures rule { IfOk result (λ act. EndRule self.old.endpoint (Act.Stream number act)) }
        ensures wire { IfOk result (λ act. WireRule wire.now act) }
        ensures call { IfOk result (λ act. stream_call_of act ≡ StreamCall.Deliver from len) }
        ensures state { IfOk result (λ act. self.new ≡ end_after self.old (Act.Stream number act)) }
        ensures not_sent { result ≡ Err Failure.NotSent → length wire.now < from + len }
        ensures stream { result ≢ Err Failure.NoSuchStream }
    {
        let emitted = wire.len() as u64;
        if from > emitted || len > emitted - from {
            return Err(Failure::NotSent);
        }
        let start = from as usize;
        let octets = &wire[start..start + len as usize];
        let copy = Bytes::copy_from_slice(alloc, octets)?;
        let handed_in = number_of(stream::first_of(&self.endpoint, number), from);
        let delivery = stream::deliver(&mut self.endpoint, number, handed_in, octets)?;
        Ok(StreamAct::Deliver {
            from,
            number: handed_in,
            octets: copy,
            delivery,
        })
    }

    fn raw(
        &mut self,
        number: u32,
        from: u32,
        octets: &Bytes<A>,
    ) -> Result<StreamAct<Bytes<A>>, Failure>
        requires { has_stream self.old.endpoint number ≡ true }
        ensures rule { IfOk result (λ act. EndRule self.old.endpoint (Act.Stream number act)) }
        ensures call { IfOk result (λ act. stream_call_of act ≡ StreamCall.Raw from octets.now) }
        ensures state { IfOk result (λ act. self.new ≡ end_after self.old (Act.Stream number act)) }
        ensures failure { IfErr result (λ failure. failure ≡ Failure.NoMemory) }
    {
        let copy = octets.clone()?;
        let octets = octets.as_slice();
        let delivery = stream::deliver(&mut self.endpoint, number, from, octets)?;
        Ok(StreamAct::Raw {
            number: from,
            octets: copy,
            delivery,
        })
    }

    fn first(&mut self, number: u32, first: u32) -> StreamAct<Bytes<A>>
        requires { has_stream self.old.endpoint number ≡ true }
        ensures rule { EndRule self.old.endpoint (Act.Stream number result) }
        ensures call { stream_call_of result ≡ StreamCall.First first }
        ensures state { self.new ≡ end_after self.old (Act.Stream number result) }
    {
        let refused = stream::set_first(&mut self.endpoint, number, first);
        StreamAct::First {
            number: first,
            refused,
        }
    }

    fn mulpdu(&mut self, number: u32, size: u32) -> StreamAct<Bytes<A>>
        requires { has_stream self.old.endpoint number ≡ true }
        ensures rule { EndRule self.old.endpoint (Act.Stream number result) }
        ensures call { stream_call_of result ≡ StreamCall.Mulpdu size }
        ensures state { self.new ≡ end_after self.old (Act.Stream number result) }
    {
        let refused = stream::set_mulpdu(&mut self.endpoint, number, size);
        StreamAct::Mulpdu { size, refused }
    }

    fn accept(&mut self, number: u32, private: &Bytes<A>) -> Result<StreamAct<Bytes<A>>, Failure>
        requires { has_stream self.old.endpoint number ≡ true }
        ensures rule { IfOk result (λ act. EndRule self.old.endpoint (Act.Stream number act)) }
        ensures call { IfOk result (λ act. stream_call_of act ≡ StreamCall.Accept private.now) }
        ensures state { IfOk result (λ act. self.new ≡ end_after self.old (Act.Stream number act)) }
        ensures failure { IfErr result (λ failure. failure ≡ Failure.NoMemory) }
    {
        let copy = private.clone()?;
        let reply = private_data(private.as_slice());
        let answer = stream::accept(&mut self.endpoint, number, reply);
        Ok(StreamAct::Accept {
            private: copy,
            answer,
        })
    }

    fn reject(&mut self, number: u32, private: &Bytes<A>) -> Result<StreamAct<Bytes<A>>, Failure>
        requires { has_stream self.old.endpoint number ≡ true }
        ensures rule { IfOk result (λ act. EndRule self.old.endpoint (Act.Stream number act)) }
        ensures call { IfOk result (λ act. stream_call_of act ≡ StreamCall.Reject private.now) }
        ensures state { IfOk result (λ act. self.new ≡ end_after self.old (Act.Stream number act)) }
        ensures failure { IfErr result (λ failure. failure ≡ Failure.NoMemory) }
    {
        let copy = private.clone()?;
        let reply = private_data(private.as_slice());
        let refused = stream::reject(&mut self.endpoint, number, reply);
        Ok(StreamAct::Reject {
            private: copy,
            refused,
        })
    }

    fn work(&mut self, alloc: A, number: u32) -> Result<StreamAct<Bytes<A>>, Failure>
        requires there { has_stream self.old.endpoint number ≡ true }
        requires short { IsShort (stream_at self.old.endpoint number) }
        ensures rule { IfOk result (λ act. EndRule self.old.endpoint (Act.Stream number act)) }
        ensures call { IfOk result (λ act. stream_call_of act ≡ StreamCall.Work) }
        ensures state { IfOk result (λ act. self.new ≡ end_after self.old (Act.Stream number act)) }
        ensures failure { IfErr result (λ failure. failure ≡ Failure.NoMemory) }
    {
        let step = stream::work(&mut self.endpoint, number)?;
        let seen = seen(alloc, &self.endpoint, number, step)?;
        Ok(StreamAct::Work(seen))
    }

    fn break_link(&mut self, number: u32) -> Result<StreamAct<Bytes<A>>, Failure>
        requires { has_stream self.old.endpoint number ≡ true }
        ensures rule { IfOk result (λ act. EndRule self.old.endpoint (Act.Stream number act)) }
        ensures call { IfOk result (λ act. stream_call_of act ≡ StreamCall.Break) }
        ensures state { IfOk result (λ act. self.new ≡ end_after self.old (Act.Stream number act)) }
        ensures failure { IfErr result (λ failure. failure ≡ Failure.NoMemory) }
    {
        stream::break_link(&mut self.endpoint, number);
        Ok(StreamAct::Break)
    }
}

// Whether the stream must be open at the other end too.
fn needs_peer<A: Allocator>(call: &StreamCall<Bytes<A>>) -> bool
    ensures { result ≡ needs_peer call.now }
{
    match call {
        StreamCall::Deliver { .. } => true,
        StreamCall::Recv { .. }
        | StreamCall::Post { .. }
        | StreamCall::Emit
        | StreamCall::Raw { .. }
        | StreamCall::First { .. }
        | StreamCall::Mulpdu { .. }
        | StreamCall::Accept { .. }
        | StreamCall::Reject { .. }
        | StreamCall::Work
        | StreamCall::Break => false,
    }
}

// The sequence number of the octet at a place, given that of the octet at place 0.
fn number_of(first: u32, place: u64) -> u32
    requires { place ≤ 2 ^ 62 }
    ensures { result ≡ (first + place) % 2 ^ 32 }
{
    ((u64::from(first) + place) % (1 << 32)) as u32
}

// What the trace shows of a step, given the endpoint after it.
fn seen<A: Allocator + Copy>(
    alloc: A,
    endpoint: &Endpoint<A>,
    number: u32,
    step: Step<Octets<A>>,
) -> Result<Seen<Bytes<A>>, AllocError>
    requires { has_stream endpoint.now number ≡ true }
    ensures { IfOk result (λ seen. seen ≡ seen_of endpoint.now.table (stream_at endpoint.now number).start step) }
{
    match step {
        Step::Done(kind) => Ok(Seen::Done(kind)),
        Step::Flushed(kind) => Ok(Seen::Flushed(kind)),
        Step::FlushedRecv(buffer) => Ok(Seen::FlushedRecv(whole(buffer)?)),
        Step::Asked => Ok(Seen::Asked {
            told: peers_word(endpoint, number),
            private: peers_private(alloc, endpoint, number)?,
        }),
        Step::Opened(agreed) => Ok(Seen::Opened {
            agreed,
            told: peers_word(endpoint, number),
            private: peers_private(alloc, endpoint, number)?,
        }),
        Step::Closed(fault) => Ok(Seen::Closed(fault)),
        Step::Placed {
            right,
            stag,
            to,
            len,
        } => Ok(Seen::Placed {
            right,
            stag,
            to,
            octets: standing(alloc, endpoint.memory(), stag, to, len)?,
        }),
        Step::Buffered { msn, mo, len } => Ok(Seen::Buffered { msn, mo, len }),
        Step::Requested { size, stag, to } => Ok(Seen::Requested { size, stag, to }),
        Step::Tried(place) => Ok(Seen::Tried(place)),
        Step::Passed => Ok(Seen::Passed),
        Step::Received {
            buffer,
            len,
            solicited,
            invalidate,
        } => received(buffer, len, solicited, invalidate),
        Step::Terminated(fault) => Ok(Seen::Terminated(fault)),
        Step::Fault(fault) => Ok(Seen::Fault(fault)),
        Step::Idle => Ok(Seen::Idle),
    }
}

// What the trace shows of a message that was received.
fn received<A: Allocator + Copy>(
    buffer: Octets<A>,
    len: usize,
    solicited: bool,
    invalidate: Option<Stag>,
) -> Result<Seen<Bytes<A>>, AllocError>
    ensures { IfOk result (λ seen. seen ≡ Received (take len buffer) solicited invalidate) }
{
    Ok(Seen::Received {
        octets: message_in(buffer, len)?,
        solicited,
        invalidate,
    })
}

// The word of IRD and ORD in the peer's start-up frame.
fn peers_word<A: Allocator>(endpoint: &Endpoint<A>, number: u32) -> Option<EnhancedData>
    requires { has_stream endpoint.now number ≡ true }
    ensures { result ≡ told_at endpoint.now number }
{
    match endpoint.peer_enhanced(number) {
        Ok(told) => told,
        Err(_) => unreachable!(),
    }
}

// The private data of the peer's start-up frame.
fn peers_private<A: Allocator + Copy>(
    alloc: A,
    endpoint: &Endpoint<A>,
    number: u32,
) -> Result<Bytes<A>, AllocError>
    requires { has_stream endpoint.now number ≡ true }
    ensures { IfOk result (λ private. private ≡ private_at endpoint.now number) }
{
    match endpoint.private(number) {
        Ok(private) => Bytes::copy_from_slice(alloc, private),
        Err(_) => unreachable!(),
    }
}
