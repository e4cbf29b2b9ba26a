//! Calls at an end that serves any number of connections.

ghost use Rattle.std.specs.Prelude.{◌≡◌, ◌≢◌, true, false, length, unwrap_or, IfOk, IfErr};
ghost use Rattle.std.specs.Result.{result_map_both};
ghost use Rattle.iw_memory.specs.Table.{next_stag};
ghost use Rattle.iw_endpoint.specs.declared.refusal.CallRefusal.{CallRefusal};
ghost use Rattle.iw_events.specs.Servers.{server_call_of};
ghost use Rattle.iw_events.specs.declared.server.ServerCall.{ServerCall};
ghost use Rattle.iw_events.specs.declared.call.Call.{Call};
ghost use Rattle.iw_endpoint.specs.Endpoint.{has_stream, stream_at, next_number, next_refusal, next_shared_refusal, limit_refusal, rest_refusal};
ghost use Rattle.iw_endpoint.specs.Isolation.{after, answer_or};
ghost use Rattle.iw_endpoint.specs.Isolation as calls;

use crate::fault::Failure;
use crate::host::{Host, config_for};
use crate::wire::Wire;
use bytes::Bytes;
use iw_endpoint::{CallRefusal, Endpoint, LimitRefusal, NotAtRest, OpenNextRefusal};
use iw_events::{Call, Options, ServerAct, ServerCall, StreamCall};
use iw_memory::{RegisterRefusal, Rights, Stag};
use iw_stream::{Config, Role};
use std::alloc::Allocator;

impl<A: Allocator + Copy> Host<A> {
    ghost use Rattle.iw_laws.specs.Bounds.{IsShortEnd, LacksStream, AsksTooMuch};
    ghost use Rattle.iw_laws.specs.Servers.{ServerEndRule, ServerPeerRule, ServerRule, server_after};
    ghost use Rattle.iw_laws.specs.ServerStops.{LacksServerStream, AsksServerTooMuch};

    /// Makes a call of a server at this end. `peer` is the other end.
    pub(crate) fn serve(
        &mut self,
        alloc: A,
        peer: &Host<A>,
        call: &ServerCall<Bytes<A>>,
    ) -> Result<ServerAct<Bytes<A>>, Failure>
        requires short { IsShortEnd self.old }
        requires peer { IsShortEnd peer.now }
        ensures rule { IfOk result (λ act. ServerEndRule self.old act) }
        ensures peer { IfOk result (λ act. ServerPeerRule (λ n. n) (λ n. n) peer.now act) }
        ensures call { IfOk result (λ act. server_call_of act ≡ Some call.now) }
        ensures state { IfOk result (λ act. self.new ≡ server_after self.old act) }
        ensures no_stream { result ≡ Err Failure.NoSuchStream → LacksServerStream self.old peer.now call.now }
        ensures not_sent { result ≡ Err Failure.NotSent → AsksServerTooMuch self.old peer.now call.now }
    {
        match call {
            ServerCall::Plain(call) => self.serve_plain(alloc, peer, call),
            ServerCall::Stream { stream, call } => self.serve_stream(alloc, peer, *stream, call),
            ServerCall::OpenNext {
                pd,
                role,
                options,
                private,
            } => self.open_next(alloc, *pd, *role, *options, private),
            ServerCall::OpenSharedNext {
                pd,
                role,
                options,
                private,
            } => self.open_shared_next(alloc, *pd, *role, *options, private),
            ServerCall::RegisterFor {
                stream,
                base,
                rights,
                octets,
            } => self.register_for(alloc, *stream, *base, *rights, octets),
            ServerCall::Close { stream } => self.close(*stream),
        }
    }

    #[tactic(auto, using(crate::proofs::Served::plain_peer))]
    fn serve_plain(
        &mut self,
        alloc: A,
        peer: &Host<A>,
        call: &Call<Bytes<A>>,
    ) -> Result<ServerAct<Bytes<A>>, Failure>
        requires short { IsShortEnd self.old }
        requires peer { IsShortEnd peer.now }
        ensures rule { IfOk result (λ act. ServerEndRule self.old act) }
        ensures peer { IfOk result (λ act. ServerPeerRule (λ n. n) (λ n. n) peer.now act) }
        ensures call { IfOk result (λ act. server_call_of act ≡ Some (ServerCall.Plain call.now)) }
        ensures state { IfOk result (λ act. self.new ≡ server_after self.old act) }
        ensures no_stream { result ≡ Err Failure.NoSuchStream → LacksStream self.old peer.now call.now }
        ensures not_sent { result ≡ Err Failure.NotSent → AsksTooMuch self.old peer.now call.now }
    {
        let act = self.act(alloc, peer, call)?;
        Ok(ServerAct::Plain(act))
    }

    #[tactic(auto, using(crate::proofs::Served::plain_peer))]
    fn serve_stream(
        &mut self,
        alloc: A,
        peer: &Host<A>,
        number: u32,
        call: &StreamCall<Bytes<A>>,
    ) -> Result<ServerAct<Bytes<A>>, Failure>
        requires short { IsShortEnd self.old }
        requires peer { IsShortEnd peer.now }
        ensures rule { IfOk result (λ act. ServerEndRule self.old act) }
        ensures peer { IfOk result (λ act. ServerPeerRule (λ n. n) (λ n. n) peer.now act) }
        ensures call { IfOk result (λ act. server_call_of act ≡ Some (ServerCall.Stream number call.now)) }
        ensures state { IfOk result (λ act. self.new ≡ server_after self.old act) }
        ensures no_stream { result ≡ Err Failure.NoSuchStream
            → LacksStream self.old peer.now (Call.Stream number call.now) }
        ensures not_sent { result ≡ Err Failure.NotSent → AsksTooMuch self.old peer.now (Call.Stream number call.now) }
    {
        let act = self.act_on(alloc, peer, number, call)?;
        Ok(ServerAct::Stream {
            stream: number,
            act,
        })
    }

    fn open_next(
        &mut self,
        alloc: A,
        pd: u8,
        role: Role,
        options: Options,
        private: &Bytes<A>,
    ) -> Result<ServerAct<Bytes<A>>, Failure>
        ensures rule { IfOk result (λ act. ServerEndRule self.old act) }
        ensures call { IfOk result (λ act. server_call_of act
            ≡ Some (ServerCall.OpenNext pd role options private.now)) }
        ensures state { IfOk result (λ act. self.new ≡ server_after self.old act) }
        ensures failure { IfErr result (λ failure. failure ≡ Failure.NoMemory) }
    {
        let copy = private.clone()?;
        let config = config_for(options, private.as_slice());
        let answer = open_next(&mut self.endpoint, pd, role, config)?;
        if answer.is_ok() {
            self.wires.push(Wire::new(alloc))?;
        }
        Ok(ServerAct::OpenNext {
            pd,
            role,
            options,
            private: copy,
            answer,
        })
    }

    fn open_shared_next(
        &mut self,
        alloc: A,
        pd: u8,
        role: Role,
        options: Options,
        private: &Bytes<A>,
    ) -> Result<ServerAct<Bytes<A>>, Failure>
        ensures rule { IfOk result (λ act. ServerEndRule self.old act) }
        ensures call { IfOk result (λ act. server_call_of act
            ≡ Some (ServerCall.OpenSharedNext pd role options private.now)) }
        ensures state { IfOk result (λ act. self.new ≡ server_after self.old act) }
        ensures failure { IfErr result (λ failure. failure ≡ Failure.NoMemory) }
    {
        let copy = private.clone()?;
        let config = config_for(options, private.as_slice());
        let answer = open_shared_next(&mut self.endpoint, pd, role, config)?;
        if answer.is_ok() {
            self.wires.push(Wire::new(alloc))?;
        }
        Ok(ServerAct::OpenSharedNext {
            pd,
            role,
            options,
            private: copy,
            answer,
        })
    }

    fn register_for(
        &mut self,
        alloc: A,
        number: u32,
        base: u64,
        rights: Rights,
        octets: &Bytes<A>,
    ) -> Result<ServerAct<Bytes<A>>, Failure>
        ensures rule { IfOk result (λ act. ServerEndRule self.old act) }
        ensures call { IfOk result (λ act. server_call_of act
            ≡ Some (ServerCall.RegisterFor number base rights octets.now)) }
        ensures state { IfOk result (λ act. self.new ≡ server_after self.old act) }
        ensures no_stream { result ≡ Err Failure.NoSuchStream → has_stream self.old.endpoint number ≡ false }
        ensures sent { result ≢ Err Failure.NotSent }
    {
        let copy = Vec::from_slice(alloc, octets.as_slice())?;
        let shown = octets.clone()?;
        let answer = register_for(&mut self.endpoint, number, base, copy, rights)?;
        Ok(ServerAct::RegisterFor {
            stream: number,
            base,
            rights,
            octets: shown,
            answer,
        })
    }

    fn close(&mut self, number: u32) -> Result<ServerAct<Bytes<A>>, Failure>
        ensures rule { IfOk result (λ act. ServerEndRule self.old act) }
        ensures call { IfOk result (λ act. server_call_of act ≡ Some (ServerCall.Close number)) }
        ensures state { IfOk result (λ act. self.new ≡ server_after self.old act) }
        ensures no_stream { IfErr result (λ failure. has_stream self.old.endpoint number ≡ false) }
        ensures failure { IfErr result (λ failure. failure ≡ Failure.NoSuchStream) }
    {
        let refused = close(&mut self.endpoint, number)?;
        Ok(ServerAct::Close {
            stream: number,
            refused,
        })
    }
}

// Opens a stream under the next number: returns the number, or why not.
fn open_next<A: Allocator + Copy>(
    endpoint: &mut Endpoint<A>,
    pd: u8,
    role: Role,
    config: Config,
) -> Result<Result<u32, OpenNextRefusal>, Failure>
    ensures rule { IfOk result (λ answer. answer
        ≡ answer_or (next_refusal endpoint.old (next_number endpoint.old) pd role config)
        (unwrap_or (next_number endpoint.old) 0)) }
    ensures state { IfOk result (λ answer. endpoint.new
        ≡ after endpoint.old (calls.OpenNext (next_number endpoint.old) pd role config)) }
    ensures failure { IfErr result (λ failure. failure ≡ Failure.NoMemory) }
{
    match endpoint.open_next(pd, role, config) {
        Ok(number) => Ok(Ok(number)),
        Err(OpenNextRefusal::NoMemory) => Err(Failure::NoMemory),
        Err(refusal) => Ok(Err(refusal)),
    }
}

// The same of a stream that shares its domain's pool.
fn open_shared_next<A: Allocator + Copy>(
    endpoint: &mut Endpoint<A>,
    pd: u8,
    role: Role,
    config: Config,
) -> Result<Result<u32, OpenNextRefusal>, Failure>
    ensures rule { IfOk result (λ answer. answer
        ≡ answer_or (next_shared_refusal endpoint.old (next_number endpoint.old) pd role config)
        (unwrap_or (next_number endpoint.old) 0)) }
    ensures state { IfOk result (λ answer. endpoint.new
        ≡ after endpoint.old (calls.OpenSharedNext (next_number endpoint.old) pd role config)) }
    ensures failure { IfErr result (λ failure. failure ≡ Failure.NoMemory) }
{
    match endpoint.open_shared_next(pd, role, config) {
        Ok(number) => Ok(Ok(number)),
        Err(OpenNextRefusal::NoMemory) => Err(Failure::NoMemory),
        Err(refusal) => Ok(Err(refusal)),
    }
}

// Registers octets for one stream alone: returns the STag, or why not.
fn register_for<A: Allocator>(
    endpoint: &mut Endpoint<A>,
    number: u32,
    base: u64,
    octets: Vec<u8, A>,
    rights: Rights,
) -> Result<Result<Stag, LimitRefusal>, Failure>
    ensures there { IfOk result (λ answer. has_stream endpoint.old number ≡ true) }
    ensures rule { IfOk result (λ answer. result_map_both (λ stag. stag) CallRefusal.Refused answer
        ≡ answer_or (limit_refusal endpoint.old number base (length octets.items))
        (next_stag endpoint.old.table (stream_at endpoint.old number).domain)) }
    ensures state { IfOk result (λ answer. endpoint.new
        ≡ after endpoint.old (calls.AtStream number (calls.RegisterFor base octets.items rights))) }
    ensures no_stream { result ≡ Err Failure.NoSuchStream → has_stream endpoint.old number ≡ false }
    ensures sent { result ≢ Err Failure.NotSent }
{
    match endpoint.register_for(number, base, octets, rights) {
        Ok(stag) => Ok(Ok(stag)),
        Err((CallRefusal::Refused(LimitRefusal::Refused(RegisterRefusal::NoMemory)), _)) => {
            Err(Failure::NoMemory)
        }
        Err((CallRefusal::Refused(refusal), _)) => Ok(Err(refusal)),
        Err((CallRefusal::NoSuchStream, _)) => Err(Failure::NoSuchStream),
    }
}

// Forgets a stream: returns why not, if it is refused.
fn close<A: Allocator>(
    endpoint: &mut Endpoint<A>,
    number: u32,
) -> Result<Option<NotAtRest>, Failure>
    ensures there { IfOk result (λ refused. has_stream endpoint.old number ≡ true) }
    ensures rule { IfOk result (λ refused. refused ≡ rest_refusal (stream_at endpoint.old number)) }
    ensures state { IfOk result (λ refused. endpoint.new ≡ after endpoint.old (calls.AtStream number calls.Close)) }
    ensures no_stream { IfErr result (λ failure. has_stream endpoint.old number ≡ false) }
    ensures failure { IfErr result (λ failure. failure ≡ Failure.NoSuchStream) }
{
    match endpoint.close(number) {
        Ok(()) => Ok(None),
        Err(CallRefusal::Refused(refusal)) => Ok(Some(refusal)),
        Err(CallRefusal::NoSuchStream) => Err(Failure::NoSuchStream),
    }
}
