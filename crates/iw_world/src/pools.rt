//! The pools of receive buffers of an end, and the streams that share them.

ghost use Rattle.std.specs.Prelude.{◌≡◌, IfOk, IfErr};
ghost use Rattle.iw_events.specs.Events.{call_of};
ghost use Rattle.iw_endpoint.specs.Endpoint.{share_refusal, pool_refusal, open_shared_refusal};
ghost use Rattle.iw_endpoint.specs.Isolation.{after};
ghost use Rattle.iw_endpoint.specs.Isolation as calls;

use crate::fault::Failure;
use crate::host::{Host, config_for};
use bytes::Bytes;
use iw_endpoint::{Endpoint, OpenSharedRefusal, PoolRefusal, ShareRefusal};
use iw_events::{Act, Call, Options};
use iw_stream::{Config, Role};
use std::alloc::Allocator;

impl<A: Allocator + Copy> Host<A> {
    ghost use Rattle.iw_laws.specs.Rules.{end_after, EndRule};

    pub(crate) fn share(&mut self, pd: u8) -> Result<Act<Bytes<A>>, Failure>
        ensures rule { IfOk result (λ act. EndRule self.old.endpoint act) }
        ensures call { IfOk result (λ act. call_of act ≡ Call.Share pd) }
        ensures state { IfOk result (λ act. self.new ≡ end_after self.old act) }
        ensures failure { IfErr result (λ failure. failure ≡ Failure.NoMemory) }
    {
        let refused = share(&mut self.endpoint, pd)?;
        Ok(Act::Share { pd, refused })
    }

    pub(crate) fn pool(&mut self, alloc: A, pd: u8, len: u32) -> Result<Act<Bytes<A>>, Failure>
        ensures rule { IfOk result (λ act. EndRule self.old.endpoint act) }
        ensures call { IfOk result (λ act. call_of act ≡ Call.Pool pd len) }
        ensures state { IfOk result (λ act. self.new ≡ end_after self.old act) }
        ensures failure { IfErr result (λ failure. failure ≡ Failure.NoMemory) }
    {
        let buffer = vec![in alloc; 0; len as usize]?;
        let refused = post_shared(&mut self.endpoint, pd, buffer)?;
        Ok(Act::Pool { pd, len, refused })
    }

    pub(crate) fn unpool(&mut self, pd: u8) -> Result<Act<Bytes<A>>, Failure>
        ensures rule { IfOk result (λ act. EndRule self.old.endpoint act) }
        ensures call { IfOk result (λ act. call_of act ≡ Call.Unpool pd) }
        ensures state { IfOk result (λ act. self.new ≡ end_after self.old act) }
        ensures failure { IfErr result (λ failure. failure ≡ Failure.NoMemory) }
    {
        match self.endpoint.take_shared(pd) {
            Ok(Some(buffer)) => {
                let octets = Bytes::from_vec(buffer)?;
                Ok(Act::Unpool {
                    pd,
                    answer: Ok(Some(octets)),
                })
            }
            Ok(None) => Ok(Act::Unpool {
                pd,
                answer: Ok(None),
            }),
            Err(refusal) => Ok(Act::Unpool {
                pd,
                answer: Err(refusal),
            }),
        }
    }

    pub(crate) fn open_shared(
        &mut self,
        number: u8,
        pd: u8,
        role: Role,
        options: Options,
        private: &Bytes<A>,
    ) -> Result<Act<Bytes<A>>, Failure>
        ensures rule { IfOk result (λ act. EndRule self.old.endpoint act) }
        ensures call { IfOk result (λ act. call_of act ≡ Call.OpenShared number pd role options private.now) }
        ensures state { IfOk result (λ act. self.new ≡ end_after self.old act) }
        ensures failure { IfErr result (λ failure. failure ≡ Failure.NoMemory) }
    {
        let copy = private.clone()?;
        let config = config_for(options, private.as_slice());
        let refused = open_shared(&mut self.endpoint, number, pd, role, config)?;
        Ok(Act::OpenShared {
            stream: number,
            pd,
            role,
            options,
            private: copy,
            refused,
        })
    }
}

// Gives the domain a pool: returns why not, if it is refused.
fn share<A: Allocator + Copy>(
    endpoint: &mut Endpoint<A>,
    pd: u8,
) -> Result<Option<ShareRefusal>, Failure>
    ensures rule { IfOk result (λ refused. refused ≡ share_refusal endpoint.old pd) }
    ensures state { IfOk result (λ refused. endpoint.new ≡ after endpoint.old (calls.Share pd)) }
    ensures failure { IfErr result (λ failure. failure ≡ Failure.NoMemory) }
{
    match endpoint.share(pd) {
        Ok(()) => Ok(None),
        Err(ShareRefusal::NoMemory) => Err(Failure::NoMemory),
        Err(refusal) => Ok(Some(refusal)),
    }
}

// Posts a buffer to the domain's pool: returns why not, if it is refused.
fn post_shared<A: Allocator>(
    endpoint: &mut Endpoint<A>,
    pd: u8,
    buffer: Vec<u8, A>,
) -> Result<Option<PoolRefusal>, Failure>
    ensures rule { IfOk result (λ refused. refused ≡ pool_refusal endpoint.old pd) }
    ensures state { IfOk result (λ refused. endpoint.new ≡ after endpoint.old (calls.PostShared pd buffer.items)) }
    ensures failure { IfErr result (λ failure. failure ≡ Failure.NoMemory) }
{
    match endpoint.post_shared(pd, buffer) {
        Ok(()) => Ok(None),
        Err((PoolRefusal::NoMemory, _)) => Err(Failure::NoMemory),
        Err((refusal, _)) => Ok(Some(refusal)),
    }
}

// Opens a stream that shares its domain's pool: returns why not, if it is refused.
fn open_shared<A: Allocator + Copy>(
    endpoint: &mut Endpoint<A>,
    number: u8,
    pd: u8,
    role: Role,
    config: Config,
) -> Result<Option<OpenSharedRefusal>, Failure>
    ensures rule { IfOk result (λ refused. refused ≡ open_shared_refusal endpoint.old number pd role config) }
    ensures state { IfOk result (λ refused. endpoint.new
        ≡ after endpoint.old (calls.OpenShared number pd role config)) }
    ensures failure { IfErr result (λ failure. failure ≡ Failure.NoMemory) }
{
    match endpoint.open_shared(u32::from(number), pd, role, config) {
        Ok(()) => Ok(None),
        Err(OpenSharedRefusal::NoMemory) => Err(Failure::NoMemory),
        Err(refusal) => Ok(Some(refusal)),
    }
}
