//! Pools of receive buffers that streams of a domain share.
ghost use Rattle.std.specs.Prelude.{◌≡◌, ◌⊎◌, None, Some, length, IfSome, IfNone, IfOk, IfErr, IsErr, OnOk, OnErr};
ghost use Rattle.iw_endpoint.specs.Endpoint.{shared, pooled, opened_shared};
ghost use Rattle.iw_handle.specs.Openings.{held_opened, opened_in};
ghost use Rattle.iw_handle.specs.Pools.{refusal_to_share, refusal_to_pool, refusal_to_open_shared};
ghost use Rattle.iw_handle.specs.State.{refusal_in, changed, length_refusal};
ghost use Rattle.iw_handle.specs.Streams.{zeroes};
ghost use Rattle.iw_handle.specs.Words.{role_in, config_of};

use crate::copying::check_length;
use crate::handle::Handle;
use crate::open_handle::Held;
use crate::posting::zeroes;
use crate::refusal::{Refusal, open_shared_reason, pool_reason, share_reason};
use crate::stream_opening::open_shared_lined;
use crate::words::{config_of, role_of};
use iw_endpoint::Endpoint;
use std::alloc::Global;

fn share(endpoint: &mut Endpoint, pd: u8) -> Result<(), Refusal>
    // The first refusal that applies; if none does, only `NoMemory`.
    ensures refused { IfSome (refusal_to_share endpoint.old pd) (λ r. result ≡ Err r) }
    ensures memory { IfNone (refusal_to_share endpoint.old pd) (IfErr result (λ e. e ≡ Refusal.NoMemory)) }
    ensures ok { OnOk result (endpoint.new ≡ shared endpoint.old pd) }
    ensures err { OnErr result (endpoint.new ≡ endpoint.old) }
{
    match endpoint.share(pd) {
        Ok(()) => Ok(()),
        Err(refusal) => Err(share_reason(refusal)),
    }
}

fn post_shared(endpoint: &mut Endpoint, alloc: Global, pd: u8, n: usize) -> Result<(), Refusal>
    // The first refusal that applies, or `NoMemory`.
    ensures refused { IfSome (refusal_to_pool endpoint.old pd n) (λ _. IsErr result) }
    ensures why { IfErr result (λ e. (e ≡ Refusal.NoMemory) ⊎ (refusal_to_pool endpoint.old pd n ≡ Some e)) }
    ensures long { IfSome (length_refusal n) (λ r. result ≡ Err r) }
    ensures ok { OnOk result (endpoint.new ≡ pooled endpoint.old pd (zeroes n)) }
    ensures err { OnErr result (endpoint.new ≡ endpoint.old) }
{
    check_length(n)?;
    let Ok(buffer) = zeroes(alloc, n) else {
        return Err(Refusal::NoMemory);
    };
    match endpoint.post_shared(pd, buffer) {
        Ok(()) => Ok(()),
        Err((refusal, _)) => Err(pool_reason(refusal)),
    }
}

// Opens a stream that shares the domain's pool. Role and options are numbers.
fn open_shared(
    held: &mut Held,
    alloc: Global,
    number: u32,
    pd: u8,
    role: u32,
    options: u32,
    private: &[u8],
) -> Result<(), Refusal>
    // The first refusal that applies; if none does, only `NoMemory`.
    ensures refused { IfSome (refusal_to_open_shared held.old.endpoint number pd role options private.now)
        (λ r. result ≡ Err r) }
    ensures memory { IfNone (refusal_to_open_shared held.old.endpoint number pd role options private.now)
        (IfErr result (λ e. e ≡ Refusal.NoMemory)) }
    ensures ok { OnOk result (held.new ≡ held_opened held.old number
        (λ e. opened_shared e number pd (role_in role) (config_of options private.now))) }
    ensures err { OnErr result (held.new ≡ held.old) }
{
    let role = role_of(role)?;
    let config = config_of(role, options, private)?;
    match open_shared_lined(held, alloc, number, pd, role, config) {
        Ok(()) => Ok(()),
        Err(refusal) => Err(open_shared_reason(refusal)),
    }
}

impl Handle {
    /// Gives the domain an empty pool of receive buffers, which its streams may share ([`Endpoint::share`]). An `Err`
    /// changes nothing; `NoMemory` comes only if no other refusal applies.
    pub fn share(&mut self, alloc: Global, pd: u8) -> Result<(), Refusal>
        ensures refused { IfSome (refusal_in self.old.state (λ e. refusal_to_share e pd)) (λ r. result ≡ Err r) }
        ensures memory { IfNone (refusal_in self.old.state (λ e. refusal_to_share e pd))
            (IfErr result (λ e. e ≡ Refusal.NoMemory)) }
        ensures ok { OnOk result (self.new.state ≡ changed self.old.state (λ e. shared e pd)) }
        ensures err { OnErr result (self.new.state ≡ self.old.state) }
    {
        let Some(mut held) = self.take(alloc) else {
            return Err(Refusal::Closed);
        };
        let done = share(&mut held.endpoint, pd);
        self.put(held);
        done
    }

    /// Posts a receive buffer of `n` zero octets, at most 16,777,216, to the domain's pool, after the others. An `Err`
    /// changes nothing. `NoMemory` may come in place of a refusal of the pool's, since the buffer is allocated first.
    pub fn post_shared(&mut self, alloc: Global, pd: u8, n: usize) -> Result<(), Refusal>
        ensures refused { IfSome (refusal_in self.old.state (λ e. refusal_to_pool e pd n)) (λ _. IsErr result) }
        ensures why { IfErr result
            (λ e. (e ≡ Refusal.NoMemory) ⊎ (refusal_in self.old.state (λ e. refusal_to_pool e pd n) ≡ Some e)) }
        ensures long { IfSome (refusal_in self.old.state (λ e. length_refusal n)) (λ r. result ≡ Err r) }
        ensures ok { OnOk result (self.new.state ≡ changed self.old.state (λ e. pooled e pd (zeroes n))) }
        ensures err { OnErr result (self.new.state ≡ self.old.state) }
    {
        let Some(mut held) = self.take(alloc) else {
            return Err(Refusal::Closed);
        };
        let done = post_shared(&mut held.endpoint, alloc, pd, n);
        self.put(held);
        done
    }

    /// As [`Handle::open_stream`], but the stream takes its receive buffers from its domain's pool
    /// ([`Endpoint::open_shared`]). An `Err` changes nothing; `NoMemory` comes only if no other refusal applies.
    pub fn open_shared(
        &mut self,
        alloc: Global,
        number: u32,
        pd: u8,
        role: u32,
        options: u32,
        private: &[u8],
    ) -> Result<(), Refusal>
        ensures refused { IfSome
            (refusal_in self.old.state (λ e. refusal_to_open_shared e number pd role options private.now))
            (λ r. result ≡ Err r) }
        ensures memory { IfNone
            (refusal_in self.old.state (λ e. refusal_to_open_shared e number pd role options private.now))
            (IfErr result (λ e. e ≡ Refusal.NoMemory)) }
        ensures ok { OnOk result (self.new.state ≡ opened_in self.old.state number
            (λ e. opened_shared e number pd (role_in role) (config_of options private.now))) }
        ensures err { OnErr result (self.new.state ≡ self.old.state) }
    {
        let Some(mut held) = self.take(alloc) else {
            return Err(Refusal::Closed);
        };
        let done = open_shared(&mut held, alloc, number, pd, role, options, private);
        self.put(held);
        done
    }
}
