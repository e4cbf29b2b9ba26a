//! Streams that are opened under the next number, which the endpoint gives.
ghost use Rattle.std.specs.Prelude.{◌≡◌, false, length, Some, IfSome, IfNone, IfOk, IfErr, OnOk, OnErr};
ghost use Rattle.std.specs.Result.{result_err};
ghost use Rattle.iw_stream.specs.Starting.{exceeds_request};

use super::Endpoint;
use crate::refusal::OpenNextRefusal;
use iw_stream::{Config, Role, Stream, exceeds_request};
use std::alloc::Allocator;

impl<A: Allocator> Endpoint<A> {
    ghost use Rattle.iw_endpoint.specs.Endpoint.{next_number, next_refusal, next_shared_refusal, opened_next, opened_shared_next};

    /// The number that [`Endpoint::open_next`] gives next; `None` if none is left.
    pub fn next_number(&self) -> Option<u32>
        ensures { result ≡ next_number self.now }
    {
        self.streams.next_number()
    }

    // The number that a stream is given, or why it is not opened.
    fn number_for(&self, pd: u8, role: Role, config: &Config) -> Result<u32, OpenNextRefusal>
        ensures refused { result_err result ≡ next_refusal self.now (next_number self.now) pd role config.now }
        ensures number { IfOk result (λ number. next_number self.now ≡ Some number) }
        ensures last { IfOk result (λ number. number ≡ length self.now.streams) }
        ensures fits { OnOk result (exceeds_request role config.now ≡ false) }
    {
        if !self.memory.has_domain(pd) {
            return Err(OpenNextRefusal::NoDomain);
        }
        let Some(number) = self.streams.next_number() else {
            return Err(OpenNextRefusal::NumbersSpent);
        };
        if exceeds_request(role, config) {
            return Err(OpenNextRefusal::PrivateTooLong);
        }
        Ok(number)
    }

    // The same of a stream that shares its domain's pool.
    fn number_for_shared(&self, pd: u8, role: Role, config: &Config) -> Result<u32, OpenNextRefusal>
        ensures refused { result_err result ≡ next_shared_refusal self.now (next_number self.now) pd role config.now }
        ensures number { IfOk result (λ number. next_number self.now ≡ Some number) }
        ensures last { IfOk result (λ number. number ≡ length self.now.streams) }
        ensures fits { OnOk result (exceeds_request role config.now ≡ false) }
    {
        if !self.memory.has_domain(pd) {
            return Err(OpenNextRefusal::NoDomain);
        }
        if self.pools.get(pd).is_none() {
            return Err(OpenNextRefusal::NotShared);
        }
        self.number_for(pd, role, config)
    }

    /// Why [`Endpoint::open_next`] refuses to open this stream, if it does for another reason than `NoMemory`.
    pub fn refusal_to_open_next(
        &self,
        pd: u8,
        role: Role,
        config: &Config,
    ) -> Option<OpenNextRefusal>
        ensures { result ≡ next_refusal self.now (next_number self.now) pd role config.now }
    {
        self.number_for(pd, role, config).err()
    }

    /// Why [`Endpoint::open_shared_next`] refuses to open this stream, if it does for another reason than `NoMemory`.
    pub fn refusal_to_open_shared_next(
        &self,
        pd: u8,
        role: Role,
        config: &Config,
    ) -> Option<OpenNextRefusal>
        ensures { result ≡ next_shared_refusal self.now (next_number self.now) pd role config.now }
    {
        self.number_for_shared(pd, role, config).err()
    }

    /// Opens a stream in a domain under the next number, and returns the number. The numbers count from 64 up to
    /// 2^32 - 1, and each is given once. As many streams may be open as memory has room for.
    ///
    /// `NumbersSpent`: no number is left. `PrivateTooLong` comes when that of [`Endpoint::open`] does. An `Err` opens
    /// nothing and gives no number; `NoMemory` comes only if no other refusal applies.
    pub fn open_next(&mut self, pd: u8, role: Role, config: Config) -> Result<u32, OpenNextRefusal>
    where
        A: Copy,
        // The first refusal that applies; if none does, only `NoMemory`.
        ensures refused { IfSome (next_refusal self.old (next_number self.old) pd role config) (λ refusal. result ≡ Err refusal) }
        ensures memory { IfNone (next_refusal self.old (next_number self.old) pd role config) (IfErr result (λ e. e ≡ OpenNextRefusal.NoMemory)) }
        ensures number { IfOk result (λ number. next_number self.old ≡ Some number) }
        ensures ok { OnOk result (self.new ≡ opened_next self.old (next_number self.old) pd role config) }
        ensures err { OnErr result (self.new ≡ self.old) }
    {
        let number = self.number_for(pd, role, &config)?;
        let stream = Stream::new(self.streams.allocator(), pd, role, config);
        match self.put(number, stream) {
            Ok(()) => Ok(number),
            Err(_) => Err(OpenNextRefusal::NoMemory),
        }
    }

    /// As [`Endpoint::open_next`], but the stream shares the domain's pool, as one of [`Endpoint::open_shared`] does.
    /// `NotShared`, if the domain has no pool, comes after `NoDomain` and before the others.
    pub fn open_shared_next(
        &mut self,
        pd: u8,
        role: Role,
        config: Config,
    ) -> Result<u32, OpenNextRefusal>
    where
        A: Copy,
        // The first refusal that applies; if none does, only `NoMemory`.
        ensures refused { IfSome (next_shared_refusal self.old (next_number self.old) pd role config) (λ refusal. result ≡ Err refusal) }
        ensures memory { IfNone (next_shared_refusal self.old (next_number self.old) pd role config) (IfErr result (λ e. e ≡ OpenNextRefusal.NoMemory)) }
        ensures number { IfOk result (λ number. next_number self.old ≡ Some number) }
        ensures ok { OnOk result (self.new ≡ opened_shared_next self.old (next_number self.old) pd role config) }
        ensures err { OnErr result (self.new ≡ self.old) }
    {
        let number = self.number_for_shared(pd, role, &config)?;
        let stream = Stream::new_shared(self.streams.allocator(), pd, role, config);
        match self.put(number, stream) {
            Ok(()) => Ok(number),
            Err(_) => Err(OpenNextRefusal::NoMemory),
        }
    }
}
