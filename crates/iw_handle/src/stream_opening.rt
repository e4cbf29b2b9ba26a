//! Streams that are opened and closed, each with its line.
ghost use Rattle.std.specs.Prelude.{◌≡◌, None, Some, length, IfSome, IfNone, IfOk, IfErr, OnOk, OnErr};
ghost use Rattle.std.specs.Result.{result_err};
ghost use Rattle.iw_endpoint.specs.Endpoint.{opened, open_refusal, opened_shared, open_shared_refusal};
ghost use Rattle.iw_endpoint.specs.Endpoint.{next_number, next_refusal, next_shared_refusal, opened_next, opened_shared_next};
ghost use Rattle.iw_handle.specs.Openings.{refusal_to_open_next, refusal_to_open_shared_next, refusal_to_close};
ghost use Rattle.iw_handle.specs.Openings.{held_opened, held_opened_next, opened_next_in, held_closed, closed_in};
ghost use Rattle.iw_handle.specs.State.{refusal_in, told_in};
ghost use Rattle.iw_handle.specs.Words.{role_in, config_of};

use crate::handle::Handle;
use crate::open_handle::Held;
use crate::refusal::{Refusal, close_reason, next_reason};
use crate::words::{config_of, role_of};
use iw_endpoint::{Config, OpenNextRefusal, OpenRefusal, OpenSharedRefusal, Role};
use std::alloc::Global;

// Opens a stream with its line. `NoMemory` comes only if no other refusal applies.
pub(crate) fn open_lined(
    held: &mut Held,
    alloc: Global,
    number: u32,
    pd: u8,
    role: Role,
    config: Config,
) -> Result<(), OpenRefusal>
    ensures refused { IfSome (open_refusal held.old.endpoint number pd role config) (λ refusal. result ≡ Err refusal) }
    ensures memory { IfNone (open_refusal held.old.endpoint number pd role config)
        (IfErr result (λ e. e ≡ OpenRefusal.NoMemory)) }
    ensures ok { OnOk result (held.new ≡ held_opened held.old number (λ e. opened e number pd role config)) }
    ensures err { OnErr result (held.new ≡ held.old) }
{
    if let Some(refusal) = held.endpoint.refusal_to_open(number, pd, role, &config) {
        return Err(refusal);
    }
    let Ok(before) = held.lines.open(alloc, number) else {
        return Err(OpenRefusal::NoMemory);
    };
    match held.endpoint.open(number, pd, role, config) {
        Ok(()) => Ok(()),
        Err(refusal) => {
            held.lines.undo_open(number, before);
            Err(refusal)
        }
    }
}

// The same of a stream that shares its domain's pool.
pub(crate) fn open_shared_lined(
    held: &mut Held,
    alloc: Global,
    number: u32,
    pd: u8,
    role: Role,
    config: Config,
) -> Result<(), OpenSharedRefusal>
    ensures refused { IfSome (open_shared_refusal held.old.endpoint number pd role config)
        (λ refusal. result ≡ Err refusal) }
    ensures memory { IfNone (open_shared_refusal held.old.endpoint number pd role config)
        (IfErr result (λ e. e ≡ OpenSharedRefusal.NoMemory)) }
    ensures ok { OnOk result (held.new ≡ held_opened held.old number (λ e. opened_shared e number pd role config)) }
    ensures err { OnErr result (held.new ≡ held.old) }
{
    if let Some(refusal) = held
        .endpoint
        .refusal_to_open_shared(number, pd, role, &config)
    {
        return Err(refusal);
    }
    let Ok(before) = held.lines.open(alloc, number) else {
        return Err(OpenSharedRefusal::NoMemory);
    };
    match held.endpoint.open_shared(number, pd, role, config) {
        Ok(()) => Ok(()),
        Err(refusal) => {
            held.lines.undo_open(number, before);
            Err(refusal)
        }
    }
}

// Opens a stream with its line under the next number, and tells the number.
fn open_next_lined(
    held: &mut Held,
    alloc: Global,
    pd: u8,
    role: Role,
    config: Config,
) -> Result<u32, OpenNextRefusal>
    ensures refused { IfSome (next_refusal held.old.endpoint (next_number held.old.endpoint) pd role config)
        (λ refusal. result ≡ Err refusal) }
    ensures memory { IfNone (next_refusal held.old.endpoint (next_number held.old.endpoint) pd role config)
        (IfErr result (λ e. e ≡ OpenNextRefusal.NoMemory)) }
    ensures number { IfOk result (λ number. next_number held.old.endpoint ≡ Some number) }
    ensures ok { OnOk result
        (held.new ≡ held_opened_next held.old (λ e. opened_next e (next_number e) pd role config)) }
    ensures err { OnErr result (held.new ≡ held.old) }
{
    if let Some(refusal) = held.endpoint.refusal_to_open_next(pd, role, &config) {
        return Err(refusal);
    }
    let Some(number) = held.endpoint.next_number() else {
        return Err(OpenNextRefusal::NumbersSpent);
    };
    let Ok(before) = held.lines.open(alloc, number) else {
        return Err(OpenNextRefusal::NoMemory);
    };
    match held.endpoint.open_next(pd, role, config) {
        Ok(given) => Ok(given),
        Err(refusal) => {
            held.lines.undo_open(number, before);
            Err(refusal)
        }
    }
}

// The same of a stream that shares its domain's pool.
fn open_shared_next_lined(
    held: &mut Held,
    alloc: Global,
    pd: u8,
    role: Role,
    config: Config,
) -> Result<u32, OpenNextRefusal>
    ensures refused { IfSome (next_shared_refusal held.old.endpoint (next_number held.old.endpoint) pd role config)
        (λ refusal. result ≡ Err refusal) }
    ensures memory { IfNone (next_shared_refusal held.old.endpoint (next_number held.old.endpoint) pd role config)
        (IfErr result (λ e. e ≡ OpenNextRefusal.NoMemory)) }
    ensures number { IfOk result (λ number. next_number held.old.endpoint ≡ Some number) }
    ensures ok { OnOk result
        (held.new ≡ held_opened_next held.old (λ e. opened_shared_next e (next_number e) pd role config)) }
    ensures err { OnErr result (held.new ≡ held.old) }
{
    if let Some(refusal) = held.endpoint.refusal_to_open_shared_next(pd, role, &config) {
        return Err(refusal);
    }
    let Some(number) = held.endpoint.next_number() else {
        return Err(OpenNextRefusal::NumbersSpent);
    };
    let Ok(before) = held.lines.open(alloc, number) else {
        return Err(OpenNextRefusal::NoMemory);
    };
    match held.endpoint.open_shared_next(pd, role, config) {
        Ok(given) => Ok(given),
        Err(refusal) => {
            held.lines.undo_open(number, before);
            Err(refusal)
        }
    }
}

// Role and options are numbers.
fn open_next(
    held: &mut Held,
    alloc: Global,
    pd: u8,
    role: u32,
    options: u32,
    private: &[u8],
) -> Result<u32, Refusal>
    // The first refusal that applies; if none does, only `NoMemory`.
    ensures refused { IfSome (refusal_to_open_next held.old.endpoint pd role options private.now) (λ r. result ≡ Err r) }
    ensures memory { IfNone (refusal_to_open_next held.old.endpoint pd role options private.now)
        (IfErr result (λ e. e ≡ Refusal.NoMemory)) }
    ensures number { IfOk result (λ number. next_number held.old.endpoint ≡ Some number) }
    ensures ok { OnOk result (held.new ≡ held_opened_next held.old
        (λ e. opened_next e (next_number e) pd (role_in role) (config_of options private.now))) }
    ensures err { OnErr result (held.new ≡ held.old) }
{
    let role = role_of(role)?;
    let config = config_of(role, options, private)?;
    match open_next_lined(held, alloc, pd, role, config) {
        Ok(number) => Ok(number),
        Err(refusal) => Err(next_reason(refusal)),
    }
}

// The same of a stream that shares its domain's pool.
fn open_shared_next(
    held: &mut Held,
    alloc: Global,
    pd: u8,
    role: u32,
    options: u32,
    private: &[u8],
) -> Result<u32, Refusal>
    // The first refusal that applies; if none does, only `NoMemory`.
    ensures refused { IfSome (refusal_to_open_shared_next held.old.endpoint pd role options private.now)
        (λ r. result ≡ Err r) }
    ensures memory { IfNone (refusal_to_open_shared_next held.old.endpoint pd role options private.now)
        (IfErr result (λ e. e ≡ Refusal.NoMemory)) }
    ensures number { IfOk result (λ number. next_number held.old.endpoint ≡ Some number) }
    ensures ok { OnOk result (held.new ≡ held_opened_next held.old
        (λ e. opened_shared_next e (next_number e) pd (role_in role) (config_of options private.now))) }
    ensures err { OnErr result (held.new ≡ held.old) }
{
    let role = role_of(role)?;
    let config = config_of(role, options, private)?;
    match open_shared_next_lined(held, alloc, pd, role, config) {
        Ok(number) => Ok(number),
        Err(refusal) => Err(next_reason(refusal)),
    }
}

fn close_stream(held: &mut Held, number: u32) -> Result<(), Refusal>
    ensures refused { result_err result ≡ refusal_to_close held.old.endpoint number }
    ensures ok { OnOk result (held.new ≡ held_closed held.old number) }
    ensures err { OnErr result (held.new ≡ held.old) }
{
    match held.endpoint.close(number) {
        Ok(()) => {
            held.lines.close(number);
            held.lends.take_back(number);
            Ok(())
        }
        Err(refusal) => Err(close_reason(refusal)),
    }
}

impl Handle {
    /// Opens a stream in a domain under the next number, and returns the number
    /// ([`Endpoint::open_next`](iw_endpoint::Endpoint::open_next)). The numbers count from 64 up, and each is given once.
    /// `role`, `options` and `private` are those of [`Handle::open_stream`]. `NumbersSpent`: no number is left. An `Err`
    /// changes nothing, and gives no number; `NoMemory` comes only if no other refusal applies.
    pub fn open_next(
        &mut self,
        alloc: Global,
        pd: u8,
        role: u32,
        options: u32,
        private: &[u8],
    ) -> Result<u32, Refusal>
        ensures refused { IfSome (refusal_in self.old.state (λ e. refusal_to_open_next e pd role options private.now))
            (λ r. result ≡ Err r) }
        ensures memory { IfNone (refusal_in self.old.state (λ e. refusal_to_open_next e pd role options private.now))
            (IfErr result (λ e. e ≡ Refusal.NoMemory)) }
        ensures number { IfOk result (λ number. told_in self.old.state next_number ≡ Some (Some number)) }
        ensures ok { OnOk result (self.new.state ≡ opened_next_in self.old.state
            (λ e. opened_next e (next_number e) pd (role_in role) (config_of options private.now))) }
        ensures err { OnErr result (self.new.state ≡ self.old.state) }
    {
        let Some(mut held) = self.take(alloc) else {
            return Err(Refusal::Closed);
        };
        let done = open_next(&mut held, alloc, pd, role, options, private);
        self.put(held);
        done
    }

    /// As [`Handle::open_next`], but the stream takes its receive buffers from its domain's pool. `NotShared`, if the
    /// domain has none, comes after `NoDomain`.
    pub fn open_shared_next(
        &mut self,
        alloc: Global,
        pd: u8,
        role: u32,
        options: u32,
        private: &[u8],
    ) -> Result<u32, Refusal>
        ensures refused { IfSome
            (refusal_in self.old.state (λ e. refusal_to_open_shared_next e pd role options private.now))
            (λ r. result ≡ Err r) }
        ensures memory { IfNone
            (refusal_in self.old.state (λ e. refusal_to_open_shared_next e pd role options private.now))
            (IfErr result (λ e. e ≡ Refusal.NoMemory)) }
        ensures number { IfOk result (λ number. told_in self.old.state next_number ≡ Some (Some number)) }
        ensures ok { OnOk result (self.new.state ≡ opened_next_in self.old.state
            (λ e. opened_shared_next e (next_number e) pd (role_in role) (config_of options private.now))) }
        ensures err { OnErr result (self.new.state ≡ self.old.state) }
    {
        let Some(mut held) = self.take(alloc) else {
            return Err(Refusal::Closed);
        };
        let done = open_shared_next(&mut held, alloc, pd, role, options, private);
        self.put(held);
        done
    }

    /// Forgets a stream that is at rest, and frees its memory ([`Endpoint::close`](iw_endpoint::Endpoint::close)), and
    /// what it handed back and was not fetched. Its number stays taken. An `Err` changes nothing.
    pub fn close_stream(&mut self, alloc: Global, number: u32) -> Result<(), Refusal>
        ensures refused { result_err result ≡ refusal_in self.old.state (λ e. refusal_to_close e number) }
        ensures ok { OnOk result (self.new.state ≡ closed_in self.old.state number) }
        ensures err { OnErr result (self.new.state ≡ self.old.state) }
    {
        let Some(mut held) = self.take(alloc) else {
            return Err(Refusal::Closed);
        };
        let done = close_stream(&mut held, number);
        self.put(held);
        done
    }
}
