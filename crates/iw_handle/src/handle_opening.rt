//! Calls that open and close a handle, and domains.
ghost use Rattle.std.specs.Prelude.{◌≡◌, ◌⊎◌, None, Some, IfSome, IfNone, IfErr, IfOk, OnOk, OnErr};
ghost use Rattle.std.specs.Option.{option_map};
ghost use Rattle.std.specs.Result.{result_err};
ghost use Rattle.iw_endpoint.specs.Endpoint.{fresh, domain_refusal, added};
ghost use Rattle.iw_handle.specs.Refusals.{domain_reason};
ghost use Rattle.iw_handle.specs.State.{open_with, refusal_in, changed};

use crate::handle::Handle;
use crate::open_handle::Held;
use crate::refusal::{Refusal, domain_reason};
use iw_endpoint::Endpoint;
use iw_lines::{Lends, Lines};
use std::alloc::{AllocError, Global};

// What a new handle has.
fn fresh(alloc: Global) -> Result<Box<Held>, AllocError>
    ensures { IfOk result (λ held. Some held.value ≡ open_with fresh) }
{
    let endpoint = Endpoint::new(alloc);
    let lines = Lines::new(alloc);
    let lends = Lends::new(alloc);
    let held = Held {
        endpoint,
        lines,
        lends,
    };
    let held = Box::new(alloc, held)?;
    Ok(held)
}

impl Handle {
    /// Opens a closed handle with a new endpoint, which has no domain and no stream. An `Err` changes nothing.
    pub fn open(&mut self, alloc: Global) -> Result<(), Refusal>
        ensures refused { IfSome self.old.state (λ _. result_err result ≡ Some Refusal.AlreadyOpen) }
        ensures why { self.old.state ≡ None → IfErr result (λ e. e ≡ Refusal.NoMemory) }
        ensures ok { OnOk result (self.new.state ≡ open_with fresh) }
        ensures err { OnErr result (self.new.state ≡ self.old.state) }
    {
        if let Some(held) = self.take(alloc) {
            self.put(held);
            return Err(Refusal::AlreadyOpen);
        }
        match fresh(alloc) {
            Ok(held) => {
                self.put(held);
                Ok(())
            }
            Err(_) => Err(Refusal::NoMemory),
        }
    }

    /// Closes the handle and frees all that it has. A closed handle stays closed.
    pub fn close(&mut self, alloc: Global)
        ensures { self.new.state ≡ None }
    {
        drop(self.take(alloc));
    }

    /// Adds a protection domain with no region and no stream. `pd` must be 1 to 255. An `Err` changes nothing; `NoMemory`
    /// comes only if no other refusal applies.
    pub fn add_domain(&mut self, alloc: Global, pd: u8) -> Result<(), Refusal>
        ensures refused { IfSome (refusal_in self.old.state (λ e. option_map domain_reason (domain_refusal e pd)))
            (λ r. result ≡ Err r) }
        ensures memory { IfNone (refusal_in self.old.state (λ e. option_map domain_reason (domain_refusal e pd)))
            (IfErr result (λ e. e ≡ Refusal.NoMemory)) }
        ensures ok { OnOk result (self.new.state ≡ changed self.old.state (λ e. added e pd)) }
        ensures err { OnErr result (self.new.state ≡ self.old.state) }
    {
        let Some(mut held) = self.take(alloc) else {
            return Err(Refusal::Closed);
        };
        let done = held.endpoint.add_domain(pd);
        self.put(held);
        match done {
            Ok(()) => Ok(()),
            Err(refusal) => Err(domain_reason(refusal)),
        }
    }
}
