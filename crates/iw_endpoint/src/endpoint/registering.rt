//! Registering a region that a struct describes.
ghost use Rattle.std.specs.Prelude.{◌≡◌, length, IfSome, IfNone, IfOk, IfErr, IsErr, OnOk, OnErr};
ghost use Rattle.iw_kept.specs.Octets.{octets_of as octets_in, is_kept};
ghost use Rattle.iw_memory.specs.Forms.{octets_refusal};

use super::Endpoint;
use crate::refusal::{CallRefusal, LimitRefusal};
use crate::registration::{Registration, Scope};
use iw_kept::RegionOctets;
use iw_memory::{RegisterRefusal, Rights, Stag};
use std::alloc::Allocator;

impl<A: Allocator> Endpoint<A> {
    ghost use Rattle.iw_endpoint.specs.Endpoint.{stream_at};
    ghost use Rattle.iw_endpoint.specs.KeptRegions.{limited_refusal};
    ghost use Rattle.iw_endpoint.specs.Registering.{stag_by, stag_as, registered_within, registered_for};
    ghost use Rattle.iw_endpoint.specs.Registering.{registration_refusal, registered_as};

    // In a domain, under its next STag or a drawn one.
    fn register_within(
        &mut self,
        pd: u8,
        base: u64,
        octets: RegionOctets<A>,
        rights: Rights,
        drawn: Option<u32>,
    ) -> Result<Stag, (RegisterRefusal, RegionOctets<A>)>
        ensures refused { IfSome (octets_refusal self.old.table pd base octets) (λ refusal. IfErr result (λ e. e.0 ≡ refusal) × IsErr result) }
        ensures memory { IfNone (octets_refusal self.old.table pd base octets) (IfErr result (λ e. e.0 ≡ RegisterRefusal.NoMemory)) }
        ensures back { IfErr result (λ e. e.1 ≡ octets) }
        ensures err { OnErr result (self.new ≡ self.old) }
        ensures stag { IfOk result (λ stag. stag ≡ stag_by self.old.table pd drawn) }
        ensures ok { OnOk result (self.new ≡ registered_within self.old pd base (octets_in octets) (is_kept octets) rights drawn) }
    {
        match drawn {
            Some(drawn) => self.register_octets_drawn(pd, base, octets, rights, drawn),
            None => self.register_octets(pd, base, octets, rights),
        }
    }

    // The same for one stream alone.
    fn register_bound(
        &mut self,
        number: u32,
        base: u64,
        octets: RegionOctets<A>,
        rights: Rights,
        drawn: Option<u32>,
    ) -> Result<Stag, (CallRefusal<LimitRefusal>, RegionOctets<A>)>
        ensures refused { IfSome (limited_refusal self.old number base octets) (λ refusal. IfErr result (λ e. e.0 ≡ refusal) × IsErr result) }
        ensures memory { IfNone (limited_refusal self.old number base octets)
            (IfErr result (λ e. e.0 ≡ CallRefusal.Refused (LimitRefusal.Refused RegisterRefusal.NoMemory))) }
        ensures back { IfErr result (λ e. e.1 ≡ octets) }
        ensures err { OnErr result (self.new ≡ self.old) }
        ensures stag { IfOk result (λ stag. stag ≡ stag_by self.old.table (stream_at self.old number).domain drawn) }
        ensures ok { OnOk result (self.new ≡ registered_for self.old number base (octets_in octets) (is_kept octets) rights drawn) }
    {
        match drawn {
            Some(drawn) => self.register_octets_drawn_for(number, base, octets, rights, drawn),
            None => self.register_octets_for(number, base, octets, rights),
        }
    }

    /// Registers octets as a registration describes it: by that call of [`Endpoint::register_octets`], `register_octets_drawn`,
    /// `register_octets_for` and `register_octets_drawn_for` which its scope and its random bits choose. Of a vector, handed in as
    /// `RegionOctets::Own`, it makes the region that [`Endpoint::register`] and its kin make of it.
    ///
    /// The refusals are those of that call. A domain's reason is told as that of a stream's domain is, in
    /// `CallRefusal::Refused(LimitRefusal::Refused(..))`. An `Err` changes nothing and gives the octets back; `NoMemory` comes only
    /// if no other refusal applies.
    pub fn register_as(
        &mut self,
        registration: Registration,
        octets: RegionOctets<A>,
    ) -> Result<Stag, (CallRefusal<LimitRefusal>, RegionOctets<A>)>
        // The first refusal that applies; if none does, only `NoMemory`.
        ensures refused { IfSome (registration_refusal self.old registration (is_kept octets) (length (octets_in octets)))
            (λ refusal. IfErr result (λ e. e.0 ≡ refusal) × IsErr result) }
        ensures memory { IfNone (registration_refusal self.old registration (is_kept octets) (length (octets_in octets)))
            (IfErr result (λ e. e.0 ≡ CallRefusal.Refused (LimitRefusal.Refused RegisterRefusal.NoMemory))) }
        ensures back { IfErr result (λ e. e.1 ≡ octets) }
        ensures err { OnErr result (self.new ≡ self.old) }

        ensures stag { IfOk result (λ stag. stag ≡ stag_as self.old registration) }
        ensures ok { OnOk result (self.new ≡ registered_as self.old registration (octets_in octets) (is_kept octets)) }
    {
        let Registration {
            scope,
            base,
            rights,
            drawn,
        } = registration;
        match scope {
            Scope::Domain(pd) => match self.register_within(pd, base, octets, rights, drawn) {
                Ok(stag) => Ok(stag),
                Err((refusal, octets)) => Err((
                    CallRefusal::Refused(LimitRefusal::Refused(refusal)),
                    octets,
                )),
            },
            Scope::Stream(number) => self.register_bound(number, base, octets, rights, drawn),
        }
    }
}
