ghost use Rattle.std.specs.Prelude.{◌≡◌};
ghost use Rattle.std.specs.Int.{w32, to_be_bytes, from_be_bytes};
ghost use Rattle.iw_octets.specs.Stag.{FitsStag, number_of, spelled, stag_at};

use std::fmt;
use std::marker::Model;

/// The name of a region: a domain, a slot of that domain, and a key that tells the uses of the slot apart.
///
/// As a number of 32 bits, and in a header, the domain is the high octet, the slot the next two, the key the low one.
/// `Debug` prints that number in eight hexadecimal digits, as `Stag(01000000)`.
#[derive(Clone, Copy, PartialEq, Eq)]
pub struct Stag {
    number: u32,
}

impl Model for Stag {
    ghost use Rattle.std.proofs.Common.{◌≡◌, arith};
    ghost use Rattle.iw_octets.specs.Stag.{StagFields, number_of, stag_of};

    ghost Value = { StagFields };

    ghost view = { λ a. stag_of a.number };

    ghost inverse = { λ stag. record { number = number_of stag } };

    ghost inverse_ok = { λ a h. let same : number_of (stag_of a.number) ≡ a.number = omega arith in λ i. record { number = same i } };
}

impl Stag {
    /// The STag of a slot of a domain, under a key.
    pub const fn new(domain: u8, slot: u16, key: u8) -> Stag
        ensures { result ≡ record { domain = domain; slot = slot; key = key } }
    {
        Stag {
            number: ((domain as u32) << 24) + ((slot as u32) << 8) + key as u32,
        }
    }

    /// The domain.
    pub fn domain(self) -> u8
        ensures { result ≡ self.domain }
    {
        (self.number >> 24) as u8
    }

    /// The slot of the domain.
    pub fn slot(self) -> u16
        ensures { result ≡ self.slot }
    {
        (self.number >> 8 & 0xffff) as u16
    }

    /// The key.
    pub fn key(self) -> u8
        ensures { result ≡ self.key }
    {
        (self.number & 0xff) as u8
    }

    /// The four octets that a header carries.
    pub fn to_octets(self) -> [u8; 4]
        ensures spelled { result ≡ spelled self }
        ensures number { result ≡ to_be_bytes w32 (number_of self) }
    {
        self.number.to_be_bytes()
    }

    /// For the prover alone: it does nothing. Its clause states that the numbers fit their fields.
    pub fn known(&self)
        ensures { FitsStag self.now }
    {
        let _number = self.number;
    }

    /// The STag in four octets of a header.
    pub fn from_octets(octets: [u8; 4]) -> Stag
        ensures stag { result ≡ stag_at octets 0 }
        ensures number { number_of result ≡ from_be_bytes w32 octets }
    {
        Stag {
            number: u32::from_be_bytes(octets),
        }
    }
}

impl From<u32> for Stag {
    ghost use Rattle.std.specs.Prelude.{◌≡◌};
    ghost use Rattle.iw_octets.specs.Stag.{number_of};

    ghost from_gives = { λ n stag. number_of stag ≡ n };

    fn from(number: u32) -> Stag {
        Stag { number }
    }
}

impl From<Stag> for u32 {
    ghost use Rattle.std.specs.Prelude.{◌≡◌};
    ghost use Rattle.iw_octets.specs.Stag.{number_of};

    ghost from_gives = { λ stag n. n ≡ number_of stag };

    fn from(stag: Stag) -> u32 {
        stag.number
    }
}

impl fmt::Debug for Stag {
    fn fmt<W: fmt::Write>(&self, f: &mut fmt::Formatter<W>) -> fmt::Result {
        write!(f, "Stag({:08x})", self.number)
    }
}
