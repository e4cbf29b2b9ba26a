ghost use Rattle.std.specs.Prelude.{◌≡◌};
ghost use Rattle.iw_lines.specs.Handed.{nothing_handed, told_of, whole};

use iw_octets::Octets;
use std::alloc::Global;

/// A receive buffer that was handed back, whole.
#[derive(Drop)]
pub struct Handed {
    pub buffer: Octets,
    /// How many of its first octets are told: a message's, or all.
    pub len: usize,
}

impl Handed {
    /// Nothing, or what was fetched.
    pub fn nothing(alloc: Global) -> Handed
        ensures { result ≡ nothing_handed }
    {
        Handed {
            buffer: Octets::from_vec(Vec::new(alloc)),
            len: 0,
        }
    }

    /// A buffer, all of which is told.
    pub fn whole(buffer: Octets) -> Handed
        ensures { result ≡ whole buffer }
    {
        let len = buffer.len();
        Handed { buffer, len }
    }

    /// The octets that are told.
    pub fn told(&self) -> &[u8]
        ensures { result.now ≡ told_of self.now }
    {
        let octets = self.buffer.as_slice();
        &octets[..self.len.min(octets.len())]
    }
}
