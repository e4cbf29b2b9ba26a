ghost use Rattle.std.specs.Prelude.{◌≡◌, ◌+◌, ◌≤◌, ◌↔◌, [], length, nat_eq, IsTrue};
ghost use Rattle.std.specs.Cmp.{partial_equiv_from_equiv};
ghost use Rattle.std.specs.Cmp.Lexicographic.{pointwise, nat_list_eq_equiv};
ghost use Rattle.iw_octets.specs.Octets.{splice};

use std::alloc::{Allocator, Global};
use std::marker::Model;

/// Octets as a value: contracts see the list of them, not their address nor the spare capacity.
#[derive(Drop)]
#[derive_where(Debug)]
pub struct Octets<A: Allocator = Global> {
    items: Vec<u8, A>,
}

impl<A: Allocator> Model for Octets<A> {
    ghost use Rattle.std.specs.Prelude.{List, ℕ};

    ghost Value = { List ℕ };

    ghost view = { λ octets. octets.items.items };
}

impl<A: Allocator> Octets<A> {
    /// Takes a vector over. Nothing is copied.
    pub fn from_vec(items: Vec<u8, A>) -> Octets<A>
        ensures { result ≡ items.items }
    {
        Octets { items }
    }

    /// Gives the vector back. Nothing is copied.
    pub fn into_vec(self) -> Vec<u8, A>
        ensures { result.items ≡ self }
    {
        self.items
    }

    pub fn as_slice(&self) -> &[u8]
        ensures { result.now ≡ self.now }
    {
        self.items.as_slice()
    }

    pub fn len(&self) -> usize
        ensures { result ≡ length self.now }
    {
        self.items.len()
    }

    pub fn is_empty(&self) -> bool
        ensures { IsTrue result ↔ (self.now ≡ []) }
    {
        self.items.is_empty()
    }

    /// Overwrites the octets from a place on. The length stays.
    pub fn write_at(&mut self, at: usize, octets: &[u8])
        requires { at + length octets.now ≤ length self.old }
        ensures { self.new ≡ splice self.old at octets.now }
    {
        let (_, rest) = self.items.as_mut_slice().split_at_mut(at);
        let (place, _) = rest.split_at_mut(octets.len());
        place.copy_from_slice(octets);
    }
}

impl<A: Allocator> PartialEq for Octets<A> {
    ghost eq = { pointwise nat_eq };

    ghost laws = { partial_equiv_from_equiv nat_list_eq_equiv };

    fn eq(&self, other: &Octets<A>) -> bool {
        self.as_slice() == other.as_slice()
    }
}

impl<A: Allocator> Eq for Octets<A> {
    ghost laws = { nat_list_eq_equiv };
}
