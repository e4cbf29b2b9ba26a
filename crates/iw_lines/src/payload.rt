ghost use Rattle.std.specs.Prelude.{◌≡◌, ◌++◌, ◌∷◌, [], IfOk, IfErr};

use bytes::Bytes;
use std::alloc::{AllocFailed, Global};
use std::collections::LinkedList;
use std::marker::Model;

/// A message's octets, which its stream shares until the message is done or given up, in a place of their own: to put them
/// behind others takes no memory.
#[derive(Drop)]
pub struct Payload {
    list: LinkedList<Bytes>,
}

impl Model for Payload {
    ghost use Rattle.std.specs.Prelude.{◌≡◌, List, ℕ, [], length, slice_index_or};

    ghost Value = { List ℕ };

    ghost view = { λ payload. slice_index_or payload.list 0 [] };

    ghost invariant = { λ payload. length payload.list ≡ 1 };
}

impl Payload {
    /// Takes the octets in. An `Err`, which gives them back, means out of memory.
    pub fn of(alloc: Global, octets: Bytes) -> Result<Payload, Bytes>
        ensures ok { IfOk result (λ payload. payload ≡ octets) }
        ensures back { IfErr result (λ back. back ≡ octets) }
    {
        let mut list = LinkedList::new(alloc);
        match list.push_back(octets) {
            Ok(()) => Ok(Payload { list }),
            Err(AllocFailed { value }) => Err(value),
        }
    }

    /// Gives the octets back.
    pub fn into_octets(self) -> Bytes
        ensures { result ≡ self }
    {
        match self.into_list().pop_front() {
            Some(octets) => octets,
            None => unreachable!(),
        }
    }

    // The list of this one.
    pub(crate) fn into_list(self) -> LinkedList<Bytes>
        ensures { result ≡ self ∷ [] }
    {
        self.list
    }
}
