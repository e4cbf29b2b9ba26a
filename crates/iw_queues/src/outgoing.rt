//! Where the octets of a posted message are: shared, or in memory that a program keeps.
ghost use Rattle.std.specs.Prelude.{◌≡◌, ◌==◌, length};

use bytes::Bytes;
use std::alloc::{Allocator, Global};
use std::marker::Model;
use std_alloc::vec::Lodged;

/// The octets of a posted message.
#[derive(Drop)]
pub struct Outgoing<A: Allocator = Global> {
    form: Form<A>,
}

#[derive(Drop)]
enum Form<A: Allocator> {
    Shared(Bytes<A>),
    // Memory that a program keeps, and leaves alone until the message is handed out. It is not freed.
    Kept(Vec<u8, Lodged>),
}

impl<A: Allocator> Model for Outgoing<A> {
    ghost use Rattle.std.specs.Prelude.{ℕ, List};
    ghost use Rattle.iw_queues.specs.Outgoing.{octets_of};

    ghost Value = { List ℕ };

    ghost view = { λ o. octets_of o.form };
}

impl<A: Allocator> Outgoing<A> {
    pub(crate) fn shared(octets: Bytes<A>) -> Outgoing<A>
        ensures { result ≡ octets }
    {
        Outgoing {
            form: Form::Shared(octets),
        }
    }

    pub(crate) fn kept(octets: Vec<u8, Lodged>) -> Outgoing<A>
        ensures { result ≡ octets.items }
    {
        Outgoing {
            form: Form::Kept(octets),
        }
    }

    #[inline(always)]
    pub fn as_slice(&self) -> &[u8]
        ensures { result.now ≡ self.now }
    {
        match &self.form {
            Form::Shared(octets) => octets.as_slice(),
            Form::Kept(octets) => octets.as_slice(),
        }
    }

    #[inline(always)]
    pub fn len(&self) -> usize
        ensures { result ≡ length self.now }
    {
        self.as_slice().len()
    }

    pub fn is_empty(&self) -> bool
        ensures { result ≡ (length self.now == 0) }
    {
        self.len() == 0
    }
}
