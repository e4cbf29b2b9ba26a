ghost use Rattle.std.specs.Prelude.{◌≡◌, ◌≤◌, Option, None, Some, List, ℕ, IfSome, vec_capacity};
ghost use Rattle.std.specs.Option.{option_map};
ghost use Rattle.iw_buffer.specs.Ownership.{buffer_owns, state_coded, room_coded};

use crate::contents::Contents;
use crate::lent::Lent;
use crate::parts::Parts;
use std::alloc::Global;
use std::marker::Model;
use std::ptr::null_mut;

/// Octets in a block that C keeps, or none. In C it is a struct of one pointer, null if there is no buffer.
///
/// A type whose values can be read through a `&` does not cross to C, nor does a pointer to one. So the pointer says
/// nothing of what it leads to, and each call takes that out of the buffer and puts it back.
#[repr(C)]
pub struct Buffer {
    at: *mut u8,
    alloc: Global,
    pub ghost state: { Option (List ℕ) } by { state_coded },
    // How many octets there may be before a call that puts some behind asks for memory.
    pub ghost room: { ℕ } by { room_coded },
}

impl Model for Buffer {
    ghost also_owns = { λ b. buffer_owns b.alloc b.at b.state b.room };
}

impl Buffer {
    /// No buffer.
    pub fn none(alloc: Global) -> Buffer
        ensures { result.state ≡ None }
    {
        Buffer {
            at: null_mut(),
            alloc,
        }
    }

    /// Takes out what there is, for a call that puts it back: then there is no buffer.
    pub fn take(&mut self, alloc: Global) -> Option<Box<Contents>>
        ensures contents { option_map (λ b. b.value.octets) result ≡ self.old.state }
        ensures room { IfSome result (λ b. b.value.room ≡ self.old.room) }
        ensures none { self.new.state ≡ None }
    {
        let buffer = std::mem::replace(self, Buffer::none(alloc));
        buffer.into_contents()
    }

    /// Puts this in. What was there goes.
    pub fn put(&mut self, contents: Box<Contents>)
        ensures octets { self.new.state ≡ Some contents.value.octets }
        ensures room { self.new.room ≡ contents.value.room }
    {
        *self = Buffer::of_parts(Parts::of(contents));
    }

    /// Takes out what there is, with its octets as a vector ([`Contents::into_vec`]), for a call that puts it back: then there is
    /// no buffer.
    pub fn take_vec(&mut self, alloc: Global) -> Option<Lent>
        ensures octets { option_map (λ lent. lent.octets.items) result ≡ self.old.state }
        ensures room { IfSome result (λ lent. self.old.room ≤ vec_capacity lent.octets) }
        ensures none { self.new.state ≡ None }
    {
        match self.take(alloc) {
            None => None,
            Some(mut block) => {
                let octets = block.take_vec(alloc);
                Some(Lent { octets, block })
            }
        }
    }

    /// Puts back what was taken out so. What was there goes.
    pub fn put_vec(&mut self, lent: Lent)
        ensures octets { self.new.state ≡ Some lent.octets.items }
        ensures room { self.new.room ≡ vec_capacity lent.octets }
    {
        let Lent { octets, mut block } = lent;
        block.set(octets);
        self.put(block);
    }

    fn into_contents(self) -> Option<Box<Contents>>
        ensures octets { option_map (λ b. b.value.octets) result ≡ self.state }
        ensures room { IfSome result (λ b. b.value.room ≡ self.room) }
    {
        match self.into_parts() {
            None => None,
            Some(parts) => Some(parts.into_box()),
        }
    }

    fn of_parts(parts: Parts<Contents, Global>) -> Buffer
        ensures { (result.state ≡ Some parts.value.octets) × (result.room ≡ parts.value.room) }
    {
        let Parts { ptr, alloc } = parts;
        Buffer {
            at: ptr as *mut u8,
            alloc,
        }
    }

    fn into_parts(self) -> Option<Parts<Contents, Global>>
        ensures { (option_map (λ p. p.value.octets) result ≡ self.state) × IfSome result (λ p. p.value.room ≡ self.room) }
    {
        let Buffer { at, alloc } = self;
        if at.is_null() {
            None
        } else {
            Some(Parts {
                ptr: at as *mut Contents,
                alloc,
            })
        }
    }
}

impl Drop for Buffer {
    fn drop(self) {
        drop(self.into_contents());
    }
}
