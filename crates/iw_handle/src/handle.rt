//! The handle itself: what it has is taken out of it by each call, and put back.
ghost use Rattle.std.specs.Prelude.{◌≡◌, Option, None, Some};
ghost use Rattle.std.specs.Option.{option_map};
ghost use Rattle.iw_handle.specs.declared.open_handle.Held.{Held};
ghost use Rattle.iw_handle.specs.Ownership.{handle_owns, state_coded};

use crate::open_handle::Held;
use iw_buffer::Parts;
use std::alloc::Global;
use std::marker::Model;
use std::ptr::null_mut;

/// An endpoint that C keeps, or none. In C it is a struct with one pointer, null if there is no endpoint.
///
/// A type whose values can be read through a `&` cannot be passed to C, nor can a pointer to one. So the pointer is
/// untyped, and each call takes the endpoint out of the handle and puts it back.
#[repr(C)]
pub struct Handle {
    at: *mut u8,
    alloc: Global,
    pub ghost state: { Option Held } by { state_coded },
}

impl Model for Handle {
    ghost also_owns = { λ h. handle_owns h.alloc h.at h.state };
}

impl Handle {
    ghost use Rattle.iw_handle.specs.State.{called_on};

    /// A handle with no endpoint.
    pub fn closed(alloc: Global) -> Handle
        ensures { result.state ≡ None }
    {
        Handle {
            at: null_mut(),
            alloc,
        }
    }

    // Takes out what the handle has.
    pub(crate) fn take(&mut self, alloc: Global) -> Option<Box<Held>>
        ensures held { option_map (λ b. b.value) result ≡ self.old.state }
        ensures closed { self.new.state ≡ None }
    {
        let handle = std::mem::replace(self, Handle::closed(alloc));
        handle.into_held()
    }

    // The same for a call on a stream: a place that is lent there is taken back.
    pub(crate) fn take_on(&mut self, alloc: Global, number: u32) -> Option<Box<Held>>
        ensures held { option_map (λ b. b.value) result ≡ called_on self.old.state number }
        ensures closed { self.new.state ≡ None }
    {
        match self.take(alloc) {
            Some(mut held) => {
                held.lends.take_back(number);
                Some(held)
            }
            None => None,
        }
    }

    // Replaces what the handle has.
    pub(crate) fn put(&mut self, held: Box<Held>)
        ensures { self.new.state ≡ Some held.value }
    {
        *self = Handle::of_parts(Parts::of(held));
    }

    fn into_held(self) -> Option<Box<Held>>
        ensures { option_map (λ b. b.value) result ≡ self.state }
    {
        match self.into_parts() {
            None => None,
            Some(parts) => Some(parts.into_box()),
        }
    }

    fn of_parts(parts: Parts<Held, Global>) -> Handle
        ensures { result.state ≡ Some parts.value }
    {
        let Parts { ptr, alloc } = parts;
        Handle {
            at: ptr as *mut u8,
            alloc,
        }
    }

    fn into_parts(self) -> Option<Parts<Held, Global>>
        ensures { option_map (λ p. p.value) result ≡ self.state }
    {
        let Handle { at, alloc } = self;
        if at.is_null() {
            None
        } else {
            Some(Parts {
                ptr: at as *mut Held,
                alloc,
            })
        }
    }
}

impl Drop for Handle {
    fn drop(self) {
        drop(self.into_held());
    }
}
