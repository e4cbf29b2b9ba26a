ghost use Rattle.std.specs.Prelude.{◌≡◌, ◌<◌, ◌^◌, ℕ, List, [], length};
ghost use Rattle.std.specs.Option.{option_map};
ghost use Rattle.std.specs.Vec.{vec_ptr};
ghost use Rattle.iw_kept.specs.Ownership.{octets_coded, kept_owns, if_any};

use std::marker::Model;
use std::ptr::null_mut;
use std_alloc::vec::{Lodged, lodge};

/// Memory that a program keeps. In C it is a pointer and a length; the pointer may be null if the length is 0.
#[repr(C)]
#[derive(Drop)]
pub struct Kept {
    at: *mut u8,
    len: usize,
    pub ghost octets: { List ℕ } by { octets_coded },
    ghost ok: { len ≡ length octets },
    ghost small: { len < 2 ^ 63 },
}

impl Model for Kept {
    ghost also_owns = { λ k. kept_owns k.at k.len k.octets };
}

impl Kept {
    /// No memory.
    pub fn none() -> Kept
        ensures { result.octets ≡ [] }
    {
        Kept {
            at: null_mut(),
            len: 0,
        }
    }

    /// The octets as a vector that frees nothing, if there are any.
    pub fn into_vec(self) -> Option<Vec<u8, Lodged>>
        ensures { option_map (λ v. v.items) result ≡ if_any self.octets }
    {
        let Kept { at, len } = self;
        if len == 0 {
            return None;
        }
        let octets = unsafe { lodge(at, len, len) };
        Some(octets)
    }

    /// The octets as a vector that frees nothing, which may have none.
    pub fn into_octets(self) -> Vec<u8, Lodged>
        ensures { result.items ≡ self.octets }
    {
        match self.into_vec() {
            Some(octets) => octets,
            None => Vec::new(Lodged),
        }
    }

    /// What such a vector has, for the program.
    pub fn of_vec(octets: Vec<u8, Lodged>) -> Kept
        ensures { result.octets ≡ octets.items }
    {
        let at = octets.as_ptr().cast_mut();
        Kept::dislodged(at, octets)
    }

    fn dislodged(at: *mut u8, octets: Vec<u8, Lodged>) -> Kept
        requires { at ≡ vec_ptr octets }
        ensures { result.octets ≡ octets.items }
    {
        let len = octets.dislodge();
        Kept { at, len }
    }
}
