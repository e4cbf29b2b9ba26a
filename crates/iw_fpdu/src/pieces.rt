ghost use Rattle.std.specs.Prelude.{◌≡◌, ◌<◌, ◌+◌, ◌++◌, ℕ, length, false, IfSome};
ghost use Rattle.std.specs.Iterator.{at_most};
ghost use Rattle.iw_octets.specs.Pieces.{GivesOctets};
ghost use Rattle.iw_fpdu.specs.Places.{data_place, data_index, in_marker};
ghost use Rattle.iw_fpdu.specs.Reading.{data_at};
ghost use Rattle.iw_fpdu.specs.PiecesOctet.{octet_from};

use crate::layout::{MARKER, SPACING, run_at};
use std::marker::Model;

/// The octets of a ULPDU, lent piece by piece. No piece has octets of a marker.
#[derive(Drop)]
pub struct Pieces<'a> {
    /// Octets of the frame, markers included, from the next octet on.
    rest: &'a [u8],
    /// How many of them come before the next marker, at most `left`.
    run: usize,
    /// How many octets of the ULPDU are left.
    left: usize,
}

impl<'a> Model for Pieces<'a> {
    ghost use Rattle.std.specs.Prelude.{List, ℕ};

    ghost Value = { List ℕ };

    ghost use Rattle.iw_fpdu.specs.PiecesView.{octets_left, CanGive};

    ghost view = { λ a. octets_left a };

    ghost invariant = { λ a. CanGive a };
}

impl<'a> Pieces<'a> {
    /// `left` data octets. The first is the first of `octets`, and has the place `from`.
    pub(crate) fn new(octets: &'a [u8], from: u64, markers: bool, left: usize) -> Pieces<'a>
        requires begins { in_marker markers from ≡ false }
        requires reaches { (k : ℕ) → k < left
            → data_place markers (data_index markers from + k) < from + length octets.now }
        ensures { result ≡ data_at (octet_from from octets.now) markers (data_index markers from) left }
    {
        Pieces {
            rest: octets,
            run: run_at(markers, from, left),
            left,
        }
    }

    /// All the octets as one slice, if there is no marker among them. The contract allows `None` at any time; it costs
    /// only speed.
    #[inline(always)]
    pub fn whole(&self) -> Option<&'a [u8]>
        ensures { IfSome result (λ octets. self.now ≡ octets.now) }
    {
        if self.run < self.left {
            return None;
        }
        let (octets, _) = self.rest.split_at(self.left);
        Some(octets)
    }

    /// The first `k` octets as one slice, if more than `k` come before the next marker, and the octets after them. The
    /// contract allows `None` at any time; it costs only speed.
    #[inline(always)]
    pub fn split_front(&self, k: usize) -> Option<(&'a [u8], Pieces<'a>)>
        ensures { IfSome result (λ parts. (self.now ≡ parts.0.now ++ parts.1) × (length parts.0.now ≡ k)) }
    {
        if self.left < k || self.run <= k {
            return None;
        }
        let (front, rest) = self.rest.split_at(k);
        let pieces = Pieces {
            rest,
            run: self.run - k,
            left: self.left - k,
        };
        Some((front, pieces))
    }
}

impl<'a> Iterator for Pieces<'a> {
    type Item = &'a [u8];

    ghost next_gives = { GivesOctets };

    ghost remaining = { λ left. at_most (length left) };

    fn next(&mut self) -> Option<&'a [u8]> {
        if self.left == 0 {
            return None;
        }
        if self.left <= self.run {
            let (piece, _) = self.rest.split_at(self.left);
            self.left = 0;
            return Some(piece);
        }
        let (piece, marker) = self.rest.split_at(self.run);
        let (_, rest) = marker.split_at(MARKER as usize);
        self.rest = rest;
        self.left -= self.run;
        self.run = (SPACING - MARKER) as usize;
        Some(piece)
    }
}
