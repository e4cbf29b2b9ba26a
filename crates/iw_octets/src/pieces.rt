ghost use Rattle.std.specs.Prelude.{◌≡◌, ◌<◌, ◌≤◌, ◌+◌, ◌++◌, List, ℕ, length, take};
ghost use Rattle.std.specs.Iterator.{IsFinite, at_most};
ghost use Rattle.iw_octets.specs.Pieces.{AddUpTo, GivesOctets, JoinTo};

use std::marker::Model;

/// Gives octets in pieces, none of them empty, from first to last.
#[derive(Drop)]
pub struct InPieces<'a> {
    octets: &'a [u8],
    size: usize,
}

impl<'a> Model for InPieces<'a> {
    ghost use Rattle.std.specs.Prelude.{List, ℕ, ◌<◌};

    ghost Value = { List ℕ };

    ghost view = { λ pieces. pieces.octets.now };

    ghost invariant = { λ pieces. 0 < pieces.size };
}

impl<'a> InPieces<'a> {
    /// The octets in pieces of `size` octets; the last has what is left.
    pub fn new(octets: &'a [u8], size: usize) -> InPieces<'a>
        requires { 0 < size }
        ensures { result ≡ octets.now }
    {
        InPieces { octets, size }
    }
}

impl<'a> Iterator for InPieces<'a> {
    type Item = &'a [u8];

    ghost next_gives = { GivesOctets };

    ghost remaining = { λ left. at_most (length left) };

    fn next(&mut self) -> Option<&'a [u8]> {
        if self.octets.is_empty() {
            return None;
        }
        let n = self.size.min(self.octets.len());
        let (piece, rest) = self.octets.split_at(n);
        self.octets = rest;
        Some(piece)
    }
}

/// Overwrites the octets at a place.
fn write_at(out: &mut [u8], at: usize, octets: &[u8])
    requires { at + length octets.now ≤ length out.old }
    ensures { take (at + length octets.now) out.new ≡ take at out.old ++ octets.now }
{
    out[at..at + octets.len()].copy_from_slice(octets);
}

/// Copies pieces into `out`, one after the other. Their lengths must add up to that of `out`.
pub fn gather<'a, I: Iterator<Item = &'a [u8]>>(pieces: I, out: &mut [u8])
    requires can { I.can_next pieces }
    requires ends { IsFinite (I.remaining pieces) }
    requires fills { AddUpTo I.next_gives pieces (length out.old) }
    ensures { JoinTo I.next_gives pieces out.new }
{
    let mut at = 0;
    for piece in pieces {
        write_at(out, at, piece);
        at += piece.len();
    }
}
