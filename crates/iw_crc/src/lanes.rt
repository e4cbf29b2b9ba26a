//! Octets are folded away sixteen at a time: an octet stands for what the two look-ups of its halves give 16, 32, 64 and
//! 96 octets further on. `all_tell` of proofs/Sixteens.antt computes the tables below for each octet.
ghost use Rattle.std.specs.Prelude.{◌≡◌, ◌<◌, ◌≤◌, ◌+◌, ◌*◌, ◌++◌, ℕ, map, length, take, replicate, slice_index};
ghost use Rattle.std.specs.Int.{w32, to_le_bytes};
ghost use Rattle.iw_crc.specs.Crc.{after_octets};
ghost use Rattle.iw_crc.specs.Lanes.{moved};

use crate::fold::put_front;
use std::simd::prelude::*;

/// What an octet's lower half, 0 to 15, is 16 octets further on.
const LOW_16: [u8; 16] = [
    0, 229, 126, 155, 105, 140, 23, 242, 149, 112, 235, 14, 252, 25, 130, 103,
];

/// What its upper half is 16 octets further on.
const HIGH_16: [u8; 16] = [
    0, 158, 102, 248, 101, 251, 3, 157, 36, 186, 66, 220, 65, 223, 39, 185,
];

/// What an octet's lower half, 0 to 15, is 32 octets further on.
const LOW_32: [u8; 16] = [
    0, 7, 82, 85, 214, 209, 132, 131, 95, 88, 13, 10, 137, 142, 219, 220,
];

/// What its upper half is 32 octets further on.
const HIGH_32: [u8; 16] = [
    0, 226, 65, 163, 168, 74, 233, 11, 137, 107, 200, 42, 33, 195, 96, 130,
];

/// What an octet's lower half, 0 to 15, is 64 octets further on.
const LOW_64: [u8; 16] = [
    0, 93, 93, 0, 119, 42, 42, 119, 26, 71, 71, 26, 109, 48, 48, 109,
];

/// What its upper half is 64 octets further on.
const HIGH_64: [u8; 16] = [
    0, 211, 230, 53, 159, 76, 121, 170, 153, 74, 127, 172, 6, 213, 224, 51,
];

/// What an octet's lower half, 0 to 15, is 96 octets further on.
const LOW_96: [u8; 16] = [
    0, 225, 200, 41, 23, 246, 223, 62, 252, 29, 52, 213, 235, 10, 35, 194,
];

/// What its upper half is 96 octets further on.
const HIGH_96: [u8; 16] = [
    0, 242, 0, 242, 60, 206, 60, 206, 150, 100, 150, 100, 170, 88, 170, 88,
];

/// Each octet, as it stands further on.
#[inline(always)]
fn moved(octets: u8x16, low: [u8; 16], high: [u8; 16]) -> u8x16
    ensures { result ≡ map (moved low high) octets }
{
    let by_low = u8x16::from_array(low).swizzle_dyn(octets & u8x16::splat(15));
    let by_high = u8x16::from_array(high).swizzle_dyn(octets >> u8x16::splat(4));
    by_low ^ by_high
}

/// The vector that adds a remainder to the first four octets.
fn opened(remainder: u32) -> u8x16
    ensures { (length result ≡ 16) × (result ≡ take 16 (to_le_bytes w32 remainder ++ replicate 12 0)) }
{
    let mut octets = [0; 16];
    put_front(&mut octets, &remainder.to_le_bytes());
    u8x16::from_array(octets)
}

/// Writes a vector.
#[inline(always)]
fn put(out: &mut [u8], at: usize, octets: u8x16)
    requires { at + 16 ≤ length out.old }
    ensures { (take (at + 16) out.new ≡ take at out.old ++ octets) × (length out.new ≡ length out.old) }
{
    octets.copy_to_slice(&mut out[at..]);
}

/// The last 96 octets, with what those before them, sixteen a step, add to them.
pub(crate) fn shortened(remainder: u32, octets: &[u8], steps: usize) -> [u8; 96]
    requires { 16 * steps + 96 ≤ length octets.now }
    ensures { after_octets 0 result ≡ after_octets remainder (take (16 * steps + 96) octets.now) }
{
    let mut first = opened(remainder);
    let mut second = u8x16::splat(0);
    let mut third = u8x16::splat(0);
    let mut fourth = u8x16::splat(0);
    let mut fifth = u8x16::splat(0);
    let mut sixth = u8x16::splat(0);
    for step in 0..steps {
        let front = first ^ u8x16::from_slice(&octets[16 * step..]);
        first = second ^ moved(front, LOW_16, HIGH_16);
        second = third ^ moved(front, LOW_32, HIGH_32);
        third = fourth;
        fourth = fifth ^ moved(front, LOW_64, HIGH_64);
        fifth = sixth;
        sixth = moved(front, LOW_96, HIGH_96);
    }
    let at = 16 * steps;
    let mut rest = [0; 96];
    put(&mut rest, 0, first ^ u8x16::from_slice(&octets[at..]));
    put(
        &mut rest,
        16,
        second ^ u8x16::from_slice(&octets[at + 16..]),
    );
    put(&mut rest, 32, third ^ u8x16::from_slice(&octets[at + 32..]));
    put(
        &mut rest,
        48,
        fourth ^ u8x16::from_slice(&octets[at + 48..]),
    );
    put(&mut rest, 64, fifth ^ u8x16::from_slice(&octets[at + 64..]));
    put(&mut rest, 80, sixth ^ u8x16::from_slice(&octets[at + 80..]));
    rest
}
