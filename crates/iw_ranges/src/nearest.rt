//! Sequence numbers that wrap, as places of a stream.
//!
//! TCP numbers octets modulo 2^32, the first of them with any number (RFC 9293 3.4); [`Islands`](crate::Islands) counts
//! places from 0, which never wrap.
ghost use Rattle.std.specs.Prelude.{◌≡◌, ◌+◌, ◌-◌, ◌<◌, ◌≤◌, ◌%◌, ◌^◌, ℤ, drop, length};
ghost use Rattle.iw_ranges.specs.Nearest.{IsNearest, numbers_ahead, place_near, before_start};

/// How many numbers there are.
const NUMBERS: u64 = 1 << 32;

/// Half of them: a number is read as a place less than that ahead, or else as one before.
const HALF: u64 = 1 << 31;

/// The place of the octet with sequence number `number`, where the octet at place 0 has `first`: of the places with that
/// number the one nearest to `floor`, less than 2^31 octets past it or at most 2^31 before it. It is negative where it lies
/// before the stream.
///
/// With the in-order point as `floor` it is the place of every octet that lies at most 2^31 octets before that point, or in a
/// window of 2^31 octets from it on.
pub fn nearest(number: u32, first: u32, floor: u64) -> i64
    requires { floor ≤ 2 ^ 62 }
    ensures is { IsNearest number first floor result }
    ensures only { (place : ℤ) → IsNearest number first floor place → result ≡ place }
{
    let ahead = ahead_of(number, first, floor);
    let place = (floor + ahead) as i64;
    if ahead < HALF {
        place
    } else {
        place - NUMBERS as i64
    }
}

/// The place of the first of these octets, which has sequence number `number`, as [`nearest`] finds it, and the octets. Those at
/// places before the stream are left out: the others begin at place 0.
#[tactic(auto, unfolding(crate::specs::Nearest::place_near, crate::specs::Nearest::before_start))]
pub fn near(number: u32, first: u32, floor: u64, octets: &[u8]) -> (u64, &[u8])
    requires { floor ≤ 2 ^ 63 }
    ensures place { result.0 ≡ place_near number first floor }
    ensures octets { result.1.now ≡ drop (before_start number first floor) octets.now }
    ensures len { length result.1.now ≡ length octets.now - before_start number first floor }
{
    let ahead = ahead_of(number, first, floor);
    let place = floor + ahead;
    if ahead >= HALF {
        if place < NUMBERS {
            let before = (NUMBERS - place) as usize;
            let (_, rest) = octets.split_at(before.min(octets.len()));
            return (0, rest);
        }
        return (place - NUMBERS, octets);
    }
    (place, octets)
}

/// How many octets past `floor` the next octet with this number lies.
#[tactic(auto, unfolding(crate::specs::Nearest::numbers_ahead))]
fn ahead_of(number: u32, first: u32, floor: u64) -> u64
    requires { floor ≤ 2 ^ 63 }
    ensures few { result < 2 ^ 32 }
    ensures named { (first + (floor + result)) % 2 ^ 32 ≡ number }
    ensures is { result ≡ numbers_ahead number first floor }
{
    let at_floor = (u64::from(first) + floor) % NUMBERS;
    (u64::from(number) + NUMBERS - at_floor) % NUMBERS
}
