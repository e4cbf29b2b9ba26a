//! Hexadecimal digits of many octets at once.

ghost use Rattle.std.specs.Prelude.{◌≡◌, ◌*◌, ◌<◌, ◌≤◌, ◌++◌, true, false, Ok, Err, OnOk, length, take, slice_index};
ghost use Rattle.std.specs.Option.{unwrap_or};
ghost use Rattle.std.specs.Prelude.{string_bytes};
ghost use Rattle.hex.specs.Hex.{lower_digits, encode_lower, hex_digit_value, decode_of};
ghost use Rattle.iw_schedules.specs.Reading.{or_fault};
ghost use Rattle.iw_schedules.specs.declared.fault.FaultName.TheVariants.{BadOctets};

use std::alloc::{AllocError, Allocator};

/// The most octets whose digits are made at once.
pub(crate) const AT_ONCE: usize = 64;

// What stands for a character that is no digit.
const NO_DIGIT: u8 = 255;

// The digit for a number below 16.
#[inline(always)]
fn digit(number: u8) -> u8
    requires { number < 16 }
    ensures { result ≡ slice_index lower_digits number }
{
    if number < 10 {
        b'0' + number
    } else {
        b'a' - 10 + number
    }
}

// Writes the digits of octets to the front of the room. The loop has no table, so that the compiler makes it one of
// vectors.
fn write_digits(octets: &[u8], room: &mut [u8])
    requires { 2 * length octets.now ≤ length room.old }
    ensures digits { take (2 * length octets.now) room.new ≡ encode_lower octets.now }
    ensures len { length room.new ≡ length room.old }
{
    'octets: for i in 0..octets.len() {
        let octet = octets[i];
        room[2 * i] = digit(octet / 16);
        room[2 * i + 1] = digit(octet % 16);
    }
}

/// Appends the digits of a few octets.
pub(crate) fn few<A: Allocator>(text: &mut String<A>, octets: &[u8]) -> Result<(), AllocError>
    requires { length octets.now ≤ AT_ONCE }
    ensures { OnOk result (string_bytes text.new ≡ string_bytes text.old ++ encode_lower octets.now) }
{
    let mut digits = [0; 2 * AT_ONCE];
    write_digits(octets, &mut digits);
    text.push_str(unsafe { std::str::from_utf8_unchecked(&digits[..2 * octets.len()]) })
}

/// Appends the digits of octets. Room for all is asked for at once.
pub(crate) fn many<A: Allocator>(text: &mut String<A>, octets: &[u8]) -> Result<(), AllocError>
    ensures { OnOk result (string_bytes text.new ≡ string_bytes text.old ++ encode_lower octets.now) }
{
    text.reserve(octets.len().saturating_mul(2))?;
    let mut left = octets;
    'parts: while left.len() > AT_ONCE {
        few(text, &left[..AT_ONCE])?;
        left = &left[AT_ONCE..];
    }
    few(text, left)
}

// The number that a digit stands for, in either case.
#[inline(always)]
fn value(digit: u8) -> u8
    ensures { result ≡ unwrap_or (hex_digit_value digit) NO_DIGIT }
{
    match digit {
        b'0'..=b'9' => digit - b'0',
        b'a'..=b'f' => digit - b'a' + 10,
        b'A'..=b'F' => digit - b'A' + 10,
        _ => NO_DIGIT,
    }
}

#[inline(always)]
fn larger(one: u8, other: u8) -> u8
    ensures first { one ≤ result }
    ensures second { other ≤ result }
    ensures either { one < 16 → other < 16 → result < 16 }
{
    if one < other { other } else { one }
}

/// Writes the octets that digits stand for. Returns whether all characters are digits; if not, the octets mean nothing.
pub(crate) fn read(digits: &[u8], octets: &mut [u8]) -> bool
    requires { length digits.now ≡ 2 * length octets.old }
    ensures read { result ≡ true → decode_of digits.now ≡ Ok octets.new }
    ensures refused { result ≡ false → or_fault BadOctets (decode_of digits.now) ≡ Err BadOctets }
    ensures len { length octets.new ≡ length octets.old }
{
    let mut largest = 0;
    'pairs: for i in 0..octets.len() {
        let high = value(digits[2 * i]);
        let low = value(digits[2 * i + 1]);
        largest = larger(largest, larger(high, low));
        octets[i] = high.wrapping_mul(16).wrapping_add(low);
    }
    largest < 16
}
