//! The kinds of words in a schedule, and what each stands for.

ghost use Rattle.std.specs.Prelude.{◌≡◌, ◌+◌, ◌*◌, ◌^◌, ◌<◌, ◌≤◌, true, [], ◌∷◌, length, IfOk, IfSome, MatchOption};
ghost use Rattle.std.specs.Char.{is_ascii_digit, digit_value};
ghost use Rattle.std.specs.List.{repeat};
ghost use Rattle.std.specs.Option.{option_copied};
ghost use Rattle.iw_schedules.specs.Reading.{Gives};
ghost use Rattle.iw_schedules.specs.Kinds.{decimal_of, number_word, times_word, count_word};
ghost use Rattle.iw_schedules.specs.Kinds.{stag_word, hex_word, octets_word, private_word};

use crate::fault::{FaultName, ReadError};
use crate::hexadecimal;
use crate::pieces::split_at;
use bytes::Bytes;
use hex::FromHexError;
use iw_octets::{MAX_PRIVATE, Stag};
use std::alloc::{AllocError, Allocator};

/// The most octets that a word stands for.
pub(crate) const MAX_WORD_OCTETS: u64 = 20_000_000;

// From how many digits on `hexadecimal::read` reads them. It goes by 16 pairs, as the compiler makes it, and fewer digits
// are no dearer by `hex`.
const MANY_DIGITS: usize = 32;

// How many octets are looked at one by one for a `*`: where one octet is repeated, it stands third. In most other words
// there is none.
const NEAR_TIMES: usize = 3;

/// The most events that a line stands for.
pub(crate) const MAX_TIMES: u64 = 100_000;

/// The number that decimal digits stand for; `None` if it does not fit 64 bits or a character is not a digit.
fn decimal(word: &[u8]) -> Option<u64>
    ensures { result ≡ decimal_of word.now }
{
    if word.is_empty() {
        return None;
    }
    let mut number = 0u64;
    for octet in word {
        if !octet.is_ascii_digit() {
            return None;
        }
        match with_digit(number, *octet) {
            Some(longer) => number = longer,
            None => return None,
        }
    }
    Some(number)
}

// The number with one more digit.
fn with_digit(number: u64, digit: u8) -> Option<u64>
    requires { is_ascii_digit digit ≡ true }
    ensures value { MatchOption result (2 ^ 64 ≤ number * 10 + digit_value digit)
        (λ longer. longer ≡ number * 10 + digit_value digit) }
    ensures fits { IfSome result (λ longer. longer < 2 ^ 64) }
{
    number.checked_mul(10)?.checked_add(u64::from(digit - b'0'))
}

/// A decimal number that is at most `most`.
#[tactic(auto, unfolding(crate::specs::Kinds::number_word))]
pub(crate) fn number(word: &[u8], most: u64) -> Result<u64, FaultName>
    ensures value { result ≡ number_word most word.now }
    ensures most { IfOk result (λ number. number ≤ most) }
{
    match decimal(word) {
        Some(number) if number <= most => Ok(number),
        _ => Err(FaultName::BadNumber),
    }
}

/// How often an event happens.
#[tactic(auto, unfolding(crate::specs::Kinds::times_word))]
pub(crate) fn times(word: &[u8]) -> Result<u64, FaultName>
    ensures { result ≡ times_word word.now }
{
    let times = number(word, MAX_TIMES)?;
    if times == 0 {
        return Err(FaultName::BadNumber);
    }
    Ok(times)
}

/// An STag, as eight hexadecimal digits.
#[tactic(auto, unfolding(crate::specs::Kinds::stag_word))]
pub(crate) fn stag(word: &[u8]) -> Result<Stag, FaultName>
    ensures { result ≡ stag_word word.now }
{
    let mut octets = [0; 4];
    match hex::decode_to_slice(word, &mut octets) {
        Ok(()) => Ok(Stag::from_octets(octets)),
        Err(_) => Err(FaultName::BadNumber),
    }
}

// One octet or more, as hexadecimal digits.
#[tactic(auto, unfolding(crate::specs::Kinds::hex_word))]
fn from_hex<A: Allocator>(alloc: A, word: &[u8]) -> Result<Vec<u8, A>, ReadError>
    ensures { Gives (λ octets. octets.items) result (hex_word word.now) }
{
    if word.len() >= MANY_DIGITS {
        return from_many(alloc, word);
    }
    let octets = match hex::decode(alloc, word) {
        Ok(octets) => octets,
        Err(FromHexError::OutOfMemory) => return Err(ReadError::NoMemory),
        Err(_) => return Err(ReadError::Fault(FaultName::BadOctets)),
    };
    if octets.is_empty() {
        return Err(ReadError::Fault(FaultName::BadOctets));
    }
    Ok(octets)
}

// As `from_hex`, for many digits: all are read before it is asked whether they are digits.
#[tactic(auto, unfolding(crate::specs::Kinds::hex_word))]
fn from_many<A: Allocator>(alloc: A, word: &[u8]) -> Result<Vec<u8, A>, ReadError>
    requires { MANY_DIGITS ≤ length word.now }
    ensures { Gives (λ octets. octets.items) result (hex_word word.now) }
{
    if word.len() % 2 != 0 {
        return Err(ReadError::Fault(FaultName::BadOctets));
    }
    let mut octets = vec![in alloc; 0; word.len() / 2]?;
    if !hexadecimal::read(word, octets.as_mut_slice()) {
        return Err(ReadError::Fault(FaultName::BadOctets));
    }
    Ok(octets)
}

// How often octets are repeated.
fn count(word: Option<&[u8]>) -> Result<u64, FaultName>
    ensures { result ≡ count_word (option_copied word.entry) }
{
    match word {
        None => Ok(1),
        Some(word) => number(word, MAX_WORD_OCTETS).map_err(|_| FaultName::BadOctets),
    }
}

// The octets, repeated `count` times.
fn repeated<A: Allocator + Copy>(octets: Vec<u8, A>, count: usize) -> Result<Vec<u8, A>, AllocError>
    ensures { IfOk result (λ all. all.items ≡ repeat count octets.items) }
{
    let alloc = *octets.allocator();
    match octets.as_slice() {
        _ if count == 1 => Ok(octets),
        [octet] => copies(alloc, *octet, count),
        pattern => patterns(alloc, pattern, count),
    }
}

fn copies<A: Allocator>(alloc: A, octet: u8, count: usize) -> Result<Vec<u8, A>, AllocError>
    ensures { IfOk result (λ all. all.items ≡ repeat count (octet ∷ [])) }
{
    vec![in alloc; octet; count]
}

fn patterns<A: Allocator>(alloc: A, pattern: &[u8], count: usize) -> Result<Vec<u8, A>, AllocError>
    ensures { IfOk result (λ all. all.items ≡ repeat count pattern.now) }
{
    pattern.repeat(alloc, count)
}

fn shared<A: Allocator + Copy>(octets: Vec<u8, A>) -> Result<Bytes<A>, ReadError>
    ensures { Gives (λ shared. shared) result (Ok octets.items) }
{
    Ok(Bytes::from_vec(octets)?)
}

/// Octets: `-` for none, or hexadecimal digits, perhaps with a count.
#[tactic(auto, unfolding(crate::specs::Kinds::octets_word))]
pub(crate) fn octets<A: Allocator + Copy>(alloc: A, word: &[u8]) -> Result<Bytes<A>, ReadError>
    ensures { Gives (λ octets. octets) result (octets_word word.now) }
{
    if word == b"-".as_slice() {
        return Ok(Bytes::new());
    }
    let (digits, times) = split_at(word, b'*', NEAR_TIMES);
    let octets = from_hex(alloc, digits)?;
    let times = count(times)?;
    match times.checked_mul(octets.len() as u64) {
        Some(all) if all <= MAX_WORD_OCTETS => shared(repeated(octets, times as usize)?),
        _ => Err(ReadError::Fault(FaultName::BadOctets)),
    }
}

/// Private data: at most 512 octets.
#[tactic(auto, unfolding(crate::specs::Kinds::private_word))]
pub(crate) fn private<A: Allocator + Copy>(alloc: A, word: &[u8]) -> Result<Bytes<A>, ReadError>
    ensures { Gives (λ octets. octets) result (private_word word.now) }
{
    let octets = octets(alloc, word)?;
    if octets.len() > MAX_PRIVATE {
        return Err(ReadError::Fault(FaultName::BadOctets));
    }
    Ok(octets)
}
