ghost use Rattle.std.specs.Prelude.{◌≡◌, ◌<◌, ◌≤◌, ◌+◌, ◌*◌, ◌-◌, length, take, bit_xor};
ghost use Rattle.std.specs.Int.{w32, from_le_bytes};
ghost use Rattle.iw_crc.specs.Crc.{after_bits, after_octet, after_octets, all_ones, crc32c};
ghost use Rattle.iw_crc.specs.CrcWords.{octet_in, word_in};

use crate::fold::folded;
use crate::lanes::shortened;
use crate::tables::{TURN_TABLES, WORD_TABLES};
use std::marker::Model;

/// The remainder that an octet of a word leaves after the steps of the octets behind it.
fn word_entry(place: usize, octet: u8) -> u32
    requires { place < 8 }
    ensures { result ≡ after_bits (64 - 8 * place) octet }
{
    WORD_TABLES[place][octet as usize]
}

/// The same, with 24 octets of zero after the word.
fn turn_entry(place: usize, octet: u8) -> u32
    requires { place < 8 }
    ensures { result ≡ after_bits (256 - 8 * place) octet }
{
    TURN_TABLES[place][octet as usize]
}

/// The remainder after one more octet.
fn octet_added(remainder: u32, octet: u8) -> u32
    ensures { result ≡ after_octet remainder octet }
{
    let low = ((remainder ^ u32::from(octet)) & 0xff) as u8;
    word_entry(7, low) ^ (remainder >> 8)
}

/// The remainder after more octets, one by one.
#[tactic(auto, using(crate::proofs::Linear::crc_steps))]
fn octets_added(remainder: u32, octets: &[u8]) -> u32
    ensures { result ≡ after_octets remainder octets.now }
{
    let mut remainder = remainder;
    for octet in octets {
        remainder = octet_added(remainder, *octet);
    }
    remainder
}

/// An octet of a word, the lowest being octet 0.
fn octet_of(word: u64, place: u32) -> u8
    requires { place < 8 }
    ensures { result ≡ octet_in word place }
{
    (word >> (8 * place) & 0xff) as u8
}

/// The remainder of a word that has been added to the remainder before it.
fn word_added(word: u64) -> u32
    ensures { result ≡ after_bits 64 word }
{
    word_entry(0, octet_of(word, 0))
        ^ word_entry(1, octet_of(word, 1))
        ^ word_entry(2, octet_of(word, 2))
        ^ word_entry(3, octet_of(word, 3))
        ^ word_entry(4, octet_of(word, 4))
        ^ word_entry(5, octet_of(word, 5))
        ^ word_entry(6, octet_of(word, 6))
        ^ word_entry(7, octet_of(word, 7))
}

/// The same with 24 octets of zero after the word.
fn turn_added(word: u64) -> u32
    ensures { result ≡ after_bits 256 word }
{
    turn_entry(0, octet_of(word, 0))
        ^ turn_entry(1, octet_of(word, 1))
        ^ turn_entry(2, octet_of(word, 2))
        ^ turn_entry(3, octet_of(word, 3))
        ^ turn_entry(4, octet_of(word, 4))
        ^ turn_entry(5, octet_of(word, 5))
        ^ turn_entry(6, octet_of(word, 6))
        ^ turn_entry(7, octet_of(word, 7))
}

/// The eight octets from a place on as a word, the first lowest.
fn word_at(octets: &[u8], at: usize) -> u64
    requires { at + 8 ≤ length octets.now }
    ensures { result ≡ word_in octets.now at }
{
    u64::from_le_bytes([
        octets[at],
        octets[at + 1],
        octets[at + 2],
        octets[at + 3],
        octets[at + 4],
        octets[at + 5],
        octets[at + 6],
        octets[at + 7],
    ])
}

/// An octet of half a word, the lowest being octet 0.
fn octet_of_half(half: u32, place: u32) -> u8
    requires { place < 4 }
    ensures { result ≡ octet_in half place }
{
    (half >> (8 * place) & 0xff) as u8
}

/// The remainder of half a word that has been added to the remainder before it, by the later half of a word's tables.
fn half_added(half: u32) -> u32
    ensures { result ≡ after_bits 32 half }
{
    word_entry(4, octet_of_half(half, 0))
        ^ word_entry(5, octet_of_half(half, 1))
        ^ word_entry(6, octet_of_half(half, 2))
        ^ word_entry(7, octet_of_half(half, 3))
}

/// The first four octets as half a word, the first lowest.
fn first_half(octets: &[u8]) -> u32
    requires { 4 ≤ length octets.now }
    ensures { result ≡ from_le_bytes w32 (take 4 octets.now) }
{
    u32::from_le_bytes([octets[0], octets[1], octets[2], octets[3]])
}

/// The remainder after a few octets: four at once, the others one by one.
fn few_added(remainder: u32, octets: &[u8]) -> u32
    ensures { result ≡ after_octets remainder octets.now }
{
    if octets.len() < 4 {
        return octets_added(remainder, octets);
    }
    let so_far = half_added(remainder ^ first_half(octets));
    octets_added(so_far, &octets[4..])
}

/// The remainder after octets, word by word.
fn words_added(remainder: u32, octets: &[u8]) -> u32
    ensures { result ≡ after_octets remainder octets.now }
{
    let words = octets.len() / 8;
    let mut so_far = remainder;
    for word in 0..words {
        so_far = word_added(u64::from(so_far) ^ word_at(octets, 8 * word));
    }
    few_added(so_far, &octets[8 * words..])
}

/// Turns of 32 octets in four lanes: each lane takes one word of each turn. The last turn joins the lanes.
fn turns_added(remainder: u32, octets: &[u8], turns: usize) -> u32
    requires { 32 * turns + 32 ≤ length octets.now }
    ensures { result ≡ after_octets remainder (take (32 * turns + 32) octets.now) }
{
    let mut first = remainder;
    let mut second = 0;
    let mut third = 0;
    let mut fourth = 0;
    for turn in 0..turns {
        let at = 32 * turn;
        first = turn_added(u64::from(first) ^ word_at(octets, at));
        second = turn_added(u64::from(second) ^ word_at(octets, at + 8));
        third = turn_added(u64::from(third) ^ word_at(octets, at + 16));
        fourth = turn_added(u64::from(fourth) ^ word_at(octets, at + 24));
    }
    let at = 32 * turns;
    first = word_added(u64::from(first) ^ word_at(octets, at));
    second = word_added(u64::from(first) ^ (u64::from(second) ^ word_at(octets, at + 8)));
    third = word_added(u64::from(second) ^ (u64::from(third) ^ word_at(octets, at + 16)));
    word_added(u64::from(third) ^ (u64::from(fourth) ^ word_at(octets, at + 24)))
}

/// The remainder after any octets: whole turns, and the rest word by word.
fn run_added(remainder: u32, octets: &[u8]) -> u32
    ensures { result ≡ after_octets remainder octets.now }
{
    if octets.len() < 32 {
        return words_added(remainder, octets);
    }
    let turns = octets.len() / 32 - 1;
    let so_far = turns_added(remainder, octets, turns);
    words_added(so_far, &octets[32 * turns + 32..])
}

/// The 96 octets that are left of a run: three turns.
#[inline(always)]
fn rest_added(octets: &[u8]) -> u32
    requires { length octets.now ≡ 96 }
    ensures { result ≡ after_octets 0 octets.now }
{
    turns_added(0, octets, 2)
}

/// The remainder after octets that are folded away sixteen at a time, all but the last 96 to 111.
fn sixteens_added(remainder: u32, octets: &[u8]) -> u32
    requires { 96 ≤ length octets.now }
    ensures { result ≡ after_octets remainder octets.now }
{
    let steps = octets.len() / 16 - 6;
    let so_far = rest_added(&shortened(remainder, octets, steps));
    words_added(so_far, &octets[16 * steps + 96..])
}

/// From so many octets on, sixteen are folded away at a time: at least once, before the last 96.
const MEDIUM: usize = 96 + 16;

/// From so many octets on, all but the last 290 are folded away first: in a shorter run that takes more time than it saves.
const LONG: usize = 800;

/// The remainder after any octets.
fn added(remainder: u32, octets: &[u8]) -> u32
    ensures { result ≡ after_octets remainder octets.now }
{
    if octets.len() < MEDIUM {
        return run_added(remainder, octets);
    }
    if octets.len() < LONG {
        return sixteens_added(remainder, octets);
    }
    sixteens_added(0, &folded(remainder, octets))
}

/// The CRC-32C of octets that are added in pieces (RFC 5044 4.4).
#[derive(Debug, Drop)]
pub struct Crc {
    remainder: u32,
}

impl Model for Crc {
    ghost use Rattle.std.specs.Prelude.{ℕ};

    ghost Value = { ℕ };

    ghost view = { λ crc. crc.remainder };
}

impl Crc {
    /// No octets yet.
    pub fn new() -> Crc
        ensures { result ≡ all_ones }
    {
        Crc {
            remainder: u32::MAX,
        }
    }

    /// Adds the next octets.
    pub fn add(&mut self, octets: &[u8])
        ensures { self.new ≡ after_octets self.old octets.now }
    {
        self.remainder = added(self.remainder, octets);
    }

    /// The CRC of all octets that were added.
    pub fn finish(&self) -> u32
        ensures { result ≡ bit_xor self.now all_ones }
    {
        self.remainder ^ u32::MAX
    }
}

/// The CRC-32C of these octets.
#[tactic(auto, unfolding(crate::specs::Crc::crc32c))]
pub fn crc32c(octets: &[u8]) -> u32
    ensures { result ≡ crc32c octets.now }
{
    let mut crc = Crc::new();
    crc.add(octets);
    crc.finish()
}
