ghost use Rattle.std.specs.Prelude.{◌≡◌, ◌<◌, ◌≤◌, ◌+◌, ◌++◌, List, ℕ, length, take, drop, replicate, bit_xor};
ghost use Rattle.iw_crc.specs.Crc.{after_octets};
ghost use Rattle.iw_crc.specs.Fold.{owed_next, remainder_with, Folds};

/// An octet that is folded away is last added to the octet that stands so far past it.
const SPAN: usize = 290;

/// So many octets are folded at a time.
const BLOCK: usize = 2048;

/// The last octet of a window that is added to the next octet stands so far from the first.
const REACH: usize = 136;

/// The last octets before a block, the block's, and room for zeros behind them.
const WINDOW: usize = BLOCK + SPAN + REACH;

/// So many octets of a block are folded a turn, by a loop of fixed length.
const PIECE: usize = 64;

/// At most so many octets are folded at once in a window that takes less time to clear. Whole pieces, and a frame that one
/// Ethernet segment carries, at most 1,460 octets, fits; the windows of less that were timed gained nothing more.
const SHORT_BLOCK: usize = 24 * PIECE;

/// A window for a block that is short.
const SHORT_WINDOW: usize = SHORT_BLOCK + SPAN + REACH;

/// Writes octets over the first of others.
pub(crate) fn put_front(out: &mut [u8], octets: &[u8])
    requires { length octets.now ≤ length out.old }
    ensures { out.new ≡ octets.now ++ drop (length octets.now) out.old }
{
    out[..octets.len()].copy_from_slice(octets);
}

/// An octet with what the window from a place on adds to it.
fn with_owed(octet: u8, window: &[u8], at: usize) -> u8
    requires { at + 136 < length window.now }
    ensures { result ≡ bit_xor octet (owed_next (drop at window.now)) }
{
    octet ^ (window[at] ^ window[at + 32] ^ window[at + 107] ^ window[at + 113] ^ window[at + 136])
}

/// Folds a piece of a block away, from a place on.
#[inline(always)]
fn fold_piece(window: &mut [u8], block: &[u8], at: usize)
    requires block { at + 64 ≤ length block.now }
    requires window { length block.now + 290 ≤ length window.old }
    ensures folds { (first : List ℕ) → Folds first (take at block.now) (take 290 (drop at window.old))
        → Folds first (take (at + 64) block.now) (take 290 (drop (at + 64) window.new)) }
{
    for i in 0..PIECE {
        let octet = with_owed(block[at + i], window, at + i);
        window[at + i + SPAN] = octet;
    }
}

/// Folds a block away: the octets of the window from the block's length on are then the last that were folded.
fn fold(window: &mut [u8], block: &[u8])
    requires { length block.now + 290 ≤ length window.old }
    ensures { Folds (take 290 window.old) block.now (take 290 (drop (length block.now) window.new)) }
{
    let pieces = block.len() / PIECE;
    for piece in 0..pieces {
        fold_piece(window, block, PIECE * piece);
    }
    for i in PIECE * pieces..block.len() {
        let octet = with_owed(block[i], window, i);
        window[i + SPAN] = octet;
    }
}

/// Clears what stands behind the last octets that were folded.
fn clear_behind(window: &mut [u8])
    requires { length window.old ≡ 426 }
    ensures { window.new ≡ take 290 window.old ++ replicate 136 0 }
{
    window[SPAN..].fill(0);
}

/// Octets with what a window adds to them.
fn settled(window: &mut [u8], octets: &[u8]) -> [u8; SPAN]
    requires window { length window.old ≡ 426 }
    requires octets { length octets.now ≡ 290 }
    ensures { after_octets 0 result ≡ remainder_with (take 290 window.old) octets.now }
{
    clear_behind(window);
    let mut settled = [0; SPAN];
    for i in 0..SPAN {
        let octet = with_owed(octets[i], window, i);
        settled[i] = octet;
    }
    settled
}

/// The window that adds a remainder to the first four octets.
fn opened(remainder: u32) -> [u8; WINDOW]
    ensures { (octets : List ℕ) → remainder_with (take 290 result) octets ≡ after_octets remainder octets }
{
    let mut window = [0; WINDOW];
    put_front(&mut window, &remainder.to_le_bytes());
    window
}

/// The same in a window that is short.
fn opened_short(remainder: u32) -> [u8; SHORT_WINDOW]
    ensures { (octets : List ℕ) → remainder_with (take 290 result) octets ≡ after_octets remainder octets }
{
    let mut window = [0; SHORT_WINDOW];
    put_front(&mut window, &remainder.to_le_bytes());
    window
}

/// The same as `folded`, of octets that are one short block and what is left.
fn folded_short(remainder: u32, octets: &[u8]) -> [u8; SPAN]
    requires { (290 ≤ length octets.now) × (length octets.now ≤ 1826) }
    ensures { after_octets 0 result ≡ after_octets remainder octets.now }
{
    let mut window = opened_short(remainder);
    let (front, back) = octets.split_at(octets.len() - SPAN);
    fold(&mut window, front);
    let last = front.len();
    settled(&mut window[last..last + SPAN + REACH], back)
}

/// As many octets as the span, whose remainder from 0 is that of `octets` from `remainder`.
pub(crate) fn folded(remainder: u32, octets: &[u8]) -> [u8; SPAN]
    requires { 290 ≤ length octets.now }
    ensures { after_octets 0 result ≡ after_octets remainder octets.now }
{
    if octets.len() <= SHORT_BLOCK + SPAN {
        return folded_short(remainder, octets);
    }
    let mut window = opened(remainder);
    let (front, back) = octets.split_at(octets.len() - SPAN);
    let blocks = front.len() / BLOCK;
    for block in 0..blocks {
        fold(&mut window, &front[BLOCK * block..BLOCK * block + BLOCK]);
        window.copy_within(BLOCK..BLOCK + SPAN, 0);
    }
    let tail = &front[BLOCK * blocks..];
    fold(&mut window, tail);
    let last = tail.len();
    settled(&mut window[last..last + SPAN + REACH], back)
}
