ghost use Rattle.std.specs.Prelude.{◌≡◌, ◌<◌, ◌≤◌, ◌+◌, ◌-◌, ◌*◌, ◌^◌, ◌&&◌, nat_le, nat_lt, max, true, false};
ghost use Rattle.std.specs.Prelude.{ℕ, [], ◌++◌, length, take, drop, slice_index, vec_len, vec_capacity};
ghost use Rattle.std.specs.Prelude.{if◌then◌else◌, OnOk, OnErr};
ghost use Rattle.std.specs.Bool.{OnTrue};
ghost use Rattle.std.specs.VecDeque.{deque_len, deque_capacity};
ghost use Rattle.iw_ranges.specs.Spans.{in_spans, add_span, IsFromStart, IsFirstReaching, first_end, octet_after};
ghost use Rattle.iw_ranges.specs.Spans.{HasSameOctets};

use crate::spans::{Span, join, lengthen};
use core::mem::replace_with;
use std::alloc::{AllocError, Allocator};
use std::collections::VecDeque;

/// How many octets a buffer may hold: 262,144 from the in-order point on, and 65,536 before it.
const MAX_HELD: usize = 327_680;

/// For how many octets an empty buffer may have memory.
pub(crate) const MAX_IDLE: usize = 131_072;

/// How many octets are moved at most for each that the in-order point passed.
const MAX_MOVED: usize = 4;

/// Writes the octets over those that stand at `at`.
fn write_at(buffer: &mut [u8], at: usize, octets: &[u8])
    requires { at + length octets.now ≤ length buffer.old }
    ensures { (i : ℕ) → i < length buffer.old → slice_index buffer.new i
        ≡ (if nat_le at i && nat_lt i (at + length octets.now) then slice_index octets.now (i - at)
        else slice_index buffer.old i) }
{
    buffer[at..at + octets.len()].copy_from_slice(octets);
}

/// Writes the octets from place `from` on, but for the places in the spans, of which that at `low` is the first that
/// reaches `from`. The buffer begins at place `base`.
fn fill<A: Allocator>(
    buffer: &mut [u8],
    base: u64,
    spans: &VecDeque<Span, A>,
    low: usize,
    from: u64,
    octets: &[u8],
)
    requires base { base ≤ from }
    requires room { from + length octets.now ≤ base + length buffer.old }
    requires small { from + length octets.now < 2 ^ 64 }
    requires order { IsFromStart spans.now.items }
    requires place { IsFirstReaching spans.now.items from low }
    ensures { (i : ℕ) → i < length buffer.old
        → slice_index buffer.new i ≡ octet_after base spans.now.items from octets.now buffer.old i }
{
    let mut next = from;
    let mut rest = octets;
    let mut at = low;
    'gaps: while !rest.is_empty() && at < spans.len() {
        let span = spans[at];
        let gap = rest.len().min(span.from.saturating_sub(next) as usize);
        let (before, _) = rest.split_at(gap);
        write_at(buffer, (next - base) as usize, before);
        let skip = rest.len().min(span.to.saturating_sub(next) as usize);
        let (_, back) = rest.split_at(skip);
        rest = back;
        next += skip as u64;
        at += 1;
    }
    write_at(buffer, (next - base) as usize, rest);
}

/// How many octets a buffer of `capacity` should have room for, so that `len` fit: twice as many where they don't, but
/// 327,680 at most, and no more than an empty buffer may keep where that does.
fn room_for(capacity: usize, len: usize) -> usize
    requires { len ≤ 327680 }
    ensures enough { max len capacity ≤ result }
    ensures bounded { result ≤ max capacity 327680 }
    ensures idle { len ≤ 131072 → result ≤ max capacity 131072 }
{
    if len <= capacity {
        return capacity;
    }
    let most = if len <= MAX_IDLE { MAX_IDLE } else { MAX_HELD };
    capacity.saturating_add(capacity).min(most).max(len)
}

/// The buffer with zeros past what stands in it, so that it is `len` octets long. There is room for them.
///
/// std's calls that append many octets don't say that they leave the capacity as it is. The buffer is passed by value, so
/// that its fields are in registers and the loop is one clearing of memory.
fn extended<A: Allocator>(mut buffer: Vec<u8, A>, len: usize) -> (Vec<u8, A>, ())
    requires longer { vec_len buffer ≤ len }
    requires room { len ≤ vec_capacity buffer }
    ensures octets { (i : ℕ) → slice_index result.0.items i ≡ slice_index buffer.items i }
    ensures len { vec_len result.0 ≡ len }
    ensures memory { vec_capacity result.0 ≡ vec_capacity buffer }
{
    'zeros: while buffer.len() < len {
        buffer.push_reserved(0);
    }
    (buffer, ())
}

/// Makes the buffer `len` octets long, with zeros past what stands in it. There is room for them.
#[inline(never)]
fn extend_to<A: Allocator>(buffer: &mut Vec<u8, A>, len: usize)
    requires longer { vec_len buffer.old ≤ len }
    requires room { len ≤ vec_capacity buffer.old }
    ensures octets { (i : ℕ) → slice_index buffer.new.items i ≡ slice_index buffer.old.items i }
    ensures len { vec_len buffer.new ≡ len }
    ensures memory { vec_capacity buffer.new ≡ vec_capacity buffer.old }
{
    replace_with(buffer, len, extended)
}

/// Makes the buffer at least `len` octets long, with zeros past what stands in it. An `Err` changes nothing.
pub(crate) fn grow<A: Allocator>(buffer: &mut Vec<u8, A>, len: usize) -> Result<(), AllocError>
    requires held { len ≤ 327680 }
    ensures octets { (i : ℕ) → slice_index buffer.new.items i ≡ slice_index buffer.old.items i }
    ensures len { OnOk result (vec_len buffer.new ≡ max (vec_len buffer.old) len) }
    ensures err { OnErr result (buffer.new.items ≡ buffer.old.items) }
    ensures err_memory { OnErr result (vec_capacity buffer.new ≡ vec_capacity buffer.old) }
    ensures memory { vec_capacity buffer.new ≤ max (vec_capacity buffer.old) 327680 }
    ensures idle { len ≤ 131072 → vec_capacity buffer.new ≤ max (vec_capacity buffer.old) 131072 }
{
    if len <= buffer.len() {
        return Ok(());
    }
    let room = room_for(buffer.capacity(), len);
    buffer.reserve_exact(room - buffer.len())?;
    extend_to(buffer, len);
    Ok(())
}

/// Puts the octets at index `at`, past all that stands in the buffer, with zeros between. An `Err` changes nothing.
fn append<A: Allocator>(buffer: &mut Vec<u8, A>, at: usize, octets: &[u8]) -> Result<(), AllocError>
    requires past { 0 < length octets.now → vec_len buffer.old ≤ at }
    requires held { at + length octets.now ≤ 327680 }
    ensures octets { OnOk result ((i : ℕ) → slice_index buffer.new.items i
        ≡ (if nat_le at i && nat_lt i (at + length octets.now) then slice_index octets.now (i - at)
        else slice_index buffer.old.items i)) }
    ensures len { OnOk result (vec_len buffer.new
        ≡ (if nat_lt 0 (length octets.now) then at + length octets.now else vec_len buffer.old)) }
    ensures err { OnErr result (buffer.new.items ≡ buffer.old.items) }
    ensures err_memory { OnErr result (vec_capacity buffer.new ≡ vec_capacity buffer.old) }
    ensures memory { vec_capacity buffer.new ≤ max (vec_capacity buffer.old) 327680 }
{
    if octets.is_empty() {
        return Ok(());
    }
    grow(buffer, at + octets.len())?;
    write_at(buffer, at, octets);
    Ok(())
}

/// Writes the octets over what stands from index `at` on, and appends those that reach past it. There is room for them.
#[inline(always)]
fn lay<A: Allocator>(buffer: &mut Vec<u8, A>, at: usize, octets: &[u8])
    requires within { at ≤ vec_len buffer.old }
    requires room { at + length octets.now ≤ vec_capacity buffer.old }
    ensures octets { (i : ℕ) → slice_index buffer.new.items i
        ≡ (if nat_le at i && nat_lt i (at + length octets.now) then slice_index octets.now (i - at)
        else slice_index buffer.old.items i) }
    ensures len { vec_len buffer.new ≡ max (vec_len buffer.old) (at + length octets.now) }
    ensures memory { vec_capacity buffer.new ≡ vec_capacity buffer.old }
{
    if octets.len() > buffer.len() - at {
        extend_to(buffer, at + octets.len());
    }
    write_at(buffer, at, octets);
}

/// Whether the buffer, which begins at place `base`, has room for the octets from place `from` on.
#[inline(always)]
pub(crate) fn fits_after<A: Allocator>(
    buffer: &Vec<u8, A>,
    base: u64,
    from: u64,
    octets: &[u8],
) -> bool
    requires base { base ≤ from }
    requires within { from ≤ base + vec_len buffer.now }
    requires held { vec_len buffer.now ≤ 327680 }
    ensures { OnTrue result ((from - base + length octets.now ≤ vec_capacity buffer.now)
        × (from + length octets.now ≤ base + 327680)) }
{
    let at = (from - base) as usize;
    // The second test holds where the first does, which spares it where old octets are written over.
    octets.len() <= buffer.len() - at || octets.len() <= buffer.capacity().min(MAX_HELD) - at
}

/// Takes in the octets from place `from` on, where the first span ends, and adds their places to the spans. They touch no
/// other span.
#[inline(always)]
pub(crate) fn put_after<A: Allocator>(
    buffer: &mut Vec<u8, A>,
    base: u64,
    spans: &mut VecDeque<Span, A>,
    from: u64,
    octets: &[u8],
)
    requires base { base ≤ from }
    requires some { 0 < length octets.now }
    requires past { from ≤ base + vec_len buffer.old }
    requires room { from - base + length octets.now ≤ vec_capacity buffer.old }
    requires small { from + length octets.now < 2 ^ 64 }
    requires order { IsFromStart spans.old.items }
    requires first { from ≡ first_end spans.old.items }
    requires free { (p : ℕ) → from ≤ p → p ≤ from + length octets.now → in_spans p spans.old.items ≡ false }
    ensures spans { spans.new.items ≡ add_span from (from + length octets.now) spans.old.items }
    ensures end { first_end spans.new.items ≡ from + length octets.now }
    ensures few { length spans.new.items ≤ length spans.old.items }
    ensures len { vec_len buffer.new ≡ max (vec_len buffer.old) (from + length octets.now - base) }
    ensures octets { (i : ℕ)
        → slice_index buffer.new.items i ≡ octet_after base spans.old.items from octets.now buffer.old.items i }
    ensures memory { vec_capacity buffer.new ≡ vec_capacity buffer.old }
{
    lay(buffer, (from - base) as usize, octets);
    lengthen(spans, from + octets.len() as u64);
}

/// Takes in the octets from place `from` on, but for the places in the spans, and adds their places to the spans, of
/// which that at `low` is the first that reaches `from`. An `Err` changes nothing.
#[inline(never)]
pub(crate) fn put<A: Allocator>(
    buffer: &mut Vec<u8, A>,
    base: u64,
    spans: &mut VecDeque<Span, A>,
    low: usize,
    from: u64,
    octets: &[u8],
) -> Result<(), AllocError>
    requires base { base ≤ from }
    requires some { 0 < length octets.now }
    requires small { from + length octets.now < 2 ^ 64 }
    requires held { from + length octets.now ≤ base + 327680 }
    requires order { IsFromStart spans.old.items }
    requires place { IsFirstReaching spans.old.items from low }
    requires within { (p : ℕ) → in_spans p spans.old.items ≡ true → p < base + vec_len buffer.old }
    ensures spans { OnOk result (spans.new.items ≡ add_span from (from + length octets.now) spans.old.items) }
    ensures len { OnOk result (vec_len buffer.new ≡ max (vec_len buffer.old) (from + length octets.now - base)) }
    ensures octets { OnOk result ((i : ℕ)
        → slice_index buffer.new.items i ≡ octet_after base spans.old.items from octets.now buffer.old.items i) }
    ensures err_spans { OnErr result (spans.new.items ≡ spans.old.items) }
    ensures err_octets { OnErr result (buffer.new.items ≡ buffer.old.items) }
    ensures err_memory { OnErr result (vec_capacity buffer.new ≡ vec_capacity buffer.old) }
    ensures memory { vec_capacity buffer.new ≤ max (vec_capacity buffer.old) 327680 }
{
    let at = (from - base) as usize;
    let inside = octets.len().min(buffer.len().saturating_sub(at));
    let (front, back) = octets.split_at(inside);
    spans.reserve(1)?;
    append(buffer, at + inside, back)?;
    fill(buffer, base, spans, low, from, front);
    join(spans, low, from, from + octets.len() as u64);
    Ok(())
}

/// Lets all octets go, and gives back their memory.
pub(crate) fn clear<A: Allocator>(octets: &mut Vec<u8, A>)
    ensures items { octets.new.items ≡ [] }
    ensures memory { vec_capacity octets.new ≡ 0 }
{
    octets.clear();
    octets.shrink_to_fit();
}

/// Where there is memory for more than 131,072 octets, lets all of them go and gives it back.
#[inline]
fn give_back<A: Allocator>(octets: &mut Vec<u8, A>)
    ensures len { vec_len octets.new ≤ vec_len octets.old }
    ensures memory { vec_capacity octets.new ≤ 131072 }
    ensures less { vec_capacity octets.new ≤ vec_capacity octets.old }
{
    if octets.capacity() > MAX_IDLE {
        clear(octets);
    }
}

/// Lets the buffer, which begins at place `base`, begin at place `to` where nothing came past it. What stands in it
/// stays there, and means nothing.
#[inline]
pub(crate) fn let_go<A: Allocator>(octets: &mut Vec<u8, A>, base: &mut u64, end: u64, to: u64)
    requires low { base.old ≤ to }
    requires high { to ≤ end }
    requires within { end ≤ base.old + vec_len octets.old }
    ensures octets { HasSameOctets base.old octets.old.items base.new octets.new.items end }
    ensures within { end ≤ base.new + vec_len octets.new }
    ensures len { vec_len octets.new ≤ vec_len octets.old }
    ensures low { base.old ≤ base.new }
    ensures high { base.new ≤ to }
    ensures begins { to ≡ end → base.new ≡ to }
    ensures idle { to ≡ end → vec_capacity octets.new ≤ 131072 }
    ensures memory { vec_capacity octets.new ≤ vec_capacity octets.old }
{
    if to == end {
        give_back(octets);
        *base = to;
    }
}

/// Copies the `m` octets at index `at + n` to index `at`. They don't overlap.
fn copy_block(octets: &mut [u8], at: usize, n: usize, m: usize)
    requires apart { m ≤ n }
    requires within { at + n + m ≤ length octets.old }
    ensures { (i : ℕ) → i < length octets.old → slice_index octets.new i
        ≡ (if nat_le at i && nat_lt i (at + m) then slice_index octets.old (i + n) else slice_index octets.old i) }
{
    let (front, back) = octets.split_at_mut(at + n);
    write_at(front, at, &back[..m]);
}

/// Copies the octets from index `n` up to index `end` to the front, `n` at a time.
#[inline(never)]
fn move_to_front(octets: &mut [u8], n: usize, end: usize)
    requires some { 0 < n }
    requires within { n ≤ end }
    requires high { end ≤ length octets.old }
    ensures { (i : ℕ) → i + n < end → slice_index octets.new i ≡ slice_index octets.old (i + n) }
{
    let kept = end - n;
    let mut at = 0;
    'copies: while at < kept {
        let m = n.min(kept - at);
        copy_block(octets, at, n, m);
        at += m;
    }
}

/// Lets the octets before the in-order point `floor` go, if the buffer, which begins at place `base`, would have to
/// grow to reach place `to` and no more than four stand past them for each, or if it would have to hold more than
/// 327,680 octets. Those past them stand before place `end`.
///
/// So at most four octets are moved for each that the in-order point passed since the last move: in the second case it
/// passed more than 65,536, and no more than 262,144 stand past them.
pub(crate) fn shorten<A: Allocator>(
    octets: &mut Vec<u8, A>,
    base: &mut u64,
    floor: u64,
    end: u64,
    to: u64,
)
    requires low { base.old ≤ floor }
    requires high { floor ≤ end }
    requires within { end ≤ base.old + vec_len octets.old }
    requires ahead { floor ≤ to }
    requires near { to ≤ floor + 262144 }
    ensures octets { HasSameOctets base.old octets.old.items base.new octets.new.items end }
    ensures len { vec_len octets.new ≡ vec_len octets.old }
    ensures low { base.old ≤ base.new }
    ensures high { base.new ≤ floor }
    ensures room { to ≤ base.new + 327680 }
    ensures memory { vec_capacity octets.new ≡ vec_capacity octets.old }
{
    let passed = (floor - *base) as usize;
    let needed = (to - *base) as usize;
    let are_few = (end - floor) as usize <= passed.saturating_mul(MAX_MOVED);
    if passed > 0 && (needed > MAX_HELD || needed > octets.capacity() && are_few) {
        move_to_front(octets, passed, (end - *base) as usize);
        *base = floor;
    }
}
