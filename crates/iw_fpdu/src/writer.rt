ghost use Rattle.std.specs.Prelude.{◌≡◌, ◌<◌, ◌≤◌, ◌+◌, ◌-◌, ◌/◌, ◌%◌, ◌^◌, ◌++◌, ◌⊎◌, [], ◌∷◌, true};
ghost use Rattle.std.specs.Prelude.{length, replicate, vec_len, vec_capacity};
ghost use Rattle.iw_octets.specs.Pieces.{joined};
ghost use Rattle.iw_fpdu.specs.Frame.{laid, marker_octets};
ghost use Rattle.iw_fpdu.specs.Laying.{HasRoom, IsEdge, laid_from, marker_before};
ghost use Rattle.iw_fpdu.specs.Places.{data_place, data_index, place_after};

use crate::layout::{MARKER, SPACING};
use std::alloc::Allocator;

/// How many data octets come between two markers.
const RUN: usize = (SPACING - MARKER) as usize;

/// Appends octets; `out` must have room for them. It tests for room all the same, so that the compiler drops the call
/// of the allocator when it inlines this.
#[inline(always)]
pub(crate) fn append<A: Allocator>(out: &mut Vec<u8, A>, octets: &[u8])
    requires { vec_len out.old + length octets.now ≤ vec_capacity out.old }
    ensures items { out.new.items ≡ out.old.items ++ octets.now }
    ensures len { vec_len out.new ≡ vec_len out.old + length octets.now }
    ensures capacity { vec_capacity out.old ≤ vec_capacity out.new }
{
    if octets.len() > out.capacity() - out.len() {
        return;
    }
    let _ = out.extend_from_slice(octets);
}

/// Appends the pad and a CRC field of zero. Each case appends a known number of octets.
#[inline(always)]
pub(crate) fn append_end<A: Allocator>(pad: u64, out: &mut Vec<u8, A>)
    requires few { pad < 4 }
    requires room { vec_len out.old + pad + 4 ≤ vec_capacity out.old }
    ensures { out.new.items ≡ out.old.items ++ replicate (pad + 4) 0 }
{
    match pad {
        0 => append(out, &[0; 4]),
        1 => append(out, &[0; 5]),
        2 => append(out, &[0; 6]),
        _ => append(out, &[0; 7]),
    }
}

/// Appends the pad; `out` must have room for it and the CRC field. It appends four octets at once and cuts them off.
#[inline(always)]
pub(crate) fn append_pad<A: Allocator>(pad: u64, out: &mut Vec<u8, A>)
    requires few { pad < 4 }
    requires room { vec_len out.old + pad + 4 ≤ vec_capacity out.old }
    ensures items { out.new.items ≡ out.old.items ++ replicate pad 0 }
    ensures len { vec_len out.new ≡ vec_len out.old + pad }
    ensures capacity { vec_capacity out.old ≤ vec_capacity out.new }
{
    let end = out.len() + pad as usize;
    append(out, &[0; 4]);
    out.truncate(end);
}

/// The marker at a place: two reserved octets, and how far before it the frame begins.
#[tactic(auto, using(crate::proofs::Counted::marker_value_is))]
fn marker(start: u64, at: u64) -> [u8; 4]
    requires marker { at % 512 ≡ 0 }
    requires near { at - start < 2 ^ 16 }
    ensures { result ≡ marker_octets start (at / 512) }
{
    let pointer = at.saturating_sub(start);
    [0, 0, (pointer / 256) as u8, (pointer % 256) as u8]
}

/// Appends the octets of one frame, with the markers among them, to a vector.
#[derive(Drop)]
pub(crate) struct Writer {
    /// The frame place where the frame begins.
    pub(crate) start: u64,
    /// The next frame place: that of a marker, or of the frame's next octet.
    pub(crate) at: u64,
}

impl Writer {
    /// How many octets of the frame come before the next marker.
    #[inline(always)]
    pub(crate) fn before_marker(&self) -> usize
        ensures { result ≡ (512 - self.now.at % 512) % 512 }
    {
        ((SPACING - self.at % SPACING) % SPACING) as usize
    }

    /// Appends the marker, which is next. The frame's next octet is next then.
    #[inline(always)]
    fn put_next_marker<A: Allocator>(&mut self, out: &mut Vec<u8, A>)
        requires marker { self.old.at % 512 ≡ 0 }
        requires low { self.old.at < 2 ^ 63 + 2 ^ 17 }
        requires near { self.old.at - self.old.start < 2 ^ 16 }
        requires room { vec_len out.old + 4 ≤ vec_capacity out.old }
        ensures start { self.new.start ≡ self.old.start }
        ensures place { self.new.at ≡ self.old.at + 4 }
        ensures items { out.new.items ≡ out.old.items ++ marker_octets self.old.start (self.old.at / 512) }
        ensures len { vec_len out.new ≡ vec_len out.old + 4 }
        ensures capacity { vec_capacity out.old ≤ vec_capacity out.new }
    {
        append(out, &marker(self.start, self.at));
        self.at += MARKER;
    }

    /// Appends the marker, if one is next. The frame's next octet is next then.
    #[inline(always)]
    pub(crate) fn put_marker<A: Allocator>(&mut self, out: &mut Vec<u8, A>)
        requires low { self.old.at < 2 ^ 63 + 2 ^ 17 }
        requires edge { IsEdge true self.old.at }
        requires near { self.old.at - self.old.start < 2 ^ 16 }
        requires room { vec_len out.old + (data_place true (data_index true self.old.at) - self.old.at)
            ≤ vec_capacity out.old }
        ensures start { self.new.start ≡ self.old.start }
        ensures place { self.new.at ≡ data_place true (data_index true self.old.at) }
        ensures items { out.new.items ≡ out.old.items ++ marker_before true self.old.start self.old.at }
        ensures len { vec_len out.new ≡ vec_len out.old + (self.new.at - self.old.at) }
        ensures capacity { vec_capacity out.old ≤ vec_capacity out.new }
    {
        if self.at % SPACING == 0 {
            self.put_next_marker(out);
        }
    }

    /// Appends those of these octets that come before the next marker, and returns the rest.
    #[inline(always)]
    fn put_front<'a, A: Allocator>(&mut self, octets: &'a [u8], out: &mut Vec<u8, A>) -> &'a [u8]
        requires { HasRoom true self.old.start self.old.at (length octets.now)
            (vec_len out.old) (vec_capacity out.old) }
        ensures room { HasRoom true self.new.start self.new.at (length result.now)
            (vec_len out.new) (vec_capacity out.new) }
        ensures marker { (length result.now ≡ 0) ⊎ (self.new.at % 512 ≡ 0) }
        ensures start { self.new.start ≡ self.old.start }
        ensures end { place_after true self.new.at (length result.now)
            ≡ place_after true self.old.at (length octets.now) }
        ensures later { self.old.at ≤ self.new.at }
        ensures len { vec_len out.new ≡ vec_len out.old + (self.new.at - self.old.at) }
        ensures capacity { vec_capacity out.old ≤ vec_capacity out.new }
        ensures items { out.new.items ++ laid_from self.old.start self.new.at result.now
            ≡ out.old.items ++ laid_from self.old.start self.old.at octets.now }
    {
        let run = octets.len().min(self.before_marker());
        let (front, back) = octets.split_at(run);
        append(out, front);
        self.at += run as u64;
        back
    }

    /// Appends octets of the frame, with the markers before and among them.
    #[inline(always)]
    pub(crate) fn put<A: Allocator>(&mut self, octets: &[u8], out: &mut Vec<u8, A>)
        requires { HasRoom true self.old.start self.old.at (length octets.now)
            (vec_len out.old) (vec_capacity out.old) }
        ensures start { self.new.start ≡ self.old.start }
        ensures place { self.new.at ≡ place_after true self.old.at (length octets.now) }
        ensures items { out.new.items ≡ out.old.items ++ laid_from self.old.start self.old.at octets.now }
        ensures len { vec_len out.new ≡ vec_len out.old + (self.new.at - self.old.at) }
        ensures capacity { vec_capacity out.old ≤ vec_capacity out.new }
    {
        let mut rest = self.put_front(octets, out);
        while !rest.is_empty() {
            self.put_next_marker(out);
            let run = rest.len().min(RUN);
            let (front, back) = rest.split_at(run);
            append(out, front);
            self.at += run as u64;
            rest = back;
        }
    }

    /// Appends octets of the frame at once, at most as many as come before the next marker.
    #[inline(always)]
    pub(crate) fn put_run<A: Allocator>(&mut self, octets: &[u8], out: &mut Vec<u8, A>)
        requires room { HasRoom true self.old.start self.old.at (length octets.now)
            (vec_len out.old) (vec_capacity out.old) }
        requires run { length octets.now ≤ (512 - self.old.at % 512) % 512 }
        ensures start { self.new.start ≡ self.old.start }
        ensures place { self.new.at ≡ place_after true self.old.at (length octets.now) }
        ensures items { out.new.items ≡ out.old.items ++ laid_from self.old.start self.old.at octets.now }
        ensures len { vec_len out.new ≡ vec_len out.old + (self.new.at - self.old.at) }
        ensures capacity { vec_capacity out.old ≤ vec_capacity out.new }
    {
        append(out, octets);
        self.at += octets.len() as u64;
    }

    /// Appends the pieces one after the other, as `put` does each.
    #[inline(always)]
    pub(crate) fn put_all<A: Allocator>(&mut self, parts: &[&[u8]], out: &mut Vec<u8, A>)
        requires { HasRoom true self.old.start self.old.at (length (joined parts.now))
            (vec_len out.old) (vec_capacity out.old) }
        ensures start { self.new.start ≡ self.old.start }
        ensures place { self.new.at ≡ place_after true self.old.at (length (joined parts.now)) }
        ensures items { out.new.items ≡ out.old.items ++ laid_from self.old.start self.old.at (joined parts.now) }
        ensures len { vec_len out.new ≡ vec_len out.old + (self.new.at - self.old.at) }
        ensures capacity { vec_capacity out.old ≤ vec_capacity out.new }
    {
        for part in parts {
            self.put(part, out);
        }
    }

    /// Appends the length field, with the marker before it, if there is one.
    #[inline(always)]
    pub(crate) fn put_length<A: Allocator>(&mut self, len: u16, out: &mut Vec<u8, A>)
        requires room { HasRoom true self.old.start self.old.at 2 (vec_len out.old) (vec_capacity out.old) }
        requires aligned { self.old.at % 4 ≡ 0 }
        ensures start { self.new.start ≡ self.old.start }
        ensures place { self.new.at ≡ place_after true self.old.at 2 }
        ensures items { out.new.items ≡ out.old.items
            ++ laid_from self.old.start self.old.at (len / 256 ∷ len % 256 ∷ []) }
        ensures len { vec_len out.new ≡ vec_len out.old + (self.new.at - self.old.at) }
        ensures capacity { vec_capacity out.old ≤ vec_capacity out.new }
    {
        self.put_marker(out);
        append(out, &[(len / 256) as u8, (len % 256) as u8]);
        self.at += 2;
    }

    /// Appends the pad. It ends at a multiple of four octets, so no marker is in it or directly before it. There must
    /// be room for the CRC field after it.
    #[inline(always)]
    pub(crate) fn put_pad<A: Allocator>(&mut self, pad: u64, out: &mut Vec<u8, A>)
        requires room { HasRoom true self.old.start self.old.at (pad + 4) (vec_len out.old) (vec_capacity out.old) }
        requires few { pad < 4 }
        requires aligned { (data_index true self.old.at + pad) % 4 ≡ 0 }
        ensures start { self.new.start ≡ self.old.start }
        ensures place { self.new.at ≡ place_after true self.old.at pad }
        ensures items { out.new.items ≡ out.old.items
            ++ laid true self.old.start (data_index true self.old.at) (replicate pad 0)
            self.old.at (place_after true self.old.at pad) }
        ensures len { vec_len out.new ≡ vec_len out.old + (self.new.at - self.old.at) }
        ensures capacity { vec_capacity out.old ≤ vec_capacity out.new }
    {
        append_pad(pad, out);
        self.at += pad;
    }

    /// Appends the pad, and the marker after it, if there is one. There must be room for the CRC field after them.
    #[inline(always)]
    pub(crate) fn put_end<A: Allocator>(&mut self, pad: u64, out: &mut Vec<u8, A>)
        requires room { HasRoom true self.old.start self.old.at (pad + 4) (vec_len out.old) (vec_capacity out.old) }
        requires few { pad < 4 }
        requires aligned { (data_index true self.old.at + pad) % 4 ≡ 0 }
        ensures items { out.new.items ≡ out.old.items
            ++ laid true self.old.start (data_index true self.old.at) (replicate pad 0)
            self.old.at (place_after true self.old.at pad)
            ++ marker_before true self.old.start (place_after true self.old.at pad) }
        ensures room { vec_len out.new + 4 ≤ vec_capacity out.new }
    {
        self.put_pad(pad, out);
        self.put_marker(out);
    }
}
