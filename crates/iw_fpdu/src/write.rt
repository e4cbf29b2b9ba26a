ghost use Rattle.std.specs.Int.{w32, to_le_bytes};
ghost use Rattle.std.specs.Prelude.{◌≡◌, ◌<◌, ◌≤◌, ◌+◌, ◌-◌, ◌/◌, ◌%◌, ◌^◌, ◌++◌, [], ◌∷◌, true};
ghost use Rattle.std.specs.Prelude.{if◌then◌else◌, nat_lt, length, take, replicate, vec_len, vec_capacity};
ghost use Rattle.std.specs.Prelude.{MatchOption, OnOk, OnErr, IfErr, IsOk};
ghost use Rattle.iw_crc.specs.Crc.{after_octets, all_ones, crc32c};
ghost use Rattle.iw_octets.specs.Pieces.{joined};
ghost use Rattle.iw_fpdu.specs.Frame.{max_sent, bare_data, bare_frame, frame_end, frame_octets, frame_size, field_place, laid};
ghost use Rattle.iw_fpdu.specs.Laying.{HasRoom, laid_from, marker_beyond};
ghost use Rattle.iw_fpdu.specs.Places.{data_index, frame_start, place_after};

use crate::layout::{Layout, MARKER, SPACING, end_of, pad_of};
use crate::writer::{Writer, append, append_end, append_pad};
use iw_crc::Crc;
use iw_octets::{MAX_ULPDU, UNTAGGED_HEADER};
use std::alloc::{AllocError, Allocator};
use thiserror::Error;

/// The length of the longest header in octets.
const MAX_HEADER: usize = UNTAGGED_HEADER;

/// Why a frame is not written.
#[derive(Clone, Copy, Debug, PartialEq, Eq, Error)]
pub enum WriteRefusal {
    /// The ULPDU has more than 64,512 octets: cut the message into more parts.
    #[error("a ULPDU has at most 64,512 octets: cut the message into more parts")]
    TooLong,
    /// Out of memory: the call may be made again.
    #[error("no memory: the call may be made again")]
    NoMemory,
}

/// How many octets the pieces have; `None` if that is more than a ULPDU may have.
fn len_of(parts: &[&[u8]]) -> Option<u16>
    ensures { MatchOption result (max_sent < length (joined parts.now))
        (λ n. (n ≡ length (joined parts.now)) × (n ≤ max_sent)) }
{
    let mut len = 0;
    for part in parts {
        if part.len() > MAX_ULPDU - len {
            return None;
        }
        len += part.len();
    }
    Some(len as u16)
}

/// Appends the pieces one after the other.
#[inline(always)]
fn append_all<A: Allocator>(parts: &[&[u8]], out: &mut Vec<u8, A>)
    requires { vec_len out.old + length (joined parts.now) ≤ vec_capacity out.old }
    ensures items { out.new.items ≡ out.old.items ++ joined parts.now }
    ensures len { vec_len out.new ≡ vec_len out.old + length (joined parts.now) }
    ensures capacity { vec_capacity out.old ≤ vec_capacity out.new }
{
    for part in parts {
        append(out, part);
    }
}

/// The length field and the header of a frame, at the front of an array.
#[inline(always)]
fn front_of<const N: usize>(len: u16, header: [u8; N]) -> [u8; 2 + MAX_HEADER]
    requires few { N ≤ UNTAGGED_HEADER }
    ensures { take (2 + N) result ≡ len / 256 ∷ len % 256 ∷ header.entry }
{
    let mut front = [0; 2 + MAX_HEADER];
    front[0] = (len / 256) as u8;
    front[1] = (len % 256) as u8;
    front[2..2 + N].copy_from_slice(&header);
    front
}

/// Appends the length field and the header of a frame, at once.
#[inline(always)]
fn append_front<const N: usize, A: Allocator>(len: u16, header: [u8; N], out: &mut Vec<u8, A>)
    requires few { N ≤ UNTAGGED_HEADER }
    requires room { vec_len out.old + 2 + N ≤ vec_capacity out.old }
    ensures items { out.new.items ≡ out.old.items ++ (len / 256 ∷ len % 256 ∷ header.entry) }
    ensures len { vec_len out.new ≡ vec_len out.old + 2 + N }
    ensures capacity { vec_capacity out.old ≤ vec_capacity out.new }
{
    append(out, &front_of(len, header)[..2 + N]);
}

/// Appends a frame without markers, up to its CRC field.
fn put_plain<A: Allocator>(len: u16, parts: &[&[u8]], out: &mut Vec<u8, A>)
    requires len { len ≡ length (joined parts.now) }
    requires room { vec_len out.old + frame_size len ≤ vec_capacity out.old }
    ensures items { out.new.items ≡ out.old.items ++ bare_data (joined parts.now) }
    ensures room { vec_len out.new + 4 ≤ vec_capacity out.new }
{
    append(out, &[(len / 256) as u8, (len % 256) as u8]);
    append_all(parts, out);
    append_pad(pad_of(len), out);
}

/// Where the frame that is written at this place begins: there, or after the marker there.
fn start_at(at: u64) -> u64
    requires place { at < 2 ^ 63 }
    requires aligned { at % 4 ≡ 0 }
    ensures { result ≡ frame_start true at }
{
    if at % SPACING == 0 { at + MARKER } else { at }
}

/// Appends a frame with markers, up to its CRC field.
fn put_among_markers<A: Allocator>(at: u64, len: u16, parts: &[&[u8]], out: &mut Vec<u8, A>)
    requires place { at < 2 ^ 63 }
    requires aligned { at % 4 ≡ 0 }
    requires len { len ≡ length (joined parts.now) }
    requires short { len ≤ max_sent }
    requires room { vec_len out.old + (frame_end true at len - at) ≤ vec_capacity out.old }
    ensures items { out.new.items ≡ out.old.items
        ++ laid true (frame_start true at) (data_index true at) (bare_data (joined parts.now)) at
        (field_place true at len) }
    ensures room { vec_len out.new + 4 ≤ vec_capacity out.new }
{
    let mut writer = Writer {
        start: start_at(at),
        at,
    };
    writer.put_length(len, out);
    writer.put_all(parts, out);
    writer.put_pad(pad_of(len), out);
    writer.put_marker(out);
}

/// Appends a frame, up to its CRC field.
fn put_bare<A: Allocator>(markers: bool, at: u64, len: u16, parts: &[&[u8]], out: &mut Vec<u8, A>)
    requires place { at < 2 ^ 63 }
    requires aligned { at % 4 ≡ 0 }
    requires len { len ≡ length (joined parts.now) }
    requires short { len ≤ max_sent }
    requires room { vec_len out.old + (frame_end markers at len - at) ≤ vec_capacity out.old }
    ensures items { out.new.items ≡ out.old.items
        ++ laid markers (frame_start markers at) (data_index markers at) (bare_data (joined parts.now)) at
        (field_place markers at len) }
    ensures room { vec_len out.new + 4 ≤ vec_capacity out.new }
{
    if markers {
        put_among_markers(at, len, parts, out);
    } else {
        put_plain(len, parts, out);
    }
}

/// Appends a frame without markers, up to its CRC field. Its ULPDU is a header and a payload.
#[inline(always)]
fn put_plain_segment<const N: usize, A: Allocator>(
    len: u16,
    header: [u8; N],
    payload: &[u8],
    out: &mut Vec<u8, A>,
)
    requires few { N ≤ UNTAGGED_HEADER }
    requires len { len ≡ length (header ++ payload.now) }
    requires room { vec_len out.old + frame_size len ≤ vec_capacity out.old }
    ensures items { out.new.items ≡ out.old.items ++ bare_data (header.entry ++ payload.now) }
    ensures room { vec_len out.new + 4 ≤ vec_capacity out.new }
{
    append_front(len, header, out);
    append(out, payload);
    append_pad(pad_of(len), out);
}

/// Appends the length field and the header of a frame, with the markers before and among them.
#[inline(always)]
fn put_head<const N: usize, A: Allocator>(
    writer: &mut Writer,
    len: u16,
    header: [u8; N],
    out: &mut Vec<u8, A>,
)
    requires few { N ≤ UNTAGGED_HEADER }
    requires room { HasRoom true writer.old.start writer.old.at (2 + N) (vec_len out.old) (vec_capacity out.old) }
    ensures start { writer.new.start ≡ writer.old.start }
    ensures place { writer.new.at ≡ place_after true writer.old.at (2 + N) }
    ensures items { out.new.items
        ≡ out.old.items ++ laid_from writer.old.start writer.old.at (len / 256 ∷ len % 256 ∷ header.entry) }
    ensures len { vec_len out.new ≡ vec_len out.old + (writer.new.at - writer.old.at) }
    ensures capacity { vec_capacity out.old ≤ vec_capacity out.new }
{
    if 2 + N <= writer.before_marker() {
        writer.put_run(&front_of(len, header)[..2 + N], out);
    } else {
        writer.put(&front_of(len, header)[..2 + N], out);
    }
}

/// Appends a frame with markers, up to its CRC field. Its ULPDU is a header and a payload.
#[inline(always)]
fn put_segment_among_markers<const N: usize, A: Allocator>(
    at: u64,
    len: u16,
    header: [u8; N],
    payload: &[u8],
    out: &mut Vec<u8, A>,
)
    requires place { at < 2 ^ 63 }
    requires aligned { at % 4 ≡ 0 }
    requires few { N ≤ UNTAGGED_HEADER }
    requires len { len ≡ length (header ++ payload.now) }
    requires short { len ≤ max_sent }
    requires room { vec_len out.old + (frame_end true at len - at) ≤ vec_capacity out.old }
    ensures items { out.new.items ≡ out.old.items
        ++ laid true (frame_start true at) (data_index true at) (bare_data (header.entry ++ payload.now)) at
        (field_place true at len) }
    ensures room { vec_len out.new + 4 ≤ vec_capacity out.new }
{
    let mut writer = Writer {
        start: start_at(at),
        at,
    };
    put_head(&mut writer, len, header, out);
    writer.put(payload, out);
    writer.put_end(pad_of(len), out);
}

/// Appends a frame, up to its CRC field. Its ULPDU is a header and a payload.
#[inline(always)]
fn put_segment<const N: usize, A: Allocator>(
    markers: bool,
    at: u64,
    len: u16,
    header: [u8; N],
    payload: &[u8],
    out: &mut Vec<u8, A>,
)
    requires place { at < 2 ^ 63 }
    requires aligned { at % 4 ≡ 0 }
    requires few { N ≤ UNTAGGED_HEADER }
    requires len { len ≡ length (header ++ payload.now) }
    requires short { len ≤ max_sent }
    requires room { vec_len out.old + (frame_end markers at len - at) ≤ vec_capacity out.old }
    ensures items { out.new.items ≡ out.old.items
        ++ laid markers (frame_start markers at) (data_index markers at) (bare_data (header.entry ++ payload.now)) at
        (field_place markers at len) }
    ensures room { vec_len out.new + 4 ≤ vec_capacity out.new }
{
    if markers {
        put_segment_among_markers(at, len, header, payload, out);
    } else {
        put_plain_segment(len, header, payload, out);
    }
}

/// The CRC of what precedes a frame that is written at `at`: of the marker directly before it, if there is one.
#[tactic(auto, unfolding(crate::specs::Laying::marker_beyond))]
fn crc_before(markers: bool, at: u64) -> Crc
    ensures { result ≡ after_octets all_ones (marker_beyond markers at) }
{
    let mut crc = Crc::new();
    if markers && at % SPACING == MARKER {
        crc.add(&[0; 4]);
    }
    crc
}

/// The CRC of a frame that was written at `at` up to its CRC field, as the octets of that field.
#[inline(never)]
fn crc_octets(markers: bool, at: u64, written: &[u8]) -> [u8; 4]
    ensures { result ≡ to_le_bytes w32 (crc32c (marker_beyond markers at ++ written.now)) }
{
    let mut crc = crc_before(markers, at);
    crc.add(written);
    crc.finish().to_le_bytes()
}

/// The CRC field of a frame that was written at `at` up to that field.
#[inline(always)]
fn crc_field(layout: Layout, at: u64, written: &[u8]) -> [u8; 4]
    ensures { result ≡ (if layout.crc then to_le_bytes w32 (crc32c (marker_beyond layout.markers at ++ written.now))
        else 0 ∷ 0 ∷ 0 ∷ 0 ∷ []) }
{
    if layout.crc {
        crc_octets(layout.markers, at, written)
    } else {
        [0; 4]
    }
}

/// Appends the frame of a ULPDU, given in parts, at frame place `at`. If there are markers and `at` is a multiple of
/// 512, a marker precedes the frame (RFC 5044 4.1 to 4.4).
///
/// A ULPDU of more than 64,512 octets is refused with `TooLong`. An `Err` leaves `out` as it was.
pub fn write_fpdu<A: Allocator>(
    layout: Layout,
    at: u64,
    parts: &[&[u8]],
    out: &mut Vec<u8, A>,
) -> Result<(), WriteRefusal>
    requires place { at < 2 ^ 63 }
    requires aligned { at % 4 ≡ 0 }
    ensures ok { OnOk result (out.new.items ≡ out.old.items ++ frame_octets layout at (joined parts.now)) }
    ensures err { OnErr result (out.new.items ≡ out.old.items) }
    ensures sent { OnOk result (length (joined parts.now) ≤ max_sent) }
    ensures refused { IfErr result (λ refusal. refusal
        ≡ (if nat_lt max_sent (length (joined parts.now)) then WriteRefusal.TooLong else WriteRefusal.NoMemory)) }
    ensures memory { length (joined parts.now) ≤ max_sent
        → vec_len out.old + length (frame_octets layout at (joined parts.now)) ≤ vec_capacity out.old → IsOk result }
{
    let Some(len) = len_of(parts) else {
        return Err(WriteRefusal::TooLong);
    };
    let room = (end_of(layout.markers, at, len) - at) as usize;
    if out.reserve(room).is_err() {
        return Err(WriteRefusal::NoMemory);
    }
    let mark = out.len();
    put_bare(layout.markers, at, len, parts, out);
    let (_, written) = out.as_slice().split_at(mark);
    let field = crc_field(layout, at, written);
    append(out, &field);
    Ok(())
}

/// Appends a frame without markers and CRC, whose ULPDU is a header and a payload. It is the same at each frame place.
///
/// An `Err` means out of memory, and leaves `out` as it was.
#[inline(always)]
pub fn write_bare<const N: usize, A: Allocator>(
    header: [u8; N],
    payload: &[u8],
    out: &mut Vec<u8, A>,
) -> Result<(), AllocError>
    requires few { N ≤ UNTAGGED_HEADER }
    requires short { N + length payload.now ≤ max_sent }
    ensures ok { OnOk result (out.new.items ≡ out.old.items ++ bare_frame (header.entry ++ payload.now)) }
    ensures err { OnErr result (out.new.items ≡ out.old.items) }
    ensures memory { vec_len out.old + length (bare_frame (header.entry ++ payload.now)) ≤ vec_capacity out.old
        → IsOk result }
{
    let len = (N + payload.len()) as u16;
    let pad = pad_of(len);
    out.reserve(2 + len as usize + pad as usize + 4)?;
    append_front(len, header, out);
    append(out, payload);
    append_end(pad, out);
    Ok(())
}

/// As `write_segment`, for any layout.
#[inline(always)]
fn write_laid<const N: usize, A: Allocator>(
    layout: Layout,
    at: u64,
    header: [u8; N],
    payload: &[u8],
    out: &mut Vec<u8, A>,
) -> Result<(), AllocError>
    requires place { at < 2 ^ 63 }
    requires aligned { at % 4 ≡ 0 }
    requires few { N ≤ UNTAGGED_HEADER }
    requires short { N + length payload.now ≤ max_sent }
    ensures ok { OnOk result (out.new.items ≡ out.old.items ++ frame_octets layout at (header.entry ++ payload.now)) }
    ensures err { OnErr result (out.new.items ≡ out.old.items) }
    ensures memory { vec_len out.old + length (frame_octets layout at (header.entry ++ payload.now)) ≤ vec_capacity out.old
        → IsOk result }
{
    let len = (N + payload.len()) as u16;
    let room = (end_of(layout.markers, at, len) - at) as usize;
    out.reserve(room)?;
    let mark = out.len();
    put_segment(layout.markers, at, len, header, payload, out);
    let (_, written) = out.as_slice().split_at(mark);
    let field = crc_field(layout, at, written);
    append(out, &field);
    Ok(())
}

/// Appends the frame of a ULPDU, given as a header and a payload, at frame place `at`, as [`write_fpdu`] does. It is
/// faster: length field and header are appended at once.
///
/// An `Err` means out of memory, and leaves `out` as it was.
#[inline(always)]
pub fn write_segment<const N: usize, A: Allocator>(
    layout: Layout,
    at: u64,
    header: [u8; N],
    payload: &[u8],
    out: &mut Vec<u8, A>,
) -> Result<(), AllocError>
    requires place { at < 2 ^ 63 }
    requires aligned { at % 4 ≡ 0 }
    requires few { N ≤ UNTAGGED_HEADER }
    requires short { N + length payload.now ≤ max_sent }
    ensures ok { OnOk result (out.new.items ≡ out.old.items ++ frame_octets layout at (header.entry ++ payload.now)) }
    ensures err { OnErr result (out.new.items ≡ out.old.items) }
    ensures memory { vec_len out.old + length (frame_octets layout at (header.entry ++ payload.now)) ≤ vec_capacity out.old
        → IsOk result }
{
    if layout.markers || layout.crc {
        return write_laid(layout, at, header, payload, out);
    }
    write_bare(header, payload, out)
}
