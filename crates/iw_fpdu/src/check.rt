ghost use Rattle.std.specs.Prelude.{◌≡◌, ◌<◌, ◌≤◌, ◌+◌, ◌-◌, ◌^◌, ◌*◌, ◌/◌, length, slice_index, true};
ghost use Rattle.std.specs.Int.{w32, from_le_bytes};
ghost use Rattle.std.specs.Result.{result_err};
ghost use Rattle.iw_fpdu.specs.Frame.{frame_end};
ghost use Rattle.iw_fpdu.specs.PiecesOctet.{octet_from};
ghost use Rattle.iw_fpdu.specs.Places.{IsStart, span_start};
ghost use Rattle.iw_fpdu.specs.Reading.{crc_agrees, markers_agree, mismatch_at};

use crate::fpdu::Mismatch;
use crate::layout::{Layout, SPACING, span_of};
use iw_crc::crc32c;

/// The number in a CRC field, low octet first.
fn number_in(field: &[u8]) -> u32
    requires { 4 ≤ length field.now }
    ensures { result ≡ from_le_bytes w32 field.now }
{
    u32::from_le_bytes([field[0], field[1], field[2], field[3]])
}

/// Whether the CRC field is the CRC of the octets before it in the span.
fn does_crc_agree(markers: bool, start: u64, len: u16, octets: &[u8]) -> bool
    requires start { IsStart markers start }
    requires span { span_start markers start + length octets.now ≡ frame_end markers start len }
    ensures { result ≡ crc_agrees (octet_from (span_start markers start) octets.now) markers start len }
{
    let (before, field) = octets.split_at(octets.len() - 4);
    number_in(field) == crc32c(before)
}

/// The pointer of the marker at index `at`: how far before it the frame begins.
fn pointer(octets: &[u8], at: usize) -> u16
    requires { at + 4 ≤ length octets.now }
    ensures { result ≡ (256 * slice_index octets.now (at + 2) + slice_index octets.now (at + 3)) / 4 * 4 }
{
    u16::from_be_bytes([octets[at + 2], octets[at + 3]]) / 4 * 4
}

/// Whether the markers of the span point to the frame's beginning.
fn do_markers_agree(start: u64, len: u16, octets: &[u8]) -> bool
    requires low { start < 2 ^ 63 }
    requires start { IsStart true start }
    requires span { span_start true start + length octets.now ≡ frame_end true start len }
    ensures { result ≡ markers_agree (octet_from (span_start true start) octets.now) start len }
{
    let from = span_of(true, start);
    let end = from + octets.len() as u64;
    let mut place = from.div_ceil(SPACING) * SPACING;
    while place < end {
        let value = pointer(octets, (place - from) as usize);
        if u64::from(value) != place.saturating_sub(start) {
            return false;
        }
        place += SPACING;
    }
    true
}

/// Judges the octets of a frame's span.
#[tactic(auto, unfolding(crate::specs::Reading::mismatch_at))]
#[inline(never)]
pub(crate) fn check_span(
    layout: Layout,
    start: u64,
    len: u16,
    octets: &[u8],
) -> Result<(), Mismatch>
    requires low { start < 2 ^ 63 }
    requires start { IsStart layout.markers start }
    requires span { span_start layout.markers start + length octets.now ≡ frame_end layout.markers start len }
    ensures { result_err result
        ≡ mismatch_at layout (octet_from (span_start layout.markers start) octets.now) start len }
{
    if layout.crc && !does_crc_agree(layout.markers, start, len, octets) {
        return Err(Mismatch::CrcMismatch);
    }
    if layout.markers && !do_markers_agree(start, len, octets) {
        return Err(Mismatch::MarkerMismatch);
    }
    Ok(())
}
