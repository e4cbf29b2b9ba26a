ghost use Rattle.std.specs.Prelude.{◌≡◌, ◌<◌, ◌≤◌, ◌+◌, ◌*◌, ◌/◌, ◌%◌, ◌^◌, true, false};
ghost use Rattle.iw_fpdu.specs.Frame.{pad_len, frame_end};
ghost use Rattle.iw_fpdu.specs.Laying.{IsRun};
ghost use Rattle.iw_fpdu.specs.Places.{data_place, data_index, frame_start, in_marker, span_start};

/// The distance from one marker to the next, in octets (RFC 5044 4.3).
pub const SPACING: u64 = 512;

/// The length of a marker in octets (RFC 5044 4.3).
pub const MARKER: u64 = 4;

/// What one direction of a connection has: markers, CRCs.
#[derive(Clone, Copy, Debug, PartialEq, Eq)]
pub struct Layout {
    /// There is a marker at each frame place that is a multiple of 512 (RFC 5044 4.3).
    pub markers: bool,
    /// CRCs are generated and checked (RFC 5044 4.4). Otherwise CRC fields are sent as zero and not checked.
    pub crc: bool,
}

impl Layout {
    /// The frame place of data octet `k`: octet `k` of the frames without the markers.
    pub fn place_of(self, k: u64) -> u64
        requires { k < 2 ^ 63 }
        ensures { result ≡ data_place self.markers k }
    {
        place_of(self.markers, k)
    }

    /// Where the frame that is written at frame place `at` begins: there, or after the marker there.
    pub fn start_of(self, at: u64) -> u64
        requires { at < 2 ^ 63 }
        ensures { result ≡ frame_start self.markers at }
    {
        start_of(self.markers, at)
    }

    /// Where the frame that begins at frame place `start` with a ULPDU of `len` octets ends: the place after it.
    pub fn end_of(self, start: u64, len: u16) -> u64
        requires { start < 2 ^ 63 }
        ensures { result ≡ frame_end self.markers start len }
    {
        end_of(self.markers, start, len)
    }
}

#[tactic(auto, unfolding(crate::specs::Places::data_place))]
pub(crate) fn place_of(markers: bool, k: u64) -> u64
    requires { k < 2 ^ 63 + 2 ^ 20 }
    ensures value { result ≡ data_place markers k }
    ensures bound { result ≤ k + k / 127 + 4 }
{
    if markers {
        SPACING * (k / (SPACING - MARKER)) + MARKER + k % (SPACING - MARKER)
    } else {
        k
    }
}

/// How many data octets come before a place.
#[tactic(auto, unfolding(crate::specs::Places::data_index))]
pub(crate) fn index_of(markers: bool, place: u64) -> u64
    ensures value { result ≡ data_index markers place }
    ensures bound { result ≤ place }
{
    if markers {
        (SPACING - MARKER) * (place / SPACING) + (place % SPACING).saturating_sub(MARKER)
    } else {
        place
    }
}

/// The first place from `at` on that is not in a marker.
#[tactic(auto, unfolding(crate::specs::Places::data_place, crate::specs::Places::data_index))]
#[inline(always)]
fn start_of(markers: bool, at: u64) -> u64
    requires { at < 2 ^ 63 }
    ensures { result ≡ frame_start markers at }
{
    if markers {
        let into = at % SPACING;
        at - into + into.max(MARKER)
    } else {
        at
    }
}

/// The place of the data octet that is `n` data octets after the one at `place`.
#[inline(always)]
pub(crate) fn place_past(markers: bool, place: u64, n: u64) -> u64
    requires data { in_marker markers place ≡ false }
    requires low { place < 2 ^ 63 }
    requires near { n < 2 ^ 20 }
    ensures { result ≡ data_place markers (data_index markers place + n) }
{
    if !markers {
        return place + n;
    }
    if place % SPACING + n < SPACING {
        return place + n;
    }
    place_of(true, index_of(true, place) + n)
}

/// Where the span of the frame at frame place `start` begins: at the marker directly before the frame, or at the frame.
#[tactic(auto, unfolding(crate::specs::Places::span_start))]
#[inline]
pub fn span_of(markers: bool, start: u64) -> u64
    ensures value { result ≡ span_start markers start }
    ensures bound { result ≤ start }
{
    if markers && start % SPACING == MARKER {
        start - MARKER
    } else {
        start
    }
}

/// How many pad octets follow a ULPDU of this length.
#[inline(always)]
pub(crate) fn pad_of(len: u16) -> u64
    ensures value { result ≡ pad_len len }
    ensures few { result < 4 }
{
    (4 - (u64::from(len) + 2) % 4) % 4
}

#[inline(always)]
pub(crate) fn end_of(markers: bool, start: u64, len: u16) -> u64
    requires { start < 2 ^ 63 }
    ensures value { result ≡ frame_end markers start len }
    ensures bound { result ≤ 2 ^ 63 + 2 ^ 62 }
{
    let size = 2 + u64::from(len) + pad_of(len) + 4;
    if markers {
        let into = start % SPACING;
        let past_marker = into.saturating_sub(MARKER) + size;
        start - into + MARKER + past_marker + MARKER * ((past_marker - 1) / (SPACING - MARKER))
    } else {
        start + size
    }
}

/// How many of `len` octets fit between `at` and the next marker; all of them if there are no markers.
pub(crate) fn run_at(markers: bool, at: u64, len: usize) -> usize
    requires { in_marker markers at ≡ false }
    ensures within { result ≤ len }
    ensures some { 0 < len → 0 < result }
    ensures run { IsRun markers at result }
    ensures all { result < len → (markers ≡ true) × (result + at % 512 ≡ 512) }
{
    if markers {
        len.min((SPACING - at % SPACING) as usize)
    } else {
        len
    }
}
