//! Start-up frames as octets: this end's own spelled, the peer's read as far as it has come.
ghost use Rattle.std.specs.Prelude.{◌≡◌, ◌+◌, ◌-◌, ◌≤◌, ◌++◌, IfNone, min, [], length, take, slice_index};
ghost use Rattle.std.specs.Prelude.{drop, if◌then◌else◌};
ghost use Rattle.arrayvec.specs.ArrayVec.{array_vec_len};
ghost use Rattle.iw_startup.specs.Frame.{flags, half, half_at, word_octets, headed, start_frame};
ghost use Rattle.iw_startup.specs.Frame.{has_flag, has_revision, has_word, private_len, private_at, data_in, told, options_in, revision_of};
ghost use Rattle.iw_startup.specs.Peer.{takes_revision, is_bad_length, fixed_fault, frame_end, is_whole, is_read, progress_of};
ghost use Rattle.iw_startup.specs.State.{agreement};

use crate::config::{
    Agreed, Establishment, FIXED_OCTETS, MAX_FRAME, PeerOptions, PrivateData, WORD_OCTETS,
};
use crate::enhanced::{EnhancedData, Revision};
use crate::negotiation::{agreed_ord, rtr_due};
use crate::own::Own;
use crate::progress::{Progress, StartupFault};
use arrayvec::ArrayVec;
use iw_octets::MAX_PRIVATE;

// Where the fields after the key stand.
const FLAGS_AT: usize = 16;

const REVISION_AT: usize = 17;

const PRIVATE_LEN_AT: usize = 18;

// The halves of an enhanced frame's word.
const IRD_AT: usize = FIXED_OCTETS;

const ORD_AT: usize = FIXED_OCTETS + 2;

// The flags.
const MARKERS: u8 = 0x80;

const CRC: u8 = 0x40;

const REJECTED: u8 = 0x20;

const ENHANCED: u8 = 0x10;

// The flags and the depth of each half of the word: A and B with IRD, C and D with ORD.
const FIRST_FLAG: u16 = 0x8000;

const SECOND_FLAG: u16 = 0x4000;

fn flags_octet(markers: bool, crc: bool, rejected: bool, enhanced: bool) -> u8
    ensures { result ≡ flags markers crc rejected enhanced }
{
    let mut octet = 0;
    if markers {
        octet += MARKERS;
    }
    if crc {
        octet += CRC;
    }
    if rejected {
        octet += REJECTED;
    }
    if enhanced {
        octet += ENHANCED;
    }
    octet
}

fn half(first: bool, second: bool, depth: u16) -> u16
    ensures { result ≡ half first second depth }
{
    let first = if first { FIRST_FLAG } else { 0 };
    let second = if second { SECOND_FLAG } else { 0 };
    first + second + depth % SECOND_FLAG
}

fn word_octets(word: EnhancedData) -> [u8; WORD_OCTETS]
    ensures { result ≡ word_octets word }
{
    let inbound = half(word.peer_to_peer, word.rtr_send, word.ird);
    let outbound = half(word.rtr_write, word.rtr_read, word.ord);
    [
        (inbound / 256) as u8,
        (inbound % 256) as u8,
        (outbound / 256) as u8,
        (outbound % 256) as u8,
    ]
}

fn append(frame: &mut ArrayVec<u8, MAX_FRAME>, octets: &[u8])
    requires { array_vec_len frame.old + length octets.now ≤ MAX_FRAME }
    ensures { frame.new.items ≡ frame.old.items ++ octets.now }
{
    let _ = frame.try_extend_from_slice(octets);
}

// The frame with this key, these flags and this revision, whose private data begins with `word`.
fn headed(
    key: &[u8; 16],
    flags: u8,
    revision: u8,
    word: &[u8],
    private: &[u8],
) -> ArrayVec<u8, MAX_FRAME>
    requires { length word.now + length private.now ≤ MAX_PRIVATE }
    ensures { result.items ≡ headed key.now flags revision (word.now ++ private.now) }
{
    let len = word.len() + private.len();
    let mut frame = ArrayVec::new();
    append(&mut frame, key);
    append(
        &mut frame,
        &[flags, revision, (len / 256) as u8, (len % 256) as u8],
    );
    append(&mut frame, word);
    append(&mut frame, private);
    frame
}

/// The frame with this key, M, C, R, revision and private data.
#[tactic(auto, unfolding(crate::specs::Frame::start_frame))]
pub(crate) fn written(
    key: &[u8; 16],
    markers: bool,
    crc: bool,
    rejected: bool,
    revision: Revision,
    private: &PrivateData,
) -> ArrayVec<u8, MAX_FRAME>
    requires { length (start_frame key.now markers crc rejected revision private.now.items) ≤ MAX_FRAME }
    ensures { result.items ≡ start_frame key.now markers crc rejected revision private.now.items }
{
    let flags = flags_octet(markers, crc, rejected, revision.is_enhanced());
    let number = revision.number();
    match revision {
        Revision::One | Revision::Two(None) => headed(key, flags, number, &[], private.as_slice()),
        Revision::Two(Some(word)) => {
            let word = word_octets(word);
            headed(key, flags, number, &word, private.as_slice())
        }
    }
}

/// How many octets it has, where it has the word or not.
pub(crate) fn written_len(enhanced: bool, private: &PrivateData) -> usize
    ensures { result ≡ 20 + (if enhanced then 4 else 0) + length private.now.items }
{
    let word = if enhanced { WORD_OCTETS } else { 0 };
    FIXED_OCTETS + word + private.len()
}

// Takes the next octets as far as `end`, and tells how many.
pub(crate) fn take_up_to(end: usize, taken: &mut ArrayVec<u8, MAX_FRAME>, octets: &[u8]) -> usize
    requires { end ≤ MAX_FRAME }
    ensures used { result ≡ min (end - array_vec_len taken.old) (length octets.now) }
    ensures items { taken.new.items ≡ taken.old.items ++ take result octets.now }
{
    let used = end.saturating_sub(taken.len()).min(octets.len());
    append(taken, &octets[..used]);
    used
}

// The octet at this place, 0 before it has come.
fn octet_at(octets: &[u8], at: usize) -> u8
    ensures { result ≡ slice_index octets.now at }
{
    octets.get(at).copied().unwrap_or(0)
}

fn flag_is_set(flag: u8, octets: &[u8]) -> bool
    ensures { result ≡ has_flag flag octets.now }
{
    octet_at(octets, FLAGS_AT) & flag != 0
}

fn has_revision(revision: u8, octets: &[u8]) -> bool
    ensures { result ≡ has_revision revision octets.now }
{
    octet_at(octets, REVISION_AT) == revision
}

fn private_len_in(octets: &[u8]) -> usize
    ensures { result ≡ private_len octets.now }
{
    let high = octet_at(octets, PRIVATE_LEN_AT);
    let low = octet_at(octets, PRIVATE_LEN_AT + 1);
    usize::from(high) * 256 + usize::from(low)
}

/// Whether the private data of the peer's frame begins with a word of IRD and ORD.
pub(crate) fn has_word(own: &Own, octets: &[u8]) -> bool
    ensures { result ≡ has_word own.now.config.establishment octets.now }
{
    match own.establishment {
        Establishment::Plain => false,
        Establishment::Enhanced | Establishment::PeerToPeer => {
            has_revision(2, octets) && flag_is_set(ENHANCED, octets)
        }
    }
}

fn half_at(octets: &[u8], at: usize) -> u16
    requires { at ≤ ORD_AT }
    ensures { result ≡ half_at octets.now at }
{
    u16::from(octet_at(octets, at)) * 256 + u16::from(octet_at(octets, at + 1))
}

fn data_in(octets: &[u8]) -> EnhancedData
    ensures { result ≡ data_in octets.now }
{
    let inbound = half_at(octets, IRD_AT);
    let outbound = half_at(octets, ORD_AT);
    EnhancedData {
        ird: inbound % SECOND_FLAG,
        ord: outbound % SECOND_FLAG,
        peer_to_peer: FIRST_FLAG <= inbound,
        rtr_send: SECOND_FLAG <= inbound % FIRST_FLAG,
        rtr_write: FIRST_FLAG <= outbound,
        rtr_read: SECOND_FLAG <= outbound % FIRST_FLAG,
    }
}

/// The word of the peer's frame, if it has one.
pub(crate) fn told(own: &Own, octets: &[u8]) -> Option<EnhancedData>
    ensures { result ≡ told own.now.config.establishment octets.now }
{
    if !has_word(own, octets) {
        return None;
    }
    Some(data_in(octets))
}

/// The revision of the peer's frame.
pub(crate) fn revision_of(own: &Own, octets: &[u8]) -> Revision
    ensures { result ≡ revision_of own.now.config.establishment octets.now }
{
    match own.establishment {
        Establishment::Plain => Revision::One,
        Establishment::Enhanced | Establishment::PeerToPeer => {
            if !has_revision(2, octets) {
                return Revision::One;
            }
            Revision::Two(told(own, octets))
        }
    }
}

fn takes_revision(own: &Own, octets: &[u8]) -> bool
    ensures { result ≡ takes_revision own.now.side own.now.config.establishment octets.now }
{
    match own.establishment {
        Establishment::Plain => has_revision(1, octets),
        Establishment::Enhanced | Establishment::PeerToPeer => {
            if own.is_responder() {
                return has_revision(1, octets) || has_revision(2, octets);
            }
            has_word(own, octets)
        }
    }
}

fn is_bad_length(own: &Own, octets: &[u8]) -> bool
    ensures { result ≡ is_bad_length own.now.config.establishment octets.now }
{
    let len = private_len_in(octets);
    has_word(own, octets) && len < WORD_OCTETS || len > MAX_PRIVATE
}

#[tactic(auto, unfolding(crate::specs::Peer::fixed_fault))]
fn fault_in_fixed(own: &Own, octets: &[u8]) -> Option<StartupFault>
    ensures fault { result ≡ fixed_fault own.now.config.establishment own.now.side octets.now }
    ensures fits { IfNone result (private_len octets.now ≤ MAX_PRIVATE) }
{
    if !octets.starts_with(own.peer_key()) {
        return Some(StartupFault::BadKey);
    }
    if !takes_revision(own, octets) {
        return Some(StartupFault::BadRev);
    }
    if is_bad_length(own, octets) {
        return Some(StartupFault::BadLength);
    }
    None
}

#[tactic(auto, unfolding(crate::specs::Peer::frame_end))]
pub(crate) fn end_of_frame(own: &Own, octets: &[u8]) -> usize
    ensures end { result ≡ frame_end own.now.config.establishment own.now.side octets.now }
    ensures fits { result ≤ MAX_FRAME }
{
    if octets.len() < FIXED_OCTETS || fault_in_fixed(own, octets).is_some() {
        return FIXED_OCTETS;
    }
    FIXED_OCTETS + private_len_in(octets)
}

#[tactic(auto, unfolding(crate::specs::Peer::progress_of))]
pub(crate) fn progress_in(own: &Own, octets: &[u8]) -> Progress
    ensures { result ≡ progress_of own.now.config.establishment own.now.side octets.now }
{
    if octets.len() < end_of_frame(own, octets) {
        return Progress::More;
    }
    if let Some(fault) = fault_in_fixed(own, octets) {
        return Progress::Faulted(fault);
    }
    if own.is_responder() {
        return Progress::Asked;
    }
    if flag_is_set(REJECTED, octets) {
        return Progress::Faulted(StartupFault::Rejected);
    }
    Progress::Agreed
}

/// Whether the frame is whole, with no fault in its fixed octets.
pub(crate) fn is_read(own: &Own, octets: &[u8]) -> bool
    ensures { result ≡ is_read own.now.config.establishment own.now.side octets.now }
{
    octets.len() >= end_of_frame(own, octets) && fault_in_fixed(own, octets).is_none()
}

// The user's private data, empty before the frame is whole.
pub(crate) fn private_in<'a>(own: &Own, octets: &'a [u8]) -> &'a [u8]
    ensures { result.now ≡ (if is_whole own.now.config.establishment own.now.side octets.now
        then drop (private_at own.now.config.establishment octets.now) octets.now else []) }
{
    if end_of_frame(own, octets) > octets.len() {
        return &[];
    }
    let at = if has_word(own, octets) {
        FIXED_OCTETS + WORD_OCTETS
    } else {
        FIXED_OCTETS
    };
    octets.get(at..).unwrap_or(&[])
}

/// What the peer's frame asks for.
pub(crate) fn options_in(octets: &[u8]) -> PeerOptions
    ensures { result ≡ options_in octets.now }
{
    PeerOptions {
        markers: flag_is_set(MARKERS, octets),
        crc: flag_is_set(CRC, octets),
        revision: octet_at(octets, REVISION_AT),
    }
}

// What this end's frame and the peer's agree on.
pub(crate) fn agreement_with(own: &Own, octets: &[u8]) -> Agreed
    ensures { result ≡ agreement own.now.config octets.now }
{
    let told = told(own, octets);
    Agreed {
        send_markers: flag_is_set(MARKERS, octets),
        expect_markers: own.markers,
        crc: own.crc || flag_is_set(CRC, octets),
        ord: agreed_ord(told),
        rtr: rtr_due(own.establishment, told),
    }
}
