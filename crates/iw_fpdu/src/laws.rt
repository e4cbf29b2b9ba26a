//! Laws of frames.
ghost use Rattle.iw_fpdu.specs.Laws.{FramesFollow, FramesInSequence, KnownFrames, ReadsAgain};
ghost use Rattle.iw_fpdu.specs.Laws.{FarMarkersFail, StaysWhole, TellsWhole};

/// A frame that was written is read back, at any place, with and without markers and CRCs: it is whole, its ULPDU is
/// the one that was written, and it passes the checks.
pub fn written_frames_are_read_again()
    ensures { ReadsAgain }
{}

/// Octets that come later do not change a whole frame.
pub fn whole_frames_stay()
    ensures { StaysWhole }
{}

/// The next frame is written where a frame ends, and there its span begins.
pub fn frames_follow_one_another()
    ensures { FramesFollow }
{}

/// Frames are read in the order in which they were written. The first is the one that was written there, whatever
/// follows it; and the frame found among octets that came is the first of those that came without a gap.
pub fn frames_are_read_in_sequence()
    ensures { FramesInSequence }
{}

/// A marker 65,536 octets or more after the beginning of its frame cannot be right: its pointer has 16 bits.
pub fn far_markers_fail()
    ensures { FarMarkersFail }
{}

/// The definitions give the frames of figures 5 and 6 of RFC 5044, and places and pointers computed by hand.
pub fn known_frames()
    ensures { KnownFrames }
{}

/// A frame is whole exactly if a test of each place of its span says so.
pub fn wholeness_can_be_told()
    ensures { TellsWhole }
{}
