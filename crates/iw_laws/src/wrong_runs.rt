//! Runs that no two ends make, each refused by one law of a trace alone, beside that every answer follows the rules.

ghost use Rattle.iw_laws.specs.WrongRuns.{RefusesFramesBehindFault, RefusesFramesUnopened, RefusesRestWithReply};
ghost use Rattle.iw_laws.specs.WrongRuns.{RefusesNeverFinished, RefusesFinishedUnsent, RefusesFinishedAsWrite};
ghost use Rattle.iw_laws.specs.WrongRuns.{RefusesTooLarge, RefusesCutShort, RefusesElsewhere, RefusesBehindEnd};
ghost use Rattle.iw_laws.specs.WrongRuns.{RefusesOtherOctets, RefusesKeptBehindEnd, RefusesUnaskedAccept};
ghost use Rattle.iw_laws.specs.WrongRuns.{RefusesWrongRefusal, RefusesSameStag};
ghost use Rattle.iw_laws.specs.WrongRuns.{RefusesNumberedOverAll, RefusesFullForAll};
ghost use Rattle.iw_laws.specs.WrongRuns.{RefusesFetchInvalid, RefusesReadUnanswered, RefusesFetchElsewhere};
ghost use Rattle.iw_laws.specs.WrongRuns.{RefusesPlacesPast, RefusesEndsEarly, RefusesDoneByWrite};
ghost use Rattle.iw_laws.specs.WrongRuns.{RefusesSeventeenReads, RefusesSinksUnfetched};
ghost use Rattle.iw_laws.specs.WrongRuns.{RefusesDoneUnplaced, RefusesDoneUnanswered, RefusesSkippedSend};
ghost use Rattle.iw_laws.specs.WrongRuns.{RefusesSecondTerminate, RefusesForgottenMessage};
ghost use Rattle.iw_laws.specs.WrongRuns.{RefusesFinishedFlushed, RefusesBufferFirst, RefusesPlacedInvalidated};
ghost use Rattle.iw_laws.specs.WrongRuns.{RefusesActUnopened, RefusesDeliveryUnopened};
ghost use Rattle.iw_laws.specs.WrongRuns.{RefusesUnpostedSend, RefusesHeldBack, RefusesEmptyFrame};
ghost use Rattle.iw_laws.specs.WrongRuns.{RefusesWriteTwice, RefusesSendBeforeWrite};
ghost use Rattle.iw_laws.specs.WrongRuns.{RefusesPlacedUnwritable, RefusesBufferedPast};
ghost use Rattle.iw_laws.specs.WrongRuns.{RefusesUntoldResponse, RefusesDeniedReadable};
ghost use Rattle.iw_laws.specs.WrongRuns.{RefusesMisnumbered, RefusesDroppedPastWrap, RefusesRestPastWrap, RefusesLateNumber};

/// A stream that was never opened does nothing, not even rest.
pub fn refuses_act_unopened()
    ensures { RefusesActUnopened }
{}

/// Nothing is delivered from an end that never opened the stream, not even an empty delivery.
pub fn refuses_delivery_unopened()
    ensures { RefusesDeliveryUnopened }
{}

/// A frame is not placed after a fault, though its region was registered since.
pub fn refuses_frames_past_fault()
    ensures { RefusesFramesBehindFault }
{}

/// A responder whose user has not answered the Request places no frame.
pub fn refuses_frames_unopened()
    ensures { RefusesFramesUnopened }
{}

/// An initiator that has the whole Reply has something to do.
pub fn refuses_rest_with_reply()
    ensures { RefusesRestWithReply }
{}

/// A Send whose last segment was sent does not stay unfinished.
pub fn refuses_never_finished()
    ensures { RefusesNeverFinished }
{}

/// A Send is not finished before its last segment was sent.
pub fn refuses_finished_unsent()
    ensures { RefusesFinishedUnsent }
{}

/// A Send is not finished as a Write.
pub fn refuses_finished_as_write()
    ensures { RefusesFinishedAsWrite }
{}

/// No Send goes out that was not posted.
pub fn refuses_unposted_send()
    ensures { RefusesUnpostedSend }
{}

/// A Send that may go out is not held back.
pub fn refuses_held_back()
    ensures { RefusesHeldBack }
{}

/// An end that sends no start-up frame sends no empty one either.
pub fn refuses_empty_frame()
    ensures { RefusesEmptyFrame }
{}

/// No ULPDU is larger than the size that was set.
pub fn refuses_too_large()
    ensures { RefusesTooLarge }
{}

/// A part that is not the last of its message has the size that was set.
pub fn refuses_cut_short()
    ensures { RefusesCutShort }
{}

/// A frame stands nowhere but past what was sent before.
pub fn refuses_elsewhere()
    ensures { RefusesElsewhere }
{}

/// A stream that has ended sends no frame.
pub fn refuses_past_end()
    ensures { RefusesBehindEnd }
{}

/// No other octets are delivered than the other end has sent.
pub fn refuses_other_octets()
    ensures { RefusesOtherOctets }
{}

/// A stream that has ended keeps no octets.
pub fn refuses_kept_past_end()
    ensures { RefusesKeptBehindEnd }
{}

/// Where no Request was read there is none to accept.
pub fn refuses_unasked_accept()
    ensures { RefusesUnaskedAccept }
{}

/// The first domain is not refused as taken.
pub fn refuses_wrong_refusal()
    ensures { RefusesWrongRefusal }
{}

/// A registration is not answered by an STag that names a region.
pub fn refuses_same_stag()
    ensures { RefusesSameStag }
{}

/// On an honest stream a Write is not placed twice.
pub fn refuses_write_twice()
    ensures { RefusesWriteTwice }
{}

/// On an honest stream no Send is received before the Write in front of it was placed.
pub fn refuses_send_before_write()
    ensures { RefusesSendBeforeWrite }
{}

/// No Write is placed in a region that may only be read.
pub fn refuses_placed_unwritable()
    ensures { RefusesPlacedUnwritable }
{}

/// No octet of a Send is placed past the end of its receive buffer.
pub fn refuses_buffered_past()
    ensures { RefusesBufferedPast }
{}

/// Octets are delivered with the number of their place, counted from the number of the peer's first octet.
pub fn refuses_misnumbered()
    ensures { RefusesMisnumbered }
{}

/// Octets whose numbers lie past the wrap are not dropped for it.
pub fn refuses_dropped_past_wrap()
    ensures { RefusesDroppedPastWrap }
{}

/// A frame that begins before the wrap is not left where it came whole.
pub fn refuses_rest_past_wrap()
    ensures { RefusesRestPastWrap }
{}

/// The number of the peer's first octet is not set after a delivery.
pub fn refuses_late_number()
    ensures { RefusesLateNumber }
{}

/// STags aren't numbered over all domains: the second domain's first region is in its first slot.
pub fn refuses_numbered_over_all()
    ensures { RefusesNumberedOverAll }
{}

/// A posting in one domain isn't refused for what is posted in another.
pub fn refuses_full_for_all()
    ensures { RefusesFullForAll }
{}

/// No more of a response is sent once its source was invalidated.
pub fn refuses_fetch_invalid()
    ensures { RefusesFetchInvalid }
{}

/// A Read is not finished before its response had its turn.
pub fn refuses_read_unanswered()
    ensures { RefusesReadUnanswered }
{}

/// What is fetched for a Read stands nowhere else than where it was asked for, though it may be read there.
pub fn refuses_fetch_elsewhere()
    ensures { RefusesFetchElsewhere }
{}

/// No response goes out in a frame that is not shown as fetched.
pub fn refuses_untold_response()
    ensures { RefusesUntoldResponse }
{}

/// A Read is not denied while the part that is due may be read.
pub fn refuses_denied_readable()
    ensures { RefusesDeniedReadable }
{}

/// No response is placed past the size that was asked for.
pub fn refuses_places_past()
    ensures { RefusesPlacesPast }
{}

/// No response ends before that size was reached.
pub fn refuses_ends_early()
    ensures { RefusesEndsEarly }
{}

/// The turn of a Write's frame finishes no Read.
pub fn refuses_done_by_write()
    ensures { RefusesDoneByWrite }
{}

/// A seventeenth Read does not go out while sixteen are outstanding.
pub fn refuses_seventeen_reads()
    ensures { RefusesSeventeenReads }
{}

/// On an honest stream no octets are placed for a Read that were not fetched for it.
pub fn refuses_sinks_unfetched()
    ensures { RefusesSinksUnfetched }
{}

/// On an honest stream a Read is not finished before its response was placed.
pub fn refuses_done_unplaced()
    ensures { RefusesDoneUnplaced }
{}

/// On an honest stream a Read is not finished before the other end has answered it.
pub fn refuses_done_unanswered()
    ensures { RefusesDoneUnanswered }
{}

/// Where a Send has a fault, the next one is not received in its place.
pub fn refuses_skipped_send()
    ensures { RefusesSkippedSend }
{}

/// A Terminate goes out once.
pub fn refuses_second_terminate()
    ensures { RefusesSecondTerminate }
{}

/// A message that was posted is handed back where the link breaks.
pub fn refuses_forgotten_message()
    ensures { RefusesForgottenMessage }
{}

/// A message that can be finished is not given up.
pub fn refuses_finished_flushed()
    ensures { RefusesFinishedFlushed }
{}

/// A stream that has ended hands back its messages before its receive buffers.
pub fn refuses_buffer_first()
    ensures { RefusesBufferFirst }
{}

/// Nothing is placed under an STag that a Send has taken away.
pub fn refuses_placed_invalidated()
    ensures { RefusesPlacedInvalidated }
{}
