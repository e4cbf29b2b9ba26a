//! What holds of the segments that carry posted messages, whatever parts each was cut into.
ghost use Rattle.iw_queues.specs.Laws.{JoinsToMessage, CompletesInOrder, CoversWrites};
ghost use Rattle.iw_queues.specs.Laws.{SendsInOrder, FillsParts, AwaitsReads, KeepsOrder};

/// Joined, the parts of a message are its octets.
pub fn parts_join_to_their_message()
    ensures { JoinsToMessage }
{}

/// Segments that were delivered in order complete the first of the Sends that were posted, octet for octet.
pub fn sends_complete_in_order()
    ensures { CompletesInOrder }
{}

/// When a Send is complete, each octet of the Writes before it was placed, and none more often than it was posted.
pub fn writes_are_covered()
    ensures { CoversWrites }
{}

/// The parts that a queue sends, each no longer than the ULPDU allows at that time, are the first of segments that carry
/// the posted messages, in order and whole.
pub fn parts_are_sent_in_order()
    ensures { SendsInOrder }
{}

/// Only the last part of a message, which has what is left, is shorter than the ULPDU allows, and only the part of a
/// message without octets is empty.
pub fn parts_are_filled()
    ensures { FillsParts }
{}

/// A Read is awaited from the time when its request is sent until it is finished, or given up as the oldest message.
pub fn reads_are_awaited()
    ensures { AwaitsReads }
{}

/// Messages are handed out in the order in which they were posted, in whatever order Reads finish.
pub fn messages_keep_their_order()
    ensures { KeepsOrder }
{}
