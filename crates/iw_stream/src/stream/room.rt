//! How many octets the next frame has.
ghost use Rattle.std.specs.Prelude.{◌≡◌, ◌+◌, ◌≤◌, ◌^◌, ℕ, List, length, not, Some};
ghost use Rattle.std.specs.Option.{option_map_or};
ghost use Rattle.iw_octets.specs.declared.segment.Segment.{Segment};
ghost use Rattle.iw_octets.specs.Segment.{segment_octets};
ghost use Rattle.iw_memory.specs.Table.{Table};
ghost use Rattle.iw_fpdu.specs.Frame.{max_sent};
ghost use Rattle.iw_queues.specs.Request.{payload, header_len};
ghost use Rattle.iw_queues.specs.Segments.{Numbers, segment_of};
ghost use Rattle.iw_queues.specs.Shown.{shown_part};
ghost use Rattle.iw_stream.specs.Rtr.{rtr_segment};

use super::Stream;
use super::emission::must_wait;
use crate::ending::Ending;
use iw_memory::{Memory, Peer};
use iw_octets::{Message, READ_REQUEST_HEADER, TAGGED_HEADER, UNTAGGED_HEADER};
use iw_queues::{Outgoing, Part, Request};
use iw_reads::{ResponsePart, fetch};
use iw_startup::Rtr;
use std::alloc::Allocator;

// The length of the ULPDU that carries a part.
fn ulpdu_len<A: Allocator>(part: &Part<&Request<Outgoing<A>>>) -> usize
    requires within { part.now.offset + part.now.n ≤ length (payload part.now.message.now) }
    requires short { header_len part.now.message.now + part.now.n ≤ max_sent }
    ensures len { (numbers : Numbers) → result ≡ length (segment_octets (segment_of numbers (shown_part part.now))) }
    ensures short { result ≤ max_sent }
{
    match part.message {
        Request::Message(Message::Write { .. }) => TAGGED_HEADER + part.n,
        Request::Message(Message::Send { .. }) => UNTAGGED_HEADER + part.n,
        Request::Read(_) => UNTAGGED_HEADER + READ_REQUEST_HEADER,
    }
}

// The length of the RTR's ULPDU.
fn rtr_len(rtr: Rtr) -> usize
    ensures len { (numbers : Numbers) → result ≡ length (segment_octets (rtr_segment numbers rtr)) }
    ensures short { result ≤ max_sent }
{
    match rtr {
        Rtr::Write => TAGGED_HEADER,
        Rtr::Read => UNTAGGED_HEADER + READ_REQUEST_HEADER,
    }
}

impl<A: Allocator> Stream<A> {
    ghost use Rattle.iw_stream.specs.Stream.{part_due, response_due, message_due, frame_of, octets_due, emitted};
    ghost use Rattle.iw_stream.specs.Stream.{NextPart, Response, NoneDue, due, is_none_due, emission_of, IsNothing};

    /// How many octets the next call of [`Stream::emit`] appends, unless it is out of memory: none if nothing is due, or if
    /// the peer may not read what is to be fetched.
    pub fn due_len(&self, memory: &Memory<A>) -> usize
        requires { self.now.sent ≤ 2 ^ 62 }
        ensures { result ≡ length (emitted memory.now self.now) }
    {
        if self.owes_frame() {
            return self.start.first_place_out() as usize;
        }
        if let Ending::Over(Some(terminate)) = &self.ending {
            return self.frame_len(UNTAGGED_HEADER + terminate.len());
        }
        if self.is_mute() {
            return 0;
        }
        match self.rtr_due() {
            Some(rtr) => self.frame_len(rtr_len(rtr)),
            None => self.message_len(memory),
        }
    }

    /// At least as many octets as the next call of [`Stream::emit`] appends: what the maximum ULPDU allows. It takes less time
    /// than [`Stream::due_len`], since it does not look at what is due. (Its second clause says that a frame has octets.)
    pub fn most_due(&self) -> usize
        requires { self.now.sent ≤ 2 ^ 62 }
        ensures most { (table : Table) → length (emitted table self.now) ≤ result }
        ensures some { (table : Table) → length (emitted table self.now) ≡ 0 → IsNothing (emission_of table self.now) }
    {
        if self.owes_frame() {
            return self.start.first_place_out() as usize;
        }
        match self.ending.last_word_len() {
            Some(len) => self.frame_len(UNTAGGED_HEADER + len),
            None => self.frame_len(self.mulpdu as usize),
        }
    }

    /// Whether the next call of [`Stream::emit`] has something to tell: octets to append, or that the peer may not read what is
    /// to be fetched.
    pub fn has_due(&self) -> bool
        ensures { result ≡ not (is_none_due (due self.now)) }
    {
        if self.owes_frame() {
            return true;
        }
        if let Ending::Over(Some(_)) = &self.ending {
            return true;
        }
        if self.is_mute() {
            return false;
        }
        match self.rtr_due() {
            Some(_) => true,
            None => self.has_message(),
        }
    }

    // Whether a response or a message is due.
    fn has_message(&self) -> bool
        ensures { result ≡ not (is_none_due (message_due self.now)) }
    {
        match self.response_due() {
            Some(_) => true,
            None => self.has_part(),
        }
    }

    // Whether a part of what was posted is due.
    fn has_part(&self) -> bool
        ensures { result ≡ not (is_none_due (option_map_or NextPart (part_due self.now) NoneDue)) }
    {
        self.queue.limits();
        let Some(part) = self.queue.next_part(self.mulpdu as usize) else {
            return false;
        };
        !must_wait(self.start.most_reads(), &self.reads, part.message)
    }

    // The length of the frame of a response or a message that is due.
    fn message_len(&self, memory: &Memory<A>) -> usize
        requires { self.now.sent ≤ 2 ^ 62 }
        ensures { result ≡ length (octets_due memory.now self.now (message_due self.now)) }
    {
        match self.response_due() {
            Some(part) => self.response_len(&part, memory),
            None => self.part_len(),
        }
    }

    // The length of the frame that is sent next, if its ULPDU has `ulpdu` octets.
    fn frame_len(&self, ulpdu: usize) -> usize
        requires place { self.now.sent ≤ 2 ^ 62 }
        requires short { ulpdu ≤ max_sent }
        ensures { (segment : Segment (List ℕ)) → length (segment_octets segment) ≡ ulpdu → result ≡ length (frame_of self.now segment) }
    {
        let at = self.sent.saturating_sub(self.start.first_place_out());
        let end = self.start.sending().end_of(at, ulpdu as u16);
        end.saturating_sub(at) as usize
    }

    // The length of the frame of a part of a response.
    fn response_len(&self, part: &ResponsePart, memory: &Memory<A>) -> usize
        requires place { self.now.sent ≤ 2 ^ 62 }
        requires due { response_due self.now ≡ Some part.now }
        ensures { result ≡ length (octets_due memory.now self.now (Response part.now)) }
    {
        let (domain, stream) = (self.domain, self.number);
        match fetch(part, memory, Peer { domain, stream }) {
            Ok(octets) => self.frame_len(TAGGED_HEADER + octets.len()),
            Err(_) => 0,
        }
    }

    // The length of the frame of the part of what was posted that is due.
    fn part_len(&self) -> usize
        requires { self.now.sent ≤ 2 ^ 62 }
        ensures { (table : Table) → result ≡ length (octets_due table self.now (option_map_or NextPart (part_due self.now) NoneDue)) }
    {
        self.queue.limits();
        let Some(part) = self.queue.next_part(self.mulpdu as usize) else {
            return 0;
        };
        if must_wait(self.start.most_reads(), &self.reads, part.message) {
            return 0;
        }
        self.frame_len(ulpdu_len(&part))
    }
}
