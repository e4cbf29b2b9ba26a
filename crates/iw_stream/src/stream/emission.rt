//! What is emitted next: start-up frames, the RTR, messages, responses and the Terminate.
ghost use Rattle.std.specs.Prelude.{◌≡◌, ◌≤◌, ◌^◌, ◌++◌, ◌&&◌, nat_le, length, true, false};
ghost use Rattle.std.specs.Prelude.{◌+◌, [], is_ok, Some, None, Ok, IfOk, IsOk, IsSome, OnOk, OnErr, vec_len, vec_capacity};
ghost use Rattle.std.specs.Option.{option_map_or};
ghost use Rattle.iw_octets.specs.declared.fault.Fault.{Fault};
ghost use Rattle.iw_octets.specs.declared.segment.Segment.TheVariants.{Tagged};
ghost use Rattle.iw_memory.specs.Table.{Table};
ghost use Rattle.iw_stream.specs.Starting.{is_open, first_place_out};
ghost use Rattle.iw_reads.specs.Outstanding.{most_reads};
ghost use Rattle.iw_queues.specs.Segments.{numbers_after, numbers_beyond};
ghost use Rattle.iw_queues.specs.Shown.{shown_part};
ghost use Rattle.iw_stream.specs.Emitting.{numbers_of};
ghost use Rattle.iw_stream.specs.Rtr.{rtr_message};
ghost use Rattle.iw_stream.specs.Stream.{is_read, reads_with};

use super::Stream;
use crate::answer::Emission;
use crate::ending::Ending;
use crate::terminating::terminate_fetched;
use crate::writing::{Numbers, rtr_request, write_part, write_rtr, write_tagged, write_terminate};
use iw_memory::{Memory, Peer};
use iw_octets::Message;
use iw_queues::{Outgoing, Part, Request};
use iw_reads::{Reads, ResponsePart, fetch};
use iw_startup::Rtr;
use std::alloc::{AllocError, Allocator};

fn is_read<A: Allocator>(request: &Request<Outgoing<A>>) -> bool
    ensures { result ≡ is_read request.now }
{
    matches!(request, Request::Read(_))
}

// A Read is not begun while `most` are outstanding.
pub(super) fn must_wait<A: Allocator>(
    most: usize,
    reads: &Reads<A>,
    request: &Request<Outgoing<A>>,
) -> bool
    requires { most ≤ most_reads }
    ensures waits { result ≡ is_read request.now && nat_le most (length reads.now) }
    ensures room { result ≡ false → (is_read request.now && nat_le most_reads (length reads.now)) ≡ false }
{
    is_read(request) && reads.len() >= most
}

// A Read is outstanding once its request was sent. An `Err` means out of memory, and comes only if none was outstanding.
fn read_sent<A: Allocator>(
    reads: &mut Reads<A>,
    ticket: u64,
    request: &Request<Outgoing<A>>,
) -> Result<(), AllocError>
    requires { (is_read request.now && nat_le most_reads (length reads.old)) ≡ false }
    ensures ok { OnOk result (reads.new ≡ reads_with reads.old (Some ticket) request.now) }
    ensures err { OnErr result (reads.new ≡ reads.old) }
    ensures memory { OnErr result ((is_read request.now ≡ true) × (reads.old ≡ [])) }
{
    match request {
        Request::Message(_) => Ok(()),
        Request::Read(request) => reads.add(Some(ticket), *request),
    }
}

// Counts a part that was sent: the numbers of the next messages go on, and a Read is outstanding. A Write changes neither.
// An `Err` means out of memory, comes only if a Read is begun while none is outstanding, and changes nothing.
#[inline(always)]
fn count_part<A: Allocator>(
    numbers: &mut Numbers,
    reads: &mut Reads<A>,
    part: &Part<&Request<Outgoing<A>>>,
) -> Result<(), AllocError>
    requires { (is_read part.now.message.now && nat_le most_reads (length reads.old)) ≡ false }
    ensures numbers { OnOk result (numbers_of numbers.new ≡ numbers_beyond (numbers_of numbers.old) (shown_part part.now)) }
    ensures reads { OnOk result (reads.new ≡ reads_with reads.old (Some part.now.ticket) part.now.message.now) }
    ensures err { OnErr result ((numbers.new ≡ numbers.old) × (reads.new ≡ reads.old)) }
    ensures memory { OnErr result ((is_read part.now.message.now ≡ true) × (reads.old ≡ [])) }
{
    if let Request::Message(Message::Write { .. }) = part.message {
        return Ok(());
    }
    read_sent(reads, part.ticket, part.message)?;
    *numbers = numbers.beyond(part);
    Ok(())
}

// Counts the RTR, which was sent: one that is a Read is outstanding. An `Err` means out of memory, and changes nothing.
fn count_rtr<A: Allocator>(
    numbers: &mut Numbers,
    reads: &mut Reads<A>,
    rtr: Rtr,
) -> Result<(), AllocError>
    requires { reads.old ≡ [] }
    ensures numbers { OnOk result (numbers_of numbers.new ≡ numbers_after (numbers_of numbers.old) (rtr_message rtr)) }
    ensures reads { OnOk result (reads.new ≡ reads_with reads.old None (rtr_message rtr)) }
    ensures err { OnErr result ((numbers.new ≡ numbers.old) × (reads.new ≡ reads.old)) }
    ensures memory { OnErr result (is_read (rtr_message rtr) ≡ true) }
{
    if let Rtr::Read = rtr {
        reads.add(None, rtr_request())?;
    }
    *numbers = numbers.beyond_rtr(rtr);
    Ok(())
}

impl<A: Allocator> Stream<A> {
    ghost use Rattle.iw_stream.specs.Ending.{last_word};
    ghost use Rattle.iw_stream.specs.Stream.{owes_frame, is_mute, keeps_silent, rtr_due, part_due, response_due, message_due, frame_of};
    ghost use Rattle.iw_stream.specs.Stream.{StartUp, LastWord, Ready, Response, NextPart, NoneDue};
    ghost use Rattle.iw_stream.specs.Stream.{octets_due, emission_due, left_due, emission_fetched, left_fetched};
    ghost use Rattle.iw_stream.specs.Stream.{due, emission_of, emitted, after_emit, BeginsReads};

    // Whether this end's start-up frame is to be emitted.
    pub(super) fn owes_frame(&self) -> bool
        ensures { result ≡ owes_frame self.now }
    {
        !self.ending.is_broken() && self.sent < self.start.first_place_out()
    }

    // Whether this is a responder at which no frame of the peer had its turn: it sends no frame yet (RFC 5044 7.1.2).
    fn keeps_silent(&self) -> bool
        ensures { result ≡ keeps_silent self.now }
    {
        self.start.is_responder() && self.arrived.floor() == self.start.first_place_in()
    }

    // Whether no frame may be sent.
    pub(super) fn is_mute(&self) -> bool
        ensures { result ≡ is_mute self.now }
    {
        self.ending.has_ended() || !self.start.is_open() || self.keeps_silent()
    }

    /// Appends to `out` what is to be emitted next: this end's start-up frame; or else, if the stream has ended by a fault, its
    /// Terminate, after which there is nothing more; or else, if frames may be sent, the frame of the RTR, if one is agreed on
    /// and none went out before (RFC 6581 9.2), of the next part of a message that is begun, of the response to the peer's
    /// oldest Read Request, or of the next message, in this order. A Read is not begun while as many are outstanding as the
    /// peer takes, 16 at most, and what was posted after it waits too. An RTR that is a Read is outstanding as they are, but
    /// is no posted one: [`Stream::work`] does not hand it out.
    ///
    /// The octets of a response are fetched as they are sent; if the peer may not read them, nothing is appended and the
    /// stream has ended. An `Err` means out of memory, and changes nothing. It comes only if something is to be appended, and
    /// `out` has no room for it, or a Read is begun while none is outstanding, so that memory is taken for 16 of them.
    #[inline(always)]
    pub fn emit(&mut self, memory: &Memory<A>, out: &mut Vec<u8, A>) -> Result<Emission, AllocError>
        requires { self.old.sent ≤ 2 ^ 62 }
        ensures emission { IfOk result (λ emission. emission ≡ emission_of memory.now self.old) }
        ensures out { OnOk result (out.new.items ≡ out.old.items ++ emitted memory.now self.old) }
        ensures after { OnOk result (self.new ≡ after_emit memory.now self.old) }
        ensures err { OnErr result ((self.new ≡ self.old) × (out.new.items ≡ out.old.items)) }
        ensures memory { emission_of memory.now self.old ≡ Emission.Nothing → is_ok result ≡ true }
        ensures denied { (fault : Fault) → emission_of memory.now self.old ≡ Emission.Fault fault → is_ok result ≡ true }
        ensures room { vec_len out.old + length (emitted memory.now self.old) ≤ vec_capacity out.old → OnErr result (BeginsReads self.old (due self.old)) }
    {
        if self.owes_frame() {
            return self.emit_startup(out);
        }
        if let Ending::Over(Some(_)) = &self.ending {
            return self.emit_last_word(out);
        }
        if self.is_mute() {
            return Ok(Emission::Nothing);
        }
        match self.rtr_due() {
            Some(rtr) => self.emit_rtr(rtr, out),
            None => self.emit_message(memory, out),
        }
    }

    // Appends the frame of a response or a message that is due, if one is.
    #[inline(always)]
    fn emit_message(
        &mut self,
        memory: &Memory<A>,
        out: &mut Vec<u8, A>,
    ) -> Result<Emission, AllocError>
        requires place { self.old.sent ≤ 2 ^ 62 }
        requires open { is_open self.old.start ≡ true }
        requires owed { first_place_out self.old.start ≤ self.old.sent }
        ensures emission { IfOk result (λ emission. emission ≡ emission_due memory.now self.old (message_due self.old)) }
        ensures out { OnOk result (out.new.items ≡ out.old.items ++ octets_due memory.now self.old (message_due self.old)) }
        ensures after { OnOk result (self.new ≡ left_due memory.now self.old (message_due self.old)) }
        ensures err { OnErr result ((self.new ≡ self.old) × (out.new.items ≡ out.old.items)) }
        ensures memory { emission_due memory.now self.old (message_due self.old) ≡ Emission.Nothing → is_ok result ≡ true }
        ensures denied { (fault : Fault) → emission_due memory.now self.old (message_due self.old) ≡ Emission.Fault fault → is_ok result ≡ true }
        ensures room { vec_len out.old + length (octets_due memory.now self.old (message_due self.old)) ≤ vec_capacity out.old → OnErr result (BeginsReads self.old (message_due self.old)) }
    {
        match self.response_due() {
            Some(part) => self.emit_response(part, memory, out),
            None => self.emit_part(out),
        }
    }

    // Appends this end's start-up frame.
    fn emit_startup(&mut self, out: &mut Vec<u8, A>) -> Result<Emission, AllocError>
        requires place { self.old.sent ≤ 2 ^ 62 }
        requires owed { owes_frame self.old ≡ true }
        ensures emission { (table : Table) → IfOk result (λ emission. emission ≡ emission_due table self.old StartUp) }
        ensures out { (table : Table) → OnOk result (out.new.items ≡ out.old.items ++ octets_due table self.old StartUp) }
        ensures after { (table : Table) → OnOk result (self.new ≡ left_due table self.old StartUp) }
        ensures err { OnErr result ((self.new ≡ self.old) × (out.new.items ≡ out.old.items)) }
        ensures room { (table : Table) → vec_len out.old + length (octets_due table self.old StartUp) ≤ vec_capacity out.old → OnErr result (BeginsReads self.old StartUp) }
    {
        let from = self.sent;
        let len = self.start.append_frame(out)?;
        self.sent += len as u64;
        Ok(Emission::Frame { from, len })
    }

    // Appends the frame of the Terminate that is due.
    #[inline(never)]
    fn emit_last_word(&mut self, out: &mut Vec<u8, A>) -> Result<Emission, AllocError>
        requires place { self.old.sent ≤ 2 ^ 62 }
        requires owed { first_place_out self.old.start ≤ self.old.sent }
        requires due { IsSome (last_word self.old.ending) }
        ensures emission { (table : Table) → IfOk result (λ emission. emission ≡ emission_due table self.old (option_map_or LastWord (last_word self.old.ending) NoneDue)) }
        ensures out { (table : Table) → OnOk result (out.new.items ≡ out.old.items ++ octets_due table self.old (option_map_or LastWord (last_word self.old.ending) NoneDue)) }
        ensures after { (table : Table) → OnOk result (self.new ≡ left_due table self.old (option_map_or LastWord (last_word self.old.ending) NoneDue)) }
        ensures err { OnErr result ((self.new ≡ self.old) × (out.new.items ≡ out.old.items)) }
        ensures room { (table : Table) → vec_len out.old + length (octets_due table self.old (option_map_or LastWord (last_word self.old.ending) NoneDue)) ≤ vec_capacity out.old → OnErr result (BeginsReads self.old (option_map_or LastWord (last_word self.old.ending) NoneDue)) }
    {
        let Ending::Over(Some(terminate)) = &self.ending else {
            return Ok(Emission::Nothing);
        };
        let place = self.sent - self.start.first_place_out();
        let before = out.len();
        write_terminate(self.start.sending(), place, terminate.as_slice(), out)?;
        let len = out.len() - before;
        let from = self.sent;
        self.ending = Ending::Over(None);
        self.sent += len as u64;
        Ok(Emission::Frame { from, len })
    }

    // The RTR, if it is to be sent: this end has sent no frame yet.
    #[inline(always)]
    pub(super) fn rtr_due(&self) -> Option<Rtr>
        ensures { result ≡ rtr_due self.now }
    {
        let rtr = self.start.rtr()?;
        if self.sent == self.start.first_place_out() {
            return Some(rtr);
        }
        None
    }

    // Appends the frame of the RTR.
    #[inline(never)]
    fn emit_rtr(&mut self, rtr: Rtr, out: &mut Vec<u8, A>) -> Result<Emission, AllocError>
        requires place { self.old.sent ≤ 2 ^ 62 }
        requires open { is_open self.old.start ≡ true }
        requires due { rtr_due self.old ≡ Some rtr }
        ensures emission { (table : Table) → IfOk result (λ emission. emission ≡ emission_due table self.old (Ready rtr)) }
        ensures out { (table : Table) → OnOk result (out.new.items ≡ out.old.items ++ octets_due table self.old (Ready rtr)) }
        ensures after { (table : Table) → OnOk result (self.new ≡ left_due table self.old (Ready rtr)) }
        ensures err { OnErr result ((self.new ≡ self.old) × (out.new.items ≡ out.old.items)) }
        ensures room { (table : Table) → vec_len out.old + length (octets_due table self.old (Ready rtr)) ≤ vec_capacity out.old → OnErr result (BeginsReads self.old (Ready rtr)) }
    {
        let place = self.sent - self.start.first_place_out();
        let end = out.len();
        write_rtr(self.start.sending(), place, self.numbers, rtr, out)?;
        if let Err(refused) = count_rtr(&mut self.numbers, &mut self.reads, rtr) {
            out.truncate(end);
            return Err(refused);
        }
        let len = out.len() - end;
        let from = self.sent;
        self.sent += len as u64;
        Ok(Emission::Frame { from, len })
    }

    // The part of a response that is to be sent next: none while a message is begun.
    pub(super) fn response_due(&self) -> Option<ResponsePart>
        ensures { result ≡ response_due self.now }
    {
        if self.queue.is_begun() {
            return None;
        }
        self.asked.next_part(self.mulpdu as usize)
    }

    // Fetches the part of a response that is due, and appends its frame.
    fn emit_response(
        &mut self,
        part: ResponsePart,
        memory: &Memory<A>,
        out: &mut Vec<u8, A>,
    ) -> Result<Emission, AllocError>
        requires place { self.old.sent ≤ 2 ^ 62 }
        requires open { is_open self.old.start ≡ true }
        requires owed { first_place_out self.old.start ≤ self.old.sent }
        requires due { response_due self.old ≡ Some part }
        ensures emission { IfOk result (λ emission. emission ≡ emission_due memory.now self.old (Response part)) }
        ensures out { OnOk result (out.new.items ≡ out.old.items ++ octets_due memory.now self.old (Response part)) }
        ensures after { OnOk result (self.new ≡ left_due memory.now self.old (Response part)) }
        ensures err { OnErr result ((self.new ≡ self.old) × (out.new.items ≡ out.old.items)) }
        ensures room { vec_len out.old + length (octets_due memory.now self.old (Response part)) ≤ vec_capacity out.old → OnErr result (BeginsReads self.old (Response part)) }
        ensures denied { (fault : Fault) → emission_due memory.now self.old (Response part) ≡ Emission.Fault fault → is_ok result ≡ true }
    {
        let (domain, stream) = (self.domain, self.number);
        match fetch(&part, memory, Peer { domain, stream }) {
            Ok(octets) => self.emit_fetched(part, octets, out),
            Err(fault) => {
                let terminate = terminate_fetched(&self.asked, fault);
                self.end_by(terminate);
                Ok(Emission::Fault(fault))
            }
        }
    }

    // Appends the frame of a part of a response, with these octets.
    fn emit_fetched(
        &mut self,
        part: ResponsePart,
        octets: &[u8],
        out: &mut Vec<u8, A>,
    ) -> Result<Emission, AllocError>
        requires place { self.old.sent ≤ 2 ^ 62 }
        requires open { is_open self.old.start ≡ true }
        requires owed { first_place_out self.old.start ≤ self.old.sent }
        requires due { response_due self.old ≡ Some part }
        requires octets { length octets.now ≡ part.n }
        ensures emission { IfOk result (λ emission. emission ≡ emission_fetched self.old part (Ok (frame_of self.old (Tagged part.head octets.now)))) }
        ensures out { OnOk result (out.new.items ≡ out.old.items ++ frame_of self.old (Tagged part.head octets.now)) }
        ensures after { OnOk result (self.new ≡ left_fetched self.old part (Ok (frame_of self.old (Tagged part.head octets.now)))) }
        ensures err { OnErr result ((self.new ≡ self.old) × (out.new.items ≡ out.old.items)) }
        ensures room { vec_len out.old + length (frame_of self.old (Tagged part.head octets.now)) ≤ vec_capacity out.old → IsOk result }
    {
        let place = self.sent - self.start.first_place_out();
        let before = out.len();
        write_tagged(self.start.sending(), place, part.head, octets, out)?;
        let len = out.len() - before;
        let from = self.sent;
        self.asked.part_fetched(self.mulpdu as usize);
        self.sent += len as u64;
        let ResponsePart { stag, to, n, .. } = part;
        Ok(Emission::Fetched {
            from,
            len,
            stag,
            to,
            n,
        })
    }

    // Appends the frame of the part of what was posted that is due, if one is.
    #[inline(always)]
    fn emit_part(&mut self, out: &mut Vec<u8, A>) -> Result<Emission, AllocError>
        requires place { self.old.sent ≤ 2 ^ 62 }
        requires open { is_open self.old.start ≡ true }
        requires owed { first_place_out self.old.start ≤ self.old.sent }
        ensures emission { (table : Table) → IfOk result (λ emission. emission ≡ emission_due table self.old (option_map_or NextPart (part_due self.old) NoneDue)) }
        ensures out { (table : Table) → OnOk result (out.new.items ≡ out.old.items ++ octets_due table self.old (option_map_or NextPart (part_due self.old) NoneDue)) }
        ensures after { (table : Table) → OnOk result (self.new ≡ left_due table self.old (option_map_or NextPart (part_due self.old) NoneDue)) }
        ensures err { OnErr result ((self.new ≡ self.old) × (out.new.items ≡ out.old.items)) }
        ensures room { (table : Table) → vec_len out.old + length (octets_due table self.old (option_map_or NextPart (part_due self.old) NoneDue)) ≤ vec_capacity out.old → OnErr result (BeginsReads self.old (option_map_or NextPart (part_due self.old) NoneDue)) }
        ensures memory { part_due self.old ≡ None → is_ok result ≡ true }
    {
        let place = self.sent - self.start.first_place_out();
        self.queue.limits();
        let Some(part) = self.queue.next_part(self.mulpdu as usize) else {
            return Ok(Emission::Nothing);
        };
        if must_wait(self.start.most_reads(), &self.reads, part.message) {
            return Ok(Emission::Nothing);
        }
        let before = out.len();
        write_part(self.start.sending(), place, self.numbers, &part, out)?;
        if let Err(refused) = count_part(&mut self.numbers, &mut self.reads, &part) {
            out.truncate(before);
            return Err(refused);
        }
        let len = out.len() - before;
        let from = self.sent;
        let (n, last) = (part.n, part.last);
        self.queue.part_sent(n, last);
        self.sent += len as u64;
        Ok(Emission::Frame { from, len })
    }
}
