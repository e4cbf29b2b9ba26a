//! The checks of frames, at the in-order point and before their turn, and where their payload goes.
ghost use Rattle.std.specs.Prelude.{◌≡◌, ◌+◌, ◌<◌, ◌≤◌, ◌^◌, length, true, false};
ghost use Rattle.std.specs.Prelude.{[], is_some, Some, None, Ok, IfSome, IfNone, OnSome, IfOk, OnOk, OnErr, IsTrue};
ghost use Rattle.iw_fpdu.specs.Found.{HoldsSpan};
ghost use Rattle.iw_locate.specs.Records.{max_records, added};
ghost use Rattle.iw_locate.specs.Next.{IsNext};
ghost use Rattle.iw_locate.specs.Unsearched.{IsFollowed};
ghost use Rattle.iw_stream.specs.Frames.{Frame, frame_by, placed as placed_of, state_tried, record_tried, without};
ghost use Rattle.iw_memory.specs.Table.{Table};
ghost use Rattle.iw_stream.specs.Incoming.{IsSameStart, scene_in, frame_in};
ghost use Rattle.iw_stream.specs.Judging.{early_verdict, table_tried, receiving_tried};
ghost use Rattle.iw_stream.specs.Kept.{IsWithinBuffer};
ghost use Rattle.iw_stream.specs.Work.{judged_step};
ghost use Rattle.iw_octets.specs.declared.constants.TheConstants.{MAX_UNANSWERED};
ghost use Rattle.std.specs.Option.{option_map_or};
ghost use Rattle.iw_stream.specs.Starting.{is_open};
ghost use Rattle.iw_reads.specs.Source.{IsInRange};

use super::Stream;
use crate::answer::Step;
use crate::effects::is_response;
use crate::ending::Ending;
use crate::incoming::{Incoming, frame_at, held_at};
use crate::landing::{
    Buffered, Header, Landing, PlacedFrame, header_of, keep_frame, keep_tagged, land_early,
    land_frame, land_send, land_tagged, landing_of, placed_frame, tagged_parts,
};
use crate::terminating::{LastWord, terminate_clashed, terminate_judged};
use iw_fpdu::Fpdu;
use iw_locate::{Frame as EarlyFrame, Next, State};
use iw_memory::{Memory, Peer, Right};
use iw_octets::{Fault, Octets, ReadRequest, UNTAGGED_HEADER, is_tagged};
use iw_rdmap::tagged_head;
use iw_reads::{Asked, Reads, Requests};
use iw_tagged::Placed;
use iw_untagged::RecvQueue;
use std::alloc::{AllocError, Allocator};

/// The step is left to a call of its own.
#[derive(Clone, Copy, Debug, PartialEq, Eq)]
pub(crate) struct Apart;

// What is said of octets that were placed with this right.
#[inline(always)]
fn placed_step<A: Allocator>(right: Right, placed: Placed) -> Step<Octets<A>>
    ensures { result ≡ Step.Placed right placed.stag placed.to placed.n }
{
    let Placed { stag, to, n } = placed;
    Step::Placed {
        right,
        stag,
        to,
        len: n,
    }
}

// What is said of a frame whose payload went there.
#[inline(always)]
pub(crate) fn landed_step<A: Allocator>(landing: Landing) -> Step<Octets<A>>
    ensures step { result ≡ judged_step (Ok landing) }
    ensures within { IsWithinBuffer result }
{
    match landing {
        Landing::Write(placed) => placed_step(Right::Write, placed),
        Landing::Response(placed) => placed_step(Right::Sink, placed),
        Landing::Send { msn, mo, len } => Step::Buffered { msn, mo, len },
        Landing::Request(request) => requested_step(request),
        Landing::Terminate(fault) => Step::Terminated(fault),
    }
}

// Keeps what is kept of a frame whose octets were placed with this right, and says so. The frame begins at frame place `start`.
#[inline(always)]
fn keep_placed<A: Allocator, B: Allocator>(
    kept: &mut Option<PlacedFrame>,
    fpdu: &Fpdu<'_, A>,
    start: u64,
    right: Right,
    placed: Placed,
) -> Step<Octets<B>>
    requires holds { HoldsSpan fpdu.now }
    requires start { start ≡ fpdu.now.start }
    ensures kept { kept.new ≡ Some (placed_of (frame_by fpdu.now)) }
    ensures step { result ≡ Step.Placed right placed.stag placed.to placed.n }
{
    keep_frame(kept, fpdu, start);
    placed_step(right, placed)
}

// What is said of a Read Request that was taken up.
fn requested_step<A: Allocator>(request: ReadRequest) -> Step<Octets<A>>
    ensures { result ≡ Step.Requested request.size request.source request.source_to }
{
    let ReadRequest {
        size,
        source,
        source_to,
        ..
    } = request;
    Step::Requested {
        size,
        stag: source,
        to: source_to,
    }
}

// What is kept of a frame that was judged early, and whose payload went there.
fn state_tried<A: Allocator>(landing: &Option<Landing>, fpdu: &Fpdu<'_, A>) -> State<Header>
    requires { HoldsSpan fpdu.now }
    ensures { result ≡ state_tried (frame_by fpdu.now) landing.now }
{
    match landing {
        None => State::Tried,
        Some(_) => State::Placed(header_of(fpdu)),
    }
}

// Judges the frame that was found to be the one that can be judged early, places its payload if that is allowed, and keeps its
// record. The octets of a frame that was placed are given up.
fn judge_early<A: Allocator, B: Allocator>(
    frame: EarlyFrame,
    arrived: &mut Incoming<A>,
    peer: Peer,
    reads: &Reads<B>,
    asked: &Requests,
    memory: &mut Memory<B>,
    receiving: &mut RecvQueue<B>,
) -> Option<Landing>
    requires low { arrived.old.arrived.floor ≤ 2 ^ 62 }
    requires room { 0 < arrived.old.room }
    requires releases { 0 < arrived.old.releases }
    requires few { length arrived.old.early < max_records }
    requires next { IsNext (scene_in arrived.old) (Next.Frame frame) }
    requires early { frame.early ≡ true }
    requires followed { IsFollowed arrived.old.unsearched frame }
    ensures landed { result ≡ early_verdict (record { table = memory.old; peer = peer; receiving = receiving.old; reads = reads.now; asked = asked.now }) (frame_in arrived.old frame.start) }
    ensures memory { memory.new ≡ table_tried memory.old (frame_in arrived.old frame.start) result }
    ensures receiving { receiving.new ≡ receiving_tried receiving.old (frame_in arrived.old frame.start) result }
    ensures arrived { let frame = frame_in arrived.old frame.start in
        arrived.new.arrived ≡ without arrived.old.base arrived.old.arrived (record_tried frame result) (state_tried frame result) }
    ensures early { arrived.new.early ≡ added arrived.old.early (record_tried (frame_in arrived.old frame.start) result) }
    ensures same { IsSameStart arrived.old arrived.new }
{
    let fpdu = arrived.read_early(&frame);
    let landing = land_early(&fpdu, peer, reads, asked, memory, receiving);
    let state = state_tried(&landing, &fpdu);
    arrived.keep(frame, state);
    landing
}

impl<A: Allocator> Stream<A> {
    ghost use Rattle.iw_stream.specs.Stream.{ended, ends, ends_by};
    ghost use Rattle.iw_stream.specs.Work.{Judge, Try, Rest, IsTry, waiting, clashes, takes_up, beyond};
    ghost use Rattle.iw_stream.specs.Work.{next_frame, early_frame, frame_task, step_of, left_by, table_left};
    ghost use Rattle.iw_stream.specs.Kept.{Stands, NoneReachesOver};

    // Judges the frame at the in-order point, if it is whole, and places it, if it is of a Write or a Read Response and passes
    // its checks. The answer is its place, or `None` if it is not whole. An `Err` changes nothing, and comes with any other
    // frame.
    #[inline(always)]
    pub(crate) fn judge(&mut self, memory: &mut Memory<A>) -> Result<Option<Landing>, Apart>
        requires open { is_open self.old.start ≡ true }
        requires runs { ended self.old ≡ false }
        requires place { self.old.arrived.floor + 2 ^ 18 ≤ 2 ^ 63 }
        requires waiting { waiting self.old ≡ None }
        requires clear { (frame : Frame) → next_frame self.old ≡ Some frame → clashes self.old frame ≡ false }
        ensures step { IfOk result (λ found. IfSome found (λ landing. judged_step (Ok landing) ≡ step_of memory.old self.old (option_map_or Judge (next_frame self.old) Rest))) }
        ensures whole { IfOk result (λ found. is_some found ≡ is_some (next_frame self.old)) }
        ensures after { OnOk result (self.new ≡ left_by memory.old self.old (option_map_or Judge (next_frame self.old) Rest)) }
        ensures memory { OnOk result (memory.new ≡ table_left memory.old self.old (option_map_or Judge (next_frame self.old) Rest)) }
        ensures err { OnErr result ((self.new ≡ self.old) × (memory.new ≡ memory.old)) }
        ensures other { OnErr result (is_some (next_frame self.old) ≡ true) }
        ensures reach { self.new.arrived.floor ≤ self.old.arrived.floor + 2 ^ 18 }
    {
        if self.arrived.missing() <= self.arrived.floor() {
            return Ok(None);
        }
        self.arrived.limits();
        let base = self.start.first_place_in();
        let layout = self.start.expecting();
        let start = layout.start_of(self.arrived.floor() - base);
        let Some(fpdu) = held_at(layout, &self.arrived, base, start) else {
            return Ok(None);
        };
        let Some((front, payload)) = tagged_parts(&fpdu) else {
            return Err(Apart);
        };
        let Some(head) = tagged_head(front) else {
            return Err(Apart);
        };
        let response = is_response(&head);
        match land_tagged(
            response,
            head,
            &fpdu,
            payload,
            Peer {
                domain: self.domain,
                stream: self.number,
            },
            &self.reads,
            memory,
        ) {
            Err(_) => Err(Apart),
            Ok(placed) => {
                keep_tagged(&mut self.front, &fpdu, front, start);
                Ok(Some(landing_of(response, placed)))
            }
        }
    }

    // Judges the frame at the in-order point, if it is whole, and places it, if it is of a Send and passes its checks. The
    // answer is its place. `None` changes nothing, comes with any other frame, and may come with a Send: it only costs time.
    #[inline(always)]
    pub(crate) fn judge_send(&mut self) -> Option<Buffered>
        requires open { is_open self.old.start ≡ true }
        requires runs { ended self.old ≡ false }
        requires place { self.old.arrived.floor ≤ 2 ^ 62 }
        requires waiting { waiting self.old ≡ None }
        requires clear { (frame : Frame) → next_frame self.old ≡ Some frame → clashes self.old frame ≡ false }
        ensures step { (table : Table) → IfSome result (λ to. Step.Buffered to.msn to.mo to.len ≡ step_of table self.old (option_map_or Judge (next_frame self.old) Rest)) }
        ensures whole { OnSome result (is_some (next_frame self.old) ≡ true) }
        ensures after { (table : Table) → OnSome result (self.new ≡ left_by table self.old (option_map_or Judge (next_frame self.old) Rest)) }
        ensures memory { (table : Table) → OnSome result (table_left table self.old (option_map_or Judge (next_frame self.old) Rest) ≡ table) }
        ensures none { IfNone result (self.new ≡ self.old) }
        ensures reach { self.new.arrived.floor ≤ self.old.arrived.floor + 2 ^ 18 }
    {
        if self.is_next_tagged() {
            return None;
        }
        self.judge_send_outlined()
    }

    // Whether no frame at the in-order point seems to have an untagged segment, by the octet past its length. What it answers
    // decides on the shorter way alone.
    #[inline(always)]
    fn is_next_tagged(&self) -> bool
        requires { self.now.arrived.floor ≤ 2 ^ 62 }
    {
        let place = self.arrived.floor() + 2;
        if self.arrived.missing() <= place {
            return true;
        }
        is_tagged(self.arrived.islands().peek(place))
    }

    // `judge_send`, out of line.
    #[inline(never)]
    fn judge_send_outlined(&mut self) -> Option<Buffered>
        requires open { is_open self.old.start ≡ true }
        requires runs { ended self.old ≡ false }
        requires place { self.old.arrived.floor ≤ 2 ^ 62 }
        requires waiting { waiting self.old ≡ None }
        requires clear { (frame : Frame) → next_frame self.old ≡ Some frame → clashes self.old frame ≡ false }
        ensures step { (table : Table) → IfSome result (λ to. Step.Buffered to.msn to.mo to.len ≡ step_of table self.old (option_map_or Judge (next_frame self.old) Rest)) }
        ensures whole { OnSome result (is_some (next_frame self.old) ≡ true) }
        ensures after { (table : Table) → OnSome result (self.new ≡ left_by table self.old (option_map_or Judge (next_frame self.old) Rest)) }
        ensures memory { (table : Table) → OnSome result (table_left table self.old (option_map_or Judge (next_frame self.old) Rest) ≡ table) }
        ensures none { IfNone result (self.new ≡ self.old) }
        ensures reach { self.new.arrived.floor ≤ self.old.arrived.floor + 2 ^ 18 }
    {
        self.arrived.limits();
        let base = self.start.first_place_in();
        let layout = self.start.expecting();
        let start = layout.start_of(self.arrived.floor() - base);
        let fpdu = held_at(layout, &self.arrived, base, start)?;
        let to = land_send(
            &mut self.front,
            fpdu,
            start,
            &self.asked,
            &mut self.receiving,
        )?;
        Some(to)
    }

    // The slow path of `judge`: judges the frame at the in-order point, whatever it is, if it is whole.
    #[inline(always)]
    pub(crate) fn judge_slow(&mut self, memory: &mut Memory<A>) -> Step<Octets<A>>
        requires open { is_open self.old.start ≡ true }
        requires runs { ended self.old ≡ false }
        requires place { self.old.arrived.floor + 2 ^ 18 ≤ 2 ^ 63 }
        requires waiting { waiting self.old ≡ None }
        requires clear { (frame : Frame) → next_frame self.old ≡ Some frame → clashes self.old frame ≡ false }
        ensures step { result ≡ step_of memory.old self.old (option_map_or Judge (next_frame self.old) Rest) }
        ensures after { self.new ≡ left_by memory.old self.old (option_map_or Judge (next_frame self.old) Rest) }
        ensures memory { memory.new ≡ table_left memory.old self.old (option_map_or Judge (next_frame self.old) Rest) }
        ensures reach { self.new.arrived.floor ≤ self.old.arrived.floor + 2 ^ 18 }
        ensures within { IsWithinBuffer result }
    {
        self.judge_slow_outlined(memory)
    }

    // The same, out of line.
    #[inline(never)]
    fn judge_slow_outlined(&mut self, memory: &mut Memory<A>) -> Step<Octets<A>>
        requires open { is_open self.old.start ≡ true }
        requires runs { ended self.old ≡ false }
        requires place { self.old.arrived.floor + 2 ^ 18 ≤ 2 ^ 63 }
        requires waiting { waiting self.old ≡ None }
        requires clear { (frame : Frame) → next_frame self.old ≡ Some frame → clashes self.old frame ≡ false }
        ensures step { result ≡ step_of memory.old self.old (option_map_or Judge (next_frame self.old) Rest) }
        ensures after { self.new ≡ left_by memory.old self.old (option_map_or Judge (next_frame self.old) Rest) }
        ensures memory { memory.new ≡ table_left memory.old self.old (option_map_or Judge (next_frame self.old) Rest) }
        ensures reach { self.new.arrived.floor ≤ self.old.arrived.floor + 2 ^ 18 }
        ensures within { IsWithinBuffer result }
    {
        self.arrived.limits();
        let (domain, stream) = (self.domain, self.number);
        let base = self.start.first_place_in();
        let layout = self.start.expecting();
        let start = layout.start_of(self.arrived.floor() - base);
        let Some(fpdu) = held_at(layout, &self.arrived, base, start) else {
            return Step::Idle;
        };
        match land_frame(
            &fpdu,
            Peer { domain, stream },
            &self.reads,
            &self.asked,
            memory,
            &mut self.receiving,
        ) {
            Err(fault) => {
                let terminate = terminate_judged(&fpdu, fault, &self.asked);
                self.end_at(terminate, fault)
            }
            Ok(Landing::Write(placed)) => {
                keep_placed(&mut self.front, &fpdu, start, Right::Write, placed)
            }
            Ok(Landing::Response(placed)) => {
                keep_placed(&mut self.front, &fpdu, start, Right::Sink, placed)
            }
            Ok(Landing::Send { msn, mo, len }) => {
                keep_frame(&mut self.front, &fpdu, start);
                Step::Buffered { msn, mo, len }
            }
            Ok(Landing::Request(request)) => {
                let frame = placed_frame(&fpdu, start);
                self.take_up(frame, request)
            }
            Ok(Landing::Terminate(fault)) => {
                let frame = placed_frame(&fpdu, start);
                self.hear_out(frame, fault)
            }
        }
    }

    // An open stream has ended by this fault, which has this Terminate.
    #[inline(always)]
    fn end_at(&mut self, terminate: LastWord, fault: Fault) -> Step<Octets<A>>
        requires { is_open self.old.start ≡ true }
        ensures step { result ≡ Step.Fault fault }
        ensures after { self.new ≡ ends_by self.old terminate.items }
        ensures within { IsWithinBuffer result }
    {
        self.end_by(terminate);
        Step::Fault(fault)
    }

    // Takes up the Read Request in the frame at the in-order point, which has its turn at once.
    #[inline(never)]
    fn take_up(&mut self, frame: PlacedFrame, request: ReadRequest) -> Step<Octets<A>>
        requires open { is_open self.old.start ≡ true }
        requires place { self.old.arrived.floor + 2 ^ 18 ≤ 2 ^ 63 }
        requires runs { ended self.old ≡ false }
        requires stands { Stands self.old frame }
        requires over { NoneReachesOver self.old frame }
        requires header { length frame.header.items ≡ UNTAGGED_HEADER }
        requires room { length self.old.asked.unanswered < MAX_UNANSWERED }
        requires range { IsInRange request }
        ensures step { result ≡ judged_step (Ok (Landing.Request request)) }
        ensures after { self.new ≡ takes_up self.old frame request }
        ensures reach { self.new.arrived.floor ≤ self.old.arrived.floor + 2 ^ 18 }
        ensures within { IsWithinBuffer result }
    {
        let PlacedFrame { start, len, header } = frame;
        let end = self.start.expecting().end_of(start, len);
        let place = self.start.first_place_in() + end;
        self.front = None;
        self.arrived.advance(place);
        let ReadRequest {
            size,
            source,
            source_to,
            ..
        } = request;
        self.asked.take(Asked { header, request });
        Step::Requested {
            size,
            stag: source,
            to: source_to,
        }
    }

    // Ends by the Terminate in the frame at the in-order point, which has its turn at once.
    #[inline(never)]
    fn hear_out(&mut self, frame: PlacedFrame, fault: Fault) -> Step<Octets<A>>
        requires open { is_open self.old.start ≡ true }
        requires place { self.old.arrived.floor + 2 ^ 18 ≤ 2 ^ 63 }
        requires runs { ended self.old ≡ false }
        requires stands { Stands self.old frame }
        requires over { NoneReachesOver self.old frame }
        ensures step { result ≡ judged_step (Ok (Landing.Terminate fault)) }
        ensures after { self.new ≡ ends (beyond self.old frame) }
        ensures reach { self.new.arrived.floor ≤ self.old.arrived.floor + 2 ^ 18 }
        ensures within { IsWithinBuffer result }
    {
        let PlacedFrame { start, len, .. } = frame;
        let end = self.start.expecting().end_of(start, len);
        let place = self.start.first_place_in() + end;
        self.front = None;
        self.arrived.advance(place);
        self.end(Ending::Over(None));
        Step::Terminated(fault)
    }

    // Does the step that has to do with frames, if some were judged early.
    #[inline(never)]
    pub(crate) fn work_among(
        &mut self,
        memory: &mut Memory<A>,
    ) -> Result<Step<Octets<A>>, AllocError>
        requires open { is_open self.old.start ≡ true }
        requires runs { ended self.old ≡ false }
        requires place { self.old.arrived.floor ≤ 2 ^ 62 }
        requires front { self.old.front ≡ None }
        ensures step { IfOk result (λ step. step ≡ step_of memory.old self.old (frame_task self.old)) }
        ensures after { OnOk result (self.new ≡ left_by memory.old self.old (frame_task self.old)) }
        ensures memory { OnOk result (memory.new ≡ table_left memory.old self.old (frame_task self.old)) }
        ensures err { OnErr result ((self.new ≡ self.old) × (memory.new ≡ memory.old)) }
        ensures want { OnErr result (IsTry (frame_task self.old)) }
        ensures reach { self.new.arrived.floor ≤ self.old.arrived.floor + 2 ^ 18 }
        ensures within { IfOk result IsWithinBuffer }
    {
        match self.waiting() {
            Some(frame) => Ok(self.turn_by_kind(frame, memory)),
            None => self.judge_among(memory),
        }
    }

    // Judges the frame at the in-order point, if it is whole, or else one before its turn.
    fn judge_among(&mut self, memory: &mut Memory<A>) -> Result<Step<Octets<A>>, AllocError>
        requires open { is_open self.old.start ≡ true }
        requires runs { ended self.old ≡ false }
        requires place { self.old.arrived.floor ≤ 2 ^ 62 }
        requires waiting { waiting self.old ≡ None }
        ensures step { IfOk result (λ step. step ≡ step_of memory.old self.old (frame_task self.old)) }
        ensures after { OnOk result (self.new ≡ left_by memory.old self.old (frame_task self.old)) }
        ensures memory { OnOk result (memory.new ≡ table_left memory.old self.old (frame_task self.old)) }
        ensures err { OnErr result ((self.new ≡ self.old) × (memory.new ≡ memory.old)) }
        ensures want { OnErr result (IsTry (frame_task self.old)) }
        ensures reach { self.new.arrived.floor ≤ self.old.arrived.floor + 2 ^ 18 }
        ensures within { IfOk result IsWithinBuffer }
    {
        self.arrived.limits();
        let base = self.start.first_place_in();
        let layout = self.start.expecting();
        let start = layout.start_of(self.arrived.floor() - base);
        let Some(fpdu) = frame_at(layout, &self.arrived, base, start) else {
            return self.try_early(memory);
        };
        if self.arrived.overlaps_placed(start, fpdu.end()) {
            self.end_by(terminate_clashed());
            return Ok(Step::Fault(Fault::MARKER_MISMATCH));
        }
        Ok(self.judge_slow_outlined(memory))
    }

    // Whether it is clear without a search that no frame can be judged early. `false` is always a right answer: it only costs
    // time.
    #[inline(always)]
    pub(crate) fn is_quiet(&self) -> bool
        requires place { self.now.arrived.floor ≤ 2 ^ 62 }
        requires waiting { waiting self.now ≡ None }
        ensures { IsTrue result → early_frame self.now ≡ None }
    {
        self.arrived.limits();
        self.arrived.is_quiet()
    }

    // Judges the frame at the lowest place where one can be judged early, if the frame at the in-order point is not whole.
    #[inline(always)]
    pub(crate) fn try_early(
        &mut self,
        memory: &mut Memory<A>,
    ) -> Result<Step<Octets<A>>, AllocError>
        requires open { is_open self.old.start ≡ true }
        requires runs { ended self.old ≡ false }
        requires place { self.old.arrived.floor ≤ 2 ^ 62 }
        requires waiting { waiting self.old ≡ None }
        requires lacking { next_frame self.old ≡ None }
        ensures step { IfOk result (λ step. step ≡ step_of memory.old self.old (option_map_or Try (early_frame self.old) Rest)) }
        ensures after { OnOk result (self.new ≡ left_by memory.old self.old (option_map_or Try (early_frame self.old) Rest)) }
        ensures memory { OnOk result (memory.new ≡ table_left memory.old self.old (option_map_or Try (early_frame self.old) Rest)) }
        ensures err { OnErr result ((self.new ≡ self.old) × (memory.new ≡ memory.old)) }
        ensures want { OnErr result (is_some (early_frame self.old) ≡ true) }
        ensures floor { self.new.arrived.floor ≡ self.old.arrived.floor }
        ensures within { IfOk result IsWithinBuffer }
    {
        if self.is_quiet() {
            return Ok(Step::Idle);
        }
        self.try_slow_outlined(memory)
    }

    // The slow path of an early look: with a search.
    #[inline(always)]
    pub(crate) fn try_slow(&mut self, memory: &mut Memory<A>) -> Result<Step<Octets<A>>, AllocError>
        requires open { is_open self.old.start ≡ true }
        requires runs { ended self.old ≡ false }
        requires place { self.old.arrived.floor ≤ 2 ^ 62 }
        requires waiting { waiting self.old ≡ None }
        requires lacking { next_frame self.old ≡ None }
        ensures step { IfOk result (λ step. step ≡ step_of memory.old self.old (option_map_or Try (early_frame self.old) Rest)) }
        ensures after { OnOk result (self.new ≡ left_by memory.old self.old (option_map_or Try (early_frame self.old) Rest)) }
        ensures memory { OnOk result (memory.new ≡ table_left memory.old self.old (option_map_or Try (early_frame self.old) Rest)) }
        ensures err { OnErr result ((self.new ≡ self.old) × (memory.new ≡ memory.old)) }
        ensures want { OnErr result (is_some (early_frame self.old) ≡ true) }
        ensures floor { self.new.arrived.floor ≡ self.old.arrived.floor }
        ensures within { IfOk result IsWithinBuffer }
    {
        self.try_slow_outlined(memory)
    }

    // The same, out of line.
    #[inline(never)]
    fn try_slow_outlined(&mut self, memory: &mut Memory<A>) -> Result<Step<Octets<A>>, AllocError>
        requires open { is_open self.old.start ≡ true }
        requires runs { ended self.old ≡ false }
        requires place { self.old.arrived.floor ≤ 2 ^ 62 }
        requires waiting { waiting self.old ≡ None }
        requires lacking { next_frame self.old ≡ None }
        ensures step { IfOk result (λ step. step ≡ step_of memory.old self.old (option_map_or Try (early_frame self.old) Rest)) }
        ensures after { OnOk result (self.new ≡ left_by memory.old self.old (option_map_or Try (early_frame self.old) Rest)) }
        ensures memory { OnOk result (memory.new ≡ table_left memory.old self.old (option_map_or Try (early_frame self.old) Rest)) }
        ensures err { OnErr result ((self.new ≡ self.old) × (memory.new ≡ memory.old)) }
        ensures want { OnErr result (is_some (early_frame self.old) ≡ true) }
        ensures floor { self.new.arrived.floor ≡ self.old.arrived.floor }
        ensures within { IfOk result IsWithinBuffer }
    {
        self.arrived.limits();
        let Some(frame) = self.arrived.next_early() else {
            return Ok(Step::Idle);
        };
        self.arrived.ready()?;
        let place = self.start.first_place_in() + frame.start;
        match judge_early(
            frame,
            &mut self.arrived,
            Peer {
                domain: self.domain,
                stream: self.number,
            },
            &self.reads,
            &self.asked,
            memory,
            &mut self.receiving,
        ) {
            None => Ok(Step::Tried(place)),
            Some(landing) => Ok(landed_step(landing)),
        }
    }
}
