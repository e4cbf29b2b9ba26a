//! The turn of the frame at the in-order point, once it was placed.
ghost use Rattle.std.specs.Prelude.{◌≡◌, ◌+◌, ◌≤◌, ◌^◌, true, false, is_some, IsSome, IsTrue, IfOk, OnErr, Some, None};
ghost use Rattle.std.specs.Option.{option_map_or};
ghost use Rattle.iw_memory.specs.Table.{Table};
ghost use Rattle.iw_stream.specs.Frames.{Frame};
ghost use Rattle.iw_stream.specs.Starting.{is_open};

use super::Stream;
use super::judgement::Apart;
use crate::answer::Step;
use crate::effects::{is_response, turn_frame, turn_reads};
use crate::incoming::frame_at;
use crate::landing::{PlacedFrame, Turning};
use crate::terminating::terminate_turned;
use iw_memory::{Memory, Peer};
use iw_octets::{Octets, Segment, is_tagged};
use iw_rdmap::tagged_head;
use iw_untagged::Received;
use std::alloc::Allocator;

impl<A: Allocator> Stream<A> {
    ghost use Rattle.iw_stream.specs.Stream.{ended};
    ghost use Rattle.iw_stream.specs.Work.{Turn, Rest, waiting, next_frame, clashes, step_of, left_by, table_left};
    ghost use Rattle.iw_stream.specs.Kept.{IsWithinBuffer};

    // Gives the frame of a Write at the in-order point, which was placed, its turn, which has no check; the answer is whether
    // it did. If another kind of frame waits there, nothing changes.
    #[inline(always)]
    pub(crate) fn turn(&mut self) -> bool
        requires open { is_open self.old.start ≡ true }
        requires runs { ended self.old ≡ false }
        requires place { self.old.arrived.floor + 2 ^ 18 ≤ 2 ^ 63 }
        ensures step { (table : Table) → IsTrue result → step_of table self.old (option_map_or Turn self.old.front Rest) ≡ Step.Passed }
        ensures after { (table : Table) → IsTrue result → self.new ≡ left_by table self.old (option_map_or Turn self.old.front Rest) }
        ensures memory { (table : Table) → IsTrue result → table_left table self.old (option_map_or Turn self.old.front Rest) ≡ table }
        ensures kept { result ≡ false → self.new ≡ self.old }
        ensures reach { self.new.arrived.floor ≤ self.old.arrived.floor + 2 ^ 18 }
    {
        if self.is_front_untagged() {
            return false;
        }
        let Some(frame) = &self.front else {
            return false;
        };
        let Ok(Segment::Tagged(head, _)) = Segment::read(frame.header.as_slice()) else {
            return false;
        };
        if is_response(&head) {
            return false;
        }
        let end = self.start.expecting().end_of(frame.start, frame.len);
        let place = self.start.first_place_in() + end;
        self.front = None;
        self.arrived.advance(place);
        true
    }

    // Gives the frame of a Write at the in-order point, which was placed before its turn, its turn, which has no check, and
    // tells whether it did. If it did not, none waits there, and none that was placed lies over the frame there. An `Err`
    // changes nothing, and comes if another kind of frame waits there, or if one that was placed lies over the frame there.
    #[inline(always)]
    pub(crate) fn turn_early(&mut self) -> Result<bool, Apart>
        requires open { is_open self.old.start ≡ true }
        requires runs { ended self.old ≡ false }
        requires none { self.old.front ≡ None }
        requires place { self.old.arrived.floor ≤ 2 ^ 62 }
        ensures step { (table : Table) → IfOk result (λ turned. IsTrue turned → step_of table self.old (option_map_or Turn (waiting self.old) Rest) ≡ Step.Passed) }
        ensures after { (table : Table) → IfOk result (λ turned. IsTrue turned → self.new ≡ left_by table self.old (option_map_or Turn (waiting self.old) Rest)) }
        ensures memory { (table : Table) → IfOk result (λ turned. IsTrue turned → table_left table self.old (option_map_or Turn (waiting self.old) Rest) ≡ table) }
        ensures waits { IfOk result (λ turned. IsTrue turned → is_some (waiting self.old) ≡ true) }
        ensures kept { IfOk result (λ turned. turned ≡ false → self.new ≡ self.old) }
        ensures waiting { IfOk result (λ turned. turned ≡ false → waiting self.old ≡ None) }
        ensures clear { IfOk result (λ turned. turned ≡ false → (frame : Frame) → next_frame self.old ≡ Some frame → clashes self.old frame ≡ false) }
        ensures err { OnErr result (self.new ≡ self.old) }
        ensures reach { self.new.arrived.floor ≤ self.old.arrived.floor + 2 ^ 18 }
    {
        self.arrived.limits();
        if self.arrived.records() == 0 {
            return Ok(false);
        }
        // Nothing came at the in-order point, as when a window comes past a hole.
        if self.arrived.missing() <= self.arrived.floor() {
            return Ok(false);
        }
        self.turn_placed()
    }

    // The same, in a call of its own, if octets came there.
    #[inline(never)]
    fn turn_placed(&mut self) -> Result<bool, Apart>
        requires open { is_open self.old.start ≡ true }
        requires runs { ended self.old ≡ false }
        requires none { self.old.front ≡ None }
        requires place { self.old.arrived.floor ≤ 2 ^ 62 }
        ensures step { (table : Table) → IfOk result (λ turned. IsTrue turned → step_of table self.old (option_map_or Turn (waiting self.old) Rest) ≡ Step.Passed) }
        ensures after { (table : Table) → IfOk result (λ turned. IsTrue turned → self.new ≡ left_by table self.old (option_map_or Turn (waiting self.old) Rest)) }
        ensures memory { (table : Table) → IfOk result (λ turned. IsTrue turned → table_left table self.old (option_map_or Turn (waiting self.old) Rest) ≡ table) }
        ensures waits { IfOk result (λ turned. IsTrue turned → is_some (waiting self.old) ≡ true) }
        ensures kept { IfOk result (λ turned. turned ≡ false → self.new ≡ self.old) }
        ensures waiting { IfOk result (λ turned. turned ≡ false → waiting self.old ≡ None) }
        ensures clear { IfOk result (λ turned. turned ≡ false → (frame : Frame) → next_frame self.old ≡ Some frame → clashes self.old frame ≡ false) }
        ensures err { OnErr result (self.new ≡ self.old) }
        ensures reach { self.new.arrived.floor ≤ self.old.arrived.floor + 2 ^ 18 }
    {
        self.arrived.limits();
        let base = self.start.first_place_in();
        let layout = self.start.expecting();
        let start = layout.start_of(self.arrived.floor() - base);
        let Some((header, len)) = self.arrived.placed_header(start) else {
            if self.is_clear() {
                return Ok(false);
            }
            return Err(Apart);
        };
        let Some(head) = tagged_head(header.as_slice()) else {
            return Err(Apart);
        };
        let response = is_response(&head);
        if response {
            return Err(Apart);
        }
        let place = base + layout.end_of(start, len);
        self.arrived.advance(place);
        Ok(true)
    }

    // Whether no frame that was placed early lies over the one at the in-order point, if that is whole.
    #[inline(always)]
    fn is_clear(&self) -> bool
        requires none { waiting self.now ≡ None }
        requires place { self.now.arrived.floor ≤ 2 ^ 62 }
        ensures { IsTrue result → (frame : Frame) → next_frame self.now ≡ Some frame → clashes self.now frame ≡ false }
    {
        self.arrived.limits();
        let base = self.start.first_place_in();
        let layout = self.start.expecting();
        let start = layout.start_of(self.arrived.floor() - base);
        let Some(fpdu) = frame_at(layout, &self.arrived, base, start) else {
            return true;
        };
        if self.arrived.overlaps_placed(start, fpdu.end()) {
            return false;
        }
        true
    }

    // The slow path of a turn: gives the frame at the in-order point, which was placed, its turn, whatever it is.
    #[inline(always)]
    pub(crate) fn turn_slow(&mut self, memory: &mut Memory<A>) -> Step<Octets<A>>
        requires open { is_open self.old.start ≡ true }
        requires runs { ended self.old ≡ false }
        requires placed { IsSome self.old.front }
        requires place { self.old.arrived.floor + 2 ^ 18 ≤ 2 ^ 63 }
        ensures step { result ≡ step_of memory.old self.old (option_map_or Turn self.old.front Rest) }
        ensures after { self.new ≡ left_by memory.old self.old (option_map_or Turn self.old.front Rest) }
        ensures memory { memory.new ≡ table_left memory.old self.old (option_map_or Turn self.old.front Rest) }
        ensures reach { self.new.arrived.floor ≤ self.old.arrived.floor + 2 ^ 18 }
        ensures within { IsWithinBuffer result }
    {
        if self.is_front_untagged() {
            return self.turn_due(memory);
        }
        self.turn_slow_outlined(memory)
    }

    // Whether the frame that was placed at the in-order point has an untagged segment, by its first octet. What it answers
    // decides on the shorter way alone.
    #[inline(always)]
    fn is_front_untagged(&self) -> bool {
        let Some(frame) = &self.front else {
            return false;
        };
        match frame.header.as_slice() {
            [first, ..] => !is_tagged(*first),
            [] => false,
        }
    }

    // The same, out of line. Most are Read Responses.
    #[inline(never)]
    fn turn_slow_outlined(&mut self, memory: &mut Memory<A>) -> Step<Octets<A>>
        requires open { is_open self.old.start ≡ true }
        requires runs { ended self.old ≡ false }
        requires placed { IsSome self.old.front }
        requires place { self.old.arrived.floor + 2 ^ 18 ≤ 2 ^ 63 }
        ensures step { result ≡ step_of memory.old self.old (option_map_or Turn self.old.front Rest) }
        ensures after { self.new ≡ left_by memory.old self.old (option_map_or Turn self.old.front Rest) }
        ensures memory { memory.new ≡ table_left memory.old self.old (option_map_or Turn self.old.front Rest) }
        ensures reach { self.new.arrived.floor ≤ self.old.arrived.floor + 2 ^ 18 }
        ensures within { IsWithinBuffer result }
    {
        let Some(frame) = &self.front else {
            return Step::Idle;
        };
        let Some(head) = tagged_head(frame.header.as_slice()) else {
            return self.turn_due(memory);
        };
        let end = self.start.expecting().end_of(frame.start, frame.len);
        let place = self.start.first_place_in() + end;
        match turn_reads(head, frame.payload_len(), &mut self.reads) {
            // Nothing has changed.
            Err(_) => self.turn_due(memory),
            Ok(None) => {
                self.front = None;
                self.arrived.advance(place);
                Step::Passed
            }
            Ok(Some(ticket)) => {
                self.front = None;
                self.arrived.advance(place);
                self.queue.finish(ticket);
                Step::Passed
            }
        }
    }

    // Gives the frame that was placed at the in-order point its turn by the checks of its kind.
    #[inline(never)]
    fn turn_due(&mut self, memory: &mut Memory<A>) -> Step<Octets<A>>
        requires open { is_open self.old.start ≡ true }
        requires runs { ended self.old ≡ false }
        requires placed { IsSome self.old.front }
        requires place { self.old.arrived.floor + 2 ^ 18 ≤ 2 ^ 63 }
        ensures step { result ≡ step_of memory.old self.old (option_map_or Turn self.old.front Rest) }
        ensures after { self.new ≡ left_by memory.old self.old (option_map_or Turn self.old.front Rest) }
        ensures memory { memory.new ≡ table_left memory.old self.old (option_map_or Turn self.old.front Rest) }
        ensures reach { self.new.arrived.floor ≤ self.old.arrived.floor + 2 ^ 18 }
        ensures within { IsWithinBuffer result }
    {
        self.arrived.limits();
        self.receiving.limits();
        let Some(frame) = &self.front else {
            return Step::Idle;
        };
        let (domain, stream) = (self.domain, self.number);
        let end = self.start.expecting().end_of(frame.start, frame.len);
        let place = self.start.first_place_in() + end;
        let turning = match turn_frame(
            frame,
            Peer { domain, stream },
            &mut self.reads,
            memory,
            &mut self.receiving,
        ) {
            Ok(turning) => turning,
            Err(fault) => {
                let terminate = terminate_turned(frame, fault);
                self.end_by(terminate);
                return Step::Fault(fault);
            }
        };
        self.front = None;
        self.arrived.advance(place);
        match turning {
            Turning::Passed => Step::Passed,
            Turning::Completed {
                solicited,
                invalidate,
            } => {
                let Received { buffer, len, .. } = self.receiving.finish();
                Step::Received {
                    buffer,
                    len,
                    solicited,
                    invalidate,
                }
            }
            Turning::Answered(ticket) => {
                self.queue.finish(ticket);
                Step::Passed
            }
        }
    }

    // What is kept of the frame at the in-order point, if it was placed, there or before its turn.
    pub(crate) fn waiting(&self) -> Option<PlacedFrame>
        requires none { self.now.front ≡ None }
        requires place { self.now.arrived.floor ≤ 2 ^ 62 }
        ensures { result ≡ waiting self.now }
    {
        let layout = self.start.expecting();
        let place = self.arrived.floor() - self.start.first_place_in();
        self.arrived.placed_at(layout.start_of(place))
    }

    // Gives the frame at the in-order point, which was placed, there or before its turn, its turn by the checks of its kind.
    pub(crate) fn turn_by_kind(
        &mut self,
        frame: PlacedFrame,
        memory: &mut Memory<A>,
    ) -> Step<Octets<A>>
        requires open { is_open self.old.start ≡ true }
        requires runs { ended self.old ≡ false }
        requires waiting { waiting self.old ≡ Some frame }
        requires place { self.old.arrived.floor + 2 ^ 18 ≤ 2 ^ 63 }
        ensures step { result ≡ step_of memory.old self.old (Turn frame) }
        ensures after { self.new ≡ left_by memory.old self.old (Turn frame) }
        ensures memory { memory.new ≡ table_left memory.old self.old (Turn frame) }
        ensures reach { self.new.arrived.floor ≤ self.old.arrived.floor + 2 ^ 18 }
        ensures within { IsWithinBuffer result }
    {
        self.arrived.limits();
        self.front = Some(frame);
        self.turn_due(memory)
    }
}
