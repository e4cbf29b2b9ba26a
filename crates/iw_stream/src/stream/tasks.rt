//! One step of `work`: which task is next, and what it does.
ghost use Rattle.std.specs.Prelude.{◌≡◌, ◌+◌, ◌≤◌, ◌^◌, true, false, Some, None, IsTrue, IfOk, OnOk, OnErr};
ghost use Rattle.iw_memory.specs.Table.{Table};
ghost use Rattle.iw_stream.specs.Starting.{is_open, awaits_frame, agreed_in, agreement_in, mismatch_in};

use super::Stream;
use super::judgement::landed_step;
use crate::answer::Step;
use crate::ending::Ending;
use crate::landing::Buffered;
use crate::starting::{negotiation_fault, octets_in_order};
use crate::terminating::terminate_alone;
use iw_memory::Memory;
use iw_octets::Octets;
use iw_startup::Progress;
use iw_untagged::SharedQueue;
use std::alloc::{AllocError, Allocator};

impl<A: Allocator> Stream<A> {
    ghost use Rattle.iw_stream.specs.Stream.{ended, shares, sees, due, is_none_due};
    ghost use Rattle.iw_untagged.specs.Receiving.{exchanged};
    ghost use Rattle.iw_stream.specs.Work.{Hear, Rest, IsTry, judges, task, frame_task, handing_back, is_rest, is_at_rest, opened_step, after_opening};
    ghost use Rattle.iw_stream.specs.Work.{step_of, left_by, table_left, work_step, worked, table_worked, worked_with, pool_left};
    ghost use Rattle.iw_stream.specs.Kept.{IsWithinBuffer};

    /// Does one step: hands out a finished message, or reads the peer's start-up frame, or gives the frame at the in-order
    /// point its turn, if it was placed, or judges and places it. A Read Request and a Terminate have their turn when they are
    /// judged. A region that a Send invalidates goes out of use in the step that completes the Send.
    ///
    /// If the frame at the in-order point is not whole and the peer sends markers, a later frame that they tell of is judged
    /// before its turn (RFC 5044 4.3): that of a Write, a Read Response or a Send which passes its checks is then placed, a
    /// Send's in its receive buffer ([`Step::Buffered`]), and any other is left as it is ([`Step::Tried`]). A Send is complete
    /// once all its frames, and all frames before them, had their turns.
    ///
    /// An `Err` means out of memory for the record of such a frame, or for the range of its octets that are given up. It
    /// changes nothing.
    ///
    /// Once the stream has ended, each posted message is handed out in posting order, as finished or as given up, and then
    /// each receive buffer.
    #[inline(always)]
    pub fn work(&mut self, memory: &mut Memory<A>) -> Result<Step<Octets<A>>, AllocError>
        requires { self.old.arrived.floor ≤ 2 ^ 62 }
        ensures step { IfOk result (λ step. step ≡ work_step memory.old self.old) }
        ensures after { OnOk result (self.new ≡ worked memory.old self.old) }
        ensures memory { OnOk result (memory.new ≡ table_worked memory.old self.old) }
        ensures err { OnErr result ((self.new ≡ self.old) × (memory.new ≡ memory.old)) }
        // It comes only if a frame is judged before its turn, whether or not it may then be placed.
        ensures want { OnErr result (IsTry (task self.old)) }
        // The in-order point moves on by no more than may have come, and a message lies in its buffer.
        ensures reach { self.new.arrived.floor ≤ self.old.arrived.floor + 2 ^ 18 }
        ensures within { IfOk result IsWithinBuffer }
    {
        if let Some(done) = self.queue.next() {
            return Ok(Step::Done(done.kind));
        }
        if self.ending.has_ended() {
            return Ok(self.hand_back());
        }
        if self.start.is_open() {
            return self.work_frames(memory);
        }
        if self.start.awaits_frame() {
            return Ok(self.hear());
        }
        Ok(Step::Idle)
    }

    /// The same, for a stream that shares a pool ([`Stream::new_shared`]). When the first segment of a Send is placed,
    /// whichever segment that is, the pool's oldest buffer is bound to its message; nothing else takes a buffer. A bound buffer
    /// is handed out with its message or, once the stream has ended, handed back; the others stay in the pool. A stream that
    /// shares none leaves the pool alone.
    #[inline(always)]
    pub fn work_shared(
        &mut self,
        memory: &mut Memory<A>,
        pool: &mut SharedQueue<A>,
    ) -> Result<Step<Octets<A>>, AllocError>
        requires { self.old.arrived.floor ≤ 2 ^ 62 }
        ensures step { IfOk result (λ step. step ≡ work_step memory.old (sees self.old pool.old)) }
        ensures after { OnOk result (self.new ≡ worked_with memory.old self.old pool.old) }
        ensures pool { OnOk result (pool.new ≡ pool_left memory.old self.old pool.old) }
        ensures memory { OnOk result (memory.new ≡ table_worked memory.old (sees self.old pool.old)) }
        ensures err { OnErr result ((self.new ≡ self.old) × (memory.new ≡ memory.old) × (pool.new ≡ pool.old)) }
        ensures own { shares self.old ≡ false → pool.new ≡ pool.old }
        ensures want { OnErr result (IsTry (task (sees self.old pool.old))) }
        ensures reach { self.new.arrived.floor ≤ self.old.arrived.floor + 2 ^ 18 }
        ensures within { IfOk result IsWithinBuffer }
    {
        if self.judges_none() {
            return self.work(memory);
        }
        self.lend(pool);
        let step = self.work(memory);
        self.lend(pool);
        step
    }

    // Whether it is clear without a search that the next step judges no frame. `false` is always a right answer: it only costs
    // time.
    #[inline(always)]
    fn judges_none(&self) -> bool
        requires { self.now.arrived.floor ≤ 2 ^ 62 }
        ensures { IsTrue result → judges (task self.now) ≡ false }
    {
        if self.ending.has_ended() {
            return true;
        }
        if !self.start.is_open() {
            return true;
        }
        if self.front.is_some() {
            return true;
        }
        self.is_idle()
    }

    // Whether it is clear without a search that no frame can be given its turn or judged. `false` is always a right answer.
    #[inline(always)]
    fn is_idle(&self) -> bool
        requires none { self.now.front ≡ None }
        requires place { self.now.arrived.floor ≤ 2 ^ 62 }
        ensures { IsTrue result → frame_task self.now ≡ Rest }
    {
        self.arrived.limits();
        if self.arrived.missing() > self.arrived.floor() {
            return false;
        }
        self.is_quiet()
    }

    /// Whether the stream has ended, nothing is left to hand out, and nothing is due to go out: [`Stream::work`] then answers
    /// [`Step::Idle`] and [`Stream::emit`] that there is nothing, and so they do from then on. A stream that shares a pool has
    /// nothing left to hand out once each buffer that it has taken was handed back.
    pub fn is_at_rest(&self) -> bool
        ensures { result ≡ is_at_rest self.now }
    {
        if !self.ending.has_ended() {
            return false;
        }
        if !self.has_handed_out() {
            return false;
        }
        self.has_gone_out()
    }

    // Whether nothing is left to hand out of a stream that has ended.
    fn has_handed_out(&self) -> bool
        requires { ended self.now ≡ true }
        ensures { result ≡ is_rest (task self.now) }
    {
        if !self.queue.is_empty() {
            return false;
        }
        self.receiving.is_empty()
    }

    // Whether nothing is due to go out of a stream that has ended.
    fn has_gone_out(&self) -> bool
        requires { ended self.now ≡ true }
        ensures { result ≡ is_none_due (due self.now) }
    {
        if self.owes_frame() {
            return false;
        }
        !self.ending.has_last_word()
    }

    // Exchanges the pool that is lent to the stream; one that shares none takes none.
    fn lend(&mut self, pool: &mut SharedQueue<A>)
        ensures after { self.new ≡ sees self.old pool.old }
        ensures pool { pool.new ≡ exchanged self.old.receiving.source pool.old }
    {
        self.receiving.lend(pool);
    }

    // Does the step of an open stream that has to do with frames.
    #[inline(always)]
    fn work_frames(&mut self, memory: &mut Memory<A>) -> Result<Step<Octets<A>>, AllocError>
        requires open { is_open self.old.start ≡ true }
        requires runs { ended self.old ≡ false }
        requires place { self.old.arrived.floor ≤ 2 ^ 62 }
        ensures step { IfOk result (λ step. step ≡ step_of memory.old self.old (frame_task self.old)) }
        ensures after { OnOk result (self.new ≡ left_by memory.old self.old (frame_task self.old)) }
        ensures memory { OnOk result (memory.new ≡ table_left memory.old self.old (frame_task self.old)) }
        ensures err { OnErr result ((self.new ≡ self.old) × (memory.new ≡ memory.old)) }
        ensures want { OnErr result (IsTry (frame_task self.old)) }
        ensures reach { self.new.arrived.floor ≤ self.old.arrived.floor + 2 ^ 18 }
        ensures within { IfOk result IsWithinBuffer }
    {
        if self.front.is_some() {
            if self.turn() {
                return Ok(Step::Passed);
            }
            return Ok(self.turn_slow(memory));
        }
        let Ok(turned) = self.turn_early() else {
            return self.work_slow(memory);
        };
        if turned {
            return Ok(Step::Passed);
        }
        if let Some(Buffered { msn, mo, len }) = self.judge_send() {
            return Ok(Step::Buffered { msn, mo, len });
        }
        let Ok(found) = self.judge(memory) else {
            return Ok(self.judge_slow(memory));
        };
        let Some(landing) = found else {
            if self.is_quiet() {
                return Ok(Step::Idle);
            }
            return self.try_slow(memory);
        };
        Ok(landed_step(landing))
    }

    // The slow path of frames: one that was placed early may be that at the in-order point, or lie over it. The answer of a
    // `.._slow` call has a place of its own, so that the fast path needs none in memory; what is `.._outlined` is its body.
    #[inline(always)]
    fn work_slow(&mut self, memory: &mut Memory<A>) -> Result<Step<Octets<A>>, AllocError>
        requires open { is_open self.old.start ≡ true }
        requires runs { ended self.old ≡ false }
        requires place { self.old.arrived.floor ≤ 2 ^ 62 }
        requires front { self.old.front ≡ None }
        ensures step { IfOk result (λ step. step ≡ step_of memory.old self.old (frame_task self.old)) }
        ensures after { OnOk result (self.new ≡ left_by memory.old self.old (frame_task self.old)) }
        ensures memory { OnOk result (memory.new ≡ table_left memory.old self.old (frame_task self.old)) }
        ensures err { OnErr result ((self.new ≡ self.old) × (memory.new ≡ memory.old)) }
        ensures want { OnErr result (IsTry (frame_task self.old)) }
        ensures reach { self.new.arrived.floor ≤ self.old.arrived.floor + 2 ^ 18 }
        ensures within { IfOk result IsWithinBuffer }
    {
        self.work_among(memory)
    }

    // Reads the peer's start-up frame off the octets that came, once it is whole or at fault.
    #[inline(always)]
    fn hear(&mut self) -> Step<Octets<A>>
        requires { awaits_frame self.old.start ≡ true }
        ensures step { (table : Table) → result ≡ step_of table self.old Hear }
        ensures after { (table : Table) → self.new ≡ left_by table self.old Hear }
        ensures reach { self.new.arrived.floor ≤ self.old.arrived.floor + 2 ^ 18 }
        ensures within { IsWithinBuffer result }
    {
        self.hear_outlined()
    }

    // The same, out of line.
    #[inline(never)]
    fn hear_outlined(&mut self) -> Step<Octets<A>>
        requires { awaits_frame self.old.start ≡ true }
        ensures step { (table : Table) → result ≡ step_of table self.old Hear }
        ensures after { (table : Table) → self.new ≡ left_by table self.old Hear }
        ensures reach { self.new.arrived.floor ≤ self.old.arrived.floor + 2 ^ 18 }
        ensures within { IsWithinBuffer result }
    {
        match self.start.progress(octets_in_order(&self.arrived)) {
            Progress::More => Step::Idle,
            Progress::Asked => {
                self.start.hear(&mut self.arrived);
                Step::Asked
            }
            Progress::Agreed => {
                self.start.hear(&mut self.arrived);
                self.open()
            }
            Progress::Faulted(fault) => {
                self.start.hear(&mut self.arrived);
                self.end(Ending::Over(None));
                Step::Closed(fault)
            }
        }
    }

    // The peer's Reply accepts: the stream is open, unless the Reply wants what this end does not have (RFC 6581 8).
    fn open(&mut self) -> Step<Octets<A>>
        requires { agreed_in self.old.start ≡ Some (agreement_in self.old.start) }
        ensures step { result ≡ opened_step self.old.start (mismatch_in self.old.start) }
        ensures after { self.new ≡ after_opening self.old (mismatch_in self.old.start) }
        ensures floor { self.new.arrived.floor ≡ self.old.arrived.floor }
        ensures within { IsWithinBuffer result }
    {
        if let Some(mismatch) = self.start.mismatch() {
            let fault = negotiation_fault(mismatch);
            self.end_by(terminate_alone(fault));
            return Step::Fault(fault);
        }
        let Some(agreed) = self.start.agreed() else {
            unreachable!();
        };
        Step::Opened(agreed)
    }

    // Hands out the oldest message, which is not finished, or after them all the oldest receive buffer.
    #[inline(always)]
    fn hand_back(&mut self) -> Step<Octets<A>>
        requires ended { ended self.old ≡ true }
        ensures step { (table : Table) → result ≡ step_of table self.old (handing_back self.old) }
        ensures after { (table : Table) → self.new ≡ left_by table self.old (handing_back self.old) }
        ensures floor { self.new.arrived.floor ≡ self.old.arrived.floor }
        ensures within { IsWithinBuffer result }
    {
        self.hand_back_outlined()
    }

    // The same, out of line.
    #[inline(never)]
    fn hand_back_outlined(&mut self) -> Step<Octets<A>>
        requires ended { ended self.old ≡ true }
        ensures step { (table : Table) → result ≡ step_of table self.old (handing_back self.old) }
        ensures after { (table : Table) → self.new ≡ left_by table self.old (handing_back self.old) }
        ensures floor { self.new.arrived.floor ≡ self.old.arrived.floor }
        ensures within { IsWithinBuffer result }
    {
        if let Some(message) = self.queue.flush() {
            return Step::Flushed(message.kind);
        }
        self.receiving.limits();
        match self.receiving.flush() {
            Some(buffer) => Step::FlushedRecv(Octets::from_vec(buffer)),
            None => Step::Idle,
        }
    }
}
