ghost use Rattle.std.specs.Prelude.{◌≡◌, ◌<◌, ◌≤◌, ◌⊎◌};
ghost use Rattle.std.specs.List.{Contains};
ghost use Rattle.iw_locate.specs.declared.judged.Record.{Record};
ghost use Rattle.iw_locate.specs.Records.{from_of};
ghost use Rattle.iw_locate.specs.Unsearched.{everything, nothing_from, nothing_unsearched, counted_from, with_octets};
ghost use Rattle.iw_locate.specs.Unsearched.{past_frame, from_low, from_place, anywhere, Tells};
ghost use Rattle.iw_locate.specs.Free.{Scene};

use crate::frame::Frame;
use crate::judged::Judged;
use crate::searching::first_start;
use std::alloc::Allocator;

/// What has to be looked at for a frame that can be judged early: elsewhere there is none.
///
/// It belongs to one direction, and is told of all that changes there, so that a search need not begin anew each time.
/// Places are frame places.
#[derive(Clone, Copy, Debug, PartialEq, Eq)]
pub struct Unsearched {
    /// Octets came since at places from `from` up to `to`.
    pub from: u64,
    pub to: u64,
    /// Besides, a frame may begin at a place from `low` up to `high`.
    pub low: u64,
    pub high: u64,
    /// Nothing came at this place or past it.
    pub reach: u64,
}

impl Unsearched {
    /// Everything: a direction of which nothing is known.
    pub fn everything() -> Unsearched
        ensures { result ≡ everything }
    {
        Unsearched {
            from: 0,
            to: 0,
            low: 0,
            high: 1 << 63,
            reach: 1 << 63,
        }
    }

    /// Nothing: a direction of which no octet came.
    pub fn nothing() -> Unsearched
        ensures { result ≡ nothing_unsearched }
    {
        Unsearched {
            from: 0,
            to: 0,
            low: 0,
            high: 0,
            reach: 0,
        }
    }

    /// What came at the in-order point, which is `place`, and past it is given up, and every record is dropped: nothing has to be
    /// looked at until more comes.
    pub fn gave_up(&mut self, place: u64)
        ensures { self.new ≡ nothing_from place }
    {
        *self = Unsearched {
            reach: place,
            ..Unsearched::nothing()
        };
    }

    /// The start-up frame has `base` octets: places were counted from its beginning, and count from its end now.
    pub fn start_up_ended(&mut self, base: u64)
        ensures { self.new ≡ counted_from self.old base }
    {
        let reach = self.reach.saturating_sub(base);
        *self = Unsearched {
            from: 0,
            to: 0,
            low: 0,
            high: reach,
            reach,
        };
    }

    /// A segment was kept: octets came at the places from `from` up to `to`.
    pub fn delivered(&mut self, from: u64, to: u64)
        ensures { self.new ≡ with_octets self.old from to }
    {
        if from >= to {
            return;
        }
        if self.from < self.to {
            self.from = self.from.min(from);
            self.to = self.to.max(to);
        } else {
            self.from = from;
            self.to = to;
        }
        self.reach = self.reach.max(to);
    }

    /// A record was added of the frame that was found, the lowest that could be judged early: none begins before its end.
    pub fn recorded(&mut self, frame: &Frame)
        ensures { self.new ≡ past_frame self.old frame.now }
    {
        if self.reach <= frame.end {
            self.low = 0;
            self.high = 0;
        } else {
            self.low = frame.end;
        }
    }

    /// No frame that begins among those with a record can be judged early: the run of them from `low` on need not be looked at.
    /// How far `low` moves on, if at all, is speed alone.
    #[inline]
    pub fn pass_judged<T, A: Allocator>(&mut self, judged: &Judged<T, A>)
        ensures rest { self.new ≡ from_low self.old self.new.low }
        ensures tells { (v : Scene T) → v.records ≡ judged.now.records → Tells v self.old → Tells v self.new }
    {
        if self.high <= self.low {
            return;
        }
        let past = judged.run_to(self.low, self.high);
        self.low = first_start(past.min(1 << 63));
    }

    /// The in-order point moves on to `place`, and the records of frames whose spans begin before it will be dropped. What lies
    /// before it need not be looked at any more. A record of a frame that ends past it had kept other frames from being judged.
    #[inline(always)]
    pub fn passed<T, A: Allocator>(&mut self, judged: &Judged<T, A>, place: u64)
        ensures { ((self.new ≡ from_place self.old place) × ((r : Record T) → Contains judged.now.records r → from_of r < place → r.end ≤ place)) ⊎ (self.new ≡ anywhere self.old) }
    {
        if judged.reaches_over(place) {
            self.low = 0;
            self.high = self.reach;
        } else {
            self.from = self.from.max(place);
            self.low = self.low.max(place);
        }
    }
}
