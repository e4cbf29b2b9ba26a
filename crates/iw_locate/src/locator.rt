ghost use Rattle.std.specs.Prelude.{◌≡◌, true, MatchOption};
ghost use Rattle.iw_locate.specs.Free.{scene_of, CanLocate};
ghost use Rattle.iw_locate.specs.Next.{CanBeEarly, IsFrontWhole, IsLowest, IsNone, IsNext, frame_at};

use crate::frame::{Frame, Next, frame_of};
use crate::judged::{Judged, MAX_RECORDS};
use iw_fpdu::{Fpdu, Layout};
use iw_ranges::{Islands, WINDOW};
use std::alloc::Allocator;

/// Finds the frames of one direction that can be judged.
#[derive(Clone, Copy, Debug, PartialEq, Eq)]
pub struct Locator {
    /// How the direction is laid out.
    pub layout: Layout,
    /// The place in the stream of frame place 0.
    pub base: u64,
}

impl Locator {
    pub fn new(layout: Layout, base: u64) -> Locator
        ensures { result ≡ record { layout = layout; base = base } }
    {
        Locator { layout, base }
    }

    /// The frame that can be judged next: the one at the in-order point where it is whole, else the one at the lowest free
    /// place. It looks at all that came, and at every record.
    pub fn next<T, A: Allocator, B: Allocator>(
        &self,
        islands: &Islands<A>,
        judged: &Judged<T, B>,
    ) -> Next
        requires { CanLocate (scene_of self.now.layout self.now.base islands.now.arrived judged.now.records) }
        ensures { IsNext (scene_of self.now.layout self.now.base islands.now.arrived judged.now.records) result }
    {
        match self.at_point(islands, judged) {
            Some(next) => next,
            None => match self.early(islands, judged) {
                Some(frame) => Next::Frame(frame),
                None => Next::Nothing,
            },
        }
    }

    /// What there is to say where the frame at the in-order point is whole.
    pub(crate) fn at_point<T, A: Allocator, B: Allocator>(
        &self,
        islands: &Islands<A>,
        judged: &Judged<T, B>,
    ) -> Option<Next>
        requires { CanLocate (scene_of self.now.layout self.now.base islands.now.arrived judged.now.records) }
        ensures { let v = scene_of self.now.layout self.now.base islands.now.arrived judged.now.records in
            MatchOption result (IsFrontWhole v → ⊥) (λ next. IsNext v next × IsFrontWhole v) }
    {
        judged.limits();
        let front = self.layout.start_of(islands.floor() - self.base);
        match Fpdu::read(self.layout, self.base, front, islands) {
            Some(fpdu) => {
                if judged.overlaps_placed(front, fpdu.end()) {
                    return Some(Next::Mismatch);
                }
                Some(Next::Frame(frame_of(&fpdu, front, false)))
            }
            None => None,
        }
    }

    /// The frame at the lowest free place, while there is room for a record.
    fn early<T, A: Allocator, B: Allocator>(
        &self,
        islands: &Islands<A>,
        judged: &Judged<T, B>,
    ) -> Option<Frame>
        requires can { CanLocate (scene_of self.now.layout self.now.base islands.now.arrived judged.now.records) }
        ensures { let v = scene_of self.now.layout self.now.base islands.now.arrived judged.now.records in
            MatchOption result (IsNone v) (λ f. (f ≡ frame_at v f.start true) × CanBeEarly v × IsLowest v f.start) }
    {
        if !self.layout.markers || judged.len() >= MAX_RECORDS {
            return None;
        }
        let point = islands.floor() - self.base;
        self.lowest_in(islands, judged, point, 0, 1 << 63, point + WINDOW)
    }
}
