ghost use Rattle.std.specs.Prelude.{◌≡◌};
ghost use Rattle.iw_lines.specs.Slow.{none_counted, with_dropped, with_tried};

/// How often a stream took a path that costs more than others and does not end it (RFC 5042 6.4.4). A count stops at 2^64 - 1.
#[derive(Clone, Copy, Debug, PartialEq, Eq)]
pub struct SlowPaths {
    /// Deliveries that were dropped.
    pub dropped: u64,
    /// Frames that were judged before their turn, and had to be judged again.
    pub tried: u64,
}

impl SlowPaths {
    /// Nothing was counted.
    pub(crate) fn new() -> SlowPaths
        ensures { result ≡ none_counted }
    {
        SlowPaths {
            dropped: 0,
            tried: 0,
        }
    }

    /// One delivery more was dropped.
    pub(crate) fn count_dropped(&mut self)
        ensures { self.new ≡ with_dropped self.old }
    {
        self.dropped = self.dropped.saturating_add(1);
    }

    /// One frame more was judged before its turn.
    pub(crate) fn count_tried(&mut self)
        ensures { self.new ≡ with_tried self.old }
    {
        self.tried = self.tried.saturating_add(1);
    }
}
