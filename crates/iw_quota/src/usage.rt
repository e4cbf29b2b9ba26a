ghost use Rattle.std.specs.Prelude.{◌≡◌, ◌≤◌, ◌<◌, ◌+◌, ◌-◌, max, ◌↔◌, IfSome, IsNone};

/// What an allocator has handed out, in octets, beside its limit. A block counts for as many octets as were asked for.
#[derive(Clone, Copy, Debug, PartialEq, Eq)]
pub struct Usage {
    /// The octets of the blocks that were handed out and not given back.
    pub held: u64,
    /// The most that was held at once.
    pub peak: u64,
    /// The limit.
    pub most: u64,
    pub ghost limited: { (held ≤ peak) × (peak ≤ most) },
}

impl Usage {
    /// Nothing is held, and nothing was.
    pub fn new(most: u64) -> Usage
        ensures held { result.held ≡ 0 }
        ensures peak { result.peak ≡ 0 }
        ensures most { result.most ≡ most }
    {
        Usage {
            held: 0,
            peak: 0,
            most,
        }
    }

    /// What it is once a block of `size` octets is handed out; `None` if more than `most` would be held.
    pub fn with(self, size: usize) -> Option<Usage>
        ensures refused { IsNone result ↔ (self.most < self.held + size) }
        ensures held { IfSome result (λ usage. usage.held ≡ self.held + size) }
        ensures peak { IfSome result (λ usage. usage.peak ≡ max self.peak usage.held) }
        ensures most { IfSome result (λ usage. usage.most ≡ self.most) }
    {
        if size as u64 > self.most - self.held {
            return None;
        }
        let held = self.held + size as u64;
        Some(Usage {
            held,
            peak: self.peak.max(held),
            most: self.most,
        })
    }

    /// What it is once a block of `size` octets is given back. A block larger than what is held leaves nothing held.
    pub fn without(self, size: usize) -> Usage
        ensures held { result.held ≡ self.held - size }
        ensures peak { result.peak ≡ self.peak }
        ensures most { result.most ≡ self.most }
    {
        Usage {
            held: self.held.saturating_sub(size as u64),
            peak: self.peak,
            most: self.most,
        }
    }
}
