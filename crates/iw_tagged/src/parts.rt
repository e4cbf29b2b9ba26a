ghost use Rattle.std.specs.Prelude.{◌≡◌, ◌<◌};
ghost use Rattle.std.specs.Iterator.{YieldsFirst, item_count};
ghost use Rattle.iw_octets.specs.Parts.{parts};

use iw_octets::Part;
use std::marker::Model;

/// The parts of a message, in order: an iterator, made by [`cut`](crate::cut).
#[derive(Drop)]
pub struct Cut {
    offset: usize,
    left: usize,
    size: usize,
    done: bool,
}

impl Model for Cut {
    ghost use Rattle.std.specs.Prelude.{List, [], ◌<◌, ◌+◌, ◌^◌, if◌then◌else◌};
    ghost use Rattle.iw_octets.specs.declared.part.Part.{Part};
    ghost use Rattle.iw_octets.specs.Parts.{parts_from};

    ghost Value = { List Part };

    ghost view = { λ cut. if cut.done then [] else parts_from cut.offset cut.left cut.size };

    ghost invariant = { λ cut. (0 < cut.size) × (cut.offset + cut.left < 2 ^ 64) };
}

impl Cut {
    /// The parts of a message of `len` octets, of at most `size` octets each.
    pub(crate) fn new(len: usize, size: usize) -> Cut
        requires { 0 < size }
        ensures { result ≡ parts len size }
    {
        Cut {
            offset: 0,
            left: len,
            size,
            done: false,
        }
    }
}

impl Iterator for Cut {
    type Item = Part;

    ghost next_gives = { YieldsFirst (λ parts. parts) };

    ghost remaining = { item_count (λ parts. parts) };

    fn next(&mut self) -> Option<Part> {
        if self.done {
            return None;
        }
        let n = self.left.min(self.size);
        let part = Part {
            offset: self.offset,
            n,
            last: n == self.left,
        };
        self.offset += n;
        self.left -= n;
        self.done = part.last;
        Some(part)
    }
}
