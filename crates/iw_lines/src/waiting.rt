ghost use Rattle.std.specs.Prelude.{◌≡◌, [], drop, unwrap_or, slice_index_or, IfOk};
ghost use Rattle.iw_lines.specs.Waiting.{pushed};

use std::alloc::{AllocError, Global};
use std::collections::VecDeque;
use std::marker::Model;

/// How many messages wait at a stream at most: as many as may be posted.
pub const MAX_WAITING: usize = 256;

/// Up to 256 values, oldest first. The memory for all of them is taken at once.
#[derive(Drop)]
pub struct Waiting<T> {
    items: VecDeque<T>,
}

impl<T> Model for Waiting<T> {
    ghost use Rattle.std.specs.Prelude.{◌≤◌, List};
    ghost use Rattle.std.specs.VecDeque.{deque_capacity};

    ghost Value = { List T };

    ghost view = { λ waiting. waiting.items.items };

    ghost invariant = { λ waiting. 256 ≤ deque_capacity waiting.items };
}

impl<T> Waiting<T> {
    /// None. An `Err` means out of memory.
    pub(crate) fn new(alloc: Global) -> Result<Waiting<T>, AllocError>
        ensures { IfOk result (λ waiting. waiting ≡ []) }
    {
        let items = VecDeque::with_capacity(alloc, MAX_WAITING)?;
        Ok(Waiting { items })
    }

    /// Puts a value behind the others, if they are fewer than 256.
    pub(crate) fn push(&mut self, item: T)
    where
        T: Drop,
        ensures { self.new ≡ pushed self.old item }
    {
        if self.items.len() < MAX_WAITING {
            self.items.push_back_reserved(item);
        }
    }

    /// Takes the oldest out, if there is one.
    pub(crate) fn pop(&mut self) -> Option<T>
        ensures oldest { (d : T) → unwrap_or result d ≡ slice_index_or self.old 0 d }
        ensures rest { self.new ≡ drop 1 self.old }
    {
        self.items.pop_front()
    }
}
