use crate::meter::Heap;

/// The front of a wire is dropped once it has this many octets.
const FRONT: usize = 1 << 16;

/// The octets that a stream emitted, from a place on.
#[derive(Drop)]
pub(crate) struct Wire<'h> {
    pub(crate) start: u64,
    pub(crate) octets: Vec<u8, Heap<'h>>,
}

impl<'h> Wire<'h> {
    pub(crate) fn new(heap: Heap<'h>) -> Wire<'h> {
        Wire {
            start: 0,
            octets: Vec::new(heap),
        }
    }

    /// The octets at a place; `None` if they are not all there.
    pub(crate) fn part(&self, from: u64, len: u64) -> Option<&[u8]> {
        let at = from.checked_sub(self.start)? as usize;
        let rest = self.octets.as_slice().get(at..)?;
        if len > rest.len() as u64 {
            return None;
        }
        Some(&rest[..len as usize])
    }

    /// The octets before this place are not needed any more.
    pub(crate) fn forget(&mut self, place: u64) {
        let count = place
            .saturating_sub(self.start)
            .min(self.octets.len() as u64) as usize;
        if count >= FRONT {
            self.octets.drain(..count);
            self.start = self.start.saturating_add(count as u64);
        }
    }
}
