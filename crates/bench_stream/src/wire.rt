use crate::end::{End, Stop};
use crate::load::Load;
use iw_memory::Memory;
use std::alloc::Global;
use std::mem;

// The distance from one marker to the next, and the length of a marker, in octets.
const MARKER_SPACING: usize = 512;

const MARKER_LEN: usize = 4;

/// A frame in transit: its place in the stream, and where its octets are.
#[derive(Clone, Copy)]
pub(crate) struct Frame {
    pub(crate) from: u64,
    at: usize,
    len: usize,
}

/// Frames that were emitted and not yet delivered.
#[derive(Drop)]
pub(crate) struct Wire {
    octets: Vec<u8>,
    frames: Vec<Frame>,
    /// Room for the frames while their order is changed.
    emitted: Vec<Frame>,
}

impl Wire {
    pub(crate) fn new(alloc: Global) -> Wire {
        Wire {
            octets: Vec::new(alloc),
            frames: Vec::new(alloc),
            emitted: Vec::new(alloc),
        }
    }

    /// The frames, in the order of their delivery.
    pub(crate) fn frames(&self) -> &[Frame] {
        self.frames.as_slice()
    }

    /// The total length of the frames.
    pub(crate) fn len(&self) -> usize {
        self.octets.len()
    }

    /// The octets of a frame.
    pub(crate) fn octets_of(&self, frame: Frame) -> Result<&[u8], Stop> {
        let all = self.octets.as_slice();
        if frame.at > all.len() || frame.len > all.len() - frame.at {
            return Err(Stop);
        }
        let (_, rest) = all.split_at(frame.at);
        let (octets, _) = rest.split_at(frame.len);
        Ok(octets)
    }

    /// Emits the next frame of an end, and only that. Returns its place; `None` if no frame is due.
    pub(crate) fn next(&mut self, end: &mut End, memory: &Memory) -> Result<Option<u64>, Stop> {
        self.octets.clear();
        end.emit(memory, &mut self.octets)
    }

    pub(crate) fn octets(&self) -> &[u8] {
        self.octets.as_slice()
    }

    /// Makes the markers among the octets, the first of which has place 0, point where the load says.
    pub(crate) fn lie(&mut self, load: Load) {
        if load.lying {
            self.point_anywhere();
        }
        if load.cut {
            self.point_to_cut_frames();
        }
    }

    // Each marker points to a random place.
    fn point_anywhere(&mut self) {
        let mut state = 1u32;
        for marker in self.octets.chunks_mut(MARKER_SPACING) {
            state = state.wrapping_mul(1_664_525).wrapping_add(1_013_904_223);
            if marker.len() >= MARKER_LEN {
                marker[2] = (state >> 24) as u8;
                marker[3] = (state >> 16 & 255) as u8;
            }
        }
    }

    // Each marker points right after itself, to a frame with a length of 65,535 octets. So many never come without a
    // gap, so the frame is never whole. Any octet that comes within it might be the last that it lacks. So each
    // delivery has the search look again at all frames to which the markers of the 65,535 octets before it point; and
    // none gets a record, after which the search would begin.
    fn point_to_cut_frames(&mut self) {
        for part in self.octets.chunks_mut(MARKER_SPACING) {
            if part.len() >= MARKER_LEN + 2 {
                part[2] = 0;
                part[3] = 0;
                part[4] = 255;
                part[5] = 255;
            }
        }
    }

    /// Replaces the frames by at most `most` new frames of an end.
    pub(crate) fn fill(&mut self, end: &mut End, memory: &Memory, most: usize) -> Result<(), Stop> {
        self.octets.clear();
        self.frames.clear();
        for _ in 0..most {
            let at = self.octets.len();
            let Some(from) = end.emit(memory, &mut self.octets)? else {
                return Ok(());
            };
            let len = self.octets.len().saturating_sub(at);
            add(&mut self.frames, Frame { from, at, len })?;
        }
        Ok(())
    }

    /// Puts the emitted frames in the order in which the load has them delivered: the last before all others; or from
    /// the last to the first; or batch by batch, with the first of each `late` after all others of its batch.
    pub(crate) fn arrange(&mut self, load: Load) -> Result<(), Stop> {
        if load.last_first && !self.frames.is_empty() {
            self.frames.rotate_right(1);
        }
        if load.reversed {
            self.frames.reverse();
        }
        if load.late > 1 {
            mem::swap(&mut self.frames, &mut self.emitted);
            self.frames.clear();
            for batch in self.emitted.chunks(load.batch.max(1)) {
                add_late(&mut self.frames, batch, load.late)?;
            }
        }
        Ok(())
    }
}

fn add(frames: &mut Vec<Frame>, frame: Frame) -> Result<(), Stop> {
    match frames.push(frame) {
        Ok(()) => Ok(()),
        Err(_) => Err(Stop),
    }
}

// Adds the frames of a batch, the first of each `late` after all others.
fn add_late(ordered: &mut Vec<Frame>, batch: &[Frame], late: usize) -> Result<(), Stop> {
    for part in batch.chunks(late.max(1)) {
        if let Some((_, others)) = part.split_first() {
            ordered.extend_from_slice(others)?;
        }
    }
    for part in batch.chunks(late.max(1)) {
        if let Some((first, _)) = part.split_first() {
            add(ordered, *first)?;
        }
    }
    Ok(())
}
