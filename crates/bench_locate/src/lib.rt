//! Frames that come before the first of their window and are judged at once, for the driver in bench/locate.
#![tactic(auto)]

ghost use Rattle.std.specs.Prelude.{◌≡◌, ◌<◌, ◌≤◌, ◌+◌, ◌*◌, ◌^◌, length, IfOk};
ghost use Rattle.iw_locate.specs.Hole.{IsPastHole};

use iw_fpdu::Layout;
use iw_locate::{Judged, Locator, Next, State, Unsearched};
use iw_ranges::{Delivery, Islands, NoMemory};
use std::alloc::Global;

const MARKED: Layout = Layout {
    markers: true,
    crc: false,
};

/// The most frames that a window has.
const MOST: u32 = 4_200;

/// Delivers a segment.
fn deliver(
    islands: &mut Islands,
    judged: &Judged<u32>,
    unsearched: &mut Unsearched,
    place: u64,
    octets: &[u8],
) -> Result<(), NoMemory>
    requires past { IsPastHole islands.old.arrived judged.now.records unsearched.old }
    requires low { place < 2 ^ 32 }
    ensures { IsPastHole islands.new.arrived judged.now.records unsearched.new }
{
    match islands.add(place, octets)? {
        Delivery::Kept => unsearched.delivered(place, place + octets.len() as u64),
        Delivery::Dropped => {}
    }
    Ok(())
}

/// Judges the next frame, if one can be judged early.
fn step(islands: &Islands, judged: &mut Judged<u32>, unsearched: &mut Unsearched) -> bool
    requires { IsPastHole islands.now.arrived judged.old.records unsearched.old }
    ensures { IsPastHole islands.now.arrived judged.new.records unsearched.new }
{
    let next = Locator::new(MARKED, 0).next_since(islands, judged, unsearched);
    let Next::Frame(frame) = next else {
        return false;
    };
    if !frame.early {
        return false;
    }
    if judged.ready().is_err() {
        return false;
    }
    judged.add(frame, State::Placed(0));
    true
}

/// Judges frames while one can be judged early, and returns how many.
fn work(islands: &Islands, judged: &mut Judged<u32>, unsearched: &mut Unsearched) -> u64
    requires { IsPastHole islands.now.arrived judged.old.records unsearched.old }
    ensures { IsPastHole islands.now.arrived judged.new.records unsearched.new }
{
    let mut count = 0u64;
    for _ in 0..MOST {
        if !step(islands, judged, unsearched) {
            return count;
        }
        count = count.wrapping_add(1);
    }
    count
}

/// Delivers a segment, and judges what can be judged if `look` says so.
fn take(
    islands: &mut Islands,
    judged: &mut Judged<u32>,
    unsearched: &mut Unsearched,
    place: u64,
    octets: &[u8],
    look: bool,
) -> Result<u64, NoMemory>
    requires past { IsPastHole islands.old.arrived judged.old.records unsearched.old }
    requires low { place < 2 ^ 32 }
    ensures { IsPastHole islands.new.arrived judged.new.records unsearched.new }
{
    deliver(islands, judged, unsearched, place, octets)?;
    if look {
        Ok(work(islands, judged, unsearched))
    } else {
        Ok(1)
    }
}

/// Delivers the segment with this number, if it is chosen.
fn take_chosen(
    islands: &mut Islands,
    judged: &mut Judged<u32>,
    unsearched: &mut Unsearched,
    octets: &[u8],
    segment: usize,
    at: usize,
    chosen: bool,
    look: bool,
) -> Result<u64, NoMemory>
    requires past { IsPastHole islands.old.arrived judged.old.records unsearched.old }
    requires within { (at + 1) * segment ≤ length octets.now }
    requires short { length octets.now < 2 ^ 20 }
    ensures { IsPastHole islands.new.arrived judged.new.records unsearched.new }
{
    if !chosen {
        return Ok(0);
    }
    let place = at * segment;
    take(
        islands,
        judged,
        unsearched,
        place as u64,
        &octets[place..place + segment],
        look,
    )
}

/// A stream to which nothing came yet.
fn begun(alloc: Global) -> Result<(Islands, Judged<u32>, Unsearched), NoMemory>
    ensures { IfOk result (λ r. IsPastHole r.0.arrived r.1.records r.2) }
{
    let islands = Islands::new(alloc)?;
    Ok((islands, Judged::new(alloc), Unsearched::nothing()))
}

/// The segments of a window from `first` on, every `stride`th except each `gap`th, forwards or backwards.
fn window(
    alloc: Global,
    octets: &[u8],
    segment: usize,
    first: usize,
    stride: usize,
    gap: usize,
    back: bool,
    look: bool,
) -> Result<u64, NoMemory>
    requires segment { (0 < segment) × (segment < 2 ^ 16) }
    requires stride { (0 < stride) × (stride < 2 ^ 16) }
    requires gap { (0 < gap) × (gap < 2 ^ 16) }
    requires short { length octets.now < 2 ^ 20 }
{
    let (mut islands, mut judged, mut unsearched) = begun(alloc)?;
    let mut count = 0u64;
    let all = octets.len() / segment;
    let mut number = 0;
    while number < all {
        let at = if back { all - 1 - number } else { number };
        let taken = take_chosen(
            &mut islands,
            &mut judged,
            &mut unsearched,
            octets,
            segment,
            at,
            first <= at && (at - first) % stride == 0 && at % gap != 0,
            look,
        )?;
        count = count.wrapping_add(taken);
        number += 1;
    }
    Ok(count)
}

#[unsafe(no_mangle)]
pub extern "C" fn locate_window(
    alloc: Global,
    octets: &[u8],
    segment: usize,
    first: usize,
    stride: usize,
    gap: usize,
    back: bool,
    look: bool,
) -> u64
    requires segment { (0 < segment) × (segment < 2 ^ 16) }
    requires stride { (0 < stride) × (stride < 2 ^ 16) }
    requires gap { (0 < gap) × (gap < 2 ^ 16) }
    requires short { length octets.now < 2 ^ 20 }
{
    window(alloc, octets, segment, first, stride, gap, back, look).unwrap_or(0)
}
