ghost use Rattle.std.specs.Prelude.{ℕ, ◌≡◌, ◌<◌, ◌%◌, ◌^◌, IfOk};
ghost use Rattle.iw_ranges.specs.Arrived.{cell_at};
ghost use Rattle.iw_fpdu.specs.Found.{IsKept};

use iw_fpdu::{Fpdu, Layout, write_fpdu};
use iw_ranges::{Delivery, Islands};
use std::alloc::Global;
use std::test::Fail;

const FULL: Layout = Layout {
    markers: true,
    crc: true,
};

/// Octets that came at a place of a stream.
fn came(alloc: Global, place: u64, octets: &[u8]) -> Result<Islands, Fail>
    ensures { IfOk result (λ islands. (p : ℕ) → IsKept (cell_at islands.arrived p)) }
{
    let mut islands = Islands::new(alloc)?;
    let Delivery::Kept = islands.add(place, octets)? else {
        return Err("dropped".into());
    };
    Ok(islands)
}

/// The Send of RFC 5044's figures 5 and 6 with this message sequence number, written at this frame place.
fn printed(alloc: Global, at: u64, msn: &str) -> Result<Vec<u8>, Fail>
    requires low { at < 2 ^ 63 }
    requires aligned { at % 4 ≡ 0 }
{
    let zeros = [0; 28];
    let parts = [
        "AC\0\0\0\0\0\0\0\0\0\0\0".as_bytes(),
        msn.as_bytes(),
        zeros.as_slice(),
    ];
    let mut out = Vec::new(alloc);
    write_fpdu(FULL, at, &parts, &mut out)?;
    Ok(out)
}

/// Whether these octets are at index `at`.
fn stand(octets: &[u8], at: usize, expected: &[u8]) -> bool {
    match octets.get(at..) {
        Some(rest) => rest.starts_with(expected),
        None => false,
    }
}

#[test]
fn printed_frames_are_written(rt: HostRuntime) -> Result<(), Fail> {
    let first = printed(rt.alloc(), 0, "\x01")?;
    assert!(rt; stand(&first, 0, "\0\0\0\0\0*AC".as_bytes()));
    assert!(rt; stand(&first, 48, &[0x52, 0x23, 0x99, 0x83]));
    let second = printed(rt.alloc(), 492, "\x02")?;
    assert!(rt; stand(&second, 20, "\0\0\0\x14".as_bytes()));
    assert!(rt; stand(&second, 48, &[0x84, 0x92, 0x58, 0x98]));
    Ok(())
}

#[test]
fn a_printed_frame_is_read(rt: HostRuntime) -> Result<(), Fail> {
    let octets = printed(rt.alloc(), 492, "\x02")?;
    let islands = came(rt.alloc(), 20 + 492, &octets)?;
    let fpdu = Fpdu::read(FULL, 20, 492, &islands).ok_or("not whole")?;
    assert!(rt; fpdu.check() == Ok(()));
    let mut ulpdu = vec![in rt.alloc(); 7; fpdu.len()]?;
    fpdu.copy_from(0, &mut ulpdu);
    assert!(rt; stand(&ulpdu, 10, "\0\0\0\x02\0".as_bytes()));
    Ok(())
}

// The CRC covers a marker directly before its field.
#[test]
fn a_marker_stands_before_the_crc_field(rt: HostRuntime) -> Result<(), Fail> {
    let zeros = [0; 506];
    let mut out = Vec::new(rt.alloc());
    write_fpdu(FULL, 0, &[zeros.as_slice()], &mut out)?;
    assert!(rt; stand(&out, 512, &[0, 0, 1, 0xfc, 0x1d, 0x8b, 0xaf, 0xdb]));
    Ok(())
}
