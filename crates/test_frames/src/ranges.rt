use iw_ranges::{Delivery, Islands};
use std::test::Fail;

#[test]
fn octets_come_in_any_order(rt: HostRuntime) -> Result<(), Fail> {
    let mut islands = Islands::new(rt.alloc())?;
    assert!(rt; islands.add(2, "cdef".as_bytes())? == Delivery::Kept);
    assert!(rt; islands.came(2, 6));
    islands.ready()?;
    islands.release(2, 6);
    assert!(rt; islands.add(0, "abc".as_bytes())? == Delivery::Kept);
    let missing = islands.missing();
    assert!(rt; missing == 6);
    islands.advance(missing);
    assert!(rt; islands.floor() == 6);
    Ok(())
}

#[test]
fn octets_are_read_in_place(rt: HostRuntime) -> Result<(), Fail> {
    let mut islands = Islands::new(rt.alloc())?;
    let ready = islands.make_room(5)?;
    assert!(rt; ready);
    islands.lend(5).copy_from_slice("hello".as_bytes());
    assert!(rt; islands.missing() == 0);
    assert!(rt; islands.came_in_place(0, 3));
    assert!(rt; islands.missing() == 3);
    assert!(rt; islands.peek(2) == b'l');
    assert!(rt; islands.came_in_place(3, 2));
    assert!(rt; islands.peek(4) == b'o');
    assert!(rt; !islands.came_in_place(5, 131_072));
    Ok(())
}
