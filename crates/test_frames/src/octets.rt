//! Test vectors of other programs, and an example of each header and payload.
use iw_crc::crc32c;
use iw_octets::{ReadRequest, Segment, Short, Stag, TaggedHead, TerminateWord, UntaggedHead};

#[test]
fn crc_of_runs(rt: HostRuntime) {
    assert!(rt; crc32c("123456789".as_bytes()) == 0xe306_9283);
    assert!(rt; crc32c(&[0; 32]) == 0x8a91_36aa);
    assert!(rt; crc32c(&[7; 800]) == 0x5b97_42c0);
    assert!(rt; crc32c(&[7; 1827]) == 0x0471_63f0);
    assert!(rt; crc32c(&[7; 5000]) == 0x935a_67dc);
}

#[test]
fn segments(rt: HostRuntime) {
    let octets = b"\xc1@\x01\0\x05\0\0\0\0\0\0\0\x10\0..";
    let head = TaggedHead {
        last: true,
        ddp_version: 1,
        control: 0x40,
        stag: Stag::from(0x0100_0500),
        to: 4096,
    };
    let payload = "..".as_bytes();
    assert!(rt; Segment::read(octets) == Ok(Segment::Tagged(head, payload)));
    assert!(rt; head.write().as_slice() == &octets[..14]);
    let octets = "AD\x01\0\0\0\0\0\0\x02\0\0\0\x03\0\0\0\x04..".as_bytes();
    let head = UntaggedHead {
        last: true,
        ddp_version: 1,
        control: 0x44,
        tail: 0x0100_0000,
        queue: 2,
        msn: 3,
        mo: 4,
    };
    assert!(rt; Segment::read(octets) == Ok(Segment::Untagged(head, payload)));
    assert!(rt; head.write().as_slice() == &octets[..18]);
    assert!(rt; Segment::read(&octets[..17]) == Err(Short));
}

#[test]
fn payloads(rt: HostRuntime) {
    let octets = "\x01\0\0\0\0\0\0\0\0\0\0d\0\0\0\x04\x01\0\0\0\0\0\0\0\0\0\0\0".as_bytes();
    let request = ReadRequest {
        sink: Stag::from(0x0100_0000),
        sink_to: 100,
        size: 4,
        source: Stag::from(0x0100_0000),
        source_to: 0,
    };
    assert!(rt; request.write().as_slice() == octets);
    assert!(rt; ReadRequest::read(octets) == Ok((request, [].as_slice())));
    let word = TerminateWord {
        layer: 0,
        kind: 1,
        code: 0,
        has_length: true,
        has_ddp: true,
        has_request: true,
    };
    let octets = b"\x01\0\xe0\0";
    assert!(rt; word.write().as_slice() == octets.as_slice());
    assert!(rt; TerminateWord::read(octets) == Ok((word, [].as_slice())));
}
