//! Messages that are posted, cut into parts, sent and handed back.
use bytes::Bytes;
use iw_octets::{Message, ReadRequest, Stag};
use iw_queues::{Done, Kind, Refusal, Request, SendQueue};
use std::alloc::Global;
use std::process::Abort;
use std::test::Fail;

fn stag() -> Stag {
    Stag::new(1, 0, 0)
}

fn zeros(alloc: Global, n: usize) -> Result<Bytes, Fail> {
    Ok(Bytes::from_vec(Vec::from_elem(alloc, 0, n)?)?)
}

fn write_of(octets: Bytes) -> Request<Bytes> {
    Request::Message(Message::Write {
        stag: stag(),
        to: 0,
        octets,
    })
}

fn send_of(octets: Bytes) -> Request<Bytes> {
    Request::Message(Message::Send {
        octets,
        solicited: false,
        invalidate: None,
    })
}

fn read_of(size: u32) -> Request<Bytes> {
    Request::Read(ReadRequest {
        sink: stag(),
        sink_to: 0,
        size,
        source: stag(),
        source_to: 0,
    })
}

fn post(queue: &mut SendQueue, message: Request<Bytes>) -> Result<u64, Refusal> {
    match queue.post(message) {
        Ok(ticket) => Ok(ticket),
        Err((refusal, _)) => Err(refusal),
    }
}

// Ticket, offset, length and last flag of the next part, which counts as sent then.
fn sent(rt: &impl Abort, queue: &mut SendQueue, max: usize) -> (u64, usize, usize, bool) {
    assert!(rt; max >= 128);
    let part = queue.next_part(max).expect(rt, "a part is left");
    let (n, last) = (part.n, part.last);
    let told = (part.ticket, part.offset, part.octets().len(), last);
    queue.part_sent(n, last);
    told
}

// A Write, a Read and two Sends.
fn posted(alloc: Global) -> Result<SendQueue, Fail> {
    let mut queue = SendQueue::new(alloc);
    let messages = [
        write_of(zeros(alloc, 2048)?),
        read_of(4),
        send_of(zeros(alloc, 222)?),
        send_of(Bytes::new()),
    ];
    for message in messages {
        post(&mut queue, message)?;
    }
    Ok(queue)
}

// With a ULPDU size of 1,500, a Write of 2,048 octets has a part of 1,486 octets and one of 562 (RFC 5041 5.2).
#[test]
fn messages_are_sent_and_done_in_order(rt: HostRuntime) -> Result<(), Fail> {
    let mut queue = posted(rt.alloc())?;
    let parts = [
        (1500, (0, 0, 1486, false)),
        (1500, (0, 1486, 562, true)),
        (128, (1, 0, 0, true)),
        (128, (2, 0, 110, false)),
        (130, (2, 110, 112, true)),
        (128, (3, 0, 0, true)),
    ];
    for (max, part) in parts {
        assert!(rt; sent(&rt, &mut queue, max) == part);
    }
    assert!(rt; queue.awaits(1));
    queue.finish(1);
    for (ticket, kind) in [(0, Kind::Write), (1, Kind::Read), (2, Kind::Send)] {
        assert!(rt; queue.next() == Some(Done { ticket, kind }));
    }
    assert!(rt; queue.len() == 1);
    let kind = Kind::Send;
    assert!(rt; queue.flush() == Some(Done { ticket: 3, kind }));
    assert!(rt; queue.is_empty());
    Ok(())
}
