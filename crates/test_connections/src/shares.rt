//! Streams of one domain that share a pool, each with a share of its buffers.

use crate::made::made;
use bytes::Bytes;
use iw_connection::{
    Endpoint, Octets, Step, StreamNumber, fill, is_above_mark, next, next_marked, next_within,
};
use iw_endpoint::{Config, Establishment, Fault, Message, PrivateData, Request, Role};
use std::alloc::Global;
use std::test::Fail;

const DOMAIN: u8 = 1;

const GREEDY: StreamNumber = 0;

const MODEST: StreamNumber = 1;

// How many buffers the pool has.
const POOL: u32 = 8;

// What was told of a stream.
#[derive(Clone, Copy, Debug, PartialEq, Eq)]
struct Seen {
    received: u32,
    flushed: u32,
    fault: Option<Fault>,
}

const NOTHING: Seen = Seen {
    received: 0,
    flushed: 0,
    fault: None,
};

impl Seen {
    // Takes note of a step, and tells whether there was one.
    fn is_told(&mut self, step: Step<Octets>) -> bool {
        match step {
            Step::Received { .. } => self.received = self.received.saturating_add(1),
            Step::FlushedRecv(_) => self.flushed = self.flushed.saturating_add(1),
            Step::Fault(fault) => self.fault = Some(fault),
            Step::Idle => return false,
            _ => {}
        }
        true
    }
}

// What comes of two streams: the greedy one's octets come behind a hole, and then the first frame, and all of the modest one's.
#[derive(Clone, Copy, Debug, PartialEq, Eq)]
struct Story {
    hole: Seen,
    bound: usize,
    ended: Seen,
    modest: Seen,
}

// What a peer sends: the first frame, which may come late, and the others.
#[derive(Drop)]
struct Wire {
    first: Vec<u8>,
    others: Vec<u8>,
}

impl Wire {
    // The sequence number of the first octet behind the first frame.
    fn second(&self) -> u32 {
        (self.first.len() % (1 << 32)) as u32
    }
}

fn config() -> Config {
    Config {
        markers: true,
        crc: true,
        establishment: Establishment::Plain,
        private: PrivateData::new(),
    }
}

fn post(endpoint: &mut Endpoint, alloc: Global) -> Result<(), Fail> {
    let send = Message::Send {
        octets: Bytes::from_vec(vec![in alloc; 7u8; 1]?)?,
        solicited: false,
        invalidate: None,
    };
    made("post", endpoint.post(GREEDY, Request::Message(send)))
}

fn open_sender(endpoint: &mut Endpoint) -> Result<(), Fail> {
    made("add_domain", endpoint.add_domain(DOMAIN))?;
    made(
        "open",
        endpoint.open(GREEDY, DOMAIN, Role::Preset, config()),
    )
}

fn post_all(endpoint: &mut Endpoint, alloc: Global, n: u32) -> Result<(), Fail> {
    for _ in 0..n {
        post(endpoint, alloc)?;
    }
    Ok(())
}

fn frames(endpoint: &mut Endpoint, alloc: Global, most: usize) -> Result<Vec<u8>, Fail> {
    let mut out = Vec::new(alloc);
    made("fill", fill(endpoint, GREEDY, &mut out, most))?;
    Ok(out)
}

fn emitted(endpoint: &mut Endpoint, alloc: Global) -> Result<Wire, Fail> {
    let first = frames(endpoint, alloc, 0)?;
    let others = frames(endpoint, alloc, usize::MAX)?;
    Ok(Wire { first, others })
}

// The frames of `n` Sends of one octet.
fn sends(alloc: Global, n: u32) -> Result<Wire, Fail> {
    let mut endpoint = Endpoint::new(alloc);
    open_sender(&mut endpoint)?;
    post_all(&mut endpoint, alloc, n)?;
    emitted(&mut endpoint, alloc)
}

fn post_buffers(endpoint: &mut Endpoint, alloc: Global) -> Result<(), Fail> {
    for _ in 0..POOL {
        let buffer = vec![in alloc; 0u8; 16]?;
        made("post_shared", endpoint.post_shared(DOMAIN, buffer))?;
    }
    Ok(())
}

// Two streams that share a pool.
fn open_both(endpoint: &mut Endpoint) -> Result<(), Fail> {
    made("add_domain", endpoint.add_domain(DOMAIN))?;
    made("share", endpoint.share(DOMAIN))?;
    made(
        "open_shared",
        endpoint.open_shared(GREEDY, DOMAIN, Role::Preset, config()),
    )?;
    made(
        "open_shared",
        endpoint.open_shared(MODEST, DOMAIN, Role::Preset, config()),
    )
}

// The next step. Without a share the stream may have the whole pool.
fn stepped(
    endpoint: &mut Endpoint,
    number: StreamNumber,
    share: Option<usize>,
) -> Result<Step<Octets>, Fail> {
    match share {
        Some(share) => made("next_within", next_within(endpoint, number, share)),
        None => made("next", next(endpoint, number)),
    }
}

// Works until nothing is left to do.
fn worked(
    endpoint: &mut Endpoint,
    number: StreamNumber,
    share: Option<usize>,
) -> Result<Seen, Fail> {
    let mut seen = NOTHING;
    for _ in 0..u64::MAX {
        if !seen.is_told(stepped(endpoint, number, share)?) {
            break;
        }
    }
    Ok(seen)
}

// All but the first frame come, and are placed before their turn.
fn behind_a_hole(endpoint: &mut Endpoint, wire: &Wire, share: Option<usize>) -> Result<Seen, Fail> {
    made(
        "deliver",
        endpoint.deliver(GREEDY, wire.second(), wire.others.as_slice()),
    )?;
    worked(endpoint, GREEDY, share)
}

fn with_the_first(
    endpoint: &mut Endpoint,
    wire: &Wire,
    share: Option<usize>,
) -> Result<Seen, Fail> {
    made(
        "deliver",
        endpoint.deliver(GREEDY, 0, wire.first.as_slice()),
    )?;
    worked(endpoint, GREEDY, share)
}

fn in_order(endpoint: &mut Endpoint, wire: &Wire, share: Option<usize>) -> Result<Seen, Fail> {
    made(
        "deliver",
        endpoint.deliver(MODEST, 0, wire.first.as_slice()),
    )?;
    made(
        "deliver",
        endpoint.deliver(MODEST, wire.second(), wire.others.as_slice()),
    )?;
    worked(endpoint, MODEST, share)
}

fn told_story(
    endpoint: &mut Endpoint,
    many: &Wire,
    few: &Wire,
    share: Option<usize>,
) -> Result<Story, Fail> {
    let hole = behind_a_hole(endpoint, many, share)?;
    let bound = made("bound_buffers", endpoint.bound_buffers(GREEDY))?;
    let ended = with_the_first(endpoint, many, share)?;
    let modest = in_order(endpoint, few, share)?;
    Ok(Story {
        hole,
        bound,
        ended,
        modest,
    })
}

fn served(alloc: Global, many: &Wire, few: &Wire, share: Option<usize>) -> Result<Story, Fail> {
    let mut endpoint = Endpoint::new(alloc);
    open_both(&mut endpoint)?;
    post_buffers(&mut endpoint, alloc)?;
    told_story(&mut endpoint, many, few, share)
}

fn told(alloc: Global, share: Option<usize>) -> Result<Story, Fail> {
    let many = sends(alloc, 60)?;
    let few = sends(alloc, 3)?;
    served(alloc, &many, &few, share)
}

#[test]
fn a_stream_that_wants_more_than_its_share_ends_alone(rt: HostRuntime) -> Result<(), Fail> {
    let story = told(rt.alloc(), Some(4))?;
    assert!(rt; story.hole == NOTHING);
    assert!(rt; story.bound == 4);
    assert!(rt;
        story.ended
            == Seen {
                received: 0,
                flushed: 4,
                fault: Some(Fault::UNTAGGED_NO_BUFFER)
            }
    );
    assert!(rt;
        story.modest
            == Seen {
                received: 3,
                flushed: 0,
                fault: None
            }
    );
    Ok(())
}

#[test]
fn without_shares_one_stream_takes_the_pool(rt: HostRuntime) -> Result<(), Fail> {
    let story = told(rt.alloc(), None)?;
    assert!(rt; story.bound == 8);
    assert!(rt; story.modest.fault == Some(Fault::UNTAGGED_NO_BUFFER));
    Ok(())
}

#[test]
fn a_share_of_one_is_enough_in_order(rt: HostRuntime) -> Result<(), Fail> {
    let story = told(rt.alloc(), Some(1))?;
    assert!(rt; story.bound == 1);
    assert!(rt;
        story.modest
            == Seen {
                received: 3,
                flushed: 0,
                fault: None
            }
    );
    Ok(())
}

// How many buffers the greedy stream has bound at each step by which it passes a mark, until there is nothing to do.
fn marked(endpoint: &mut Endpoint, alloc: Global, mark: usize) -> Result<Vec<usize>, Fail> {
    let mut bound = Vec::new(alloc);
    for _ in 0..u64::MAX {
        match made(
            "next_marked",
            next_marked(endpoint, GREEDY, usize::MAX, mark),
        )? {
            Step::Buffered { .. } => bound.push(made(
                "bound_buffers",
                endpoint.bound_buffers(GREEDY),
            )?)?,
            Step::Idle => break,
            _ => {}
        }
    }
    Ok(bound)
}

#[test]
fn a_stream_that_takes_more_than_a_mark_is_told_once(rt: HostRuntime) -> Result<(), Fail> {
    let alloc = rt.alloc();
    let wire = sends(alloc, 60)?;
    let mut endpoint = Endpoint::new(alloc);
    open_both(&mut endpoint)?;
    post_buffers(&mut endpoint, alloc)?;
    made(
        "deliver",
        endpoint.deliver(GREEDY, wire.second(), wire.others.as_slice()),
    )?;
    assert!(rt; marked(&mut endpoint, alloc, 3)?.as_slice() == [4].as_slice());
    // It took the whole pool.
    assert!(rt; is_above_mark(&endpoint, GREEDY, 7));
    assert!(rt; !is_above_mark(&endpoint, GREEDY, 8));
    Ok(())
}
