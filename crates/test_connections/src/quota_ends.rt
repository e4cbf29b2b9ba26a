//! An endpoint over an allocator with a limit.

use iw_endpoint::{
    CallRefusal, Config, Delivery, Endpoint, Establishment, MAX_PLACE, OpenNextRefusal,
    PrivateData, Rights, Role,
};
use iw_quota::Quota;
use std::alloc::Global;
use std::test::Fail;

const DOMAIN: u8 = 1;

const RIGHTS: Rights = Rights {
    write: true,
    read: true,
    sink: true,
    invalidate: true,
};

// Octets that an endpoint may hold.
const MOST: u64 = 300_000;

type Limited<'q> = Endpoint<&'q Quota<Global>>;

fn config() -> Config {
    Config {
        markers: true,
        crc: true,
        establishment: Establishment::Plain,
        private: PrivateData::new(),
    }
}

// An endpoint with a domain.
fn limited(quota: &Quota<Global>) -> Limited<'_> {
    let mut endpoint = Endpoint::new(quota);
    let _ = endpoint.add_domain(DOMAIN);
    endpoint
}

// Opens streams until one is refused, 1,000 at most: how many were opened, the number of the last, and why the next was not.
fn open_all(endpoint: &mut Limited<'_>) -> (u32, u32, Option<OpenNextRefusal>) {
    let mut last = 0;
    for opened in 0..1_000 {
        match endpoint.open_next(DOMAIN, Role::Preset, config()) {
            Ok(number) => last = number,
            Err(refusal) => return (opened, last, Some(refusal)),
        }
    }
    (1_000, last, None)
}

// Ends a stream, and closes it.
fn close(endpoint: &mut Limited<'_>, number: u32) -> bool {
    let _ = endpoint.break_link(number);
    for _ in 0..4 {
        match endpoint.in_order_point(number) {
            Ok(point) if point <= MAX_PLACE => {
                let _ = endpoint.work(number);
            }
            _ => return false,
        }
    }
    endpoint.close(number).is_ok()
}

#[test]
fn streams_are_opened_as_long_as_they_fit(rt: HostRuntime) -> Result<(), Fail> {
    let quota = Quota::new(rt.alloc(), MOST);
    {
        let mut endpoint = limited(&quota);
        let (opened, last, refusal) = open_all(&mut endpoint);
        assert!(rt; (opened > 10, refusal) == (true, Some(OpenNextRefusal::NoMemory)));
        let full = quota.held();
        assert!(rt; full <= MOST);
        // A refusal takes nothing, and comes again as long as nothing is given back.
        let again = endpoint.open_next(DOMAIN, Role::Preset, config());
        assert!(rt; (again.is_err(), quota.held()) == (true, full));
        assert!(rt; close(&mut endpoint, last));
        assert!(rt; quota.held() < full);
        let again = endpoint.open_next(DOMAIN, Role::Preset, config());
        assert!(rt; (again.is_ok(), quota.held()) == (true, full));
    }
    assert!(rt; quota.held() == 0);
    Ok(())
}

#[test]
fn what_a_stream_holds_counts_beside_the_regions(rt: HostRuntime) -> Result<(), Fail> {
    let quota = Quota::new(rt.alloc(), MOST);
    {
        let mut endpoint = limited(&quota);
        let stream = endpoint.open(0, DOMAIN, Role::Preset, config());
        assert!(rt; stream.is_ok());
        let octets = vec![in &quota; 0u8; 200_000]?;
        let stag = endpoint.register(DOMAIN, 0, octets, RIGHTS).ok();
        assert!(rt; stag.is_some());
        let before = quota.held();
        // Octets past a gap want the place of the gap too.
        let refused = endpoint.deliver(0, 150_000, &[7]);
        assert!(rt; matches!(refused, Err(CallRefusal::Refused(_))));
        assert!(rt; (quota.held(), endpoint.in_order_point(0)) == (before, Ok(0)));
        assert!(rt; stag.is_some_and(|stag| endpoint.deregister(stag).is_ok()));
        let delivered = endpoint.deliver(0, 150_000, &[7]);
        assert!(rt; matches!(delivered, Ok(Delivery::Kept)));
        assert!(rt; quota.held() > 150_000 && quota.held() <= MOST);
    }
    assert!(rt; quota.held() == 0);
    Ok(())
}

// Whether an octet past a gap is kept, which takes room for the gap too.
fn is_kept(endpoint: &mut Limited<'_>, number: u32) -> bool {
    matches!(endpoint.deliver(number, 150_000, &[7]), Ok(Delivery::Kept))
}

#[test]
fn a_stream_with_a_reserve_takes_nothing_from_the_others_nor_they_from_it(
    rt: HostRuntime,
) -> Result<(), Fail> {
    let quota = Quota::new(rt.alloc(), MOST);
    let reserve = Quota::new(rt.alloc(), MOST);
    {
        let mut endpoint = limited(&quota);
        assert!(rt; endpoint.open(0, DOMAIN, Role::Preset, config()).is_ok());
        endpoint.open_streams_in(&reserve);
        assert!(rt; endpoint.open(1, DOMAIN, Role::Preset, config()).is_ok());
        let opened = reserve.held();
        assert!(rt; opened > 0);
        let others = vec![in &quota; 0u8; MOST.saturating_sub(quota.held()) as usize]?;
        // The others hold all that they may: the stream with a reserve goes on.
        assert!(rt; !is_kept(&mut endpoint, 0));
        assert!(rt; is_kept(&mut endpoint, 1));
        assert!(rt;
            (
                quota.held(),
                reserve.held() > opened.saturating_add(150_000)
            ) == (MOST, true)
        );
        // It holds all that it may: the others go on.
        drop(others);
        let rest = vec![in &reserve; 0u8; MOST.saturating_sub(reserve.held()) as usize]?;
        assert!(rt; endpoint.deliver(1, 250_000, &[7]).is_err());
        assert!(rt; (rest.is_empty(), reserve.held()) == (false, MOST));
        assert!(rt; is_kept(&mut endpoint, 0));
    }
    assert!(rt; (quota.held(), reserve.held()) == (0, 0));
    Ok(())
}
