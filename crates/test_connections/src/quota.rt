//! Blocks of an allocator with a limit.

use iw_quota::{Quota, Usage};
use std::alloc::Global;
use std::test::Fail;
use test_support::FailsAt;

// Whether a vector of so many octets is refused.
fn is_refused(quota: &Quota<Global>, len: usize) -> bool {
    Vec::<u8, &Quota<Global>>::with_capacity(quota, len).is_err()
}

#[test]
fn what_is_left_is_handed_out_and_no_octet_more(rt: HostRuntime) -> Result<(), Fail> {
    let quota = Quota::new(rt.alloc(), 100);
    assert!(rt; (quota.held(), quota.most()) == (0, 100));
    let first = vec![in &quota; 1u8; 60]?;
    assert!(rt; quota.held() == 60);
    assert!(rt; is_refused(&quota, 41));
    assert!(rt; quota.held() == 60);
    {
        let rest = vec![in &quota; 2u8; 40]?;
        assert!(rt; quota.held() == 100);
        assert!(rt; is_refused(&quota, 1));
        assert!(rt; rest.len() == 40);
    }
    assert!(rt; quota.held() == 60);
    assert!(rt; first.iter().all(|octet| *octet == 1));
    drop(first);
    let end = Usage {
        held: 0,
        peak: 100,
        most: 100,
    };
    assert!(rt; quota.usage() == end);
    Ok(())
}

#[test]
fn of_a_block_that_grows_or_shrinks_the_difference_counts(rt: HostRuntime) -> Result<(), Fail> {
    let quota = Quota::new(rt.alloc(), 100);
    let mut words = vec![in &quota; 3u64; 5]?;
    assert!(rt; quota.held() == 40);
    assert!(rt; words.reserve_exact(8).is_err());
    assert!(rt; (quota.held(), words.len()) == (40, 5));
    words.reserve_exact(7)?;
    assert!(rt; (quota.held(), quota.usage().peak) == (96, 96));
    assert!(rt; words.reserve_exact(8).is_err());
    words.truncate(2);
    words.shrink_to_fit();
    assert!(rt; (quota.held(), quota.usage().peak) == (16, 96));
    assert!(rt; words.as_slice() == [3, 3].as_slice());
    Ok(())
}

#[test]
fn a_block_that_the_inner_allocator_refuses_does_not_count(rt: HostRuntime) -> Result<(), Fail> {
    let heap = FailsAt::new(rt.alloc(), 0);
    let quota = Quota::new(&heap, 100);
    assert!(rt; Vec::<u8, &Quota<&FailsAt<Global>>>::with_capacity(&quota, 100).is_err());
    assert!(rt; quota.held() == 0);
    let octets = vec![in &quota; 0u8; 100]?;
    assert!(rt; (quota.held(), octets.len()) == (100, 100));
    Ok(())
}
