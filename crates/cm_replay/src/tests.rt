//! Each schedule's first pairs.
use super::{Generated, Listed, Schedule};
use cm_text::List;
use std::test::Fail;

#[test]
fn first_pairs(rt: HostRuntime) -> Result<(), Fail> {
    let mut schedule = Generated::of(0, 2);
    for want in [(0, 0), (1, 0), (0, 1), (1, 1), (0, 0)] {
        assert_eq!(rt; schedule.next(), want);
    }
    // The value behind this seed is 0, so these are the draws from 0 on: 0, 15470, 18256, 53708.
    let mut schedule = Generated::of(634_785_765, 16);
    for want in [(0, 15_470 % 16), (18_256 % 16, 53_708 % 16)] {
        assert_eq!(rt; schedule.next(), want);
    }
    let mut pairs = List::new(rt.alloc());
    pairs.push((2, 1))?;
    let mut schedule = Listed::of(pairs, 3);
    for want in [(2, 1), (1, 0), (2, 0), (0, 1)] {
        assert_eq!(rt; schedule.next(), want);
    }
    Ok(())
}
