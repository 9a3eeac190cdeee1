//! Each call once: two pages of a region of 128 words.
use super::{Page, Store};
use cm_words::{Region, Span};
use std::test::Fail;

#[test]
fn pages_move(rt: HostRuntime) -> Result<(), Fail> {
    let (region, mut first) = Region::make(rt.alloc(), 128)?;
    let span = Span {
        first: 64,
        count: 64,
    };
    let second = region.part(&mut first, span);
    let mut store = Store::make(rt.alloc(), 2)?;
    let mut other = Store::make(rt.alloc(), 1)?;
    store.give(Page::of(0, 256, first));
    store.give(Page::of(1, 256, second));
    assert_eq!(rt; (store.count(), other.count()), (2, 0));
    store.cut(1, &mut other);
    assert_eq!(rt; (store.count(), other.count()), (1, 1));
    let (number, mut words) = other.take().split();
    assert_eq!(rt; number, 1);
    region.store(&mut words, 127, 7);
    assert_eq!(rt; region.load(&mut words, 127), 7);
    let (number, mut words) = store.take().split();
    assert_eq!(rt; number, 0);
    assert_eq!(rt; region.load(&mut words, 63), 0);
    assert_eq!(rt; (store.count(), other.count()), (0, 0));
    Ok(())
}
