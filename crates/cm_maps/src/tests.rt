//! Each call once, with ample memory.
use super::{Map, PageList, STACK_TOP};
use std::test::Fail;

#[test]
fn maps_and_lists(rt: HostRuntime) -> Result<(), Fail> {
    let mut free = PageList::make(rt.alloc(), 3)?;
    let mut map = Map::make(rt.alloc(), 1024, 3)?;
    map.add(7);
    map.add(65_535);
    assert_eq!(rt; map.translate(STACK_TOP - 1), Some(7 * 256 + 255));
    assert_eq!(rt; map.translate(STACK_TOP - 1024), Some(7 * 256));
    assert_eq!(rt; map.translate(STACK_TOP - 1025), Some(65_535 * 256 + 255));
    assert_eq!(rt; map.translate(STACK_TOP - 2049), None);
    assert_eq!(rt; map.translate(STACK_TOP), None);
    let chain = map.chain(rt.alloc(), 1)?;
    map.cut(1, &mut free);
    assert_eq!(rt; map.translate(STACK_TOP - 1025), None);
    map.drop_all();
    assert_eq!(rt; map.translate(STACK_TOP - 4), None);
    map.install(&chain);
    assert_eq!(rt; map.translate(STACK_TOP - 4), Some(7 * 256 + 255));
    free.put(4);
    assert_eq!(rt; free.pull(), Some(4));
    assert_eq!(rt; free.pull(), Some(65_535));
    assert_eq!(rt; free.pull(), None);
    Ok(())
}
