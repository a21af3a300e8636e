use cove_base::Page;
use cove_tlb::{RING_ROOM, Ring};
use std::test::Fail;

// A ring that was filled with the pages 0 to 4, each under ten times its number, has lost the first.
#[test]
fn the_fifth_page_pushes_out_the_first(rt: HostRuntime) -> Result<(), Fail> {
    let mut ring = Ring::new(rt.alloc())?;
    for n in 0..=RING_ROOM as u32 {
        let key = 10 * u64::from(n);
        if ring.find(key).is_none() {
            ring.fill(key, Page(n));
        }
    }
    let table = [
        (0, None),
        (10, Some(1)),
        (20, Some(2)),
        (30, Some(3)),
        (40, Some(4)),
        (41, None),
    ];
    for (key, page) in table {
        assert_eq!(rt; ring.find(key).map(|found| found.0), page);
    }
    ring.clear();
    assert!(rt; ring.find(40).is_none());
    Ok(())
}
