use cove_base::Gpn;
use cove_region::{AreaKind, RegionFault, Regions};
use std::test::Fail;

// A region of the two pages from 0x10000 on, of which the second is shared and made private again.
#[test]
fn a_page_is_shared_and_made_private_again(rt: HostRuntime) -> Result<(), Fail> {
    let mut regions = Regions::new();
    assert_eq!(rt; regions.add(Gpn(16), 2), Ok(()));
    assert_eq!(rt; regions.add(Gpn(17), 1), Err(RegionFault::Overlap));
    assert_eq!(rt; regions.unshare(Gpn(17), 1), Err(RegionFault::NotInside));
    assert_eq!(rt; regions.share(Gpn(17), 1), Ok(()));
    assert_eq!(rt; regions.share(Gpn(17), 1), Err(RegionFault::NotInside));
    let kinds = [
        (15, AreaKind::Outside),
        (16, AreaKind::Private),
        (17, AreaKind::Shared),
        (18, AreaKind::Outside),
    ];
    for (page, kind) in kinds {
        assert_eq!(rt; regions.kind(Gpn(page)), kind);
    }
    assert_eq!(rt; regions.unshare(Gpn(17), 1), Ok(()));
    assert_eq!(rt; regions.kind(Gpn(17)), AreaKind::Private);
    Ok(())
}

// Two regions that adjoin are two, though a row of shared pages may cross from one to the other.
#[test]
fn no_call_crosses_from_a_region_to_the_next(rt: HostRuntime) -> Result<(), Fail> {
    let mut regions = Regions::new();
    assert_eq!(rt; regions.add(Gpn(16), 2), Ok(()));
    assert_eq!(rt; regions.add(Gpn(18), 2), Ok(()));
    assert_eq!(rt; regions.share(Gpn(17), 2), Err(RegionFault::NotInside));
    assert_eq!(rt; regions.share(Gpn(17), 1), Ok(()));
    assert_eq!(rt; regions.share(Gpn(18), 1), Ok(()));
    assert_eq!(rt; regions.unshare(Gpn(17), 2), Err(RegionFault::NotInside));
    assert_eq!(rt; regions.unshare(Gpn(18), 1), Ok(()));
    assert_eq!(rt; regions.kind(Gpn(17)), AreaKind::Shared);
    Ok(())
}

// With each even page of the first 32 shared there are 16 rows: no page makes a seventeenth, and one between two joins them.
#[test]
fn the_seventeenth_row_is_refused(rt: HostRuntime) -> Result<(), Fail> {
    let mut regions = Regions::new();
    assert_eq!(rt; regions.add(Gpn(0), 64), Ok(()));
    for k in 0..15u64 {
        assert_eq!(rt; regions.share(Gpn(2 * k), 1), Ok(()));
    }
    assert_eq!(rt; regions.share(Gpn(30), 3), Ok(()));
    assert_eq!(rt; regions.share(Gpn(40), 1), Err(RegionFault::Full));
    assert_eq!(rt; regions.unshare(Gpn(31), 1), Err(RegionFault::Full));
    assert_eq!(rt; regions.share(Gpn(1), 1), Ok(()));
    assert_eq!(rt; regions.share(Gpn(40), 1), Ok(()));
    assert_eq!(rt; regions.kind(Gpn(31)), AreaKind::Shared);
    Ok(())
}

// The ninth region is refused, unless it overlaps, which is said first.
#[test]
fn the_ninth_region_is_refused(rt: HostRuntime) -> Result<(), Fail> {
    let mut regions = Regions::new();
    for k in 0..8u64 {
        assert_eq!(rt; regions.add(Gpn(2 * k), 1), Ok(()));
    }
    assert_eq!(rt; regions.add(Gpn(0), 1), Err(RegionFault::Overlap));
    assert_eq!(rt; regions.add(Gpn(16), 1), Err(RegionFault::Full));
    Ok(())
}
