use cove_base::{HartId, Plain, TvmId, Words};
use cove_fence::{Epochs, TvmEpochs};
use std::test::Fail;

#[test]
fn a_fence_begins_and_is_answered(rt: HostRuntime) -> Result<(), Fail> {
    let mut words = Plain::new(rt.alloc(), 5)?;
    let epochs = Epochs::new(1, 3);
    assert!(rt; matches!(epochs.begin(&mut words, HartId(1)), Ok(1)));
    assert_eq!(rt; words.as_slice(), [0, 1, 0, 1, 0].as_slice());
    epochs.answer(&mut words, HartId(2));
    assert_eq!(rt; words.as_slice(), [0, 1, 0, 1, 1].as_slice());
    assert_eq!(rt; epochs.current(&mut words), 1);
    assert_eq!(rt; epochs.floor(&mut words), 0);
    Ok(())
}

#[test]
fn the_lowest_hart_is_behind(rt: HostRuntime) -> Result<(), Fail> {
    let mut words = Plain::new(rt.alloc(), 4)?;
    words.set(0, 9);
    words.set(1, 9);
    let epochs = Epochs::new(0, 3);
    assert!(rt; matches!(epochs.begin(&mut words, HartId(0)), Err(HartId(1))));
    assert_eq!(rt; words.as_slice(), [9, 9, 0, 0].as_slice());
    Ok(())
}

#[test]
fn a_tvm_fence_waits_for_the_harts_inside(rt: HostRuntime) -> Result<(), Fail> {
    let epochs = TvmEpochs::new(0, 2);
    // the words of both harts, which of them is late (2 for none), and whether a fence since number 3 has passed
    for (seats, late, passed) in [
        ([0, 0], 2, true),
        ([0x2_0000_0003, 0x1_0000_0005], 2, true),
        ([0x2_0000_0003, 0x1_0000_0004], 1, true),
        ([0x1_0000_0005, 0x1_0000_0003], 1, false),
        ([0x1_0000_0000, 0x1_0000_0003], 0, false),
    ] {
        let mut words = Plain::new(rt.alloc(), 70)?;
        words.set(4, 5);
        words.set(68, seats[0]);
        words.set(69, seats[1]);
        assert_eq!(rt; epochs.passed(&mut words, TvmId(1), 3), passed);
        assert!(rt; !epochs.passed(&mut words, TvmId(1), 5));
        match epochs.begin(&mut words, TvmId(1)) {
            Ok(number) => assert_eq!(rt; (number, late), (6, 2)),
            Err(hart) => assert_eq!(rt; (hart.0, words.get(4)), (late, 5)),
        }
    }
    Ok(())
}
