use cove_base::Page;
use cove_mem::Memory;
use std::test::Fail;

#[test]
fn words_are_stored_copied_and_zeroed(rt: HostRuntime) -> Result<(), Fail> {
    let mut memory = Memory::new(rt.alloc(), 3)?;
    memory.store(Page(1), 511, 7);
    memory.copy(Page(1), Page(2));
    memory.zero(Page(1));
    assert_eq!(rt; memory.load(Page(1), 511), 0);
    assert_eq!(rt; memory.load(Page(2), 511), 7);
    assert_eq!(rt; memory.page(Page(2)).len(), 512);
    Ok(())
}
