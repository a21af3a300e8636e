use cove_base::{Page, PageRange, Plain, Role, TvmId};
use cove_owner::{PageState, all_free, all_host, any_mapped, set_all, set_state, state};
use std::test::Fail;

#[test]
fn pages_of_zeros_are_the_hosts(rt: HostRuntime) -> Result<(), Fail> {
    let mut words = Plain::new(rt.alloc(), 4)?;
    let range = PageRange {
        first: Page(1),
        count: 3,
    };
    assert!(rt; matches!(state(&mut words, Page(2)), PageState::Host { maps: 0 }));
    assert!(rt; all_host(&mut words, range));
    assert!(rt; !any_mapped(&mut words, range));
    assert!(rt; !all_free(&mut words, range, 9));
    Ok(())
}

#[test]
fn states_are_stored_as_page_words(rt: HostRuntime) -> Result<(), Fail> {
    let mut words = Plain::new(rt.alloc(), 6)?;
    set_state(&mut words, Page(0), PageState::Host { maps: 2 });
    let given = PageState::Given {
        tvm: TvmId(3),
        role: Role::Vcpu,
    };
    set_state(&mut words, Page(1), given);
    let range = PageRange {
        first: Page(3),
        count: 2,
    };
    set_all(&mut words, range, PageState::Converting { since: 5 });
    set_state(&mut words, Page(5), PageState::Released);
    assert_eq!(rt; words.as_slice(), [16, 218, 0, 41, 41, 3].as_slice());
    Ok(())
}
