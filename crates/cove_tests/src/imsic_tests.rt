use cove_base::{CsrMode, HartId};
use cove_imsic::{FileState, Files};
use std::test::Fail;

// With 5 and 9 enabled and raised and threshold 6, 5 is the top; a write of stopei clears it, whatever is written.
#[test]
fn a_claim_clears_the_top_identity(rt: HostRuntime) -> Result<(), Fail> {
    let mut file = FileState::new();
    let writes = [
        (0x150, 0x70),
        (0x151, 1),
        (0x150, 0xc0),
        (0x151, 1 << 5 | 1 << 9),
        (0x150, 0x72),
        (0x151, 6),
    ];
    for (csr, value) in writes {
        assert!(rt; file.csr(csr, CsrMode::Write, value, true).is_some());
    }
    file.raise(5);
    file.raise(9);
    assert_eq!(rt; file.topei(), 0x50005);
    assert_eq!(rt;
        file.csr(0x15c, CsrMode::Write, u64::MAX, true),
        Some(0x50005)
    );
    assert_eq!(rt; file.topei(), 0);
    assert_eq!(rt; file.csr(0x151, CsrMode::Write, 0, true), Some(6));
    assert_eq!(rt; file.topei(), 0x90009);
    Ok(())
}

// Each mode gives the old value, bit 0 stays 0, and a register that is none changes nothing.
#[test]
fn registers_read_back_what_they_keep(rt: HostRuntime) -> Result<(), Fail> {
    let mut file = FileState::new();
    assert_eq!(rt; file.csr(0x151, CsrMode::Write, 1, true), None);
    assert_eq!(rt; file.csr(0x150, CsrMode::Write, 0x80, true), Some(0));
    assert_eq!(rt; file.csr(0x151, CsrMode::Write, u64::MAX, true), Some(0));
    assert_eq!(rt;
        file.csr(0x151, CsrMode::Clear, 2, true),
        Some(u64::MAX - 1)
    );
    assert_eq!(rt; file.csr(0x151, CsrMode::Set, 3, false), Some(u64::MAX - 3));
    assert_eq!(rt; file.csr(0x151, CsrMode::Set, 3, true), Some(u64::MAX - 3));
    assert_eq!(rt; file.csr(0x151, CsrMode::Set, 0, false), Some(u64::MAX - 1));
    assert_eq!(rt; file.csr(0x152, CsrMode::Write, 7, true), None);
    assert_eq!(rt; file.pending, u64::MAX - 1);
    Ok(())
}

// A file is written at its place alone.
#[test]
fn each_hart_has_files_of_its_own(rt: HostRuntime) -> Result<(), Fail> {
    let mut files = Files::new(rt.alloc(), 2, 3)?;
    let mut file = FileState::new();
    file.raise(7);
    files.put(HartId(1), 1, file);
    assert_eq!(rt; files.get(HartId(1), 1).pending, 1 << 7);
    assert_eq!(rt; files.get(HartId(0), 3).pending, 0);
    assert_eq!(rt; files.get(HartId(1), 2).pending, 0);
    Ok(())
}
