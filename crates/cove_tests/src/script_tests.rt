use cove_script::{parse, parse_front, print};
use std::test::Fail;

// A text that is read, and its canonical text.
static READ: [(&str, &str); 3] = [
    (
        "board 1 1 0\nend",
        "board 1 1 0\nkey 000000000000000000000000000000000000000000000000000000000000000000000000000000000000000000000000\nend\n",
    ),
    (
        "board 4 2 1\nfill 007 AbCd\nkey FF\nfill 0x3fff 00\nphase\nturns 1\n0x1\tgfence\r\nphase\nphase\n0 sd 0x3FF8 18446744073709551615\nturns 0 01\nphase\nend\n# more",
        "board 4 2 1\nkey ff\nfill 0x7 abcd\nfill 0x3fff 00\nphase\n1 gfence\nphase\nphase\n0 sd 0x3ff8 0xffffffffffffffff\nturns 1 0 1\nend\n",
    ),
    (
        "board 4096 8 7\nkey 00\n0 inject 1 2 0xffffffffffffffff\n7 ld 16777208\nend\n",
        "board 4096 8 7\nkey 00\n0 inject 0x1 0x2 0xffffffffffffffff\n7 ld 0xfffff8\nend\n",
    ),
];

#[test]
fn texts_are_read_and_printed(rt: HostRuntime) -> Result<(), Fail> {
    for (text, canonical) in &READ {
        let script = parse(rt.alloc(), text.as_bytes()).ok().ok_or("a script")?;
        let printed = print(rt.alloc(), &script).ok().ok_or("memory")?;
        assert_eq!(rt; printed.as_slice(), canonical.as_bytes(), "{text}");
        assert!(rt; parse(rt.alloc(), canonical.as_bytes()).is_ok(), "{text}");
    }
    Ok(())
}

#[test]
fn each_byte_in_a_remark(rt: HostRuntime) {
    for byte in 0..=255u8 {
        let mut text = *b"board 1 1 0\nend\n# \n";
        text[17] = byte;
        let is_text = matches!(byte, b'\t' | b'\n' | b'\r' | b' '..=b'~');
        assert_eq!(rt; parse(rt.alloc(), &text).is_ok(), is_text, "{byte}");
    }
}

#[test]
fn texts_at_the_limit(rt: HostRuntime) -> Result<(), Fail> {
    let mut text = Vec::from_slice(rt.alloc(), b"board 1 1 0\nend\n".as_slice())?;
    for _ in 16..1_048_576u32 {
        text.push(b'\n').ok().ok_or("memory")?;
    }
    assert!(rt; parse(rt.alloc(), &text).is_ok());
    text.push(b'\n').ok().ok_or("memory")?;
    assert!(rt; parse(rt.alloc(), &text).is_err());
    Ok(())
}

#[test]
fn a_script_in_front(rt: HostRuntime) -> Result<(), Fail> {
    let front = parse_front(rt.alloc(), b"board 1 1 0\n0 gfence\n end\r\nend\n\xc8")
        .ok()
        .ok_or("a script")?;
    assert_eq!(rt; front.rest, 27);
    assert_eq!(rt; front.script.lines.len(), 1);
    Ok(())
}
