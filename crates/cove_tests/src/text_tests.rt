use cove_text::{
    HexError, LineBuf, call_of, is_call_word, put_call, put_decimal, put_hex, read_hex,
    read_number, split_lines, split_words,
};
use std::test::Fail;

#[test]
fn hex_is_read(rt: HostRuntime) -> Result<(), Fail> {
    let bytes = read_hex(rt.alloc(), b"6F0000ff")?;
    assert_eq!(rt; bytes.as_slice(), [0x6f, 0, 0, 0xff].as_slice());
    assert_eq!(rt; read_hex(rt.alloc(), b"6f0").err(), Some(HexError::Odd));
    assert_eq!(rt; read_hex(rt.alloc(), b"6g").err(), Some(HexError::BadDigit));
    Ok(())
}

#[test]
fn words_of_lines(rt: HostRuntime) {
    let mut seen = [(0, 0); 4];
    let mut count = 0;
    for (number, line) in split_lines(b"board 1 1\t0\r\n\nend") {
        for word in split_words(line) {
            if count < 4 {
                seen[count] = (number, word.len());
            }
            count = count.wrapping_add(1);
        }
    }
    assert_eq!(rt; count, 5);
    assert_eq!(rt; seen, [(1, 5), (1, 1), (1, 1), (1, 1)]);
}

#[test]
fn calls_both_ways(rt: HostRuntime) -> Result<(), Fail> {
    let call = call_of(b"measured", &[1, 0x1000, 0xb000, 1, 0x10000]).ok_or("no call")?;
    let mut out = LineBuf::new();
    put_decimal(&mut out, -8);
    out.push(b' ');
    put_call(&mut out, &call);
    assert_eq!(rt;
        out.as_slice(),
        b"-8 measured 0x1 0x1000 0xb000 0x1 0x10000".as_slice()
    );
    out.clear();
    put_hex(&mut out, &[0, 0x6f, 255]);
    assert_eq!(rt; out.as_slice(), b"006fff".as_slice());
    assert_eq!(rt; read_number(b"0xFfFfFfFfFfFfFfFf"), Some(u64::MAX));
    assert_eq!(rt; read_number(b"18446744073709551616"), None);
    assert!(rt; is_call_word(b"inject") && !is_call_word(b"ld"));
    Ok(())
}
