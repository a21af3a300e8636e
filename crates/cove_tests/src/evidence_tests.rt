use cove_evidence::{EvidenceFault, check, make, make_v1, read};
use cove_measure::Registers;
use std::test::Fail;

// Register i has the bytes 16 i to 16 i + 15 three times, and the nonce the bytes 0 to 63.
fn known_registers() -> Registers {
    let mut values = [[0; 48]; 5];
    for (i, value) in values.iter_mut().enumerate() {
        for (j, byte) in value.iter_mut().enumerate() {
            *byte = (16 * i + j % 16) as u8;
        }
    }
    Registers::of_values(values)
}

fn known_nonce() -> [u8; 64] {
    let mut nonce = [0; 64];
    for (i, byte) in nonce.iter_mut().enumerate() {
        *byte = i as u8;
    }
    nonce
}

// Whether evidence begins with a version's magic, and has the known registers and the known nonce at their places.
fn has_its_parts(bytes: &[u8], magic: &[u8]) -> bool {
    let parts = [
        (8, 0x00),
        (56, 0x10),
        (200, 0x40),
        (247, 0x4f),
        (248, 0),
        (311, 63),
    ];
    bytes.len() == 360
        && bytes.starts_with(magic)
        && parts
            .iter()
            .all(|(place, byte)| bytes.get(*place) == Some(byte))
}

// Each part stands at its place in both versions, and the macs are Python's, under a key of 48 zero bytes.
#[test]
fn evidence_has_its_parts_in_place(rt: HostRuntime) -> Result<(), Fail> {
    let newer = make(&known_registers(), &known_nonce(), &[0; 48]);
    let older = make_v1(&known_registers(), &known_nonce(), &[0; 48]);
    assert!(rt; has_its_parts(newer.as_slice(), b"CoVEevd2"));
    assert!(rt; has_its_parts(older.as_slice(), b"CoVEevd1"));
    let mut mac = [0; 48];
    let text =
        "68efa0cabfe32ebd11b974ee8fd6665bafb20f1f3e7f7bf258e5e5392726f03d8d0f412caaafbdbb0361289f82bd9b7c";
    assert!(rt; hex::decode_to_slice(text, &mut mac).is_ok());
    assert!(rt; newer.as_slice().ends_with(&mac));
    let text =
        "882fdf0591447798b70da99d5ecce9fc86a4b1cc7fb63747573e57122df7ece24e64cc0c9d1ff593db9637345f8e6261";
    assert!(rt; hex::decode_to_slice(text, &mut mac).is_ok());
    assert!(rt; older.as_slice().ends_with(&mac));
    Ok(())
}

// A mac is right under its key and for its version alone, and wrong where its first or its last byte differs.
#[test]
fn only_the_right_mac_is_right(rt: HostRuntime) -> Result<(), Fail> {
    let quote = make(&known_registers(), &known_nonce(), b"key");
    let found = read(quote.as_slice());
    assert!(rt; found.is_ok());
    if let Ok(e) = found {
        assert!(rt; check(&e, b"key"));
        assert!(rt; !check(&e, b"kez"));
        let mut older = e;
        older.version = 1;
        assert!(rt; !check(&older, b"key"));
        for place in [0, 47] {
            let mut wrong = e;
            wrong.mac[place] ^= 1;
            assert!(rt; !check(&wrong, b"key"));
        }
    }
    Ok(())
}

// 359 bytes are short and 361 long, whatever they begin with, and the magic decides between.
#[test]
fn faults_come_in_their_order(rt: HostRuntime) -> Result<(), Fail> {
    assert!(rt; matches!(read(&[0; 359]), Err(EvidenceFault::Short)));
    assert!(rt; matches!(read(&[0; 361]), Err(EvidenceFault::Long)));
    assert!(rt; matches!(read(&[0; 360]), Err(EvidenceFault::BadMagic)));
    let mut bytes = [0; 360];
    for (place, byte) in b"CoVEevd1".iter().enumerate() {
        bytes[place] = *byte;
    }
    assert!(rt; read(&bytes).is_ok_and(|e| e.version == 1));
    bytes[7] = b'2';
    assert!(rt; read(&bytes).is_ok_and(|e| e.version == 2));
    bytes[7] = b'3';
    assert!(rt; matches!(read(&bytes), Err(EvidenceFault::BadMagic)));
    Ok(())
}
