use cove_measure::{Registers, hmac384};
use sha2::{Digest, Sha384};
use std::test::Fail;

// The bytes that hex digits write.
fn bytes_of_hex(text: &str) -> [u8; 48] {
    let mut bytes = [0; 48];
    let _ = hex::decode_to_slice(text, &mut bytes);
    bytes
}

// The value of FIPS 180-4 for `abc`, and those of RFC 4231, test cases 1 to 4, 6 and 7, for HMAC-SHA-384.
#[test]
fn the_standards_values_come_out(rt: HostRuntime) -> Result<(), Fail> {
    let digest =
        "cb00753f45a35e8bb5a03d699ac65007272c32ab0eded1631a8b605a43ff5bed8086072ba1e7cc2358baeca134c825a7";
    assert_eq!(rt; Sha384::digest("abc"), bytes_of_hex(digest));
    let mut rising = [0; 25];
    for (i, byte) in rising.iter_mut().enumerate() {
        *byte = i as u8 + 1;
    }
    let mac =
        "afd03944d84895626b0825f4ab46907f15f9dadbe4101ec682aa034c7cebc59cfaea9ea9076ede7f4af152e8b2fa9cb6";
    assert_eq!(rt; hmac384(&[0x0b; 20], b"Hi There"), bytes_of_hex(mac));
    let mac =
        "af45d2e376484031617f78d2b58a6b1b9c7ef464f5a01b47e42ec3736322445e8e2240ca5e69e2c78b3239ecfab21649";
    assert_eq!(rt;
        hmac384(b"Jefe", b"what do ya want for nothing?"),
        bytes_of_hex(mac)
    );
    let mac =
        "88062608d3e6ad8a0aa2ace014c8a86f0aa635d947ac9febe83ef4e55966144b2a5ab39dc13814b94e3ab6e101a34f27";
    assert_eq!(rt; hmac384(&[0xaa; 20], &[0xdd; 50]), bytes_of_hex(mac));
    let mac =
        "3e8a69b7783c25851933ab6290af6ca77a9981480850009cc5577c6e1f573b4e6801dd23c4a7d679ccf8a386c674cffb";
    assert_eq!(rt; hmac384(&rising, &[0xcd; 50]), bytes_of_hex(mac));
    let mac =
        "4ece084485813e9088d2c63a041bc5b44f9ef1012a2b588f3cd11f05033ac4c60c2ef6ab4030fe8296248df163f44952";
    assert_eq!(rt;
        hmac384(
            &[0xaa; 131],
            b"Test Using Larger Than Block-Size Key - Hash Key First"
        ),
        bytes_of_hex(mac)
    );
    let mac =
        "6617178e941f020d351e2f254e8fd32c602420feb0b8fb9adccebb82461e99c5a678cc31e799176d3860e6110c46523e";
    assert_eq!(rt;
        hmac384(
            &[0xaa; 131],
            b"This is a test using a larger than block-size key and a larger than block-size data. The key needs to be hashed before being used by the HMAC algorithm."
        ),
        bytes_of_hex(mac)
    );
    Ok(())
}

// A key of 128 bytes is used as it is, and one of 129 by its digest; the values are OpenSSL's.
#[test]
fn a_key_longer_than_a_block_is_hashed(rt: HostRuntime) -> Result<(), Fail> {
    let mac =
        "b6b4e107425289d77b04f0857d531600348f725f48baeeb129718cc6b4e22012fb406ce85dc8c9f64765336e7d1b6afa";
    assert_eq!(rt; hmac384(&[0xaa; 128], b"abc"), bytes_of_hex(mac));
    let mac =
        "1cd03e84204a37f498f949a0a5a1d36015c6f6685734003ea238d98c223d566c3b849da8f82ff808afb310cdf8de8386";
    assert_eq!(rt; hmac384(&[0xaa; 129], b"abc"), bytes_of_hex(mac));
    Ok(())
}

// The board of 64 pages, 2 harts and a file each, and vCPU 1; the values are Python's.
#[test]
fn boards_and_vcpus_are_measured(rt: HostRuntime) -> Result<(), Fail> {
    let mut registers = Registers::new();
    registers.extend_board(0x0102_0040);
    let value =
        "ad0d9441d32c84b67c690841859706c730a62705c15846bf0af26a8b49070b01b525cb97066a3aca8cf6f4411d7e20f4";
    assert_eq!(rt; registers.get(0), bytes_of_hex(value));
    registers.extend_vcpu(1);
    let value =
        "5939bde611720f0d57234173f4cf907c8a85cc44ee9c783790e3357bbcf1d79c6e646b9e7818a393b74f8ecc2148bf66";
    assert_eq!(rt; registers.get(0), bytes_of_hex(value));
    assert_eq!(rt; registers.get(1), [0; 48]);
    Ok(())
}

// A page whose word i has eight times the low byte of i, a finish, and a value of a guest's; the values are Python's.
#[test]
fn registers_fold_what_extended_them(rt: HostRuntime) -> Result<(), Fail> {
    let mut page = [0; 512];
    for (i, word) in page.iter_mut().enumerate() {
        *word = i as u64 % 256 * 0x0101_0101_0101_0101;
    }
    let mut registers = Registers::new();
    registers.extend_page(0x10000, &page);
    let value =
        "5c78d0ad6e822f8474d1b8a94802a24fcb67c9b0829c853a1467d8501ec6b8b1edc71ea66fc5e5cb7287c4a7fb9fc98c";
    assert_eq!(rt; registers.get(0), bytes_of_hex(value));
    registers.finish(0x10000, 7);
    registers.extend_runtime(3, &[0x5a; 48]);
    let value =
        "6825c6507d069910ef99ce22c604f4a43e43599d91d5b2f41c799951e8cfeb88fc3667785b39436243ddac508884795f";
    assert_eq!(rt; registers.get(0), bytes_of_hex(value));
    let value =
        "a0cf46b98dc169c604e8cc9c6b72b012a6b96384a662f69e73f66850501434cdee0fc0478dc5e035d2b2cc77c0ea9a3a";
    assert_eq!(rt; registers.get(3), bytes_of_hex(value));
    assert_eq!(rt; registers.get(4), [0; 48]);
    Ok(())
}
