ghost use Rattle.std.specs.Prelude.{◌≡◌, ◌≤◌, length, map, bit_xor};
ghost use Rattle.cove_base.specs.Hmac.{filled_block, hmac384, key_block, padded_digest};

use sha2::{Digest, Sha384};

/// The bytes of a block of SHA-384.
const BLOCK: usize = 128;

/// The HMAC of a message under a key of any length, over SHA-384.
pub fn hmac384(key: &[u8], message: &[u8]) -> [u8; 48]
    ensures { result ≡ hmac384 key.now message.now }
{
    let block = key_block(key);
    let inner = padded_digest(&block, 0x36, message);
    padded_digest(&block, 0x5c, &inner)
}

// The key as one block.
fn key_block(key: &[u8]) -> [u8; BLOCK]
    ensures { result ≡ key_block key.now }
{
    if key.len() > BLOCK {
        filled_block(&Sha384::digest(key))
    } else {
        filled_block(key)
    }
}

// A block that begins with these bytes, and has zeros after them.
fn filled_block(bytes: &[u8]) -> [u8; BLOCK]
    requires { length bytes.now ≤ 128 }
    ensures { result ≡ filled_block bytes.now }
{
    let mut block = [0; BLOCK];
    block[..bytes.len()].copy_from_slice(bytes);
    block
}

// The digest of the block, each byte with the pad xored in, and the message after it.
fn padded_digest(block: &[u8; BLOCK], pad: u8, message: &[u8]) -> [u8; 48]
    ensures { result ≡ padded_digest block.now pad message.now }
{
    let mut hasher = Sha384::new();
    hasher.update(xored(block, pad));
    hasher.update(message);
    hasher.finalize()
}

// The block with the pad xored into each byte.
fn xored(block: &[u8; BLOCK], pad: u8) -> [u8; BLOCK]
    ensures { result ≡ map (λ byte. bit_xor byte pad) block.now }
{
    let mut out = [0; BLOCK];
    for (i, byte) in block.iter().enumerate() {
        out[i] = byte ^ pad;
    }
    out
}
