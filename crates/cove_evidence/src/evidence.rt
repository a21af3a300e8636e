ghost use Rattle.std.specs.Prelude.{◌≡◌, ◌≢◌, ◌<◌, ◌≤◌, ◌++◌, ◌↔◌, IsTrue, IfOk, IfSome, IsOkAnd, None, length, map, replicate, take};
ghost use Rattle.cove_base.specs.Evidence.{IsVersion, evidence, evidence_body, evidence_magic};
ghost use Rattle.cove_base.specs.Hmac.{hmac384};

use crate::pieces::{append, are_equal, array_at};
use cove_base::Quote;
use cove_measure::{Registers, hmac384};

/// The bytes of evidence.
const EVIDENCE_BYTES: usize = 360;

/// What was read of evidence. The version is 1 or 2: register 0 of version 2 also folds the board's record and those of
/// vCPUs.
#[derive(Clone, Copy)]
pub struct Evidence {
    pub version: u8,
    pub registers: Registers,
    pub nonce: [u8; 64],
    pub mac: [u8; 48],
}

/// Why bytes are no evidence.
#[derive(Clone, Copy)]
pub enum EvidenceFault {
    Short,
    Long,
    BadMagic,
}

/// The evidence of these registers for a nonce, under the board's key. It is of version 2.
pub fn make(registers: &Registers, nonce: &[u8; 64], key: &[u8]) -> Quote
    ensures bytes { result ≡ evidence 2 registers.now nonce.now key.now }
    ensures whole { length result ≡ 360 }
{
    sealed(2, registers, nonce, key)
}

/// The evidence of version 1 of these registers for a nonce, under the board's key.
pub fn make_v1(registers: &Registers, nonce: &[u8; 64], key: &[u8]) -> Quote
    ensures bytes { result ≡ evidence 1 registers.now nonce.now key.now }
    ensures whole { length result ≡ 360 }
{
    sealed(1, registers, nonce, key)
}

// The evidence of a version: its body, and the mac over it.
fn sealed(version: u8, registers: &Registers, nonce: &[u8; 64], key: &[u8]) -> Quote
    requires { IsVersion version }
    ensures bytes { result ≡ evidence version registers.now nonce.now key.now }
    ensures whole { length result ≡ 360 }
{
    let mut quote = body(version, registers, nonce);
    let mac = hmac384(key, quote.as_slice());
    append(&mut quote, &mac);
    quote
}

/// Reads evidence, or says which fault is the first that bytes have. Whether the mac is right is for [`check`] to say.
pub fn read(bytes: &[u8]) -> Result<Evidence, EvidenceFault>
    ensures ok { IfOk result (λ e. bytes.now ≡ evidence_body e.version e.registers e.nonce ++ e.mac) }
    ensures version { IfOk result (λ e. IsVersion e.version) }

    ensures short { (result ≡ Err EvidenceFault.Short) ↔ (length bytes.now < 360) }
    ensures long { (result ≡ Err EvidenceFault.Long) ↔ (360 < length bytes.now) }
    ensures bad_magic { (result ≡ Err EvidenceFault.BadMagic)
        ↔ ((length bytes.now ≡ 360) × (take 8 bytes.now ≢ evidence_magic 1) × (take 8 bytes.now ≢ evidence_magic 2)) }
{
    if bytes.len() < EVIDENCE_BYTES {
        return Err(EvidenceFault::Short);
    }
    if bytes.len() > EVIDENCE_BYTES {
        return Err(EvidenceFault::Long);
    }
    match version_of(bytes) {
        Some(version) => Ok(parts(version, bytes)),
        None => Err(EvidenceFault::BadMagic),
    }
}

// The first 8 bytes of evidence of a version.
fn magic(version: u8) -> [u8; 8]
    requires { IsVersion version }
    ensures { result ≡ evidence_magic version }
{
    [b'C', b'o', b'V', b'E', b'e', b'v', b'd', b'0' + version]
}

// The version with whose magic bytes begin, if there is one.
fn version_of(bytes: &[u8]) -> Option<u8>
    requires { 8 ≤ length bytes.now }
    ensures some { IfSome result (λ version. take 8 bytes.now ≡ evidence_magic version) }
    ensures version { IfSome result (λ version. IsVersion version) }
    ensures none { (result ≡ None) ↔ ((take 8 bytes.now ≢ evidence_magic 1) × (take 8 bytes.now ≢ evidence_magic 2)) }
{
    if bytes[..8] == magic(1)[..] {
        return Some(1);
    }
    if bytes[..8] == magic(2)[..] {
        return Some(2);
    }
    None
}

// What evidence of the right length and of a version has.
fn parts(version: u8, bytes: &[u8]) -> Evidence
    requires whole { length bytes.now ≡ 360 }
    requires magic { take 8 bytes.now ≡ evidence_magic version }
    ensures version { result.version ≡ version }
    ensures parts { bytes.now ≡ evidence_body version result.registers result.nonce ++ result.mac }
{
    let values = [
        array_at(bytes, 8),
        array_at(bytes, 56),
        array_at(bytes, 104),
        array_at(bytes, 152),
        array_at(bytes, 200),
    ];
    Evidence {
        version,
        registers: Registers::of_values(values),
        nonce: array_at(bytes, 248),
        mac: array_at(bytes, 312),
    }
}

/// Whether the mac of evidence is right for its version under a key. It takes the same steps whichever bytes of the mac are wrong.
pub fn check(e: &Evidence, key: &[u8]) -> bool
    requires { IsVersion e.now.version }
    ensures { IsTrue result ↔ (e.now.mac ≡ hmac384 key.now (evidence_body e.now.version e.now.registers e.now.nonce)) }
{
    let message = body(e.version, &e.registers, &e.nonce);
    are_equal(&e.mac, &hmac384(key, message.as_slice()))
}

// What the mac is over.
fn body(version: u8, registers: &Registers, nonce: &[u8; 64]) -> Quote
    requires { IsVersion version }
    ensures bytes { result ≡ evidence_body version registers.now nonce.now }
    ensures room { length result ≡ 312 }
{
    let mut quote = Quote::new();
    let magic = magic(version);
    append(&mut quote, &magic);
    append(&mut quote, registers.values().as_flattened());
    append(&mut quote, nonce);
    quote
}

/// What [`make`] gave is read as version 2 of the same registers and nonce.
pub fn evidence_is_read_back(
    registers: &Registers,
    nonce: &[u8; 64],
    key: &[u8],
) -> Result<Evidence, EvidenceFault>
    ensures { IsOkAnd result (λ e. (e.version ≡ 2) × (e.registers ≡ registers.now) × (e.nonce ≡ nonce.now)) }
{
    read_back(2, registers, nonce, key)
}

/// What [`make_v1`] gave is read as version 1 of the same registers and nonce.
pub fn evidence_v1_is_read_back(
    registers: &Registers,
    nonce: &[u8; 64],
    key: &[u8],
) -> Result<Evidence, EvidenceFault>
    ensures { IsOkAnd result (λ e. (e.version ≡ 1) × (e.registers ≡ registers.now) × (e.nonce ≡ nonce.now)) }
{
    read_back(1, registers, nonce, key)
}

// Evidence of a version, made and read.
fn read_back(
    version: u8,
    registers: &Registers,
    nonce: &[u8; 64],
    key: &[u8],
) -> Result<Evidence, EvidenceFault>
    requires { IsVersion version }
    ensures { IsOkAnd result (λ e. (e.version ≡ version) × (e.registers ≡ registers.now) × (e.nonce ≡ nonce.now)) }
{
    let quote = sealed(version, registers, nonce, key);
    let found = read(quote.as_slice());
    if let Ok(e) = &found {
        have_register_lengths(&registers.values());
        have_register_lengths(&e.registers.values());
        has_nonce_length(&e.nonce);
    }
    found
}

// Each of five registers has 48 bytes.
fn have_register_lengths(values: &[[u8; 48]; 5])
    ensures { map length values.now ≡ replicate 5 48 }
{
    has_register_length(&values[0]);
    has_register_length(&values[1]);
    has_register_length(&values[2]);
    has_register_length(&values[3]);
    has_register_length(&values[4]);
}

// A register has 48 bytes.
fn has_register_length(value: &[u8; 48])
    ensures { length value.now ≡ 48 }
{}

// A nonce has 64 bytes.
fn has_nonce_length(nonce: &[u8; 64])
    ensures { length nonce.now ≡ 64 }
{}
