ghost use Rattle.std.specs.Prelude.{◌≡◌, ◌≤◌, ◌<◌, ◌++◌, [], ◌∷◌, List, ℕ, length, slice_get};
ghost use Rattle.cove_base.specs.Measurement.{BoardRecord, Extension, PageRecord, FinalizeRecord, Record, VcpuRecord, bytes_of_words, extended, extended_at, record_bytes, registers_of};
ghost use Rattle.sha2.specs.Sha512.{sha384};

use byteorder::{ByteOrder, LittleEndian};
use sha2::{Digest, Sha384};
use std::marker::Model;

/// How many words a page has.
const PAGE_WORDS: usize = 512;

/// The five registers of a TVM. The code has their values, and not what extended them.
#[derive(Clone, Copy)]
pub struct Registers {
    values: [[u8; 48]; 5],
}

impl Model for Registers {
    ghost use Rattle.std.specs.Prelude.{List, ℕ};

    ghost Value = { List (List ℕ) };

    ghost view = { λ a. a.values };

    ghost inverse = { λ values. record { values = values } };
}

impl Registers {
    /// Registers that nothing extended yet.
    pub fn new() -> Self
        ensures { result ≡ registers_of [] [] }
    {
        Registers {
            values: [[0; 48]; 5],
        }
    }

    /// Registers with these values, in order.
    pub fn of_values(values: [[u8; 48]; 5]) -> Self
        ensures { result ≡ values }
    {
        Registers { values }
    }

    /// The values of the registers, in order.
    pub fn values(&self) -> [[u8; 48]; 5]
        ensures { result ≡ self.now }
    {
        self.values
    }

    /// The value of a register.
    pub fn get(&self, i: u8) -> [u8; 48]
        requires { i ≤ 4 }
        ensures { slice_get self.now i ≡ Some result }
    {
        self.values[usize::from(i)]
    }

    /// Extends register 0 by the board that the TVM is created on, by its number in the record of a board.
    pub fn extend_board(&mut self, board: u64)
        ensures value { self.new ≡ extended_at self.old 0 (record_bytes (BoardRecord board)) }
        ensures measured { (records : List Record) (extensions : List Extension) → self.old ≡ registers_of records extensions
            → self.new ≡ registers_of (records ++ BoardRecord board ∷ []) extensions }
    {
        self.values[0] = extended(&self.values[0], &board_record(board));
    }

    /// Extends register 0 by a vCPU, by its number.
    pub fn extend_vcpu(&mut self, v: u8)
        ensures value { self.new ≡ extended_at self.old 0 (record_bytes (VcpuRecord v)) }
        ensures measured { (records : List Record) (extensions : List Extension) → self.old ≡ registers_of records extensions
            → self.new ≡ registers_of (records ++ VcpuRecord v ∷ []) extensions }
    {
        self.values[0] = extended(&self.values[0], &vcpu_record(v));
    }

    /// Extends register 0 by a page at its guest address.
    pub fn extend_page(&mut self, gpa: u64, page: &[u64])
        requires { length page.now ≡ 512 }
        ensures value { self.new ≡ extended_at self.old 0 (record_bytes (PageRecord gpa page.now)) }
        ensures measured { (records : List Record) (extensions : List Extension) → self.old ≡ registers_of records extensions
            → self.new ≡ registers_of (records ++ PageRecord gpa page.now ∷ []) extensions }
    {
        self.values[0] = extended(&self.values[0], &page_record(gpa, page));
    }

    /// Extends register 0 by what the TVM is finalized with.
    pub fn finish(&mut self, pc: u64, arg: u64)
        ensures value { self.new ≡ extended_at self.old 0 (record_bytes (FinalizeRecord pc arg)) }
        ensures measured { (records : List Record) (extensions : List Extension) → self.old ≡ registers_of records extensions
            → self.new ≡ registers_of (records ++ FinalizeRecord pc arg ∷ []) extensions }
    {
        self.values[0] = extended(&self.values[0], &finalize_record(pc, arg));
    }

    /// Extends one of the registers 1 to 4 by a value of the guest's.
    pub fn extend_runtime(&mut self, i: u8, value: &[u8; 48])
        requires above { 1 ≤ i }
        requires within { i ≤ 4 }
        ensures value { self.new ≡ extended_at self.old i value.now }
        ensures measured { (records : List Record) (extensions : List Extension) → self.old ≡ registers_of records extensions
            → self.new ≡ registers_of records (extensions ++ record { register = i; value = value.now } ∷ []) }
    {
        let place = usize::from(i);
        self.values[place] = extended(&self.values[place], value);
    }
}

// A register after a value extended it.
fn extended(register: &[u8; 48], value: &[u8]) -> [u8; 48]
    ensures { result ≡ extended register.now value.now }
{
    let mut hasher = Sha384::new();
    hasher.update(register.as_slice());
    hasher.update(value);
    hasher.finalize()
}

// The record of a board: its kind and its number.
fn board_record(board: u64) -> [u8; 9]
    ensures { result ≡ record_bytes (BoardRecord board) }
{
    let mut record = [4; 9];
    record[1..].copy_from_slice(&board.to_le_bytes());
    record
}

// The record of a vCPU: its kind and its number.
fn vcpu_record(v: u8) -> [u8; 9]
    ensures { result ≡ record_bytes (VcpuRecord v) }
{
    let mut record = [3; 9];
    record[1..].copy_from_slice(&u64::from(v).to_le_bytes());
    record
}

// The record of a page: its kind, its address and the digest of its bytes.
fn page_record(gpa: u64, page: &[u64]) -> [u8; 57]
    requires { length page.now ≡ 512 }
    ensures { result ≡ record_bytes (PageRecord gpa page.now) }
{
    let mut record = [1; 57];
    record[1..9].copy_from_slice(&gpa.to_le_bytes());
    record[9..].copy_from_slice(&page_digest(page));
    record
}

// The record of a finalized TVM: its kind, and what it was finalized with.
fn finalize_record(pc: u64, arg: u64) -> [u8; 17]
    ensures { result ≡ record_bytes (FinalizeRecord pc arg) }
{
    let mut record = [2; 17];
    record[1..9].copy_from_slice(&pc.to_le_bytes());
    record[9..].copy_from_slice(&arg.to_le_bytes());
    record
}

// The digest of the bytes of a page.
fn page_digest(page: &[u64]) -> [u8; 48]
    requires { length page.now ≡ 512 }
    ensures { result ≡ sha384 (bytes_of_words page.now) }
{
    let mut bytes = [0; 8 * PAGE_WORDS];
    LittleEndian::write_u64_into(page, &mut bytes);
    Sha384::digest(bytes.as_slice())
}
