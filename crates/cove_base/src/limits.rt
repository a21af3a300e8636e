ghost use Rattle.std.specs.Prelude.{◌≡◌};

/// Pages of a board, at most; each board has one at least.
pub const PAGE_LIMIT: u32 = 4096;

/// Harts of a board, at most; each board has one at least.
pub const HART_LIMIT: u8 = 8;

/// Interrupt files of a hart, at most; they are numbered from 1.
pub const FILE_LIMIT: u8 = 7;

/// TVMs that a monitor creates in its life, at most; they are numbered from 1.
pub const TVM_LIMIT: u32 = 64;

/// vCPUs of a TVM, at most; they are numbered from 0.
pub const VCPU_LIMIT: u64 = 4;

/// Regions of a TVM, at most.
pub const REGION_LIMIT: usize = 8;

/// Maximal rows of shared guest pages of a TVM, at most.
pub const SHARED_RUN_LIMIT: usize = 16;

/// Pages that one call names, at most; it names one at least.
pub const RANGE_LIMIT: u64 = 16;

/// Instructions of one run, at most; a run has one at least.
pub const FUEL_LIMIT: u64 = 4096;

/// Entries of a history, at most.
pub const ENTRY_LIMIT: u32 = 200_000;

/// Bytes of a script's text, at most.
pub const SCRIPT_LIMIT: usize = 1_048_576;

/// Bytes of a board's key, at most; a key has one at least.
pub const KEY_LIMIT: usize = 128;

/// Bytes of a quote, at most.
pub const QUOTE_LIMIT: usize = 512;

/// Every phase of a script's line is below this number.
pub const PHASE_LIMIT: u32 = 1_048_576;

/// The law of the limits, which runs no code: the number that each of them is.
pub fn limits_law()
    ensures boards { (PAGE_LIMIT ≡ 4096) × (HART_LIMIT ≡ 8) × (FILE_LIMIT ≡ 7) }
    ensures tvms { (TVM_LIMIT ≡ 64) × (VCPU_LIMIT ≡ 4) }
    ensures guests { (REGION_LIMIT ≡ 8) × (SHARED_RUN_LIMIT ≡ 16) }
    ensures calls { (RANGE_LIMIT ≡ 16) × (FUEL_LIMIT ≡ 4096) }
    ensures bytes { (SCRIPT_LIMIT ≡ 1048576) × (KEY_LIMIT ≡ 128) × (QUOTE_LIMIT ≡ 512) }
    ensures phases { PHASE_LIMIT ≡ 1048576 }
    ensures entries { ENTRY_LIMIT ≡ 200000 }
{}
