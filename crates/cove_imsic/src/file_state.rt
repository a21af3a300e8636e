ghost use Rattle.std.specs.Prelude.{◌≡◌, ◌<◌, ◌≤◌, ◌==◌, ◌||◌, ℕ, nat_lt};
ghost use Rattle.std.specs.Int.{bit_at};
ghost use Rattle.cove_base.specs.InterruptFiles.{after_csr, claimed, csr_read, csr_written, empty_file, new_value, raised, top, topei};

use cove_base::CsrMode;
use std::marker::Model;

/// The CSR number of siselect.
const SELECT: u16 = 0x150;

/// The CSR number of sireg.
const INDIRECT: u16 = 0x151;

/// The CSR number of stopei.
const TOP: u16 = 0x15c;

/// The select value of eidelivery.
const DELIVERY: u64 = 0x70;

/// The select value of eithreshold.
const THRESHOLD: u64 = 0x72;

/// The select value of eip0.
const PENDING: u64 = 0x80;

/// The select value of eie0.
const ENABLED: u64 = 0xc0;

/// One interrupt file. An identity is pending or enabled where its bit is set; bit 0 is none, and never set.
#[derive(Drop)]
pub struct FileState {
    pub pending: u64,
    pub enabled: u64,
    pub threshold: u8,
    pub delivery: bool,
    pub select: u64,
}

impl Model for FileState {
    ghost use Rattle.cove_base.specs.InterruptFiles.{InterruptFile, set_of_mask};
    ghost use Rattle.cove_imsic.specs.Masks.{AreFields};

    ghost Value = { InterruptFile };

    ghost view = { λ a. record {
      pending = set_of_mask a.pending;
      enabled = set_of_mask a.enabled;
      threshold = a.threshold;
      delivery = a.delivery;
      select = a.select;
    } };

    ghost invariant = { λ a. AreFields a.pending a.enabled a.threshold };
}

impl FileState {
    /// A file in which nothing is pending or enabled.
    pub fn new() -> Self
        ensures { result ≡ empty_file }
    {
        FileState {
            pending: 0,
            enabled: 0,
            threshold: 0,
            delivery: false,
            select: 0,
        }
    }

    /// Makes an identity pending.
    pub fn raise(&mut self, id: u8)
        requires above { 1 ≤ id }
        requires within { id ≤ 63 }
        ensures { self.new ≡ raised self.old id }
    {
        self.pending |= 1 << id;
    }

    /// The least identity that is pending, enabled and not hidden by the threshold, and 0 where there is none.
    pub fn top(&self) -> u8
        ensures identity { result ≡ top self.now }
        ensures below { result < 64 }
    {
        let signalled = self.pending & self.enabled & shown_by(self.threshold);
        if signalled == 0 {
            0
        } else {
            signalled.trailing_zeros() as u8
        }
    }

    /// What stopei reads.
    pub fn topei(&self) -> u64
        ensures { result ≡ topei self.now }
    {
        let top = u64::from(self.top());
        65536 * top + top
    }

    /// Reads a register, and writes it where the instruction writes; None, and nothing changes, where there is no such
    /// register.
    pub fn csr(&mut self, csr: u16, mode: CsrMode, source: u64, writes: bool) -> Option<u64>
        ensures value { result ≡ csr_read self.old csr }
        ensures file { self.new ≡ after_csr self.old csr mode source writes }
    {
        let old = self.read(csr)?;
        if writes {
            self.write(csr, new_value(mode, old, source));
        }
        Some(old)
    }

    /// A copy.
    pub fn copy(&self) -> Self
        ensures { result ≡ self.now }
    {
        FileState {
            pending: self.pending,
            enabled: self.enabled,
            threshold: self.threshold,
            delivery: self.delivery,
            select: self.select,
        }
    }

    // What is read of a register.
    fn read(&self, csr: u16) -> Option<u64>
        ensures { result ≡ csr_read self.now csr }
    {
        match csr {
            SELECT => Some(self.select),
            INDIRECT => match self.select {
                DELIVERY => Some(u64::from(self.delivery)),
                THRESHOLD => Some(u64::from(self.threshold)),
                PENDING => Some(self.pending),
                ENABLED => Some(self.enabled),
                _ => None,
            },
            TOP => Some(self.topei()),
            _ => None,
        }
    }

    // Writes a register, where there is one.
    fn write(&mut self, csr: u16, value: u64)
        ensures { self.new ≡ csr_written self.old csr value }
    {
        match csr {
            SELECT => self.select = value,
            INDIRECT => match self.select {
                DELIVERY => self.delivery = value & 1 == 1,
                THRESHOLD => self.threshold = (value % 64) as u8,
                PENDING => self.pending = value & !1,
                ENABLED => self.enabled = value & !1,
                _ => {}
            },
            TOP => self.claim(),
            _ => {}
        }
    }

    // Clears the pending bit of the top identity.
    fn claim(&mut self)
        ensures { self.new ≡ claimed self.old }
    {
        let top = self.top();
        if top > 0 {
            self.pending &= !(1 << top);
        }
    }
}

// The bits of the identities that a threshold does not hide.
fn shown_by(threshold: u8) -> u64
    requires { threshold < 64 }
    ensures { (id : ℕ) → id < 64 → (bit_at result id == 1) ≡ ((threshold == 0) || nat_lt id threshold) }
{
    if threshold == 0 {
        u64::MAX
    } else {
        (1 << threshold) - 1
    }
}

// What an instruction writes.
fn new_value(mode: CsrMode, old: u64, source: u64) -> u64
    ensures { result ≡ new_value mode old source }
{
    match mode {
        CsrMode::Write => source,
        CsrMode::Set => old | source,
        CsrMode::Clear => old & !source,
    }
}
