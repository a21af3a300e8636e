ghost use Rattle.std.specs.Prelude.{◌≡◌};
ghost use Rattle.std.specs.Option.{option_copied};
ghost use Rattle.cove_tvm.specs.Lives.{is_gone, is_runnable};
ghost use Rattle.cove_tvm.specs.Slots.{slot_at};

use crate::vcpus::VcpuSlot;
use cove_base::Page;
use cove_measure::Registers;
use cove_region::Regions;
use cove_stage2::{Pool, Tables};

/// Where a TVM is in its life.
#[derive(Clone, Copy)]
pub enum Life {
    /// It is built and measured.
    Building,
    /// It is finalized, and its vCPUs may run.
    Runnable,
    /// It was destroyed.
    Gone,
}

impl Life {
    /// Whether the TVM was destroyed.
    pub fn is_gone(self) -> bool
        ensures { result ≡ is_gone self }
    {
        match self {
            Life::Building | Life::Runnable => false,
            Life::Gone => true,
        }
    }

    /// Whether the TVM is finalized.
    pub fn is_runnable(self) -> bool
        ensures { result ≡ is_runnable self }
    {
        match self {
            Life::Building | Life::Gone => false,
            Life::Runnable => true,
        }
    }
}

/// A TVM. `allowed` has a bit for each interrupt that its guest lets the host inject, `pool` the table pages that serve
/// nothing yet, and `state` is the page that its creation took beside the root of its tables.
#[derive(Drop)]
pub struct Tvm {
    pub life: Life,
    pub regions: Regions,
    pub registers: Registers,
    pub allowed: u64,
    pub tables: Tables,
    pub pool: Pool,
    pub state: Page,
    pub v0: Option<VcpuSlot>,
    pub v1: Option<VcpuSlot>,
    pub v2: Option<VcpuSlot>,
    pub v3: Option<VcpuSlot>,
}

impl Tvm {
    /// The vCPU with a number.
    pub fn vcpu(&self, v: u64) -> Option<&VcpuSlot>
        ensures { option_copied result ≡ slot_at self.now v }
    {
        match v {
            0 => self.v0.as_ref(),
            1 => self.v1.as_ref(),
            2 => self.v2.as_ref(),
            3 => self.v3.as_ref(),
            _ => None,
        }
    }
}
