use cove_base::{HartId, Page, Regs};
use cove_imsic::FileState;

/// What a vCPU does.
#[derive(Clone, Copy)]
pub enum RunState {
    /// It may be run.
    Ready,
    /// A hart is inside it, and has its registers.
    Running(HartId),
    /// A trap stopped it for good.
    Stopped,
}

/// The interrupt file of a hart that a vCPU is bound to, and the number of its TVM's last fence when its unbinding began,
/// if it did.
#[derive(Clone, Copy)]
pub struct Bound {
    pub hart: HartId,
    pub file: u8,
    pub unbinding: Option<u64>,
}

/// A vCPU: its registers while no hart runs it, its interrupts while it is not bound, and the page that it was given.
#[derive(Drop)]
pub struct VcpuSlot {
    pub regs: Regs,
    pub run: RunState,
    pub bound: Option<Bound>,
    pub saved: FileState,
    pub page: Page,
}
