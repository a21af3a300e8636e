use crate::instructions::CsrMode;

/// What an instruction does to its hart: `Done` writes a register and goes on at `pc`; `Load` and `Store` want
/// `size` bytes of memory, and a load then writes a register, with the sign extended where it is `signed`; `Csr`
/// reads a register of the interrupt file into `rd`, and changes it by its source where it `writes`; `Ecall` asks
/// the monitor; `Trap` has a cause of the privileged architecture, and writes nothing; `Wfi` waits for an interrupt.
#[derive(Clone, Copy)]
pub enum Plan {
    Done {
        rd: u8,
        value: u64,
        pc: u64,
    },
    Load {
        addr: u64,
        size: u8,
        signed: bool,
        rd: u8,
    },
    Store {
        addr: u64,
        size: u8,
        value: u64,
    },
    Csr {
        csr: u16,
        mode: CsrMode,
        source: u64,
        writes: bool,
        rd: u8,
    },
    Ecall,
    Trap(u8),
    Wfi,
}
