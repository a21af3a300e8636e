/// A call of the host to the monitor, with its arguments as the host gave them: byte addresses, numbers of
/// pages, TVMs, vCPUs, harts, files and identities, each any 64-bit number.
#[derive(Clone, Copy)]
pub enum HostCall {
    Convert {
        base: u64,
        n: u64,
    },
    GlobalFence,
    LocalFence,
    Reclaim {
        base: u64,
        n: u64,
    },
    Create {
        root: u64,
        state: u64,
    },
    Region {
        t: u64,
        gpa: u64,
        len: u64,
    },
    Tables {
        t: u64,
        base: u64,
        n: u64,
    },
    Measured {
        t: u64,
        src: u64,
        dst: u64,
        n: u64,
        gpa: u64,
    },
    Vcpu {
        t: u64,
        v: u64,
        state: u64,
    },
    Finalize {
        t: u64,
        pc: u64,
        arg: u64,
    },
    Zero {
        t: u64,
        base: u64,
        n: u64,
        gpa: u64,
    },
    Shared {
        t: u64,
        base: u64,
        n: u64,
        gpa: u64,
    },
    Run {
        t: u64,
        v: u64,
        fuel: u64,
    },
    Invalidate {
        t: u64,
        gpa: u64,
        n: u64,
    },
    TvmFence {
        t: u64,
    },
    Validate {
        t: u64,
        gpa: u64,
        n: u64,
    },
    Remove {
        t: u64,
        gpa: u64,
        n: u64,
    },
    Destroy {
        t: u64,
    },
    Kick {
        hart: u64,
    },
    Info,
    Bind {
        t: u64,
        v: u64,
        hart: u64,
        file: u64,
    },
    Unbind {
        t: u64,
        v: u64,
    },
    Unbound {
        t: u64,
        v: u64,
    },
    Inject {
        t: u64,
        v: u64,
        id: u64,
    },
}

/// What a guest asks for by an ECALL.
#[derive(Clone, Copy)]
pub enum GuestAct {
    Share { gpa: u64, len: u64 },
    Unshare { gpa: u64, len: u64 },
    Extend,
    Evidence,
    Allow { id: u64 },
    Deny { id: u64 },
    Other,
}
