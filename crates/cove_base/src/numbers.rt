use std::alloc::{AllocError, AllocFailed};

/// The number of a physical page of 4096 bytes, from 0.
#[derive(Clone, Copy)]
pub struct Page(pub u32);

/// The number of a guest-physical page of 4096 bytes, from 0.
#[derive(Clone, Copy)]
pub struct Gpn(pub u64);

/// The number of a hart of the board, from 0.
#[derive(Clone, Copy)]
pub struct HartId(pub u8);

/// The number of a TVM, from 1 in the order of creation.
#[derive(Clone, Copy)]
pub struct TvmId(pub u32);

/// What a TVM uses a page for that was given to it.
#[derive(Clone, Copy)]
pub enum Role {
    Root,
    State,
    Table,
    Vcpu,
    Data,
}

/// Memory ran out.
#[derive(Clone, Copy, Debug)]
pub struct NoMemory;

impl From<AllocError> for NoMemory {
    fn from(_error: AllocError) -> Self {
        NoMemory
    }
}

impl<T: Drop> From<AllocFailed<T>> for NoMemory {
    fn from(_error: AllocFailed<T>) -> Self {
        NoMemory
    }
}
