use crate::calls::{GuestAct, HostCall};
use crate::numbers::{Gpn, HartId, Page};
use crate::quotes::Quote;
use crate::statuses::Reply;

/// How an access came to its page: by the hart's TLB, or by a walk.
#[derive(Clone, Copy)]
pub enum How {
    Hit,
    Walk,
}

/// What a walk came to: a page, or the word that stopped it.
#[derive(Clone, Copy)]
pub enum Walked {
    Found(Page),
    Missing(u64),
}

/// Why a hart left a TVM. Causes are those of the RISC-V privileged architecture.
#[derive(Clone, Copy)]
pub enum Exit {
    Fuel,
    Kicked,
    Wfi,
    Fault { cause: u8, page: Gpn },
    Trap { cause: u8 },
}

/// One event of the machine. Addresses are in bytes.
#[derive(Drop)]
pub enum Event {
    Call { call: HostCall, reply: Reply },
    Load { addr: u64, how: How, value: u64 },
    LoadFault { addr: u64 },
    Store { addr: u64, value: u64, how: How },
    StoreFault { addr: u64, value: u64 },
    Fetch { how: How },
    Exec,
    Access { how: How },
    Guest { act: GuestAct, reply: Reply },
    Evidence { quote: Quote },
    Exit { exit: Exit },
}

/// One entry of a history: an event, and the hart that made it.
#[derive(Drop)]
pub struct Entry {
    pub hart: HartId,
    pub event: Event,
}
