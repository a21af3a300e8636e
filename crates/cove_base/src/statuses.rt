ghost use Rattle.std.specs.Prelude.{◌≡◌};
ghost use Rattle.cove_base.specs.Statuses.{code_of};

/// A status of the RISC-V Supervisor Binary Interface.
#[derive(Clone, Copy)]
pub enum Status {
    Success,
    Failed,
    NotSupported,
    InvalidParam,
    Denied,
    InvalidAddress,
    AlreadyAvailable,
    AlreadyStarted,
    AlreadyStopped,
}

/// What a call answers: its status, and a value beside it.
#[derive(Clone, Copy)]
pub struct Reply {
    pub status: Status,
    pub value: u64,
}

impl Status {
    /// The error code of the RISC-V Supervisor Binary Interface.
    pub fn code(self) -> i64
        ensures { result ≡ code_of self }
    {
        match self {
            Status::Success => 0,
            Status::Failed => -1,
            Status::NotSupported => -2,
            Status::InvalidParam => -3,
            Status::Denied => -4,
            Status::InvalidAddress => -5,
            Status::AlreadyAvailable => -6,
            Status::AlreadyStarted => -7,
            Status::AlreadyStopped => -8,
        }
    }
}
