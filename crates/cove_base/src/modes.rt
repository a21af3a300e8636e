ghost use Rattle.std.specs.Prelude.{◌≡◌};
ghost use Rattle.cove_base.specs.Modes.{leaves_of, guest_limit, mode_of};

/// How a TVM's second-stage tables translate: guest addresses of 41 bits by three levels, or of 50 bits by four.
#[derive(Clone, Copy)]
pub enum Mode {
    Sv39x4,
    Sv48x4,
}

impl Mode {
    /// How many tables stand between a leaf and the root.
    pub fn leaves(self) -> u32
        ensures { result ≡ leaves_of self }
    {
        match self {
            Mode::Sv39x4 => 2,
            Mode::Sv48x4 => 3,
        }
    }

    /// The number of guest pages.
    pub fn guest_limit(self) -> u64
        ensures { result ≡ guest_limit self }
    {
        match self {
            Mode::Sv39x4 => 1 << 29,
            Mode::Sv48x4 => 1 << 38,
        }
    }
}

/// The mode that the address of a root asks for.
pub fn mode_of(root: u64) -> Mode
    ensures { result ≡ mode_of root }
{
    if root % 16384 == 1 {
        Mode::Sv48x4
    } else {
        Mode::Sv39x4
    }
}
