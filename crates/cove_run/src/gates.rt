//! Places at which a hart on a thread may be held.

ghost use Rattle.std.specs.Prelude.{◌≡◌, IsSome};

use cove_monitor::Hart;

/// Where a hart on a thread is: right before a walk, right after one, or right before an event, each without the lock.
#[derive(Clone, Copy)]
pub enum Place {
    BeforeWalk,
    AfterWalk,
    BeforeEvent,
}

/// What a hart on a thread passes at each place. Tests hold a hart there; a program's gate does nothing.
pub trait Gate {
    /// Returns once the hart may go on.
    fn pass(&self, hart: &Hart, place: Place)
        requires { place ≡ Place.AfterWalk → IsSome hart.now.held.walked };
}
