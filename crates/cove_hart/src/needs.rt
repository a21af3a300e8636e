use cove_base::Target;

/// What a hart needs next: a walk before its event, its event, or nothing in this phase.
#[derive(Clone, Copy)]
pub enum Need {
    Walk(Target),
    Event,
    Idle,
}
