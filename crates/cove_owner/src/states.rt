ghost use Rattle.std.specs.Prelude.{◌≡◌, ◌<◌};
ghost use Rattle.cove_base.specs.PageWords.{role_number, IsPageWord};
ghost use Rattle.cove_owner.specs.States.{state_word, IsBoundedState, WordsTellStates, StatesHaveWords};

use cove_base::{Role, TvmId};

/// What a page word says of its page.
#[derive(Clone, Copy)]
pub enum PageState {
    /// The host's, and mapped shared so many times.
    Host { maps: u32 },
    /// In conversion since an epoch.
    Converting { since: u64 },
    /// Given to a TVM.
    Given { tvm: TvmId, role: Role },
    /// Taken back from a TVM.
    Released,
}

/// The page word of a state.
pub fn encode(state: PageState) -> u64
    requires { IsBoundedState state }
    ensures { result ≡ state_word state }
{
    match state {
        PageState::Host { maps } => 8 * maps as u64,
        PageState::Converting { since } => 8 * since + 1,
        PageState::Given { tvm, role } => 64 * tvm.0 as u64 + 8 * role_number(role) + 2,
        PageState::Released => 3,
    }
}

/// The state of which this is the page word.
pub fn decode(word: u64) -> PageState
    requires { IsPageWord word }
    ensures word { state_word result ≡ word }
    ensures within { IsBoundedState result }
{
    match word % 8 {
        0 => PageState::Host {
            maps: (word / 8) as u32,
        },
        1 => PageState::Converting { since: word / 8 },
        2 => PageState::Given {
            tvm: TvmId((word / 64) as u32),
            role: role_at(word / 8 % 8),
        },
        _ => PageState::Released,
    }
}

/// The law of page words and states, which runs no code.
pub fn states_law()
    ensures tell { WordsTellStates }
    ensures have { StatesHaveWords }
{}

fn role_number(role: Role) -> u64
    ensures { result ≡ role_number role }
{
    match role {
        Role::Root => 0,
        Role::State => 1,
        Role::Table => 2,
        Role::Vcpu => 3,
        Role::Data => 4,
    }
}

fn role_at(number: u64) -> Role
    requires { number < 5 }
    ensures { role_number result ≡ number }
{
    match number {
        0 => Role::Root,
        1 => Role::State,
        2 => Role::Table,
        3 => Role::Vcpu,
        _ => Role::Data,
    }
}
