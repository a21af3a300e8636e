//! That numbers have the bits of their types: nothing here runs, since each body only looks at its argument.

ghost use Rattle.std.specs.Prelude.{◌≡◌, IsTrue};
ghost use Rattle.std.specs.List.{list_all};
ghost use Rattle.cove_base.specs.CallWords.{arguments};
ghost use Rattle.cove_base.specs.EventSizes.{is_sized};
ghost use Rattle.cove_base.specs.EventWords.{act_arguments};
ghost use Rattle.cove_base.specs.Numbers.{is_u8, is_u64};

use crate::calls::{GuestAct, HostCall};
use crate::events::Event;
use crate::statuses::Reply;

/// The numbers of an event have 64 bits, and the bytes of its quote 8.
pub fn event_fits(event: &Event)
    ensures { IsTrue (is_sized event.now) }
{
    match event {
        Event::Call { call, reply } => {
            call_fits(*call);
            reply_fits(*reply);
        }
        Event::Load { addr, value, .. }
        | Event::Store { addr, value, .. }
        | Event::StoreFault { addr, value } => {
            let _numbers = (*addr, *value);
        }
        Event::LoadFault { addr } => {
            let _number = *addr;
        }
        Event::Guest { act, reply } => {
            act_fits(*act);
            reply_fits(*reply);
        }
        Event::Evidence { quote } => bytes_fit(quote.as_slice()),
        Event::Fetch { .. } | Event::Exec | Event::Access { .. } | Event::Exit { .. } => {}
    }
}

/// The arguments of a call have 64 bits.
pub fn call_fits(call: HostCall)
    ensures { IsTrue (list_all is_u64 (arguments call)) }
{
    match call {
        HostCall::Convert { base, n } | HostCall::Reclaim { base, n } => {
            let _numbers = (base, n);
        }
        HostCall::Create { root, state } => {
            let _numbers = (root, state);
        }
        HostCall::Region { t, gpa, len } => {
            let _numbers = (t, gpa, len);
        }
        HostCall::Tables { t, base, n } => {
            let _numbers = (t, base, n);
        }
        HostCall::Measured {
            t,
            src,
            dst,
            n,
            gpa,
        } => {
            let _numbers = (t, src, dst, n, gpa);
        }
        HostCall::Vcpu { t, v, state } => {
            let _numbers = (t, v, state);
        }
        HostCall::Finalize { t, pc, arg } => {
            let _numbers = (t, pc, arg);
        }
        HostCall::Zero { t, base, n, gpa } | HostCall::Shared { t, base, n, gpa } => {
            let _numbers = (t, base, n, gpa);
        }
        HostCall::Run { t, v, fuel } => {
            let _numbers = (t, v, fuel);
        }
        HostCall::Invalidate { t, gpa, n }
        | HostCall::Validate { t, gpa, n }
        | HostCall::Remove { t, gpa, n } => {
            let _numbers = (t, gpa, n);
        }
        HostCall::TvmFence { t } | HostCall::Destroy { t } => {
            let _number = t;
        }
        HostCall::Kick { hart } => {
            let _number = hart;
        }
        HostCall::Bind { t, v, hart, file } => {
            let _numbers = (t, v, hart, file);
        }
        HostCall::Unbind { t, v } | HostCall::Unbound { t, v } => {
            let _numbers = (t, v);
        }
        HostCall::Inject { t, v, id } => {
            let _numbers = (t, v, id);
        }
        HostCall::GlobalFence | HostCall::LocalFence | HostCall::Info => {}
    }
}

// The value of an answer has 64 bits.
fn reply_fits(reply: Reply)
    ensures { IsTrue (is_u64 reply.value) }
{
    let _value = reply.value;
}

// The arguments of a guest's act have 64 bits.
fn act_fits(act: GuestAct)
    ensures { IsTrue (list_all is_u64 (act_arguments act)) }
{
    match act {
        GuestAct::Share { gpa, len } | GuestAct::Unshare { gpa, len } => {
            let _numbers = (gpa, len);
        }
        GuestAct::Allow { id } | GuestAct::Deny { id } => {
            let _number = id;
        }
        GuestAct::Extend | GuestAct::Evidence | GuestAct::Other => {}
    }
}

// Bytes have 8 bits.
fn bytes_fit(bytes: &[u8])
    ensures { IsTrue (list_all is_u8 bytes.now) }
{}
