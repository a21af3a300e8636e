//! The one function that answers every call of the host.

use crate::creation::create_tvm;
use crate::destruction::destroy_tvm;
use crate::fences::{global_fence, local_fence};
use crate::finalization::finalize_tvm;
use crate::info::get_tsm_info;
use crate::measured_pages::add_measured_pages;
use crate::owners::{convert_pages, reclaim_pages};
use crate::regions::add_memory_region;
use crate::shared_pages::add_shared_pages;
use crate::table_pages::add_page_table_pages;
use crate::vcpu_creation::create_vcpu;
use crate::zero_pages::add_zero_pages;
use cove_base::{HartId, HostCall, Reply, Status, Words};
use cove_tvm::{Ground, HostSide};

/// The host's side of the monitor: it answers a call by its function, and one that is not built by `NotSupported`.
#[derive(Clone, Copy)]
pub struct Covh;

impl HostSide for Covh {
    fn covh<W: Words>(&mut self, w: &mut W, g: &mut Ground, h: HartId, c: HostCall) -> Reply {
        match c {
            HostCall::Convert { base, n } => convert_pages(w, g, h, base, n),
            HostCall::GlobalFence => global_fence(w, g, h),
            HostCall::LocalFence => local_fence(w, g, h),
            HostCall::Reclaim { base, n } => reclaim_pages(w, g, h, base, n),
            HostCall::Create { root, state } => create_tvm(w, g, h, root, state),
            HostCall::Region { t, gpa, len } => add_memory_region(w, g, h, t, gpa, len),
            HostCall::Tables { t, base, n } => add_page_table_pages(w, g, h, t, base, n),
            HostCall::Measured {
                t,
                src,
                dst,
                n,
                gpa,
            } => add_measured_pages(w, g, h, t, src, dst, n, gpa),
            HostCall::Vcpu { t, v, state } => create_vcpu(w, g, h, t, v, state),
            HostCall::Finalize { t, pc, arg } => finalize_tvm(w, g, h, t, pc, arg),
            HostCall::Zero { t, base, n, gpa } => add_zero_pages(w, g, h, t, base, n, gpa),
            HostCall::Shared { t, base, n, gpa } => add_shared_pages(w, g, h, t, base, n, gpa),
            HostCall::Destroy { t } => destroy_tvm(w, g, h, t),
            HostCall::Info => get_tsm_info(w, g, h),
            HostCall::Run { .. }
            | HostCall::Invalidate { .. }
            | HostCall::TvmFence { .. }
            | HostCall::Validate { .. }
            | HostCall::Remove { .. }
            | HostCall::Kick { .. }
            | HostCall::Bind { .. }
            | HostCall::Unbind { .. }
            | HostCall::Unbound { .. }
            | HostCall::Inject { .. } => Reply {
                status: Status::NotSupported,
                value: 0,
            },
        }
    }
}
