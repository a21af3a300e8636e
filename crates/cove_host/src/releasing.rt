//! How a TVM's pages are taken back, once its tables are clear.

ghost use Rattle.std.specs.Prelude.{◌≡◌, ◌+◌, ◌<◌, ◌≤◌, ◌^◌, length};
ghost use Rattle.cove_base.specs.Stores.{AllAllowed, stored};
ghost use Rattle.cove_host.specs.Released.{HavePlaces, all_cpu_pages, cpu_pages, own_pages, release_stores};

use cove_base::{PageRange, Words};
use cove_owner::{PageState, set_all, set_state};
use cove_stage2::Pool;
use cove_tvm::{Tvm, VcpuSlot};

/// Takes back the pages of a TVM: those that were gathered in its pool, its root, its state page, and its vCPUs'.
pub(crate) fn release_pages<W: Words>(w: &mut W, tvm: &Tvm)
    requires places { HavePlaces (W.words w.old) (own_pages tvm.now) }
    requires root { tvm.now.tables.root.0 + 4 ≤ 2 ^ 16 }
    requires root_fits { tvm.now.tables.root.0 + 4 ≤ length (W.words w.old) }
    requires allowed { AllAllowed (W.allows (W.guard w.old)) (W.words w.old) (release_stores (own_pages tvm.now)) }
    ensures words { W.words w.new ≡ stored (W.words w.old) (release_stores (own_pages tvm.now)) }
    ensures guard { W.guard w.new ≡ W.guard w.old }
{
    release_gathered(w, &tvm.pool);
    let root = PageRange {
        first: tvm.tables.root,
        count: 4,
    };
    set_all(w, root, PageState::Released);
    set_state(w, tvm.state, PageState::Released);
    release_cpus(w, tvm);
}

// Takes back the pages that were gathered.
fn release_gathered<W: Words>(w: &mut W, pool: &Pool)
    requires places { HavePlaces (W.words w.old) pool.now.pages }
    requires allowed { AllAllowed (W.allows (W.guard w.old)) (W.words w.old) (release_stores pool.now.pages) }
    ensures words { W.words w.new ≡ stored (W.words w.old) (release_stores pool.now.pages) }
    ensures guard { W.guard w.new ≡ W.guard w.old }
{
    for k in 0..pool.left() {
        set_state(w, pool.page(k), PageState::Released);
    }
}

// Takes back the pages of all vCPUs.
fn release_cpus<W: Words>(w: &mut W, tvm: &Tvm)
    requires places { HavePlaces (W.words w.old) (all_cpu_pages tvm.now) }
    requires allowed { AllAllowed (W.allows (W.guard w.old)) (W.words w.old) (release_stores (all_cpu_pages tvm.now)) }
    ensures words { W.words w.new ≡ stored (W.words w.old) (release_stores (all_cpu_pages tvm.now)) }
    ensures guard { W.guard w.new ≡ W.guard w.old }
{
    release_cpu(w, &tvm.v0);
    release_cpu(w, &tvm.v1);
    release_cpu(w, &tvm.v2);
    release_cpu(w, &tvm.v3);
}

// Takes back the page of a vCPU, if it was created.
fn release_cpu<W: Words>(w: &mut W, cpu: &Option<VcpuSlot>)
    requires places { HavePlaces (W.words w.old) (cpu_pages cpu.now) }
    requires allowed { AllAllowed (W.allows (W.guard w.old)) (W.words w.old) (release_stores (cpu_pages cpu.now)) }
    ensures words { W.words w.new ≡ stored (W.words w.old) (release_stores (cpu_pages cpu.now)) }
    ensures guard { W.guard w.new ≡ W.guard w.old }
{
    if let Some(slot) = cpu {
        set_state(w, slot.page, PageState::Released);
    }
}
