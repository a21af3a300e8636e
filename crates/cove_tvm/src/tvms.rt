ghost use Rattle.std.specs.Prelude.{◌≡◌, ◌+◌, ◌<◌, ◌≤◌, ◌++◌, [], ◌∷◌, IfOk, length, slice_get, Some};
ghost use Rattle.std.specs.Option.{option_copied, option_copied_mut};
ghost use Rattle.std.specs.Borrow.{sem};
ghost use Rattle.cove_tvm.specs.TvmTables.{AreEmptyPools, IsEmptyPool, IsNewTvm, live_at};
ghost use Rattle.cove_tvm.specs.declared.machines.Tvm.{Tvm};

use crate::machines::{Life, Tvm};
use cove_base::{Mode, NoMemory, PAGE_LIMIT, Page, TVM_LIMIT, TvmId};
use cove_measure::Registers;
use cove_region::Regions;
use cove_stage2::{Pool, Tables};
use std::alloc::Global;
use std::marker::Model;

/// Every TVM that was created, in the order of their numbers, which begin at 1. All room is taken by `new`.
#[derive(Drop)]
pub struct Tvms {
    pages: u32,
    tvms: Vec<Tvm>,
    spare: Vec<Pool>,
}

impl Model for Tvms {
    ghost use Rattle.std.specs.Vec.{vec_capacity};
    ghost use Rattle.cove_tvm.specs.TvmTables.{TvmTable, HasRoom};

    ghost Value = { TvmTable };

    ghost view = { λ a. record { pages = a.pages; tvms = a.tvms.items } };

    ghost invariant = { λ a. HasRoom a.pages a.tvms.items (vec_capacity a.tvms) a.spare.items };
}

impl Tvms {
    ghost use Rattle.cove_tvm.specs.TvmLends.{lends_live, lends_tvm};

    /// No TVM yet, for a board of so many pages. Takes the room of as many TVMs as may be created, and of their pools.
    pub fn new(alloc: Global, pages: u32) -> Result<Self, NoMemory>
        requires { pages ≤ PAGE_LIMIT }
        ensures { IfOk result (λ table. table ≡ record { pages = pages; tvms = [] }) }
    {
        Ok(Tvms {
            pages,
            tvms: Vec::with_capacity(alloc, TVM_LIMIT as usize)?,
            spare: pools(alloc, pages)?,
        })
    }

    /// How many TVMs were ever created.
    pub fn made(&self) -> u32
        ensures { result ≡ length self.now.tvms }
    {
        self.tvms.len() as u32
    }

    /// The live TVM with a number.
    pub fn live(&self, t: u64) -> Option<&Tvm>
        ensures { option_copied result ≡ live_at self.now t }
    {
        if t == 0 {
            return None;
        }
        let tvm = self.tvms.as_slice().get((t - 1) as usize)?;
        if tvm.life.is_gone() { None } else { Some(tvm) }
    }

    /// The live TVM with a number, to be changed.
    pub fn live_mut(&mut self, t: u64) -> Option<&mut Tvm>
        ensures* writes_back { sem 𝓛 (lends_live self.entry t result) }
        ensures value { option_copied_mut result ≡ live_at self.old t }
    {
        if self.live(t).is_some() {
            Some(self.tvm_mut((t - 1) as usize))
        } else {
            None
        }
    }

    /// Adds a TVM that is being built: with no region, no vCPU, register 0 extended by the board's record alone, an empty pool,
    /// and tables of a mode whose root begins at a page. The board is told by its number in that record.
    pub fn create(&mut self, root: Page, mode: Mode, state: Page, board: u64) -> TvmId
        requires { length self.old.tvms < TVM_LIMIT }
        ensures number { result.0 ≡ length self.old.tvms + 1 }
        ensures added { (tvm : Tvm) × IsNewTvm self.old.pages board root.0 mode state.0 tvm × (self.new.tvms ≡ self.old.tvms ++ tvm ∷ []) }
        ensures pages { self.new.pages ≡ self.old.pages }
    {
        let Some(pool) = self.spare.pop() else {
            unreachable!()
        };
        let tables = Tables {
            root,
            pages: self.pages,
            mode,
        };
        self.tvms
            .push_reserved(building(tables, state, pool, board));
        TvmId(self.tvms.len() as u32)
    }

    // The TVM at a place.
    fn tvm_mut(&mut self, place: usize) -> &mut Tvm
        requires { place < length self.old.tvms }
        ensures* writes_back { sem 𝓛 (lends_tvm self.entry place result) }
        ensures value { slice_get self.old.tvms place ≡ Some result.now }
    {
        &mut self.tvms[place]
    }
}

// A TVM that is being built on a board, without anything yet.
fn building(tables: Tables, state: Page, pool: Pool, board: u64) -> Tvm
    requires { IsEmptyPool tables.pages pool }
    ensures { IsNewTvm tables.pages board tables.root.0 tables.mode state.0 result }
{
    let mut registers = Registers::new();
    registers.extend_board(board);
    Tvm {
        life: Life::Building,
        regions: Regions::new(),
        registers,
        allowed: 0,
        tables,
        pool,
        state,
        v0: None,
        v1: None,
        v2: None,
        v3: None,
    }
}

// An empty pool for each TVM that may be created, with room for every page of the board.
fn pools(alloc: Global, pages: u32) -> Result<Vec<Pool>, NoMemory>
    ensures { IfOk result (λ pools. AreEmptyPools pages TVM_LIMIT pools.items) }
{
    let mut pools = Vec::with_capacity(alloc, TVM_LIMIT as usize)?;
    for _ in 0..TVM_LIMIT {
        pools.push(Pool::new(alloc, pages)?)?;
    }
    Ok(pools)
}
