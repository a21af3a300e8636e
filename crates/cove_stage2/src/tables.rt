ghost use Rattle.std.specs.Prelude.{◌≡◌, ◌≢◌, ◌+◌, ◌*◌, ◌/◌, length, ◌%◌, ◌^◌, ◌<◌, ◌≤◌, ℕ};
ghost use Rattle.cove_base.specs.Executions.{flag};
ghost use Rattle.cove_base.specs.Places.{table_word};
ghost use Rattle.cove_base.specs.Modes.{guest_limit, leaves_of};
ghost use Rattle.cove_base.specs.Tables.{At, below, entry_in, leaf_at, IsLeaf, IsLink, IsLinkSlot, IsPool, IsTree, present, slots_at, StandsAt};
ghost use Rattle.cove_base.specs.declared.limits.TheConstants.{PAGE_LIMIT};
ghost use Rattle.cove_base.specs.Unchanged.{Unchanged};
ghost use Rattle.cove_base.specs.Stores.{fills, stored, AllAllowed};
ghost use Rattle.cove_base.specs.TableWords.{blocked};
ghost use Rattle.cove_stage2.specs.Changes.{ChangesLeaf, clear_stores, ClearsPage, KeepsLinks, NamesWay, IsPresentLeaf, IsBlockedLeaf, unblocked, leaf_stores};
ghost use Rattle.cove_stage2.specs.Entries.{leaf_word, IsBoundedLeaf};
ghost use Rattle.cove_stage2.specs.Lacked.{absent_among, tables_lacked, LacksRest};
ghost use Rattle.cove_stage2.specs.Links.{LinkedWay, LinksTable, MayLinkWay};
ghost use Rattle.cove_stage2.specs.MapStores.{link_stores, map_stores, pool_after, pool_left};
ghost use Rattle.cove_stage2.specs.Walks.{WalksTo};

use crate::entries::{Leaf, decode, encode};
use crate::pools::Pool;
use cove_base::{Gpn, Mode, PAGE_LIMIT, Page, Steps, Walked, Words, table_word};
use std::sync::ledger::Ledger;

/// The tables of a TVM: where its root begins, how many pages the board has, and the mode, which says at which depth the leaves are.
#[derive(Clone, Copy)]
pub struct Tables {
    pub root: Page,
    pub pages: u32,
    pub mode: Mode,
    pub ghost limit: { pages ≤ PAGE_LIMIT },
}

impl Tables {
    /// The leaf of a guest page.
    pub fn find<W: Words>(&self, w: &mut W, g: Gpn) -> Leaf
        requires guest { g.0 < guest_limit self.now.mode }
        requires tree { IsTree self.now.pages self.now.root.0 (leaves_of self.now.mode) (W.words w.old) }
        ensures leaf { leaf_word result
            ≡ leaf_at self.now.pages self.now.root.0 (leaves_of self.now.mode) (W.words w.old) g.0 }
        ensures within { IsBoundedLeaf result }
        ensures unchanged { Unchanged W.words W.clean W.guard w.old w.new }
    {
        decode(self.leaf(w, g))
    }

    /// Walks to the leaf of a guest page, for a fetch or for an access to data: by at most three loads for Sv39x4, and four for
    /// Sv48x4.
    pub fn walk<W: Words, L: Ledger>(
        &self,
        w: &mut W,
        g: Gpn,
        fetch: bool,
        steps: &mut Steps<L>,
    ) -> Walked
        requires guest { g.0 < guest_limit self.now.mode }
        requires tree { IsTree self.now.pages self.now.root.0 (leaves_of self.now.mode) (W.words w.old) }
        ensures walked { WalksTo fetch (leaf_at self.now.pages self.now.root.0 (leaves_of self.now.mode) (W.words w.old) g.0) result }
        ensures steps { steps.new ≤ steps.old + 1 + leaves_of self.now.mode }
        ensures unchanged { Unchanged W.words W.clean W.guard w.old w.new }
    {
        walked(fetch, self.load(w, g, steps))
    }

    /// How many tables are missing for mappings of a run of guest pages.
    pub fn need<W: Words>(&self, w: &mut W, first: Gpn, count: u32) -> u32
        requires guests { first.0 + count ≤ guest_limit self.now.mode }
        requires tree { IsTree self.now.pages self.now.root.0 (leaves_of self.now.mode) (W.words w.old) }
        ensures lacked { result ≡ tables_lacked self.now.pages self.now.root.0 (W.words w.old) (leaves_of self.now.mode) first.0 count }
        ensures unchanged { Unchanged W.words W.clean W.guard w.old w.new }
    {
        self.lacked(w, self.mode.leaves(), first.0, count)
    }

    /// Maps a guest page to a page, with tables out of the pool where its way lacks them, the upper ones first.
    pub fn map<W: Words>(&self, w: &mut W, g: Gpn, page: Page, shared: bool, pool: &mut Pool)
        requires guest { g.0 < guest_limit self.now.mode }
        requires page { page.0 < 2 ^ 16 }
        requires tree { IsTree self.now.pages self.now.root.0 (leaves_of self.now.mode) (W.words w.old) }
        requires absent { leaf_at self.now.pages self.now.root.0 (leaves_of self.now.mode) (W.words w.old) g.0 ≡ 0 }
        requires pool { IsPool self.now.pages self.now.root.0 (W.words w.old) pool.old.pages }
        requires enough { tables_lacked self.now.pages self.now.root.0 (W.words w.old) (leaves_of self.now.mode) g.0 1 ≤ length pool.old.pages }
        requires allowed { AllAllowed (W.allows (W.guard w.old)) (W.words w.old)
            (map_stores self.now.pages self.now.root.0 (leaves_of self.now.mode) (W.words w.old) pool.old.pages g.0 (present page.0 shared)) }
        ensures stores { W.words w.new ≡ stored (W.words w.old)
            (map_stores self.now.pages self.now.root.0 (leaves_of self.now.mode) (W.words w.old) pool.old.pages g.0 (present page.0 shared)) }
        ensures leaf { ChangesLeaf self.now.pages self.now.root.0 (leaves_of self.now.mode) (W.words w.old) (W.words w.new) g.0 (present page.0 shared) }
        ensures way { NamesWay self.now.pages self.now.root.0 (leaves_of self.now.mode) (W.words w.old) (W.words w.new) g.0 }
        ensures pool { pool.new.pages ≡ pool_left self.now.pages self.now.root.0 (W.words w.old) pool.old.pages (leaves_of self.now.mode) g.0 }
        ensures lost { length pool.new.pages + tables_lacked self.now.pages self.now.root.0 (W.words w.old) (leaves_of self.now.mode) g.0 1
            ≡ length pool.old.pages }
        ensures room { pool.new.room ≡ pool.old.room }
        ensures spare { IsPool self.now.pages self.now.root.0 (W.words w.new) pool.new.pages }
        ensures rest { LacksRest self.now.pages self.now.root.0 (leaves_of self.now.mode) (W.words w.old) (W.words w.new) g.0 }
        ensures guard { W.guard w.new ≡ W.guard w.old }
    {
        let place = self.link_way(w, g, pool);
        self.set_at(w, g, place, encode(Leaf::Present { page, shared }));
    }

    /// Blocks a present leaf since a number.
    pub fn block<W: Words>(&self, w: &mut W, g: Gpn, since: u64)
        requires guest { g.0 < guest_limit self.now.mode }
        requires since { since < 2 ^ 32 }
        requires tree { IsTree self.now.pages self.now.root.0 (leaves_of self.now.mode) (W.words w.old) }
        requires present { IsPresentLeaf (leaf_at self.now.pages self.now.root.0 (leaves_of self.now.mode) (W.words w.old) g.0) }
        requires allowed { AllAllowed (W.allows (W.guard w.old)) (W.words w.old)
            (leaf_stores self.now.pages self.now.root.0 (leaves_of self.now.mode) (W.words w.old) g.0
            (blocked (leaf_at self.now.pages self.now.root.0 (leaves_of self.now.mode) (W.words w.old) g.0) since)) }
        ensures stores { W.words w.new ≡ stored (W.words w.old)
            (leaf_stores self.now.pages self.now.root.0 (leaves_of self.now.mode) (W.words w.old) g.0
            (blocked (leaf_at self.now.pages self.now.root.0 (leaves_of self.now.mode) (W.words w.old) g.0) since)) }
        ensures leaf { ChangesLeaf self.now.pages self.now.root.0 (leaves_of self.now.mode) (W.words w.old) (W.words w.new) g.0
            (blocked (leaf_at self.now.pages self.now.root.0 (leaves_of self.now.mode) (W.words w.old) g.0) since) }
        ensures links { KeepsLinks self.now.pages self.now.root.0 (leaves_of self.now.mode) (W.words w.old) (W.words w.new) }
        ensures guard { W.guard w.new ≡ W.guard w.old }
    {
        let leaf = self.leaf(w, g);
        self.set_leaf(w, g, leaf + 0xFF + 0x400_0000 * since);
    }

    /// Makes a blocked leaf present again.
    pub fn unblock<W: Words>(&self, w: &mut W, g: Gpn)
        requires guest { g.0 < guest_limit self.now.mode }
        requires tree { IsTree self.now.pages self.now.root.0 (leaves_of self.now.mode) (W.words w.old) }
        requires blocked { IsBlockedLeaf (leaf_at self.now.pages self.now.root.0 (leaves_of self.now.mode) (W.words w.old) g.0) }
        requires allowed { AllAllowed (W.allows (W.guard w.old)) (W.words w.old)
            (leaf_stores self.now.pages self.now.root.0 (leaves_of self.now.mode) (W.words w.old) g.0
            (unblocked (leaf_at self.now.pages self.now.root.0 (leaves_of self.now.mode) (W.words w.old) g.0))) }
        ensures stores { W.words w.new ≡ stored (W.words w.old)
            (leaf_stores self.now.pages self.now.root.0 (leaves_of self.now.mode) (W.words w.old) g.0
            (unblocked (leaf_at self.now.pages self.now.root.0 (leaves_of self.now.mode) (W.words w.old) g.0))) }
        ensures leaf { ChangesLeaf self.now.pages self.now.root.0 (leaves_of self.now.mode) (W.words w.old) (W.words w.new) g.0
            (unblocked (leaf_at self.now.pages self.now.root.0 (leaves_of self.now.mode) (W.words w.old) g.0)) }
        ensures links { KeepsLinks self.now.pages self.now.root.0 (leaves_of self.now.mode) (W.words w.old) (W.words w.new) }
        ensures guard { W.guard w.new ≡ W.guard w.old }
    {
        let leaf = self.leaf(w, g);
        self.set_leaf(w, g, leaf % 0x400_0000 - 0xFF);
    }

    /// Removes a blocked leaf.
    pub fn unmap<W: Words>(&self, w: &mut W, g: Gpn)
        requires guest { g.0 < guest_limit self.now.mode }
        requires tree { IsTree self.now.pages self.now.root.0 (leaves_of self.now.mode) (W.words w.old) }
        requires blocked { IsBlockedLeaf (leaf_at self.now.pages self.now.root.0 (leaves_of self.now.mode) (W.words w.old) g.0) }
        requires allowed { AllAllowed (W.allows (W.guard w.old)) (W.words w.old)
            (leaf_stores self.now.pages self.now.root.0 (leaves_of self.now.mode) (W.words w.old) g.0 0) }
        ensures stores { W.words w.new ≡ stored (W.words w.old)
            (leaf_stores self.now.pages self.now.root.0 (leaves_of self.now.mode) (W.words w.old) g.0 0) }
        ensures leaf { ChangesLeaf self.now.pages self.now.root.0 (leaves_of self.now.mode) (W.words w.old) (W.words w.new) g.0 0 }
        ensures links { KeepsLinks self.now.pages self.now.root.0 (leaves_of self.now.mode) (W.words w.old) (W.words w.new) }
        ensures guard { W.guard w.new ≡ W.guard w.old }
    {
        self.set_leaf(w, g, 0);
    }

    /// Clears a page: stores 0 to each of its table words, in rising order.
    pub fn clear<W: Words>(&self, w: &mut W, page: Page)
        requires page { page.0 < self.now.pages }
        requires size { 513 * self.now.pages ≤ length (W.words w.old) }
        requires allowed { AllAllowed (W.allows (W.guard w.old)) (W.words w.old) (clear_stores self.now.pages page.0) }
        ensures stores { W.words w.new ≡ stored (W.words w.old) (clear_stores self.now.pages page.0) }
        ensures cleared { ClearsPage self.now.pages (W.words w.old) (W.words w.new) page.0 }
        ensures guard { W.guard w.new ≡ W.guard w.old }
    {
        clear_words(w, table_word(self.pages, page, 0), 512);
    }

    // links the tables that the way to a guest page lacks, the upper ones first, and says where its leaf stands then
    fn link_way<W: Words>(&self, w: &mut W, g: Gpn, pool: &mut Pool) -> u32
        requires { MayLinkWay self.now.pages self.now.root.0 (leaves_of self.now.mode) (W.allows (W.guard w.old)) (W.words w.old) pool.old.pages (leaves_of self.now.mode) g.0 }
        ensures linked { LinkedWay self.now.pages self.now.root.0 (leaves_of self.now.mode) (W.words w.old) pool.old.pages (W.words w.new) pool.new.pages (leaves_of self.now.mode) g.0 result }
        ensures room { pool.new.room ≡ pool.old.room }
        ensures guard { W.guard w.new ≡ W.guard w.old }
    {
        match self.mode {
            Mode::Sv39x4 => self.link_2(w, g.0, pool),
            Mode::Sv48x4 => self.link_3(w, g.0, pool),
        }
    }

    // links the table that the way to a slot below the root's lacks, and says where the slot stands then
    fn link_1<W: Words>(&self, w: &mut W, n: u64, pool: &mut Pool) -> u32
        requires { MayLinkWay self.now.pages self.now.root.0 (leaves_of self.now.mode) (W.allows (W.guard w.old)) (W.words w.old) pool.old.pages 1 n }
        ensures linked { LinkedWay self.now.pages self.now.root.0 (leaves_of self.now.mode) (W.words w.old) pool.old.pages (W.words w.new) pool.new.pages 1 n result }
        ensures room { pool.new.room ≡ pool.old.room }
        ensures guard { W.guard w.new ≡ W.guard w.old }
    {
        let above = self.root_word((n / 512) as u32);
        let table = self.linked(w, 0, n / 512, above, pool);
        table_word(self.pages, table, (n % 512) as u32)
    }

    // the same of a slot two tables below the root, the upper table first
    fn link_2<W: Words>(&self, w: &mut W, n: u64, pool: &mut Pool) -> u32
        requires { MayLinkWay self.now.pages self.now.root.0 (leaves_of self.now.mode) (W.allows (W.guard w.old)) (W.words w.old) pool.old.pages 2 n }
        ensures linked { LinkedWay self.now.pages self.now.root.0 (leaves_of self.now.mode) (W.words w.old) pool.old.pages (W.words w.new) pool.new.pages 2 n result }
        ensures room { pool.new.room ≡ pool.old.room }
        ensures guard { W.guard w.new ≡ W.guard w.old }
    {
        let above = self.link_1(w, n / 512, pool);
        let table = self.linked(w, 1, n / 512, above, pool);
        table_word(self.pages, table, (n % 512) as u32)
    }

    // the same of a slot three tables below the root
    fn link_3<W: Words>(&self, w: &mut W, n: u64, pool: &mut Pool) -> u32
        requires { MayLinkWay self.now.pages self.now.root.0 (leaves_of self.now.mode) (W.allows (W.guard w.old)) (W.words w.old) pool.old.pages 3 n }
        ensures linked { LinkedWay self.now.pages self.now.root.0 (leaves_of self.now.mode) (W.words w.old) pool.old.pages (W.words w.new) pool.new.pages 3 n result }
        ensures room { pool.new.room ≡ pool.old.room }
        ensures guard { W.guard w.new ≡ W.guard w.old }
    {
        let above = self.link_2(w, n / 512, pool);
        let table = self.linked(w, 2, n / 512, above, pool);
        table_word(self.pages, table, (n % 512) as u32)
    }

    // the table that a slot names, linked out of the pool where it names none
    fn linked<W: Words>(&self, w: &mut W, depth: u32, n: u64, place: u32, pool: &mut Pool) -> Page
        requires slot { IsLinkSlot (leaves_of self.now.mode) (At depth n) }
        requires tree { IsTree self.now.pages self.now.root.0 (leaves_of self.now.mode) (W.words w.old) }
        requires pool { IsPool self.now.pages self.now.root.0 (W.words w.old) pool.old.pages }
        requires place { StandsAt self.now.pages self.now.root.0 (W.words w.old) (At depth n) place }
        requires enough { entry_in self.now.pages self.now.root.0 (W.words w.old) depth n ≡ 0 → 0 < length pool.old.pages }
        requires allowed { AllAllowed (W.allows (W.guard w.old)) (W.words w.old)
            (link_stores (entry_in self.now.pages self.now.root.0 (W.words w.old) depth n) place pool.old.pages) }
        ensures stores { W.words w.new ≡ stored (W.words w.old)
            (link_stores (entry_in self.now.pages self.now.root.0 (W.words w.old) depth n) place pool.old.pages) }
        ensures table { LinksTable self.now.pages self.now.root.0 (leaves_of self.now.mode) (W.words w.old) (W.words w.new) (At depth n) result.0 }
        ensures board { result.0 < self.now.pages }
        ensures pool { pool.new.pages ≡ pool_after (entry_in self.now.pages self.now.root.0 (W.words w.old) depth n) pool.old.pages }
        ensures room { pool.new.room ≡ pool.old.room }
        ensures spare { IsPool self.now.pages self.now.root.0 (W.words w.new) pool.new.pages }
        ensures guard { W.guard w.new ≡ W.guard w.old }
    {
        let entry = w.get(place);
        if entry == 0 {
            let page = pool.take_page();
            w.set(place, 1024 * page.0 as u64 + 1);
            page
        } else {
            Page((entry / 1024) as u32)
        }
    }

    // stores a leaf where there was one
    fn set_leaf<W: Words>(&self, w: &mut W, g: Gpn, leaf: u64)
        requires guest { g.0 < guest_limit self.now.mode }
        requires leaf { IsLeaf leaf }
        requires tree { IsTree self.now.pages self.now.root.0 (leaves_of self.now.mode) (W.words w.old) }
        requires mapped { leaf_at self.now.pages self.now.root.0 (leaves_of self.now.mode) (W.words w.old) g.0 ≢ 0 }
        requires allowed { AllAllowed (W.allows (W.guard w.old)) (W.words w.old)
            (leaf_stores self.now.pages self.now.root.0 (leaves_of self.now.mode) (W.words w.old) g.0 leaf) }
        ensures stores { W.words w.new ≡ stored (W.words w.old)
            (leaf_stores self.now.pages self.now.root.0 (leaves_of self.now.mode) (W.words w.old) g.0 leaf) }
        ensures leaf { ChangesLeaf self.now.pages self.now.root.0 (leaves_of self.now.mode) (W.words w.old) (W.words w.new) g.0 leaf }
        ensures links { KeepsLinks self.now.pages self.now.root.0 (leaves_of self.now.mode) (W.words w.old) (W.words w.new) }
        ensures guard { W.guard w.new ≡ W.guard w.old }
    {
        let place = self.leaf_place(w, g);
        self.set_at(w, g, place, leaf);
    }

    // where the leaf of a mapped guest page stands
    fn leaf_place<W: Words>(&self, w: &mut W, g: Gpn) -> u32
        requires guest { g.0 < guest_limit self.now.mode }
        requires tree { IsTree self.now.pages self.now.root.0 (leaves_of self.now.mode) (W.words w.old) }
        requires mapped { leaf_at self.now.pages self.now.root.0 (leaves_of self.now.mode) (W.words w.old) g.0 ≢ 0 }
        ensures place { StandsAt self.now.pages self.now.root.0 (W.words w.old) (At (leaves_of self.now.mode) g.0) result }
        ensures unchanged { Unchanged W.words W.clean W.guard w.old w.new }
    {
        let table = self.entry(w, self.mode.leaves() - 1, g.0 / 512);
        table_word(self.pages, Page((table / 1024) as u32), (g.0 % 512) as u32)
    }

    // stores a leaf where it stands
    fn set_at<W: Words>(&self, w: &mut W, g: Gpn, place: u32, leaf: u64)
        requires guest { g.0 < guest_limit self.now.mode }
        requires leaf { IsLeaf leaf }
        requires tree { IsTree self.now.pages self.now.root.0 (leaves_of self.now.mode) (W.words w.old) }
        requires place { StandsAt self.now.pages self.now.root.0 (W.words w.old) (At (leaves_of self.now.mode) g.0) place }
        requires allowed { AllAllowed (W.allows (W.guard w.old)) (W.words w.old)
            (leaf_stores self.now.pages self.now.root.0 (leaves_of self.now.mode) (W.words w.old) g.0 leaf) }
        ensures stores { W.words w.new ≡ stored (W.words w.old)
            (leaf_stores self.now.pages self.now.root.0 (leaves_of self.now.mode) (W.words w.old) g.0 leaf) }
        ensures leaf { ChangesLeaf self.now.pages self.now.root.0 (leaves_of self.now.mode) (W.words w.old) (W.words w.new) g.0 leaf }
        ensures links { KeepsLinks self.now.pages self.now.root.0 (leaves_of self.now.mode) (W.words w.old) (W.words w.new) }
        ensures guard { W.guard w.new ≡ W.guard w.old }
    {
        w.set(place, leaf);
    }

    // the word of a guest page's leaf
    fn leaf<W: Words>(&self, w: &mut W, g: Gpn) -> u64
        requires guest { g.0 < guest_limit self.now.mode }
        requires tree { IsTree self.now.pages self.now.root.0 (leaves_of self.now.mode) (W.words w.old) }
        ensures leaf { result ≡ leaf_at self.now.pages self.now.root.0 (leaves_of self.now.mode) (W.words w.old) g.0 }
        ensures within { IsLeaf result }
        ensures unchanged { Unchanged W.words W.clean W.guard w.old w.new }
    {
        self.entry(w, self.mode.leaves(), g.0)
    }

    // how many tables are missing for mappings of the k slots at a depth from the n-th on
    fn lacked<W: Words>(&self, w: &mut W, depth: u32, n: u64, k: u32) -> u32
        requires depth { depth ≤ leaves_of self.now.mode }
        requires slots { n + k ≤ slots_at depth }
        requires tree { IsTree self.now.pages self.now.root.0 (leaves_of self.now.mode) (W.words w.old) }
        ensures lacked { result ≡ tables_lacked self.now.pages self.now.root.0 (W.words w.old) depth n k }
        ensures most { result ≤ k + 2 * depth }
        ensures unchanged { Unchanged W.words W.clean W.guard w.old w.new }
    {
        if depth == 0 {
            return 0;
        }
        if k == 0 {
            return 0;
        }
        let first = n / 512;
        let blocks = ((n + u64::from(k - 1)) / 512 + 1 - first) as u32;
        self.absent(w, depth - 1, first, blocks) + self.lacked(w, depth - 1, first, blocks)
    }

    // how many of the k slots at a depth from the n-th on have no entry
    fn absent<W: Words>(&self, w: &mut W, depth: u32, n: u64, k: u32) -> u32
        requires depth { depth ≤ leaves_of self.now.mode }
        requires slots { n + k ≤ slots_at depth }
        requires tree { IsTree self.now.pages self.now.root.0 (leaves_of self.now.mode) (W.words w.old) }
        ensures absent { result ≡ absent_among self.now.pages self.now.root.0 (W.words w.old) depth n k }
        ensures most { result ≤ k }
        ensures unchanged { Unchanged W.words W.clean W.guard w.old w.new }
    {
        let mut absent = 0;
        for i in 0..k {
            absent += flag(self.entry(w, depth, n + u64::from(i)) == 0);
        }
        absent
    }

    // the entry of a slot
    fn entry<W: Words>(&self, w: &mut W, depth: u32, n: u64) -> u64
        requires depth { depth ≤ leaves_of self.now.mode }
        requires slot { n < slots_at depth }
        requires tree { IsTree self.now.pages self.now.root.0 (leaves_of self.now.mode) (W.words w.old) }
        ensures entry { result ≡ entry_in self.now.pages self.now.root.0 (W.words w.old) depth n }
        ensures unchanged { Unchanged W.words W.clean W.guard w.old w.new }
    {
        match depth {
            0 => w.get(self.root_word(n as u32)),
            1 => self.entry_1(w, n),
            2 => self.entry_2(w, n),
            _ => self.entry_3(w, n),
        }
    }

    // the entry of a slot below the root's
    fn entry_1<W: Words>(&self, w: &mut W, n: u64) -> u64
        requires depth { 1 ≤ leaves_of self.now.mode }
        requires slot { n < slots_at 1 }
        requires tree { IsTree self.now.pages self.now.root.0 (leaves_of self.now.mode) (W.words w.old) }
        ensures entry { result ≡ entry_in self.now.pages self.now.root.0 (W.words w.old) 1 n }
        ensures unchanged { Unchanged W.words W.clean W.guard w.old w.new }
    {
        let table = w.get(self.root_word((n / 512) as u32));
        self.below(w, table, (n % 512) as u32)
    }

    // the entry of a slot two tables below the root
    fn entry_2<W: Words>(&self, w: &mut W, n: u64) -> u64
        requires depth { 2 ≤ leaves_of self.now.mode }
        requires slot { n < slots_at 2 }
        requires tree { IsTree self.now.pages self.now.root.0 (leaves_of self.now.mode) (W.words w.old) }
        ensures entry { result ≡ entry_in self.now.pages self.now.root.0 (W.words w.old) 2 n }
        ensures unchanged { Unchanged W.words W.clean W.guard w.old w.new }
    {
        let table = self.entry_1(w, n / 512);
        self.below(w, table, (n % 512) as u32)
    }

    // the entry of a slot three tables below the root
    fn entry_3<W: Words>(&self, w: &mut W, n: u64) -> u64
        requires depth { 3 ≤ leaves_of self.now.mode }
        requires slot { n < slots_at 3 }
        requires tree { IsTree self.now.pages self.now.root.0 (leaves_of self.now.mode) (W.words w.old) }
        ensures entry { result ≡ entry_in self.now.pages self.now.root.0 (W.words w.old) 3 n }
        ensures unchanged { Unchanged W.words W.clean W.guard w.old w.new }
    {
        let table = self.entry_2(w, n / 512);
        self.below(w, table, (n % 512) as u32)
    }

    // the word of a guest page's leaf, by counted loads
    fn load<W: Words, L: Ledger>(&self, w: &mut W, g: Gpn, steps: &mut Steps<L>) -> u64
        requires guest { g.0 < guest_limit self.now.mode }
        requires tree { IsTree self.now.pages self.now.root.0 (leaves_of self.now.mode) (W.words w.old) }
        ensures leaf { result ≡ leaf_at self.now.pages self.now.root.0 (leaves_of self.now.mode) (W.words w.old) g.0 }
        ensures steps { steps.new ≤ steps.old + 1 + leaves_of self.now.mode }
        ensures unchanged { Unchanged W.words W.clean W.guard w.old w.new }
    {
        match self.mode {
            Mode::Sv39x4 => self.load_2(w, g.0, steps),
            Mode::Sv48x4 => self.load_3(w, g.0, steps),
        }
    }

    // the entry of a slot below the root's, by counted loads
    fn load_1<W: Words, L: Ledger>(&self, w: &mut W, n: u64, steps: &mut Steps<L>) -> u64
        requires depth { 1 ≤ leaves_of self.now.mode }
        requires slot { n < slots_at 1 }
        requires tree { IsTree self.now.pages self.now.root.0 (leaves_of self.now.mode) (W.words w.old) }
        ensures entry { result ≡ entry_in self.now.pages self.now.root.0 (W.words w.old) 1 n }
        ensures steps { steps.new ≤ steps.old + 2 }
        ensures unchanged { Unchanged W.words W.clean W.guard w.old w.new }
    {
        steps.tick();
        let table = w.get(self.root_word((n / 512) as u32));
        steps.tick();
        self.below(w, table, (n % 512) as u32)
    }

    // the same two tables below the root
    fn load_2<W: Words, L: Ledger>(&self, w: &mut W, n: u64, steps: &mut Steps<L>) -> u64
        requires depth { 2 ≤ leaves_of self.now.mode }
        requires slot { n < slots_at 2 }
        requires tree { IsTree self.now.pages self.now.root.0 (leaves_of self.now.mode) (W.words w.old) }
        ensures entry { result ≡ entry_in self.now.pages self.now.root.0 (W.words w.old) 2 n }
        ensures steps { steps.new ≤ steps.old + 3 }
        ensures unchanged { Unchanged W.words W.clean W.guard w.old w.new }
    {
        let table = self.load_1(w, n / 512, steps);
        steps.tick();
        self.below(w, table, (n % 512) as u32)
    }

    // the same three tables below the root
    fn load_3<W: Words, L: Ledger>(&self, w: &mut W, n: u64, steps: &mut Steps<L>) -> u64
        requires depth { 3 ≤ leaves_of self.now.mode }
        requires slot { n < slots_at 3 }
        requires tree { IsTree self.now.pages self.now.root.0 (leaves_of self.now.mode) (W.words w.old) }
        ensures entry { result ≡ entry_in self.now.pages self.now.root.0 (W.words w.old) 3 n }
        ensures steps { steps.new ≤ steps.old + 4 }
        ensures unchanged { Unchanged W.words W.clean W.guard w.old w.new }
    {
        let table = self.load_2(w, n / 512, steps);
        steps.tick();
        self.below(w, table, (n % 512) as u32)
    }

    // the entry at i of the table that an entry names, or 0
    fn below<W: Words>(&self, w: &mut W, entry: u64, i: u32) -> u64
        requires word { i < 512 }
        requires size { 513 * self.now.pages ≤ length (W.words w.old) }
        requires link { IsLink self.now.pages self.now.root.0 entry }
        ensures entry { result ≡ below self.now.pages (W.words w.old) entry i }
        ensures unchanged { Unchanged W.words W.clean W.guard w.old w.new }
    {
        if entry == 0 {
            0
        } else {
            w.get(table_word(self.pages, Page((entry / 1024) as u32), i))
        }
    }

    // where an entry of the root stands
    fn root_word(&self, n: u32) -> u32
        requires slot { n < 2048 }
        requires root { self.now.root.0 + 4 ≤ self.now.pages }
        ensures { result ≡ table_word self.now.pages self.now.root.0 n }
    {
        table_word(self.pages, Page(self.root.0 + n / 512), n % 512)
    }
}

// stores 0 to k words that follow each other
fn clear_words<W: Words>(w: &mut W, first: u32, k: u32)
    requires places { first + k ≤ length (W.words w.old) }
    requires limit { first + k < 2 ^ 32 }
    requires allowed { AllAllowed (W.allows (W.guard w.old)) (W.words w.old) (fills first k 0) }
    ensures stores { W.words w.new ≡ stored (W.words w.old) (fills first k 0) }
    ensures guard { W.guard w.new ≡ W.guard w.old }
{
    for i in 0..k {
        w.set(first + i, 0);
    }
}

fn walked(fetch: bool, word: u64) -> Walked
    requires { IsLeaf word }
    ensures { WalksTo fetch word result }
{
    match decode(word) {
        Leaf::Present { page, shared } if !(fetch && shared) => Walked::Found(page),
        _ => Walked::Missing(word),
    }
}

fn flag(b: bool) -> u32
    ensures { result ≡ flag b }
{
    if b { 1 } else { 0 }
}
