ghost use Rattle.std.specs.Prelude.{◌≡◌, ◌+◌, ◌<◌, ◌≤◌, IfOk, false};
ghost use Rattle.cove_base.specs.Modes.{guest_limit, leaves_of};
ghost use Rattle.cove_base.specs.Tables.{IsTree, leaf_at, present};

use cove_base::{Gpn, Mode, NoMemory, Page, Plain, Steps, Walked, Words, mode_of};
use cove_stage2::{Leaf, Pool, TableEntry, Tables, decode_entry, encode};
use std::alloc::Global;
use std::marker::Brand;
use std::sync::ledger::{Blank, Ledger};
use std::test::Fail;

#[test]
fn entries_are_words(rt: HostRuntime) -> Result<(), Fail> {
    let blocked = Leaf::Blocked {
        page: Page(3),
        shared: true,
        since: 2,
    };
    let word = encode(blocked);
    assert_eq!(rt; word, 0x8000DD6);
    assert!(rt;
        matches!(
            decode_entry(word),
            Some(TableEntry::Leaf(Leaf::Blocked {
                page: Page(3),
                shared: true,
                since: 2
            }))
        )
    );
    assert!(rt; matches!(decode_entry(0x1401), Some(TableEntry::Next(Page(5)))));
    assert!(rt; decode_entry(2).is_none());
    Ok(())
}

// The tables of a board of 16 pages below a root at page 4, of three levels and of four.
const THREE_LEVELS: Tables = Tables {
    root: Page(4),
    pages: 16,
    mode: Mode::Sv39x4,
};

const FOUR_LEVELS: Tables = Tables {
    root: Page(4),
    pages: 16,
    mode: Mode::Sv48x4,
};

// The words of a board of 16 pages after two pages were mapped, below a root at page 4 and with two pages for tables.
fn two_mapped(alloc: Global) -> Result<Plain, NoMemory>
    ensures tree { IfOk result (λ words. IsTree 16 4 2 words) }
    ensures second { IfOk result (λ words. leaf_at 16 4 2 words 17 ≡ present 11 false) }
{
    let mut words = Plain::new(alloc, 8208)?;
    let mut pool = Pool::new(alloc, 2)?;
    pool.add(Page(8));
    pool.add(Page(9));
    THREE_LEVELS.map(&mut words, Gpn(16), Page(10), false, &mut pool);
    THREE_LEVELS.map(&mut words, Gpn(17), Page(11), false, &mut pool);
    Ok(words)
}

// Whether `find` and the walk of a fetch, of a load more than there are levels below the root, both come to a page, private and
// present.
fn comes_to<L: Ledger>(
    words: &mut Plain,
    tables: Tables,
    g: Gpn,
    page: Page,
    steps: &mut Steps<L>,
) -> bool
    requires guest { g.0 < guest_limit tables.mode }
    requires tree { IsTree tables.pages tables.root.0 (leaves_of tables.mode) words.old }
    ensures words { words.new ≡ words.old }
    ensures loads { steps.new ≤ steps.old + 1 + leaves_of tables.mode }
{
    let leaf = tables.find(words, g);
    let walked = tables.walk(words, g, true, steps);
    found(leaf, page) && matches!(walked, Walked::Found(walked) if walked.0 == page.0)
}

fn found(leaf: Leaf, page: Page) -> bool {
    matches!(leaf, Leaf::Present { page: at, shared: false } if at.0 == page.0)
}

// Whether both guest pages come to their pages, and the guest page behind them to none.
fn both_found<L: Ledger>(words: &mut Plain, blank: Blank) -> bool
    requires name { blank.name ≡ L.name }
    requires parts { blank.parts ≡ L.parts }
    requires some { 0 < L.parts }
    requires tree { IsTree 16 4 2 words.old }
    ensures { words.new ≡ words.old }
{
    let mut steps = Steps::<L>::new(blank);
    let first = comes_to(words, THREE_LEVELS, Gpn(16), Page(10), &mut steps);
    let second = comes_to(words, THREE_LEVELS, Gpn(17), Page(11), &mut steps);
    let behind = comes_to(words, THREE_LEVELS, Gpn(18), Page(0), &mut steps);
    first && second && !behind
}

#[test]
fn two_measured_pages_are_mapped(rt: HostRuntime) -> Result<(), Fail> {
    let mut words = two_mapped(rt.alloc())?;
    assert!(rt; both_found::<Brand>(&mut words, Blank::new(1)));
    let root = words.get(2064);
    assert_eq!(rt; root % 0x400, 1);
    assert_eq!(rt; root, 0x2401);
    assert_eq!(rt; words.get(4624), 0x2001);
    assert_eq!(rt; words.get(4128), 0x28DF);
    assert_eq!(rt; words.get(4129), 0x2CDF);
    Ok(())
}

// How many tables runs of guest pages lack: of two pages, across a boundary of 512, behind it, and across one of 2 ^ 18.
fn needs(words: &mut Plain, tables: Tables) -> [u32; 4]
    requires tree { IsTree tables.pages tables.root.0 (leaves_of tables.mode) words.old }
    ensures { words.new ≡ words.old }
{
    let mapped = tables.need(words, Gpn(16), 2);
    let across = tables.need(words, Gpn(510), 4);
    let behind = tables.need(words, Gpn(512), 1024);
    [mapped, across, behind, tables.need(words, Gpn(0x3_FFFF), 2)]
}

// The word of guest page 17 after it was blocked, after it was unblocked, and after it was blocked again and unmapped.
fn leaf_words(words: &mut Plain, tables: Tables) -> [u64; 3]
    requires pages { tables.pages ≡ 16 }
    requires mode { leaves_of tables.mode ≡ 2 }
    requires tree { IsTree tables.pages tables.root.0 (leaves_of tables.mode) words.old }
    requires leaf { leaf_at tables.pages tables.root.0 (leaves_of tables.mode) words.old 17 ≡ present 11 false }
    ensures { IsTree tables.pages tables.root.0 (leaves_of tables.mode) words.new }
{
    tables.block(words, Gpn(17), 5);
    let blocked = words.get(4129);
    tables.unblock(words, Gpn(17));
    let unblocked = words.get(4129);
    tables.block(words, Gpn(17), 6);
    tables.unmap(words, Gpn(17));
    [blocked, unblocked, words.get(4129)]
}

// A table is lacked once by all guest pages that it would serve; a leaf changes alone; and a cleared page is zeros.
#[test]
fn one_leaf_changes_and_a_page_is_cleared(rt: HostRuntime) -> Result<(), Fail> {
    let mut words = two_mapped(rt.alloc())?;
    assert_eq!(rt; needs(&mut words, THREE_LEVELS), [0, 1, 2, 3]);
    assert_eq!(rt;
        leaf_words(&mut words, THREE_LEVELS),
        [0x1400_2DDE, 0x2CDF, 0]
    );
    assert_eq!(rt; words.get(4128), 0x28DF);
    words.set(4111, 7);
    words.set(4623, 7);
    THREE_LEVELS.clear(&mut words, Page(8));
    assert_eq!(rt; words.get(4111), 7);
    assert_eq!(rt; words.get(4128), 0);
    assert_eq!(rt; words.get(4623), 0);
    assert_eq!(rt; words.get(4624), 0x2001);
    Ok(())
}

// The words of such a board after a page was mapped in four levels with three pages for tables: its guest page has the numbers
// 4, 3, 5 and 17 in them.
fn deep_mapped(alloc: Global) -> Result<Plain, NoMemory>
    ensures tree { IfOk result (λ words. IsTree 16 4 3 words) }
{
    let mut words = Plain::new(alloc, 8208)?;
    let mut pool = Pool::new(alloc, 3)?;
    pool.add(Page(8));
    pool.add(Page(9));
    pool.add(Page(10));
    FOUR_LEVELS.map(&mut words, Gpn(0x200C_0A11), Page(11), false, &mut pool);
    Ok(words)
}

// Whether that guest page comes to its page, and one that differs in one number alone to none, whichever it is.
fn alone_found<L: Ledger>(words: &mut Plain, blank: Blank) -> bool
    requires name { blank.name ≡ L.name }
    requires parts { blank.parts ≡ L.parts }
    requires some { 0 < L.parts }
    requires tree { IsTree 16 4 3 words.old }
    ensures { words.new ≡ words.old }
{
    let mut steps = Steps::<L>::new(blank);
    let here = comes_to(words, FOUR_LEVELS, Gpn(0x200C_0A11), Page(11), &mut steps);
    let root = comes_to(words, FOUR_LEVELS, Gpn(0x280C_0A11), Page(11), &mut steps);
    let upper = comes_to(words, FOUR_LEVELS, Gpn(0x2008_0A11), Page(11), &mut steps);
    let lower = comes_to(words, FOUR_LEVELS, Gpn(0x200C_0811), Page(11), &mut steps);
    let last = comes_to(words, FOUR_LEVELS, Gpn(0x200C_0A10), Page(11), &mut steps);
    here && !root && !upper && !lower && !last
}

// How many tables runs of two guest pages lack in four levels: from that guest page on, across a boundary of 512, across one of
// 2 ^ 18, and across one of 2 ^ 27; and one of the first guest page.
fn deep_needs(words: &mut Plain) -> [u32; 5]
    requires tree { IsTree 16 4 3 words.old }
    ensures { words.new ≡ words.old }
{
    let mapped = FOUR_LEVELS.need(words, Gpn(0x200C_0A11), 2);
    let last = FOUR_LEVELS.need(words, Gpn(0x200C_0BFF), 2);
    let lower = FOUR_LEVELS.need(words, Gpn(0x200F_FFFF), 2);
    let upper = FOUR_LEVELS.need(words, Gpn(0x27FF_FFFF), 2);
    [
        mapped,
        last,
        lower,
        upper,
        FOUR_LEVELS.need(words, Gpn(0), 1),
    ]
}

// A root's remainder asks for four levels, which are linked from the root down and lead to one guest page.
#[test]
fn a_page_is_mapped_in_four_levels(rt: HostRuntime) -> Result<(), Fail> {
    assert_eq!(rt; mode_of(0x4000).guest_limit(), 0x200_0000_0000 / 4096);
    assert_eq!(rt; mode_of(0x4001).guest_limit(), 0x4_0000_0000_0000 / 4096);
    let mut words = deep_mapped(rt.alloc())?;
    assert!(rt; alone_found::<Brand>(&mut words, Blank::new(1)));
    assert_eq!(rt; deep_needs(&mut words), [0, 1, 3, 5, 3]);
    assert_eq!(rt; words.get(2068), 0x2801);
    assert_eq!(rt; words.get(5139), 0x2401);
    assert_eq!(rt; words.get(4629), 0x2001);
    assert_eq!(rt; words.get(4129), 0x2CDF);
    Ok(())
}
