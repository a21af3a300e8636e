ghost use Rattle.std.specs.Prelude.{◌≡◌, ◌<◌, ◌^◌, ◌↔◌, IfSome, IsSome};
ghost use Rattle.cove_base.specs.Tables.{IsLeaf, present};
ghost use Rattle.cove_stage2.specs.Entries.{leaf_word, IsBoundedLeaf, entry_word, IsBoundedEntry, IsEntryWord};

use cove_base::Page;

/// What a last table says of a guest page.
#[derive(Clone, Copy)]
pub enum Leaf {
    /// Nothing is mapped there.
    Absent,
    /// Mapped to a page: of the TVM's own, or of the host's and shared.
    Present {
        page: Page,
        shared: bool,
    },
    /// Mapped, but blocked since the TVM had a number.
    Blocked {
        page: Page,
        shared: bool,
        since: u64,
    },
}

/// What a word of a table says.
#[derive(Clone, Copy)]
pub enum TableEntry {
    /// An entry of a last table; an entry that is 0 at any level.
    Leaf(Leaf),
    /// The table at the next level.
    Next(Page),
}

/// The word of a leaf.
pub fn encode(leaf: Leaf) -> u64
    requires { IsBoundedLeaf leaf }
    ensures { result ≡ leaf_word leaf }
{
    match leaf {
        Leaf::Absent => 0,
        Leaf::Present { page, shared } => present(page, shared),
        Leaf::Blocked {
            page,
            shared,
            since,
        } => present(page, shared) + 0xFF + 0x400_0000 * since,
    }
}

/// The entry of which this is the word, where it is the word of one.
pub fn decode_entry(word: u64) -> Option<TableEntry>
    ensures word { IfSome result (λ entry. entry_word entry ≡ word) }
    ensures within { IfSome result IsBoundedEntry }
    ensures exact { IsSome result ↔ IsEntryWord word }
{
    if word == 0 {
        return Some(TableEntry::Leaf(Leaf::Absent));
    }
    let page = Page((word / 1024 % 0x1_0000) as u32);
    match word % 1024 {
        0x001 if word < 0x400_0000 => Some(TableEntry::Next(page)),
        0x0DF if word < 0x400_0000 => Some(present_entry(page, false)),
        0x0D7 if word < 0x400_0000 => Some(present_entry(page, true)),
        0x1DE if word < 0x400_0000_0000_0000 => Some(blocked_entry(page, false, word / 0x400_0000)),
        0x1D6 if word < 0x400_0000_0000_0000 => Some(blocked_entry(page, true, word / 0x400_0000)),
        _ => None,
    }
}

/// The leaf of which this is the word.
pub fn decode(word: u64) -> Leaf
    requires { IsLeaf word }
    ensures word { leaf_word result ≡ word }
    ensures within { IsBoundedLeaf result }
{
    match decode_entry(word) {
        Some(TableEntry::Leaf(leaf)) => leaf,
        Some(TableEntry::Next(_)) => Leaf::Absent,
        None => Leaf::Absent,
    }
}

fn present(page: Page, shared: bool) -> u64
    requires { page.0 < 2 ^ 16 }
    ensures { result ≡ present page.0 shared }
{
    1024 * page.0 as u64 + if shared { 0xD7 } else { 0xDF }
}

fn present_entry(page: Page, shared: bool) -> TableEntry
    ensures { result ≡ TableEntry.Leaf (Leaf.Present page shared) }
{
    TableEntry::Leaf(Leaf::Present { page, shared })
}

fn blocked_entry(page: Page, shared: bool, since: u64) -> TableEntry
    ensures { result ≡ TableEntry.Leaf (Leaf.Blocked page shared since) }
{
    TableEntry::Leaf(Leaf::Blocked {
        page,
        shared,
        since,
    })
}
