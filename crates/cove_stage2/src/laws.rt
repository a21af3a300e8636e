ghost use Rattle.cove_stage2.specs.LawfulTables.{BlockIsLawful, ClearIsLawful, LeafKeepsGiven, MapIsLawful, MapKeepsGiven, UnblockIsLawful, UnmapIsLawful};

/// The stores of each call on tables are lawful, on whatever words they are made: those of a mapping, one after another,
/// the store of a leaf, and those that clear a page. And a mapping or the store of a leaf leaves the TVM its tables. It
/// runs no code.
pub fn table_stores_law()
    ensures map { MapIsLawful }
    ensures block { BlockIsLawful }
    ensures unblock { UnblockIsLawful }
    ensures unmap { UnmapIsLawful }
    ensures clear { ClearIsLawful }
    ensures map_given { MapKeepsGiven }
    ensures leaf_given { LeafKeepsGiven }
{}
