ghost use Rattle.cove_tvm.specs.MoreTables.{TablesAreLawful, TablesFit, TablesStand};

/// The law of more table pages, which runs no code: words and ground stand for the state after they were given to a TVM, their
/// stores are lawful, whichever harts are inside TVMs, and its pool has room for them.
pub fn tables_law()
    ensures stands { TablesStand }
    ensures lawful { TablesAreLawful }
    ensures fits { TablesFit }
{}
