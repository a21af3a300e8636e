ghost use Rattle.cove_tvm.specs.MissingTables.{MissingTablesAgree};

/// The law of missing tables, which runs no code: how many table pages a TVM misses for mappings of a run of guest pages is how
/// many its tables lack, but for those of its pool.
pub fn missing_law()
    ensures { MissingTablesAgree }
{}
