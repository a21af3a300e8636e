ghost use Rattle.cove_base.specs.Stores.{StoresKeepLength, StoresKeepOthers, StoresAppend, FillsWrite, FillsKeepOthers};

/// The law of lists of stores, which runs no code.
pub fn stores_law()
    ensures length { StoresKeepLength }
    ensures others { StoresKeepOthers }
    ensures append { StoresAppend }
    ensures fills { FillsWrite }
    ensures fills_others { FillsKeepOthers }
{}
