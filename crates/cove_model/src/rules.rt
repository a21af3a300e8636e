ghost use Rattle.cove_model.specs.BoardRule.{CountsKeepRule, FittingHartsLive, FittingHartsUse, ListsKeepRule, LiveWalksWereRight, OpeningKeepsRule, RestingHartsLive, StoresKeepRule, StoresKeepWalks, WalksKeepRule};
ghost use Rattle.cove_model.specs.FitsAlone.{FitsFitAlone, OthersLeaveAlone, RuledHartsFit, WalksLeaveAlone};
ghost use Rattle.cove_model.specs.TableLaw.{CountsKeepGuests, ListsKeepGuests, StoresCountShared, StoresKeepEntered, StoresKeepGuests, StoresKeepOwned, StoresKeepPresent, ZerosKeepOwned};

/// The store law. While a hart is held, each lawful store that it makes, and each list of them, keeps what holds of
/// the harts: each host page that the ring of a hart names, or that its unused walk found, is one that it may use by the
/// words, or that was the host's since its last entry. Of the hart that stores, all but its answered number keeps it.
/// So does the load of a walk between any two stores, and so does the store of the count, for an entry that may be
/// made. It runs no code.
pub fn store_law()
    ensures store { StoresKeepRule }
    ensures walks { StoresKeepWalks }
    ensures walk { WalksKeepRule }
    ensures stores { ListsKeepRule }
    ensures count { CountsKeepRule }
{}

/// The store law for harts inside TVMs. Each lawful store of one hart, each list of them, and the store of the count keeps
/// what every other hart inside a TVM relies on: its word, the root, the tables on its way, and each leaf that its rings may name. It keeps the
/// tables of such a TVM owned, whoever makes it, and a leaf that is present stays so, or was so at the last entry. While a
/// TVM is destroyed its words become 0 in any order. And it says how the count of leaves that name a page as shared moves.
/// It runs no code.
pub fn table_law()
    ensures guests { StoresKeepGuests }
    ensures lists { ListsKeepGuests }
    ensures count { CountsKeepGuests }
    ensures owned { StoresKeepOwned }
    ensures entered { StoresKeepEntered }
    ensures present { StoresKeepPresent }
    ensures destroyed { ZerosKeepOwned }
    ensures shared { StoresCountShared }
{}

/// The law of the boundary between two entries, where no store is pending. What the rule says of a hart holds of each
/// hart that fits the history, and of each that has just its translations: each host page that its ring names, or that
/// its unused walk found, is one that it may use by the words. And what an unused walk found by the rule was the host's
/// since its hart's last entry. At the opening the rule holds. It runs no code.
pub fn boundary_law()
    ensures live { FittingHartsLive }
    ensures resting { RestingHartsLive }
    ensures usable { FittingHartsUse }
    ensures walks { LiveWalksWereRight }
    ensures opening { OpeningKeepsRule }
{}

/// The law of a hart that others leave alone. It keeps what it knows of itself through their entries, and through a
/// walk of its own; and where no store is pending, the rule gives back that it fits. It runs no code.
pub fn alone_law()
    ensures fits { FitsFitAlone }
    ensures others { OthersLeaveAlone }
    ensures walks { WalksLeaveAlone }
    ensures ruled { RuledHartsFit }
{}
