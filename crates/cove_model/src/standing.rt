ghost use Rattle.cove_model.specs.StoreLaw.{StoresKeepUsable, StoresKeepHost, StoresKeepAnswers, StoresKeepFences};
ghost use Rattle.cove_model.specs.WordLaws.{OpeningWordsStand, ConvertWordsStand, GlobalFenceWordsStand, LocalFenceWordsStand, ReclaimWordsStand, OthersLeaveOwners, CountLeavesWords};
ghost use Rattle.cove_model.specs.WordLaws.{ConvertKeepsFrames, GlobalFenceKeepsFrames, LocalFenceKeepsFrames, ReclaimZeroesFrames};
ghost use Rattle.cove_model.specs.WordLaws.{ConvertIsLawful, GlobalFenceIsLawful, LocalFenceIsLawful, ReclaimIsLawful};
ghost use Rattle.cove_model.specs.WordLaws.{WordsTellHost, WordsTellShared, WordsTellFree, WordsTellAnswered, WordsTellLowest, WordsAreWords};

/// The law of shared words that stand for a state: what each accepted call on owners stores leaves words that
/// stand for the definition's state, on any board. It runs no code.
pub fn words_law()
    ensures opening { OpeningWordsStand }
    ensures convert { ConvertWordsStand }
    ensures global_fence { GlobalFenceWordsStand }
    ensures local_fence { LocalFenceWordsStand }
    ensures reclaim { ReclaimWordsStand }

    // Stores of other words leave what stands.
    ensures others { OthersLeaveOwners }
    ensures count { CountLeavesWords }
{}

/// The law of what words that stand tell of the state. It runs no code.
pub fn telling_law()
    ensures host { WordsTellHost }
    ensures shared { WordsTellShared }
    ensures free { WordsTellFree }
    ensures answered { WordsTellAnswered }
    ensures lowest { WordsTellLowest }
    ensures words { WordsAreWords }
{}

/// The law of frames that stand for the host's memory, after each accepted call on owners. It runs no code.
pub fn frames_law()
    ensures convert { ConvertKeepsFrames }
    ensures global_fence { GlobalFenceKeepsFrames }
    ensures local_fence { LocalFenceKeepsFrames }
    ensures reclaim { ReclaimZeroesFrames }
{}

/// The law of lawful stores: the stores of each accepted call on owners are lawful, and what a lawful store
/// of one hart leaves of the pages that another may use. It runs no code.
pub fn lawful_law()
    ensures convert { ConvertIsLawful }
    ensures global_fence { GlobalFenceIsLawful }
    ensures local_fence { LocalFenceIsLawful }
    ensures reclaim { ReclaimIsLawful }

    // A lawful store, whatever call makes it.
    ensures usable { StoresKeepUsable }
    ensures stays { StoresKeepHost }
    ensures answers { StoresKeepAnswers }
    ensures fences { StoresKeepFences }
{}
