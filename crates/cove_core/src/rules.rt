ghost use Rattle.cove_core.specs.KeptRule.{KeptHartsLive, KeptHartsUse, KeptIsBounded, KeptIsMonitored, NeededWalksLeaveAlone, StepsKeepLive};

/// The law of a history that is kept: the board's rule holds of its words, and of each hart that fits it. So each
/// host page that such a hart names, by its ring of host pages or by an unused walk, is one that the words let it use. And an entry that
/// a hart made leaves what holds of every other hart, and a walk that a hart needs what it knows of itself. It runs no
/// code.
pub fn kept_law()
    ensures monitored { KeptIsMonitored }
    ensures bounded { KeptIsBounded }
    ensures live { KeptHartsLive }
    ensures usable { KeptHartsUse }
    ensures steps { StepsKeepLive }
    ensures walks { NeededWalksLeaveAlone }
{}
