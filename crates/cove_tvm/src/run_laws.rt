ghost use Rattle.cove_tvm.specs.MappedRuns.{RunBegins, RunGoesOn};
ghost use Rattle.cove_tvm.specs.PrivateRuns.{MeasuredStands, MemoryIsLawful, MemoryMayMap, ZeroStands};
ghost use Rattle.cove_tvm.specs.SharedRuns.{CountsMayMap, SharedStands};

/// The law of runs of guest pages, which runs no code: a run is mapped one guest page after another, by lawful stores; and
/// where free pages were given to a TVM, filled with zeros or with measured words of the host's, and mapped, or where the
/// counts of pages of the host's were raised and these are mapped, words and ground stand for the state after the call,
/// whichever harts are inside TVMs.
pub fn run_law()
    ensures begins { RunBegins }
    ensures goes_on { RunGoesOn }
    ensures lawful { MemoryIsLawful }
    ensures may_map { MemoryMayMap }
    ensures zero { ZeroStands }
    ensures measured { MeasuredStands }
    ensures counts { CountsMayMap }
    ensures shared { SharedStands }
{}
