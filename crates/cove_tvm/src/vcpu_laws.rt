ghost use Rattle.cove_tvm.specs.NewVcpus.{AddingIsLawful, AddingStands};

/// The law of one more vCPU, which runs no code: words and ground stand for the state after a page was given for it, and its
/// store is lawful, whichever harts are inside TVMs.
pub fn vcpu_law()
    ensures stands { AddingStands }
    ensures lawful { AddingIsLawful }
{}
