ghost use Rattle.cove_tvm.specs.DestroyedTvms.{DestroyStands};

/// The law of the end of a TVM, which runs no code: where its table words are gone, its pages taken back and the counts those of
/// the leaves that are left, words and ground stand for the state after it was destroyed.
pub fn destroy_law()
    ensures stands { DestroyStands }
{}
