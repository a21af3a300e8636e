//! What words and ground stand for at the opening, and what leaves it.
ghost use Rattle.cove_tvm.specs.BuiltTvms.{FinalizeStands, RegionStands};
ghost use Rattle.cove_tvm.specs.GroundLaws.{ConvertStands, GlobalFenceStands, LocalFenceStands, OpeningStands, OwnersChangeStands, ReclaimStands};
ghost use Rattle.cove_tvm.specs.Leaves.{LeftTvmsStand};
ghost use Rattle.cove_tvm.specs.NewTvms.{CreateIsLawful, CreateStands};
ghost use Rattle.cove_tvm.specs.OneTvm.{FieldsChangeStand, OneTvmStands};

/// The law of the opening, which runs no code: words of zeros and a new ground, without a TVM, stand for the opening state.
pub fn opening_law()
    ensures { OpeningStands }
{}

/// The law of what leaves TVMs, which runs no code: words that leave a TVM's pages, tables and harts leave it standing; so does
/// a call on one other TVM, a change of one TVM's fields, a change of owners, and each accepted call on owners.
pub fn frame_law()
    ensures tvm { LeftTvmsStand }
    ensures one { OneTvmStands }
    ensures fields { FieldsChangeStand }
    ensures owners { OwnersChangeStands }
    ensures convert { ConvertStands }
    ensures global_fence { GlobalFenceStands }
    ensures local_fence { LocalFenceStands }
    ensures reclaim { ReclaimStands }
{}

/// The law of the creation of a TVM, which runs no code: words and ground stand for the state after it, and its stores are
/// lawful, whichever harts are inside other TVMs.
pub fn creation_law()
    ensures stands { CreateStands }
    ensures lawful { CreateIsLawful }
{}

/// The law of the calls that build a TVM, which runs no code: where its regions stand for those with one more, or its registers
/// are extended by the finalize record and its vCPUs started, words and ground stand for the state after the call.
pub fn building_law()
    ensures region { RegionStands }
    ensures finalize { FinalizeStands }
{}
