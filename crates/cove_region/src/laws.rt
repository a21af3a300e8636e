//! The law of guest pages that stand for those of the model.
ghost use Rattle.cove_region.specs.Standing.{AddedStand, AllPrivateAgrees, AllSharedAgrees, NoneStand, OutsideAgrees, OverlapAgrees, PrivateAgrees, RowsAgree, RowsWithAgree, RowsWithoutAgree, SharedAgrees, SharedStand, UnsharedStand};

/// The law of guest pages that stand for those of the model's TVM, which runs no code: their kinds, what a call is refused
/// for, and that they stand for the model's still after a call.
pub fn standing_law()
    ensures private { PrivateAgrees }
    ensures shared { SharedAgrees }
    ensures outside { OutsideAgrees }
    ensures overlap { OverlapAgrees }
    ensures all_private { AllPrivateAgrees }
    ensures all_shared { AllSharedAgrees }
    ensures rows { RowsAgree }
    ensures rows_with { RowsWithAgree }
    ensures rows_without { RowsWithoutAgree }
    ensures none { NoneStand }
    ensures adds { AddedStand }
    ensures shares { SharedStand }
    ensures unshares { UnsharedStand }
{}
