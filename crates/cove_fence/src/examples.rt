//! Worked examples, which the checker computes: what the definitions in the contracts of `TvmEpochs` say yes to, and what they
//! say no to.

ghost use Rattle.std.specs.Prelude.{◌≡◌, [], ◌∷◌};
ghost use Rattle.cove_fence.specs.Examples.{one_inside, places_of_two};
ghost use Rattle.cove_fence.specs.TvmFences.{AreInsideFrom, HasPassed, IsInsideBelow, fence_stores, number_place, seat_number, seat_place, seat_tvm, tvm_number};

/// What stands where: the numbers of TVMs, and the words of harts, by which one is inside TVM 1 and one is outside.
pub fn worked_seats()
    ensures number_place { number_place places_of_two 1 ≡ 4 }
    ensures seat_place { seat_place places_of_two 1 ≡ 69 }
    ensures number { tvm_number places_of_two one_inside 1 ≡ 5 }
    ensures no_fence { tvm_number places_of_two one_inside 2 ≡ 0 }
    ensures inside { seat_tvm places_of_two one_inside 1 ≡ 1 }
    ensures outside { seat_tvm places_of_two one_inside 0 ≡ 0 }
    ensures entered { seat_number places_of_two one_inside 1 ≡ 3 }
    ensures not_entered { seat_number places_of_two one_inside 0 ≡ 0 }
{}

/// The hart inside entered with number 3: a fence since number 2 is complete, and one since number 3 is not; of TVM 2 none began.
pub fn worked_tvm_fences()
    ensures below { IsInsideBelow places_of_two one_inside 1 4 1 }
    ensures not_below { IsInsideBelow places_of_two one_inside 1 3 1 → ⊥ }
    ensures of_another { IsInsideBelow places_of_two one_inside 2 4 1 → ⊥ }
    ensures no_hart { IsInsideBelow places_of_two one_inside 0 1 2 → ⊥ }
    ensures from { AreInsideFrom places_of_two one_inside 1 3 2 }
    ensures not_from { AreInsideFrom places_of_two one_inside 1 4 2 → ⊥ }
    ensures from_before { AreInsideFrom places_of_two one_inside 1 4 1 }
    ensures passed { HasPassed places_of_two one_inside 1 2 }
    ensures still_inside { HasPassed places_of_two one_inside 1 3 → ⊥ }
    ensures not_begun { HasPassed places_of_two one_inside 2 0 → ⊥ }
    ensures begins { fence_stores places_of_two one_inside 1 ≡ (4, 6) ∷ [] }
    ensures begins_first { fence_stores places_of_two one_inside 2 ≡ (5, 1) ∷ [] }
{}
