//! What the records that callers read say, part by part, in the words of the crates below; and worked cases.

ghost use Rattle.std.specs.Prelude.{◌≡◌, ◌≢◌, ◌<◌, ◌⊎◌, ◌+◌, ◌++◌, [], ◌∷◌, ℕ, List, IsSome, None, Some, length, slice_index, slice_set};
ghost use Rattle.cove_base.specs.HartPlaces.{IsNextPlace};
ghost use Rattle.cove_base.specs.HartValues.{HartValue};
ghost use Rattle.cove_base.specs.PageWords.{IsHostWord};
ghost use Rattle.cove_base.specs.Places.{count_word, page_word};
ghost use Rattle.cove_base.specs.Rings.{found};
ghost use Rattle.cove_base.specs.declared.events.How.{How};
ghost use Rattle.cove_base.specs.declared.numbers.Page.{Page};
ghost use Rattle.cove_base.specs.declared.walks.Target.TheVariants.{Host};
ghost use Rattle.cove_core.specs.Kept.{IsKept};
ghost use Rattle.cove_core.specs.Made.{IsMade, Making};
ghost use Rattle.cove_model.specs.BoardRule.{HasFound};
ghost use Rattle.cove_model.specs.Cached.{IsCached};
ghost use Rattle.cove_model.specs.Fits.{Fits};
ghost use Rattle.cove_model.specs.Histories.{Legal, after};
ghost use Rattle.cove_model.specs.LawfulCounts.{IsCountable};
ghost use Rattle.cove_model.specs.LawfulStores.{MakesLawful};
ghost use Rattle.cove_model.specs.Owners.{holder, page_at};
ghost use Rattle.cove_model.specs.States.{ended_by};
ghost use Rattle.cove_model.specs.Steps.{IsStep};
ghost use Rattle.cove_model.specs.Translations.{Came, Failed, touched};
ghost use Rattle.cove_model.specs.WordsStand.{FencesWithin};
ghost use Rattle.cove_tvm.specs.Stands.{Stands};

use crate::monitors::Mon;
use cove_base::Script;

/// What a monitor keeps of its history between two entries.
pub fn histories_that_are_kept(script: &Script, mon: &Mon)
    ghost words: { List ℕ }
    requires { IsKept script.now words mon.now }
    ensures board { (mon.now.ground.pages ≡ script.now.pages) × (mon.now.ground.harts ≡ script.now.harts) }
    ensures legal { Legal script.now mon.now.history }
    ensures cached { IsCached script.now mon.now.history }
    ensures stands { Stands words mon.now.ground (after script.now mon.now.history) }
    ensures progress { (hart : ℕ) → hart < script.now.harts → IsNextPlace script.now hart
        (ended_by (after script.now mon.now.history) hart) (slice_index mon.now.progress hart) }
    ensures count { slice_index words (count_word script.now.pages script.now.harts) ≡ length mon.now.history }
    ensures fences { FencesWithin script.now.pages script.now.harts words (length mon.now.history) }
{}

/// What an entry of a hart leaves.
pub fn entries_that_are_made()
    ghost of: { Making }
    requires { IsMade of.script of.before of.now of.old of.new of.held of.left of.entry }
    ensures by { (of.entry.hart.0 ≡ of.held.hart) × (of.left.hart ≡ of.held.hart) }
    ensures step { IsStep of.script (after of.script of.old.history) of.entry (after of.script of.new.history) }
    ensures grown { of.new.history ≡ of.old.history ++ of.entry ∷ [] }
    ensures kept { IsKept of.script of.now of.new }
    ensures fits { Fits of.script of.new.history of.left }
    ensures others { (other : HartValue) → other.hart ≢ of.held.hart
        → Fits of.script of.old.history other → Fits of.script of.new.history other }

    // A success had its page in the hart's ring, or the host's by the words at the call; a fault had it in no ring.
    ensures came { (page : Page) (how : How)
        → touched (after of.script of.old.history) of.held.hart of.entry.event ≡ Some (Host page, Came how)
        → IsSome (found page.0 of.held.rings.hosts) ⊎ IsHostWord (slice_index of.before (page_word page.0)) }
    ensures failed { (page : Page)
        → touched (after of.script of.old.history) of.held.hart of.entry.event ≡ Some (Host page, Failed)
        → found page.0 of.held.rings.hosts ≡ None }

    // No ring and no unused walk of any hart that fits names a page that changed hands.
    ensures clear { (p : ℕ)
        → holder (page_at (after of.script (of.old.history ++ of.entry ∷ [])).pages p)
        ≢ holder (page_at (after of.script of.old.history).pages p)
        → (found p of.left.rings.hosts ≡ None) × (HasFound of.left.walked p → ⊥) }
    ensures others_clear { (other : HartValue) (p : ℕ) → other.hart ≢ of.held.hart → Fits of.script of.old.history other
        → holder (page_at (after of.script (of.old.history ++ of.entry ∷ [])).pages p)
        ≢ holder (page_at (after of.script of.old.history).pages p)
        → (found p other.rings.hosts ≡ None) × (HasFound other.walked p → ⊥) }
    ensures stores { (stored : List ℕ)
        × MakesLawful of.script.pages of.script.harts of.held.hart of.before of.before stored
        × IsCountable of.script of.old.history of.held.hart stored of.entry
        × (of.now ≡ slice_set stored (count_word of.script.pages of.script.harts) (length of.old.history + 1)) }
{}
