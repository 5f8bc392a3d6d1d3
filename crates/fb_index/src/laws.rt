//! What holds of indexes, plans and their texts. These calls do nothing: their contracts are the laws.
ghost use Rattle.std.specs.Prelude.{◌≡◌, ◌↔◌, ℕ, IsTrue, List};
ghost use Rattle.std.specs.Cmp.{IsTotalOrder};
ghost use Rattle.std.specs.declared.cmp.Ordering.TheVariants.{Equal};
ghost use Rattle.fb_index.specs.declared.fault.Fault.{Fault};
ghost use Rattle.fb_index.specs.Entry.{Occurrence};
ghost use Rattle.fb_index.specs.Index.{IsIndex, IsIndexText, index_cmp, index_text, same_index};
ghost use Rattle.fb_index.specs.Plan.{IsPlan, IsPlanRefusedAt, plan_text};
ghost use Rattle.fb_index.specs.Refusal.{IsRefusedAt};

/// The order of indexes is total, and only the same indexes are level in it.
pub fn index_order()
    ensures total { IsTotalOrder index_cmp }
    ensures level { (a : List Occurrence) (b : List Occurrence) → (index_cmp a b ≡ Equal) ↔ (a ≡ b) }
    ensures tested { (a : List Occurrence) (b : List Occurrence) → IsTrue (same_index a b) ↔ (a ≡ b) }
{}

/// A text is that of one index at most, so reading an index's text gives that index.
pub fn index_of_text()
    ensures { (a : List Occurrence) (b : List Occurrence) → IsIndex a → IsIndex b →
        index_text a ≡ index_text b → a ≡ b }
{}

/// A text is that of one plan at most, so reading a plan's text gives that plan.
pub fn plan_of_text()
    ensures { (a : List Fault) (b : List Fault) → IsPlan a → IsPlan b →
        plan_text a ≡ plan_text b → a ≡ b }
{}

/// Bytes are refused at one offset at most.
pub fn refusals_have_one_offset()
    ensures index { (bytes : List ℕ) (one other : ℕ) → IsRefusedAt IsIndexText bytes one → IsRefusedAt IsIndexText bytes other → one ≡ other }
    ensures plan { (bytes : List ℕ) (one other : ℕ) → IsPlanRefusedAt bytes one → IsPlanRefusedAt bytes other → one ≡ other }
{}
