//! The laws of slices: histories of the calls on some granules alone.

ghost use Rattle.std.specs.Prelude.{ℕ, Bool, List, [], Option};
ghost use Rattle.rmm_spec.specs.HistoryText.{History, IsHistory};
ghost use Rattle.verdict_laws.specs.Order.{LeadsNowhere};
ghost use Rattle.verdict_laws.specs.Parts.{first_part};
ghost use Rattle.verdict_laws.specs.Slices.{IsCut, IsSlice};

/// Where a slice of the first events of a history has no order, so many, they have none.
pub fn nowhere_in_a_slice()
    ensures { (history slice : History) (count : ℕ) (numbers : ℕ → Option ℕ) (lent : List ℕ) (entered : ℕ → Bool)
        → IsHistory history → IsHistory slice → IsSlice (first_part count history) slice numbers lent
        → IsCut (first_part count history) numbers lent entered → LeadsNowhere slice [] → LeadsNowhere (first_part count history) [] }
{}
