//! The laws of histories in which no measurement is read.

ghost use Rattle.std.specs.Prelude.{◌≡◌, ℕ, true, List, [], ◌∷◌, ◌++◌};
ghost use Rattle.rmm_spec.specs.declared.line.Line.{Line};
ghost use Rattle.rmm_spec.specs.declared.line.Line.TheVariants as line;
ghost use Rattle.rmm_spec.specs.HistoryText.{History, IsHistory};
ghost use Rattle.rmm_spec.specs.State.{State};
ghost use Rattle.verdict_laws.specs.Order.{Grows, LeadsNowhere, Reaches, count_of};
ghost use Rattle.verdict_laws.specs.Unread.{IsUnread, ReadsNothing, is_extending, unmeasured};

/// Where a history has no order once each reading of a measurement extends one, it has none.
pub fn nowhere_unread()
    ensures { (history unread : History) → IsHistory history → IsUnread history unread → LeadsNowhere unread [] → LeadsNowhere history [] }
{}

/// Of two orders of the same calls whose states differ in measurements alone, where none is read, the one leads nowhere where the other does.
pub fn nowhere_but_for_measurements()
    ensures { (history : History) (one other : List Line) (state also : State) → IsHistory history → ReadsNothing history.events
        → Reaches history one state → Reaches history other also → ((cpu : ℕ) → count_of cpu one ≡ count_of cpu other)
        → unmeasured state ≡ unmeasured also → LeadsNowhere history one → LeadsNowhere history other }
{}

/// Where no measurement is read, a finished extension of one that can come next, and is given its reply there, may come next at once: where it leads
/// nowhere, the order leads nowhere.
pub fn nowhere_after_an_extension()
    ensures { (history : History) (lines : List Line) (state new : State) (cpu number : ℕ) → IsHistory history → ReadsNothing history.events
        → Reaches history lines state → (grows : Grows history lines state (line.Keep cpu number) new) → is_extending grows.entry.command ≡ true
        → LeadsNowhere history (lines ++ line.Keep cpu number ∷ []) → LeadsNowhere history lines }
{}
