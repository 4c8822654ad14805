//! The laws of orders that are begun.

ghost use Rattle.std.specs.Prelude.{◌≡◌, ℕ, ◌<◌, ◌≤◌, true, List, [], ◌∷◌, ◌++◌, length};
ghost use Rattle.rmm_spec.specs.declared.line.Line.{Line};
ghost use Rattle.rmm_spec.specs.declared.line.Line.TheVariants as line;
ghost use Rattle.rmm_spec.specs.HistoryText.{History, IsHistory};
ghost use Rattle.rmm_spec.specs.State.{State, opening};
ghost use Rattle.rmm_spec.specs.Linearization.{IsFinished, IsLinearization, ReturnsBefore, cpu_named, number_named};
ghost use Rattle.verdict_laws.specs.Looking.{is_looking};
ghost use Rattle.verdict_laws.specs.Order.{GivesNowhere, Grows, HasOpen, IsNext, IsRefusal, LeadsNowhere, Reaches, count_of};

/// Where the order without a line leads nowhere, no certificate at all is a linearization.
pub fn open_beginning_is_no_order()
    ensures { (history : History) (lines : List Line) → LeadsNowhere history [] → ¬ IsLinearization history lines }
{}

/// No line leads to the opening.
pub fn no_line_reaches_opening()
    ensures { (history : History) → Reaches history [] (opening history.config) }
{}

/// A call that can come next, with a reply that the specification gives it, makes the order one line longer.
pub fn one_line_more()
    ensures { (history : History) (lines : List Line) (old : State) (line : Line) (new : State) → IsHistory history
        → Reaches history lines old → Grows history lines old line new → Reaches history (lines ++ line ∷ []) new }
{}

/// An order that grew so is a linearization once it names each finished call.
pub fn grown_order_is_linearization()
    ensures { (history : History) (lines : List Line) (last : State) → Reaches history lines last
        → ((cpu number : ℕ) → IsFinished history.events cpu number → number < count_of cpu lines) → IsLinearization history lines }
{}

/// An order has no more lines than its history has events.
pub fn orders_are_short()
    ensures { (history : History) (lines : List Line) (state : State) → Reaches history lines state → length lines ≤ length history.events }
{}

/// A line leads nowhere that puts a call before one which returned before that call was made.
pub fn nowhere_past_a_return()
    ensures { (history : History) (lines : List Line) (state : State) (line : Line) (cpu number : ℕ) → IsHistory history
        → Reaches history lines state → IsFinished history.events cpu number → ¬ (number < count_of cpu lines)
        → ReturnsBefore history.events cpu number (cpu_named line) (number_named line) → LeadsNowhere history (lines ++ line ∷ []) }
{}

/// A line leads nowhere but where it names the next call of its CPU, and is of that call's kind.
pub fn nowhere_unless_next()
    ensures { (history : History) (lines : List Line) (state : State) (line : Line) → IsHistory history
        → Reaches history lines state → (IsNext history.events lines line → LeadsNowhere history (lines ++ line ∷ []))
        → LeadsNowhere history (lines ++ line ∷ []) }
{}

/// A line leads nowhere where each reply that the specification gives its call there leads nowhere.
pub fn nowhere_by_replies()
    ensures { (history : History) (lines : List Line) (state : State) (line : Line) → IsHistory history
        → Reaches history lines state → GivesNowhere history lines state line → LeadsNowhere history (lines ++ line ∷ []) }
{}

/// A finished call that can come next, and was refused as the specification refuses it there, may come next at once: where it leads
/// nowhere, the order leads nowhere.
pub fn nowhere_after_a_refusal()
    ensures { (history : History) (lines : List Line) (state : State) (cpu number : ℕ) → IsHistory history
        → Reaches history lines state → (grows : Grows history lines state (line.Keep cpu number) state) → IsRefusal grows.entry.given
        → LeadsNowhere history (lines ++ line.Keep cpu number ∷ []) → LeadsNowhere history lines }
{}

/// A finished call that changes nothing, whatever is replied, that can come next and is given its reply there, may come next at once: where it
/// leads nowhere, the order leads nowhere.
pub fn nowhere_after_a_look()
    ensures { (history : History) (lines : List Line) (state new : State) (cpu number : ℕ) → IsHistory history
        → Reaches history lines state → (grows : Grows history lines state (line.Keep cpu number) new) → is_looking grows.entry.command ≡ true
        → LeadsNowhere history (lines ++ line.Keep cpu number ∷ []) → LeadsNowhere history lines }
{}

/// Two orders of the same calls that lead to one state: where the one leads nowhere, the other does.
pub fn nowhere_by_configuration()
    ensures { (history : History) (one other : List Line) (state : State)
        → IsHistory history → Reaches history one state → Reaches history other state
        → ((cpu : ℕ) → count_of cpu one ≡ count_of cpu other) → LeadsNowhere history one → LeadsNowhere history other }
{}

/// Where a finished call isn't in the order yet, and each line that can come next leads nowhere, the order leads nowhere.
pub fn nowhere_after_each_next()
    ensures { (history : History) (lines : List Line) (state : State) → IsHistory history
        → Reaches history lines state → HasOpen history.events lines
        → ((line : Line) → IsNext history.events lines line → LeadsNowhere history (lines ++ line ∷ []))
        → LeadsNowhere history lines }
{}
