//! The laws of orders that are kept while the events of a history are read.

ghost use Rattle.std.specs.Prelude.{◌≡◌, ℕ, ◌+◌, ◌<◌, ◌≤◌, Bool, true, false, List, [], ◌∷◌, ◌++◌, length, slice_get, Some};
ghost use Rattle.rmm_spec.specs.declared.command.Command.{Command};
ghost use Rattle.rmm_spec.specs.declared.line.Line.{Line};
ghost use Rattle.rmm_spec.specs.declared.line.Line.TheVariants as line;
ghost use Rattle.rmm_spec.specs.declared.reply.Reply.{Reply};
ghost use Rattle.rmm_spec.specs.HistoryText.{History, IsHistory};
ghost use Rattle.rmm_spec.specs.State.{State, opening};
ghost use Rattle.rmm_spec.specs.Linearization.{IsCalled, IsLinearization, IsReturned};
ghost use Rattle.verdict_laws.specs.Order.{LeadsNowhere, count_of};
ghost use Rattle.verdict_laws.specs.Forward.{AllKept, AreContinued, AreKept, AreOpen, Gives, IsKept, IsLook, IsMovable, IsOpen, LeadNowhere, Passes};
ghost use Rattle.verdict_laws.specs.Parts.{first_part};

/// Where a history has a linearization, so has each first part of its events.
pub fn first_parts_have_orders()
    ensures { (history : History) (count : ℕ) (lines : List Line) → IsHistory history → IsLinearization history lines
        → (some : List Line) × IsLinearization (first_part count history) some }
{}

/// Before the first event the order without a line is kept.
pub fn no_line_is_kept_at_first()
    ensures { (history : History) → IsKept history 0 [] (opening history.config) }
{}

/// A kept order stays kept where a call is made.
pub fn kept_behind_a_call()
    ensures { (history : History) (place cpu number : ℕ) (command : Command) (lines : List Line) (state : State)
        → IsCalled history.events place cpu number command → IsKept history place lines state → IsKept history (place + 1) lines state }
{}

/// A kept order stays kept where a call returns that it has.
pub fn kept_behind_its_return()
    ensures { (history : History) (place cpu number : ℕ) (given : Reply) (lines : List Line) (state : State)
        → IsReturned history.events place cpu number given → number < count_of cpu lines → IsKept history place lines state
        → IsKept history (place + 1) lines state }
{}

/// Open calls that are given one after the other behind a kept order make a kept order.
pub fn kept_with_open_calls()
    ensures { (history : History) (place : ℕ) (lines more : List Line) (old new : State) → IsHistory history
        → IsKept history place lines old → AreOpen history.events place lines more → Gives history.events old more new
        → IsKept history place (lines ++ more) new }
{}

/// A call that returns, and that a kept order lacks, is open.
pub fn a_returning_call_is_open()
    ensures { (history : History) (place cpu number : ℕ) (given : Reply) (lines : List Line) (state : State) → IsHistory history
        → IsKept history place lines state → IsReturned history.events place cpu number given → count_of cpu lines ≤ number
        → IsOpen history.events place lines (line.Keep cpu number) }
{}

/// A kept order that lacks a call at its return leads nowhere, if it does with each sequence of open calls that are given, and then the call.
pub fn nowhere_at_a_return()
    ensures { (history : History) (place cpu number : ℕ) (given : Reply) (lines : List Line) (state : State) → IsHistory history
        → IsKept history place lines state → IsReturned history.events place cpu number given → count_of cpu lines ≤ number
        → ((before : List Line) (new : State) → AreOpen history.events place lines (before ++ line.Keep cpu number ∷ [])
        → Gives history.events state (before ++ line.Keep cpu number ∷ []) new
        → LeadsNowhere history (lines ++ (before ++ line.Keep cpu number ∷ [])))
        → LeadsNowhere history lines }
{}

/// A kept order that lacks a call at its return leads nowhere, if it does with each open call that is given next, the call among them.
pub fn nowhere_after_each_open_call()
    ensures { (history : History) (place cpu number : ℕ) (given : Reply) (lines : List Line) (state : State) → IsHistory history
        → IsKept history place lines state → IsReturned history.events place cpu number given → count_of cpu lines ≤ number
        → ((line : Line) (new : State) → IsOpen history.events place lines line → Gives history.events state (line ∷ []) new
        → LeadsNowhere history (lines ++ line ∷ []))
        → LeadsNowhere history lines }
{}

/// An order that puts an open call in before others leads nowhere, if the order without it does and the call may as well come behind them.
pub fn nowhere_with_a_movable_call()
    ensures { (history : History) (place : ℕ) (lines front back : List Line) (moved : Line) (old new : State) → IsHistory history
        → IsKept history place lines old → AreOpen history.events place lines (front ++ (moved ∷ back))
        → Gives history.events old (front ++ (moved ∷ back)) new → Gives history.events old (front ++ (back ++ moved ∷ [])) new
        → LeadsNowhere history (lines ++ (front ++ back)) → LeadsNowhere history (lines ++ (front ++ (moved ∷ back))) }
{}

/// Of two open calls that exchange, the one leads nowhere behind the other where it does at once: so it needn't be tried there again.
pub fn nowhere_in_either_order()
    ensures { (history : History) (place : ℕ) (lines : List Line) (one other : Line) (old new : State) → IsHistory history
        → IsKept history place lines old → AreOpen history.events place lines (one ∷ other ∷ [])
        → Gives history.events old (one ∷ other ∷ []) new → Gives history.events old (other ∷ one ∷ []) new
        → LeadsNowhere history (lines ++ other ∷ []) → LeadsNowhere history ((lines ++ one ∷ []) ++ other ∷ []) }
{}

/// So only those sequences need be tried at a return of which no call may as well come behind the one that returns.
pub fn nowhere_after_looks()
    ensures { (history : History) (place cpu number : ℕ) (given : Reply) (lines : List Line) (state : State) → IsHistory history
        → IsKept history place lines state → IsReturned history.events place cpu number given → count_of cpu lines ≤ number
        → ((before : List Line) (new : State) → IsLook history place lines state before (line.Keep cpu number) new
        → LeadsNowhere history (lines ++ (before ++ line.Keep cpu number ∷ [])))
        → LeadsNowhere history lines }
{}

/// A call that passes each call behind it, wherever open calls lead, may as well come last.
pub fn movable_past_others()
    ensures { (history : History) (place : ℕ) (lines front back : List Line) (moved last : Line) (old new : State) → IsHistory history
        → IsKept history place lines old → AreOpen history.events place lines ((front ++ moved ∷ back) ++ last ∷ [])
        → Gives history.events old ((front ++ moved ∷ back) ++ last ∷ []) new
        → ((i : ℕ) (other : Line) → slice_get (back ++ last ∷ []) i ≡ Some other → Passes history place lines old moved other)
        → IsMovable history.events old (front ++ moved ∷ back) last new }
{}

/// Where calls outside of a group pass those inside, none of them need be put in before a call inside.
pub fn looks_stay_in_a_group()
    ensures { (history : History) (place : ℕ) (lines before : List Line) (last : Line) (old new : State) (inside : Line → Bool)
        → IsHistory history → IsKept history place lines old → inside last ≡ true
        → ((line other : Line) → inside line ≡ false → inside other ≡ true → Passes history place lines old line other)
        → IsLook history place lines old before last new
        → (i : ℕ) (line : Line) → slice_get before i ≡ Some line → inside line ≡ true }
{}

/// So an order that lacks a call at its return leads nowhere, if it does with each open call of that call's group which is given next.
pub fn nowhere_in_a_group()
    ensures { (history : History) (place cpu number : ℕ) (given : Reply) (lines : List Line) (state : State) (inside : Line → Bool)
        → IsHistory history → IsKept history place lines state → IsReturned history.events place cpu number given → count_of cpu lines ≤ number
        → inside (line.Keep cpu number) ≡ true
        → ((line other : Line) → inside line ≡ false → inside other ≡ true → Passes history place lines state line other)
        → ((line : Line) (new : State) → inside line ≡ true → IsOpen history.events place lines line → Gives history.events state (line ∷ []) new
        → LeadsNowhere history (lines ++ line ∷ []))
        → LeadsNowhere history lines }
{}

/// Before the first event the order without a line is all that is kept.
pub fn kept_at_first()
    ensures { (history : History) → AreKept history 0 ([] ∷ []) }
{}

/// All that is kept stays so where a call is made.
pub fn all_kept_behind_a_call()
    ensures { (history : History) (place cpu number : ℕ) (command : Command) (orders : List (List Line))
        → IsCalled history.events place cpu number command → AreKept history place orders → AreKept history (place + 1) orders }
{}

/// At a return enough is kept, if each kept order stays or is continued by the call, at once and behind open calls that can't as well come later.
pub fn all_kept_behind_a_return()
    ensures { (history : History) (place cpu number : ℕ) (given : Reply) (orders next : List (List Line)) → IsHistory history
        → IsReturned history.events place cpu number given → AreKept history place orders
        → AreContinued history place cpu number orders next → AllKept history (place + 1) next → AreKept history (place + 1) next }
{}

/// Behind any event enough is kept, if each kept order leads nowhere where all do that are kept next.
pub fn all_kept_where_covered()
    ensures { (history : History) (place : ℕ) (orders next : List (List Line)) → AreKept history place orders
        → ((i : ℕ) (lines : List Line) (state : State) → slice_get orders i ≡ Some lines → IsKept history place lines state
        → LeadNowhere history next → LeadsNowhere history lines)
        → AllKept history (place + 1) next → AreKept history (place + 1) next }
{}

/// With no order kept no certificate is a linearization.
pub fn none_kept_is_no_order()
    ensures { (history : History) (place : ℕ) (lines : List Line) → AreKept history place [] → ¬ IsLinearization history lines }
{}

/// What is kept behind the last event is a linearization.
pub fn kept_at_last_is_linearization()
    ensures { (history : History) (lines : List Line) (state : State) → IsKept history (length history.events) lines state
        → IsLinearization history lines }
{}
