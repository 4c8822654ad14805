//! Told order: in a certificate that `close` gives, a call's line comes after those of the calls that its CPU was told of.

ghost use Rattle.std.specs.Prelude.{ℕ, ◌≤◌, ◌↔◌, List};
ghost use Rattle.rmm_spec.specs.declared.event.Event.{Event};
ghost use Rattle.rmm_spec.specs.declared.line.Line.{Line};
ghost use Rattle.rmm_spec.specs.HistoryText.{Config};
ghost use Rattle.commit_tickets.specs.Told.{IsToldOf};
ghost use Rattle.commit_tickets.specs.View.{TokenView};
ghost use Rattle.monitor.specs.Closed.{IsJournal};
ghost use Rattle.monitor.specs.ToldOrder.{ComesBefore, HasTicket, NamesAt};

/// In the certificate of a closed run a call's line stands at the place that is its ticket, and nowhere else.
pub fn lines_stand_at_tickets()
    ensures { (config : Config) (tokens : List TokenView) (events : List Event) (lines : List Line)
        → IsJournal config tokens events lines
        → (place cpu number : ℕ) → NamesAt lines place cpu number ↔ HasTicket tokens cpu number place }
{}

/// In the certificate of a closed run a call's line comes after the lines of all calls that its CPU's token had been told of.
/// `before` is the token as it was when the call was made: that the call's ticket is at or past what it was told of is promised by
/// `execute`.
pub fn told_calls_come_first()
    ensures { (config : Config) (tokens : List TokenView) (events : List Event) (lines : List Line)
        → IsJournal config tokens events lines
        → (told_cpu told_number told_ticket : ℕ) → HasTicket tokens told_cpu told_number told_ticket
        → (cpu number ticket : ℕ) → HasTicket tokens cpu number ticket
        → (before : TokenView) → IsToldOf before told_ticket → before.seen ≤ ticket
        → ComesBefore lines told_cpu told_number cpu number }
{}
