//! What follows from the definitions of verdicts and orders: each law is the contract of a function that does nothing.
//! It promises that some verdict is right of any two texts and no two are, so `Judges` leaves a checker nothing to choose; of an order that is
//! begun, where it leads nowhere and where it is a linearization (`begun`, line by line); for a search through a history's events, where a
//! kept order leads nowhere, and which calls pass others (`apart`, `beside`, `ending`, `making`, `separate`); that no order is lost where each
//! reading of a measurement extends one, nor in a slice (`slices`), nor where no state gives a reply (`placing`, `facts`); that a register's own
//! calls are a run of it. The search stands on these.
#![tactic(auto)]

mod apart;
mod begun;
mod beside;
mod ending;
mod exchanges;
mod facts;
mod making;
mod placing;
mod registers;
mod separate;
mod slices;
mod unread;
mod verdicts;

pub use apart::{
    done_lending_exchanges, done_lending_passes, lending_comes_first, lending_exchanges,
    lending_is_passed, lending_passes,
};
pub use begun::{
    grown_order_is_linearization, no_line_reaches_opening, nowhere_after_a_look,
    nowhere_after_a_refusal, nowhere_after_each_next, nowhere_by_configuration, nowhere_by_replies,
    nowhere_past_a_return, nowhere_unless_next, one_line_more, open_beginning_is_no_order,
    orders_are_short,
};
pub use beside::{entries_exchange, entries_pass};
pub use ending::{ending_comes_first, ending_comes_last, ending_is_passed, ending_passes};
pub use exchanges::{
    a_returning_call_is_open, all_kept_behind_a_call, all_kept_behind_a_return,
    all_kept_where_covered, first_parts_have_orders, kept_at_first, kept_at_last_is_linearization,
    kept_behind_a_call, kept_behind_its_return, kept_with_open_calls, looks_stay_in_a_group,
    movable_past_others, no_line_is_kept_at_first, none_kept_is_no_order,
    nowhere_after_each_open_call, nowhere_after_looks, nowhere_at_a_return, nowhere_in_a_group,
    nowhere_in_either_order, nowhere_with_a_movable_call,
};
pub use facts::{Fact, InTurn, nowhere_denied, nowhere_either_way};
pub use making::{made_apart_exchange, made_apart_pass};
pub use placing::{ExitReason, Standing, nowhere_out_of_place};
pub use registers::{
    nowhere_without_possibilities, register_after_a_return, register_after_another_event,
    register_at_first, register_runs,
};
pub use separate::{separate_calls_exchange, separate_calls_pass};
pub use slices::nowhere_in_a_slice;
pub use unread::{nowhere_after_an_extension, nowhere_but_for_measurements, nowhere_unread};
pub use verdicts::{a_verdict_exists, one_verdict};
