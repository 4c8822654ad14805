//! The journal compared with what its CPUs' tokens list.

ghost use Rattle.std.specs.Prelude.{◌≡◌, ℕ, ◌≤◌, ◌↔◌, IsTrue, IfErr, OnOk, OnErr, Some, length, slice_get};
ghost use Rattle.command_log.specs.Log.{logged_seen};
ghost use Rattle.commit_tickets.specs.Commits.{IsOfRun};
ghost use Rattle.commit_tickets.specs.Entries.{committed_of, entry_of};
ghost use Rattle.commit_tickets.specs.Listed.{AreListed, commit_at, mine_of, numbers_of, unlisted_entries};

use crate::journal::Journal;
use crate::numbers::Numbers;
use crate::same::{is_same_command, is_same_reply};
use crate::site::Site;
use crate::token::CpuToken;
use crate::unlisted::Unlisted;
use command_log::Logged;

impl<S: Site> Journal<S> {
    /// Compares the journal with its CPUs' tokens: whether each lists what the journal has of its CPU, each commit once, at its ticket
    /// and in order. The token at place k is taken for CPU k's.
    pub fn compare(&self, tokens: &[CpuToken<S>]) -> Result<(), Unlisted>
        requires { length tokens.now ≤ 8 }
        ensures listed { OnOk result (AreListed tokens.now self.now.entries) }
        ensures unlisted { OnErr result (AreListed tokens.now self.now.entries → ⊥) }
        ensures of_run { IsOfRun S.config self.now }
        ensures compared { IfErr result (λ unlisted. unlisted_entries unlisted ≡ self.now.entries) }
    {
        if !self.is_listed_by(tokens) {
            return Err(Unlisted::of(&self.entries));
        }
        Ok(())
    }

    // Whether the tokens list the entries.
    fn is_listed_by(&self, tokens: &[CpuToken<S>]) -> bool
        requires { length tokens.now ≤ 8 }
        ensures listed { IsTrue result ↔ AreListed tokens.now self.now.entries }
        ensures of_run { IsOfRun S.config self.now }
    {
        let mut numbers = Numbers::new();
        for ticket in 0..self.len() {
            let entry = self.entry(ticket);
            let Some(token) = tokens.get(usize::from(entry.mark)) else {
                return false;
            };
            if !token.lists(numbers.count(entry.mark), ticket, entry) {
                return false;
            }
        }
        list_no_more(tokens, &numbers)
    }
}

impl<S: Site> CpuToken<S> {
    // Whether the commit of a number is the entry of a ticket.
    fn lists(&self, number: usize, ticket: usize, entry: Logged<'_, u8>) -> bool
        ensures { IsTrue result ↔ (slice_get self.now.mine number ≡ Some (commit_at ticket (entry_of (logged_seen entry.entry)))) }
    {
        match self.mine.get(number) {
            Some(mine) => is_entry(mine, ticket, entry),
            None => false,
        }
    }
}

// Whether a commit is the entry of a ticket.
fn is_entry(mine: Logged<'_, usize>, ticket: usize, entry: Logged<'_, u8>) -> bool
    ensures { IsTrue result ↔ (committed_of (logged_seen mine.entry) ≡ commit_at ticket (entry_of (logged_seen entry.entry))) }
{
    mine.mark == ticket
        && is_same_command(mine.command, entry.command)
        && is_same_reply(mine.reply, entry.reply)
}

// Whether no token lists more than its CPU's number of commits.
fn list_no_more<S: Site>(tokens: &[CpuToken<S>], numbers: &Numbers) -> bool
    requires { length tokens.now ≤ 8 }
    ensures { IsTrue result ↔ ((cpu : ℕ) → length (mine_of tokens.now cpu) ≤ numbers_of numbers.now cpu) }
{
    for (cpu, token) in tokens.iter().enumerate() {
        if token.mine.len() > numbers.of(cpu) {
            return false;
        }
    }
    true
}
