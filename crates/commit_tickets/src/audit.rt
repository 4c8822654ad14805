//! The journal counted by its tokens.

ghost use Rattle.std.specs.Prelude.{◌≡◌, ◌+◌, ◌<◌, length};
ghost use Rattle.std.specs.List.{sum_by};
ghost use Rattle.commit_tickets.specs.View.{TokenView};

use crate::journal::Journal;
use crate::site::Site;
use crate::token::CpuToken;
use std::sync::ledger::Share;

impl<S: Site> Journal<S> {
    /// Shows that the journal has as many entries as all tokens list together: one token for each part of the site's ledger.
    pub fn audit(&mut self, tokens: &mut [CpuToken<S>])
        requires all { length tokens.old ≡ S.parts }
        requires some { 0 < S.parts }
        ensures counted { length self.old.entries ≡ sum_by (λ (t : TokenView). length t.mine) tokens.old }
        ensures journal { self.new ≡ self.old }
        ensures tokens { tokens.new ≡ tokens.old }
    {
        let Some((first, others)) = tokens.split_first_mut() else {
            unreachable!()
        };
        self.audit_from(&mut first.share, others);
    }

    // Counts by a share, and by those of the tokens that it lacks. Each is lent to it until all are there.
    fn audit_from(&mut self, seen: &mut Share<S>, tokens: &mut [CpuToken<S>])
        requires all { seen.old.parts + length tokens.old ≡ S.parts }
        requires some { 0 < seen.old.parts }
        ensures counted { length self.old.entries ≡ seen.old.amount + sum_by (λ (t : TokenView). length t.mine) tokens.old }
        ensures parts { seen.new.parts ≡ seen.old.parts }
        ensures amount { seen.new.amount ≡ seen.old.amount }
        ensures journal { self.new ≡ self.old }
        ensures tokens { tokens.new ≡ tokens.old }
    {
        let Some((first, others)) = tokens.split_first_mut() else {
            self.commits.audit(seen);
            return;
        };
        let count = first.mine.len() as u64;
        first.share.give(seen, 1, count);
        self.audit_from(seen, others);
        seen.give(&mut first.share, 1, count);
    }
}
