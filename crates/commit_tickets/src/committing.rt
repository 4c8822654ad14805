//! A CPU commits a command on the cells that it holds.

ghost use Rattle.std.specs.Prelude.{IsTrue};
ghost use Rattle.rmm_spec.specs.Call.{call_of};
ghost use Rattle.command_core.specs.Seen.{place_of};
ghost use Rattle.command_core.specs.Settled.{is_settled};
ghost use Rattle.granule_lock.specs.HeldCells.{hold_cells};
ghost use Rattle.commit_tickets.specs.Commits.{HasJournals, IsCommit};

use crate::draft::Draft;
use crate::fault::CommitFault;
use crate::journal_access::JournalAccess;
use crate::settling::settle;
use crate::site::Site;
use crate::token::CpuToken;
use granule_lock::Hold;
use rmm_spec::{Command, Reply};
use std::alloc::Global;

/// What a commit answers: the place of its entry in the journal, and the reply that stands there.
#[derive(Debug, Drop)]
pub struct Done {
    pub ticket: usize,
    pub reply: Reply,
}

/// Commits a command that what is held settles, as `next_lock` tells by Ready, by the token of its CPU: drafts it, enters it into
/// the journal and settles it. The reply is decided on the held cells and offered to the journal's books. Where they give it, the
/// cells, the side table and the token's place make the step; where they don't, or memory is refused, or the journal has fewer
/// entries than the token was told of, nothing changes but that the token keeps the fault. The ticket is at or past what the token
/// was told of. Only the entry needs the journal; with one at hand it waits for nobody.
pub fn commit<S: Site, J: JournalAccess<S>>(
    alloc: Global,
    journal: &mut J,
    token: &mut CpuToken<S>,
    hold: &mut Hold,
    command: &Command,
) -> Result<Done, CommitFault>
    requires ready { J.ready journal.old token.old.cpu command.now }
    requires settled { IsTrue (is_settled S.config (call_of command.now) (place_of token.old.place) (hold_cells hold.old)) }
    ensures { HasJournals (J.shows journal.old journal.new) (λ before after.
        IsCommit S.config command.now before after token.old token.new hold.old hold.new result) }
{
    let config = journal.config();
    let mut draft = Draft::new();
    draft.foresee(alloc, &config, token, hold, command);
    match journal.enter(alloc, token, hold, command, &mut draft) {
        Ok(ticket) => {
            let reply = settle(&mut draft, token, hold);
            draft.discard();
            Ok(Done { ticket, reply })
        }
        Err(fault) => {
            draft.discard();
            Err(fault)
        }
    }
}
