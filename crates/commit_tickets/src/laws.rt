//! What a commit is: the law is the contract of a function that does nothing.

ghost use Rattle.std.specs.Prelude.{◌≡◌, Ok};
ghost use Rattle.rmm_spec.specs.declared.command.Command.{Command};
ghost use Rattle.rmm_spec.specs.HistoryText.{Config};
ghost use Rattle.rmm_spec.specs.World.{World, Commit, IsDeciding, Moves};
ghost use Rattle.granule_lock.specs.declared.hold.Hold.{Hold};
ghost use Rattle.granule_lock.specs.HeldCells.{hold_cells};
ghost use Rattle.commit_tickets.specs.declared.committing.Done.{Done};
ghost use Rattle.commit_tickets.specs.Commits.{IsCommit};
ghost use Rattle.commit_tickets.specs.View.{JournalView, TokenView, hold_with};
ghost use Rattle.commit_tickets.specs.Worlds.{IsWorldOf};

/// What `commit` makes of a draft, an entry and a settlement is one move of the world, its Commit: from each world that has what was
/// committed on, where the CPU has that call open, to one that has what the commit left.
pub fn a_commit_is_one_move()
    ensures { (config : Config) (command : Command) (before after : JournalView) (token new : TokenView) (hold new_hold : Hold) (done : Done)
        → IsCommit config command before after token new hold new_hold (Ok done)
        → (w : World) → IsWorldOf w before token (hold_cells hold) → (deciding : IsDeciding w token.cpu) → deciding.command ≡ command
        → (next : World) × Moves w (Commit token.cpu done.reply (hold_with after new (hold_cells new_hold))) next
        × IsWorldOf next after new (hold_cells new_hold) }
{}
