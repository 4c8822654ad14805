//! The laws over certified worlds: each is the contract of a function that does nothing.

ghost use Rattle.std.specs.Prelude.{◌≡◌, ℕ, ◌<◌, ◌≤◌, List, length};
ghost use Rattle.rmm_spec.specs.declared.command.Command.{Command};
ghost use Rattle.rmm_spec.specs.declared.verdict.Verdict.{Verdict};
ghost use Rattle.rmm_spec.specs.declared.verdict.Verdict.TheVariants as verdict;
ghost use Rattle.rmm_spec.specs.HistoryText.{Config, IsConfig, IsHistoryText, history_text};
ghost use Rattle.rmm_spec.specs.CertificateText.{IsCertificateText, certificate_text};
ghost use Rattle.rmm_spec.specs.Flat.{flat_state};
ghost use Rattle.rmm_spec.specs.Ownership.{IsIsolated};
ghost use Rattle.rmm_spec.specs.Judgement.{Judges, IsIsolatedThroughout};
ghost use Rattle.rmm_spec.specs.World.{World, Move, opening_world, HappenAll, IsCertified, history_of, certificate_of};
ghost use Rattle.world_laws.specs.Programs.{HaveTexts, commands_below};

/// After every list of moves the texts of the history and of the certificate are in their grammars, and of these two texts
/// `Yes`, with a line for each commit, is a true verdict. That the configuration is one of the grammar's, that each command
/// has a text, and that there is a line for each event is asked, since a text says no other.
pub fn certified_runs_pass()
    ensures texts { (config : Config) (programs : ℕ → List Command) (moves : List Move) (w : World)
        → IsConfig config → HaveTexts config programs → HappenAll (opening_world config programs) moves w → length w.events < 1000000
        → IsHistoryText (history_text (history_of w)) (history_of w) × IsCertificateText (certificate_text (certificate_of w)) (certificate_of w) }
    ensures judged { (config : Config) (programs : ℕ → List Command) (moves : List Move) (w : World)
        → IsConfig config → HaveTexts config programs → HappenAll (opening_world config programs) moves w → length w.events < 1000000
        → Judges (verdict.Yes (length w.journal)) (history_text (history_of w)) (certificate_text (certificate_of w)) }
{}

/// Programs of at most 499,999 commands together leave room for a call and a return of each.
pub fn programs_leave_room()
    ensures { (config : Config) (programs : ℕ → List Command) (moves : List Move) (w : World)
        → commands_below config.cpus programs ≤ 499999 → HappenAll (opening_world config programs) moves w → length w.events < 1000000 }
{}

/// In a certified world each granule is at most one realm's, in one role, and its cell agrees; and so it was after each first
/// part of the journal. It follows from the law on the machine's own runs.
pub fn certified_worlds_are_isolated()
    ensures now { (w : World) (certified : IsCertified w)
        → IsIsolated certified.linearization.entries (flat_state w.config w.cells) }
    ensures throughout { (w : World) (certified : IsCertified w) → IsIsolatedThroughout (history_of w) certified.linearization.entries }
{}
