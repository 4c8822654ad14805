//! Laws of the whole profile that would fail if a row were mistyped: each is the contract of a function that does nothing.

ghost use Rattle.std.specs.Prelude.{◌≡◌, ℕ, ◌^◌, ◌<◌, ◌≤◌, List, [], ◌∷◌, ◌++◌, take, Some, false, slice_index};
ghost use Rattle.rmm_spec.specs.declared.command.Command.{Command};
ghost use Rattle.rmm_spec.specs.declared.function_id.FunctionId.TheVariants.{RealmCreate, DataCreateUnknown, RttInitRipas, RttSetRipas};
ghost use Rattle.rmm_spec.specs.declared.reply.Reply.{Reply};
ghost use Rattle.rmm_spec.specs.declared.reply.Reply.TheVariants as reply;
ghost use Rattle.rmm_spec.specs.HistoryText.{Config};
ghost use Rattle.rmm_spec.specs.State.{State, RealmRecord, opening};
ghost use Rattle.rmm_spec.specs.Walk.{table_number, is_table, entry_for, reach, IsWalk};
ghost use Rattle.rmm_spec.specs.Rows.{ok};
ghost use Rattle.rmm_spec.specs.Step.{Step};
ghost use Rattle.rmm_spec.specs.Run.{JournalEntry, IsRun};
ghost use Rattle.rmm_spec.specs.Script as script;
ghost use Rattle.rmm_spec.specs.TableScript as tables;
ghost use Rattle.rmm_spec.specs.Script.{script_config, version_two_config};
ghost use Rattle.rmm_spec.specs.Footprint.{KeepsOthers, changed_parts};
ghost use Rattle.rmm_laws.specs.Commands as commands;
ghost use Rattle.rmm_laws.specs.Presence.{HasWhatRowsRead};
ghost use Rattle.rmm_laws.specs.Worked.{AreRuns, worked};

/// Whatever a command is answered, it keeps the maps that it isn't listed with.
pub fn commands_keep_other_maps()
    ensures { (old next : State) (cpu : ℕ) (command : Command) (given : Reply)
        → Step old cpu command given next → KeepsOthers (changed_parts command.function) old next }
{}

/// Wherever a table covers an address, the recursion that the rows cite is the walk.
pub fn reach_is_the_walk()
    ensures { (s : State) (rd ipa level max granule : ℕ)
        → s.table rd level (table_number level ipa) ≡ Some granule → level ≤ max
        → (found : ℕ) × IsWalk s rd ipa max (reach s rd ipa max) found (entry_for s rd (reach s rd ipa max) ipa) }
{}

/// A walk to level 3 never ends on a link to a table.
pub fn walks_end_unlinked()
    ensures { (s : State) (rd ipa : ℕ) → is_table (entry_for s rd (reach s rd ipa 3) ipa) ≡ false }
{}

/// The root of a realm that was just made covers every address of the realm's space, and a walk to its level ends at it.
pub fn fresh_root_covers_space()
    ensures { (old next : State) (cpu ipa : ℕ) (words : List ℕ)
        → Step old cpu (commands.command RealmCreate words) (ok []) next → ipa < 2 ^ slice_index words 2
        → let rd = slice_index words 0 in let level = slice_index words 3 in
        IsWalk next rd ipa level level (slice_index words 1) (entry_for next rd level ipa) }
{}

/// After every run, a walk to a realm's start level ends at the realm's root.
pub fn walks_begin_at_root()
    ensures { (config : Config) (entries : List JournalEntry) (s : State) (rd ipa : ℕ) (realm : RealmRecord)
        → IsRun (opening config) entries s → s.realm rd ≡ Some realm → ipa < 2 ^ realm.width
        → IsWalk s rd ipa realm.start_level realm.start_level realm.root (entry_for s rd realm.start_level ipa) }
{}

/// After every run, of whatever commands, each record, entry and table that the rows read is there: of what the definitions
/// read in place of a missing one they read none, but for the base 0 that REC_ENTER reports of a REC that asked for nothing.
pub fn no_default_is_read()
    ensures { (config : Config) (entries : List JournalEntry) (last : State)
        → IsRun (opening config) entries last → HasWhatRowsRead last }
{}

/// The worked scripts are runs: the definitions give each of their replies.
pub fn worked_scripts_are_runs()
    ensures version_one { AreRuns script_config worked }
    ensures version_two { AreRuns version_two_config (script.realm_of_algo_1 ∷ []) }
{}

/// The script of a realm measured by SHA-512, a run of version 2, is none of version 1: there its 6th step, which makes the realm,
/// is refused.
pub fn version_one_has_no_sha512()
    ensures refused { (last : State) × IsRun (opening script_config)
        (take 5 script.realm_of_algo_1 ++ script.answered RealmCreate (0x1000 ∷ 0x2000 ∷ 39 ∷ 1 ∷ 1 ∷ 1 ∷ []) (reply.Err 1 0) ∷ []) last }
    ensures not_accepted { (last : State) → IsRun (opening script_config) (take 6 script.realm_of_algo_1) last → ⊥ }
{}

/// After the script that gives a page of one realm to another, the machine doesn't accept that.
pub fn a_page_is_given_once()
    ensures { (last next : State) → IsRun (opening script_config) tables.data_granule_mapped_twice last
        → Step last 0 (commands.command DataCreateUnknown (0x6000 ∷ 0x5000 ∷ 0 ∷ [])) (ok []) next → ⊥ }
{}

/// Behind two worked scripts, a reply that says that more of a stretch was set than the definitions allow makes no run.
pub fn longer_stretches_are_no_runs()
    ensures past_the_table { (last : State) → IsRun (opening script_config)
        (take 15 tables.ripas_change_past_table
        ++ script.answered RttSetRipas (0x1000 ∷ 0x5000 ∷ 0x1ff000 ∷ 0x201000 ∷ []) (ok (0x201000 ∷ [])) ∷ []) last → ⊥ }
    ensures over_a_page { (last : State) → IsRun (opening script_config)
        (take 11 tables.ripas_before_a_realm_runs ++ script.answered RttInitRipas (0x1000 ∷ 0 ∷ 0x3000 ∷ []) (ok (0x2000 ∷ [])) ∷ []) last → ⊥ }
{}
