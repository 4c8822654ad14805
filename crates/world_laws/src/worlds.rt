//! The laws over the world: each is the contract of a function that does nothing.

ghost use Rattle.std.specs.Prelude.{ℕ, List, Option};
ghost use Rattle.rmm_spec.specs.declared.command.Command.{Command};
ghost use Rattle.rmm_spec.specs.HistoryText.{Config};
ghost use Rattle.rmm_spec.specs.World.{World, Move, opening_world, HappenAll, HasOneHolder, IsCertified, IsShapedWorld};
ghost use Rattle.rmm_spec.specs.Waits.{Turn, TurnAll, IsRising, HasNoCircle, KeepsWaiting, AreRising, Wants, IsStuck, WaitsBehindStopped};

/// After every list of moves, on a machine of any size and for all programs, the journal is a linearization of the history
/// that leads to the cells as they are; and cells, side table and places fit together.
pub fn every_run_is_certified()
    ensures certified { (config : Config) (programs : ℕ → List Command) (moves : List Move) (w : World)
        → HappenAll (opening_world config programs) moves w → IsCertified w }
    ensures shaped { (config : Config) (programs : ℕ → List Command) (moves : List Move) (w : World)
        → HappenAll (opening_world config programs) moves w → IsShapedWorld w }
{}

/// After every list of moves no two CPUs hold one lock.
pub fn a_lock_has_one_holder()
    ensures { (config : Config) (programs : ℕ → List Command) (moves : List Move) (w : World)
        → HappenAll (opening_world config programs) moves w → HasOneHolder w }
{}

/// After every list of moves no chain of waits at rising takes comes back to its start; and after every list of turns a CPU
/// whose last turn was blocked still waits there for whoever holds that lock.
pub fn no_wait_cycle()
    ensures acyclic { (config : Config) (programs : ℕ → List Command) (moves : List Move) (w : World)
        → HappenAll (opening_world config programs) moves w → HasNoCircle w }
    ensures turned { (config : Config) (programs : ℕ → List Command) (turns : List Turn) (w : World)
        → TurnAll (opening_world config programs) turns w → HasNoCircle w }
    ensures waiting { (config : Config) (programs : ℕ → List Command) (turns : List Turn) (w : World)
        → TurnAll (opening_world config programs) turns w → KeepsWaiting turns w }
{}

/// After every list of turns, where no CPU can go on, each chain of waits ends at a CPU that was stopped. So without a stop each
/// CPU has given up or has returned every call of its program. That holds where a CPU may want any lock at whose rising take it
/// is, and for any choice of one lock a CPU.
pub fn stuck_behind_stopped()
    ensures any { (config : Config) (programs : ℕ → List Command) (turns : List Turn) (w : World)
        → TurnAll (opening_world config programs) turns w → IsStuck w (IsRising w) → WaitsBehindStopped w (IsRising w) }
    ensures wanted { (config : Config) (programs : ℕ → List Command) (turns : List Turn) (w : World) (wanted : ℕ → Option ℕ)
        → TurnAll (opening_world config programs) turns w → AreRising w (Wants wanted) → IsStuck w (Wants wanted)
        → WaitsBehindStopped w (Wants wanted) }
{}
