//! A scenario is played, from a source's bytes to a sink's.

ghost use Rattle.std.specs.Prelude.{◌≢◌, IfErr};
ghost use Rattle.devices.specs.Sink.{writing};
ghost use Rattle.devices.specs.Source.{reading};
ghost use Rattle.run_commands.specs.Plays.{IsPlay};
ghost use Rattle.world_runs.specs.Played as turns;
ghost use Rattle.monitor_runs.specs.ThreadRun as threads;

use crate::play_fault::PlayFault;
use crate::steps::{scenario_from, write_text};
use devices::{Sink, Source};
use monitor_runs::threads_text;
use std::alloc::Global;
use std::sync::Wait;
use std::thread::Threads;
use world_runs::{Verdict, run_text};

/// Plays the scenario of a source in the world of turns, and writes its texts and the verdict's line.
/// After `Write` the sink has taken a beginning of them, and after any other fault nothing.
pub fn play_turns<S: Source, K: Sink>(
    alloc: Global,
    source: &mut S,
    sink: &mut K,
) -> Result<Verdict, PlayFault>
    ensures played { IsPlay turns.IsPrinted
        (reading S.gives S.is_ended S.left S.refuses S.failures source.old source.new)
        (writing K.taken K.contents K.room K.failures sink.old sink.new)
        result }
    ensures alone { IfErr result (λ fault. (fault ≢ PlayFault.Thread) × (fault ≢ PlayFault.Disagrees)) }
{
    let scenario = scenario_from(alloc, source)?;
    let mut text = Vec::new(alloc);
    let verdict = run_text(alloc, &scenario, &mut text)?;
    write_text(text.as_slice(), sink)?;
    Ok(verdict)
}

/// Runs the scenario of a source on threads, one for each CPU, and writes its texts and the verdict's line.
/// After `Write` the sink has taken a beginning of them, and after any other fault nothing.
pub fn play_threads<R: Threads + Wait + Sync, S: Source, K: Sink>(
    rt: &R,
    alloc: Global,
    source: &mut S,
    sink: &mut K,
) -> Result<Verdict, PlayFault>
    ensures { IsPlay threads.IsPrinted
        (reading S.gives S.is_ended S.left S.refuses S.failures source.old source.new)
        (writing K.taken K.contents K.room K.failures sink.old sink.new)
        result }
{
    let scenario = scenario_from(alloc, source)?;
    let mut text = Vec::new(alloc);
    let verdict = threads_text(rt, alloc, &scenario, &mut text)?;
    write_text(text.as_slice(), sink)?;
    Ok(verdict)
}
