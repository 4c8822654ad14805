//! The program over any runtime: words, files, the output, the exit status.

ghost use Rattle.std.specs.Prelude.{◌≡◌, ◌≤◌, Ok, IfOk, IfErr, map, string_bytes};
ghost use Rattle.check_command.specs.Ending.{status_of};
ghost use Rattle.devices.specs.Sink.{writing};
ghost use Rattle.devices.specs.Source.{reading};
ghost use Rattle.run_commands.specs.Sources.{EndsPlay, IsPlayInTurns, IsPlayOnThreads};
ghost use Rattle.run_commands.specs.Faults.{fault_status, play_fault, run_status, scenario_status, EndsThreads, EndsTurns, HasCause};

use crate::fault::{ProgramFault, RunFault};
use crate::{PlayFault, play_threads, play_turns};
use check_command::{CheckFault, Fault, Paths, check_files, end_check, opened, words_of};
use checker::Verdict;
use devices::{FileSource, OutputSink, Sink, Source};
use rmmcheck_arguments::{Request, request_given};
use scenario::ScenarioFault;
use std::alloc::Global;
use std::io;
use std::rt::{Env, Files};
use std::sync::Wait;
use std::thread::Threads;

/// Runs the program and returns its exit status: 0 for yes, 1 for no, 2 for words, scenario or texts at fault, 3 for a device,
/// memory or a thread. Threads are started and waited for by `threads`, and by the words `threads SCENARIO` alone. Where the
/// line of a fault can't be written to standard error, the status alone reports it.
pub fn run<R: Env + Files + Print + Eprint + AllocGlobal, T: Threads + Wait + Sync>(
    rt: &R,
    threads: &T,
) -> u8
    ensures { result ≤ 3 }
{
    let words = words_of(rt);
    let outcome = match &words {
        Ok(words) => serve(rt, threads, words.as_slice()),
        Err(fault) => Err(ProgramFault::Check(*fault)),
    };
    end(rt, outcome)
}

// Does what the words ask for.
fn serve<'a, R: Files + Print + AllocGlobal, T: Threads + Wait + Sync>(
    rt: &R,
    threads: &T,
    words: &'a [String],
) -> Result<Verdict, ProgramFault<'a>>
    ensures { IfErr result (HasCause (map string_bytes words.now)) }
{
    match request_given(rt.alloc(), words) {
        Ok(
            Request::Check {
                history,
                certificate,
            },
        ) => Ok(check_files(
            rt,
            Paths {
                history,
                certificate,
            },
        )?),
        Ok(Request::Run(scenario)) => run_file(rt, scenario),
        Ok(Request::Threads(scenario)) => run_file_on(rt, threads, scenario),
        Err(fault) => Err(ProgramFault::from(fault)),
    }
}

// Plays the file's scenario in turns. What is printed of it goes to standard output.
fn run_file<'a, R: Files + Print + AllocGlobal>(
    rt: &R,
    path: &'a str,
) -> Result<Verdict, ProgramFault<'a>>
    ensures { IfErr result (EndsTurns path.entry) }
{
    let mut source = FileSource::new(opened(rt, path)?);
    let mut sink = OutputSink::new(rt.alloc(), io::writer(rt));
    run_source(rt.alloc(), path, &mut source, &mut sink)
}

// Plays in turns the scenario that a source gives of the file at that path. What is printed of it goes to the sink.
fn run_source<'a, S: Source, K: Sink>(
    alloc: Global,
    path: &'a str,
    source: &mut S,
    sink: &mut K,
) -> Result<Verdict, ProgramFault<'a>>
    ensures played { EndsPlay (IsPlayInTurns
        (reading S.gives S.is_ended S.left S.refuses S.failures source.old source.new)
        (writing K.taken K.contents K.room K.failures sink.old sink.new)) path.entry result }
    ensures ends { IfErr result (EndsTurns path.entry) }
{
    match play_turns(alloc, source, sink) {
        Ok(verdict) => Ok(verdict),
        Err(fault) => Err(fault_of_play(path, fault)),
    }
}

// The same on threads.
fn run_file_on<'a, R: Files + Print + AllocGlobal, T: Threads + Wait + Sync>(
    rt: &R,
    threads: &T,
    path: &'a str,
) -> Result<Verdict, ProgramFault<'a>>
    ensures { IfErr result (EndsThreads path.entry) }
{
    let mut source = FileSource::new(opened(rt, path)?);
    let mut sink = OutputSink::new(rt.alloc(), io::writer(rt));
    run_source_on(threads, rt.alloc(), path, &mut source, &mut sink)
}

// The same on threads.
fn run_source_on<'a, T: Threads + Wait + Sync, S: Source, K: Sink>(
    threads: &T,
    alloc: Global,
    path: &'a str,
    source: &mut S,
    sink: &mut K,
) -> Result<Verdict, ProgramFault<'a>>
    ensures played { EndsPlay (IsPlayOnThreads
        (reading S.gives S.is_ended S.left S.refuses S.failures source.old source.new)
        (writing K.taken K.contents K.room K.failures sink.old sink.new)) path.entry result }
    ensures ends { IfErr result (EndsThreads path.entry) }
{
    match play_threads(threads, alloc, source, sink) {
        Ok(verdict) => Ok(verdict),
        Err(fault) => Err(fault_of_play(path, fault)),
    }
}

// What ends the program where the file at that path isn't played.
fn fault_of_play<'a>(path: &'a str, fault: PlayFault) -> ProgramFault<'a>
    ensures { result ≡ play_fault path.entry fault }
{
    match fault {
        PlayFault::Read => ProgramFault::Check(CheckFault::Device(Fault::CannotRead(path))),
        PlayFault::Scenario(refused) => ProgramFault::Run(RunFault::Scenario(refused)),
        PlayFault::Write => ProgramFault::Check(CheckFault::Device(Fault::CannotWrite)),
        PlayFault::NoMemory => ProgramFault::Check(CheckFault::Device(Fault::NoMemory)),
        PlayFault::Thread => ProgramFault::Run(RunFault::NoThread),
        PlayFault::Disagrees => ProgramFault::Run(RunFault::Disagrees),
    }
}

// Writes the fault's line, where there is one.
fn end<R: Eprint>(rt: &R, outcome: Result<Verdict, ProgramFault<'_>>) -> u8
    ensures ok { IfOk outcome.entry (λ verdict. result ≡ status_of (Ok verdict)) }
    ensures err { IfErr outcome.entry (λ fault. result ≡ fault_status fault) }
    ensures most { result ≤ 3 }
{
    match outcome {
        Ok(verdict) => end_check(rt, Ok(verdict)),
        Err(ProgramFault::Check(fault)) => end_check(rt, Err(fault)),
        Err(ProgramFault::Run(fault)) => {
            let _ = rt.eprintln(fault);
            status_of_run(fault)
        }
    }
}

// The exit status after a run's fault.
fn status_of_run(fault: RunFault) -> u8
    ensures status { result ≡ run_status fault }
    ensures most { result ≤ 3 }
{
    match fault {
        RunFault::Scenario(refused) => status_of_scenario(refused),
        RunFault::NoThread | RunFault::Disagrees => 3,
    }
}

// The exit status where a file states no scenario.
fn status_of_scenario(refused: ScenarioFault) -> u8
    ensures status { result ≡ scenario_status refused }
    ensures most { result ≤ 3 }
{
    match refused {
        ScenarioFault::NoMemory => 3,
        _ => 2,
    }
}
