//! The close of a run.

ghost use Rattle.std.specs.Prelude.{◌≡◌, ◌<◌, ◌++◌, List, IfOk, IfErr};
ghost use Rattle.rmm_spec.specs.declared.event.Event.{Event};
ghost use Rattle.rmm_spec.specs.Linearization.{IsLinearization};
ghost use Rattle.commit_tickets.specs.declared.unlisted.Unlisted.{Unlisted};
ghost use Rattle.commit_tickets.specs.Listed.{unlisted_entries};
ghost use Rattle.event_queue.specs.View.{AreWhole, CanDrain, count_recorded};
ghost use Rattle.monitor.specs.Closed.{Disagree, IsJournal, IsShort};
ghost use Rattle.monitor.specs.Cpus.{AreCpus};
ghost use Rattle.monitor.specs.declared.close_fault.CloseFault.TheVariants.{NoMemory, Disagrees};

use crate::close_fault::CloseFault;
use crate::journal_lines::certificate_of;
use crate::monitor::Monitor;
use crate::ordered::Ordered;
use certificate::Certificate;
use commit_tickets::{CpuToken, Site};
use event_queue::{CpuPass, History, ScribePass};
use history::MOST_LINES;
use std::alloc::Global;
use std::sync::Wait;

impl<S: Site> Monitor<S> {
    /// Ends a run: drains the rest into the history, and writes the journal as a certificate. It takes what `new` gave, and the
    /// history that the scribe drained into; `fit_a_history` tells whether a history has room for the rest.
    pub fn close<R: Wait>(
        self,
        rt: &R,
        alloc: Global,
        tokens: Vec<CpuToken<S>>,
        passes: Vec<CpuPass>,
        scribe: ScribePass,
        history: History,
    ) -> Result<(History, Certificate), CloseFault>
        requires cpus { AreCpus self tokens.items passes.items }
        requires drain { CanDrain self.queue scribe history.recorded }
        requires config { history.recorded.config ≡ self.config }
        requires room { count_recorded passes.items < MOST_LINES }
        ensures whole { IfOk result (λ closed. AreWhole passes.items closed.0.recorded.events) }
        ensures history { IfOk result (λ closed. (rest : List Event)
            × (closed.0.recorded ≡ record history.recorded { events = history.recorded.events ++ rest })) }
        ensures linearization { IfOk result (λ closed.
            IsLinearization (record { config = self.config; events = closed.0.recorded.events }) closed.1.lines) }
        ensures certificate { IfOk result (λ closed. IsJournal self.config tokens.items closed.0.recorded.events closed.1.lines) }
        ensures cause { IfErr result (λ fault. (unlisted : Unlisted) → fault ≡ Disagrees unlisted
            → Disagree self.config tokens.items (unlisted_entries unlisted)) }
        ensures short { IfErr result (λ fault. fault ≡ NoMemory → IsShort history tokens.items passes.items) }
    {
        let _fact = self.config.cpus();
        let Monitor {
            journal,
            recorder,
            granules,
            ..
        } = self;
        drop(granules);
        let (mut scribe, mut passes, mut history) = (scribe, passes, history);
        let passes = passes.as_mut_slice();
        recorder.drain_rest(rt, &mut scribe, passes, &mut history)?;
        let Ordered { mut journal, order } = journal.into_inner();
        recorder.keeps_real_time(rt, &mut scribe, order, passes);
        drop(recorder);
        drop(scribe);
        let mut tokens = tokens;
        let tokens = tokens.as_mut_slice();
        journal.audit(tokens);
        if let Err(unlisted) = journal.compare(tokens) {
            return Err(CloseFault::Disagrees(unlisted));
        }
        let certificate = certificate_of(alloc, &journal, &history)?;
        Ok((history, certificate))
    }
}
