//! A journal before the first commit, with the tokens of its CPUs.

ghost use Rattle.std.specs.Prelude.{◌≡◌, IfOk};
ghost use Rattle.commit_tickets.specs.Opening.{IsOpening};
ghost use Rattle.commit_tickets.specs.View.{first_tokens};

use crate::journal::Journal;
use crate::site::Site;
use crate::token::CpuToken;
use command_core::{CpuPlace, Side};
use command_log::CommandLog;
use memory_map::Config;
use spec_machine::Machine;
use std::alloc::{AllocError, Global};
use std::sync::ledger::Blank;

impl<S: Site> Journal<S> {
    /// A journal without commits, on a machine in which every granule is the host's, and a token for each CPU. The blank is
    /// that of the site's ledger, with one part for each CPU. Memory is refused where a table of the machine, the side table
    /// or the list of tokens finds none; then there is nothing.
    pub fn new(
        alloc: Global,
        blank: Blank,
        config: Config,
    ) -> Result<(Journal<S>, Vec<CpuToken<S>>), AllocError>
        requires name { blank.name ≡ S.name }
        requires parts { blank.parts ≡ S.parts }
        requires one_each { blank.parts ≡ config.cpus }
        requires site { config ≡ S.config }
        ensures journal { IfOk result (λ made. IsOpening config made.0) }
        ensures tokens { IfOk result (λ made. made.1.items ≡ first_tokens config.cpus) }
    {
        let (commits, mut rest) = blank.open::<S>();
        let mut tokens = Vec::new(alloc);
        for cpu in 0..config.cpus() {
            tokens.push(CpuToken {
                cpu,
                place: CpuPlace::Outside,
                is_stopped: false,
                mine: CommandLog::new(alloc),
                fault: None,
                seen: 0,
                share: rest.split_off(1, 0),
            })?;
        }
        let journal = Journal {
            config,
            entries: CommandLog::new(alloc),
            books: Machine::new(alloc, config)?,
            side: Side::new(alloc)?,
            commits,
        };
        Ok((journal, tokens))
    }
}
