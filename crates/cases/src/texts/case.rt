//! A case under way.

use crate::texts::answers::{
    page_has, read_certificate, read_history, reported, rewritten_certificate, rewritten_history,
    verdict, why,
};
use crate::texts::causes::since;
use crate::texts::cuts::{cuts, empties, offers};
use crate::texts::outputs::{granule_steps_of, lines_of, object_has, rows_of};
use crate::texts::owners::owners;
use crate::texts::parts::{command_read, reply_read, wrong_event, wrong_header, wrong_line};
use crate::texts::script::Script;
use crate::texts::statement::{Statement, Word};
use anyhow::{Result, bail};
use std::alloc::{AllocError, Global};

/// The inputs that its statements gave so far.
#[derive(Drop)]
pub(crate) struct Case {
    history: String,
    certificate: String,
    header: String,
    script: Script,
}

impl Case {
    pub(crate) fn new(alloc: Global) -> Case {
        Case {
            history: String::new(alloc),
            certificate: String::new(alloc),
            header: String::new(alloc),
            script: Script::none(alloc),
        }
    }

    /// Takes what the statement gives.
    pub(crate) fn take(&mut self, alloc: Global, statement: &Statement<'_>) -> Result<()> {
        match statement.word {
            Word::History => self.history = statement.text(alloc)?,
            Word::Certificate => self.certificate = statement.text(alloc)?,
            Word::Header => self.header = statement.part(alloc)?,
            Word::Script => self.begin(alloc, statement)?,
            Word::Step => self.go_on(alloc, statement.text(alloc)?.as_str())?,
            Word::Try => self.try_steps(alloc, statement.text(alloc)?.as_str())?,
            Word::Why | Word::Since => self.claim(alloc, statement.argument)?,
            _ => {}
        }
        Ok(())
    }

    fn begin(&mut self, alloc: Global, statement: &Statement<'_>) -> Result<()> {
        self.script = Script::on(alloc, statement.argument)?;
        self.go_on(alloc, statement.block.as_str())
    }

    fn go_on(&mut self, alloc: Global, steps: &str) -> Result<()> {
        self.script.add(alloc, steps)?;
        self.try_steps(alloc, "")
    }

    fn try_steps(&mut self, alloc: Global, steps: &str) -> Result<()> {
        let mut run = self.script_so_far(alloc)?;
        run.add(alloc, steps)?;
        self.take_run(run);
        Ok(())
    }

    fn claim(&mut self, alloc: Global, step: &str) -> Result<()> {
        let mut run = self.script_so_far(alloc)?;
        run.claim(alloc, step)?;
        self.take_run(run);
        Ok(())
    }

    /// The history of the texts so far.
    pub(crate) fn history(&self) -> &str {
        self.history.as_str()
    }

    fn script_so_far(&self, alloc: Global) -> Result<Script, AllocError> {
        self.script.copy(alloc)
    }

    // The texts of a script.
    fn take_run(&mut self, script: Script) {
        let Script {
            history,
            certificate,
            ..
        } = script;
        self.history = history;
        self.certificate = certificate;
    }

    /// What the public calls answer to the statement.
    pub(crate) fn answer(&self, alloc: Global, statement: &Statement<'_>) -> Result<String> {
        self.answer_part(alloc, statement.word, statement.part(alloc)?.as_str())
    }

    fn answer_part(&self, alloc: Global, word: Word, part: &str) -> Result<String> {
        let history = self.history.as_str();
        let certificate = self.certificate.as_str();
        match word {
            Word::Report => reported(alloc, history, certificate),
            Word::Why => why(alloc, history, certificate),
            Word::Since => since(alloc, history, certificate),
            Word::Page => page_has(alloc, history, certificate, part),
            Word::Object => object_has(alloc, history, certificate, part),
            Word::Lines => lines_of(alloc, history, certificate),
            Word::Granule => granule_steps_of(alloc, history, certificate, part),
            Word::Rows => rows_of(alloc, history, certificate),
            Word::Cuts => cuts(alloc, history, certificate),
            Word::Empties => empties(alloc, history, certificate, part.parse()?),
            Word::Offers => offers(alloc, history, certificate),
            Word::Owners => owners(alloc, history),
            Word::Read => match part {
                "history" => read_history(alloc, history),
                "certificate" => read_certificate(alloc, certificate),
                _ => bail!("neither the history nor the certificate is read"),
            },
            Word::Rewrite => match part {
                "history" => rewritten_history(alloc, history),
                "certificate" => rewritten_certificate(alloc, certificate),
                _ => bail!("neither the history nor the certificate is rewritten"),
            },
            Word::Command => command_read(alloc, part),
            Word::Reply => reply_read(alloc, part),
            Word::Header => Ok(wrong_header(alloc, part)?),
            Word::Event => Ok(wrong_event(alloc, part, self.header.as_str())?),
            Word::Line => Ok(wrong_line(alloc, part)?),
            _ => verdict(alloc, history, certificate),
        }
    }
}
