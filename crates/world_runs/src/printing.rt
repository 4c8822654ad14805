//! The texts of a run.

ghost use Rattle.std.specs.Prelude.{◌≡◌, ◌++◌, ◌↔◌, length, IfOk, OnErr};
ghost use Rattle.rmm_spec.specs.declared.verdict.Verdict.TheVariants.{Yes};
ghost use Rattle.rmm_spec.specs.CertificateText.{certificate_text};
ghost use Rattle.rmm_spec.specs.HistoryText.{history_text};
ghost use Rattle.rmm_spec.specs.Judgement.{Judges};
ghost use Rattle.rmm_spec.specs.Linearization.{IsLinearization};
ghost use Rattle.world_runs.specs.RunText.{run_text};

use certificate::Certificate;
use checker::{Verdict, check, verdict_text};
use history::History;
use std::alloc::{AllocError, Global};

/// Appends the texts of a history and of a certificate, each with an empty line behind it, and the line of the verdict on
/// them, which it returns. Where memory is refused, nothing is appended.
pub fn print_run(
    alloc: Global,
    history: &History,
    certificate: &Certificate,
    out: &mut Vec<u8>,
) -> Result<Verdict, AllocError>
    ensures text { IfOk result (λ judged. out.new.items ≡ out.old.items ++ run_text history.now.recorded certificate.now.lines judged) }
    ensures right { IfOk result (λ judged. Judges judged (history_text history.now.recorded) (certificate_text certificate.now.lines)) }
    ensures valid { IfOk result (λ judged. (judged ≡ Yes (length certificate.now.lines))
        ↔ IsLinearization history.now.recorded certificate.now.lines) }
    ensures err { OnErr result (out.new.items ≡ out.old.items) }
{
    let _fact = history.well_formed();
    let _fact = certificate.len();
    let mut text = Vec::new(alloc);
    text_writers::write_history(history, &mut text)?;
    let mut lines = Vec::new(alloc);
    text_writers::write_certificate(certificate, &mut lines)?;
    let verdict = check(alloc, text.as_slice(), lines.as_slice())?;
    text.push(b'\n')?;
    text.extend_from_slice(lines.as_slice())?;
    text.push(b'\n')?;
    verdict_text(&verdict, &mut text)?;
    out.extend_from_slice(text.as_slice())?;
    Ok(verdict)
}
