//! Certificates, written as texts.

ghost use Rattle.std.specs.Prelude.{◌≡◌, ◌+◌, ◌<◌, ◌≤◌, ◌++◌, [], ◌∷◌, length, take, vec_len, vec_capacity, OnOk, OnErr};
ghost use Rattle.certificate.specs.LineRef.{line_seen};
ghost use Rattle.text_writers.specs.Beginning.{IsBeginning};
ghost use Rattle.rmm_spec.specs.CertificateText.{certificate_text, line_parts};
ghost use Rattle.rmm_spec.specs.Text.{line_text};

use crate::heads::push_head;
use crate::replies::push_reply;
use crate::whole::all_or_nothing;
use certificate::{Certificate, LineRef};
use rmm_spec::{Line, Reply};
use std::alloc::AllocError;

/// Appends a certificate's text, or nothing where memory is refused, which it is only where the buffer has no room for the text.
pub fn write_certificate(certificate: &Certificate, out: &mut Vec<u8>) -> Result<(), AllocError>
    ensures ok { OnOk result (out.new.items ≡ out.old.items ++ certificate_text certificate.now.lines) }
    ensures err { OnErr result (out.new.items ≡ out.old.items) }
    ensures full { OnErr result (vec_capacity out.old < vec_len out.old + length (certificate_text certificate.now.lines)) }
{
    let start = out.len();
    let written = push_certificate(out, certificate);
    all_or_nothing(out, start, written)
}

// Appends a certificate's text. Where memory is refused, a beginning of it may have been appended.
fn push_certificate(out: &mut Vec<u8>, certificate: &Certificate) -> Result<(), AllocError>
    ensures ok { OnOk result (out.new.items ≡ out.old.items ++ certificate_text certificate.now.lines) }
    ensures kept { OnErr result (take (length out.old.items) out.new.items ≡ out.old.items) }
    ensures beginning { OnErr result (IsBeginning out.new.items (out.old.items ++ certificate_text certificate.now.lines)) }
    ensures full { OnErr result (vec_capacity out.old < vec_len out.old + length (certificate_text certificate.now.lines)) }
    ensures capacity { vec_capacity out.old ≤ vec_capacity out.new }
{
    for i in 0..certificate.len() {
        push_line(out, certificate.line(i))?;
    }
    Ok(())
}

fn push_line(out: &mut Vec<u8>, line: LineRef<'_>) -> Result<(), AllocError>
    ensures ok { OnOk result (out.new.items ≡ out.old.items ++ (line_text (line_parts (line_seen line.entry)) ++ 10 ∷ [])) }
    ensures kept { OnErr result (take (length out.old.items) out.new.items ≡ out.old.items) }
    ensures beginning { OnErr result (IsBeginning out.new.items (out.old.items ++ (line_text (line_parts (line_seen line.entry)) ++ 10 ∷ []))) }
    ensures full { OnErr result (vec_capacity out.old < vec_len out.old + length (line_text (line_parts (line_seen line.entry)) ++ 10 ∷ [])) }
    ensures capacity { vec_capacity out.old ≤ vec_capacity out.new }
{
    push_parts(out, line)?;
    out.push(b'\n')?;
    Ok(())
}

#[tactic(auto, using(std::proofs::lemmas::Grind::common_steps, crate::proofs::LineTexts::line_texts))]
fn push_parts(out: &mut Vec<u8>, line: LineRef<'_>) -> Result<(), AllocError>
    ensures ok { OnOk result (out.new.items ≡ out.old.items ++ line_text (line_parts (line_seen line.entry))) }
    ensures kept { OnErr result (take (length out.old.items) out.new.items ≡ out.old.items) }
    ensures beginning { OnErr result (IsBeginning out.new.items (out.old.items ++ line_text (line_parts (line_seen line.entry)))) }
    ensures full { OnErr result (vec_capacity out.old < vec_len out.old + length (line_text (line_parts (line_seen line.entry)))) }
    ensures capacity { vec_capacity out.old ≤ vec_capacity out.new }
{
    match line {
        LineRef::Keep { cpu, number } => push_head(out, b'k', cpu, number),
        LineRef::Unfinished { cpu, number, reply } => { push_unfinished(out, cpu, number, reply) }
    }
}

#[tactic(auto, using(std::proofs::lemmas::Grind::common_steps, crate::proofs::LineTexts::line_texts))]
fn push_unfinished(out: &mut Vec<u8>, cpu: u8, number: u32, reply: &Reply) -> Result<(), AllocError>
    ensures ok { OnOk result (out.new.items ≡ out.old.items ++ line_text (line_parts (Line.Unfinished cpu number reply.now))) }
    ensures kept { OnErr result (take (length out.old.items) out.new.items ≡ out.old.items) }
    ensures beginning { OnErr result (IsBeginning out.new.items (out.old.items ++ line_text (line_parts (Line.Unfinished cpu number reply.now)))) }
    ensures full { OnErr result (vec_capacity out.old < vec_len out.old + length (line_text (line_parts (Line.Unfinished cpu number reply.now)))) }
    ensures capacity { vec_capacity out.old ≤ vec_capacity out.new }
{
    push_head(out, b'u', cpu, number)?;
    out.push(b' ')?;
    push_reply(out, reply)
}
