//! Certificates made, and read line by line.

ghost use Rattle.std.specs.Prelude.{◌↔◌, IsTrue};
ghost use Rattle.rmm_spec.specs.CertificateText.{IsLine};

use crate::histories::{is_behind, parts};
use certificate::{Certificate, Line, LineRef, Reply, read};
use rmi_codec::{read_reply, reply_has_text};
use std::alloc::Global;
use std::test::Fail;
use text_writers::{certificate_reads_back, write_certificate};

const TEXT: &str = "k 7 999999\nu 0 10 ok ffffffffffffffff\nk 1 0\nu 3 1 misplaced\n";

// What a line of a certificate's text states.
fn line(text: &str) -> Result<Line, Fail> {
    match (parts(text), kept(text)) {
        (Some((_, cpu, number, reply)), _) => unfinished(cpu, number, reply),
        (None, Some((cpu, number))) => Ok(Line::Keep { cpu, number }),
        (None, None) => Err(Fail::from("no line")),
    }
}

fn kept(text: &str) -> Option<(u8, u32)> {
    let (_word, rest) = text.split_once(' ')?;
    let (cpu, number) = rest.split_once(' ')?;
    Some((cpu.parse::<u8>().ok()?, number.parse::<u32>().ok()?))
}

fn unfinished(cpu: u8, number: u32, reply: &str) -> Result<Line, Fail> {
    Ok(Line::Unfinished {
        cpu,
        number,
        reply: read_reply(reply)?,
    })
}

// Whether a line can stand in a certificate.
fn is_line(line: &Line) -> bool
    ensures { IsTrue result ↔ IsLine line.now }
{
    match line {
        Line::Keep { cpu, number } => *cpu < 8 && *number < 1_000_000,
        Line::Unfinished { cpu, number, reply } => {
            let _fact = reply_has_text(reply);
            *cpu < 8 && *number < 1_000_000
        }
    }
}

fn claim(certificate: &mut Certificate, line: Line) -> Result<(), Fail> {
    if !is_line(&line) || !certificate.has_room() {
        return Err(Fail::from("no line"));
    }
    certificate.push(line)?;
    Ok(())
}

fn claim_lines(certificate: &mut Certificate, text: &str) -> Result<(), Fail> {
    for stated in text.lines() {
        claim(certificate, line(stated)?)?;
    }
    Ok(())
}

// Whether the text is appended to what stands already.
fn has_text(alloc: Global, certificate: &Certificate) -> Result<bool, Fail> {
    let mut text = Vec::new(alloc);
    text.extend_from_slice(b"before ")?;
    write_certificate(certificate, &mut text)?;
    Ok(is_behind(text.as_slice(), TEXT))
}

fn comes_back(alloc: Global, certificate: &Certificate) -> Result<bool, Fail> {
    let again = certificate_reads_back(alloc, certificate)?;
    is_whole(alloc, &again)
}

fn is_whole(alloc: Global, certificate: &Certificate) -> Result<bool, Fail> {
    Ok(certificate.len() == 4 && has_text(alloc, certificate)?)
}

fn is_written(alloc: Global, certificate: &Certificate) -> Result<bool, Fail> {
    Ok(has_text(alloc, certificate)? && comes_back(alloc, certificate)?)
}

#[test]
fn writes_what_is_claimed(rt: HostRuntime) -> Result<(), Fail> {
    let mut certificate = Certificate::new(rt.alloc());
    claim_lines(&mut certificate, TEXT)?;
    assert!(rt; is_written(rt.alloc(), &certificate)?);
    Ok(())
}

fn has_its_lines(lines: &Certificate) -> bool {
    lines.len() == 3
        && matches!(
            lines.line(0),
            LineRef::Unfinished {
                cpu: 0,
                number: 0,
                reply: Reply::Err(255, 0),
            }
        )
        && matches!(lines.line(1), LineRef::Keep { cpu: 1, number: 0 })
        && matches!(
            lines.line(2),
            LineRef::Keep {
                cpu: 7,
                number: 999_999,
            }
        )
}

// Whether no text has no line.
fn is_empty(alloc: Global) -> Result<bool, Fail> {
    Ok(read(alloc, b"")?.is_empty())
}

#[test]
fn reads_each_line(rt: HostRuntime) -> Result<(), Fail> {
    assert!(rt; is_empty(rt.alloc())?);
    let lines = read(rt.alloc(), b"u 0 0 err 255 0\nk 1 0\nk 7 999999\n")?;
    assert!(rt; has_its_lines(&lines));
    Ok(())
}
