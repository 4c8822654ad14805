//! The lines of an order that is known by its CPUs.

ghost use Rattle.std.specs.Prelude.{IfSome};
ghost use Rattle.rmm_spec.specs.CertificateText.{IsLine};

use arrayvec::ArrayVec;
use certificate::Certificate;
use guessing::Claim;
use history::History;
use rmi_codec::reply_has_text;
use rmi_view::copied_reply;
use rmm_spec::{Line, Reply};
use std::alloc::{AllocError, Global};

/// The certificate of the next calls of the CPUs, one after another, up to one that isn't there.
pub(crate) fn certificate_of(
    alloc: Global,
    history: &History,
    cpus: &[u8],
    claims: &[Claim],
) -> Result<Certificate, AllocError> {
    let mut certificate = Certificate::new(alloc);
    let mut counts = [0u32; 8];
    for cpu in cpus {
        let Some(count) = counts.get_mut(usize::from(*cpu)) else {
            break;
        };
        let Some(line) = next_line(history, *cpu, *count, claims) else {
            break;
        };
        if !certificate.has_room() {
            break;
        }
        certificate.push(line)?;
        *count = count.saturating_add(1);
    }
    Ok(certificate)
}

/// The line of a CPU's call.
fn next_line(history: &History, cpu: u8, number: u32, claims: &[Claim]) -> Option<Line>
    ensures { IfSome result IsLine }
{
    let _fact = history.well_formed();
    let Some(places) = history.places_of(cpu, number) else {
        return None;
    };
    if places.returned.is_some() {
        return Some(Line::Keep { cpu, number });
    }
    let reply = claimed(claims, cpu);
    let _fact = reply_has_text(&reply);
    Some(Line::Unfinished { cpu, number, reply })
}

/// What is claimed of the CPU's open call, or else that it was carried out.
fn claimed(claims: &[Claim], cpu: u8) -> Reply {
    for claim in claims {
        if claim.cpu == cpu {
            return copied_reply(&claim.reply);
        }
    }
    Reply::Ok(ArrayVec::new())
}
