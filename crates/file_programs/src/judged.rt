//! The end of a report: what judged which bytes.

ghost use Rattle.std.specs.Prelude.{◌≡◌, ◌++◌, OnOk, OnErr, string_bytes, IfOk};
ghost use Rattle.hex.specs.Hex.{encode_lower};
ghost use Rattle.sha2.specs.Sha256.{sha256};
ghost use Rattle.file_programs.specs.Texts.{digest_line, judged_lines, release_line};

use crate::version::{KIT, RULES, VERSION};
use sha2::{Digest, Sha256};
use std::alloc::{AllocError, Global};

/// A text that was judged, and what a report calls it.
#[derive(Clone, Copy)]
pub struct Judged<'a> {
    pub name: &'a str,
    pub bytes: &'a [u8],
}

/// Appends the release and the SHA-256 of each text, or nothing where memory is refused.
pub fn append_judged(
    alloc: Global,
    texts: &[Judged<'_>],
    out: &mut Vec<u8>,
) -> Result<(), AllocError>
    ensures ok { OnOk result (out.new.items ≡ out.old.items ++ judged_lines texts.now) }
    ensures err { OnErr result (out.new.items ≡ out.old.items) }
{
    let mut lines = release(alloc)?;
    for text in texts {
        let line = digest(alloc, *text)?;
        lines.push_str(line.as_str())?;
    }
    out.extend_from_slice(lines.as_bytes())
}

// The line of the release, after an empty one.
fn release(alloc: Global) -> Result<String, AllocError>
    ensures { IfOk result (λ line. string_bytes line ≡ release_line) }
{
    format!(in alloc; "\nversion {VERSION}, rules {RULES}, proved with {KIT}\n")
}

// The line of a text.
fn digest(alloc: Global, text: Judged<'_>) -> Result<String, AllocError>
    ensures { IfOk result (λ line. string_bytes line ≡ digest_line text.entry) }
{
    let digits = digits_of(alloc, text.bytes)?;
    let name = text.name;
    format!(in alloc; "SHA-256 of the {name}: {digits}\n")
}

// The SHA-256 in hex.
fn digits_of(alloc: Global, bytes: &[u8]) -> Result<String, AllocError>
    ensures { IfOk result (λ digits. string_bytes digits ≡ encode_lower (sha256 bytes.now)) }
{
    let digest = Sha256::digest(bytes);
    hex::encode(alloc, digest.as_slice())
}
