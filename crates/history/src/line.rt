//! The first line of a history.

ghost use Rattle.std.specs.Prelude.{◌≡◌, IfSome, IfNone};
ghost use Rattle.rmm_spec.specs.declared.version.Version.{Version};
ghost use Rattle.rmm_spec.specs.HistoryText.{mark};
ghost use Rattle.rmm_spec.specs.Text.{parts_of};
ghost use Rattle.history.specs.Spelling.{IsHeaderOf, IsNoHeader};

use memory_map::Config;
use rmi_codec::{Parts, decimal_from};
use rmm_spec::Version;

/// The machine's size and its version that a header spells.
pub fn header_from(bytes: &[u8]) -> Option<Config>
    ensures found { IfSome result (IsHeaderOf (parts_of bytes.now)) }
    ensures none { IfNone result (IsNoHeader (parts_of bytes.now)) }
{
    let mut parts = Parts::of(bytes);
    let version = version_from(parts.next_part()?)?;
    let granules = decimal_from(parts.next_part()?)?;
    let cpus = decimal_from(parts.next_part()?)?;
    match parts.next_part() {
        None => Config::of(granules, cpus, version),
        Some(_) => None,
    }
}

// The version that the format's name stands for.
fn version_from(name: &[u8]) -> Option<Version>
    ensures found { IfSome result (λ version. name.now ≡ mark version) }
    ensures none { IfNone result ((version : Version) → name.now ≡ mark version → ⊥) }
{
    match name {
        b"rmh1" => Some(Version::One),
        b"rmh2" => Some(Version::Two),
        b"rml1" => Some(Version::Large),
        _ => None,
    }
}
