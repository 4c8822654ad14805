//! Conditions on a command's words by themselves.

ghost use Rattle.std.specs.Prelude.{◌≡◌, ◌≤◌, ◌^◌, ◌↔◌, ◌&&◌, ◌==◌, not, nat_lt, IfSome, IsSome, IsTrue};
ghost use Rattle.rmm_spec.specs.Lookup.{allows_hash};
ghost use Rattle.rmm_spec.specs.Step.Terms as spec;
ghost use Rattle.rmm_spec.specs.Walk as walk;
ghost use Rattle.realm_desc.specs.View.{algorithm_number};

use memory_map::{entry_size, is_page};
use realm_desc::{HashAlgorithm, Space};
use rmm_spec::Version;

/// Where the host's memory ends: its addresses have 48 bits.
const HOST_END: u64 = 1 << 48;

/// Whether a page of the host begins at the address.
pub fn is_host_page(address: u64) -> bool
    ensures { result ≡ (spec.is_page address && nat_lt address (2 ^ 48)) }
{
    is_page(address) && address < HOST_END
}

/// Whether an entry of the level begins at the address.
pub fn is_aligned(ipa: u64, level: u8) -> bool
    requires { level ≤ 3 }
    ensures { result ≡ walk.is_multiple ipa (walk.entry_size level) }
{
    ipa % entry_size(level) == 0
}

/// Whether a realm's addresses can have so many bits.
pub fn is_width(width: u64) -> bool
    ensures { result ≡ spec.is_width width }
{
    width == 0x27 || width == 0x30
}

/// Whether a realm can have an address space of that width, walked from that level on.
pub fn is_space(width: u64, level: u64) -> bool
    ensures { result ≡ spec.is_space width level }
{
    match Space::of(width, level) {
        Some(_) => true,
        None => false,
    }
}

/// The hash that the word stands for, where the version has it.
pub fn algorithm_in(version: Version, algo: u64) -> Option<HashAlgorithm>
    ensures found { IsSome result ↔ IsTrue (allows_hash version algo) }
    ensures number { IfSome result (λ algorithm. algorithm_number algorithm ≡ algo) }
{
    match (version, algo) {
        (_, 0) => Some(HashAlgorithm::Sha256),
        (Version::Two | Version::Large, 1) => Some(HashAlgorithm::Sha512),
        _ => None,
    }
}

/// Whether a REC and its auxiliary granules are three granules.
pub fn are_apart(rec: u64, aux0: u64, aux1: u64) -> bool
    ensures { result ≡ (not (rec == aux0) && not (rec == aux1) && not (aux0 == aux1)) }
{
    rec != aux0 && rec != aux1 && aux0 != aux1
}
