//! The hashes that a realm can be measured with.

/// The hash of a realm's measurements (DEN0137, RmiHashAlgorithm).
#[derive(Clone, Copy)]
pub enum HashAlgorithm {
    Sha256,
    Sha512,
}

impl HashAlgorithm {
    ghost use Rattle.std.specs.Prelude.{◌≡◌, ◌↔◌, IfSome, IsSome, IsTrue};
    ghost use Rattle.rmm_spec.specs.Lookup.{is_hash};
    ghost use Rattle.realm_desc.specs.View.{algorithm_number};

    /// The hash that a command's word stands for.
    pub fn of(word: u64) -> Option<HashAlgorithm>
        ensures found { IsSome result ↔ IsTrue (is_hash word) }
        ensures number { IfSome result (λ algorithm. algorithm_number algorithm ≡ word) }
    {
        match word {
            0 => Some(HashAlgorithm::Sha256),
            1 => Some(HashAlgorithm::Sha512),
            _ => None,
        }
    }

    /// The word that stands for it.
    pub fn number(self) -> u8
        ensures { result ≡ algorithm_number self }
    {
        match self {
            HashAlgorithm::Sha256 => 0,
            HashAlgorithm::Sha512 => 1,
        }
    }
}
