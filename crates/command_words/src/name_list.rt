//! A few named granules.

ghost use Rattle.std.specs.Prelude.{◌≤◌};

use rmm_spec::Tag;
use std::marker::Model;

/// A granule, by its address, and the tag that is needed there.
#[derive(Clone, Copy)]
pub struct Name {
    pub granule: u64,
    pub tag: Tag,
}

impl Model for Name {
    ghost use Rattle.rmm_spec.specs.Rows.{Needed};

    ghost Value = { Needed };

    ghost view = { λ n. record { granule = n.granule; tag = n.tag } };

    ghost inverse = { λ n. record { granule = n.granule; tag = n.tag } };
}

/// Up to four names: the first ones of a list.
#[derive(Clone, Copy)]
pub struct Names {
    pub(crate) list: [Name; 4],
    pub(crate) count: usize,
    ghost few: { count ≤ 4 },
}
