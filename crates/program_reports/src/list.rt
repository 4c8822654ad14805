//! Lists of objects.

ghost use Rattle.std.specs.Prelude.{◌≤◌, map};
ghost use Rattle.serde_json.specs.Data.{items_depth};
ghost use Rattle.serde_json.specs.View.{items_of, view};

use crate::object::Object;
use serde_json::Value;
use std::alloc::{AllocError, Global};

/// A list, of which each item nests no deeper than the bound.
#[derive(Drop)]
pub struct List {
    items: Vec<Value>,
    pub bound: u8,
    ghost shallow: { items_depth (items_of (map view items.items)) ≤ bound },
}

impl List {
    ghost use Rattle.std.specs.Prelude.{◌≡◌, ◌+◌, ◌<◌, [], ◌∷◌, ◌++◌, OnErr, OnOk};
    ghost use Rattle.serde_json.specs.Data.{array, depth, object};
    ghost use Rattle.program_reports.specs.Contents.{data_in, members_in};

    /// No item yet.
    pub fn new(alloc: Global, bound: u8) -> List
        ensures empty { data_in result ≡ [] }
        ensures bound { result.bound ≡ bound }
    {
        List {
            items: Vec::new(alloc),
            bound,
        }
    }

    /// Appends an object, or nothing where memory is refused.
    #[tactic(auto, using(crate::proofs::Depths::items_depth_pushed))]
    pub fn push(&mut self, item: Object) -> Result<(), AllocError>
        requires { item.bound < self.old.bound }
        ensures ok { OnOk result (data_in self.new ≡ data_in self.old ++ object (members_in item) ∷ []) }
        ensures err { OnErr result (data_in self.new ≡ data_in self.old) }
        ensures bound { self.new.bound ≡ self.old.bound }
    {
        let value = item.into_value();
        serde_json::push(&mut self.items, value)?;
        Ok(())
    }

    /// The list as a value.
    pub(crate) fn into_value(self) -> Value
        ensures is { view result ≡ array (items_of (data_in self)) }
        ensures shallow { depth (view result) ≤ self.bound + 1 }
    {
        Value::Array(self.items)
    }
}
