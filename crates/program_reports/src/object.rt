//! Objects.

ghost use Rattle.std.specs.Prelude.{◌≤◌};
ghost use Rattle.serde_json.specs.Data.{members_depth};
ghost use Rattle.serde_json.specs.View.{members_view};

use crate::list::List;
use serde_json::{Map, Value};
use std::alloc::{AllocError, Global};

/// An object, of which each member nests no deeper than the bound.
#[derive(Drop)]
pub struct Object {
    members: Map<String, Value>,
    pub bound: u8,
    alloc: Global,
    ghost shallow: { members_depth (members_view members.entries) ≤ bound },
}

impl Object {
    ghost use Rattle.std.specs.Prelude.{◌≡◌, ◌+◌, ◌<◌, Some, IfOk, OnErr, OnOk, string_bytes};
    ghost use Rattle.serde_json.specs.Data.{array, boolean, depth, no_members, number, object, put as with_member, string, unsigned};
    ghost use Rattle.serde_json.specs.Read.{read};
    ghost use Rattle.serde_json.specs.View.{items_of, view};
    ghost use Rattle.program_reports.specs.Contents.{data_in, members_in};

    /// No member yet.
    pub fn new(alloc: Global, bound: u8) -> Object
        ensures empty { members_in result ≡ no_members }
        ensures bound { result.bound ≡ bound }
    {
        Object {
            members: Map::new(alloc),
            bound,
            alloc,
        }
    }

    /// Puts a text in under a name, in place of what was there. Where memory is refused, nothing changes: so with the others.
    pub fn text(&mut self, name: &str, text: &str) -> Result<(), AllocError>
        ensures ok { OnOk result (members_in self.new ≡ with_member name.now (string text.now) (members_in self.old)) }
        ensures err { OnErr result (members_in self.new ≡ members_in self.old) }
        ensures bound { self.new.bound ≡ self.old.bound }
    {
        let text = String::from_str(self.alloc, text)?;
        self.put(name, Value::String(text))
    }

    pub fn number(&mut self, name: &str, given: u64) -> Result<(), AllocError>
        ensures ok { OnOk result (members_in self.new ≡ with_member name.now (number (unsigned given)) (members_in self.old)) }
        ensures err { OnErr result (members_in self.new ≡ members_in self.old) }
        ensures bound { self.new.bound ≡ self.old.bound }
    {
        self.put(name, Value::from(given))
    }

    pub fn flag(&mut self, name: &str, flag: bool) -> Result<(), AllocError>
        ensures ok { OnOk result (members_in self.new ≡ with_member name.now (boolean flag) (members_in self.old)) }
        ensures err { OnErr result (members_in self.new ≡ members_in self.old) }
        ensures bound { self.new.bound ≡ self.old.bound }
    {
        self.put(name, Value::Bool(flag))
    }

    pub fn object(&mut self, name: &str, inner: Object) -> Result<(), AllocError>
        requires { inner.bound < self.old.bound }
        ensures ok { OnOk result (members_in self.new ≡ with_member name.now (object (members_in inner)) (members_in self.old)) }
        ensures err { OnErr result (members_in self.new ≡ members_in self.old) }
        ensures bound { self.new.bound ≡ self.old.bound }
    {
        self.put(name, inner.into_value())
    }

    pub fn list(&mut self, name: &str, list: List) -> Result<(), AllocError>
        requires { list.bound < self.old.bound }
        ensures ok { OnOk result (members_in self.new ≡ with_member name.now (array (items_of (data_in list))) (members_in self.old)) }
        ensures err { OnErr result (members_in self.new ≡ members_in self.old) }
        ensures bound { self.new.bound ≡ self.old.bound }
    {
        self.put(name, list.into_value())
    }

    #[tactic(auto, using(crate::proofs::Depths::members_depth_put))]
    fn put(&mut self, name: &str, value: Value) -> Result<(), AllocError>
        requires { depth (view value) ≤ self.old.bound }
        ensures ok { OnOk result (members_in self.new ≡ with_member name.now (view value) (members_in self.old)) }
        ensures err { OnErr result (members_in self.new ≡ members_in self.old) }
        ensures bound { self.new.bound ≡ self.old.bound }
    {
        serde_json::put(&mut self.members, self.alloc, name, value)
    }

    /// The object as a value.
    pub(crate) fn into_value(self) -> Value
        ensures is { view result ≡ object (members_in self) }
        ensures shallow { depth (view result) ≤ self.bound + 1 }
    {
        Value::Object(self.members)
    }

    /// The object as one line of JSON text, without a newline.
    pub fn to_text(self) -> Result<String, AllocError>
        requires { self.bound < 127 }
        ensures { IfOk result (λ text. read (string_bytes text) ≡ Some (object (members_in self))) }
    {
        let alloc = self.alloc;
        let value = self.into_value();
        value.to_string(alloc)
    }
}
