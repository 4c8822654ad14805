//! Which key of a document is at fault.

ghost use Rattle.std.specs.Prelude.{◌≡◌, true, IfOk, IfSome};
ghost use Rattle.toml.specs.View.{view, table_view};
ghost use Rattle.scenario.specs.TomlDocument.{document_of, toml_kinds};
ghost use Rattle.scenario_report.specs.Flaws.{IsKeyFlaw};
ghost use Rattle.scenario_report.specs.Keys.{fits, is_unknown};

use crate::{Flaw, Key};
use scenario::{is_key, lists_of_texts, texts, value_at};
use std::alloc::{AllocError, Global};
use toml::{Table, Value};

/// A key that a scenario doesn't have, or else the first of its own that is missing or holds another kind of value.
pub(crate) fn wrong_key<'t>(alloc: Global, table: &'t Table) -> Result<Option<Flaw<'t>>, AllocError>
    ensures { IfOk result (λ found. IfSome found (IsKeyFlaw toml_kinds (document_of (table_view table.now)))) }
{
    if let Some(key) = unknown_key(table) {
        return Ok(Some(Flaw::Unknown { key }));
    }
    for key in Key::ALL {
        if let Some(flaw) = flaw_at(alloc, table, key)? {
            return Ok(Some(flaw));
        }
    }
    Ok(None)
}

// What is wrong at a key.
fn flaw_at<'t>(alloc: Global, table: &'t Table, key: Key) -> Result<Option<Flaw<'t>>, AllocError>
    ensures { IfOk result (λ found. IfSome found (IsKeyFlaw toml_kinds (document_of (table_view table.now)))) }
{
    let Some(value) = value_at(table, key.name()) else {
        return Ok(if key.is_needed() {
            Some(Flaw::Missing { key })
        } else {
            None
        });
    };
    Ok(if fits(alloc, value, key)? {
        None
    } else {
        Some(Flaw::Kind { key })
    })
}

// Whether a value is of the kind that the key holds.
fn fits(alloc: Global, value: &Value, key: Key) -> Result<bool, AllocError>
    ensures { IfOk result (λ fits_it. fits_it ≡ fits toml_kinds key (view value.now)) }
{
    Ok(match key {
        Key::Number(_) => value.as_integer().is_some(),
        Key::Programs => lists_of_texts(alloc, value)?.is_some(),
        Key::Turns => texts(alloc, value)?.is_some(),
    })
}

// The first key that a scenario doesn't have.
fn unknown_key(table: &Table) -> Option<&str>
    ensures { IfSome result (λ key. is_unknown key.now (document_of (table_view table.now)) ≡ true) }
{
    for key in table.keys() {
        if is_unknown(table, key.as_str()) {
            return Some(key.as_str());
        }
    }
    None
}

// Whether something stands at a key that a scenario doesn't have.
fn is_unknown(table: &Table, key: &str) -> bool
    ensures { result ≡ is_unknown key.now (document_of (table_view table.now)) }
{
    value_at(table, key).is_some() && !is_key(key)
}
