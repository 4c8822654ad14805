//! The keys of a document, and what they hold.

ghost use Rattle.std.specs.Prelude.{◌≡◌, [], IfOk, IfErr, codes, option_map, option_and_then};
ghost use Rattle.std.specs.List.{list_all};
ghost use Rattle.toml.specs.Data.{get_member, as_integer, as_str};
ghost use Rattle.toml.specs.View.{view, table_view, array_view};
ghost use Rattle.rmm_spec.specs.ScenarioKeys.{States, is_key, each_value, texts, lists_of_texts, or_left_out};
ghost use Rattle.scenario.specs.ScenarioText.{IsKeyFault};
ghost use Rattle.scenario.specs.TomlDocument.{items_in, toml_kinds, keys_in, document_of};
ghost use Rattle.scenario.specs.SeenTexts.{seen_texts, seen_lists, stated_seen};

use crate::fault::ScenarioFault;
use std::alloc::{AllocError, Global};
use toml::value::Array;
use toml::{Table, Value};

/// What a document says under its keys, before anybody asks whether the numbers and texts make sense.
#[derive(Drop)]
pub struct Stated<'t> {
    pub granules: i64,
    pub cpus: i64,
    pub programs: Vec<Vec<&'t str>>,
    pub queue: i64,
    pub turns: Vec<&'t str>,
    pub limit: i64,
    pub version: i64,
}

impl<'t> Stated<'t> {
    /// What a table says, where it has all keys that have to be there and no others, and each holds what it should.
    pub fn of(alloc: Global, table: &'t Table) -> Result<Stated<'t>, ScenarioFault>
        ensures found { IfOk result (λ stated. States toml_kinds (document_of (table_view table.now)) (stated_seen stated)) }
        ensures fault { IfErr result (λ fault. IsKeyFault fault (table_view table.now)) }
    {
        if !has_known_keys(table) {
            return Err(ScenarioFault::WrongKey);
        }
        let Some(granules) = number_at(table, "granules") else {
            return Err(ScenarioFault::WrongKey);
        };
        let Some(cpus) = number_at(table, "cpus") else {
            return Err(ScenarioFault::WrongKey);
        };
        let Some(queue) = number_or(table, "queue", 4096) else {
            return Err(ScenarioFault::WrongKey);
        };
        let Some(limit) = number_or(table, "limit", 1_000_000) else {
            return Err(ScenarioFault::WrongKey);
        };
        let Some(version) = number_or(table, "version", 1) else {
            return Err(ScenarioFault::WrongKey);
        };
        let Some(programs) = programs_in(alloc, table)? else {
            return Err(ScenarioFault::WrongKey);
        };
        let Some(turns) = turns_in(alloc, table)? else {
            return Err(ScenarioFault::WrongKey);
        };
        Ok(Stated {
            granules,
            cpus,
            programs,
            queue,
            turns,
            limit,
            version,
        })
    }
}

/// Whether a scenario may have this key.
pub fn is_key(key: &str) -> bool
    ensures { result ≡ is_key key.now }
{
    [
        "granules", "cpus", "programs", "queue", "turns", "limit", "version",
    ]
    .contains(&key)
}

fn has_known_keys(table: &Table) -> bool
    ensures { result ≡ list_all is_key (keys_in (table_view table.now)) }
{
    table.keys().all(|key| is_key(key.as_str()))
}

/// What a key holds.
pub fn value_at<'t>(table: &'t Table, key: &str) -> Option<&'t Value>
    ensures { option_map (λ v. view v.now) result ≡ get_member key.now (table_view table.now) }
{
    table.get(key)
}

// The whole number at a key.
fn number_at(table: &Table, key: &str) -> Option<i64>
    ensures { result ≡ option_and_then as_integer (get_member key.now (table_view table.now)) }
{
    match value_at(table, key) {
        Some(value) => value.as_integer(),
        None => None,
    }
}

// The whole number at a key, or the one that counts where the key is left out.
fn number_or(table: &Table, key: &str, absent: i64) -> Option<i64>
    ensures { result ≡ or_left_out absent as_integer (get_member key.now (table_view table.now)) }
{
    match value_at(table, key) {
        Some(value) => value.as_integer(),
        None => Some(absent),
    }
}

fn programs_in<'t>(alloc: Global, table: &'t Table) -> Result<Option<Vec<Vec<&'t str>>>, AllocError>
    ensures { IfOk result (λ found. option_map (λ lists. seen_lists lists.items) found
        ≡ option_and_then (lists_of_texts toml_kinds) (get_member (codes "programs") (table_view table.now))) }
{
    match value_at(table, "programs") {
        Some(value) => lists_of_texts(alloc, value),
        None => Ok(None),
    }
}

fn turns_in<'t>(alloc: Global, table: &'t Table) -> Result<Option<Vec<&'t str>>, AllocError>
    ensures { IfOk result (λ found. option_map (λ list. seen_texts list.items) found
        ≡ or_left_out [] (texts toml_kinds) (get_member (codes "turns") (table_view table.now))) }
{
    match value_at(table, "turns") {
        Some(value) => texts(alloc, value),
        None => Ok(Some(Vec::new(alloc))),
    }
}

/// The texts of an array that has nothing else.
pub fn texts<'t>(alloc: Global, value: &'t Value) -> Result<Option<Vec<&'t str>>, AllocError>
    ensures { IfOk result (λ found. option_map (λ list. seen_texts list.items) found ≡ texts toml_kinds (view value.now)) }
{
    match value.as_array() {
        Some(items) => each_text(alloc, items),
        None => Ok(None),
    }
}

fn each_text<'t>(alloc: Global, items: &'t Array) -> Result<Option<Vec<&'t str>>, AllocError>
    ensures { IfOk result (λ found. option_map (λ list. seen_texts list.items) found ≡ each_value as_str (items_in (array_view items.now))) }
{
    let mut list = Vec::new(alloc);
    for value in items {
        let Some(text) = value.as_str() else {
            return Ok(None);
        };
        list.push(text)?;
    }
    Ok(Some(list))
}

/// The texts of each array of an array that has nothing else.
pub fn lists_of_texts<'t>(
    alloc: Global,
    value: &'t Value,
) -> Result<Option<Vec<Vec<&'t str>>>, AllocError>
    ensures { IfOk result (λ found. option_map (λ lists. seen_lists lists.items) found ≡ lists_of_texts toml_kinds (view value.now)) }
{
    match value.as_array() {
        Some(items) => each_list(alloc, items),
        None => Ok(None),
    }
}

fn each_list<'t>(alloc: Global, items: &'t Array) -> Result<Option<Vec<Vec<&'t str>>>, AllocError>
    ensures { IfOk result (λ found. option_map (λ lists. seen_lists lists.items) found
        ≡ each_value (texts toml_kinds) (items_in (array_view items.now))) }
{
    let mut lists = Vec::new(alloc);
    for value in items {
        let Some(list) = texts(alloc, value)? else {
            return Ok(None);
        };
        lists.push(list)?;
    }
    Ok(Some(lists))
}
