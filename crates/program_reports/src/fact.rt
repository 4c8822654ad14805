//! What a condition read.

ghost use Rattle.std.specs.Prelude.{◌≡◌, IfOk};

use crate::Object;
use crate::call::put_hex;
use realm_desc::RipasRequest;
use reasons::{
    AskedText, EntryRead, Fact, PendingText, RipasText, StateText, TagText, command_word,
};
use rmm_spec::FunctionId;
use std::alloc::{AllocError, Global};
use std::fmt;

/// A fact of a function's command: its kind, and its values by name.
pub(crate) fn fact_of(
    alloc: Global,
    function: FunctionId,
    fact: &Fact,
) -> Result<Object, AllocError>
    ensures { IfOk result (λ object. object.bound ≡ 0) }
{
    let mut object = Object::new(alloc, 0);
    put_fact(alloc, &mut object, function, fact)?;
    Ok(object)
}

fn put_fact(
    alloc: Global,
    object: &mut Object,
    function: FunctionId,
    fact: &Fact,
) -> Result<(), AllocError>
    ensures { object.new.bound ≡ object.old.bound }
{
    object.text("kind", kind_of(fact))?;
    match *fact {
        Fact::Nothing => {}
        Fact::Word { index, word, asked } => {
            object.number("index", u64::from(index))?;
            object.text("name", command_word(function, index))?;
            put_hex(alloc, object, "word", word)?;
            put_shown(alloc, object, "wanted", AskedText { function, asked })?;
        }
        Fact::Place { cpu, rec } => {
            object.number("cpu", u64::from(cpu))?;
            put_some(alloc, object, "rec", rec)?;
        }
        Fact::Tag {
            granule,
            needed,
            found,
        } => {
            put_hex(alloc, object, "granule", granule)?;
            put_shown(alloc, object, "needed", TagText(needed))?;
            if let Some(found) = found {
                put_shown(alloc, object, "found", TagText(found))?;
            }
        }
        Fact::Entry { rd, ipa, read } | Fact::InUse { rd, ipa, read } => {
            put_hex(alloc, object, "rd", rd)?;
            put_hex(alloc, object, "ipa", ipa)?;
            put_entry(alloc, object, read)?;
        }
        _ => {
            put_realm_fact(alloc, object, fact)?;
            put_rec_fact(alloc, object, fact)?;
        }
    }
    Ok(())
}

fn kind_of(fact: &Fact) -> &'static str {
    match *fact {
        Fact::Nothing => "nothing",
        Fact::Word { .. } => "word",
        Fact::Place { .. } => "place",
        Fact::Pending { .. } => "pending",
        Fact::Tag { .. } => "tag",
        Fact::Vmid { .. } => "vmid",
        Fact::State { .. } => "state",
        Fact::NextIndex { .. } => "next_index",
        Fact::Space { .. } => "space",
        Fact::RecLeft { .. } => "rec_left",
        Fact::Owner { .. } => "owner",
        Fact::Runs { .. } => "runs",
        Fact::Stopped { .. } => "stopped",
        Fact::Request { .. } => "request",
        Fact::Entry { .. } => "entry",
        Fact::InUse { .. } => "in_use",
    }
}

fn put_realm_fact(alloc: Global, object: &mut Object, fact: &Fact) -> Result<(), AllocError>
    ensures { object.new.bound ≡ object.old.bound }
{
    match *fact {
        Fact::Vmid { vmid, rd } => {
            put_hex(alloc, object, "rd", rd)?;
            put_hex(alloc, object, "vmid", vmid)
        }
        Fact::State { rd, state } => {
            put_hex(alloc, object, "rd", rd)?;
            put_shown(alloc, object, "state", StateText(state))
        }
        Fact::NextIndex { rd, next_index } => {
            put_hex(alloc, object, "rd", rd)?;
            put_hex(alloc, object, "next_index", u64::from(next_index))
        }
        Fact::Space {
            rd,
            width,
            start_level,
        } => {
            put_hex(alloc, object, "rd", rd)?;
            put_hex(alloc, object, "width", u64::from(width))?;
            put_hex(alloc, object, "level", u64::from(start_level))
        }
        _ => Ok(()),
    }
}

fn put_rec_fact(alloc: Global, object: &mut Object, fact: &Fact) -> Result<(), AllocError>
    ensures { object.new.bound ≡ object.old.bound }
{
    match *fact {
        Fact::RecLeft { rd, rec } | Fact::Owner { rec, rd } => {
            put_hex(alloc, object, "rd", rd)?;
            put_hex(alloc, object, "rec", rec)
        }
        Fact::Pending { rec, pending } => {
            put_hex(alloc, object, "rec", rec)?;
            put_shown(alloc, object, "pending", PendingText(pending))
        }
        Fact::Runs { rec, cpu } => {
            put_hex(alloc, object, "rec", rec)?;
            object.number("cpu", u64::from(cpu))
        }
        Fact::Stopped { rec } => put_hex(alloc, object, "rec", rec),
        Fact::Request { rec, request } => {
            put_hex(alloc, object, "rec", rec)?;
            match request {
                Some(request) => put_request(alloc, object, request),
                None => Ok(()),
            }
        }
        _ => Ok(()),
    }
}

fn put_request(alloc: Global, object: &mut Object, request: RipasRequest) -> Result<(), AllocError>
    ensures { object.new.bound ≡ object.old.bound }
{
    put_hex(alloc, object, "base", request.base)?;
    put_hex(alloc, object, "top", request.top)?;
    put_shown(alloc, object, "ripas", RipasText(request.ripas))
}

// The words with which RTT_READ_ENTRY reports an entry.
fn put_entry(alloc: Global, object: &mut Object, read: EntryRead) -> Result<(), AllocError>
    ensures { object.new.bound ≡ object.old.bound }
{
    put_hex(alloc, object, "level", read.level)?;
    put_hex(alloc, object, "entry_state", read.state)?;
    put_hex(alloc, object, "address", read.address)?;
    put_hex(alloc, object, "entry_ripas", read.ripas)
}

fn put_some(
    alloc: Global,
    object: &mut Object,
    name: &str,
    word: Option<u64>,
) -> Result<(), AllocError>
    ensures { object.new.bound ≡ object.old.bound }
{
    match word {
        Some(word) => put_hex(alloc, object, name, word),
        None => Ok(()),
    }
}

fn put_shown<T: fmt::Display + Drop>(
    alloc: Global,
    object: &mut Object,
    name: &str,
    value: T,
) -> Result<(), AllocError>
    ensures { object.new.bound ≡ object.old.bound }
{
    let text = format!(in alloc; "{value}")?;
    object.text(name, text.as_str())
}
