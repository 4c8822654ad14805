//! Histories, written as texts.

ghost use Rattle.std.specs.Prelude.{◌≡◌, ◌+◌, ◌<◌, ◌≤◌, ◌++◌, [], ◌∷◌, map, length, take, vec_len, vec_capacity, OnOk, OnErr};
ghost use Rattle.text_writers.specs.Beginning.{IsBeginning};
ghost use Rattle.rmi_codec.specs.Spaced.{spaced};
ghost use Rattle.rmm_spec.specs.HistoryText.{event_parts, history_text, config_parts, mark};
ghost use Rattle.rmm_spec.specs.Text.{decimal, line_text, lines_text};

use crate::commands::push_command;
use crate::heads::{push_head, push_numbers};
use crate::replies::push_reply;
use crate::whole::all_or_nothing;
use history::History;
use memory_map::Config;
use rmm_spec::{Event, Version};
use std::alloc::AllocError;

/// Appends a history's text, or nothing where memory is refused, which it is only where the buffer has no room for the text.
pub fn write_history(history: &History, out: &mut Vec<u8>) -> Result<(), AllocError>
    ensures ok { OnOk result (out.new.items ≡ out.old.items ++ history_text history.now.recorded) }
    ensures err { OnErr result (out.new.items ≡ out.old.items) }
    ensures full { OnErr result (vec_capacity out.old < vec_len out.old + length (history_text history.now.recorded)) }
{
    let start = out.len();
    let written = push_history(out, history);
    all_or_nothing(out, start, written)
}

/// Appends a history's text. Where memory is refused, a beginning of it may have been appended.
fn push_history(out: &mut Vec<u8>, history: &History) -> Result<(), AllocError>
    ensures ok { OnOk result (out.new.items ≡ out.old.items ++ history_text history.now.recorded) }
    ensures kept { OnErr result (take (length out.old.items) out.new.items ≡ out.old.items) }
    ensures beginning { OnErr result (IsBeginning out.new.items (out.old.items ++ history_text history.now.recorded)) }
    ensures full { OnErr result (vec_capacity out.old < vec_len out.old + length (history_text history.now.recorded)) }
    ensures capacity { vec_capacity out.old ≤ vec_capacity out.new }
{
    push_header(out, history.config())?;
    push_events(out, history)
}

fn push_events(out: &mut Vec<u8>, history: &History) -> Result<(), AllocError>
    ensures ok { OnOk result (out.new.items ≡ out.old.items ++ lines_text (map event_parts history.now.recorded.events)) }
    ensures kept { OnErr result (take (length out.old.items) out.new.items ≡ out.old.items) }
    ensures beginning { OnErr result (IsBeginning out.new.items (out.old.items ++ lines_text (map event_parts history.now.recorded.events))) }
    ensures full { OnErr result (vec_capacity out.old < vec_len out.old + length (lines_text (map event_parts history.now.recorded.events))) }
    ensures capacity { vec_capacity out.old ≤ vec_capacity out.new }
{
    let mut events = history.events();
    while let Some(event) = events.next() {
        push_event(out, &event.to_event())?;
    }
    Ok(())
}

fn push_header(out: &mut Vec<u8>, config: Config) -> Result<(), AllocError>
    ensures ok { OnOk result (out.new.items ≡ out.old.items ++ (line_text (config_parts config) ++ 10 ∷ [])) }
    ensures kept { OnErr result (take (length out.old.items) out.new.items ≡ out.old.items) }
    ensures beginning { OnErr result (IsBeginning out.new.items (out.old.items ++ (line_text (config_parts config) ++ 10 ∷ []))) }
    ensures full { OnErr result (vec_capacity out.old < vec_len out.old + length (line_text (config_parts config) ++ 10 ∷ [])) }
    ensures capacity { vec_capacity out.old ≤ vec_capacity out.new }
{
    out.extend_from_slice(mark_of(config.version()))?;
    push_sizes(out, config)
}

// The name of the format that a history of this version has.
fn mark_of(version: Version) -> &'static [u8]
    ensures { result.now ≡ mark version }
{
    match version {
        Version::One => b"rmh1",
        Version::Two => b"rmh2",
        Version::Large => b"rml1",
    }
}

#[tactic(auto, using(std::proofs::lemmas::Grind::common_steps, crate::proofs::WriteLaws::writing))]
fn push_sizes(out: &mut Vec<u8>, config: Config) -> Result<(), AllocError>
    ensures ok { OnOk result (out.new.items ≡ out.old.items ++ (spaced (decimal config.granules ∷ decimal config.cpus ∷ []) ++ 10 ∷ [])) }
    ensures kept { OnErr result (take (length out.old.items) out.new.items ≡ out.old.items) }
    ensures beginning { OnErr result (IsBeginning out.new.items
        (out.old.items ++ (spaced (decimal config.granules ∷ decimal config.cpus ∷ []) ++ 10 ∷ []))) }
    ensures full { OnErr result (vec_capacity out.old
        < vec_len out.old + length (spaced (decimal config.granules ∷ decimal config.cpus ∷ []) ++ 10 ∷ [])) }
    ensures capacity { vec_capacity out.old ≤ vec_capacity out.new }
{
    push_numbers(out, config.granules(), u64::from(config.cpus()))?;
    out.push(b'\n')?;
    Ok(())
}

fn push_event(out: &mut Vec<u8>, event: &Event) -> Result<(), AllocError>
    ensures ok { OnOk result (out.new.items ≡ out.old.items ++ (line_text (event_parts event.now) ++ 10 ∷ [])) }
    ensures kept { OnErr result (take (length out.old.items) out.new.items ≡ out.old.items) }
    ensures beginning { OnErr result (IsBeginning out.new.items (out.old.items ++ (line_text (event_parts event.now) ++ 10 ∷ []))) }
    ensures full { OnErr result (vec_capacity out.old < vec_len out.old + length (line_text (event_parts event.now) ++ 10 ∷ [])) }
    ensures capacity { vec_capacity out.old ≤ vec_capacity out.new }
{
    push_parts(out, event)?;
    out.push(b'\n')?;
    Ok(())
}

#[tactic(auto, using(std::proofs::lemmas::Grind::common_steps, history::proofs::WriteLaws::event_texts))]
fn push_parts(out: &mut Vec<u8>, event: &Event) -> Result<(), AllocError>
    ensures ok { OnOk result (out.new.items ≡ out.old.items ++ line_text (event_parts event.now)) }
    ensures kept { OnErr result (take (length out.old.items) out.new.items ≡ out.old.items) }
    ensures beginning { OnErr result (IsBeginning out.new.items (out.old.items ++ line_text (event_parts event.now))) }
    ensures full { OnErr result (vec_capacity out.old < vec_len out.old + length (line_text (event_parts event.now))) }
    ensures capacity { vec_capacity out.old ≤ vec_capacity out.new }
{
    match event {
        Event::Called {
            cpu,
            number,
            command,
        } => {
            push_head(out, b'c', *cpu, *number)?;
            out.push(b' ')?;
            push_command(out, command)
        }
        Event::Returned { cpu, number, reply } => {
            push_head(out, b'r', *cpu, *number)?;
            out.push(b' ')?;
            push_reply(out, reply)
        }
    }
}
