//! Which condition of a command fails first.

ghost use Rattle.std.specs.Prelude.{◌≡◌, false, true, None, IfOk, IsTrue, MatchOption, map};
ghost use Rattle.rmm_spec.specs.declared.condition.Condition.{Condition as Name};
ghost use Rattle.rmm_spec.specs.Lookup.{rec_inside};
ghost use Rattle.spec_machine.specs.View.{state_of};
ghost use Rattle.rmm_spec.specs.Rows.{all_allowed};
ghost use Rattle.rmm_spec.specs.Step.Terms.{class_of, named, words_of};
ghost use Rattle.reasons.specs.Law.{IsFirst, IsFound, first_failing};
ghost use Rattle.reasons.specs.Lists as spec;
ghost use Rattle.reasons.specs.Lists.{conditions};
ghost use Rattle.reasons.specs.Tests.{passes as spec_passes};

use crate::asked::Asked;
use crate::lists::{place_conditions, tag_conditions};
use crate::own_lists::own_conditions_of;
use crate::passing::passes;
use crate::place::rec_inside_or_none;
use crate::test::Test;
use crate::word_lists::word_conditions_of;
use command_words::caller_of;
use rmm_spec::Call;
use spec_machine::Machine;
use std::alloc::{AllocError, Global};

/// The test of the first condition of the CPU's command that fails on the machine, and nothing where each passes.
pub fn failing_test(
    alloc: Global,
    machine: &Machine,
    cpu: u8,
    call: &Call,
) -> Result<Option<Test>, AllocError>
    ensures { IfOk result (λ found. MatchOption found
        (first_failing (state_of machine.now) (conditions cpu (rec_inside (state_of machine.now) cpu) call.now) ≡ None)
        (λ test. (name : Name) × IsFirst (state_of machine.now) (conditions cpu (rec_inside (state_of machine.now) cpu) call.now) name test)) }
{
    if let Some(asked) = failing_place(alloc, machine, cpu, call)? {
        return Ok(Some(asked.test));
    }
    if let Some(asked) = failing_word(alloc, machine, call)? {
        return Ok(Some(asked.test));
    }
    if let Some(asked) = failing_tag(alloc, machine, call)? {
        return Ok(Some(asked.test));
    }
    match failing_own(alloc, machine, cpu, call)? {
        Some(asked) => Ok(Some(asked.test)),
        None => Ok(None),
    }
}

// The first of where a command can be given.
fn failing_place(
    alloc: Global,
    machine: &Machine,
    cpu: u8,
    call: &Call,
) -> Result<Option<Asked>, AllocError>
    ensures { IfOk result (IsFound (state_of machine.now) (spec.place_conditions (class_of call.now) cpu (rec_inside (state_of machine.now) cpu))) }
{
    let rec = rec_inside_or_none(machine, cpu);
    let places = place_conditions(alloc, caller_of(call), cpu, rec)?;
    Ok(first_of(machine, places.as_slice()))
}

// The first of those on its words.
fn failing_word(alloc: Global, machine: &Machine, call: &Call) -> Result<Option<Asked>, AllocError>
    ensures { IfOk result (IsFound (state_of machine.now) (spec.word_conditions call.now)) }
{
    let words = word_conditions_of(alloc, call)?;
    Ok(first_of(machine, words.as_slice()))
}

// The first of the tags that it needs.
fn failing_tag(alloc: Global, machine: &Machine, call: &Call) -> Result<Option<Asked>, AllocError>
    ensures { IfOk result (IsFound (state_of machine.now) (map spec.tag_condition (named call.now))) }
{
    let tags = tag_conditions(alloc, call)?;
    Ok(first_of(machine, tags.as_slice()))
}

// The first of those on records, tables and requests.
fn failing_own(
    alloc: Global,
    machine: &Machine,
    cpu: u8,
    call: &Call,
) -> Result<Option<Asked>, AllocError>
    requires { IsTrue (all_allowed (words_of call.now)) }
    ensures { IfOk result (IsFound (state_of machine.now) (spec.own_conditions (rec_inside (state_of machine.now) cpu) call.now)) }
{
    let own = own_conditions_of(alloc, rec_inside_or_none(machine, cpu), call)?;
    Ok(first_of(machine, own.as_slice()))
}

// The first of some conditions that fails.
fn first_of(machine: &Machine, list: &[Asked]) -> Option<Asked>
    ensures { IsFound (state_of machine.now) list.now result }
{
    for i in 0..list.len() {
        let asked = &list[i];
        if let Some(failing) = if_failing(machine, asked) {
            return Some(failing);
        }
    }
    None
}

// A condition, where it fails.
fn if_failing(machine: &Machine, asked: &Asked) -> Option<Asked>
    ensures { MatchOption result (spec_passes (state_of machine.now) asked.now.test ≡ true)
        (λ found. (found ≡ asked.now) × (spec_passes (state_of machine.now) asked.now.test ≡ false)) }
{
    if passes(machine, asked.test) {
        return None;
    }
    Some(*asked)
}
