//! What decides that a line is refused.

ghost use Rattle.std.specs.Prelude.{◌≡◌, ◌≢◌, ◌≤◌, ◌↔◌, [], length, min, slice_get, false, true, Err, Ok, IfOk, IsTrue};
ghost use Rattle.reasons.specs.declared.source.Source.TheVariants as source;
ghost use Rattle.rmm_spec.specs.declared.refusal.Refusal.{Refusal as Refused};
ghost use Rattle.rmm_spec.specs.declared.reply.Reply.{Reply as Claimed};
ghost use Rattle.rmm_spec.specs.Call.{call_of};
ghost use Rattle.rmm_spec.specs.Lookup.{rec_at, rec_inside};
ghost use Rattle.rmm_spec.specs.State.{State};
ghost use Rattle.rmm_spec.specs.Step.{Step, outcome};
ghost use Rattle.spec_machine.specs.View.{state_of};
ghost use Rattle.reasons.specs.Report.{AddsOwners};
ghost use Rattle.reasons.specs.Tests.{passes};
ghost use Rattle.explain.specs.Deciding.{IsApart, IsConditionOf, IsDecision, IsFirstWrong, IsWrongWord};
ghost use Rattle.explain.specs.Deciding.{words_source as spec_source};
ghost use Rattle.explain.specs.declared.watch.Watch.TheVariants as watch;
ghost use Rattle.explain.specs.Watch.{is_so};

use crate::fact::fact_of;
use crate::watch::Watch;
use command_rows::Sight;
use reasons::{
    Deciding, OwnerRow, Source, Test, WrongWord, conditions_decide, entry_size, failing_test,
    is_standing, rec_inside_or_none, words_are_asked,
};
use rmi_view::CommandRef;
use rmm_spec::{Accepted, Call, Command, Refusal, Reply, Stretch};
use spec_machine::Machine;
use std::alloc::{AllocError, Global};

/// What decides, and what is to be watched of the states before.
#[derive(Drop)]
pub(crate) struct Decision {
    pub(crate) deciding: Deciding,
    pub(crate) watch: Watch,
}

/// What decides that the reply isn't that which is specified for the CPU's command.
pub(crate) fn decision_of(
    alloc: Global,
    machine: &Machine,
    owners: &[OwnerRow],
    cpu: u8,
    command: &Command,
    specified: &Result<Accepted, Refusal>,
    claimed: &Reply,
) -> Result<Decision, AllocError>
    requires owners { AddsOwners (state_of machine.now) [] owners.now }
    requires specified { specified.now ≡ outcome (state_of machine.now) cpu (call_of command.now) }
    requires refused { (next : State) → ¬ Step (state_of machine.now) cpu command.now claimed.now next }
    ensures decision { IfOk result (λ d. IsDecision (state_of machine.now) cpu command.now specified.now claimed.now d.deciding d.watch) }
    ensures so { IfOk result (λ d. is_so (state_of machine.now) d.watch ≡ true) }
{
    match specified {
        Err(_) => failing_condition(alloc, machine, owners, cpu, command),
        Ok(accepted) => Ok(wrong_answer(machine, cpu, command, accepted, claimed)),
    }
}

// The condition that fails.
fn failing_condition(
    alloc: Global,
    machine: &Machine,
    owners: &[OwnerRow],
    cpu: u8,
    command: &Command,
) -> Result<Decision, AllocError>
    requires owners { AddsOwners (state_of machine.now) [] owners.now }
    requires refused { (refused : Refused) × (outcome (state_of machine.now) cpu (call_of command.now) ≡ Err refused) }
    ensures decision { IfOk result (λ d. (claimed : Claimed)
        → IsDecision (state_of machine.now) cpu command.now (outcome (state_of machine.now) cpu (call_of command.now)) claimed d.deciding d.watch) }
    ensures so { IfOk result (λ d. is_so (state_of machine.now) d.watch ≡ true) }
{
    let _fact = conditions_decide();
    let _fact = words_are_asked();
    let found = failing_test(alloc, machine, cpu, &command.call())?;
    let Some(test) = found else { unreachable!() };
    Ok(condition_decision(machine, owners, test))
}

// That a test fails.
fn condition_decision(machine: &Machine, owners: &[OwnerRow], test: Test) -> Decision
    requires owners { AddsOwners (state_of machine.now) [] owners.now }
    requires fails { passes (state_of machine.now) test ≡ false }
    ensures { IsConditionOf (state_of machine.now) test result.deciding result.watch }
{
    Decision {
        deciding: Deciding::Condition(fact_of(machine, owners, test)),
        watch: Watch::Condition(test, is_standing(machine, test)),
    }
}

// What is wrong with the reply to a command that is accepted.
fn wrong_answer(
    machine: &Machine,
    cpu: u8,
    command: &Command,
    accepted: &Accepted,
    claimed: &Reply,
) -> Decision
    requires accepted { outcome (state_of machine.now) cpu (call_of command.now) ≡ Ok accepted.now }
    requires refused { (next : State) → ¬ Step (state_of machine.now) cpu command.now claimed.now next }
    ensures decision { IsDecision (state_of machine.now) cpu command.now (Ok accepted.now) claimed.now result.deciding result.watch }
    ensures so { is_so (state_of machine.now) result.watch ≡ true }
{
    match claimed {
        Reply::Ok(words) => Decision {
            deciding: Deciding::Word(wrong_word(accepted, words.as_slice())),
            watch: Watch::Read(words_source(machine, cpu, &command.call())),
        },
        Reply::Err(_, _) | Reply::Misplaced => Decision {
            deciding: Deciding::Accepted,
            watch: accepted_watch(cpu, command),
        },
    }
}

// Whether the command is accepted.
fn accepted_watch(cpu: u8, command: &Command) -> Watch
    ensures { result ≡ watch.Accepted cpu command.now }
{
    Watch::Accepted(cpu, CommandRef::of(command).to_command())
}

// The first word that isn't as it has to be.
fn wrong_word(accepted: &Accepted, claimed: &[u64]) -> WrongWord
    requires apart { IsApart accepted.now claimed.now }
    requires few { length claimed.now ≤ 10 }
    ensures { IsWrongWord accepted.now claimed.now result }
{
    match accepted {
        Accepted::Done { words, .. } => first_wrong(claimed, words.as_slice()),
        Accepted::Reaches(stretch) => wrong_end(stretch, claimed),
    }
}

// The first word in which two replies differ.
fn first_wrong(claimed: &[u64], specified: &[u64]) -> WrongWord
    requires apart { specified.now ≢ claimed.now }
    requires few { length claimed.now ≤ 10 }
    requires little { length specified.now ≤ 10 }
    ensures { IsFirstWrong claimed.now specified.now result }
{
    for i in 0..10u8 {
        let one = word_at(claimed, i);
        let other = word_at(specified, i);
        if !are_same(one, other) {
            return WrongWord {
                index: i,
                claimed: one,
                specified: other,
            };
        }
    }
    unreachable!()
}

// The word at a place, where there is one.
fn word_at(words: &[u64], i: u8) -> Option<u64>
    ensures { result ≡ slice_get words.now i }
{
    words.get(usize::from(i)).copied()
}

fn are_same(one: Option<u64>, other: Option<u64>) -> bool
    ensures { IsTrue result ↔ (one ≡ other) }
{
    one == other
}

// The word that isn't one of the ends that may be reached, or that comes after it.
fn wrong_end(stretch: &Stretch, claimed: &[u64]) -> WrongWord
    ensures { slice_get claimed.now result.index ≡ result.claimed }
{
    if claimed.len() > 1 {
        return WrongWord {
            index: 1,
            claimed: word_at(claimed, 1),
            specified: None,
        };
    }
    let size = entry_size(u64::from(stretch.level));
    WrongWord {
        index: 0,
        claimed: word_at(claimed, 0),
        specified: Some(stretch.base.saturating_add(size)),
    }
}

// What the words of a command's reply are read from.
fn words_source(machine: &Machine, cpu: u8, call: &Call) -> Source
    ensures { result ≡ spec_source (state_of machine.now) cpu call.now }
{
    match *call {
        Call::DataDestroy { rd, ipa } => walk_source(rd, ipa, 3),
        Call::RttRemove { rd, ipa, level, .. } => walk_source(rd, ipa, level.saturating_sub(1)),
        Call::RttReadEntry { rd, ipa, level } => walk_source(rd, ipa, level),
        Call::RttInitRipas { rd, base, .. } | Call::RttSetRipas { rd, base, .. } => {
            walk_source(rd, base, 3)
        }
        Call::RecEnter { rec } => Source::Request { rec },
        Call::MeasurementRead { index } => Source::Measured {
            rd: realm_inside(machine, cpu),
            index,
        },
        Call::RealmConfig => Source::Space {
            rd: realm_inside(machine, cpu),
        },
        Call::IpaStateGet { ipa } => walk_source(realm_inside(machine, cpu), ipa, 3),
        Call::Exit => Source::Leaving {
            rec: rec_inside_or_none(machine, cpu),
        },
        _ => Source::Nothing,
    }
}

fn walk_source(rd: u64, ipa: u64, level: u64) -> Source
    ensures { result ≡ source.Walk rd ipa (min level 3) }
{
    Source::Walk {
        rd,
        ipa,
        level: level.min(3) as u8,
    }
}

// The realm of the REC inside which the CPU is.
#[tactic(auto, unfolding(rmm_spec::specs::Lookup::rec_at, realm_desc::specs::View::rec_record))]
fn realm_inside(machine: &Machine, cpu: u8) -> u64
    ensures { result ≡ (rec_at (state_of machine.now) (rec_inside (state_of machine.now) cpu)).owner }
{
    match machine.rec(rec_inside_or_none(machine, cpu)) {
        Some(rec) => rec.owner.address(),
        None => 0,
    }
}
