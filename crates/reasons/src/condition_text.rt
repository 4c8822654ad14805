//! Why a command is refused, in words: the condition by its name, what it is for it to fail, and what it read.

ghost use Rattle.std.specs.Prelude.{◌≡◌};
ghost use Rattle.reasons.specs.Names.{condition_name};

use crate::asked_text::WordText;
use crate::facts::Fact;
use rmm_spec::{Condition, FunctionId, Refusal};
use std::fmt;

/// Why a function's command is refused.
#[derive(Clone, Copy)]
pub(crate) struct WhyText {
    pub(crate) function: FunctionId,
    pub(crate) refusal: Refusal,
    pub(crate) fact: Fact,
}

impl fmt::Display for WhyText {
    fn fmt<W: fmt::Write>(&self, f: &mut fmt::Formatter<W>) -> fmt::Result {
        let (function, condition) = (self.function, condition_of(self.refusal));
        let name = condition_name(condition);
        match self.fact {
            Fact::Word { index, word, asked } => {
                let word = WordText {
                    function,
                    index,
                    word,
                    asked,
                };
                write!(f, "{name}: {word}")
            }
            fact => {
                write!(f, "{name}: ")?;
                write_fact(f, condition, &fact)
            }
        }
    }
}

// What a condition on the state read, behind what it is for it to fail where the fact alone doesn't say that.
fn write_fact<W: fmt::Write>(
    f: &mut fmt::Formatter<W>,
    condition: Condition,
    fact: &Fact,
) -> fmt::Result {
    let fails = failing_text(condition);
    match (condition, fact) {
        (_, Fact::Nothing) => f.write_str(fails),
        (Condition::RtteRipas, Fact::Entry { read, .. }) => {
            let ripas = if read.ripas == 0 {
                "EMPTY"
            } else {
                "DESTROYED"
            };
            write!(f, "{fails}: it is {ripas}")
        }
        _ if fails.is_empty() => write!(f, "{fact}"),
        _ => write!(f, "{fails}: {fact}"),
    }
}

/// The condition for which a command is refused.
pub fn condition_of(refusal: Refusal) -> Condition {
    match refusal {
        Refusal::Misplaced(condition)
        | Refusal::Input(condition)
        | Refusal::Realm(condition, _)
        | Refusal::Rec(condition)
        | Refusal::Rtt(condition, _) => condition,
    }
}

/// A condition's name in DEN0137, or this project's.
#[tactic(auto, unfolding(crate::specs::Names::condition_name))]
pub fn condition_name(condition: Condition) -> &'static str
    ensures { result.now ≡ condition_name condition }
{
    match condition {
        Condition::Alias => "alias",
        Condition::AuxAlias => "aux_alias",
        Condition::BaseAlign => "base_align",
        Condition::BaseBound => "base_bound",
        Condition::GranState => "gran_state",
        Condition::IndexBound => "index_bound",
        Condition::IpaAlign => "ipa_align",
        Condition::IpaBound => "ipa_bound",
        Condition::LevelBound => "level_bound",
        Condition::MpidrIndex => "mpidr_index",
        Condition::ParamsSupp => "params_supp",
        Condition::RealmLive => "realm_live",
        Condition::RealmNew => "realm_new",
        Condition::RealmState => "realm_state",
        Condition::RecOwner => "rec_owner",
        Condition::RecRunnable => "rec_runnable",
        Condition::RecState => "rec_state",
        Condition::RgnBound => "rgn_bound",
        Condition::RipasValid => "ripas_valid",
        Condition::RttLive => "rtt_live",
        Condition::RttNumLevel => "rtt_num_level",
        Condition::RttWalk => "rtt_walk",
        Condition::RtteRipas => "rtte_ripas",
        Condition::RtteState => "rtte_state",
        Condition::SizeBound => "size_bound",
        Condition::SizeValid => "size_valid",
        Condition::SystemOff => "system_off",
        Condition::TopAlign => "top_align",
        Condition::TopBound => "top_bound",
        Condition::TopGranAlign => "top_gran_align",
        Condition::TopRttAlign => "top_rtt_align",
        Condition::VmidValid => "vmid_valid",
        Condition::OwnAlike => "own_alike",
        Condition::OwnBase => "own_base",
        Condition::OwnFlags => "own_flags",
        Condition::OwnImm => "own_imm",
        Condition::OwnInside => "own_inside",
        Condition::OwnOutside => "own_outside",
        Condition::OwnPage => "own_page",
        Condition::OwnPending => "own_pending",
        Condition::OwnRecCount => "own_rec_count",
        Condition::OwnRequest => "own_request",
        Condition::OwnShape => "own_shape",
    }
}

// What it is for a condition to fail, of those of which the fact that is read doesn't say so.
fn failing_text(condition: Condition) -> &'static str {
    match condition {
        Condition::BaseAlign => "base isn't aligned to the entry at which its walk ends",
        Condition::BaseBound => "base isn't that of the REC's request",
        Condition::IpaBound =>
            "ipa isn't in the part of the address space that the command is about",
        Condition::LevelBound => "the command has no such level in this realm",
        Condition::MpidrIndex => "mpidr isn't the realm's next REC index",
        Condition::RealmLive => "the realm has a REC, or a table below its root",
        Condition::RealmState => "the realm isn't NEW",
        Condition::RecOwner => "the REC isn't of the realm",
        Condition::RgnBound => "top is past the protected half of the address space",
        Condition::RttLive => "an entry of the table is in use",
        Condition::RttWalk => "the walk ends before the level that the command needs",
        Condition::RtteRipas => "the entry's RIPAS isn't RAM",
        Condition::RtteState => "the entry isn't in the state that the command needs",
        Condition::TopBound => "top is past the end of what may be set",
        Condition::TopRttAlign => "the entry at which the walk for base ends goes past top",
        Condition::OwnAlike => "the entries of the table aren't all unassigned alike",
        _ => "",
    }
}
