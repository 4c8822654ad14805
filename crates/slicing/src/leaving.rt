//! Which calls end facts, by their CPU and their reply.

ghost use Rattle.std.specs.Prelude.{◌≡◌, false, IsTrue};
ghost use Rattle.rmm_spec.specs.declared.tag.Tag.TheVariants.{Data};
ghost use Rattle.slicing.specs.Facts.{DoesNotEnd, DoesNotFree};
ghost use Rattle.verdict_laws.specs.declared.facts.Fact.TheVariants.{Tagged};

use crate::call_at::CallAt;
use crate::ending::{frees_some, keeps, may_reshape};
use crate::given_back::freed;
use crate::making::frees_entry;
use rmm_spec::Tag;
use verdict_laws::Fact;

/// Whether the call doesn't end the fact, by its CPU, and its reply if it returned.
pub(crate) fn is_left(fact: Fact, call: &CallAt<'_>) -> bool
    ensures { IsTrue result → DoesNotEnd fact call.now }
{
    if keeps(fact, &call.call) {
        return true;
    }
    match fact {
        Fact::Tagged {
            granule,
            tag: Tag::Data,
        } => !may_free(call, granule),
        Fact::Assigned { rd, ipa, page } => {
            !may_reshape(&call.call, rd, ipa) && !may_free_at(call, rd, ipa, page)
        }
        Fact::RunsOn { cpu, .. } => cpu != call.cpu,
        _ => false,
    }
}

/// Whether the call may give back the page at the address.
fn may_free_at(call: &CallAt<'_>, rd: u64, ipa: u64, page: u64) -> bool
    ensures { result ≡ false → DoesNotFree rd ipa page call.now }
{
    if !frees_entry(&call.call, rd, ipa) {
        return false;
    }
    match &call.answer {
        Some(answer) => freed(&call.call, answer.reply) == Some(page),
        None => true,
    }
}

/// Whether the call may give the granule back without naming it.
fn may_free(call: &CallAt<'_>, granule: u64) -> bool
    ensures { result ≡ false → DoesNotEnd (Tagged granule Data) call.now }
{
    match &call.answer {
        Some(answer) => freed(&call.call, answer.reply) == Some(granule),
        None => frees_some(&call.call),
    }
}
