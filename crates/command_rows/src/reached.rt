//! What a RIPAS command changes, up to the end that is chosen.

ghost use Rattle.std.specs.Prelude.{◌≡◌};
ghost use Rattle.rmm_spec.specs.Step.Ripas as spec;

use memory_map::entry_number;
use rmm_spec::{
    Change, EntryChange, RealmChange, RealmUpdate, RecChange, RecUpdate, Ripas, Stretch, StretchUse,
};

/// What is changed where the stretch is set up to top.
#[tactic(auto, unfolding(rmm_spec::specs::Step::Ripas::reached_change))]
pub fn reached_change(stretch: &Stretch, top: u64) -> Change
    ensures { result ≡ spec.reached_change stretch.now top }
{
    let rd = stretch.rd;
    let level = stretch.level;
    let base = stretch.base;
    let first = entry_number(level, base);
    let last = entry_number(level, top);
    match stretch.purpose {
        StretchUse::Init => Change::EntriesChanged {
            rd,
            level,
            entries: EntryChange::RipasSet {
                first,
                last,
                ripas: Ripas::Ram,
            },
            page: None,
            realm: Some(RealmChange {
                rd,
                update: RealmUpdate::StretchMeasured { base, top },
            }),
            rec: None,
        },
        StretchUse::Requested { rec, ripas } => Change::EntriesChanged {
            rd,
            level,
            entries: EntryChange::RipasSet { first, last, ripas },
            page: None,
            realm: None,
            rec: Some(RecChange {
                rec,
                update: RecUpdate::RequestMoved { base: top },
            }),
        },
    }
}
