//! What a change makes of a realm's record.

ghost use Rattle.std.specs.Prelude.{◌≡◌};
ghost use Rattle.rmm_spec.specs.Applicable.{IsRealmUpdate};
ghost use Rattle.rmm_spec.specs.Change.{realm_updated};

use crate::realm::Realm;
use rmm_spec::RealmUpdate;

impl Realm {
    /// Makes the update, which is none that counts a REC: that comes with the making of the REC.
    pub fn update(&mut self, update: RealmUpdate)
        requires { IsRealmUpdate update }
        ensures { self.new ≡ realm_updated update self.old }
    {
        match update {
            RealmUpdate::Activated => self.activate(),
            RealmUpdate::TurnedOff => self.turn_off(),
            RealmUpdate::RecCounted { .. } => unreachable!(),
            RealmUpdate::PageMeasured { ipa, flags, digest } => {
                self.measure_page(ipa, flags, &digest);
            }
            RealmUpdate::StretchMeasured { base, top } => self.measure_stretch(base, top),
            RealmUpdate::MeasurementExtended {
                index,
                size,
                values,
            } => self.extend_measurement(index, size, &values),
        }
    }
}
