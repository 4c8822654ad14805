//! What a realm can be asked of its measurements, and what it adds to them itself.

ghost use Rattle.std.specs.Prelude.{◌≡◌, ◌≤◌};
ghost use Rattle.rmm_spec.specs.declared.change.RealmUpdate.TheVariants.{MeasurementExtended};
ghost use Rattle.rmm_spec.specs.Change.{measurement_at, realm_updated};
ghost use Rattle.rmm_spec.specs.Measure.{words_bytes};

use crate::extend_bytes;
use crate::realm::Realm;
use byteorder::{ByteOrder, LittleEndian};
use rmm_spec::Measurement;

#[tactic(auto, unfolding(crate::specs::View::realm_record))]
impl Realm {
    /// A measurement: the initial one at 0, and the extensible ones from 1 to 4.
    pub fn measurement(&self, index: u8) -> &Measurement
        requires { index ≤ 4 }
        ensures { result.now ≡ measurement_at self.now index }
    {
        if index == 0 {
            self.rim.measurement()
        } else {
            self.rems[usize::from(index) - 1].measurement()
        }
    }

    /// Extends one of the extensible measurements, counted from 1, by the first bytes of the values.
    #[tactic(auto, unfolding(crate::specs::View::realm_record, rmm_spec::specs::Change::realm_updated))]
    pub fn extend_measurement(&mut self, index: u8, size: u8, values: &[u64; 8])
        requires first { 1 ≤ index }
        requires last { index ≤ 4 }
        requires size { size ≤ 0x40 }
        ensures { self.new ≡ realm_updated (MeasurementExtended index size values.now) self.old }
    {
        let bytes = bytes_of(values);
        let place = usize::from(index) - 1;
        self.rems[place] = extend_bytes(&self.rems[place], &bytes[..usize::from(size)]);
    }
}

// Each value as 8 bytes, the lowest of them first.
#[tactic(auto, unfolding(rmm_spec::specs::Measure::words_bytes))]
fn bytes_of(values: &[u64; 8]) -> [u8; 0x40]
    ensures { result ≡ words_bytes values.now }
{
    let mut bytes = [0; 0x40];
    LittleEndian::write_u64_into(values, &mut bytes);
    bytes
}
