//! What a realm is measured by while it is built.

ghost use Rattle.std.specs.Prelude.{◌≡◌};
ghost use Rattle.rmm_spec.specs.declared.change.RealmUpdate.TheVariants.{PageMeasured, StretchMeasured};
ghost use Rattle.rmm_spec.specs.Change.{realm_updated};

use crate::extend_words;
use crate::realm::Realm;
use rmm_spec::FunctionId;

#[tactic(auto, unfolding(crate::specs::View::realm_record, rmm_spec::specs::Change::realm_updated, rmm_spec::specs::Function::number_of))]
impl Realm {
    /// Measures a page that is given to it. The digest of its contents counts where the flags ask for it.
    pub fn measure_page(&mut self, ipa: u64, flags: u64, digest: &[u64; 4])
        ensures { self.new ≡ realm_updated (PageMeasured ipa flags digest.now) self.old }
    {
        let function = FunctionId::DataCreate.number();
        let [c0, c1, c2, c3] = if flags == 1 { *digest } else { [0; 4] };
        self.rim = extend_words(&self.rim, &[function, ipa, flags, c0, c1, c2, c3]);
    }

    /// Measures a stretch of its memory.
    pub fn measure_stretch(&mut self, base: u64, top: u64)
        ensures { self.new ≡ realm_updated (StretchMeasured base top) self.old }
    {
        let function = FunctionId::RttInitRipas.number();
        self.rim = extend_words(&self.rim, &[function, base, top]);
    }
}
