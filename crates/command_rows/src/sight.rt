//! What the rows of commands look up.

ghost use Rattle.std.specs.Prelude.{◌≡◌, ◌≤◌, ◌<◌, ◌^◌, ℕ, Bool, IsTrue, is_some};
ghost use Rattle.rmm_spec.specs.Lookup as look;
ghost use Rattle.rmm_spec.specs.State.{State};
ghost use Rattle.rmm_spec.specs.Walk as tables;

use realm_desc::{Realm, Rec};
use rmm_spec::{Entry, EntryTest, Tag, Version, Walked};

/// Who can look up what the rows of commands read. It stands for one state, of which each look-up is an equation.
pub trait Sight {
    ghost state: { Self → State };

    // whether a realm has the VMID, and whether a REC belongs to the realm: searches through the whole state, so they are
    // told beside it
    ghost uses_vmid: { Self → ℕ → Bool };

    ghost has_recs: { Self → ℕ → Bool };

    /// The version of the rules that the machine goes by.
    fn version(&self) -> Version
        ensures { result ≡ (state self.now).config.version };

    /// Whether the address is that of a granule with the tag.
    fn has_tag(&self, address: u64, tag: Tag) -> bool
        ensures { result ≡ look.has_tag (state self.now) address tag };

    /// The realm whose descriptor is at the address. One is exactly where the tag says so.
    fn realm(&self, rd: u64) -> Option<Realm>
        ensures there { result ≡ (state self.now).realm rd }
        ensures tagged { is_some result ≡ look.has_tag (state self.now) rd Tag.Rd };

    /// The REC whose granule is at the address. One is exactly where the tag says so.
    fn rec(&self, address: u64) -> Option<Rec>
        ensures there { result ≡ (state self.now).rec address }
        ensures tagged { is_some result ≡ look.has_tag (state self.now) address Tag.Rec };

    /// Where the walk for an address up to a level ends.
    fn walk(&self, rd: u64, ipa: u64, max: u8) -> Walked
        requires { max ≤ 3 }
        ensures end { result ≡ tables.walk (state self.now) rd ipa max }
        ensures within { result.level ≤ 3 };

    /// The entry of that number at the level.
    fn entry_at(&self, rd: u64, level: u8, number: u64) -> Entry
        ensures { result ≡ tables.entry_at (state self.now) rd level number };

    /// Whether the table of that number has an entry that is looked for.
    fn has_entry(&self, rd: u64, level: u8, number: u64, test: EntryTest) -> bool
        requires { number < 2 ^ 52 }
        ensures { result ≡ tables.has_entry (state self.now) rd level number test };

    /// Whether a REC belongs to the realm.
    fn has_rec(&self, rd: u64) -> bool
        requires { IsTrue (look.has_tag (state self.now) rd Tag.Rd) }
        ensures { result ≡ has_recs self.now rd };

    /// Whether a realm has the VMID.
    fn is_vmid_used(&self, vmid: u8) -> bool
        ensures { result ≡ uses_vmid self.now vmid };
}
