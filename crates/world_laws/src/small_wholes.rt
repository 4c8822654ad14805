//! Small wholes that are well shaped, each made by commands.

ghost use Rattle.rmm_spec.specs.Shape.{Outside, IsWellShaped};
ghost use Rattle.world_laws.specs.SmallWholes.{eight_granules, one_realm, one_vmid, one_page, two_realms, two_vmids, one_rec, the_rec, one_owned};

/// A whole with one new realm is well shaped; and so it is with two tables below its root and a page, with a second realm, and
/// with a REC.
pub fn small_wholes_are_well_shaped()
    ensures realm { IsWellShaped eight_granules one_vmid (λ _. Outside) one_realm }
    ensures page { IsWellShaped eight_granules one_vmid (λ _. Outside) one_page }
    ensures realms { IsWellShaped eight_granules two_vmids (λ _. Outside) (two_realms 2) }
    ensures rec { IsWellShaped eight_granules (one_owned 0x1000) (λ _. Outside) (one_rec the_rec) }
{}
