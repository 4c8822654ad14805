//! Wholes with one thing wrong in a REC, or in the place of a CPU.

ghost use Rattle.std.specs.Prelude.{None, Some};
ghost use Rattle.rmm_spec.specs.State.{HostCall, RipasChange};
ghost use Rattle.rmm_spec.specs.Cell.{Delegated, Rec, put};
ghost use Rattle.rmm_spec.specs.Shape.{Outside, Inside, IsWellShaped};
ghost use Rattle.world_laws.specs.SmallWholes.{eight_granules, IsBroken, one_rec, one_owned, the_rec, asking};

/// A whole is not well shaped where a REC has no realm, no first or second auxiliary granule, one in place of two, or one that
/// another REC has too; where its request begins or ends off the pages, ends before it begins, or reaches past the protected
/// half; where an exit waits while it doesn't run, or a RIPAS change without a request.
pub fn broken_recs_are_not_well_shaped()
    ensures unowned { IsBroken (one_owned 0x2000) (one_rec (record the_rec { owner = 0x2000 })) }
    ensures first_aux { IsBroken (one_owned 0x1000) (put (one_rec the_rec) 0x4000 Delegated) }
    ensures second_aux { IsBroken (one_owned 0x1000) (put (one_rec the_rec) 0x5000 Delegated) }
    ensures one_aux { IsBroken (one_owned 0x1000) (one_rec (record the_rec { aux1 = 0x4000 })) }
    ensures shared_aux { IsBroken (record (one_owned 0x1000) { rec_counts = put (one_owned 0x1000).rec_counts 0x1000 2 })
        (put (one_rec the_rec) 0x6000 (Rec the_rec)) }
    ensures begins_off_page { IsBroken (one_owned 0x1000) (one_rec (asking 1 0x1000)) }
    ensures ends_off_page { IsBroken (one_owned 0x1000) (one_rec (asking 0 0x1001)) }
    ensures disordered { IsBroken (one_owned 0x1000) (one_rec (asking 0x2000 0x1000)) }
    ensures too_far { IsBroken (one_owned 0x1000) (one_rec (asking 0 0x4000001000)) }
    ensures idle_exit { IsBroken (one_owned 0x1000) (one_rec (record the_rec { pending = Some (HostCall 1) })) }
    ensures unasked { IsBroken (one_owned 0x1000) (one_rec (record the_rec { cpu = Some 0; pending = Some RipasChange })) }
{}

/// Nor where a CPU is inside of a REC that isn't there, of one that doesn't run on it, or of one that belongs to another realm;
/// nor where a REC runs on a CPU that isn't inside of it.
pub fn broken_places_are_not_well_shaped()
    ensures nowhere { IsWellShaped eight_granules (one_owned 0x1000) (λ _. Inside 0x6000 0x1000) (one_rec the_rec) → ⊥ }
    ensures not_running { IsWellShaped eight_granules (one_owned 0x1000) (λ _. Inside 0x3000 0x1000) (one_rec the_rec) → ⊥ }
    ensures elsewhere { IsWellShaped eight_granules (one_owned 0x1000)
        (put (λ _. Outside) 0 (Inside 0x3000 0x2000)) (one_rec (record the_rec { cpu = Some 0 })) → ⊥ }
    ensures unplaced { IsWellShaped eight_granules (one_owned 0x1000) (λ _. Outside) (one_rec (record the_rec { cpu = Some 0 })) → ⊥ }
{}
