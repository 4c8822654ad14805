//! Wholes with one thing wrong in a realm, its side table, or what is no granule.

ghost use Rattle.std.specs.Prelude.{[], None, Some};
ghost use Rattle.rmm_spec.specs.Cell.{Delegated, Rtt, put};
ghost use Rattle.world_laws.specs.SmallWholes.{IsBroken, one_realm, one_vmid, new_record, realm_with, high_table, two_realms};

/// A whole is not well shaped where a realm's address space begins at no level of its own, where it has no REMs, where its VMID
/// is not in the side table, or is there for another realm, where a VMID is there for a realm that has another, or for no
/// realm, or where a REC is counted that isn't there; nor where a page past the last granule is delegated, or an address
/// that is no page's.
pub fn broken_realms_are_not_well_shaped()
    ensures no_space { IsBroken one_vmid (put (realm_with (record new_record { start_level = 0 })) 0x2000 (Rtt high_table)) }
    ensures unmeasured { IsBroken one_vmid (realm_with (record new_record { rems = [] })) }
    ensures unlisted { IsBroken (record one_vmid { vmids = λ _. None }) one_realm }
    ensures shared_vmid { IsBroken one_vmid (two_realms 1) }
    ensures other_vmid { IsBroken (record one_vmid { vmids = put one_vmid.vmids 2 (Some 0x1000) }) one_realm }
    ensures vmid_of_none { IsBroken (record one_vmid { vmids = put one_vmid.vmids 2 (Some 0x3000) }) one_realm }
    ensures miscounted { IsBroken (record one_vmid { rec_counts = λ _. 1 }) one_realm }
    ensures past_the_end { IsBroken one_vmid (put one_realm 0x8000 Delegated) }
    ensures between_pages { IsBroken one_vmid (put one_realm 0x1800 Delegated) }
{}
