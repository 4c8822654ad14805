//! Wholes with one thing wrong in a table.

ghost use Rattle.std.specs.Prelude.{[]};
ghost use Rattle.rmm_spec.specs.declared.entry.Entry.TheVariants.{Unassigned, Assigned, Table, UnassignedNs, AssignedNs};
ghost use Rattle.rmm_spec.specs.declared.tag.Ripas.TheVariants.{Empty};
ghost use Rattle.rmm_spec.specs.Cell.{Delegated, Rd, Data, Rtt, put};
ghost use Rattle.world_laws.specs.SmallWholes.{IsBroken, one_realm, one_vmid, new_root, new_record, realm_with, realm_with_root, table_at, root_entries, beginning, tables_and_page, linked_root, linked_middle, down_to, one_page, upper_half, upper_down_to, bare_table, high_table, table_behind, root_then, two_entries, two_realms, two_vmids, second_root, shared_table};

/// A whole is not well shaped where a realm's root holds no table, another realm's, one of another level than that at which
/// the realm's walks start, or one of another number.
pub fn broken_roots_are_not_well_shaped()
    ensures rootless { IsBroken one_vmid (put one_realm 0x2000 Delegated) }
    ensures foreign_root { IsBroken two_vmids (put (two_realms 2) 0x1000 (Rd (record new_record { root = 0x4000 }))) }
    ensures low_root { IsBroken one_vmid (put one_page 0x1000 (Rd (record new_record { root = 0x3000 }))) }
    ensures later_root { IsBroken one_vmid (put (realm_with (record new_record { root = 0x3000 })) 0x3000 (Rtt table_behind)) }
{}

/// Nor where a table is of no realm, of another width than its realm, of a level above the realm's root or below level 3,
/// behind its realm's address space, or at an address that is not the first that it covers; nor where it has no entries, or
/// two tables have one place. (The link that a table below level 3 hangs from is wrong as well.)
pub fn broken_tables_are_not_well_shaped()
    ensures homeless { IsBroken one_vmid (put one_realm 0x4000 (Rtt (second_root (Unassigned Empty)))) }
    ensures too_wide { IsBroken one_vmid (realm_with_root (record new_root { place = record new_root.place { width = 48 } })) }
    ensures above_root { IsBroken one_vmid (put one_realm 0x3000 (Rtt high_table)) }
    ensures below_last { IsBroken one_vmid (put (down_to (Table 0x6000)) 0x6000 (Rtt (bare_table 4 0))) }
    ensures behind_space { IsBroken one_vmid (put one_realm 0x3000 (Rtt table_behind)) }
    ensures off_base { IsBroken one_vmid (realm_with_root (record new_root { place = record new_root.place { base = 0x1000 } })) }
    ensures empty_table { IsBroken one_vmid (realm_with_root (record new_root { entries = [] })) }
    ensures doubled { IsBroken one_vmid (put one_realm 0x3000 (Rtt new_root)) }
{}

/// Nor where a table has no table above it, or the one above has no link to it; nor where a link leads to no table, to another
/// realm's, to one of another level than the next, to one of another number than the link's, or stands at level 3.
pub fn broken_links_are_not_well_shaped()
    ensures orphan { IsBroken one_vmid (put one_realm 0x3000 (Rtt (bare_table 3 0))) }
    ensures unhung { IsBroken one_vmid (put one_realm 0x3000 (Rtt (bare_table 2 0))) }
    ensures unlinked { IsBroken one_vmid (realm_with_root linked_root) }
    ensures foreign_link { IsBroken two_vmids shared_table }
    ensures skipping_link { IsBroken one_vmid
        (tables_and_page (root_then (Table 0x4000)) (table_at 2 0 (two_entries (Unassigned Empty) (Table 0x4000))) (bare_table 3 0x200000)) }
    ensures doubled_link { IsBroken one_vmid (put (realm_with_root (root_then (Table 0x3000))) 0x3000 (Rtt (bare_table 2 0))) }
    ensures last_link { IsBroken one_vmid (put (down_to (Table 0x6000)) 0x6000 (Rtt (bare_table 4 0))) }
{}

/// Nor where an entry doesn't fit its half or its level: an unassigned or an assigned one in the upper half, the host's or one
/// with a page of the host's in the lower half, or a page of either above level 3.
pub fn broken_entries_are_not_well_shaped()
    ensures upper_unassigned { IsBroken one_vmid (realm_with_root (table_at 1 0 (root_entries (Unassigned Empty) (Unassigned Empty)))) }
    ensures upper_page { IsBroken one_vmid (upper_down_to (Assigned Empty 0x5000)) }
    ensures lower_host { IsBroken one_vmid (realm_with_root (table_at 1 0 (root_entries UnassignedNs UnassignedNs))) }
    ensures lower_host_page { IsBroken one_vmid (down_to (AssignedNs 0)) }
    ensures high_page { IsBroken one_vmid (put (realm_with_root (table_at 1 0 (root_entries (Assigned Empty 0x5000) UnassignedNs))) 0x5000 Data) }
    ensures high_host_page { IsBroken one_vmid (realm_with_root (table_at 1 0 (root_entries (Unassigned Empty) (AssignedNs 0)))) }
{}

/// Nor where the page of an entry is no DATA, or two entries have one page, in one table or in two.
pub fn broken_pages_are_not_well_shaped()
    ensures no_data { IsBroken one_vmid (put one_page 0x5000 Delegated) }
    ensures shared_page { IsBroken one_vmid
        (tables_and_page linked_root linked_middle (table_at 3 0 (two_entries (Assigned Empty 0x5000) (Assigned Empty 0x5000)))) }
    ensures page_of_two_tables { IsBroken one_vmid
        (put (put one_page 0x3000 (Rtt (table_at 2 0 (two_entries (Table 0x4000) (Table 0x6000))))) 0x6000
        (Rtt (table_at 3 0x200000 (beginning (Assigned Empty 0x5000))))) }
{}
