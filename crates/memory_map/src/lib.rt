//! How large a machine is, where its granules lie, and which entry of a translation table maps an address.
//! It promises that a configuration is within its limits, that a granule's address is one of the machine's, and that each function on
//! entries is the definitions' of the same name, at every entry, level and address.
//! Addresses are in bytes, and a granule has 4096 of them (DEN0137, granule). Levels past the lowest count as the lowest.
//! Nothing here takes memory, waits or fails. Texts, the machine and the monitor's core depend on it.
#![tactic(auto)]

mod config;
mod entries;
mod entry_reads;
mod ipa;
mod numbers;
mod pa;
mod page;

pub use config::{Config, GRANULE_BYTES, MOST_GRANULES, granule_at, granule_limit};
pub use entries::{can_be_set, is_live, is_table, linked, passes};
pub use entry_reads::{
    entry_address, entry_ripas, entry_state, is_assigned, is_assigned_ns, is_ram, is_unassigned,
    is_unassigned_ns, ripas_number,
};
pub use ipa::Ipa;
pub use numbers::{entry_number, entry_size, table_number};
pub use pa::Pa;
pub use page::is_page;
pub use rmm_spec::Tag;
