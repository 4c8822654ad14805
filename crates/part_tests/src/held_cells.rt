//! Held cells in a list of their own.

use command_core::{Cell, HeldPairs};
use memory_map::Pa;
use rmm_spec::Tag;
use std::test::Fail;

// Whether there is data at 2000, and nothing else.
fn has_data_alone(held: &HeldPairs) -> bool {
    matches!(held.cell(Pa::new(0x2000)), Some(Cell::Data))
        && held.cell(Pa::new(0x3000)).is_none()
        && held.held().len() == 1
}

#[test]
fn a_cell_is_replaced_at_its_granule(rt: HostRuntime) -> Result<(), Fail> {
    let mut held = HeldPairs::new();
    held.push(Pa::new(0x2000), Cell::Delegated);
    let before = held.swap(Pa::new(0x2000), Cell::Data);
    assert!(rt; before.tag() == Tag::Delegated);
    assert!(rt; has_data_alone(&held));
    Ok(())
}
