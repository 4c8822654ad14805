//! A condition with its test.

use crate::test::Test;
use rmm_spec::Condition;

/// A condition by its name, and what it asks.
#[derive(Clone, Copy)]
pub struct Asked {
    pub condition: Condition,
    pub test: Test,
}
