//! Where a CPU is.

use memory_map::Pa;

/// In the host's world, or inside a REC of the realm at rd.
#[derive(Clone, Copy)]
pub enum CpuPlace {
    Outside,
    Inside { rec: Pa, rd: Pa },
}
