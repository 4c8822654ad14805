//! How large an entry of a table is.

ghost use Rattle.std.specs.Prelude.{◌<◌};

/// How many bytes an entry of the level covers; past level 3 as much as there.
pub fn entry_size(level: u64) -> u64
    ensures { 0 < result }
{
    match level {
        0 => 1 << 39,
        1 => 1 << 30,
        2 => 1 << 21,
        _ => 1 << 12,
    }
}
