//! The address spaces that a realm can have.

/// An address space, by its width and the level of its root (DEN0137, realm parameters).
#[derive(Clone, Copy)]
pub enum Space {
    /// 39 bits, walked from level 1 on.
    Bits39,
    /// 48 bits, walked from level 0 on.
    Bits48,
}

impl Space {
    ghost use Rattle.std.specs.Prelude.{◌≡◌, ◌↔◌, IfSome, IsSome, IsTrue};
    ghost use Rattle.rmm_spec.specs.Step.Terms.{is_space};
    ghost use Rattle.realm_desc.specs.View.{width_of, level_of};

    /// The space of that width whose root is at that level.
    pub fn of(width: u64, level: u64) -> Option<Space>
        ensures found { IsSome result ↔ IsTrue (is_space width level) }
        ensures width { IfSome result (λ space. width_of space ≡ width) }
        ensures level { IfSome result (λ space. level_of space ≡ level) }
    {
        match (width, level) {
            (0x27, 1) => Some(Space::Bits39),
            (0x30, 0) => Some(Space::Bits48),
            _ => None,
        }
    }

    /// How many bits its addresses have.
    pub fn width(self) -> u8
        ensures { result ≡ width_of self }
    {
        match self {
            Space::Bits39 => 0x27,
            Space::Bits48 => 0x30,
        }
    }

    /// The level of its root.
    pub fn start_level(self) -> u8
        ensures { result ≡ level_of self }
    {
        match self {
            Space::Bits39 => 1,
            Space::Bits48 => 0,
        }
    }
}
