//! What names and roles keep, as contracts of empty functions.

ghost use Rattle.std.specs.Prelude.{◌≡◌, ℕ, List, slice_get, Some, IsSome};
ghost use Rattle.rmm_spec.specs.declared.function_id.FunctionId.{FunctionId};
ghost use Rattle.merging.specs.Laws.{AreApart, AreBelow, ArePagesApart, NamesAtPlaces};
ghost use Rattle.merging.specs.Names.{names_from, number_in};

/// The words of a command that are granules by their roles are those that the definitions name.
pub fn command_granules()
    ensures { (function : FunctionId) (words : List ℕ) → NamesAtPlaces function words }
{}

/// No two addresses get one name, and none gets that of one past the last.
pub fn names_differ()
    ensures apart { (names : List ℕ) (granules : ℕ) → AreApart names granules }
    ensures below { (names : List ℕ) (granules : ℕ) → AreBelow names granules }
{}

/// Nor do two pages: one that is no granule of the memory keeps its value, and no name is that.
pub fn pages_differ()
    ensures { (memory granules : ℕ) (addresses : List ℕ) → ArePagesApart memory addresses granules }
{}

/// Each address that appears gets a name.
pub fn each_is_named()
    ensures { (names addresses : List ℕ) (place address : ℕ) → slice_get addresses place ≡ Some address
        → IsSome (number_in (names_from names addresses) address) }
{}
